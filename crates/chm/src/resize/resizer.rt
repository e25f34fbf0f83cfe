//! How a map's table grows: one move at a time, from a table of n bins to one of 2n.
ghost use Rattle.std.specs.Prelude.{◌≡◌, ◌≢◌, ◌^◌, ◌≤◌, ◌<◌, ◌/◌, ◌↔◌, true, vec_len, IfOk, IfSome};
ghost use Rattle.hashkeys.specs.Limits.{most_exponent};

use crate::resize::move_strides::MoveStrides;
use bin_history::Form;
use boxcar::slot::{OnceSlot, SlotRule};
use boxcar::tag::Tag;
use hashkeys::Class;
use std::alloc::{AllocError, Allocator};
use std::sync::atomic::Ordering::SeqCst;
use std::sync::atomic::{AtomicIn, Rule};
use transfer::Mover;

/// The widest table has 2 to this many bins, and there is a move from each narrower one.
const MOST_EXPONENT: u32 = 26;

/// The rule of the resize word, which is four times the exponent of the table's size, and the
/// phase.
pub(crate) struct ResizeWord;

impl Rule for ResizeWord {
    ghost use Rattle.std.specs.Prelude.{◌/◌, ◌≤◌};
    ghost use Rattle.hashkeys.specs.Limits.{most_exponent};

    ghost invariant = { λ word. word / 4 ≤ most_exponent };
}

/// Whether a move is open.
#[derive(Clone, Copy, PartialEq, Eq, Debug)]
pub(crate) enum Phase {
    /// No move is open.
    Still,
    /// A move is open, and its strides are being made.
    Opening,
    /// A move is open, and its strides are ready.
    Moving,
}

/// What the resize word said when it was looked at: the table that calls go by has 2 to the
/// exponent bins, and a move from it is open or not.
#[derive(Clone, Copy, PartialEq, Eq, Debug)]
pub(crate) struct ResizeState {
    pub(crate) exponent: u32,
    pub(crate) phase: Phase,
}

impl ResizeState {
    /// The number of bins.
    #[inline(always)]
    pub(crate) fn n(&self) -> u32
        requires { self.now.exponent ≤ most_exponent }
        ensures { result ≡ 2 ^ self.now.exponent }
    {
        1 << self.exponent
    }

    /// Whether a call that met a bin of this class has nothing to do for the table: the table has not
    /// outgrown the bin, and no move is ready for help.
    #[inline(always)]
    pub(crate) fn is_settled_for(&self, class: Class) -> bool
        requires { self.now.exponent ≤ most_exponent }
        ensures { result ≡ true ↔ ((2 ^ self.now.exponent ≤ class.n) × (self.now.phase ≢ Phase.Moving)) }
    {
        self.n() <= class.n() && self.phase != Phase::Moving
    }
}

fn word_of(exponent: u32, phase: Phase) -> u64
    requires { exponent ≤ most_exponent }
    ensures { result / 4 ≡ exponent }
{
    let number = match phase {
        Phase::Still => 0,
        Phase::Opening => 1,
        Phase::Moving => 2,
    };
    4 * u64::from(exponent) + number
}

/// The right of one client to open a move from a table. It is a duty too: it cannot be dropped, so
/// who has it says that the move is `ready`, or `shut`s it for a later call to open.
pub(crate) struct Opening {
    table: ResizeState,
    ghost size: { table.exponent ≤ most_exponent },
}

/// A move from a table of 2 to the exponent bins to one of twice as many, with its strides.
#[derive(Drop)]
pub(crate) struct Resize<A: Allocator> {
    exponent: u32,
    pub(crate) move_strides: MoveStrides<A>,
    ghost size: { exponent ≤ most_exponent },
    ghost whole: { move_strides.bins ≡ 2 ^ exponent },
}

impl<A: Allocator> Resize<A> {
    /// The number of bins that it moves.
    pub(crate) fn n(&self) -> u32
        ensures { result ≡ self.now.move_strides.bins }
    {
        1 << self.exponent
    }
}

/// The rule of a slot for a move: any move may stand there.
pub(crate) struct AnyMove;

impl<A: Allocator> SlotRule<Resize<A>> for AnyMove {
    ghost holds = { λ _ _. Unit {0} };
}

/// The resize word, and for each size of a table but the widest the move from it.
#[derive(Drop)]
pub(crate) struct Resizer<A: Allocator> {
    word: AtomicIn<ResizeWord>,
    moves: Vec<OnceSlot<Resize<A>, AnyMove>, A>,
    ghost all: { vec_len moves ≡ most_exponent },
}

impl<A: Allocator + Clone> Resizer<A> {
    /// A table of `n` bins, and no move.
    pub(crate) fn new(alloc: A, n: u32) -> Result<Resizer<A>, AllocError> {
        let mut moves = Vec::with_capacity(alloc, MOST_EXPONENT as usize)?;
        let none = Tag::empty();
        for _exponent in 0..MOST_EXPONENT {
            moves.push_reserved(OnceSlot::new(&none));
        }
        let exponent = n.trailing_zeros().min(MOST_EXPONENT);
        let word = AtomicIn::new(word_of(exponent, Phase::Still));
        Ok(Resizer { word, moves })
    }

    /// The move that is being opened, in a map of the form with so many clients, and in a recorded
    /// map its opener's mover.
    pub(crate) fn make_move(
        &self,
        opening: &Opening,
        form: Form,
        clients: u32,
    ) -> Result<(Resize<A>, Option<Mover>), AllocError>
        requires { 0 < clients }
        ensures { IfOk result (λ r. IfSome r.1 (λ m. m.strides ≡ r.0.move_strides)) }
    {
        let exponent = opening.table.exponent;
        let alloc = self.allocator().clone()?;
        let (move_strides, mover) = MoveStrides::new(alloc, form, opening.table.n(), clients)?;
        Ok((
            Resize {
                exponent,
                move_strides,
            },
            mover,
        ))
    }
}

impl<A: Allocator> Resizer<A> {
    /// Where the map's memory comes from.
    pub(crate) fn allocator(&self) -> &A {
        self.moves.allocator()
    }

    /// What the resize word says now.
    #[inline(always)]
    pub(crate) fn table(&self) -> ResizeState
        ensures { result.exponent ≤ most_exponent }
    {
        let word = self.word.load(SeqCst);
        let phase = match word % 4 {
            0 => Phase::Still,
            1 => Phase::Opening,
            _ => Phase::Moving,
        };
        ResizeState {
            exponent: (word / 4) as u32,
            phase,
        }
    }

    /// Tries once to open a move from this table.
    pub(crate) fn open(&self, table: ResizeState) -> Option<Opening>
        requires { table.exponent ≤ most_exponent }
        ensures { IfSome result (λ opening. opening.table ≡ table) }
    {
        let still = word_of(table.exponent, Phase::Still);
        let opening = word_of(table.exponent, Phase::Opening);
        match self.word.compare_exchange(still, opening, SeqCst, SeqCst) {
            Ok(_) => Some(Opening { table }),
            Err(_) => None,
        }
    }

    /// Says that the strides of the move are ready.
    pub(crate) fn ready(&self, opening: Opening) {
        let Opening { table } = opening;
        self.word
            .store(word_of(table.exponent, Phase::Moving), SeqCst);
    }

    /// Shuts a move whose table or strides could not be made.
    pub(crate) fn shut(&self, opening: Opening) {
        let Opening { table } = opening;
        self.word
            .store(word_of(table.exponent, Phase::Still), SeqCst);
    }

    /// Makes the table of twice the size the one that calls go by. The mover was told that all bins
    /// of the move are finished, which one is.
    pub(crate) fn publish(&self, resize: &Resize<A>, mover: &Mover)
        requires mover { mover.now.strides ≡ resize.now.move_strides }
        requires last { mover.now.last ≡ true }
    {
        // lent for the proof alone: it shows that the move is finished
        let _ = mover;
        let exponent = (resize.exponent + 1).min(MOST_EXPONENT);
        self.word.store(word_of(exponent, Phase::Still), SeqCst);
    }

    /// Where the move from this table is kept.
    pub(crate) fn slot(&self, table: ResizeState) -> &OnceSlot<Resize<A>, AnyMove>
        requires { table.exponent < most_exponent }
    {
        &self.moves[table.exponent as usize]
    }

    /// The move that is open, once its strides are ready.
    pub(crate) fn open_move(&self, table: ResizeState) -> Option<&Resize<A>> {
        if table.phase == Phase::Moving && table.exponent < MOST_EXPONENT {
            self.slot(table).get()
        } else {
            None
        }
    }
}
