//! The strides of one move.
ghost use Rattle.std.specs.Prelude.{◌≡◌, ◌≤◌, ◌<◌, [], ◌∷◌, ◌++◌, true, false, All, Contains, IfOk};
ghost use Rattle.std.specs.Prelude.{IfSome, IfNone, IsNone, MatchOption, OnSome, length};
ghost use Rattle.transfer.specs.Books.{AllClaimed, AllFinished};
ghost use Rattle.transfer.specs.Limits.{most_bins};
ghost use Rattle.transfer.specs.Ranges.{IsRangeOf};
ghost use Rattle.transfer.specs.Steps.{Finishes};
ghost use Rattle.transfer.specs.Views.{new_mover, is_last, IsSpare, IsUnfinished, Knows};
ghost use Rattle.transfer.specs.declared.range.Finish.TheVariants.{Last};

use crate::book::{Book, InOrder};
use crate::mover::Mover;
use crate::range::{Finish, Range, STRIDE};
use crate::steps::{ClaimStep, DealStep, FinishStep, OfRange};
use atomic_table::{Seat, Shared, Table};
use counted_slot::{Counted, FREE, MARKED, TAKEN};
use std::alloc::{AllocError, Allocator};
use std::marker::{Brand, Model};
use std::snapshot::Snapshot;

// The opener's mover has the number 0, and those from 1 up are spare.
const MOVERS: usize = 64;

// The word that the next claim begins at, 16 bins further with each claim.
const CLAIMED: usize = 0;

// The word that counts the finished bins.
const FINISHED: usize = 1;

type Words = Shared<(), Book, usize, InOrder>;

// A place is FREE while its mover is in it, and MARKED from then on.
type Place = Counted<Option<Mover>>;

/// The ranges of a move of `bins` bins, and the movers that claim them.
#[derive(Drop)]
pub struct Strides<A: Allocator> {
    table: Table<(), Book, usize, InOrder, A>,
    bins: usize,
    spare: Vec<Place, A>,
}

impl<A: Allocator> Model for Strides<A> {
    ghost use Rattle.std.specs.Prelude.{All, vec_len};
    ghost use Rattle.transfer.specs.Views.{StridesView, move_of, IsMadeOf, IsSpare};

    ghost Value = { StridesView };

    ghost view = { λ s. move_of s.table.shared.table_id s.bins };

    ghost invariant = { λ s. IsMadeOf (move_of s.table.shared.table_id s.bins) s.table.shared.key
        (vec_len s.spare)
        × All (λ p. IsSpare (move_of s.table.shared.table_id s.bins) p.value) s.spare.items };
}

// The spare mover of a place, to whoever comes first.
fn take(place: &Place) -> Option<Mover>
    ensures { IfSome result (λ m. m ≡ place.now.value) }
{
    if place.load() != FREE {
        return None;
    }
    let (found, claim) = place.turn(FREE, TAKEN);
    if found != FREE {
        claim.done();
        return None;
    }
    claim.put(None, MARKED)
}

// Counts the bins of a range as finished, and gives how many were before. The type parameter tells
// the proof of the step which range it is.
fn finish_range<P: OfRange>(words: &Words, seat: &mut Seat<(), Book>, range: Range) -> u64
    requires picked { P.range ≡ range }
    requires table { (seat.old.table_id ≡ words.now.table_id) × (words.now.table_id.words ≡ 2) }
    requires few { words.now.key ≤ most_bins }
    requires claimed { Contains seat.old.me.0.claimed range }
    requires unfinished { ¬ Contains seat.old.me.0.finished range }
    ensures table { seat.new.table_id ≡ seat.old.table_id }
    ensures told { Finishes range seat.old.me.0 result seat.new.me.0 }
{
    words.fetch_add::<FinishStep<P>>(seat, FINISHED, range.width() as u64)
}

impl<A: Allocator + Clone> Strides<A> {
    /// The strides of a move of 1 to 2^26 bins, and its opener's mover. The spare movers wait in
    /// their places.
    pub fn new(alloc: A, bins: usize) -> Result<(Strides<A>, Mover), AllocError>
        requires { (0 < bins) × (bins ≤ most_bins) }
        ensures { IfOk result (λ r. (r.0.bins ≡ bins) × (r.1 ≡ new_mover r.0 0)) }
    {
        let mut spare = Vec::with_capacity(alloc.clone()?, MOVERS - 1)?;
        let (table, mut seat) = Table::of_words(alloc, &[0, 0], &bins)?;
        for _number in 1..MOVERS {
            let mover = Mover {
                got_none: false,
                seat: table.shared.split_seat::<DealStep>(&mut seat),
            };
            let tag = Snapshot::of(&mover);
            spare.push_reserved(Counted::new(Some(mover), &tag));
        }
        let strides = Strides { table, bins, spare };
        Ok((
            strides,
            Mover {
                got_none: false,
                seat,
            },
        ))
    }
}

impl<A: Allocator> Strides<A> {
    /// A spare mover. There are 63, and each is handed out once: `None` says that they are out, and
    /// the caller goes on without helping.
    pub fn enter(&self) -> Option<Mover>
        ensures { IfSome result (IsSpare self.now) }
    {
        self.spare.iter().find_map(take)
    }

    /// Ends a mover for good: it does not go back to its place. What it claimed and has not
    /// finished is never finished.
    pub fn leave(&self, mover: Mover)
        requires { mover.strides ≡ self.now }
    {
        drop(mover);
    }

    /// The next 16 bins, from 0 upward, the last range cut at the number of bins. `None` says
    /// that all bins are claimed. A mover that got `None` claims no more, and gets it again.
    #[must_use]
    pub fn claim(&self, mover: &mut Mover) -> Option<Range>
        requires { mover.old.strides ≡ self.now }
        ensures book { MatchOption result (mover.new ≡ record mover.old { got_none = true })
            (λ r. mover.new ≡ record mover.old { claimed = mover.old.claimed ++ r ∷ [] }) }
        ensures range { IfSome result (IsRangeOf self.now.bins) }
        ensures later { IfSome result (λ r. All (λ s. s.hi ≤ r.lo) mover.old.claimed) }
        ensures unfinished { IfSome result (IsUnfinished mover.new) }
        // So a loop that claims until there is no range ends.
        ensures few { OnSome result (length mover.old.claimed < self.now.bins) }
        ensures none { mover.old.got_none ≡ false
            → IfNone result (Knows mover.new (AllClaimed self.now.bins)) }
        ensures no_more { mover.old.got_none ≡ true → IsNone result }
    {
        if mover.got_none {
            return None;
        }
        let found = self
            .table
            .shared
            .fetch_add::<ClaimStep>(&mut mover.seat, CLAIMED, STRIDE as u64);
        let lo = found as usize;
        if lo >= self.bins {
            mover.got_none = true;
            return None;
        }
        Some(Range {
            lo,
            hi: (lo + STRIDE).min(self.bins),
        })
    }

    /// Finishes a range that this mover claimed and has not finished. `Finish::Last` says that with
    /// it all bins are finished, which one mover is told.
    #[must_use]
    pub fn finish(&self, mover: &mut Mover, range: Range) -> Finish
        requires mover { mover.old.strides ≡ self.now }
        requires range { IsUnfinished mover.old range }
        ensures book { mover.new
            ≡ record mover.old { finished = mover.old.finished ++ range ∷ []; last = is_last result } }
        ensures all { result ≡ Last → Knows mover.new (AllFinished self.now.bins) }
    {
        let found = finish_range::<Brand>(&self.table.shared, &mut mover.seat, range);
        if found + range.width() as u64 == self.bins as u64 {
            Finish::Last
        } else {
            Finish::More
        }
    }
}
