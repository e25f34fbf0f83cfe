//! How the bins of a move are dealt out to calls, by the form of a map.
ghost use Rattle.std.specs.Prelude.{◌≡◌, ◌<◌, ◌++◌, ◌∷◌, [], IfOk, IfSome, OnSome};
ghost use Rattle.std.specs.Prelude.{MatchOption, true, length};
ghost use Rattle.hashkeys.specs.Classes.{IsTableSize};
ghost use Rattle.transfer.specs.Views.{IsUnfinished, is_last};

use bin_history::Form;
use std::alloc::{AllocError, Allocator};
use std::marker::Model;
use transfer::{Finish, Mover, Range, SharedStrides, Strides};

/// The clients of a lean map share so many movers at most: client c takes mover c % 32.
const MOVERS: u32 = 32;

/// The strides of a move, by the map's form.
#[derive(Drop)]
enum Kind<A: Allocator> {
    /// Each mover takes part once.
    Once(Strides<A>),
    /// Clients take a mover up again and again.
    Shared(SharedStrides<A>),
}

/// The strides of a move.
#[derive(Drop)]
pub(crate) struct MoveStrides<A: Allocator> {
    kind: Kind<A>,
}

impl<A: Allocator> Model for MoveStrides<A> {
    ghost use Rattle.transfer.specs.Views.{StridesView};
    ghost use Rattle.chm.specs.MoveStrides.{strides_of};

    ghost Value = { StridesView };

    ghost view = { λ t. strides_of t.kind };
}

impl<A: Allocator + Clone> MoveStrides<A> {
    /// The strides of a move of so many bins in a map of the form with so many clients. In a
    /// recorded map its opener has a mover, with which it moves strides until none is left.
    pub(crate) fn new(
        alloc: A,
        form: Form,
        bins: u32,
        clients: u32,
    ) -> Result<(MoveStrides<A>, Option<Mover>), AllocError>
        requires size { IsTableSize bins }
        requires clients { 0 < clients }
        ensures bins { IfOk result (λ r. r.0.bins ≡ bins) }
        ensures mover { IfOk result (λ r. IfSome r.1 (λ m. m.strides ≡ r.0)) }
    {
        match form {
            Form::Recorded => {
                let (strides, mover) = Strides::new(alloc, bins as usize)?;
                let move_strides = MoveStrides {
                    kind: Kind::Once(strides),
                };
                Ok((move_strides, Some(mover)))
            }
            Form::Lean => {
                let strides = SharedStrides::new(
                    alloc,
                    bins as usize,
                    clients.min(MOVERS) as usize,
                )?;
                let move_strides = MoveStrides {
                    kind: Kind::Shared(strides),
                };
                Ok((move_strides, None))
            }
        }
    }
}

impl<A: Allocator> MoveStrides<A> {
    /// Returns the client's mover, if nobody has it just then.
    pub(crate) fn enter(&self, client: u32) -> Option<Mover>
        ensures { IfSome result (λ m. m.strides ≡ self.now) }
    {
        match &self.kind {
            Kind::Once(strides) => strides.enter(),
            Kind::Shared(strides) => strides.enter((client % MOVERS) as usize),
        }
    }

    /// Takes a client's mover back.
    pub(crate) fn leave(&self, client: u32, mover: Mover)
        requires { mover.strides ≡ self.now }
    {
        match &self.kind {
            Kind::Once(strides) => strides.leave(mover),
            Kind::Shared(strides) => strides.leave((client % MOVERS) as usize, mover),
        }
    }

    /// The next bins for a mover, if any are left.
    pub(crate) fn claim(&self, mover: &mut Mover) -> Option<Range>
        requires { mover.old.strides ≡ self.now }
        ensures book { MatchOption result (mover.new ≡ record mover.old { got_none = true })
            (λ r. mover.new ≡ record mover.old { claimed = mover.old.claimed ++ r ∷ [] }) }
        ensures unfinished { IfSome result (IsUnfinished mover.new) }
        ensures few { OnSome result (length mover.old.claimed < self.now.bins) }
    {
        match &self.kind {
            Kind::Once(strides) => strides.claim(mover),
            Kind::Shared(strides) => strides.claim(mover),
        }
    }

    /// Finishes bins that the mover claimed and has not finished, and says whether they were the
    /// last.
    pub(crate) fn finish(&self, mover: &mut Mover, range: Range) -> Finish
        requires mover { mover.old.strides ≡ self.now }
        requires range { IsUnfinished mover.old range }
        ensures { mover.new
            ≡ record mover.old { finished = mover.old.finished ++ range ∷ []; last = is_last result } }
    {
        match &self.kind {
            Kind::Once(strides) => strides.finish(mover, range),
            Kind::Shared(strides) => strides.finish(mover, range),
        }
    }
}
