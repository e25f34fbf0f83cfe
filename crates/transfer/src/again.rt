//! The strides of a move whose movers enter again and again.
ghost use Rattle.std.specs.Prelude.{◌≡◌, ◌≤◌, ◌<◌, ◌∷◌, [], ◌++◌, true, false, All, IfOk, IfSome, IfNone};
ghost use Rattle.std.specs.Prelude.{IsNone, MatchOption, OnSome, length};
ghost use Rattle.transfer.specs.Books.{AllClaimed, AllFinished};
ghost use Rattle.transfer.specs.Limits.{all_movers, most_bins};
ghost use Rattle.transfer.specs.Ranges.{IsRangeOf};
ghost use Rattle.transfer.specs.Views.{is_last, IsUnfinished, Knows};
ghost use Rattle.transfer.specs.declared.range.Finish.TheVariants.{Last};

use crate::mover::Mover;
use crate::range::{Finish, Range};
use crate::strides::Strides;
use counted_slot::{Counted, FREE, Fits, MARKED, TAKEN};
use std::alloc::{AllocError, Allocator};
use std::marker::Model;
use std::snapshot::Snapshot;

/// A mover that is in its client's place. It is of the move, whatever it did there, and was not told
/// that no range is left.
#[derive(Drop)]
struct Resting {
    mover: Mover,
}

impl Fits for Resting {
    ghost use Rattle.std.specs.Prelude.{◌≡◌, false};

    type Tag = Snapshot<Mover>;

    ghost fits = { λ tag r. (r.mover.strides ≡ tag.value.strides) × (r.mover.got_none ≡ false) };
}

/// A place is FREE while its mover is in it, and MARKED while the mover is out.
type Place = Counted<Option<Resting>>;

/// The ranges of a move of `bins` bins, and a mover for each client, which takes it up, moves a
/// range or more, and puts it back. So a move of any length goes in steps that each take one range.
#[derive(Drop)]
pub struct SharedStrides<A: Allocator> {
    strides: Strides<A>,
    places: Vec<Place, A>,
}

impl<A: Allocator> Model for SharedStrides<A> {
    ghost use Rattle.std.specs.Prelude.{◌≡◌, All};
    ghost use Rattle.transfer.specs.Views.{StridesView};

    ghost Value = { StridesView };

    ghost view = { λ s. s.strides };

    ghost invariant = { λ s. All (λ p. p.value.strides ≡ s.strides) s.places.items };
}

/// A place with a mover in it.
fn place_of(mover: Mover) -> Place
    requires { mover.got_none ≡ false }
    ensures { result.value.strides ≡ mover.strides }
{
    let tag = Snapshot::of(&mover);
    Counted::new(Some(Resting { mover }), &tag)
}

/// The mover of a place, if it is there.
fn take(place: &Place) -> Option<Mover>
    ensures strides { IfSome result (λ m. m.strides ≡ place.now.value.strides) }
    ensures ready { IfSome result (λ m. m.got_none ≡ false) }
{
    if place.load() != FREE {
        return None;
    }
    let (found, claim) = place.turn(FREE, TAKEN);
    if found != FREE {
        claim.done();
        return None;
    }
    let resting = claim.put(None, MARKED)?;
    Some(resting.mover)
}

/// Puts a mover back into its place. Where that is not empty the mover ends.
fn put_back(place: &Place, mover: Mover)
    requires strides { mover.strides ≡ place.now.value.strides }
    requires ready { mover.got_none ≡ false }
{
    let (found, claim) = place.turn(MARKED, TAKEN);
    if found != MARKED {
        claim.done();
        return;
    }
    drop(claim.put(Some(Resting { mover }), FREE));
}

impl<A: Allocator + Clone> SharedStrides<A> {
    /// The strides of a move of 1 to 2^26 bins, with a mover for each of 1 to 64 clients.
    ///
    /// # Errors
    ///
    /// For want of memory.
    pub fn new(alloc: A, bins: usize, clients: usize) -> Result<SharedStrides<A>, AllocError>
        requires bins { (0 < bins) × (bins ≤ most_bins) }
        requires clients { (0 < clients) × (clients ≤ all_movers) }
        ensures { IfOk result (λ s. s.bins ≡ bins) }
    {
        let mut places = Vec::with_capacity(alloc.clone()?, clients)?;
        let (strides, opener) = Strides::new(alloc, bins)?;
        places.push_reserved(place_of(opener));
        for _client in 1..clients {
            let Some(mover) = strides.enter() else {
                break;
            };
            places.push_reserved(place_of(mover));
        }
        Ok(SharedStrides { strides, places })
    }
}

impl<A: Allocator> SharedStrides<A> {
    /// The mover of a client, below the number of clients. There is none while it is out, nor once
    /// it was told that no range is left.
    pub fn enter(&self, client: usize) -> Option<Mover>
        ensures strides { IfSome result (λ m. m.strides ≡ self.now) }
        ensures ready { IfSome result (λ m. m.got_none ≡ false) }
    {
        take(self.places.get(client)?)
    }

    /// Puts the client's mover back, unless it was told that no range is left. What it claimed it
    /// should have finished.
    pub fn leave(&self, client: usize, mover: Mover)
        requires { mover.strides ≡ self.now }
    {
        if mover.got_none {
            return;
        }
        if let Some(place) = self.places.get(client) {
            put_back(place, mover);
        }
    }

    /// The next 16 bins, from 0 upward, the last range cut at the number of bins. `None` says that
    /// all bins are claimed. A mover that got `None` claims no more, and gets it again.
    #[must_use]
    pub fn claim(&self, mover: &mut Mover) -> Option<Range>
        requires { mover.old.strides ≡ self.now }
        ensures book { MatchOption result (mover.new ≡ record mover.old { got_none = true })
            (λ r. mover.new ≡ record mover.old { claimed = mover.old.claimed ++ r ∷ [] }) }
        ensures range { IfSome result (IsRangeOf self.now.bins) }
        ensures later { IfSome result (λ r. All (λ s. s.hi ≤ r.lo) mover.old.claimed) }
        ensures unfinished { IfSome result (IsUnfinished mover.new) }
        ensures few { OnSome result (length mover.old.claimed < self.now.bins) }
        ensures none { mover.old.got_none ≡ false
            → IfNone result (Knows mover.new (AllClaimed self.now.bins)) }
        ensures no_more { mover.old.got_none ≡ true → IsNone result }
    {
        self.strides.claim(mover)
    }

    /// Finishes a range that this mover claimed and has not finished. `Finish::Last` says that with
    /// it all bins are finished, which one mover is told.
    #[must_use]
    pub fn finish(&self, mover: &mut Mover, range: Range) -> Finish
        requires mover { mover.old.strides ≡ self.now }
        requires range { IsUnfinished mover.old range }
        ensures book { mover.new
            ≡ record mover.old { finished = mover.old.finished ++ range ∷ []; last = is_last result } }
        ensures all { result ≡ Last → Knows mover.new (AllFinished self.now.bins) }
    {
        self.strides.finish(mover, range)
    }
}
