//! A bin that is read, beside others that read it.
ghost use Rattle.std.specs.Prelude.{◌≡◌, ◌≤◌, true, IfSome, IsSomeAnd};
ghost use Rattle.hashkeys.specs.Classes.{covers};
ghost use Rattle.bin_history.specs.Calls.{after};
ghost use Rattle.bin_history.specs.Lawful.{IsLawful};
ghost use Rattle.bin_layout.specs.BinsWithRoles.{IsBinWithRole};
ghost use Rattle.bin_layout.specs.Places.{AreAt};
ghost use Rattle.bin_layout.specs.Views.{IsPlaceOf};

use crate::generations::Generations;
use crate::place::Place;
use crate::state::State;
use bin_history::{Bin, Remap, Value};
use counted_slot::Claim;
use crossbeam_utils::Backoff;
use hashkeys::HashKey;
use std::alloc::Allocator;
use std::marker::Model;
use std::sync::Wait;

/// A bin that may be read. Several may be shown one bin at once, and nobody holds it meanwhile. It
/// has to be released. Contracts see the bin and its role.
pub struct Shown<'a, K: HashKey, V: Value, F: Remap<K, V>, A: Allocator> {
    claim: Claim<'a, State<K, V, F, A>>,
}

impl<'a, K: HashKey, V: Value, F: Remap<K, V>, A: Allocator> Model for Shown<'a, K, V, F, A> {
    ghost use Rattle.std.specs.Prelude.{◌≡◌, Option, IsSome};
    ghost use Rattle.bin_history.specs.Lawful.{BinView};
    ghost use Rattle.count_ledger.specs.Views.{RoleView};

    ghost Value = { Option (BinView K V F × RoleView K V F) };

    ghost use Rattle.generations.specs.Shown.{pair_shown};

    ghost view = { λ s. pair_shown s.claim.value };

    ghost invariant = { λ s. (s.claim.right ≡ 1) × IsSome (pair_shown s.claim.value) };
}

impl<'a, K: HashKey, V: Value, F: Remap<K, V>, A: Allocator + Clone> Shown<'a, K, V, F, A> {
    /// The claim to read as a bin that is shown, or the claim's end where there is no bin.
    fn of(
        place: &'a Place<K, V, F, A>,
        claim: Claim<'a, State<K, V, F, A>>,
    ) -> Option<Shown<'a, K, V, F, A>>
        requires { (claim.right ≡ 1) × (claim.tag ≡ place.now) }
        ensures at { IfSome result
            (λ s. IsSomeAnd s (λ p. AreAt K.eq (after V.eq F.remapped F.merged) place.now p.0 p.1)) }
        ensures lawful { IfSome result
            (λ s. IsSomeAnd s (λ p. IsLawful K.eq K.code (after V.eq F.remapped F.merged) p.0)) }
    {
        let live = match claim.get() {
            State::Live(_, bin) => {
                bin.lawful();
                true
            }
            State::Away => false,
        };
        if live {
            Some(Shown { claim })
        } else {
            claim.leave();
            None
        }
    }

    /// The bin.
    pub fn bin(&self) -> &Bin<K, V, F, A>
        ensures { IsSomeAnd self.now (λ p. result.now ≡ p.0) }
    {
        match self.claim.get() {
            State::Live(_, bin) => bin,
            State::Away => unreachable!(),
        }
    }

    /// Gives the bin back.
    pub fn release(self) {
        let Shown { claim } = self;
        claim.leave();
    }
}

impl<K: HashKey, V: Value, F: Remap<K, V>, A: Allocator + Clone> Generations<K, V, F, A> {
    /// Lets readers come to a place that was never held.
    fn open_up(&self, place: &Place<K, V, F, A>)
        requires { IsPlaceOf self.now place.now }
    {
        if place.is_begun() {
            return;
        }
        if let Some(held) = self.try_hold_at(place) {
            held.release();
        }
    }

    /// Waits for the bin of the hash, to read it beside others.
    pub fn read<R: Wait>(&self, rt: &R, hash: u32) -> Shown<'_, K, V, F, A>
        ensures covers { IsSomeAnd result (λ p. covers p.0.class hash ≡ true) }
        ensures least { IsSomeAnd result (λ p. self.now.n ≤ p.0.class.n) }
        ensures with_role { IsSomeAnd result
            (λ p. IsBinWithRole K.eq K.code (after V.eq F.remapped F.merged) self.now p.0 p.1) }
    {
        let backoff = Backoff::new();
        for _ in rt.forever() {
            let (place, _class) = self.find(hash);
            self.open_up(place);
            if let Some(claim) = place.try_share() {
                if let Some(shown) = Shown::of(place, claim) {
                    return shown;
                }
            }
            backoff.snooze();
        }
        unreachable!()
    }
}
