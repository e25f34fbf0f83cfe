//! Bins that are held, to call on them or to halve them.
ghost use Rattle.std.specs.Prelude.{◌≡◌, ◌<◌, true, IfSome, IfErr};
ghost use Rattle.hashkeys.specs.Classes.{covers};
ghost use Rattle.hashkeys.specs.Limits.{most_bins};
ghost use Rattle.bin_history.specs.Calls.{after};
ghost use Rattle.bin_history.specs.Lawful.{IsLawful};
ghost use Rattle.bin_history.specs.Limits.{most_recorded_bins};
ghost use Rattle.bin_history.specs.declared.form.Form.TheVariants.{Recorded};
ghost use Rattle.bin_layout.specs.Places.{AreAt};
ghost use Rattle.bin_layout.specs.Views.{IsPlaceOf};

use crate::generations::Generations;
use crate::place::{AWAY, Place, fill, leave_new};
use crate::state::State;
use bin_history::{Bin, Remap, Value};
use bin_layout::Refused;
use count_ledger::{BinRole, Ledger};
use counted_slot::{Claim, PRESENT};
use crossbeam_utils::Backoff;
use hashkeys::HashKey;
use std::alloc::Allocator;
use std::sync::Wait;

/// A place whose bin is held: the right to put it back there.
pub struct Taken<'a, K: HashKey, V: Value, F: Remap<K, V>, A: Allocator> {
    /// Where the bin was, and goes back to.
    pub at: &'a Place<K, V, F, A>,
    /// The map that it is of.
    pub home: &'a Generations<K, V, F, A>,
    claim: Claim<'a, State<K, V, F, A>>,
    ghost writes: { claim.right ≡ 2 },
    ghost here: { claim.tag ≡ at.now },
    ghost at_home: { IsPlaceOf home.now at.now },
}

/// A bin that is held, with its role. Nobody else has either until it is released or halved, which
/// must happen.
pub struct Held<'a, K: HashKey, V: Value, F: Remap<K, V>, A: Allocator> {
    pub bin: Bin<K, V, F, A>,
    pub role: BinRole<K, V, F>,
    pub place: Taken<'a, K, V, F, A>,
}

impl<K: HashKey, V: Value, F: Remap<K, V>, A: Allocator + Clone> Generations<K, V, F, A> {
    /// Waits for the bin of the hash, and holds it.
    #[inline(always)]
    pub fn hold<R: Wait>(&self, rt: &R, hash: u32) -> Held<'_, K, V, F, A>
        ensures at { AreAt K.eq (after V.eq F.remapped F.merged) result.place.at.now
            result.bin result.role }
        ensures covers { covers result.bin.class hash ≡ true }
        ensures lawful { IsLawful K.eq K.code (after V.eq F.remapped F.merged) result.bin }
        ensures of_map { IsPlaceOf self.now result.place.at.now }
        ensures home { result.place.home.now ≡ self.now }
    {
        match self.hold_widest(hash) {
            Some(held) => held,
            None => self.wait_to_hold(rt, hash),
        }
    }

    /// Waits for the bin of the hash, and holds it, where the first try failed or the place in the
    /// widest table was not begun.
    #[cold]
    #[inline(never)]
    fn wait_to_hold<R: Wait>(&self, rt: &R, hash: u32) -> Held<'_, K, V, F, A>
        ensures at { AreAt K.eq (after V.eq F.remapped F.merged) result.place.at.now
            result.bin result.role }
        ensures covers { covers result.bin.class hash ≡ true }
        ensures lawful { IsLawful K.eq K.code (after V.eq F.remapped F.merged) result.bin }
        ensures of_map { IsPlaceOf self.now result.place.at.now }
        ensures home { result.place.home.now ≡ self.now }
    {
        let backoff = Backoff::new();
        for _ in rt.forever() {
            let (place, _class) = self.find(hash);
            if let Some(held) = self.try_hold_at(place) {
                return held;
            }
            backoff.snooze();
        }
        unreachable!()
    }

    /// Holds the bin of the hash, or none where another thread has it just then. It waits for
    /// nobody.
    pub fn try_hold(&self, hash: u32) -> Option<Held<'_, K, V, F, A>>
        ensures at { IfSome result
            (λ h. AreAt K.eq (after V.eq F.remapped F.merged) h.place.at.now h.bin h.role) }
        ensures covers { IfSome result (λ h. covers h.bin.class hash ≡ true) }
        ensures lawful { IfSome result
            (λ h. IsLawful K.eq K.code (after V.eq F.remapped F.merged) h.bin) }
        ensures of_map { IfSome result (λ h. IsPlaceOf self.now h.place.at.now) }
        ensures home { IfSome result (λ h. h.place.home.now ≡ self.now) }
    {
        let (place, _class) = self.find(hash);
        self.try_hold_at(place)
    }

    /// One try for the bin of the hash in the widest table, where it was held before.
    #[inline(always)]
    fn hold_widest(&self, hash: u32) -> Option<Held<'_, K, V, F, A>>
        ensures at { IfSome result
            (λ h. AreAt K.eq (after V.eq F.remapped F.merged) h.place.at.now h.bin h.role) }
        ensures covers { IfSome result (λ h. covers h.bin.class hash ≡ true) }
        ensures lawful { IfSome result
            (λ h. IsLawful K.eq K.code (after V.eq F.remapped F.merged) h.bin) }
        ensures of_map { IfSome result (λ h. IsPlaceOf self.now h.place.at.now) }
        ensures home { IfSome result (λ h. h.place.home.now ≡ self.now) }
    {
        let place = self.widest_place(hash);
        let claim = place.claim_at_once()?;
        self.take_out(place, claim)
    }

    /// One try for the bin of a place.
    pub(crate) fn try_hold_at<'a>(
        &'a self,
        place: &'a Place<K, V, F, A>,
    ) -> Option<Held<'a, K, V, F, A>>
        requires { IsPlaceOf self.now place.now }
        ensures at { IfSome result
            (λ h. AreAt K.eq (after V.eq F.remapped F.merged) place.now h.bin h.role) }
        ensures lawful { IfSome result
            (λ h. IsLawful K.eq K.code (after V.eq F.remapped F.merged) h.bin) }
        ensures place { IfSome result (λ h. h.place.at.now ≡ place.now) }
        ensures home { IfSome result (λ h. h.place.home.now ≡ self.now) }
    {
        let claim = place.try_claim()?;
        self.take_out(place, claim)
    }

    /// The bin and the role of a place, taken out by a claim to write. There is none where they are
    /// away.
    #[inline(always)]
    fn take_out<'a>(
        &'a self,
        place: &'a Place<K, V, F, A>,
        claim: Claim<'a, State<K, V, F, A>>,
    ) -> Option<Held<'a, K, V, F, A>>
        requires of_map { IsPlaceOf self.now place.now }
        requires claim { (claim.right ≡ 2) × (claim.tag ≡ place.now) }
        ensures at { IfSome result
            (λ h. AreAt K.eq (after V.eq F.remapped F.merged) place.now h.bin h.role) }
        ensures lawful { IfSome result
            (λ h. IsLawful K.eq K.code (after V.eq F.remapped F.merged) h.bin) }
        ensures place { IfSome result (λ h. h.place.at.now ≡ place.now) }
        ensures home { IfSome result (λ h. h.place.home.now ≡ self.now) }
    {
        let State::Live(role, bin) = claim.put(State::Away, AWAY) else {
            return None;
        };
        bin.lawful();
        let claim = place.claim_again()?;
        Some(Held {
            bin,
            role,
            place: Taken {
                at: place,
                home: self,
                claim,
            },
        })
    }
}

impl<'a, K: HashKey, V: Value, F: Remap<K, V>, A: Allocator + Clone> Held<'a, K, V, F, A> {
    /// Gives the bin and its role back. They agree, and are of the class and the ledger that were
    /// held. It waits for nobody.
    pub fn release(self)
        requires { AreAt K.eq (after V.eq F.remapped F.merged) self.place.at.now
            self.bin self.role }
    {
        let Held { bin, role, place } = self;
        place.release(bin, role);
    }

    /// Takes the bin and its role for good. Nothing stays in the place.
    pub(crate) fn take(self) -> (Bin<K, V, F, A>, BinRole<K, V, F>)
        ensures bin { result.0 ≡ self.entry.bin }
        ensures role { result.1 ≡ self.entry.role }
    {
        let Held { bin, role, place } = self;
        place.leave();
        (bin, role)
    }

    /// Puts the two halves of the bin, each with its part of the role, in its place. It waits for
    /// nobody. A lean bin takes memory for the wider table alone, where that is not made yet.
    ///
    /// # Errors
    ///
    /// `NoMemory`, or `Busy` where another thread is in the way. Everything is handed back as it
    /// was.
    pub fn try_halve(
        self,
        ledger: &Ledger<K, V, F, A>,
    ) -> Result<(), (Held<'a, K, V, F, A>, Refused)>
        requires at { AreAt K.eq (after V.eq F.remapped F.merged) self.place.at.now
            self.bin self.role }
        requires ledger { self.role.ledger ≡ ledger.now.id }
        requires size { self.bin.class.n < most_bins }
        requires few { self.bin.form ≡ Recorded → self.bin.class.n < most_recorded_bins }
        ensures bin { IfErr result (λ e. e.0.bin ≡ self.entry.bin) }
        ensures role { IfErr result (λ e. e.0.role ≡ self.entry.role) }
        ensures place { IfErr result (λ e. e.0.place.at.now ≡ self.entry.place.at.now) }
        ensures home { IfErr result (λ e. e.0.place.home.now ≡ self.entry.place.home.now) }
    {
        let home: &'a Generations<K, V, F, A> = self.place.home;
        let (low_claim, high_claim) = match home.claim_halves(self.bin.class()) {
            Ok(claims) => claims,
            Err(refused) => return Err((self, refused)),
        };
        let Held { bin, role, place } = self;
        match bin.split(home.allocator()) {
            Ok((low, high)) => {
                place.leave();
                let (low_role, high_role) = ledger.divide(role);
                fill(low_claim, low, low_role);
                fill(high_claim, high, high_role);
                Ok(())
            }
            Err((bin, error)) => {
                leave_new(low_claim);
                leave_new(high_claim);
                Err((Held { bin, role, place }, error.into()))
            }
        }
    }
}

impl<'a, K: HashKey, V: Value, F: Remap<K, V>, A: Allocator + Clone> Taken<'a, K, V, F, A> {
    /// Gives the bin and its role back to their place. It waits for nobody.
    pub fn release(self, bin: Bin<K, V, F, A>, role: BinRole<K, V, F>)
        requires { AreAt K.eq (after V.eq F.remapped F.merged) self.at.now bin role }
    {
        let Taken {
            at: _,
            home: _,
            claim,
        } = self;
        drop(claim.put(State::Live(role, bin), PRESENT));
    }

    /// Leaves nothing at the place.
    fn leave(self) {
        let Taken {
            at: _,
            home: _,
            claim,
        } = self;
        drop(claim.put(State::Away, AWAY));
    }
}
