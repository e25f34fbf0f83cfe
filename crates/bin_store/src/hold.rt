//! Bins that are held, to call on them or to halve them.
ghost use Rattle.std.specs.Prelude.{◌≡◌, ◌<◌, true, IfSome, IfErr};
ghost use Rattle.hashkeys.specs.Classes.{covers};
ghost use Rattle.hashkeys.specs.Limits.{most_bins};
ghost use Rattle.bin_history.specs.Calls.{after};
ghost use Rattle.bin_history.specs.Lawful.{IsLawful};
ghost use Rattle.bin_history.specs.Limits.{most_recorded_bins};
ghost use Rattle.bin_history.specs.declared.form.Form.TheVariants.{Recorded};
ghost use Rattle.bin_layout.specs.Places.{AreAt};
ghost use Rattle.bin_layout.specs.Views.{IsPlaceOf};
ghost use Rattle.bin_store.specs.Places.{home_of, tag_of};

use crate::store::{BinStore, StoreKind};
use bin_history::{Bin, Remap, Value};
use bin_layout::Refused;
use count_ledger::{BinRole, Ledger};
use hashkeys::HashKey;
use std::alloc::Allocator;
use std::sync::Wait;

/// A place whose bin is held: the right to put it back there.
pub enum Place<'a, K: HashKey, V: Value, F: Remap<K, V>, A: Allocator> {
    Recorded(generations::Taken<'a, K, V, F, A>),
    Lean(lean_bins::BinGuard<'a, K, V, F, A>),
}

/// A bin that is held, with its role. Nobody else has either until it is released or halved, which
/// must happen.
pub struct Held<'a, K: HashKey, V: Value, F: Remap<K, V>, A: Allocator> {
    pub bin: Bin<K, V, F, A>,
    pub role: BinRole<K, V, F>,
    pub place: Place<'a, K, V, F, A>,
}

impl<K: HashKey, V: Value, F: Remap<K, V>, A: Allocator + Clone> BinStore<K, V, F, A> {
    /// Waits for the bin of the hash, and holds it.
    #[inline(never)]
    pub fn hold<R: Wait>(&self, rt: &R, hash: u32) -> Held<'_, K, V, F, A>
        ensures at { AreAt K.eq (after V.eq F.remapped F.merged) (tag_of result.place)
            result.bin result.role }
        ensures covers { covers result.bin.class hash ≡ true }
        ensures lawful { IsLawful K.eq K.code (after V.eq F.remapped F.merged) result.bin }
        ensures of_map { IsPlaceOf self.now (tag_of result.place) }
        ensures home { home_of result.place ≡ self.now }
    {
        match &self.kind {
            StoreKind::Recorded(home) => {
                let generations::Held { bin, role, place } = home.hold(rt, hash);
                Held {
                    bin,
                    role,
                    place: Place::Recorded(place),
                }
            }
            StoreKind::Lean(home) => {
                let lean_bins::Held { bin, role, place } = home.hold(rt, hash);
                Held {
                    bin,
                    role,
                    place: Place::Lean(place),
                }
            }
        }
    }

    /// Holds the bin of the hash, or none where another thread has it just then. It waits for
    /// nobody.
    pub fn try_hold(&self, hash: u32) -> Option<Held<'_, K, V, F, A>>
        ensures at { IfSome result
            (λ h. AreAt K.eq (after V.eq F.remapped F.merged) (tag_of h.place) h.bin h.role) }
        ensures covers { IfSome result (λ h. covers h.bin.class hash ≡ true) }
        ensures lawful { IfSome result
            (λ h. IsLawful K.eq K.code (after V.eq F.remapped F.merged) h.bin) }
        ensures of_map { IfSome result (λ h. IsPlaceOf self.now (tag_of h.place)) }
        ensures home { IfSome result (λ h. home_of h.place ≡ self.now) }
    {
        match &self.kind {
            StoreKind::Recorded(home) => {
                let generations::Held { bin, role, place } = home.try_hold(hash)?;
                Some(Held {
                    bin,
                    role,
                    place: Place::Recorded(place),
                })
            }
            StoreKind::Lean(home) => {
                let lean_bins::Held { bin, role, place } = home.try_hold(hash)?;
                Some(Held {
                    bin,
                    role,
                    place: Place::Lean(place),
                })
            }
        }
    }
}

impl<'a, K: HashKey, V: Value, F: Remap<K, V>, A: Allocator + Clone> Held<'a, K, V, F, A> {
    /// Gives the bin and its role back. They agree, and are of the class and the ledger that were
    /// held. It waits for nobody.
    #[inline(always)]
    pub fn release(self)
        requires { AreAt K.eq (after V.eq F.remapped F.merged) (tag_of self.place)
            self.bin self.role }
    {
        let Held { bin, role, place } = self;
        match place {
            Place::Recorded(place) => place.release(bin, role),
            Place::Lean(place) => place.put_back(bin, role),
        }
    }

    /// Puts the two halves of the bin, each with its part of the role, in its place. It waits for
    /// nobody.
    ///
    /// # Errors
    ///
    /// `NoMemory`, or `Busy` where another thread is in the way. Everything is handed back as it
    /// was.
    pub fn try_halve(
        self,
        ledger: &Ledger<K, V, F, A>,
    ) -> Result<(), (Held<'a, K, V, F, A>, Refused)>
        requires at { AreAt K.eq (after V.eq F.remapped F.merged) (tag_of self.place)
            self.bin self.role }
        requires ledger { self.role.ledger ≡ ledger.now.id }
        requires size { self.bin.class.n < most_bins }
        requires few { self.bin.form ≡ Recorded → self.bin.class.n < most_recorded_bins }
        ensures bin { IfErr result (λ e. e.0.bin ≡ self.entry.bin) }
        ensures role { IfErr result (λ e. e.0.role ≡ self.entry.role) }
        ensures place { IfErr result (λ e. tag_of e.0.place ≡ tag_of self.entry.place) }
        ensures home { IfErr result (λ e. home_of e.0.place ≡ home_of self.entry.place) }
    {
        let Held { bin, role, place } = self;
        match place {
            Place::Recorded(place) => {
                match (generations::Held { bin, role, place }).try_halve(ledger) {
                    Ok(()) => Ok(()),
                    Err((held, refused)) => {
                        let generations::Held { bin, role, place } = held;
                        let place = Place::Recorded(place);
                        Err((Held { bin, role, place }, refused))
                    }
                }
            }
            Place::Lean(place) => {
                match (lean_bins::Held { bin, role, place }).try_halve(ledger) {
                    Ok(()) => Ok(()),
                    Err((held, refused)) => {
                        let lean_bins::Held { bin, role, place } = held;
                        let place = Place::Lean(place);
                        Err((Held { bin, role, place }, refused))
                    }
                }
            }
        }
    }
}
