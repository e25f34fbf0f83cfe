//! Bins that are halved.
ghost use Rattle.std.specs.Prelude.{◌≡◌, ◌<◌, ◌≤◌, IfErr};
ghost use Rattle.hashkeys.specs.Limits.{most_bins};
ghost use Rattle.bin_history.specs.Calls.{after};
ghost use Rattle.bin_layout.specs.Places.{AreAt};
ghost use Rattle.bin_layout.specs.Views.{place_of};

use crate::bins::LeanBins;
use crate::hold::{BinGuard, Held, give_back};
use bin_history::{Remap, Value};
use bin_layout::{Moved, Refused};
use count_ledger::Ledger;
use hashkeys::{Class, HashKey};
use std::alloc::Allocator;

impl<'a, K: HashKey, V: Value, F: Remap<K, V>, A: Allocator + Clone> Held<'a, K, V, F, A> {
    /// Puts the low half of the bin in its place and the high half in the place so much further,
    /// each with its share of the role. It waits for nobody, and takes memory for the share of the
    /// other place alone, where that is not made yet.
    ///
    /// # Errors
    ///
    /// `NoMemory`, or `Busy` where another thread is in the way. Everything is handed back as it
    /// was.
    pub fn try_halve(
        self,
        ledger: &Ledger<K, V, F, A>,
    ) -> Result<(), (Held<'a, K, V, F, A>, Refused)>
        requires at { AreAt K.eq (after V.eq F.remapped F.merged)
            (place_of self.place.home.now self.place.class) self.bin self.role }
        requires ledger { self.role.ledger ≡ ledger.now.id }
        requires size { self.bin.class.n < most_bins }
        ensures bin { IfErr result (λ e. e.0.bin ≡ self.entry.bin) }
        ensures role { IfErr result (λ e. e.0.role ≡ self.entry.role) }
        ensures place { IfErr result (λ e. place_of e.0.place.home.now e.0.place.class
            ≡ place_of self.entry.place.home.now self.entry.place.class) }
        ensures home { IfErr result (λ e. e.0.place.home.now ≡ self.entry.place.home.now) }
    {
        let home: &'a LeanBins<K, V, F, A> = self.place.home;
        let class = self.bin.class();
        let index = class.index() + class.n();
        let slot_ref = match home.try_slot_ref_for(index) {
            Ok(slot_ref) => slot_ref,
            Err(refused) => return Err((self, refused)),
        };
        let Some(other) = slot_ref.rows.try_begin(slot_ref.at) else {
            return Err((self, Refused::Busy));
        };
        let Held { bin, role, place } = self;
        let BinGuard {
            inner,
            class: _,
            exponent,
            home: _,
        } = place;
        let Ok((low, high)) = bin.split(home.allocator()) else {
            unreachable!()
        };
        let (low_role, high_role) = ledger.divide(role);
        give_back(other, exponent + 1, high, high_role);
        give_back(inner, exponent + 1, low, low_role);
        Ok(())
    }
}

impl<K: HashKey, V: Value, F: Remap<K, V>, A: Allocator + Clone> LeanBins<K, V, F, A> {
    /// Replaces the bin of the class by its halves. It waits for nobody.
    ///
    /// # Errors
    ///
    /// `NoMemory`, or `Busy` where the bin is held just then. The bin stays.
    pub fn try_forward(&self, ledger: &Ledger<K, V, F, A>, class: Class) -> Result<Moved, Refused>
        requires ledger { ledger.now.id ≡ self.now.ledger }
        requires size { class.n < most_bins }
    {
        // It does not wait for a bucket that is locked: the next call on it moves it.
        let Some(held) = self.try_hold_of(class) else {
            return Err(Refused::Busy);
        };
        let size = held.bin.class().n();
        if class.n() != size {
            held.release();
            return Ok(if class.n() < size {
                Moved::Already
            } else {
                Moved::Wider
            });
        }
        match held.try_halve(ledger) {
            Ok(()) => Ok(Moved::Yes),
            Err((held, refused)) => {
                held.release();
                Err(refused)
            }
        }
    }
}
