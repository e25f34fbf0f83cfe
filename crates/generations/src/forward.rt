//! Moves of single bins into their halves.
ghost use Rattle.std.specs.Prelude.{◌≡◌, ◌<◌, ◌≤◌};
ghost use Rattle.hashkeys.specs.Limits.{most_bins};
ghost use Rattle.bin_history.specs.Limits.{most_recorded_bins};
ghost use Rattle.bin_history.specs.declared.form.Form.TheVariants.{Recorded};

use crate::generations::Generations;
use bin_history::{Remap, Value};
use bin_layout::{Moved, Refused};
use count_ledger::Ledger;
use crossbeam_utils::Backoff;
use hashkeys::{Class, HashKey};
use std::alloc::{AllocError, Allocator};
use std::sync::Wait;

impl<K: HashKey, V: Value, F: Remap<K, V>, A: Allocator + Clone> Generations<K, V, F, A> {
    /// Replaces the bin of the class by its halves. It waits for nobody.
    ///
    /// # Errors
    ///
    /// `NoMemory`, or `Busy` where the bin is held or read just then. The bin stays.
    pub fn try_forward(&self, ledger: &Ledger<K, V, F, A>, class: Class) -> Result<Moved, Refused>
        requires ledger { ledger.now.id ≡ self.now.ledger }
        requires least { self.now.n ≤ class.n }
        requires size { class.n < most_bins }
        requires few { self.now.form ≡ Recorded → class.n < most_recorded_bins }
    {
        let (place, met) = self.find(class.index());
        let size = met.n();
        if class.n() < size {
            return Ok(Moved::Already);
        }
        if size < class.n() {
            return Ok(Moved::Wider);
        }
        let Some(held) = self.try_hold_at(place) else {
            return Err(Refused::Busy);
        };
        match held.try_halve(ledger) {
            Ok(()) => Ok(Moved::Yes),
            Err((held, refused)) => {
                held.release();
                Err(refused)
            }
        }
    }

    /// Replaces the bin of the class by its halves. It waits until nobody holds or reads the bin.
    ///
    /// # Errors
    ///
    /// For want of memory the bin stays.
    pub fn forward<R: Wait>(
        &self,
        rt: &R,
        ledger: &Ledger<K, V, F, A>,
        class: Class,
    ) -> Result<Moved, AllocError>
        requires ledger { ledger.now.id ≡ self.now.ledger }
        requires least { self.now.n ≤ class.n }
        requires size { class.n < most_bins }
        requires few { self.now.form ≡ Recorded → class.n < most_recorded_bins }
    {
        let backoff = Backoff::new();
        for _ in rt.forever() {
            match self.try_forward(ledger, class) {
                Ok(moved) => return Ok(moved),
                Err(Refused::NoMemory) => return Err(AllocError),
                Err(Refused::Busy) => backoff.snooze(),
            }
        }
        unreachable!()
    }
}
