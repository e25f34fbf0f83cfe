//! Moves of single bins into their halves.
ghost use Rattle.std.specs.Prelude.{◌≡◌, ◌<◌, ◌≤◌};
ghost use Rattle.hashkeys.specs.Classes.{IsTableSize};
ghost use Rattle.hashkeys.specs.Limits.{most_bins};
ghost use Rattle.bin_history.specs.Limits.{most_recorded_bins};
ghost use Rattle.bin_history.specs.declared.form.Form.TheVariants.{Recorded};

use crate::store::{BinStore, StoreKind};
use bin_history::{Remap, Value};
use bin_layout::{Moved, Refused};
use count_ledger::Ledger;
use hashkeys::{Class, HashKey};
use std::alloc::Allocator;

impl<K: HashKey, V: Value, F: Remap<K, V>, A: Allocator + Clone> BinStore<K, V, F, A> {
    /// Replaces the bin of the class by its halves. It waits for nobody.
    ///
    /// # Errors
    ///
    /// `NoMemory`, or `Busy` where another thread has the bin just then. The bin stays.
    pub fn try_forward(&self, ledger: &Ledger<K, V, F, A>, class: Class) -> Result<Moved, Refused>
        requires ledger { ledger.now.id ≡ self.now.ledger }
        requires least { self.now.n ≤ class.n }
        requires size { class.n < most_bins }
        requires few { self.now.form ≡ Recorded → class.n < most_recorded_bins }
    {
        match &self.kind {
            StoreKind::Recorded(home) => home.try_forward(ledger, class),
            StoreKind::Lean(home) => home.try_forward(ledger, class),
        }
    }

    /// Makes what the table of this many bins needs, if it was not made yet: so many bins the map can
    /// then be moved to. It is a power of two from 1 to 2^26, or to 65,536 if the map keeps records.
    /// It waits for nobody.
    ///
    /// # Errors
    ///
    /// `NoMemory`, or `Busy` where another thread is at it just then.
    pub fn try_widen(&self, size: u32) -> Result<(), Refused>
        requires size { IsTableSize size }
        requires few { self.now.form ≡ Recorded → size ≤ most_recorded_bins }
        requires least { self.now.n ≤ size }
    {
        match &self.kind {
            StoreKind::Recorded(home) => home.try_widen(size),
            StoreKind::Lean(home) => home.try_widen(size),
        }
    }
}
