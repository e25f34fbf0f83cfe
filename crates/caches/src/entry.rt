//! What a cache keeps of a key.
ghost use Rattle.std.specs.Prelude.{◌≡◌, IfOk, IsOk, OnErr, Some};
ghost use Rattle.bin_history.specs.Sure.{IsNeverRefused};
ghost use Rattle.caches.specs.Entries.{is_live, live_value, used_at};

use clients::{Exact, Value};
use std::alloc::AllocError;

/// A value, the time at which it ends, and whether it was used since the hand of the cache passed it. With no
/// deadline it never ends. Times are numbers of the program's clock, such as milliseconds.
/// Entries are equal where their values are.
#[derive(Clone, Debug, Drop)]
pub struct CacheEntry<V> {
    pub value: V,
    pub deadline: Option<u64>,
    pub used: bool,
}

impl<V: Exact> Exact for CacheEntry<V> {
    ghost use Rattle.std.proofs.Common.{rules};

    ghost copies_exactly = { Prim.search rules };
}

impl<V: PartialEq> PartialEq for CacheEntry<V> {
    ghost use Rattle.caches.specs.Entries.{same_entry};

    ghost eq = { same_entry V.eq };

    ghost laws = { record {
      symm = λ x y. V.laws.symm x.value y.value;
      trans = λ x y z. V.laws.trans x.value y.value z.value;
    } };

    fn eq(&self, other: &CacheEntry<V>) -> bool {
        self.value == other.value
    }
}

impl<V: Eq> Eq for CacheEntry<V> {
    ghost laws = { record {
      refl = λ x. V.Eq.laws.refl x.value;
      symm = λ x y. V.Eq.laws.symm x.value y.value;
      congr = λ x y z. V.Eq.laws.congr x.value y.value z.value;
    } };
}

impl<V: Value> CacheEntry<V> {
    /// Returns whether the deadline is still to come.
    pub fn is_live(&self, time: u64) -> bool
        ensures { result ≡ is_live time self.now }
    {
        match self.deadline {
            Some(deadline) => time < deadline,
            None => true,
        }
    }

    /// Returns a clone of the value, and notes that the entry was used; or none where its deadline has come.
    pub(crate) fn use_at(&mut self, time: u64) -> Result<Option<V>, AllocError>
        ensures value { IfOk result (λ value. value ≡ live_value time (Some self.old)) }
        ensures entry { IfOk result (λ value. self.new ≡ used_at time self.old) }
        ensures same { OnErr result (self.new ≡ self.old) }
        ensures sure { IsNeverRefused V.is_infallible → IsOk result }
    {
        if !self.is_live(time) {
            return Ok(None);
        }
        let value = self.value.clone()?;
        self.used = true;
        Ok(Some(value))
    }

    /// Returns the value, where there is one and its deadline is still to come.
    pub(crate) fn live_value(entry: Option<CacheEntry<V>>, time: u64) -> Option<V>
        ensures { result ≡ live_value time entry }
    {
        match entry {
            Some(entry) => {
                if entry.is_live(time) {
                    Some(entry.value)
                } else {
                    None
                }
            }
            None => None,
        }
    }
}
