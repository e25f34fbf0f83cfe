//! A client of a cache.
ghost use Rattle.std.specs.Prelude.{◌≡◌, ◌⊎◌, ◌↔◌, None, Ok, Some, IfErr, IfOk, IsErr, IsErrOf, IsSomeAnd};
ghost use Rattle.std.specs.Prelude.{OnErr, false, is_some};
ghost use Rattle.bin_history.specs.declared.form.Form.TheVariants.{Lean};
ghost use Rattle.bin_history.specs.Sure.{IsNeverRefused};
ghost use Rattle.caches.specs.Caches.{HasCounted, HasEvicted, HasMadeAll, IsAny, IsGot, IsPut, IsTaken};
ghost use Rattle.caches.specs.Counted.{with_get};
ghost use Rattle.chm.specs.Refusals.{IsOfCall};
ghost use Rattle.chm.specs.Sure.{IsMadeOrFull};

use crate::counts::CacheCounts;
use crate::entry::CacheEntry;
use clients::{AsKey, Cursor, Fault, HashKey, NoFunction, OwnedClient, Value};
use std::alloc::{AllocError, Allocator};
use std::sync::{Arc, Mutex, Wait};

/// A client of a cache. It may go to another thread, and gives its place back when it is dropped. It counts what its
/// own calls come to.
#[derive(Drop)]
pub struct CacheClient<K: HashKey, V: Value, A: Allocator> {
    pub(crate) client: OwnedClient<K, CacheEntry<V>, NoFunction, A>,
    pub(crate) most: u64,
    pub(crate) hand: Arc<Mutex<Cursor>, A>,
    pub(crate) alloc: A,
    pub(crate) counts: CacheCounts,
}

impl<K: HashKey, V: Value, A: Allocator + Clone> CacheClient<K, V, A> {
    /// Returns a clone of the value that the last put left at the key; or none where it was removed or evicted
    /// since, or its deadline is not after `time`. An entry that is found counts as used. It locks the key's
    /// bucket, for which it waits, takes time linear in the keys of the bucket, and allocates only what the clone
    /// does.
    ///
    ///     client.put(rt, 1, 5, Some(10), 0, &mut |_, _| ())?;
    ///     assert_eq!(client.get(rt, &1, 9)?, Some(5));
    ///     assert_eq!(client.get(rt, &1, 10)?, None);
    ///
    /// # Errors
    ///
    /// `PassFull` where the client has made all the calls that it may, and `NoMemory` where the value cannot be
    /// copied. The entry is as it was then, and nothing is counted.
    pub fn get<R: Wait>(&mut self, rt: &R, key: &K, time: u64) -> Result<Option<V>, Fault>
        ensures got { IsGot K.eq V.eq self.old.client.map.ledger key.now time self.old.client.pass
            self.new.client.pass result }
        ensures counted { IfOk result (λ value. self.new.counts ≡ with_get (is_some value) self.old.counts) }
        ensures uncounted { OnErr result (self.new.counts ≡ self.old.counts) }
        ensures sure { self.old.client.map.ledger.form ≡ Lean → IsNeverRefused V.is_infallible → IsMadeOrFull result }
        ensures map { self.new.client.map ≡ self.old.client.map }
        ensures most { self.new.most ≡ self.old.most }
    {
        let used = self
            .client
            .modify(rt, key, |entry: &mut CacheEntry<V>| entry.use_at(time))?;
        self.count_get(used)
    }

    /// Returns what `get` returns of the key that the query stands for, as a `&str` stands for a `Text`. No key is made. It
    /// requires a lean map, as that of each new cache is. In all else it does what `get` does.
    ///
    ///     client.put(rt, Text::new(name), 5, None, 0, &mut |_, _| ())?;
    ///     assert_eq!(client.get_as(rt, "one", 0)?, Some(5));
    ///
    /// # Errors
    ///
    /// Those of `get`.
    pub fn get_as<R: Wait, Q: AsKey<K>>(
        &mut self,
        rt: &R,
        query: Q,
        time: u64,
    ) -> Result<Option<V>, Fault>
        requires form { self.old.client.map.ledger.form ≡ Lean }
        ensures got { IsGot K.eq V.eq self.old.client.map.ledger (Q.stands_for query) time self.old.client.pass
            self.new.client.pass result }
        ensures counted { IfOk result (λ value. self.new.counts ≡ with_get (is_some value) self.old.counts) }
        ensures uncounted { OnErr result (self.new.counts ≡ self.old.counts) }
        ensures sure { IsNeverRefused V.is_infallible → IsMadeOrFull result }
        ensures map { self.new.client.map ≡ self.old.client.map }
        ensures most { self.new.most ≡ self.old.most }
    {
        let used = self
            .client
            .modify_as(rt, query, |entry: &mut CacheEntry<V>| entry.use_at(time))?;
        self.count_get(used)
    }

    /// Counts what a get found, and returns it.
    fn count_get(&mut self, used: Option<Result<Option<V>, AllocError>>) -> Result<Option<V>, Fault>
        ensures value { IfOk result (λ value. (used ≡ Some (Ok value))
            ⊎ ((used ≡ None) × (value ≡ None))) }
        ensures copied { OnErr result (IsSomeAnd used IsErr) }
        ensures faults { IfErr result (λ fault. fault ≡ Fault.NoMemory) }
        ensures counted { IfOk result (λ value. self.new.counts ≡ with_get (is_some value) self.old.counts) }
        ensures uncounted { OnErr result (self.new.counts ≡ self.old.counts) }
        ensures most { self.new.most ≡ self.old.most }
        ensures client { self.new.client ≡ self.old.client }
        ensures pass { self.new.client.pass ≡ self.old.client.pass }
    {
        let value = match used {
            Some(copied) => copied?,
            None => None,
        };
        self.counts = self.counts.with_get(value.is_some());
        Ok(value)
    }

    /// Sets the value at the key, until its deadline or for good, and returns the value before, if its deadline is
    /// after `time`. A new entry counts as not used.
    ///
    /// Where the key is new and the cache is full, the client first moves the hand, until enough entries were
    /// evicted, and hands each to the function, after it is gone; no lock is held then. An entry that was used
    /// since the hand passed it stays, and counts as not used from then on; after 64 such entries the next goes
    /// all the same. Ended entries go in any case. The entry of this call is not among them, unless other
    /// clients put entries at the same time.
    ///
    /// It locks the key's bucket twice, for which it waits; a move of the hand locks the hand, a
    /// bucket, and that bucket again for each of its entries. It allocates for a new key whose bucket has entries,
    /// and for the keys of a bucket that the hand passes.
    ///
    ///     assert_eq!(client.put(rt, 1, 5, None, 0, &mut |_, _| ())?, None);
    ///     assert_eq!(client.put(rt, 1, 6, None, 0, &mut |_, _| ())?, Some(5));
    ///
    /// # Errors
    ///
    /// `PassFull` where the client has made all the calls that it may, and `NoMemory`. Nothing was put then; what was
    /// evicted is gone.
    pub fn put<R: Wait, E: FnMut(K, V)>(
        &mut self,
        rt: &R,
        key: K,
        value: V,
        deadline: Option<u64>,
        time: u64,
        evicted: &mut E,
    ) -> Result<Option<V>, Fault>
        requires callable { E.IsAlwaysCallable evicted.old }
        ensures put { IfOk result (IsPut K.eq V.eq E.step evicted.old evicted.new self.old.client.map.ledger key
            (record { value = value; deadline = deadline; used = false }) time self.old.client.pass
            self.new.client.pass) }
        ensures refused { OnErr result (HasEvicted E.step evicted.old evicted.new self.old.client.pass
            self.new.client.pass) }
        ensures counted { HasCounted IsAny self.old.counts self.new.counts self.old.client.pass self.new.client.pass }
        ensures full { IsErrOf result Fault.PassFull → HasMadeAll self.new.client.map.ledger self.new.client.pass }
        ensures stops { HasMadeAll self.old.client.map.ledger self.old.client.pass → IsErrOf result Fault.PassFull
            × (self.new.client.pass ≡ self.old.client.pass) × (evicted.new ≡ evicted.old) }
        ensures faults { IfErr result IsOfCall }
        ensures map { self.new.client.map ≡ self.old.client.map }
        ensures most { self.new.most ≡ self.old.most }
    {
        self.make_room(rt, &key, time, evicted)?;
        let entry = CacheEntry {
            value,
            deadline,
            used: false,
        };
        let before = self.client.put(rt, key, entry)?;
        self.keep_bound(rt, before.is_none(), time, evicted);
        Ok(CacheEntry::live_value(before, time))
    }

    /// Removes the key, and returns the value before, if its deadline is after `time`. It locks the key's bucket, for
    /// which it waits, takes time linear in the keys of the bucket, and allocates nothing.
    ///
    ///     client.put(rt, 1, 5, None, 0, &mut |_, _| ())?;
    ///     assert_eq!(client.remove(rt, &1, 0)?, Some(5));
    ///
    /// # Errors
    ///
    /// `PassFull` where the client has made all the calls that it may. Nothing is changed then.
    pub fn remove<R: Wait>(&mut self, rt: &R, key: &K, time: u64) -> Result<Option<V>, Fault>
        ensures taken { IfOk result (IsTaken K.eq V.eq self.old.client.map.ledger key.now time self.old.client.pass
            self.new.client.pass) }
        ensures refused { OnErr result (self.new.client.pass ≡ self.old.client.pass) }
        ensures full { IsErrOf result Fault.PassFull ↔ HasMadeAll self.old.client.map.ledger self.old.client.pass }
        ensures sure { self.old.client.map.ledger.form ≡ Lean → IsMadeOrFull result }
        ensures faults { IfErr result IsOfCall }
        ensures counts { self.new.counts ≡ self.old.counts }
        ensures map { self.new.client.map ≡ self.old.client.map }
        ensures most { self.new.most ≡ self.old.most }
    {
        let before = self.client.remove(rt, key)?;
        Ok(CacheEntry::live_value(before, time))
    }

    /// Returns how often this client's calls hit, missed and evicted.
    ///
    ///     assert_eq!(client.counts().hits, 1);
    pub fn counts(&self) -> CacheCounts
        ensures { result ≡ self.now.counts }
    {
        self.counts
    }
}
