//! A client of a cache moves the hand of the clock, and evicts entries.
ghost use Rattle.std.specs.Prelude.{◌≡◌, ℕ, IfErr, IfOk, IsErrOf};
ghost use Rattle.caches.specs.Caches.{HasCounted, HasEvicted, HasMadeAll, IsAny, IsOfEnded, LeavesLive, LeavesOrTakes};
ghost use Rattle.caches.specs.Caches.{gone_of};
ghost use Rattle.caches.specs.Counted.{if_gone, only_evictions};
ghost use Rattle.caches.specs.Entries.{is_live};
ghost use Rattle.chm.specs.Refusals.{IsOfCall};
ghost use Rattle.count_ledger.specs.Fronts.{HasSeenMore};

use crate::cache_client::CacheClient;
use crate::entry::CacheEntry;
use clients::{Cursor, Fault, HashKey, NoFunction, OwnedClient, Value};
use std::alloc::Allocator;
use std::sync::Wait;

/// How many used entries the hand spares in a call.
const MOST_SPARED: u64 = 64;

/// Which entries stay when they are passed.
#[derive(Clone, Copy, PartialEq, Eq)]
pub(crate) enum Spared {
    /// Those that were used, and have not ended.
    Used,
    /// Those that have not ended.
    Live,
    /// None, whatever it is.
    Nothing,
}

impl<V: Value> CacheEntry<V> {
    /// Passes an entry, or none: returns what stays of it, and the value that goes.
    fn pass(
        entry: Option<CacheEntry<V>>,
        spared: Spared,
        time: u64,
    ) -> (Option<CacheEntry<V>>, Option<V>)
        ensures left { LeavesOrTakes entry result.0 }
        ensures gone { result.1 ≡ gone_of entry result.0 }
        ensures live { spared ≡ Spared.Live → LeavesLive time entry result.0 }
    {
        match entry {
            Some(entry) => {
                if entry.stays(spared, time) {
                    (Some(entry.passed(spared)), None)
                } else {
                    (None, Some(entry.value))
                }
            }
            None => (None, None),
        }
    }

    /// Whether the entry stays where it is passed.
    fn stays(&self, spared: Spared, time: u64) -> bool
        ensures live { spared ≡ Spared.Live → result ≡ is_live time self.now }
    {
        let spares = match spared {
            Spared::Used => self.used,
            Spared::Live => true,
            Spared::Nothing => false,
        };
        spares && self.is_live(time)
    }

    /// Whether it is as before once it was passed.
    fn is_unmoved(&self, spared: Spared, time: u64) -> bool {
        spared == Spared::Live && self.is_live(time)
    }

    /// An entry that stays: it counts as not used, but where all that have not ended stay.
    fn passed(self, spared: Spared) -> CacheEntry<V>
        ensures value { result.value ≡ self.value }
        ensures deadline { result.deadline ≡ self.deadline }
        ensures live { spared ≡ Spared.Live → result ≡ self }
    {
        CacheEntry {
            used: self.used && spared == Spared::Live,
            ..self
        }
    }
}

/// The keys of a bucket, but for entries that a pass would leave as they are.
#[derive(Drop)]
struct Seen<K, A: Allocator> {
    keys: Vec<K, A>,
    is_short: bool,
    spared: Spared,
    time: u64,
}

impl<K: HashKey, A: Allocator> Seen<K, A> {
    /// Takes a copy of the key, or notes that there was no memory for it.
    fn see<V: Value>(&mut self, key: &K, entry: &CacheEntry<V>) {
        if entry.is_unmoved(self.spared, self.time) {
            return;
        }
        match key.clone() {
            Ok(key) => {
                if self.keys.push(key).is_err() {
                    self.is_short = true;
                }
            }
            Err(_) => self.is_short = true,
        }
    }

    /// The keys, if there was a bucket.
    fn into_keys(self, was_left: bool) -> Result<Option<Vec<K, A>>, Fault>
        ensures faults { IfErr result (λ fault. fault ≡ Fault.NoMemory) }
    {
        let Seen {
            keys,
            is_short,
            spared: _,
            time: _,
        } = self;
        if is_short {
            return Err(Fault::NoMemory);
        }
        Ok(was_left.then_some(keys))
    }
}

/// The number, or one more where an entry is gone.
fn more_if(number: u64, is_gone: bool) -> u64
    ensures { only_evictions result ≡ if_gone is_gone (only_evictions number) }
{
    if is_gone {
        number.saturating_add(1)
    } else {
        number
    }
}

/// The keys of the next bucket of a walk that a pass would not leave as they are; none at the end.
fn keys_of_next<K: HashKey, V: Value, A: Allocator + Clone, R: Wait>(
    rt: &R,
    client: &mut OwnedClient<K, CacheEntry<V>, NoFunction, A>,
    hand: &mut Cursor,
    alloc: A,
    spared: Spared,
    time: u64,
) -> Result<Option<Vec<K, A>>, Fault>
    ensures seen { HasSeenMore client.old.pass client.new.pass }
    ensures faults { IfErr result (λ fault. fault ≡ Fault.NoMemory) }
    ensures map { client.new.map ≡ client.old.map }
{
    let mut seen = Seen {
        keys: Vec::new(alloc),
        is_short: false,
        spared,
        time,
    };
    let mut see = |key: &K, entry: &CacheEntry<V>| seen.see(key, entry);
    let was_left = client.show_next(rt, hand, &mut see);
    seen.into_keys(was_left)
}

impl<K: HashKey, V: Value, A: Allocator + Clone> CacheClient<K, V, A> {
    /// Evicts entries until there are no more than so many.
    #[tactic(auto, using(crate::proofs::Counting::counts))]
    pub(crate) fn evict_to<R: Wait, E: FnMut(K, V)>(
        &mut self,
        rt: &R,
        most: u64,
        time: u64,
        evicted: &mut E,
    ) -> Result<(), Fault>
        requires callable { E.IsAlwaysCallable evicted.old }
        ensures evicted { HasEvicted E.step evicted.old evicted.new self.old.client.pass self.new.client.pass }
        ensures counted { HasCounted IsAny self.old.counts self.new.counts self.old.client.pass self.new.client.pass }
        ensures full { IsErrOf result Fault.PassFull → HasMadeAll self.new.client.map.ledger self.new.client.pass }
        ensures faults { IfErr result IsOfCall }
        ensures callable { E.IsAlwaysCallable evicted.new }
        ensures map { self.new.client.map ≡ self.old.client.map }
        ensures most { self.new.most ≡ self.old.most }
    {
        let mut spared = 0u64;
        for _ in rt.forever() {
            let excess = self.client.map().mapping_count().saturating_sub(most);
            if excess == 0 {
                return Ok(());
            }
            let keys = self.keys_at_hand(rt, time)?;
            spared = spared.saturating_add(self.pass_all(rt, keys, excess, spared, time, evicted)?);
        }
        unreachable!()
    }

    /// Makes room for an entry where the key has none.
    pub(crate) fn make_room<R: Wait, E: FnMut(K, V)>(
        &mut self,
        rt: &R,
        key: &K,
        time: u64,
        evicted: &mut E,
    ) -> Result<(), Fault>
        requires callable { E.IsAlwaysCallable evicted.old }
        ensures evicted { HasEvicted E.step evicted.old evicted.new self.old.client.pass self.new.client.pass }
        ensures counted { HasCounted IsAny self.old.counts self.new.counts self.old.client.pass self.new.client.pass }
        ensures full { IsErrOf result Fault.PassFull → HasMadeAll self.new.client.map.ledger self.new.client.pass }
        ensures stops { HasMadeAll self.old.client.map.ledger self.old.client.pass → IsErrOf result Fault.PassFull
            × (self.new.client.pass ≡ self.old.client.pass) × (evicted.new ≡ evicted.old) }
        ensures faults { IfErr result IsOfCall }
        ensures callable { E.IsAlwaysCallable evicted.new }
        ensures map { self.new.client.map ≡ self.old.client.map }
        ensures most { self.new.most ≡ self.old.most }
    {
        if self.client.contains_key(rt, key)? {
            return Ok(());
        }
        self.evict_to(rt, self.most.saturating_sub(1), time, evicted)
    }

    /// Keeps the bound after a put, which may have added an entry. Where that fails, the next put evicts.
    pub(crate) fn keep_bound<R: Wait, E: FnMut(K, V)>(
        &mut self,
        rt: &R,
        has_added: bool,
        time: u64,
        evicted: &mut E,
    )
        requires callable { E.IsAlwaysCallable evicted.old }
        ensures evicted { HasEvicted E.step evicted.old evicted.new self.old.client.pass self.new.client.pass }
        ensures counted { HasCounted IsAny self.old.counts self.new.counts self.old.client.pass self.new.client.pass }
        ensures map { self.new.client.map ≡ self.old.client.map }
        ensures most { self.new.most ≡ self.old.most }
    {
        if has_added {
            let _ = self.evict_to(rt, self.most, time, evicted);
        }
    }

    /// Moves the hand over a bucket, and returns its keys.
    fn keys_at_hand<R: Wait>(&mut self, rt: &R, time: u64) -> Result<Vec<K, A>, Fault>
        ensures seen { HasSeenMore self.old.client.pass self.new.client.pass }
        ensures faults { IfErr result (λ fault. fault ≡ Fault.NoMemory) }
        ensures counts { self.new.counts ≡ self.old.counts }
        ensures map { self.new.client.map ≡ self.old.client.map }
        ensures most { self.new.most ≡ self.old.most }
    {
        let alloc: A = self.alloc.clone()?;
        let again: A = self.alloc.clone()?;
        let mut guard = self.hand.lock(rt);
        let hand = &mut *guard;
        match keys_of_next(rt, &mut self.client, hand, alloc, Spared::Used, time)? {
            Some(keys) => Ok(keys),
            None => {
                *hand = self.client.cursor();
                Ok(Vec::new(again))
            }
        }
    }

    /// Passes the entries of a bucket until so many were evicted, and returns how many were spared. So many were spared
    /// before.
    #[tactic(auto, using(crate::proofs::Counting::counts))]
    fn pass_all<R: Wait, E: FnMut(K, V)>(
        &mut self,
        rt: &R,
        keys: Vec<K, A>,
        excess: u64,
        before: u64,
        time: u64,
        evicted: &mut E,
    ) -> Result<u64, Fault>
        requires callable { E.IsAlwaysCallable evicted.old }
        ensures evicted { HasEvicted E.step evicted.old evicted.new self.old.client.pass self.new.client.pass }
        ensures counted { HasCounted IsAny self.old.counts self.new.counts self.old.client.pass self.new.client.pass }
        ensures full { IsErrOf result Fault.PassFull → HasMadeAll self.new.client.map.ledger self.new.client.pass }
        ensures faults { IfErr result IsOfCall }
        ensures callable { E.IsAlwaysCallable evicted.new }
        ensures map { self.new.client.map ≡ self.old.client.map }
        ensures most { self.new.most ≡ self.old.most }
    {
        let mut gone = 0u64;
        let mut spared = 0u64;
        for key in keys {
            if gone >= excess {
                break;
            }
            let how = if before.saturating_add(spared) < MOST_SPARED {
                Spared::Used
            } else {
                Spared::Nothing
            };
            if self.pass(rt, key, how, time, evicted)? {
                gone = gone.saturating_add(1);
            } else {
                spared = spared.saturating_add(1);
            }
        }
        Ok(spared)
    }

    /// Passes the entry of a key, and returns whether it was evicted.
    fn pass<R: Wait, E: FnMut(K, V)>(
        &mut self,
        rt: &R,
        key: K,
        spared: Spared,
        time: u64,
        evicted: &mut E,
    ) -> Result<bool, Fault>
        requires callable { E.IsAlwaysCallable evicted.old }
        ensures evicted { HasEvicted E.step evicted.old evicted.new self.old.client.pass self.new.client.pass }
        ensures counted { HasCounted IsAny self.old.counts self.new.counts self.old.client.pass self.new.client.pass }
        ensures live { spared ≡ Spared.Live → HasCounted (IsOfEnded time) self.old.counts self.new.counts
            self.old.client.pass self.new.client.pass }
        ensures told { spared ≡ Spared.Live → IfOk result (λ is_gone. (n : ℕ) → HasCounted (IsOfEnded time)
            (only_evictions n) (if_gone is_gone (only_evictions n)) self.old.client.pass self.new.client.pass) }
        ensures full { IsErrOf result Fault.PassFull → HasMadeAll self.new.client.map.ledger self.new.client.pass }
        ensures faults { IfErr result IsOfCall }
        ensures callable { E.IsAlwaysCallable evicted.new }
        ensures map { self.new.client.map ≡ self.old.client.map }
        ensures most { self.new.most ≡ self.old.most }
    {
        let passed = self.client.update_owned(
            rt,
            &key,
            |entry: Option<CacheEntry<V>>| CacheEntry::pass(entry, spared, time),
        );
        match passed {
            Ok(Some(value)) => {
                self.counts = self.counts.with_eviction();
                evicted(key, value);
                Ok(true)
            }
            Ok(None) => Ok(false),
            Err(refused) => Err(refused.fault),
        }
    }

    /// Removes each entry whose deadline is not after `time`, bucket by bucket, and hands it to the function. Returns how
    /// many there were. It waits for each bucket in turn, takes time linear in the table and its entries, and allocates
    /// the keys of a bucket.
    ///
    ///     client.put(rt, 1, 5, Some(10), 0, &mut |_, _| ())?;
    ///     assert_eq!(client.remove_ended(rt, 9, &mut |_, _| ())?, 0);
    ///     assert_eq!(client.remove_ended(rt, 10, &mut |_, _| ())?, 1);
    ///
    /// # Errors
    ///
    /// `PassFull` where the client has made all the calls that it may, and `NoMemory`. What was removed before is gone.
    #[tactic(auto, using(crate::proofs::Counting::counts))]
    pub fn remove_ended<R: Wait, E: FnMut(K, V)>(
        &mut self,
        rt: &R,
        time: u64,
        evicted: &mut E,
    ) -> Result<u64, Fault>
        requires callable { E.IsAlwaysCallable evicted.old }
        ensures evicted { HasEvicted E.step evicted.old evicted.new self.old.client.pass self.new.client.pass }
        ensures counted { HasCounted (IsOfEnded time) self.old.counts self.new.counts self.old.client.pass
            self.new.client.pass }
        ensures count { IfOk result (λ n. HasCounted (IsOfEnded time) (only_evictions 0) (only_evictions n)
            self.old.client.pass self.new.client.pass) }
        ensures full { IsErrOf result Fault.PassFull → HasMadeAll self.new.client.map.ledger self.new.client.pass }
        ensures faults { IfErr result IsOfCall }
        ensures map { self.new.client.map ≡ self.old.client.map }
        ensures most { self.new.most ≡ self.old.most }
    {
        let mut gone = 0u64;
        let mut hand = self.client.cursor();
        for _ in rt.forever() {
            let alloc: A = self.alloc.clone()?;
            let Some(keys) = keys_of_next(
                rt,
                &mut self.client,
                &mut hand,
                alloc,
                Spared::Live,
                time,
            )?
            else {
                break;
            };
            for key in keys {
                let is_gone = self.pass(rt, key, Spared::Live, time, evicted)?;
                gone = more_if(gone, is_gone);
            }
        }
        Ok(gone)
    }
}
