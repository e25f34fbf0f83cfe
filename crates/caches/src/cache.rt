//! A cache with clients that come and go.
ghost use Rattle.std.specs.Prelude.{◌≡◌, ◌⊎◌, IfErr, IfOk, List};
ghost use Rattle.bin_history.specs.declared.form.Form.TheVariants.{Lean};
ghost use Rattle.bin_history.specs.Limits.{most_clients, most_lean_clients};
ghost use Rattle.caches.specs.declared.entry.CacheEntry.{CacheEntry};
ghost use Rattle.chm.specs.Opened.{IsLimited, IsNew};
ghost use Rattle.chm.specs.Refusals.{IsCapacityOf};
ghost use Rattle.count_ledger.specs.Views.{PassView};
ghost use Rattle.functions.specs.declared.nothing.NoFunction.{NoFunction};

use crate::cache_client::CacheClient;
use crate::counts::CacheCounts;
use crate::entry::CacheEntry;
use clients::{Cursor, Fault, HashKey, Map, NoFunction, SharedMap, Value};
use std::alloc::{AllocError, Allocator};
use std::sync::{Arc, Mutex};

/// A cache of at most so many entries, and one more for each client at work, with clients that come and go. It is
/// a shared map of entries, and has the hand of a clock, which its clients move over the buckets when the cache is
/// full: an entry that was used since the hand passed it stays, any other goes.
#[derive(Drop)]
pub struct Cache<K: HashKey, V: Value, A: Allocator> {
    pub(crate) map: SharedMap<K, CacheEntry<V>, NoFunction, A>,
    most: u64,
    hand: Arc<Mutex<Cursor>, A>,
    alloc: A,
}

impl<K: HashKey, V: Value, A: Allocator + Clone> Cache<K, V, A> {
    /// Opens a cache without entries that keeps at most so many: 1 to 2^26. Its table has the least power of two of
    /// buckets that is at least that number. It allocates the table and the hand, and waits for nobody.
    ///
    ///     let cache: Cache<u64, u64, Global> = Cache::new(alloc, 1_000)?;
    ///
    /// # Errors
    ///
    /// `BadCapacity` where the number is not 1 to 2^26; and `NoMemory`.
    pub fn new(alloc: A, most: usize) -> Result<Cache<K, V, A>, Fault>
        ensures new { IfOk result (λ c. (all : List (PassView K (CacheEntry V) NoFunction))
            × IsNew Lean (record { 0 = 0 }) most most_lean_clients c.map all) }
        ensures limits { IsLimited (IsCapacityOf Lean most) (most_clients Lean) most_lean_clients result }
        ensures most { IfOk result (λ c. c.most ≡ most) }
    {
        let own: Result<A, AllocError> = alloc.clone();
        let map = SharedMap::new(alloc, most)?;
        Cache::of(map, most as u64, own?)
    }

    /// The cache of a map, with a hand at the first bucket.
    fn of(
        map: SharedMap<K, CacheEntry<V>, NoFunction, A>,
        most: u64,
        alloc: A,
    ) -> Result<Cache<K, V, A>, Fault>
        ensures map { IfOk result (λ c. c.map ≡ map) }
        ensures most { IfOk result (λ c. c.most ≡ most) }
        ensures faults { IfErr result (λ fault. fault ≡ Fault.NoMemory) }
    {
        let own: A = alloc.clone()?;
        let cursor = map.map().cursor();
        let hand = Arc::new(own, Mutex::new(cursor))?;
        Ok(Cache {
            map,
            most,
            hand,
            alloc,
        })
    }

    /// Returns one more handle of the same cache, for a thread that outlives the borrow of the cache. It takes
    /// constant time, allocates only what a copy of the allocator does, and waits for nobody.
    ///
    ///     let other = cache.again()?;
    ///
    /// # Errors
    ///
    /// `NoMemory` if 2^63 clients and handles of the cache exist, or if the allocator cannot be copied.
    pub fn again(&self) -> Result<Cache<K, V, A>, Fault>
        ensures map { IfOk result (λ c. c.map ≡ self.now.map) }
        ensures most { IfOk result (λ c. c.most ≡ self.now.most) }
        ensures faults { IfErr result (λ fault. fault ≡ Fault.NoMemory) }
    {
        Ok(Cache {
            map: self.map.again()?,
            most: self.most,
            hand: Arc::try_clone(&self.hand)?,
            alloc: self.alloc.clone()?,
        })
    }

    /// Returns a client of the cache, as `SharedMap::client` returns one of a map. It may go to another thread, and
    /// gives its place back when it is dropped.
    ///
    ///     let mut client = cache.client()?;
    ///
    /// # Errors
    ///
    /// `NoClient` where no client is free; and `NoMemory`.
    pub fn client(&self) -> Result<CacheClient<K, V, A>, Fault>
        ensures map { IfOk result (λ c. c.client.map ≡ self.now.map) }
        ensures most { IfOk result (λ c. c.most ≡ self.now.most) }
        ensures counts { IfOk result (λ c. c.counts ≡ record { hits = 0; misses = 0; evictions = 0 }) }
        ensures faults { IfErr result (λ fault. (fault ≡ Fault.NoMemory) ⊎ (fault ≡ Fault.NoClient)) }
    {
        let hand = Arc::try_clone(&self.hand)?;
        let alloc = self.alloc.clone()?;
        Ok(CacheClient {
            client: self.map.client()?,
            most: self.most,
            hand,
            alloc,
            counts: CacheCounts::none(),
        })
    }

    /// Returns the map of the entries, which shows what needs no client. `mapping_count` of it says how many
    /// entries there are, ended ones among them.
    ///
    ///     assert_eq!(cache.map().mapping_count(), 1);
    pub fn map(&self) -> &Map<K, CacheEntry<V>, NoFunction, A>
        ensures { result.now ≡ self.now.map }
    {
        self.map.map()
    }

    /// Returns how many entries the cache keeps at most.
    ///
    ///     assert_eq!(cache.most(), 1_000);
    pub fn most(&self) -> u64
        ensures { result ≡ self.now.most }
    {
        self.most
    }
}
