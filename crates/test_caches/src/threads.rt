//! Clients in threads of their own.
use crate::asserts::assert_same;
use crate::calls::{Caller, Calls, Numbers, put, shown};
use caches::{Cache, CacheCounts};
use clients::Fault;
use std::alloc::Global;
use std::sync::Wait;
use std::thread::{Threads, map_indices};

/// How many clients there are, how many calls of each kind each of them makes, on how many keys, and for how many entries the
/// cache is.
const CLIENTS: usize = 4;

const CALLS: u64 = 1_000;

const KEYS: u64 = 200;

const MOST: usize = 50;

/// A key, by the number of a call: the multiples of 73 go through all keys in a mixed order.
fn key_of(call: u64) -> u64 {
    (call % KEYS).saturating_mul(73) % KEYS
}

/// Puts the thousandfold of keys and the client's number, and gets other keys. Returns how often a value was another key's,
/// how many puts found none, and what is counted.
fn call_each<R: Wait>(
    rt: &R,
    cache: &Numbers,
    number: usize,
) -> Result<(u64, u64, CacheCounts), Fault> {
    let mut client = cache.client()?;
    let mut wrong = 0u64;
    let mut added = 0u64;
    for call in 0..CALLS {
        let key = key_of(call.saturating_add((number as u64).saturating_mul(31)));
        let value = key.saturating_mul(1_000).saturating_add(number as u64);
        let before = put(rt, &mut client, key, value)?;
        added = added.saturating_add(before.is_none() as u64);
        wrong = wrong.saturating_add(is_of_another(before, key));
        let key = key_of(call.saturating_mul(3));
        let found = client.get(rt, &key, 0)?;
        wrong = wrong.saturating_add(is_of_another(found, key));
    }
    Ok((wrong, added, client.counts()))
}

/// 1 where a value is not one that was put at the key.
fn is_of_another(found: Option<u64>, key: u64) -> u64 {
    match found {
        Some(value) => (value / 1_000 != key) as u64,
        None => 0,
    }
}

/// Lets the clients call at the same time. Returns how often a value was another key's, how many puts found none, what all
/// counted, and how many entries are left.
fn call_all<R: Threads + Wait + Sync>(
    rt: &R,
    alloc: Global,
) -> Result<(u64, u64, CacheCounts, u64), Fault> {
    let cache: Numbers = Cache::new(alloc, MOST)?;
    let run = |number: usize| call_each(rt, &cache, number);
    let mut wrong = 0u64;
    let mut added = 0u64;
    let mut counts = CacheCounts::none();
    for answer in map_indices(rt, alloc, CLIENTS, &run)? {
        let (own_wrong, own_added, own_counts) = answer?;
        wrong = wrong.saturating_add(own_wrong);
        added = added.saturating_add(own_added);
        counts = counts.and(own_counts);
    }
    Ok((wrong, added, counts, cache.map().mapping_count()))
}

/// Each get was a hit or a miss, more entries were evicted than may be left, and none over the bound is left. A put that
/// found none added an entry, which was evicted or is left.
#[test]
fn clients_at_work_keep_the_bound(rt: HostRuntime) {
    let (wrong, added, counts, left) = call_all(&rt, rt.alloc()).expect(&rt, "no fault");
    let looked = counts.hits.saturating_add(counts.misses);
    let is_bounded = left <= MOST as u64;
    let has_evicted = counts.evictions > KEYS;
    let is_all = added == counts.evictions.saturating_add(left);
    let found = (wrong, looked, is_bounded, has_evicted, is_all);
    assert_same(&rt, &found, &(0, 4_000, true, true, true));
}

/// Puts keys of its own and drops its client and its handle of the cache, over and over. Shown are how many entries were
/// evicted, how many are left, and how many of those of the first half.
struct ComingAndGoing;

impl Calls for ComingAndGoing {
    type Shown = (u64, u64, u64);

    fn call<R: Wait>(
        &self,
        rt: &R,
        cache: &Numbers,
        last: &mut Caller,
    ) -> Result<(u64, u64, u64), Fault> {
        let mut evictions = 0u64;
        for round in 0..100u64 {
            evictions = evictions.saturating_add(put_ten(rt, cache, round)?);
        }
        let left = cache.map().mapping_count();
        let mut old = 0u64;
        for key in 0..500u64 {
            old = old.saturating_add(last.get(rt, &key, 0)?.is_some() as u64);
        }
        Ok((evictions, left, old))
    }
}

/// Puts ten keys by a client and a handle of its own. Returns how many entries it evicted.
fn put_ten<R: Wait>(rt: &R, cache: &Numbers, round: u64) -> Result<u64, Fault> {
    let mut client: Caller = cache.again()?.client()?;
    for key in 0..10u64 {
        let key = round.saturating_mul(10).saturating_add(key);
        put(rt, &mut client, key, round)?;
    }
    Ok(client.counts().evictions)
}

/// A client that was just taken, by whatever handle, goes on where the hand was left, so the hand comes to each bucket, and
/// no entry of the first half is left.
#[test]
fn clients_that_come_and_go_move_one_hand(rt: HostRuntime) {
    let found = shown(&rt, rt.alloc(), MOST, &ComingAndGoing);
    assert_same(&rt, &found, &(950, 50, 0));
}
