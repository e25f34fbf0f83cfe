//! Which entries go where the cache is full, and where they go to.
use crate::asserts::assert_same;
use crate::calls::{Caller, Calls, Numbers, put, shown};
use caches::CacheCounts;
use clients::Fault;
use std::sync::Wait;

/// Which of the keys 1 to 8 a client finds, a bit each, from the lowest up.
fn keys_there<R: Wait>(rt: &R, client: &mut Caller) -> Result<u8, Fault> {
    let mut there = 0u8;
    for bit in 0..8u32 {
        if client.get(rt, &(u64::from(bit) + 1), 0)?.is_some() {
            there |= 1u8 << bit;
        }
    }
    Ok(there)
}

/// Fills a cache for four, uses all its entries but this one, and puts one more. Shown is which are there.
#[derive(Drop)]
struct UsingThree {
    unused: u64,
}

impl Calls for UsingThree {
    type Shown = u8;

    fn call<R: Wait>(&self, rt: &R, _cache: &Numbers, client: &mut Caller) -> Result<u8, Fault> {
        for key in 1..5u64 {
            put(rt, client, key, key)?;
        }
        for key in 1..5u64 {
            if key != self.unused {
                client.get(rt, &key, 0)?;
            }
        }
        put(rt, client, 5, 5)?;
        keys_there(rt, client)
    }
}

#[test]
fn the_entry_that_was_not_used_goes(rt: HostRuntime) {
    for (unused, wanted) in [(1, 0b11110), (2, 0b11101), (3, 0b11011), (4, 0b10111)] {
        let found = shown(&rt, rt.alloc(), 4, &UsingThree { unused });
        assert_same(&rt, &(unused, found), &(unused, wanted));
    }
}

/// Puts the keys 1 to 100. Shown are how often the newest was found, and the count at the end.
struct FindingNewest;

impl Calls for FindingNewest {
    type Shown = (u64, u64);

    fn call<R: Wait>(
        &self,
        rt: &R,
        cache: &Numbers,
        client: &mut Caller,
    ) -> Result<(u64, u64), Fault> {
        let mut found = 0u64;
        for key in 1..101u64 {
            put(rt, client, key, key)?;
            let is_there = client.get(rt, &key, 0)? == Some(key);
            found = found.saturating_add(is_there as u64);
        }
        Ok((found, cache.map().mapping_count()))
    }
}

#[test]
fn the_newest_entry_is_there(rt: HostRuntime) {
    assert_same(&rt, &shown(&rt, rt.alloc(), 1, &FindingNewest), &(100, 1));
}

/// The sum of keys, that of their values, and how many of the values are not the hundredfold of their key.
type Sums = (u64, u64, u64);

fn add((keys, values, wrong): Sums, key: u64, value: u64) -> Sums {
    (
        keys.saturating_add(key),
        values.saturating_add(value),
        wrong.saturating_add((value != key.saturating_mul(100)) as u64),
    )
}

/// Puts the hundredfolds of the keys 1 to 50 into a cache for ten. Shown are the sums of what was handed over and of
/// what is left, how many are left, and what is counted by then.
struct HandingOver;

impl Calls for HandingOver {
    type Shown = (Sums, u64, CacheCounts);

    fn call<R: Wait>(
        &self,
        rt: &R,
        _cache: &Numbers,
        client: &mut Caller,
    ) -> Result<(Sums, u64, CacheCounts), Fault> {
        let mut sums = (0, 0, 0);
        let mut take = |key: u64, value: u64| sums = add(sums, key, value);
        for key in 1..51u64 {
            client.put(rt, key, key.saturating_mul(100), None, 0, &mut take)?;
        }
        let counts = client.counts();
        let mut left = 0u64;
        for key in 1..51u64 {
            if let Some(value) = client.get(rt, &key, 0)? {
                sums = add(sums, key, value);
                left = left.saturating_add(1);
            }
        }
        Ok((sums, left, counts))
    }
}

/// 1 to 50 add up to 1,275.
#[test]
fn each_entry_is_left_or_was_handed_over_once(rt: HostRuntime) {
    let counts = CacheCounts {
        hits: 0,
        misses: 0,
        evictions: 40,
    };
    let found = shown(&rt, rt.alloc(), 10, &HandingOver);
    assert_same(&rt, &found, &((1_275, 127_500, 0), 10, counts));
}

/// Fills a cache for 200 with the keys 0 to 199, all used, and puts one more. Shown are the key that went, what is counted,
/// and how many entries are left.
struct UsingAll;

impl Calls for UsingAll {
    type Shown = (u64, CacheCounts, u64);

    fn call<R: Wait>(
        &self,
        rt: &R,
        cache: &Numbers,
        client: &mut Caller,
    ) -> Result<(u64, CacheCounts, u64), Fault> {
        for key in 0..200u64 {
            put(rt, client, key, key)?;
            client.get(rt, &key, 0)?;
        }
        let mut gone = 0u64;
        let mut take = |key: u64, _value: u64| gone = key;
        client.put(rt, 200, 200, None, 0, &mut take)?;
        Ok((gone, client.counts(), cache.map().mapping_count()))
    }
}

/// The cache has 256 buckets, by the last 8 bits of hashes. The first 67 have 64 of the keys, which were all used, and the
/// next one has 160 alone.
#[test]
fn after_64_used_entries_the_next_goes(rt: HostRuntime) {
    let counts = CacheCounts {
        hits: 200,
        misses: 0,
        evictions: 1,
    };
    let found = shown(&rt, rt.alloc(), 200, &UsingAll);
    assert_same(&rt, &found, &(160, counts, 200));
}

/// Puts values at the keys of a full cache for four. Shown are how many were evicted, and which keys are there.
struct PuttingAgain;

impl Calls for PuttingAgain {
    type Shown = (u64, u8);

    fn call<R: Wait>(
        &self,
        rt: &R,
        _cache: &Numbers,
        client: &mut Caller,
    ) -> Result<(u64, u8), Fault> {
        for call in 0..40u64 {
            put(rt, client, call % 4 + 1, call / 4)?;
        }
        Ok((client.counts().evictions, keys_there(rt, client)?))
    }
}

#[test]
fn a_put_at_a_key_that_is_there_evicts_nothing(rt: HostRuntime) {
    let found = shown(&rt, rt.alloc(), 4, &PuttingAgain);
    assert_same(&rt, &found, &(0, 0b1111));
}
