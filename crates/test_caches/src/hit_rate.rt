//! How often a cache hits, beside an exact LRU.
use crate::asserts::assert_same;
use crate::calls::{Caller, Calls, Numbers, put, shown};
use clients::Fault;
use std::alloc::{AllocError, Global};
use std::sync::Wait;

/// How many keys there are, for how many entries the cache is, and how many draws are made.
const KEYS: u64 = 1_000;

const MOST: usize = 100;

const DRAWS: u64 = 20_000;

/// The next of numbers that are spread like random ones.
fn next(state: u64) -> u64 {
    state
        .wrapping_mul(6_364_136_223_846_793_005)
        .wrapping_add(1_442_695_040_888_963_407)
}

/// The sums of the weights up to each key. By Zipf's law the weight of the key `k` is as 1 to `k + 1`.
fn sums(alloc: Global) -> Result<Vec<u64>, AllocError> {
    let mut sums = Vec::new(alloc);
    let mut sum = 0u64;
    for key in 0..KEYS {
        sum = sum.saturating_add(1_099_511_627_776 / key.saturating_add(1));
        sums.push(sum)?;
    }
    Ok(sums)
}

/// How many of the sums are no more than the number.
fn count_below(sums: &[u64], number: u64) -> u64 {
    let mut count = 0usize;
    for step in [512usize, 256, 128, 64, 32, 16, 8, 4, 2, 1] {
        let place = count.saturating_add(step).saturating_sub(1);
        if place < sums.len() && sums[place] <= number {
            count = place.saturating_add(1);
        }
    }
    count as u64
}

/// Keys that are drawn with these weights.
fn draws(alloc: Global) -> Result<Vec<u64>, AllocError> {
    let sums = sums(alloc)?;
    let all = sums.last().copied().unwrap_or(1).max(1);
    let mut draws = Vec::new(alloc);
    let mut state = 1u64;
    for _ in 0..DRAWS {
        state = next(state);
        draws.push(count_below(&sums, (state >> 16) % all))?;
    }
    Ok(draws)
}

/// At which place the key is, or how many there are.
fn place_of(kept: &[u64], key: u64) -> usize {
    let mut place = 0usize;
    for it in kept {
        if *it == key {
            break;
        }
        place = place.saturating_add(1);
    }
    place
}

/// How often an exact LRU hits: it keeps the keys in the order of their last use.
fn hits_of_lru(alloc: Global, draws: &[u64]) -> Result<u64, AllocError> {
    let mut kept: Vec<u64> = Vec::new(alloc);
    let mut hits = 0u64;
    for key in draws {
        let place = place_of(&kept, *key);
        if place < kept.len() {
            kept.remove(place);
            hits = hits.saturating_add(1);
        } else if kept.len() >= MOST {
            kept.remove(0);
        }
        kept.push(*key)?;
    }
    Ok(hits)
}

/// Gets each of the keys, and puts it where it is not found. Shown is how often it was.
#[derive(Drop)]
struct Drawing<'a> {
    draws: &'a [u64],
}

impl Calls for Drawing<'_> {
    type Shown = u64;

    fn call<R: Wait>(&self, rt: &R, _cache: &Numbers, client: &mut Caller) -> Result<u64, Fault> {
        for key in self.draws {
            if client.get(rt, key, 0)?.is_none() {
                put(rt, client, *key, *key)?;
            }
        }
        Ok(client.counts().hits)
    }
}

/// Two points of the hit rate are a fiftieth of the draws.
#[test]
fn the_hit_rate_is_within_two_points_of_an_exact_lru(rt: HostRuntime) {
    let draws = draws(rt.alloc()).expect(&rt, "memory");
    let lru = hits_of_lru(rt.alloc(), &draws).expect(&rt, "memory");
    let hits = shown(
        &rt,
        rt.alloc(),
        MOST,
        &Drawing {
            draws: draws.as_slice(),
        },
    );
    let has_hit = lru > DRAWS / 3;
    let is_within = hits.saturating_add(DRAWS / 50) >= lru;
    assert_same(&rt, &(has_hit, is_within), &(true, true));
}
