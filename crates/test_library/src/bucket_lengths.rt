//! How long a map's buckets are.
use crate::asserts::assert_same;
use clients::{Add, Fault, OwnedClient, Salt, SharedMap, Stats};
use std::alloc::Global;
use std::sync::Wait;

/// A client that owns its pass.
type Owned = OwnedClient<u64, u64, Add, Global>;

/// The example of the call, as it stands with it.
fn example<R: Wait>(rt: &R, client: &mut Owned) -> Result<[bool; 4], Fault> {
    client.put(rt, 1, 5)?;
    let stats = client.stats(rt);
    Ok([
        stats.entries == 1,
        stats.longest == 1,
        stats.lengths[1] == 1,
        stats.lengths[0] == stats.buckets.saturating_sub(1),
    ])
}

#[test]
fn the_example_of_bucket_lengths_is_as_it_says(rt: HostRuntime) {
    let map = SharedMap::with_salt(rt.alloc(), 1, 1, Salt(0)).expect(&rt, "no fault");
    let mut client = map.client().expect(&rt, "a client");
    let found = example(&rt, &mut client).expect(&rt, "no fault");
    assert_same(&rt, &found, &[true; 4]);
}

/// How long the buckets are of a map with the keys 0 to 999, of which 100 were removed.
fn after_growth<R: Wait>(rt: &R, client: &mut Owned) -> Result<Stats, Fault> {
    for key in 0..1000u64 {
        client.put(rt, key, 1)?;
    }
    for key in 0..100u64 {
        client.remove(rt, &key)?;
    }
    Ok(client.stats(rt))
}

/// The number of buckets of each length.
fn all_of(stats: &Stats) -> u64 {
    stats
        .lengths
        .iter()
        .fold(0, |sum: u64, some| sum.saturating_add(*some))
}

/// The entries are 900, each bucket has one length, and some bucket has the length that is said to be
/// the longest.
#[test]
fn each_bucket_is_counted_by_its_length(rt: HostRuntime) {
    let map = SharedMap::with_salt(rt.alloc(), 1, 1, Salt(0)).expect(&rt, "no fault");
    let mut client = map.client().expect(&rt, "a client");
    let none = client.stats(&rt);
    assert_same(
        &rt,
        &(none.entries, none.longest, none.lengths[0] == none.buckets),
        &(0, 0, true),
    );
    let stats = after_growth(&rt, &mut client).expect(&rt, "no fault");
    let place = stats.longest.min(8) as usize;
    assert_same(
        &rt,
        &(stats.entries, all_of(&stats) == stats.buckets),
        &(900, true),
    );
    assert!(rt; stats.longest > 0 && stats.lengths[place] > 0);
}
