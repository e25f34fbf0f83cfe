//! All entries at once, where several keys share a bucket.
use crate::asserts::assert_same;
use clients::{Add, Fault, Map, OwnedClient, Salt, SharedMap, Stats};
use std::alloc::{Allocator, Global};
use std::sync::Wait;
use test_support::Refusing;

type Numbers = SharedMap<u64, u64, Add, Global>;

type Owned = OwnedClient<u64, u64, Add, Global>;

/// Under the salt 0, of 64 buckets, the first has the first nine of these keys, the second the next two,
/// the 15th the key 1, and the 29th the key 2. That is fewer keys than a quarter of the buckets, so the
/// table does not grow.
const KEYS: [u64; 13] = [0, 32, 63, 95, 190, 285, 348, 380, 443, 31, 64, 1, 2];

/// Puts each of the keys with itself, and counts.
fn counted<R: Wait>(rt: &R, client: &mut Owned) -> Result<Stats, Fault> {
    for place in 0..13usize {
        client.put(rt, KEYS[place], KEYS[place])?;
    }
    Ok(client.stats(rt))
}

#[test]
fn each_bucket_of_a_table_is_counted_once(rt: HostRuntime) {
    let map: Numbers = SharedMap::with_salt(rt.alloc(), 64, 1, Salt(0)).expect(&rt, "no fault");
    let mut client = map.client().expect(&rt, "a client");
    let found = counted(&rt, &mut client).expect(&rt, "no fault");
    let wanted = Stats {
        buckets: 64,
        entries: 13,
        longest: 9,
        lengths: [60, 2, 1, 0, 0, 0, 0, 0, 1],
    };
    assert_same(&rt, &found, &wanted);
}

/// What is printed of entries in four buckets, two of them in the first, and what the closed map prints
/// of them.
fn printed<R: Wait>(rt: &R, alloc: Global) -> Result<[String; 2], Fault> {
    let map: Numbers = SharedMap::with_salt(alloc, 64, 1, Salt(0))?;
    let mut client = map.client()?;
    client.put(rt, 31, 7)?;
    client.put(rt, 1, 9)?;
    client.put(rt, 0, 5)?;
    client.put(rt, 32, 6)?;
    client.put(rt, 2, 8)?;
    let live = format!(in alloc; "{:?}", client.shown(rt)?)?;
    drop(client);
    let closed = map.close().map_err(|_| Fault::NoMemory)?;
    Ok([live, format!(in alloc; "{:?}", closed.shown())?])
}

/// The buckets are printed in the order in which they lie in the table, and the entries of a bucket in
/// the order in which their keys came.
#[test]
fn each_entry_is_printed_once_in_its_order(rt: HostRuntime) {
    let texts = printed(&rt, rt.alloc()).expect(&rt, "no fault");
    let wanted = "{0: 5, 32: 6, 31: 7, 1: 9, 2: 8}";
    assert_same(&rt, &texts[0].as_str(), &wanted);
    assert_same(&rt, &texts[1].as_str(), &wanted);
}

/// Whether a call is out of memory at a key that shares its bucket with another, where the first request
/// is refused; how often its function was called; and how many keys there are then.
fn refused_entry<R: Wait, A: Allocator + Clone>(
    rt: &R,
    (switch, alloc): (&Refusing<Global>, A),
) -> Result<(Option<Fault>, u64, usize), Fault> {
    let map: SharedMap<u64, u64, Add, A> = SharedMap::with_salt(alloc, 64, 1, Salt(0))?;
    let mut client = map.client()?;
    client.put(rt, 0, 5)?;
    switch.refuse_after(0);
    let mut calls = 0u64;
    let fault = client
        .get_or_insert_with(rt, &32, || {
            calls = calls.wrapping_add(1);
            6
        })
        .err();
    Ok((fault, calls, client.len()))
}

#[test]
fn a_function_that_makes_a_value_is_not_called_without_memory_for_its_entry(rt: HostRuntime) {
    let switch = Refusing::new(rt.alloc());
    let told = refused_entry(&rt, (&switch, &switch)).expect(&rt, "no fault");
    assert_same(&rt, &told, &(Some(Fault::NoMemory), 0, 1));
}

/// Puts five prices, raises each by a tenth, makes a sixth, and removes all but those from 40 to 99.
/// Returns what the calls count, whether prices are there that should be and that should not, and what
/// is left, printed.
fn keep_prices<R: Wait>(
    rt: &R,
    alloc: Global,
    client: &mut Owned,
) -> Result<([u64; 5], [bool; 2], String), Fault> {
    client.put_all(rt, vec![in alloc; (7, 100), (8, 900)]?)?;
    client.put_all(rt, (1..4).map(|article: u64| (article, article / 2)))?;
    let raised = client.replace_all(rt, |_article, price| price.saturating_add(price / 10))?;
    let has_new = client.contains_value(rt, &110);
    let has_old = client.contains_value(rt, &100);
    let made = client.get_or_insert_with(rt, &9, || 50)?;
    let found = client.get_or_insert_with(rt, &9, || 60)?;
    let removed = client.retain(rt, |_article, price| *price >= 40 && *price < 100)?;
    let left = format!(in alloc; "{:?}", client.shown(rt)?)?;
    let entries = client.stats(rt).entries;
    Ok((
        [raised, made, found, removed, entries],
        [has_new, has_old],
        left,
    ))
}

#[test]
fn prices_are_raised_and_removed(rt: HostRuntime) {
    let map: Numbers = SharedMap::with_salt(rt.alloc(), 16, 1, Salt(0)).expect(&rt, "no fault");
    let mut client = map.client().expect(&rt, "a client");
    let (counts, has, left) = keep_prices(&rt, rt.alloc(), &mut client).expect(&rt, "no fault");
    assert_same(&rt, &(counts, has), &([5, 50, 50, 5, 1], [true, false]));
    assert_same(&rt, &left.as_str(), &"{9: 50}");
}

/// A recorded map without entries, for two clients.
fn recorded(alloc: Global) -> Result<Numbers, Fault> {
    let (map, passes) = Map::new(alloc, 1, 1)?;
    let closed = map.close(passes).map_err(|refused| refused.give_up())?;
    SharedMap::reopen(&closed, 2)
}

#[test]
fn prices_of_a_recorded_map_are_raised_and_removed(rt: HostRuntime) {
    let map = recorded(rt.alloc()).expect(&rt, "no fault");
    let mut client = map.client().expect(&rt, "a client");
    let (counts, has, left) = keep_prices(&rt, rt.alloc(), &mut client).expect(&rt, "no fault");
    assert_same(&rt, &(counts, has), &([5, 50, 50, 5, 1], [true, false]));
    assert_same(&rt, &left.as_str(), &"{9: 50}");
}
