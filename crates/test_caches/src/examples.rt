//! The examples in the documentation of the calls, each as it stands with its call.
use crate::asserts::assert_same;
use caches::{Cache, CacheClient};
use clients::{Fault, Text};
use std::alloc::Global;
use std::sync::Wait;

/// The examples at a cache that has 5 at 1.
fn look<R: Wait>(rt: &R, cache: &Cache<u64, u64, Global>) -> Result<[bool; 3], Fault> {
    let counted = cache.map().mapping_count() == 1;
    let most = cache.most() == 1_000;
    let other = cache.again()?;
    let same = other.client()?.get(rt, &1, 0)? == Some(5);
    Ok([counted, most, same])
}

/// The examples at a put over a value, and at a removal.
fn put_again<R: Wait>(
    rt: &R,
    client: &mut CacheClient<u64, u64, Global>,
) -> Result<[bool; 2], Fault> {
    let second = client.put(rt, 1, 6, None, 0, &mut |_, _| ())? == Some(5);
    client.put(rt, 1, 5, None, 0, &mut |_, _| ())?;
    let removed = client.remove(rt, &1, 0)? == Some(5);
    Ok([second, removed])
}

/// The examples at a get and a removal of ended entries.
fn end<R: Wait>(rt: &R, client: &mut CacheClient<u64, u64, Global>) -> Result<[bool; 5], Fault> {
    client.put(rt, 1, 5, Some(10), 0, &mut |_, _| ())?;
    let before = client.get(rt, &1, 9)? == Some(5);
    let after = client.get(rt, &1, 10)? == None;
    let hit = client.counts().hits == 1;
    let none = client.remove_ended(rt, 9, &mut |_, _| ())? == 0;
    let one = client.remove_ended(rt, 10, &mut |_, _| ())? == 1;
    Ok([before, after, hit, none, one])
}

/// What the examples of a cache show: at the first put, at the cache, at later puts, and at entries that end.
type Shown = (bool, [bool; 3], [bool; 2], [bool; 5]);

fn open<R: Wait>(rt: &R, alloc: Global) -> Result<Shown, Fault> {
    let cache: Cache<u64, u64, Global> = Cache::new(alloc, 1_000)?;
    let mut client = cache.client()?;
    let first = client.put(rt, 1, 5, None, 0, &mut |_, _| ())? == None;
    Ok((
        first,
        look(rt, &cache)?,
        put_again(rt, &mut client)?,
        end(rt, &mut client)?,
    ))
}

/// The example at a get by a text.
fn get_as<R: Wait>(rt: &R, alloc: Global) -> Result<[bool; 2], Fault> {
    let cache: Cache<Text<Global>, u64, Global> = Cache::new(alloc, 1_000)?;
    let mut client = cache.client()?;
    let name = String::from_str(alloc, "one")?;
    client.put(rt, Text::new(name), 5, None, 0, &mut |_, _| ())?;
    let found = client.get_as(rt, "one", 0)? == Some(5);
    let none = client.get_as(rt, "two", 0)? == None;
    Ok([found, none])
}

#[test]
fn each_example_of_a_get_by_a_text_is_as_it_says(rt: HostRuntime) {
    let found = get_as(&rt, rt.alloc()).expect(&rt, "no fault");
    assert_same(&rt, &found, &[true; 2]);
}

#[test]
fn each_example_of_a_cache_is_as_it_says(rt: HostRuntime) {
    let found = open(&rt, rt.alloc()).expect(&rt, "no fault");
    assert_same(&rt, &found, &(true, [true; 3], [true; 2], [true; 5]));
}
