//! Requests for memory that are refused.
use crate::asserts::assert_same;
use caches::{Cache, CacheClient, CacheCounts};
use clients::Fault;
use std::alloc::Global;
use std::sync::Wait;
use test_helpers::{Alloc, Number};
use test_support::Refusing;

/// A cache whose requests a test may refuse, and a client of it.
type Numbers<'a> = Cache<u64, Number<'a>, Alloc<'a>>;

type Caller<'a> = CacheClient<u64, Number<'a>, Alloc<'a>>;

fn number(alloc: Alloc<'_>, number: u64) -> Number<'_> {
    Number { number, alloc }
}

fn number_of(found: Option<Number<'_>>) -> Option<u64> {
    match found {
        Some(value) => Some(value.number),
        None => None,
    }
}

fn put<'a, R: Wait>(
    rt: &R,
    client: &mut Caller<'a>,
    alloc: Alloc<'a>,
    key: u64,
) -> Result<Option<u64>, Fault> {
    let before = client.put(rt, key, number(alloc, key), None, 0, &mut |_, _| ())?;
    Ok(number_of(before))
}

fn get<'a, R: Wait>(rt: &R, client: &mut Caller<'a>, key: u64) -> Result<Option<u64>, Fault> {
    Ok(number_of(client.get(rt, &key, 0)?))
}

/// What gets return while a copy is refused and after, and what is counted.
fn get_refused<'a, R: Wait>(
    rt: &R,
    alloc: Alloc<'a>,
) -> Result<(Result<Option<u64>, Fault>, Option<u64>, CacheCounts), Fault> {
    let cache: Numbers<'a> = Cache::new(alloc, 4)?;
    let mut client = cache.client()?;
    put(rt, &mut client, alloc, 1)?;
    alloc.refuse_after(0);
    let refused = get(rt, &mut client, 1);
    Ok((refused, get(rt, &mut client, 1)?, client.counts()))
}

#[test]
fn a_value_that_cannot_be_copied_stays(rt: HostRuntime) {
    let heap = Refusing::new(rt.alloc());
    let (refused, found, counts) = get_refused(&rt, &heap).expect(&rt, "no fault");
    let wanted = CacheCounts {
        hits: 1,
        misses: 0,
        evictions: 0,
    };
    let found = (refused, found, counts);
    assert_same(&rt, &found, &(Err(Fault::NoMemory), Some(1), wanted));
}

/// Puts the keys 1 to 20 into a cache for eight, each with one request more granted, until it is put. Returns how often a
/// put was refused, how often a refused key was there, and how many entries are left.
fn put_refused<'a, R: Wait>(rt: &R, alloc: Alloc<'a>) -> Result<(u64, u64, u64), Fault> {
    let cache: Numbers<'a> = Cache::new(alloc, 8)?;
    let mut client = cache.client()?;
    let mut refused = 0u64;
    let mut there = 0u64;
    for key in 1..21u64 {
        for granted in 0..20u64 {
            alloc.refuse_after(granted);
            if put(rt, &mut client, alloc, key).is_ok() {
                break;
            }
            refused = refused.saturating_add(1);
            alloc.refuse_after(1_000_000);
            let is_there = get(rt, &mut client, key)?.is_some();
            there = there.saturating_add(is_there as u64);
        }
    }
    alloc.refuse_after(1_000_000);
    Ok((refused, there, cache.map().mapping_count()))
}

/// A key of a full cache is put after the keys of a bucket were listed, which asks for memory.
#[test]
fn a_refused_put_puts_nothing(rt: HostRuntime) {
    let heap = Refusing::new(rt.alloc());
    let (refused, there, left) = put_refused(&rt, &heap).expect(&rt, "no fault");
    let out = (heap.blocks_out(), heap.bytes_out());
    let found = (refused >= 12, there, left, out);
    assert_same(&rt, &found, &(true, 0, 8, (0, 0)));
}

/// Opens a cache and a client.
fn open<'a>(alloc: Alloc<'a>) -> Result<(), Fault> {
    let cache: Numbers<'a> = Cache::new(alloc, 8)?;
    drop(cache.client()?);
    Ok(())
}

/// How often an opening of a cache and a client was refused, each request in turn.
fn open_refused(alloc: Alloc<'_>) -> u64 {
    let mut refused = 0u64;
    for granted in 0..100u64 {
        alloc.refuse_after(granted);
        match open(alloc) {
            Ok(()) => break,
            Err(Fault::NoMemory) => refused = refused.saturating_add(1),
            Err(_) => return 0,
        }
    }
    refused
}

#[test]
fn a_refused_opening_gives_all_back(rt: HostRuntime) {
    let heap = Refusing::new(rt.alloc());
    let refused = open_refused(&heap);
    let out = (heap.blocks_out(), heap.bytes_out());
    let found = (refused >= 3, heap.has_refused(), out);
    assert_same(&rt, &found, &(true, false, (0, 0)));
}
