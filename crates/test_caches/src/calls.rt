//! Puts, gets and removals, and what is counted of them.
use crate::asserts::assert_same;
use caches::{Cache, CacheClient, CacheCounts};
use clients::Fault;
use std::alloc::Global;
use std::process::Abort;
use std::sync::Wait;

/// A cache of these tests, and a client of it.
pub(crate) type Numbers = Cache<u64, u64, Global>;

pub(crate) type Caller = CacheClient<u64, u64, Global>;

/// What a call returns of a value.
pub(crate) type Got = Result<Option<u64>, Fault>;

/// Puts a value that ends at its deadline, if it has one, and drops what is evicted.
pub(crate) fn put_until<R: Wait>(
    rt: &R,
    client: &mut Caller,
    (key, value): (u64, u64),
    deadline: Option<u64>,
    now: u64,
) -> Got {
    client.put(
        rt,
        key,
        value,
        deadline,
        now,
        &mut |_key: u64, _value: u64| (),
    )
}

/// Puts a value that never ends, and drops what is evicted.
pub(crate) fn put<R: Wait>(rt: &R, client: &mut Caller, key: u64, value: u64) -> Got {
    put_until(rt, client, (key, value), None, 0)
}

/// The calls that a test makes. One function alone owns a cache and a client of it, and each test borrows
/// them.
pub(crate) trait Calls {
    /// What they show.
    type Shown: Drop;

    fn call<R: Wait>(
        &self,
        rt: &R,
        cache: &Numbers,
        client: &mut Caller,
    ) -> Result<Self::Shown, Fault>;
}

fn call_opened<R: Wait, C: Calls>(
    rt: &R,
    alloc: Global,
    most: usize,
    calls: &C,
) -> Result<C::Shown, Fault> {
    let cache: Numbers = Cache::new(alloc, most)?;
    let mut client = cache.client()?;
    calls.call(rt, &cache, &mut client)
}

/// What calls on a cache of at most so many entries show.
pub(crate) fn shown<R: Wait + Abort, C: Calls>(
    rt: &R,
    alloc: Global,
    most: usize,
    calls: &C,
) -> C::Shown {
    call_opened(rt, alloc, most, calls).expect(rt, "no fault")
}

/// Calls on two keys.
struct OnTwoKeys;

impl Calls for OnTwoKeys {
    type Shown = ([Got; 9], CacheCounts);

    fn call<R: Wait>(
        &self,
        rt: &R,
        _cache: &Numbers,
        client: &mut Caller,
    ) -> Result<([Got; 9], CacheCounts), Fault> {
        let found = [
            client.get(rt, &1, 0),
            put(rt, client, 1, 5),
            put(rt, client, 2, 7),
            client.get(rt, &1, 0),
            put(rt, client, 1, 6),
            client.get(rt, &1, 0),
            client.get(rt, &2, 0),
            client.remove(rt, &1, 0),
            client.get(rt, &1, 0),
        ];
        Ok((found, client.counts()))
    }
}

#[test]
fn a_get_returns_what_the_last_put_left(rt: HostRuntime) {
    let wanted = [
        Ok(None),
        Ok(None),
        Ok(None),
        Ok(Some(5)),
        Ok(Some(5)),
        Ok(Some(6)),
        Ok(Some(7)),
        Ok(Some(6)),
        Ok(None),
    ];
    let counts = CacheCounts {
        hits: 3,
        misses: 2,
        evictions: 0,
    };
    assert_same(
        &rt,
        &shown(&rt, rt.alloc(), 8, &OnTwoKeys),
        &(wanted, counts),
    );
}

/// A put by one client, and gets by another.
struct ByTwoClients;

impl Calls for ByTwoClients {
    type Shown = ([Got; 3], CacheCounts, CacheCounts, u64);

    fn call<R: Wait>(
        &self,
        rt: &R,
        cache: &Numbers,
        first: &mut Caller,
    ) -> Result<([Got; 3], CacheCounts, CacheCounts, u64), Fault> {
        let mut second = cache.again()?.client()?;
        let found = [
            put(rt, first, 1, 5),
            second.get(rt, &1, 0),
            second.get(rt, &2, 0),
        ];
        let all = first.counts().and(second.counts());
        Ok((found, first.counts(), all, cache.map().mapping_count()))
    }
}

#[test]
fn a_client_gets_what_another_put(rt: HostRuntime) {
    let all = CacheCounts {
        hits: 1,
        misses: 1,
        evictions: 0,
    };
    let found = [Ok(None), Ok(Some(5)), Ok(None)];
    let wanted = (found, CacheCounts::none(), all, 1);
    assert_same(&rt, &shown(&rt, rt.alloc(), 8, &ByTwoClients), &wanted);
}

/// For how many entries a cache is that is opened for so many.
fn most_of(alloc: Global, most: usize) -> Result<u64, Fault> {
    let cache: Numbers = Cache::new(alloc, most)?;
    Ok(cache.most())
}

#[test]
fn a_cache_is_for_one_to_2_to_the_26_entries(rt: HostRuntime) {
    let found = [
        most_of(rt.alloc(), 0),
        most_of(rt.alloc(), 67_108_865),
        most_of(rt.alloc(), 1),
    ];
    let bad = Err(Fault::BadCapacity);
    assert_same(&rt, &found, &[bad, bad, Ok(1)]);
}
