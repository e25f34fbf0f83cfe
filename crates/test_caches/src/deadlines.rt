//! Entries that end.
use crate::asserts::assert_same;
use crate::calls::{Caller, Calls, Got, Numbers, put, put_until, shown};
use caches::CacheCounts;
use clients::Fault;
use std::sync::Wait;

/// Puts the key's hundredfold until this deadline.
fn put_hundredfold<R: Wait>(rt: &R, client: &mut Caller, key: u64, deadline: u64) -> Got {
    put_until(
        rt,
        client,
        (key, key.saturating_mul(100)),
        Some(deadline),
        0,
    )
}

/// Calls one time before the deadline of an entry, at it, and after it.
struct AroundDeadline;

impl Calls for AroundDeadline {
    type Shown = ([Got; 7], CacheCounts);

    fn call<R: Wait>(
        &self,
        rt: &R,
        _cache: &Numbers,
        client: &mut Caller,
    ) -> Result<([Got; 7], CacheCounts), Fault> {
        let found = [
            put_hundredfold(rt, client, 1, 10),
            client.get(rt, &1, 9),
            client.get(rt, &1, 10),
            client.get(rt, &1, 11),
            put_until(rt, client, (1, 7), Some(20), 9),
            put_until(rt, client, (1, 8), Some(20), 20),
            client.remove(rt, &1, 20),
        ];
        Ok((found, client.counts()))
    }
}

#[test]
fn an_entry_is_there_before_its_deadline_alone(rt: HostRuntime) {
    let wanted = [
        Ok(None),
        Ok(Some(100)),
        Ok(None),
        Ok(None),
        Ok(Some(100)),
        Ok(None),
        Ok(None),
    ];
    let counts = CacheCounts {
        hits: 1,
        misses: 2,
        evictions: 0,
    };
    assert_same(
        &rt,
        &shown(&rt, rt.alloc(), 8, &AroundDeadline),
        &(wanted, counts),
    );
}

/// Gets at the last time of an entry without a deadline, and of one that ends at that time.
struct AtTheLastTime;

impl Calls for AtTheLastTime {
    type Shown = [Got; 4];

    fn call<R: Wait>(
        &self,
        rt: &R,
        _cache: &Numbers,
        client: &mut Caller,
    ) -> Result<[Got; 4], Fault> {
        Ok([
            put(rt, client, 1, 5),
            put_hundredfold(rt, client, 2, u64::MAX),
            client.get(rt, &1, u64::MAX),
            client.get(rt, &2, u64::MAX),
        ])
    }
}

#[test]
fn an_entry_without_a_deadline_never_ends(rt: HostRuntime) {
    let found = shown(&rt, rt.alloc(), 8, &AtTheLastTime);
    assert_same(&rt, &found, &[Ok(None), Ok(None), Ok(Some(5)), Ok(None)]);
}

/// Removes what has ended at time 4, of ten entries of which the key is the deadline. Shown are how many were
/// removed, the sum of their values, how many are left, and which of 4 and 5 is there.
struct RemovingEnded;

impl Calls for RemovingEnded {
    type Shown = (u64, u64, u64, [Got; 2]);

    fn call<R: Wait>(
        &self,
        rt: &R,
        cache: &Numbers,
        client: &mut Caller,
    ) -> Result<(u64, u64, u64, [Got; 2]), Fault> {
        for key in 1..11u64 {
            put_hundredfold(rt, client, key, key)?;
        }
        let mut sum = 0u64;
        let mut add = |_key: u64, value: u64| sum = sum.saturating_add(value);
        let removed = client.remove_ended(rt, 4, &mut add)?;
        let left = cache.map().mapping_count();
        let found = [client.get(rt, &4, 0), client.get(rt, &5, 0)];
        Ok((removed, sum, left, found))
    }
}

#[test]
fn ended_entries_alone_are_removed_and_handed_over(rt: HostRuntime) {
    let found = shown(&rt, rt.alloc(), 16, &RemovingEnded);
    assert_same(&rt, &found, &(4, 1_000, 6, [Ok(None), Ok(Some(500))]));
}

/// Fills a cache for four with three used entries that end at 5 and a used one that ends at 9, and puts one more at
/// time 5. Shown is how many of the three are there, and the other two.
struct EvictingEnded;

impl Calls for EvictingEnded {
    type Shown = (u64, [Got; 2]);

    fn call<R: Wait>(
        &self,
        rt: &R,
        _cache: &Numbers,
        client: &mut Caller,
    ) -> Result<(u64, [Got; 2]), Fault> {
        for (key, deadline) in [(1, 5), (2, 5), (3, 5), (4, 9)] {
            put_hundredfold(rt, client, key, deadline)?;
            client.get(rt, &key, 0)?;
        }
        put_until(rt, client, (5, 500), None, 5)?;
        let mut there = 0u64;
        for key in 1..4u64 {
            there = there.saturating_add(client.get(rt, &key, 0)?.is_some() as u64);
        }
        Ok((there, [client.get(rt, &4, 0), client.get(rt, &5, 0)]))
    }
}

/// One of the three that have ended goes, though all four were used.
#[test]
fn ended_entries_go_though_they_were_used(rt: HostRuntime) {
    let found = shown(&rt, rt.alloc(), 4, &EvictingEnded);
    assert_same(&rt, &found, &(2, [Ok(Some(400)), Ok(Some(500))]));
}
