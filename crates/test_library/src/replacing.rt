//! The values of all keys, changed by a function.
use crate::asserts::assert_same;
use crate::filling::share_recorded;
use clients::{Add, Client, Fault, Loan, NotReplaced, OwnedClient, Salt, SharedMap, Team, Work};
use std::alloc::{Allocator, Global};
use std::sync::Wait;
use test_support::Refusing;

/// Whether the example of the call is as it says. Then puts each of the keys 0 to 99 with itself, and
/// replaces each value by twice that and the key: how many were replaced, how often the function was
/// called, and how many keys have three times themselves then.
fn replace<R: Wait>(
    rt: &R,
    client: &mut OwnedClient<u64, u64, Add, Global>,
) -> Result<([bool; 2], (u64, u64, u64)), Fault> {
    client.put(rt, 1, 5)?;
    let example = [
        client.replace_all(rt, |_key: &u64, value: &u64| value.wrapping_add(1))? == 1,
        client.get(rt, &1)? == Some(6),
    ];
    for key in 0..100u64 {
        client.put(rt, key, key)?;
    }
    let mut calls = 0u64;
    let replaced = client.replace_all(rt, |key: &u64, value: &u64| {
        calls = calls.wrapping_add(1);
        value.saturating_mul(2).saturating_add(*key)
    })?;
    let mut right = 0u64;
    for key in 0..100u64 {
        if client.get(rt, &key)? == Some(key * 3) {
            right = right.wrapping_add(1);
        }
    }
    Ok((example, (replaced, calls, right)))
}

#[test]
fn each_value_is_replaced_once(rt: HostRuntime) {
    let map = SharedMap::with_salt(rt.alloc(), 1, 1, Salt(0)).expect(&rt, "no fault");
    let mut client = map.client().expect(&rt, "a client");
    let told = replace(&rt, &mut client).expect(&rt, "no fault");
    assert_same(&rt, &told, &([true; 2], (100, 100, 100)));
}

/// What a replacement of the one value, 5 at 1, says where its first request is refused, and what is
/// there then.
fn refused<R: Wait, A: Allocator + Clone>(
    rt: &R,
    (switch, alloc): (&Refusing<Global>, A),
) -> Result<(Option<NotReplaced>, Option<u64>), Fault> {
    let map: SharedMap<u64, u64, Add, A> = SharedMap::with_salt(alloc, 1, 1, Salt(0))?;
    let mut client = map.client()?;
    client.put(rt, 1, 5)?;
    switch.refuse_after(0);
    let stopped = client.replace_all(rt, |_key: &u64, _value: &u64| 6).err();
    Ok((stopped, client.get(rt, &1)?))
}

#[test]
fn a_bucket_that_cannot_be_copied_stays(rt: HostRuntime) {
    let switch = Refusing::new(rt.alloc());
    let told = refused(&rt, (&switch, &switch)).expect(&rt, "no fault");
    let stopped = NotReplaced {
        fault: Fault::NoMemory,
        replaced: 0,
    };
    assert_same(&rt, &told, &(Some(stopped), Some(5)));
}

/// Replaces each value by one more, and returns how many it replaced.
#[derive(Clone, Copy)]
struct AddOne;

impl Work<u64, u64, Add, Global> for AddOne {
    type Out = Result<u64, Fault>;

    fn work<L: Loan, R: Wait>(
        &self,
        rt: &R,
        client: &mut Client<'_, L, u64, u64, Add, Global>,
    ) -> Result<u64, Fault> {
        let replaced = client.replace_all(rt, |_key: &u64, value: &u64| value.wrapping_add(1))?;
        Ok(replaced)
    }
}

/// Four clients replace the values of the same hundred keys at the same time: each is shown what the
/// others left, so each value is replaced four times.
#[test]
fn no_replacement_is_lost(rt: HostRuntime) {
    let map = SharedMap::with_salt(rt.alloc(), 1, 1, Salt(0)).expect(&rt, "no fault");
    let mut client = map.client().expect(&rt, "a client");
    client
        .put_all(&rt, (0..100u64).map(|key| (key, key)))
        .expect(&rt, "no fault");
    drop(client);
    let closed = map.close().ok().expect(&rt, "memory");
    let mut team = Team::reopen(&closed, 4).expect(&rt, "no fault");
    let counts = team.work(&rt, &AddOne).expect(&rt, "no fault");
    let closed = team.close().expect(&rt, "no fault");
    let right = closed
        .entries()
        .all(|pair| pair.1 == pair.0.wrapping_add(4));
    assert_same(&rt, &counts.as_slice(), &[Ok(100); 4].as_slice());
    assert_same(&rt, &right, &true);
}

/// A client of a recorded map may make 1,000,000 calls. It puts three pairs when it may make four more,
/// replaces values, and puts one pair more. Returns why the last two stopped, how often their functions
/// were called, and what another client finds: the number of keys, and the sum of the values, which
/// were 5 and become 6.
fn stop_when_full<R: Wait>(
    rt: &R,
    alloc: Global,
) -> Result<(Option<NotReplaced>, Option<Fault>, [u64; 2], (u64, u64)), Fault> {
    let map = share_recorded(alloc)?;
    let mut client = map.client()?;
    for _ in 0..999_996u64 {
        client.contains_key(rt, &1)?;
    }
    client.put_all(rt, (1..4u64).map(|key| (key, 5)))?;
    let (mut replacements, mut pairs) = (0u64, 0u64);
    let replaced = client
        .replace_all(rt, |_key: &u64, value: &u64| {
            replacements = replacements.wrapping_add(1);
            value.wrapping_add(1)
        })
        .err();
    let put = client
        .put_all(
            rt,
            (4..6u64).map(|key| {
                pairs = pairs.wrapping_add(1);
                (key, 5)
            }),
        )
        .err();
    let found = map
        .client()?
        .fold(rt, (0, 0), |sums: (u64, u64), pair: (u64, u64)| {
            (sums.0.saturating_add(1), sums.1.saturating_add(pair.1))
        })?;
    Ok((replaced, put, [replacements, pairs], found))
}

#[test]
fn a_full_client_stops_between_two_keys(rt: HostRuntime) {
    let told = stop_when_full(&rt, rt.alloc()).expect(&rt, "no fault");
    let replaced = NotReplaced {
        fault: Fault::PassFull,
        replaced: 1,
    };
    let wanted = (Some(replaced), Some(Fault::PassFull), [1, 1], (3, 16));
    assert_same(&rt, &told, &wanted);
}
