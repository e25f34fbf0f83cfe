//! Pairs from any iterator, put by one call.
use crate::asserts::assert_same;
use clients::{Add, Fault, Map, OwnedClient, Salt, SharedMap};
use std::alloc::{Allocator, Global};
use std::sync::Wait;
use test_support::Refusing;

/// A recorded map without entries, for two clients.
pub(crate) fn share_recorded<A: Allocator + Clone>(
    alloc: A,
) -> Result<SharedMap<u64, u64, Add, A>, Fault> {
    let (map, passes) = Map::new(alloc, 1, 1)?;
    let closed = map.close(passes).map_err(|refused| refused.give_up())?;
    SharedMap::reopen(&closed, 2)
}

/// Puts the numbers below 100, each at its fifth, so that each of the keys 0 to 19 comes five times.
/// Returns how many keys there are and the sum of their values, and whether the second example of the
/// call is as it says.
fn fill<R: Wait>(
    rt: &R,
    client: &mut OwnedClient<u64, u64, Add, Global>,
) -> Result<((u64, u64), bool), Fault> {
    client.put_all(rt, (0..100u64).map(|n| (n / 5, n)))?;
    let sums = client.fold(rt, (0, 0), |sums: (u64, u64), pair: (u64, u64)| {
        (sums.0.saturating_add(1), sums.1.saturating_add(pair.1))
    })?;
    client.put_all(rt, (1..101).map(|n: u64| (n, n / 2)))?;
    Ok((sums, client.get(rt, &100)? == Some(50)))
}

/// The last that come are 4, 9, 14 and so on up to 99: their sum is 20 * 103 / 2 = 1,030.
#[test]
fn the_last_value_of_each_key_stays(rt: HostRuntime) {
    let map = SharedMap::with_salt(rt.alloc(), 1, 1, Salt(0)).expect(&rt, "no fault");
    let mut client = map.client().expect(&rt, "a client");
    let told = fill(&rt, &mut client).expect(&rt, "no fault");
    assert_same(&rt, &told, &((20, 1_030), true));
}

/// What a put of the keys 1 to 4, each with five times itself, says in a recorded map where the request
/// is refused that comes after so many; how many pairs are left; and what the keys have then.
fn refused<R: Wait, A: Allocator + Clone>(
    rt: &R,
    (switch, alloc): (&Refusing<Global>, A),
    granted: u64,
) -> Result<(Option<Fault>, usize, [Option<u64>; 4]), Fault> {
    let mut pairs = vec![in alloc.clone()?; (1u64, 5u64), (2, 10), (3, 15), (4, 20)]?.into_iter();
    let map = share_recorded(alloc)?;
    let mut client = map.client()?;
    switch.refuse_after(granted);
    let fault = client.put_all(rt, &mut pairs).err();
    switch.refuse_after(u64::MAX);
    let found = [
        client.get(rt, &1)?,
        client.get(rt, &2)?,
        client.get(rt, &3)?,
        client.get(rt, &4)?,
    ];
    Ok((fault, pairs.len(), found))
}

/// The pairs before the one that failed are put, and no others, and those behind it are left: where two
/// are left, the second failed.
#[test]
fn puts_before_a_failure_stand(rt: HostRuntime) {
    let switch = Refusing::new(rt.alloc());
    let mut faults = 0u64;
    for granted in 0..12u64 {
        let (fault, left, found) = refused(&rt, (&switch, &switch), granted).expect(
            &rt, "no fault",
        );
        let wanted = match (fault, left) {
            (None, 0) => [Some(5), Some(10), Some(15), Some(20)],
            (Some(Fault::NoMemory), 0) => [Some(5), Some(10), Some(15), None],
            (Some(Fault::NoMemory), 1) => [Some(5), Some(10), None, None],
            (Some(Fault::NoMemory), 2) => [Some(5), None, None, None],
            (Some(Fault::NoMemory), 3) => [None; 4],
            _ => [Some(0); 4],
        };
        assert_same(&rt, &found, &wanted);
        if fault != None {
            faults = faults.saturating_add(1);
        }
    }
    assert_same(&rt, &(faults > 0), &true);
}
