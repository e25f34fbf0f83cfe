//! Bulk operations on a live map that are refused: memory, and clients.
use crate::samples::{Above, Answers, Look, Numbers, Values, answers, assert_same, seen};
use facingberyl::bulk::{Greatest, Plan, Sum};
use facingberyl::{Add, Fault, Salt, SharedMap};
use live_maps::{LiveFault, live_for_each, live_reduce, live_search};
use std::alloc::{Allocator, Global};
use std::process::Abort;
use std::sync::Wait;
use std::thread::Threads;
use test_support::Refusing;

/// Returns what each operation returns while both clients are out, and the sum when one is back, and when
/// both are.
struct WithoutClients;

type Sums = [Result<Option<u128>, LiveFault>; 2];

impl Look for WithoutClients {
    type Seen = (Answers, Sums);

    fn look<R: Threads + Wait + Sync>(
        &self,
        rt: &R,
        map: &Numbers,
    ) -> Result<(Answers, Sums), Fault> {
        let first = map.client()?;
        let second = map.client()?;
        let plan = Plan::new(0, 4);
        let refused = answers(rt, map, 4, 0);
        drop(second);
        let one = live_reduce(rt, map, &plan, &Sum);
        drop(first);
        let both = live_reduce(rt, map, &plan, &Sum);
        Ok((refused, [one, both]))
    }
}

/// All clients are out: nothing can be shown. When one is back, it is.
#[test]
fn without_a_client_nothing_is_shown(rt: HostRuntime) {
    let none = LiveFault::NoClient;
    let refused = (Err(none), Err(none), Err(none), Err(none));
    let found = seen(&rt, rt.alloc(), (16, 2, 3), &WithoutClients);
    assert_same(&rt, &found, &Ok((refused, [Ok(Some(6)), Ok(Some(6))])));
}

/// A bulk operation of these tests.
#[derive(Clone, Copy)]
enum Bulk {
    Reduce,
    Search,
    ForEach,
}

impl Bulk {
    /// The greatest value, a value above 2, or the number of values: 3 each, of the values 1 to 3.
    fn run<R: Threads + Wait + Sync, A: Allocator + Clone + Send + Sync>(
        self,
        rt: &R,
        map: &SharedMap<u64, u64, Add, A>,
    ) -> Result<Option<u64>, LiveFault> {
        let plan = Plan::new(0, 4);
        match self {
            Bulk::Reduce => live_reduce(rt, map, &plan, &Greatest),
            Bulk::Search => live_search(rt, map, &plan, &Above(2)),
            Bulk::ForEach => {
                let values = live_for_each(rt, map, &plan, &Values)?;
                Ok(Some(values.len() as u64))
            }
        }
    }
}

/// Refuses each request of an operation in turn, up to the first that it does not make. Each refusal
/// is returned and leaves no memory behind, and the map goes on. How many requests there were.
fn refuse_each<R: Threads + Wait + Sync + Abort, A: Allocator + Clone + Send + Sync>(
    rt: &R,
    switch: &Refusing<Global>,
    map: &SharedMap<u64, u64, Add, A>,
    bulk: Bulk,
) -> u64 {
    assert_same(rt, &bulk.run(rt, map), &Ok(Some(3)));
    let before = switch.blocks_out();
    for granted in 0..100 {
        switch.refuse_after(granted);
        let found = bulk.run(rt, map);
        let refused = switch.has_refused();
        switch.refuse_after(u64::MAX);
        let out = switch.blocks_out();
        let again = bulk.run(rt, map);
        let wanted = if refused {
            Err(LiveFault::NoMemory)
        } else {
            Ok(Some(3))
        };
        assert_same(rt, &(found, out, again), &(wanted, before, Ok(Some(3))));
        if !refused {
            return granted;
        }
    }
    assert!(rt; false, "each run asks for more");
    0
}

/// Returns how many requests each operation makes on a map with the values 1 to 3, for four clients.
fn requests<R: Threads + Wait + Sync + Abort, A: Allocator + Clone + Send + Sync>(
    rt: &R,
    switch: &Refusing<Global>,
    alloc: A,
) -> Result<[u64; 3], Fault> {
    let map: SharedMap<u64, u64, Add, A> = SharedMap::with_salt(alloc, 16, 4, Salt(0))?;
    let mut client = map.client()?;
    for key in 1..=3 {
        client.put(rt, key, key)?;
    }
    drop(client);
    Ok([
        refuse_each(rt, switch, &map, Bulk::Reduce),
        refuse_each(rt, switch, &map, Bulk::Search),
        refuse_each(rt, switch, &map, Bulk::ForEach),
    ])
}

/// Each operation asks for a list of its clients, for their seats and for what they collect; an
/// action's results want more.
#[test]
fn each_request_is_refused(rt: HostRuntime) {
    let switch = Refusing::new(rt.alloc());
    let [reduce, search, for_each] = requests(&rt, &switch, &switch).unwrap_or([0; 3]);
    assert_same(&rt, &(reduce, search, for_each > 3), &(3, 3, true));
}
