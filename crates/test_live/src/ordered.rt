//! Bulk operations after a moment.
use crate::samples::{Above, Look, Numbers, Values, assert_same, filled, seen};
use facingberyl::Fault;
use facingberyl::bulk::{Greatest, Plan, Sum};
use live_maps::{LiveFault, live_for_each_after, live_reduce_after, live_search_after};
use std::alloc::Global;
use std::sync::Wait;
use std::test::Fail;
use std::thread::Threads;

/// What a client put before its moment is there, and another client that learns of the moment later gets
/// what is there then.
fn after_moments<R: Threads + Wait + Sync>(rt: &R, alloc: Global) -> Result<[bool; 4], Fail> {
    let map = filled(rt, alloc, 16, 8, 0)?;
    let mut client = map.client()?;
    let mut second = map.client()?;
    client.put(rt, 1, 5)?;
    let mut moment = client.moment();
    let plan = Plan::new(0, 4);
    let listed = live_for_each_after(rt, &map, &mut moment, &plan, &Values)?.len() == 1;
    client.put(rt, 2, 6)?;
    let mut moment = client.moment();
    let reduced = live_reduce_after(rt, &map, &mut moment, &plan, &Greatest)? == Some(6);
    let found = live_search_after(rt, &map, &mut moment, &plan, &Above(5))? == Some(6);
    second.learn(&mut moment);
    let got = second.get(rt, &2)? == Some(6);
    Ok([listed, reduced, found, got])
}

#[test]
fn operations_after_a_moment_show_what_it_knows(rt: HostRuntime) -> Result<(), Fail> {
    assert_same(&rt, &after_moments(&rt, rt.alloc())?, &[true; 4]);
    Ok(())
}

/// Returns the sum by so many workers, after a client's moment.
#[derive(Drop)]
struct SummingAfter {
    workers: usize,
}

impl Look for SummingAfter {
    type Seen = Result<Option<u128>, LiveFault>;

    fn look<R: Threads + Wait + Sync>(
        &self,
        rt: &R,
        map: &Numbers,
    ) -> Result<Result<Option<u128>, LiveFault>, Fault> {
        let mut client = map.client()?;
        let mut moment = client.moment();
        let plan = Plan::new(0, self.workers);
        Ok(live_reduce_after(rt, map, &mut moment, &plan, &Sum))
    }
}

/// The values are 1 to 100: their sum is 5,050, by each number of workers.
#[test]
fn all_workers_begin_after_the_moment(rt: HostRuntime) {
    for workers in 1..=17 {
        let found = seen(&rt, rt.alloc(), (1, 20, 100), &SummingAfter { workers });
        let wanted = if workers <= 16 {
            Ok(Some(5_050))
        } else {
            Err(LiveFault::BadWorkers)
        };
        assert_same(&rt, &found, &Ok(wanted));
    }
}
