//! The examples of the bulk operations on live maps, as they stand with them.
use crate::samples::{Above, Values, assert_same, filled};
use crate::teams::PutTen;
use facingberyl::Team;
use facingberyl::bulk::{Greatest, Plan};
use live_maps::{live_for_each, live_reduce, live_search, team_for_each, team_reduce, team_search};
use std::alloc::Global;
use std::sync::Wait;
use std::test::Fail;
use std::thread::Threads;

/// The examples at a shared map. First 1 has the value 5, and then 2 has 6.
fn shared<R: Threads + Wait + Sync>(rt: &R, alloc: Global) -> Result<[bool; 3], Fail> {
    let map = filled(rt, alloc, 16, 8, 0)?;
    let mut client = map.client()?;
    client.put(rt, 1, 5)?;
    let listed = live_for_each(rt, &map, &Plan::new(0, 4), &Values)?.as_slice() == [5].as_slice();
    client.put(rt, 2, 6)?;
    let reduced = live_reduce(rt, &map, &Plan::new(0, 4), &Greatest)? == Some(6);
    let found = live_search(rt, &map, &Plan::new(0, 4), &Above(5))? == Some(6);
    Ok([listed, reduced, found])
}

#[test]
fn operations_on_a_shared_map_return_what_their_examples_say(rt: HostRuntime) -> Result<(), Fail> {
    assert_same(&rt, &shared(&rt, rt.alloc())?, &[true; 3]);
    Ok(())
}

/// The examples at a team. The values are 0 to 39.
fn of_team<R: Threads + Wait + Sync>(rt: &R, alloc: Global) -> Result<[bool; 4], Fail> {
    let mut team = Team::new(alloc, 1, 4)?;
    let _ = team.work(rt, &PutTen)?;
    let (team, greatest) = team_reduce(rt, team, &Plan::new(0, 4), &Greatest);
    let (team, found) = team_search(rt, team, &Plan::new(0, 4), &Above(38));
    let (team, list) = team_for_each(rt, team, &Plan::new(0, 4), &Values);
    let closed = team.close().map_err(|refused| refused.give_up())?;
    Ok([
        greatest == Ok(Some(39)),
        found == Ok(Some(39)),
        list?.len() == 40,
        closed.mapping_count() == 40,
    ])
}

#[test]
fn operations_on_a_team_return_what_their_examples_say(rt: HostRuntime) -> Result<(), Fail> {
    assert_same(&rt, &of_team(&rt, rt.alloc())?, &[true; 4]);
    Ok(())
}
