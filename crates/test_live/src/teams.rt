//! Bulk operations on the map of a team, between its rounds.
use crate::samples::{Above, Values, assert_same};
use facingberyl::bulk::{Greatest, Plan, Sum};
use facingberyl::{Add, Client, Fault, Loan, Team, Work};
use live_maps::{LiveFault, team_for_each, team_reduce, team_search};
use std::alloc::Global;
use std::process::Abort;
use std::sync::Wait;
use std::thread::Threads;

/// Each client puts ten values at keys of its own: client 0 has 0 to 9, client 1 has 10 to 19, and
/// so on.
#[derive(Clone, Copy)]
pub(crate) struct PutTen;

impl Work<u64, u64, Add, Global> for PutTen {
    type Out = Result<(), Fault>;

    fn work<L: Loan, R: Wait>(
        &self,
        rt: &R,
        client: &mut Client<'_, L, u64, u64, Add, Global>,
    ) -> Result<(), Fault> {
        let first = (client.number() as u64).wrapping_mul(10);
        for key in first..first.wrapping_add(10) {
            client.put(rt, key, key)?;
        }
        Ok(())
    }
}

/// A team of these tests.
type NumberTeam = Team<u64, u64, Add, Global>;

type Found = Result<Option<u64>, LiveFault>;

/// What each operation returns by so many workers: the sum, the greatest value, a value above 38, one above
/// 39, and how many values an action collects.
type Answers = (
    Result<Option<u128>, LiveFault>,
    Found,
    Found,
    Found,
    Result<usize, LiveFault>,
);

fn answers<R: Threads + Wait + Sync>(
    rt: &R,
    team: NumberTeam,
    workers: usize,
) -> (NumberTeam, Answers) {
    let plan = Plan::new(0, workers);
    let (team, sum) = team_reduce(rt, team, &plan, &Sum);
    let (team, greatest) = team_reduce(rt, team, &plan, &Greatest);
    let (team, found) = team_search(rt, team, &plan, &Above(38));
    let (team, none) = team_search(rt, team, &plan, &Above(39));
    let (team, list) = team_for_each(rt, team, &plan, &Values);
    let count = match list {
        Ok(list) => Ok(list.len()),
        Err(fault) => Err(fault),
    };
    (team, (sum, greatest, found, none, count))
}

/// Asserts what each operation returns by 1 to 16 workers, after a round of work each, and what a reduction
/// by 17 workers returns. Returns how many keys the closed map has.
fn work_on<R: Threads + Wait + Sync + Abort>(rt: &R, alloc: Global) -> Result<u64, Fault> {
    let mut team: NumberTeam = Team::new(alloc, 1, 4)?;
    let wanted = (Ok(Some(780)), Ok(Some(39)), Ok(Some(39)), Ok(None), Ok(40));
    for workers in 1..=16 {
        let _ = team.work(rt, &PutTen)?;
        let (back, found) = answers(rt, team, workers);
        assert_same(rt, &(workers, found), &(workers, wanted));
        team = back;
    }
    let (team, bad) = team_reduce(rt, team, &Plan::new(0, 17), &Sum);
    assert_same(rt, &bad, &Err(LiveFault::BadWorkers));
    Ok(team.close()?.mapping_count())
}

/// Four clients put 0 to 39: the sum is 780, the greatest 39, 40 entries are there. After that the
/// team works on, and closes with its 40 keys.
#[test]
fn a_team_reduces_and_works_on(rt: HostRuntime) {
    assert_same(&rt, &work_on(&rt, rt.alloc()), &Ok(40));
}
