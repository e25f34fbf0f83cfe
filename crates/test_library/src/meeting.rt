//! Clients that work in threads of their own: each waits until the others have begun.
use crate::asserts::assert_same;
use clients::{Client, Fault, Loan, Map, NoFunction, Pass, Salt, Sharing, Team, Work, retire_all};
use crossbeam_utils::Backoff;
use std::alloc::Global;
use std::sync::Wait;
use std::sync::atomic::AtomicU64;
use std::sync::atomic::Ordering::SeqCst;
use std::thread::Threads;

/// Waits until so many have begun, but not for ever, and answers whether they have.
#[derive(Drop)]
struct Meet<'a> {
    begun: &'a AtomicU64,
    all: u64,
}

impl Meet<'_> {
    fn have_met(&self) -> bool {
        self.begun.fetch_add(1, SeqCst);
        let backoff = Backoff::new();
        for _turn in 0..10_000_000u32 {
            if self.begun.load(SeqCst) >= self.all {
                return true;
            }
            backoff.snooze();
        }
        false
    }
}

impl Work<u64, u64, NoFunction, Global> for Meet<'_> {
    type Out = bool;

    fn work<L: Loan, R: Wait>(
        &self,
        _rt: &R,
        _client: &mut Client<'_, L, u64, u64, NoFunction, Global>,
    ) -> bool {
        self.have_met()
    }
}

impl Sharing<u64, u64, NoFunction, Global> for Meet<'_> {
    type Out = bool;

    fn work<R: Wait>(
        &self,
        _rt: &R,
        _map: &Map<u64, u64, NoFunction, Global>,
        _pass: &mut Pass<u64, u64, NoFunction>,
    ) -> bool {
        self.have_met()
    }
}

/// Whether the clients of a team of so many met.
fn meet_in_team<R: Threads + Wait + Sync>(
    rt: &R,
    alloc: Global,
    clients: u32,
) -> Result<bool, Fault> {
    let mut team: Team<u64, u64, NoFunction, Global> = Team::new(alloc, 1, clients)?;
    let begun = AtomicU64::new(0);
    let work = Meet {
        begun: &begun,
        all: u64::from(clients),
    };
    let met = team.work(rt, &work)?;
    Ok(met.iter().all(|met| *met))
}

#[test]
fn the_clients_of_a_team_work_at_one_time(rt: HostRuntime) {
    for clients in [2, 3] {
        let met = meet_in_team(&rt, rt.alloc(), clients);
        assert_same(&rt, &(clients, met), &(clients, Ok(true)));
    }
}

/// Whether so many clients that share a map without a team met.
fn meet_on_map<R: Threads + Wait + Sync>(
    rt: &R,
    alloc: Global,
    clients: u32,
) -> Result<bool, Fault> {
    let (map, mut passes): (Map<u64, u64, NoFunction, Global>, _) = Map::lean(
        alloc,
        16,
        clients,
        Salt(0),
    )?;
    let begun = AtomicU64::new(0);
    let work = Meet {
        begun: &begun,
        all: u64::from(clients),
    };
    let answers = map.share(rt, &mut passes, &work);
    retire_all(passes);
    Ok(answers?.iter().all(|met| *met))
}

#[test]
fn the_clients_that_share_a_map_work_at_one_time(rt: HostRuntime) {
    for clients in [2, 3] {
        let met = meet_on_map(&rt, rt.alloc(), clients);
        assert_same(&rt, &(clients, met), &(clients, Ok(true)));
    }
}
