//! Bulk operations on a map that nobody calls meanwhile.
use crate::samples::{Answers, Any, Look, Numbers, answers, assert_same, seen};
use facingberyl::Fault;
use facingberyl::bulk::Plan;
use live_maps::{LiveFault, live_search};
use std::alloc::Global;
use std::process::Abort;
use std::sync::Wait;
use std::sync::atomic::AtomicU64;
use std::sync::atomic::Ordering::SeqCst;
use std::thread::Threads;

/// What each operation returns by so many workers.
#[derive(Drop)]
struct Answering {
    workers: usize,
    above: u64,
}

impl Look for Answering {
    type Seen = Answers;

    fn look<R: Threads + Wait + Sync>(&self, rt: &R, map: &Numbers) -> Result<Answers, Fault> {
        Ok(answers(rt, map, self.workers, self.above))
    }
}

/// Asserts what each operation returns, by 1 to 16 workers, on a map with the values 1 to 100.
fn assert_each<R: Threads + Wait + Sync + Abort>(
    rt: &R,
    alloc: Global,
    above: u64,
    wanted: &Result<Answers, Fault>,
) {
    for workers in 1..=16 {
        let found = seen(rt, alloc, (1, 20, 100), &Answering { workers, above });
        assert_same(rt, &found, wanted);
    }
}

/// The sum of the values is 5,050, the greatest is 100, and each of them is collected once.
fn full(above: Option<u64>) -> Result<Answers, Fault> {
    Ok((
        Ok(Some(5_050)),
        Ok(Some(100)),
        Ok(above),
        Ok((100, 100, true)),
    ))
}

#[test]
fn values_are_reduced_by_each_number_of_workers(rt: HostRuntime) {
    assert_each(&rt, rt.alloc(), 99, &full(Some(100)));
}

#[test]
fn nothing_is_reduced_to_none(rt: HostRuntime) {
    let answering = Answering {
        workers: 4,
        above: 0,
    };
    let found = seen(&rt, rt.alloc(), (16, 4, 0), &answering);
    let wanted = (Ok(None), Ok(None), Ok(None), Ok((0, 0, true)));
    assert_same(&rt, &found, &Ok(wanted));
}

/// Of the values 1 to 100 one is above 99, and none is above 100.
#[test]
fn a_probe_finds_what_is_there(rt: HostRuntime) {
    assert_each(&rt, rt.alloc(), 99, &full(Some(100)));
    assert_each(&rt, rt.alloc(), 100, &full(None));
}

/// Searches with a probe that finds each value. Returns whether something is found, and the probe's calls.
#[derive(Drop)]
struct FindingAny {
    workers: usize,
}

impl Look for FindingAny {
    type Seen = (bool, u64);

    fn look<R: Threads + Wait + Sync>(&self, rt: &R, map: &Numbers) -> Result<(bool, u64), Fault> {
        let probe = Any {
            calls: AtomicU64::new(0),
        };
        let found = live_search(rt, map, &Plan::new(0, self.workers), &probe);
        Ok((matches!(found, Ok(Some(_))), probe.calls.load(SeqCst)))
    }
}

/// A worker that finds something asks no more, and one that does not begins no bucket after that: of
/// 100 entries each worker asks of one at most.
#[test]
fn a_search_ends_once_something_is_found(rt: HostRuntime) {
    for workers in 1..=16 {
        let found = seen(&rt, rt.alloc(), (1, 20, 100), &FindingAny { workers });
        let (is_found, calls) = found.unwrap_or((false, 0));
        let is_few = 1 <= calls && calls <= workers as u64;
        assert_same(&rt, &(workers, is_found, is_few), &(workers, true, true));
    }
}

/// An action is done once with each of the values 1 to 100.
#[test]
fn an_action_is_done_once_with_each_entry(rt: HostRuntime) {
    assert_each(&rt, rt.alloc(), 100, &full(None));
}

#[test]
fn there_are_1_to_16_workers(rt: HostRuntime) {
    let bad = LiveFault::BadWorkers;
    for workers in &[0, 17] {
        let answering = Answering {
            workers: *workers,
            above: 0,
        };
        let found = seen(&rt, rt.alloc(), (16, 4, 1), &answering);
        let wanted = (Err(bad), Err(bad), Err(bad), Err(bad));
        assert_same(&rt, &found, &Ok(wanted));
    }
}
