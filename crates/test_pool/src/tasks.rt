//! Which tasks of a bulk operation begin, and which of them at the same time.
use crate::closed::{KeyQuiet, Look, on_counted, on_rows};
use crate::gates::{all_workers, new_meeting};
use crate::samples::assert_same;
use bulk_tasks::{BulkFault, Plan, Sum, reduce};
use std::alloc::Global;
use std::process::Abort;
use std::sync::Wait;
use std::sync::atomic::Ordering::SeqCst;
use std::thread::Threads;

/// What a reduction returns whose workers are held at each task until so many tasks have begun, for so many
/// turns; whether one was held in vain; and how many tasks began.
type Met = (Result<Option<i128>, BulkFault>, u64, u64);

/// The sum of the values, with a gate that holds the tasks.
#[derive(Drop)]
struct Meeting {
    threshold: u64,
    workers: usize,
    wanted: u64,
    turns: u32,
}

impl Look for Meeting {
    type Seen = Met;

    fn look<Rt: Threads + Wait + Sync + Abort>(
        &self,
        rt: &Rt,
        alloc: Global,
        quiet: &KeyQuiet,
    ) -> Met {
        let gate = new_meeting(self.wanted, self.turns);
        let plan = Plan {
            threshold: self.threshold,
            workers: self.workers,
            gate: &gate,
        };
        let sum = reduce(rt, alloc, quiet, &plan, &Sum);
        (sum, gate.late.load(SeqCst), gate.begun.load(SeqCst))
    }
}

/// Reduces the values 1 to 64, whose work is divided as far as it can be, and holds each task until two
/// have begun.
fn two_met<Rt: Threads + Wait + Sync + Abort>(
    rt: &Rt,
    alloc: Global,
    workers: usize,
    turns: u32,
) -> Met {
    let meeting = Meeting {
        threshold: 1,
        workers,
        wanted: 2,
        turns,
    };
    on_counted(rt, alloc, 64, &meeting)
}

#[test]
fn two_tasks_at_once(rt: HostRuntime) {
    let (sum, late, begun) = two_met(&rt, rt.alloc(), 2, 10_000_000);
    assert_same(&rt, &(sum, late, begun > 1), &(Ok(Some(2080)), 0, true));
}

// One worker does one task after the other. A batch of 4 gives 8 tasks, of 128 bins.
#[test]
fn one_worker_is_late(rt: HostRuntime) {
    let found = two_met(&rt, rt.alloc(), 1, 1000);
    assert_same(&rt, &found, &(Ok(Some(2080)), 1, 8));
}

/// The sum of the values by four workers, each of which is held until the workers of these bits have begun
/// a task; whether one was held in vain; and the bits of those that have.
#[derive(Drop)]
struct AllAtOnce {
    threshold: u64,
    bits: u64,
}

impl Look for AllAtOnce {
    type Seen = (Result<Option<i128>, BulkFault>, u64, u64);

    fn look<Rt: Threads + Wait + Sync + Abort>(
        &self,
        rt: &Rt,
        alloc: Global,
        quiet: &KeyQuiet,
    ) -> (Result<Option<i128>, BulkFault>, u64, u64) {
        let gate = all_workers(self.bits);
        let plan = Plan {
            threshold: self.threshold,
            workers: 4,
            gate: &gate,
        };
        let sum = reduce(rt, alloc, quiet, &plan, &Sum);
        (sum, gate.late.load(SeqCst), gate.seen.load(SeqCst))
    }
}

#[test]
fn four_workers_reduce(rt: HostRuntime) {
    let all = AllAtOnce {
        threshold: 1,
        bits: 0b1111,
    };
    let found = on_counted(&rt, rt.alloc(), 64, &all);
    assert_same(&rt, &found, &(Ok(Some(2080)), 0, 0b1111));
}

// The worker that calls does a task that is not divided.
#[test]
fn the_only_task_is_of_worker_0(rt: HostRuntime) {
    let all = AllAtOnce {
        threshold: u64::MAX,
        bits: 0b1,
    };
    let found = on_counted(&rt, rt.alloc(), 64, &all);
    assert_same(&rt, &found, &(Ok(Some(2080)), 0, 0b1));
}

/// How many bins a map has.
struct Bins;

impl Look for Bins {
    type Seen = usize;

    fn look<Rt: Threads + Wait + Sync + Abort>(
        &self,
        _rt: &Rt,
        _alloc: Global,
        quiet: &KeyQuiet,
    ) -> usize {
        quiet.bins().len()
    }
}

/// Thresholds, each with the number of tasks that four workers do over 16 bins.
const TASKS: [(u64, u64); 5] = [(0, 16), (1, 4), (2, 2), (3, 1), (u64::MAX, 1)];

#[test]
fn tasks_by_threshold(rt: HostRuntime) {
    let rows: [(&[u8], i64); 2] = [(b"a", 1), (b"q", 2)];
    let bins = on_rows(&rt, rt.alloc(), 16, &rows, &Bins);
    assert_same(&rt, &bins, &16);
    for (threshold, wanted) in &TASKS {
        let meeting = Meeting {
            threshold: *threshold,
            workers: 4,
            wanted: 0,
            turns: 1,
        };
        let (sum, _, begun) = on_rows(&rt, rt.alloc(), 16, &rows, &meeting);
        assert_same(
            &rt,
            &(*threshold, sum, begun),
            &(*threshold, Ok(Some(3)), *wanted),
        );
    }
}
