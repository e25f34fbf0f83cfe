//! Runs over small ranges, whose gates tell what was done.
ghost use Rattle.std.specs.Prelude.{◌<◌, ◌≤◌};
ghost use Rattle.steal_pool.specs.Limits.{most_batch, most_workers};

use crate::counting::{new_count, no_leaves};
use crate::gates::{Before, all_workers, new_meeting, new_watch};
use crate::samples::assert_same;
use std::alloc::Global;
use std::process::Abort;
use std::sync::Wait;
use std::sync::atomic::AtomicU64;
use std::sync::atomic::Ordering::SeqCst;
use std::thread::Threads;
use steal_pool::{Gate, OpenGate, Tasks, run};

/// What a settlement counts where so many tasks were pushed.
pub(crate) fn settled(count: u64) -> Option<Tasks> {
    Some(Tasks {
        pushed: count,
        taken: count,
    })
}

/// The leaves of five bins with batch 2.
const FOUR_LEAVES: [(usize, usize); 4] = [(0, 1), (1, 2), (2, 3), (3, 5)];

// A run with these workers over these bins calls its gate and its body for just these leaves, the
// gate first, and has no more workers than leaves. The caller, who is worker 0, does the leaf from 0.
fn assert_leaves<Rt: Threads + Wait + Sync + Abort>(
    rt: &Rt,
    alloc: Global,
    workers: usize,
    bins: usize,
    batch: usize,
    leaves: &[(usize, usize)],
)
    requires { (0 < workers) × (workers ≤ most_workers) × (0 < bins) × (bins ≤ 64)
        × (batch ≤ most_batch) }
{
    let body = new_count();
    let gate = Before {
        begun: &body.leaves,
        seen: no_leaves(),
        late: AtomicU64::new(0),
        greatest: AtomicU64::new(0),
        at_zero: AtomicU64::new(16),
    };
    let done = run(rt, &alloc, workers, &gate, &body, bins, batch);
    let greatest = gate.greatest.load(SeqCst);
    let is_few = greatest < workers as u64 && greatest < leaves.len() as u64;
    let found = (
        (done.part, done.tasks),
        (gate.seen.are(leaves), body.leaves.are(leaves), is_few),
        (gate.late.load(SeqCst), gate.at_zero.load(SeqCst)),
    );
    let tasks = settled((leaves.len() as u64).wrapping_sub(1));
    assert_same(rt, &found, &((bins, tasks), (true, true, true), (0, 0)));
}

#[test]
fn leaves_by_bins_and_batch(rt: HostRuntime) {
    for workers in 1..=16 {
        assert_leaves(&rt, rt.alloc(), workers, 5, 2, &FOUR_LEAVES);
        assert_leaves(
            &rt,
            rt.alloc(),
            workers,
            7,
            3,
            &[(0, 1), (1, 3), (3, 5), (5, 7)],
        );
        assert_leaves(&rt, rt.alloc(), workers, 3, 4, &[(0, 1), (1, 2), (2, 3)]);
        assert_leaves(&rt, rt.alloc(), workers, 1, 16, &[(0, 1)]);
        assert_leaves(&rt, rt.alloc(), workers, 9, 0, &[(0, 9)]);
    }
}

#[test]
fn four_workers_do_each_leaf_once(rt: HostRuntime) {
    for _ in 0..1000u32 {
        assert_leaves(&rt, rt.alloc(), 4, 5, 2, &FOUR_LEAVES);
    }
}

/// Returns how many bins a run with this gate does.
fn run_at<Rt: Threads + Wait + Sync, G: Gate + Sync>(
    rt: &Rt,
    alloc: Global,
    gate: &G,
    workers: usize,
    bins: usize,
    batch: usize,
) -> usize
    requires { (0 < workers) × (workers ≤ most_workers) × (0 < bins) × (bins ≤ 64)
        × (batch ≤ most_batch) }
{
    let done = run(rt, &alloc, workers, gate, &new_count(), bins, batch);
    done.part
}

#[test]
fn one_worker_takes_its_newest_task(rt: HostRuntime) {
    let gate = new_watch(false);
    let part = run_at(&rt, rt.alloc(), &gate, 1, 5, 2);
    assert_same(&rt, &(part, gate.seen.load(SeqCst)), &(5, 01_12_23_35));
}

#[test]
fn a_thief_takes_the_oldest_task(rt: HostRuntime) {
    let gate = new_watch(true);
    let part = run_at(&rt, rt.alloc(), &gate, 2, 5, 2);
    let found = (part, gate.late.load(SeqCst), gate.first.load(SeqCst));
    assert_same(&rt, &found, &(5, 0, 23));
}

/// Runs two workers, and holds each leaf until two have begun. Returns how many bins they do, whether a leaf
/// was held in vain, and how many leaves have begun.
fn run_two<Rt: Threads + Wait + Sync>(
    rt: &Rt,
    alloc: Global,
    bins: usize,
    batch: usize,
) -> (usize, u64, u64)
    requires { (0 < bins) × (bins ≤ 64) × (batch ≤ most_batch) }
{
    let gate = new_meeting(2, 10_000_000);
    let part = run_at(rt, alloc, &gate, 2, bins, batch);
    (part, gate.late.load(SeqCst), gate.begun.load(SeqCst))
}

#[test]
fn two_leaves_at_once(rt: HostRuntime) {
    assert_same(&rt, &run_two(&rt, rt.alloc(), 64, 8), &(64, 0, 16));
}

// A worker that has nothing to do when it begins does not give up: of two leaves it does one, while
// the caller is in the other.
#[test]
fn two_workers_meet_a_thousand_times(rt: HostRuntime) {
    for _ in 0..1000u32 {
        assert_same(&rt, &run_two(&rt, rt.alloc(), 2, 1), &(2, 0, 2));
    }
}

/// Asserts that so many workers, whose bits these are, do leaves of 64 bins at the same time.
fn assert_all_work<Rt: Threads + Wait + Sync + Abort>(
    rt: &Rt,
    alloc: Global,
    workers: usize,
    bits: u64,
    batch: usize,
)
    requires { (0 < workers) × (workers ≤ most_workers) × (batch ≤ most_batch) }
{
    let gate = all_workers(bits);
    let part = run_at(rt, alloc, &gate, workers, 64, batch);
    let found = (part, gate.late.load(SeqCst), gate.seen.load(SeqCst));
    assert_same(rt, &found, &(64, 0, bits));
}

#[test]
fn four_workers_do_leaves_at_once(rt: HostRuntime) {
    assert_all_work(&rt, rt.alloc(), 4, 0b1111, 16);
}

#[test]
fn sixteen_workers_do_leaves_at_once(rt: HostRuntime) {
    assert_all_work(&rt, rt.alloc(), 16, 0xffff, 64);
}

/// How many bins the workers do of so many, how many leaves they begin, and what tasks they share.
fn run_over<Rt: Threads + Wait + Sync>(
    rt: &Rt,
    alloc: Global,
    workers: usize,
    bins: usize,
    batch: usize,
) -> (usize, u64, Option<Tasks>)
    requires { (0 < workers) × (workers ≤ most_workers) × (0 < bins) × (bins ≤ 65536)
        × (batch ≤ most_batch) }
{
    let body = new_count();
    let done = run(rt, &alloc, workers, &OpenGate, &body, bins, batch);
    (done.part, body.leaves.calls.load(SeqCst), done.tasks)
}

/// Batches, each with its number of nodes.
const NODES: [(usize, u64); 6] = [(0, 1), (1, 2), (6, 8), (8, 16), (16, 32), (64, 128)];

// Where bins suffice each node does one leaf.
#[test]
fn nodes_by_batch(rt: HostRuntime) {
    for (batch, nodes) in &NODES {
        let found = run_over(&rt, rt.alloc(), 2, 65536, *batch);
        assert_same(&rt, &found, &(65536, *nodes, settled(*nodes - 1)));
    }
}

/// The batch of 0 and those that are powers of two, each with its number of nodes.
const POWERS: [(usize, u64); 7] = [(0, 1), (1, 2), (2, 4), (4, 8), (8, 16), (16, 32), (32, 64)];

// Each range is halved until its batch is used up, or it has one bin: so by powers of two.
#[test]
fn runs_of_each_size_have_their_memory(rt: HostRuntime) {
    for workers in &[1, 2, 4, 8, 16] {
        for (batch, nodes) in &POWERS {
            for level in 0..17u32 {
                let bins = 1usize << level;
                let leaves = (*nodes).min(bins as u64);
                let found = run_over(&rt, rt.alloc(), *workers, bins, *batch);
                assert_same(&rt, &found, &(bins, leaves, settled(leaves - 1)));
            }
        }
    }
}

#[test]
fn a_thousand_runs_over_65536_bins(rt: HostRuntime) {
    for _ in 0..1000u32 {
        let found = run_over(&rt, rt.alloc(), 16, 65536, 64);
        assert_same(&rt, &found, &(65536, 128, settled(127)));
    }
}
