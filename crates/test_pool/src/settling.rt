//! What only the parts of a run show: runs that are refused something, and the settlement.
ghost use Rattle.std.specs.Prelude.{◌≡◌, ◌+◌, ◌<◌, ◌≤◌, ℕ, All, vec_len};
ghost use Rattle.completers.specs.Parts.{AreParts};
ghost use Rattle.crossbeam_deque.specs.Handles.{worker_deque};
ghost use Rattle.steal_pool.specs.Limits.{most_workers};
ghost use Rattle.steal_pool.specs.Seating.{AreSeated, IsFresh};
ghost use Rattle.steal_pool.specs.Shapes.{shape, shapes};

use crate::counting::new_count;
use crate::runs::settled;
use crate::samples::assert_same;
use completers::{Parts, Relation};
use std::alloc::{AllocError, Global};
use std::marker::Brand;
use std::process::Abort;
use std::sync::Wait;
use std::sync::atomic::Ordering::SeqCst;
use std::thread::Threads;
use steal_pool::{
    Body, Finished, Member, OpenGate, Order, Own, Seats, Tasks, close, members, new_deques,
    nodes_for, run_order,
};

// A run with four workers over five bins, of whom at most so many have a thread: how many leaves it
// does, and what its settlement counts.
fn run_with<Rt: Threads + Wait + Sync + Abort>(
    rt: &Rt,
    alloc: Global,
    threads: usize,
) -> (u64, Option<Tasks>) {
    let body = new_count();
    let order = Order {
        workers: 4,
        threads,
        gate: &OpenGate,
        body: &body,
        bins: 5,
        batch: 2,
    };
    let Finished { part, tasks } = run_order(rt, &alloc, &order);
    assert_same(rt, &part, &5);
    (body.leaves.calls.load(SeqCst), tasks)
}

#[test]
fn workers_without_a_thread_are_left_out(rt: HostRuntime) {
    for threads in 0..5 {
        let done = run_with(&rt, rt.alloc(), threads);
        assert_same(&rt, &done, &(4, settled(3)));
    }
}

/// Adds up what 64 bins hold, 1 in the first and 64 in the last. What a part has of it is asserted,
/// and no clause.
#[derive(Drop)]
struct Sums;

impl Relation for Sums {
    type Part = u64;

    ghost relates = { λ _ lo hi part. lo ≤ hi };
}

impl Body for Sums {
    ghost use Rattle.std.specs.Prelude.{ℕ};

    ghost limit = { λ _. 64 };

    fn leaf(&self, lo: usize, hi: usize) -> u64 {
        let mut sum = 0u64;
        for bin in lo..hi {
            sum = sum.wrapping_add(bin as u64).wrapping_add(1);
        }
        sum
    }

    fn join(&self, lo: usize, hi: usize, parts: Parts<u64>) -> u64
        requires { (lo < hi) × AreParts (λ a b part. a ≤ b) lo hi parts }
        ensures { lo ≤ hi }
    {
        let mut parts = parts;
        let mut sum = 0u64;
        for _ in 0..8 {
            if let Some(x) = parts.take() {
                sum = sum.wrapping_add(x.part);
            }
        }
        let _ = (lo, hi);
        sum
    }
}

#[test]
fn a_run_with_no_thread_started_adds_up_all_bins(rt: HostRuntime) {
    for workers in 1..5 {
        let order = Order {
            workers,
            threads: 0,
            gate: &OpenGate,
            body: &Sums,
            bins: 64,
            batch: 1,
        };
        let Finished { part, tasks } = run_order(&rt, &rt.alloc(), &order);
        assert_same(&rt, &(workers, part, tasks), &(workers, 2080, settled(1)));
    }
}

// Pushes three tasks, and takes the newest.
fn push_three<S: Seats<Global>>(me: &mut Member<u64, Global, S>) -> Option<u64>
    ensures { shape me.new ≡ shape me.old }
{
    for task in [10, 11, 12] {
        let _refused = me.push(task);
    }
    me.take()
}

// Member 0 pushes three tasks and takes the newest, and member 2 takes the oldest.
fn two_take<S: Seats<Global>>(members: &mut [Member<u64, Global, S>]) -> (Option<u64>, Option<u64>)
    ensures { shapes members.new ≡ shapes members.old }
{
    let Some((first, others)) = members.split_last_mut() else {
        return (None, None);
    };
    let newest = push_three(first);
    let Some(thief) = others.first_mut() else {
        return (newest, None);
    };
    (newest, thief.take())
}

/// What two members took, what tasks are told, and how many are left.
type Taken = (Option<u64>, Option<u64>, (Option<Tasks>, u128));

// What members 0 and 2 of three take, and how many tasks are left, once the members are back.
fn seated_take_two<S: Seats<Global>>(
    alloc: Global,
    deques: &mut Vec<Own<u64, Global>>,
) -> Result<Taken, AllocError>
    requires few { vec_len deques.old ≤ most_workers }
    requires deques { All IsFresh deques.old.items }
    requires seats { AreSeated worker_deque S.deque deques.old.items }
{
    let (mut members, none) = members::<u64, Global, S>(&alloc, deques)?;
    let (newest, oldest) = two_take(members.as_mut_slice());
    Ok((newest, oldest, close(members, none)))
}

fn take_two(alloc: Global) -> Result<Taken, AllocError> {
    let mut deques = new_deques(&alloc, 3)?;
    seated_take_two::<Brand>(alloc, &mut deques)
}

#[test]
fn what_is_left_is_what_nobody_took(rt: HostRuntime) {
    let taken = take_two(rt.alloc()).expect(&rt, "no fault");
    assert_same(&rt, &taken, &(Some(12), Some(10), (None, 1)));
}

// Members 0, 2 and 3 of four have a task each, their number. What member 1 takes.
fn seated_rounds<S: Seats<Global>>(
    alloc: Global,
    deques: &mut Vec<Own<u64, Global>>,
) -> Result<[Option<u64>; 3], AllocError>
    requires few { vec_len deques.old ≤ most_workers }
    requires deques { All IsFresh deques.old.items }
    requires seats { AreSeated worker_deque S.deque deques.old.items }
{
    let (mut members, _none) = members::<u64, Global, S>(&alloc, deques)?;
    for member in members.iter_mut() {
        let number = member.number as u64;
        if number != 1 {
            let _refused = member.push(number);
        }
    }
    let mut taken = [None; 3];
    for member in members.iter_mut() {
        if member.number == 1 {
            taken = [member.take(), member.take(), member.take()];
        }
    }
    Ok(taken)
}

fn take_rounds(alloc: Global) -> Result<[Option<u64>; 3], AllocError> {
    let mut deques = new_deques(&alloc, 4)?;
    seated_rounds::<Brand>(alloc, &mut deques)
}

#[test]
fn a_thief_asks_the_next_number_first(rt: HostRuntime) {
    let taken = take_rounds(rt.alloc()).expect(&rt, "no fault");
    assert_same(&rt, &taken, &[Some(2), Some(3), Some(0)]);
}

#[test]
fn nodes_by_binary_digits_of_the_batch(rt: HostRuntime) {
    let small = [nodes_for(0), nodes_for(1), nodes_for(2), nodes_for(3)];
    let middle = [nodes_for(4), nodes_for(7), nodes_for(8), nodes_for(15)];
    let great = [nodes_for(16), nodes_for(31), nodes_for(32), nodes_for(63)];
    let found = (small, middle, great, nodes_for(64));
    let wanted = ([1, 2, 4, 4], [8, 8, 16, 16], [32, 32, 64, 64], 128);
    assert_same(&rt, &found, &wanted);
}
