//! Requests for memory that are refused, each in turn, of runs and of bulk operations.
ghost use Rattle.std.specs.Prelude.{◌<◌, ◌≤◌};
ghost use Rattle.steal_pool.specs.Limits.{most_workers};

use crate::closed::{KeyQuiet, Look, on_counted};
use crate::counting::new_count;
use crate::runs::settled;
use crate::samples::{Above, Initials, assert_same};
use bulk_tasks::{BulkFault, Plan, Probe, Sum, for_each, reduce, reduce_based, search};
use hashkeys::Key;
use std::alloc::{AllocError, Allocator, Global};
use std::process::Abort;
use std::sync::Wait;
use std::sync::atomic::Ordering::SeqCst;
use std::thread::Threads;
use steal_pool::{OpenGate, Tasks, run};
use test_support::Refusing;

/// Runs over 64 bins, and refuses the request after so many. Returns how many bins and leaves the run did,
/// and its tasks; and whether a request was refused.
fn run_once<Rt: Threads + Wait + Sync, A: Allocator + Clone + Send + Sync>(
    rt: &Rt,
    switch: &Refusing<Global>,
    alloc: &A,
    workers: usize,
    granted: u64,
) -> ((usize, u64, Option<Tasks>), bool)
    requires { (0 < workers) × (workers ≤ most_workers) }
{
    let body = new_count();
    switch.refuse_after(granted);
    let done = run(rt, alloc, workers, &OpenGate, &body, 64, 32);
    let refused = switch.has_refused();
    switch.refuse_after(u64::MAX);
    let ran = (done.part, body.leaves.calls.load(SeqCst), done.tasks);
    (ran, refused)
}

/// Refuses each request in turn, up to the first that is not made. Returns how many runs did one leaf and
/// no task, and how many did 64 leaves of which 62 were tasks, since one task had no room. The last run
/// does 64 leaves of which 63 are tasks.
fn run_refused<Rt: Threads + Wait + Sync + Abort, A: Allocator + Clone + Send + Sync>(
    rt: &Rt,
    switch: &Refusing<Global>,
    alloc: A,
    workers: usize,
) -> (u64, u64)
    requires { (0 < workers) × (workers ≤ most_workers) }
{
    let (mut alone, mut at_once) = (0u64, 0u64);
    for granted in 0..1000 {
        let (ran, refused) = run_once(rt, switch, &alloc, workers, granted);
        if !refused {
            assert_same(rt, &ran, &(64, 64, settled(63)));
            return (alone, at_once);
        }
        if ran == (64, 1, None) {
            alone = alone.wrapping_add(1);
        } else {
            assert_same(rt, &ran, &(64, 64, settled(62)));
            at_once = at_once.wrapping_add(1);
        }
    }
    assert!(rt; false, "each run asks for more");
    (alone, at_once)
}

// One worker has six tasks in its deque at most, which has room for four: it grows once.
#[test]
fn a_run_that_is_refused_a_request_does_all_bins(rt: HostRuntime) {
    let switch = Refusing::new(rt.alloc());
    let (alone, at_once) = run_refused(&rt, &switch, &switch, 1);
    assert_same(&rt, &(alone > 0, at_once > 0), &(true, true));
    for workers in 2..=16 {
        let (more, _) = run_refused(&rt, &switch, &switch, workers);
        assert_same(&rt, &(workers, more > alone), &(workers, true));
    }
}

/// Finds a value above this one, and takes memory each time that it is asked.
#[derive(Drop)]
struct Copying<A: Allocator> {
    alloc: A,
    above: i64,
}

impl<A: Allocator + Clone> Probe<Key, i64> for Copying<A> {
    ghost use Rattle.std.specs.Prelude.{false, Some, None, if◌then◌else◌};
    ghost use Rattle.std.specs.Int.Signed.{lt_z};

    type U = i64;

    ghost probed = { λ p _ v. if lt_z p.above v then Some v else None };

    ghost never_refuses = { false };

    fn probe(&self, _key: &Key, value: &i64) -> Result<Option<i64>, AllocError> {
        let mut copies = Vec::new(self.alloc.clone()?);
        copies.push(*value)?;
        if self.above < *value {
            return Ok(Some(*value));
        }
        Ok(None)
    }
}

/// A bulk operation of these tests.
#[derive(Clone, Copy)]
enum Bulk {
    /// The sum.
    Sum,
    /// The sum over 0.
    SumOverZero,
    /// A search for a value above 63, whose probe allocates nothing.
    Above,
    /// The same, and the probe allocates.
    Copying,
    /// How many results an action has.
    Count,
}

impl Bulk {
    fn ask<Rt: Threads + Wait + Sync, A: Allocator + Clone + Send + Sync>(
        self,
        rt: &Rt,
        alloc: &A,
        quiet: &KeyQuiet,
        plan: &Plan<'_, OpenGate>,
    ) -> Result<i128, BulkFault> {
        let own = alloc.clone()?;
        match self {
            Bulk::Sum => Ok(reduce(rt, own, quiet, plan, &Sum)?.unwrap_or(0)),
            Bulk::SumOverZero => reduce_based(rt, own, quiet, plan, &Sum),
            Bulk::Above => number_of(search(rt, own, quiet, plan, &Above(63))),
            Bulk::Copying => {
                let probe = Copying {
                    alloc: alloc.clone()?,
                    above: 63,
                };
                number_of(search(rt, own, quiet, plan, &probe))
            }
            Bulk::Count => {
                let list = for_each(rt, own, quiet, plan, &Initials { refused_at: 0 })?;
                Ok(list.len() as i128)
            }
        }
    }
}

fn number_of(found: Result<Option<i64>, BulkFault>) -> Result<i128, BulkFault> {
    Ok(i128::from(found?.unwrap_or(0)))
}

/// Runs a bulk operation and refuses each request in turn, up to the first that is not made. After each
/// refusal it runs once more.
#[derive(Drop)]
struct RefusingEach {
    bulk: Bulk,
    threshold: u64,
    workers: usize,
    wanted: i128,
}

/// How often a request was refused, how often the operation then failed, and how often it returned what is
/// wrong.
type Refused = (u64, u64, u64);

impl RefusingEach {
    /// Whether an operation returned what is right, or failed as out of memory where a request was refused.
    fn is_right(&self, found: Result<i128, BulkFault>, refused: bool) -> bool {
        found == Ok(self.wanted) || refused && found == Err(BulkFault::NoMemory)
    }

    fn ask_each<Rt: Threads + Wait + Sync, A: Allocator + Clone + Send + Sync>(
        &self,
        rt: &Rt,
        switch: &Refusing<Global>,
        alloc: &A,
        quiet: &KeyQuiet,
    ) -> Refused {
        let plan = Plan::new(self.threshold, self.workers);
        let (mut refusals, mut told, mut wrong) = (0u64, 0u64, 0u64);
        for granted in 0..1000 {
            switch.refuse_after(granted);
            let found = self.bulk.ask(rt, alloc, quiet, &plan);
            let refused = switch.has_refused();
            switch.refuse_after(u64::MAX);
            let again = self.bulk.ask(rt, alloc, quiet, &plan);
            let are_right = self.is_right(found, refused) && self.is_right(again, false);
            wrong = wrong.wrapping_add(u64::from(!are_right));
            if !refused {
                break;
            }
            refusals = refusals.wrapping_add(1);
            told = told.wrapping_add(u64::from(found.is_err()));
        }
        (refusals, told, wrong)
    }
}

impl Look for RefusingEach {
    type Seen = Refused;

    fn look<Rt: Threads + Wait + Sync + Abort>(
        &self,
        rt: &Rt,
        alloc: Global,
        quiet: &KeyQuiet,
    ) -> Refused {
        let switch = Refusing::new(alloc);
        self.ask_each(rt, &switch, &&switch, quiet)
    }
}

/// The same, of the values 1 to 64.
fn refuse_each<Rt: Threads + Wait + Sync + Abort>(
    rt: &Rt,
    alloc: Global,
    bulk: Bulk,
    (threshold, workers): (u64, usize),
    wanted: i128,
) -> Refused {
    let refusing = RefusingEach {
        bulk,
        threshold,
        workers,
        wanted,
    };
    on_counted(rt, alloc, 64, &refusing)
}

// What one task is refused another may find first. By one worker each of the 64 that are asked for
// a value that is the last is refused in turn.
#[test]
fn a_search_that_was_refused_is_answered_the_next_time(rt: HostRuntime) {
    for threshold in &[1, u64::MAX] {
        let (_, told, wrong) = refuse_each(&rt, rt.alloc(), Bulk::Copying, (*threshold, 1), 64);
        assert_same(&rt, &(threshold, told > 0, wrong), &(threshold, true, 0));
        let (_, _, wrong) = refuse_each(&rt, rt.alloc(), Bulk::Copying, (*threshold, 4), 64);
        assert_same(&rt, &(threshold, wrong), &(threshold, 0));
    }
}

/// Operations that do not fail where memory is refused, and what they return.
const WITHOUT_MEMORY: [(Bulk, i128); 3] = [
    (Bulk::Sum, 2080),
    (Bulk::SumOverZero, 2080),
    (Bulk::Above, 64),
];

#[test]
fn what_is_never_refused_is_answered_without_memory(rt: HostRuntime) {
    for (bulk, wanted) in &WITHOUT_MEMORY {
        let (refusals, told, wrong) = refuse_each(&rt, rt.alloc(), *bulk, (1, 4), *wanted);
        let is_some = 0 < refusals && refusals < 1000;
        assert_same(&rt, &(is_some, told, wrong), &(true, 0, 0));
    }
}

#[test]
fn a_list_that_was_refused_is_answered_the_next_time(rt: HostRuntime) {
    let (refusals, told, wrong) = refuse_each(&rt, rt.alloc(), Bulk::Count, (1, 4), 64);
    assert_same(&rt, &(0 < told, refusals < 1000, wrong), &(true, true, 0));
}
