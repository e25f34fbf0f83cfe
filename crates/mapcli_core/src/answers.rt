//! What queries answer, by bulk operations on the closed map.
ghost use Rattle.std.specs.Prelude.{◌≡◌, ℤ, List, ◌++◌, IfOk, OnOk, IsPermutation, IsSortedByKey};
ghost use Rattle.std.specs.Prelude.{map};
ghost use Rattle.std.specs.Ordering.{nat_cmp};
ghost use Rattle.std.specs.Cmp.Lexicographic.{slice_cmp};
ghost use Rattle.chm.specs.Headline.{entries_of};
ghost use Rattle.bulk_tasks.specs.Plans.{AreWorkers};
ghost use Rattle.mapcli_core.specs.Texts.{sum_of, IsGreatest, IsAbove, Answers, AnswersAll};

use crate::client::ScriptQuiet;
use crate::gate::ClientGate;
use crate::tasks::{Above, Pairs};
use crate::text::{push_number_line, push_option, push_pairs};
use bulk_tasks::{Greatest, Plan, Sum, for_each, reduce, reduce_based, search};
use hashkeys::Key;
use script::Query;
use std::alloc::{AllocError, Allocator};
use std::sync::Wait;
use std::thread::Threads;

/// Who answers: so many workers, 1 to 16, under a gate.
#[derive(Drop)]
pub(crate) struct Crew<'a, G> {
    pub(crate) workers: usize,
    pub(crate) gate: &'a G,
}

impl<G> Crew<'_, G> {
    /// The plan of a bulk operation with this threshold.
    fn plan(&self, threshold: u64) -> Plan<'_, G>
        ensures workers { result.workers ≡ self.now.workers }
        ensures threshold { result.threshold ≡ threshold }
    {
        Plan {
            threshold,
            workers: self.workers,
            gate: self.gate,
        }
    }
}

/// The exact sum of the values. It is never refused.
fn sum_of<R: Threads + Wait + Sync, G: ClientGate + Sync, A: Allocator + Clone + Send + Sync>(
    rt: &R,
    alloc: A,
    quiet: &ScriptQuiet<A>,
    plan: &Plan<'_, G>,
) -> i128
    requires { AreWorkers plan.now.workers }
    ensures { result ≡ sum_of (map (λ e. e.1) (entries_of quiet.now.bins)) }
{
    match reduce_based(rt, alloc, quiet, plan, &Sum) {
        Ok(sum) => sum,
        Err(_) => unreachable!(),
    }
}

/// The greatest value, if there is one. It is never refused.
fn greatest<R: Threads + Wait + Sync, G: ClientGate + Sync, A: Allocator + Clone + Send + Sync>(
    rt: &R,
    alloc: A,
    quiet: &ScriptQuiet<A>,
    plan: &Plan<'_, G>,
) -> Option<i64>
    requires { AreWorkers plan.now.workers }
    ensures { IsGreatest (map (λ e. e.1) (entries_of quiet.now.bins)) result }
{
    match reduce(rt, alloc, quiet, plan, &Greatest) {
        Ok(greatest) => greatest,
        Err(_) => unreachable!(),
    }
}

/// A value above the bound, if there is one. It is never refused.
fn above<R: Threads + Wait + Sync, G: ClientGate + Sync, A: Allocator + Clone + Send + Sync>(
    rt: &R,
    alloc: A,
    quiet: &ScriptQuiet<A>,
    plan: &Plan<'_, G>,
    bound: i64,
) -> Option<i64>
    requires { AreWorkers plan.now.workers }
    ensures { IsAbove bound (map (λ e. e.1) (entries_of quiet.now.bins)) result }
{
    match search(rt, alloc, quiet, plan, &Above(bound)) {
        Ok(found) => found,
        Err(_) => unreachable!(),
    }
}

/// The pairs in byte order of their keys.
fn sorted<R: Threads + Wait + Sync, G: ClientGate + Sync, A: Allocator + Clone + Send + Sync>(
    rt: &R,
    alloc: A,
    quiet: &ScriptQuiet<A>,
    plan: &Plan<'_, G>,
) -> Result<Vec<(Key, i64), A>, AllocError>
    ensures permutation { IfOk result (λ v. IsPermutation (entries_of quiet.now.bins) v.items) }
    ensures sorted { IfOk result (λ v. IsSortedByKey (λ e. e.0) (slice_cmp nat_cmp) v.items) }
{
    let Ok(mut pairs) = for_each(rt, alloc, quiet, plan, &Pairs) else {
        return Err(AllocError);
    };
    pairs.sort_unstable();
    Ok(pairs)
}

/// Appends the lines that answer a query.
fn push_answer<R: Threads + Wait + Sync, G: ClientGate + Sync, A: Allocator + Clone + Send + Sync>(
    rt: &R,
    alloc: A,
    text: &mut Vec<u8, A>,
    quiet: &ScriptQuiet<A>,
    crew: &Crew<'_, G>,
    query: &Query,
) -> Result<(), AllocError>
    requires { AreWorkers crew.now.workers }
    ensures { OnOk result ((answer : List _) × Answers (entries_of quiet.now.bins) query.now answer
        × (text.new.items ≡ text.old.items ++ answer)) }
{
    match query {
        Query::Count => push_number_line(text, quiet.mapping_count()),
        Query::ReduceSum(threshold) => {
            push_number_line(text, sum_of(rt, alloc, quiet, &crew.plan(*threshold)))
        }
        Query::ReduceMax(threshold) => {
            push_option(text, greatest(rt, alloc, quiet, &crew.plan(*threshold)))
        }
        Query::SearchAbove(bound, threshold) => {
            push_option(
                text,
                above(rt, alloc, quiet, &crew.plan(*threshold), *bound),
            )
        }
        Query::List(threshold) => {
            let sorted = sorted(rt, alloc, quiet, &crew.plan(*threshold))?;
            push_pairs(text, &sorted)
        }
    }
}

/// Appends the lines that answer the queries, in their order.
pub(crate) fn push_answers<
    R: Threads + Wait + Sync,
    G: ClientGate + Sync,
    A: Allocator + Clone + Send + Sync,
>(
    rt: &R,
    alloc: &A,
    text: &mut Vec<u8, A>,
    quiet: &ScriptQuiet<A>,
    crew: &Crew<'_, G>,
    queries: &[Query],
) -> Result<(), AllocError>
    requires { AreWorkers crew.now.workers }
    ensures { OnOk result
        ((answers : List _) × AnswersAll (entries_of quiet.now.bins) queries.now answers
        × (text.new.items ≡ text.old.items ++ answers)) }
{
    for query in queries {
        push_answer(rt, alloc.clone()?, text, quiet, crew, query)?;
    }
    Ok(())
}
