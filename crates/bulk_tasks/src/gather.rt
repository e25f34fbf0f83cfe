//! What the workers of a pool collect.
ghost use Rattle.std.specs.Prelude.{◌≡◌, ◌<◌, ◌^◌, length};
ghost use Rattle.chm.specs.Headline.{entries_of};
ghost use Rattle.bulk_tasks.specs.Plans.{AreWorkers};

use crate::batches::batch;
use crate::collector::{Collecting, Collector};
use crate::plan::Plan;
use bin_history::{Remap, Value};
use chm::Quiet;
use hashkeys::HashKey;
use std::alloc::Allocator;
use std::sync::Wait;
use std::thread::Threads;
use steal_pool::{Gate, run};

/// What the entries of a closed map give, in walk order, whichever worker took which.
pub(crate) fn gather<
    K: HashKey + Send + Sync,
    V: Value + Send + Sync,
    F: Remap<K, V> + Send + Sync,
    A: Allocator + Clone + Send + Sync,
    B: Allocator + Clone + Send + Sync,
    C: Collector<K, V, F, A> + Sync,
    G: Gate + Sync,
    Rt: Threads + Wait + Sync,
>(rt: &Rt, alloc: &B, quiet: &Quiet<K, V, F, A>, plan: &Plan<'_, G>, collector: &C) -> C::Part
where
    C::Part: Send,
    requires { AreWorkers plan.now.workers }
    ensures collected { C.collected collector.now (entries_of quiet.now.bins) result }
    ensures few { length (entries_of quiet.now.bins) < 2 ^ 64 }
{
    let count = quiet.mapping_count();
    let bins = quiet.bins();
    if count == 0 {
        return collector.collect(&bins[..0]);
    }
    let batch = batch(count, plan.threshold, plan.workers);
    // One task needs no pool.
    if batch == 0 {
        plan.gate.leaf(0, 0, bins.len());
        return collector.collect(bins);
    }
    let body = Collecting { bins, collector };
    run(rt, alloc, plan.workers, plan.gate, &body, bins.len(), batch).part
}
