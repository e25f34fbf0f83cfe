//! What clients collect of a live map.
ghost use Rattle.std.specs.Prelude.{◌≡◌, ◌≤◌, ◌<◌, ◌↔◌, [], length, All, IfOk, IfErr, OnErr, IsErrOf, Some};
ghost use Rattle.std.specs.List.{AllZip};
ghost use Rattle.bin_history.specs.Calls.{after};
ghost use Rattle.count_ledger.specs.Fronts.{HasSeenMore};
ghost use Rattle.chm.specs.Shares.{AreSameClients};
ghost use Rattle.live_bulk.specs.Plans.{IsPlanned};
ghost use Rattle.live_bulk.specs.Shared.{HaveGathered};
ghost use Rattle.part_walks.specs.Parts.{most_shares};

use crate::clients::clients_for;
use crate::fault::LiveFault;
use crate::working::collect_all;
use bin_history::{Remap, Value};
use bulk_tasks::{Gate, Plan};
use chm::{Map, Pass};
use hashkeys::HashKey;
use part_walks::{Stepper, join_all};
use std::alloc::Allocator;
use std::sync::Wait;
use std::thread::Threads;

/// What the clients with these passes collect of the map, each of its share of the table's buckets.
///
/// # Errors
///
/// `BadWorkers`; `NoClient` where there is no pass; `NoMemory` for the seats. No client began then.
pub(crate) fn gather<
    K: HashKey + Send + Sync,
    V: Value + Send + Sync,
    F: Remap<K, V> + Send + Sync,
    A: Allocator + Clone + Send + Sync,
    S: Stepper<K, V> + Sync,
    G: Gate + Sync,
    R: Threads + Wait + Sync,
>(
    rt: &R,
    map: &Map<K, V, F, A>,
    passes: &mut Vec<Pass<K, V, F>, A>,
    plan: &Plan<'_, G>,
    stepper: &S,
) -> Result<S::Part, LiveFault>
where
    S::Part: Send,
    requires own { All (λ p. p.ledger ≡ map.now.ledger.id) passes.old.items }
    requires few { length passes.old.items ≤ most_shares }
    ensures own { All (λ p. p.ledger ≡ map.now.ledger.id) passes.new.items }
    ensures len { length passes.new.items ≡ length passes.old.items }
    ensures clients { AreSameClients passes.old.items passes.new.items }
    ensures seen { AllZip HasSeenMore passes.old.items passes.new.items }
    ensures gathered { IfOk result (HaveGathered K.eq K.code (after V.eq F.remapped F.merged)
        (S.reached stepper.now) (S.ends stepper.now) map.now.ledger passes.old.items
        passes.new.items) }
    ensures refused { OnErr result (passes.new.items ≡ passes.old.items) }
    ensures workers { IsPlanned plan.now.workers result }
    ensures no_client { IsErrOf result LiveFault.NoClient → passes.old.items ≡ [] }
    ensures few_enough { IsErrOf result LiveFault.TooMany → ⊥ }
{
    let threads = clients_for(map, plan)?;
    if passes.is_empty() {
        return Err(LiveFault::NoClient);
    }
    let parts = collect_all(rt, map, stepper, plan.gate, threads, passes)?;
    Ok(join_all(stepper, parts))
}
