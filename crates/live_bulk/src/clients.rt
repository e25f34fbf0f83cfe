//! How many clients a bulk operation takes.
ghost use Rattle.std.specs.Prelude.{◌≡◌, ◌≤◌, ◌<◌, IfOk, IfErr};
ghost use Rattle.live_bulk.specs.Plans.{IsPlanned};

use crate::fault::LiveFault;
use bin_history::{Remap, Value};
use bulk_tasks::{MOST_WORKERS, Plan, batch};
use chm::Map;
use hashkeys::HashKey;
use std::alloc::Allocator;

/// Returns the number of clients that a bulk operation by the plan takes of a map, each with a
/// thread of its own: as many as the plan has workers, or fewer where the map has few entries for
/// the plan's threshold. It waits for nobody.
///
///     clients_for(&map, &Plan::new(0, 4))? == 1
///
/// # Errors
///
/// `BadWorkers`: the plan has not 1 to 16 workers.
pub fn clients_for<K: HashKey, V: Value, F: Remap<K, V>, A: Allocator, G>(
    map: &Map<K, V, F, A>,
    plan: &Plan<'_, G>,
) -> Result<usize, LiveFault>
    ensures some { IfOk result (λ clients. 0 < clients) }
    ensures few { IfOk result (λ clients. clients ≤ plan.now.workers) }
    ensures workers { IsPlanned plan.now.workers result }
    ensures faults { IfErr result (λ fault. fault ≡ LiveFault.BadWorkers) }
{
    let workers = plan.workers;
    if workers == 0 || workers > MOST_WORKERS {
        return Err(LiveFault::BadWorkers);
    }
    Ok(batch(map.mapping_count(), plan.threshold, workers).clamp(1, workers))
}
