//! How a bulk operation is to be done.
ghost use Rattle.std.specs.Prelude.{◌≡◌, IfErr};

use crate::fault::BulkFault;
use steal_pool::{MOST_WORKERS, OpenGate};

/// How a bulk operation is shared out. The threshold is the least number of entries worth a task of
/// their own (`batch` has the whole rule); there are 1 to `MOST_WORKERS` workers, the caller among
/// them; and the gate is called before each task. A single task is done by the caller, and starts
/// no thread.
#[derive(Drop, Debug)]
pub struct Plan<'a, G> {
    pub threshold: u64,
    pub workers: usize,
    pub gate: &'a G,
}

impl Plan<'static, OpenGate> {
    /// Returns a plan with a gate that holds nothing back.
    pub fn new(threshold: u64, workers: usize) -> Plan<'static, OpenGate>
        ensures threshold { result.threshold ≡ threshold }
        ensures workers { result.workers ≡ workers }
    {
        Plan {
            threshold,
            workers,
            gate: &OpenGate,
        }
    }
}

impl<G> Plan<'_, G> {
    ghost use Rattle.bulk_tasks.specs.Plans.{IsPlanned};

    // Refuses a bad number of workers.
    pub(crate) fn check(&self) -> Result<(), BulkFault>
        ensures workers { IsPlanned self.now.workers result }
        ensures faults { IfErr result (λ f. f ≡ BulkFault.BadWorkers) }
    {
        if self.workers == 0 || self.workers > MOST_WORKERS {
            return Err(BulkFault::BadWorkers);
        }
        Ok(())
    }
}
