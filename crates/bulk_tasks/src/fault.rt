//! What a bulk operation fails with.
ghost use Rattle.std.specs.Prelude.{◌≡◌};
ghost use Rattle.bulk_tasks.specs.declared.fault.BulkFault.TheVariants.{NoMemory};

use std::alloc::AllocError;
use thiserror::Error;

/// Why a bulk operation failed. A bad number of workers is reported before out of memory.
#[derive(Clone, Copy, Debug, PartialEq, Eq, Error)]
pub enum BulkFault {
    /// The reducer, the probe, the action, or the list of an action's results is out of memory.
    #[error("no memory")]
    NoMemory,
    /// There are 0 or more than 16 workers.
    #[error("the workers are not 1 to 16")]
    BadWorkers,
}

impl From<AllocError> for BulkFault {
    ghost from_gives = { λ _ fault. fault ≡ NoMemory };

    fn from(_error: AllocError) -> BulkFault {
        BulkFault::NoMemory
    }
}
