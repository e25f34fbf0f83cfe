//! What a bulk operation on a live map fails with.
ghost use Rattle.std.specs.Prelude.{◌≡◌};
ghost use Rattle.live_bulk.specs.declared.fault.LiveFault.TheVariants.{NoMemory};

use std::alloc::AllocError;
use thiserror::Error;

/// Why a bulk operation on a live map failed. A bad number of workers is told first, then that
/// there is no client.
#[derive(Clone, Copy, Debug, PartialEq, Eq, Error)]
pub enum LiveFault {
    /// The reducer, the probe or the action was refused memory, or the operation itself was.
    #[error("no memory")]
    NoMemory,
    /// There are 0 or more than 16 workers.
    #[error("the workers are not 1 to 16")]
    BadWorkers,
    /// All clients are out.
    #[error("no client is free")]
    NoClient,
    /// 2^64 entries or more were shown, more than a reducer joins.
    #[error("too many entries")]
    TooMany,
}

impl From<AllocError> for LiveFault {
    ghost from_gives = { λ _ fault. fault ≡ NoMemory };

    fn from(_error: AllocError) -> LiveFault {
        LiveFault::NoMemory
    }
}
