//! What calls of a map fail with.
ghost use Rattle.std.specs.Prelude.{◌≡◌};
ghost use Rattle.chm.specs.declared.fault.Fault.TheVariants.{NoMemory};

use std::alloc::{AllocError, AllocFailed};
use thiserror::Error;

/// Why a call of a map failed. If several are true, a fault of an argument or of a pass comes before
/// `NoMemory`.
///
/// - `NoMemory`: the allocator had no memory, or a key or a value could not be copied.
/// - `BadCapacity`: the asked table is of 0 bins, or of more than its form may open with: 4,096 of a
///   recorded map, 2^26 of a lean one; or a map of more than 4,294,967,295 entries was to be opened
///   again.
/// - `BadClients`: there are 0 clients, or more than the map's form may have: 32 of a recorded map,
///   65,536 of a lean one.
/// - `PassFull`: the pass has made all calls that it can: 1,000,000 in a recorded map, in a lean one its
///   share of 2^62.
/// - `NoClient`: no client is free: all are out, or other threads were taking and bringing clients all
///   the time. One that comes back is free again.
/// - `PassMissing`: a map was to be closed while a client was still out: with fewer passes than were
///   taken.
/// - `BinMissing`: some bins of the map were not found when it was closed.
#[derive(Clone, Copy, Debug, PartialEq, Eq, Error)]
pub enum Fault {
    #[error("no memory")]
    NoMemory,
    #[error("the capacity must be 1 to 2^26, of a recorded map 1 to 4096; of fewer than 2^32 entries")]
    BadCapacity,
    #[error("the number of clients must be 1 to 65536, of a recorded map 1 to 32")]
    BadClients,
    #[error("the pass has made all its calls: 2^62 / clients, of a recorded map 1000000")]
    PassFull,
    #[error("no client is free")]
    NoClient,
    #[error("a client is still out")]
    PassMissing,
    #[error("bins missing")]
    BinMissing,
}

impl From<AllocError> for Fault {
    ghost from_gives = { λ _ fault. fault ≡ NoMemory };

    fn from(_error: AllocError) -> Fault {
        Fault::NoMemory
    }
}

impl<T: Drop> From<AllocFailed<T>> for Fault {
    ghost from_gives = { λ _ fault. fault ≡ NoMemory };

    fn from(_error: AllocFailed<T>) -> Fault {
        Fault::NoMemory
    }
}
