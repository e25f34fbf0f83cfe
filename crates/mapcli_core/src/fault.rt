//! What a run can end with, and how it is told.
ghost use Rattle.std.specs.Prelude.{◌≡◌};
ghost use Rattle.mapcli_core.specs.Failures.{IsOfPlay, IsRefusedAs};
ghost use Rattle.mapcli_core.specs.declared.fault.Fault.TheVariants.{NoMemory, Device};

use crate::device::DeviceError;
use script::{Kind, ParseError};
use std::alloc::{AllocError, AllocFailed};
use thiserror::Error;

/// What ends a run, or the reading of the command line, before its work is done.
#[derive(Debug, Drop, Error)]
pub enum Fault {
    /// A growth, a copy or a making was refused.
    #[error("no memory")]
    NoMemory,
    /// The asked table is not of 1 to 4,096 bins.
    #[error("the capacity is not 1 to 4096")]
    BadCapacity,
    /// There are not 1 to 16 workers.
    #[error("the workers are not 1 to 16")]
    BadWorkers,
    /// The first bad line of the script, from 1, and what is wrong with it.
    #[error("line {line}: {kind}")]
    ScriptFault { line: u64, kind: Kind },
    /// A read or a write failed.
    #[error("device")]
    Device,
    /// Some bins of the map were not found when it was closed.
    #[error("bins missing")]
    BinMissing,
    /// The command line is wrong, as the text says.
    #[error("{0}")]
    Usage(String),
    /// The text that was asked for.
    #[error("{0}")]
    Help(String),
}

impl From<AllocError> for Fault {
    ghost from_gives = { λ _ fault. fault ≡ NoMemory };

    fn from(_error: AllocError) -> Fault {
        Fault::NoMemory
    }
}

impl<T: Drop> From<AllocFailed<T>> for Fault {
    ghost from_gives = { λ _ fault. fault ≡ NoMemory };

    fn from(_error: AllocFailed<T>) -> Fault {
        Fault::NoMemory
    }
}

/// What a refusal of the map is to the program.
pub(crate) fn refused(fault: chm::Fault) -> Fault
    requires { IsOfPlay fault }
    ensures { IsRefusedAs fault result }
{
    match fault {
        chm::Fault::NoMemory => Fault::NoMemory,
        chm::Fault::BinMissing => Fault::BinMissing,
        _ => unreachable!(),
    }
}

impl From<ParseError> for Fault {
    ghost use Rattle.mapcli_core.specs.Failures.{fault_of};

    ghost from_gives = { λ error fault. fault ≡ fault_of error };

    fn from(error: ParseError) -> Fault {
        match error {
            ParseError::NoMemory => Fault::NoMemory,
            ParseError::Fault(script::Fault { line, kind }) => Fault::ScriptFault { line, kind },
        }
    }
}

impl From<DeviceError> for Fault {
    ghost from_gives = { λ _ fault. fault ≡ Device };

    fn from(_error: DeviceError) -> Fault {
        Fault::Device
    }
}
