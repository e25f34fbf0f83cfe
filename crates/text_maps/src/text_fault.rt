//! Why a map of texts was not opened.
ghost use Rattle.std.specs.Prelude.{◌≡◌};
ghost use Rattle.chm.specs.declared.fault.Fault.TheVariants.{NoMemory};
ghost use Rattle.clients.specs.PassPools.{fault_of};
ghost use Rattle.text_maps.specs.declared.text_fault.TextFault.TheVariants.{NoSeed, OfMap};

use crate::not_closed::TextNotClosed;
use bin_history::{Remap, Value};
use clients::{ClientFault, Fault, NotMade};
use hashkeys::HashKey;
use std::alloc::{AllocError, Allocator};
use std::io;
use thiserror::Error;

/// Why `TextMap::new` opened no map. `?` makes one also of what other calls fail with, so that a function
/// that opens a map, calls it and closes it has one type of errors.
#[derive(Debug, Drop, Error)]
pub enum TextFault {
    /// The source of random numbers gave none.
    #[error("no seed: {0}")]
    NoSeed(io::Error),
    /// What a shared map fails with.
    #[error("{0}")]
    OfMap(Fault),
}

impl From<io::Error> for TextFault {
    ghost from_gives = { λ error fault. fault ≡ NoSeed error };

    fn from(error: io::Error) -> TextFault {
        TextFault::NoSeed(error)
    }
}

impl From<Fault> for TextFault {
    ghost from_gives = { λ refused fault. fault ≡ OfMap refused };

    fn from(refused: Fault) -> TextFault {
        TextFault::OfMap(refused)
    }
}

impl From<AllocError> for TextFault {
    ghost from_gives = { λ _ fault. fault ≡ OfMap NoMemory };

    fn from(_error: AllocError) -> TextFault {
        TextFault::OfMap(Fault::NoMemory)
    }
}

impl From<ClientFault> for TextFault {
    ghost from_gives = { λ refused fault. fault ≡ OfMap (fault_of refused) };

    fn from(refused: ClientFault) -> TextFault {
        TextFault::OfMap(refused.into())
    }
}

impl<D: Drop> From<NotMade<D>> for TextFault {
    ghost from_gives = { λ refused fault. fault ≡ OfMap refused.fault };

    fn from(refused: NotMade<D>) -> TextFault {
        TextFault::OfMap(refused.fault)
    }
}

impl<K: HashKey, V: Value, F: Remap<K, V>, A: Allocator> From<TextNotClosed<K, V, F, A>>
    for TextFault {
    ghost from_gives = { λ refused fault. fault ≡ OfMap refused.fault };

    fn from(refused: TextNotClosed<K, V, F, A>) -> TextFault {
        TextFault::OfMap(refused.give_up())
    }
}
