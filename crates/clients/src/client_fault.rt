//! Why a client was waited for in vain.
ghost use Rattle.std.specs.Prelude.{◌≡◌};
ghost use Rattle.clients.specs.PassPools.{fault_of};

use chm::Fault;
use thiserror::Error;

/// Why `SharedMap::client_when_in` returned no client. `?` makes a `Fault` of it: `ClientsFull` becomes
/// `PassFull`.
#[derive(Clone, Copy, Debug, PartialEq, Eq, Error)]
pub enum ClientFault {
    /// The allocator had no memory for a new client.
    #[error("no memory")]
    NoMemory,
    /// All clients that the map may have made all the calls that they may, and came back: none is ever
    /// free again.
    #[error("all clients have made all their calls")]
    ClientsFull,
}

impl From<ClientFault> for Fault {
    ghost from_gives = { λ refused fault. fault ≡ fault_of refused };

    fn from(refused: ClientFault) -> Fault {
        match refused {
            ClientFault::NoMemory => Fault::NoMemory,
            ClientFault::ClientsFull => Fault::PassFull,
        }
    }
}
