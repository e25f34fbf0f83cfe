//! Retains that stopped before their end.
ghost use Rattle.std.specs.Prelude.{◌≡◌};

use crate::fault::Fault;
use thiserror::Error;

/// A retain that stopped before its end. `?` makes a `Fault` of it.
#[derive(Clone, Copy, Debug, PartialEq, Eq, Error)]
#[error("{fault}, when {removed} entries were removed")]
pub struct NotRetained {
    /// Why it stopped.
    pub fault: Fault,
    /// How many entries it had removed. Their removes stand.
    pub removed: u64,
}

impl From<NotRetained> for Fault {
    ghost from_gives = { λ e fault. fault ≡ e.fault };

    fn from(error: NotRetained) -> Fault {
        error.fault
    }
}
