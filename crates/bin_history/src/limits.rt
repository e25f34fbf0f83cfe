//! How many clients and calls a map has at most.
ghost use Rattle.std.specs.Prelude.{◌≡◌, ◌<◌};
ghost use Rattle.bin_history.specs.Limits.{most_calls, most_clients};

use crate::form::Form;

/// A recorded map has no more clients than this.
pub const MOST_CLIENTS: u32 = 32;

/// A lean map has no more clients than this.
pub const MOST_LEAN_CLIENTS: u32 = 65_536;

/// A client of a recorded map makes no more calls than this.
pub const MOST_CALLS: u64 = 1_000_000;

/// The clients of a lean map make no more calls than this together: 2^62, so that their deltas add
/// up to less than 2^63. Each client makes no more than its share.
pub const MOST_LEAN_CALLS: u64 = 1 << 62;

impl Form {
    /// Returns how many clients a map of this form has at most.
    pub fn most_clients(self) -> u32
        ensures { result ≡ most_clients self }
    {
        match self {
            Form::Recorded => MOST_CLIENTS,
            Form::Lean => MOST_LEAN_CLIENTS,
        }
    }

    /// Returns how many calls each of so many clients of a map of this form makes at most.
    pub fn most_calls(self, clients: u32) -> u64
        requires { 0 < clients }
        ensures { result ≡ most_calls self clients }
    {
        match self {
            Form::Recorded => MOST_CALLS,
            Form::Lean => MOST_LEAN_CALLS / u64::from(clients),
        }
    }
}
