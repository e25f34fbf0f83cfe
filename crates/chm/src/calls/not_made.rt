//! Calls that were not made.
ghost use Rattle.std.specs.Prelude.{◌≡◌};

use crate::fault::Fault;

/// A call that was not made. A lean map has then called no function.
#[derive(Drop)]
pub struct NotMade<D> {
    /// Why it was not made.
    pub fault: Fault,
    /// What was given with the key, the function too. There is none where a recorded map was out of memory
    /// after it had called the function.
    pub given: Option<D>,
}

impl<D: Drop> From<NotMade<D>> for Fault {
    ghost from_gives = { λ e fault. fault ≡ e.fault };

    fn from(error: NotMade<D>) -> Fault {
        error.fault
    }
}
