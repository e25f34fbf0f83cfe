//! What becomes of a bin that is to be replaced by its halves.
ghost use Rattle.std.specs.Prelude.{◌≡◌};
ghost use Rattle.bin_layout.specs.declared.moved.Refused.TheVariants.{NoMemory};

use std::alloc::AllocError;

/// What a move of a bin found.
#[derive(Clone, Copy, PartialEq, Eq, Debug)]
pub enum Moved {
    /// It replaced the bin of the class by its halves.
    Yes,
    /// The bin of the class was replaced before.
    Already,
    /// A bin of a wider class stands there, and nothing was changed.
    Wider,
}

/// Why a move was refused. Nothing was changed.
#[derive(Clone, Copy, PartialEq, Eq, Debug)]
pub enum Refused {
    /// For want of memory.
    NoMemory,
    /// Another thread has the bin, or is at work at one of the places.
    Busy,
}

impl From<AllocError> for Refused {
    ghost from_gives = { λ _ refused. refused ≡ NoMemory };

    fn from(_error: AllocError) -> Refused {
        Refused::NoMemory
    }
}
