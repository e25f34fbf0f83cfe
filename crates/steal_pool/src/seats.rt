//! Which deque is whose.
use std::marker::Brand;

/// Which deque is whose, by the members' numbers. A call at `Brand` picks it.
pub trait Seats<A> {
    ghost use Rattle.std.specs.Prelude.{ℕ, Option};
    ghost use Rattle.atomic_blocks.specs.Lent.{RowsId};

    ghost deque: { ℕ → Option (RowsId × A) };
}

impl<A> Seats<A> for Brand {
    ghost use Rattle.std.specs.Prelude.{None};

    ghost deque = { λ _. None };
}
