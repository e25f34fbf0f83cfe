//! The rule of a deque: each task taken was pushed, each at most once.
use crate::log::Log;
use crossbeam_deque::protocol::{Join, Lesson, Outcome, Protocol, Split};

/// What was pushed is what was taken and what the deque holds.
pub struct EachOnce;

impl<T> Protocol<T, Log<T>> for EachOnce {
    ghost use Rattle.std.specs.Prelude.{[]};
    ghost use Rattle.steal_pool.specs.Limits.{all_shares};
    ghost use Rattle.steal_pool.specs.Logs.{log, Balanced};

    ghost holds = { Balanced };

    ghost first = { log all_shares [] [] };

    ghost guest = { log 0 [] [] };
}

pub(crate) struct Pushed;

impl<T> Outcome<T, Log<T>> for Pushed {
    ghost use Rattle.std.specs.Prelude.{◌≡◌, ◌++◌};
    ghost use Rattle.steal_pool.specs.Logs.{log};

    ghost then = { λ v xs w. w ≡ log v.shares (v.pushed ++ xs) v.taken };
}

pub(crate) struct Taken;

impl<T> Outcome<T, Log<T>> for Taken {
    ghost use Rattle.std.specs.Prelude.{◌≡◌, ◌++◌};
    ghost use Rattle.steal_pool.specs.Logs.{log};

    ghost then = { λ v xs w. w ≡ log v.shares v.pushed (v.taken ++ xs) };
}

/// One share is cut off for a way into the deque, and comes back with what the way took.
pub(crate) struct Share;

impl<T> Split<Log<T>> for Share {
    ghost use Rattle.std.specs.Prelude.{[], ◌-◌};
    ghost use Rattle.steal_pool.specs.Logs.{log};

    ghost left = { λ v. log (v.shares - 1) v.pushed v.taken };

    ghost right = { λ v. log 1 [] [] };
}

impl<T> Join<Log<T>> for Share {
    ghost use Rattle.std.specs.Prelude.{[], ◌+◌, ◌++◌};
    ghost use Rattle.steal_pool.specs.Logs.{log};

    ghost both = { λ v w. log (v.shares + w.shares) (v.pushed ++ w.pushed) (v.taken ++ w.taken) };

    ghost spent = { log 0 [] [] };
}

/// Who has all shares knows all that was pushed and taken.
pub(crate) struct Whole;

impl<T> Lesson<T, Log<T>> for Whole {
    ghost use Rattle.std.specs.Prelude.{◌≡◌, ◌+◌, ℕ};
    ghost use Rattle.steal_pool.specs.Logs.{weigh};

    ghost fact = { λ v items. (h : T → ℕ) → weigh h v.pushed ≡ weigh h v.taken + weigh h items };
}
