//! The steps of a deque under its rule.
ghost use Rattle.std.specs.Prelude.{◌≡◌, ◌+◌, ◌-◌, ◌<◌, ◌++◌, ◌∷◌, [], ℕ, List, length, IfOk};
ghost use Rattle.std.specs.Prelude.{MatchOption, MatchResult};
ghost use Rattle.crossbeam_deque.specs.Steals.{MatchSteal};
ghost use Rattle.crossbeam_deque.specs.Handles.{view, IsPassOf, worker_deque, stealer_deque};
ghost use Rattle.crossbeam_deque.specs.Handles.{worker_view, worker_flavor};
ghost use Rattle.steal_pool.specs.Limits.{all_shares};
ghost use Rattle.steal_pool.specs.Logs.{log, weigh};

use crate::log::Log;
use crate::rule::{EachOnce, Pushed, Share, Taken, Whole};
use crossbeam_deque::{Pass, Steal, Stealer, Worker};
use std::alloc::{AllocError, Allocator};

/// The owner's side of a deque.
pub type Own<T, A> = Worker<T, A, Log<T>, EachOnce>;

/// A side from which others take its oldest task.
pub(crate) type Other<T, A> = Stealer<T, A, Log<T>, EachOnce>;

/// An empty deque, whose owner takes its newest task.
pub(crate) fn new_deque<T: Drop, A: Allocator + Clone>(
    alloc: A,
    capacity: usize,
) -> Result<Own<T, A>, AllocError>
    ensures { IfOk result (λ w. (worker_view w ≡ log all_shares [] []) × (worker_flavor w ≡ 1)) }
{
    Own::lifo_as(alloc, capacity)
}

/// Pushes a task, or hands it back.
pub(crate) fn push<T, A: Allocator>(own: &mut Own<T, A>, task: T) -> Result<(), T>
    requires { 0 < (worker_view own.old).shares }
    ensures deque { worker_deque own.new ≡ worker_deque own.old }
    ensures log { MatchResult result
        (λ _. worker_view own.new ≡ log (worker_view own.old).shares
        ((worker_view own.old).pushed ++ task ∷ [])
        (worker_view own.old).taken) (λ x. (x ≡ task) × (worker_view own.new ≡ worker_view own.old)) }
{
    own.push_as::<Pushed>(task)
}

/// Takes the newest task.
pub(crate) fn pop<T, A: Allocator>(own: &mut Own<T, A>) -> Option<T>
    requires { 0 < (worker_view own.old).shares }
    ensures deque { worker_deque own.new ≡ worker_deque own.old }
    ensures log { MatchOption result (worker_view own.new ≡ worker_view own.old)
        (λ x. worker_view own.new ≡ log (worker_view own.old).shares (worker_view own.old).pushed
        ((worker_view own.old).taken ++ x ∷ [])) }
{
    own.pop_as::<Taken>()
}

/// Takes the oldest task of another's deque.
pub(crate) fn steal<T, A: Allocator>(other: &Other<T, A>, pass: &mut Pass<T, Log<T>, A>) -> Steal<T>
    requires deque { IsPassOf (stealer_deque other.now) pass.old }
    requires share { 0 < (view pass.old).shares }
    ensures deque { IsPassOf (stealer_deque other.now) pass.new }
    ensures log { MatchSteal result (view pass.new ≡ view pass.old) (view pass.new ≡ view pass.old)
        (λ x. view pass.new ≡ log (view pass.old).shares (view pass.old).pushed
        ((view pass.old).taken ++ x ∷ [])) }
{
    other.steal_as::<Taken>(pass)
}

/// Cuts off a share for a way into the deque.
pub(crate) fn cut_share<T, A: Allocator>(own: &mut Own<T, A>) -> Pass<T, Log<T>, A>
    requires { 1 < (worker_view own.old).shares }
    ensures deque { (worker_deque own.new ≡ worker_deque own.old)
        × IsPassOf (worker_deque own.old) result }
    ensures log { (worker_view own.new ≡ log ((worker_view own.old).shares - 1) (worker_view own.old).pushed
        (worker_view own.old).taken)
        × (view result ≡ log 1 [] []) }
{
    own.another::<Share>()
}

/// Takes a share back.
pub(crate) fn take_share<T, A: Allocator>(own: &mut Own<T, A>, pass: Pass<T, Log<T>, A>)
    requires deque { IsPassOf (worker_deque own.old) pass }
    requires share { (0 < (worker_view own.old).shares) × (0 < (view pass).shares) }
    ensures deque { worker_deque own.new ≡ worker_deque own.old }
    ensures log { worker_view own.new ≡ log ((worker_view own.old).shares + (view pass).shares)
        ((worker_view own.old).pushed ++ (view pass).pushed)
        ((worker_view own.old).taken ++ (view pass).taken) }
{
    own.absorb::<Share>(pass);
}

/// With all shares: what was pushed is what was taken and what is left, each task as often. How
/// many are left.
pub(crate) fn settle<T, A: Allocator>(own: &mut Own<T, A>) -> usize
    requires { (worker_view own.old).shares ≡ all_shares }
    ensures same { (worker_deque own.new ≡ worker_deque own.old)
        × (worker_view own.new ≡ worker_view own.old) }
    ensures books { (items : List T) × (length items ≡ result)
        × ((h : T → ℕ) → weigh h (worker_view own.old).pushed
        ≡ weigh h (worker_view own.old).taken + weigh h items) }
{
    own.len_as::<Whole>()
}
