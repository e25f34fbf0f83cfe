//! A member of a pool: a worker's deque, and its ways into those of the others.
ghost use Rattle.std.specs.Prelude.{◌≡◌, ◌+◌, ◌<◌, Some};
ghost use Rattle.std.specs.Option.{ForSome};
ghost use Rattle.crossbeam_deque.specs.Handles.{worker_deque, worker_view};
ghost use Rattle.steal_pool.specs.Limits.{all_shares, most_workers};
ghost use Rattle.steal_pool.specs.Logs.{weigh};
ghost use Rattle.steal_pool.specs.Ways.{weight_stolen};

use crate::deque::Own;
use crate::seats::Seats;
use crate::way::Way;
use std::alloc::Allocator;

/// One worker: its own deque, how many ways into it are out, and its ways into the others' deques,
/// in the order in which it asks them. It counts what it pushes, and what it takes until ways are
/// given back.
#[derive(Drop)]
pub struct Member<T, A: Allocator, S: Seats<A>> {
    pub number: usize,
    pub(crate) own: Own<T, A>,
    pub(crate) out: u64,
    pub(crate) ways: Vec<Way<T, A, S>, A>,
    // None: more than 2^64.
    pub(crate) pushed: Option<u64>,
    // None: more than 2^64, or a way is back.
    pub(crate) taken: Option<u64>,
    ghost deque: { S.deque number ≡ Some (worker_deque own) },
    ghost shares: { (worker_view own).shares + out ≡ all_shares },
    ghost some: { out < all_shares },
    ghost few: { number < most_workers },
    ghost pushes: { ForSome pushed (λ n. n ≡ weigh (λ _. 1) (worker_view own).pushed) },
    ghost takes: { ForSome taken (λ n. n ≡ weigh (λ _. 1) (worker_view own).taken
        + weight_stolen (λ _. 1) ways.items) },
}
