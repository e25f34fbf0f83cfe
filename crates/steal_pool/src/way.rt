//! A way into the deque of another member.
ghost use Rattle.std.specs.Prelude.{◌≡◌, [], Some};
ghost use Rattle.crossbeam_deque.specs.Handles.{view, IsPassOf, stealer_deque};

use crate::deque::Other;
use crate::log::Log;
use crate::seats::Seats;
use crossbeam_deque::Pass;
use std::alloc::Allocator;
use std::marker::PhantomData;

/// A way into the deque of the member `to`.
#[derive(Drop)]
pub struct Way<T, A: Allocator, S: Seats<A>> {
    pub(crate) to: usize,
    pub(crate) stealer: Other<T, A>,
    pub(crate) pass: Pass<T, Log<T>, A>,
    pub(crate) seats: PhantomData<S>,
    ghost deque: { (IsPassOf (stealer_deque stealer) pass) × (S.deque to ≡ Some (stealer_deque stealer)) },
    ghost share: { ((view pass).shares ≡ 1) × ((view pass).pushed ≡ []) },
}
