//! A box without its box: what a struct of one pointer owns, where C keeps the pointer.
#![tactic(auto)]

ghost use Rattle.std.specs.Prelude.{◌≡◌};
ghost use Rattle.std.specs.Box.Ownership.{box_owns};

use std::alloc::Allocator;
use std::marker::Model;

/// What a box owns, without the box: the pointer to its value, and the allocator that its block goes
/// back to. Whoever takes it apart for a struct of its own owns both from then on.
pub struct RawBox<T, A: Allocator> {
    pub ptr: *mut T,
    pub alloc: A,
    pub ghost value: { T },
}

impl<T, A: Allocator> Model for RawBox<T, A> {
    ghost also_owns = { λ l. box_owns (A.dealloc_token l.alloc) T.row l.ptr l.value };
}

impl<T, A: Allocator> RawBox<T, A> {
    /// What the box owned. It takes no memory.
    pub fn of(boxed: Box<T, A>) -> RawBox<T, A>
    where
        T: Drop,
        ensures { result.value ≡ boxed.value }
    {
        let (ptr, alloc) = Box::into_raw_with_allocator(boxed);
        RawBox { ptr, alloc }
    }

    /// The box again. It takes no memory.
    pub fn into_box(self) -> Box<T, A>
        ensures { result.value ≡ self.value }
    {
        let RawBox { ptr, alloc } = self;
        unsafe { Box::from_raw(alloc, ptr) }
    }
}
