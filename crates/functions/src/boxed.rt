//! Values in boxes of their own.
ghost use Rattle.std.specs.Prelude.{◌≡◌, IfOk, IfErr};

use bin_history::Exact;
use std::alloc::{AllocError, AllocFailed, Allocator};
use std::fmt;
use std::fmt::{Debug, Formatter, Write};
use std::marker::Model;

/// A value in a box of its own, for values of more than 64 bytes. The first entry of each bucket lies in
/// the table, which has a place of the size of an entry for each bucket, also where it is empty; of a
/// boxed value it has a pointer there. A clone copies the value into another box. Two are equal where
/// their values are. Contracts see the value.
///
/// Where copies are many or dear, [`Shared`](crate::Shared) makes one without memory.
///
///     let page = Page { words: [word; 16] };
///     Ok(Boxed::new(alloc, page)?)
#[derive(Drop)]
pub struct Boxed<T, A: Allocator> {
    place: Box<T, A>,
}

impl<T, A: Allocator> Model for Boxed<T, A> {
    ghost Value = { T };

    ghost view = { λ b. b.place.value };
}

impl<T, A: Allocator> Boxed<T, A> {
    ghost use Rattle.std.specs.Prelude.{◌≡◌, IfOk, IfErr};
    ghost use Rattle.std.specs.Borrow.{sem, Lends};
    ghost use Rattle.functions.specs.contracts.boxed.Boxed.{the_row};

    /// Moves the value into a box, which it allocates. It takes time by the size of the value.
    ///
    /// # Errors
    ///
    /// Out of memory; the value comes back.
    pub fn new(alloc: A, value: T) -> Result<Boxed<T, A>, AllocFailed<T>>
        ensures ok { IfOk result (λ b. b ≡ value) }
        ensures value_returned { IfErr result (λ refused. refused.value ≡ value) }
    {
        match Box::new(alloc, value) {
            Ok(place) => Ok(Boxed { place }),
            Err(refused) => Err(refused),
        }
    }

    /// Returns the value where it lies, in constant time.
    pub fn get(&self) -> &T
        ensures { result.now ≡ self.now }
    {
        self.place.as_ref()
    }

    /// Returns the value where it lies, to be changed there, in constant time. When the borrow ends,
    /// the box has what was left there.
    pub fn get_mut(&mut self) -> &mut T
        ensures* writes_back { sem 𝓛
            (Lends (the_row T.row A.row A.Allocator) T.row self.entry result (λ left. left)) }
        ensures value { result.now ≡ self.old }
    {
        self.place.as_mut()
    }

    /// Takes the value out and frees the box. It takes time by the size of the value, and allocates
    /// nothing.
    pub fn into_inner(self) -> T
        ensures { result ≡ self }
    {
        Box::into_inner(self.place)
    }
}

impl<T: Clone, A: Allocator + Clone> Clone for Boxed<T, A> {
    ghost is_clone = { T.is_clone };

    fn clone(&self) -> Result<Boxed<T, A>, AllocError> {
        Ok(Boxed {
            place: self.place.clone()?,
        })
    }
}

impl<T: Exact, A: Allocator + Clone> Exact for Boxed<T, A> {
    ghost copies_exactly = { T.copies_exactly };
}

impl<T: PartialEq, A: Allocator> PartialEq for Boxed<T, A> {
    ghost eq = { T.eq };

    ghost laws = { T.laws };

    fn eq(&self, other: &Boxed<T, A>) -> bool {
        *self.get() == *other.get()
    }
}

impl<T: Eq, A: Allocator> Eq for Boxed<T, A> {
    ghost laws = { T.Eq.laws };
}

impl<T: Debug, A: Allocator> Debug for Boxed<T, A> {
    ghost debug_output = { T.debug_output };

    fn fmt<W: Write>(&self, f: &mut Formatter<W>) -> fmt::Result {
        Debug::fmt(self.get(), f)
    }
}
