//! Values with several owners.
ghost use Rattle.std.specs.Prelude.{◌≡◌, IfOk, IfErr, IfSome};
ghost use Rattle.std.specs.Arc.{arc_value};

use bin_history::Exact;
use std::alloc::{AllocError, AllocFailed, Allocator};
use std::fmt;
use std::fmt::{Debug, Formatter, Write};
use std::marker::Model;
use std::ops::Deref;
use std::sync::Arc;

/// A value with several owners, for maps of values that are large, or that cannot be copied at all.
/// A clone is one more owner: it takes constant time and no memory, whatever the value is. The last
/// owner that is dropped drops the value. Two are equal where their values are. Contracts see the
/// value, so a clone is the same.
///
/// An `Arc` is no value of a map, since of its clone it is known only that it has the same value.
///
/// The compiler refuses a map whose values are `Shared` of a type with a `Vec` in it: write a struct
/// of your own for these, as `SharedBytes` in facing_maps is.
///
///     let page = Shared::new(alloc, new_page(5))?;
///     client.put(rt, 1, page)?;
///     let read = client.get(rt, &1)?;
///     assert_eq!(told(read.as_ref()), (5, 0));
#[derive(Drop)]
pub struct Shared<T, A: Allocator> {
    owner: Arc<T, A>,
}

impl<T, A: Allocator> Model for Shared<T, A> {
    ghost use Rattle.std.specs.Arc.{arc_value};

    ghost Value = { T };

    ghost view = { λ s. arc_value s.owner };
}

impl<T, A: Allocator> Shared<T, A> {
    /// Returns the value with one owner. It allocates room for the value and for the number of its
    /// owners, moves the value there, and waits for nobody.
    ///
    ///     let page = Shared::new(alloc, new_page(5))?;
    ///
    /// # Errors
    ///
    /// Out of memory; the value comes back.
    pub fn new(alloc: A, value: T) -> Result<Shared<T, A>, AllocFailed<T>>
        ensures ok { IfOk result (λ s. s ≡ value) }
        ensures value_returned { IfErr result (λ refused. refused.value ≡ value) }
    {
        match Arc::new(alloc, value) {
            Ok(owner) => Ok(Shared { owner }),
            Err(refused) => Err(refused),
        }
    }

    /// Returns the value itself, where this was its last owner; else drops this owner, and returns
    /// none. It takes constant time, allocates nothing, and waits for nobody.
    ///
    ///     let copies = page.into_value().map(|page| page.copies);
    pub fn into_value(self) -> Option<T>
        ensures { IfSome result (λ value. value ≡ self) }
    {
        Arc::into_inner(self.owner)
    }
}

impl<T, A: Allocator> Deref for Shared<T, A> {
    ghost use Rattle.std.specs.Prelude.{◌≡◌};

    type Target = T;

    ghost deref_gives = { λ s value. value ≡ s };

    fn deref(&self) -> &T
        ensures { result.now ≡ self.now }
    {
        &*self.owner
    }
}

impl<T: Drop, A: Allocator> Clone for Shared<T, A> {
    ghost use Rattle.std.specs.Prelude.{◌≡◌};

    ghost is_clone = { λ x y. y ≡ x };

    fn clone(&self) -> Result<Shared<T, A>, AllocError> {
        Ok(Shared {
            owner: Arc::try_clone(&self.owner)?,
        })
    }
}

impl<T: Drop, A: Allocator> Exact for Shared<T, A> {
    ghost copies_exactly = { λ x y e. e };
}

impl<T: PartialEq, A: Allocator> PartialEq for Shared<T, A> {
    ghost eq = { T.eq };

    ghost laws = { T.laws };

    fn eq(&self, other: &Shared<T, A>) -> bool {
        **self == **other
    }
}

impl<T: Eq, A: Allocator> Eq for Shared<T, A> {
    ghost laws = { T.Eq.laws };
}

impl<T: Debug, A: Allocator> Debug for Shared<T, A> {
    ghost debug_output = { T.debug_output };

    fn fmt<W: Write>(&self, f: &mut Formatter<W>) -> fmt::Result {
        Debug::fmt(self.deref(), f)
    }
}
