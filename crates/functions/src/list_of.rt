//! Lists as values.
ghost use Rattle.std.specs.Prelude.{◌≡◌, ◌==◌, ◌∷◌, [], ◌++◌, OnOk, OnErr, IfErr, MatchOption, length};
ghost use Rattle.std.specs.Slice.Iter.{iter_rest};

use bin_history::Exact;
use std::alloc::{AllocError, AllocFailed, Allocator};
use std::fmt;
use std::fmt::{Debug, Formatter, Write};
use std::marker::Model;
use std::slice::Iter;

/// A list as a value of a map. A clone has a copy of each item; it takes time by the number of items,
/// and memory for them where there are any. Two are equal where their items are, one by one. Contracts
/// see the items: whatever room there is for more of them, it is the same value.
///
/// A `Vec` is no value of a map, since of its clone it is known only that it has the same items.
///
///     let mut list = ListOf::new(alloc);
///     list.push(5)?;
///     client.put(rt, 1, list)?;
///     let len = client.view(rt, &1, |list| list.map_or(0, |list| list.len()));
#[derive(Drop)]
pub struct ListOf<T, A: Allocator> {
    items: Vec<T, A>,
}

impl<T, A: Allocator> Model for ListOf<T, A> {
    ghost use Rattle.std.specs.Prelude.{List};

    ghost Value = { List T };

    ghost view = { λ list. list.items.items };
}

impl<T, A: Allocator> ListOf<T, A> {
    /// Returns a list of no items. It allocates nothing.
    pub fn new(alloc: A) -> ListOf<T, A>
        ensures { result ≡ [] }
    {
        ListOf {
            items: Vec::new(alloc),
        }
    }

    /// Returns the list of these items, in the block that they are in. It takes constant time, and
    /// allocates nothing.
    pub fn of(items: Vec<T, A>) -> ListOf<T, A>
        ensures { result ≡ items.items }
    {
        ListOf { items }
    }

    /// Adds an item at the end. Where the list has no room left, it allocates a larger block, and moves
    /// the items there; so a push takes constant time on average.
    ///
    /// # Errors
    ///
    /// Out of memory; the list is as it was, and the item comes back.
    pub fn push(&mut self, item: T) -> Result<(), AllocFailed<T>>
        ensures pushed { OnOk result (self.new ≡ self.old ++ item ∷ []) }
        ensures unchanged { OnErr result (self.new ≡ self.old) }
        ensures item_returned { IfErr result (λ refused. refused.value ≡ item) }
    {
        self.items.push(item)
    }

    /// Takes the last item out and returns it; none where there is none. It takes constant time, and
    /// neither allocates nor frees.
    pub fn pop(&mut self) -> Option<T>
        ensures { MatchOption result ((self.old ≡ []) × (self.new ≡ [])) (λ item. self.old ≡ self.new ++ item ∷ []) }
    {
        self.items.pop()
    }

    /// Returns how many items there are, in constant time.
    pub fn len(&self) -> usize
        ensures { result ≡ length self.now }
    {
        self.items.len()
    }

    /// Returns whether there is no item, in constant time.
    pub fn is_empty(&self) -> bool
        ensures { result ≡ (length self.now == 0) }
    {
        self.items.is_empty()
    }

    /// Returns the items where they lie, in order, in constant time.
    pub fn as_slice(&self) -> &[T]
        ensures { result.now ≡ self.now }
    {
        self.items.as_slice()
    }

    /// Returns an iterator over the items where they lie, in order.
    pub fn iter(&self) -> Iter<'_, T>
        ensures { iter_rest result ≡ self.now }
    {
        self.items.as_slice().iter()
    }

    /// Returns the items themselves, in the block that they are in. It takes constant time, and
    /// allocates nothing.
    pub fn into_items(self) -> Vec<T, A>
        ensures { result.items ≡ self }
    {
        self.items
    }
}

impl<T: Clone + Drop, A: Allocator + Clone> Clone for ListOf<T, A> {
    ghost use Rattle.std.specs.List.{AllZip};

    ghost is_clone = { AllZip T.is_clone };

    fn clone(&self) -> Result<ListOf<T, A>, AllocError> {
        Ok(ListOf {
            items: self.items.clone()?,
        })
    }
}

impl<T: Exact + Drop, A: Allocator + Clone> Exact for ListOf<T, A> {
    ghost use Rattle.std.proofs.lemmas.List.Elements.{same_from_all_zip};

    ghost copies_exactly = { λ x y all. same_from_all_zip _ x y all T.copies_exactly };
}

impl<T: PartialEq, A: Allocator> PartialEq for ListOf<T, A> {
    ghost use Rattle.std.specs.Cmp.Lexicographic.{pointwise, lists_per};

    ghost eq = { pointwise T.eq };

    ghost laws = { lists_per T.laws };

    fn eq(&self, other: &ListOf<T, A>) -> bool {
        self.as_slice() == other.as_slice()
    }
}

impl<T: Eq, A: Allocator> Eq for ListOf<T, A> {
    ghost use Rattle.std.specs.Cmp.Lexicographic.{lists_equiv};

    ghost laws = { lists_equiv T.Eq.laws };
}

impl<T: Debug, A: Allocator> Debug for ListOf<T, A> {
    ghost use Rattle.std.specs.Fmt.{debug_list};

    ghost debug_output = { debug_list T.debug_output };

    fn fmt<W: Write>(&self, f: &mut Formatter<W>) -> fmt::Result {
        Debug::fmt(&self.as_slice(), f)
    }
}
