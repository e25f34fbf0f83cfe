//! A walk from one index of a table to another.
ghost use Rattle.std.specs.Prelude.{◌≡◌, ◌⊎◌, ℕ, true};
ghost use Rattle.hashkeys.specs.Classes.{covers};
ghost use Rattle.part_walks.specs.Parts.{IsFirstOf};

use bin_layout::{next_in_walk, walk_laws};
use hashkeys::Class;
use std::marker::Model;

/// A walk over the indexes from `lo` to below `hi` of a table of `n` buckets, and the class that is
/// next. A bucket of a smaller table is met once for each of its parts that the walk goes over; in
/// place of a bucket that was divided the walk meets those that it became.
#[derive(Drop)]
pub struct PartWalk {
    n: u32,
    lo: u32,
    hi: u32,
    next: Option<Class>,
}

impl Model for PartWalk {
    ghost use Rattle.part_walks.specs.Parts.{IsPart, PartView};

    ghost Value = { PartView };

    ghost view = { λ w. record { n = w.n; lo = w.lo; hi = w.hi; next = w.next } };

    ghost invariant = { λ w. IsPart (record { n = w.n; lo = w.lo; hi = w.hi; next = w.next }) };
}

/// Returns the narrower of two classes: the one that is next in a walk, and that of the bucket in
/// which it lies.
pub fn narrower(next: Class, class: Class) -> Class
    requires covers { covers class next.index ≡ true }
    ensures first { IsFirstOf next result }
    ensures within { (hash : ℕ) → covers result hash ≡ true → covers class hash ≡ true }
    ensures one { (result ≡ next) ⊎ (result ≡ class) }
{
    if next.n() <= class.n() { class } else { next }
}

impl PartWalk {
    ghost use Rattle.std.specs.Prelude.{◌≡◌, ◌≤◌, ◌⊎◌, ◌++◌, [], ◌∷◌, ℕ, List, Some, true, false, IsSomeAnd};
    ghost use Rattle.hashkeys.specs.Classes.{ClassView, IsTableSize, covers};
    ghost use Rattle.part_walks.specs.Parts.{HasWalked, IsFirstOf, IsWalkFrom, class_at, is_at_end};

    /// Returns a walk at its beginning.
    ///
    ///     let walk = PartWalk::new(16, 4, 8);
    pub fn new(n: u32, lo: u32, hi: u32) -> PartWalk
        requires size { IsTableSize n }
        requires order { lo ≤ hi }
        requires within { hi ≤ n }
        ensures walk { result ≡ record { n = n; lo = lo; hi = hi; next = class_at n lo } }
        ensures begun { HasWalked result [] }
    {
        let next = if lo < n {
            Some(Class::new(n, lo))
        } else {
            None
        };
        PartWalk { n, lo, hi, next }
    }

    /// Whether the walk has come to its end.
    pub fn is_at_end(&self) -> bool
        ensures value { result ≡ is_at_end self.now }
        ensures end { result ≡ true → (classes : List ClassView) → HasWalked self.now classes →
            IsWalkFrom self.now.n self.now.lo self.now.hi classes }
    {
        match self.next {
            Some(next) => self.hi < self.n && next.index() == self.hi,
            None => true,
        }
    }

    /// Returns the class that is next: the walk goes to the bucket of the class's index.
    pub fn next(&self) -> Class
        requires more { is_at_end self.now ≡ false }
        ensures { self.now.next ≡ Some result }
    {
        match self.next {
            Some(next) => next,
            None => unreachable!(),
        }
    }

    /// Returns what is met of the bucket of this class, in which the next class lies: all of it, or
    /// the next class alone.
    pub fn class_in(&self, class: Class) -> Class
        requires more { is_at_end self.now ≡ false }
        requires covers { IsSomeAnd self.now.next (λ next. covers class next.index ≡ true) }
        ensures first { IsSomeAnd self.now.next (λ next. IsFirstOf next result) }
        ensures within { (hash : ℕ) → covers result hash ≡ true → covers class hash ≡ true }
        ensures one { IsSomeAnd self.now.next (λ next. (result ≡ next) ⊎ (result ≡ class)) }
    {
        narrower(self.next(), class)
    }

    /// Goes past what was met.
    pub fn go_past(&mut self, class: Class)
        requires more { is_at_end self.old ≡ false }
        requires first { IsSomeAnd self.old.next (λ next. IsFirstOf next class) }
        ensures n { self.new.n ≡ self.old.n }
        ensures lo { self.new.lo ≡ self.old.lo }
        ensures hi { self.new.hi ≡ self.old.hi }
        ensures walked { (classes : List ClassView) → HasWalked self.old classes →
            HasWalked self.new (classes ++ class ∷ []) }
    {
        walk_laws();
        self.next = next_in_walk(self.n, class);
    }
}
