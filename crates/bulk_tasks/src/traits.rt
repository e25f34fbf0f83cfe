//! What a caller of a bulk operation gives. Each states the function that it works out;
//! all may be refused memory, and a reducer or a probe may state that it never is.
ghost use Rattle.std.specs.Prelude.{◌≡◌, IfOk, IsOk, IsTrue};

use std::alloc::AllocError;

/// What makes one value of all pairs: each is lifted, and the lifted values are joined. Join is
/// associative and commutative, so it does not matter which are joined first. A reducer states a
/// bound within which the value of so many pairs lies, and is asked to join values of fewer than
/// 2^64 pairs alone.
pub trait Reducer<K, V> {
    ghost use Rattle.std.specs.Prelude.{ℕ, Bool};
    ghost use Rattle.bulk_tasks.specs.Folds.{AreOfFew, IsAssociative, IsCommutative, JoinsWithin};

    /// What the pairs are reduced to.
    type A: Drop;

    ghost lifted: { Self → K → V → Self.A };

    ghost joined: { Self → Self.A → Self.A → Self.A };

    // What a value of so many pairs lies within.
    ghost within: { Self → ℕ → Self.A → Type 0 };

    // Whether neither call, nor that of a basis, is ever refused.
    ghost never_refuses: { Bool };

    /// The value of one pair.
    fn lift(&self, key: &K, value: &V) -> Result<Self::A, AllocError>
        ensures value { IfOk result (λ a. a ≡ lifted self.now key.now value.now) }
        ensures within { IfOk result (within self.now 1) }
        ensures total { IsTrue never_refuses → IsOk result };

    /// The value of two, which are of fewer than 2^64 pairs together: a closed map has no more.
    fn join(&self, left: Self::A, right: Self::A) -> Result<Self::A, AllocError>
        requires few { AreOfFew (within self.now) left right }
        ensures value { IfOk result (λ a. a ≡ joined self.now left right) }
        ensures total { IsTrue never_refuses → IsOk result };

    ghost associative: { (r : Self) → IsAssociative (joined r) };

    ghost commutative: { (r : Self) → IsCommutative (joined r) };

    ghost joins: { (r : Self) → JoinsWithin (within r) (joined r) };
}

/// A reducer with a value of no pairs, which is an identity of join.
pub trait BasedReducer<K, V>: Reducer<K, V> {
    ghost use Rattle.bulk_tasks.specs.Folds.{IsIdentity};

    ghost based: { Self → Self.A };

    /// The value of no pairs.
    fn basis(&self) -> Result<Self::A, AllocError>
        ensures value { IfOk result (λ a. a ≡ based self.now) }
        ensures within { IfOk result (Self.within self.now 0) }
        ensures total { IsTrue Self.never_refuses → IsOk result };

    ghost identity: { (r : Self) → IsIdentity (Self.lifted r) (Self.joined r) (based r) };
}

/// What looks for something in a pair.
pub trait Probe<K, V> {
    ghost use Rattle.std.specs.Prelude.{Bool, Option};

    /// What it may find.
    type U: Drop;

    ghost probed: { Self → K → V → Option Self.U };

    // Whether it is never refused.
    ghost never_refuses: { Bool };

    /// What it finds in the pair, or none.
    fn probe(&self, key: &K, value: &V) -> Result<Option<Self::U>, AllocError>
        ensures value { IfOk result (λ u. u ≡ probed self.now key.now value.now) }
        ensures total { IsTrue never_refuses → IsOk result };
}

/// What is done with each pair.
pub trait Action<K, V> {
    /// What it answers.
    type R: Drop;

    ghost acted: { Self → K → V → Self.R };

    /// What it answers for the pair.
    fn act(&self, key: &K, value: &V) -> Result<Self::R, AllocError>
        ensures { IfOk result (λ r. r ≡ acted self.now key.now value.now) };
}
