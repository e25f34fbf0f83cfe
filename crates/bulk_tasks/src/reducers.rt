//! Reducers of numbers: what they are, and how they reduce signed ones.
use crate::traits::{BasedReducer, Reducer};
use std::alloc::AllocError;

/// The exact sum of the values, signed or unsigned, as a number of 128 bits, which holds that of
/// fewer than 2^64 values. It is never refused.
#[derive(Clone, Copy, Debug)]
pub struct Sum;

impl<K> Reducer<K, i64> for Sum {
    ghost use Rattle.std.specs.Prelude.{true, ◌+ℤ◌};
    ghost use Rattle.std.proofs.Common.{arith};
    ghost use Rattle.std.proofs.Math.IntN.{+ℤ_assoc, +ℤ_comm};
    ghost use Rattle.std.proofs.lemmas.Int.{ints};
    ghost use Rattle.bulk_tasks.specs.Sums.{IsSumOfSigned};

    type A = i128;

    ghost lifted = { λ _ _ v. v };

    ghost joined = { λ _ a b. a +ℤ b };

    ghost within = { λ _ n a. IsSumOfSigned n a };

    ghost never_refuses = { true };

    fn lift(&self, _key: &K, value: &i64) -> Result<i128, AllocError> {
        Ok(i128::from(*value))
    }

    fn join(&self, left: i128, right: i128) -> Result<i128, AllocError> {
        Ok(left + right)
    }

    ghost associative = { λ _ a b c. +ℤ_assoc a b c };

    ghost commutative = { λ _ a b. +ℤ_comm a b };

    ghost joins = { λ _ n m a b p q. (
      Prim.omega (arith, ints, p.0, q.0),
      Prim.omega (arith, ints, p.1, q.1),
    ) };
}

impl<K> BasedReducer<K, i64> for Sum {
    ghost use Rattle.std.specs.Prelude.{pos, ◌+ℤ◌};
    ghost use Rattle.std.proofs.Common.{◌∙◌};
    ghost use Rattle.std.proofs.Math.IntN.{+ℤ_idl, +ℤ_comm};

    ghost based = { λ _. pos 0 };

    fn basis(&self) -> Result<i128, AllocError> {
        Ok(0)
    }

    ghost identity = { λ _. (
      (λ k v. (+ℤ_idl v, +ℤ_comm v (pos 0) ∙ +ℤ_idl v)),
      λ a b. (+ℤ_idl (a +ℤ b), +ℤ_comm (a +ℤ b) (pos 0) ∙ +ℤ_idl (a +ℤ b)),
    ) };
}

/// The greatest of the values. It is never refused.
#[derive(Clone, Copy, Debug)]
pub struct Greatest;

impl<K> Reducer<K, i64> for Greatest {
    ghost use Rattle.std.specs.Prelude.{true};
    ghost use Rattle.std.specs.Int.{int_max};
    ghost use Rattle.std.proofs.Common.{arith};
    ghost use Rattle.std.proofs.lemmas.Int.{ints, int_max_is};

    type A = i64;

    ghost lifted = { λ _ _ v. v };

    ghost joined = { λ _ a b. int_max a b };

    ghost within = { λ _ _ _. Unit {0} };

    ghost never_refuses = { true };

    fn lift(&self, _key: &K, value: &i64) -> Result<i64, AllocError> {
        Ok(*value)
    }

    fn join(&self, left: i64, right: i64) -> Result<i64, AllocError> {
        Ok(left.max(right))
    }

    ghost associative = { λ _ a b c. Prim.omega (
      arith,
      ints,
      int_max_is a b,
      int_max_is (int_max a b) c,
      int_max_is b c,
      int_max_is a (int_max b c),
    ) };

    ghost commutative = { λ _ a b. Prim.omega (arith, ints, int_max_is a b, int_max_is b a) };

    ghost joins = { λ _ n m a b p q. tt };
}
