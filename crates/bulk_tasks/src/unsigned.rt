//! The reducers of unsigned numbers.
use crate::reducers::{Greatest, Sum};
use crate::traits::{BasedReducer, Reducer};
use std::alloc::AllocError;

impl<K> Reducer<K, u64> for Sum {
    ghost use Rattle.std.specs.Prelude.{true, ◌+◌};
    ghost use Rattle.std.proofs.Common.{arith, add_assoc, add_comm};
    ghost use Rattle.bulk_tasks.specs.Sums.{IsSumOfUnsigned};

    type A = u128;

    ghost lifted = { λ _ _ v. v };

    ghost joined = { λ _ a b. a + b };

    ghost within = { λ _ n a. IsSumOfUnsigned n a };

    ghost never_refuses = { true };

    fn lift(&self, _key: &K, value: &u64) -> Result<u128, AllocError> {
        Ok(u128::from(*value))
    }

    fn join(&self, left: u128, right: u128) -> Result<u128, AllocError> {
        Ok(left + right)
    }

    ghost associative = { λ _ a b c. add_assoc a b c };

    ghost commutative = { λ _ a b. add_comm a b };

    ghost joins = { λ _ n m a b p q. Prim.omega (arith, p, q) };
}

impl<K> BasedReducer<K, u64> for Sum {
    ghost use Rattle.std.specs.Prelude.{◌+◌};
    ghost use Rattle.std.proofs.Common.{add-zero, zero-add};

    ghost based = { λ _. 0 };

    fn basis(&self) -> Result<u128, AllocError> {
        Ok(0)
    }

    ghost identity = { λ _. (
      (λ k v. (zero-add v, add-zero v)),
      λ a b. (zero-add (a + b), add-zero (a + b)),
    ) };
}

impl<K> Reducer<K, u64> for Greatest {
    ghost use Rattle.std.specs.Prelude.{true, max};
    ghost use Rattle.std.proofs.Common.{arith};

    type A = u64;

    ghost lifted = { λ _ _ v. v };

    ghost joined = { λ _ a b. max a b };

    ghost within = { λ _ _ _. Unit {0} };

    ghost never_refuses = { true };

    fn lift(&self, _key: &K, value: &u64) -> Result<u64, AllocError> {
        Ok(*value)
    }

    fn join(&self, left: u64, right: u64) -> Result<u64, AllocError> {
        Ok(left.max(right))
    }

    ghost associative = { λ _ a b c. Prim.omega arith };

    ghost commutative = { λ _ a b. Prim.omega arith };

    ghost joins = { λ _ n m a b p q. tt };
}
