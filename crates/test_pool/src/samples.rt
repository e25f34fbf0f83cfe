//! What bulk operations are run with: a reducer, probes and actions.
ghost use Rattle.std.specs.Prelude.{◌≡◌};

use bin_history::{Exact, Remap};
use bulk_tasks::{Action, Probe, Reducer};
use hashkeys::Key;
use std::alloc::AllocError;
use std::fmt::Debug;
use std::process::Abort;
use std::sync::atomic::AtomicU64;
use std::sync::atomic::Ordering::SeqCst;

/// Asserts that what was found is what is wanted. A call of it is one step of the caller, which
/// goes on as it is.
pub(crate) fn assert_same<T: PartialEq + Debug>(rt: &impl Abort, found: &T, wanted: &T) {
    assert_eq!(rt; found, wanted);
}

/// A remapping function that takes a value away. No test calls it.
#[derive(Drop)]
pub(crate) struct Forget;

impl Clone for Forget {
    ghost use Rattle.std.specs.Prelude.{◌≡◌};

    ghost is_clone = { λ x y. y ≡ x };

    fn clone(&self) -> Result<Forget, AllocError> {
        Ok(Forget)
    }
}

impl Exact for Forget {
    ghost copies_exactly = { λ x y e. e };
}

impl Remap<Key, i64> for Forget {
    ghost use Rattle.std.specs.Prelude.{None};

    ghost remapped = { λ _ _ _. None };

    ghost merged = { λ _ _ _. None };

    fn remap(&self, _key: &Key, _value: Option<&i64>) -> Result<Option<i64>, AllocError> {
        Ok(None)
    }

    fn merge(&self, _old: &i64, _given: &i64) -> Result<Option<i64>, AllocError> {
        Ok(None)
    }
}

/// The greatest of the values, which is refused at the value 7 while memory is short.
#[derive(Drop)]
pub(crate) struct ShortGreatest {
    pub(crate) short: AtomicU64,
}

impl Reducer<Key, i64> for ShortGreatest {
    ghost use Rattle.std.specs.Prelude.{false};
    ghost use Rattle.std.specs.Int.{int_max};
    ghost use Rattle.std.proofs.Common.{arith};
    ghost use Rattle.std.proofs.lemmas.Int.{ints, int_max_is};

    type A = i64;

    ghost lifted = { λ _ _ v. v };

    ghost joined = { λ _ a b. int_max a b };

    ghost within = { λ _ _ _. Unit {0} };

    ghost never_refuses = { false };

    fn lift(&self, _key: &Key, value: &i64) -> Result<i64, AllocError> {
        if self.short.load(SeqCst) > 0 && *value == 7 {
            return Err(AllocError);
        }
        Ok(*value)
    }

    fn join(&self, left: i64, right: i64) -> Result<i64, AllocError> {
        Ok(left.max(right))
    }

    ghost associative = { λ _ a b c. Prim.omega (
      arith,
      ints,
      int_max_is a b,
      int_max_is (int_max a b) c,
      int_max_is b c,
      int_max_is a (int_max b c),
    ) };

    ghost commutative = { λ _ a b. Prim.omega (arith, ints, int_max_is a b, int_max_is b a) };

    ghost joins = { λ _ n m a b p q. tt };
}

/// Finds a value above this one.
#[derive(Drop)]
pub(crate) struct Above(pub(crate) i64);

impl Probe<Key, i64> for Above {
    ghost use Rattle.std.specs.Prelude.{true, Some, None, if◌then◌else◌};
    ghost use Rattle.std.specs.Int.Signed.{lt_z};

    type U = i64;

    ghost probed = { λ p _ v. if lt_z p.0 v then Some v else None };

    ghost never_refuses = { true };

    fn probe(&self, _key: &Key, value: &i64) -> Result<Option<i64>, AllocError> {
        if self.0 < *value {
            return Ok(Some(*value));
        }
        Ok(None)
    }
}

/// Answers the first byte of a key and its value, and is refused at one value.
#[derive(Drop)]
pub(crate) struct Initials {
    pub(crate) refused_at: i64,
}

impl Action<Key, i64> for Initials {
    ghost use Rattle.std.specs.Prelude.{slice_index};

    type R = (u8, i64);

    ghost acted = { λ _ k v. (slice_index k 0, v) };

    fn act(&self, key: &Key, value: &i64) -> Result<(u8, i64), AllocError> {
        if *value == self.refused_at {
            return Err(AllocError);
        }
        match key.bytes().first() {
            Some(byte) => Ok((*byte, *value)),
            None => Ok((0, *value)),
        }
    }
}

/// Finds any value, and counts how often it is asked.
#[derive(Drop)]
pub(crate) struct CountedProbe {
    pub(crate) calls: AtomicU64,
}

impl Probe<Key, i64> for CountedProbe {
    ghost use Rattle.std.specs.Prelude.{true, Some};

    type U = i64;

    ghost probed = { λ _ _ v. Some v };

    ghost never_refuses = { true };

    fn probe(&self, _key: &Key, value: &i64) -> Result<Option<i64>, AllocError> {
        self.calls.fetch_add(1, SeqCst);
        Ok(Some(*value))
    }
}

/// Answers a value, and counts how often it is asked.
#[derive(Drop)]
pub(crate) struct CountedAction {
    pub(crate) calls: AtomicU64,
}

impl Action<Key, i64> for CountedAction {
    type R = i64;

    ghost acted = { λ _ _ v. v };

    fn act(&self, _key: &Key, value: &i64) -> Result<i64, AllocError> {
        self.calls.fetch_add(1, SeqCst);
        Ok(*value)
    }
}
