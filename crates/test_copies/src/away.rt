//! The function that takes each value away.
use bin_history::{Exact, Remap};
use std::alloc::AllocError;

#[derive(Drop)]
pub(crate) struct Away;

impl Clone for Away {
    ghost use Rattle.std.specs.Prelude.{◌≡◌};

    ghost is_clone = { λ x y. y ≡ x };

    fn clone(&self) -> Result<Away, AllocError> {
        Ok(Away)
    }
}

impl Exact for Away {
    ghost copies_exactly = { λ x y e. e };
}

impl<K, V> Remap<K, V> for Away {
    ghost use Rattle.std.specs.Prelude.{None};

    ghost remapped = { λ f k v. None };

    ghost merged = { λ f old given. None };

    fn remap(&self, _key: &K, _value: Option<&V>) -> Result<Option<V>, AllocError> {
        Ok(None)
    }

    fn merge(&self, _old: &V, _given: &V) -> Result<Option<V>, AllocError> {
        Ok(None)
    }
}
