//! Functions of a value.
use bin_history::{Exact, Remap};
use std::alloc::AllocError;

/// Adds a number to the value, or takes the value away.
#[derive(Drop)]
pub struct Plus(pub Option<u64>);

impl Clone for Plus {
    ghost use Rattle.std.specs.Prelude.{◌≡◌};

    ghost is_clone = { λ x y. y ≡ x };

    fn clone(&self) -> Result<Plus, AllocError> {
        Ok(Plus(self.0))
    }
}

impl Exact for Plus {
    ghost copies_exactly = { λ x y e. e };
}

impl<K> Remap<K, u64> for Plus {
    ghost use Rattle.std.specs.Prelude.{option_map, unwrap_or, min, ◌+◌, ◌-◌, ◌^◌};

    ghost remapped = { λ f k v. option_map (λ n. min (unwrap_or v 0 + n) (2 ^ 64 - 1)) f.0 };

    ghost merged = { λ f old given. option_map
        (λ n. min (min (old + given) (2 ^ 64 - 1) + n) (2 ^ 64 - 1)) f.0 };

    fn remap(&self, _key: &K, value: Option<&u64>) -> Result<Option<u64>, AllocError> {
        let old = value.copied().unwrap_or(0);
        Ok(self.0.map(|n| old.saturating_add(n)))
    }

    fn merge(&self, old: &u64, given: &u64) -> Result<Option<u64>, AllocError> {
        let both = old.saturating_add(*given);
        Ok(self.0.map(|n| both.saturating_add(n)))
    }
}

/// Leaves each value as it is.
#[derive(Drop)]
pub struct Keep;

impl Clone for Keep {
    ghost use Rattle.std.specs.Prelude.{◌≡◌};

    ghost is_clone = { λ x y. y ≡ x };

    fn clone(&self) -> Result<Keep, AllocError> {
        Ok(Keep)
    }
}

impl Exact for Keep {
    ghost copies_exactly = { λ x y e. e };
}

impl<K> Remap<K, u64> for Keep {
    ghost use Rattle.std.specs.Prelude.{Some};

    ghost remapped = { λ f k v. v };

    ghost merged = { λ f old given. Some old };

    fn remap(&self, _key: &K, value: Option<&u64>) -> Result<Option<u64>, AllocError> {
        Ok(value.copied())
    }

    fn merge(&self, old: &u64, _given: &u64) -> Result<Option<u64>, AllocError> {
        Ok(Some(*old))
    }
}
