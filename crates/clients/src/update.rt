//! Functions of the value alone.
ghost use Rattle.std.specs.Prelude.{◌≡◌, option_copied};

use bin_history::{Exact, Remap};
use std::alloc::AllocError;

/// What a call with the function makes of a value, or of none, where the key does not matter and no
/// memory is taken. `ByValue` makes a map's function of it.
pub trait Update<V>: Exact + Drop {
    ghost use Rattle.std.specs.Prelude.{Option};

    ghost updated: { Self → Option V → V };

    /// The value after, by the value before.
    fn update(&self, value: Option<&V>) -> V
        ensures { result ≡ updated self.now (option_copied value.entry) };
}

/// An update as the function of a map: a compute call leaves what the update makes of the value,
/// and a merge the value that it is given. It is never refused.
#[derive(Clone, Copy, Debug, Drop)]
pub struct ByValue<U>(pub U);

impl<U: Exact> Exact for ByValue<U> {
    ghost use Rattle.std.proofs.Common.{rules};

    ghost copies_exactly = { Prim.search rules };
}

impl<K, V: Copy, U: Update<V>> Remap<K, V> for ByValue<U> {
    ghost use Rattle.std.specs.Prelude.{Some};

    ghost remapped = { λ f _ value. Some (U.updated f.0 value) };

    ghost merged = { λ _ _ given. Some given };

    fn remap(&self, _key: &K, value: Option<&V>) -> Result<Option<V>, AllocError> {
        Ok(Some(self.0.update(value)))
    }

    fn merge(&self, _old: &V, given: &V) -> Result<Option<V>, AllocError> {
        Ok(Some(*given))
    }
}
