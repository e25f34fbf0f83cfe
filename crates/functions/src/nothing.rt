//! The function of maps that have none.
use bin_history::{Exact, Remap};
use std::alloc::AllocError;

/// No function, for maps whose calls compute and merge nothing. A compute call that is made with it
/// all the same answers that the key is to have no value, and so does a merge on a key that is
/// there.
#[derive(Clone, Copy, PartialEq, Eq, Debug)]
pub struct NoFunction;

impl Exact for NoFunction {
    ghost use Rattle.std.proofs.Common.{rules};

    ghost copies_exactly = { Prim.search rules };
}

impl<K, V> Remap<K, V> for NoFunction {
    ghost use Rattle.std.specs.Prelude.{◌≡◌, None, Ok};

    ghost remapped = { λ _ _ _. None };

    ghost merged = { λ _ _ _. None };

    fn remap(&self, _key: &K, _value: Option<&V>) -> Result<Option<V>, AllocError>
        ensures none { result ≡ Ok None }
    {
        Ok(None)
    }

    fn merge(&self, _old: &V, _given: &V) -> Result<Option<V>, AllocError>
        ensures none { result ≡ Ok None }
    {
        Ok(None)
    }
}
