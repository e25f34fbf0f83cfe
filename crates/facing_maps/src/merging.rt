//! What merges make.
use bin_history::{Exact, Remap};
use std::alloc::AllocError;

/// What a merge makes of the value that is there and the one given: their sum, or the end of the
/// range of 64 bits where it is past that; the greater of both; or the one given. A compute call
/// leaves the value. It is never refused.
#[derive(Clone, Copy, Debug)]
pub enum Merging {
    Add,
    Greatest,
    Set,
}

impl Exact for Merging {
    ghost use Rattle.std.proofs.Common.{rules};

    ghost copies_exactly = { Prim.search rules };
}

impl<K> Remap<K, u64> for Merging {
    ghost use Rattle.std.specs.Prelude.{◌≡◌, Ok, option_copied};
    ghost use Rattle.facing_maps.specs.Functions.{merged};

    ghost remapped = { λ _ _ value. value };

    ghost merged = { merged };

    fn remap(&self, _key: &K, value: Option<&u64>) -> Result<Option<u64>, AllocError>
        ensures value { result ≡ Ok (option_copied value.entry) }
    {
        Ok(value.copied())
    }

    fn merge(&self, old: &u64, given: &u64) -> Result<Option<u64>, AllocError>
        ensures value { result ≡ Ok (merged self.now old.now given.now) }
    {
        Ok(Some(match self {
            Merging::Add => old.saturating_add(*given),
            Merging::Greatest => (*old).max(*given),
            Merging::Set => *given,
        }))
    }
}
