//! Functions of unsigned numbers of 64 bits.
use crate::numbers::{Add, Greatest, Set};
use bin_history::Remap;
use std::alloc::AllocError;

impl<K> Remap<K, u64> for Add {
    ghost use Rattle.std.specs.Prelude.{◌≡◌, ◌+◌, min, Some, Ok, option_copied};

    ghost remapped = { λ _ _ value. value };

    ghost merged = { λ _ old given. Some (min (old + given) 18446744073709551615) };

    fn remap(&self, _key: &K, value: Option<&u64>) -> Result<Option<u64>, AllocError>
        ensures value { result ≡ Ok (option_copied value.entry) }
    {
        Ok(value.copied())
    }

    fn merge(&self, old: &u64, given: &u64) -> Result<Option<u64>, AllocError>
        ensures value { result ≡ Ok (Some (min (old.now + given.now) 18446744073709551615)) }
    {
        Ok(Some(old.saturating_add(*given)))
    }
}

impl<K> Remap<K, u64> for Greatest {
    ghost use Rattle.std.specs.Prelude.{◌≡◌, max, Some, Ok, option_copied};

    ghost remapped = { λ _ _ value. value };

    ghost merged = { λ _ old given. Some (max old given) };

    fn remap(&self, _key: &K, value: Option<&u64>) -> Result<Option<u64>, AllocError>
        ensures value { result ≡ Ok (option_copied value.entry) }
    {
        Ok(value.copied())
    }

    fn merge(&self, old: &u64, given: &u64) -> Result<Option<u64>, AllocError>
        ensures value { result ≡ Ok (Some (max old.now given.now)) }
    {
        Ok(Some((*old).max(*given)))
    }
}

impl<K> Remap<K, u64> for Set {
    ghost use Rattle.std.specs.Prelude.{◌≡◌, Some, Ok, option_copied};

    ghost remapped = { λ _ _ value. value };

    ghost merged = { λ _ _ given. Some given };

    fn remap(&self, _key: &K, value: Option<&u64>) -> Result<Option<u64>, AllocError>
        ensures value { result ≡ Ok (option_copied value.entry) }
    {
        Ok(value.copied())
    }

    fn merge(&self, _old: &u64, given: &u64) -> Result<Option<u64>, AllocError>
        ensures value { result ≡ Ok (Some given.now) }
    {
        Ok(Some(*given))
    }
}
