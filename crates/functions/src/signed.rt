//! Functions of signed numbers of 64 bits.
use crate::numbers::{Add, Greatest, Set};
use bin_history::Remap;
use std::alloc::AllocError;

impl<K> Remap<K, i64> for Add {
    ghost use Rattle.std.specs.Int.{w64, saturate_signed};
    ghost use Rattle.std.specs.Prelude.{◌≡◌, ◌+ℤ◌, Some, Ok, option_copied};

    ghost remapped = { λ _ _ value. value };

    ghost merged = { λ _ old given. Some (saturate_signed w64 (old +ℤ given)) };

    fn remap(&self, _key: &K, value: Option<&i64>) -> Result<Option<i64>, AllocError>
        ensures value { result ≡ Ok (option_copied value.entry) }
    {
        Ok(value.copied())
    }

    fn merge(&self, old: &i64, given: &i64) -> Result<Option<i64>, AllocError>
        ensures value { result ≡ Ok (Some (saturate_signed w64 (old.now +ℤ given.now))) }
    {
        Ok(Some(old.saturating_add(*given)))
    }
}

impl<K> Remap<K, i64> for Greatest {
    ghost use Rattle.std.specs.Int.{int_max};
    ghost use Rattle.std.specs.Prelude.{◌≡◌, Some, Ok, option_copied};

    ghost remapped = { λ _ _ value. value };

    ghost merged = { λ _ old given. Some (int_max old given) };

    fn remap(&self, _key: &K, value: Option<&i64>) -> Result<Option<i64>, AllocError>
        ensures value { result ≡ Ok (option_copied value.entry) }
    {
        Ok(value.copied())
    }

    fn merge(&self, old: &i64, given: &i64) -> Result<Option<i64>, AllocError>
        ensures value { result ≡ Ok (Some (int_max old.now given.now)) }
    {
        Ok(Some((*old).max(*given)))
    }
}

impl<K> Remap<K, i64> for Set {
    ghost use Rattle.std.specs.Prelude.{◌≡◌, Some, Ok, option_copied};

    ghost remapped = { λ _ _ value. value };

    ghost merged = { λ _ _ given. Some given };

    fn remap(&self, _key: &K, value: Option<&i64>) -> Result<Option<i64>, AllocError>
        ensures value { result ≡ Ok (option_copied value.entry) }
    {
        Ok(value.copied())
    }

    fn merge(&self, _old: &i64, given: &i64) -> Result<Option<i64>, AllocError>
        ensures value { result ≡ Ok (Some given.now) }
    {
        Ok(Some(*given))
    }
}
