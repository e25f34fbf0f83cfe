//! The functions that scripts name.
ghost use Rattle.std.specs.Prelude.{◌≡◌};

use bin_history::{Exact, Remap};
use hashkeys::Key;
use std::alloc::AllocError;

/// A function of the value at a key, which may be absent. All but `Drop` give their number for an
/// absent key.
#[derive(Debug, Drop, PartialEq, Eq)]
pub enum Function {
    /// The value plus the number, or the nearest end of the 64-bit range where the sum is outside.
    Sum(i64),
    /// The greater of the value and the number.
    Max(i64),
    /// The number.
    Set(i64),
    /// No value, whether the key was present or not.
    Drop,
}

impl Function {
    ghost use Rattle.script.specs.Functions.{result_of, with_number};

    /// What the function makes of a value, or of none.
    pub fn apply(&self, value: Option<i64>) -> Option<i64>
        ensures { result ≡ result_of self.now value }
    {
        match value {
            None => match self {
                Function::Sum(n) => Some(*n),
                Function::Max(n) => Some(*n),
                Function::Set(n) => Some(*n),
                Function::Drop => None,
            },
            Some(x) => match self {
                Function::Sum(n) => Some(x.saturating_add(*n)),
                Function::Max(n) => Some(x.max(*n)),
                Function::Set(n) => Some(*n),
                Function::Drop => None,
            },
        }
    }

    /// The function with another number.
    pub(crate) fn with_number(&self, number: i64) -> Function
        ensures { result ≡ with_number self.now number }
    {
        match self {
            Function::Sum(_) => Function::Sum(number),
            Function::Max(_) => Function::Max(number),
            Function::Set(_) => Function::Set(number),
            Function::Drop => Function::Drop,
        }
    }
}

impl Clone for Function {
    ghost use Rattle.std.specs.Prelude.{⊤};

    ghost is_clone = { λ x y. y ≡ x };

    ghost is_infallible = { λ _. ⊤ };

    fn clone(&self) -> Result<Function, AllocError> {
        match self {
            Function::Sum(n) => Ok(Function::Sum(*n)),
            Function::Max(n) => Ok(Function::Max(*n)),
            Function::Set(n) => Ok(Function::Set(*n)),
            Function::Drop => Ok(Function::Drop),
        }
    }
}

impl Exact for Function {
    ghost copies_exactly = { λ x y e. e };
}

/// A compute call applies the function to the value at the key; a merge on a present key applies it
/// to the old value with the given one for its number.
impl Remap<Key, i64> for Function {
    ghost use Rattle.script.specs.Functions.{remapped, merged};

    ghost remapped = { remapped };

    ghost merged = { merged };

    fn remap(&self, _key: &Key, value: Option<&i64>) -> Result<Option<i64>, AllocError> {
        Ok(self.apply(value.copied()))
    }

    fn merge(&self, old: &i64, given: &i64) -> Result<Option<i64>, AllocError> {
        Ok(self.with_number(*given).apply(Some(*old)))
    }
}
