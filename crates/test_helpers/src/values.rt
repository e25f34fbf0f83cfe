//! Values and functions that ask for memory where they are copied or called.
use bin_history::{Exact, Remap};
use hashkeys::Key;
use std::alloc::{AllocError, Global};
use std::marker::Model;
use test_support::Refusing;

/// The allocator of a test.
pub type Alloc<'a> = &'a Refusing<Global>;

/// Asks for memory, and gives it back.
fn ask(alloc: Alloc<'_>) -> Result<(), AllocError> {
    let block = Vec::<u64, _>::with_capacity(alloc, 1)?;
    drop(block);
    Ok(())
}

/// A number whose copies ask for memory. Contracts see it as the number.
#[derive(Drop)]
pub struct Number<'a> {
    pub number: u64,
    pub alloc: Alloc<'a>,
}

impl<'a> Model for Number<'a> {
    ghost use Rattle.std.specs.Prelude.{ℕ};

    ghost Value = { ℕ };

    ghost view = { λ n. n.number };
}

impl<'a> Clone for Number<'a> {
    ghost use Rattle.std.specs.Prelude.{◌≡◌};

    ghost is_clone = { λ x y. y ≡ x };

    fn clone(&self) -> Result<Number<'a>, AllocError> {
        ask(self.alloc)?;
        Ok(Number {
            number: self.number,
            alloc: self.alloc,
        })
    }
}

impl<'a> Exact for Number<'a> {
    ghost copies_exactly = { λ x y e. e };
}

impl<'a> PartialEq for Number<'a> {
    ghost use Rattle.std.specs.Prelude.{nat_eq};
    ghost use Rattle.std.specs.Cmp.{partial_equiv_from_equiv, nat_eq_equiv};

    ghost eq = { nat_eq };

    ghost laws = { partial_equiv_from_equiv nat_eq_equiv };

    fn eq(&self, other: &Number<'a>) -> bool {
        self.number == other.number
    }
}

impl<'a> Eq for Number<'a> {
    ghost use Rattle.std.specs.Cmp.{nat_eq_equiv};

    ghost laws = { nat_eq_equiv };
}

/// The function whose result is this number, or none. Its calls and its copies ask for memory.
/// Contracts see it as the result.
#[derive(Drop)]
pub struct Answer<'a> {
    pub number: Option<u64>,
    pub alloc: Alloc<'a>,
}

impl<'a> Model for Answer<'a> {
    ghost use Rattle.std.specs.Prelude.{ℕ, Option};

    ghost Value = { Option ℕ };

    ghost view = { λ a. a.number };
}

impl<'a> Clone for Answer<'a> {
    ghost use Rattle.std.specs.Prelude.{◌≡◌};

    ghost is_clone = { λ x y. y ≡ x };

    fn clone(&self) -> Result<Answer<'a>, AllocError> {
        ask(self.alloc)?;
        Ok(Answer {
            number: self.number,
            alloc: self.alloc,
        })
    }
}

impl<'a> Exact for Answer<'a> {
    ghost copies_exactly = { λ x y e. e };
}

impl<'a> Remap<Key, Number<'a>> for Answer<'a> {
    ghost remapped = { λ a k v. a };

    ghost merged = { λ a old given. a };

    fn remap(
        &self,
        _key: &Key,
        _value: Option<&Number<'a>>,
    ) -> Result<Option<Number<'a>>, AllocError> {
        self.answer()
    }

    fn merge(
        &self,
        _old: &Number<'a>,
        _given: &Number<'a>,
    ) -> Result<Option<Number<'a>>, AllocError> {
        self.answer()
    }
}

impl<'a> Answer<'a> {
    ghost use Rattle.std.specs.Prelude.{◌≡◌, IfOk};

    fn answer(&self) -> Result<Option<Number<'a>>, AllocError>
        ensures { IfOk result (λ answer. answer ≡ self.now) }
    {
        ask(self.alloc)?;
        let alloc = self.alloc;
        match self.number {
            Some(number) => Ok(Some(Number { number, alloc })),
            None => Ok(None),
        }
    }
}
