//! The names that calls are made on.
use hashkeys::{Exact, HashKey, Key};
use std::alloc::AllocError;
use std::marker::Model;

/// A key that lives as long as the program, by a reference to it: a copy is one word. Contracts see
/// the key's bytes.
#[derive(Drop)]
pub(crate) struct Name(pub(crate) &'static Key);

impl Model for Name {
    ghost use Rattle.std.specs.Prelude.{ℕ, List};

    ghost Value = { List ℕ };

    ghost view = { λ n. n.0.now };
}

impl Clone for Name {
    ghost use Rattle.std.specs.Prelude.{◌≡◌, ⊤};

    ghost is_clone = { λ x y. y ≡ x };

    ghost is_infallible = { λ _. ⊤ };

    fn clone(&self) -> Result<Name, AllocError> {
        Ok(Name(self.0))
    }
}

impl Exact for Name {
    ghost copies_exactly = { λ x y e. e };
}

impl PartialEq for Name {
    ghost use Rattle.std.specs.Prelude.{nat_eq};
    ghost use Rattle.std.specs.Cmp.{partial_equiv_from_equiv};
    ghost use Rattle.std.specs.Cmp.Lexicographic.{pointwise, nat_list_eq_equiv};

    ghost eq = { pointwise nat_eq };

    ghost laws = { partial_equiv_from_equiv nat_list_eq_equiv };

    fn eq(&self, other: &Name) -> bool {
        self.0 == other.0
    }
}

impl Eq for Name {
    ghost use Rattle.std.specs.Cmp.Lexicographic.{nat_list_eq_equiv};

    ghost laws = { nat_list_eq_equiv };
}

impl HashKey for Name {
    ghost use Rattle.std.specs.Cmp.Lexicographic.{bytes_decides};
    ghost use Rattle.hashkeys.specs.Text.{code_of};

    ghost code = { code_of };

    fn hash_code(&self) -> u32 {
        self.0.hash_code()
    }

    ghost equal_is_same = { λ x y e. (bytes_decides x y).0 e };
}
