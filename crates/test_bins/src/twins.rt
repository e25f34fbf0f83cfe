//! Numbers as keys that all have one code.
use hashkeys::{Exact, HashKey};
use std::alloc::AllocError;
use std::marker::Model;

/// A number, whose code is 0. Contracts see the number.
#[derive(Drop)]
pub(crate) struct Twin(pub(crate) u64);

impl Model for Twin {
    ghost use Rattle.std.specs.Prelude.{ℕ};

    ghost Value = { ℕ };

    ghost view = { λ t. t.0 };
}

impl Clone for Twin {
    ghost use Rattle.std.specs.Prelude.{◌≡◌};

    ghost is_clone = { λ x y. y ≡ x };

    fn clone(&self) -> Result<Twin, AllocError> {
        Ok(Twin(self.0))
    }
}

impl Exact for Twin {
    ghost copies_exactly = { λ x y e. e };
}

impl PartialEq for Twin {
    ghost use Rattle.std.specs.Prelude.{nat_eq};
    ghost use Rattle.std.specs.Cmp.{partial_equiv_from_equiv, nat_eq_equiv};

    ghost eq = { nat_eq };

    ghost laws = { partial_equiv_from_equiv nat_eq_equiv };

    fn eq(&self, other: &Twin) -> bool {
        self.0 == other.0
    }
}

impl Eq for Twin {
    ghost use Rattle.std.specs.Cmp.{nat_eq_equiv};

    ghost laws = { nat_eq_equiv };
}

impl HashKey for Twin {
    ghost use Rattle.std.proofs.lemmas.Bool.{eqb-true};

    ghost code = { λ _. 0 };

    fn hash_code(&self) -> u32 {
        0
    }

    ghost equal_is_same = { eqb-true };
}
