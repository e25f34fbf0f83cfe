//! Keys and functions that count what they are asked.
use bin_history::{Exact, Remap};
use hashkeys::HashKey;
use std::alloc::AllocError;
use std::marker::Model;
use std::sync::atomic::AtomicU64;
use std::sync::atomic::Ordering::SeqCst;

/// How often the keys of a test were asked for their codes, compared and copied, and its functions
/// were asked.
#[derive(Drop)]
pub(crate) struct Counts {
    hashed: AtomicU64,
    compared: AtomicU64,
    copied: AtomicU64,
    asked: AtomicU64,
}

impl Counts {
    pub(crate) fn new() -> Counts {
        Counts {
            hashed: AtomicU64::new(0),
            compared: AtomicU64::new(0),
            copied: AtomicU64::new(0),
            asked: AtomicU64::new(0),
        }
    }
}

/// What makes keys and functions of one type each that count what they are asked.
pub(crate) trait Counting<K, F> {
    /// The key of a number.
    fn key(&self, number: u32) -> K;

    /// The function whose result is 7.
    fn seven(&self) -> F;

    /// What was counted since the last call of this: how often keys were asked for their codes,
    /// compared and copied, and functions were asked.
    fn take(&self) -> [u64; 4];
}

impl<'a> Counting<Counted<'a>, Seven<'a>> for &'a Counts {
    fn key(&self, number: u32) -> Counted<'a> {
        Counted {
            number,
            counts: *self,
        }
    }

    fn seven(&self) -> Seven<'a> {
        Seven { counts: *self }
    }

    fn take(&self) -> [u64; 4] {
        [
            self.hashed.swap(0, SeqCst),
            self.compared.swap(0, SeqCst),
            self.copied.swap(0, SeqCst),
            self.asked.swap(0, SeqCst),
        ]
    }
}

/// A number as a key, whose code it is. Contracts see the number.
#[derive(Drop)]
pub(crate) struct Counted<'a> {
    number: u32,
    counts: &'a Counts,
}

impl<'a> Model for Counted<'a> {
    ghost use Rattle.std.specs.Prelude.{ℕ};

    ghost Value = { ℕ };

    ghost view = { λ key. key.number };
}

impl<'a> Clone for Counted<'a> {
    ghost use Rattle.std.specs.Prelude.{◌≡◌};

    ghost is_clone = { λ x y. y ≡ x };

    fn clone(&self) -> Result<Counted<'a>, AllocError> {
        self.counts.copied.fetch_add(1, SeqCst);
        Ok(Counted {
            number: self.number,
            counts: self.counts,
        })
    }
}

impl<'a> Exact for Counted<'a> {
    ghost copies_exactly = { λ x y e. e };
}

impl<'a> PartialEq for Counted<'a> {
    ghost use Rattle.std.specs.Prelude.{nat_eq};
    ghost use Rattle.std.specs.Cmp.{partial_equiv_from_equiv, nat_eq_equiv};

    ghost eq = { nat_eq };

    ghost laws = { partial_equiv_from_equiv nat_eq_equiv };

    fn eq(&self, other: &Counted<'a>) -> bool {
        self.counts.compared.fetch_add(1, SeqCst);
        self.number == other.number
    }
}

impl<'a> Eq for Counted<'a> {
    ghost use Rattle.std.specs.Cmp.{nat_eq_equiv};

    ghost laws = { nat_eq_equiv };
}

impl<'a> HashKey for Counted<'a> {
    ghost use Rattle.std.proofs.lemmas.Bool.{eqb-true};

    ghost code = { λ number. number };

    fn hash_code(&self) -> u32 {
        self.counts.hashed.fetch_add(1, SeqCst);
        self.number
    }

    ghost equal_is_same = { eqb-true };
}

/// The function whose result is 7.
#[derive(Drop)]
pub(crate) struct Seven<'a> {
    counts: &'a Counts,
}

impl<'a> Seven<'a> {
    ghost use Rattle.std.specs.Prelude.{◌≡◌, Ok, Some};

    fn seven(&self) -> Result<Option<u64>, AllocError>
        ensures { result ≡ Ok (Some 7) }
    {
        self.counts.asked.fetch_add(1, SeqCst);
        Ok(Some(7))
    }
}

impl<'a> Clone for Seven<'a> {
    ghost use Rattle.std.specs.Prelude.{◌≡◌};

    ghost is_clone = { λ x y. y ≡ x };

    fn clone(&self) -> Result<Seven<'a>, AllocError> {
        Ok(Seven {
            counts: self.counts,
        })
    }
}

impl<'a> Exact for Seven<'a> {
    ghost copies_exactly = { λ x y e. e };
}

impl<'a> Remap<Counted<'a>, u64> for Seven<'a> {
    ghost use Rattle.std.specs.Prelude.{Some};

    ghost remapped = { λ f k v. Some 7 };

    ghost merged = { λ f old given. Some 7 };

    fn remap(&self, _key: &Counted<'a>, _value: Option<&u64>) -> Result<Option<u64>, AllocError> {
        self.seven()
    }

    fn merge(&self, _old: &u64, _given: &u64) -> Result<Option<u64>, AllocError> {
        self.seven()
    }
}
