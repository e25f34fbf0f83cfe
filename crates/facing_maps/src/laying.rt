//! What of values is copied beside their keys.
use crate::shared::SharedBytes;

/// What of each value is copied beside its key: a number, and bytes.
pub trait Laying<V> {
    ghost use Rattle.std.specs.Prelude.{◌≡◌, ℕ, List};

    ghost number: { Self → V → ℕ };

    ghost laid: { Self → V → List ℕ };

    /// The number.
    fn number(&self, value: &V) -> u64
        ensures { result ≡ number self.now value.now };

    /// The bytes.
    fn laid<'a>(&self, value: &'a V) -> &'a [u8]
        ensures { result.now ≡ laid self.now value.now };
}

/// The whole value: a number, or all bytes beside their length.
#[derive(Drop)]
pub struct Whole;

impl Laying<u64> for Whole {
    ghost use Rattle.std.specs.Prelude.{[]};

    ghost number = { λ _ v. v };

    ghost laid = { λ _ _. [] };

    fn number(&self, value: &u64) -> u64 {
        *value
    }

    fn laid<'a>(&self, _value: &'a u64) -> &'a [u8] {
        b"".as_slice()
    }
}

impl Laying<SharedBytes> for Whole {
    ghost use Rattle.std.specs.Prelude.{length};

    ghost number = { λ _ v. length v };

    ghost laid = { λ _ v. v };

    fn number(&self, value: &SharedBytes) -> u64 {
        value.bytes().len() as u64
    }

    fn laid<'a>(&self, value: &'a SharedBytes) -> &'a [u8] {
        value.bytes()
    }
}

/// The first bytes of a value, at most so many, beside its whole length.
#[derive(Drop)]
pub struct Heads(pub usize);

impl Laying<SharedBytes> for Heads {
    ghost use Rattle.std.specs.Prelude.{length, take};

    ghost number = { λ _ v. length v };

    ghost laid = { λ heads v. take heads.0 v };

    fn number(&self, value: &SharedBytes) -> u64 {
        value.bytes().len() as u64
    }

    fn laid<'a>(&self, value: &'a SharedBytes) -> &'a [u8] {
        let bytes = value.bytes();
        if bytes.len() <= self.0 {
            bytes
        } else {
            &bytes[..self.0]
        }
    }
}
