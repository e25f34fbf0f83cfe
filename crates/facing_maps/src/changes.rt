//! Changes by the value that is there: an exchange of what is expected, and a sum up to a bound.
ghost use Rattle.std.specs.Prelude.{◌≡◌, option_copied};
ghost use Rattle.facing_maps.specs.Changes.{change_to, is_same};
ghost use Rattle.facing_maps.specs.Keys.{same_bytes};

use crate::changing::{ChangeReply, Changed, Changing};
use crate::seeded::copied;
use crate::shared::SharedBytes;
use clients::Change;

/// Gives the key a value, or none, where it has the one that is expected, or none. It tells what was
/// there.
#[derive(Drop)]
pub struct Exchange {
    pub expected: Option<u64>,
    pub value: Option<u64>,
}

/// The change to this value, or to none.
fn change_to<V>(value: Option<V>) -> Change<V>
    ensures { result ≡ change_to value }
{
    match value {
        Some(value) => Change::Set(value),
        None => Change::Remove,
    }
}

impl Changing<u64> for Exchange {
    ghost use Rattle.std.specs.Prelude.{◌≡◌, nat_eq};
    ghost use Rattle.facing_maps.specs.Changes.{exchange};

    ghost changes = { λ e seen made. made ≡ exchange nat_eq e.expected e.value seen };

    fn change(self, seen: Option<&u64>) -> (Change<u64>, ChangeReply<u64>) {
        let seen = seen.copied();
        let is_expected = seen == self.expected;
        let change = if is_expected {
            change_to(self.value)
        } else {
            Change::Keep
        };
        (
            change,
            Ok(Changed {
                made: is_expected,
                value: seen,
            }),
        )
    }
}

/// Adds to the value at the key, where the sum is at most a bound; a key without a value counts as 0. It
/// tells the value after.
#[derive(Drop)]
pub struct AddUpTo {
    pub amount: u64,
    pub most: u64,
}

impl Changing<u64> for AddUpTo {
    ghost use Rattle.std.specs.Prelude.{◌≡◌};
    ghost use Rattle.facing_maps.specs.Changes.{add_up_to};

    ghost changes = { λ a seen made. made ≡ add_up_to a.amount a.most seen };

    fn change(self, seen: Option<&u64>) -> (Change<u64>, ChangeReply<u64>) {
        let seen = seen.copied();
        let before = seen.unwrap_or(0);
        if self.amount > self.most || before > self.most - self.amount {
            return (
                Change::Keep,
                Ok(Changed {
                    made: false,
                    value: seen,
                }),
            );
        }
        let after = before + self.amount;
        (
            Change::Set(after),
            Ok(Changed {
                made: true,
                value: Some(after),
            }),
        )
    }
}

/// Gives the key bytes, or none, where it has those that are expected, or none. It tells what was there.
#[derive(Drop)]
pub struct ExchangeBytes<'a> {
    pub expected: Option<&'a [u8]>,
    pub value: Option<SharedBytes>,
}

/// Whether the bytes at a key are those that are expected, or there are none and none are expected.
fn are_expected(seen: Option<&SharedBytes>, expected: Option<&[u8]>) -> bool
    ensures { result ≡ is_same same_bytes (option_copied seen.entry) (option_copied expected.entry) }
{
    match (seen, expected) {
        (Some(seen), Some(expected)) => seen.bytes() == expected,
        (None, None) => true,
        (Some(_), None) | (None, Some(_)) => false,
    }
}

impl<'a> Changing<SharedBytes> for ExchangeBytes<'a> {
    ghost use Rattle.std.specs.Prelude.{option_copied};
    ghost use Rattle.facing_maps.specs.Changes.{exchange, IsOrStays};
    ghost use Rattle.facing_maps.specs.Keys.{same_bytes};

    ghost changes = { λ e seen made. IsOrStays (exchange same_bytes (option_copied e.expected) e.value seen) made };

    fn change(self, seen: Option<&SharedBytes>) -> (Change<SharedBytes>, ChangeReply<SharedBytes>) {
        let made = are_expected(seen, self.expected);
        match copied(seen) {
            Ok(value) => {
                let change = if made {
                    change_to(self.value)
                } else {
                    Change::Keep
                };
                (change, Ok(Changed { made, value }))
            }
            Err(failed) => (Change::Keep, Err(failed)),
        }
    }
}
