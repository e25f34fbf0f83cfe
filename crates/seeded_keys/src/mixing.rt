//! Numbers under a seed.
ghost use Rattle.std.specs.Prelude.{◌≡◌, ℕ, ◌<◌, ◌^◌};
ghost use Rattle.seeded_keys.specs.Mixing.{folded, mixed, unmixed, IsNumberSeed};

use crate::number_seed::NumberSeed;

/// The number by which the product with this odd one is 1, in 64 bits: each step doubles the number of
/// the lower bits that are right, of which the first three are.
fn inverse_of(odd: u64) -> u64 {
    let mut inverse = odd;
    for _ in 0..5 {
        inverse = inverse.wrapping_mul(2u64.wrapping_sub(odd.wrapping_mul(inverse)));
    }
    inverse
}

/// The upper half of a number mixed into the lower one.
#[inline(always)]
fn folded(number: u64) -> u64
    ensures { result ≡ folded number }
{
    number ^ (number >> 32)
}

impl NumberSeed {
    /// The seed of these two numbers: the first is the factor, with its lowest bit set, and the second is
    /// what numbers are mixed with before. It takes no memory.
    pub fn of(key0: u64, key1: u64) -> NumberSeed
        ensures { IsNumberSeed key0 key1 result }
    {
        let factor = key0 | 1;
        let inverse = inverse_of(factor);
        if factor.wrapping_mul(inverse) == 1 {
            NumberSeed {
                offset: key1,
                factor,
                inverse,
            }
        } else {
            NumberSeed {
                offset: key1,
                factor: 1,
                inverse: 1,
            }
        }
    }

    /// The number under which this one lies in the map.
    #[inline(always)]
    pub fn mix(&self, number: u64) -> u64
        ensures { result ≡ mixed self.now number }
    {
        folded((number ^ self.offset).wrapping_mul(self.factor))
    }

    /// The number that lies under this one in the map.
    pub fn unmix(&self, key: u64) -> u64
        ensures value { result ≡ unmixed self.now key }
        ensures back { (number : ℕ) → number < 2 ^ 64 → mixed self.now number ≡ key → result ≡ number }
    {
        folded(key).wrapping_mul(self.inverse) ^ self.offset
    }
}
