//! Byte strings in arrays of fixed sizes.
ghost use Rattle.std.specs.Prelude.{◌≡◌, ◌≤◌, length, take};

use std::marker::Model;

/// `N` bytes, of which the first ones are a byte string, and who has them knows how many. Contracts see all of
/// them.
#[derive(Drop)]
pub struct Padded<const N: usize> {
    bytes: [u8; N],
}

impl<const N: usize> Model for Padded<N> {
    ghost use Rattle.std.specs.Prelude.{ℕ, List};

    ghost Value = { List ℕ };

    ghost view = { λ b. b.bytes };
}

impl<const N: usize> Padded<N> {
    /// A copy of these bytes, with zeros behind them.
    pub fn copy_of(bytes: &[u8]) -> Padded<N>
        requires fits { length bytes.now ≤ N }
        ensures { take (length bytes.now) result ≡ bytes.now }
    {
        let mut copy = [0; N];
        copy[..bytes.len()].copy_from_slice(bytes);
        Padded { bytes: copy }
    }

    /// The first so many bytes.
    pub fn front(&self, len: usize) -> &[u8]
        requires within { len ≤ N }
        ensures { result.now ≡ take len self.now }
    {
        &self.bytes[..len]
    }
}
