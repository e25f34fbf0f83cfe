//! Byte strings that lie in themselves.
ghost use Rattle.std.specs.Prelude.{◌≡◌, ◌≤◌, ◌<◌, MatchOption, length};

use hashkeys::Exact;
use std::alloc::AllocError;
use std::marker::Model;

/// At most `N` bytes, in the value itself. It takes no memory, and neither does a clone. Contracts see
/// the bytes.
#[derive(Drop)]
pub struct ShortBytes<const N: usize> {
    len: u8,
    /// The bytes, and others after them.
    bytes: [u8; N],
}

impl<const N: usize> Model for ShortBytes<N> {
    ghost use Rattle.std.specs.Prelude.{◌≤◌, ℕ, List, take};

    ghost Value = { List ℕ };

    ghost view = { λ b. take b.len b.bytes };

    ghost invariant = { λ b. b.len ≤ N };
}

impl<const N: usize> ShortBytes<N> {
    /// A copy of these bytes, or none where there are more than `N`.
    pub fn copy_of(bytes: &[u8]) -> Option<ShortBytes<N>>
        requires few { N ≤ 255 }
        ensures { MatchOption result (N < length bytes.now)
            (λ short. (short ≡ bytes.now) × (length bytes.now ≤ N)) }
    {
        if bytes.len() > N {
            return None;
        }
        let mut copy = [0; N];
        copy[..bytes.len()].copy_from_slice(bytes);
        Some(ShortBytes {
            len: bytes.len() as u8,
            bytes: copy,
        })
    }

    /// The bytes.
    pub fn bytes(&self) -> &[u8]
        ensures value { result.now ≡ self.now }
        ensures few { length self.now ≤ N }
    {
        &self.bytes[..self.len as usize]
    }
}

impl<const N: usize> Clone for ShortBytes<N> {
    ghost use Rattle.std.specs.Prelude.{◌≡◌, ⊤};

    ghost is_clone = { λ x y. y ≡ x };

    ghost is_infallible = { λ _. ⊤ };

    fn clone(&self) -> Result<ShortBytes<N>, AllocError> {
        Ok(ShortBytes {
            len: self.len,
            bytes: self.bytes,
        })
    }
}

impl<const N: usize> Exact for ShortBytes<N> {
    ghost copies_exactly = { λ x y e. e };
}
