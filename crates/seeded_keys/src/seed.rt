//! The seed of codes.
ghost use Rattle.std.specs.Prelude.{◌≡◌, ◌<◌, ◌≤◌, ◌^◌, MatchOption, length};
ghost use Rattle.seeded_keys.specs.Seeds.{keyed};

use crate::hashed::Hashed;
use crate::query::Query;
use core::hash::keyed_hasher;
use std::alloc::Allocator;
use std::hash::Hasher;
use std::io;
use std::random::RandomSource;

/// 128 secret bits. Whoever learns them can choose keys that share a code.
#[derive(Clone, Copy, PartialEq, Eq)]
pub struct Seed {
    key0: u64,
    key1: u64,
}

impl Seed {
    /// The seed of these two numbers: the same seed in each run, for tests.
    pub fn of(key0: u64, key1: u64) -> Seed
        ensures first { result.key0 ≡ key0 }
        ensures second { result.key1 ≡ key1 }
    {
        Seed { key0, key1 }
    }

    /// A seed of 16 bytes from the system's source of random numbers.
    ///
    /// # Errors
    ///
    /// What the system answers where it gives none.
    pub fn random(rt: &impl RandomSource) -> io::Result<Seed> {
        let mut bytes = [0; 16];
        rt.fill_bytes(&mut bytes)?;
        let bits = u128::from_le_bytes(bytes);
        Ok(Seed {
            key0: (bits & 0xffff_ffff_ffff_ffff) as u64,
            key1: (bits >> 64) as u64,
        })
    }

    /// The code of these bytes: the lower half of their SipHash-1-3 under this seed. It takes a time
    /// that grows with their number, and no memory.
    pub fn code(&self, bytes: &[u8]) -> u32
        ensures { result ≡ keyed self.now bytes.now }
    {
        let mut hasher = keyed_hasher(self.key0, self.key1);
        hasher.write(bytes);
        (hasher.finish() & 0xffff_ffff) as u32
    }

    /// The key of these bytes, or none where they are too many to lie in it. It takes no memory.
    pub fn short_key<A: Allocator>(&self, bytes: &[u8]) -> Option<Hashed<A>>
        ensures { MatchOption result (18 < length bytes.now)
            (λ key. (key ≡ record { code = keyed self.now bytes.now; bytes = bytes.now })
            × (length bytes.now ≤ 18)) }
    {
        if bytes.len() > 18 {
            return None;
        }
        Hashed::short(self.code(bytes), bytes)
    }

    /// The key of these bytes. It keeps its code, so that the bytes are hashed once. At most 18 are copied,
    /// and their room is given back.
    pub fn key<A: Allocator>(&self, bytes: Box<Vec<u8, A>, A>) -> Hashed<A>
        ensures code { result.code ≡ keyed self.now bytes.value.items }
        ensures bytes { result.bytes ≡ bytes.value.items }
    {
        let code = self.code(bytes.as_slice());
        Hashed::of_room(code, bytes)
    }

    /// What stands for the key of these bytes, where none is made. A query of another seed finds
    /// nothing.
    pub fn query<'a>(&self, bytes: &'a [u8]) -> Query<'a>
        ensures code { result.code ≡ keyed self.now bytes.now }
        ensures bytes { result.bytes.now ≡ bytes.now }
    {
        Query {
            code: self.code(bytes),
            bytes,
        }
    }
}
