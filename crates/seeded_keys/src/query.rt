//! Bytes with their code, in place of a key.
ghost use Rattle.std.specs.Prelude.{◌≡◌};

use crate::hashed::Hashed;
use hashkeys::{AsKey, MakesKey};
use std::alloc::{AllocError, Allocator};

/// Bytes that lie elsewhere, with the code that a seed gives them: they stand for the key that the
/// seed makes of them.
#[derive(Clone, Copy)]
pub struct Query<'a> {
    pub(crate) code: u32,
    pub(crate) bytes: &'a [u8],
}

impl<'a, A: Allocator + Clone> AsKey<Hashed<A>> for Query<'a> {
    ghost stands_for = { λ q. record { code = q.code; bytes = q.bytes.now } };

    fn key_code(&self) -> u32 {
        self.code
    }

    fn is_key(&self, key: &Hashed<A>) -> bool {
        key.code() == self.code && key.bytes() == self.bytes
    }
}

/// Makes the key with the code that it has: the bytes are not hashed again. At most 18 bytes take no
/// memory.
impl<'a, A: Allocator + Clone> MakesKey<Hashed<A>, A> for Query<'a> {
    fn make(self, alloc: &A) -> Result<Hashed<A>, AllocError> {
        Hashed::copy_of(alloc, self.code, self.bytes)
    }
}
