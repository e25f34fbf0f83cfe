//! Keys that keep their codes.
ghost use Rattle.std.specs.Prelude.{◌≡◌, ◌<◌, ◌≤◌, IfOk, IsOk, IfSome, MatchOption, length, take};
ghost use Rattle.seeded_keys.specs.Places.{bytes_at, code_at, key_at, IsPlace};

use crate::padded::Padded;
use crate::short::ShortBytes;
use hashkeys::{Exact, HashKey};
use std::alloc::{AllocError, Allocator};
use std::marker::Model;

/// Where the bytes of a key lie, and its code.
#[derive(Drop)]
enum Place<A: Allocator> {
    Inline(ShortBytes<18>, u32),
    /// So many, which are more than 18, in a block of their own.
    UpTo24(u8, u32, Box<Padded<24>, A>),
    UpTo32(u8, u32, Box<Padded<32>, A>),
    UpTo48(u8, u32, Box<Padded<48>, A>),
    UpTo64(u8, u32, Box<Padded<64>, A>),
    /// More than 18, with the room that they have.
    Apart(u32, Box<Vec<u8, A>, A>),
}

/// A key of bytes beside its code, as a `Seed` makes it. At most 18 bytes lie in the key itself: then neither
/// the key nor a clone takes memory, and who compares them reads the key alone. A clone of more takes memory
/// for them, and may be refused it: one block, or two where there are more than 64.
#[derive(Drop)]
pub struct Hashed<A: Allocator> {
    place: Place<A>,
}

impl<A: Allocator> Model for Hashed<A> {
    ghost use Rattle.seeded_keys.specs.Places.{KeyView, key_at, IsPlace};

    ghost Value = { KeyView };

    ghost view = { λ k. key_at k.place };

    ghost invariant = { λ k. IsPlace k.place };
}

/// A block with a copy of these bytes.
fn boxed<const N: usize, A: Allocator + Clone>(
    alloc: &A,
    bytes: &[u8],
) -> Result<Box<Padded<N>, A>, AllocError>
    requires fits { length bytes.now ≤ N }
    ensures { IfOk result (λ block. take (length bytes.now) block.value ≡ bytes.now) }
{
    Ok(Box::new(alloc.clone()?, Padded::copy_of(bytes))?)
}

impl<A: Allocator> Place<A> {
    /// The bytes.
    fn bytes(&self) -> &[u8]
        requires { IsPlace self.now }
        ensures { result.now ≡ bytes_at self.now }
    {
        match self {
            Place::Inline(short, _) => short.bytes(),
            Place::UpTo24(len, _, block) => block.front(*len as usize),
            Place::UpTo32(len, _, block) => block.front(*len as usize),
            Place::UpTo48(len, _, block) => block.front(*len as usize),
            Place::UpTo64(len, _, block) => block.front(*len as usize),
            Place::Apart(_, bytes) => bytes.as_slice(),
        }
    }

    /// The code.
    fn code(&self) -> u32
        ensures { result ≡ code_at self.now }
    {
        match self {
            Place::Inline(_, code) => *code,
            Place::UpTo24(_, code, _) => *code,
            Place::UpTo32(_, code, _) => *code,
            Place::UpTo48(_, code, _) => *code,
            Place::UpTo64(_, code, _) => *code,
            Place::Apart(code, _) => *code,
        }
    }
}

impl<A: Allocator + Clone> Place<A> {
    /// A copy of these bytes, of which there are more than 18, in a block of their own.
    fn block_of(alloc: &A, code: u32, bytes: &[u8]) -> Result<Place<A>, AllocError>
        requires long { 18 < length bytes.now }
        ensures bytes { IfOk result (λ place. bytes_at place ≡ bytes.now) }
        ensures code { IfOk result (λ place. code_at place ≡ code) }
        ensures lawful { IfOk result (λ place. IsPlace place) }
    {
        let len = bytes.len();
        Ok(match len {
            ..=24 => Place::UpTo24(len as u8, code, boxed(alloc, bytes)?),
            ..=32 => Place::UpTo32(len as u8, code, boxed(alloc, bytes)?),
            ..=48 => Place::UpTo48(len as u8, code, boxed(alloc, bytes)?),
            ..=64 => Place::UpTo64(len as u8, code, boxed(alloc, bytes)?),
            _ => {
                let copy = bytes.to_vec(alloc.clone()?)?;
                Place::Apart(code, Box::new(alloc.clone()?, copy)?)
            }
        })
    }

    /// The same bytes with the same code.
    fn again(&self) -> Result<Place<A>, AllocError>
        requires { IsPlace self.now }
        ensures same { IfOk result (λ place. key_at place ≡ key_at self.now) }
        ensures lawful { IfOk result (λ place. IsPlace place) }
        ensures short { length (bytes_at self.now) ≤ 18 → IsOk result }
    {
        match self {
            Place::Inline(short, code) => Ok(Place::Inline(short.clone()?, *code)),
            Place::UpTo24(_, code, block) => {
                Place::block_of(Box::allocator(block), *code, self.bytes())
            }
            Place::UpTo32(_, code, block) => {
                Place::block_of(Box::allocator(block), *code, self.bytes())
            }
            Place::UpTo48(_, code, block) => {
                Place::block_of(Box::allocator(block), *code, self.bytes())
            }
            Place::UpTo64(_, code, block) => {
                Place::block_of(Box::allocator(block), *code, self.bytes())
            }
            Place::Apart(code, bytes) => {
                Place::block_of(Box::allocator(bytes), *code, bytes.as_slice())
            }
        }
    }
}

impl<A: Allocator> Hashed<A> {
    /// The key with this code of these bytes, or none where they are too many to lie in it. It takes no
    /// memory.
    pub(crate) fn short(code: u32, bytes: &[u8]) -> Option<Hashed<A>>
        ensures { MatchOption result (18 < length bytes.now)
            (λ key. (key ≡ record { code = code; bytes = bytes.now }) × (length bytes.now ≤ 18)) }
    {
        match ShortBytes::copy_of(bytes) {
            Some(short) => Some(Hashed {
                place: Place::Inline(short, code),
            }),
            None => None,
        }
    }

    /// The key with this code of these bytes. At most 18 are copied, and their room is given back.
    pub(crate) fn of_room(code: u32, bytes: Box<Vec<u8, A>, A>) -> Hashed<A>
        ensures { result ≡ record { code = code; bytes = bytes.value.items } }
    {
        match ShortBytes::copy_of(bytes.as_slice()) {
            Some(short) => Hashed {
                place: Place::Inline(short, code),
            },
            None => Hashed {
                place: Place::Apart(code, bytes),
            },
        }
    }

    /// The key's bytes.
    pub fn bytes(&self) -> &[u8]
        ensures { result.now ≡ self.now.bytes }
    {
        self.place.bytes()
    }

    /// The room that the bytes came in, where they still lie in it.
    pub fn into_room(self) -> Option<Box<Vec<u8, A>, A>>
        ensures { IfSome result (λ room. room.value.items ≡ self.bytes) }
    {
        match self.place {
            Place::Apart(_, bytes) => Some(bytes),
            _ => None,
        }
    }

    /// The code.
    pub(crate) fn code(&self) -> u32
        ensures { result ≡ self.now.code }
    {
        self.place.code()
    }
}

impl<A: Allocator + Clone> Hashed<A> {
    /// The key with this code of these bytes. It takes memory where there are more than 18.
    pub(crate) fn copy_of(alloc: &A, code: u32, bytes: &[u8]) -> Result<Hashed<A>, AllocError>
        ensures copy { IfOk result (λ key. key ≡ record { code = code; bytes = bytes.now }) }
        ensures short { length bytes.now ≤ 18 → IsOk result }
    {
        let place = match ShortBytes::copy_of(bytes) {
            Some(short) => Place::Inline(short, code),
            None => Place::block_of(alloc, code, bytes)?,
        };
        Ok(Hashed { place })
    }
}

impl<A: Allocator + Clone> Clone for Hashed<A> {
    ghost use Rattle.std.specs.Prelude.{◌≡◌, ◌≤◌, length};

    ghost is_clone = { λ x y. y ≡ x };

    ghost is_infallible = { λ key. length key.bytes ≤ 18 };

    fn clone(&self) -> Result<Hashed<A>, AllocError> {
        Ok(Hashed {
            place: self.place.again()?,
        })
    }
}

impl<A: Allocator + Clone> Exact for Hashed<A> {
    ghost copies_exactly = { λ x y e. e };
}

impl<A: Allocator> PartialEq for Hashed<A> {
    ghost use Rattle.std.specs.Prelude.{◌&&◌, nat_eq};
    ghost use Rattle.std.specs.Cmp.{partial_equiv_from_equiv, and_equiv, on_equiv, nat_eq_equiv};
    ghost use Rattle.std.specs.Cmp.Lexicographic.{pointwise, nat_list_eq_equiv};

    ghost eq = { λ x y. nat_eq x.code y.code && pointwise nat_eq x.bytes y.bytes };

    ghost laws = { partial_equiv_from_equiv (and_equiv (on_equiv (λ key. key.code) nat_eq_equiv)
        (on_equiv (λ key. key.bytes) nat_list_eq_equiv)) };

    fn eq(&self, other: &Hashed<A>) -> bool {
        self.code() == other.code() && self.bytes() == other.bytes()
    }
}

impl<A: Allocator> Eq for Hashed<A> {
    ghost use Rattle.std.specs.Cmp.{and_equiv, on_equiv, nat_eq_equiv};
    ghost use Rattle.std.specs.Cmp.Lexicographic.{nat_list_eq_equiv};

    ghost laws = { and_equiv (on_equiv (λ key. key.code) nat_eq_equiv)
        (on_equiv (λ key. key.bytes) nat_list_eq_equiv) };
}

impl<A: Allocator + Clone> HashKey for Hashed<A> {
    ghost use Rattle.std.specs.Cmp.Lexicographic.{bytes_decides};
    ghost use Rattle.std.proofs.Common.{rules};
    ghost use Rattle.std.proofs.lemmas.Bool.Decides.{Decides-and};

    ghost code = { λ key. key.code };

    fn hash_code(&self) -> u32 {
        self.code()
    }

    ghost equal_is_same = { λ x y e. Prim.search (rules, bytes_decides) };
}
