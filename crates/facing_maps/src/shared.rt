//! Values of bytes.
ghost use Rattle.std.specs.Prelude.{◌≡◌, ◌≤◌, IfOk, IsOk, length};
ghost use Rattle.facing_maps.specs.Places.{bytes_at, IsPlace};

use bin_history::Exact;
use seeded_keys::{Padded, ShortBytes};
use std::alloc::{AllocError, Global};
use std::marker::Model;
use std::sync::Arc;

/// Where the bytes lie.
#[derive(Drop)]
enum Place {
    Inline(ShortBytes<22>),
    /// So many, which are more than 22, with several owners: in one block with the number of these.
    UpTo32(u16, Arc<Padded<32>, Global>),
    UpTo40(u16, Arc<Padded<40>, Global>),
    UpTo48(u16, Arc<Padded<48>, Global>),
    UpTo64(u16, Arc<Padded<64>, Global>),
    UpTo80(u16, Arc<Padded<80>, Global>),
    UpTo96(u16, Arc<Padded<96>, Global>),
    UpTo112(u16, Arc<Padded<112>, Global>),
    UpTo128(u16, Arc<Padded<128>, Global>),
    UpTo144(u16, Arc<Padded<144>, Global>),
    UpTo160(u16, Arc<Padded<160>, Global>),
    UpTo192(u16, Arc<Padded<192>, Global>),
    UpTo224(u16, Arc<Padded<224>, Global>),
    UpTo256(u16, Arc<Padded<256>, Global>),
    UpTo320(u16, Arc<Padded<320>, Global>),
    /// More than 320, in a block beside that of their owners.
    Longer(Arc<Vec<u8, Global>, Global>),
}

/// Bytes as a value of any length. At most 22 lie in the value itself, and a clone copies them. More have
/// several owners, and a clone is one more. So a clone takes no memory. Contracts see the bytes.
#[derive(Drop)]
pub struct SharedBytes {
    place: Place,
}

impl Model for SharedBytes {
    ghost use Rattle.std.specs.Prelude.{ℕ, List};
    ghost use Rattle.facing_maps.specs.Places.{bytes_at, IsPlace};

    ghost Value = { List ℕ };

    ghost view = { λ b. bytes_at b.place };

    ghost invariant = { λ b. IsPlace b.place };
}

impl Place {
    /// A copy of these bytes in a block.
    fn block_of(alloc: Global, bytes: &[u8]) -> Result<Place, AllocError>
        ensures bytes { IfOk result (λ place. bytes_at place ≡ bytes.now) }
        ensures lawful { IfOk result (λ place. IsPlace place) }
    {
        let len = bytes.len();
        Ok(match len {
            ..=32 => Place::UpTo32(len as u16, Arc::new(alloc, Padded::copy_of(bytes))?),
            ..=40 => Place::UpTo40(len as u16, Arc::new(alloc, Padded::copy_of(bytes))?),
            ..=48 => Place::UpTo48(len as u16, Arc::new(alloc, Padded::copy_of(bytes))?),
            ..=64 => Place::UpTo64(len as u16, Arc::new(alloc, Padded::copy_of(bytes))?),
            ..=80 => Place::UpTo80(len as u16, Arc::new(alloc, Padded::copy_of(bytes))?),
            ..=96 => Place::UpTo96(len as u16, Arc::new(alloc, Padded::copy_of(bytes))?),
            ..=112 => Place::UpTo112(len as u16, Arc::new(alloc, Padded::copy_of(bytes))?),
            ..=128 => Place::UpTo128(len as u16, Arc::new(alloc, Padded::copy_of(bytes))?),
            ..=144 => Place::UpTo144(len as u16, Arc::new(alloc, Padded::copy_of(bytes))?),
            ..=160 => Place::UpTo160(len as u16, Arc::new(alloc, Padded::copy_of(bytes))?),
            ..=192 => Place::UpTo192(len as u16, Arc::new(alloc, Padded::copy_of(bytes))?),
            ..=224 => Place::UpTo224(len as u16, Arc::new(alloc, Padded::copy_of(bytes))?),
            ..=256 => Place::UpTo256(len as u16, Arc::new(alloc, Padded::copy_of(bytes))?),
            ..=320 => Place::UpTo320(len as u16, Arc::new(alloc, Padded::copy_of(bytes))?),
            _ => Place::Longer(Arc::new(alloc, bytes.to_vec(alloc)?)?),
        })
    }

    /// The bytes.
    fn bytes(&self) -> &[u8]
        requires { IsPlace self.now }
        ensures { result.now ≡ bytes_at self.now }
    {
        match self {
            Place::Inline(short) => short.bytes(),
            Place::UpTo32(len, block) => block.front(*len as usize),
            Place::UpTo40(len, block) => block.front(*len as usize),
            Place::UpTo48(len, block) => block.front(*len as usize),
            Place::UpTo64(len, block) => block.front(*len as usize),
            Place::UpTo80(len, block) => block.front(*len as usize),
            Place::UpTo96(len, block) => block.front(*len as usize),
            Place::UpTo112(len, block) => block.front(*len as usize),
            Place::UpTo128(len, block) => block.front(*len as usize),
            Place::UpTo144(len, block) => block.front(*len as usize),
            Place::UpTo160(len, block) => block.front(*len as usize),
            Place::UpTo192(len, block) => block.front(*len as usize),
            Place::UpTo224(len, block) => block.front(*len as usize),
            Place::UpTo256(len, block) => block.front(*len as usize),
            Place::UpTo320(len, block) => block.front(*len as usize),
            Place::Longer(bytes) => bytes.as_slice(),
        }
    }

    /// The same bytes, where they are inline, or one more owner of them.
    fn again(&self) -> Result<Place, AllocError>
        requires { IsPlace self.now }
        ensures bytes { IfOk result (λ place. bytes_at place ≡ bytes_at self.now) }
        ensures lawful { IfOk result (λ place. IsPlace place) }
    {
        Ok(match self {
            Place::Inline(short) => Place::Inline(short.clone()?),
            Place::UpTo32(len, block) => Place::UpTo32(*len, Arc::try_clone(block)?),
            Place::UpTo40(len, block) => Place::UpTo40(*len, Arc::try_clone(block)?),
            Place::UpTo48(len, block) => Place::UpTo48(*len, Arc::try_clone(block)?),
            Place::UpTo64(len, block) => Place::UpTo64(*len, Arc::try_clone(block)?),
            Place::UpTo80(len, block) => Place::UpTo80(*len, Arc::try_clone(block)?),
            Place::UpTo96(len, block) => Place::UpTo96(*len, Arc::try_clone(block)?),
            Place::UpTo112(len, block) => Place::UpTo112(*len, Arc::try_clone(block)?),
            Place::UpTo128(len, block) => Place::UpTo128(*len, Arc::try_clone(block)?),
            Place::UpTo144(len, block) => Place::UpTo144(*len, Arc::try_clone(block)?),
            Place::UpTo160(len, block) => Place::UpTo160(*len, Arc::try_clone(block)?),
            Place::UpTo192(len, block) => Place::UpTo192(*len, Arc::try_clone(block)?),
            Place::UpTo224(len, block) => Place::UpTo224(*len, Arc::try_clone(block)?),
            Place::UpTo256(len, block) => Place::UpTo256(*len, Arc::try_clone(block)?),
            Place::UpTo320(len, block) => Place::UpTo320(*len, Arc::try_clone(block)?),
            Place::Longer(bytes) => Place::Longer(Arc::try_clone(bytes)?),
        })
    }
}

impl SharedBytes {
    /// A copy of these bytes. Where there are more than 22, it takes memory for them and for the number of
    /// their owners: one block, or two where there are more than 320.
    pub fn copy_of(alloc: Global, bytes: &[u8]) -> Result<SharedBytes, AllocError>
        ensures copy { IfOk result (λ b. b ≡ bytes.now) }
        ensures short { length bytes.now ≤ 22 → IsOk result }
    {
        let place = match ShortBytes::copy_of(bytes) {
            Some(short) => Place::Inline(short),
            None => Place::block_of(alloc, bytes)?,
        };
        Ok(SharedBytes { place })
    }

    /// The bytes.
    pub fn bytes(&self) -> &[u8]
        ensures { result.now ≡ self.now }
    {
        self.place.bytes()
    }
}

impl Clone for SharedBytes {
    ghost use Rattle.std.specs.Prelude.{◌≡◌};

    ghost is_clone = { λ x y. y ≡ x };

    fn clone(&self) -> Result<SharedBytes, AllocError> {
        Ok(SharedBytes {
            place: self.place.again()?,
        })
    }
}

impl Exact for SharedBytes {
    ghost copies_exactly = { λ x y e. e };
}

impl PartialEq for SharedBytes {
    ghost use Rattle.std.specs.Prelude.{nat_eq};
    ghost use Rattle.std.specs.Cmp.{partial_equiv_from_equiv};
    ghost use Rattle.std.specs.Cmp.Lexicographic.{pointwise, nat_list_eq_equiv};

    ghost eq = { pointwise nat_eq };

    ghost laws = { partial_equiv_from_equiv nat_list_eq_equiv };

    fn eq(&self, other: &SharedBytes) -> bool {
        self.bytes() == other.bytes()
    }
}

impl Eq for SharedBytes {
    ghost use Rattle.std.specs.Cmp.Lexicographic.{nat_list_eq_equiv};

    ghost laws = { nat_list_eq_equiv };
}
