//! Entries that are added to a chain.
ghost use Rattle.std.specs.Prelude.{◌≡◌, ◌∷◌, [], ◌++◌, ℕ, IfOk, IsOk};
ghost use Rattle.bin_entries.specs.Chains.{entries_of, IsHashed};
ghost use Rattle.bin_entries.specs.Rooms.{HasRoom};

use crate::boxes::{Boxes, boxed, filled, reversed, unboxed};
use crate::chain::{Chain, NEAR};
use std::alloc::{AllocError, Allocator};
use std::mem::replace;

/// Room for one entry more in a chain: a box, where the chain has an entry in its place.
#[derive(Drop)]
pub struct Room<K, V, A: Allocator> {
    empty: Boxes<K, V, A>,
}

impl<K: Drop, V: Drop, A: Allocator + Clone> Chain<K, V, A> {
    /// Room for one entry more. It takes no memory where there is none yet.
    #[inline(always)]
    pub fn room(&self, alloc: &A) -> Result<Room<K, V, A>, AllocError>
        ensures room { IfOk result (λ room. HasRoom room (entries_of self.now)) }
        ensures succeeds { entries_of self.now ≡ [] → IsOk result }
    {
        match self {
            Chain::End => Ok(Room { empty: None }),
            _ => Ok(Room {
                empty: Some(boxed(alloc, Chain::End)?),
            }),
        }
    }
}

impl<K: Drop, V: Drop, A: Allocator> Chain<K, V, A> {
    /// Puts an entry into a box behind the last one. The chain is taken apart.
    #[inline(never)]
    fn append_far(&mut self, empty: Box<Chain<K, V, A>, A>, hash: u32, key: K, value: V)
        ensures entries { entries_of self.new ≡ entries_of self.old ++ (key, value) ∷ [] }
        ensures hashed { (hash_of : K → ℕ) → IsHashed hash_of self.old → hash ≡ hash_of key →
            IsHashed hash_of self.new }
    {
        let last = filled(empty, hash, (key, value), None);
        match replace(self, Chain::End).cut() {
            None => *self = unboxed(last),
            Some((own, first, behind)) => {
                let back = reversed(behind, None);
                *self = Chain::joined(own, first, reversed(back, last));
            }
        }
    }

    /// Puts an entry at the end; so many entries are gone past by calls in calls.
    fn append_near(
        &mut self,
        steps: u32,
        empty: Box<Chain<K, V, A>, A>,
        hash: u32,
        key: K,
        value: V,
    )
        ensures entries { entries_of self.new ≡ entries_of self.old ++ (key, value) ∷ [] }
        ensures hashed { (hash_of : K → ℕ) → IsHashed hash_of self.old → hash ≡ hash_of key →
            IsHashed hash_of self.new }
    {
        match self {
            Chain::End => *self = Chain::Last(hash, (key, value)),
            Chain::Last(_, _) => self.append_far(empty, hash, key, value),
            Chain::More(_, _, next) => {
                if steps == 0 {
                    self.append_far(empty, hash, key, value);
                } else {
                    next.append_near(steps - 1, empty, hash, key, value);
                }
            }
        }
    }

    /// Puts an entry at the end, into the room for it.
    #[inline(always)]
    pub fn append(&mut self, room: Room<K, V, A>, hash: u32, key: K, value: V)
        requires room { HasRoom room (entries_of self.old) }
        ensures entries { entries_of self.new ≡ entries_of self.old ++ (key, value) ∷ [] }
        ensures hashed { (hash_of : K → ℕ) → IsHashed hash_of self.old → hash ≡ hash_of key →
            IsHashed hash_of self.new }
    {
        match room.empty {
            None => *self = Chain::Last(hash, (key, value)),
            Some(empty) => self.append_near(NEAR, empty, hash, key, value),
        }
    }
}
