//! Keys of bytes under a seed.
ghost use Rattle.std.specs.Prelude.{◌≡◌, ◌≤◌, IfOk, IsOk, length, []};
ghost use Rattle.seeded_keys.specs.Seeds.{keyed};
ghost use Rattle.facing_maps.specs.Keys.{key_of};

use seeded_keys::{Hashed, Query, Seed};
use std::alloc::{AllocError, Global};
use std::marker::Model;
use std::mem;

/// A key of bytes, with its code under the seed of its map.
pub type SeededKey = Hashed<Global>;

/// The seed of a map's keys, and room for the bytes of one key of more than 18, if a call was made on one,
/// which grows to those of the longest. Contracts see the seed.
#[derive(Drop)]
pub struct Keys {
    seed: Seed,
    room: Option<Box<Vec<u8, Global>, Global>>,
    alloc: Global,
}

impl Model for Keys {
    ghost use Rattle.seeded_keys.specs.declared.seed.Seed.{Seed};

    ghost Value = { Seed };

    ghost view = { λ k. k.seed };
}

impl Keys {
    /// Keys under this seed, without room. It takes no memory.
    pub fn new(alloc: Global, seed: Seed) -> Keys
        ensures { result ≡ seed }
    {
        Keys {
            seed,
            room: None,
            alloc,
        }
    }

    /// Keys under the same seed, without room. It takes no memory.
    pub fn again(&self) -> Keys
        ensures { result ≡ self.now }
    {
        Keys::new(self.alloc, self.seed)
    }

    /// The memory that keys and values are made in.
    pub(crate) fn allocator(&self) -> Global {
        self.alloc
    }

    /// What stands for the key of these bytes, where none is made.
    pub fn query<'a>(&self, bytes: &'a [u8]) -> Query<'a>
        ensures code { result.code ≡ keyed self.now bytes.now }
        ensures bytes { result.bytes.now ≡ bytes.now }
    {
        self.seed.query(bytes)
    }

    /// The room, empty. It takes memory the first time.
    fn empty_room(&mut self) -> Result<Box<Vec<u8, Global>, Global>, AllocError>
        ensures room { IfOk result (λ room. room.value.items ≡ []) }
        ensures same { self.new ≡ self.old }
    {
        match mem::replace(&mut self.room, None) {
            Some(mut room) => {
                room.clear();
                Ok(room)
            }
            None => Ok(Box::new(self.alloc, Vec::new(self.alloc))?),
        }
    }

    /// The key of these bytes. At most 18 lie in the key, and it takes no memory. More lie in the room,
    /// until it is taken back: it takes memory where the room is too small, and where it gets none there is
    /// no room.
    pub(crate) fn key(&mut self, bytes: &[u8]) -> Result<SeededKey, AllocError>
        ensures key { IfOk result (λ k. k ≡ key_of self.old bytes.now) }
        ensures short { length bytes.now ≤ 18 → IsOk result }
        ensures same { self.new ≡ self.old }
    {
        if let Some(short) = self.seed.short_key(bytes) {
            return Ok(short);
        }
        let mut room = self.empty_room()?;
        room.extend_from_slice(bytes)?;
        Ok(self.seed.key(room))
    }

    /// Takes the room of a key back, where its bytes lie there.
    pub(crate) fn take_back(&mut self, key: SeededKey)
        ensures { self.new ≡ self.old }
    {
        if let Some(room) = key.into_room() {
            self.room = Some(room);
        }
    }
}
