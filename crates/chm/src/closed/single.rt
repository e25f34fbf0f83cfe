//! One key of a closed map.
ghost use Rattle.std.specs.Prelude.{◌≡◌, ◌↔◌, ◌≤◌, ◌<◌, true, None, Some, MatchOption, length};
ghost use Rattle.std.specs.List.{HoldsAt};
ghost use Rattle.hashkeys.specs.Classes.{IsTableSize, covers};
ghost use Rattle.bin_history.specs.Entries.{lookup};
ghost use Rattle.bin_layout.specs.Walks.{HasPassed};
ghost use Rattle.chm.specs.Headline.{entries_of};

use crate::closed::quiet::Quiet;
use bin_history::{Remap, Value};
use hashkeys::{AsKey, Class, HashKey};
use std::alloc::Allocator;

/// Whether a hash is of the class or stands before it in walk order, by the number of opening bins.
/// The remainders are compared from the opening size on, until they differ.
fn has_passed(n: u32, class: Class, hash: u32) -> bool
    requires size { IsTableSize n }
    requires least { n ≤ class.n }
    ensures { (result ≡ true) ↔ HasPassed n class hash }
{
    let (widest, index) = (class.n(), class.index());
    let mut size = n;
    while size < widest && hash % size == index % size {
        size *= 2;
    }
    hash % size <= index % size
}

impl<K: HashKey, V: Value, F: Remap<K, V>, A: Allocator + Clone> Quiet<K, V, F, A> {
    /// The place of the bin whose class has the hash, found by halves.
    fn place_of(&self, hash: u32) -> usize
        ensures within { result < length self.now.bins }
        ensures covers { HoldsAt (λ b. covers b.class hash ≡ true) self.now.bins result }
    {
        self.lawful();
        let bins = self.bins();
        let (mut low, mut high) = (0, bins.len());
        while low < high {
            let middle = low + (high - low) / 2;
            if has_passed(self.n, bins[middle].class(), hash) {
                high = middle;
            } else {
                low = middle + 1;
            }
        }
        low
    }

    /// The value at the key. The bins stand in walk order, so the key's own is found by halves: the
    /// time grows with the logarithm of their number, and with the keys of that one bin.
    ///
    ///     quiet.get(&1).copied() == Some(5)
    ///     quiet.get(&2).is_none()
    pub fn get(&self, key: &K) -> Option<&V>
        ensures { MatchOption result (lookup K.eq (entries_of self.now.bins) key.now ≡ None)
            (λ value. lookup K.eq (entries_of self.now.bins) key.now ≡ Some value.now) }
    {
        self.get_as(key)
    }

    /// The value at the key that this stands for, as a slice stands for the key of its bytes. No key
    /// is made. It takes the time of a `get`.
    ///
    ///     quiet.get_as(b"one".as_slice()).copied() == Some(5)
    pub fn get_as<Q: AsKey<K>>(&self, query: Q) -> Option<&V>
        ensures { MatchOption result
            (lookup K.eq (entries_of self.now.bins) (Q.stands_for query) ≡ None)
            (λ value. lookup K.eq (entries_of self.now.bins) (Q.stands_for query)
            ≡ Some value.now) }
    {
        self.lawful();
        let hash = self.salt().hash_of_as::<K, Q>(query);
        let place = self.place_of(hash);
        self.bins()[place].get_as(hash, query)
    }
}
