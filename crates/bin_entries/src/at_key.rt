//! What a chain has at a key.
ghost use Rattle.std.specs.Prelude.{◌≡◌, ◌≤◌, ℕ, [], IfSome, true, false, is_some, length, option_copied};
ghost use Rattle.bin_entries.specs.Chains.{entries_of, IsHashed};
ghost use Rattle.bin_entries.specs.Entries.{first_in, lookup, put};

use crate::boxes::{filled, parted, reversed};
use crate::chain::{Chain, NEAR, is_entry_of};
use hashkeys::{AsKey, HashKey};
use std::alloc::Allocator;
use std::mem::replace;

impl<K: HashKey, V, A: Allocator> Chain<K, V, A> {
    /// The value at the key that this stands for.
    #[inline(always)]
    pub fn get_as<Q: AsKey<K>>(&self, hash: u32, query: Q) -> Option<&V>
        requires hashed { (hash_of : K → ℕ) × IsHashed hash_of self.now
            × (hash ≡ hash_of (Q.stands_for query)) }
        ensures { option_copied result ≡ lookup K.eq (entries_of self.now) (Q.stands_for query) }
    {
        let mut at = self;
        loop {
            match at {
                Chain::End => return None,
                Chain::Last(own, entry) => {
                    if is_entry_of(*own, entry, hash, query) {
                        return Some(&entry.1);
                    }
                    return None;
                }
                Chain::More(own, entry, next) => {
                    if is_entry_of(*own, entry, hash, query) {
                        return Some(&entry.1);
                    }
                    at = next;
                }
            }
        }
    }

    /// Whether there is no entry.
    #[inline(always)]
    fn is_end(&self) -> bool
        ensures { result ≡ true → entries_of self.now ≡ [] }
    {
        match self {
            Chain::End => true,
            _ => false,
        }
    }

    /// Whether the box behind the first entry has none.
    #[inline(always)]
    fn has_empty_box(&self) -> bool
        ensures { result ≡ true → length (entries_of self.now) ≤ 1 }
    {
        match self {
            Chain::More(_, _, next) => next.is_end(),
            _ => false,
        }
    }
}

impl<K: HashKey, V: Drop, A: Allocator> Chain<K, V, A> {
    /// A key that is there, and not the first one, gets the value. The chain is taken apart. Returns the
    /// value before.
    #[cold]
    #[inline(never)]
    fn assign_far(&mut self, hash: u32, key: &K, value: V) -> Option<V>
        requires hashed { (hash_of : K → ℕ) × IsHashed hash_of self.old × (hash ≡ hash_of key.now) }
        requires there { is_some (lookup K.eq (entries_of self.old) key.now) ≡ true }
        requires far { IfSome (first_in (entries_of self.old)) (λ e. K.eq e.0 key.now ≡ false) }
        ensures entries { entries_of self.new ≡ put K.eq (entries_of self.old) key.now value }
        ensures hashed { (hash_of : K → ℕ) → IsHashed hash_of self.old → IsHashed hash_of self.new }
        ensures value { result ≡ lookup K.eq (entries_of self.old) key.now }
    {
        let (own, first, boxes) = replace(self, Chain::End).cut()?;
        let (before, found) = parted(boxes, hash, key);
        let mut found = found?;
        let taken = replace(&mut found.entry.1, value);
        let from = filled(found.empty, found.hash, found.entry, found.behind);
        *self = Chain::joined(own, first, reversed(before, from));
        Some(taken)
    }

    /// A key that is there gets the value; so many entries are gone past by calls in calls. Returns
    /// the value before.
    fn assign_near(&mut self, steps: u32, hash: u32, key: &K, value: V) -> Option<V>
        requires hashed { (hash_of : K → ℕ) × IsHashed hash_of self.old × (hash ≡ hash_of key.now) }
        requires there { is_some (lookup K.eq (entries_of self.old) key.now) ≡ true }
        ensures entries { entries_of self.new ≡ put K.eq (entries_of self.old) key.now value }
        ensures hashed { (hash_of : K → ℕ) → IsHashed hash_of self.old → IsHashed hash_of self.new }
        ensures value { result ≡ lookup K.eq (entries_of self.old) key.now }
    {
        match self {
            Chain::End => unreachable!(),
            Chain::Last(_, entry) => Some(replace(&mut entry.1, value)),
            Chain::More(own, entry, next) => {
                if is_entry_of(*own, entry, hash, key) {
                    Some(replace(&mut entry.1, value))
                } else if steps == 0 {
                    self.assign_far(hash, key, value)
                } else {
                    next.assign_near(steps - 1, hash, key, value)
                }
            }
        }
    }

    /// A key that is there gets the value. It gives back the value before.
    #[inline(always)]
    pub fn assign(&mut self, hash: u32, key: &K, value: V) -> Option<V>
        requires hashed { (hash_of : K → ℕ) × IsHashed hash_of self.old × (hash ≡ hash_of key.now) }
        requires there { is_some (lookup K.eq (entries_of self.old) key.now) ≡ true }
        ensures entries { entries_of self.new ≡ put K.eq (entries_of self.old) key.now value }
        ensures hashed { (hash_of : K → ℕ) → IsHashed hash_of self.old → IsHashed hash_of self.new }
        ensures value { result ≡ lookup K.eq (entries_of self.old) key.now }
    {
        self.assign_near(NEAR, hash, key, value)
    }
}

impl<K: HashKey, V: Drop, A: Allocator> Chain<K, V, A> {
    ghost use Rattle.std.specs.Prelude.{◌≡◌, ◌∷◌, [], ℕ, true, false, IfSome, length, ◌≤◌};
    ghost use Rattle.bin_entries.specs.Chains.{entries_of, IsHashed};
    ghost use Rattle.bin_entries.specs.Entries.{StartsAt, first_in, lookup, remove};

    /// Takes the first entry out, if there is one, which is of the key that this stands for. The next
    /// one comes out of its box into its place. Returns the value.
    fn take_first<Q: AsKey<K>>(&mut self, query: Q) -> Option<V>
        requires starts { StartsAt K.eq (entries_of self.old) (Q.stands_for query) }
        ensures entries { entries_of self.new
            ≡ remove K.eq (entries_of self.old) (Q.stands_for query) }
        ensures hashed { (hash_of : K → ℕ) → IsHashed hash_of self.old → IsHashed hash_of self.new }
        ensures value { result ≡ lookup K.eq (entries_of self.old) (Q.stands_for query) }
    {
        match replace(self, Chain::End).pop() {
            Some((entry, next)) => {
                let (_key, value) = entry;
                *self = next;
                Some(value)
            }
            None => None,
        }
    }

    /// Takes the entry of the key that this stands for, which is not the first one, out. The chain is
    /// taken apart. Returns the value, if there was one.
    #[cold]
    #[inline(never)]
    fn take_far<Q: AsKey<K>>(&mut self, hash: u32, query: Q) -> Option<V>
        requires hashed { (hash_of : K → ℕ) × IsHashed hash_of self.old
            × (hash ≡ hash_of (Q.stands_for query)) }
        requires far { IfSome (first_in (entries_of self.old))
            (λ e. K.eq e.0 (Q.stands_for query) ≡ false) }
        ensures entries { entries_of self.new
            ≡ remove K.eq (entries_of self.old) (Q.stands_for query) }
        ensures hashed { (hash_of : K → ℕ) → IsHashed hash_of self.old → IsHashed hash_of self.new }
        ensures value { result ≡ lookup K.eq (entries_of self.old) (Q.stands_for query) }
    {
        let (own, first, boxes) = replace(self, Chain::End).cut()?;
        let (before, found) = parted(boxes, hash, query);
        match found {
            None => {
                *self = Chain::joined(own, first, reversed(before, None));
                None
            }
            Some(found) => {
                let (_key, value) = found.entry;
                *self = Chain::joined(own, first, reversed(before, found.behind));
                Some(value)
            }
        }
    }

    /// Frees the box behind the only entry.
    #[inline(never)]
    fn drop_end(&mut self)
        requires one { length (entries_of self.old) ≤ 1 }
        ensures entries { entries_of self.new ≡ entries_of self.old }
        ensures hashed { (hash_of : K → ℕ) → IsHashed hash_of self.old → IsHashed hash_of self.new }
    {
        if let Some((hash, entry, _end)) = replace(self, Chain::End).cut() {
            *self = Chain::Last(hash, entry);
        }
    }

    /// Frees the box behind the first entry, if no entry is left in it.
    #[inline(always)]
    pub(crate) fn tidy(&mut self)
        ensures entries { entries_of self.new ≡ entries_of self.old }
        ensures hashed { (hash_of : K → ℕ) → IsHashed hash_of self.old → IsHashed hash_of self.new }
    {
        if self.has_empty_box() {
            self.drop_end();
        }
    }

    /// Takes the entry of the key that this stands for out; so many entries are gone past by calls in
    /// calls. A box that is left without an entry is freed. Returns the value, if there was one.
    fn take_near<Q: AsKey<K>>(&mut self, steps: u32, hash: u32, query: Q) -> Option<V>
        requires hashed { (hash_of : K → ℕ) × IsHashed hash_of self.old
            × (hash ≡ hash_of (Q.stands_for query)) }
        ensures entries { entries_of self.new
            ≡ remove K.eq (entries_of self.old) (Q.stands_for query) }
        ensures hashed { (hash_of : K → ℕ) → IsHashed hash_of self.old → IsHashed hash_of self.new }
        ensures value { result ≡ lookup K.eq (entries_of self.old) (Q.stands_for query) }
    {
        match self {
            Chain::End => None,
            Chain::Last(own, entry) => {
                if is_entry_of(*own, entry, hash, query) {
                    self.take_first(query)
                } else {
                    None
                }
            }
            Chain::More(own, entry, next) => {
                if is_entry_of(*own, entry, hash, query) {
                    return self.take_first(query);
                }
                if steps == 0 {
                    return self.take_far(hash, query);
                }
                let taken = next.take_near(steps - 1, hash, query);
                self.tidy();
                taken
            }
        }
    }

    /// Takes the entry of the key that this stands for out, if there is one. Returns its value.
    #[inline(always)]
    pub fn take<Q: AsKey<K>>(&mut self, hash: u32, query: Q) -> Option<V>
        requires hashed { (hash_of : K → ℕ) × IsHashed hash_of self.old
            × (hash ≡ hash_of (Q.stands_for query)) }
        ensures entries { entries_of self.new
            ≡ remove K.eq (entries_of self.old) (Q.stands_for query) }
        ensures hashed { (hash_of : K → ℕ) → IsHashed hash_of self.old → IsHashed hash_of self.new }
        ensures value { result ≡ lookup K.eq (entries_of self.old) (Q.stands_for query) }
    {
        self.take_near(NEAR, hash, query)
    }
}
