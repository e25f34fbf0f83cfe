//! Changes of a list of entries.
ghost use Rattle.std.specs.Prelude.{◌≡◌, ◌<◌, ◌≤◌, ◌+◌, ◌-◌, IfOk, IsOk, option_copied, vec_len};
ghost use Rattle.std.specs.Prelude.{vec_capacity};
ghost use Rattle.bin_history.specs.Entries.{lookup};
ghost use Rattle.bin_history.specs.Changes.{IsIndexOf, change_at, change_to, change_by};
ghost use Rattle.bin_history.specs.Changes.{entries_after, taken_from, HasIndex, Fits};
ghost use Rattle.bin_history.specs.Ops.{key_in};

use crate::effect::Effect;
use bin_entries::KeyArg;
use hashkeys::{AsKey, Exact, HashKey};
use std::alloc::{AllocError, Allocator};
use std::mem::replace;

/// What a prepared call does to the entries of its bin, as contracts see it.
#[derive(Drop)]
pub enum Change<K, V> {
    /// Nothing.
    Stay,
    /// The entry at the index gets the value.
    Assign(usize, V),
    /// The pair is added as the last entry.
    Add(K, V),
    /// The entry at the index is taken out.
    Take(usize),
}

/// The index of the key that this stands for.
pub(crate) fn find<K: HashKey, V, Q: AsKey<K>>(entries: &[(K, V)], query: Q) -> Option<usize>
    ensures { IsIndexOf K.eq entries.now (Q.stands_for query) result }
{
    for (i, entry) in entries.iter().enumerate() {
        if query.is_key(&entry.0) {
            return Some(i);
        }
    }
    None
}

/// The value at a key that `find` looked for.
pub(crate) fn value_at<'a, K: HashKey, V>(
    entries: &'a [(K, V)],
    key: &K,
    found: Option<usize>,
) -> Option<&'a V>
    requires { IsIndexOf K.eq entries.now key.now found }
    ensures { option_copied result ≡ lookup K.eq entries.now key.now }
{
    match found {
        Some(i) => Some(&entries[i].1),
        None => None,
    }
}

impl<K, V> Change<K, V> {
    /// The change by which the key at this index gets this value, or none.
    fn at(i: usize, value: Option<V>) -> Change<K, V>
        ensures { result ≡ change_at i value }
    {
        match value {
            Some(inner) => Change::Assign(i, inner),
            None => Change::Take(i),
        }
    }
}

impl<K: Drop, V> Change<K, V> {
    /// The change by which the key gets this value, or none.
    pub(crate) fn to(key: K, found: Option<usize>, value: Option<V>) -> Change<K, V>
        ensures { result ≡ change_to found key value }
    {
        match found {
            Some(i) => Change::at(i, value),
            None => match value {
                Some(inner) => Change::Add(key, inner),
                None => Change::Stay,
            },
        }
    }
}

impl<K: Exact + Drop, V: Drop> Change<K, V> {
    /// Returns the change by which a given key gets this value, or none. The key is copied only
    /// where it was lent and an entry is made.
    fn given(
        key: KeyArg<'_, K>,
        found: Option<usize>,
        value: Option<V>,
    ) -> Result<Change<K, V>, AllocError>
        ensures change { IfOk result (λ change. change ≡ change_to found (key_in key.entry) value) }
        ensures succeeds { K.is_infallible (key_in key.entry) → IsOk result }
    {
        match found {
            Some(i) => Ok(Change::at(i, value)),
            None => match value {
                Some(inner) => Ok(Change::Add(key.into_owned()?, inner)),
                None => Ok(Change::Stay),
            },
        }
    }

    /// The change that a call's effect on the key makes, with the value that the call brings.
    pub(crate) fn by(
        key: KeyArg<'_, K>,
        found: Option<usize>,
        effect: Effect<V>,
        value: Option<V>,
    ) -> Result<Change<K, V>, AllocError>
        ensures change { IfOk result
            (λ change. change ≡ change_by found (key_in key.entry) effect value) }
        ensures succeeds { K.is_infallible (key_in key.entry) → IsOk result }
    {
        match effect {
            Effect::Keep => Ok(Change::Stay),
            Effect::Give => Change::given(key, found, value),
            Effect::Set(made) => Change::given(key, found, made),
        }
    }
}

impl<K: Drop, V: Drop> Change<K, V> {
    /// Makes the change. It gives back the value that it takes away.
    #[inline(always)]
    pub(crate) fn carry_out<A: Allocator>(self, entries: &mut Vec<(K, V), A>) -> Option<V>
        requires index { HasIndex entries.old.items self }
        requires room { Fits (vec_capacity entries.old - vec_len entries.old) self }
        ensures taken { result ≡ taken_from entries.old.items self }
        ensures items { entries.new.items ≡ entries_after entries.old.items self }
        ensures len { vec_len entries.new ≤ vec_len entries.old + 1 }
        ensures capacity { vec_capacity entries.new ≡ vec_capacity entries.old }
    {
        match self {
            Change::Stay => None,
            Change::Assign(i, value) => Some(replace(&mut entries[i].1, value)),
            Change::Add(key, value) => {
                entries.push_reserved((key, value));
                None
            }
            Change::Take(i) => {
                let (_key, value) = entries.remove(i);
                Some(value)
            }
        }
    }
}
