//! Bins that keep their entries alone.
ghost use Rattle.std.specs.Prelude.{◌≡◌, ◌+◌, ◌≤◌, ◌++◌, length, vec_len, vec_capacity, ◌<◌, IfOk, IsOk, OnErr};
ghost use Rattle.std.specs.Prelude.{option_copied, true};
ghost use Rattle.hashkeys.specs.Classes.{is_of, low_half, high_half};
ghost use Rattle.hashkeys.specs.Limits.{most_bins};
ghost use Rattle.bin_entries.specs.Chains.{entries_of};
ghost use Rattle.bin_history.specs.Entries.{lookup};
ghost use Rattle.bin_history.specs.Hashes.{hash_by};
ghost use Rattle.bin_history.specs.Leans.{IsLeanChain, as_bin};
ghost use Rattle.bin_history.specs.Sure.{IsSure};
ghost use Rattle.bin_history.specs.Lawful.{IsLawful};
ghost use Rattle.bin_history.specs.Made.{IsMadeOn};
ghost use Rattle.bin_history.specs.Ops.{call_on, key_in};
ghost use Rattle.bin_history.specs.Part.{part_of_entries};

use crate::call::{Remap, Reply, Value};
use crate::lean_calls::lawful_entries;
use crate::op::Op;
use crate::posting::Posting;
use bin_entries::{Chain, KeyArg, LeanEntries, Walk};
use hashkeys::{AsKey, Class, Exact, HashKey, Salt};
use std::alloc::{AllocError, Allocator};
use std::marker::Model;

/// A bin that keeps its entries alone, in order of insertion. Contracts see it as a `LeanView`.
#[derive(Drop)]
pub struct LeanBin<K: HashKey, V, A: Allocator> {
    entries: LeanEntries<K, V, A>,
    salt: Salt,
    class: Class,
}

impl<K: HashKey, V, A: Allocator> Model for LeanBin<K, V, A> {
    ghost use Rattle.std.specs.Prelude.{◌≡◌};
    ghost use Rattle.bin_history.specs.Leans.{LeanView};

    ghost Value = { LeanView K V };

    ghost view = { λ l. l.entries };

    ghost invariant = { λ l. (l.entries.salt ≡ l.salt) × (l.entries.class ≡ l.class) };
}

impl<K: HashKey, V, A: Allocator> LeanBin<K, V, A> {
    /// A bin of these entries, of their salt and class.
    pub fn of_entries(salt: Salt, class: Class, entries: LeanEntries<K, V, A>) -> LeanBin<K, V, A>
        requires salt { salt ≡ entries.salt }
        requires class { class ≡ entries.class }
        ensures { result ≡ entries }
    {
        LeanBin {
            entries,
            salt,
            class,
        }
    }

    /// The entries of the bin.
    pub fn into_entries(self) -> LeanEntries<K, V, A>
        ensures { result ≡ self }
    {
        self.entries
    }

    /// A bin of this chain.
    pub fn of_chain(salt: Salt, class: Class, chain: Chain<K, V, A>) -> LeanBin<K, V, A>
        requires { IsLeanChain K.eq K.code salt class chain }
        ensures { result ≡ record { salt = salt; class = class; entries = entries_of chain } }
    {
        LeanBin {
            entries: LeanEntries::of_chain(salt, class, chain),
            salt,
            class,
        }
    }

    /// The class whose keys the bin holds.
    pub fn class(&self) -> Class
        ensures { result ≡ self.now.class }
    {
        self.class
    }

    /// The salt of the map's hashes.
    pub fn salt(&self) -> Salt
        ensures { result ≡ self.now.salt }
    {
        self.salt
    }

    /// The value at the key that this stands for, which is of this hash.
    pub fn get_as<Q: AsKey<K>>(&self, hash: u32, query: Q) -> Option<&V>
        requires hash { hash ≡ hash_by K.code self.now.salt (Q.stands_for query) }
        ensures { option_copied result ≡ lookup K.eq self.now.entries (Q.stands_for query) }
    {
        self.entries.get_as(hash, query)
    }
}

impl<K: HashKey, V: Eq, A: Allocator> LeanBin<K, V, A> {
    ghost use Rattle.bin_history.specs.Calls.{after};

    /// What holds of each lean bin. It does nothing when it runs.
    pub fn lawful<F: Remap<K, V>>(&self)
        ensures { IsLawful K.eq K.code (after V.eq F.remapped F.merged) (as_bin self.now) }
    {
        lawful_entries::<K, V, F, A>(&self.entries);
    }
}

impl<K: HashKey, V, A: Allocator> LeanBin<K, V, A> {
    /// The entries, in order.
    pub fn walk(&self) -> Walk<'_, K, V, A>
        ensures { result ≡ self.now.entries }
    {
        self.entries.walk()
    }
}

impl<K: HashKey, V: Exact + Drop, A: Allocator> LeanBin<K, V, A> {
    /// Copies of the entries, in order.
    pub fn copies(&self, alloc: A) -> Result<Vec<(K, V), A>, AllocError>
        ensures { IfOk result (λ list. list.items ≡ self.now.entries) }
    {
        self.entries.copies(alloc)
    }
}

impl<K: HashKey, V: Drop, A: Allocator> LeanBin<K, V, A> {
    /// Moves the entries, in order, into a list that has room for them.
    pub fn pour(self, list: Vec<(K, V), A>) -> Vec<(K, V), A>
        requires room { vec_len list + length self.entries ≤ vec_capacity list }
        ensures items { result.items ≡ list.items ++ self.entries }
        ensures capacity { vec_capacity result ≡ vec_capacity list }
    {
        self.entries.pour(list)
    }
}

impl<K: HashKey, V: Value, A: Allocator + Clone> LeanBin<K, V, A> {
    /// Makes a call on a key of this hash, as the call of this client, after so many others of it.
    /// Returns the reply and what the books need. Out of memory, the call is dropped, and nothing is
    /// changed.
    #[cold]
    #[inline(never)]
    pub fn make_on<F: Remap<K, V>>(
        &mut self,
        alloc: &A,
        hash: u32,
        key: KeyArg<'_, K>,
        op: Op<V, F>,
        client: u32,
        ordinal: u64,
    ) -> Result<(Reply<V>, Posting<K, V, F>), AllocError>
        requires hash { hash ≡ hash_by K.code self.old.salt (key_in key) }
        requires of_class { is_of K.code self.old.salt self.old.class (key_in key) ≡ true }
        ensures made { IfOk result
            (λ r. IsMadeOn K.eq V.eq F.remapped F.merged client ordinal
            (call_on (key_in key.entry) op) (as_bin self.old) (as_bin self.new) r.0 r.1) }
        ensures succeeds { IsSure K.eq K.is_infallible V.is_infallible (as_bin self.old)
            (key_in key.entry) op → IsOk result }
        ensures refused { OnErr result (self.new.entries ≡ self.old.entries) }
        ensures class { self.new.class ≡ self.old.class }
        ensures salt { self.new.salt ≡ self.old.salt }
    {
        op.make_on(&mut self.entries, alloc, hash, key, client, ordinal)
    }

    /// The bins of the low and the high half of the class, each with its part of the entries, in
    /// order. It takes no memory.
    pub fn split(self) -> (LeanBin<K, V, A>, LeanBin<K, V, A>)
        requires size { self.class.n < most_bins }
        ensures low_class { result.0.class ≡ low_half self.class }
        ensures high_class { result.1.class ≡ high_half self.class }
        ensures low_salt { result.0.salt ≡ self.salt }
        ensures high_salt { result.1.salt ≡ self.salt }
        ensures low { result.0.entries ≡ part_of_entries (is_of K.code self.salt result.0.class)
            self.entries }
        ensures high { result.1.entries ≡ part_of_entries (is_of K.code self.salt result.1.class)
            self.entries }
    {
        let (low, high) = self.class.halves();
        let salt = self.salt;
        let (first, second) = self.entries.into_chain().split(low);
        (
            LeanBin::of_chain(salt, low, first),
            LeanBin::of_chain(salt, high, second),
        )
    }
}
