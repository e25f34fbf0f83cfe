//! One bin.
ghost use Rattle.std.specs.Prelude.{◌≡◌};

use crate::call::{Call, Remap, Reply, Value};
use crate::change::find;
use crate::log::Log;
use crate::op::Op;
use crate::posting::Posting;
use crate::ready::{Ready, work_out};
use crate::record::Record;
use crate::room::make_room_for;
use bin_entries::{KeyArg, copy_of_entries, part_of_entries};
use hashkeys::{AsKey, Class, HashKey, Salt};
use std::alloc::{AllocError, Allocator};
use std::marker::Model;

/// A bin stores no more records than this. Where a call would add one more, the oldest half is
/// first folded into the base.
pub const MOST_RECORDS: usize = 1024;

/// A bin that keeps records: the entries of a class in order of insertion, and the records of the
/// calls that made them from a base. Contracts see it as a `BinView` of the recorded form; whatever
/// they see is lawful (`RecordedBin::lawful`).
#[derive(Drop)]
pub struct RecordedBin<K: HashKey, V: Value, F: Remap<K, V>, A: Allocator> {
    entries: Vec<(K, V), A>,
    salt: Salt,
    class: Class,
    log: Log<K, V, F, A>,
}

impl<K: HashKey, V: Value, F: Remap<K, V>, A: Allocator> Model for RecordedBin<K, V, F, A> {
    ghost use Rattle.std.specs.Prelude.{◌-◌, vec_len, vec_capacity};
    ghost use Rattle.bin_history.specs.Lawful.{BinView, IsReplayed};
    ghost use Rattle.bin_history.specs.Calls.{after};
    ghost use Rattle.bin_history.specs.declared.form.Form.TheVariants.{Recorded};

    ghost Value = { BinView K V F };

    ghost view = { λ b. record {
      form = Recorded;
      salt = b.salt;
      class = b.class;
      base = b.log.base;
      records = b.log.records;
      entries = b.entries.items;
      record_room = b.log.record_room;
      entry_room = vec_capacity b.entries - vec_len b.entries;
    } };

    ghost invariant = { λ b. IsReplayed K.eq K.code (after V.eq F.remapped F.merged) b.salt b.class
        b.log.base b.log.records b.entries.items };
}

impl<K: HashKey, V: Value, F: Remap<K, V>, A: Allocator + Clone> RecordedBin<K, V, F, A> {
    ghost use Rattle.std.specs.Prelude.{[], true, Some, None, All, IfOk, IsOk, MatchOption, option_copied};
    ghost use Rattle.hashkeys.specs.Classes.{is_of};
    ghost use Rattle.bin_history.specs.Calls.{after};
    ghost use Rattle.bin_history.specs.Entries.{lookup, HasDistinctKeys, replay};
    ghost use Rattle.bin_history.specs.Lawful.{IsLawful};
    ghost use Rattle.bin_history.specs.declared.form.Form.TheVariants.{Recorded};

    /// A bin with these pairs, in their order, and no records. The pairs' keys are distinct and of
    /// the class.
    pub fn new(
        alloc: A,
        salt: Salt,
        class: Class,
        base: Vec<(K, V), A>,
    ) -> Result<RecordedBin<K, V, F, A>, AllocError>
        requires distinct { HasDistinctKeys K.eq base.items }
        requires of_class { All (λ e. is_of K.code salt class e.0 ≡ true) base.items }
        ensures form { IfOk result (λ b. b.form ≡ Recorded) }
        ensures salt { IfOk result (λ b. b.salt ≡ salt) }
        ensures class { IfOk result (λ b. b.class ≡ class) }
        ensures base { IfOk result (λ b. b.base ≡ base.items) }
        ensures records { IfOk result (λ b. b.records ≡ []) }
        ensures entries { IfOk result (λ b. b.entries ≡ base.items) }
    {
        let entries = copy_of_entries(alloc.clone()?, &base)?;
        let log = Log::new(alloc, base);
        Ok(RecordedBin {
            entries,
            salt,
            class,
            log,
        })
    }

    /// The class whose keys the bin holds.
    pub fn class(&self) -> Class
        ensures { result ≡ self.now.class }
    {
        self.class
    }

    /// The salt of the map's hashes.
    pub fn salt(&self) -> Salt
        ensures { result ≡ self.now.salt }
    {
        self.salt
    }

    /// The pairs that the records begin from.
    pub fn base(&self) -> &[(K, V)]
        ensures { result.now ≡ self.now.base }
    {
        self.log.base.as_slice()
    }

    /// The records of the calls since the base, oldest first: at most 1,024.
    pub fn records(&self) -> &[Record<K, V, F>]
        ensures { result.now ≡ self.now.records }
    {
        self.log.records.as_slice()
    }

    /// The pairs that the bin holds, in order of insertion.
    pub fn entries(&self) -> &[(K, V)]
        ensures { result.now ≡ self.now.entries }
    {
        self.entries.as_slice()
    }

    /// The value at the key that this stands for.
    pub fn get_as<Q: AsKey<K>>(&self, query: Q) -> Option<&V>
        ensures { option_copied result ≡ lookup K.eq self.now.entries (Q.stands_for query) }
    {
        match find(&self.entries, query) {
            Some(i) => Some(&self.entries[i].1),
            None => None,
        }
    }

    /// The value at a key.
    pub fn get(&self, key: &K) -> Option<&V>
        ensures { MatchOption result (lookup K.eq self.now.entries key.now ≡ None)
            (λ value. lookup K.eq self.now.entries key.now ≡ Some value.now) }
    {
        self.get_as(key)
    }

    /// A copy of the entries, in order.
    pub fn copy_entries(&self) -> Result<Vec<(K, V), A>, AllocError>
        ensures { IfOk result (λ copy. copy.items ≡ self.now.entries) }
    {
        copy_of_entries(self.entries.allocator().clone()?, &self.entries)
    }

    /// The pairs that the bin holds, in order of insertion, taken out of it. Nothing is copied.
    pub fn into_entries(self) -> Vec<(K, V), A>
    where
        K: Drop,
        V: Drop,
        F: Drop,
        ensures { result.items ≡ self.entries }
    {
        let RecordedBin { entries, .. } = self;
        entries
    }

    /// What holds of each bin. It does nothing when it runs.
    pub fn lawful(&self)
        ensures lawful { IsLawful K.eq K.code (after V.eq F.remapped F.merged) self.now }
        ensures replayed { self.now.entries ≡ replay K.eq self.now.base self.now.records }
        ensures form { self.now.form ≡ Recorded }
    {
        // read for the proof alone, which so has the invariant
        let _ = &self.entries;
    }
}

impl<K: HashKey, V: Value, F: Remap<K, V>, A: Allocator + Clone> RecordedBin<K, V, F, A> {
    ghost use Rattle.std.specs.Prelude.{true, ◌+◌, ◌<◌, ◌^◌, ◌++◌, ◌∷◌, [], length, IfOk, IsOk, OnOk};
    ghost use Rattle.std.specs.Prelude.{OnErr};
    ghost use Rattle.hashkeys.specs.Classes.{is_of};
    ghost use Rattle.bin_history.specs.Calls.{after, key_of, reply};
    ghost use Rattle.bin_history.specs.Entries.{store};
    ghost use Rattle.bin_history.specs.Histories.{GoesOn};
    ghost use Rattle.bin_history.specs.Limits.{most_lean_clients};
    ghost use Rattle.bin_history.specs.Ops.{call_on, key_in};
    ghost use Rattle.bin_history.specs.Readiness.{IsPrepared, KeepsOrFolds, record_of};
    ghost use Rattle.bin_history.specs.Sure.{IsSure, op_of};

    /// Prepares a call on a key of the bin's class: makes all growths, asks the call's function,
    /// makes all copies, and works out what the call does and replies, so that `apply` cannot fail.
    /// The entries stay; base and records stay too, but where there are 1,024 records the oldest
    /// 512 are folded into the base. For want of memory the call is dropped, and nothing else
    /// changes. Room for an entry is made only for a call that may add one, on a key that is not
    /// there. Where clones never fail, the call asks no function and there is room in hand, it is
    /// not refused.
    pub fn prepare<'a>(&'a mut self, call: Call<K, V, F>) -> Result<Ready<K, V, F>, AllocError>
        requires of_class { is_of K.code self.old.salt self.old.class (key_of call) ≡ true }
        ensures ready { IfOk result
            (λ r. IsPrepared K.eq K.code V.eq F.remapped F.merged r self.new) }
        ensures call { IfOk result (λ r. r.call ≡ call) }
        ensures succeeds { IsSure K.eq K.is_infallible V.is_infallible self.old (key_of call)
            (op_of call) → IsOk result }
        ensures ok { OnOk result (KeepsOrFolds K.eq self.old self.new) }
        ensures records { OnErr result (self.new.records ≡ self.old.records) }
        ensures base { OnErr result (self.new.base ≡ self.old.base) }
        ensures entries { self.new.entries ≡ self.old.entries }
        ensures form { self.new.form ≡ self.old.form }
        ensures class { self.new.class ≡ self.old.class }
        ensures salt { self.new.salt ≡ self.old.salt }
    {
        let (key, op) = call.into_parts();
        let key: KeyArg<'a, K> = KeyArg::Owned(key);
        self.prepare_on(key, op)
    }

    /// Prepares a call, as `prepare` does, whose key is given beside it, owned or borrowed. A
    /// borrowed key is copied where an entry is made of it, and for the record.
    pub fn prepare_on(
        &mut self,
        key: KeyArg<'_, K>,
        op: Op<V, F>,
    ) -> Result<Ready<K, V, F>, AllocError>
        requires of_class { is_of K.code self.old.salt self.old.class (key_in key) ≡ true }
        ensures ready { IfOk result
            (λ r. IsPrepared K.eq K.code V.eq F.remapped F.merged r self.new) }
        ensures call { IfOk result (λ r. r.call ≡ call_on (key_in key.entry) op) }
        ensures succeeds { IsSure K.eq K.is_infallible V.is_infallible self.old
            (key_in key.entry) op → IsOk result }
        ensures ok { OnOk result (KeepsOrFolds K.eq self.old self.new) }
        ensures records { OnErr result (self.new.records ≡ self.old.records) }
        ensures base { OnErr result (self.new.base ≡ self.old.base) }
        ensures entries { self.new.entries ≡ self.old.entries }
        ensures form { self.new.form ≡ self.old.form }
        ensures class { self.new.class ≡ self.old.class }
        ensures salt { self.new.salt ≡ self.old.salt }
    {
        // All memory is asked for here, so that a call that fails has changed nothing.
        let found = find(&self.entries, key.get());
        make_room_for(&mut self.entries, found, &op)?;
        self.log.reserve()?;
        let ready = work_out(&self.entries, found, key, op)?;
        self.log.fold();
        Ok(ready)
    }

    /// Makes a call that was prepared on this bin, since when nothing was applied, as the call of
    /// this client, below 65,536, after so many others of it, fewer than 2^48. It returns the reply
    /// and what the books need, and keeps the record. It takes no memory: what it keeps goes into the
    /// room that there is.
    pub fn apply(
        &mut self,
        ready: Ready<K, V, F>,
        client: u32,
        ordinal: u64,
    ) -> (Reply<V>, Posting<K, V, F>)
        requires prepared { IsPrepared K.eq K.code V.eq F.remapped F.merged ready self.old }
        requires client { client < most_lean_clients }
        requires ordinal { ordinal < 2 ^ 48 }
        ensures reply { result.0 ≡ reply V.eq ready.call ready.before ready.after }
        ensures trace { result.1 ≡ record_of client ordinal ready }
        ensures entries { self.new.entries ≡ store K.eq self.old.entries
            (key_of ready.call) ready.after }
        ensures records { self.new.records ≡ self.old.records ++ record_of client ordinal ready ∷ [] }
        ensures base { self.new.base ≡ self.old.base }
        ensures record_room { self.new.record_room + 1 ≡ self.old.record_room }
        ensures entry_room { length self.new.entries + self.new.entry_room
            ≡ length self.old.entries + self.old.entry_room }
        ensures history { GoesOn K.eq (after V.eq F.remapped F.merged) self.old
            (record_of client ordinal ready ∷ []) self.new }
        ensures form { self.new.form ≡ self.old.form }
        ensures class { self.new.class ≡ self.old.class }
        ensures salt { self.new.salt ≡ self.old.salt }
    {
        let Ready {
            seen,
            answer,
            change,
            kept,
        } = ready;
        let taken = change.carry_out(&mut self.entries);
        self.log.add(client, ordinal, kept);
        (answer.reply(taken), Posting::seen(client, ordinal, seen))
    }
}

impl<K: HashKey, V: Value, F: Remap<K, V>, A: Allocator + Clone> RecordedBin<K, V, F, A> {
    ghost use Rattle.std.specs.Prelude.{◌<◌, IfOk};
    ghost use Rattle.hashkeys.specs.Classes.{low_half, high_half};
    ghost use Rattle.hashkeys.specs.Limits.{most_bins};
    ghost use Rattle.bin_history.specs.BinPart.{IsPartOf};

    /// The part of the bin in a half of its class.
    fn part(&self, half: Class) -> Result<RecordedBin<K, V, F, A>, AllocError>
        ensures class { IfOk result (λ b. b.class ≡ half) }
        ensures part { IfOk result (λ b. IsPartOf K.code self.now b) }
    {
        let alloc = self.entries.allocator();
        let entries = part_of_entries(alloc.clone()?, self.salt, half, &self.entries)?;
        let log = self.log.part(self.salt, half)?;
        Ok(RecordedBin {
            entries,
            salt: self.salt,
            class: half,
            log,
        })
    }

    /// The bins of the low and the high half of the class, each with its part of base, records and
    /// entries, in order. They are copies; the bin itself stays.
    pub fn split(&self) -> Result<(RecordedBin<K, V, F, A>, RecordedBin<K, V, F, A>), AllocError>
        requires size { self.now.class.n < most_bins }
        ensures low_class { IfOk result (λ b. b.0.class ≡ low_half self.now.class) }
        ensures high_class { IfOk result (λ b. b.1.class ≡ high_half self.now.class) }
        ensures low { IfOk result (λ b. IsPartOf K.code self.now b.0) }
        ensures high { IfOk result (λ b. IsPartOf K.code self.now b.1) }
    {
        let (low, high) = self.class.halves();
        let first = self.part(low)?;
        let second = self.part(high)?;
        Ok((first, second))
    }
}
