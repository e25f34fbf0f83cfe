//! What a recorded bin stores beside its entries.
ghost use Rattle.std.specs.Prelude.{◌≡◌, ◌+◌, ◌<◌, ◌≤◌, ◌^◌, ◌++◌, ◌∷◌, [], length, IfOk, IsOk};
ghost use Rattle.std.specs.Prelude.{OnOk};
ghost use Rattle.hashkeys.specs.Classes.{is_of};
ghost use Rattle.bin_history.specs.Limits.{most_lean_clients, most_records};
ghost use Rattle.bin_history.specs.Logs.{AreCallsOn, CanFold, IsKeptOrFolded};
ghost use Rattle.bin_history.specs.Part.{part_of_entries, part_of_records};

use crate::fold::{births_in_front, fold_front};
use crate::ready::Kept;
use crate::record::Record;
use crate::recorded::MOST_RECORDS;
use crate::room::make_room_in;
use crate::split::part_of_records;
use bin_entries::part_of_entries;
use hashkeys::{Class, Exact, HashKey, Salt};
use std::alloc::{AllocError, Allocator};
use std::marker::Model;

/// The pairs that the records begin from, and the records, oldest first. Contracts see a `LogView`.
#[derive(Drop)]
pub(crate) struct Log<K, V, F, A: Allocator> {
    pub(crate) base: Vec<(K, V), A>,
    pub(crate) records: Vec<Record<K, V, F>, A>,
}

impl<K, V, F, A: Allocator> Model for Log<K, V, F, A> {
    ghost use Rattle.std.specs.Prelude.{◌-◌, vec_len, vec_capacity};
    ghost use Rattle.bin_history.specs.Logs.{LogView};

    ghost Value = { LogView K V F };

    ghost view = { λ l. record {
      base = l.base.items;
      records = l.records.items;
      base_room = vec_capacity l.base - vec_len l.base;
      record_room = vec_capacity l.records - vec_len l.records;
    } };
}

impl<K, V, F, A: Allocator> Log<K, V, F, A> {
    /// A log of no records over this base.
    pub(crate) fn new(alloc: A, base: Vec<(K, V), A>) -> Log<K, V, F, A>
        ensures base { result.base ≡ base.items }
        ensures records { result.records ≡ [] }
    {
        Log {
            base,
            records: Vec::new(alloc),
        }
    }
}

impl<K: HashKey, V: Exact, F: Exact, A: Allocator + Clone> Log<K, V, F, A> {
    /// The part of the log in a class.
    pub(crate) fn part(&self, salt: Salt, class: Class) -> Result<Log<K, V, F, A>, AllocError>
        ensures base { IfOk result
            (λ l. l.base ≡ part_of_entries (is_of K.code salt class) self.now.base) }
        ensures records { IfOk result
            (λ l. l.records ≡ part_of_records (is_of K.code salt class) self.now.records) }
    {
        let alloc = self.base.allocator();
        let base = part_of_entries(alloc.clone()?, salt, class, &self.base)?;
        let records = part_of_records(alloc.clone()?, salt, class, &self.records)?;
        Ok(Log { base, records })
    }
}

impl<K: Drop, V: Drop, F: Drop, A: Allocator + Clone> Log<K, V, F, A> {
    /// Makes room for one more record or, where there are 1,024, in the base for the keys that the
    /// oldest 512 of them made present.
    pub(crate) fn reserve(&mut self) -> Result<(), AllocError>
        requires few { length self.old.records ≤ most_records }
        ensures room { OnOk result (CanFold self.new) }
        ensures succeeds { length self.old.records < most_records → 0 < self.old.record_room →
            IsOk result }
        ensures base { self.new.base ≡ self.old.base }
        ensures records { self.new.records ≡ self.old.records }
    {
        if self.records.len() == MOST_RECORDS {
            self.base.reserve(births_in_front(&self.records))
        } else {
            make_room_in(&mut self.records)
        }
    }
}

impl<K: HashKey, V: Drop, F: Drop, A: Allocator> Log<K, V, F, A> {
    /// Folds the oldest 512 of 1,024 records into the base. It changes nothing where there are
    /// fewer.
    pub(crate) fn fold(&mut self)
        requires room { CanFold self.old }
        requires calls { AreCallsOn K.eq self.old.base self.old.records }
        requires few { length self.old.records ≤ most_records }
        ensures kept { IsKeptOrFolded K.eq self.old.base self.old.records self.new.base
            self.new.records }
        ensures room { 0 < self.new.record_room }
        ensures fewer { length self.new.records < most_records }
    {
        // half of them at once, so that one call in 512 pays for it
        if self.records.len() == MOST_RECORDS {
            fold_front(&mut self.base, &mut self.records);
        }
    }
}

impl<K: Drop, V: Drop, F: Drop, A: Allocator> Log<K, V, F, A> {
    /// Puts the record of a call into the room that there is for it.
    pub(crate) fn add(&mut self, client: u32, ordinal: u64, kept: Kept<K, V, F>)
        requires client { client < most_lean_clients }
        requires ordinal { ordinal < 2 ^ 48 }
        requires room { 0 < self.old.record_room }
        ensures base { self.new.base ≡ self.old.base }
        ensures records { self.new.records ≡ self.old.records ++ record {
          client = client;
          ordinal = ordinal;
          call = kept.call;
          before = kept.before;
          after = kept.after;
        } ∷ [] }
        ensures less_room { self.new.record_room + 1 ≡ self.old.record_room }
    {
        let Kept {
            call,
            before,
            after,
        } = kept;
        let entry = Record::new(client, ordinal, call, before, after);
        self.records.push_reserved(entry);
    }
}
