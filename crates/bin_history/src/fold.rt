//! The oldest records folded into the base.
ghost use Rattle.std.specs.Prelude.{◌≡◌, ◌+◌, ◌<◌, ◌≤◌, true, take, drop, vec_len, vec_capacity};
ghost use Rattle.bin_history.specs.Births.{is_birth, births_in};
ghost use Rattle.bin_history.specs.Calls.{key_of};
ghost use Rattle.bin_history.specs.Entries.{lookup, store, replay};
ghost use Rattle.bin_history.specs.Limits.{folded_records};
ghost use Rattle.bin_history.specs.Logs.{AreCallsOn};

use crate::change::{Change, find};
use crate::record::Record;
use hashkeys::HashKey;
use std::alloc::Allocator;

/// How many records are folded at a time.
pub(crate) const FOLDED: usize = 512;

/// How many of the oldest records made their key present. They add no more pairs to a base.
pub(crate) fn births_in_front<K, V, F>(records: &[Record<K, V, F>]) -> usize
    ensures { result ≡ births_in (take folded_records records.now) }
{
    let oldest = records.iter().take(FOLDED);
    oldest.filter(|record| record.is_birth()).count()
}

/// Stores what the record's call left at its key.
fn store_record<K: HashKey, V: Drop, F: Drop, A: Allocator>(
    base: &mut Vec<(K, V), A>,
    entry: Record<K, V, F>,
)
    requires room { is_birth (lookup K.eq base.old.items (key_of entry.call)) entry.after ≡ true →
        vec_len base.old < vec_capacity base.old }
    ensures items { base.new.items ≡ store K.eq base.old.items (key_of entry.call) entry.after }
    ensures capacity { vec_capacity base.new ≡ vec_capacity base.old }
{
    let (call, after) = entry.into_call();
    let key = call.into_key();
    let found = find(base, &key);
    drop(Change::to(key, found, after).carry_out(base));
}

/// Folds the oldest records into the base, which has room for the keys that they made present. It
/// moves their values and copies nothing.
pub(crate) fn fold_front<K: HashKey, V: Drop, F: Drop, A: Allocator>(
    base: &mut Vec<(K, V), A>,
    records: &mut Vec<Record<K, V, F>, A>,
)
    requires enough { folded_records ≤ vec_len records.old }
    requires calls { AreCallsOn K.eq base.old.items records.old.items }
    requires room { vec_len base.old + births_in (take folded_records records.old.items)
        ≤ vec_capacity base.old }
    ensures base { base.new.items
        ≡ replay K.eq base.old.items (take folded_records records.old.items) }
    ensures records { records.new.items ≡ drop folded_records records.old.items }
    ensures capacity { vec_capacity records.old ≤ vec_capacity records.new }
{
    for record in records.drain(0..FOLDED) {
        store_record(base, record);
    }
}
