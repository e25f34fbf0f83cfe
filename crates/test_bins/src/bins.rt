//! Recorded bins at the program's keys.
use crate::asserts::{assert_same, key};
use crate::rows::{LEFT, Makes, Pairs, Sums, listed, make_lines, make_often, pairs, sixteenth};
use bin_history::{Call, Record, RecordedBin, Reply, Walk};
use hashkeys::{Class, Key, Salt};
use std::alloc::Global;
use std::process::Abort;
use test_helpers::Plus;

pub(crate) type KeyBin = RecordedBin<Key, u64, Plus, Global>;

/// A bin without entries, which has every key.
pub(crate) fn empty(rt: &impl Abort, alloc: Global) -> KeyBin {
    RecordedBin::new(alloc, Salt(0), Class::new(1, 0), Vec::new(alloc)).expect(rt, "memory")
}

/// The delta of a bin's newest record, which is client 7's of this ordinal.
fn newest_delta(rt: &impl Abort, bin: &KeyBin, ordinal: u64) -> i64 {
    let last = bin.records().last().expect(rt, "a record");
    assert_same(rt, &(last.client(), last.ordinal()), &(7, ordinal));
    last.delta()
}

impl Makes for RecordedBin<Key, u64, Plus, Global> {
    fn make<R: Abort>(
        &mut self,
        rt: &R,
        call: Call<Key, u64, Plus>,
        ordinal: u64,
    ) -> (Reply<u64>, i64) {
        let (salt, class) = (self.salt(), self.class());
        assert!(rt; class.covers(salt.hash_of(call.key())) && ordinal < 1 << 48);
        let ready = self.prepare(call).expect(rt, "memory");
        let reply = self.apply(ready, 7, ordinal).0;
        (reply, newest_delta(rt, self, ordinal))
    }
}

/// The pairs of a list.
fn pairs_in(list: &[(Key, u64)]) -> Pairs {
    let walk: Walk<'_, Key, u64, Global> = Walk::of_list(list);
    pairs(&Sums, walk)
}

/// What a bin stores: its base, its entries, and how many records.
fn stored(bin: &KeyBin) -> (Pairs, Pairs, usize) {
    (
        pairs_in(bin.base()),
        pairs_in(bin.entries()),
        bin.records().len(),
    )
}

#[test]
fn each_call_replies_and_leaves_what_its_row_says(rt: HostRuntime) {
    let mut bin = empty(&rt, rt.alloc());
    make_lines(&rt, &mut bin);
    assert_same(&rt, &stored(&bin), &(listed(&[]), listed(&LEFT), 36));
}

/// The byte of a key, a call on it, and how often it is made.
const FOLDED: [(u8, &str, u32); 5] = [
    (b'q', "put 1", 1),
    (b'a', "put 2", 1),
    (b'a', "get", 1021),
    (b'q', "remove", 1),
    (b'q', "put 3", 1),
];

/// A bin of class (16, 1) after 1,025 calls on two keys: both are put, one is taken away and put
/// again.
fn folded(rt: &impl Abort, alloc: Global) -> KeyBin {
    let mut bin = RecordedBin::new(alloc, Salt(0), sixteenth(), Vec::new(alloc)).expect(
        rt, "memory",
    );
    make_often(rt, &mut bin, &FOLDED);
    bin
}

/// What the halves of a bin store.
fn halves(rt: &impl Abort, bin: &KeyBin) -> [(Pairs, Pairs, usize); 2] {
    assert!(rt; bin.class().n() < 65536);
    let (low, high) = bin.split().expect(rt, "memory");
    [stored(&low), stored(&high)]
}

/// The value at the key of one byte.
fn value_at(rt: &impl Abort, bin: &KeyBin, byte: u8) -> Option<u64> {
    bin.get(&key(rt, &[byte])).copied()
}

/// The entries of a copy.
fn copied(rt: &impl Abort, bin: &KeyBin) -> Pairs {
    pairs_in(&bin.copy_entries().expect(rt, "memory"))
}

#[test]
fn the_oldest_records_are_folded(rt: HostRuntime) {
    let bin = folded(&rt, rt.alloc());
    let (base, entries) = (
        listed(&[(b'q', 1), (b'a', 2)]),
        listed(&[(b'a', 2), (b'q', 3)]),
    );
    assert_same(&rt, &stored(&bin), &(base, entries, 513));
    assert_same(&rt, &copied(&rt, &bin), &entries);
    let values = [value_at(&rt, &bin, b'q'), value_at(&rt, &bin, b'A')];
    assert_same(&rt, &values, &[Some(3), None]);
    let low = (listed(&[(b'a', 2)]), listed(&[(b'a', 2)]), 511);
    let high = (listed(&[(b'q', 1)]), listed(&[(b'q', 3)]), 2);
    assert_same(&rt, &halves(&rt, &bin), &[low, high]);
}

/// After so many calls that each add 1 to one value, how many records a bin stores, and its base.
const STORED: [(u32, usize, &[(u8, u64)]); 7] = [
    (512, 512, &[]),
    (1024, 1024, &[]),
    (1025, 513, &[(b'a', 512)]),
    (1536, 1024, &[(b'a', 512)]),
    (1537, 513, &[(b'a', 1024)]),
    (2000, 976, &[(b'a', 1024)]),
    (1_000_000, 576, &[(b'a', 999_424)]),
];

#[test]
fn a_bin_stores_few_records(rt: HostRuntime) {
    let mut bin = empty(&rt, rt.alloc());
    let mut calls = 0u32;
    for (wanted, records, base) in &STORED {
        let more = wanted.saturating_sub(calls);
        make_often(&rt, &mut bin, &[(b'a', "merge 1 +0", more)]);
        calls = *wanted;
        let entries = listed(&[(b'a', u64::from(calls))]);
        assert_same(&rt, &stored(&bin), &(listed(base), entries, *records));
    }
}

/// The values before a call and after it, and how many keys more there are.
const CHANGES: [(Option<u64>, Option<u64>, i64); 4] = [
    (None, None, 0),
    (None, Some(1), 1),
    (Some(1), None, -1),
    (Some(1), Some(2), 0),
];

/// A record of a get of `a`.
fn record_of(
    rt: &impl Abort,
    client: u32,
    ordinal: u64,
    before: Option<u64>,
    after: Option<u64>,
) -> Record<Key, u64, Plus> {
    assert!(rt; client < 65_536 && ordinal < 1 << 48);
    Record::new(client, ordinal, Call::Get(key(rt, b"a")), before, after)
}

#[test]
fn a_record_tells_its_call_and_both_values(rt: HostRuntime) {
    for change in &CHANGES {
        let own = record_of(&rt, 3, 5, change.0, change.1);
        assert!(rt; own.call().key().bytes() == b"a".as_slice());
        assert_same(&rt, &(own.client(), own.ordinal()), &(3, 5));
        let found = (own.before().copied(), own.after().copied(), own.delta());
        assert_same(&rt, &found, change);
    }
}

/// Clients and ordinals.
const CALLERS: [(u32, u64); 5] = [
    (0, 0),
    (65_535, 0),
    (64, 1),
    (0, 281_474_976_710_655),
    (65_535, 281_474_976_710_655),
];

#[test]
fn a_record_has_any_client_below_65536_and_any_ordinal_below_2_to_48(rt: HostRuntime) {
    for caller in &CALLERS {
        let own = record_of(&rt, caller.0, caller.1, None, None);
        assert_same(&rt, &(own.client(), own.ordinal()), caller);
    }
}
