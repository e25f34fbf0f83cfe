//! What lines of a script find in a closed map.
use crate::lines::{
    DONE, Found, Words, cut, form_word, number, small, told, truth, wanted_of, words_of,
};
use crate::maps::{KeyQuiet, assert_entries, assert_pairs, assert_same, numbered, of_one_hash};
use bin_history::Call;
use hashkeys::Key;
use std::alloc::Allocator;
use std::process::Abort;
use test_helpers::Plus;

/// Asserts for each line that what it says is found.
pub(crate) fn look_at<A: Allocator + Clone>(
    rt: &impl Abort,
    closed: &KeyQuiet<A>,
    (lines, row): (&str, &str),
    refused: bool,
) {
    for line in lines.lines() {
        let words = words_of(rt, cut(line, "=").0, row);
        let found = look(rt, closed, &words);
        let wanted = wanted_of(rt, line, row, refused);
        assert_same(rt, &(line, row, found), &(line, row, wanted));
    }
}

/// What the closed map tells of itself.
fn look<A: Allocator + Clone>(
    rt: &impl Abort,
    closed: &KeyQuiet<A>,
    words: &Words<'_>,
) -> Found<'static> {
    match words[0] {
        "" => DONE,
        "form" => form_word(closed.form()),
        "salt" => told(u64::from(closed.salt().0)),
        "bins" => told(closed.bins().len() as u64),
        "more_bins" => truth(closed.bins().len() as u64 > number(rt, words[1])),
        "keys" => told(closed.mapping_count()),
        "records" => told(records_of(closed)),
        _ => look_into(rt, closed, words),
    }
}

/// What entries and records it has.
fn look_into<A: Allocator + Clone>(
    rt: &impl Abort,
    closed: &KeyQuiet<A>,
    words: &Words<'_>,
) -> Found<'static> {
    match words[0] {
        // these and no others but those at numbered keys
        "pairs" => {
            assert_entries(rt, closed.entries(), &words[1..]);
            DONE
        }
        "entries" => told(entries_of(closed)),
        "sum" => told(sum_of(closed)),
        "numbers" => told(numbers_of(rt, closed)),
        "twins" => told(twins_of(rt, closed, number(rt, words[1]) as usize)),
        "full_bins" => told(full_bins(closed)),
        "others" => told(others(rt, closed, small(rt, words[1]))),
        // the records of the recorded bin of slot 1, over these pairs
        "slot_1" => told(slot_1(rt, closed, &words[1..])),
        "record" => record(rt, closed, number(rt, words[1]) as usize),
        _ => {
            assert!(rt; false, "a line of a closed map");
            DONE
        }
    }
}

/// How many records the bins have in all.
fn records_of<A: Allocator + Clone>(closed: &KeyQuiet<A>) -> u64 {
    let mut total = 0u64;
    for bin in closed.bins() {
        if let Some(recorded) = bin.recorded() {
            total = total.saturating_add(recorded.records().len() as u64);
        }
    }
    total
}

/// How many entries there are.
fn entries_of<A: Allocator + Clone>(closed: &KeyQuiet<A>) -> u64 {
    let mut count = 0u64;
    for _entry in closed.entries() {
        count = count.saturating_add(1);
    }
    count
}

/// The sum of the values.
fn sum_of<A: Allocator + Clone>(closed: &KeyQuiet<A>) -> u64 {
    let mut sum = 0u64;
    for (_key, value) in closed {
        sum = sum.wrapping_add(*value);
    }
    sum
}

/// How many entries there are, each at the key of the number that is its value.
pub(crate) fn numbers_of<A: Allocator + Clone>(rt: &impl Abort, closed: &KeyQuiet<A>) -> u64 {
    let mut count = 0u64;
    for (key, value) in closed.entries() {
        assert!(rt; *value <= u64::from(u32::MAX));
        assert!(rt; *key == numbered(rt, *value as u32));
        assert!(rt; *value < closed.mapping_count());
        count = count.saturating_add(1);
    }
    count
}

/// How many entries there are, each at the key of one hash of its number, which is its value, from 0 on.
fn twins_of<A: Allocator + Clone>(rt: &impl Abort, closed: &KeyQuiet<A>, blocks: usize) -> u64 {
    let mut next = 0u32;
    for (key, value) in closed.entries() {
        assert!(rt; *key == of_one_hash(rt, blocks, next));
        assert_same(rt, value, &u64::from(next));
        next = next.saturating_add(1);
    }
    u64::from(next)
}

/// How many bins have an entry.
fn full_bins<A: Allocator + Clone>(closed: &KeyQuiet<A>) -> u64 {
    let mut full = 0u64;
    for bin in closed.bins() {
        if bin.first().is_some() {
            full = full.saturating_add(1);
        }
    }
    full
}

/// How many entries are of other buckets than the first of so many.
fn others<A: Allocator + Clone>(rt: &impl Abort, closed: &KeyQuiet<A>, n: u32) -> u64 {
    assert!(rt; n > 0);
    let mut others = 0u64;
    for (key, _value) in closed.entries() {
        if closed.salt().hash_of(key) % n != 0 {
            others = others.saturating_add(1);
        }
    }
    others
}

/// How many records the recorded bin of slot 1 has, which are over these pairs.
fn slot_1<A: Allocator + Clone>(rt: &impl Abort, closed: &KeyQuiet<A>, base: &[&str]) -> u64 {
    let bin = closed.bins().get(1).expect(rt, "a bin of slot 1");
    let bin = bin.recorded().expect(rt, "records");
    assert_pairs(rt, bin.base(), base);
    bin.records().len() as u64
}

/// The call of the record of slot 1 of this place, and the value that it brings; in a lean map there is
/// none.
fn record<A: Allocator + Clone>(
    rt: &impl Abort,
    closed: &KeyQuiet<A>,
    place: usize,
) -> Found<'static> {
    let bin = closed.bins().get(1).expect(rt, "a bin of slot 1");
    match bin.recorded() {
        Some(recorded) => {
            let record = recorded.records().get(place).expect(rt, "a record");
            called(record.call())
        }
        None => ("lean", [0; 3]),
    }
}

/// The name of a call, and the value that it brings.
fn called(call: &Call<Key, u64, Plus>) -> Found<'static> {
    match call {
        Call::Contains(_) => ("contains", [0; 3]),
        Call::Put(_, value) => ("put", [*value, 0, 0]),
        Call::Remove(_) => ("remove", [0; 3]),
        Call::Get(_) => ("get", [0; 3]),
        _ => ("another", [0; 3]),
    }
}
