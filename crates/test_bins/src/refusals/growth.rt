//! How often the lists of a bin ask for memory as they grow.
use crate::asserts::{assert_same, key};
use crate::plain::digit;
use crate::refusals::samples::{bin_with, make, state_of};
use crate::rows::Samples;
use bin_history::{Bin, Call, Form, Remap, Value};
use hashkeys::{Class, Key};
use std::alloc::{Allocator, Global};
use std::process::Abort;
use test_helpers::Keep;
use test_support::Refusing;

/// Numbers, and functions that keep them.
#[derive(Drop)]
struct Kept;

impl Samples<u64, Keep> for Kept {
    fn value(&self, number: u64) -> u64 {
        number
    }

    fn function(&self, _number: Option<u64>) -> Keep {
        Keep
    }

    fn number(&self, value: &u64) -> u64 {
        *value
    }
}

/// The bin of all keys, without entries.
fn empty<A: Allocator + Clone>(rt: &impl Abort, alloc: &A, form: Form) -> Bin<Key, u64, Keep, A> {
    bin_with(rt, &Kept, alloc, form, Class::new(1, 0), &[])
}

/// The key of four digits.
fn numbered(rt: &impl Abort, number: u64) -> Key {
    let digits = number as usize;
    let text = [
        digit(digits / 1000),
        digit(digits / 100),
        digit(digits / 10),
        digit(digits),
    ];
    key(rt, &text)
}

/// Puts so many times, at so many keys in turn. Answers how many puts were made.
fn put_often<V: Value, F: Remap<Key, V>, A: Allocator + Clone, S: Samples<V, F>>(
    rt: &impl Abort,
    samples: &S,
    alloc: &A,
    bin: &mut Bin<Key, V, F, A>,
    times: u64,
    keys: u64,
) -> u64 {
    let mut made = 0u64;
    for time in 0..times {
        let key = numbered(rt, time % keys.max(1));
        let put = Call::Put(key, samples.value(time));
        let told = make(rt, samples, alloc, bin, put);
        made = made.wrapping_add(u64::from(told.is_some()));
    }
    made
}

/// How many entries a bin has, how many records, and how many entries its base has.
fn sizes<A: Allocator + Clone>(bin: &Bin<Key, u64, Keep, A>) -> [usize; 3] {
    let (entries, log) = state_of(&Kept, bin);
    match log {
        Some((records, base)) => [entries.0, records, base.0],
        None => [entries.0, 0, 0],
    }
}

/// Puts so many times at so many keys in turn, with the request after so many refused. Returns how many puts
/// were made, and whether the request was.
fn puts_after<A: Allocator + Clone>(
    rt: &impl Abort,
    switch: &Refusing<Global>,
    alloc: &A,
    bin: &mut Bin<Key, u64, Keep, A>,
    granted: u64,
    (times, keys): (u64, u64),
) -> (u64, bool) {
    switch.refuse_after(granted);
    let made = put_often(rt, &Kept, alloc, bin, times, keys);
    (made, switch.has_refused())
}

/// Puts so many times at so many keys in turn in a new recorded bin, with so many requests granted, which are
/// enough. Returns the bin's sizes.
fn put_in_new(rt: &impl Abort, memory: Global, granted: u64, puts: (u64, u64)) -> [usize; 3] {
    let alloc = Refusing::new(memory);
    let mut bin = empty(rt, &&alloc, Form::Recorded);
    let found = puts_after(rt, &alloc, &&alloc, &mut bin, granted, puts);
    assert_same(rt, &found, &(puts.0, false));
    sizes(&bin)
}

#[test]
fn lists_of_a_thousand_ask_few_times(rt: HostRuntime) {
    // Two lists whose room at least doubles, from room for one on, have room for 1,000 each after
    // eleven requests.
    let found = put_in_new(&rt, rt.alloc(), 22, (1000, 1000));
    assert_same(&rt, &found, &[1000, 1000, 0]);
}

#[test]
fn a_lean_bin_asks_once_for_each_new_key(rt: HostRuntime) {
    let alloc = Refusing::new(rt.alloc());
    let mut bin = empty(&rt, &&alloc, Form::Lean);
    let found = [
        puts_after(&rt, &alloc, &&alloc, &mut bin, 200, (200, 200)),
        puts_after(&rt, &alloc, &&alloc, &mut bin, 0, (200, 200)),
        puts_after(&rt, &alloc, &&alloc, &mut bin, 0, (201, 201)),
    ];
    assert_same(&rt, &found, &[(200, false), (200, false), (200, true)]);
    assert_same(&rt, &sizes(&bin), &[200, 0, 0]);
}

#[test]
fn folds_of_one_key_ask_once(rt: HostRuntime) {
    // Room for the entry, eleven times at most for 1,024 records, and once in the base, which has
    // one pair.
    let found = put_in_new(&rt, rt.alloc(), 13, (10_000, 1));
    // 10,000 calls are 513 and 18 times 512, and 271 more.
    assert_same(&rt, &found, &[1, 784, 1]);
}

#[test]
fn a_fold_asks_for_room_for_new_keys_alone(rt: HostRuntime) {
    // The first 512 of 1,024 puts at four keys made all four present. No later one makes a key
    // present, so no later fold needs room.
    let alloc = Refusing::new(rt.alloc());
    let mut bin = empty(&rt, &&alloc, Form::Recorded);
    let first = puts_after(&rt, &alloc, &&alloc, &mut bin, u64::MAX, (1025, 4));
    let before = sizes(&bin);
    let later = puts_after(&rt, &alloc, &&alloc, &mut bin, 0, (4 * 512, 4));
    assert_same(&rt, &[first, later], &[(1025, false), (2048, false)]);
    assert_same(&rt, &before, &[4, 513, 4]);
    let [entries, _, base] = sizes(&bin);
    assert_same(&rt, &[entries, base], &[4, 4]);
}
