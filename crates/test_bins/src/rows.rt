//! Calls as lines of text, and what each is to reply.
ghost use Rattle.std.specs.Prelude.{◌≡◌};

use crate::asserts::{assert_same, key};
use bin_history::{Call, Op, Remap, Reply, Value, Walk};
use hashkeys::{Class, Key};
use std::alloc::Allocator;
use std::process::Abort;
use test_helpers::Plus;

/// The names of the calls. A call's kind is the place of its name.
const NAMES: [&str; 12] = [
    "get",
    "contains",
    "put",
    "put_if_absent",
    "remove",
    "remove_if",
    "replace",
    "replace_if",
    "compute_if_absent",
    "compute_if_present",
    "compute",
    "merge",
];

/// A call without its key, with what any kind takes.
#[derive(Drop)]
pub(crate) struct Line {
    pub(crate) kind: usize,
    pub(crate) given: u64,
    pub(crate) other: u64,
    pub(crate) function: Option<u64>,
}

/// The kind of a call by its name.
fn kind_of(rt: &impl Abort, name: &str) -> usize {
    for (kind, known) in NAMES.iter().enumerate() {
        if *known == name {
            return kind;
        }
    }
    panic!(rt; "no call is named {name}")
}

/// A call by its name and what it is given: numbers, and a function as `+` and a number that it adds, or as
/// `none`, where it takes the value away.
pub(crate) fn read(rt: &impl Abort, text: &str) -> Line {
    let mut words = text.split_whitespace();
    let name = words.next().unwrap_or("");
    let (mut given, mut other, mut function) = (None, 0, None);
    for word in words {
        match (word.strip_prefix('+'), word.parse().ok()) {
            (Some(number), _) => function = number.parse().ok(),
            (None, Some(number)) => {
                given = given.or(Some(number));
                other = number;
            }
            (None, None) => assert!(rt; word == "none"),
        }
    }
    Line {
        kind: kind_of(rt, name),
        given: given.unwrap_or(0),
        other,
        function,
    }
}

/// A reply: `none`, `true`, `false`, or a number.
pub(crate) fn reply_of(text: &str) -> Reply<u64> {
    match text {
        "true" => Reply::Truth(true),
        "false" => Reply::Truth(false),
        number => Reply::Value(number.parse().ok()),
    }
}

/// What makes the values and the functions of calls.
pub(crate) trait Samples<V: Value, F: Remap<Key, V>> {
    /// The value of a number.
    fn value(&self, number: u64) -> V;

    /// The function of a number.
    fn function(&self, number: Option<u64>) -> F;

    /// The number of a value.
    fn number(&self, value: &V) -> u64;
}

/// Numbers themselves, and functions that add a number or take the value away.
#[derive(Drop)]
pub(crate) struct Sums;

impl Samples<u64, Plus> for Sums {
    fn value(&self, number: u64) -> u64 {
        number
    }

    fn function(&self, number: Option<u64>) -> Plus {
        Plus(number)
    }

    fn number(&self, value: &u64) -> u64 {
        *value
    }
}

/// The call of a line on the key.
pub(crate) fn call_of<V: Value, F: Remap<Key, V>, S: Samples<V, F>>(
    samples: &S,
    key: Key,
    line: &Line,
) -> Call<Key, V, F> {
    let (given, function) = (line.given, line.function);
    match line.kind {
        0 => Call::Get(key),
        1 => Call::Contains(key),
        2 => Call::Put(key, samples.value(given)),
        3 => Call::PutIfAbsent(key, samples.value(given)),
        4 => Call::Remove(key),
        5 => Call::RemoveIf(key, samples.value(given)),
        6 => Call::Replace(key, samples.value(given)),
        7 => Call::ReplaceIf(key, samples.value(given), samples.value(line.other)),
        8 => Call::ComputeIfAbsent(key, samples.function(function)),
        9 => Call::ComputeIfPresent(key, samples.function(function)),
        10 => Call::Compute(key, samples.function(function)),
        _ => Call::Merge(key, samples.value(given), samples.function(function)),
    }
}

/// The class of the hashes that are 1 modulo 16.
pub(crate) fn sixteenth() -> Class
    ensures n { result.n ≡ 16 }
    ensures index { result.index ≡ 1 }
{
    Class::new(16, 1)
}

/// How many entries there are, and the first four of them: the byte of the key, and the number of the value.
pub(crate) type Pairs = (usize, [(u8, u64); 4]);

/// The byte of a key that has one alone.
fn byte_of(key: &Key) -> u8 {
    let bytes = key.bytes();
    if bytes.len() == 1 { bytes[0] } else { 0 }
}

/// The entries of a walk.
pub(crate) fn pairs<V: Value, F: Remap<Key, V>, A: Allocator, S: Samples<V, F>>(
    samples: &S,
    walk: Walk<'_, Key, V, A>,
) -> Pairs {
    let (mut count, mut first) = (0usize, [(0, 0); 4]);
    for (key, value) in walk {
        if count < 4 {
            first[count] = (byte_of(key), samples.number(value));
        }
        count = count.wrapping_add(1);
    }
    (count, first)
}

/// These entries.
pub(crate) fn listed(entries: &[(u8, u64)]) -> Pairs {
    let (mut count, mut first) = (0usize, [(0, 0); 4]);
    for entry in entries {
        if count < 4 {
            first[count] = *entry;
        }
        count = count.wrapping_add(1);
    }
    (count, first)
}

/// A bin on which calls of numbers are made.
pub(crate) trait Makes {
    /// Makes a call on a key of the bin, as client 7's call of this ordinal. Returns its reply, and how many
    /// keys more there are.
    fn make<R: Abort>(
        &mut self,
        rt: &R,
        call: Call<Key, u64, Plus>,
        ordinal: u64,
    ) -> (Reply<u64>, i64);
}

/// Makes calls on a bin: each by the byte of its key, and how often it is made.
pub(crate) fn make_often<M: Makes>(rt: &impl Abort, bin: &mut M, lines: &[(u8, &str, u32)]) {
    for (byte, text, times) in lines {
        let line = read(rt, text);
        for _time in 0..*times {
            let _ = bin.make(rt, call_of(&Sums, key(rt, &[*byte]), &line), 0);
        }
    }
}

/// Calls one after the other: each by the byte of its key, its reply, and how many keys more there
/// are.
const LINES: [(u8, &str, &str, i64); 36] = [
    (b'a', "get", "none", 0),
    (b'a', "contains", "false", 0),
    (b'a', "replace 9", "none", 0),
    (b'a', "compute_if_present +9", "none", 0),
    (b'a', "put 1", "none", 1),
    (b'a', "contains", "true", 0),
    (b'b', "put 5", "none", 1),
    (b'a', "put 2", "1", 0),
    (b'a', "get", "2", 0),
    (b'a', "put_if_absent 9", "2", 0),
    (b'a', "remove_if 9", "false", 0),
    (b'a', "replace 3", "2", 0),
    (b'a', "replace_if 2 9", "false", 0),
    (b'a', "replace_if 3 4", "true", 0),
    (b'a', "compute_if_absent +9", "4", 0),
    (b'a', "compute_if_present +2", "6", 0),
    (b'a', "compute +1", "7", 0),
    (b'a', "merge 10 +1", "18", 0),
    (b'a', "remove_if 18", "true", -1),
    (b'a', "merge 4 none", "4", 1),
    (b'a', "merge 9 none", "none", -1),
    (b'a', "compute_if_absent none", "none", 0),
    (b'a', "compute_if_absent +3", "3", 1),
    (b'a', "compute_if_present none", "none", -1),
    (b'a', "compute +8", "8", 1),
    (b'a', "compute none", "none", -1),
    (b'a', "put_if_absent 6", "none", 1),
    (b'b', "remove", "5", -1),
    (b'b', "remove", "none", 0),
    (b'b', "put 7", "none", 1),
    (b'c', "compute_if_present none", "none", 0),
    (b'c', "put 1", "none", 1),
    (b'c', "remove_if 2", "false", 0),
    (b'c', "replace_if 1 1", "true", 0),
    (b'c', "put 18446744073709551615", "1", 0),
    (b'c', "merge 1 +0", "18446744073709551615", 0),
];

/// The entries that the calls of all lines leave.
pub(crate) const LEFT: [(u8, u64); 3] = [(b'a', 6), (b'b', 7), (b'c', u64::MAX)];

/// Makes the calls of all lines on a new bin, and asserts what each replies.
pub(crate) fn make_lines<M: Makes>(rt: &impl Abort, bin: &mut M) {
    let mut ordinal = 0u64;
    for (byte, text, reply, delta) in &LINES {
        let call = call_of(&Sums, key(rt, &[*byte]), &read(rt, text));
        let found = bin.make(rt, call, ordinal);
        assert_same(rt, &(ordinal, found), &(ordinal, (reply_of(reply), *delta)));
        ordinal = ordinal.wrapping_add(1);
    }
}

/// The call that finds a value and leaves one: a get where it leaves what it finds, a remove where it
/// leaves none, and else a put.
pub(crate) fn op_between(before: Option<u64>, after: Option<u64>) -> Op<u64, Plus> {
    if before == after {
        return Op::Get;
    }
    match after {
        Some(value) => Op::Put(value),
        None => Op::Remove,
    }
}
