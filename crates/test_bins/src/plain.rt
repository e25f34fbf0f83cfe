//! A plain map, written as the table of the calls says, and a bin that answers as it does.
ghost use Rattle.std.specs.Prelude.{◌<◌};

use crate::asserts::{assert_same, key};
use crate::rows::{Line, Makes, Sums, call_of};
use crate::{bins, made};
use bin_history::{Call, Form, Record, Reply};
use hashkeys::Key;
use std::alloc::Global;
use std::process::Abort;
use test_helpers::Plus;

/// Pairs in order of insertion. A key is a number, whose text `text` gives.
type Pairs = Vec<(usize, u64)>;

/// Two with one code among them.
const TEXTS: [&[u8]; 6] = [b"a", b"q", b"Aa", b"BB", b"zzzzzz", b"_"];

/// A call on the key of a number.
#[derive(Drop)]
struct Plain {
    key: usize,
    line: Line,
}

impl Line {
    /// What the function answers for this value.
    fn computed(&self, value: u64) -> Option<u64> {
        match self.function {
            Some(n) => Some(value.saturating_add(n)),
            None => None,
        }
    }

    /// The value after the call, and the reply, by the value before it.
    fn effect(&self, before: Option<u64>) -> (Option<u64>, Reply<u64>) {
        let is_given = before == Some(self.given);
        let after = match (self.kind, before) {
            (2, _) | (3, None) | (6, Some(_)) => Some(self.given),
            (4, _) => None,
            (5, _) if is_given => None,
            (7, _) if is_given => Some(self.other),
            (8, None) => self.computed(0),
            (9, Some(value)) => self.computed(value),
            (10, _) => self.computed(before.unwrap_or(0)),
            (11, Some(value)) => self.computed(value.saturating_add(self.given)),
            (11, None) => Some(self.given),
            _ => before,
        };
        let reply = match self.kind {
            0 | 2 | 3 | 4 | 6 => Reply::Value(before),
            1 => Reply::Truth(before.is_some()),
            5 | 7 => Reply::Truth(is_given),
            _ => Reply::Value(after),
        };
        (after, reply)
    }
}

impl Plain {
    /// Makes the call on the pairs.
    fn make(&self, rt: &impl Abort, pairs: &mut Pairs) -> Reply<u64> {
        let place = place_of(pairs, self.key);
        let before = match pairs.get(place) {
            Some(pair) => Some(pair.1),
            None => None,
        };
        let (after, reply) = self.line.effect(before);
        if place < pairs.len() {
            match after {
                Some(value) => pairs[place].1 = value,
                None => {
                    let _ = pairs.remove(place);
                }
            }
        } else if let Some(value) = after {
            pairs.push((self.key, value)).expect(rt, "memory");
        }
        reply
    }

    /// The call, as a bin takes it.
    fn call(&self, rt: &impl Abort) -> Call<Key, u64, Plus> {
        call_of(&Sums, text(rt, self.key), &self.line)
    }

    /// Whether this is the call.
    fn is(&self, rt: &impl Abort, call: &Call<Key, u64, Plus>) -> bool {
        let own = self.call(rt);
        given_to(call) == given_to(&own) && *call.key() == *own.key()
    }
}

/// The kind of a call, the values that it is given, and what its function adds.
fn given_to(call: &Call<Key, u64, Plus>) -> (u64, u64, u64, Option<u64>) {
    match call {
        Call::Get(_) => (0, 0, 0, None),
        Call::Contains(_) => (1, 0, 0, None),
        Call::Put(_, value) => (2, *value, 0, None),
        Call::PutIfAbsent(_, value) => (3, *value, 0, None),
        Call::Remove(_) => (4, 0, 0, None),
        Call::RemoveIf(_, value) => (5, *value, 0, None),
        Call::Replace(_, value) => (6, *value, 0, None),
        Call::ReplaceIf(_, old, new) => (7, *old, *new, None),
        Call::ComputeIfAbsent(_, function) => (8, 0, 0, function.0),
        Call::ComputeIfPresent(_, function) => (9, 0, 0, function.0),
        Call::Compute(_, function) => (10, 0, 0, function.0),
        Call::Merge(_, value, function) => (11, *value, 0, function.0),
    }
}

/// The place of a key among the pairs, behind them where it has none.
fn place_of(pairs: &[(usize, u64)], key: usize) -> usize {
    let mut place = 0usize;
    for pair in pairs {
        if pair.0 == key {
            return place;
        }
        place = place.wrapping_add(1);
    }
    pairs.len()
}

/// A decimal digit.
pub(crate) fn digit(number: usize) -> u8 {
    b'0' + (number % 10) as u8
}

/// The key of a number: one of the texts and, from 6 to 99, `k` and two digits.
fn text(rt: &impl Abort, number: usize) -> Key {
    match TEXTS.get(number) {
        Some(known) => key(rt, known),
        None => key(rt, &[b'k', digit(number / 10), digit(number)]),
    }
}

/// Numbers that look random.
#[derive(Drop)]
struct Numbers(u64);

impl Numbers {
    /// The next number below `end`.
    fn below(&mut self, end: u64) -> u64
        requires { 0 < end }
    {
        self.0 = self
            .0
            .wrapping_mul(6_364_136_223_846_793_005)
            .wrapping_add(1_442_695_040_888_963_407);
        (self.0 >> 33) % end
    }

    /// A call on one of so many keys.
    fn call(&mut self, keys: u64) -> Plain
        requires { 0 < keys }
    {
        let function = match self.below(3) {
            0 => None,
            n => Some(n),
        };
        let kind = self.below(12) as usize;
        let key = self.below(keys) as usize;
        let line = Line {
            kind,
            given: self.below(4),
            other: self.below(4),
            function,
        };
        Plain { key, line }
    }
}

/// Whether these are the entries of the pairs, in their order.
fn are_same(rt: &impl Abort, entries: &[(Key, u64)], pairs: &[(usize, u64)]) -> bool {
    for (entry, pair) in entries.iter().zip(pairs) {
        if entry.0 != text(rt, pair.0) || entry.1 != pair.1 {
            return false;
        }
    }
    entries.len() == pairs.len()
}

/// What the calls that a recorded bin stores no more left of the pairs, and how many they are.
#[derive(Drop)]
struct Folded {
    pairs: Pairs,
    calls: usize,
}

/// Whether the records are of these calls, in order.
fn are_records(rt: &impl Abort, records: &[Record<Key, u64, Plus>], made: &[Plain]) -> bool {
    let mut rest = made.iter();
    for record in records {
        let plain = rest.next().expect(rt, "a call");
        if !plain.is(rt, record.call()) {
            return false;
        }
    }
    rest.next().is_none()
}

/// Whether the bin's records are the newest of these calls, and its base is what those before them
/// left.
fn are_stored(rt: &impl Abort, bin: &bins::KeyBin, made: &[Plain], folded: &mut Folded) -> bool {
    let calls = made.len().saturating_sub(bin.records().len());
    let (oldest, newest) = made.split_at(calls);
    let mut number = 0usize;
    for plain in oldest {
        if number >= folded.calls {
            let _ = plain.make(rt, &mut folded.pairs);
        }
        number = number.wrapping_add(1);
    }
    folded.calls = calls;
    are_records(rt, bin.records(), newest) && are_same(rt, bin.base(), &folded.pairs)
}

/// Makes 3,000 calls on a recorded bin, and answers which is the first after which its records are
/// not those calls, or its base is not what those before them left.
fn first_misstored(rt: &impl Abort, alloc: Global) -> Option<u64> {
    let mut bin = bins::empty(rt, alloc);
    let mut made = Vec::new(alloc);
    let mut folded = Folded {
        pairs: Vec::new(alloc),
        calls: 0,
    };
    let mut numbers = Numbers(1);
    for line in 0..3_000u64 {
        let plain = numbers.call(6);
        let _ = bin.make(rt, plain.call(rt), line);
        made.push(plain).expect(rt, "memory");
        let is_checked = line % 61 == 0 || line == 1024 || line == 1536;
        if is_checked && !are_stored(rt, &bin, &made, &mut folded) {
            return Some(line);
        }
    }
    None
}

#[test]
fn a_bin_stores_its_newest_calls_over_what_the_others_left(rt: HostRuntime) {
    assert_same(&rt, &first_misstored(&rt, rt.alloc()), &None);
}

/// Makes a call on the bin and on the pairs, and says whether both answered and left the same.
fn is_made_by_both(
    rt: &impl Abort,
    plain: &Plain,
    bin: &mut made::Made,
    pairs: &mut Pairs,
) -> bool {
    let (reply, _) = bin.make(rt, plain.call(rt), 0);
    reply == plain.make(rt, pairs) && are_same(rt, &bin.copied(rt), pairs)
}

/// Makes so many calls on as many keys of a bin of the form and of a plain map, and answers which
/// is the first that differs in its reply or in what it leaves.
fn first_difference(
    rt: &impl Abort,
    alloc: Global,
    form: Form,
    keys: u64,
    calls: u64,
) -> Option<u64>
    requires { 0 < keys }
{
    let mut bin = made::empty(rt, alloc, form);
    let mut pairs = Vec::new(alloc);
    let mut numbers = Numbers(1);
    for line in 0..calls {
        let plain = numbers.call(keys);
        if !is_made_by_both(rt, &plain, &mut bin, &mut pairs) {
            return Some(line);
        }
    }
    None
}

/// A form, of how many keys, and how many calls on them. On 100 keys a bin has some 50 entries, more than a
/// walk goes past by calls in calls.
const MADE: [(Form, u64, u64); 4] = [
    (Form::Recorded, 6, 10_000),
    (Form::Recorded, 100, 3_000),
    (Form::Lean, 6, 10_000),
    (Form::Lean, 100, 3_000),
];

#[test]
fn a_bin_answers_as_a_plain_map(rt: HostRuntime) {
    for (form, keys, calls) in &MADE {
        assert!(rt; 0 < *keys);
        let difference = first_difference(&rt, rt.alloc(), *form, *keys, *calls);
        assert_same(&rt, &(*form, *keys, difference), &(*form, *keys, None));
    }
}
