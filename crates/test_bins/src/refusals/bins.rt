//! A bin, each request of its making and of a call refused in turn.
ghost use Rattle.std.specs.Prelude.{◌≡◌, [], ◌∷◌};

use crate::asserts::{assert_same, key};
use crate::refusals::samples::{Asking, State, bin_with, make_at, state_of, was_refused};
use crate::rows::{Line, Samples, listed, reply_of, sixteenth};
use bin_history::{Bin, Form, Remap, Value};
use hashkeys::{Key, Salt};
use std::alloc::{AllocError, Allocator, Global};
use std::process::Abort;
use test_support::Refusing;

/// More than any call's requests.
const MANY: u64 = 1000;

/// The list of one item.
fn alone<T, A: Allocator + Clone>(rt: &impl Abort, alloc: &A, item: T) -> Vec<T, A>
where
    T: Drop,
    ensures { result.items ≡ item ∷ [] }
{
    let mut items = Vec::new(alloc.clone().expect(rt, "memory"));
    items.push(item).expect(rt, "memory");
    items
}

/// What a bin has, where one is made.
fn found_of<V: Value, F: Remap<Key, V>, A: Allocator + Clone, S: Samples<V, F>>(
    samples: &S,
    made: &Result<Bin<Key, V, F, A>, AllocError>,
) -> Option<State> {
    match made {
        Ok(bin) => Some(state_of(samples, bin)),
        Err(_) => None,
    }
}

/// Makes a bin of one pair with the request after so many refused. Returns what the bin has, where one is
/// made, and whether the request was refused.
fn refuse_new<V: Value, F: Remap<Key, V>, A: Allocator + Clone, S: Samples<V, F>>(
    rt: &impl Abort,
    samples: &S,
    switch: &Refusing<Global>,
    alloc: &A,
    form: Form,
    granted: u64,
) -> (Option<State>, bool) {
    let (class, own) = (sixteenth(), key(rt, b"q"));
    assert!(rt; class.covers(Salt(0).hash_of(&own)));
    let base = alone(rt, alloc, (own, samples.value(1)));
    switch.refuse_after(granted);
    let found = found_of(samples, &Bin::new(alloc, form, Salt(0), class, base));
    (found, was_refused(switch))
}

/// Refuses each request of the making of a bin, of which there are so many.
fn refuse_news(rt: &impl Abort, memory: Global, form: Form, requests: u64) {
    let alloc = Refusing::new(memory);
    let samples = Asking { alloc: &alloc };
    let one = listed(&[(b'q', 1)]);
    let log = match form {
        Form::Recorded => Some((0, one)),
        Form::Lean => None,
    };
    for granted in 0..5 {
        let found = refuse_new(rt, &samples, &alloc, &&alloc, form, granted);
        let wanted = if granted < requests {
            (None, true)
        } else {
            (Some((one, log)), false)
        };
        assert_same(rt, &(granted, found), &(granted, wanted));
    }
}

#[test]
fn a_new_bin_takes_its_base(rt: HostRuntime) {
    // Of a recorded bin a list, a copy of the value, and the bin itself. A lean one is moved the pair,
    // which lies in it.
    refuse_news(&rt, rt.alloc(), Form::Recorded, 3);
    refuse_news(&rt, rt.alloc(), Form::Lean, 0);
}

/// Where a call begins: the form of the bin, the call's kind, the value of `a`, 0 where it has none, and
/// whether `q` has the value 9, which was put before it.
#[derive(Clone, Copy)]
struct Start {
    form: Form,
    kind: usize,
    value: u64,
    is_second: bool,
}

/// What a call replies, the value that it leaves at `a`, 0 where it leaves none, and how often it asks for
/// memory in a recorded bin and in a lean one, the lists of records and entries and the entry's node left
/// out.
type Outcome = (&'static str, u64, u64, u64);

/// Of the pairs of `q` and `a` those that are there: the first, if it is so, and the second where its value
/// is not 0.
fn present(pairs: &[(u8, u64); 2], is_first: bool) -> &[(u8, u64)] {
    match (is_first, pairs[1].1) {
        (false, 0) => &pairs[..0],
        (false, _) => &pairs[1..],
        (true, 0) => &pairs[..1],
        (true, _) => &pairs[..],
    }
}

/// What a bin has in which `a` has the value, after so many calls, of each of which a recorded bin has a
/// record over no base.
fn wanted_state(start: Start, value: u64, calls: usize) -> State {
    let entries = listed(present(&[(b'q', 9), (b'a', value)], start.is_second));
    match start.form {
        Form::Recorded => (entries, Some((calls, listed(&[])))),
        Form::Lean => (entries, None),
    }
}

/// The call of a kind. What is compared with the value is 1, what is given is 5, and the function's result
/// is 7.
pub(crate) fn line_of(kind: usize) -> Line {
    Line {
        kind,
        given: if kind == 5 || kind == 7 { 1 } else { 5 },
        other: 5,
        function: Some(7),
    }
}

/// Makes a call with the request after so many refused, and once more where there was one. Answers
/// whether there was.
fn refuse_call_after<V: Value, F: Remap<Key, V>, A: Allocator + Clone, S: Samples<V, F>>(
    rt: &impl Abort,
    samples: &S,
    switch: &Refusing<Global>,
    alloc: &A,
    start: Start,
    outcome: &Outcome,
    granted: u64,
) -> bool {
    let (line, before) = (line_of(start.kind), [(b'q', 9), (b'a', start.value)]);
    let puts = present(&before, start.is_second);
    let mut bin = bin_with(rt, samples, alloc, start.form, sixteenth(), puts);
    switch.refuse_after(granted);
    let mut told = make_at(rt, samples, alloc, &mut bin, b'a', &line);
    let refused = was_refused(switch);
    if refused {
        let found = (start.kind, granted, told, state_of(samples, &bin));
        let kept = wanted_state(start, start.value, puts.len());
        assert_same(rt, &found, &(start.kind, granted, None, kept));
        told = make_at(rt, samples, alloc, &mut bin, b'a', &line);
    }
    let found = (start.kind, granted, told, state_of(samples, &bin));
    let left = wanted_state(start, outcome.1, puts.len() + 1);
    let wanted = (start.kind, granted, Some(reply_of(outcome.0)), left);
    assert_same(rt, &found, &wanted);
    refused
}

/// Makes a call with each request refused in turn and the call then made again. Answers how many
/// requests there were.
fn refuse_call(rt: &impl Abort, memory: Global, start: Start, outcome: &Outcome) -> u64 {
    let alloc = Refusing::new(memory);
    let samples = Asking { alloc: &alloc };
    for granted in 0..MANY {
        if !refuse_call_after(rt, &samples, &alloc, &&alloc, start, outcome, granted) {
            return granted;
        }
    }
    MANY
}

/// Of each kind of call what it does where `a` has the value 1, and where it has none.
///
/// The requests, in this order. A request of the function, where it is asked. A copy for the reply, where
/// that is the value after the call. In a recorded bin, for the record: a copy of the argument,
/// where it is the value after the call; of the value before and of the value after, if there is
/// one.
const OUTCOMES: [(Outcome, Outcome); 12] = [
    (("1", 1, 3, 1), ("none", 0, 0, 0)),
    (("true", 1, 2, 0), ("false", 0, 0, 0)),
    (("1", 5, 3, 0), ("none", 5, 2, 0)),
    (("1", 1, 3, 1), ("none", 5, 2, 0)),
    (("1", 0, 1, 0), ("none", 0, 0, 0)),
    (("true", 0, 1, 0), ("false", 0, 0, 0)),
    (("1", 5, 3, 0), ("none", 0, 0, 0)),
    (("true", 5, 3, 0), ("false", 0, 0, 0)),
    (("1", 1, 3, 1), ("7", 7, 3, 2)),
    (("7", 7, 4, 2), ("none", 0, 0, 0)),
    (("7", 7, 4, 2), ("7", 7, 3, 2)),
    (("7", 7, 4, 2), ("5", 5, 3, 1)),
];

/// How many requests a call makes in a bin of the form. The first call on a recorded bin makes the
/// list of records, and the first entry the list of entries: both have room for some. In a lean bin
/// the first entry lies in the bin, and each other has a node.
fn requests(start: Start, outcome: &Outcome) -> u64 {
    let is_new = start.value == 0 && outcome.1 > 0;
    match (start.form, start.is_second) {
        (Form::Recorded, false) if is_new => outcome.2.wrapping_add(2),
        (Form::Recorded, false) if start.value == 0 => outcome.2.wrapping_add(1),
        (Form::Recorded, _) => outcome.2,
        (Form::Lean, true) if is_new => outcome.3.wrapping_add(1),
        (Form::Lean, _) => outcome.3,
    }
}

/// Refuses each request of a call, and asserts how many there are.
fn assert_requests(rt: &impl Abort, memory: Global, start: Start, outcome: &Outcome) {
    let found = (
        start.kind,
        start.value,
        refuse_call(rt, memory, start, outcome),
    );
    assert_same(
        rt,
        &found,
        &(start.kind, start.value, requests(start, outcome)),
    );
}

/// Refuses each request of each kind of call.
fn refuse_calls(rt: &impl Abort, memory: Global, form: Form, is_second: bool) {
    for (kind, (present, absent)) in OUTCOMES.iter().enumerate() {
        let of_present = Start {
            form,
            kind,
            value: 1,
            is_second,
        };
        assert_requests(rt, memory, of_present, present);
        assert_requests(
            rt,
            memory,
            Start {
                value: 0,
                ..of_present
            },
            absent,
        );
    }
}

#[test]
fn a_refused_call_leaves_the_bin(rt: HostRuntime) {
    for form in [Form::Recorded, Form::Lean] {
        refuse_calls(&rt, rt.alloc(), form, false);
        refuse_calls(&rt, rt.alloc(), form, true);
    }
}
