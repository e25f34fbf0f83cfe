//! A bin that folds its records or is split, each request refused in turn.
use crate::asserts::{assert_same, key};
use crate::refusals::samples::{
    Asking, State, bin_with, make, make_at, put_of, state_of, was_refused,
};
use crate::rows::{Samples, listed, sixteenth};
use bin_history::{Bin, Call, Form, Remap, Value};
use hashkeys::Key;
use std::alloc::{AllocError, Allocator, Global};
use std::process::Abort;
use test_support::Refusing;

/// More than any call's requests.
const MANY: u64 = 1000;

/// A recorded bin after 1,024 calls: `put q 1`, `put a 2`, 1,021 times `get a`, `remove q`.
fn full<V: Value, F: Remap<Key, V>, A: Allocator + Clone, S: Samples<V, F>>(
    rt: &impl Abort,
    samples: &S,
    alloc: &A,
) -> Bin<Key, V, F, A> {
    let puts = [(b'q', 1), (b'a', 2)];
    let mut bin = bin_with(rt, samples, alloc, Form::Recorded, sixteenth(), &puts);
    for _ in 0..1021 {
        let get = Call::Get(key(rt, b"a"));
        assert!(rt; make(rt, samples, alloc, &mut bin, get).is_some());
    }
    let remove = Call::Remove(key(rt, b"q"));
    assert!(rt; make(rt, samples, alloc, &mut bin, remove).is_some());
    bin
}

/// Puts to a bin with 1,024 records with the request after so many refused, and once more where
/// there was one. Answers whether there was.
fn refuse_fold<V: Value, F: Remap<Key, V>, A: Allocator + Clone, S: Samples<V, F>>(
    rt: &impl Abort,
    samples: &S,
    switch: &Refusing<Global>,
    alloc: &A,
    granted: u64,
) -> bool {
    let (mut bin, put) = (full(rt, samples, alloc), put_of(3));
    switch.refuse_after(granted);
    let mut told = make_at(rt, samples, alloc, &mut bin, b'q', &put);
    let refused = was_refused(switch);
    if refused {
        let kept = (listed(&[(b'a', 2)]), Some((1024, listed(&[]))));
        assert_same(
            rt,
            &(told.is_none(), state_of(samples, &bin)),
            &(true, kept),
        );
        told = make_at(rt, samples, alloc, &mut bin, b'q', &put);
    }
    let base = listed(&[(b'q', 1), (b'a', 2)]);
    let left = (listed(&[(b'a', 2), (b'q', 3)]), Some((513, base)));
    assert_same(
        rt,
        &(told.is_some(), state_of(samples, &bin)),
        &(true, left),
    );
    refused
}

#[test]
fn a_refused_fold_leaves_the_base(rt: HostRuntime) {
    let alloc = Refusing::new(rt.alloc());
    let samples = Asking { alloc: &alloc };
    let mut refusals = 0u64;
    for granted in 0..MANY {
        if !refuse_fold(&rt, &samples, &alloc, &&alloc, granted) {
            break;
        }
        refusals = refusals.wrapping_add(1);
    }
    // Room in the base, and two copies of the value: the entries had two keys, and a list that is
    // folded has room for the record.
    assert_same(&rt, &refusals, &3);
}

/// What a split finds: the halves, or the bin that came back.
type Halves = Result<(State, State), State>;

/// What a split gives.
type SplitResult<V, F, A> = Result<
    (Bin<Key, V, F, A>, Bin<Key, V, F, A>),
    (Bin<Key, V, F, A>, AllocError),
>;

/// What there is after a split.
fn states_of<V: Value, F: Remap<Key, V>, A: Allocator + Clone, S: Samples<V, F>>(
    samples: &S,
    split: &SplitResult<V, F, A>,
) -> Halves {
    match split {
        Ok((low, high)) => Ok((state_of(samples, low), state_of(samples, high))),
        Err((bin, _refused)) => Err(state_of(samples, bin)),
    }
}

/// Splits a bin. Returns what there is then.
fn split<V: Value, F: Remap<Key, V>, A: Allocator + Clone, S: Samples<V, F>>(
    rt: &impl Abort,
    samples: &S,
    alloc: &A,
    bin: Bin<Key, V, F, A>,
) -> Halves {
    assert!(rt; bin.class().n() < 65536);
    states_of(samples, &bin.split(alloc))
}

/// Splits a bin in which `q` and then `a` were put, and then `q` again, with the request after so
/// many refused. Returns what there is then, and whether the request was made.
fn refuse_split<V: Value, F: Remap<Key, V>, A: Allocator + Clone, S: Samples<V, F>>(
    rt: &impl Abort,
    samples: &S,
    switch: &Refusing<Global>,
    alloc: &A,
    form: Form,
    granted: u64,
) -> (Halves, bool) {
    let puts = [(b'q', 1), (b'a', 2), (b'q', 3)];
    let bin = bin_with(rt, samples, alloc, form, sixteenth(), &puts);
    switch.refuse_after(granted);
    let found = split(rt, samples, alloc, bin);
    (found, was_refused(switch))
}

/// What a bin of the form has, with so many records over no base where it is recorded.
fn wanted(form: Form, entries: &[(u8, u64)], records: usize) -> State {
    match form {
        Form::Recorded => (listed(entries), Some((records, listed(&[])))),
        Form::Lean => (listed(entries), None),
    }
}

/// Refuses each request of a split, of which there are so many.
fn refuse_splits(rt: &impl Abort, memory: Global, form: Form, requests: u64) {
    let alloc = Refusing::new(memory);
    let samples = Asking { alloc: &alloc };
    let whole = wanted(form, &[(b'q', 3), (b'a', 2)], 3);
    let halves = (wanted(form, &[(b'a', 2)], 1), wanted(form, &[(b'q', 3)], 2));
    for granted in 0..19 {
        let found = refuse_split(rt, &samples, &alloc, &&alloc, form, granted);
        let is_refused = granted < requests;
        let left = if is_refused { Err(whole) } else { Ok(halves) };
        assert_same(rt, &(granted, found), &(granted, (left, is_refused)));
    }
}

#[test]
fn a_refused_split_leaves_the_bin(rt: HostRuntime) {
    // Of entries two lists and two copies; in a recorded bin of records two lists and seven copies,
    // and the two bins. A lean bin's entries are moved.
    refuse_splits(&rt, rt.alloc(), Form::Recorded, 15);
    refuse_splits(&rt, rt.alloc(), Form::Lean, 0);
}
