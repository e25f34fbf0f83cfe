//! How often a call asks its function.
use crate::asserts::assert_same;
use crate::refusals::bins::line_of;
use crate::refusals::samples::{bin_with, make_at, was_refused};
use crate::rows::Samples;
use bin_history::{Exact, Form, Remap, Value};
use hashkeys::{Class, Key};
use std::alloc::{AllocError, Allocator, Global};
use std::process::Abort;
use std::sync::atomic::AtomicU64;
use std::sync::atomic::Ordering::SeqCst;
use test_support::Refusing;

/// The function whose result is 7. It counts how often it is asked.
#[derive(Drop)]
struct Counted<'a> {
    asked: &'a AtomicU64,
}

impl<'a> Clone for Counted<'a> {
    ghost use Rattle.std.specs.Prelude.{◌≡◌};

    ghost is_clone = { λ x y. y ≡ x };

    fn clone(&self) -> Result<Counted<'a>, AllocError> {
        Ok(Counted { asked: self.asked })
    }
}

impl<'a> Exact for Counted<'a> {
    ghost copies_exactly = { λ x y e. e };
}

impl<'a> Remap<Key, u64> for Counted<'a> {
    ghost use Rattle.std.specs.Prelude.{Some};

    ghost remapped = { λ f k v. Some 7 };

    ghost merged = { λ f old given. Some 7 };

    fn remap(&self, _key: &Key, _value: Option<&u64>) -> Result<Option<u64>, AllocError> {
        self.asked.fetch_add(1, SeqCst);
        Ok(Some(7))
    }

    fn merge(&self, _old: &u64, _given: &u64) -> Result<Option<u64>, AllocError> {
        self.asked.fetch_add(1, SeqCst);
        Ok(Some(7))
    }
}

/// Numbers, and functions that count here how often they are asked.
#[derive(Drop)]
struct Counts<'a> {
    asked: &'a AtomicU64,
}

impl<'a> Samples<u64, Counted<'a>> for Counts<'a> {
    fn value(&self, number: u64) -> u64 {
        number
    }

    fn function(&self, _number: Option<u64>) -> Counted<'a> {
        Counted { asked: self.asked }
    }

    fn number(&self, value: &u64) -> u64 {
        *value
    }
}

/// Makes the call of a kind at `a` in a new bin of all keys, in which these pairs were put, with the request
/// after so many refused. Answers whether the call was made.
fn is_made<V: Value, F: Remap<Key, V>, A: Allocator + Clone, S: Samples<V, F>>(
    rt: &impl Abort,
    samples: &S,
    switch: &Refusing<Global>,
    alloc: &A,
    (form, kind): (Form, usize),
    puts: &[(u8, u64)],
    granted: u64,
) -> bool {
    let mut bin = bin_with(rt, samples, alloc, form, Class::new(1, 0), puts);
    switch.refuse_after(granted);
    let told = make_at(rt, samples, alloc, &mut bin, b'a', &line_of(kind));
    let _ = was_refused(switch);
    told.is_some()
}

/// Whether such a call was made, and how often its function was asked.
fn ask(
    rt: &impl Abort,
    memory: Global,
    call: (Form, usize),
    puts: &[(u8, u64)],
    granted: u64,
) -> (bool, u64) {
    let alloc = Refusing::new(memory);
    let asked = AtomicU64::new(0);
    let samples = Counts { asked: &asked };
    let made = is_made(rt, &samples, &alloc, &&alloc, call, puts, granted);
    (made, asked.load(SeqCst))
}

/// How often each kind of call asks its function, where `a` has none and where it has a value.
const ASKED: [(usize, u64, u64); 4] = [(8, 1, 0), (9, 0, 1), (10, 1, 1), (11, 0, 1)];

/// Asks where `a` has none, and where it has a value, with no request refused.
fn assert_asked_once(rt: &impl Abort, memory: Global, form: Form) {
    for (kind, absent, present) in &ASKED {
        let call = (form, *kind);
        let of_absent = ask(rt, memory, call, &[], u64::MAX);
        let of_present = ask(rt, memory, call, &[(b'a', 1)], u64::MAX);
        let wanted = (*kind, (true, *absent), (true, *present));
        assert_same(rt, &(*kind, of_absent, of_present), &wanted);
    }
}

#[test]
fn a_function_is_asked_once_where_its_answer_is_used(rt: HostRuntime) {
    assert_asked_once(&rt, rt.alloc(), Form::Recorded);
    assert_asked_once(&rt, rt.alloc(), Form::Lean);
}

/// Refuses each of so many requests of `compute_if_absent` and of `compute`, where `a` has none, and then none.
/// Where one is refused the function was asked so often.
fn refuse_room(
    rt: &impl Abort,
    memory: Global,
    form: Form,
    puts: &[(u8, u64)],
    (requests, asked): (u64, u64),
) {
    for kind in [8, 10] {
        for granted in 0..=requests {
            let found = ask(rt, memory, (form, kind), puts, granted);
            let wanted = if granted < requests {
                (false, asked)
            } else {
                (true, 1)
            };
            assert_same(rt, &(kind, granted, found), &(kind, granted, wanted));
        }
    }
}

#[test]
fn a_recorded_bin_asks_once_there_is_room(rt: HostRuntime) {
    // Room for the entry and for the record.
    refuse_room(&rt, rt.alloc(), Form::Recorded, &[], (2, 0));
}

#[test]
fn a_lean_bin_asks_before_it_makes_a_node(rt: HostRuntime) {
    // The first entry lies in the bin. Each other has a node, which the value goes into.
    refuse_room(&rt, rt.alloc(), Form::Lean, &[], (0, 1));
    refuse_room(&rt, rt.alloc(), Form::Lean, &[(b'b', 1)], (1, 1));
}
