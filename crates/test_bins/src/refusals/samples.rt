//! Bins whose values and functions ask for memory, and what they have.
use crate::asserts::key;
use crate::rows::{Line, Pairs, Samples, call_of, pairs};
use bin_history::{Bin, Call, Form, KeyArg, Posting, Remap, Reply, Value, Walk};
use hashkeys::{Class, Key, Salt};
use std::alloc::{AllocError, Allocator, Global};
use std::process::Abort;
use test_helpers::{Alloc, Answer, Number};
use test_support::Refusing;

/// Numbers whose copies ask this for memory, and functions whose calls and copies do, and whose result is
/// their number.
#[derive(Drop)]
pub(crate) struct Asking<'a> {
    pub(crate) alloc: Alloc<'a>,
}

impl<'a> Samples<Number<'a>, Answer<'a>> for Asking<'a> {
    fn value(&self, number: u64) -> Number<'a> {
        Number {
            number,
            alloc: self.alloc,
        }
    }

    fn function(&self, number: Option<u64>) -> Answer<'a> {
        Answer {
            number,
            alloc: self.alloc,
        }
    }

    fn number(&self, value: &Number<'a>) -> u64 {
        value.number
    }
}

/// What a bin gives for a call.
type Told<V, F> = Result<(Reply<V>, Posting<Key, V, F>), AllocError>;

/// A reply in numbers, where memory is there.
fn in_numbers<V: Value, F: Remap<Key, V>, S: Samples<V, F>>(
    samples: &S,
    told: &Told<V, F>,
) -> Option<Reply<u64>> {
    match told {
        Err(_) => None,
        Ok((Reply::Truth(truth), _)) => Some(Reply::Truth(*truth)),
        Ok((Reply::Value(None), _)) => Some(Reply::Value(None)),
        Ok((Reply::Value(Some(value)), _)) => Some(Reply::Value(Some(samples.number(value)))),
    }
}

/// Makes a call on a key of the bin. Returns what it replies, where memory is there.
pub(crate) fn make<V: Value, F: Remap<Key, V>, A: Allocator + Clone, S: Samples<V, F>>(
    rt: &impl Abort,
    samples: &S,
    alloc: &A,
    bin: &mut Bin<Key, V, F, A>,
    call: Call<Key, V, F>,
) -> Option<Reply<u64>> {
    let (salt, class) = (bin.salt(), bin.class());
    let hash = salt.hash_of(call.key());
    assert!(rt; class.covers(hash));
    let (key, op) = call.into_parts();
    in_numbers(
        samples,
        &bin.make_on(alloc, hash, KeyArg::Owned(key), op, 0, 0),
    )
}

/// Makes the call of a line at the key of one byte. Returns what it replies, where memory is there.
pub(crate) fn make_at<V: Value, F: Remap<Key, V>, A: Allocator + Clone, S: Samples<V, F>>(
    rt: &impl Abort,
    samples: &S,
    alloc: &A,
    bin: &mut Bin<Key, V, F, A>,
    byte: u8,
    line: &Line,
) -> Option<Reply<u64>> {
    make(
        rt,
        samples,
        alloc,
        bin,
        call_of(samples, key(rt, &[byte]), line),
    )
}

/// The put of a number.
pub(crate) fn put_of(number: u64) -> Line {
    Line {
        kind: 2,
        given: number,
        other: 0,
        function: None,
    }
}

/// Puts these pairs, in order.
fn put_all<V: Value, F: Remap<Key, V>, A: Allocator + Clone, S: Samples<V, F>>(
    rt: &impl Abort,
    samples: &S,
    alloc: &A,
    bin: &mut Bin<Key, V, F, A>,
    puts: &[(u8, u64)],
) {
    for (byte, number) in puts {
        let made = make_at(rt, samples, alloc, bin, *byte, &put_of(*number));
        assert!(rt; made.is_some());
    }
}

/// A bin of the class in which these pairs were put, in order, without a salt.
pub(crate) fn bin_with<V: Value, F: Remap<Key, V>, A: Allocator + Clone, S: Samples<V, F>>(
    rt: &impl Abort,
    samples: &S,
    alloc: &A,
    form: Form,
    class: Class,
    puts: &[(u8, u64)],
) -> Bin<Key, V, F, A> {
    let base = Vec::new(alloc.clone().expect(rt, "memory"));
    let mut bin = Bin::new(alloc, form, Salt(0), class, base).expect(rt, "memory");
    put_all(rt, samples, alloc, &mut bin, puts);
    bin
}

/// What a bin has: its entries, and where it is recorded how many records and its base.
pub(crate) type State = (Pairs, Option<(usize, Pairs)>);

pub(crate) fn state_of<V: Value, F: Remap<Key, V>, A: Allocator + Clone, S: Samples<V, F>>(
    samples: &S,
    bin: &Bin<Key, V, F, A>,
) -> State {
    let log = match bin.recorded() {
        Some(own) => {
            let base: Walk<'_, Key, V, A> = Walk::of_list(own.base());
            Some((own.records().len(), pairs(samples, base)))
        }
        None => None,
    };
    (pairs(samples, bin.walk()), log)
}

/// Whether the request was refused that was to be. What comes after it is granted.
pub(crate) fn was_refused(switch: &Refusing<Global>) -> bool {
    let refused = switch.has_refused();
    switch.refuse_after(u64::MAX);
    refused
}
