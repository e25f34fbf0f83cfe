//! Calls of lean maps by slices, which make no key.
ghost use Rattle.std.specs.Prelude.{◌≡◌};
ghost use Rattle.bin_history.specs.declared.form.Form.TheVariants.{Lean};

use crate::asserts::assert_same;
use crate::away::Away;
use crate::lent::{TextMap, TextPass, put_one};
use crate::steps::{Steps, run};
use crate::words::{Text, reply_word};
use bin_history::{Form, Reply};
use chm::{Fault, Map};
use count_ledger::Pass;
use hashkeys::Bytes;
use std::alloc::{Allocator, Global};
use std::process::Abort;
use std::sync::Wait;
use test_helpers::Keep;
use test_support::Refusing;

/// The put of `one` at `a`, and then calls at `a` and at `b`, which has no value: gets with so many
/// requests granted, and the others with none.
#[derive(Drop)]
struct Seeks<'s, A: Allocator> {
    switch: &'s Refusing<Global>,
    alloc: &'s A,
    granted: u64,
}

/// Makes the calls.
fn seek_each<R: Wait, A: Allocator + Clone>(
    rt: &R,
    seeks: &Seeks<'_, A>,
    map: &TextMap<A>,
    pass: &mut TextPass<A>,
) -> [&'static str; 6]
    requires form { map.now.ledger.form ≡ Lean }
    requires pass { pass.old.ledger ≡ map.now.ledger.id }
    ensures { pass.new.ledger ≡ map.now.ledger.id }
{
    seeks.switch.refuse_after(seeks.granted);
    let got = reply_word(map.get_as(rt, pass, b"a".as_slice()));
    seeks.switch.refuse_after(0);
    let got_none = reply_word(map.get_as(rt, pass, b"b".as_slice()));
    let there = reply_word(map.contains_as(rt, pass, b"a".as_slice()));
    let not_there = reply_word(map.contains_as(rt, pass, b"b".as_slice()));
    let removed_none = reply_word(map.remove_as(rt, pass, b"b".as_slice()));
    let removed = reply_word(map.remove_as(rt, pass, b"a".as_slice()));
    seeks.switch.refuse_after(u64::MAX);
    [got, got_none, there, not_there, removed_none, removed]
}

impl<'s, A: Allocator + Clone> Steps<Text<A>, Text<A>, Away, A> for Seeks<'s, A> {
    /// What the calls reply on a lean map, and how many were made with the put.
    type Told = ([&'static str; 6], u64);

    fn take<R: Wait + Abort>(
        &self,
        rt: &R,
        map: &TextMap<A>,
        pass: &mut TextPass<A>,
    ) -> ([&'static str; 6], u64) {
        put_one(rt, self.alloc, map, pass);
        let replies = match map.form() {
            Form::Lean => seek_each(rt, self, map, pass),
            Form::Recorded => ["not lean"; 6],
        };
        (replies, pass.made())
    }
}

/// Makes the calls on a lean map, with so many requests of the first granted, and compares what they
/// reply and how many were made. No key is left.
fn assert_sought<'s, R: Wait + Abort, A: Allocator + Clone>(
    rt: &R,
    (switch, alloc): (&'s Refusing<Global>, &'s A),
    granted: u64,
    (got, made): (&'static str, u64),
) {
    let own = alloc.clone().expect(rt, "an allocator");
    let steps = Seeks {
        switch,
        alloc,
        granted,
    };
    let (told, closed) = run(rt, own, Form::Lean, 16, &steps);
    let wanted = [got, "none", "true", "false", "none", "one"];
    assert_same(rt, &(told, closed.mapping_count()), &((wanted, made), 0));
}

#[test]
fn calls_by_a_slice_ask_for_a_copy_of_the_value_alone(rt: HostRuntime) {
    let alloc = Refusing::new(rt.alloc());
    for (granted, wanted) in [(0, ("no memory", 6)), (1, ("one", 7))] {
        assert_sought(&rt, (&alloc, &&alloc), granted, wanted);
    }
}

/// A lean map whose keys lie elsewhere.
type Words = Map<Bytes<'static>, u64, Keep, Global>;

/// Whether each example of a call by a slice is as it says.
fn right_calls<R: Wait>(
    rt: &R,
    map: &Words,
    pass: &mut Pass<Bytes<'static>, u64, Keep>,
) -> Result<[bool; 3], Fault>
    requires form { map.now.ledger.form ≡ Lean }
    requires pass { pass.old.ledger ≡ map.now.ledger.id }
    ensures { pass.new.ledger ≡ map.now.ledger.id }
{
    map.put(rt, pass, Bytes(b"one"), 5)?;
    let got = map.get_as(rt, pass, b"one".as_slice())? == Reply::Value(Some(5));
    let there = map.contains_as(rt, pass, b"one".as_slice())? == Reply::Truth(true);
    let removed = map.remove_as(rt, pass, b"one".as_slice())? == Reply::Value(Some(5));
    Ok([got, there, removed])
}

/// The examples.
#[derive(Drop)]
struct Examples;

impl Steps<Bytes<'static>, u64, Keep, Global> for Examples {
    /// Which are right on a lean map.
    type Told = Option<Result<[bool; 3], Fault>>;

    fn take<R: Wait + Abort>(
        &self,
        rt: &R,
        map: &Words,
        pass: &mut Pass<Bytes<'static>, u64, Keep>,
    ) -> Option<Result<[bool; 3], Fault>> {
        match map.form() {
            Form::Lean => Some(right_calls(rt, map, pass)),
            Form::Recorded => None,
        }
    }
}

#[test]
fn each_example_of_a_call_by_a_slice_is_as_it_says(rt: HostRuntime) {
    let (right, closed) = run(&rt, rt.alloc(), Form::Lean, 16, &Examples);
    assert_same(
        &rt,
        &(right, closed.mapping_count()),
        &(Some(Ok([true; 3])), 0),
    );
}
