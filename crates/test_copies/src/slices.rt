//! Looks for keys of bytes by slices, which make no key.
ghost use Rattle.std.specs.Prelude.{◌≡◌};

use crate::asserts::assert_same;
use crate::away::Away;
use crate::lent::{TextMap, TextPass, put_one};
use crate::steps::{Steps, run};
use crate::words::{Text, look_word, word_of};
use chm::{Fault, Map};
use count_ledger::Pass;
use hashkeys::Bytes;
use std::alloc::{Allocator, Global};
use std::process::Abort;
use std::sync::Wait;
use test_helpers::Keep;
use test_maps::BOTH;
use test_support::Refusing;

/// The put of `one` at `a`. Then a look-up of `a` and a glance at it, each with so many requests
/// granted, and both of `b`, which has no value, with none.
#[derive(Drop)]
struct Looks<'s, A: Allocator> {
    switch: &'s Refusing<Global>,
    alloc: &'s A,
    granted: u64,
}

impl<'s, A: Allocator + Clone> Steps<Text<A>, Text<A>, Away, A> for Looks<'s, A> {
    /// What was found.
    type Told = [&'static str; 4];

    fn take<R: Wait + Abort>(
        &self,
        rt: &R,
        map: &TextMap<A>,
        pass: &mut TextPass<A>,
    ) -> [&'static str; 4] {
        put_one(rt, self.alloc, map, pass);
        self.switch.refuse_after(self.granted);
        let looked_up = look_word(map.look_up_as(rt, pass, b"a".as_slice()));
        self.switch.refuse_after(self.granted);
        let glanced = look_word(map.glance_as(rt, b"a".as_slice()));
        self.switch.refuse_after(0);
        let not_looked_up = look_word(map.look_up_as(rt, pass, b"b".as_slice()));
        let not_glanced = look_word(map.glance_as(rt, b"b".as_slice()));
        self.switch.refuse_after(u64::MAX);
        [looked_up, glanced, not_looked_up, not_glanced]
    }
}

/// Looks with so many requests granted, compares what is found at `a`, and looks again once the map is
/// closed.
fn assert_found<R: Wait + Abort, A: Allocator + Clone>(
    rt: &R,
    (switch, alloc): (&Refusing<Global>, &A),
    granted: u64,
    wanted: &'static str,
) {
    for form in BOTH {
        let steps = Looks {
            switch,
            alloc,
            granted,
        };
        let own = alloc.clone().expect(rt, "an allocator");
        let (told, closed) = run(rt, own, form, 16, &steps);
        let left = [
            word_of(closed.get_as(b"a".as_slice())),
            word_of(closed.get_as(b"b".as_slice())),
        ];
        assert_same(
            rt,
            &(told, left),
            &([wanted, wanted, "none", "none"], ["one", "none"]),
        );
    }
}

#[test]
fn a_slice_finds_the_key_of_its_bytes_and_makes_none(rt: HostRuntime) {
    // The copy of the value asks for memory once, and nothing else does.
    let alloc = Refusing::new(rt.alloc());
    for (granted, wanted) in [(0, "no memory"), (1, "one")] {
        assert_found(&rt, (&alloc, &&alloc), granted, wanted);
    }
}

/// A map whose keys lie elsewhere.
type Words = Map<Bytes<'static>, u64, Keep, Global>;

/// Puts 5 at `one`. Returns whether a look-up, a glance, a view and a tried view find it.
fn look_up_and_glance<R: Wait>(
    rt: &R,
    map: &Words,
    pass: &mut Pass<Bytes<'static>, u64, Keep>,
) -> Result<[bool; 4], Fault>
    requires { pass.old.ledger ≡ map.now.ledger.id }
    ensures { pass.new.ledger ≡ map.now.ledger.id }
{
    map.put(rt, pass, Bytes(b"one"), 5)?;
    let looked_up = map.look_up_as(rt, pass, b"one".as_slice())? == Some(5);
    let glanced = map.glance_as(rt, b"one".as_slice())? == Some(5);
    let viewed = map.view_as(rt, pass, b"one".as_slice(), |value| value.copied()) == Some(5);
    let tried = map.try_view_as(pass, b"one".as_slice(), |value| value.is_some()) == Some(true);
    Ok([looked_up, glanced, viewed, tried])
}

/// The examples.
#[derive(Drop)]
struct Examples;

impl Steps<Bytes<'static>, u64, Keep, Global> for Examples {
    /// Which are right.
    type Told = Result<[bool; 4], Fault>;

    fn take<R: Wait + Abort>(
        &self,
        rt: &R,
        map: &Words,
        pass: &mut Pass<Bytes<'static>, u64, Keep>,
    ) -> Result<[bool; 4], Fault> {
        look_up_and_glance(rt, map, pass)
    }
}

#[test]
fn each_example_of_a_slice_is_as_it_says(rt: HostRuntime) {
    for form in BOTH {
        let (found, quiet) = run(&rt, rt.alloc(), form, 16, &Examples);
        let got = quiet.get_as(b"one".as_slice()).copied() == Some(5);
        assert_same(&rt, &(found, got), &(Ok([true; 4]), true));
    }
}
