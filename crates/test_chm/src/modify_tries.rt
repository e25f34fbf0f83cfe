//! Functions that are lent or given a value, where requests are refused and where their bucket is locked.
ghost use Rattle.std.specs.Prelude.{◌≡◌, OnErr};

use crate::given::{Word, WordMap, WordPass, add, word_of};
use crate::maps::assert_same;
use crate::plays::{Play, played};
use bin_history::Form;
use chm::Map;
use count_ledger::Pass;
use std::alloc::{Allocator, Global};
use std::mem::replace;
use std::process::Abort;
use std::sync::Wait;
use test_helpers::Plus;
use test_maps::BOTH;
use test_support::Refusing;

/// Adds at a word that has no entry with one request more granted each time, until it is granted. Tells
/// how often it was refused, and whether each time what was given came back and the word had no value.
#[derive(Drop)]
struct AddAtLast<'a, A: Allocator> {
    switch: &'a Refusing<Global>,
    alloc: A,
}

impl<'a, A: Allocator + Copy> Play<Word<A>, u64, Plus, A> for AddAtLast<'a, A> {
    type Told = (u64, bool);

    fn play<R: Wait + Abort>(
        &self,
        rt: &R,
        map: &WordMap<A>,
        pass: &mut WordPass<A>,
        _others: &mut Vec<WordPass<A>, A>,
    ) -> (u64, bool) {
        let at = word_of(rt, self.alloc, "one");
        add_at_last(rt, self.switch, map, pass, &at)
    }
}

fn add_at_last<R: Wait + Abort, A: Allocator + Clone>(
    rt: &R,
    switch: &Refusing<Global>,
    map: &WordMap<A>,
    pass: &mut WordPass<A>,
    at: &Word<A>,
) -> (u64, bool)
    requires { pass.old.ledger ≡ map.now.ledger.id }
    ensures { pass.new.ledger ≡ map.now.ledger.id }
{
    let mut kept = true;
    for granted in 0..20u64 {
        switch.refuse_after(granted);
        let (word, numbers) = add(rt, map, pass, at, 1, false);
        switch.refuse_after(u64::MAX);
        let value = map.look_up(rt, pass, at).expect(rt, "a value");
        if word == "" {
            return (
                granted,
                kept && numbers == [101, 0, 0] && value == Some(101),
            );
        }
        let back = numbers == [1, 0, 100] || map.form() == Form::Recorded;
        kept = kept && word == "no-memory" && value.is_none() && back;
    }
    (20, false)
}

#[test]
fn what_is_refused_leaves_no_value(rt: HostRuntime) {
    for form in BOTH {
        let alloc = Refusing::new(rt.alloc());
        let adding = AddAtLast {
            switch: &alloc,
            alloc: &alloc,
        };
        let (times, kept) = played(&rt, &alloc, (form, 1), &adding);
        // a lean map asks for the key's bytes alone where their bucket is empty
        let as_often = form == Form::Recorded || times == 1;
        assert_same(&rt, &(kept, as_often), &(true, true));
    }
}

/// What three calls of a number's key return while no request is granted: the first finds the map empty.
#[derive(Drop)]
struct FirstEntry<'a>(&'a Refusing<Global>);

impl<'a, A: Allocator + Clone> Play<u64, u64, Plus, A> for FirstEntry<'a> {
    type Told = [Option<Option<u64>>; 3];

    fn play<R: Wait + Abort>(
        &self,
        rt: &R,
        map: &Map<u64, u64, Plus, A>,
        pass: &mut Pass<u64, u64, Plus>,
        _others: &mut Vec<Pass<u64, u64, Plus>, A>,
    ) -> [Option<Option<u64>>; 3] {
        self.0.refuse_after(0);
        let adding = |value: &mut u64| -> Option<u64> { Some(replace(value, 11)) };
        let lent = map.modify_or_insert(rt, pass, &1, 10, adding);
        let taking = |value: Option<u64>| -> (Option<u64>, Option<u64>) { (None, value) };
        let given = map.update_owned(rt, pass, &1, taking);
        let put = map.put_as(rt, pass, &1, 12);
        self.0.refuse_after(u64::MAX);
        [lent.ok(), given.ok(), put.ok()]
    }
}

#[test]
fn the_first_entry_of_a_bucket_asks_for_no_memory(rt: HostRuntime) {
    let alloc = Refusing::new(rt.alloc());
    let told = played(&rt, &alloc, (Form::Lean, 1), &FirstEntry(&alloc));
    assert_same(&rt, &told, &[Some(Some(10)), Some(Some(11)), Some(None)]);
}

/// Of a modify, a modify or insert, an update and one that may fail that were tried: which were made, and
/// whose function was called.
type Tried = ([bool; 4], [bool; 4]);

/// Tries the four at a word that has a value.
fn try_at<A: Allocator + Clone>(map: &WordMap<A>, pass: &mut WordPass<A>, at: &Word<A>) -> Tried
    requires { pass.old.ledger ≡ map.now.ledger.id }
    ensures { pass.new.ledger ≡ map.now.ledger.id }
{
    let (mut lent, mut defaulted, mut given, mut placed) = (false, false, false, false);
    let modified = map
        .try_modify(pass, at, |value: &mut u64| {
            lent = true;
            *value = 1;
        })
        .is_some();
    let inserted = map
        .try_modify_or_insert(pass, at, 100, |value: &mut u64| {
            defaulted = true;
            *value = 2;
        })
        .is_some();
    let updated = map
        .try_update_owned(pass, at, |_value: Option<u64>| {
            given = true;
            (Some(3), ())
        })
        .is_some();
    let placing = |place: &mut Option<u64>| -> Result<(), ()>
        ensures { OnErr result (place.new ≡ place.old) }
    {
        placed = true;
        *place = Some(4);
        Ok(())
    };
    let kept = map.try_update_or_keep(pass, at, placing).is_some();
    (
        [modified, inserted, updated, kept],
        [lent, defaulted, given, placed],
    )
}

/// Tries the four at a word, whose value is 5, and looks for the value then: while another client looks at
/// it, if there is one.
#[derive(Drop)]
struct Trying<A: Allocator>(A);

impl<A: Allocator + Copy> Play<Word<A>, u64, Plus, A> for Trying<A> {
    type Told = (Tried, Option<u64>);

    fn play<R: Wait + Abort>(
        &self,
        rt: &R,
        map: &WordMap<A>,
        pass: &mut WordPass<A>,
        others: &mut Vec<WordPass<A>, A>,
    ) -> (Tried, Option<u64>) {
        let at = word_of(rt, self.0, "one");
        let put = map.put_as(rt, pass, at.bytes(), 5);
        assert_same(rt, &put.ok(), &Some(None));
        if others.len() == 1 {
            try_under_a_lock(rt, map, &mut others[0], pass, &at)
        } else {
            let free = try_at(map, pass, &at);
            (free, map.look_up(rt, pass, &at).expect(rt, "a value"))
        }
    }
}

/// Tries the four by the second client while the first looks at the word.
fn try_under_a_lock<R: Wait + Abort, A: Allocator + Clone>(
    rt: &R,
    map: &WordMap<A>,
    first: &mut WordPass<A>,
    second: &mut WordPass<A>,
    at: &Word<A>,
) -> (Tried, Option<u64>)
    requires first { first.old.ledger ≡ map.now.ledger.id }
    requires second { second.old.ledger ≡ map.now.ledger.id }
{
    let busy = map.view(
        rt,
        first,
        at,
        |_value|
            requires { second.now.ledger ≡ map.now.ledger.id }
        { try_at(map, second, at) },
    );
    (busy, map.look_up(rt, first, at).expect(rt, "a value"))
}

#[test]
fn a_busy_try_is_lent_and_given_nothing(rt: HostRuntime) {
    for form in BOTH {
        let alloc = Refusing::new(rt.alloc());
        let busy = played(&rt, &alloc, (form, 2), &Trying(&alloc));
        assert_same(&rt, &busy, &(([false; 4], [false; 4]), Some(5)));
        let free = played(&rt, &alloc, (form, 1), &Trying(&alloc));
        assert_same(&rt, &free, &(([true; 4], [true; 4]), Some(4)));
    }
}
