//! What calls do while requests for memory are refused: a retain and a clear copy no value, and what was
//! given to a call comes back unless its function was called.
ghost use Rattle.std.specs.Prelude.{◌≡◌};

use crate::given::{Word, WordMap, WordPass, act, word_of};
use crate::lines::{DONE, Found, Words, cut, wanted_of, words_of};
use crate::maps::assert_same;
use crate::plays::{Play, played};
use crate::viewing::put_in;
use bin_history::Form;
use chm::{Fault, Map};
use count_ledger::Pass;
use hashkeys::Key;
use std::alloc::{Allocator, Global};
use std::process::Abort;
use std::sync::Wait;
use test_helpers::{Alloc, Answer, Number, Plus};
use test_maps::{BOTH, numbered_text};
use test_support::Refusing;

/// A map of values whose copies ask for memory.
type NumberMap<'a> = Map<Key, Number<'a>, Answer<'a>, Alloc<'a>>;

type NumberPass<'a> = Pass<Key, Number<'a>, Answer<'a>>;

/// Puts the numbers 0 to 9 at keys of their own.
fn put_ten<'a, R: Wait + Abort>(
    rt: &R,
    alloc: Alloc<'a>,
    map: &NumberMap<'a>,
    pass: &mut NumberPass<'a>,
)
    requires { pass.old.ledger ≡ map.now.ledger.id }
    ensures { pass.new.ledger ≡ map.now.ledger.id }
{
    for number in 0..10u32 {
        let value = Number {
            number: u64::from(number),
            alloc,
        };
        put_in(rt, map, pass, &numbered_text(number), value);
    }
}

/// Removes the numbers below 5 in one go. Returns how many.
fn remove_low<'a, R: Wait>(
    rt: &R,
    map: &NumberMap<'a>,
    pass: &mut NumberPass<'a>,
) -> Result<u64, Fault>
    requires { pass.old.ledger ≡ map.now.ledger.id }
    ensures { pass.new.ledger ≡ map.now.ledger.id }
{
    let mut keeps = |_key: &Key, value: &Number<'_>| value.number >= 5;
    let removed = map.retain(rt, pass, &mut keeps)?;
    Ok(removed)
}

/// Removes the numbers below 8 bucket by bucket. Returns how many.
fn remove_by_steps<'a, R: Wait>(
    rt: &R,
    map: &NumberMap<'a>,
    pass: &mut NumberPass<'a>,
) -> Result<u64, Fault>
    requires { pass.old.ledger ≡ map.now.ledger.id }
    ensures { pass.new.ledger ≡ map.now.ledger.id }
{
    let mut cursor = map.cursor();
    let mut steps = 0u64;
    let mut keeps = |_key: &Key, value: &Number<'_>| value.number >= 8;
    for _ in rt.forever() {
        let Some(removed) = map.retain_next(rt, pass, &mut cursor, &mut keeps)? else {
            break;
        };
        steps = steps.saturating_add(removed);
    }
    Ok(steps)
}

/// Ten entries go while no request is granted: the values below 5 in one go, the next three bucket by
/// bucket, and the others by a clear. Tells how many each removed, how many calls were made, and how many
/// keys are left.
#[derive(Drop)]
struct RemoveAll<'a>(Alloc<'a>);

impl<'a> Play<Key, Number<'a>, Answer<'a>, Alloc<'a>> for RemoveAll<'a> {
    type Told = ([Option<u64>; 2], bool, [u64; 2]);

    fn play<R: Wait + Abort>(
        &self,
        rt: &R,
        map: &NumberMap<'a>,
        pass: &mut NumberPass<'a>,
        _others: &mut Vec<NumberPass<'a>, Alloc<'a>>,
    ) -> ([Option<u64>; 2], bool, [u64; 2]) {
        put_ten(rt, self.0, map, pass);
        self.0.refuse_after(0);
        let low = remove_low(rt, map, pass).ok();
        let steps = remove_by_steps(rt, map, pass).ok();
        let cleared = map.clear(rt, pass).is_ok();
        self.0.refuse_after(u64::MAX);
        ([low, steps], cleared, [pass.made(), map.balance(pass)])
    }
}

#[test]
fn a_retain_of_a_lean_map_copies_no_value(rt: HostRuntime) {
    let alloc = Refusing::new(rt.alloc());
    let told = played(&rt, &alloc, (Form::Lean, 1), &RemoveAll(&alloc));
    assert_same(&rt, &told, &([Some(5), Some(3)], true, [20, 0]));
}

/// Makes the call of a line on a word that has no value, with one request more granted each time, until it
/// is made.
#[derive(Drop)]
struct MakeAtLast<'a, A: Allocator> {
    switch: &'a Refusing<Global>,
    alloc: A,
    line: &'a str,
}

impl<'a, A: Allocator + Copy> Play<Word<A>, u64, Plus, A> for MakeAtLast<'a, A> {
    type Told = ();

    fn play<R: Wait + Abort>(
        &self,
        rt: &R,
        map: &WordMap<A>,
        pass: &mut WordPass<A>,
        _others: &mut Vec<WordPass<A>, A>,
    ) {
        assert_back(rt, (self.switch, self.alloc), map, pass, self.line)
    }
}

/// Asserts that what the line says is found when no request is granted, and that what was given comes back
/// each time, unless a function was called.
fn assert_back<R: Wait + Abort, A: Allocator + Copy>(
    rt: &R,
    memory: (&Refusing<Global>, A),
    map: &WordMap<A>,
    pass: &mut WordPass<A>,
    line: &str,
)
    requires { pass.old.ledger ≡ map.now.ledger.id }
    ensures { pass.new.ledger ≡ map.now.ledger.id }
{
    let (switch, alloc) = memory;
    let words = words_of(rt, cut(line, "=").0, "");
    let at = word_of(rt, alloc, words[0]);
    let (found, wrong) = make_at_last(rt, switch, map, pass, &at, &words);
    let wanted = wanted_of(rt, line, "", false);
    assert_same(rt, &(line, found), &(line, wanted));
    assert_same(rt, &(line, wrong), &(line, 0));
}

/// Whether a call calls a function whatever the word has.
fn calls_always(act: &str) -> bool {
    act == "add" || act == "own" || act == "place" || act == "set"
}

/// What was found the first time, when no request was granted; and how often what was given was kept though
/// no function was called, or came back though one was.
fn make_at_last<R: Wait + Abort, A: Allocator + Clone>(
    rt: &R,
    switch: &Refusing<Global>,
    map: &WordMap<A>,
    pass: &mut WordPass<A>,
    at: &Word<A>,
    words: &Words<'_>,
) -> (Found<'static>, u64)
    requires { pass.old.ledger ≡ map.now.ledger.id }
    ensures { pass.new.ledger ≡ map.now.ledger.id }
{
    let mut first = DONE;
    let mut wrong = 0u64;
    for granted in 0..20u64 {
        switch.refuse_after(granted);
        let found = act(rt, map, pass, at, words);
        switch.refuse_after(u64::MAX);
        if found.0 != "no-memory" {
            return (first, wrong);
        }
        if granted == 0 {
            first = found;
        }
        // the first number says whether what was given came back, the second whether a function was called
        let is_wrong = calls_always(words[1]) && found.1[0] == found.1[1];
        wrong = wrong.saturating_add(u64::from(is_wrong));
    }
    (DONE, wrong)
}

/// The calls, and what each finds when no request is granted: what was given comes back, no function is
/// called, and the value is the one that was given.
const CALLS: &str = "one add 1 = no-memory 1 0 100
    one own 7 = no-memory 1 0
    one place 7 = no-memory 1 0
    one put 7 = no-memory 1 0 7
    one put_if_absent 7 = no-memory 1 0 7
    one merge 7 = no-memory 1 0 7
    one set 7 = no-memory 1 0";

#[test]
fn what_was_given_comes_back_unless_it_was_used(rt: HostRuntime) {
    for form in BOTH {
        for line in CALLS.lines() {
            let alloc = Refusing::new(rt.alloc());
            let making = MakeAtLast {
                switch: &alloc,
                alloc: &alloc,
                line,
            };
            played(&rt, &alloc, (form, 1), &making);
        }
    }
}
