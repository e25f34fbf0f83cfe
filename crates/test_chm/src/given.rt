//! Calls that lend or give a value to a function, and calls by what makes their key: what a line does
//! with them.
ghost use Rattle.std.specs.Prelude.{◌≡◌, OnErr};

use crate::lines::{Found, Words, optional, refusal, value};
use crate::updating::change_to;
use bin_history::Form;
use chm::{Change, Fault, Map, NotMade};
use count_ledger::Pass;
use hashkeys::ByteString;
use std::alloc::Allocator;
use std::mem::replace;
use std::process::Abort;
use std::sync::Wait;
use test_helpers::Plus;

pub(crate) type Word<A> = ByteString<A>;

pub(crate) type WordMap<A> = Map<Word<A>, u64, Plus, A>;

pub(crate) type WordPass<A> = Pass<Word<A>, u64, Plus>;

/// A key of its own memory.
pub(crate) fn word_of<A: Allocator>(rt: &impl Abort, alloc: A, text: &str) -> Word<A> {
    ByteString::new(text.as_bytes().to_vec(alloc).expect(rt, "memory"))
}

/// What a call returned; or the fault, and the value that came back, which is 0 where only a function did.
type Outcome = Result<Option<u64>, (Fault, Option<u64>)>;

/// How a call ended that was given a function.
fn ended<D: Drop>(made: Result<Option<u64>, NotMade<D>>) -> Outcome {
    match made {
        Ok(found) => Ok(found),
        Err(error) => {
            let back = if error.given.is_some() { Some(0) } else { None };
            Err((error.fault, back))
        }
    }
}

/// How a call ended that was given a value.
fn ended_put(made: Result<Option<u64>, NotMade<u64>>) -> Outcome {
    match made {
        Ok(found) => Ok(found),
        Err(error) => Err((error.fault, error.given)),
    }
}

/// How a call ended that was given a value and a function.
fn ended_both<G: Drop>(made: Result<Option<u64>, NotMade<(u64, G)>>) -> Outcome {
    match made {
        Ok(found) => Ok(found),
        Err(NotMade { fault, given }) => match given {
            Some((value, _function)) => Err((fault, Some(value))),
            None => Err((fault, None)),
        },
    }
}

/// What was returned; or the fault, whether what was given came back with it, whether the function was
/// called, and the value that came back.
fn tell(outcome: Outcome, called: bool) -> Found<'static> {
    match outcome {
        Ok(returned) => value(returned),
        Err((fault, back)) => (
            refusal(fault),
            [
                u64::from(back.is_some()),
                u64::from(called),
                back.unwrap_or(0),
            ],
        ),
    }
}

/// Takes this from what lies at a place, which is left as it was where there is less; or puts it there.
fn spend(place: &mut Option<u64>, amount: u64, puts: bool) -> Result<Option<u64>, ()>
    ensures { OnErr result (place.new ≡ place.old) }
{
    if puts {
        let before = *place;
        *place = Some(amount);
        return Ok(before);
    }
    match *place {
        Some(value) if value > amount => {
            *place = Some(value - amount);
            Ok(*place)
        }
        Some(value) if value == amount => {
            *place = None;
            Ok(Some(0))
        }
        _ => Err(()),
    }
}

/// What is left of a value from which another is taken, if anything is.
fn less(old: u64, new: u64) -> Option<u64> {
    if old > new { Some(old - new) } else { None }
}

/// Adds this to the value, or to 100. Finds the sum.
pub(crate) fn add<R: Wait + Abort, A: Allocator + Clone>(
    rt: &R,
    map: &WordMap<A>,
    pass: &mut WordPass<A>,
    word: &Word<A>,
    more: u64,
    tries: bool,
) -> Found<'static>
    requires { pass.old.ledger ≡ map.now.ledger.id }
    ensures { pass.new.ledger ≡ map.now.ledger.id }
{
    let mut called = false;
    let adding = |value: &mut u64| -> Option<u64> {
        called = true;
        *value = value.wrapping_add(more);
        Some(*value)
    };
    let made = if tries {
        map.try_modify_or_insert(pass, word, 100, adding)
            .expect(rt, "a free bucket")
    } else {
        map.modify_or_insert(rt, pass, word, 100, adding)
    };
    let outcome = ended_both(made);
    tell(outcome, called)
}

/// Takes this from the value, which goes where nothing is left. Finds what is left, and none where it is
/// less. Or puts this in the place of the value, which is found.
fn spend_at<R: Wait + Abort, A: Allocator + Clone>(
    rt: &R,
    map: &WordMap<A>,
    pass: &mut WordPass<A>,
    word: &Word<A>,
    amount: u64,
    act: &str,
) -> Found<'static>
    requires { pass.old.ledger ≡ map.now.ledger.id }
    ensures { pass.new.ledger ≡ map.now.ledger.id }
{
    let puts = act != "spend";
    let mut called = false;
    let spending = |place: &mut Option<u64>| -> Result<Option<u64>, ()>
        ensures { OnErr result (place.new ≡ place.old) }
    {
        called = true;
        spend(place, amount, puts)
    };
    let made = if act == "try_place" {
        map.try_update_or_keep(pass, word, spending)
            .expect(rt, "a free bucket")
    } else {
        map.update_or_keep(rt, pass, word, spending)
    };
    let outcome = ended(left_by(made));
    tell(outcome, called)
}

/// What a function left, and none where it failed.
fn left_by<D: Drop>(
    made: Result<Result<Option<u64>, ()>, NotMade<D>>,
) -> Result<Option<u64>, NotMade<D>> {
    match made {
        Ok(Ok(left)) => Ok(left),
        Ok(Err(())) => Ok(None),
        Err(error) => Err(error),
    }
}

/// This takes the place of no value, or is taken from the value, which goes where nothing is left. Finds 1
/// where there was a value.
fn merge<R: Wait, A: Allocator + Clone>(
    rt: &R,
    map: &WordMap<A>,
    pass: &mut WordPass<A>,
    word: &Word<A>,
    value: u64,
) -> Found<'static>
    requires { pass.old.ledger ≡ map.now.ledger.id }
    ensures { pass.new.ledger ≡ map.now.ledger.id }
{
    let outcome = match map.merge_as(rt, pass, word.bytes(), value, less) {
        Ok(true) => Ok(Some(1)),
        Ok(false) => Ok(None),
        Err(error) => ended_both(Err(error)),
    };
    tell(outcome, false)
}

/// This takes the place of the value that the function is lent, which is found; by the key, or in a lean map
/// by its bytes.
fn modify<R: Wait, A: Allocator + Clone>(
    rt: &R,
    map: &WordMap<A>,
    pass: &mut WordPass<A>,
    word: &Word<A>,
    new: u64,
    by_bytes: bool,
) -> Found<'static>
    requires { pass.old.ledger ≡ map.now.ledger.id }
    ensures { pass.new.ledger ≡ map.now.ledger.id }
{
    let changing = move |value: &mut u64| -> u64 { replace(value, new) };
    let modified = if by_bytes && map.form() == Form::Lean {
        map.modify_as(rt, pass, word.bytes(), changing)
    } else {
        map.modify(rt, pass, word, changing)
    };
    match modified {
        Ok(found) => value(found),
        Err(fault) => (refusal(fault), [0; 3]),
    }
}

/// The function gets the value, which is found, and leaves this.
fn own<R: Wait + Abort, A: Allocator + Clone>(
    rt: &R,
    map: &WordMap<A>,
    pass: &mut WordPass<A>,
    word: &Word<A>,
    left: Option<u64>,
    tries: bool,
) -> Found<'static>
    requires { pass.old.ledger ≡ map.now.ledger.id }
    ensures { pass.new.ledger ≡ map.now.ledger.id }
{
    let mut called = false;
    let owning = |value: Option<u64>| -> (Option<u64>, Option<u64>) {
        called = true;
        (left, value)
    };
    let made = if tries {
        map.try_update_owned(pass, word, owning)
            .expect(rt, "a free bucket")
    } else {
        map.update_owned(rt, pass, word, owning)
    };
    let outcome = ended(made);
    tell(outcome, called)
}

/// The function is shown the value, which is found, and makes this change.
fn change<R: Wait, A: Allocator + Clone>(
    rt: &R,
    map: &WordMap<A>,
    pass: &mut WordPass<A>,
    word: &Word<A>,
    change: Change<u64>,
) -> Found<'static>
    requires { pass.old.ledger ≡ map.now.ledger.id }
    ensures { pass.new.ledger ≡ map.now.ledger.id }
{
    let mut called = false;
    let showing = |value: Option<&u64>| -> (Change<u64>, Option<u64>) {
        called = true;
        (change, value.copied())
    };
    let outcome = ended(map.update_as(rt, pass, word.bytes(), showing));
    tell(outcome, called)
}

/// Does what the second word says with the number of the third.
pub(crate) fn act<R: Wait + Abort, A: Allocator + Clone>(
    rt: &R,
    map: &WordMap<A>,
    pass: &mut WordPass<A>,
    word: &Word<A>,
    words: &Words<'_>,
) -> Found<'static>
    requires { pass.old.ledger ≡ map.now.ledger.id }
    ensures { pass.new.ledger ≡ map.now.ledger.id }
{
    let given = optional(rt, words[2]);
    let n = given.unwrap_or(0);
    match words[1] {
        "modify" => modify(rt, map, pass, word, n, false),
        "modify_bytes" => modify(rt, map, pass, word, n, true),
        "add" | "try_add" => add(rt, map, pass, word, n, words[1] == "try_add"),
        "own" | "try_own" => own(rt, map, pass, word, given, words[1] == "try_own"),
        "spend" | "place" | "try_place" => spend_at(rt, map, pass, word, n, words[1]),
        _ => give(rt, map, pass, word, words, n),
    }
}

/// Does by the bytes of a word what the second word of a line says with this number.
fn give<R: Wait + Abort, A: Allocator + Clone>(
    rt: &R,
    map: &WordMap<A>,
    pass: &mut WordPass<A>,
    word: &Word<A>,
    words: &Words<'_>,
    n: u64,
) -> Found<'static>
    requires { pass.old.ledger ≡ map.now.ledger.id }
    ensures { pass.new.ledger ≡ map.now.ledger.id }
{
    match words[1] {
        "put" => tell(ended_put(map.put_as(rt, pass, word.bytes(), n)), false),
        "put_if_absent" => {
            let made = map.put_if_absent_as(rt, pass, word.bytes(), n);
            tell(ended_put(made), false)
        }
        "merge" => merge(rt, map, pass, word, n),
        "look" => value(map.look_up(rt, pass, word).expect(rt, "a value")),
        _ => change(rt, map, pass, word, change_to(rt, words[1], words[2])),
    }
}
