//! Steps of clients of one map: what a line of a script does.
ghost use Rattle.std.specs.Prelude.{◌≡◌, All};

use crate::lines::{
    DONE, Found, Words, cut, done_or_fault, form_word, number, numbers_or_fault, optional,
    reply_or_fault, small, told, truth, value, value_or_fault, wanted_of, words_of,
};
use crate::maps::{
    KeyMap, KeyPass, assert_same, count_all, count_numbers, get_often, key, put_and_get,
    put_in_turns, put_numbers, put_of_one_hash,
};
use crate::memory::ask;
use crate::reading::{classes, look_up_by, show_among, show_bucket, step_at, walked};
use crate::updating::{change_to, fill, update};
use crate::walking::{Stage, every_second, go, keep_above};
use hashkeys::Key;
use std::alloc::{Allocator, Global};
use std::process::Abort;
use std::sync::Wait;
use test_helpers::Plus;
use test_support::Refusing;

/// Does what the lines say, and asserts for each that what it says is found.
pub(crate) fn follow<R: Wait + Abort, A: Allocator + Clone>(
    rt: &R,
    switch: &Refusing<Global>,
    map: &KeyMap<A>,
    passes: &mut Vec<KeyPass, A>,
    stage: &mut Stage,
    script: (&str, &str),
)
    requires { All (λ p. p.ledger ≡ map.now.ledger.id) passes.old.items }
    ensures { All (λ p. p.ledger ≡ map.now.ledger.id) passes.new.items }
{
    let (lines, row) = script;
    for line in lines.lines() {
        let words = words_of(rt, cut(line, "=").0, row);
        let found = do_line(rt, switch, map, passes, stage, &words);
        stage.refused = stage.refused || switch.has_refused();
        let wanted = wanted_of(rt, line, row, stage.refused);
        assert_same(rt, &(line, row, found), &(line, row, wanted));
    }
}

/// What all clients do, or the one whose turn it is.
fn do_line<R: Wait + Abort, A: Allocator + Clone>(
    rt: &R,
    switch: &Refusing<Global>,
    map: &KeyMap<A>,
    passes: &mut Vec<KeyPass, A>,
    stage: &mut Stage,
    words: &Words<'_>,
) -> Found<'static>
    requires { All (λ p. p.ledger ≡ map.now.ledger.id) passes.old.items }
    ensures { All (λ p. p.ledger ≡ map.now.ledger.id) passes.new.items }
{
    match words[0] {
        "" => DONE,
        // the lines that follow are of the client of this number
        "as" => {
            stage.client = number(rt, words[1]) as usize;
            DONE
        }
        "count_all" => told(count_all(rt, map, passes)),
        "turns" => {
            put_in_turns(rt, map, passes, small(rt, words[1]), small(rt, words[2]));
            DONE
        }
        _ => {
            assert!(rt; stage.client < passes.len());
            tell(rt, switch, map, &mut passes[stage.client], stage, words)
        }
    }
}

/// What the map and the pass count, and what requests are refused.
fn tell<R: Wait + Abort, A: Allocator + Clone>(
    rt: &R,
    switch: &Refusing<Global>,
    map: &KeyMap<A>,
    pass: &mut KeyPass,
    stage: &mut Stage,
    words: &Words<'_>,
) -> Found<'static>
    requires { pass.old.ledger ≡ map.now.ledger.id }
    ensures { pass.new.ledger ≡ map.now.ledger.id }
{
    match words[0] {
        "made" => told(pass.made()),
        "balance" => told(map.balance(pass)),
        "client" => told(u64::from(pass.client())),
        "form" => form_word(map.form()),
        "clients" => told(u64::from(map.clients())),
        "count" => told(map.mapping_count()),
        "refused" => truth(switch.has_refused()),
        "grant" => {
            switch.refuse_after(granted(rt, stage, words[1]));
            DONE
        }
        "skip" => DONE,
        _ => do_much(rt, switch, map, pass, stage, words),
    }
}

/// How many requests are granted before the one that is refused; `@` is the number of the run.
fn granted(rt: &impl Abort, stage: &Stage, word: &str) -> u64 {
    if word == "@" {
        stage.turn
    } else {
        number(rt, word)
    }
}

/// Many calls by one line.
fn do_much<R: Wait + Abort, A: Allocator + Clone>(
    rt: &R,
    switch: &Refusing<Global>,
    map: &KeyMap<A>,
    pass: &mut KeyPass,
    stage: &mut Stage,
    words: &Words<'_>,
) -> Found<'static>
    requires { pass.old.ledger ≡ map.now.ledger.id }
    ensures { pass.new.ledger ≡ map.now.ledger.id }
{
    match words[0] {
        // so many new keys, from the one of this number on
        "numbers" => put_numbers(rt, map, pass, small(rt, words[1]), small(rt, words[2])),
        "put_and_get" => put_and_get(rt, map, pass, small(rt, words[1])),
        // so many gets of `a`, each of which finds this value
        "often" => get_often(rt, map, pass, small(rt, words[1]), number(rt, words[2])),
        // keys of one hash, of so many blocks, from this number to that one
        "twins" => put_of_one_hash(rt, map, pass, words),
        "fill" => fill(rt, map, pass, words[1], small(rt, words[2])),
        "found" => return told(count_numbers(rt, map, pass)),
        "put_alone" | "call_often" | "put_twins" | "put_again" => {
            return ask(rt, switch, map, pass, words);
        }
        _ => return read(rt, map, pass, stage, words),
    }
    DONE
}

/// Reads.
fn read<R: Wait + Abort, A: Allocator + Clone>(
    rt: &R,
    map: &KeyMap<A>,
    pass: &mut KeyPass,
    stage: &mut Stage,
    words: &Words<'_>,
) -> Found<'static>
    requires { pass.old.ledger ≡ map.now.ledger.id }
    ensures { pass.new.ledger ≡ map.now.ledger.id }
{
    match words[0] {
        "glance" => value_or_fault(map.glance(rt, &key_of(rt, words))),
        "view" => value(map.view(rt, pass, &key_of(rt, words), own)),
        // buckets, entries, and the sum of their values
        "walk" => numbers_or_fault(walked(rt, map, pass)),
        "walk_entries" => told(walked(rt, map, pass).expect(rt, "memory")[1]),
        "classes" => told(classes(rt, map, pass)),
        "bucket" => show_bucket(rt, map, pass, words),
        "among" => show_among(rt, map, pass, words),
        "at" => step_at(rt, map, pass, number(rt, words[1])),
        "get_as" | "contains_as" | "remove_as" => look_up_by(rt, map, pass, words),
        _ => change(rt, map, pass, stage, words),
    }
}

/// The value that is shown, as a number of its own.
pub(crate) fn own(value: Option<&u64>) -> Option<u64> {
    value.copied()
}

/// The key that a line names.
fn key_of(rt: &impl Abort, words: &Words<'_>) -> Key {
    key(rt, words[1].as_bytes())
}

/// Changes by a function.
fn change<R: Wait + Abort, A: Allocator + Clone>(
    rt: &R,
    map: &KeyMap<A>,
    pass: &mut KeyPass,
    stage: &mut Stage,
    words: &Words<'_>,
) -> Found<'static>
    requires { pass.old.ledger ≡ map.now.ledger.id }
    ensures { pass.new.ledger ≡ map.now.ledger.id }
{
    match words[0] {
        // a function that is called once and answers the value that it was shown
        "update" => {
            let change = change_to(rt, words[3], words[4]);
            let at = key(rt, words[2].as_bytes());
            value_or_fault(update(rt, map, pass, at, words[1], change))
        }
        "clear" => done_or_fault(map.clear(rt, pass).err()),
        // all entries go but those of a value above this one
        "keep_above" => keep_above(rt, map, pass, number(rt, words[1])),
        "every_second" => every_second(rt, map, pass),
        _ => go(rt, map, pass, stage, words),
    }
}

/// Makes the call of this name on the key of the next word.
pub(crate) fn make<R: Wait + Abort, A: Allocator + Clone>(
    rt: &R,
    map: &KeyMap<A>,
    pass: &mut KeyPass,
    words: &Words<'_>,
) -> Found<'static>
    requires { pass.old.ledger ≡ map.now.ledger.id }
    ensures { pass.new.ledger ≡ map.now.ledger.id }
{
    let at = key_of(rt, words);
    let first = optional(rt, words[2]);
    let second = optional(rt, words[3]);
    let n = first.unwrap_or(0);
    let reply = match words[0] {
        "get" => map.get(rt, pass, at),
        "contains" => map.contains_key(rt, pass, at),
        "put" => map.put(rt, pass, at, n),
        "put_if_absent" => map.put_if_absent(rt, pass, at, n),
        "remove" => map.remove(rt, pass, at),
        "remove_if" => map.remove_if(rt, pass, at, n),
        "replace" => map.replace(rt, pass, at, n),
        "replace_if" => map.replace_if(rt, pass, at, n, second.unwrap_or(0)),
        "compute_if_absent" => map.compute_if_absent(rt, pass, at, Plus(first)),
        "compute_if_present" => map.compute_if_present(rt, pass, at, Plus(first)),
        "compute" => map.compute(rt, pass, at, Plus(first)),
        "merge" => map.merge(rt, pass, at, n, Plus(second)),
        _ => {
            assert!(rt; false, "a call");
            unreachable!()
        }
    };
    reply_or_fault(reply)
}
