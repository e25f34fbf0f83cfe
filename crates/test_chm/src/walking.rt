//! Steps by a cursor, and retains: what a line of a script does with them.
ghost use Rattle.std.specs.Prelude.{◌≡◌};

use crate::lines::{DONE, Found, Words, number, refusal, small, told, truth};
use crate::maps::{KeyMap, KeyPass, assert_pairs, assert_same, count_in, sum_in};
use crate::steps::make;
use bin_history::Form;
use chm::{Cursor, NotRetained};
use count_ledger::retire_all;
use hashkeys::Key;
use std::alloc::{Allocator, Global};
use std::process::Abort;
use std::sync::Wait;
use test_helpers::Plus;
use test_maps::open;

/// Whose turn it is, where the walk has come to, the number of the run, memory for another map, and whether
/// a request was refused.
#[derive(Drop)]
pub(crate) struct Stage {
    pub(crate) client: usize,
    pub(crate) cursor: Cursor,
    pub(crate) turn: u64,
    pub(crate) memory: Global,
    pub(crate) refused: bool,
}

/// Goes on with the walk.
pub(crate) fn go<R: Wait + Abort, A: Allocator + Clone>(
    rt: &R,
    map: &KeyMap<A>,
    pass: &mut KeyPass,
    stage: &mut Stage,
    words: &Words<'_>,
) -> Found<'static>
    requires { pass.old.ledger ≡ map.now.ledger.id }
    ensures { pass.new.ledger ≡ map.now.ledger.id }
{
    match words[0] {
        // a walk from the beginning, by the table of the map, or of one that is opened with so many buckets
        "cursor" => {
            stage.cursor = if words[1] == "" {
                map.cursor()
            } else {
                cursor_of(rt, stage.memory, map.form(), number(rt, words[1]) as usize)
            };
        }
        // by this way the next step shows the bucket of the class of two numbers, which has these entries
        "step" => {
            let class = (small(rt, words[2]), small(rt, words[3]));
            step(
                rt,
                map,
                pass,
                &mut stage.cursor,
                words[1],
                class,
                &words[4..],
            );
        }
        // each of the next steps, from the class of this index on to that one, shows an empty bucket
        "empty_steps" => empty_steps(rt, map, pass, &mut stage.cursor, words),
        "at_end" => return truth(stage.cursor.is_at_end()),
        _ => return go_on(rt, map, pass, stage, words),
    }
    DONE
}

/// Goes on with the walk, and tells of it.
fn go_on<R: Wait + Abort, A: Allocator + Clone>(
    rt: &R,
    map: &KeyMap<A>,
    pass: &mut KeyPass,
    stage: &mut Stage,
    words: &Words<'_>,
) -> Found<'static>
    requires { pass.old.ledger ≡ map.now.ledger.id }
    ensures { pass.new.ledger ≡ map.now.ledger.id }
{
    let cursor = &mut stage.cursor;
    match words[0] {
        "visit" => visit(rt, map, pass, cursor),
        "rest" | "rest_in_wider" => rest_of(rt, map, pass, cursor, words[0]),
        "show_all" => show_all(rt, map, pass, cursor),
        "drop_rest" => drop_rest(rt, map, pass, cursor, number(rt, words[1])),
        _ => make(rt, map, pass, words),
    }
}

/// The cursor of a map that is opened with so many buckets.
fn cursor_of(rt: &impl Abort, memory: Global, form: Form, capacity: usize) -> Cursor {
    let (map, passes) = open::<Key, u64, Plus, Global>(memory, form, capacity, 1).expect(
        rt, "a map",
    );
    let cursor = map.cursor();
    retire_all(passes);
    cursor
}

/// Asserts that a step by this way shows the bucket of this class, which has these entries.
fn step<R: Wait + Abort, A: Allocator + Clone>(
    rt: &R,
    map: &KeyMap<A>,
    pass: &mut KeyPass,
    cursor: &mut Cursor,
    way: &str,
    class: (u32, u32),
    pairs: &[&str],
)
    requires { pass.old.ledger ≡ map.now.ledger.id }
    ensures { pass.new.ledger ≡ map.now.ledger.id }
{
    match way {
        "show" => {
            let shown = sum_next(rt, map, pass, cursor);
            assert_same(rt, &(class, shown), &(class, Some(sum_in(rt, pairs))));
        }
        "drop" => {
            let before = map.mapping_count();
            let taken = retain_next(rt, map, pass, cursor, u64::MAX);
            let gone = before.saturating_sub(map.mapping_count());
            assert_same(rt, &(class, taken), &(class, Ok(Some(gone))));
            assert_same(rt, &(class, gone), &(class, count_in(pairs)));
        }
        _ => visit_part(rt, map, pass, cursor, way == "try", class, pairs),
    }
}

/// A step that copies the entries.
fn visit_part<R: Wait + Abort, A: Allocator + Clone>(
    rt: &R,
    map: &KeyMap<A>,
    pass: &mut KeyPass,
    cursor: &mut Cursor,
    tries: bool,
    class: (u32, u32),
    pairs: &[&str],
)
    requires { pass.old.ledger ≡ map.now.ledger.id }
    ensures { pass.new.ledger ≡ map.now.ledger.id }
{
    let shown = if tries {
        map.try_visit_next(pass, cursor)
            .expect(rt, "a bucket that nobody locks")
    } else {
        map.visit_next(rt, pass, cursor)
    };
    let visit = shown.expect(rt, "memory").expect(rt, "a bucket");
    assert_pairs(rt, &visit.entries, pairs);
    assert_same(rt, &(visit.class.n(), visit.class.index()), &class);
}

/// Steps by the way of the first word over buckets that are empty: of a table of so many, from an index on
/// to another.
fn empty_steps<R: Wait + Abort, A: Allocator + Clone>(
    rt: &R,
    map: &KeyMap<A>,
    pass: &mut KeyPass,
    cursor: &mut Cursor,
    words: &Words<'_>,
)
    requires { pass.old.ledger ≡ map.now.ledger.id }
    ensures { pass.new.ledger ≡ map.now.ledger.id }
{
    let n = small(rt, words[2]);
    for index in small(rt, words[3])..small(rt, words[4]) {
        step(rt, map, pass, cursor, words[1], (n, index), &[]);
    }
}

/// The sum of the values that the next step shows, and none at the end.
fn sum_next<R: Wait, A: Allocator + Clone>(
    rt: &R,
    map: &KeyMap<A>,
    pass: &mut KeyPass,
    cursor: &mut Cursor,
) -> Option<u64>
    requires { pass.old.ledger ≡ map.now.ledger.id }
    ensures { pass.new.ledger ≡ map.now.ledger.id }
{
    let mut sum = 0u64;
    let mut add = |_key: &Key, value: &u64| sum = sum.saturating_add(*value);
    let some = map.show_next(rt, pass, cursor, &mut add);
    if some { Some(sum) } else { None }
}

/// The sum of all values by steps that copy nothing, and whether there was a step for each of 16 buckets.
fn show_all<R: Wait, A: Allocator + Clone>(
    rt: &R,
    map: &KeyMap<A>,
    pass: &mut KeyPass,
    cursor: &mut Cursor,
) -> Found<'static>
    requires { pass.old.ledger ≡ map.now.ledger.id }
    ensures { pass.new.ledger ≡ map.now.ledger.id }
{
    let mut sum = 0u64;
    let mut steps = 0u64;
    for _ in rt.forever() {
        let Some(shown) = sum_next(rt, map, pass, cursor) else {
            break;
        };
        sum = sum.saturating_add(shown);
        steps = steps.saturating_add(1);
    }
    ("", [sum, u64::from(steps >= 16), 0])
}

/// The entries of the next bucket are counted.
fn visit<R: Wait, A: Allocator + Clone>(
    rt: &R,
    map: &KeyMap<A>,
    pass: &mut KeyPass,
    cursor: &mut Cursor,
) -> Found<'static>
    requires { pass.old.ledger ≡ map.now.ledger.id }
    ensures { pass.new.ledger ≡ map.now.ledger.id }
{
    match map.visit_next(rt, pass, cursor) {
        Ok(Some(visit)) => told(visit.entries.len() as u64),
        Ok(None) => ("none", [0; 3]),
        Err(fault) => (refusal(fault), [0; 3]),
    }
}

/// How many buckets are left of a walk, and how many entries they have; or how many entries, and whether
/// one of the buckets is of more than 16.
fn rest_of<R: Wait + Abort, A: Allocator + Clone>(
    rt: &R,
    map: &KeyMap<A>,
    pass: &mut KeyPass,
    cursor: &mut Cursor,
    told: &str,
) -> Found<'static>
    requires { pass.old.ledger ≡ map.now.ledger.id }
    ensures { pass.new.ledger ≡ map.now.ledger.id }
{
    let mut buckets = 0u64;
    let mut entries = 0u64;
    let mut wider = false;
    for _ in rt.forever() {
        let Some(visit) = map.visit_next(rt, pass, cursor).expect(rt, "memory") else {
            break;
        };
        buckets = buckets.saturating_add(1);
        entries = entries.saturating_add(visit.entries.len() as u64);
        wider = wider || visit.class.n() > 16;
    }
    if told == "rest" {
        ("", [buckets, entries, 0])
    } else {
        ("", [entries, u64::from(wider), 0])
    }
}

/// A step of a retain of all values above this one.
fn retain_next<R: Wait, A: Allocator + Clone>(
    rt: &R,
    map: &KeyMap<A>,
    pass: &mut KeyPass,
    cursor: &mut Cursor,
    least: u64,
) -> Result<Option<u64>, NotRetained>
    requires { pass.old.ledger ≡ map.now.ledger.id }
    ensures { pass.new.ledger ≡ map.now.ledger.id }
{
    let mut keeps = |_key: &Key, value: &u64| *value > least;
    map.retain_next(rt, pass, cursor, &mut keeps)
}

/// Drops all entries but those of a value above this one in the buckets that are left of a walk. Returns
/// how many steps there were, and how many entries they removed by what they return; or the fault.
fn drop_rest<R: Wait, A: Allocator + Clone>(
    rt: &R,
    map: &KeyMap<A>,
    pass: &mut KeyPass,
    cursor: &mut Cursor,
    least: u64,
) -> Found<'static>
    requires { pass.old.ledger ≡ map.now.ledger.id }
    ensures { pass.new.ledger ≡ map.now.ledger.id }
{
    let mut steps = 0u64;
    let mut removed = 0u64;
    for _ in rt.forever() {
        match retain_next(rt, map, pass, cursor, least) {
            Ok(Some(some)) => {
                steps = steps.saturating_add(1);
                removed = removed.saturating_add(some);
            }
            Ok(None) => return ("", [steps, removed, 0]),
            Err(e) => return (refusal(e.fault), [0; 3]),
        }
    }
    unreachable!()
}

/// Retains the entries whose values are above this one. Returns how many are removed.
pub(crate) fn keep_above<R: Wait, A: Allocator + Clone>(
    rt: &R,
    map: &KeyMap<A>,
    pass: &mut KeyPass,
    least: u64,
) -> Found<'static>
    requires { pass.old.ledger ≡ map.now.ledger.id }
    ensures { pass.new.ledger ≡ map.now.ledger.id }
{
    let mut keeps = |_key: &Key, value: &u64| *value > least;
    retained(map.retain(rt, pass, &mut keeps), 0, false)
}

/// Removes every second entry for which the function is called, the first among them. Returns how many
/// were removed, how often the function was called, and whether each call was for the entry behind that of
/// the call before.
pub(crate) fn every_second<R: Wait, A: Allocator + Clone>(
    rt: &R,
    map: &KeyMap<A>,
    pass: &mut KeyPass,
) -> Found<'static>
    requires { pass.old.ledger ≡ map.now.ledger.id }
    ensures { pass.new.ledger ≡ map.now.ledger.id }
{
    let mut calls = 0u64;
    let mut in_order = true;
    let mut next = 0u64;
    let result = map.retain(
        rt,
        pass,
        &mut |_key: &Key, value: &u64| {
            in_order = in_order && *value == next;
            next = value.wrapping_add(1);
            calls = calls.wrapping_add(1);
            calls % 2 == 0
        },
    );
    retained(result, calls, in_order)
}

/// How a retain ended, how many entries it removed, how often its function was called, and whether in
/// order.
fn retained(made: Result<u64, NotRetained>, calls: u64, in_order: bool) -> Found<'static> {
    let (word, removed) = match made {
        Ok(removed) => ("", removed),
        Err(e) => (refusal(e.fault), e.removed),
    };
    (word, [removed, calls, u64::from(in_order)])
}
