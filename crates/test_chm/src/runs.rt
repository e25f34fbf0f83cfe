//! Runs of scripts. The first line opens a map, and the lines after it are steps of its clients. Behind
//! `close` are lines of the closed map; behind `reopen` steps of the clients of the map that is opened with
//! its pairs, and behind another `close` lines of that one; and at `take` the pairs of both are taken out.
//! A close, a reopening or a taking that is refused is made again, with all requests granted.
ghost use Rattle.std.specs.Prelude.{◌≡◌, All, IfOk};

use crate::closed::look_at;
use crate::lines::{Words, cut, done_or_fault, number, refusal, small, wanted_of, words_of};
use crate::maps::{KeyMap, KeyOpened, KeyPass, KeyQuiet, assert_pairs, assert_same};
use crate::steps::follow;
use crate::walking::Stage;
use bin_history::Form;
use chm::{Fault, NotClosed};
use hashkeys::{Key, Salt};
use std::alloc::{Allocator, Global};
use std::process::Abort;
use std::sync::Wait;
use test_maps::{close, open_salted};
use test_support::Refusing;

/// The rows of a script that is run on a map of each form.
pub(crate) const BOTH_FORMS: &str = "recorded
lean";

/// The row of a run, after how many requests one is refused where the script says `@`, where the map is
/// opened again and where pairs are taken out, and memory.
#[derive(Clone, Copy)]
pub(crate) struct Turn<'a> {
    row: &'a str,
    turn: u64,
    memory: Global,
}

/// The map of the form, the capacity, the number of clients and the salt that these words say.
pub(crate) fn open_by<A: Allocator + Clone>(
    rt: &impl Abort,
    alloc: A,
    words: &Words<'_>,
) -> KeyOpened<A>
    ensures { All (λ p. p.ledger ≡ result.0.ledger.id) result.1.items }
{
    let form = form_of(words[1]);
    let capacity = if words[2] == "default" {
        KeyMap::<A>::DEFAULT_CAPACITY
    } else {
        number(rt, words[2]) as usize
    };
    let salt = if words[4] == "" {
        0
    } else {
        small(rt, words[4])
    };
    open_salted(alloc, form, Salt(salt), capacity, small(rt, words[3])).expect(rt, "a map")
}

pub(crate) fn form_of(word: &str) -> Form {
    if word == "recorded" {
        Form::Recorded
    } else {
        Form::Lean
    }
}

/// Closes a map, and once more where the first close is refused. Returns what refused it.
fn close_at_last<A: Allocator + Clone>(
    rt: &impl Abort,
    switch: &Refusing<Global>,
    map: KeyMap<A>,
    passes: Vec<KeyPass, A>,
) -> (KeyQuiet<A>, Option<Fault>)
    requires { All (λ p. p.ledger ≡ map.ledger.id) passes.items }
{
    let result = map.close(passes);
    match result {
        Ok(closed) => (closed, None),
        Err(NotClosed { fault, map, passes }) => {
            switch.refuse_after(u64::MAX);
            let map = map.expect(rt, "the map comes back");
            (close(map, passes).expect(rt, "a closed map"), Some(fault))
        }
    }
}

/// Goes the steps before `close`, closes the map, and looks at it. Returns whether a request was refused.
fn live<R: Wait + Abort, A: Allocator + Clone>(
    rt: &R,
    switch: &Refusing<Global>,
    opened: KeyOpened<A>,
    run: Turn<'_>,
    text: (&str, bool),
) -> (KeyQuiet<A>, bool)
    requires { All (λ p. p.ledger ≡ opened.0.ledger.id) opened.1.items }
{
    let (map, mut passes) = opened;
    let (lines, refused) = text;
    let mut stage = Stage {
        client: 0,
        cursor: map.cursor(),
        turn: run.turn,
        memory: run.memory,
        refused,
    };
    let (steps, rest) = cut(lines, "close");
    let (closing, left) = cut(rest, "\n");
    follow(rt, switch, &map, &mut passes, &mut stage, (steps, run.row));
    let (closed, fault) = close_at_last(rt, switch, map, passes);
    let refused = stage.refused || fault.is_some() || switch.has_refused();
    switch.refuse_after(u64::MAX);
    let wanted = wanted_of(rt, closing, run.row, refused);
    assert_same(rt, &(run.row, done_or_fault(fault)), &(run.row, wanted));
    look_at(rt, &closed, (left, run.row), refused);
    (closed, refused)
}

/// Goes the steps of clients of a map that asks for memory elsewhere.
pub(crate) fn live_alone<R: Wait + Abort>(
    rt: &R,
    memory: Global,
    map: KeyMap<Global>,
    passes: Vec<KeyPass, Global>,
    script: (&str, &str),
)
    requires { All (λ p. p.ledger ≡ map.ledger.id) passes.items }
{
    let (lines, row) = script;
    let run = Turn {
        row,
        turn: u64::MAX,
        memory,
    };
    let switch = Refusing::new(memory);
    live(rt, &switch, (map, passes), run, (lines, false));
}

/// Opens a map with the pairs of a closed one, under its salt or under another.
fn reopen<A: Allocator + Clone>(
    rt: &impl Abort,
    closed: &KeyQuiet<A>,
    words: &Words<'_>,
) -> Result<KeyOpened<A>, Fault>
    ensures { IfOk result (λ r. All (λ p. p.ledger ≡ r.0.ledger.id) r.1.items) }
{
    let clients = small(rt, words[0]);
    if words[1] == "" || words[1] == "same" {
        closed.reopen(clients)
    } else {
        closed.reopen_with(clients, Salt(small(rt, words[1])))
    }
}

fn fault_of<T>(made: &Result<T, Fault>) -> Option<Fault> {
    match made {
        Ok(_) => None,
        Err(fault) => Some(*fault),
    }
}

/// Opens a map with the pairs of a closed one, and once more where that is refused. Returns whether a
/// request was refused.
fn reopen_at_last<A: Allocator + Clone>(
    rt: &impl Abort,
    switch: &Refusing<Global>,
    closed: &KeyQuiet<A>,
    run: Turn<'_>,
    line: &str,
) -> (KeyOpened<A>, bool)
    ensures { All (λ p. p.ledger ≡ result.0.0.ledger.id) result.0.1.items }
{
    let words = words_of(rt, cut(line, "=").0, run.row);
    switch.refuse_after(run.turn);
    let result = reopen(rt, closed, &words);
    let refused = switch.has_refused();
    switch.refuse_after(u64::MAX);
    let found = done_or_fault(fault_of(&result));
    let wanted = wanted_of(rt, line, run.row, refused);
    assert_same(rt, &(run.row, found), &(run.row, wanted));
    match result {
        Ok(opened) => (opened, refused),
        Err(_) => (reopen(rt, closed, &words).expect(rt, "a map"), refused),
    }
}

/// Takes the pairs out of a closed map, and once more where that is refused: then it is as it was. Returns
/// whether a request was refused.
fn take_at_last<A: Allocator + Clone>(
    rt: &impl Abort,
    switch: &Refusing<Global>,
    closed: KeyQuiet<A>,
    run: Turn<'_>,
    (line, left): (&str, &str),
) -> bool {
    switch.refuse_after(run.turn);
    let result = closed.into_entries();
    let refused = switch.has_refused();
    switch.refuse_after(u64::MAX);
    let (pairs, fault) = match result {
        Ok(pairs) => (pairs, None),
        Err(closed) => {
            look_at(rt, &closed, (left, run.row), refused);
            let pairs = closed.into_entries().ok().expect(rt, "memory");
            (pairs, Some(Fault::NoMemory))
        }
    };
    assert_taken(rt, &pairs, fault, run, line, refused);
    refused
}

/// Asserts that the line names the pairs that were taken out, if it names any, and what they were refused
/// with, how many they are, and the sum of their values.
fn assert_taken(
    rt: &impl Abort,
    pairs: &[(Key, u64)],
    fault: Option<Fault>,
    run: Turn<'_>,
    line: &str,
    refused: bool,
) {
    let words = words_of(rt, cut(line, "=").0, run.row);
    if words[0] != "" {
        assert_pairs(rt, pairs, &words);
    }
    let mut sum = 0u64;
    for (_key, value) in pairs {
        sum = sum.saturating_add(*value);
    }
    let word = match fault {
        Some(fault) => refusal(fault),
        None => "",
    };
    let found = (word, [pairs.len() as u64, sum, 0]);
    let wanted = wanted_of(rt, line, run.row, refused);
    assert_same(rt, &(run.row, found), &(run.row, wanted));
}

/// Runs a script. Returns whether a request was refused.
fn run_on<R: Wait + Abort, A: Allocator + Clone>(
    rt: &R,
    (switch, alloc): (&Refusing<Global>, A),
    script: &str,
    run: Turn<'_>,
) -> bool {
    let (opening, all) = cut(script, "\n");
    let (lives, taking) = cut(all, "take");
    let (lines, again) = cut(lives, "reopen");
    let left = cut(cut(lines, "close").1, "\n").1;
    let opened = open_by(rt, alloc, &words_of(rt, opening, run.row));
    let (first, refused) = live(rt, switch, opened, run, (lines, false));
    let refused = if again == "" {
        refused
    } else {
        let refused = live_again(rt, switch, &first, run, (again, taking));
        look_at(rt, &first, (left, run.row), refused);
        refused
    };
    if taking == "" {
        return refused;
    }
    take_at_last(rt, switch, first, run, (taking, left)) || refused
}

/// Opens a map with the pairs of a closed one, goes its steps, closes it, and takes its pairs out. Returns
/// whether a request was refused.
fn live_again<R: Wait + Abort, A: Allocator + Clone>(
    rt: &R,
    switch: &Refusing<Global>,
    first: &KeyQuiet<A>,
    run: Turn<'_>,
    (again, taking): (&str, &str),
) -> bool {
    let (reopening, lines) = cut(again, "\n");
    let (opened, refused) = reopen_at_last(rt, switch, first, run, reopening);
    let (second, refused) = live(rt, switch, opened, run, (lines, refused));
    if taking != "" {
        take_at_last(rt, switch, second, run, (taking, ""));
    }
    refused
}

/// Runs a script with a row. Its number is after how many requests one is refused where the script says so.
/// Returns whether it was.
pub(crate) fn run_turn<R: Wait + Abort>(
    rt: &R,
    memory: Global,
    script: &str,
    (row, turn): (&str, u64),
) -> bool {
    let alloc = Refusing::new(memory);
    run_on(rt, (&alloc, &alloc), script, Turn { row, turn, memory })
}

/// Runs a script that has no words for those of a row.
pub(crate) fn run<R: Wait + Abort>(rt: &R, memory: Global, script: &str) {
    run_turn(rt, memory, script, ("", u64::MAX));
}

/// Runs a script with each of these rows, a line each.
pub(crate) fn run_rows<R: Wait + Abort>(rt: &R, memory: Global, script: &str, rows: &str) {
    for row in rows.lines() {
        if row.trim_ascii() != "" {
            run_turn(rt, memory, script, (row, u64::MAX));
        }
    }
}

/// Runs a script with each request refused in turn, from the one of this number on. Returns how many
/// requests there are.
pub(crate) fn requests_of<R: Wait + Abort>(
    rt: &R,
    memory: Global,
    script: &str,
    (row, from): (&str, u64),
) -> u64 {
    for turn in from..1000u64 {
        if !run_turn(rt, memory, script, (row, turn)) {
            return turn;
        }
    }
    1000
}
