//! The examples of views, updates, cursors and retains, each as it stands with its call.
ghost use Rattle.std.specs.Prelude.{◌≡◌};

use crate::call_examples::returns;
use crate::examples::{NumberPass, Numbers, Plus};
use crate::maps::{all, assert_same};
use crate::plays::{Play, played};
use bin_history::{KeyArg, Reply};
use chm::{Change, PartWalk, Taker};
use std::alloc::Global;
use std::process::Abort;
use std::sync::Wait;
use test_maps::BOTH;

fn view<R: Wait + Abort>(rt: &R, map: &Numbers, pass: &mut NumberPass) -> bool
    requires { pass.old.ledger ≡ map.now.ledger.id }
    ensures { pass.new.ledger ≡ map.now.ledger.id }
{
    let tried = map.try_view(pass, &1, |value| value.is_some()) == Some(false);
    map.put(rt, pass, 1, 5).expect(rt, "memory");
    let seen = map.view(rt, pass, &1, |value| value.copied()) == Some(5);
    tried && seen
}

fn update<R: Wait>(rt: &R, map: &Numbers, pass: &mut NumberPass) -> bool
    requires { pass.old.ledger ≡ map.now.ledger.id }
    ensures { pass.new.ledger ≡ map.now.ledger.id }
{
    all(&[
        returns(
            map.update(rt, pass, 1, |value| (Change::Set(6), value.copied())),
            Some(5),
        ),
        returns(map.get(rt, pass, 1), Reply::Value(Some(6))),
    ])
}

fn update_lent<R: Wait>(rt: &R, map: &Numbers, pass: &mut NumberPass) -> bool
    requires { pass.old.ledger ≡ map.now.ledger.id }
    ensures { pass.new.ledger ≡ map.now.ledger.id }
{
    let removed = returns(
        map.update_lent(rt, pass, &1, |value| (Change::Remove, value.copied())),
        Some(5),
    );
    let kept = returns(
        map.update_on(
            rt,
            pass,
            KeyArg::Borrowed(&1),
            |value| (Change::Keep, value.copied()),
        ),
        None,
    );
    let given = KeyArg::Owned(1);
    let put = map.try_update(pass, given, |value| (Change::Set(5), value.copied()))
        == Some(Ok(None));
    all(&[removed, kept, put])
}

fn visit_next<R: Wait + Abort>(rt: &R, map: &Numbers, pass: &mut NumberPass) -> bool
    requires { pass.old.ledger ≡ map.now.ledger.id }
    ensures { pass.new.ledger ≡ map.now.ledger.id }
{
    let mut cursor = map.cursor();
    let tried = map.try_visit_next(pass, &mut cursor).is_some();
    let mut shown = false;
    let mut cursor = map.cursor();
    for _ in rt.forever() {
        let Some(visit) = map.visit_next(rt, pass, &mut cursor).expect(rt, "memory") else {
            break;
        };
        shown = shown || visit.entries.as_slice() == [(1, 5)].as_slice();
    }
    tried && shown
}

fn show_next<R: Wait + Abort>(rt: &R, map: &Numbers, pass: &mut NumberPass) -> bool
    requires { pass.old.ledger ≡ map.now.ledger.id }
    ensures { pass.new.ledger ≡ map.now.ledger.id }
{
    let mut cursor = map.cursor();
    let mut most = 0;
    let mut look = |_key: &u64, value: &u64| most = most.max(*value);
    let some = map.show_next(rt, pass, &mut cursor, &mut look);
    some && most <= 5
}

/// Adds values up.
#[derive(Drop)]
struct Summing;

impl Taker<u64, u64> for Summing {
    type Part = u64;

    ghost reached = { λ _ _ _. Unit {0} };

    fn add(&self, part: u64, _key: &u64, value: &u64) -> u64 {
        part.wrapping_add(*value)
    }
}

fn show_part<R: Wait + Abort>(rt: &R, map: &Numbers, pass: &mut NumberPass) -> bool
    requires { pass.old.ledger ≡ map.now.ledger.id }
    ensures { pass.new.ledger ≡ map.now.ledger.id }
{
    let is_sized = map.table_size() == 16;
    let mut walk = PartWalk::new(map.table_size(), 0, 1);
    if walk.is_at_end() {
        return false;
    }
    let sum = map.show_part(rt, pass, &mut walk, &Summing, 0);
    is_sized && sum <= 5 && walk.is_at_end()
}

fn retain<R: Wait + Abort>(rt: &R, map: &Numbers, pass: &mut NumberPass) -> bool
    requires { pass.old.ledger ≡ map.now.ledger.id }
    ensures { pass.new.ledger ≡ map.now.ledger.id }
{
    let removed = returns(
        map.retain(rt, pass, &mut |_key: &u64, value: &u64| *value > 5),
        1,
    );
    let gone = returns(map.get(rt, pass, 1), Reply::Value(None));
    let put = returns(map.put(rt, pass, 1, 6), Reply::Value(None));
    let mut cursor = map.cursor();
    let some = map
        .retain_next(
            rt,
            pass,
            &mut cursor,
            &mut |_key: &u64, value: &u64| *value > 5,
        )
        .expect(rt, "memory");
    let kept = returns(map.get(rt, pass, 1), Reply::Value(Some(6)));
    all(&[removed, gone, put, some == Some(0), kept])
}

/// Runs the example of this number on a map without entries; all but the first begin with a put of 5
/// at 1.
fn run<R: Wait + Abort>(rt: &R, map: &Numbers, pass: &mut NumberPass, number: u64) -> bool
    requires { pass.old.ledger ≡ map.now.ledger.id }
    ensures { pass.new.ledger ≡ map.now.ledger.id }
{
    if number == 0 {
        return view(rt, map, pass);
    }
    map.put(rt, pass, 1, 5).expect(rt, "memory");
    match number {
        1 => update(rt, map, pass),
        2 => update_lent(rt, map, pass),
        3 => visit_next(rt, map, pass),
        4 => show_next(rt, map, pass),
        5 => show_part(rt, map, pass),
        _ => retain(rt, map, pass),
    }
}

/// Runs the seven examples. Tells which is the first that is not as it says.
#[derive(Drop)]
struct Examples;

impl Play<u64, u64, Plus, Global> for Examples {
    type Told = Option<u64>;

    fn play<R: Wait + Abort>(
        &self,
        rt: &R,
        map: &Numbers,
        pass: &mut NumberPass,
        _others: &mut Vec<NumberPass, Global>,
    ) -> Option<u64> {
        first_wrong(rt, map, pass)
    }
}

fn first_wrong<R: Wait + Abort>(rt: &R, map: &Numbers, pass: &mut NumberPass) -> Option<u64>
    requires { pass.old.ledger ≡ map.now.ledger.id }
    ensures { pass.new.ledger ≡ map.now.ledger.id }
{
    for number in 0..7u64 {
        map.clear(rt, pass).expect(rt, "memory");
        if !run(rt, map, pass, number) {
            return Some(number);
        }
    }
    None
}

#[test]
fn each_example_of_a_live_map_is_as_it_says(rt: HostRuntime) {
    for form in BOTH {
        let wrong = played(&rt, rt.alloc(), (form, 1), &Examples);
        assert_same(&rt, &(form, wrong), &(form, None));
    }
}
