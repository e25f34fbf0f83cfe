//! The examples of the calls of a map, each as it stands with its call.
ghost use Rattle.std.specs.Prelude.{◌≡◌};

use crate::examples::{NumberPass, Numbers, Plus};
use crate::maps::all;
use bin_history::{Call, KeyArg, Op, Reply};
use std::process::Abort;
use std::sync::Wait;

/// Whether a call returned this.
pub(crate) fn returns<T: PartialEq + Drop, E: Drop>(made: Result<T, E>, wanted: T) -> bool {
    match made {
        Ok(returned) => returned == wanted,
        Err(_) => false,
    }
}

/// Runs the example of this number, 0 to 5, of a call that reads, after a put of 5 at 1.
fn run_reading<R: Wait + Abort>(rt: &R, map: &Numbers, pass: &mut NumberPass, number: u64) -> bool
    requires { pass.old.ledger ≡ map.now.ledger.id }
    ensures { pass.new.ledger ≡ map.now.ledger.id }
{
    match number {
        0 => all(&[
            returns(map.get(rt, pass, 1), Reply::Value(Some(5))),
            returns(map.get(rt, pass, 2), Reply::Value(None)),
        ]),
        1 => all(&[
            returns(map.contains_key(rt, pass, 1), Reply::Truth(true)),
            returns(map.contains_key(rt, pass, 2), Reply::Truth(false)),
        ]),
        2 => all(&[
            returns(map.look_up(rt, pass, &1), Some(5)),
            returns(map.look_up(rt, pass, &2), None),
        ]),
        3 => returns(map.glance(rt, &1), Some(5)),
        4 => {
            let visits = map.walk(rt, pass).expect(rt, "memory");
            visits
                .iter()
                .any(|visit| visit.entries.as_slice() == [(1, 5)].as_slice())
        }
        _ => map.mapping_count() == 1,
    }
}

/// Runs the example of this number, 6 to 9, of a call that changes or removes what is there, after a
/// put of 5 at 1.
fn run_change<R: Wait + Abort>(rt: &R, map: &Numbers, pass: &mut NumberPass, number: u64) -> bool
    requires { pass.old.ledger ≡ map.now.ledger.id }
    ensures { pass.new.ledger ≡ map.now.ledger.id }
{
    match number {
        6 => all(&[
            returns(map.remove(rt, pass, 1), Reply::Value(Some(5))),
            returns(map.remove(rt, pass, 1), Reply::Value(None)),
        ]),
        7 => all(&[
            returns(map.remove_if(rt, pass, 1, 6), Reply::Truth(false)),
            returns(map.remove_if(rt, pass, 1, 5), Reply::Truth(true)),
        ]),
        8 => all(&[
            returns(map.replace_if(rt, pass, 1, 5, 6), Reply::Truth(true)),
            returns(map.get(rt, pass, 1), Reply::Value(Some(6))),
        ]),
        _ => {
            map.clear(rt, pass).expect(rt, "memory");
            returns(map.get(rt, pass, 1), Reply::Value(None))
        }
    }
}

/// Runs the example of this number, 10 to 13, of a call that is named by a value, after a put of 5 at 1 where it is
/// 10.
fn run_named<R: Wait + Abort>(rt: &R, map: &Numbers, pass: &mut NumberPass, number: u64) -> bool
    requires { pass.old.ledger ≡ map.now.ledger.id }
    ensures { pass.new.ledger ≡ map.now.ledger.id }
{
    match number {
        10 => run_lent(rt, map, pass),
        11 => {
            map.call(rt, pass, Call::Put(1, 5)).expect(rt, "memory");
            returns(map.call(rt, pass, Call::Get(1)), Reply::Value(Some(5)))
        }
        12 => {
            map.call_on(rt, pass, KeyArg::Owned(1), Op::Put(5))
                .expect(rt, "memory");
            returns(
                map.call_on(rt, pass, KeyArg::Borrowed(&1), Op::Get),
                Reply::Value(Some(5)),
            )
        }
        _ => map.try_call(pass, KeyArg::Owned(1), Op::Put(5)) == Some(Ok(Reply::Value(None))),
    }
}

/// Runs calls that are named by a value and are lent their key, after a put of 5 at 1.
fn run_lent<R: Wait>(rt: &R, map: &Numbers, pass: &mut NumberPass) -> bool
    requires { pass.old.ledger ≡ map.now.ledger.id }
    ensures { pass.new.ledger ≡ map.now.ledger.id }
{
    let replace = map.call_on(rt, pass, KeyArg::Borrowed(&1), Op::ReplaceIf(5, 6));
    let compute = map.call_on(
        rt,
        pass,
        KeyArg::Borrowed(&1),
        Op::ComputeIfPresent(Plus(2)),
    );
    let remove = map.call_on(rt, pass, KeyArg::Borrowed(&1), Op::RemoveIf(8));
    all(&[
        returns(replace, Reply::Truth(true)),
        returns(compute, Reply::Value(Some(8))),
        returns(remove, Reply::Truth(true)),
    ])
}

/// Runs the example of this number, 14 to 17, of a call that puts or replaces.
fn run_put<R: Wait + Abort>(rt: &R, map: &Numbers, pass: &mut NumberPass, number: u64) -> bool
    requires { pass.old.ledger ≡ map.now.ledger.id }
    ensures { pass.new.ledger ≡ map.now.ledger.id }
{
    match number {
        14 => all(&[
            returns(map.put(rt, pass, 1, 5), Reply::Value(None)),
            returns(map.put(rt, pass, 1, 6), Reply::Value(Some(5))),
            returns(map.get(rt, pass, 1), Reply::Value(Some(6))),
        ]),
        15 => all(&[
            returns(map.put_if_absent(rt, pass, 1, 5), Reply::Value(None)),
            returns(map.put_if_absent(rt, pass, 1, 6), Reply::Value(Some(5))),
            returns(map.get(rt, pass, 1), Reply::Value(Some(5))),
        ]),
        16 => all(&[
            returns(map.replace(rt, pass, 1, 6), Reply::Value(None)),
            returns(map.put(rt, pass, 1, 5), Reply::Value(None)),
            returns(map.replace(rt, pass, 1, 6), Reply::Value(Some(5))),
        ]),
        _ => {
            let before = map.balance(pass);
            map.put(rt, pass, 1, 5).expect(rt, "memory");
            map.balance(pass) == before.wrapping_add(1)
        }
    }
}

/// Runs the example of this number, 18 to 21, of a call with a function.
fn run_function<R: Wait>(rt: &R, map: &Numbers, pass: &mut NumberPass, number: u64) -> bool
    requires { pass.old.ledger ≡ map.now.ledger.id }
    ensures { pass.new.ledger ≡ map.now.ledger.id }
{
    match number {
        18 => all(&[
            returns(
                map.compute_if_absent(rt, pass, 1, Plus(5)),
                Reply::Value(Some(5)),
            ),
            returns(
                map.compute_if_absent(rt, pass, 1, Plus(2)),
                Reply::Value(Some(5)),
            ),
        ]),
        19 => all(&[
            returns(
                map.compute_if_present(rt, pass, 1, Plus(2)),
                Reply::Value(None),
            ),
            returns(map.put(rt, pass, 1, 5), Reply::Value(None)),
            returns(
                map.compute_if_present(rt, pass, 1, Plus(2)),
                Reply::Value(Some(7)),
            ),
        ]),
        20 => all(&[
            returns(map.compute(rt, pass, 1, Plus(5)), Reply::Value(Some(5))),
            returns(map.compute(rt, pass, 1, Plus(2)), Reply::Value(Some(7))),
        ]),
        _ => all(&[
            returns(map.merge(rt, pass, 1, 5, Plus(0)), Reply::Value(Some(5))),
            returns(map.merge(rt, pass, 1, 2, Plus(0)), Reply::Value(Some(7))),
        ]),
    }
}

/// Runs the example of this number.
fn run<R: Wait + Abort>(rt: &R, map: &Numbers, pass: &mut NumberPass, number: u64) -> bool
    requires { pass.old.ledger ≡ map.now.ledger.id }
    ensures { pass.new.ledger ≡ map.now.ledger.id }
{
    if number <= 10 {
        map.put(rt, pass, 1, 5).expect(rt, "memory");
    }
    match number {
        0..=5 => run_reading(rt, map, pass, number),
        6..=9 => run_change(rt, map, pass, number),
        10..=13 => run_named(rt, map, pass, number),
        14..=17 => run_put(rt, map, pass, number),
        _ => run_function(rt, map, pass, number),
    }
}

/// Runs the 22 examples, each begun without a value at 1. Returns which is the first that is not as
/// it says.
pub(crate) fn first_wrong<R: Wait + Abort>(
    rt: &R,
    map: &Numbers,
    pass: &mut NumberPass,
) -> Option<u64>
    requires { pass.old.ledger ≡ map.now.ledger.id }
    ensures { pass.new.ledger ≡ map.now.ledger.id }
{
    for number in 0..22u64 {
        map.remove(rt, pass, 1).expect(rt, "memory");
        if !run(rt, map, pass, number) {
            return Some(number);
        }
    }
    None
}
