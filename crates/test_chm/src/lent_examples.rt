//! The examples of functions that are lent or given a value, and of calls by what makes their key, each as
//! it stands with its call.
ghost use Rattle.std.specs.Prelude.{◌≡◌, OnErr};
ghost use Rattle.bin_history.specs.declared.form.Form.TheVariants.{Lean};

use crate::call_examples::returns;
use crate::examples::{NumberPass, Numbers, Plus};
use crate::maps::{all, assert_same};
use crate::plays::{Play, played};
use bin_history::{Form, Reply};
use chm::{Change, Fault, Map};
use count_ledger::Pass;
use hashkeys::Bytes;
use std::alloc::Global;
use std::mem::replace;
use std::process::Abort;
use std::sync::Wait;
use test_helpers::Keep;
use test_maps::BOTH;

fn modify<R: Wait>(rt: &R, map: &Numbers, pass: &mut NumberPass) -> bool
    requires { pass.old.ledger ≡ map.now.ledger.id }
    ensures { pass.new.ledger ≡ map.now.ledger.id }
{
    all(&[
        returns(map.put(rt, pass, 1, 5), Reply::Value(None)),
        returns(map.modify(rt, pass, &1, |value| replace(value, 6)), Some(5)),
        returns(map.get(rt, pass, 1), Reply::Value(Some(6))),
        returns(map.modify(rt, pass, &2, |value| *value = 7), None),
    ])
}

/// After a modify, with 6 at 1.
fn try_modify<R: Wait>(rt: &R, map: &Numbers, pass: &mut NumberPass) -> bool
    requires { pass.old.ledger ≡ map.now.ledger.id }
    ensures { pass.new.ledger ≡ map.now.ledger.id }
{
    let put = returns(map.put(rt, pass, 1, 5), Reply::Value(Some(6)));
    let tried = map.try_modify(pass, &1, |value| replace(value, 6)) == Some(Ok(Some(5)));
    let removed = returns(map.remove(rt, pass, 1), Reply::Value(Some(6)));
    all(&[put, tried, removed])
}

fn modify_or_insert<R: Wait>(rt: &R, map: &Numbers, pass: &mut NumberPass) -> bool
    requires { pass.old.ledger ≡ map.now.ledger.id }
    ensures { pass.new.ledger ≡ map.now.ledger.id }
{
    all(&[
        returns(
            map.modify_or_insert(rt, pass, &1, 10, |value| replace(value, 11)),
            10,
        ),
        returns(
            map.modify_or_insert(rt, pass, &1, 10, |value| replace(value, 12)),
            11,
        ),
        returns(map.get(rt, pass, 1), Reply::Value(Some(12))),
        returns(map.remove(rt, pass, 1), Reply::Value(Some(12))),
        map.try_modify_or_insert(pass, &1, 10, |value| *value)
            .is_some(),
        returns(map.remove(rt, pass, 1), Reply::Value(Some(10))),
    ])
}

fn update_owned<R: Wait>(rt: &R, map: &Numbers, pass: &mut NumberPass) -> bool
    requires { pass.old.ledger ≡ map.now.ledger.id }
    ensures { pass.new.ledger ≡ map.now.ledger.id }
{
    all(&[
        returns(
            map.update_owned(rt, pass, &1, |value| (Some(5), value)),
            None,
        ),
        returns(
            map.update_owned(rt, pass, &1, |value| (None, value)),
            Some(5),
        ),
        returns(map.get(rt, pass, 1), Reply::Value(None)),
        map.try_update_owned(pass, &1, |value| (Some(5), value))
            .is_some(),
        returns(map.remove(rt, pass, 1), Reply::Value(Some(5))),
    ])
}

/// Takes the value out of a place. Fails with 7 where there is none.
fn taken(place: &mut Option<u64>) -> Result<u64, u64>
    ensures { OnErr result (place.new ≡ place.old) }
{
    match *place {
        Some(value) => {
            *place = None;
            Ok(value)
        }
        None => Err(7),
    }
}

fn update_or_keep<R: Wait>(rt: &R, map: &Numbers, pass: &mut NumberPass) -> bool
    requires { pass.old.ledger ≡ map.now.ledger.id }
    ensures { pass.new.ledger ≡ map.now.ledger.id }
{
    all(&[
        returns(map.update_or_keep(rt, pass, &1, taken), Err(7)),
        returns(map.put(rt, pass, 1, 5), Reply::Value(None)),
        returns(map.update_or_keep(rt, pass, &1, taken), Ok(5)),
        returns(map.get(rt, pass, 1), Reply::Value(None)),
    ])
}

/// After an update, with nothing at 1.
fn try_update_or_keep<R: Wait>(rt: &R, map: &Numbers, pass: &mut NumberPass) -> bool
    requires { pass.old.ledger ≡ map.now.ledger.id }
    ensures { pass.new.ledger ≡ map.now.ledger.id }
{
    let put = returns(map.put(rt, pass, 1, 5), Reply::Value(None));
    let tried = map.try_update_or_keep(pass, &1, taken).is_some();
    let after = returns(map.get(rt, pass, 1), Reply::Value(None));
    all(&[put, tried, after])
}

/// Runs the examples of each kind.
#[derive(Drop)]
struct Lent;

impl Play<u64, u64, Plus, Global> for Lent {
    type Told = [bool; 6];

    fn play<R: Wait + Abort>(
        &self,
        rt: &R,
        map: &Numbers,
        pass: &mut NumberPass,
        _others: &mut Vec<NumberPass, Global>,
    ) -> [bool; 6] {
        [
            modify(rt, map, pass),
            try_modify(rt, map, pass),
            modify_or_insert(rt, map, pass),
            update_owned(rt, map, pass),
            update_or_keep(rt, map, pass),
            try_update_or_keep(rt, map, pass),
        ]
    }
}

#[test]
fn each_example_of_a_value_that_is_lent_is_as_it_says(rt: HostRuntime) {
    for form in BOTH {
        let right = played(&rt, rt.alloc(), (form, 1), &Lent);
        assert_same(&rt, &(form, right), &(form, [true; 6]));
    }
}

/// A lean map whose keys lie elsewhere.
type Words = Map<Bytes<'static>, u64, Keep, Global>;

type WordPass = Pass<Bytes<'static>, u64, Keep>;

fn puts<R: Wait>(rt: &R, map: &Words, pass: &mut WordPass) -> bool
    requires form { map.now.ledger.form ≡ Lean }
    requires pass { pass.old.ledger ≡ map.now.ledger.id }
    ensures { pass.new.ledger ≡ map.now.ledger.id }
{
    all(&[
        returns(map.put_as(rt, pass, b"one".as_slice(), 5), None),
        returns(map.put_as(rt, pass, b"one".as_slice(), 6), Some(5)),
        returns(
            map.remove_as(rt, pass, b"one".as_slice()),
            Reply::Value(Some(6)),
        ),
    ])
}

fn puts_if_absent<R: Wait>(rt: &R, map: &Words, pass: &mut WordPass) -> bool
    requires form { map.now.ledger.form ≡ Lean }
    requires pass { pass.old.ledger ≡ map.now.ledger.id }
    ensures { pass.new.ledger ≡ map.now.ledger.id }
{
    all(&[
        returns(map.put_if_absent_as(rt, pass, b"one".as_slice(), 5), None),
        returns(
            map.put_if_absent_as(rt, pass, b"one".as_slice(), 6),
            Some(6),
        ),
        returns(
            map.get_as(rt, pass, b"one".as_slice()),
            Reply::Value(Some(5)),
        ),
        returns(
            map.remove_as(rt, pass, b"one".as_slice()),
            Reply::Value(Some(5)),
        ),
    ])
}

fn merge_as<R: Wait>(rt: &R, map: &Words, pass: &mut WordPass) -> bool
    requires form { map.now.ledger.form ≡ Lean }
    requires pass { pass.old.ledger ≡ map.now.ledger.id }
    ensures { pass.new.ledger ≡ map.now.ledger.id }
{
    let set = returns(
        map.merge_as(
            rt,
            pass,
            b"one".as_slice(),
            5,
            |old, new| Some(old.min(new)),
        ),
        false,
    );
    let merged = returns(
        map.merge_as(
            rt,
            pass,
            b"one".as_slice(),
            3,
            |old, new| Some(old.min(new)),
        ),
        true,
    );
    all(&[
        set,
        merged,
        returns(
            map.get_as(rt, pass, b"one".as_slice()),
            Reply::Value(Some(3)),
        ),
        returns(
            map.remove_as(rt, pass, b"one".as_slice()),
            Reply::Value(Some(3)),
        ),
    ])
}

fn changes<R: Wait>(rt: &R, map: &Words, pass: &mut WordPass) -> Result<bool, Fault>
    requires form { map.now.ledger.form ≡ Lean }
    requires pass { pass.old.ledger ≡ map.now.ledger.id }
    ensures { pass.new.ledger ≡ map.now.ledger.id }
{
    map.put_as(rt, pass, b"one".as_slice(), 5)?;
    let set = returns(
        map.update_as(
            rt,
            pass,
            b"one".as_slice(),
            |v| (Change::Set(6), v.copied()),
        ),
        Some(5),
    );
    let after = returns(
        map.get_as(rt, pass, b"one".as_slice()),
        Reply::Value(Some(6)),
    );
    map.put(rt, pass, Bytes(b"one"), 5)?;
    let modified = returns(
        map.modify_as(rt, pass, b"one".as_slice(), |value| replace(value, 6)),
        Some(5),
    );
    let removed = returns(
        map.remove_as(rt, pass, b"one".as_slice()),
        Reply::Value(Some(6)),
    );
    Ok(all(&[set, after, modified, removed]))
}

/// Runs the examples of each kind on a lean map.
#[derive(Drop)]
struct ByBytes;

impl Play<Bytes<'static>, u64, Keep, Global> for ByBytes {
    type Told = [bool; 4];

    fn play<R: Wait + Abort>(
        &self,
        rt: &R,
        map: &Words,
        pass: &mut WordPass,
        _others: &mut Vec<WordPass, Global>,
    ) -> [bool; 4] {
        if map.form() != Form::Lean {
            return [false; 4];
        }
        [
            puts(rt, map, pass),
            puts_if_absent(rt, map, pass),
            merge_as(rt, map, pass),
            changes(rt, map, pass) == Ok(true),
        ]
    }
}

#[test]
fn each_example_of_a_call_by_what_makes_its_key_is_as_it_says(rt: HostRuntime) {
    let right = played(&rt, rt.alloc(), (Form::Lean, 1), &ByBytes);
    assert_same(&rt, &right, &[true; 4]);
}
