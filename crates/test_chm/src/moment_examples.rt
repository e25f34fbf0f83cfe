//! The examples of moments, as they stand with their calls.
ghost use Rattle.std.specs.Prelude.{◌≡◌};

use crate::examples::{NumberPass, Numbers};
use crate::maps::assert_same;
use bin_history::{Form, Reply};
use std::alloc::Global;
use std::process::Abort;
use std::sync::Wait;
use test_maps::{BOTH, Single, close_single, open, take_pass};

/// One client puts, and hands its moment over twice; the other learns of it and gets, and learns of
/// the copy and looks up.
fn told_and_heard<R: Wait + Abort>(
    rt: &R,
    map: &Numbers,
    first: &mut NumberPass,
    second: &mut NumberPass,
) -> bool
    requires first { first.old.ledger ≡ map.now.ledger.id }
    requires second { second.old.ledger ≡ map.now.ledger.id }
    ensures first { first.new.ledger ≡ map.now.ledger.id }
    ensures second { second.new.ledger ≡ map.now.ledger.id }
{
    map.put(rt, first, 1, 5).expect(rt, "memory");
    let mut moment = map.moment(first);
    let mut copy = map.again(&mut moment);
    map.learn(second, &mut moment);
    let got = map.get(rt, second, 1).expect(rt, "memory") == Reply::Value(Some(5));
    map.learn(second, &mut copy);
    let shown = map.look_up(rt, second, &1).expect(rt, "memory") == Some(5);
    got && shown
}

/// Runs the example with two clients. Returns whether it is as it says, how many calls each client
/// made, and how many keys there are.
fn hand_over<R: Wait + Abort>(rt: &R, alloc: Global, form: Form) -> (bool, [u64; 2], u64) {
    let Single {
        map,
        mut pass,
        mut place,
    } = take_pass(open(alloc, form, 16, 2).expect(rt, "a map")).expect(rt, "a pass");
    assert!(rt; place.len() == 1);
    let right = told_and_heard(rt, &map, &mut place[0], &mut pass);
    let made = [place[0].made(), pass.made()];
    let closed = close_single(map, pass, place).expect(rt, "a closed map");
    (right, made, closed.mapping_count())
}

#[test]
fn a_client_learns_what_another_put(rt: HostRuntime) {
    for form in BOTH {
        let (right, made, keys) = hand_over(&rt, rt.alloc(), form);
        assert_same(&rt, &(right, made, keys), &(true, [1, 1], 1));
    }
}
