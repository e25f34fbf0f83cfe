//! Moments at the program's keys.
ghost use Rattle.std.specs.Prelude.{◌≡◌};
ghost use Rattle.count_ledger.specs.Fronts.{BeginsWith};

use crate::asserts::assert_same;
use crate::held::{Held, KeyLedger, KeyPass};
use crate::ledgers::{call, open_for_two, put_bin, put_often, settled_for_two, take_bin};
use count_ledger::Moment;
use hashkeys::Key;
use std::process::Abort;
use std::thread::join_mut;
use test_helpers::Plus;

type KeyMoment = Moment<Key, u64, Plus>;

/// Hands over to one client what another has seen, by a copy of a moment.
fn tell(ledger: &KeyLedger, from: &mut KeyPass, to: &mut KeyPass)
    requires from { from.old.ledger ≡ ledger.now.id }
    requires to { to.old.ledger ≡ ledger.now.id }
    ensures from { from.new ≡ from.old }
    ensures to { to.new.ledger ≡ to.old.ledger }
    ensures told { BeginsWith to.new.seen from.old.seen }
{
    let mut moment = ledger.moment(from);
    let mut copy = ledger.again(&mut moment);
    drop(moment);
    ledger.learn(to, &mut copy);
}

#[test]
fn who_learned_a_moment_finds_what_its_calls_left(rt: HostRuntime) {
    let (ledger, mut pass, mut other, mut bins) = open_for_two(&rt, rt.alloc(), 1);
    let mut bin = take_bin(&rt, &ledger, &mut bins);
    call(&rt, &ledger, &mut pass, &mut bin, b"a", None, Some(1));
    call(&rt, &ledger, &mut pass, &mut bin, b"b", None, Some(2));
    tell(&ledger, &mut pass, &mut other);
    call(&rt, &ledger, &mut other, &mut bin, b"a", Some(1), Some(1));
    call(&rt, &ledger, &mut other, &mut bin, b"b", Some(2), None);
    tell(&ledger, &mut other, &mut pass);
    call(&rt, &ledger, &mut pass, &mut bin, b"b", None, None);
    let made = (pass.made(), other.made());
    let shares = (ledger.share(&mut pass), ledger.share(&mut other));
    put_bin(&rt, &ledger, &mut bins, bin);
    let total = settled_for_two(&rt, ledger, pass, other, bins);
    let wanted = ((3, 2), (2, 18_446_744_073_709_551_615), Some(1));
    assert_same(&rt, &(made, shares, total), &wanted);
    assert_same(&rt, &size_of::<KeyMoment>(), &0);
}

/// What a pass has seen.
fn moment_of(ledger: &KeyLedger, pass: &mut KeyPass) -> KeyMoment
    requires pass { pass.old.ledger ≡ ledger.now.id }
    ensures moment { result.ledger ≡ ledger.now.id }
    ensures pass { pass.new.ledger ≡ ledger.now.id }
{
    ledger.moment(pass)
}

/// Learns a moment, and gets the value of `a`, which is 1.
fn hear(
    rt: &impl Abort,
    ledger: &KeyLedger,
    pass: &mut KeyPass,
    moment: &mut KeyMoment,
    bin: &mut Held,
)
    requires pass { pass.old.ledger ≡ ledger.now.id }
    requires moment { moment.old.ledger ≡ ledger.now.id }
    requires role { bin.old.ledger ≡ ledger.now.id }
    ensures pass { pass.new.ledger ≡ ledger.now.id }
    ensures role { bin.new.ledger ≡ ledger.now.id }
{
    ledger.learn(pass, moment);
    call(rt, ledger, pass, bin, b"a", Some(1), Some(1));
}

#[test]
fn a_moment_is_learned_in_another_thread(rt: HostRuntime) {
    let (ledger, mut pass, mut other_pass, mut bins) = open_for_two(&rt, rt.alloc(), 2);
    let mut other_bin = take_bin(&rt, &ledger, &mut bins);
    let mut bin = take_bin(&rt, &ledger, &mut bins);
    call(&rt, &ledger, &mut pass, &mut other_bin, b"a", None, Some(1));
    let mut moment = moment_of(&ledger, &mut pass);
    join_mut(
        &rt,
        &mut || hear(&rt, &ledger, &mut other_pass, &mut moment, &mut other_bin),
        &mut || put_often(&rt, &ledger, &mut pass, &mut bin, b"b", 1000),
    );
    let counts = (pass.made(), other_pass.made(), ledger.sum());
    put_bin(&rt, &ledger, &mut bins, bin);
    put_bin(&rt, &ledger, &mut bins, other_bin);
    let total = settled_for_two(&rt, ledger, pass, other_pass, bins);
    assert_same(&rt, &(counts, total), &((1001, 1, 2), Some(2)));
}
