//! Tries, which wait for nobody: what they answer, and what they leave.
ghost use Rattle.std.specs.Prelude.{◌≡◌};

use crate::calls::{KeyLedger, assert_same, value_in};
use crate::recorded::maps::{KeyMap, leaves_of, quiet, with_one};
use bin_history::Form;
use bin_layout::{Moved, Refused};
use hashkeys::{Class, Key};
use std::alloc::{AllocError, Allocator, Global};
use std::process::Abort;
use std::sync::Wait;
use test_support::Refusing;

/// What a try to move a class answers, and whether a try to hold a hash finds a bin.
type Tried = (Result<Moved, Refused>, bool);

/// Tries to hold the bin of the hash 1, and to move the class of 2 that has it.
fn tried<A: Allocator + Clone>(map: &KeyMap<A>, ledger: &KeyLedger<A>) -> Tried
    requires n { map.now.n ≡ 2 }
    requires ledger { ledger.now.id ≡ map.now.ledger }
{
    let held = match map.try_hold(1) {
        Some(held) => {
            held.release();
            true
        }
        None => false,
    };
    (map.try_forward(ledger, Class::new(2, 1)), held)
}

/// Tries while the bin is held, while it is read, and once it is neither.
fn tried_in_turn<R: Wait, A: Allocator + Clone>(
    rt: &R,
    map: &KeyMap<A>,
    ledger: &KeyLedger<A>,
) -> [Tried; 3]
    requires n { map.now.n ≡ 2 }
    requires ledger { ledger.now.id ≡ map.now.ledger }
{
    let held = map.hold(rt, 1);
    let while_held = tried(map, ledger);
    held.release();
    let shown = map.read(rt, 1);
    let while_read = tried(map, ledger);
    shown.release();
    [while_held, while_read, tried(map, ledger)]
}

/// The size of the class of the bin of the hash 97, and the value that it has at the key.
fn found<R: Wait, A: Allocator + Clone>(rt: &R, map: &KeyMap<A>, key: &Key) -> (u32, Option<u64>) {
    let shown = map.read(rt, 97);
    let found = (shown.bin().class().n(), value_in(shown.bin(), key));
    shown.release();
    found
}

/// Asserts that a bin that is held or read stays, and that it is moved once it is neither.
fn assert_stays<R: Wait + Abort>(rt: &R, alloc: Global, form: Form, key: &Key) {
    let (map, ledger) = with_one(rt, &alloc, form, 2);
    let before = found(rt, &map, key);
    let answers = tried_in_turn(rt, &map, &ledger);
    let after = found(rt, &map, key);
    drop(map);
    drop(ledger);
    let busy = (Err(Refused::Busy), false);
    assert_same(rt, &answers, &[busy, busy, (Ok(Moved::Yes), true)]);
    assert_same(rt, &(before, after), &((2, Some(0)), (4, Some(0))));
}

#[test]
fn a_bin_that_is_held_or_read_stays(rt: HostRuntime) {
    let key = Key::read(b"a").expect(&rt, "a key");
    assert_stays(&rt, rt.alloc(), Form::Recorded, &key);
    assert_stays(&rt, rt.alloc(), Form::Lean, &key);
}

/// Tries to move each class of 2.
fn move_both<A: Allocator + Clone>(
    map: &KeyMap<A>,
    ledger: &KeyLedger<A>,
) -> [Result<Moved, Refused>; 2]
    requires n { map.now.n ≡ 2 }
    requires ledger { ledger.now.id ≡ map.now.ledger }
{
    let low = map.try_forward(ledger, Class::new(2, 0));
    let high = map.try_forward(ledger, Class::new(2, 1));
    [low, high]
}

/// The sizes and indices of the classes of the bins of a map of two, of which the second was halved.
const HALVED: [(u32, u32); 3] = [(2, 0), (4, 1), (4, 3)];

/// Takes the bins out, and asserts that their classes are those of a map of two of which the second was
/// halved, in walk order.
fn assert_halved<A: Allocator + Clone>(rt: &impl Abort, alloc: Global, map: KeyMap<A>) {
    let classes = classes_of(alloc, map).expect(rt, "memory");
    assert_same(rt, &classes.as_slice(), &HALVED.as_slice());
}

/// Takes the bins out, and gives the sizes and indices of their classes in walk order.
fn classes_of<A: Allocator + Clone>(
    alloc: Global,
    map: KeyMap<A>,
) -> Result<Vec<(u32, u32)>, AllocError> {
    let room = map.room_for_leaves()?;
    let mut classes = Vec::new(alloc);
    if let Some((bins, _roles)) = map.into_leaves(room) {
        for bin in &bins {
            classes.push((bin.class().n(), bin.class().index()))?;
        }
    }
    Ok(classes)
}

/// Tries to move each class of 2 while the bin of the first is held.
fn move_round_a_held_bin<R: Wait, A: Allocator + Clone>(
    rt: &R,
    map: &KeyMap<A>,
    ledger: &KeyLedger<A>,
) -> [Result<Moved, Refused>; 2]
    requires n { map.now.n ≡ 2 }
    requires ledger { ledger.now.id ≡ map.now.ledger }
{
    let held = map.hold(rt, 0);
    let moved = move_both(map, ledger);
    held.release();
    moved
}

#[test]
fn what_is_held_is_skipped(rt: HostRuntime) {
    let (map, ledger) = quiet(&rt, rt.alloc(), Form::Lean, 2);
    let moved = move_round_a_held_bin(&rt, &map, &ledger);
    assert_halved(&rt, rt.alloc(), map);
    drop(ledger);
    assert_same(&rt, &moved, &[Err(Refused::Busy), Ok(Moved::Yes)]);
}

#[test]
fn what_was_skipped_is_moved_later(rt: HostRuntime) {
    let (map, ledger) = quiet(&rt, rt.alloc(), Form::Recorded, 2);
    let _ = move_round_a_held_bin(&rt, &map, &ledger);
    let moved = move_both(&map, &ledger);
    let leaves = leaves_of(map, 4);
    drop(ledger);
    assert_same(&rt, &moved, &[Ok(Moved::Yes), Ok(Moved::Already)]);
    assert_same(&rt, &leaves, &Some((4, 4, true)));
}

/// Tries to halve the bin of the hash 1. Where that is refused it answers why, and the size of the
/// class that was handed back.
fn halved<R: Wait, A: Allocator + Clone>(
    rt: &R,
    map: &KeyMap<A>,
    ledger: &KeyLedger<A>,
) -> Result<(), (Refused, u32)>
    requires { ledger.now.id ≡ map.now.ledger }
{
    let held = map.hold(rt, 1);
    if held.bin.class().n() >= 65_536 {
        held.release();
        return Ok(());
    }
    match held.try_halve(ledger) {
        Ok(()) => Ok(()),
        Err((held, refused)) => {
            let n = held.bin.class().n();
            held.release();
            Err((refused, n))
        }
    }
}

#[test]
fn a_bin_is_halved_or_handed_back(rt: HostRuntime) {
    let alloc = Refusing::new(rt.alloc());
    let (map, ledger) = quiet(&rt, &alloc, Form::Recorded, 2);
    // The wider table is granted, and what comes after it is not.
    alloc.refuse_after(1);
    let first = halved(&rt, &map, &ledger);
    alloc.refuse_after(u64::MAX);
    let second = halved(&rt, &map, &ledger);
    assert_halved(&rt, rt.alloc(), map);
    drop(ledger);
    let refused = Err((Refused::NoMemory, 2));
    assert_same(&rt, &(first, second), &(refused, Ok(())));
}
