//! The order of a walk, and bins before and after moves.
ghost use Rattle.std.specs.Prelude.{◌≡◌, ◌<◌, ◌≤◌};
ghost use Rattle.hashkeys.specs.Classes.{IsTableSize};

use crate::calls::{KeyBin, KeyLedger, assert_same, value_in};
use crate::recorded::maps::{
    KeyMap, Single, class_at, leaves_of, open_single, put, quiet, with_one,
};
use bin_history::Form;
use bin_layout::{Moved, next_in_walk};
use hashkeys::{Class, Key, Salt};
use std::alloc::{AllocError, Allocator, Global};
use std::process::Abort;
use std::sync::Wait;

/// The texts of all keys in walk order, one after the other, each followed by a space.
fn walk<R: Wait, A: Allocator + Clone>(
    rt: &R,
    alloc: Global,
    map: &KeyMap<A>,
) -> Result<Vec<u8>, AllocError> {
    let mut texts = Vec::new(alloc);
    let mut next = Class::new(map.n(), 0);
    for _ in rt.forever() {
        let held = map.hold(rt, next.index());
        let class = held.bin.class();
        let added = add_texts(&mut texts, &held.bin);
        held.release();
        added?;
        match next_in_walk(map.n(), class) {
            Some(class) => next = class,
            None => break,
        }
    }
    Ok(texts)
}

fn add_texts<A: Allocator + Clone>(texts: &mut Vec<u8>, bin: &KeyBin<A>) -> Result<(), AllocError> {
    for (key, _) in bin.walk() {
        texts.extend_from_slice(key.bytes())?;
        texts.push(b' ')?;
    }
    Ok(())
}

/// Moves each bin of so many.
fn forward_all<R: Wait + Abort, A: Allocator + Clone>(
    rt: &R,
    map: &KeyMap<A>,
    ledger: &KeyLedger<A>,
    n: u32,
)
    requires ledger { ledger.now.id ≡ map.now.ledger }
    requires size { IsTableSize n }
    requires least { map.now.n ≤ n }
    requires small { n < 65536 }
{
    for index in 0..n {
        let moved = map
            .forward(rt, ledger, Class::new(n, index))
            .expect(rt, "memory");
        assert_same(rt, &(index, moved), &(index, Moved::Yes));
    }
}

/// A map of the form and the salt in which four keys have the value 0, and its ledger.
fn with_four<R: Wait + Abort>(
    rt: &R,
    alloc: Global,
    form: Form,
    salt: Salt,
) -> (KeyMap<Global>, KeyLedger<Global>)
    ensures map { result.0.n ≡ 16 }
    ensures ledger { result.0.ledger ≡ result.1.id }
{
    let Single {
        map,
        ledger,
        mut pass,
    } = open_single(rt, alloc, form, salt, 16).expect(rt, "memory");
    for text in [b"q".as_slice(), b"a", b"Aa", b"zzzzzz"] {
        put(rt, &alloc, &map, &ledger, &mut pass, text);
    }
    pass.retire();
    (map, ledger)
}

/// The walk order of four keys in 16 bins, and after each class of 16 was forwarded.
fn walks_of_four(
    rt: &(impl Wait + Abort),
    alloc: Global,
    form: Form,
    salt: Salt,
) -> (Vec<u8>, Vec<u8>) {
    let (map, ledger) = with_four(rt, alloc, form, salt);
    let before = walk(rt, alloc, &map);
    forward_all(rt, &map, &ledger, 16);
    let after = walk(rt, alloc, &map);
    drop(map);
    drop(ledger);
    (before.expect(rt, "memory"), after.expect(rt, "memory"))
}

/// A form and a salt, and the order of the keys before and after each class was forwarded.
const WALKS: [(Form, u32, &[u8], &[u8]); 2] = [
    (Form::Recorded, 0, b"Aa q a zzzzzz ", b"Aa a q zzzzzz "),
    (Form::Lean, 1, b"q a Aa zzzzzz ", b"a q Aa zzzzzz "),
];

#[test]
fn four_keys_stand_in_walk_order(rt: HostRuntime) {
    for (form, salt, first, second) in &WALKS {
        let (before, after) = walks_of_four(&rt, rt.alloc(), *form, Salt(*salt));
        let found = (before.as_slice(), after.as_slice());
        assert_same(&rt, &found, &(*first, *second));
    }
}

#[test]
fn a_class_under_a_wider_bin_stays(rt: HostRuntime) {
    let (map, ledger) = quiet(&rt, rt.alloc(), Form::Recorded, 16);
    let moved = map.forward(&rt, &ledger, Class::new(32, 17));
    let held = map.hold(&rt, 17);
    let class = held.bin.class();
    held.release();
    drop(map);
    drop(ledger);
    let moved = moved.expect(&rt, "memory");
    assert_same(&rt, &(moved, class), &(Moved::Wider, Class::new(16, 1)));
}

/// The value at a key in the bin of the hash 97, as two readers are shown it at once.
fn shown_twice<R: Wait, A: Allocator + Clone>(
    rt: &R,
    map: &KeyMap<A>,
    key: &Key,
) -> (Option<u64>, Option<u64>) {
    let first = map.read(rt, 97);
    let second = map.read(rt, 97);
    let found = (value_in(first.bin(), key), value_in(second.bin(), key));
    first.release();
    second.release();
    found
}

#[test]
fn two_readers_are_shown_one_bin_at_once(rt: HostRuntime) {
    let key = Key::read(b"a").expect(&rt, "a key");
    let (map, ledger) = with_one(&rt, &rt.alloc(), Form::Lean, 1);
    let found = shown_twice(&rt, &map, &key);
    map.hold(&rt, 97).release();
    drop(map);
    drop(ledger);
    assert_same(&rt, &found, &(Some(0), Some(0)));
}

/// The first hash below 64 whose bin is of another class than one of 16, if any.
fn first_astray<R: Wait, A: Allocator + Clone>(rt: &R, map: &KeyMap<A>) -> Option<u32> {
    for hash in 0..64u32 {
        let class = class_at(rt, map, hash);
        if (class.n(), class.index()) != (16, hash % 16) {
            return Some(hash);
        }
    }
    None
}

#[test]
fn all_bins_are_there_after_moves(rt: HostRuntime) {
    let (map, ledger) = quiet(&rt, rt.alloc(), Form::Lean, 4);
    forward_all(&rt, &map, &ledger, 4);
    forward_all(&rt, &map, &ledger, 8);
    let astray = first_astray(&rt, &map);
    let leaves = leaves_of(map, 16);
    drop(ledger);
    assert_same(&rt, &(astray, leaves), &(None, Some((16, 16, true))));
}
