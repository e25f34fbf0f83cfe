//! Threads that share one map.
ghost use Rattle.std.specs.Prelude.{◌≡◌, ◌<◌, All};
ghost use Rattle.hashkeys.specs.Limits.{most_bins};

use crate::calls::{
    KeyLedger, KeyPass, KeyRole, TEXTS, assert_all_made, assert_moved_once, assert_same, count_of,
    value_in,
};
use crate::lean::maps::{
    KeyMap, Opened, Single, class_at, open, open_single, put, put_in_place, quiet,
};
use bin_layout::{Moved, Refused};
use crossbeam_utils::Backoff;
use hashkeys::{Class, Key, Salt};
use std::alloc::{AllocError, Allocator, Global};
use std::process::Abort;
use std::sync::Wait;
use std::thread::{self, Threads};
use test_helpers::settled;

/// Tries until the class is moved, however often another thread has its bin.
fn forward<R: Wait, A: Allocator + Clone>(
    rt: &R,
    map: &KeyMap<A>,
    ledger: &KeyLedger<A>,
    class: Class,
) -> Result<Moved, AllocError>
    requires ledger { map.now.ledger ≡ ledger.now.id }
    requires size { class.n < most_bins }
{
    let backoff = Backoff::new();
    for _ in rt.forever() {
        match map.try_forward(ledger, class) {
            Ok(moved) => return Ok(moved),
            Err(Refused::NoMemory) => return Err(AllocError),
            Err(Refused::Busy) => backoff.snooze(),
        }
    }
    unreachable!()
}

#[test]
fn two_threads_forward_one_class_once(rt: HostRuntime) {
    let (map, ledger) = quiet(&rt, rt.alloc(), 16);
    let forward = ||
        requires ledger { map.ledger ≡ ledger.id }
        requires n { map.n ≡ 16 }
    { forward(&rt, &map, &ledger, Class::new(16, 1)) };
    let (one, other) = thread::join(&rt, forward, forward);
    let class = class_at(&rt, &map, 17);
    drop(map);
    drop(ledger);
    assert_same(&rt, &class, &Class::new(32, 17));
    assert_moved_once(&rt, one.expect(&rt, "memory"), other.expect(&rt, "memory"));
}

/// Holds and releases the bins of these hashes in turn.
fn hold_often<R: Wait, A: Allocator + Clone>(rt: &R, map: &KeyMap<A>, hashes: u32, times: u32) {
    for turn in 0..times {
        map.hold(rt, turn % hashes.max(1)).release();
    }
}

#[test]
fn many_threads_hold_few_bins(rt: HostRuntime) {
    let (map, ledger) = quiet(&rt, rt.alloc(), 4);
    let hold = |_: usize| hold_often(&rt, &map, 4, 20_000);
    let done = thread::map_indices(&rt, rt.alloc(), 32, &hold);
    drop(map);
    drop(ledger);
    assert_same(&rt, &done.expect(&rt, "memory").len(), &32);
}

/// Whether the bin of the hash can be held by value just now.
fn is_free<A: Allocator + Clone>(map: &KeyMap<A>, hash: u32) -> bool {
    match map.try_hold(hash) {
        Some(held) => {
            held.release();
            true
        }
        None => false,
    }
}

/// Whether the bin of the hash can be held where it lies just now.
fn is_free_in_place<A: Allocator + Clone>(map: &KeyMap<A>, hash: u32) -> bool {
    match map.try_hold_in_place(hash) {
        Some(place) => {
            place.release();
            true
        }
        None => false,
    }
}

/// Whether the bin of the hash can be held by value, and where it lies, just now.
fn free<A: Allocator + Clone>(map: &KeyMap<A>, hash: u32) -> (bool, bool) {
    (is_free(map, hash), is_free_in_place(map, hash))
}

/// Holds the bin of the hash 5 where it lies. Its class, and what of it and of the bin of the hash 6 can be held
/// meanwhile.
fn free_beside<R: Wait, A: Allocator + Clone>(
    rt: &R,
    map: &KeyMap<A>,
) -> (Class, [(bool, bool); 2]) {
    let place = map.hold_in_place(rt, 5);
    let class = place.class;
    let beside = [free(map, 5), free(map, 6)];
    place.release();
    (class, beside)
}

#[test]
fn a_bin_that_is_held_where_it_lies_is_nobody_elses(rt: HostRuntime) {
    let (map, ledger) = quiet(&rt, rt.alloc(), 4);
    let (class, beside) = free_beside(&rt, &map);
    let afterwards = free(&map, 5);
    drop(map);
    drop(ledger);
    let wanted = ([(false, false), (true, true)], (true, true));
    assert_same(&rt, &class, &Class::new(4, 1));
    assert_same(&rt, &(beside, afterwards), &wanted);
}

/// Puts to each key, a hundred times, by value and where its bin lies in turn.
fn put_to_all<R: Wait + Abort>(
    rt: &R,
    alloc: Global,
    map: &KeyMap<Global>,
    ledger: &KeyLedger<Global>,
    pass: &mut KeyPass,
)
    requires ledger { map.now.ledger ≡ ledger.now.id }
    requires pass { pass.old.ledger ≡ ledger.now.id }
    ensures { pass.new.ledger ≡ ledger.now.id }
{
    for _round in 0..50 {
        for text in TEXTS {
            put(rt, &alloc, map, ledger, pass, text);
            put_in_place(rt, &alloc, map, ledger, pass, text);
        }
    }
}

/// Each pass puts to each key, at the same time as the others. If it is said so, the first moves
/// all bins before it puts.
fn put_from_threads<R: Threads + Wait + Abort + Sync>(
    rt: &R,
    alloc: Global,
    map: &KeyMap<Global>,
    ledger: &KeyLedger<Global>,
    passes: &mut Vec<KeyPass>,
    moves: bool,
)
    requires ledger { map.now.ledger ≡ ledger.now.id }
    requires passes { All (λ p. p.ledger ≡ ledger.now.id) passes.old.items }
    ensures { All (λ p. p.ledger ≡ ledger.now.id) passes.new.items }
{
    thread::for_each_mut(
        rt,
        passes,
        8,
        &|number, pass| { put_and_move(rt, alloc, map, ledger, moves && number == 0, pass) },
    );
}

/// Moves all bins, if it is said so, and puts to each key.
fn put_and_move<R: Wait + Abort>(
    rt: &R,
    alloc: Global,
    map: &KeyMap<Global>,
    ledger: &KeyLedger<Global>,
    moves: bool,
    pass: &mut KeyPass,
)
    requires ledger { map.now.ledger ≡ ledger.now.id }
    requires pass { pass.old.ledger ≡ ledger.now.id }
    ensures { pass.new.ledger ≡ ledger.now.id }
{
    if moves {
        forward_all(rt, map, ledger);
    }
    put_to_all(rt, alloc, map, ledger, pass);
}

/// Forwards every bin of the sizes 8 to 8,192.
fn forward_all<R: Wait + Abort>(rt: &R, map: &KeyMap<Global>, ledger: &KeyLedger<Global>)
    requires { map.now.ledger ≡ ledger.now.id }
{
    for exponent in 3..14u32 {
        forward_each(rt, map, ledger, exponent);
    }
}

/// Forwards every bin of two to the exponent.
fn forward_each<R: Wait + Abort>(
    rt: &R,
    map: &KeyMap<Global>,
    ledger: &KeyLedger<Global>,
    exponent: u32,
)
    requires ledger { map.now.ledger ≡ ledger.now.id }
    requires few { exponent < 26 }
{
    assert!(rt; map.try_widen(1u32 << (exponent + 1)).is_ok());
    let n = 1u32 << exponent;
    for index in 0..n {
        forward(rt, map, ledger, Class::new(n, index)).expect(rt, "memory");
    }
}

/// Takes the bins out of the map, and gives their roles and how many keys each has.
fn roles_of<R: Wait + Abort>(
    rt: &R,
    alloc: Global,
    map: KeyMap<Global>,
) -> (Vec<KeyRole>, Vec<usize>)
    ensures { All (λ r. r.ledger ≡ map.ledger) result.0.items }
{
    let room = map.room_for_leaves().expect(rt, "memory");
    let Some((bins, roles)) = map.into_leaves(room) else {
        assert!(rt; false, "the bins are taken out");
        unreachable!()
    };
    let mut counts = Vec::new(alloc);
    for bin in &bins {
        counts.push(count_of(bin)).expect(rt, "memory");
    }
    (roles, counts)
}

/// How many keys there are, and the most that one bin has.
fn sum_and_most(counts: &[usize]) -> (usize, usize) {
    let (mut keys, mut most) = (0usize, 0usize);
    for count in counts {
        keys = keys.wrapping_add(*count);
        most = most.max(*count);
    }
    (keys, most)
}

/// Eight threads post to eight bins, of which the first moves all before it puts if it is said so. How many bins there
/// are in the end, how many keys, the most in a bin, and the sum of all deltas.
fn posted<R: Threads + Wait + Abort + Sync>(
    rt: &R,
    alloc: Global,
    moves: bool,
) -> (usize, (usize, usize), Option<u64>) {
    let Opened {
        map,
        ledger,
        mut passes,
    } = open(alloc, Salt(0), 8, 8).expect(rt, "memory");
    put_from_threads(rt, alloc, &map, &ledger, &mut passes, moves);
    let (roles, counts) = roles_of(rt, alloc, map);
    assert_all_made(rt, &passes, 800);
    let total = settled(ledger, passes, roles);
    (counts.len(), sum_and_most(&counts), total)
}

#[test]
fn eight_threads_post_to_eight_bins(rt: HostRuntime) {
    let found = posted(&rt, rt.alloc(), false);
    assert_same(&rt, &found, &(8, (8, 1), Some(8)));
}

#[test]
fn threads_put_while_bins_are_halved(rt: HostRuntime) {
    let found = posted(&rt, rt.alloc(), true);
    assert_same(&rt, &found, &(16_384, (8, 1), Some(8)));
}

#[test]
fn what_is_put_where_a_bin_lies_is_in_it(rt: HostRuntime) {
    let key = Key::read(b"a").expect(&rt, "a key");
    let Single {
        map,
        ledger,
        mut pass,
    } = open_single(&rt, rt.alloc(), Salt(0), 8).expect(&rt, "memory");
    put_in_place(&rt, &rt.alloc(), &map, &ledger, &mut pass, b"a");
    pass.retire();
    let value = value_at(&rt, &map, &key);
    drop(map);
    drop(ledger);
    assert_same(&rt, &value, &Some(0));
}

/// The value at a key, in its bin as it is held.
fn value_at<R: Wait, A: Allocator + Clone>(rt: &R, map: &KeyMap<A>, key: &Key) -> Option<u64> {
    let held = map.hold(rt, map.salt().hash_of(key));
    let value = value_in(&held.bin, key);
    held.release();
    value
}
