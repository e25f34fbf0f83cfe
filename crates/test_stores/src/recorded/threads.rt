//! Threads that share one map.
ghost use Rattle.std.specs.Prelude.{◌≡◌, All, IfOk};

use crate::calls::{
    KeyLedger, KeyPass, KeyRole, TEXTS, assert_all_made, assert_moved_once, assert_same, count_of,
};
use crate::recorded::maps::{KeyMap, Opened, class_at, open, put, quiet};
use bin_history::Form;
use hashkeys::{Class, Salt};
use std::alloc::{Allocator, Global};
use std::process::Abort;
use std::sync::Wait;
use std::thread::{self, Threads};
use test_helpers::settled;

#[test]
fn two_threads_forward_one_class_once(rt: HostRuntime) {
    let (map, ledger) = quiet(&rt, rt.alloc(), Form::Lean, 16);
    let forward = ||
        requires ledger { map.ledger ≡ ledger.id }
        requires n { map.n ≡ 16 }
    { map.forward(&rt, &ledger, Class::new(16, 1)) };
    let (one, other) = thread::join(&rt, forward, forward);
    let class = class_at(&rt, &map, 17);
    drop(map);
    drop(ledger);
    assert_same(&rt, &class, &Class::new(32, 17));
    assert_moved_once(&rt, one.expect(&rt, "memory"), other.expect(&rt, "memory"));
}

/// Holds and releases the bins of these hashes in turn.
fn hold_often<R: Wait, A: Allocator + Clone>(rt: &R, map: &KeyMap<A>, hashes: u32, times: u32) {
    for turn in 0..times {
        map.hold(rt, turn % hashes.max(1)).release();
    }
}

#[test]
fn many_threads_hold_few_bins(rt: HostRuntime) {
    let (map, ledger) = quiet(&rt, rt.alloc(), Form::Recorded, 4);
    let hold = |_: usize| hold_often(&rt, &map, 4, 20_000);
    let done = thread::map_indices(&rt, rt.alloc(), 32, &hold);
    drop(map);
    drop(ledger);
    assert_same(&rt, &done.expect(&rt, "memory").len(), &32);
}

/// Puts to each key in turn, a hundred times.
fn put_to_all<R: Wait + Abort>(
    rt: &R,
    alloc: Global,
    map: &KeyMap<Global>,
    ledger: &KeyLedger<Global>,
    pass: &mut KeyPass,
)
    requires ledger { map.now.ledger ≡ ledger.now.id }
    requires pass { pass.old.ledger ≡ ledger.now.id }
    ensures { pass.new.ledger ≡ ledger.now.id }
{
    for _round in 0..100 {
        for text in TEXTS {
            put(rt, &alloc, map, ledger, pass, text);
        }
    }
}

/// Each pass puts to each key, at the same time as the others.
fn put_from_threads<R: Threads + Wait + Abort + Sync>(
    rt: &R,
    alloc: Global,
    map: &KeyMap<Global>,
    ledger: &KeyLedger<Global>,
    passes: &mut Vec<KeyPass>,
)
    requires ledger { map.now.ledger ≡ ledger.now.id }
    requires passes { All (λ p. p.ledger ≡ ledger.now.id) passes.old.items }
    ensures { All (λ p. p.ledger ≡ ledger.now.id) passes.new.items }
{
    thread::for_each_mut(
        rt,
        passes,
        8,
        &|_number, pass| { put_to_all(rt, alloc, map, ledger, pass) },
    );
}

/// Takes the bins out of the map, and gives their roles and how many keys each has.
fn roles_of<R: Wait + Abort>(
    rt: &R,
    alloc: Global,
    map: KeyMap<Global>,
) -> (Vec<KeyRole>, Vec<usize>)
    ensures { All (λ r. r.ledger ≡ map.ledger) result.0.items }
{
    let room = map.room_for_leaves().expect(rt, "memory");
    let Some((bins, roles)) = map.into_leaves(room) else {
        assert!(rt; false, "the bins are taken out");
        unreachable!()
    };
    let mut counts = Vec::new(alloc);
    for bin in &bins {
        counts.push(count_of(bin)).expect(rt, "memory");
    }
    (roles, counts)
}

#[test]
fn eight_threads_post_to_eight_bins(rt: HostRuntime) {
    let Opened {
        map,
        ledger,
        mut passes,
    } = open(rt.alloc(), Form::Lean, Salt(0), 8, 8).expect(&rt, "memory");
    put_from_threads(&rt, rt.alloc(), &map, &ledger, &mut passes);
    let (roles, counts) = roles_of(&rt, rt.alloc(), map);
    assert_all_made(&rt, &passes, 800);
    let total = settled(ledger, passes, roles);
    let found = (counts.as_slice(), total);
    assert_same(&rt, &found, &([1usize; 8].as_slice(), Some(8)));
}
