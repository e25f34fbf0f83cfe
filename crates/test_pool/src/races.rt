//! What happens once where several threads race: a claim is the first, an arrival the last.
ghost use Rattle.std.specs.Prelude.{◌≡◌, ◌+◌, ◌<◌};

use crate::samples::assert_same;
use crate::trees::{BinTree, Growth, Leaf, arrive, grown, leaf_of};
use completers::{Finds, Found, Node};
use std::alloc::{AllocError, Global};
use std::process::Abort;
use std::sync::atomic::AtomicU64;
use std::sync::atomic::Ordering::SeqCst;
use std::thread::Threads;
use std::{hint, thread};

/// Finds something at each index.
struct Everywhere;

impl Finds for Everywhere {
    ghost finds = { λ _. Unit {0} };
}

#[test]
fn the_first_claim_is_found(rt: HostRuntime) {
    let found = Found::<Everywhere>::new();
    let before = found.look();
    let claims = (found.claim(65535), found.claim(0), found.claim(65535));
    let after = found.look();
    let wanted = (None, (true, false, false), Some(65535));
    assert_same(&rt, &(before, claims, after), &wanted);
}

// Eight threads claim, each its own index. Returns how many were the first, how many were told rightly
// whether they were, and how many saw what is found.
fn claim_at_once<Rt: Threads + Sync>(
    rt: &Rt,
    alloc: Global,
) -> Result<(u64, u64, u64), AllocError> {
    let found = Found::<Everywhere>::new();
    let claim = |index: usize| (index as u64, found.claim(index as u64), found.look());
    let claims = thread::map_indices(rt, alloc, 8, &claim)?;
    let first = found.look();
    let (mut firsts, mut right, mut same) = (0u64, 0u64, 0u64);
    for (index, is_first, seen) in claims.iter() {
        firsts = firsts.wrapping_add(u64::from(*is_first));
        right = right.wrapping_add(u64::from(*is_first == (first == Some(*index))));
        same = same.wrapping_add(u64::from(*seen == first));
    }
    Ok((firsts, right, same))
}

#[test]
fn one_of_eight_claims_is_the_first(rt: HostRuntime) {
    for _ in 0..1000u32 {
        let claimed = claim_at_once(&rt, rt.alloc()).expect(&rt, "no fault");
        assert_same(&rt, &claimed, &(1, 8, 8));
    }
}

// Waits until the other thread is there too, at most 10,000 turns, and arrives. Returns whether it was
// last.
fn meet(leaf: Leaf<'_>, there: &AtomicU64) -> bool {
    there.fetch_add(1, SeqCst);
    for _ in 0..10_000u32 {
        if there.load(SeqCst) == 2 {
            break;
        }
        hint::spin_loop();
    }
    arrive(leaf).is_some()
}

/// Two threads arrive at a node of two bins at the same time. Returns how many of them are last.
struct Two;

impl Growth for Two {
    type Seen = u32;

    fn grow<Rt: Threads + Abort + Sync>(
        &self,
        rt: &Rt,
        _alloc: Global,
        tree: &BinTree,
        mut root: Node<usize>,
        level: u32,
    ) -> Result<u32, AllocError> {
        assert!(rt; level == 1 && root.lo() == 0 && root.hi() == 2);
        let (ticket, _) = root.fork(tree, 1);
        let forked = leaf_of(tree, ticket);
        let own = leaf_of(tree, root.own(tree));
        let there = AtomicU64::new(0);
        let (a, b) = thread::join(rt, || meet(forked, &there), || meet(own, &there));
        Ok(u32::from(a) + u32::from(b))
    }
}

#[test]
fn two_threads_arrive_ten_thousand_times(rt: HostRuntime) {
    for _ in 0..10_000u32 {
        let lasts = grown(&rt, rt.alloc(), 2, 2, 2, &Two).expect(&rt, "no fault");
        assert_same(&rt, &lasts, &1);
    }
}
