//! Tables by size: which place a hash is found at, and a table that is made before its move.
use crate::calls::assert_same;
use crate::recorded::maps::{KeyMap, quiet};
use bin_history::Form;
use bin_layout::{Moved, Refused};
use hashkeys::Class;
use std::alloc::{Allocator, Global};
use std::process::Abort;
use std::sync::Wait;
use test_support::Refusing;

/// The size and the index of the class of the bin that is shown for the hash.
fn shown_at<R: Wait, A: Allocator + Clone>(rt: &R, map: &KeyMap<A>, hash: u32) -> (u32, u32) {
    let shown = map.read(rt, hash);
    let class = shown.bin().class();
    shown.release();
    (class.n(), class.index())
}

/// The sizes and the indices of the classes of the bins that are shown for the hashes 4 to 7.
fn shown<R: Wait, A: Allocator + Clone>(rt: &R, map: &KeyMap<A>) -> [(u32, u32); 4] {
    [
        shown_at(rt, map, 4),
        shown_at(rt, map, 5),
        shown_at(rt, map, 6),
        shown_at(rt, map, 7),
    ]
}

/// Before the moves, between them and after them.
const SHOWN: [[(u32, u32); 4]; 3] = [
    [(1, 0); 4],
    [(2, 0), (2, 1), (2, 0), (2, 1)],
    [(2, 0), (4, 1), (2, 0), (4, 3)],
];

#[test]
fn the_widest_place_of_a_hash_is_found(rt: HostRuntime) {
    let (map, ledger) = quiet(&rt, rt.alloc(), Form::Recorded, 1);
    let before = shown(&rt, &map);
    let first = map.forward(&rt, &ledger, Class::new(1, 0));
    let between = shown(&rt, &map);
    let second = map.forward(&rt, &ledger, Class::new(2, 1));
    let after = shown(&rt, &map);
    drop(map);
    drop(ledger);
    let moved = [first.expect(&rt, "memory"), second.expect(&rt, "memory")];
    assert_same(&rt, &moved, &[Moved::Yes; 2]);
    assert_same(&rt, &[before, between, after], &SHOWN);
}

/// What a try to make a table answers, and what the move after it does.
type Widened = (Result<(), Refused>, Result<Moved, Refused>);

/// Makes the table of two places under an allocator that refuses the request after so many, and
/// then moves the one lean bin with every request refused.
fn widened(rt: &impl Abort, alloc: &Refusing<Global>, granted: u64) -> Widened {
    let (map, ledger) = quiet(rt, alloc, Form::Lean, 1);
    alloc.refuse_after(granted);
    let made = map.try_widen(2);
    alloc.refuse_after(0);
    let moved = map.try_forward(&ledger, Class::new(1, 0));
    alloc.refuse_after(u64::MAX);
    drop(map);
    drop(ledger);
    (made, moved)
}

const WIDENED: [(u64, Widened); 2] = [
    (0, (Err(Refused::NoMemory), Err(Refused::NoMemory))),
    (1, (Ok(()), Ok(Moved::Yes))),
];

#[test]
fn a_table_that_is_there_is_not_made_again(rt: HostRuntime) {
    let alloc = Refusing::new(rt.alloc());
    for (granted, wanted) in &WIDENED {
        let found = widened(&rt, &alloc, *granted);
        assert_same(&rt, &(*granted, found), &(*granted, *wanted));
    }
}
