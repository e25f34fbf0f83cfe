//! A lean bin of a million entries under one hash.
ghost use Rattle.std.specs.Prelude.{nat_eq, IfOk};
ghost use Rattle.bin_history.specs.Entries.{HasDistinctKeys};

use crate::asserts::assert_same;
use crate::rows::op_between;
use crate::twins::Twin;
use bin_history::{Bin, Form, KeyArg, Op, Reply};
use hashkeys::{Class, Salt};
use std::alloc::{AllocError, Global};
use std::process::Abort;
use test_helpers::Plus;

type LongBin = Bin<Twin, u64, Plus, Global>;

/// How many entries there are.
const MANY: u64 = 1_000_000;

/// The numbers up to there, in order, as keys of themselves.
fn numbered(alloc: Global) -> Result<Vec<(Twin, u64)>, AllocError>
    ensures { IfOk result (λ list. HasDistinctKeys nat_eq list.items) }
{
    let mut list = Vec::with_capacity(alloc, MANY as usize)?;
    for number in 0..MANY {
        list.push((Twin(number), number))?;
    }
    Ok(list)
}

/// Makes a call on the number.
fn make(
    rt: &impl Abort,
    alloc: Global,
    bin: &mut LongBin,
    number: u64,
    op: Op<u64, Plus>,
) -> Reply<u64> {
    let key = Twin(number);
    let (salt, class) = (bin.salt(), bin.class());
    let hash = salt.hash_of(&key);
    assert!(rt; class.covers(hash));
    let made = bin.make_on(&alloc, hash, KeyArg::Owned(key), op, 0, 0);
    made.expect(rt, "memory").0
}

/// Asserts that the walk goes over the numbers from 1 on, in order, but for 500,000, then over the
/// last, and then over 0, which have 7 and 5, where each other has itself.
fn assert_walk(rt: &impl Abort, bin: &LongBin) {
    let mut turn = 1u64;
    for (key, value) in bin.walk() {
        let wanted = match turn {
            999_999 => (turn, 7),
            1_000_000 => (0, 5),
            number => (number, number),
        };
        assert_same(rt, &(key.0, *value), &wanted);
        turn = turn.wrapping_add(if turn == 499_999 { 2 } else { 1 });
    }
    assert_same(rt, &turn, &1_000_001);
}

/// A number, the value that a call finds there, and the value that it leaves.
const CALLS: [(u64, Option<u64>, Option<u64>); 6] = [
    (999_999, Some(999_999), Some(7)),
    (0, Some(0), None),
    (500_000, Some(500_000), None),
    (500_000, None, None),
    (0, None, Some(5)),
    (0, Some(5), Some(5)),
];

/// The halves of a bin.
fn halves(rt: &impl Abort, alloc: Global, bin: LongBin) -> (LongBin, LongBin) {
    assert!(rt; bin.class().n() < 65536);
    let Ok(halves) = bin.split(&alloc) else {
        assert!(rt; false, "nothing is refused");
        unreachable!()
    };
    halves
}

/// A lean bin with all entries.
fn opened(rt: &impl Abort, alloc: Global) -> LongBin {
    let base = numbered(alloc).expect(rt, "memory");
    let made = Bin::new(&alloc, Form::Lean, Salt(0), Class::new(1, 0), base);
    made.expect(rt, "memory")
}

/// Makes the calls, each of which finds what is said.
fn assert_calls(rt: &impl Abort, alloc: Global, bin: &mut LongBin) {
    for (number, found, left) in &CALLS {
        let reply = make(rt, alloc, bin, *number, op_between(*found, *left));
        assert_same(rt, &(*number, reply), &(*number, Reply::Value(*found)));
    }
}

/// How many entries a copy of the bin's has.
fn copied(rt: &impl Abort, alloc: Global, bin: &LongBin) -> usize {
    bin.copy_entries(&alloc).expect(rt, "memory").len()
}

#[test]
fn a_million_entries_under_one_hash(rt: HostRuntime) {
    let mut bin = opened(&rt, rt.alloc());
    assert_calls(&rt, rt.alloc(), &mut bin);
    assert_walk(&rt, &bin);
    assert_same(&rt, &copied(&rt, rt.alloc(), &bin), &999_999);
    let (low, high) = halves(&rt, rt.alloc(), bin);
    assert_walk(&rt, &low);
    assert_same(&rt, &high.first().is_none(), &true);
}
