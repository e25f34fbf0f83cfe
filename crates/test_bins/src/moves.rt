//! Moves of tables.
ghost use Rattle.std.specs.Prelude.{◌≡◌, ◌<◌, ◌≤◌, true};
ghost use Rattle.transfer.specs.Views.{IsUnfinished};

use crate::asserts::assert_same;
use crate::helpers::{Hand, Helped, mark, moved_by_threads};
use std::alloc::{AllocError, Global};
use std::process::Abort;
use std::sync::atomic::AtomicU64;
use transfer::{Finish, Mover, Range, Strides};

/// Whether a range is that of the number in a move of so many bins, and was told to be the last where it
/// ends with them.
fn is_right(bins: usize, number: usize, range: Range, finish: Finish) -> bool {
    let lo = number.wrapping_mul(16);
    let wanted = (lo, lo.wrapping_add(16).min(bins));
    (range.lo, range.hi) == wanted && (finish == Finish::Last) == (range.hi == bins)
}

/// One mover claims and finishes all ranges of a move of so many bins. How many there were, how many of them
/// were right, and where the last begins and ends.
fn moved_alone(strides: &Strides<Global>, opener: &mut Mover, bins: usize) -> [usize; 4]
    requires { opener.old.strides ≡ strides.now }
{
    let (mut ranges, mut right) = (0usize, 0usize);
    let mut last = Range { lo: 0, hi: 0 };
    while let Some(range) = strides.claim(opener) {
        let finish = strides.finish(opener, range);
        right = right.wrapping_add(usize::from(is_right(bins, ranges, range, finish)));
        ranges = ranges.wrapping_add(1);
        last = range;
    }
    [ranges, right, last.lo, last.hi]
}

/// How often a move lets a mover enter, of a hundred times. Each of them leaves again.
fn entries(strides: &Strides<Global>) -> u32 {
    let mut entered = 0u32;
    for _ in 0..100u32 {
        if let Some(mover) = strides.enter() {
            strides.leave(mover);
            entered = entered.wrapping_add(1);
        }
    }
    entered
}

/// What one mover finds that moves so many bins alone, and how many others may enter.
fn moved(alloc: Global, bins: usize) -> Result<([usize; 4], u32), AllocError>
    requires { (0 < bins) × (bins ≤ 65536) }
{
    let (strides, mut opener) = Strides::new(alloc, bins)?;
    let found = moved_alone(&strides, &mut opener, bins);
    Ok((found, entries(&strides)))
}

/// Bins; and how many ranges a move of them has, how many of these are right, and where the last begins and
/// ends.
const TABLES: [(usize, [usize; 4]); 10] = [
    (1, [1, 1, 0, 1]),
    (2, [1, 1, 0, 2]),
    (4, [1, 1, 0, 4]),
    (8, [1, 1, 0, 8]),
    (16, [1, 1, 0, 16]),
    (17, [2, 2, 16, 17]),
    (32, [2, 2, 16, 32]),
    (4096, [256, 256, 4080, 4096]),
    (32768, [2048, 2048, 32752, 32768]),
    (65536, [4096, 4096, 65520, 65536]),
];

#[test]
fn one_mover_moves_each_table_alone(rt: HostRuntime) {
    for (bins, wanted) in &TABLES {
        assert!(rt; 0 < *bins && *bins <= 65536);
        let found = moved(rt.alloc(), *bins).expect(&rt, "memory");
        assert_same(&rt, &found, &(*wanted, 63));
    }
}

/// A range has 16 bins.
#[test]
fn moves_of_each_size_have_their_memory(rt: HostRuntime) {
    for level in 0..17u32 {
        let bins = 1usize << level;
        let found = moved(rt.alloc(), bins).expect(&rt, "memory");
        let ranges = (bins / 16).max(1);
        let wanted = [ranges, ranges, bins.saturating_sub(16), bins];
        assert_same(&rt, &found, &(wanted, 63));
    }
}

/// A move of 32 bins. Where memory is refused once, as in a run with `--fail-alloc N`, nothing is lost and
/// the next try makes the move.
fn strides_of_32(rt: &impl Abort, alloc: Global) -> (Strides<Global>, Mover)
    ensures { result.1.strides ≡ result.0 }
{
    match Strides::new(alloc, 32) {
        Ok(made) => made,
        Err(_) => Strides::new(alloc, 32).expect(rt, "memory"),
    }
}

/// The mover with the next range.
fn claimed(rt: &impl Abort, strides: &Strides<Global>, mut mover: Mover) -> Hand
    requires { mover.strides ≡ strides.now }
    ensures strides { result.mover.strides ≡ strides.now }
    ensures unfinished { IsUnfinished result.mover result.range }
{
    let range = strides.claim(&mut mover).expect(rt, "a range");
    Hand { mover, range }
}

/// Asserts that there is no range left to claim.
fn assert_over(rt: &impl Abort, strides: &Strides<Global>, mover: &mut Mover)
    requires { mover.old.strides ≡ strides.now }
    ensures { mover.new ≡ record mover.old { got_none = true } }
{
    if strides.claim(mover).is_some() {
        assert!(rt; false, "a range is left");
        unreachable!()
    }
}

/// Finishes the range, and says what was told. The mover leaves.
fn finished(strides: &Strides<Global>, hand: Hand) -> Finish
    requires strides { hand.mover.strides ≡ strides.now }
    requires unfinished { IsUnfinished hand.mover hand.range }
{
    let Hand { mut mover, range } = hand;
    let told = strides.finish(&mut mover, range);
    strides.leave(mover);
    told
}

/// The opener's mover claims the first range of a table of 32, and another the second. Then there is none left
/// for either. Returns the ranges, and what is told of the two finishes, of which the opener's comes first or
/// last.
fn two_movers(rt: &impl Abort, alloc: Global, is_opener_first: bool) -> ([Range; 2], [Finish; 2]) {
    let (strides, opener) = strides_of_32(rt, alloc);
    let helper = strides.enter().expect(rt, "a spare mover");
    let mut first = claimed(rt, &strides, opener);
    let mut second = claimed(rt, &strides, helper);
    assert_over(rt, &strides, &mut first.mover);
    assert_over(rt, &strides, &mut second.mover);
    let ranges = [first.range, second.range];
    let (early, late) = if is_opener_first {
        (first, second)
    } else {
        (second, first)
    };
    let told = [finished(&strides, early), finished(&strides, late)];
    (ranges, told)
}

/// What is found of two movers of a table of 32, whichever finishes first.
const BOTH: ([Range; 2], [Finish; 2]) = (
    [Range { lo: 0, hi: 16 }, Range { lo: 16, hi: 32 }],
    [Finish::More, Finish::Last],
);

#[test]
fn two_movers_finish_a_table_of_32(rt: HostRuntime) {
    assert_same(&rt, &two_movers(&rt, rt.alloc(), true), &BOTH);
}

#[test]
fn the_finish_that_comes_last_is_told_so(rt: HostRuntime) {
    assert_same(&rt, &two_movers(&rt, rt.alloc(), false), &BOTH);
}

/// Claims and finishes until there is no range left, and marks each that it had. Says whether it was
/// last.
fn moves_all(strides: &Strides<Global>, mut mover: Mover, marks: &[AtomicU64]) -> bool
    requires { mover.strides ≡ strides.now }
{
    let mut is_last = false;
    while let Some(range) = strides.claim(&mut mover) {
        mark(marks, range);
        is_last = strides.finish(&mut mover, range) == Finish::Last;
    }
    is_last
}

impl Helped for Strides<Global> {
    /// Enters, and moves ranges until none is left.
    fn help(&self, _number: usize, marks: &[AtomicU64]) -> [bool; 2] {
        match self.enter() {
            Some(mover) => [true, moves_all(self, mover, marks)],
            None => [false; 2],
        }
    }
}

#[test]
fn eight_threads_move_a_table_of_65536(rt: HostRuntime) {
    let (strides, _opener) = Strides::new(rt.alloc(), 65536).expect(&rt, "memory");
    let found = moved_by_threads(&rt, rt.alloc(), &strides, 8);
    assert_same(&rt, &found, &[8, 1, 4096]);
}

#[test]
fn sixty_three_of_sixty_four_enter(rt: HostRuntime) {
    let (strides, _opener) = Strides::new(rt.alloc(), 16).expect(&rt, "memory");
    let found = moved_by_threads(&rt, rt.alloc(), &strides, 64);
    let is_over = strides.enter().is_none();
    assert_same(&rt, &(found, is_over), &([63, 1, 1], true));
}
