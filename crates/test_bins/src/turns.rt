//! Moves whose movers enter again and again.
ghost use Rattle.std.specs.Prelude.{◌≡◌};
ghost use Rattle.transfer.specs.Views.{IsUnfinished};

use crate::asserts::assert_same;
use crate::helpers::{Hand, Helped, mark, moved_by_threads};
use std::alloc::Global;
use std::process::Abort;
use std::sync::atomic::AtomicU64;
use transfer::{Finish, Range, SharedStrides};

/// The client's mover with the next range, which it claims.
fn entered(rt: &impl Abort, strides: &SharedStrides<Global>, client: usize) -> Hand
    ensures strides { result.mover.strides ≡ strides.now }
    ensures unfinished { IsUnfinished result.mover result.range }
{
    let mut mover = strides.enter(client).expect(rt, "a mover");
    let range = strides.claim(&mut mover).expect(rt, "a range");
    Hand { mover, range }
}

/// Finishes the range, and puts the mover back. Returns what was told.
fn finished(strides: &SharedStrides<Global>, client: usize, hand: Hand) -> Finish
    requires strides { hand.mover.strides ≡ strides.now }
    requires unfinished { IsUnfinished hand.mover hand.range }
{
    let Hand { mut mover, range } = hand;
    let told = strides.finish(&mut mover, range);
    strides.leave(client, mover);
    told
}

/// Whether the client's mover finds no range left to claim. It is put back.
fn is_over(rt: &impl Abort, strides: &SharedStrides<Global>, client: usize) -> bool {
    let mut mover = strides.enter(client).expect(rt, "a mover");
    let is_over = strides.claim(&mut mover).is_none();
    strides.leave(client, mover);
    is_over
}

/// Whether the client gets no mover.
fn is_out(strides: &SharedStrides<Global>, client: usize) -> bool {
    strides.enter(client).is_none()
}

/// Two clients move 40 bins. The first finishes its first range and claims the last one while the other has
/// the second, which is finished at the end. Returns the ranges, what each finish is told, and whether the
/// first client's mover was out meanwhile.
fn move_40(rt: &impl Abort, strides: &SharedStrides<Global>) -> ([Range; 3], [Finish; 3], bool) {
    let first = entered(rt, strides, 0);
    let while_out = is_out(strides, 0);
    let second = entered(rt, strides, 1);
    let (low, middle) = (first.range, second.range);
    let early = finished(strides, 0, first);
    let third = entered(rt, strides, 0);
    let ranges = [low, middle, third.range];
    let late = finished(strides, 0, third);
    let last = finished(strides, 1, second);
    (ranges, [early, late, last], while_out)
}

/// The ranges of 40 bins, what their finishes are told, and that a mover is not handed out while it is out.
const MOVED: ([Range; 3], [Finish; 3], bool) = (
    [
        Range { lo: 0, hi: 16 },
        Range { lo: 16, hi: 32 },
        Range { lo: 32, hi: 40 },
    ],
    [Finish::More, Finish::More, Finish::Last],
    true,
);

/// A mover is not handed out while it is out, nor when no range is left, nor to a third client.
#[test]
fn two_clients_move_40_bins_a_range_at_a_time(rt: HostRuntime) {
    let strides = SharedStrides::new(rt.alloc(), 40, 2).expect(&rt, "memory");
    assert_same(&rt, &move_40(&rt, &strides), &MOVED);
    let over = [is_over(&rt, &strides, 0), is_over(&rt, &strides, 1)];
    assert_same(&rt, &over, &[true; 2]);
    let out = [
        is_out(&strides, 0),
        is_out(&strides, 1),
        is_out(&strides, 2),
    ];
    assert_same(&rt, &out, &[true; 3]);
}

impl Helped for SharedStrides<Global> {
    /// Enters for each range, of which there are at most 4,096.
    fn help(&self, number: usize, marks: &[AtomicU64]) -> [bool; 2] {
        let (mut is_in, mut is_last) = (false, false);
        for _turn in 0..=4096 {
            let Some(mut mover) = self.enter(number) else {
                break;
            };
            is_in = true;
            if let Some(range) = self.claim(&mut mover) {
                mark(marks, range);
                is_last = self.finish(&mut mover, range) == Finish::Last || is_last;
            }
            self.leave(number, mover);
        }
        [is_in, is_last]
    }
}

#[test]
fn eight_clients_move_65536_bins_in_turns(rt: HostRuntime) {
    let strides = SharedStrides::new(rt.alloc(), 65536, 8).expect(&rt, "memory");
    let found = moved_by_threads(&rt, rt.alloc(), &strides, 8);
    assert_same(&rt, &found, &[8, 1, 4096]);
}
