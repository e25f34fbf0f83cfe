//! Movers with their ranges, and threads that help with a move.
use std::alloc::Global;
use std::process::Abort;
use std::sync::atomic::AtomicU64;
use std::sync::atomic::Ordering::SeqCst;
use std::thread::{self, Threads};
use transfer::{Mover, Range, STRIDE};

/// A mover with the range that it claimed last.
pub(crate) struct Hand {
    pub(crate) mover: Mover,
    pub(crate) range: Range,
}

/// A move that threads help with.
pub(crate) trait Helped: Sync {
    /// What the thread of this number does, which marks each range that it moves. Returns whether it took
    /// part, and whether it was told that its range was the last.
    fn help(&self, number: usize, marks: &[AtomicU64]) -> [bool; 2];
}

/// Marks a range.
pub(crate) fn mark(marks: &[AtomicU64], range: Range) {
    if let Some(mark) = marks.get(range.lo / STRIDE) {
        mark.fetch_add(1, SeqCst);
    }
}

/// As many marks as a table of 65,536 bins has ranges.
fn new_marks(rt: &impl Abort, alloc: Global) -> Vec<AtomicU64> {
    let mut marks = Vec::new(alloc);
    for _range in 0..4096u32 {
        marks.push(AtomicU64::new(0)).expect(rt, "memory");
    }
    marks
}

/// How many threads took part, how many of them were told that their range was the last, and how many ranges
/// were marked once and no more.
fn counts(helped: &[[bool; 2]], marks: &[AtomicU64]) -> [usize; 3] {
    let (mut entered, mut last, mut moved) = (0usize, 0usize, 0usize);
    for told in helped {
        entered = entered.wrapping_add(usize::from(told[0]));
        last = last.wrapping_add(usize::from(told[1]));
    }
    for mark in marks {
        moved = moved.wrapping_add(usize::from(mark.load(SeqCst) == 1));
    }
    [entered, last, moved]
}

/// Has so many threads help with a move. Returns how many took part, how many were told that their range was
/// the last, and how many ranges were moved once.
pub(crate) fn moved_by_threads<R: Threads + Abort + Sync, M: Helped>(
    rt: &R,
    alloc: Global,
    strides: &M,
    threads: usize,
) -> [usize; 3] {
    let marks = new_marks(rt, alloc);
    let marks = marks.as_slice();
    let help = |number: usize| strides.help(number, marks);
    let helped = thread::map_indices(rt, alloc, threads, &help).expect(rt, "memory");
    counts(&helped, marks)
}
