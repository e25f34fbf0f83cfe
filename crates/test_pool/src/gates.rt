//! Gates that hold leaves back, or watch them.
use crate::counting::Leaves;
use std::sync::atomic::AtomicU64;
use std::sync::atomic::Ordering::SeqCst;
use std::thread;
use steal_pool::Gate;

/// Tells the leaves that it is called for, whether one was begun before its call, the greatest
/// number of a worker, and that of the worker with the leaf from 0.
#[derive(Drop)]
pub(crate) struct Before<'a> {
    pub(crate) begun: &'a Leaves,
    pub(crate) seen: Leaves,
    pub(crate) late: AtomicU64,
    pub(crate) greatest: AtomicU64,
    pub(crate) at_zero: AtomicU64,
}

impl Gate for Before<'_> {
    fn leaf(&self, worker: usize, lo: usize, hi: usize) {
        if self.begun.has(lo, hi) {
            self.late.store(1, SeqCst);
        }
        self.seen.add(lo, hi);
        self.greatest.fetch_max(worker as u64, SeqCst);
        if lo == 0 {
            self.at_zero.store(worker as u64, SeqCst);
        }
    }
}

/// Writes down the leaves by two digits each, and, if it is to, holds the leaf 0-1 until worker 1
/// has begun one, at most 10,000,000 turns.
#[derive(Drop)]
pub(crate) struct Watch {
    holds: bool,
    pub(crate) seen: AtomicU64,
    pub(crate) first: AtomicU64,
    pub(crate) late: AtomicU64,
}

pub(crate) fn new_watch(holds: bool) -> Watch {
    Watch {
        holds,
        seen: AtomicU64::new(0),
        first: AtomicU64::new(0),
        late: AtomicU64::new(0),
    }
}

impl Gate for Watch {
    fn leaf(&self, worker: usize, lo: usize, hi: usize) {
        let name = (lo as u64 % 10) * 10 + hi as u64 % 10;
        if worker == 1 && self.first.load(SeqCst) == 0 {
            self.first.store(name, SeqCst);
        }
        if !self.holds {
            let seen = self.seen.load(SeqCst);
            self.seen
                .store(seen.wrapping_mul(100).wrapping_add(name), SeqCst);
            return;
        }
        if name == 1 {
            for _ in 0..10_000_000u32 {
                if self.first.load(SeqCst) > 0 {
                    return;
                }
                thread::yield_now();
            }
            self.late.store(1, SeqCst);
        }
    }
}

/// Holds each leaf until so many leaves have begun, for at most so many turns. It is late where
/// they did not.
#[derive(Drop)]
pub(crate) struct Meeting {
    wanted: u64,
    turns: u32,
    pub(crate) begun: AtomicU64,
    pub(crate) late: AtomicU64,
}

pub(crate) fn new_meeting(wanted: u64, turns: u32) -> Meeting {
    Meeting {
        wanted,
        turns,
        begun: AtomicU64::new(0),
        late: AtomicU64::new(0),
    }
}

impl Gate for Meeting {
    fn leaf(&self, _worker: usize, _lo: usize, _hi: usize) {
        self.begun.fetch_add(1, SeqCst);
        for _ in 0..self.turns {
            if self.begun.load(SeqCst) >= self.wanted {
                return;
            }
            thread::yield_now();
        }
        self.late.store(1, SeqCst);
    }
}

/// Holds each leaf until the workers of these bits have begun one, for at most 10,000,000 turns, or
/// until one leaf was held in vain.
#[derive(Drop)]
pub(crate) struct AllWorkers {
    wanted: u64,
    pub(crate) seen: AtomicU64,
    pub(crate) late: AtomicU64,
}

pub(crate) fn all_workers(wanted: u64) -> AllWorkers {
    AllWorkers {
        wanted,
        seen: AtomicU64::new(0),
        late: AtomicU64::new(0),
    }
}

impl Gate for AllWorkers {
    fn leaf(&self, worker: usize, _lo: usize, _hi: usize) {
        self.seen.fetch_or(1u64.wrapping_shl(worker as u32), SeqCst);
        for _ in 0..10_000_000u32 {
            let is_met = self.seen.load(SeqCst) & self.wanted == self.wanted;
            if is_met || self.late.load(SeqCst) > 0 {
                return;
            }
            thread::yield_now();
        }
        self.late.store(1, SeqCst);
    }
}
