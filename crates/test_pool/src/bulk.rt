//! Bulk operations on small closed maps.
use crate::closed::{KeyQuiet, Look, on_counted, on_rows};
use crate::samples::{Above, CountedProbe, Initials, ShortGreatest, assert_same};
use bulk_tasks::{BulkFault, Greatest, Plan, Sum, batch, for_each, reduce, reduce_based, search};
use std::alloc::Global;
use std::process::Abort;
use std::sync::Wait;
use std::sync::atomic::AtomicU64;
use std::sync::atomic::Ordering::SeqCst;
use std::thread::Threads;
use steal_pool::OpenGate;

/// How many entries, which threshold, how many workers, and the batch of these.
const BATCHES: [(u64, u64, usize, usize); 9] = [
    (0, 1, 4, 0),
    (1, 0, 4, 0),
    (2, 0, 4, 16),
    (9, 10, 4, 0),
    (10, 10, 4, 1),
    (64, 10, 4, 6),
    (64, 1, 2, 8),
    (1000, 1, 16, 64),
    (64, u64::MAX, 16, 0),
];

#[test]
fn batches(rt: HostRuntime) {
    for (count, threshold, workers, wanted) in &BATCHES {
        assert_same(&rt, &batch(*count, *threshold, *workers), wanted);
    }
}

/// What each operation returns: the sum, the sum from 0, the greatest value, a value above some number,
/// and how many results an action has.
pub(crate) type Answers = (
    Result<Option<i128>, BulkFault>,
    Result<i128, BulkFault>,
    Result<Option<i64>, BulkFault>,
    Result<Option<i64>, BulkFault>,
    Result<usize, BulkFault>,
);

/// Returns how many results an action has that is out of memory at this value.
fn count_answers<Rt: Threads + Wait + Sync>(
    rt: &Rt,
    alloc: Global,
    quiet: &KeyQuiet,
    plan: &Plan<'_, OpenGate>,
    refused_at: i64,
) -> Result<usize, BulkFault> {
    let list = for_each(rt, alloc, quiet, plan, &Initials { refused_at })?;
    Ok(list.len())
}

fn answers<Rt: Threads + Wait + Sync>(
    rt: &Rt,
    alloc: Global,
    quiet: &KeyQuiet,
    plan: &Plan<'_, OpenGate>,
    above: i64,
) -> Answers {
    (
        reduce(rt, alloc, quiet, plan, &Sum),
        reduce_based(rt, alloc, quiet, plan, &Sum),
        reduce(rt, alloc, quiet, plan, &Greatest),
        search(rt, alloc, quiet, plan, &Above(above)),
        count_answers(rt, alloc, quiet, plan, 0),
    )
}

/// Asserts what each operation returns, by each of these thresholds and numbers of workers.
#[derive(Drop)]
pub(crate) struct Answering<'a> {
    pub(crate) thresholds: &'a [u64],
    pub(crate) workers: &'a [usize],
    pub(crate) above: i64,
    pub(crate) wanted: Answers,
}

impl Look for Answering<'_> {
    type Seen = ();

    fn look<Rt: Threads + Wait + Sync + Abort>(&self, rt: &Rt, alloc: Global, quiet: &KeyQuiet) {
        for threshold in self.thresholds {
            for workers in self.workers {
                let plan = Plan::new(*threshold, *workers);
                let found = answers(rt, alloc, quiet, &plan, self.above);
                assert_same(rt, &found, &self.wanted);
            }
        }
    }
}

/// What the operations return of a map that has entries.
pub(crate) fn found(sum: i128, greatest: i64, above: Option<i64>, count: usize) -> Answers {
    (
        Ok(Some(sum)),
        Ok(sum),
        Ok(Some(greatest)),
        Ok(above),
        Ok(count),
    )
}

const ALL_WORKERS: [usize; 16] = [1, 2, 3, 4, 5, 6, 7, 8, 9, 10, 11, 12, 13, 14, 15, 16];

#[test]
fn no_entries(rt: HostRuntime) {
    let answering = Answering {
        thresholds: &[1],
        workers: &[4],
        above: 0,
        wanted: (Ok(None), Ok(0), Ok(None), Ok(None), Ok(0)),
    };
    on_counted(&rt, rt.alloc(), 0, &answering);
}

#[test]
fn bad_workers(rt: HostRuntime) {
    let bad = BulkFault::BadWorkers;
    let answering = Answering {
        thresholds: &[1],
        workers: &[0, 17],
        above: 0,
        wanted: (Err(bad), Err(bad), Err(bad), Err(bad), Err(bad)),
    };
    on_counted(&rt, rt.alloc(), 1, &answering);
}

#[test]
fn the_sum_of_1_to_64(rt: HostRuntime) {
    let answering = Answering {
        thresholds: &[0, 1, 7, 64, 65, u64::MAX],
        workers: &ALL_WORKERS,
        above: 63,
        wanted: found(2080, 64, Some(64), 64),
    };
    on_counted(&rt, rt.alloc(), 64, &answering);
}

#[test]
fn the_greatest_numbers(rt: HostRuntime) {
    let most = 9_223_372_036_854_775_807;
    let answering = Answering {
        thresholds: &[0, 1],
        workers: &[4],
        above: 0,
        wanted: found(18_446_744_073_709_551_614, most, Some(most), 2),
    };
    on_rows(
        &rt,
        rt.alloc(),
        16,
        &[(b"a", most), (b"b", most)],
        &answering,
    );
}

/// Asserts what the operations return of the values 1 to this count, where one above 10 is searched for.
fn look_above_10<Rt: Threads + Wait + Sync + Abort>(
    rt: &Rt,
    alloc: Global,
    count: u32,
    wanted: Answers,
) {
    let answering = Answering {
        thresholds: &[1],
        workers: &ALL_WORKERS,
        above: 10,
        wanted,
    };
    on_counted(rt, alloc, count, &answering);
}

#[test]
fn a_search_above_10(rt: HostRuntime) {
    look_above_10(&rt, rt.alloc(), 10, found(55, 10, None, 10));
    look_above_10(&rt, rt.alloc(), 11, found(66, 11, Some(11), 11));
}

/// Searches, by so many workers, with a probe that finds each value. Returns whether something is found,
/// and the probe's calls.
#[derive(Drop)]
pub(crate) struct FindingAny {
    pub(crate) workers: usize,
}

impl Look for FindingAny {
    type Seen = (bool, u64);

    fn look<Rt: Threads + Wait + Sync + Abort>(
        &self,
        rt: &Rt,
        alloc: Global,
        quiet: &KeyQuiet,
    ) -> (bool, u64) {
        let probe = CountedProbe {
            calls: AtomicU64::new(0),
        };
        let found = search(rt, alloc, quiet, &Plan::new(1, self.workers), &probe);
        let is_found = matches!(found, Ok(Some(_)));
        (is_found, probe.calls.load(SeqCst))
    }
}

// One worker does the tasks in their order, and the first entry is a find: no other is asked.
#[test]
fn a_search_gives_up_after_a_find(rt: HostRuntime) {
    let found = on_counted(&rt, rt.alloc(), 64, &FindingAny { workers: 1 });
    assert_same(&rt, &found, &(true, 1));
}

/// Asserts, so many times, the list of the first bytes of the keys, and of the values.
#[derive(Drop)]
struct Listing<'a> {
    times: u32,
    wanted: &'a [(u8, i64)],
}

impl Look for Listing<'_> {
    type Seen = ();

    fn look<Rt: Threads + Wait + Sync + Abort>(&self, rt: &Rt, alloc: Global, quiet: &KeyQuiet) {
        for _ in 0..self.times {
            let action = Initials { refused_at: 0 };
            let list = for_each(rt, alloc, quiet, &Plan::new(1, 4), &action);
            let list = list.expect(rt, "a list");
            assert_same(rt, &list.as_slice(), &self.wanted);
        }
    }
}

#[test]
fn a_list_in_walk_order(rt: HostRuntime) {
    let rows: [(&[u8], i64); 4] = [(b"q", 1), (b"a", 2), (b"Aa", 3), (b"zzzzzz", 4)];
    let listing = Listing {
        times: 100,
        wanted: &[(b'A', 3), (b'q', 1), (b'a', 2), (b'z', 4)],
    };
    on_rows(&rt, rt.alloc(), 16, &rows, &listing);
}

#[test]
fn two_keys_of_one_hash(rt: HostRuntime) {
    let listing = Listing {
        times: 1,
        wanted: &[(b'A', 1), (b'B', 2)],
    };
    on_rows(&rt, rt.alloc(), 4096, &[(b"Aa", 1), (b"BB", 2)], &listing);
}

/// Returns the greatest value, and how many results an action has, by this threshold: while the value 7 is
/// out of memory, and after that.
#[derive(Drop)]
struct ShortOnce {
    threshold: u64,
}

type Short = (Result<Option<i64>, BulkFault>, Result<usize, BulkFault>);

impl Look for ShortOnce {
    type Seen = (Short, Short);

    fn look<Rt: Threads + Wait + Sync + Abort>(
        &self,
        rt: &Rt,
        alloc: Global,
        quiet: &KeyQuiet,
    ) -> (Short, Short) {
        let plan = Plan::new(self.threshold, 4);
        let greatest = ShortGreatest {
            short: AtomicU64::new(1),
        };
        let refused = reduce(rt, alloc, quiet, &plan, &greatest);
        greatest.short.store(0, SeqCst);
        let answered = reduce(rt, alloc, quiet, &plan, &greatest);
        (
            (refused, count_answers(rt, alloc, quiet, &plan, 7)),
            (answered, count_answers(rt, alloc, quiet, &plan, 0)),
        )
    }
}

#[test]
fn what_was_refused_is_answered_the_next_time(rt: HostRuntime) {
    let refused = (Err(BulkFault::NoMemory), Err(BulkFault::NoMemory));
    for threshold in &[1, u64::MAX] {
        let short = ShortOnce {
            threshold: *threshold,
        };
        let found = on_counted(&rt, rt.alloc(), 64, &short);
        assert_same(&rt, &found, &(refused, (Ok(Some(64)), Ok(64))));
    }
}
