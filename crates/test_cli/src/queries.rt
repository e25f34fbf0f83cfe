//! Queries that a pool of workers answers.
use crate::samples::{check_with, fill, options, told_under};
use mapcli_core::{ClientGate, Gate};
use std::alloc::{AllocGlobal, Global};
use std::process::Abort;
use std::sync::Wait;
use std::sync::atomic::AtomicU64;
use std::sync::atomic::Ordering::SeqCst;
use std::thread;
use std::thread::Threads;

/// Holds the first leaf until a second has begun, for so many turns at most.
#[derive(Drop)]
struct TwoLeaves {
    begun: AtomicU64,
    missed: AtomicU64,
}

const MOST_TURNS: u64 = 10_000_000;

impl Gate for TwoLeaves {
    fn leaf(&self, _worker: usize, _lo: usize, _hi: usize) {
        if self.begun.fetch_add(1, SeqCst) == 0 {
            for _ in 0..MOST_TURNS {
                if self.begun.load(SeqCst) > 1 {
                    return;
                }
                thread::yield_now();
            }
            self.missed.store(1, SeqCst);
        }
    }
}

impl ClientGate for TwoLeaves {
    fn call(&self, _client: usize, _ordinal: u64) {}
}

/// A script of 64 puts of the values 1 to 64, and its query.
fn script_of_puts(rt: &impl Abort, alloc: Global, query: &str) -> String {
    let mut script = String::from_str(alloc, "client\n").expect(rt, "memory");
    for value in 1..=64i64 {
        fill(rt, &mut script, "put k# #\n", &[value, value]);
    }
    fill(rt, &mut script, "query\n", &[]);
    fill(rt, &mut script, query, &[]);
    script
}

/// Workers that take one leaf after the other miss each other here.
#[test]
fn two_leaves_run_at_the_same_time(rt: HostRuntime) {
    let script = script_of_puts(&rt, rt.alloc(), "reduce sum 1\n");
    let gate = TwoLeaves {
        begun: AtomicU64::new(0),
        missed: AtomicU64::new(0),
    };
    let (status, text) = told_under(&rt, script.as_bytes(), &options(&rt, 2, 16, 0), &gate);
    drop(script);
    let missed = gate.missed.load(SeqCst);
    assert!(rt; status == 0 && missed == 0 && text.ends_with(b"none\n2080\n"));
}

/// What 64 puts print, and then two sums.
const TWO_SUMS: &str = "client 0
none\nnone\nnone\nnone\nnone\nnone\nnone\nnone\nnone\nnone\nnone\nnone\nnone\nnone\nnone\nnone
none\nnone\nnone\nnone\nnone\nnone\nnone\nnone\nnone\nnone\nnone\nnone\nnone\nnone\nnone\nnone
none\nnone\nnone\nnone\nnone\nnone\nnone\nnone\nnone\nnone\nnone\nnone\nnone\nnone\nnone\nnone
none\nnone\nnone\nnone\nnone\nnone\nnone\nnone\nnone\nnone\nnone\nnone\nnone\nnone\nnone\nnone
2080
2080
";

/// One threshold divides nothing, the other all.
#[test]
fn a_sum_by_any_threshold_is_the_same(rt: HostRuntime) {
    let query = "reduce sum 18446744073709551615\nreduce sum 1\n";
    let script = script_of_puts(&rt, rt.alloc(), query);
    check_with(&rt, &options(&rt, 2, 16, 0), script.as_bytes(), 0, TWO_SUMS);
}

/// Counts the leaves.
#[derive(Drop)]
struct Leaves {
    begun: AtomicU64,
}

impl Gate for Leaves {
    fn leaf(&self, _worker: usize, _lo: usize, _hi: usize) {
        self.begun.fetch_add(1, SeqCst);
    }
}

impl ClientGate for Leaves {
    fn call(&self, _client: usize, _ordinal: u64) {}
}

/// How many leaves a script of three puts and a query has, by two workers.
fn leaves_of<R: Threads + Wait + Sync + Abort + AllocGlobal>(
    rt: &R,
    query: &str,
    threshold: i64,
) -> u64 {
    let mut script = String::new(rt.alloc());
    fill(
        rt,
        &mut script,
        "client\nput a 1\nput b 2\nput c 3\nquery\n",
        &[],
    );
    fill(rt, &mut script, query, &[threshold]);
    let gate = Leaves {
        begun: AtomicU64::new(0),
    };
    let (status, _text) = told_under(rt, script.as_bytes(), &options(rt, 2, 16, 0), &gate);
    assert!(rt; status == 0);
    gate.begun.load(SeqCst)
}

/// Queries, each with a place for its threshold.
const DIVIDED: [&str; 4] = [
    "reduce sum #\n",
    "reduce max #\n",
    "search above 9 #\n",
    "list #\n",
];

/// The work is divided from a threshold of 1 on, and not where the threshold is above the number of
/// keys.
#[test]
fn a_threshold_divides_the_work_or_not(rt: HostRuntime) {
    for query in &DIVIDED {
        let (divided, whole) = (leaves_of(&rt, query, 1), leaves_of(&rt, query, 4));
        assert!(rt; divided > 1 && whole == 1, "{query}: {divided} and {whole}");
    }
}

/// The keys `k0` to `k39` in byte order, each with the value that it was put with.
const LISTED: &str = "k0 -30
k1 -23
k10 40
k11 -30
k12 -23
k13 -16
k14 -9
k15 -2
k16 5
k17 12
k18 19
k19 26
k2 -16
k20 33
k21 40
k22 -30
k23 -23
k24 -16
k25 -9
k26 -2
k27 5
k28 12
k29 19
k3 -9
k30 26
k31 33
k32 40
k33 -30
k34 -23
k35 -16
k36 -9
k37 -2
k38 5
k39 12
k4 -2
k5 5
k6 12
k7 19
k8 26
k9 33
";

/// Thresholds that divide the work, and that do not.
const THRESHOLDS: [&str; 6] = ["0", "1", "5", "40", "41", "18446744073709551615"];

/// Queries, each up to its threshold.
const BY_THRESHOLD: [&str; 4] = ["reduce sum ", "reduce max ", "list ", "search above 40 "];

/// Puts 40 keys, whose values are -30, -23 and so on up to 40, again and again, and asks each query by each
/// threshold.
fn script_of_queries(rt: &impl Abort, alloc: Global) -> String {
    let mut text = String::from_str(alloc, "client\n").expect(rt, "memory");
    for i in 0..40i64 {
        fill(rt, &mut text, "put k# #\n", &[i, 7 * (i % 11) - 30]);
    }
    fill(rt, &mut text, "query\n", &[]);
    for threshold in &THRESHOLDS {
        fill(rt, &mut text, "count\n", &[]);
        for query in &BY_THRESHOLD {
            fill(rt, &mut text, query, &[]);
            fill(rt, &mut text, threshold, &[]);
            fill(rt, &mut text, "\n", &[]);
        }
    }
    text
}

/// What it prints: 40 replies, and six times the same answers. Three rounds of eleven values make
/// 55 each, the first seven of a fourth -63: 102 together.
fn wanted_answers(rt: &impl Abort, alloc: Global) -> String {
    let mut text = String::from_str(alloc, "client 0\n").expect(rt, "memory");
    for _ in 0..40 {
        fill(rt, &mut text, "none\n", &[]);
    }
    for _ in 0..6 {
        fill(rt, &mut text, "40\n102\nsome 40\n", &[]);
        fill(rt, &mut text, LISTED, &[]);
        fill(rt, &mut text, "none\n", &[]);
    }
    text
}

/// The answers of 1 to 16 workers are the same, at thresholds that divide the work and that do not.
#[test]
fn any_workers_answer_the_same(rt: HostRuntime) {
    let script = script_of_queries(&rt, rt.alloc());
    let wanted = wanted_answers(&rt, rt.alloc());
    for workers in &[1, 2, 4, 16] {
        let options = options(&rt, *workers, 16, 0);
        check_with(&rt, &options, script.as_bytes(), 0, &wanted);
    }
}
