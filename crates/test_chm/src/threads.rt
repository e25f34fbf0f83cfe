//! Clients in threads of their own.
ghost use Rattle.std.specs.Prelude.{◌≡◌, All};

use crate::lines::{cut, words_of};
use crate::maps::{KeyMap, KeyPass, assert_same, key, put_numbers, put_text};
use crate::runs::{live_alone, open_by};
use bin_history::Reply;
use std::alloc::{AllocError, Allocator, Global};
use std::process::Abort;
use std::sync::Wait;
use std::sync::atomic::AtomicU64;
use std::sync::atomic::Ordering::SeqCst;
use std::thread::{self, Threads};
use test_helpers::Plus;

/// What each of several clients does, by its number, in a thread of its own.
trait Job {
    fn work<R: Wait + Abort>(&self, rt: &R, number: usize, map: &KeyMap<Global>, pass: &mut KeyPass)
        requires { pass.old.ledger ≡ map.now.ledger.id }
        ensures { pass.new.ledger ≡ map.now.ledger.id };
}

/// Lets the clients do the job at the same time.
fn work_together<R: Threads + Wait + Abort + Sync, J: Job + Sync>(
    rt: &R,
    map: &KeyMap<Global>,
    passes: &mut [KeyPass],
    job: &J,
)
    requires { All (λ p. p.ledger ≡ map.now.ledger.id) passes.old }
    ensures { All (λ p. p.ledger ≡ map.now.ledger.id) passes.new }
{
    let work = |number: usize, pass: &mut KeyPass|
        requires { pass.now.ledger ≡ map.now.ledger.id }
        ensures { pass.exit.now.ledger ≡ map.entry.now.ledger.id }
    { job.work(rt, number, map, pass) };
    thread::for_each_mut(rt, passes, 32, &work);
}

/// Opens a map as the first line says, lets its clients do the job at the same time, and then does what the
/// other lines say.
fn together<R: Threads + Wait + Abort + Sync, J: Job + Sync>(
    rt: &R,
    memory: Global,
    (script, row): (&str, &str),
    job: &J,
) {
    let (opening, lines) = cut(script, "\n");
    let (map, mut passes) = open_by(rt, memory, &words_of(rt, opening, row));
    work_together(rt, &map, &mut passes, job);
    live_alone(rt, memory, map, passes, (lines, row));
}

/// Puts a key where it is not there, and counts whether there was no value, or this one.
#[derive(Drop)]
struct PutOnce {
    none: AtomicU64,
    some: AtomicU64,
}

impl Job for PutOnce {
    fn work<R: Wait + Abort>(
        &self,
        rt: &R,
        _number: usize,
        map: &KeyMap<Global>,
        pass: &mut KeyPass,
    ) {
        match map.put_if_absent(rt, pass, key(rt, b"a"), 1) {
            Ok(Reply::Value(None)) => self.none.fetch_add(1, SeqCst),
            Ok(Reply::Value(Some(1))) => self.some.fetch_add(1, SeqCst),
            _ => 0,
        };
    }
}

#[test]
fn one_of_32_clients_finds_no_value(rt: HostRuntime) {
    for row in ["recorded", "lean"] {
        let job = PutOnce {
            none: AtomicU64::new(0),
            some: AtomicU64::new(0),
        };
        let script = "open $0 16 32
            close
            keys = 1
            pairs a 1";
        together(&rt, rt.alloc(), (script, row), &job);
        let told = [job.none.load(SeqCst), job.some.load(SeqCst)];
        assert_same(&rt, &told, &[1, 31]);
    }
}

/// So many counters at 0.
fn counters(alloc: Global, count: usize) -> Result<Vec<AtomicU64>, AllocError> {
    let mut counters = Vec::new(alloc);
    for _ in 0..count {
        counters.push(AtomicU64::new(0))?;
    }
    Ok(counters)
}

/// Adds 1 to the value of one key a thousand times, and counts each reply at the counter of its
/// number.
fn merge_often<R: Wait + Abort, A: Allocator + Clone>(
    rt: &R,
    map: &KeyMap<A>,
    pass: &mut KeyPass,
    replies: &[AtomicU64],
)
    requires { pass.old.ledger ≡ map.now.ledger.id }
    ensures { pass.new.ledger ≡ map.now.ledger.id }
{
    for _time in 0..1000u32 {
        let reply = map.merge(rt, pass, key(rt, b"a"), 1, Plus(Some(0)));
        if let Ok(Reply::Value(Some(sum))) = reply {
            if let Some(counter) = replies.get(sum as usize) {
                counter.fetch_add(1, SeqCst);
            }
        }
    }
}

/// Counts at these counters.
#[derive(Drop)]
struct MergeOften<'a>(&'a [AtomicU64]);

impl<'a> Job for MergeOften<'a> {
    fn work<R: Wait + Abort>(
        &self,
        rt: &R,
        _number: usize,
        map: &KeyMap<Global>,
        pass: &mut KeyPass,
    ) {
        merge_often(rt, map, pass, self.0)
    }
}

/// Lets as many clients as the script says add to the value of one key, and asserts that each sum from 1 on
/// was replied once, and 0 never.
fn merge_once<R: Threads + Wait + Abort + Sync>(
    rt: &R,
    memory: Global,
    script: (&str, &str),
    sums: usize,
) {
    let replies = counters(memory, sums.saturating_add(1)).expect(rt, "memory");
    together(rt, memory, script, &MergeOften(&replies));
    for (sum, counter) in replies.iter().enumerate() {
        let wanted = if sum == 0 { 0 } else { 1 };
        assert_same(rt, &(sum, counter.load(SeqCst)), &(sum, wanted));
    }
}

#[test]
fn two_clients_merge_each_sum_once(rt: HostRuntime) {
    let script = "open recorded 16 2
        close
        pairs a 2000
        slot_1 a 1024 = 976";
    merge_once(&rt, rt.alloc(), (script, ""), 2000);
    let script = "open lean 16 2
        close
        pairs a 2000";
    merge_once(&rt, rt.alloc(), (script, ""), 2000);
}

#[test]
fn many_clients_merge_each_sum_once(rt: HostRuntime) {
    let script = "open $0 16 32
        close
        pairs a 32000";
    for row in ["recorded", "lean"] {
        merge_once(&rt, rt.alloc(), (script, row), 32_000);
    }
}

/// Puts so many new keys.
#[derive(Drop)]
struct Grow {
    puts: u32,
}

impl Job for Grow {
    fn work<R: Wait + Abort>(
        &self,
        rt: &R,
        number: usize,
        map: &KeyMap<Global>,
        pass: &mut KeyPass,
    ) {
        assert!(rt; number < 16);
        let first = (number as u32).saturating_mul(self.puts);
        put_numbers(rt, map, pass, first, self.puts)
    }
}

#[test]
fn clients_grow_one_table_and_lose_no_key(rt: HostRuntime) {
    let script = "open $0 $1 $2
        close
        keys = $3
        numbers = $3";
    let rows = [
        (300, "recorded 1 2 600"),
        (300, "lean 1 2 600"),
        (5000, "recorded 1 16 80000"),
        (5000, "lean 1 16 80000"),
        (12_288, "recorded 16 4 49152"),
        (12_288, "lean 16 4 49152"),
    ];
    for (puts, row) in rows {
        together(&rt, rt.alloc(), (script, row), &Grow { puts });
    }
}

#[test]
fn four_clients_grow_a_lean_table_to_a_million_bins(rt: HostRuntime) {
    // 786,432 keys are three to two of 2^19 bins, and from then on each call moves 16 of them.
    let script = "open lean 16 4
        close
        more_bins 524288 = true
        keys = 824000
        numbers = 824000";
    together(&rt, rt.alloc(), (script, ""), &Grow { puts: 206_000 });
}

/// The first puts one key of a bucket, and the other one another.
#[derive(Drop)]
struct PutTwo;

impl Job for PutTwo {
    fn work<R: Wait + Abort>(
        &self,
        rt: &R,
        number: usize,
        map: &KeyMap<Global>,
        pass: &mut KeyPass,
    ) {
        let text: &[u8] = if number == 0 { b"a" } else { b"q" };
        put_text(rt, map, pass, text, 1)
    }
}

#[test]
fn a_walk_after_threads_shows_the_calls_of_both(rt: HostRuntime) {
    let script = "open $0 16 2
        among 1 a 1 = 2
        among 1 q 1 = 2
        count = 2";
    for row in ["recorded", "lean"] {
        together(&rt, rt.alloc(), (script, row), &PutTwo);
    }
}
