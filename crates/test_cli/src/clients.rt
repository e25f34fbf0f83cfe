//! Runs of scripts whose clients call at the same time.
use crate::samples::{check_with, fill, options, told, told_under};
use mapcli_core::{ClientGate, Gate};
use std::alloc::{AllocGlobal, Global};
use std::process::Abort;
use std::sync::Wait;
use std::sync::atomic::AtomicU64;
use std::sync::atomic::Ordering::SeqCst;
use std::thread;
use std::thread::Threads;

/// Whichever client is first finds no value, and the other the first one's.
#[test]
fn two_clients_put_one_key(rt: HostRuntime) {
    let script = b"client\nput a 1\nclient\nput a 2\nquery\ncount\n";
    let (status, text) = told(&rt, script, &options(&rt, 4, 16, 0));
    let is_first = text.as_slice() == b"client 0\nnone\nclient 1\nsome 1\n1\n".as_slice();
    let is_second = text.as_slice() == b"client 0\nsome 2\nclient 1\nnone\n1\n".as_slice();
    assert!(rt; status == 0 && (is_first || is_second), "{text:?}");
}

/// A script of so many clients, each of which makes one call so often, and its query.
fn script_of_calls(
    rt: &impl Abort,
    alloc: Global,
    clients: u32,
    call: &str,
    times: u32,
    query: &str,
) -> String {
    let mut script = String::new(alloc);
    for _ in 0..clients {
        fill(rt, &mut script, "client\n", &[]);
        for _ in 0..times {
            fill(rt, &mut script, call, &[]);
        }
    }
    fill(rt, &mut script, "query\n", &[]);
    fill(rt, &mut script, query, &[]);
    script
}

/// How many lines of a text are this one.
fn count_lines(rt: &impl Abort, text: &[u8], wanted: &str) -> u32 {
    let mut count = 0u32;
    for line in str::from_utf8(text).expect(rt, "a text").lines() {
        count = count.saturating_add(u32::from(line == wanted));
    }
    count
}

/// Of 32 clients that put one key where it is absent, one does.
#[test]
fn one_of_32_clients_is_first(rt: HostRuntime) {
    let script = script_of_calls(&rt, rt.alloc(), 32, "put_if_absent a 1\n", 1, "count\n");
    let (status, text) = told(&rt, script.as_bytes(), &options(&rt, 4, 16, 0));
    let (none, some) = (
        count_lines(&rt, &text, "none"),
        count_lines(&rt, &text, "some 1"),
    );
    let is_one = status == 0 && text.ends_with(b"\n1\n");
    assert!(rt; is_one && none == 1 && some == 31, "{none} and {some}");
}

/// The sum that a line tells, 0 where it tells none up to the most.
fn sum_of(line: &str, most: u32) -> u32 {
    match line.strip_prefix("some ") {
        Some(sum) => match sum.parse().ok() {
            Some(sum) if sum <= most => sum,
            _ => 0,
        },
        None => 0,
    }
}

/// Asserts that each sum from 1 up to the most is told once, and no other.
fn assert_once(rt: &impl Abort, alloc: Global, text: &[u8], most: u32) {
    let len = (most as usize).saturating_add(1);
    let mut replies = vec![in alloc; 0u32; len].expect(rt, "memory");
    for line in str::from_utf8(text).expect(rt, "a text").lines() {
        if line.starts_with("some ") {
            let count = replies
                .get_mut(sum_of(line, most) as usize)
                .expect(rt, "a sum");
            *count = count.saturating_add(1);
        }
    }
    for (sum, count) in replies.iter().enumerate() {
        assert!(rt; *count == u32::from(sum > 0), "the sum {sum}");
    }
}

/// So many clients add 1 to one key, each so often. Each sum is the reply of one call, and the last
/// is the value.
fn assert_sums<R: Threads + Wait + Sync + Abort + AllocGlobal>(
    rt: &R,
    clients: u32,
    calls: u32,
    last: &[u8],
) {
    let script = script_of_calls(
        rt,
        rt.alloc(),
        clients,
        "merge a 1 sum\n",
        calls,
        "list 1\n",
    );
    let (status, text) = told(rt, script.as_bytes(), &options(rt, 4, 16, 0));
    assert!(rt; status == 0 && text.ends_with(last));
    assert_once(rt, rt.alloc(), &text, clients.saturating_mul(calls));
}

#[test]
fn two_clients_count_to_2000(rt: HostRuntime) {
    assert_sums(&rt, 2, 1000, b"\na 2000\n");
}

#[test]
fn all_32_clients_count_to_32000(rt: HostRuntime) {
    assert_sums(&rt, 32, 1000, b"\na 32000\n");
}

/// A script of 32 clients that put 40 keys each, take every second of them away again and read one.
fn script_of_many_keys(rt: &impl Abort, alloc: Global) -> String {
    let mut script = String::new(alloc);
    for client in 0..32i64 {
        fill(rt, &mut script, "client\n", &[]);
        for number in 0..40i64 {
            fill(rt, &mut script, "put c#_# #\n", &[client, number, number]);
        }
        for half in 0..20i64 {
            fill(
                rt,
                &mut script,
                "remove c#_#\n",
                &[client, half.saturating_mul(2)],
            );
        }
        fill(rt, &mut script, "get c#_39\n", &[client]);
    }
    fill(
        rt,
        &mut script,
        "query\ncount\nreduce sum 1\nreduce max 1\n",
        &[],
    );
    script
}

/// What it prints.
fn printed_of_many_keys(rt: &impl Abort, alloc: Global) -> String {
    let mut wanted = String::new(alloc);
    for client in 0..32i64 {
        fill(rt, &mut wanted, "client #\n", &[client]);
        for _ in 0..40 {
            fill(rt, &mut wanted, "none\n", &[]);
        }
        for half in 0..20i64 {
            fill(rt, &mut wanted, "some #\n", &[half.saturating_mul(2)]);
        }
        fill(rt, &mut wanted, "some 39\n", &[]);
    }
    fill(rt, &mut wanted, "640\n12800\nsome 39\n", &[]);
    wanted
}

/// The table grows from one bin while they call.
#[test]
fn clients_of_many_keys_do_not_meet(rt: HostRuntime) {
    let script = script_of_many_keys(&rt, rt.alloc());
    let wanted = printed_of_many_keys(&rt, rt.alloc());
    for salt in &[0, 1, u32::MAX] {
        let options = options(&rt, 4, 1, *salt);
        check_with(&rt, &options, script.as_bytes(), 0, &wanted);
    }
}

/// What a script with one client prints does not change with the size of the table or the salt.
#[test]
fn one_client_prints_the_same_under_any_salt(rt: HostRuntime) {
    let script =
        b"client\nput q 1\nput a 2\nput Aa 3\nput zzzzzz 4\nput BB 5\nremove a\nmerge q 9 max\nquery\ncount\nreduce sum 1\nlist 1\n";
    let wanted =
        "client 0\nnone\nnone\nnone\nnone\nnone\nsome 2\nsome 9\n4\n21\nAa 3\nBB 5\nq 9\nzzzzzz 4\n";
    for capacity in &[1, 2, 16, 4096] {
        for salt in &[0, 1, 2112, u32::MAX] {
            let options = options(&rt, 4, *capacity, *salt);
            check_with(&rt, &options, script, 0, wanted);
        }
    }
}

/// Counts each client's calls, and those that came in another place than their number says.
#[derive(Drop)]
struct Counting {
    calls: [AtomicU64; 2],
    misplaced: AtomicU64,
}

impl Gate for Counting {
    fn leaf(&self, _worker: usize, _lo: usize, _hi: usize) {}
}

impl ClientGate for Counting {
    fn call(&self, client: usize, ordinal: u64) {
        let place = match self.calls.get(client) {
            Some(calls) => calls.fetch_add(1, SeqCst),
            None => u64::MAX,
        };
        if place != ordinal {
            self.misplaced.fetch_add(1, SeqCst);
        }
    }
}

/// Client 0 makes two calls, and client 1 three.
#[test]
fn the_gate_sees_each_client_s_calls_in_order(rt: HostRuntime) {
    let script = b"client\nput a 1\nget a\nclient\nget b\nremove b\nget b\nquery\n";
    let gate = Counting {
        calls: [AtomicU64::new(0), AtomicU64::new(0)],
        misplaced: AtomicU64::new(0),
    };
    let (status, text) = told_under(&rt, script, &options(&rt, 4, 16, 0), &gate);
    drop(text);
    let calls = [gate.calls[0].load(SeqCst), gate.calls[1].load(SeqCst)];
    let misplaced = gate.misplaced.load(SeqCst);
    assert!(rt;
        status == 0 && misplaced == 0 && calls == [2, 3],
        "{calls:?}"
    );
}

/// Lets client 0's first call wait until client 1 is about to make its own, and that one until
/// client 0 is about to make its third; each for so many turns at most.
#[derive(Drop)]
struct Meeting {
    first_come: AtomicU64,
    last_come: AtomicU64,
    missed: AtomicU64,
}

const MOST_TURNS: u64 = 10_000_000;

impl Meeting {
    fn wait_for(&self, come: &AtomicU64) {
        for _ in 0..MOST_TURNS {
            if come.load(SeqCst) == 1 {
                return;
            }
            thread::yield_now();
        }
        self.missed.store(1, SeqCst);
    }
}

impl Gate for Meeting {
    fn leaf(&self, _worker: usize, _lo: usize, _hi: usize) {}
}

impl ClientGate for Meeting {
    fn call(&self, client: usize, ordinal: u64) {
        match (client, ordinal) {
            (0, 0) => self.wait_for(&self.first_come),
            (0, 2) => self.last_come.store(1, SeqCst),
            (1, 0) => {
                self.first_come.store(1, SeqCst);
                self.wait_for(&self.last_come);
            }
            _ => {}
        }
    }
}

/// Clients that play one after the other miss each other here. Where the gate came after its call,
/// client 1 would find nothing: its call would be made before client 0's first comes back.
#[test]
fn clients_call_at_the_same_time_each_after_its_gate(rt: HostRuntime) {
    let script = b"client\nget b\nput a 1\nget b\nclient\nget a\nquery\ncount\n";
    let gate = Meeting {
        first_come: AtomicU64::new(0),
        last_come: AtomicU64::new(0),
        missed: AtomicU64::new(0),
    };
    let (status, text) = told_under(&rt, script, &options(&rt, 4, 16, 0), &gate);
    let is_same = text.as_slice()
        == b"client 0\nnone\nnone\nnone\nclient 1\nsome 1\n1\n".as_slice();
    let missed = gate.missed.load(SeqCst);
    assert!(rt; status == 0 && missed == 0 && is_same, "{text:?}");
}
