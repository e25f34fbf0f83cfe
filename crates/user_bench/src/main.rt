//! `user_bench` measures three programs that users write: appends to a list at one key, a rate limiter
//! with a client for each connection, and an inverted index.
#![tactic(auto)]

mod appends;
mod index;
mod limiter;
mod random;

use anyhow::{Result, bail};
use std::alloc::Global;
use std::env;
use std::sync::Wait;
use std::thread::Threads;
use std::time::{Clock, Duration};

/// How long a run took, and what it came to.
#[derive(Clone, Copy, Drop)]
struct Measured {
    taken: Duration,
    result: u64,
}

/// Makes a run of what the word names, by so many clients and of this size: appends in place or
/// outside of the map, requests of each client, or places of the text.
fn run<R: Threads + Wait + Clock + Sync + Copy + Send + 'static>(
    rt: &R,
    alloc: Global,
    mode: &str,
    clients: u32,
    size: u32,
) -> Result<Measured> {
    match mode {
        "append" => appends::measure(rt, alloc, true, size.into()),
        "move" => appends::measure(rt, alloc, false, size.into()),
        "limit" => limiter::measure(rt, alloc, clients.into(), size.into()),
        "index" => index::measure(rt, alloc, clients, size),
        _ => bail!("usage: user_bench append|move|limit|index CLIENTS SIZE RUNS"),
    }
}

/// Prints what each program comes to, without times.
fn make_small_runs<R: Threads + Wait + Clock + Print + Sync + Copy + Send + 'static>(
    rt: &R,
    alloc: Global,
) -> Result<()> {
    let appended = run(rt, alloc, "append", 1, 100)?.result;
    let moved = run(rt, alloc, "move", 1, 100)?.result;
    println!(rt; "{appended} and {moved} appended")?;
    let passed = run(rt, alloc, "limit", 4, 100)?.result;
    println!(rt; "{passed} let through")?;
    let words = run(rt, alloc, "index", 4, 4)?.result;
    println!(rt; "{words} words")?;
    Ok(())
}

/// The number that a word is.
fn number(words: &[String], place: usize) -> Result<u32> {
    match words.get(place) {
        Some(word) => Ok(word.parse::<u32>()?),
        None => bail!("usage: user_bench append|move|limit|index CLIENTS SIZE RUNS"),
    }
}

fn main(rt: HostRuntime) -> Result<()> {
    let words: Vec<String> = env::args(&rt)?.collect(rt.alloc())?;
    let Some(mode) = words.get(1) else {
        return make_small_runs(&rt, rt.alloc());
    };
    let clients = number(&words, 2)?;
    let size = number(&words, 3)?;
    let mut best = u128::MAX;
    let mut result = 0u64;
    for _ in 0..number(&words, 4)? {
        let measured = run(&rt, rt.alloc(), mode.as_str(), clients, size)?;
        best = best.min(measured.taken.as_micros());
        result = measured.result;
    }
    println!(rt; "facingberyl {mode} {clients} {best} {result}")?;
    Ok(())
}
