//! `histories` makes histories of calls that threads make of one map at the same time, with the
//! times at which each call began and ended, and writes them for a checker.
#![tactic(auto)]

mod calls;
mod event;
mod pause;
mod plan;
mod random;
mod record;
mod settings;
mod soak;
mod step;

use anyhow::Result;
use event::write_event;
use plan::Plan;
use record::{History, make_history};
use settings::{Settings, command};
use soak::soak;
use std::alloc::Global;
use std::env;
use std::process::ExitCode;
use std::sync::Wait;
use std::thread::Threads;
use std::time::Clock;

/// How many histories are made without words.
const FEW: u64 = 8;

/// Makes a few histories, and says how many calls they are of, which no schedule changes.
fn make_few<R: Threads + Wait + Print + Sync>(rt: &R, alloc: Global) -> Result<()> {
    let mut calls = 0usize;
    for seed in 0..FEW {
        let history = make_history(rt, alloc, &Plan::new(seed))?;
        for made in &history.calls {
            calls = calls.saturating_add(made.len());
        }
    }
    println!(rt; "{FEW} histories of {calls} calls")?;
    Ok(())
}

/// Writes the history of a seed: a line for the plan, one for each call, and an empty one.
fn write_history<R: Print>(rt: &R, plan: &Plan, history: &History) -> Result<()> {
    println!(rt; "history {}", plan.seed)?;
    for (client, made) in history.calls.iter().enumerate() {
        for event in made {
            write_event(rt, client, event)?;
        }
    }
    write_event(rt, history.calls.len(), &history.last)?;
    println!(rt;)?;
    Ok(())
}

/// Makes and writes the histories of so many seeds.
fn write_all<R: Threads + Wait + Print + Sync>(
    rt: &R,
    alloc: Global,
    first: u64,
    count: u64,
) -> Result<()> {
    for number in 0..count {
        let plan = Plan::new(first.wrapping_add(number));
        let history = make_history(rt, alloc, &plan)?;
        write_history(rt, &plan, &history)?;
    }
    Ok(())
}

/// Does what the program is told.
fn run<R: Threads + Wait + Clock + Print + Sync>(
    rt: &R,
    alloc: Global,
    settings: Settings,
) -> Result<()> {
    match settings {
        Settings::Write { first, count } => write_all(rt, alloc, first, count),
        Settings::Soak { seconds } => soak(rt, alloc, seconds),
    }
}

fn main(rt: HostRuntime) -> Result<ExitCode> {
    let words: Vec<String> = env::args(&rt)?.collect(rt.alloc())?;
    if words.len() < 2 {
        make_few(&rt, rt.alloc())?;
        return Ok(ExitCode::SUCCESS);
    }
    let mut line: Vec<&str> = Vec::with_capacity(rt.alloc(), words.len())?;
    for word in &words {
        line.push(word.as_str())?;
    }
    match command(rt.alloc())?.try_get_matches_from(&line) {
        Ok(matches) => {
            run(&rt, rt.alloc(), Settings::matched(&matches))?;
            Ok(ExitCode::SUCCESS)
        }
        Err(error) => {
            eprint!(rt; "{error}")?;
            Ok(ExitCode::from(2))
        }
    }
}
