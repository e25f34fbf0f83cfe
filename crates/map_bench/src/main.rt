//! `map_bench` measures the map: how many million calls a second some threads make of one map
//! together, and how long bulk operations on a live map take.
#![tactic(auto)]

ghost use Rattle.std.specs.Prelude.{◌≡◌, ◌*◌, ◌/◌, ◌<◌};

mod bulk;
mod choice;
mod command;
mod name;
mod random;
mod run;
mod settings;
mod walks;
mod work;

use anyhow::Result;
use clap::ArgMatches;
use clap::error::ErrorKind;
use command::command;
use run::measure;
use settings::{BulkSettings, Mode, SMALL, SMALL_BULK, Settings};
use std::alloc::{AllocError, Global};
use std::env;
use std::process::ExitCode;
use std::sync::Wait;
use std::thread::Threads;
use std::time::Clock;

/// So many calls in so many nanoseconds, as hundredths of a million a second.
fn hundredths(calls: u64, nanoseconds: u128) -> u128
    requires { 0 < nanoseconds }
    ensures { result ≡ calls * 100000 / nanoseconds }
{
    u128::from(calls) * 100_000 / nanoseconds
}

/// Makes the runs that need no words, and say nothing of time: of calls, and of bulk operations.
fn make_small_runs<R: Threads + Wait + Clock + Print + Sync + Copy + Send + 'static>(
    rt: &R,
    alloc: Global,
) -> Result<()> {
    let _measured = measure(rt, alloc, &SMALL)?;
    println!(rt;
        "facingberyl {} {}: {} calls",
        SMALL.mode.name(),
        SMALL.threads,
        SMALL.all_calls()
    )?;
    bulk::run(rt, alloc, &SMALL_BULK)
}

/// Makes a run, and says how fast it was, or how many milliseconds its longest call took.
fn make_run<R: Threads + Wait + Clock + Print + Sync>(
    rt: &R,
    alloc: Global,
    settings: &Settings,
) -> Result<()> {
    let measured = measure(rt, alloc, settings)?;
    let told = match settings.mode {
        Mode::Stall => u128::from(measured.longest) / 10_000,
        _ => hundredths(settings.all_calls(), measured.taken.as_nanos().max(1)),
    };
    println!(rt;
        "facingberyl {} {} {}.{:02}",
        settings.mode.name(),
        settings.threads,
        told / 100,
        told % 100
    )?;
    Ok(())
}

/// Makes the run that the words name: of bulk operations, or of calls.
fn make_named_run<R: Threads + Wait + Clock + Print + Sync + Copy + Send + 'static>(
    rt: &R,
    alloc: Global,
    matches: &ArgMatches,
) -> Result<()> {
    match matches.get_str("mode").unwrap_or("mix") {
        "bulk" => bulk::run(rt, alloc, &BulkSettings::matched(matches)),
        _ => make_run(rt, alloc, &Settings::matched(matches)),
    }
}

fn main(rt: HostRuntime) -> Result<ExitCode> {
    let words: Vec<String> = env::args(&rt)?.collect(rt.alloc())?;
    if words.len() < 2 {
        make_small_runs(&rt, rt.alloc())?;
        return Ok(ExitCode::SUCCESS);
    }
    let mut line: Vec<&str> = Vec::with_capacity(rt.alloc(), words.len())?;
    for word in &words {
        line.push(word.as_str())?;
    }
    match command(rt.alloc())?.try_get_matches_from(&line) {
        Ok(matches) => {
            make_named_run(&rt, rt.alloc(), &matches)?;
            Ok(ExitCode::SUCCESS)
        }
        Err(error) => {
            if matches!(error.kind(), ErrorKind::OutOfMemory) {
                return Err(AllocError.into());
            }
            eprint!(rt; "{error}")?;
            Ok(ExitCode::from(2))
        }
    }
}
