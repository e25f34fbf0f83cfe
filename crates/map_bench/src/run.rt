//! One run of the workload.
ghost use Rattle.std.specs.Prelude.{◌≡◌, ◌<◌, All, IfOk, length};

use crate::choice::{Choice, steps};
use crate::name::Name;
use crate::settings::Settings;
use crate::work::{BenchMap, BenchPass, Run, fill, names, work_together};
use anyhow::{Result, anyhow, bail};
use bin_history::Form;
use chm::{Map, Opened};
use functions::Add;
use hashkeys::Salt;
use std::alloc::Global;
use std::sync::Wait;
use std::sync::atomic::AtomicU64;
use std::sync::atomic::Ordering::SeqCst;
use std::thread::Threads;
use std::time::{Clock, Duration, Instant};

/// Fills the map with one pass, unless the calls are to fill it, and says how long the others took
/// for their calls.
fn time_calls<R: Threads + Wait + Clock + Sync>(
    rt: &R,
    map: &BenchMap,
    run: &Run<'_>,
    filler: &mut BenchPass,
    callers: &mut [BenchPass],
) -> Result<Duration>
    requires names { 0 < length run.now.names.now }
    requires filler { filler.old.ledger ≡ map.now.ledger.id }
    requires callers { All (λ p. p.ledger ≡ map.now.ledger.id) callers.old }
    ensures filler { filler.new.ledger ≡ map.now.ledger.id }
    ensures callers { All (λ p. p.ledger ≡ map.now.ledger.id) callers.new }
{
    if !run.settings.mode.begins_empty() {
        fill(rt, map, run.names, filler)?;
    }
    let start = Instant::now(rt)?;
    work_together(rt, map, run, callers);
    let taken = start.elapsed(rt)?;
    for (number, pass) in callers.iter().enumerate() {
        if pass.made() != run.settings.posts(number) {
            bail!("a call was refused");
        }
    }
    if run.settings.mode.walks() && run.shown.load(SeqCst) != run.settings.sum() {
        bail!("a walk did not show all entries");
    }
    Ok(taken)
}

/// How long all passes but the last take together; the last fills the map before.
fn time_passes<R: Threads + Wait + Clock + Sync>(
    rt: &R,
    map: &BenchMap,
    run: &Run<'_>,
    passes: &mut Vec<BenchPass>,
) -> Result<Duration>
    requires names { 0 < length run.now.names.now }
    requires passes { All (λ p. p.ledger ≡ map.now.ledger.id) passes.old.items }
    ensures { All (λ p. p.ledger ≡ map.now.ledger.id) passes.new.items }
{
    match passes.pop() {
        Some(mut filler) => {
            let taken = time_calls(rt, map, run, &mut filler, passes);
            passes.push_reserved(filler);
            taken
        }
        None => Err(anyhow!("no pass")),
    }
}

/// A map of the form that is measured, with a pass for each client.
fn open(alloc: Global, settings: &Settings, clients: u32) -> Result<Opened<Name, i64, Add, Global>>
    ensures { IfOk result (λ r. All (λ p. p.ledger ≡ r.0.ledger.id) r.1.items) }
{
    let capacity = usize::from(settings.capacity);
    match settings.form {
        Form::Recorded => Ok(Map::new(alloc, capacity, clients)?),
        Form::Lean => Ok(Map::lean(alloc, capacity, clients, Salt(0))?),
    }
}

/// What a run showed: how long the threads took for their calls, and the longest call in
/// nanoseconds, where calls are timed.
#[derive(Drop)]
pub(crate) struct Measured {
    pub(crate) taken: Duration,
    pub(crate) longest: u64,
}

/// Measures the calls that threads make of a new map, which is closed afterwards: so no call was
/// lost.
pub(crate) fn measure<R: Threads + Wait + Clock + Sync>(
    rt: &R,
    alloc: Global,
    settings: &Settings,
) -> Result<Measured> {
    let names = names(alloc, settings.keys)?;
    if names.is_empty() {
        bail!("no keys");
    }
    let starts = match settings.choice {
        Choice::Uniform => [].as_slice(),
        Choice::Zipf => steps(alloc, settings.keys)?,
    };
    let (map, mut passes) = open(alloc, settings, settings.clients())?;
    let longest = AtomicU64::new(0);
    let shown = AtomicU64::new(0);
    let run = Run {
        names,
        starts,
        settings,
        longest: &longest,
        shown: &shown,
    };
    let taken = time_passes(rt, &map, &run, &mut passes);
    match map.close(passes) {
        Ok(_) => Ok(Measured {
            taken: taken?,
            longest: longest.load(SeqCst),
        }),
        Err(not_closed) => {
            let fault = not_closed.give_up();
            bail!("the map was not closed: {fault}")
        }
    }
}
