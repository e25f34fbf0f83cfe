//! Bulk operations on a live map: how many microseconds the best of some runs of each takes, with so
//! many workers, while nobody else calls the map or while two clients write.
use crate::random::drawn_at;
use crate::settings::BulkSettings;
use anyhow::Result;
use facingberyl::bulk::{Action, Plan, Probe, Sum};
use facingberyl::live::{live_for_each, live_reduce, live_search};
use facingberyl::{Add, Client, Fault, Loan, SharedMap, Work};
use std::alloc::{AllocError, Global};
use std::sync::Wait;
use std::thread::Threads;
use std::time::{Clock, Instant};

type Numbers = SharedMap<u64, u64, Add, Global>;

/// Finds a value above its number.
#[derive(Drop)]
struct Above(u64);

impl Probe<u64, u64> for Above {
    ghost use Rattle.std.specs.Prelude.{Some, None, nat_lt, if◌then◌else◌, true};

    type U = u64;

    ghost probed = { λ p _ v. if nat_lt p.0 v then Some v else None };

    ghost never_refuses = { true };

    fn probe(&self, _key: &u64, value: &u64) -> Result<Option<u64>, AllocError> {
        if *value > self.0 {
            return Ok(Some(*value));
        }
        Ok(None)
    }
}

/// Does nothing with an entry.
#[derive(Drop)]
struct Nothing;

impl Action<u64, u64> for Nothing {
    type R = ();

    ghost acted = { λ _ _ _. tt };

    fn act(&self, _key: &u64, _value: &u64) -> Result<(), AllocError> {
        Ok(())
    }
}

/// The key that is in the map for as long as others are to write. It is drawn in place 0, which no
/// other key is.
const WRITING: u64 = 0;

/// Puts the keys of a thousand places from the first on and removes them, one after the other, again
/// and again until the key `WRITING` is out of the map.
#[derive(Clone, Copy)]
struct Write {
    first: u64,
}

impl Work<u64, u64, Add, Global> for Write {
    type Out = Result<(), Fault>;

    fn work<L: Loan, R: Wait>(
        &self,
        rt: &R,
        client: &mut Client<'_, L, u64, u64, Add, Global>,
    ) -> Result<(), Fault> {
        let writing = WRITING;
        for round in 0..u64::MAX {
            let key = drawn_at(self.first.wrapping_add(round % 1_000));
            client.put(rt, key, 0)?;
            client.remove(rt, &key)?;
            if round % 64 == 63 && !client.contains_key(rt, &writing)? {
                break;
            }
        }
        Ok(())
    }
}

/// The microseconds of a reduction, of a search that finds nothing, of one that finds something at
/// once, and of an action with each entry.
type Times = [u128; 4];

/// The best of so many runs.
fn measure<R: Threads + Wait + Clock + Sync>(
    rt: &R,
    map: &Numbers,
    settings: &BulkSettings,
) -> Result<Times> {
    let plan = Plan::new(0, usize::from(settings.workers));
    let mut best = [u128::MAX; 4];
    for _run in 0..settings.runs {
        let start = Instant::now(rt)?;
        let _sum = live_reduce(rt, map, &plan, &Sum)?;
        best[0] = best[0].min(start.elapsed(rt)?.as_micros());
        let start = Instant::now(rt)?;
        let _none = live_search(rt, map, &plan, &Above(u64::MAX))?;
        best[1] = best[1].min(start.elapsed(rt)?.as_micros());
        let start = Instant::now(rt)?;
        let _found = live_search(rt, map, &plan, &Above(0))?;
        best[2] = best[2].min(start.elapsed(rt)?.as_micros());
        let start = Instant::now(rt)?;
        let _list = live_for_each(rt, map, &plan, &Nothing)?;
        best[3] = best[3].min(start.elapsed(rt)?.as_micros());
    }
    Ok(best)
}

/// The same while two clients write, at keys of other places.
fn measure_written<R: Threads + Wait + Clock + Sync + Copy + Send + 'static>(
    rt: &R,
    map: &Numbers,
    settings: &BulkSettings,
) -> Result<Times> {
    let writing = WRITING;
    let mut own = map.client()?;
    own.put(rt, writing, 0)?;
    let first = u64::from(settings.entries) + 1;
    let one = map.client()?.start(rt, Write { first })?;
    let first = first + 1_000;
    let other = map.client()?.start(rt, Write { first })?;
    let best = measure(rt, map, settings);
    own.remove(rt, &writing)?;
    drop(one.join(rt));
    drop(other.join(rt));
    best
}

/// A map with the keys of the places from 1 on, whose values are the places.
fn filled<R: Wait>(rt: &R, alloc: Global, settings: &BulkSettings) -> Result<Numbers> {
    let map: Numbers = SharedMap::new(alloc, usize::from(settings.capacity))?;
    let mut client = map.client()?;
    for place in 1..=u64::from(settings.entries) {
        client.put(rt, drawn_at(place), place)?;
    }
    drop(client);
    Ok(map)
}

/// Prints the sum of the values, the one that is found above all others, and how many actions were
/// done.
fn print_results<R: Threads + Wait + Print + Sync>(
    rt: &R,
    map: &Numbers,
    settings: &BulkSettings,
) -> Result<()> {
    let last = u64::from(settings.entries);
    let before = last.saturating_sub(1);
    let workers = usize::from(settings.workers);
    let plan = Plan::new(0, workers);
    let sum = live_reduce(rt, map, &plan, &Sum)?.unwrap_or(0);
    let found = live_search(rt, map, &plan, &Above(before))?.unwrap_or(0);
    let done = live_for_each(rt, map, &plan, &Nothing)?.len();
    println!(rt;
        "the sum of 1 to {last} is {sum}, {found} is above {before}, {done} actions were done"
    )?;
    Ok(())
}

/// Runs bulk operations, and prints the times of the best runs, or what they return where none is
/// timed.
pub(crate) fn run<R: Threads + Wait + Clock + Print + Sync + Copy + Send + 'static>(
    rt: &R,
    alloc: Global,
    settings: &BulkSettings,
) -> Result<()> {
    let map = filled(rt, alloc, settings)?;
    if settings.runs == 0 {
        return print_results(rt, &map, settings);
    }
    let [reduce, none, found, each] = if settings.is_written {
        measure_written(rt, &map, settings)?
    } else {
        measure(rt, &map, settings)?
    };
    println!(rt; "reduce {reduce} none {none} found {found} for_each {each}")?;
    Ok(())
}
