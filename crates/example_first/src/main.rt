//! `example_first` counts visits by two clients of one map.
#![tactic(auto)]

use anyhow::Result;
use facingberyl::{Change, NoFunction, SharedMap};
use std::alloc::Global;

type Visits = SharedMap<u64, u64, NoFunction, Global>;

fn main(rt: HostRuntime) -> Result<()> {
    let visits: Visits = SharedMap::new(rt.alloc(), 16)?;
    let mut first = visits.client()?;
    let mut second = visits.client()?;
    first.put(&rt, 7, 1)?;
    let before = second.update(&rt, 7, |seen| match seen {
        Some(count) => (Change::Set(count.saturating_add(1)), *count),
        None => (Change::Set(1), 0),
    })?;
    let now = first.get(&rt, &7)?.unwrap_or(0);
    let is_even = second.view(&rt, &7, |count| count.is_some_and(|count| count % 2 == 0));
    println!(rt; "{before} before, {now} now, even: {is_even}")?;
    Ok(())
}
