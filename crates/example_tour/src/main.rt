//! `example_tour` runs nine short programs over the library, one after the other: counts that clients
//! share, a cache that they share, an index of words, a key of its own, a rate limiter, one client that
//! tells another, a reducer of its own, a call that is refused memory, and a bounded cache of sessions.
#![tactic(auto)]

mod cache;
mod counter;
mod index;
mod key;
mod limiter;
mod moment;
mod reducer;
mod refused;
mod sessions;

use anyhow::Result;

fn main(rt: HostRuntime) -> Result<()> {
    println!(rt; "counter")?;
    counter::run(&rt, rt.alloc())?;
    println!(rt; "cache")?;
    cache::run(&rt, rt.alloc())?;
    println!(rt; "index")?;
    index::run(&rt, rt.alloc())?;
    println!(rt; "key")?;
    key::run(&rt, rt.alloc())?;
    println!(rt; "limiter")?;
    limiter::run(&rt, rt.alloc())?;
    println!(rt; "moment")?;
    moment::run(&rt, rt.alloc())?;
    println!(rt; "reducer")?;
    reducer::run(&rt, rt.alloc())?;
    println!(rt; "refused")?;
    refused::run(&rt, rt.alloc())?;
    println!(rt; "sessions")?;
    sessions::run(&rt, rt.alloc())
}
