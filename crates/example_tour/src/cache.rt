//! A cache of squares that four clients share, who look numbers up, work out what is missing and
//! answer how often each was the case. The cache is then closed, read, opened again for one client,
//! and emptied.
use anyhow::Result;
use facingberyl::bulk::{Plan, Sum, reduce};
use facingberyl::{Client, Exact, Fault, Loan, Quiet, Remap, Team, Work};
use std::alloc::{AllocError, Global};
use std::sync::Wait;
use std::thread::Threads;

/// The square of a key, modulo 2^64, where it has no value. A value is left as it is, and a merge
/// gives the one given.
#[derive(Clone, Copy)]
struct Square;

impl Exact for Square {
    ghost use Rattle.std.proofs.Common.{rules};

    ghost copies_exactly = { Prim.search rules };
}

impl Remap<u64, u64> for Square {
    ghost use Rattle.std.specs.Prelude.{◌*◌, ◌%◌, ◌^◌, Some, unwrap_or};

    ghost remapped = { λ _ key value. Some (unwrap_or value (key * key % 2 ^ 64)) };

    ghost merged = { λ _ _ given. Some given };

    fn remap(&self, key: &u64, value: Option<&u64>) -> Result<Option<u64>, AllocError> {
        match value {
            Some(value) => Ok(Some(*value)),
            None => Ok(Some(key.wrapping_mul(*key))),
        }
    }

    fn merge(&self, _old: &u64, given: &u64) -> Result<Option<u64>, AllocError> {
        Ok(Some(*given))
    }
}

/// How many numbers were in the cache, and how many were not.
#[derive(Clone, Copy)]
struct Looks {
    hits: u64,
    misses: u64,
}

/// Looks up the numbers below 100: all of them, or else those that are the client's number modulo
/// 4.
#[derive(Clone, Copy)]
struct LookUp {
    all: bool,
}

impl Work<u64, u64, Square, Global> for LookUp {
    type Out = Result<Looks, Fault>;

    fn work<L: Loan, R: Wait>(
        &self,
        rt: &R,
        client: &mut Client<'_, L, u64, u64, Square, Global>,
    ) -> Result<Looks, Fault> {
        let own = client.number();
        let mut looks = Looks { hits: 0, misses: 0 };
        for number in 0..100u64 {
            if self.all || number as usize % 4 == own {
                if client.compute_if_absent(rt, number, Square)?.used {
                    looks.misses = looks.misses.saturating_add(1);
                } else {
                    looks.hits = looks.hits.saturating_add(1);
                }
            }
        }
        Ok(looks)
    }
}

/// Counts the entries that a walk shows, and takes them away.
#[derive(Clone, Copy)]
struct Empty;

impl Work<u64, u64, Square, Global> for Empty {
    type Out = Result<usize, Fault>;

    fn work<L: Loan, R: Wait>(
        &self,
        rt: &R,
        client: &mut Client<'_, L, u64, u64, Square, Global>,
    ) -> Result<usize, Fault> {
        let mut seen = 0usize;
        for visit in &client.walk(rt)? {
            seen = seen.saturating_add(visit.entries.len());
        }
        client.clear(rt)?;
        Ok(seen)
    }
}

type Cache = Quiet<u64, u64, Square, Global>;

/// Shares the cache among four clients: each works its own numbers out, and then looks all of them
/// up.
fn share<R: Threads + Wait + Sync>(rt: &R, alloc: Global) -> Result<(Cache, Looks), Fault> {
    let mut team = Team::new(alloc, 16, 4)?;
    let mut sum = Looks { hits: 0, misses: 0 };
    for all in [false, true] {
        for looks in team.work(rt, &LookUp { all })? {
            let Looks { hits, misses } = looks?;
            sum.hits = sum.hits.saturating_add(hits);
            sum.misses = sum.misses.saturating_add(misses);
        }
    }
    Ok((team.close()?, sum))
}

/// Opens the cache again for one client, who empties it. It answers how many entries the client
/// saw, and how many keys are left.
fn reopen_alone<R: Threads + Wait + Sync>(rt: &R, cache: &Cache) -> Result<(usize, u64), Fault> {
    let mut alone = Team::reopen(cache, 1)?;
    let mut sum = 0usize;
    for seen in alone.work(rt, &Empty)? {
        sum = sum.saturating_add(seen?);
    }
    Ok((sum, alone.close()?.mapping_count()))
}

pub(crate) fn run<R: Threads + Wait + Print + Sync>(rt: &R, alloc: Global) -> Result<()> {
    let (cache, looks) = share(rt, alloc)?;
    let sum = reduce(rt, alloc, &cache, &Plan::new(0, 4), &Sum)?;
    let (seen, left) = reopen_alone(rt, &cache)?;
    let count = cache.mapping_count();
    drop(cache);
    println!(rt; "{} hits, {} misses", looks.hits, looks.misses)?;
    println!(rt; "{count} squares, {} in all", sum.unwrap_or(0))?;
    println!(rt; "{seen} seen, {left} left")?;
    Ok(())
}
