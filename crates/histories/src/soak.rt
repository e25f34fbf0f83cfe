//! A soak: threads make calls of maps that grow and shrink, are closed, and opened again.
use crate::calls::Caller;
use crate::random::Random;
use crate::record::{Closed, open};
use crate::step::Step;
use anyhow::{Result, bail};
use clients::{Fault, Form, Loan, Team, Work};
use std::alloc::Global;
use std::sync::Wait;
use std::thread::Threads;
use std::time::{Clock, Instant};

/// How many clients call.
const CLIENTS: u32 = 4;

/// How many calls each makes in a round.
const CALLS: u32 = 40_000;

/// On how many keys.
const KEYS: u64 = 20_000;

/// After how many rounds a map begins again with one bin.
const ROUNDS: u64 = 8;

/// A round of calls: mostly puts, or mostly removes.
#[derive(Clone, Copy)]
struct Round {
    number: u64,
    grows: bool,
}

impl Round {
    /// Makes a call. It returns by how many keys the map has changed, as the reply tells, as a
    /// 64-bit two's complement number.
    fn call<L: Loan, R: Wait>(
        &self,
        rt: &R,
        client: &mut Caller<'_, L>,
        drawn: u64,
    ) -> Result<u64, Fault> {
        let key = (drawn >> 8) % KEYS;
        match (self.grows, drawn % 16) {
            (_, 0) => drop(client.get(rt, &key)?),
            (_, 1) => drop(client.look_up(rt, &key)?),
            (true, 2..14) | (false, 14..) => {
                let old = client.put(rt, key, drawn)?;
                return Ok(u64::from(old.is_none()));
            }
            _ => {
                let old = client.remove(rt, &key)?;
                return Ok(0u64.wrapping_sub(u64::from(old.is_some())));
            }
        }
        Ok(0)
    }
}

/// Drops the entries of every fourth key, and returns by how many keys the map has changed.
fn drop_some<L: Loan, R: Wait>(rt: &R, client: &mut Caller<'_, L>) -> Result<u64, Fault> {
    let before = client.balance();
    client.retain(rt, |key: &u64, _value: &u64| *key % 4 != 0)?;
    Ok(client.balance().wrapping_sub(before))
}

impl Work<u64, u64, Step, Global> for Round {
    type Out = Result<u64, Fault>;

    fn work<L: Loan, R: Wait>(&self, rt: &R, client: &mut Caller<'_, L>) -> Result<u64, Fault> {
        let number = client.number() as u64;
        let mut random = Random::new(self.number.wrapping_mul(64).wrapping_add(number));
        let mut more = 0u64;
        for _ in 0..CALLS {
            more = more.wrapping_add(self.call(rt, client, random.draw())?);
        }
        if !self.grows && number == 0 {
            more = more.wrapping_add(drop_some(rt, client)?);
        }
        Ok(more)
    }
}

/// How many entries the closed map has, counted one by one.
fn count(closed: &Closed) -> u64 {
    let mut counted = 0u64;
    for _entry in closed.entries() {
        counted = counted.wrapping_add(1);
    }
    counted
}

/// Opens the map again, or a new one where there is none, makes the round's calls and closes it.
fn play<R: Threads + Wait + Sync>(
    rt: &R,
    alloc: Global,
    form: Form,
    before: Option<Closed>,
    round: &Round,
) -> Result<Closed> {
    let (mut team, mut wanted) = match before {
        Some(closed) => (Team::reopen(&closed, CLIENTS)?, closed.mapping_count()),
        None => (open(alloc, form, CLIENTS)?, 0),
    };
    for more in team.work(rt, round)? {
        wanted = wanted.wrapping_add(more?);
    }
    let closed = team.close()?;
    let (told, counted) = (closed.mapping_count(), count(&closed));
    if told != wanted || counted != wanted {
        bail!(
            "round {}: {counted} entries, told {told}, wanted {wanted}",
            round.number
        );
    }
    Ok(closed)
}

/// Makes a few rounds on maps of one form, and returns how many entries were closed with in all.
fn play_all<R: Threads + Wait + Sync>(
    rt: &R,
    alloc: Global,
    form: Form,
    first: u64,
) -> Result<u64> {
    let mut map = None;
    let mut entries = 0u64;
    for number in 0..ROUNDS {
        let round = Round {
            number: first.wrapping_add(number),
            grows: number % 2 == 0,
        };
        let closed = play(rt, alloc, form, map.take(), &round)?;
        entries = entries.wrapping_add(closed.mapping_count());
        map = Some(closed);
    }
    Ok(entries)
}

/// Makes rounds for so many seconds, on lean and on recorded maps, and says how many were closed.
pub(crate) fn soak<R: Threads + Wait + Clock + Print + Sync>(
    rt: &R,
    alloc: Global,
    seconds: u64,
) -> Result<()> {
    let start = Instant::now(rt)?;
    let (mut closed, mut entries) = (0u64, 0u64);
    for _ in 0..u64::MAX {
        if start.elapsed(rt)?.as_secs() >= seconds {
            break;
        }
        for form in [Form::Lean, Form::Recorded] {
            entries = entries.wrapping_add(play_all(rt, alloc, form, closed)?);
            closed = closed.wrapping_add(ROUNDS);
        }
        println!(rt; "{closed} closed with {entries} entries")?;
    }
    Ok(())
}
