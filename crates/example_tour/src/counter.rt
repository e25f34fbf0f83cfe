//! Four clients count the same ten keys at the same time.
use anyhow::Result;
use facingberyl::{Add, Client, Fault, Loan, Team, Work};
use std::alloc::Global;
use std::sync::Wait;
use std::thread::Threads;

/// Adds 1 to each of the keys 0 to 9, a hundred times.
#[derive(Clone, Copy)]
struct CountUp;

impl Work<u64, u64, Add, Global> for CountUp {
    type Out = Result<(), Fault>;

    fn work<L: Loan, R: Wait>(
        &self,
        rt: &R,
        client: &mut Client<'_, L, u64, u64, Add, Global>,
    ) -> Result<(), Fault> {
        for number in 0..1_000u64 {
            client.merge(rt, number % 10, 1, Add)?;
        }
        Ok(())
    }
}

pub(crate) fn run<R: Threads + Wait + Print + Sync>(rt: &R, alloc: Global) -> Result<()> {
    let mut team = Team::new(alloc, 16, 4)?;
    for answer in team.work(rt, &CountUp)? {
        answer?;
    }
    let counts = team.close()?;
    for key in 0..10u64 {
        let count = counts.get(&key).copied().unwrap_or(0);
        println!(rt; "{key}: {count}")?;
    }
    Ok(())
}
