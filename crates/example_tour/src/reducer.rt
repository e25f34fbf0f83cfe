//! The temperatures of stations, which four clients put into a map; closed, it is reduced to the
//! lowest and the highest by a reducer of its own.
use anyhow::Result;
use facingberyl::bulk::{Bulk, Plan, Reducer};
use facingberyl::{Client, Fault, Loan, NoFunction, Team, Work};
use std::alloc::{AllocError, Global};
use std::sync::Wait;
use std::thread::Threads;

/// From the lowest of the values to the highest.
#[derive(Clone, Copy)]
struct Range {
    low: u64,
    high: u64,
}

/// Reduces a map to the range of its values.
#[derive(Clone, Copy)]
struct RangeOf;

impl<K> Reducer<K, u64> for RangeOf {
    ghost use Rattle.std.specs.Prelude.{true, min, max};
    ghost use Rattle.std.proofs.Common.{arith, rules};
    ghost use Rattle.example_tour.specs.declared.reducer.Range.{Range};

    type A = Range;

    ghost lifted = { λ _ _ value. record { low = value; high = value } };

    ghost joined = { λ _ a b. record { low = min a.low b.low; high = max a.high b.high } };

    ghost within = { λ _ _ _. Unit {0} };

    ghost never_refuses = { true };

    fn lift(&self, _key: &K, value: &u64) -> Result<Range, AllocError> {
        Ok(Range {
            low: *value,
            high: *value,
        })
    }

    fn join(&self, left: Range, right: Range) -> Result<Range, AllocError> {
        Ok(Range {
            low: left.low.min(right.low),
            high: left.high.max(right.high),
        })
    }

    ghost associative = { λ _ a b c. Prim.search (arith, rules) };

    ghost commutative = { λ _ a b. Prim.search (arith, rules) };

    ghost joins = { λ _ _ _ _ _ _ _. tt };
}

/// Each client puts the temperature of 25 stations.
#[derive(Clone, Copy)]
struct Measuring;

impl Work<u64, u64, NoFunction, Global> for Measuring {
    type Out = Result<(), Fault>;

    fn work<L: Loan, R: Wait>(
        &self,
        rt: &R,
        client: &mut Client<'_, L, u64, u64, NoFunction, Global>,
    ) -> Result<(), Fault> {
        for station in 0..100u64 {
            if station as usize % 4 == client.number() {
                client.put(rt, station, 270 + station % 40)?;
            }
        }
        Ok(())
    }
}

pub(crate) fn run<R: Threads + Wait + Print + Sync>(rt: &R, alloc: Global) -> Result<()> {
    let mut team = Team::new(alloc, 16, 4)?;
    for done in team.work(rt, &Measuring)? {
        done?;
    }
    let stations = team.close()?;
    let plan = Plan::new(10, 4);
    let range = Bulk::new(rt, alloc, &stations, &plan).reduce(&RangeOf)?;
    drop(stations);
    match range {
        Some(Range { low, high }) => println!(rt; "from {low} to {high} kelvins")?,
        None => println!(rt; "no stations")?,
    }
    Ok(())
}
