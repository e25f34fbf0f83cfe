//! What a refused call leaves: the allocator refuses one request, the put fails, nothing is changed,
//! and the put is made again.
use anyhow::Result;
use facingberyl::{Add, Client, Fault, Loan, Team, Work};
use std::alloc::Global;
use std::sync::Wait;
use std::thread::Threads;
use test_support::Refusing;

/// An allocator that refuses where it is told to.
type Alloc<'a> = &'a Refusing<Global>;

/// A key that shares its bucket with 1 in a table of at most 1,024 buckets. The first key of a bucket
/// takes no memory, the second does.
const SECOND: u64 = 887;

/// Puts 4 at 1. Then puts 5 at the second key of the bucket, after no more requests are granted, and
/// again where that was refused. It answers what the first try answered, and the value at that key
/// after both.
#[derive(Clone, Copy)]
struct PutTwice<'a> {
    alloc: Alloc<'a>,
}

/// What the first try answered, the value after it, and the value after the second.
#[derive(Clone, Copy)]
struct Tried {
    first: Result<Option<u64>, Fault>,
    between: Option<u64>,
    value: Option<u64>,
}

impl<'a> Work<u64, u64, Add, Alloc<'a>> for PutTwice<'a> {
    type Out = Result<Tried, Fault>;

    fn work<L: Loan, R: Wait>(
        &self,
        rt: &R,
        client: &mut Client<'_, L, u64, u64, Add, Alloc<'a>>,
    ) -> Result<Tried, Fault> {
        client.put(rt, 1, 4)?;
        self.alloc.refuse_after(0);
        let first = client.put(rt, SECOND, 5);
        let between = client.get(rt, &SECOND)?;
        if first.is_err() {
            client.put(rt, SECOND, 5)?;
        }
        let value = client.get(rt, &SECOND)?;
        Ok(Tried {
            first,
            between,
            value,
        })
    }
}

pub(crate) fn run<R: Threads + Wait + Print + Sync>(rt: &R, alloc: Global) -> Result<()> {
    let refusing = Refusing::new(alloc);
    let mut team = Team::new(&refusing, 16, 1)?;
    let mut answers = team.work(rt, &PutTwice { alloc: &refusing })?;
    let tried = answers.pop();
    drop(answers);
    drop(team);
    if let Some(tried) = tried {
        let Tried {
            first,
            between,
            value,
        } = tried?;
        match first {
            Ok(_) => println!(rt; "the first put was made")?,
            Err(fault) => println!(rt; "the first put was refused: {fault}")?,
        }
        println!(rt; "then there was a value: {}", between.is_some())?;
        println!(rt; "and after the second {}", value.unwrap_or(0))?;
    }
    Ok(())
}
