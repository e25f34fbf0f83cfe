//! A rate limiter: sixty-four clients, each in a thread of its own, ask for eight users, each of whom
//! may make fifty requests a second.
ghost use Rattle.std.specs.Prelude.{◌≡◌, nat_lt};
ghost use Rattle.example_tour.specs.Requests.{asked, requests_in};

use anyhow::Result;
use facingberyl::{Client, Exact, Fault, Loan, NoFunction, SharedMap, Work};
use std::alloc::Global;
use std::sync::Wait;
use std::thread::Threads;

/// How many requests of a user are let through in a second.
const MOST: u64 = 50;

/// How many requests of a user were let through in a second.
#[derive(Clone, Copy, PartialEq, Eq)]
struct Used {
    second: u64,
    requests: u64,
}

impl Exact for Used {
    ghost use Rattle.std.proofs.Common.{rules};

    ghost copies_exactly = { Prim.search rules };
}

impl Used {
    /// Lets a request in this second through, or not.
    fn admit(&mut self, second: u64) -> bool
        ensures passes { result ≡ nat_lt (requests_in second self.old) 50 }
        ensures counted { self.new ≡ asked second self.old }
    {
        if self.second != second {
            *self = Used {
                second,
                requests: 0,
            };
        }
        let passes = self.requests < MOST;
        if passes {
            self.requests += 1;
        }
        passes
    }
}

/// Makes ten requests of one user in this second. Returns how many were let through.
#[derive(Clone, Copy)]
struct Ask {
    second: u64,
}

impl Work<u64, Used, NoFunction, Global> for Ask {
    type Out = Result<u64, Fault>;

    fn work<L: Loan, R: Wait>(
        &self,
        rt: &R,
        client: &mut Client<'_, L, u64, Used, NoFunction, Global>,
    ) -> Result<u64, Fault> {
        let second = self.second;
        let user = client.number() as u64 % 8;
        let mut passed = 0u64;
        for _ in 0..10u64 {
            let unused = Used {
                second,
                requests: 0,
            };
            let passes = client.modify_or_insert(
                rt,
                &user,
                unused,
                |used: &mut Used| used.admit(second),
            )?;
            passed = passed.saturating_add(passes as u64);
        }
        Ok(passed)
    }
}

/// Starts all clients in this second. Returns how many of their requests were let through.
fn ask_all<R: Threads + Wait + Copy + Send + 'static>(
    rt: &R,
    alloc: Global,
    map: &SharedMap<u64, Used, NoFunction, Global>,
    second: u64,
) -> Result<u64> {
    let mut asking = Vec::with_capacity(alloc, 64)?;
    for _ in 0..64u64 {
        asking.push(map.client()?.start(rt, Ask { second })?)?;
    }
    let mut passed = 0u64;
    for thread in asking {
        passed = passed.saturating_add(thread.join(rt).answer?);
    }
    Ok(passed)
}

pub(crate) fn run<R: Threads + Wait + Print + Copy + Send + 'static>(
    rt: &R,
    alloc: Global,
) -> Result<()> {
    let map = SharedMap::new(alloc, 16)?;
    for second in 0..3u64 {
        let passed = ask_all(rt, alloc, &map, second)?;
        println!(rt; "second {second}: {passed} of 640")?;
    }
    Ok(())
}
