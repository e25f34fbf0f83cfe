//! Clients, each in a thread of its own, ask for users, of whose requests a thousand are let through.
use crate::Measured;
use crate::random::drawn_at;
use anyhow::Result;
use facingberyl::{Client, Exact, Fault, Loan, NoFunction, SharedMap, Work};
use std::alloc::Global;
use std::sync::Wait;
use std::thread::Threads;
use std::time::{Clock, Instant};

/// How many users there are.
const USERS: u64 = 1_000;

/// How many requests of a user are let through in a second.
const MOST: u64 = 1_000;

/// How many requests of a user were let through in a second.
#[derive(Clone, Copy, PartialEq, Eq)]
struct Used {
    second: u64,
    requests: u64,
}

impl Exact for Used {
    ghost use Rattle.std.proofs.Common.{rules};

    ghost copies_exactly = { Prim.search rules };
}

impl Used {
    /// Lets a request in this second through, or not.
    fn admit(&mut self, second: u64) -> bool {
        if self.second != second {
            *self = Used {
                second,
                requests: 0,
            };
        }
        let passes = self.requests < MOST;
        if passes {
            self.requests += 1;
        }
        passes
    }
}

/// Makes so many requests of users at random, all in one second. Returns how many were let through.
#[derive(Clone, Copy)]
struct Ask {
    requests: u64,
}

impl Work<u64, Used, NoFunction, Global> for Ask {
    type Out = Result<u64, Fault>;

    fn work<L: Loan, R: Wait>(
        &self,
        rt: &R,
        client: &mut Client<'_, L, u64, Used, NoFunction, Global>,
    ) -> Result<u64, Fault> {
        let first = (client.number() as u64).wrapping_mul(self.requests);
        let unused = Used {
            second: 1,
            requests: 0,
        };
        let mut passed = 0u64;
        for request in 0..self.requests {
            let user = drawn_at(first.wrapping_add(request)) % USERS;
            let passes = client.modify_or_insert(
                rt,
                &user,
                unused,
                |used: &mut Used| used.admit(1),
            )?;
            passed = passed.saturating_add(passes as u64);
        }
        Ok(passed)
    }
}

/// Measures so many clients, of which each makes so many requests. The result is how many were let
/// through.
pub(crate) fn measure<R: Threads + Wait + Clock + Copy + Send + 'static>(
    rt: &R,
    alloc: Global,
    clients: u64,
    requests: u64,
) -> Result<Measured> {
    let map: SharedMap<u64, Used, NoFunction, Global> = SharedMap::new(alloc, 16)?;
    let mut asking = Vec::new(alloc);
    let start = Instant::now(rt)?;
    for _ in 0..clients {
        asking.push(map.client()?.start(rt, Ask { requests })?)?;
    }
    let mut result = 0u64;
    for thread in asking {
        result = result.saturating_add(thread.join(rt).answer?);
    }
    let taken = start.elapsed(rt)?;
    Ok(Measured { taken, result })
}
