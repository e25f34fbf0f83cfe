//! `example_sessions` keeps sessions in a map. Three servers, each in a thread of its own, open,
//! touch and close 200,000 sessions by requests that come through a channel. A sweeper drops the
//! sessions whose deadline has come, a bucket at a time, as its clock tells it. When no request is
//! left all are stopped, the map is closed, and statistics are reduced from it.
#![tactic(auto)]

ghost use Rattle.std.specs.Prelude.{◌≡◌, IfOk};

mod serving;
mod session;
mod statistics;
mod sweeping;
mod watch;

use crate::serving::{Batch, Serve, Served};
use crate::session::{Owned, Session, Sessions, Step};
use crate::statistics::{Statistics, StatisticsOf};
use crate::sweeping::Sweep;
use crate::watch::{Trouble, Watch};
use anyhow::Result;
use crossbeam_channel::{Receiver, Sender, bounded};
use facingberyl::bulk::{Plan, reduce};
use facingberyl::{SharedMap, Worked, Working};
use std::alloc::Global;
use std::sync::atomic::AtomicU64;
use std::sync::atomic::Ordering::SeqCst;
use std::sync::{Arc, Wait};
use std::thread::{PromisedHandle, Threads};
use std::time::Clock;

/// How many batches of a hundred sessions are asked for.
const BATCHES: u64 = 2_000;

/// The last session's number.
const LAST: u64 = BATCHES * 100 - 1;

/// Asks for all batches, or for fewer where no server is left.
fn ask<R: Wait>(rt: &R, requests: &Sender<Batch, Global>) {
    for number in 0..BATCHES {
        if requests.send(rt, Batch { number }).is_err() {
            return;
        }
    }
}

/// A server at work.
type Server<C> = PromisedHandle<
    Worked<u64, Session, Step, Global, Result<Served, Trouble>>,
    Working<u64, Session, Step, Global, Serve<C>>,
>;

/// Starts a server, which waits for batches.
fn start<R: Threads + Wait + Clock + Copy + Send + Sync + 'static>(
    rt: &R,
    map: &Sessions,
    watch: Watch<R>,
    batches: &Receiver<Batch, Global>,
) -> Result<Server<R>>
    ensures { IfOk result (λ server. server.promise.client.value.map ≡ map.now) }
{
    let serve = Serve {
        watch,
        batches: batches.clone()?,
    };
    Ok(map.client()?.start(rt, serve)?)
}

/// What a server did, once it is done. The reader learns of it.
fn join<R: Threads + Wait, C: Clock + Drop>(
    rt: &R,
    server: Server<C>,
    reader: &mut Owned,
) -> Result<Served, Trouble>
    requires { server.promise.client.value.map ≡ reader.old.map }
    ensures { reader.new.map ≡ reader.old.map }
{
    let Worked { mut client, answer } = server.join(rt);
    reader.learn(&mut client.moment());
    answer
}

/// What the servers did all together, how often the last session was touched, as a reader saw who
/// had learned what the servers did, and how many sessions the sweeper dropped.
#[derive(Clone, Copy)]
struct Report {
    served: Served,
    last: u64,
    swept: u64,
}

/// Serves all requests, and stops: the servers where no request is left, and the sweeper when the
/// deadlines of all guests have come.
fn serve<R: Threads + Wait + Clock + Copy + Send + Sync + 'static>(
    rt: &R,
    alloc: Global,
    map: &Sessions,
) -> Result<Report> {
    let watch = Watch::new(*rt)?;
    let end = Arc::new(alloc, AtomicU64::new(u64::MAX))?;
    let sweep = Sweep {
        watch,
        end: Arc::try_clone(&end)?,
    };
    let mut reader = map.client()?;
    let (requests, batches) = bounded(alloc, 64)?;
    let first = start(rt, map, watch, &batches)?;
    let second = start(rt, map, watch, &batches)?;
    let third = start(rt, map, watch, &batches)?;
    let sweeper = map.client()?.start(rt, sweep)?;
    drop(batches);
    ask(rt, &requests);
    drop(requests);
    let first = join(rt, first, &mut reader);
    let second = join(rt, second, &mut reader);
    let third = join(rt, third, &mut reader);
    end.store(watch.guest_deadline()?, SeqCst);
    let swept = sweeper.join(rt).answer?;
    let last = reader.view(
        rt,
        &LAST,
        |session| session.map_or(0, |session| session.touches),
    );
    Ok(Report {
        served: first?.and(second?).and(third?),
        last,
        swept,
    })
}

fn main(rt: HostRuntime) -> Result<()> {
    let map = SharedMap::new(rt.alloc(), 16)?;
    let Report {
        served,
        last,
        swept,
    } = serve(&rt, rt.alloc(), &map)?;
    let sessions = map.close()?;
    let plan = Plan::new(20_000, 4);
    let left = reduce(&rt, rt.alloc(), &sessions, &plan, &StatisticsOf)?;
    drop(sessions);
    let Statistics { sessions, touches } = left.unwrap_or(Statistics::none());
    println!(rt;
        "{} opened, {} touches, the last one's {last}",
        served.opened, served.touches
    )?;
    println!(rt;
        "{} closed, which had {} touches",
        served.closed, served.touches_of_closed
    )?;
    println!(rt; "{swept} came to their deadline")?;
    println!(rt; "{sessions} left, with {touches} touches")?;
    Ok(())
}
