//! A history: clients that call at the same time, and when each call began and ended.
use crate::calls::{Caller, make};
use crate::event::{Asked, Event, Kind, MOST_KEYS, Returned};
use crate::pause::pause;
use crate::plan::Plan;
use crate::random::Random;
use crate::step::Step;
use clients::{Fault, Form, Loan, Map, Quiet, Team, Work};
use std::alloc::Global;
use std::sync::Wait;
use std::sync::atomic::AtomicU64;
use std::sync::atomic::Ordering::SeqCst;
use std::thread::Threads;

/// How often a client lets others run at most until all have begun.
const MOST_WAITS: u32 = 20_000;

/// The first of the keys that no history tells of.
const FURTHER: u64 = 1_000_000;

/// Half of the room for amounts: what two steps add reaches 2^32, and a third takes it away.
const AMOUNT: u64 = 1 << 31;

/// What the clients of a history share beside the map.
#[derive(Clone, Copy)]
struct Recording<'a> {
    plan: Plan,
    alloc: Global,
    /// The history's clock: it goes on by one whenever a call begins or ends.
    clock: &'a AtomicU64,
    /// How many clients have begun.
    begun: &'a AtomicU64,
}

impl Recording<'_> {
    /// Lets other threads run until all clients have begun, or for long enough.
    fn meet(&self) {
        self.begun.fetch_add(1, SeqCst);
        for _ in 0..MOST_WAITS {
            if self.begun.load(SeqCst) >= u64::from(self.plan.clients) {
                return;
            }
            pause(1);
        }
    }

    /// Makes the call, and notes when it began and ended.
    fn record<L: Loan, R: Wait>(
        &self,
        rt: &R,
        client: &mut Caller<'_, L>,
        asked: Asked,
        pauses: u32,
    ) -> Result<Event, Fault> {
        let start = self.clock.fetch_add(1, SeqCst);
        let told = make(rt, client, &asked, pauses)?;
        let end = self.clock.fetch_add(1, SeqCst);
        Ok(Event {
            asked,
            told,
            start,
            end,
        })
    }
}

/// Keeps the value that the call showed at its key, where it showed one.
fn notice(seen: &mut [u64; 8], event: &Event) {
    if let Returned::Value(Some(value)) | Returned::Updated((_, Some(value))) = event.told {
        let place = (event.asked.key % 8) as usize;
        seen[place] = value;
    }
}

impl Work<u64, u64, Step, Global> for Recording<'_> {
    type Out = Result<Vec<Event>, Fault>;

    fn work<L: Loan, R: Wait>(
        &self,
        rt: &R,
        client: &mut Caller<'_, L>,
    ) -> Result<Vec<Event>, Fault> {
        let number = (client.number() % 32) as u64;
        let mut random = Random::new(self.plan.seed.wrapping_mul(64).wrapping_add(number + 1));
        let mut events = Vec::with_capacity(self.alloc, self.plan.calls as usize)?;
        let mut seen = [0u64; 8];
        self.meet();
        for made in 0..self.plan.calls {
            let own = u64::from(made % 65_536) * 32 + number;
            let asked = self.plan.call(&mut random, &seen, AMOUNT + own);
            let pauses = self.plan.pauses(&mut random);
            let event = self.record(rt, client, asked, pauses)?;
            notice(&mut seen, &event);
            events.push(event)?;
            if self.plan.grows {
                client.put(rt, FURTHER + own, 0)?;
            }
        }
        Ok(events)
    }
}

/// A closed map whose calls were recorded.
pub(crate) type Closed = Quiet<u64, u64, Step, Global>;

/// A new map of one bin, with its clients.
pub(crate) fn open(
    alloc: Global,
    form: Form,
    clients: u32,
) -> Result<Team<u64, u64, Step, Global>, Fault> {
    match form {
        Form::Lean => Team::new(alloc, 1, clients),
        Form::Recorded => {
            let (map, passes) = Map::new(alloc, 1, clients)?;
            Ok(Team::of(map, passes))
        }
    }
}

/// What the closed map has, told as a walk that began when all calls had ended.
fn final_walk(closed: &Closed, ticks: u64) -> Event {
    let mut shown = [None; MOST_KEYS];
    for (key, value) in closed.entries() {
        if let Some(place) = shown.get_mut(*key as usize) {
            *place = Some(*value);
        }
    }
    Event {
        asked: Asked {
            kind: Kind::Walk,
            key: 0,
            first: 0,
            second: 0,
        },
        told: Returned::Shown(shown),
        start: ticks,
        end: ticks.wrapping_add(1),
    }
}

/// A history: the calls of each client, client 0's first, and what the map has at the end.
#[derive(Drop)]
pub(crate) struct History {
    pub(crate) calls: Vec<Vec<Event>>,
    pub(crate) last: Event,
}

/// Makes the plan's history on a new map, which is closed afterwards.
pub(crate) fn make_history<R: Threads + Wait + Sync>(
    rt: &R,
    alloc: Global,
    plan: &Plan,
) -> Result<History, Fault> {
    let (clock, begun) = (AtomicU64::new(0), AtomicU64::new(0));
    let mut team = open(alloc, plan.form, plan.clients)?;
    let recording = Recording {
        plan: *plan,
        alloc,
        clock: &clock,
        begun: &begun,
    };
    let answers = team.work(rt, &recording)?;
    let closed = team.close()?;
    let last = final_walk(&closed, clock.load(SeqCst));
    let mut calls = Vec::with_capacity(alloc, answers.len())?;
    for answer in answers {
        calls.push(answer?)?;
    }
    Ok(History { calls, last })
}
