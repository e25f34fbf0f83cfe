//! A cache of at most eight sessions, which several clients share. Where it is full, sessions go that
//! were not used lately: each client has the hand of a clock, which goes from bucket to bucket.
use anyhow::Result;
use facingberyl::{
    Change, Client, ClientOf, Cursor, Exact, Fault, Holder, Loan, NoFunction, OwnedClient,
    SharedMap, Work,
};
use std::alloc::Global;
use std::sync::Wait;
use std::thread::Threads;

/// How many sessions are kept, and one more for each other client that opens one just then.
const MOST: u64 = 8;

/// Whose session it is, when it ends, and whether it was used since a hand passed it.
#[derive(Clone, Copy, PartialEq, Eq)]
struct Session {
    user: u64,
    deadline: u64,
    used: bool,
}

impl Exact for Session {
    ghost use Rattle.std.proofs.Common.{rules};

    ghost copies_exactly = { Prim.search rules };
}

impl Session {
    /// What becomes of a session when a hand passes it: one that was used lately counts as not used,
    /// and any other goes, as one goes that has ended.
    fn passed(session: Option<&Session>, now: u64) -> Change<Session> {
        match session {
            Some(session) if session.used && now < session.deadline => Change::Set(Session {
                used: false,
                ..*session
            }),
            _ => Change::Remove,
        }
    }
}

/// The map of sessions, by their numbers.
type Sessions = SharedMap<u64, Session, NoFunction, Global>;

/// A client of it, lent or owned.
type Any<H> = ClientOf<H, u64, Session, NoFunction, Global>;

/// Returns the user of a session that has not ended, which counts as used.
fn find<H: Holder<u64, Session, NoFunction, Global>, R: Wait>(
    rt: &R,
    client: &mut Any<H>,
    number: u64,
    now: u64,
) -> Result<Option<u64>, Fault> {
    let found = client.modify(rt, &number, |session: &mut Session| {
        session.used = true;
        (now < session.deadline).then_some(session.user)
    })?;
    Ok(found.flatten())
}

/// Moves the hand over a bucket.
fn turn<H: Holder<u64, Session, NoFunction, Global>, R: Wait>(
    rt: &R,
    client: &mut Any<H>,
    hand: &mut Cursor,
    now: u64,
) -> Result<(), Fault> {
    match client.visit_next(rt, hand)? {
        Some(bucket) => {
            for (number, _) in &bucket.entries {
                client.update_lent(rt, number, |session: Option<&Session>| {
                    (Session::passed(session, now), ())
                })?;
            }
        }
        None => *hand = client.cursor(),
    }
    Ok(())
}

/// Moves the hand until there is room for a session.
fn make_room<H: Holder<u64, Session, NoFunction, Global>, R: Wait>(
    rt: &R,
    client: &mut Any<H>,
    hand: &mut Cursor,
    now: u64,
) -> Result<(), Fault> {
    for _ in rt.forever() {
        if client.map().mapping_count() < MOST {
            break;
        }
        turn(rt, client, hand, now)?;
    }
    Ok(())
}

/// Opens a session for the user of its number that ends ten seconds from now.
fn open<H: Holder<u64, Session, NoFunction, Global>, R: Wait>(
    rt: &R,
    client: &mut Any<H>,
    hand: &mut Cursor,
    number: u64,
    now: u64,
) -> Result<(), Fault> {
    make_room(rt, client, hand, now)?;
    let session = Session {
        user: number,
        deadline: now.saturating_add(10),
        used: false,
    };
    client.put(rt, number, session)?;
    Ok(())
}

/// Opens a thousand sessions of its own, and looks for each. Returns how often it found another user's.
#[derive(Clone, Copy)]
struct OpenAll;

impl Work<u64, Session, NoFunction, Global> for OpenAll {
    type Out = Result<u64, Fault>;

    fn work<L: Loan, R: Wait>(
        &self,
        rt: &R,
        client: &mut Client<'_, L, u64, Session, NoFunction, Global>,
    ) -> Result<u64, Fault> {
        let first = (client.number() as u64).saturating_mul(1_000);
        let mut hand = client.cursor();
        let mut wrong = 0u64;
        for now in 0..1_000u64 {
            let number = first.saturating_add(now);
            open(rt, client, &mut hand, number, now)?;
            let user = find(rt, client, number, now)?.unwrap_or(number);
            wrong = wrong.saturating_add((user != number) as u64);
        }
        Ok(wrong)
    }
}

/// Lets four clients open sessions at the same time. Returns how often one found another user's.
fn open_all<R: Threads + Wait + Copy + Send + 'static>(
    rt: &R,
    alloc: Global,
    map: &Sessions,
) -> Result<u64> {
    let mut threads = Vec::with_capacity(alloc, 4)?;
    for _ in 0..4u64 {
        threads.push(map.client()?.start(rt, OpenAll)?)?;
    }
    let mut wrong = 0u64;
    for thread in threads {
        wrong = wrong.saturating_add(thread.join(rt).answer?);
    }
    Ok(wrong)
}

/// Opens eight sessions, uses the first five, and opens three more, each of which it uses. Returns the
/// sessions that are there then.
fn use_some<R: Wait>(
    rt: &R,
    alloc: Global,
    client: &mut OwnedClient<u64, Session, NoFunction, Global>,
) -> Result<Vec<u64>> {
    let mut hand = client.cursor();
    for number in 1..9u64 {
        open(rt, client, &mut hand, number, 0)?;
    }
    for number in 1..6u64 {
        find(rt, client, number, 1)?;
    }
    for number in 9..12u64 {
        open(rt, client, &mut hand, number, 1)?;
        find(rt, client, number, 1)?;
    }
    let mut kept = Vec::new(alloc);
    for number in 1..12u64 {
        if let Some(user) = find(rt, client, number, 2)? {
            kept.push(user)?;
        }
    }
    Ok(kept)
}

pub(crate) fn run<R: Threads + Wait + Print + Copy + Send + 'static>(
    rt: &R,
    alloc: Global,
) -> Result<()> {
    let map: Sessions = SharedMap::new(alloc, 64)?;
    let mut client = map.client()?;
    let kept = use_some(rt, alloc, &mut client)?;
    println!(rt; "kept: {kept:?}")?;
    let lasts = find(rt, &mut client, 5, 9)?.is_some();
    let ended = find(rt, &mut client, 5, 10)?.is_none();
    println!(rt; "lasts for 9 seconds: {lasts}, ends after 10: {ended}")?;
    let wrong = open_all(rt, alloc, &map)?;
    let mut hand = client.cursor();
    make_room(rt, &mut client, &mut hand, 1_000)?;
    let has_room = map.map().mapping_count() < MOST;
    println!(rt; "{wrong} were of another user, there is room: {has_room}")?;
    Ok(())
}
