//! The sweeper, which drops sessions whose deadline has come.
use crate::session::{Caller, Session, Step};
use crate::watch::{Trouble, Watch};
use facingberyl::{Fault, Loan, Work};
use std::alloc::Global;
use std::sync::atomic::AtomicU64;
use std::sync::atomic::Ordering::SeqCst;
use std::sync::{Arc, Wait};
use std::time::Clock;

/// Drops the sessions whose deadline is at most now, a bucket at a time.
fn drop_ended<L: Loan, R: Wait>(rt: &R, client: &mut Caller<'_, L>, now: u64) -> Result<(), Fault> {
    let mut cursor = client.cursor();
    for _ in rt.forever() {
        let mut lasts = |_number: &u64, session: &Session| now < session.deadline;
        if client.retain_next(rt, &mut cursor, &mut lasts)?.is_none() {
            break;
        }
    }
    Ok(())
}

/// The sweeper goes over all sessions each millisecond, and for the last time at the end, which is
/// told in milliseconds of its watch.
#[derive(Drop)]
pub(crate) struct Sweep<C> {
    pub(crate) watch: Watch<C>,
    pub(crate) end: Arc<AtomicU64, Global>,
}

impl<C: Clock + Drop> Work<u64, Session, Step, Global> for Sweep<C> {
    /// How many sessions it dropped.
    type Out = Result<u64, Trouble>;

    fn work<L: Loan, R: Wait>(&self, rt: &R, client: &mut Caller<'_, L>) -> Result<u64, Trouble> {
        for _ in rt.forever() {
            let end = self.end.load(SeqCst);
            let now = self.watch.now()?;
            drop_ended(rt, client, now)?;
            if end <= now {
                break;
            }
            self.watch.wait();
        }
        Ok(client.balance().wrapping_neg())
    }
}
