//! Servers, which answer requests.
use crate::session::{Caller, Session, Step};
use crate::watch::{Trouble, Watch};
use crossbeam_channel::Receiver;
use facingberyl::{Change, Loan, Work};
use std::alloc::Global;
use std::sync::Wait;
use std::time::Clock;

/// A request on the hundred sessions from a hundred times this number on.
#[derive(Clone, Copy)]
pub(crate) struct Batch {
    pub(crate) number: u64,
}

/// How many sessions were opened, how many touches there were, how many sessions were closed, and
/// how often these had been touched.
#[derive(Clone, Copy)]
pub(crate) struct Served {
    pub(crate) opened: u64,
    pub(crate) touches: u64,
    pub(crate) closed: u64,
    pub(crate) touches_of_closed: u64,
}

impl Served {
    pub(crate) fn none() -> Served {
        Served {
            opened: 0,
            touches: 0,
            closed: 0,
            touches_of_closed: 0,
        }
    }

    /// What two servers did.
    pub(crate) fn and(self, other: Served) -> Served {
        Served {
            opened: self.opened.saturating_add(other.opened),
            touches: self.touches.saturating_add(other.touches),
            closed: self.closed.saturating_add(other.closed),
            touches_of_closed: self
                .touches_of_closed
                .saturating_add(other.touches_of_closed),
        }
    }
}

/// A server opens the sessions of each batch that comes, until there are no more. Those of an even
/// number are guests', who do nothing. Members touch theirs three times, and each fifth member
/// closes it.
#[derive(Drop)]
pub(crate) struct Serve<C> {
    pub(crate) watch: Watch<C>,
    pub(crate) batches: Receiver<Batch, Global>,
}

impl<C: Clock + Drop> Serve<C> {
    /// Opens the session of a guest.
    fn meet_guest<L: Loan, R: Wait>(
        &self,
        rt: &R,
        client: &mut Caller<'_, L>,
        session: u64,
    ) -> Result<Served, Trouble> {
        let deadline = self.watch.guest_deadline()?;
        let opened = client.compute_if_absent(rt, session, Step::Open(deadline))?;
        Ok(Served {
            opened: opened.used as u64,
            ..Served::none()
        })
    }

    /// Opens the session of a member, and touches it three times.
    fn meet_member<L: Loan, R: Wait>(
        &self,
        rt: &R,
        client: &mut Caller<'_, L>,
        session: u64,
    ) -> Result<Served, Trouble> {
        let deadline = self.watch.member_deadline()?;
        let opened = client.compute_if_absent(rt, session, Step::Open(deadline))?;
        let mut touches = 0u64;
        for _ in 0..3u64 {
            let deadline = self.watch.member_deadline()?;
            let touched = client.compute_if_present(rt, &session, Step::Touch(deadline))?;
            touches = touches.saturating_add(touched.used as u64);
        }
        Ok(Served {
            opened: opened.used as u64,
            touches,
            ..Served::none()
        })
    }

    /// Closes a session, if it is there.
    fn close<L: Loan, R: Wait>(
        &self,
        rt: &R,
        client: &mut Caller<'_, L>,
        session: u64,
    ) -> Result<Served, Trouble> {
        let touches = client.update_lent(rt, &session, |session: Option<&Session>| {
            (Change::Remove, session.map(|session| session.touches))
        })?;
        Ok(Served {
            closed: touches.is_some() as u64,
            touches_of_closed: touches.unwrap_or(0),
            ..Served::none()
        })
    }

    /// Answers a request.
    fn answer<L: Loan, R: Wait>(
        &self,
        rt: &R,
        client: &mut Caller<'_, L>,
        batch: Batch,
    ) -> Result<Served, Trouble> {
        let mut served = Served::none();
        for place in 0..100u64 {
            let session = batch.number.wrapping_mul(100).wrapping_add(place);
            let met = if session % 2 == 0 {
                self.meet_guest(rt, client, session)?
            } else {
                self.meet_member(rt, client, session)?
            };
            served = served.and(met);
            if session % 10 == 1 {
                served = served.and(self.close(rt, client, session)?);
            }
        }
        Ok(served)
    }
}

impl<C: Clock + Drop> Work<u64, Session, Step, Global> for Serve<C> {
    type Out = Result<Served, Trouble>;

    fn work<L: Loan, R: Wait>(
        &self,
        rt: &R,
        client: &mut Caller<'_, L>,
    ) -> Result<Served, Trouble> {
        let mut served = Served::none();
        for batch in self.batches.iter(rt) {
            served = served.and(self.answer(rt, client, batch)?);
        }
        Ok(served)
    }
}
