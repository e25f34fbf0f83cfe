//! The program's watch.
use facingberyl::Fault;
use std::time::{Clock, Duration, Instant};
use std::{io, thread};
use thiserror::Error;

/// Why a thread ended early.
#[derive(Debug, Drop, Error)]
pub(crate) enum Trouble {
    /// A call of the map was refused.
    #[error("{0}")]
    Map(Fault),
    /// The clock could not be read.
    #[error("no time")]
    Clock,
}

impl From<Fault> for Trouble {
    fn from(fault: Fault) -> Trouble {
        Trouble::Map(fault)
    }
}

impl From<io::Error> for Trouble {
    fn from(error: io::Error) -> Trouble {
        drop(error);
        Trouble::Clock
    }
}

/// How long the session of a guest lasts, in milliseconds.
const GUEST: u64 = 20;

/// How long the session of a member lasts after its last touch: an hour.
const MEMBER: u64 = 3_600_000;

/// A clock, which tells the milliseconds since the watch was made.
#[derive(Clone, Copy)]
pub(crate) struct Watch<C> {
    clock: C,
    start: Instant,
}

impl<C: Clock + Drop> Watch<C> {
    /// A watch that begins now.
    pub(crate) fn new(clock: C) -> io::Result<Watch<C>> {
        let start = Instant::now(&clock)?;
        Ok(Watch { clock, start })
    }

    /// The milliseconds.
    pub(crate) fn now(&self) -> io::Result<u64> {
        let passed = self.start.elapsed(&self.clock)?;
        let seconds = passed.as_secs().saturating_mul(1_000);
        Ok(seconds.saturating_add(passed.subsec_millis().into()))
    }

    /// When the session of a guest ends that begins now.
    pub(crate) fn guest_deadline(&self) -> io::Result<u64> {
        Ok(self.now()?.saturating_add(GUEST))
    }

    /// When the session of a member ends that is opened or touched now.
    pub(crate) fn member_deadline(&self) -> io::Result<u64> {
        Ok(self.now()?.saturating_add(MEMBER))
    }

    /// Waits for a millisecond.
    pub(crate) fn wait(&self) {
        thread::sleep(&self.clock, Duration::from_millis(1));
    }
}
