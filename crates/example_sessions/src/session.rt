//! Sessions, and what calls make of them.
ghost use Rattle.std.specs.Prelude.{◌≡◌, option_copied};
ghost use Rattle.example_sessions.specs.Steps.{stepped};

use facingberyl::{Client, Exact, OwnedClient, Remap, SharedMap};
use std::alloc::{AllocError, Global};

/// When a session ends, in milliseconds of the program's watch, and how often it was touched.
#[derive(Clone, Copy, PartialEq, Eq)]
pub(crate) struct Session {
    pub(crate) deadline: u64,
    pub(crate) touches: u64,
}

impl Exact for Session {
    ghost use Rattle.std.proofs.Common.{rules};

    ghost copies_exactly = { Prim.search rules };
}

/// What a call makes of a session: a function of two cases.
#[derive(Clone, Copy)]
pub(crate) enum Step {
    /// Opens a session with this deadline, where there is none.
    Open(u64),
    /// Touches a session, which then has this deadline.
    Touch(u64),
}

impl Exact for Step {
    ghost use Rattle.std.proofs.Common.{rules};

    ghost copies_exactly = { Prim.search rules };
}

impl Step {
    /// What becomes of this session.
    fn step(&self, session: Option<&Session>) -> Option<Session>
        ensures { result ≡ stepped self.now (option_copied session.entry) }
    {
        match (self, session) {
            (Step::Open(deadline), None) => Some(Session {
                deadline: *deadline,
                touches: 0,
            }),
            (Step::Open(_), Some(session)) => Some(*session),
            (Step::Touch(_), None) => None,
            (Step::Touch(deadline), Some(session)) => Some(Session {
                deadline: *deadline,
                touches: session.touches.saturating_add(1),
            }),
        }
    }
}

impl Remap<u64, Session> for Step {
    ghost use Rattle.std.specs.Prelude.{Some};
    ghost use Rattle.example_sessions.specs.Steps.{stepped};

    ghost remapped = { λ step _ session. stepped step session };

    ghost merged = { λ _ _ given. Some given };

    fn remap(&self, _key: &u64, session: Option<&Session>) -> Result<Option<Session>, AllocError> {
        Ok(self.step(session))
    }

    fn merge(&self, _old: &Session, given: &Session) -> Result<Option<Session>, AllocError> {
        Ok(Some(*given))
    }
}

/// The map of sessions, by their numbers.
pub(crate) type Sessions = SharedMap<u64, Session, Step, Global>;

/// A client of it, while it works.
pub(crate) type Caller<'a, L> = Client<'a, L, u64, Session, Step, Global>;

/// A client of it that lives as long as it likes.
pub(crate) type Owned = OwnedClient<u64, Session, Step, Global>;
