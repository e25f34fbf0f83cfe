//! What a closed map of sessions is reduced to.
use crate::session::Session;
use facingberyl::bulk::Reducer;
use std::alloc::AllocError;

/// How many sessions there are, and how often they were touched.
#[derive(Clone, Copy)]
pub(crate) struct Statistics {
    pub(crate) sessions: u128,
    pub(crate) touches: u128,
}

impl Statistics {
    /// Those of no sessions.
    pub(crate) fn none() -> Statistics {
        Statistics {
            sessions: 0,
            touches: 0,
        }
    }
}

/// Reduces a map to the statistics of its sessions.
#[derive(Clone, Copy)]
pub(crate) struct StatisticsOf;

impl<K> Reducer<K, Session> for StatisticsOf {
    ghost use Rattle.std.specs.Prelude.{true, ◌+◌, ◌*◌, ◌≤◌};
    ghost use Rattle.std.proofs.Common.{arith, rules};
    ghost use Rattle.example_sessions.specs.declared.statistics.Statistics.{Statistics};

    type A = Statistics;

    ghost lifted = { λ _ _ session. record { sessions = 1; touches = session.touches } };

    ghost joined = { λ _ a b. record {
      sessions = a.sessions + b.sessions;
      touches = a.touches + b.touches;
    } };

    ghost within = { λ _ n a. (a.sessions ≤ n) × (a.touches ≤ n * 18446744073709551615) };

    ghost never_refuses = { true };

    fn lift(&self, _key: &K, session: &Session) -> Result<Statistics, AllocError> {
        Ok(Statistics {
            sessions: 1,
            touches: u128::from(session.touches),
        })
    }

    fn join(&self, left: Statistics, right: Statistics) -> Result<Statistics, AllocError> {
        Ok(Statistics {
            sessions: left.sessions + right.sessions,
            touches: left.touches + right.touches,
        })
    }

    ghost associative = { λ _ a b c. Prim.search (arith, rules) };

    ghost commutative = { λ _ a b. Prim.search (arith, rules) };

    ghost joins = { λ _ n m a b p q. (
      Prim.omega (arith, p.0, q.0),
      Prim.omega (arith, p.1, q.1),
    ) };
}
