//! What the queries of a script do with each pair of the map.
use bulk_tasks::{Action, Probe};
use hashkeys::Key;
use std::alloc::AllocError;

/// Looks for a value above the bound.
#[derive(Clone, Copy, Debug)]
pub(crate) struct Above(pub(crate) i64);

impl Probe<Key, i64> for Above {
    ghost use Rattle.mapcli_core.specs.Above.{above};
    ghost use Rattle.std.specs.Prelude.{true};

    type U = i64;

    ghost probed = { λ p _ v. above p.0 v };

    ghost never_refuses = { true };

    fn probe(&self, _key: &Key, value: &i64) -> Result<Option<i64>, AllocError> {
        if *value > self.0 {
            return Ok(Some(*value));
        }
        Ok(None)
    }
}

/// Answers a copy of each pair.
#[derive(Clone, Copy, Debug)]
pub(crate) struct Pairs;

impl Action<Key, i64> for Pairs {
    type R = (Key, i64);

    ghost acted = { λ _ k v. (k, v) };

    fn act(&self, key: &Key, value: &i64) -> Result<(Key, i64), AllocError> {
        Ok((key.clone()?, *value))
    }
}
