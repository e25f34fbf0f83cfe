//! The function of the maps whose calls are recorded.
ghost use Rattle.std.specs.Prelude.{◌≡◌};
ghost use Rattle.histories.specs.Steps.{added};

use crate::pause::pause;
use clients::{Exact, Remap};
use std::alloc::AllocError;

/// The least value that a step takes away.
const ENOUGH: u64 = 1 << 32;

/// The sum of a value below 2^32 and the amount, or the greatest number of 64 bits where that is
/// less; no value in place of a greater one.
fn added(amount: u64, value: u64) -> Option<u64>
    ensures { result ≡ added amount value }
{
    if value < ENOUGH {
        Some(value.saturating_add(amount))
    } else {
        None
    }
}

/// Gives an absent key the amount, adds the amount to a value below 2^32, and takes a greater value
/// away. A merge adds the value that it is given in place of the amount. Each of them first lets
/// other threads run, so many times: the key's bin is locked meanwhile.
#[derive(Clone, Copy)]
pub(crate) struct Step {
    pub(crate) amount: u64,
    pub(crate) pauses: u32,
}

impl Exact for Step {
    ghost use Rattle.std.proofs.Common.{rules};

    ghost copies_exactly = { Prim.search rules };
}

impl Remap<u64, u64> for Step {
    ghost use Rattle.histories.specs.Steps.{added, stepped};

    ghost remapped = { λ step _ value. stepped step.amount value };

    ghost merged = { λ _ old given. added given old };

    fn remap(&self, _key: &u64, value: Option<&u64>) -> Result<Option<u64>, AllocError> {
        pause(self.pauses);
        match value {
            Some(value) => Ok(added(self.amount, *value)),
            None => Ok(Some(self.amount)),
        }
    }

    fn merge(&self, old: &u64, given: &u64) -> Result<Option<u64>, AllocError> {
        pause(self.pauses);
        Ok(added(*given, *old))
    }
}
