//! Sizes of tables.
ghost use Rattle.std.specs.Prelude.{◌≡◌, ℕ, ◌^◌, ◌≤◌, ◌<◌};
ghost use Rattle.hashkeys.specs.Classes.{IsTableSize};
ghost use Rattle.hashkeys.specs.Limits.{most_bins};
ghost use Rattle.chm.specs.Sizes.{IsSizeFor, IsSizeFrom};

use crate::resize::policy::{most_bins, threshold};
use bin_history::Form;

/// The least table of at least this capacity, which is 1 to 2^26.
pub(crate) fn size_for(capacity: u32) -> u32
    requires { (1 ≤ capacity) × (capacity ≤ most_bins) }
    ensures { IsSizeFor capacity result }
{
    let mut n = 1;
    while n < capacity {
        n *= 2;
    }
    n
}

/// The least table of the form from `n0` bins on that has room for so many keys, or the widest
/// table.
pub(crate) fn size_from(form: Form, n0: u32, count: u64) -> u32
    requires { IsTableSize n0 }
    ensures { IsSizeFrom form n0 count result }
{
    let mut n = n0;
    while n < most_bins(form) && count >= u64::from(threshold(form, n)) {
        n *= 2;
    }
    n
}
