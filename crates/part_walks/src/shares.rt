//! The shares of a table.
ghost use Rattle.std.specs.Prelude.{◌≡◌, ◌≤◌, ◌<◌, ◌+◌, ◌*◌, ◌/◌, []};
ghost use Rattle.hashkeys.specs.Classes.{IsTableSize};
ghost use Rattle.part_walks.specs.Parts.{HasWalked, most_shares};

use crate::walk::PartWalk;

/// Where the share of this number begins, and the one before ends, in a table of `n` buckets.
pub fn bound(n: u32, shares: u64, number: u64) -> u32
    requires size { IsTableSize n }
    requires shares { (0 < shares) × (shares ≤ most_shares) }
    requires number { number ≤ shares }
    ensures value { result ≡ number * n / shares }
    ensures most { result ≤ n }
{
    (number * u64::from(n) / shares) as u32
}

/// The walk over the share of this number, of so many that are alike in size.
pub fn share_of(n: u32, shares: usize, number: usize) -> PartWalk
    requires size { IsTableSize n }
    requires shares { shares ≤ most_shares }
    requires number { number < shares }
    ensures n { result.n ≡ n }
    ensures lo { result.lo ≡ number * n / shares }
    ensures hi { result.hi ≡ (number + 1) * n / shares }
    ensures begun { HasWalked result [] }
{
    let lo = bound(n, shares as u64, number as u64);
    let hi = bound(n, shares as u64, number as u64 + 1);
    PartWalk::new(n, lo, hi)
}
