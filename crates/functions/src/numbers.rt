//! Functions of two numbers.
use bin_history::Exact;

/// Adds: a merge gives the sum of the value and the one given, or the nearest end of the range of
/// 64 bits where the sum is outside. A compute call leaves the value. It has no bytes and is never
/// refused.
#[derive(Clone, Copy, Debug)]
pub struct Add;

impl Exact for Add {
    ghost use Rattle.std.proofs.Common.{rules};

    ghost copies_exactly = { Prim.search rules };
}

/// Keeps the greatest: a merge gives the greater of the value and the one given. A compute call
/// leaves the value. It has no bytes and is never refused.
#[derive(Clone, Copy, Debug)]
pub struct Greatest;

impl Exact for Greatest {
    ghost use Rattle.std.proofs.Common.{rules};

    ghost copies_exactly = { Prim.search rules };
}

/// Sets: a merge gives the value given, to a present key as to an absent one. A compute call leaves
/// the value. It has no bytes and is never refused.
#[derive(Clone, Copy, Debug)]
pub struct Set;

impl Exact for Set {
    ghost use Rattle.std.proofs.Common.{rules};

    ghost copies_exactly = { Prim.search rules };
}
