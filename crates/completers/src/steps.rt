//! What each step on the table tells, and how rights are cut and joined.
use crate::relation::Partial;
use crate::rule::Rights;
use atomic_table::{Join, Play, Split};
use std::marker::{Brand, PhantomData};

/// What a tree is made for, which a `Play` cannot read. A call at `Brand` picks it.
pub(crate) trait OfTree<P> {
    ghost use Rattle.std.specs.Prelude.{ℕ};

    ghost fits: { ℕ → ℕ → P → Type 0 };

    ghost bins: { ℕ };
}

impl<P> OfTree<P> for Brand {
    ghost fits = { λ _ _ _. Unit {0} };

    ghost bins = { 0 };
}

/// Where a fork cuts the range.
pub(crate) trait Cut {
    ghost use Rattle.std.specs.Prelude.{ℕ};

    ghost mid: { ℕ };
}

impl Cut for Brand {
    ghost mid = { 0 };
}

/// A node is opened.
pub(crate) struct OpenStep<W> {
    marker: PhantomData<W>,
}

impl<P, W: OfTree<P>> Play<Option<Partial<P>>, Rights> for OpenStep<W> {
    ghost use Rattle.completers.specs.Steps.{Opens};

    ghost then = { λ _ m _ w. Opens W.bins m w };
}

/// A node forks.
pub(crate) struct ForkStep<W> {
    marker: PhantomData<W>,
}

impl<P, W: Cut> Play<Option<Partial<P>>, Rights> for ForkStep<W> {
    ghost use Rattle.completers.specs.Steps.{Forks};

    ghost then = { λ _ m found w. Forks W.mid m found w };
}

/// A node gives out its own ticket.
pub(crate) struct OwnStep;

impl<P> Play<Option<Partial<P>>, Rights> for OwnStep {
    ghost use Rattle.completers.specs.Steps.{Owns};

    ghost then = { λ _ m found w. Owns m found w };
}

/// A ticket takes its slot, and reads the code of the ticket above its node.
pub(crate) struct TakeStep;

impl<P> Play<Option<Partial<P>>, Rights> for TakeStep {
    ghost use Rattle.completers.specs.Steps.{Takes};

    ghost then = { λ _ m found w. Takes m found w };
}

/// A ticket arrives. The last one has all slots of the node.
pub(crate) struct ArriveStep<W> {
    marker: PhantomData<W>,
}

impl<P, W: OfTree<P>> Play<Option<Partial<P>>, Rights> for ArriveStep<W> {
    ghost use Rattle.completers.specs.Steps.{Arrives};

    ghost then = { λ step m found w. Arrives W.fits W.bins step.slots m found w };
}

/// The first right goes to the new seat.
pub(crate) struct First;

impl Split<Rights> for First {
    ghost use Rattle.completers.specs.Rights.{head, tail};

    ghost left = { tail };

    ghost right = { head };
}

/// The second half of the rights goes to the new seat.
pub(crate) struct Half;

impl Split<Rights> for Half {
    ghost use Rattle.completers.specs.Rights.{lower_half, upper_half};

    ghost left = { lower_half };

    ghost right = { upper_half };
}

/// The rights of two seats together.
pub(crate) struct Together;

impl Join<Rights> for Together {
    ghost use Rattle.std.specs.Prelude.{◌++◌, []};

    ghost both = { λ v w. v ++ w };

    ghost spent = { [] };
}
