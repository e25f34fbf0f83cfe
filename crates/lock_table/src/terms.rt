//! The rule of a table of places, and what the steps on it tell.
ghost use Rattle.std.specs.Prelude.{ℕ};

use atomic_table::{Play, TableRule};

/// A fact of each value that stands at a place, by the table's tag, the place's index and the kind
/// that its word tells.
pub trait Fits {
    type Tag;

    ghost fits: { Self.Tag → ℕ → ℕ → Self → Type 0 };
}

/// What a table is told once: its tag, and how far its words lie from one another.
#[derive(Drop)]
pub struct Terms<T> {
    pub tag: T,
    pub stride: usize,
}

pub(crate) struct OfPlaces;

impl<X: Fits> TableRule<X, Terms<X::Tag>, Terms<X::Tag>> for OfPlaces {
    ghost use Rattle.lock_table.specs.Places.{AreHome};

    ghost holds = { AreHome X.fits };

    ghost first = { λ t. t };
}

pub(crate) struct Sitting;

impl<X: Fits> Play<X, Terms<X::Tag>> for Sitting {
    ghost use Rattle.lock_table.specs.Plays.{Sits};

    ghost then = { Sits };
}

pub(crate) struct Taking;

impl<X: Fits> Play<X, Terms<X::Tag>> for Taking {
    ghost use Rattle.lock_table.specs.Plays.{Takes};

    ghost then = { Takes X.fits };
}

pub(crate) struct Giving;

impl<X: Fits> Play<X, Terms<X::Tag>> for Giving {
    ghost use Rattle.lock_table.specs.Plays.{Gives};

    ghost then = { Gives };
}
