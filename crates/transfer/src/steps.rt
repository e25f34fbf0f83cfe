//! What the steps of a move tell, and how movers are dealt.
use crate::book::Book;
use crate::range::Range;
use atomic_table::{Play, Split};
use std::marker::{Brand, PhantomData};

/// A mover claims the next range, or is told that there is none.
pub(crate) struct ClaimStep;

impl Play<(), Book> for ClaimStep {
    ghost use Rattle.transfer.specs.Steps.{Claims};

    ghost then = { λ _ m found w. Claims m.0 found w.0 };
}

/// The range that a finish is of, which a `Play` cannot read. A call at `Brand` picks it.
pub(crate) trait OfRange {
    ghost use Rattle.transfer.specs.declared.range.Range.{Range};

    ghost range: { Range };
}

impl OfRange for Brand {
    ghost range = { record { lo = 0; hi = 0 } };
}

/// A mover finishes a range.
pub(crate) struct FinishStep<P> {
    marker: PhantomData<P>,
}

impl<P: OfRange> Play<(), Book> for FinishStep<P> {
    ghost use Rattle.transfer.specs.Steps.{Finishes};

    ghost then = { λ _ m found w. Finishes P.range m.0 found w.0 };
}

/// The next spare mover gets a seat of its own.
pub(crate) struct DealStep;

impl Split<Book> for DealStep {
    ghost use Rattle.transfer.specs.Books.{spare_book, without_next};

    ghost left = { without_next };

    ghost right = { spare_book };
}
