//! What a mover knows, and the rule over all of it.
use crate::range::Range;
use atomic_table::TableRule;
use std::collections::LinkedList;

/// What one mover knows. No value of it is made.
pub struct Book {
    /// How many bins the move has.
    pub bins: usize,
    pub number: u64,
    /// The numbers of the movers that are not dealt yet.
    pub spare: LinkedList<u64>,
    /// The ranges that it claimed, in order.
    pub claimed: LinkedList<Range>,
    /// Those of them that it finished, in the order of the finishes.
    pub finished: LinkedList<Range>,
    /// It was told that no range is left to claim.
    pub got_none: bool,
    /// It was told that its finish was the last.
    pub last: bool,
}

/// The ranges of a move are claimed in order, each once, and the two words say how far.
pub struct InOrder;

impl TableRule<(), Book, usize> for InOrder {
    ghost use Rattle.transfer.specs.Books.{Holds, first_book};

    ghost holds = { Holds };

    ghost first = { first_book };
}
