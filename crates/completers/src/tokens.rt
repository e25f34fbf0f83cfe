//! The tokens of a tree. None can be cloned. A token that is dropped is a right that nobody has any
//! more.
ghost use Rattle.std.specs.Prelude.{◌≡◌, ◌<◌};

use crate::rule::TokenSeat;
use std::marker::Model;

/// Nodes of a tree that nobody has opened: 2 to the level of them, side by side.
#[derive(Drop)]
pub struct Supply<P: Drop> {
    pub(crate) seat: TokenSeat<P>,
    pub(crate) first: usize,
    pub(crate) level: u32,
}

impl<P: Drop> Model for Supply<P> {
    ghost use Rattle.completers.specs.Views.{SupplyView};
    ghost use Rattle.completers.specs.Tokens.{IsSupply};

    ghost Value = { SupplyView };

    ghost view = { λ s. record { tree = s.seat.table_id; first = s.first; level = s.level } };

    ghost invariant = { λ s. IsSupply s.seat.table_id s.seat.me s.first s.level };
}

/// An open node, which forks until it gives out its own ticket.
#[derive(Drop)]
pub struct Node<P: Drop> {
    pub(crate) seat: TokenSeat<P>,
    pub(crate) node: usize,
    pub(crate) lo: usize,
    pub(crate) hi: usize,
    pub(crate) forks: usize,
    pub(crate) level: u32,
}

impl<P: Drop> Model for Node<P> {
    ghost use Rattle.completers.specs.Views.{NodeView};
    ghost use Rattle.completers.specs.Rights.{up_in};
    ghost use Rattle.completers.specs.Tokens.{IsNode};

    ghost Value = { NodeView };

    ghost view = { λ n. record {
      tree = n.seat.table_id;
      node = n.node;
      lo = n.lo;
      hi =
          n.hi;
      forks = n.forks;
      level = n.level;
      above = up_in n.seat.me.0;
    } };

    ghost invariant = { λ n. IsNode n.seat.table_id n.seat.me n.node n.lo n.hi n.forks n.level };
}

/// The right to arrive once at a node, with a part of the ticket's range.
#[derive(Drop)]
pub struct Ticket<P: Drop> {
    pub(crate) seat: TokenSeat<P>,
    pub(crate) node: usize,
    pub(crate) number: usize,
    pub(crate) lo: usize,
    pub(crate) hi: usize,
}

impl<P: Drop> Model for Ticket<P> {
    ghost use Rattle.completers.specs.Views.{TicketView};
    ghost use Rattle.completers.specs.Rights.{forks_in, up_in};
    ghost use Rattle.completers.specs.Tokens.{IsTicket};

    ghost Value = { TicketView };

    ghost view = { λ t. record {
      tree = t.seat.table_id;
      node = t.node;
      number = t.number;
      lo = t.lo;
      hi = t.hi;
      forks = forks_in t.seat.me.0;
      above = up_in t.seat.me.0;
    } };

    ghost invariant = { λ t. IsTicket t.seat.table_id t.seat.me t.node t.number t.lo t.hi };
}

/// That a ticket has arrived at its node, where another had not: it gives no right. Whoever has it
/// was told so by the node's number.
#[derive(Drop)]
pub struct Counted<P: Drop> {
    pub(crate) seat: TokenSeat<P>,
    pub(crate) node: usize,
    pub(crate) number: usize,
}

impl<P: Drop> Model for Counted<P> {
    ghost use Rattle.completers.specs.Views.{CountedView};
    ghost use Rattle.completers.specs.Tokens.{IsCounted};

    ghost Value = { CountedView };

    ghost view = { λ c. record { tree = c.seat.table_id; node = c.node; number = c.number } };

    ghost invariant = { λ c. IsCounted c.seat.me c.node c.number };
}

impl<P: Drop> Supply<P> {
    /// How many times the number of its nodes can be halved: it has 2 to this power.
    pub fn level(&self) -> u32
        ensures { result ≡ self.now.level }
    {
        self.level
    }
}

impl<P: Drop> Node<P> {
    /// Where the range that is left begins.
    pub fn lo(&self) -> usize
        ensures value { result ≡ self.now.lo }
        ensures range { self.now.lo < self.now.hi }
    {
        self.lo
    }

    /// Where the range that is left ends.
    pub fn hi(&self) -> usize
        ensures value { result ≡ self.now.hi }
        ensures range { self.now.lo < self.now.hi }
    {
        self.hi
    }
}

impl<P: Drop> Ticket<P> {
    /// Where the ticket's range begins.
    pub fn lo(&self) -> usize
        ensures value { result ≡ self.now.lo }
        ensures range { self.now.lo < self.now.hi }
    {
        self.lo
    }

    /// Where the ticket's range ends.
    pub fn hi(&self) -> usize
        ensures value { result ≡ self.now.hi }
        ensures range { self.now.lo < self.now.hi }
    {
        self.hi
    }
}
