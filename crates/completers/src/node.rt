//! Forks, and a node's own ticket.
ghost use Rattle.std.specs.Prelude.{◌≡◌, ◌+◌, ◌<◌};
ghost use Rattle.completers.specs.Views.{after_fork, forked_ticket, forked_supply, own_ticket};

use crate::relation::Relation;
use crate::steps::{First, Half, OwnStep};
use crate::tokens::{Node, Supply, Ticket};
use crate::tree::Tree;
use crate::words::count_up;
use std::alloc::Allocator;
use std::marker::Brand;

impl<P: Drop> Node<P> {
    /// Gives away the range from `mid` up, as a ticket, with the upper half of the
    /// node's supply. The node keeps the range below and the lower half of the supply.
    /// A node forks while it has more than one node, and fewer tickets than the tree has slots.
    pub fn fork<B: Relation<Part = P>, A: Allocator>(
        &mut self,
        tree: &Tree<B, A>,
        mid: usize,
    ) -> (Ticket<P>, Supply<P>)
        requires tree { self.old.tree ≡ tree.now.identity }
        requires range { (self.old.lo < mid) × (mid < self.old.hi) }
        requires nodes { 0 < self.old.level }
        requires slots { self.old.forks + 1 < tree.now.slots }
        ensures node { self.new ≡ after_fork mid self.old }
        ensures ticket { result.0 ≡ forked_ticket mid self.old }
        ensures supply { result.1 ≡ forked_supply self.old }
    {
        let words = &tree.board.shared;
        count_up::<B, Brand>(words, &mut self.seat, self.node, mid);
        let ticket = words.split_seat::<First>(&mut self.seat);
        let supply = words.split_seat::<Half>(&mut self.seat);
        let hi = self.hi;
        self.hi = mid;
        self.forks += 1;
        self.level -= 1;
        let ticket = Ticket {
            seat: ticket,
            node: self.node,
            number: self.forks,
            lo: mid,
            hi,
        };
        let supply = Supply {
            seat: supply,
            first: self.node + (1 << self.level),
            level: self.level,
        };
        (ticket, supply)
    }

    /// The node's own ticket, for the range that is left. The node forks no more.
    pub fn own<B: Relation<Part = P>, A: Allocator>(self, tree: &Tree<B, A>) -> Ticket<P>
        requires tree { self.tree ≡ tree.now.identity }
        ensures ticket { result ≡ own_ticket self }
    {
        let Node {
            mut seat,
            node,
            lo,
            hi,
            forks: _,
            level: _,
        } = self;
        tree.board.shared.load::<OwnStep>(&mut seat, 2 * node);
        Ticket {
            seat,
            node,
            number: 0,
            lo,
            hi,
        }
    }
}
