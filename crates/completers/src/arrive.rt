//! Arrivals.
ghost use Rattle.std.specs.Prelude.{◌≡◌, ◌≢◌, ℕ, ◌+◌, ◌*◌, ◌<◌, ◌≤◌, List, [], ◌∷◌, map, length};
ghost use Rattle.std.specs.Prelude.{Contains, MatchOption, None, Some};
ghost use Rattle.atomic_table.specs.Table.{rest, turned};
ghost use Rattle.completers.specs.Limits.{most_slots};
ghost use Rattle.completers.specs.Parts.{AreParts, pile, slots_of, present};
ghost use Rattle.completers.specs.Rights.{IsTicketAbove, code as code_of, node_in, path_of};
ghost use Rattle.completers.specs.Views.{counted_ticket};
ghost use Rattle.completers.specs.declared.rule.Right.TheVariants.{Fills};

use crate::parts::{Parts, Slots};
use crate::relation::{Partial, Relation};
use crate::rule::TokenSeat;
use crate::steps::{First, TakeStep};
use crate::tokens::{Counted, Ticket};
use crate::tree::Tree;
use crate::words::count_down;
use std::alloc::Allocator;
use std::marker::Brand;

/// What an arrival is told.
#[derive(Drop)]
pub enum Arrival<P: Drop> {
    /// Another ticket of the node has not arrived yet. This one is counted.
    Early(Counted<P>),
    /// All have arrived: the parts of the whole node, and the ticket above it. The root has none.
    Last(Parts<P>, Option<Ticket<P>>),
}

impl<B: Relation, A: Allocator> Tree<B, A> {
    ghost use Rattle.completers.specs.Arrived.{MatchArrival, IsLast, IsWholeNode};

    // What is in the slot that the seat took last, which goes behind the others.
    fn empty(&self, seat: &mut TokenSeat<B::Part>, slot: usize) -> Option<Partial<B::Part>>
        requires table { seat.old.table_id ≡ self.now.identity }
        requires slot { (old : _) × (seat.old.me.1 ≡ (slot, old) ∷ rest seat.old.me.1) }
        ensures table { seat.new.table_id ≡ seat.old.table_id }
        ensures found { seat.old.me.1 ≡ (slot, result) ∷ rest seat.old.me.1 }
        ensures rights { seat.new.me.0 ≡ seat.old.me.0 }
        ensures slots { seat.new.me.1 ≡ turned ((slot, None) ∷ rest seat.old.me.1) }
    {
        let found = self.board.shared.exchange(seat, slot, None);
        seat.turn();
        found
    }

    // What is in all slots of the node.
    fn empty_all(&self, seat: &mut TokenSeat<B::Part>, node: usize) -> Slots<B::Part>
        requires table { seat.old.table_id ≡ self.now.identity }
        requires inside { (8 * node + 8 ≤ seat.old.table_id.slots)
            × (seat.old.table_id.slots ≤ most_slots) }
        requires slots { (y : _) × (seat.old.me.1 ≡ (8 * node, y 0) ∷ pile node y 7 []) }
        ensures table { seat.new.table_id ≡ seat.old.table_id }
        ensures rights { seat.new.me.0 ≡ seat.old.me.0 }
        ensures found { slots_of result ≡ map (λ p. p.1) seat.old.me.1 }
    {
        Slots {
            own: self.empty(seat, 8 * node),
            fork7: self.empty(seat, 8 * node + 7),
            fork6: self.empty(seat, 8 * node + 6),
            fork5: self.empty(seat, 8 * node + 5),
            fork4: self.empty(seat, 8 * node + 4),
            fork3: self.empty(seat, 8 * node + 3),
            fork2: self.empty(seat, 8 * node + 2),
            fork1: self.empty(seat, 8 * node + 1),
        }
    }

    // The ticket with this code, for the range of the parts.
    fn above(
        &self,
        mut seat: TokenSeat<B::Part>,
        code: u64,
        slots: &Slots<B::Part>,
    ) -> Option<Ticket<B::Part>>
        requires table { seat.table_id ≡ self.now.identity }
        requires above { (lo : ℕ) × (hi : ℕ) × AreParts (B.relates self.now.relation) lo hi
            (present (slots_of slots.now))
            × IsTicketAbove self.now.bins lo hi seat.me.0 × (code_of seat.me.0 ≡ code)
            × (seat.me.0 ≢ [] → 8 * node_in seat.me.0 + 8 ≤ seat.table_id.slots)
            × ((x : _) × (slots.now.own ≡ Some x) × (x.lo ≡ lo)) }
        ensures { IsWholeNode self.now (B.relates self.now.relation) (path_of seat.me.0)
            (present (slots_of slots.now)) result }
    {
        if code == 0 {
            return None;
        }
        let above = self.board.shared.split_seat::<First>(&mut seat);
        let code = code as usize - 1;
        Some(Ticket {
            seat: above,
            node: code / 8,
            number: code % 8,
            lo: slots.lo(),
            hi: slots.hi(),
        })
    }

    // Writes the part into the ticket's slot, and reads the code of the ticket above.
    fn fill(&self, ticket: Ticket<B::Part>, partial: Partial<B::Part>) -> (TokenSeat<B::Part>, u64)
        requires tree { ticket.tree ≡ self.now.identity }
        ensures table { result.0.table_id ≡ self.now.identity }
        ensures inside { (8 * ticket.node + 8 ≤ result.0.table_id.slots)
            × (result.0.table_id.slots ≤ most_slots) × (ticket.number < 8) }
        ensures slot { result.0.me ≡ (
          Fills ticket.node ticket.number ticket.lo ticket.hi ticket.forks result.1 ticket.above ∷ [],
          (8 * ticket.node + ticket.number, Some partial) ∷ [],
        ) }
    {
        let Ticket {
            mut seat,
            node,
            number,
            lo: _,
            hi: _,
        } = ticket;
        let words = &self.board.shared;
        let code = words.load::<TakeStep>(&mut seat, 2 * node + 1);
        let None = words.exchange(&mut seat, 8 * node + number, Some(partial)) else {
            unreachable!()
        };
        (seat, code)
    }

    /// Leaves a part at the ticket's node. Whoever comes last has the parts of all its tickets,
    /// side by side over the node's whole range, and the ticket above, for that range.
    /// It takes no memory and waits for nobody.
    pub fn arrive(&self, ticket: Ticket<B::Part>, partial: Partial<B::Part>) -> Arrival<B::Part>
        requires tree { ticket.tree ≡ self.now.identity }
        requires range { (partial.lo ≡ ticket.lo) × (partial.hi ≡ ticket.hi) }
        requires part { B.relates self.now.relation partial.lo partial.hi partial.part }
        ensures early { MatchArrival result (λ counted. counted ≡ counted_ticket ticket)
            (λ _ _. Unit {0}) }
        ensures last { MatchArrival result (λ _. Unit {0})
            (λ parts above. Contains parts partial
            × IsWholeNode self.now (B.relates self.now.relation) ticket.above parts above) }
        // The own ticket of a node that forked nothing.
        ensures alone { ticket.number ≡ 0 → ticket.forks ≡ 0 → IsLast result }
    {
        let (node, number) = (ticket.node, ticket.number);
        let (mut seat, code) = self.fill(ticket, partial);
        if count_down::<B, Brand>(&self.board.shared, &mut seat, node) != 1 {
            return Arrival::Early(Counted { seat, node, number });
        }
        let slots = self.empty_all(&mut seat, node);
        let above = self.above(seat, code, &slots);
        Arrival::Last(Parts::of(slots), above)
    }
}
