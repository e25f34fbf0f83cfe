//! Passes that nobody has taken.
ghost use Rattle.std.specs.Prelude.{◌≡◌, ◌+◌, ◌≤◌, [], IfNone, IfSome, vec_capacity};
ghost use Rattle.count_ledger.specs.Opening.{new_pass, new_passes};

use crate::books::View;
use crate::dealing::take_first;
use crate::ledger::Ledger;
use crate::tokens::{APART, Pass};
use atomic_table::Badge;
use bin_history::Remap;
use hashkeys::HashKey;
use std::alloc::Allocator;
use std::marker::Model;

/// The passes that nobody has taken: those of the clients from a number on. They made nothing, and
/// take no memory. A roster can be sent to another thread, or stand behind a lock.
#[derive(Drop)]
pub struct Roster<K, V, F> {
    pub(crate) next: u32,
    pub(crate) clients: u32,
    pub(crate) all: Badge<View<K, V, F>>,
}

impl<K, V, F> Model for Roster<K, V, F> {
    ghost use Rattle.count_ledger.specs.Views.{RosterView};
    ghost use Rattle.count_ledger.specs.Tokens.{IsRoster};

    ghost Value = { RosterView };

    ghost view = { λ r. record { ledger = r.all.table_id; next = r.next; clients = r.clients } };

    ghost invariant = { λ r. IsRoster r.next r.clients r.all.views };
}

impl<K, V, F> Roster<K, V, F> {
    ghost use Rattle.std.specs.Prelude.{◌≡◌, ◌≤◌};

    /// Returns how many passes were taken: those of the clients below this number.
    pub fn taken(&self) -> u32
        ensures value { result ≡ self.now.next }
        ensures at_most { result ≤ self.now.clients }
    {
        self.next
    }

    /// Returns the number of clients, with and without a pass.
    pub fn clients(&self) -> u32
        ensures { result ≡ self.now.clients }
    {
        self.clients
    }
}

impl<K: HashKey, V: Eq, F: Remap<K, V>, A: Allocator> Ledger<K, V, F, A> {
    /// Takes the pass of the next client from the roster, while others make calls; returns none where
    /// all passes were taken. It costs one atomic load, takes no memory, and waits for nobody.
    pub fn join(&self, roster: &mut Roster<K, V, F>) -> Option<Pass<K, V, F>>
        requires { roster.old.ledger ≡ self.now.id }
        ensures pass { IfSome result (λ p. p ≡ new_pass self.now.id roster.old.next) }
        ensures next { IfSome result
            (λ _. roster.new ≡ record roster.old { next = roster.old.next + 1 }) }
        ensures none { IfNone result (roster.old.next ≡ roster.old.clients) }
        ensures same { IfNone result (roster.new ≡ roster.old) }
    {
        if roster.next >= roster.clients {
            return None;
        }
        // A pass that was taken never comes back here: it is passed on to another client.
        let client = roster.next;
        let seat = take_first(&self.table.shared, &mut roster.all);
        roster.next += 1;
        Some(Pass {
            client,
            made: 0,
            balance: 0,
            seat,
            apart: APART,
        })
    }

    /// Takes all passes of a roster of which none was taken, into an empty list that has room for
    /// them: those of client 0, 1 and so on, in this order.
    pub fn join_all(&self, roster: &mut Roster<K, V, F>, passes: &mut Vec<Pass<K, V, F>, A>)
        requires roster { roster.old
            ≡ record { ledger = self.now.id; next = 0; clients = self.now.clients } }
        requires empty { passes.old.items ≡ [] }
        requires room { self.now.clients ≤ vec_capacity passes.old }
        ensures passes { passes.new.items ≡ new_passes self.now.id self.now.clients }
        ensures roster { roster.new ≡ record roster.old { next = roster.old.clients } }
    {
        let clients = self.clients();
        for _client in 0..clients {
            let Some(pass) = self.join(roster) else {
                unreachable!()
            };
            passes.push_reserved(pass);
        }
    }
}
