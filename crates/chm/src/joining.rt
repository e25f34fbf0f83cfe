//! Clients that come while a map lives.
ghost use Rattle.std.specs.Prelude.{◌≡◌, ◌+◌, IfNone, IfSome};
ghost use Rattle.count_ledger.specs.Opening.{new_pass};

use crate::map::Map;
use bin_history::{Remap, Value};
use count_ledger::{Pass, Roster};
use hashkeys::HashKey;
use std::alloc::Allocator;

impl<K: HashKey, V: Value, F: Remap<K, V>, A: Allocator> Map<K, V, F, A> {
    /// Takes the pass of the next client from the map's roster, while other clients make calls;
    /// returns none where all passes were taken. A client that ends leaves its pass to another, and
    /// no pass goes back to the roster. It is no call, locks no bin, takes no memory and never waits.
    ///
    ///     let mut pass = map.join(roster)?;
    ///     let put = map.put(rt, &mut pass, 1, 5);
    pub fn join(&self, roster: &mut Roster<K, V, F>) -> Option<Pass<K, V, F>>
        requires { roster.old.ledger ≡ self.now.ledger.id }
        ensures pass { IfSome result (λ p. p ≡ new_pass self.now.ledger.id roster.old.next) }
        ensures next { IfSome result
            (λ _. roster.new ≡ record roster.old { next = roster.old.next + 1 }) }
        ensures none { IfNone result (roster.old.next ≡ roster.old.clients) }
        ensures same { IfNone result (roster.new ≡ roster.old) }
    {
        self.ledger.join(roster)
    }
}
