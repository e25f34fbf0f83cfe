//! What a client holds: what leads to a map, and what leads to a pass of it.
ghost use Rattle.std.specs.Prelude.{◌≡◌};
ghost use Rattle.std.specs.Borrow.{sem};

use bin_history::{Remap, Value};
use chm::Map;
use count_ledger::Pass;
use hashkeys::HashKey;
use std::alloc::Allocator;

/// What leads to a pass: the pass itself, or a reference to it.
pub trait Seat<K, V, F> {
    ghost use Rattle.count_ledger.specs.Views.{PassView};
    ghost use Rattle.clients.specs.Clients.{LendsPass};

    ghost pass_of: { Self → PassView K V F };

    // The seat when its pass has become this one.
    ghost with_pass: { Self → PassView K V F → Self };

    /// Returns the pass.
    fn pass(&self) -> &Pass<K, V, F>
        ensures { result.now ≡ pass_of self.now };

    /// Returns the pass, by which calls are made.
    fn pass_mut(&mut self) -> &mut Pass<K, V, F>
        ensures* lends { sem 𝓛
            (LendsPass Self.row K.row V.row F.row self.entry result (with_pass self.old)) }
        ensures pass { result.now ≡ pass_of self.old };

    ghost pass_is: { (s : Self) (w : PassView K V F) → pass_of (with_pass s w) ≡ w };
}

/// What leads to a map, for a client with such a seat.
pub trait Holder<K: HashKey, V: Value, F: Remap<K, V>, A: Allocator> {
    /// What leads to the pass.
    type Seat: Seat<K, V, F>;

    ghost use Rattle.chm.specs.Views.{MapView};
    ghost use Rattle.count_ledger.specs.Views.{PassView};

    ghost map_of: { Self → MapView K V };

    // What is so of the map and the pass of each client.
    ghost fits: { Self → Self.Seat → Type 0 };

    /// Returns the map.
    fn map(&self) -> &Map<K, V, F, A>
        ensures { result.now ≡ map_of self.now };

    /// Ends a client that is dropped: a pass that was lent stays where it is, and an owned one goes
    /// back to the shared map.
    fn end(self, seat: Self::Seat)
        requires { fits self seat };

    ghost own: { (h : Self) (s : Self.Seat) → fits h s
        → (Self.Seat.pass_of s).ledger ≡ (map_of h).ledger.id };

    ghost fits_still: { (h : Self) (s : Self.Seat) (w : PassView K V F)
        → w.ledger ≡ (Self.Seat.pass_of s).ledger → w.client ≡ (Self.Seat.pass_of s).client
        → fits h s → fits h (Self.Seat.with_pass s w) };
}
