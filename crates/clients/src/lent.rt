//! A client that was lent its map and its pass.
ghost use Rattle.std.specs.Prelude.{◌≡◌};

use crate::client::ClientOf;
use crate::holder::{Holder, Seat};
use bin_history::{Remap, Value};
use chm::Map;
use count_ledger::Pass;
use hashkeys::HashKey;
use std::alloc::Allocator;
use std::marker::{Brand, PhantomData};

/// Which map a client works on, its number, and which pass it was lent. A call at `Brand` picks
/// them.
pub trait Loan {
    ghost use Rattle.std.specs.Prelude.{ℕ};
    ghost use Rattle.count_ledger.specs.Views.{LedgerId};
    ghost use base.Fml.{GName};

    ghost ledger: { LedgerId };

    ghost client: { ℕ };

    ghost lent: { GName };
}

impl Loan for Brand {
    ghost use Rattle.std.specs.Prelude.{[]};

    ghost ledger = { record {
      words = 0;
      slots = 0;
      views_name = 0;
      atom = 0;
      block = 0;
      offset =
          0;
      slot_names = [];
    } };

    ghost client = { 0 };

    ghost lent = { 0 };
}

/// A map that was lent with a pass of it. That they belong together is known of each client with
/// this loan, so no call needs to be told.
#[derive(Drop)]
pub struct Lent<'m, 'p, L: Loan, K: HashKey, V: Value, F: Remap<K, V>, A: Allocator> {
    pub map: &'m Map<K, V, F, A>,
    pub loan: PhantomData<(L, &'p Pass<K, V, F>)>,
}

/// A client that was lent its map and its pass, by which it makes calls: of a team, or of an owned
/// client that works.
pub type Client<'a, L, K, V, F, A> = ClientOf<Lent<'a, 'a, L, K, V, F, A>, K, V, F, A>;

impl<K, V, F> Seat<K, V, F> for &mut Pass<K, V, F> {
    ghost use Rattle.std.specs.Prelude.{refl};

    ghost pass_of = { λ s. s.now };

    ghost with_pass = { λ s w. record s { now = w } };

    ghost pass_is = { λ s w. refl };

    #[inline(always)]
    fn pass(&self) -> &Pass<K, V, F> {
        &**self
    }

    #[inline(always)]
    fn pass_mut(&mut self) -> &mut Pass<K, V, F> {
        &mut **self
    }
}

impl<'p, L: Loan, K: HashKey, V: Value, F: Remap<K, V>, A: Allocator> Holder<K, V, F, A>
    for Lent<'_, 'p, L, K, V, F, A> {
    type Seat = &'p mut Pass<K, V, F>;

    ghost use Rattle.std.specs.Prelude.{◌≡◌};
    ghost use Rattle.std.proofs.Common.{◌∙◌, sym};

    ghost map_of = { λ h. h.map.now };

    ghost fits = { λ h s. (h.map.now.ledger.id ≡ L.ledger) × (s.now.ledger ≡ L.ledger)
        × (s.now.client ≡ L.client) × (s.ghost_name ≡ L.lent) };

    ghost own = { λ h s f. f.1 ∙ sym f.0 };

    ghost fits_still = { λ h s w ledger client f. (f.0, ledger ∙ f.1, client ∙ f.2, f.3) };

    #[inline(always)]
    fn map(&self) -> &Map<K, V, F, A> {
        self.map
    }

    fn end(self, _seat: &'p mut Pass<K, V, F>) {}
}

impl<L: Loan, K: HashKey, V: Value, F: Remap<K, V>, A: Allocator> ClientOf<
    Lent<'_, '_, L, K, V, F, A>,
    K,
    V,
    F,
    A,
> {
    /// Says what is known of each client with this loan: its map, and its number.
    pub fn is_of_loan(&self)
        ensures ledger { self.now.map.ledger.id ≡ L.ledger }
        ensures client { self.now.pass.client ≡ L.client }
    {
        let (_holder, _seat) = self.held();
    }
}
