//! A client that lives as long as it likes.
ghost use Rattle.std.specs.Prelude.{◌≡◌};
ghost use Rattle.std.specs.Arc.{arc_value};

use crate::client::ClientOf;
use crate::holder::{Holder, Seat};
use crate::pass_pool::PassPool;
use bin_history::{Remap, Value};
use chm::Map;
use count_ledger::Pass;
use hashkeys::HashKey;
use std::alloc::Allocator;
use std::sync::Arc;

/// A shared map, which a client keeps for as long as it lives.
#[derive(Drop)]
pub struct Owned<K: HashKey, V: Value, F: Remap<K, V>, A: Allocator> {
    pub(crate) pass_pool: Arc<PassPool<K, V, F, A>, A>,
}

/// A pass that a client owns.
pub struct OwnedPass<K, V, F> {
    pub(crate) pass: Pass<K, V, F>,
}

/// A client that owns its pass, and keeps the map for as long as it lives: it moves into a thread,
/// through a channel or out of a join. Dropped, in whichever thread, it gives its pass back to the
/// shared map, where the next client that is taken finds it; that takes no memory and waits for
/// nobody.
pub type OwnedClient<K, V, F, A> = ClientOf<Owned<K, V, F, A>, K, V, F, A>;

impl<K, V, F> Seat<K, V, F> for OwnedPass<K, V, F> {
    ghost use Rattle.std.specs.Prelude.{refl};

    ghost pass_of = { λ s. s.pass };

    ghost with_pass = { λ s w. record s { pass = w } };

    ghost pass_is = { λ s w. refl };

    #[inline(always)]
    fn pass(&self) -> &Pass<K, V, F> {
        &self.pass
    }

    #[inline(always)]
    fn pass_mut(&mut self) -> &mut Pass<K, V, F> {
        &mut self.pass
    }
}

impl<K: HashKey, V: Value, F: Remap<K, V>, A: Allocator> Holder<K, V, F, A> for Owned<K, V, F, A> {
    type Seat = OwnedPass<K, V, F>;

    ghost use Rattle.std.specs.Prelude.{◌≡◌};
    ghost use Rattle.std.specs.Arc.{arc_value};
    ghost use Rattle.std.proofs.Common.{◌∙◌};

    ghost map_of = { λ h. arc_value h.pass_pool };

    ghost fits = { λ h s. s.pass.ledger ≡ (arc_value h.pass_pool).ledger.id };

    ghost own = { λ h s f. f };

    ghost fits_still = { λ h s w ledger client f. ledger ∙ f };

    #[inline(always)]
    fn map(&self) -> &Map<K, V, F, A> {
        self.pass_pool.map()
    }

    fn end(self, seat: OwnedPass<K, V, F>) {
        let Owned { pass_pool } = self;
        let OwnedPass { pass } = seat;
        pass_pool.put_back(pass);
    }
}

impl<K: HashKey, V: Value, F: Remap<K, V>, A: Allocator> ClientOf<Owned<K, V, F, A>, K, V, F, A> {
    /// The client with this pass, which was taken from the pass pool.
    pub(crate) fn of_pool(
        pass_pool: Arc<PassPool<K, V, F, A>, A>,
        pass: Pass<K, V, F>,
    ) -> OwnedClient<K, V, F, A>
        requires { pass.ledger ≡ (arc_value pass_pool).ledger.id }
        ensures map { result.map ≡ arc_value pass_pool }
        ensures pass { result.pass ≡ pass }
    {
        ClientOf::of(Owned { pass_pool }, OwnedPass { pass })
    }
}
