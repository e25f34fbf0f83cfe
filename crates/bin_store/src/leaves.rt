//! The bins of a map that nobody else has, taken out in walk order.
ghost use Rattle.std.specs.Prelude.{◌≡◌, true, All, IfSome};
ghost use Rattle.bin_history.specs.Calls.{after};
ghost use Rattle.count_ledger.specs.Books.{classes_of_roles};
ghost use Rattle.bin_layout.specs.BinsWithRoles.{AreBinsWithRoles, classes_of_bins};
ghost use Rattle.bin_layout.specs.Walks.{IsWalk};
ghost use Rattle.generations.specs.Generations.{FitsForm};

use crate::store::{BinStore, StoreKind};
use bin_history::{Bin, Remap, Value};
use bin_layout::Room;
use count_ledger::BinRole;
use hashkeys::HashKey;
use std::alloc::{AllocError, Allocator};

impl<K: HashKey, V: Value, F: Remap<K, V>, A: Allocator + Clone> BinStore<K, V, F, A> {
    /// Room for the bins and their roles. None of them is taken out.
    ///
    /// # Errors
    ///
    /// `AllocError` when out of memory.
    pub fn room_for_leaves(&self) -> Result<Room<K, V, F, A>, AllocError> {
        match &self.kind {
            StoreKind::Recorded(home) => home.room_for_leaves(),
            StoreKind::Lean(home) => home.room_for_leaves(),
        }
    }

    /// Takes out the bins in walk order and, place by place, their roles, into the room that
    /// `room_for_leaves` made. It waits for nobody and takes no memory. It returns none, and the bins
    /// are gone, where one is missing, or there are more of them than the room was made for: where
    /// the map was in use meanwhile.
    pub fn into_leaves(
        self,
        room: Room<K, V, F, A>,
    ) -> Option<(Vec<Bin<K, V, F, A>, A>, Vec<BinRole<K, V, F>, A>)>
        ensures walk { IfSome result (λ p. IsWalk self.n (classes_of_bins p.0.items)) }
        ensures with_roles { IfSome result
            (λ p. AreBinsWithRoles K.eq K.code (after V.eq F.remapped F.merged) self
            p.0.items p.1.items) }
        ensures classes { IfSome result
            (λ p. classes_of_roles p.1.items ≡ classes_of_bins p.0.items) }
        ensures few { IfSome result (λ p. All (λ b. FitsForm self b.class.n) p.0.items) }
    {
        match self.kind {
            StoreKind::Recorded(home) => home.into_leaves(room),
            StoreKind::Lean(home) => home.into_leaves(room),
        }
    }
}
