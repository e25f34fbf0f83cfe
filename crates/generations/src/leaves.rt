//! The bins of a map that nobody else has, taken out in walk order.
ghost use Rattle.std.specs.Prelude.{◌≡◌, true, All, IsTrue, IfSome, [], ◌∷◌, ◌++◌};
ghost use Rattle.bin_history.specs.Calls.{after};
ghost use Rattle.count_ledger.specs.Books.{classes_of_roles};
ghost use Rattle.bin_layout.specs.BinsWithRoles.{IsBinWithRole, AreBinsWithRoles, classes_of_bins};
ghost use Rattle.bin_layout.specs.Views.{IsPlaceOf};
ghost use Rattle.bin_layout.specs.Walks.{IsWalk};
ghost use Rattle.generations.specs.Generations.{FitsForm};

use crate::generations::Generations;
use crate::place::Place;
use bin_history::{Bin, Remap, Value};
use bin_layout::{Room, next_in_walk};
use count_ledger::BinRole;
use hashkeys::{Class, HashKey, MOST_BINS};
use std::alloc::{AllocError, Allocator};

impl<K: HashKey, V: Value, F: Remap<K, V>, A: Allocator + Clone> Generations<K, V, F, A> {
    /// How many bins there are.
    fn count_bins(&self) -> u32 {
        let n = self.n();
        let mut next = Class::new(n, 0);
        for before in 0..MOST_BINS {
            let (_place, class) = self.find(next.index());
            match next_in_walk(n, class) {
                Some(class) => next = class,
                None => return before + 1,
            }
        }
        MOST_BINS
    }

    /// The bin of a place, with its role. Nothing stays there.
    fn take_bin(&self, place: &Place<K, V, F, A>) -> Option<(Bin<K, V, F, A>, BinRole<K, V, F>)>
        requires { IsPlaceOf self.now place.now }
        ensures class { IfSome result (λ p. p.0.class ≡ place.now.class) }
        ensures with_role { IfSome result
            (λ p. IsBinWithRole K.eq K.code (after V.eq F.remapped F.merged) self.now p.0 p.1) }
    {
        Some(self.try_hold_at(place)?.take())
    }

    /// Takes all bins. False where one is missing, or there are more than there is room for.
    fn take_all(
        &self,
        bins: &mut Vec<Bin<K, V, F, A>, A>,
        roles: &mut Vec<BinRole<K, V, F>, A>,
    ) -> bool
        requires bins { bins.old.items ≡ [] }
        requires roles { roles.old.items ≡ [] }
        ensures walk { IsTrue result → IsWalk self.now.n (classes_of_bins bins.new.items) }
        ensures with_roles { IsTrue result →
            AreBinsWithRoles K.eq K.code (after V.eq F.remapped F.merged) self.now bins.new.items
            roles.new.items }
        ensures few { IsTrue result → All (λ b. FitsForm self.now b.class.n) bins.new.items }
    {
        let n = self.n();
        let mut next = Class::new(n, 0);
        while bins.len() < bins.capacity() && roles.len() < roles.capacity() {
            let (place, class) = self.find(next.index());
            if class.n() < next.n() {
                return false;
            }
            let Some((bin, role)) = self.take_bin(place) else {
                return false;
            };
            bins.push_reserved(bin);
            roles.push_reserved(role);
            match next_in_walk(n, class) {
                Some(class) => next = class,
                None => return true,
            }
        }
        false
    }

    /// Room for the bins and their roles. None of them is taken out.
    ///
    /// # Errors
    ///
    /// `AllocError` when out of memory.
    pub fn room_for_leaves(&self) -> Result<Room<K, V, F, A>, AllocError> {
        Room::new(self.allocator(), self.count_bins())
    }

    /// Takes out the bins in walk order and, place by place, their roles, into the room that
    /// `room_for_leaves` made. It waits for nobody and takes no memory. It returns none, and the bins
    /// are gone, where one is missing, or there are more of them than the room was made for: where
    /// the map was in use meanwhile.
    pub fn into_leaves(
        self,
        room: Room<K, V, F, A>,
    ) -> Option<(Vec<Bin<K, V, F, A>, A>, Vec<BinRole<K, V, F>, A>)>
        ensures walk { IfSome result (λ p. IsWalk self.n (classes_of_bins p.0.items)) }
        ensures with_roles { IfSome result
            (λ p. AreBinsWithRoles K.eq K.code (after V.eq F.remapped F.merged) self
            p.0.items p.1.items) }
        ensures classes { IfSome result
            (λ p. classes_of_roles p.1.items ≡ classes_of_bins p.0.items) }
        ensures few { IfSome result (λ p. All (λ b. FitsForm self b.class.n) p.0.items) }
    {
        let Room {
            mut bins,
            mut roles,
        } = room;
        if self.take_all(&mut bins, &mut roles) {
            Some((bins, roles))
        } else {
            None
        }
    }
}
