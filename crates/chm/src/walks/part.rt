//! A walk over a part of a map: over the buckets of some indexes of a table.
ghost use Rattle.std.specs.Prelude.{◌≡◌, ◌++◌, [], ◌∷◌, List, true, false, IsSomeAnd};
ghost use Rattle.hashkeys.specs.Classes.{ClassView, IsTableSize, covers};
ghost use Rattle.bin_history.specs.Calls.{after};
ghost use Rattle.count_ledger.specs.Fronts.{HasSeen};
ghost use Rattle.bin_store.specs.Places.{tag_of};
ghost use Rattle.part_walks.specs.Parts.{HasWalked, is_at_end};
ghost use Rattle.bin_layout.specs.Places.{AreAt};
ghost use Rattle.chm.specs.Visits.{IsVisit, VisitView};

use crate::map::Map;
use crate::walks::of_class::add_of_bin;
use bin_history::{Remap, Value};
use bin_store::{Held, StoreKind};
use count_ledger::Pass;
use hashkeys::HashKey;
use part_walks::{PartWalk, Taker};
use std::alloc::Allocator;
use std::sync::Wait;

impl<K: HashKey, V: Value, F: Remap<K, V>, A: Allocator + Clone> Map<K, V, F, A> {
    /// Returns the number of buckets of the table that calls go by just now: a power of two, at most
    /// 2^26. Keys of some of its buckets may still lie together in a bucket of a smaller table.
    ///
    ///     map.table_size() == 16
    pub fn table_size(&self) -> u32
        ensures { IsTableSize result }
    {
        self.resizer.table().n()
    }

    /// Gives the taker each entry of the next bucket of a walk over a part of a table, in order,
    /// where it lies, as all calls before had left the bucket, which the pass has then seen. Of a
    /// bucket of a smaller table it gives those entries that are of the next bucket of this one; in
    /// place of a bucket that was divided it gives the first that it became. Nothing is copied,
    /// posted or allocated, so nothing can fail.
    ///
    /// It waits for the bucket, which is locked while the taker runs: a taker that takes long keeps
    /// other clients out of the bucket, and one that calls the map, by whatever pass, deadlocks
    /// where its key is of the same bucket.
    ///
    ///     let mut walk = PartWalk::new(map.table_size(), 0, 1);
    ///     let sum = map.show_part(rt, pass, &mut walk, &Summing, 0);
    pub fn show_part<R: Wait, T: Taker<K, V>>(
        &self,
        rt: &R,
        pass: &mut Pass<K, V, F>,
        walk: &mut PartWalk,
        taker: &T,
        part: T::Part,
    ) -> T::Part
        requires pass { pass.old.ledger ≡ self.now.ledger.id }
        requires more { is_at_end walk.old ≡ false }
        requires part { (es : List (K × V)) × T.reached taker.now es part }
        ensures shown { (v : VisitView K V)
            × HasSeen K.eq (after V.eq F.remapped F.merged) self.now.ledger pass.old pass.new
            × IsVisit K.eq K.code self.now.ledger pass.new.seen v
            × ((es : List (K × V)) → T.reached taker.now es part →
            T.reached taker.now (es ++ v.entries) result)
            × ((classes : List ClassView) → HasWalked walk.old classes →
            HasWalked walk.new (classes ++ v.class ∷ [])) }
        ensures n { walk.new.n ≡ walk.old.n }
        ensures lo { walk.new.lo ≡ walk.old.lo }
        ensures hi { walk.new.hi ≡ walk.old.hi }
    {
        let next = walk.next();
        match &self.bins.kind {
            StoreKind::Recorded(_) => self.part_elsewhere(rt, pass, walk, taker, part),
            StoreKind::Lean(home) => {
                let held = home.hold_in_place(rt, next.index());
                self.part_guarded(held, pass, walk, taker, part)
            }
        }
    }

    /// Does what `part_recorded` does, and is inlined: what that function returns lies in memory then on this
    /// way alone.
    #[inline(always)]
    fn part_elsewhere<R: Wait, T: Taker<K, V>>(
        &self,
        rt: &R,
        pass: &mut Pass<K, V, F>,
        walk: &mut PartWalk,
        taker: &T,
        part: T::Part,
    ) -> T::Part
        requires pass { pass.old.ledger ≡ self.now.ledger.id }
        requires more { is_at_end walk.old ≡ false }
        requires part { (es : List (K × V)) × T.reached taker.now es part }
        ensures shown { (v : VisitView K V)
            × HasSeen K.eq (after V.eq F.remapped F.merged) self.now.ledger pass.old pass.new
            × IsVisit K.eq K.code self.now.ledger pass.new.seen v
            × ((es : List (K × V)) → T.reached taker.now es part →
            T.reached taker.now (es ++ v.entries) result)
            × ((classes : List ClassView) → HasWalked walk.old classes →
            HasWalked walk.new (classes ++ v.class ∷ [])) }
        ensures n { walk.new.n ≡ walk.old.n }
        ensures lo { walk.new.lo ≡ walk.old.lo }
        ensures hi { walk.new.hi ≡ walk.old.hi }
    {
        self.part_recorded(rt, pass, walk, taker, part)
    }

    /// Does what `show_part` does in a bucket that is taken out to lock it. It is not inlined, so that the
    /// bucket does not lie among the locals of a walk that leaves it where it is.
    #[cold]
    #[inline(never)]
    fn part_recorded<R: Wait, T: Taker<K, V>>(
        &self,
        rt: &R,
        pass: &mut Pass<K, V, F>,
        walk: &mut PartWalk,
        taker: &T,
        part: T::Part,
    ) -> T::Part
        requires pass { pass.old.ledger ≡ self.now.ledger.id }
        requires more { is_at_end walk.old ≡ false }
        requires part { (es : List (K × V)) × T.reached taker.now es part }
        ensures shown { (v : VisitView K V)
            × HasSeen K.eq (after V.eq F.remapped F.merged) self.now.ledger pass.old pass.new
            × IsVisit K.eq K.code self.now.ledger pass.new.seen v
            × ((es : List (K × V)) → T.reached taker.now es part →
            T.reached taker.now (es ++ v.entries) result)
            × ((classes : List ClassView) → HasWalked walk.old classes →
            HasWalked walk.new (classes ++ v.class ∷ [])) }
        ensures n { walk.new.n ≡ walk.old.n }
        ensures lo { walk.new.lo ≡ walk.old.lo }
        ensures hi { walk.new.hi ≡ walk.old.hi }
    {
        let held = self.bins.hold(rt, walk.next().index());
        self.part_held(held, pass, walk, taker, part)
    }

    /// Gives the taker what is next of a bucket that was taken out to lock it, goes past it and puts the
    /// bucket back.
    fn part_held<T: Taker<K, V>>(
        &self,
        mut held: Held<'_, K, V, F, A>,
        pass: &mut Pass<K, V, F>,
        walk: &mut PartWalk,
        taker: &T,
        part: T::Part,
    ) -> T::Part
        requires pass { pass.old.ledger ≡ self.now.ledger.id }
        requires more { is_at_end walk.old ≡ false }
        requires covers { IsSomeAnd walk.old.next (λ next. covers held.bin.class next.index ≡ true) }
        requires at { AreAt K.eq (after V.eq F.remapped F.merged) (tag_of held.place) held.bin
            held.role }
        requires ledger { held.role.ledger ≡ self.now.ledger.id }
        requires salt { held.bin.salt ≡ self.now.ledger.salt }
        requires part { (es : List (K × V)) × T.reached taker.now es part }
        ensures shown { (v : VisitView K V)
            × HasSeen K.eq (after V.eq F.remapped F.merged) self.now.ledger pass.old pass.new
            × IsVisit K.eq K.code self.now.ledger pass.new.seen v
            × ((es : List (K × V)) → T.reached taker.now es part →
            T.reached taker.now (es ++ v.entries) result)
            × ((classes : List ClassView) → HasWalked walk.old classes →
            HasWalked walk.new (classes ++ v.class ∷ [])) }
        ensures n { walk.new.n ≡ walk.old.n }
        ensures lo { walk.new.lo ≡ walk.old.lo }
        ensures hi { walk.new.hi ≡ walk.old.hi }
    {
        let lent = &mut held;
        let bin = &lent.bin;
        bin.lawful();
        let class = walk.class_in(bin.class());
        let more = add_of_bin(taker, part, bin, class);
        self.observe_bin(pass, bin, &mut lent.role);
        held.release();
        walk.go_past(class);
        more
    }
}
