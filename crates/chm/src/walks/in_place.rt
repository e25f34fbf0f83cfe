//! Steps of a walk at a lean bucket that is locked where it lies: nothing is taken out.
ghost use Rattle.std.specs.Prelude.{◌≡◌, ◌++◌, [], ◌∷◌, ℕ, List, Some, true, false, IfOk, IsSomeAnd, OnErr};
ghost use Rattle.std.specs.List.{FoldsTo};
ghost use Rattle.hashkeys.specs.Classes.{ClassView, covers};
ghost use Rattle.bin_history.specs.Calls.{after};
ghost use Rattle.bin_history.specs.Leans.{as_bin};
ghost use Rattle.lock_table.specs.Taken.{taken};
ghost use Rattle.count_ledger.specs.Fronts.{HasSeen};
ghost use Rattle.bin_layout.specs.Views.{place_of};
ghost use Rattle.lean_bins.specs.BinSlot.{IsInSlot};
ghost use Rattle.part_walks.specs.Parts.{HasWalked, IsFirstOf, is_at_end};
ghost use Rattle.chm.specs.Cursors.{HasCome, IsUsedAt};
ghost use Rattle.chm.specs.Histories.{IsMet};
ghost use Rattle.chm.specs.Views.{bins_of};
ghost use Rattle.chm.specs.Visits.{IsVisit, VisitView};

use crate::map::Map;
use crate::walks::cursor::Cursor;
use crate::walks::of_class::{copies_of_entries, use_at_class};
use crate::walks::visit::Visit;
use bin_history::{Remap, Value, lawful_entries};
use count_ledger::Pass;
use hashkeys::{Class, HashKey};
use lean_bins::{BinGuard, BinSlot};
use part_walks::{PartWalk, Taker, narrower, show_entries};
use std::alloc::{AllocError, Allocator};

impl<K: HashKey, V: Value, F: Remap<K, V>, A: Allocator + Clone> Map<K, V, F, A> {
    /// The pass sees all calls so far, and what lies at the place of a lean bucket of the class is what
    /// they left in its class.
    #[inline(always)]
    pub(crate) fn observe_in_place(
        &self,
        pass: &mut Pass<K, V, F>,
        bin_slot: &mut BinSlot<K, V, F, A>,
        class: Class,
    )
        requires pass { pass.old.ledger ≡ self.now.ledger.id }
        requires lies { IsInSlot K.eq (after V.eq F.remapped F.merged)
            (place_of (bins_of self.now) class) bin_slot.old }
        ensures seen { HasSeen K.eq (after V.eq F.remapped F.merged) self.now.ledger pass.old
            pass.new }
        ensures met { IsMet K.eq K.code self.now.ledger pass.new.seen (as_bin bin_slot.old.entries) }
        ensures lies { IsInSlot K.eq (after V.eq F.remapped F.merged)
            (place_of (bins_of self.now) class) bin_slot.new }
    {
        lawful_entries::<K, V, F, A>(&bin_slot.entries);
        let mut role = bin_slot.take_role(class);
        self.ledger.meet(pass, &mut role);
        bin_slot.put_role(role);
    }

    /// Copies those entries at the place of a lean bucket of its own class that are of another one.
    #[inline(always)]
    fn copies_in_place(
        &self,
        pass: &mut Pass<K, V, F>,
        bin_slot: &mut BinSlot<K, V, F, A>,
        own: Class,
        class: Class,
    ) -> Result<Vec<(K, V), A>, AllocError>
        requires pass { pass.old.ledger ≡ self.now.ledger.id }
        requires lies { IsInSlot K.eq (after V.eq F.remapped F.merged)
            (place_of (bins_of self.now) own) bin_slot.old }
        requires within { (hash : ℕ) → covers class hash ≡ true → covers own hash ≡ true }
        ensures seen { HasSeen K.eq (after V.eq F.remapped F.merged) self.now.ledger pass.old
            pass.new }
        ensures visit { IfOk result (λ copies. IsVisit K.eq K.code self.now.ledger pass.new.seen
            (record { class = class; entries = copies.items })) }
        ensures lies { IsInSlot K.eq (after V.eq F.remapped F.merged)
            (place_of (bins_of self.now) own) bin_slot.new }
    {
        lawful_entries::<K, V, F, A>(&bin_slot.entries);
        let alloc = self.resizer.allocator();
        let copies = copies_of_entries(alloc, &bin_slot.entries, self.salt(), own, class);
        self.observe_in_place(pass, bin_slot, own);
        copies
    }

    /// Gives the function those entries at the place of a lean bucket of its own class that are of
    /// another one.
    #[inline(always)]
    fn use_in_place<G: FnMut(&K, &V)>(
        &self,
        pass: &mut Pass<K, V, F>,
        bin_slot: &mut BinSlot<K, V, F, A>,
        own: Class,
        class: Class,
        f: &mut G,
    )
        requires callable { G.IsAlwaysCallable f.old }
        requires pass { pass.old.ledger ≡ self.now.ledger.id }
        requires lies { IsInSlot K.eq (after V.eq F.remapped F.merged)
            (place_of (bins_of self.now) own) bin_slot.old }
        requires within { (hash : ℕ) → covers class hash ≡ true → covers own hash ≡ true }
        ensures seen { HasSeen K.eq (after V.eq F.remapped F.merged) self.now.ledger pass.old
            pass.new }
        ensures shown { (es : List (K × V))
            × IsVisit K.eq K.code self.now.ledger pass.new.seen (record { class = class; entries = es })
            × FoldsTo (IsUsedAt G.step) f.old es f.new }
        ensures callable { G.IsAlwaysCallable f.new }
        ensures lies { IsInSlot K.eq (after V.eq F.remapped F.merged)
            (place_of (bins_of self.now) own) bin_slot.new }
    {
        lawful_entries::<K, V, F, A>(&bin_slot.entries);
        use_at_class(bin_slot.entries.walk(), self.salt(), own, class, f);
        self.observe_in_place(pass, bin_slot, own);
    }

    /// Gives the taker those entries at the place of a lean bucket of its own class that are of
    /// another one.
    #[inline(always)]
    fn add_in_place<T: Taker<K, V>>(
        &self,
        pass: &mut Pass<K, V, F>,
        bin_slot: &mut BinSlot<K, V, F, A>,
        own: Class,
        class: Class,
        taker: &T,
        part: T::Part,
    ) -> T::Part
        requires pass { pass.old.ledger ≡ self.now.ledger.id }
        requires lies { IsInSlot K.eq (after V.eq F.remapped F.merged)
            (place_of (bins_of self.now) own) bin_slot.old }
        requires within { (hash : ℕ) → covers class hash ≡ true → covers own hash ≡ true }
        requires part { (es : List (K × V)) × T.reached taker.now es part }
        ensures seen { HasSeen K.eq (after V.eq F.remapped F.merged) self.now.ledger pass.old
            pass.new }
        ensures shown { (es : List (K × V))
            × IsVisit K.eq K.code self.now.ledger pass.new.seen (record { class = class; entries = es })
            × ((before : List (K × V)) → T.reached taker.now before part →
            T.reached taker.now (before ++ es) result) }
        ensures lies { IsInSlot K.eq (after V.eq F.remapped F.merged)
            (place_of (bins_of self.now) own) bin_slot.new }
    {
        lawful_entries::<K, V, F, A>(&bin_slot.entries);
        let walk = bin_slot.entries.walk();
        let more = show_entries(taker, part, walk, self.salt(), own, class);
        self.observe_in_place(pass, bin_slot, own);
        more
    }

    /// Copies those entries of a locked lean bucket that are of the class that is next, or of the first
    /// that it has become; goes past them and unlocks the bucket.
    #[inline(always)]
    pub(crate) fn visit_guarded(
        &self,
        mut held: BinGuard<'_, K, V, F, A>,
        pass: &mut Pass<K, V, F>,
        cursor: &mut Cursor,
        next: Class,
    ) -> Result<Visit<K, V, A>, AllocError>
        requires pass { pass.old.ledger ≡ self.now.ledger.id }
        requires next { cursor.old.next ≡ Some next }
        requires lies { IsSomeAnd (taken held.inner.seat.me.1)
            (IsInSlot K.eq (after V.eq F.remapped F.merged) (place_of held.home.now held.class)) }
        requires home { held.home.now ≡ bins_of self.now }
        requires covers { covers held.class next.index ≡ true }
        ensures seen { HasSeen K.eq (after V.eq F.remapped F.merged) self.now.ledger pass.old
            pass.new }
        ensures visit { IfOk result (IsVisit K.eq K.code self.now.ledger pass.new.seen) }
        ensures first { IfOk result (λ v. IsFirstOf next v.class) }
        ensures come { (shown : List (VisitView K V)) → HasCome cursor.old shown →
            IfOk result (λ v. HasCome cursor.new (shown ++ v ∷ [])) }
        ensures n { cursor.new.n ≡ cursor.old.n }
        ensures same { OnErr result (cursor.new ≡ cursor.old) }
    {
        let own = held.class;
        let class = narrower(next, own);
        let copies = self.copies_in_place(pass, held.inner.value(), own, class);
        held.release();
        let entries = copies?;
        cursor.go_past(class);
        Ok(Visit { class, entries })
    }

    /// Gives the function those entries of a locked lean bucket that are of the class that is next, or
    /// of the first that it has become; goes past them and unlocks the bucket.
    #[inline(always)]
    pub(crate) fn show_guarded<G: FnMut(&K, &V)>(
        &self,
        mut held: BinGuard<'_, K, V, F, A>,
        pass: &mut Pass<K, V, F>,
        cursor: &mut Cursor,
        next: Class,
        f: &mut G,
    )
        requires callable { G.IsAlwaysCallable f.old }
        requires pass { pass.old.ledger ≡ self.now.ledger.id }
        requires next { cursor.old.next ≡ Some next }
        requires lies { IsSomeAnd (taken held.inner.seat.me.1)
            (IsInSlot K.eq (after V.eq F.remapped F.merged) (place_of held.home.now held.class)) }
        requires home { held.home.now ≡ bins_of self.now }
        requires covers { covers held.class next.index ≡ true }
        ensures shown { (v : VisitView K V)
            × HasSeen K.eq (after V.eq F.remapped F.merged) self.now.ledger pass.old pass.new
            × IsVisit K.eq K.code self.now.ledger pass.new.seen v
            × FoldsTo (IsUsedAt G.step) f.old v.entries f.new
            × ((shown : List (VisitView K V)) → HasCome cursor.old shown →
            HasCome cursor.new (shown ++ v ∷ [])) }
        ensures callable { G.IsAlwaysCallable f.new }
        ensures n { cursor.new.n ≡ cursor.old.n }
    {
        let own = held.class;
        let class = narrower(next, own);
        self.use_in_place(pass, held.inner.value(), own, class, f);
        held.release();
        cursor.go_past(class);
    }

    /// Gives the taker what is next of a locked lean bucket, goes past it and unlocks the bucket.
    #[inline(always)]
    pub(crate) fn part_guarded<T: Taker<K, V>>(
        &self,
        mut held: BinGuard<'_, K, V, F, A>,
        pass: &mut Pass<K, V, F>,
        walk: &mut PartWalk,
        taker: &T,
        part: T::Part,
    ) -> T::Part
        requires pass { pass.old.ledger ≡ self.now.ledger.id }
        requires more { is_at_end walk.old ≡ false }
        requires lies { IsSomeAnd (taken held.inner.seat.me.1)
            (IsInSlot K.eq (after V.eq F.remapped F.merged) (place_of held.home.now held.class)) }
        requires home { held.home.now ≡ bins_of self.now }
        requires covers { IsSomeAnd walk.old.next (λ next. covers held.class next.index ≡ true) }
        requires part { (es : List (K × V)) × T.reached taker.now es part }
        ensures shown { (v : VisitView K V)
            × HasSeen K.eq (after V.eq F.remapped F.merged) self.now.ledger pass.old pass.new
            × IsVisit K.eq K.code self.now.ledger pass.new.seen v
            × ((es : List (K × V)) → T.reached taker.now es part →
            T.reached taker.now (es ++ v.entries) result)
            × ((classes : List ClassView) → HasWalked walk.old classes →
            HasWalked walk.new (classes ++ v.class ∷ [])) }
        ensures n { walk.new.n ≡ walk.old.n }
        ensures lo { walk.new.lo ≡ walk.old.lo }
        ensures hi { walk.new.hi ≡ walk.old.hi }
    {
        let own = held.class;
        let class = walk.class_in(own);
        let more = self.add_in_place(pass, held.inner.value(), own, class, taker, part);
        held.release();
        walk.go_past(class);
        more
    }
}
