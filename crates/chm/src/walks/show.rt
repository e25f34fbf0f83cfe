//! Steps of a walk that give a function the entries of a bucket where they lie.
ghost use Rattle.std.specs.Prelude.{◌≡◌, ◌++◌, [], ◌∷◌, List, Some, None, true, false};
ghost use Rattle.std.specs.List.{FoldsTo};
ghost use Rattle.hashkeys.specs.Classes.{covers};
ghost use Rattle.bin_history.specs.Calls.{after};
ghost use Rattle.count_ledger.specs.Fronts.{HasSeen};
ghost use Rattle.bin_store.specs.Places.{tag_of};
ghost use Rattle.bin_layout.specs.Places.{AreAt};
ghost use Rattle.chm.specs.Cursors.{HasCome, IsUsedAt};
ghost use Rattle.chm.specs.Visits.{IsVisit, VisitView};

use crate::map::Map;
use crate::walks::cursor::Cursor;
use crate::walks::of_class::use_at_bin;
use bin_history::{Remap, Value};
use bin_store::{Held, StoreKind};
use count_ledger::Pass;
use hashkeys::{Class, HashKey};
use part_walks::narrower;
use std::alloc::Allocator;
use std::sync::Wait;

impl<K: HashKey, V: Value, F: Remap<K, V>, A: Allocator + Clone> Map<K, V, F, A> {
    /// Gives the function each entry of the next bucket of a walk, in order, where it lies, as all
    /// calls before had left the bucket, which the pass has then seen. Returns whether there was a
    /// bucket left, empty ones among them: false is the end of the walk. Nothing is copied, posted or
    /// allocated, so nothing can fail. In all else it is a step of a walk as `visit_next` is.
    ///
    /// It waits for the bucket, which is locked while the function runs: a function that takes long
    /// keeps other clients out of the bucket, and one that calls the map, by whatever pass, deadlocks
    /// where its key is of the same bucket.
    ///
    ///     let mut cursor = map.cursor();
    ///     let mut most = 0;
    ///     let mut look = |_key: &u64, value: &u64| most = most.max(*value);
    ///     let some = map.show_next(rt, pass, &mut cursor, &mut look);
    ///     some && most <= 5
    pub fn show_next<R: Wait, G: FnMut(&K, &V)>(
        &self,
        rt: &R,
        pass: &mut Pass<K, V, F>,
        cursor: &mut Cursor,
        f: &mut G,
    ) -> bool
        requires callable { G.IsAlwaysCallable f.old }
        requires pass { pass.old.ledger ≡ self.now.ledger.id }
        ensures shown { result ≡ true → (v : VisitView K V)
            × HasSeen K.eq (after V.eq F.remapped F.merged) self.now.ledger pass.old pass.new
            × IsVisit K.eq K.code self.now.ledger pass.new.seen v
            × FoldsTo (IsUsedAt G.step) f.old v.entries f.new
            × ((shown : List (VisitView K V)) → HasCome cursor.old shown →
            HasCome cursor.new (shown ++ v ∷ [])) }
        ensures end { result ≡ false → (cursor.old.next ≡ None) × (pass.new ≡ pass.old)
            × (f.new ≡ f.old) × (cursor.new ≡ cursor.old) }
        ensures callable { G.IsAlwaysCallable f.new }
        ensures n { cursor.new.n ≡ cursor.old.n }
    {
        let Some(next) = cursor.next else {
            return false;
        };
        self.show_class(rt, pass, cursor, next, f);
        true
    }

    /// Waits for the bucket of the class that is next, gives the function those of its entries that are
    /// of the class or of the first that it has become, and goes past them.
    #[inline(always)]
    fn show_class<R: Wait, G: FnMut(&K, &V)>(
        &self,
        rt: &R,
        pass: &mut Pass<K, V, F>,
        cursor: &mut Cursor,
        next: Class,
        f: &mut G,
    )
        requires callable { G.IsAlwaysCallable f.old }
        requires pass { pass.old.ledger ≡ self.now.ledger.id }
        requires next { cursor.old.next ≡ Some next }
        ensures shown { (v : VisitView K V)
            × HasSeen K.eq (after V.eq F.remapped F.merged) self.now.ledger pass.old pass.new
            × IsVisit K.eq K.code self.now.ledger pass.new.seen v
            × FoldsTo (IsUsedAt G.step) f.old v.entries f.new
            × ((shown : List (VisitView K V)) → HasCome cursor.old shown →
            HasCome cursor.new (shown ++ v ∷ [])) }
        ensures callable { G.IsAlwaysCallable f.new }
        ensures n { cursor.new.n ≡ cursor.old.n }
    {
        match &self.bins.kind {
            StoreKind::Recorded(_) => self.show_recorded(rt, pass, cursor, next, f),
            StoreKind::Lean(home) => {
                let held = home.hold_in_place(rt, next.index());
                self.show_guarded(held, pass, cursor, next, f);
            }
        }
    }

    /// Does what `show_class` does in a bucket that is taken out to lock it. It is not inlined, so that the
    /// bucket does not lie among the locals of a walk that leaves it where it is.
    #[cold]
    #[inline(never)]
    fn show_recorded<R: Wait, G: FnMut(&K, &V)>(
        &self,
        rt: &R,
        pass: &mut Pass<K, V, F>,
        cursor: &mut Cursor,
        next: Class,
        f: &mut G,
    )
        requires callable { G.IsAlwaysCallable f.old }
        requires pass { pass.old.ledger ≡ self.now.ledger.id }
        requires next { cursor.old.next ≡ Some next }
        ensures shown { (v : VisitView K V)
            × HasSeen K.eq (after V.eq F.remapped F.merged) self.now.ledger pass.old pass.new
            × IsVisit K.eq K.code self.now.ledger pass.new.seen v
            × FoldsTo (IsUsedAt G.step) f.old v.entries f.new
            × ((shown : List (VisitView K V)) → HasCome cursor.old shown →
            HasCome cursor.new (shown ++ v ∷ [])) }
        ensures callable { G.IsAlwaysCallable f.new }
        ensures n { cursor.new.n ≡ cursor.old.n }
    {
        let held = self.bins.hold(rt, next.index());
        self.show_held(held, pass, cursor, next, f);
    }

    /// Gives the function those entries of a bucket that was taken out to lock it that are of the class
    /// that is next, or of the first that it has become; goes past them and puts the bucket back.
    fn show_held<G: FnMut(&K, &V)>(
        &self,
        mut held: Held<'_, K, V, F, A>,
        pass: &mut Pass<K, V, F>,
        cursor: &mut Cursor,
        next: Class,
        f: &mut G,
    )
        requires callable { G.IsAlwaysCallable f.old }
        requires pass { pass.old.ledger ≡ self.now.ledger.id }
        requires next { cursor.old.next ≡ Some next }
        requires covers { covers held.bin.class next.index ≡ true }
        requires at { AreAt K.eq (after V.eq F.remapped F.merged) (tag_of held.place) held.bin
            held.role }
        requires ledger { held.role.ledger ≡ self.now.ledger.id }
        requires salt { held.bin.salt ≡ self.now.ledger.salt }
        ensures shown { (v : VisitView K V)
            × HasSeen K.eq (after V.eq F.remapped F.merged) self.now.ledger pass.old pass.new
            × IsVisit K.eq K.code self.now.ledger pass.new.seen v
            × FoldsTo (IsUsedAt G.step) f.old v.entries f.new
            × ((shown : List (VisitView K V)) → HasCome cursor.old shown →
            HasCome cursor.new (shown ++ v ∷ [])) }
        ensures callable { G.IsAlwaysCallable f.new }
        ensures n { cursor.new.n ≡ cursor.old.n }
    {
        let lent = &mut held;
        let bin = &lent.bin;
        bin.lawful();
        let class = narrower(next, bin.class());
        use_at_bin(bin, class, f);
        self.observe_bin(pass, bin, &mut lent.role);
        held.release();
        cursor.go_past(class);
    }
}
