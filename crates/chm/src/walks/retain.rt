//! Keeping the entries of a map that a function says are to stay, and removing the others, bucket by
//! bucket.
use crate::fault::Fault;
use crate::map::Map;
use crate::walks::cursor::Cursor;
use crate::walks::not_retained::NotRetained;
use bin_history::{Remap, Value};
use bin_store::StoreKind;
use count_ledger::Pass;
use hashkeys::{Class, HashKey};
use part_walks::narrower;
use std::alloc::Allocator;
use std::sync::Wait;

impl<K: HashKey, V: Value, F: Remap<K, V>, A: Allocator + Clone> Map<K, V, F, A> {
    ghost use Rattle.std.specs.Prelude.{◌≡◌, ◌+◌, ◌++◌, [], ◌∷◌, List, length, Some, None};
    ghost use Rattle.std.specs.Prelude.{IfErr, IfNone, IfOk, IfSome, IsOk, IsSomeAnd, OnOk};
    ghost use Rattle.hashkeys.specs.Classes.{ClassView};
    ghost use Rattle.bin_history.specs.Calls.{after};
    ghost use Rattle.bin_history.specs.Sure.{IsNeverRefused};
    ghost use Rattle.bin_history.specs.declared.form.Form.TheVariants.{Lean};
    ghost use Rattle.chm.specs.Cleared.{HasRemoved};
    ghost use Rattle.chm.specs.Cursors.{HasPassed};
    ghost use Rattle.chm.specs.Refusals.{IsOfCall};
    ghost use Rattle.chm.specs.Retained.{HasStoppedAt, IsRetained, IsRetainedBy, IsRetainedIn, IsStopped};
    ghost use Rattle.chm.specs.Retained.{IsStoppedBy};
    ghost use Rattle.chm.specs.Sure.{IsMadeOrFull};

    /// Waits for the bucket of the class that is next, and goes through those of its entries that are of
    /// the class or of the first that it has become: removes those for which the function returns false
    /// and, where no call failed, goes past them.
    fn retain_class<R: Wait, G: FnMut(&K, &V) -> bool>(
        &self,
        rt: &R,
        pass: &mut Pass<K, V, F>,
        cursor: &mut Cursor,
        next: Class,
        keeps: &mut G,
    ) -> Result<(), Fault>
        requires callable { G.IsAlwaysCallable keeps.old }
        requires pass { pass.old.ledger ≡ self.now.ledger.id }
        requires next { cursor.old.next ≡ Some next }
        ensures kept { OnOk result ((class : ClassView)
            × IsRetainedIn G.step K.eq K.code (after V.eq F.remapped F.merged) self.now.ledger class
            keeps.old pass.old keeps.new pass.new
            × ((classes : List ClassView) → HasPassed cursor.old classes →
            HasPassed cursor.new (classes ++ class ∷ []))) }
        ensures stopped { IfErr result (λ fault. IsSomeAnd cursor.old.next (λ at.
            HasStoppedAt G.step K.eq K.code (after V.eq F.remapped F.merged) self.now.ledger fault at
            keeps.old pass.old keeps.new pass.new) × (cursor.new ≡ cursor.old)) }
        ensures removed { HasRemoved pass.old pass.new }
        ensures callable { G.IsAlwaysCallable keeps.new }
        ensures n { cursor.new.n ≡ cursor.old.n }
        ensures sure { self.now.ledger.form ≡ Lean → IsNeverRefused K.is_infallible →
            IsMadeOrFull result }
        ensures faults { IfErr result IsOfCall }
    {
        match &self.bins.kind {
            StoreKind::Recorded(_) => {
                let held = self.bins.hold(rt, next.index());
                let class = narrower(next, held.bin.class());
                self.retain_held(rt, held, pass, cursor, class, keeps)
            }
            StoreKind::Lean(home) => {
                let held = home.hold_in_place(rt, next.index());
                self.retain_guarded(rt, held, pass, cursor, next, keeps)
            }
        }
    }

    /// Calls the function once for each entry of the next bucket of a walk, in order, and removes each
    /// for which it returns false: that is a remove in the order of calls. Returns how many it removed;
    /// none at the end of the walk, where there is no bucket left. Steps with a cursor of its own remove
    /// entries in slices; other calls, of others and of the pass's own client, may come between two
    /// steps.
    ///
    /// It waits for the bucket, which is locked while the function runs: a function that takes long
    /// keeps other clients out of the bucket, and one that calls the map, by whatever pass, deadlocks
    /// where its key is of the same bucket. Each key that is removed is copied.
    ///
    ///     let mut cursor = map.cursor();
    ///     map.retain_next(rt, pass, &mut cursor, &mut |_key: &u64, value: &u64| *value > 5)?
    ///
    /// # Errors
    ///
    /// `PassFull` where the pass has made all the calls that it may and an entry is left: the function
    /// is not called for it. `NoMemory` where an entry is to be removed: in a lean map only where a
    /// key's copy asks for memory. The removes made before that stand, and are counted in the error.
    /// The cursor is as it was: the same bucket is next, and the function is called anew for what is
    /// left of it.
    pub fn retain_next<R: Wait, G: FnMut(&K, &V) -> bool>(
        &self,
        rt: &R,
        pass: &mut Pass<K, V, F>,
        cursor: &mut Cursor,
        keeps: &mut G,
    ) -> Result<Option<u64>, NotRetained>
        requires callable { G.IsAlwaysCallable keeps.old }
        requires pass { pass.old.ledger ≡ self.now.ledger.id }
        ensures kept { IfOk result (λ some. IfSome some (λ _. (class : ClassView)
            × IsRetainedIn G.step K.eq K.code (after V.eq F.remapped F.merged) self.now.ledger class
            keeps.old pass.old keeps.new pass.new
            × ((classes : List ClassView) → HasPassed cursor.old classes →
            HasPassed cursor.new (classes ++ class ∷ [])))) }
        ensures count { IfOk result (λ some. IfSome some (λ n.
            length pass.new.made ≡ length pass.old.made + n)) }
        ensures end { IfOk result (λ some. IfNone some ((cursor.old.next ≡ None)
            × (pass.new ≡ pass.old) × (cursor.new ≡ cursor.old) × (keeps.new ≡ keeps.old))) }
        ensures stopped { IfErr result (λ e. IsSomeAnd cursor.old.next (λ next.
            HasStoppedAt G.step K.eq K.code (after V.eq F.remapped F.merged) self.now.ledger e.fault next
            keeps.old pass.old keeps.new pass.new) × (cursor.new ≡ cursor.old)) }
        ensures stopped_count { IfErr result (λ e.
            length pass.new.made ≡ length pass.old.made + e.removed) }
        ensures removed { HasRemoved pass.old pass.new }
        ensures callable { G.IsAlwaysCallable keeps.new }
        ensures n { cursor.new.n ≡ cursor.old.n }
        ensures ended { cursor.old.next ≡ None → IsOk result }
        ensures sure { self.now.ledger.form ≡ Lean → IsNeverRefused K.is_infallible →
            IfErr result (λ e. e.fault ≡ Fault.PassFull) }
        ensures faults { IfErr result (λ e. IsOfCall e.fault) }
    {
        let Some(next) = cursor.next else {
            return Ok(None);
        };
        let before = pass.made();
        let done = self.retain_class(rt, pass, cursor, next, keeps);
        let removed = pass.made() - before;
        match done {
            Ok(()) => Ok(Some(removed)),
            Err(fault) => Err(NotRetained { fault, removed }),
        }
    }

    /// Goes through the buckets of a walk from its beginning, and does in each what `retain_next` does.
    fn retain_walk<R: Wait, G: FnMut(&K, &V) -> bool>(
        &self,
        rt: &R,
        pass: &mut Pass<K, V, F>,
        start: Cursor,
        keeps: &mut G,
    ) -> Result<(), Fault>
        requires callable { G.IsAlwaysCallable keeps.old }
        requires pass { pass.old.ledger ≡ self.now.ledger.id }
        requires begun { HasPassed start [] }
        ensures retained { OnOk result (IsRetainedBy G.step K.eq K.code
            (after V.eq F.remapped F.merged) self.now.ledger start.n keeps.old pass.old keeps.new
            pass.new) }
        ensures stopped { IfErr result (λ fault. IsStoppedBy G.step K.eq K.code
            (after V.eq F.remapped F.merged) self.now.ledger start.n fault keeps.old pass.old keeps.new
            pass.new) }
        ensures removed { HasRemoved pass.old pass.new }
        ensures callable { G.IsAlwaysCallable keeps.new }
        ensures sure { self.now.ledger.form ≡ Lean → IsNeverRefused K.is_infallible →
            IsMadeOrFull result }
        ensures faults { IfErr result IsOfCall }
    {
        let mut cursor = start;
        for _ in rt.forever() {
            let Some(next) = cursor.next else {
                return Ok(());
            };
            self.retain_class(rt, pass, &mut cursor, next, keeps)?;
        }
        unreachable!()
    }

    /// Does what `retain_walk` does, and counts the entries that it removed.
    pub(crate) fn retain_from<R: Wait, G: FnMut(&K, &V) -> bool>(
        &self,
        rt: &R,
        pass: &mut Pass<K, V, F>,
        start: Cursor,
        keeps: &mut G,
    ) -> Result<u64, NotRetained>
        requires callable { G.IsAlwaysCallable keeps.old }
        requires pass { pass.old.ledger ≡ self.now.ledger.id }
        requires begun { HasPassed start [] }
        ensures retained { OnOk result (IsRetainedBy G.step K.eq K.code
            (after V.eq F.remapped F.merged) self.now.ledger start.n keeps.old pass.old keeps.new
            pass.new) }
        ensures count { IfOk result (λ n. length pass.new.made ≡ length pass.old.made + n) }
        ensures stopped { IfErr result (λ e. IsStoppedBy G.step K.eq K.code
            (after V.eq F.remapped F.merged) self.now.ledger start.n e.fault keeps.old pass.old keeps.new
            pass.new) }
        ensures stopped_count { IfErr result (λ e.
            length pass.new.made ≡ length pass.old.made + e.removed) }
        ensures removed { HasRemoved pass.old pass.new }
        ensures callable { G.IsAlwaysCallable keeps.new }
        ensures sure { self.now.ledger.form ≡ Lean → IsNeverRefused K.is_infallible →
            IfErr result (λ e. e.fault ≡ Fault.PassFull) }
        ensures faults { IfErr result (λ e. IsOfCall e.fault) }
    {
        let before = pass.made();
        let done = self.retain_walk(rt, pass, start, keeps);
        let removed = pass.made() - before;
        match done {
            Ok(()) => Ok(removed),
            Err(fault) => Err(NotRetained { fault, removed }),
        }
    }

    /// Calls the function once for each entry, bucket by bucket as a walk by a cursor goes, each bucket
    /// under one lock, and removes each entry for which it returns false: that is a remove in the order
    /// of calls, and the removes of a bucket come in the order of its entries. Returns how many entries
    /// it removed. Others may put new entries into buckets that were left. It waits for each bucket in
    /// turn, and does in each what `retain_next` does.
    ///
    ///     map.put(rt, pass, 1, 5)?;
    ///     map.retain(rt, pass, &mut |_key: &u64, value: &u64| *value > 5)? == 1
    ///     map.get(rt, pass, 1)? == Reply::Value(None)
    ///
    /// # Errors
    ///
    /// `PassFull` where the pass has made all the calls that it may and an entry is left: the function
    /// is not called for it. `NoMemory` where an entry is to be removed: in a lean map only where a
    /// key's copy asks for memory. The removes made before that stand, and are counted in the error.
    pub fn retain<R: Wait, G: FnMut(&K, &V) -> bool>(
        &self,
        rt: &R,
        pass: &mut Pass<K, V, F>,
        keeps: &mut G,
    ) -> Result<u64, NotRetained>
        requires callable { G.IsAlwaysCallable keeps.old }
        requires pass { pass.old.ledger ≡ self.now.ledger.id }
        ensures retained { OnOk result (IsRetained G.step K.eq K.code (after V.eq F.remapped F.merged)
            self.now.ledger keeps.old pass.old keeps.new pass.new) }
        ensures count { IfOk result (λ n. length pass.new.made ≡ length pass.old.made + n) }
        ensures stopped { IfErr result (λ e. IsStopped G.step K.eq K.code
            (after V.eq F.remapped F.merged) self.now.ledger e.fault keeps.old pass.old keeps.new
            pass.new) }
        ensures stopped_count { IfErr result (λ e.
            length pass.new.made ≡ length pass.old.made + e.removed) }
        ensures removed { HasRemoved pass.old pass.new }
        ensures callable { G.IsAlwaysCallable keeps.new }
        ensures sure { self.now.ledger.form ≡ Lean → IsNeverRefused K.is_infallible →
            IfErr result (λ e. e.fault ≡ Fault.PassFull) }
        ensures faults { IfErr result (λ e. IsOfCall e.fault) }
    {
        self.retain_from(rt, pass, self.cursor(), keeps)
    }
}
