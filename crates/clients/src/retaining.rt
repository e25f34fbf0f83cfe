//! A client removes entries by a function of its own.
ghost use Rattle.std.specs.Prelude.{◌≡◌, ◌+◌, ◌++◌, ◌∷◌, [], None, List, length, IfOk, IfErr, IfNone, IfSome};
ghost use Rattle.std.specs.Prelude.{IsOk, IsSomeAnd, OnOk};
ghost use Rattle.hashkeys.specs.Classes.{ClassView};
ghost use Rattle.bin_history.specs.Calls.{after};
ghost use Rattle.bin_history.specs.Sure.{IsNeverRefused};
ghost use Rattle.bin_history.specs.declared.form.Form.TheVariants.{Lean};
ghost use Rattle.chm.specs.Cleared.{HasRemoved};
ghost use Rattle.chm.specs.Cursors.{HasPassed};
ghost use Rattle.chm.specs.Refusals.{IsOfCall};
ghost use Rattle.chm.specs.Retained.{HasStoppedAt, IsRetained, IsRetainedIn, IsStopped};

use crate::client::ClientOf;
use crate::holder::{Holder, Seat};
use bin_history::{Remap, Value};
use chm::{Cursor, Fault, NotRetained};
use hashkeys::HashKey;
use std::alloc::Allocator;
use std::sync::Wait;

impl<H: Holder<K, V, F, A>, K: HashKey, V: Value, F: Remap<K, V>, A: Allocator + Clone> ClientOf<
    H,
    K,
    V,
    F,
    A,
> {
    /// Calls the function once for each entry, bucket by bucket as a walk by a cursor goes, each bucket
    /// under one lock, and removes each entry for which it returns false: that is a remove in the order
    /// of calls, and the removes of a bucket come in the order of its entries. Returns how many entries
    /// it removed. Others may put new entries into buckets that were left. It waits for each bucket in
    /// turn, and does in each what `retain_next` does.
    ///
    ///     client.put(rt, 1, 5)?;
    ///     assert_eq!(client.retain(rt, |_key: &u64, value: &u64| *value > 5)?, 1);
    ///     assert_eq!(client.get(rt, &1)?, None);
    ///
    /// # Errors
    ///
    /// `PassFull` where the client has made all the calls that it may and an entry is left: the function
    /// is not called for it. `NoMemory` where an entry is to be removed: in a lean map only where a
    /// key's copy asks for memory. The removes made before that stand, and are counted in the error.
    pub fn retain<R: Wait, G: FnMut(&K, &V) -> bool>(
        &mut self,
        rt: &R,
        mut keeps: G,
    ) -> Result<u64, NotRetained>
        requires callable { G.IsAlwaysCallable keeps }
        ensures retained { OnOk result ((last : G) × IsRetained G.step K.eq K.code
            (after V.eq F.remapped F.merged) self.old.map.ledger keeps self.old.pass last self.new.pass) }
        ensures count { IfOk result (λ n.
            length self.new.pass.made ≡ length self.old.pass.made + n) }
        ensures stopped { IfErr result (λ e. (last : G) × IsStopped G.step K.eq K.code
            (after V.eq F.remapped F.merged) self.old.map.ledger e.fault keeps self.old.pass last
            self.new.pass) }
        ensures stopped_count { IfErr result (λ e.
            length self.new.pass.made ≡ length self.old.pass.made + e.removed) }
        ensures removed { HasRemoved self.old.pass self.new.pass }
        ensures sure { self.old.map.ledger.form ≡ Lean → IsNeverRefused K.is_infallible →
            IfErr result (λ e. e.fault ≡ Fault.PassFull) }
        ensures faults { IfErr result (λ e. IsOfCall e.fault) }
        ensures map { self.new.map ≡ self.old.map }
    {
        self.holder
            .map()
            .retain(rt, self.seat.pass_mut(), &mut keeps)
    }

    /// Calls the function once for each entry of the next bucket of a walk, in order, and removes each
    /// for which it returns false: that is a remove in the order of calls. Returns how many it removed;
    /// none at the end of the walk, where there is no bucket left. Steps with a cursor of its own remove
    /// entries in slices; other calls, of others and of the client itself, may come between two steps.
    ///
    /// It waits for the bucket, which is locked while the function runs: a function that takes long
    /// keeps other clients out of the bucket, and one that calls the map, by whatever client, deadlocks
    /// where its key is of the same bucket. Each key that is removed is copied.
    ///
    ///     client.put(rt, 1, 5)?;
    ///     let mut cursor = client.cursor();
    ///     let mut keeps = |_key: &u64, value: &u64| *value > 5;
    ///     let mut removed = 0;
    ///     for _ in rt.forever() {
    ///         let Some(some) = client.retain_next(rt, &mut cursor, &mut keeps)? else {
    ///             break;
    ///         };
    ///         removed = some.saturating_add(removed);
    ///     }
    ///     assert_eq!(removed, 1);
    ///
    /// # Errors
    ///
    /// `PassFull` where the client has made all the calls that it may and an entry is left: the function
    /// is not called for it. `NoMemory` where an entry is to be removed: in a lean map only where a
    /// key's copy asks for memory. The removes made before that stand, and are counted in the error.
    /// The cursor is as it was: the same bucket is next, and the function is called anew for what is
    /// left of it.
    pub fn retain_next<R: Wait, G: FnMut(&K, &V) -> bool>(
        &mut self,
        rt: &R,
        cursor: &mut Cursor,
        keeps: &mut G,
    ) -> Result<Option<u64>, NotRetained>
        requires callable { G.IsAlwaysCallable keeps.old }
        ensures kept { IfOk result (λ some. IfSome some (λ _. (class : ClassView)
            × IsRetainedIn G.step K.eq K.code (after V.eq F.remapped F.merged) self.old.map.ledger class
            keeps.old self.old.pass keeps.new self.new.pass
            × ((classes : List ClassView) → HasPassed cursor.old classes →
            HasPassed cursor.new (classes ++ class ∷ [])))) }
        ensures count { IfOk result (λ some. IfSome some (λ n.
            length self.new.pass.made ≡ length self.old.pass.made + n)) }
        ensures end { IfOk result (λ some. IfNone some ((cursor.old.next ≡ None)
            × (self.new.pass ≡ self.old.pass) × (cursor.new ≡ cursor.old) × (keeps.new ≡ keeps.old))) }
        ensures stopped { IfErr result (λ e. IsSomeAnd cursor.old.next (λ next.
            HasStoppedAt G.step K.eq K.code (after V.eq F.remapped F.merged) self.old.map.ledger e.fault
            next keeps.old self.old.pass keeps.new self.new.pass) × (cursor.new ≡ cursor.old)) }
        ensures stopped_count { IfErr result (λ e.
            length self.new.pass.made ≡ length self.old.pass.made + e.removed) }
        ensures removed { HasRemoved self.old.pass self.new.pass }
        ensures callable { G.IsAlwaysCallable keeps.new }
        ensures n { cursor.new.n ≡ cursor.old.n }
        ensures ended { cursor.old.next ≡ None → IsOk result }
        ensures sure { self.old.map.ledger.form ≡ Lean → IsNeverRefused K.is_infallible →
            IfErr result (λ e. e.fault ≡ Fault.PassFull) }
        ensures faults { IfErr result (λ e. IsOfCall e.fault) }
        ensures map { self.new.map ≡ self.old.map }
    {
        self.holder
            .map()
            .retain_next(rt, self.seat.pass_mut(), cursor, keeps)
    }
}
