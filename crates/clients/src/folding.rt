//! A client goes over the entries of a map on which others call.
ghost use Rattle.std.specs.Prelude.{◌≡◌, IfOk, IfErr};
ghost use Rattle.std.specs.List.{FoldsTo};
ghost use Rattle.bin_history.specs.Calls.{after};
ghost use Rattle.count_ledger.specs.Fronts.{HasSeenMore};
ghost use Rattle.chm.specs.Cursors.{IsUsedAt};
ghost use Rattle.clients.specs.Folds.{FoldsPairs, turn, UsesPairs, WalksOver};

use crate::client::ClientOf;
use crate::holder::{Holder, Seat};
use bin_history::{Remap, Value};
use chm::{Fault, Map, Pass, Visit};
use hashkeys::HashKey;
use std::alloc::Allocator;
use std::sync::Wait;

/// Goes over the entries of a bin. Returns the last total, and the function.
fn fold_entries<K: Drop, V: Drop, A: Allocator, B, G: FnMut(B, (K, V)) -> B>(
    entries: Vec<(K, V), A>,
    init: B,
    mut f: G,
) -> (B, G)
    requires { G.IsAlwaysCallable f }
    ensures callable { G.IsAlwaysCallable result.1 }
    ensures folded { FoldsTo (turn G.step) (f, init) entries.items (result.1, result.0) }
{
    let mut total = init;
    for entry in entries {
        total = f(total, entry);
    }
    (total, f)
}

/// Goes over the entries of a walk, a bucket at a time. Returns the last total, and the function.
pub(crate) fn fold_all<
    K: HashKey,
    V: Value,
    F: Remap<K, V>,
    A: Allocator + Clone,
    R: Wait,
    B: Drop,
    G: FnMut(B, (K, V)) -> B,
>(rt: &R, map: &Map<K, V, F, A>, pass: &mut Pass<K, V, F>, init: B, f: G) -> Result<(B, G), Fault>
    requires callable { G.IsAlwaysCallable f }
    requires pass { pass.old.ledger ≡ map.now.ledger.id }
    ensures folded { IfOk result
        (λ r. WalksOver K.eq K.code (after V.eq F.remapped F.merged) map.now pass.old pass.new
        (λ pairs. FoldsTo (turn G.step) (f, init) pairs (r.1, r.0))) }
    ensures seen { HasSeenMore pass.old pass.new }
    ensures faults { IfErr result (λ fault. fault ≡ Fault.NoMemory) }
{
    let mut cursor = map.cursor();
    let mut total = init;
    let mut left = f;
    for _ in rt.forever() {
        let shown = map.visit_next(rt, pass, &mut cursor)?;
        let Some(visit) = shown else {
            return Ok((total, left));
        };
        let Visit { class: _, entries } = visit;
        let (next, last) = fold_entries(entries, total, left);
        total = next;
        left = last;
    }
    unreachable!()
}

/// Gives the function each entry of a walk where it lies, a bucket at a time.
pub(crate) fn show_all<
    K: HashKey,
    V: Value,
    F: Remap<K, V>,
    A: Allocator + Clone,
    R: Wait,
    G: FnMut(&K, &V),
>(rt: &R, map: &Map<K, V, F, A>, pass: &mut Pass<K, V, F>, f: &mut G)
    requires callable { G.IsAlwaysCallable f.old }
    requires pass { pass.old.ledger ≡ map.now.ledger.id }
    ensures shown { WalksOver K.eq K.code (after V.eq F.remapped F.merged) map.now pass.old
        pass.new (λ pairs. FoldsTo (IsUsedAt G.step) f.old pairs f.new) }
    ensures seen { HasSeenMore pass.old pass.new }
{
    let mut cursor = map.cursor();
    for _ in rt.forever() {
        if !map.show_next(rt, pass, &mut cursor, f) {
            return;
        }
    }
    unreachable!()
}

impl<H: Holder<K, V, F, A>, K: HashKey, V: Value, F: Remap<K, V>, A: Allocator + Clone> ClientOf<
    H,
    K,
    V,
    F,
    A,
> {
    /// Goes over the entries of a walk, in its order, from a first total on: the function makes of
    /// the total so far and a copy of an entry the next total. Returns the last total. Each entry
    /// is shown as its bucket had it when the walk came by; no key comes twice. The function runs
    /// when no bucket is locked, so it may wait. The walk waits for each bucket in turn, and
    /// allocates copies of the entries of one bucket at a time.
    ///
    ///     client.put(rt, 1, 5)?;
    ///     assert_eq!(client.fold(rt, 0, |most, (_key, value)| value.max(most))?, 5);
    ///
    /// # Errors
    ///
    /// `NoMemory`. The function was called on the entries of the buckets before.
    pub fn fold<R: Wait, B: Drop, G: FnMut(B, (K, V)) -> B>(
        &mut self,
        rt: &R,
        init: B,
        f: G,
    ) -> Result<B, Fault>
        requires callable { G.IsAlwaysCallable f }
        ensures folded { IfOk result
            (λ total. WalksOver K.eq K.code (after V.eq F.remapped F.merged) self.old.map
            self.old.pass self.new.pass
            (λ pairs. FoldsPairs G.step f init pairs total)) }
        ensures seen { HasSeenMore self.old.pass self.new.pass }
        ensures faults { IfErr result (λ fault. fault ≡ Fault.NoMemory) }
        ensures map { self.new.map ≡ self.old.map }
    {
        let (total, _last) = fold_all(rt, self.holder.map(), self.seat.pass_mut(), init, f)?;
        Ok(total)
    }

    /// Gives the function a copy of each entry of a walk, in its order. Each entry is shown as its
    /// bucket had it when the walk came by; no key comes twice. The function runs when no bucket is
    /// locked, so it may wait. The walk waits for each bucket in turn, and allocates copies of the
    /// entries of one bucket at a time.
    ///
    ///     client.put(rt, 1, 5)?;
    ///     let mut most = 0;
    ///     client.for_each(rt, |(_key, value)| most = value.max(most))?;
    ///     assert_eq!(most, 5);
    ///
    /// # Errors
    ///
    /// `NoMemory`. The function was called on the entries of the buckets before.
    pub fn for_each<R: Wait, G: FnMut((K, V))>(&mut self, rt: &R, mut f: G) -> Result<(), Fault>
        requires callable { G.IsAlwaysCallable f }
        ensures used { IfOk result
            (λ _. WalksOver K.eq K.code (after V.eq F.remapped F.merged) self.old.map
            self.old.pass self.new.pass (λ pairs. UsesPairs G.step f pairs)) }
        ensures seen { HasSeenMore self.old.pass self.new.pass }
        ensures faults { IfErr result (λ fault. fault ≡ Fault.NoMemory) }
        ensures map { self.new.map ≡ self.old.map }
    {
        let ((), _last) = fold_all(
            rt,
            self.holder.map(),
            self.seat.pass_mut(),
            (),
            move |(), entry| f(entry),
        )?;
        Ok(())
    }

    /// Gives the function each entry of a walk, in its order, where it lies. Each entry is shown as
    /// its bucket has it when the walk comes by; no key comes twice. Nothing is copied, posted or
    /// allocated, so nothing can fail.
    ///
    /// The walk waits for each bucket in turn, which is locked while the function runs: a function
    /// that takes long keeps other clients out of the bucket, and one that calls the map, by
    /// whatever client, deadlocks where its key is of the same bucket.
    ///
    ///     client.put(rt, 1, 5)?;
    ///     let mut most = 0;
    ///     client.show_each(rt, |_key: &u64, value: &u64| most = most.max(*value));
    ///     assert_eq!(most, 5);
    pub fn show_each<R: Wait, G: FnMut(&K, &V)>(&mut self, rt: &R, mut f: G)
        requires { G.IsAlwaysCallable f }
        ensures shown { (last : G)
            × WalksOver K.eq K.code (after V.eq F.remapped F.merged) self.old.map
            self.old.pass self.new.pass (λ pairs. FoldsTo (IsUsedAt G.step) f pairs last) }
        ensures seen { HasSeenMore self.old.pass self.new.pass }
        ensures map { self.new.map ≡ self.old.map }
    {
        show_all(rt, self.holder.map(), self.seat.pass_mut(), &mut f);
    }
}
