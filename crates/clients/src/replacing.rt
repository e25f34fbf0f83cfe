//! A client changes the values of all keys by a function.
ghost use Rattle.std.specs.Prelude.{◌≡◌, ◌≤◌, ◌↔◌, ◌++◌, ◌∷◌, [], None, List, length};
ghost use Rattle.std.specs.Prelude.{IfOk, IfErr, IfSome, IfNone, IsSomeAnd, OnErr, option_copied};
ghost use Rattle.bin_history.specs.declared.form.Form.TheVariants.{Lean};
ghost use Rattle.count_ledger.specs.Limits.{most_calls};
ghost use Rattle.count_ledger.specs.Views.{PassView};
ghost use Rattle.chm.specs.Cursors.{HasCome};
ghost use Rattle.chm.specs.Refusals.{IsOfCall};
ghost use Rattle.chm.specs.Sure.{IsMadeOrFull};
ghost use Rattle.chm.specs.Visits.{VisitView};
ghost use Rattle.clients.specs.Replaced.{AreReplaced, GivesAt, HasStopped, HasStoppedAmong, IsReplaced};
ghost use Rattle.clients.specs.Replaced.{IsReplacedAt, IsStopped, IsVisited, Replaces};

use crate::client::ClientOf;
use crate::holder::{Holder, Seat};
use bin_history::{Remap, Value};
use chm::{Change, Cursor, Fault, Map, Pass, Visit};
use hashkeys::HashKey;
use std::alloc::Allocator;
use std::sync::Wait;
use thiserror::Error;

/// A `replace_all` that stopped before its end. `?` makes a `Fault` of it.
#[derive(Clone, Copy, Debug, PartialEq, Eq, Error)]
#[error("{fault}, when {replaced} values were replaced")]
pub struct NotReplaced {
    /// Why it stopped.
    pub fault: Fault,
    /// How many values it had replaced. They stay.
    pub replaced: u64,
}

impl From<NotReplaced> for Fault {
    ghost from_gives = { λ e fault. fault ≡ e.fault };

    fn from(error: NotReplaced) -> Fault {
        error.fault
    }
}

/// What the function returns for a key and its value.
fn next_of<K, V, G: FnMut(&K, &V) -> V>(key: &K, value: &V, f: &mut G) -> V
    requires { G.IsAlwaysCallable f.old }
    ensures next { GivesAt G.step f.old key.now value.now result f.new }
    ensures callable { G.IsAlwaysCallable f.new }
{
    f(key, value)
}

/// What becomes of the value at a key; and the function after that, and whether it was called.
fn replacement<K, V, G: FnMut(&K, &V) -> V>(
    key: &K,
    found: Option<&V>,
    f: G,
) -> (Change<V>, (G, bool))
    requires callable { G.IsAlwaysCallable f }
    ensures replaced { Replaces G.step key.now f (option_copied found.entry) result.0 result.1 }
    ensures callable { G.IsAlwaysCallable result.1.0 }
{
    let mut left = f;
    let Some(value) = found else {
        return (Change::Keep, (left, false));
    };
    let next = next_of(key, value, &mut left);
    (Change::Set(next), (left, true))
}

/// Changes the value at a key by the function, if there is one. Returns the function, and the count with
/// that value.
fn replace_at<
    K: HashKey,
    V: Value,
    F: Remap<K, V>,
    A: Allocator + Clone,
    R: Wait,
    G: FnMut(&K, &V) -> V,
>(
    rt: &R,
    map: &Map<K, V, F, A>,
    pass: &mut Pass<K, V, F>,
    key: &K,
    f: G,
    count: u64,
) -> Result<(G, u64), Fault>
where
    G: Drop,
    requires callable { G.IsAlwaysCallable f }
    requires pass { pass.old.ledger ≡ map.now.ledger.id }
    requires count { count ≤ length pass.old.made }
    ensures replaced { IfOk result (λ r. IsReplacedAt G.step K.eq V.eq F.remapped F.merged
        map.now.ledger key.now (f, count) pass.old r pass.new) }
    ensures callable { IfOk result (λ r. G.IsAlwaysCallable r.0) }
    ensures count { IfOk result (λ r. r.1 ≤ length pass.new.made) }
    ensures ledger { pass.new.ledger ≡ pass.old.ledger }
    ensures client { pass.new.client ≡ pass.old.client }
    ensures refused { OnErr result (pass.new ≡ pass.old) }
    ensures full { IfErr result (λ fault. (fault ≡ Fault.PassFull) ↔
        (most_calls map.now.ledger.form map.now.ledger.clients ≤ length pass.new.made)) }
    ensures sure { map.now.ledger.form ≡ Lean → IsMadeOrFull result }
    ensures faults { IfErr result IsOfCall }
{
    match map.update_lent(
        rt,
        pass,
        key,
        move |found: Option<&V>| -> (Change<V>, (G, bool))
            requires { G.IsAlwaysCallable f }
            ensures { Replaces G.step key.entry.now f (option_copied found.entry) result.0 result.1
                × G.IsAlwaysCallable result.1.0 }
        { replacement(key, found, f) },
    ) {
        Ok((left, is_replaced)) => {
            if is_replaced {
                Ok((left, count + 1))
            } else {
                Ok((left, count))
            }
        }
        Err(fault) => Err(fault),
    }
}

/// Changes the values at the keys of a bucket, in order.
fn replace_among<
    K: HashKey,
    V: Value,
    F: Remap<K, V>,
    A: Allocator + Clone,
    R: Wait,
    G: FnMut(&K, &V) -> V,
>(
    rt: &R,
    map: &Map<K, V, F, A>,
    pass: &mut Pass<K, V, F>,
    entries: Vec<(K, V), A>,
    f: G,
    count: u64,
) -> Result<(G, u64), NotReplaced>
where
    G: Drop,
    requires callable { G.IsAlwaysCallable f }
    requires pass { pass.old.ledger ≡ map.now.ledger.id }
    requires count { count ≤ length pass.old.made }
    ensures replaced { IfOk result (λ r. AreReplaced G.step K.eq V.eq F.remapped F.merged
        map.now.ledger entries.items (f, count) pass.old r pass.new) }
    ensures callable { IfOk result (λ r. G.IsAlwaysCallable r.0) }
    ensures count { IfOk result (λ r. r.1 ≤ length pass.new.made) }
    ensures ledger { pass.new.ledger ≡ pass.old.ledger }
    ensures client { pass.new.client ≡ pass.old.client }
    ensures stopped { IfErr result (λ e. HasStoppedAmong G.step K.eq V.eq F.remapped F.merged
        map.now.ledger entries.items e.fault (f, count) pass.old e.replaced pass.new) }
    ensures faults { IfErr result (λ e. IsOfCall e.fault) }
{
    let mut left = f;
    let mut replaced = count;
    for (key, _value) in entries {
        match replace_at(rt, map, pass, &key, left, replaced) {
            Ok((next, more)) => {
                left = next;
                replaced = more;
            }
            Err(fault) => return Err(NotReplaced { fault, replaced }),
        }
    }
    Ok((left, replaced))
}

/// Changes the values at the keys of the bucket that is next in a walk; none at the end of the walk.
fn replace_next<
    K: HashKey,
    V: Value,
    F: Remap<K, V>,
    A: Allocator + Clone,
    R: Wait,
    G: FnMut(&K, &V) -> V,
>(
    rt: &R,
    map: &Map<K, V, F, A>,
    pass: &mut Pass<K, V, F>,
    cursor: &mut Cursor,
    f: G,
    count: u64,
) -> Result<Option<(G, u64)>, NotReplaced>
where
    G: Drop,
    requires callable { G.IsAlwaysCallable f }
    requires pass { pass.old.ledger ≡ map.now.ledger.id }
    requires count { count ≤ length pass.old.made }
    ensures next { IfOk result (λ some. IfSome some (λ r. (v : VisitView K V) × (seen : PassView K V F)
        × IsVisited K.eq K.code V.eq F.remapped F.merged map.now.ledger v pass.old seen
        × AreReplaced G.step K.eq V.eq F.remapped F.merged map.now.ledger v.entries (f, count) seen r
        pass.new
        × ((shown : List (VisitView K V)) → HasCome cursor.old shown →
        HasCome cursor.new (shown ++ v ∷ [])))) }
    ensures callable { IfOk result (λ some. IfSome some (λ r. G.IsAlwaysCallable r.0)) }
    ensures count { IfOk result (λ some. IfSome some (λ r. r.1 ≤ length pass.new.made)) }
    ensures end { IfOk result (λ some. IfNone some ((cursor.old.next ≡ None)
        × (pass.new ≡ pass.old))) }
    ensures ledger { pass.new.ledger ≡ pass.old.ledger }
    ensures client { pass.new.client ≡ pass.old.client }
    ensures n { cursor.new.n ≡ cursor.old.n }
    ensures stopped { IfErr result (λ e. IsSomeAnd cursor.old.next (λ next.
        HasStopped G.step K.eq K.code V.eq F.remapped F.merged
        map.now.ledger e.fault next (f, count) pass.old e.replaced pass.new)) }
    ensures faults { IfErr result (λ e. IsOfCall e.fault) }
{
    match map.visit_next(rt, pass, cursor) {
        Ok(Some(visit)) => {
            let Visit { class: _, entries } = visit;
            match replace_among(rt, map, pass, entries, f, count) {
                Ok(some) => Ok(Some(some)),
                Err(error) => Err(error),
            }
        }
        Ok(None) => Ok(None),
        Err(fault) => Err(NotReplaced {
            fault,
            replaced: count,
        }),
    }
}

/// Changes the values at the keys that a walk finds, bucket by bucket.
fn replace_walk<
    K: HashKey,
    V: Value,
    F: Remap<K, V>,
    A: Allocator + Clone,
    R: Wait,
    G: FnMut(&K, &V) -> V,
>(rt: &R, map: &Map<K, V, F, A>, pass: &mut Pass<K, V, F>, f: G) -> Result<u64, NotReplaced>
where
    G: Drop,
    requires callable { G.IsAlwaysCallable f }
    requires pass { pass.old.ledger ≡ map.now.ledger.id }
    ensures replaced { IfOk result (λ n. IsReplaced G.step K.eq K.code V.eq F.remapped F.merged
        map.now.ledger f pass.old n pass.new) }
    ensures stopped { IfErr result (λ e. IsStopped G.step K.eq K.code V.eq F.remapped F.merged
        map.now.ledger e.fault f pass.old e.replaced pass.new) }
    ensures faults { IfErr result (λ e. IsOfCall e.fault) }
    ensures ledger { pass.new.ledger ≡ pass.old.ledger }
    ensures client { pass.new.client ≡ pass.old.client }
{
    let mut cursor = map.cursor();
    let mut left = f;
    let mut replaced = 0u64;
    for _ in rt.forever() {
        match replace_next(rt, map, pass, &mut cursor, left, replaced) {
            Ok(Some((next, more))) => {
                left = next;
                replaced = more;
            }
            Ok(None) => return Ok(replaced),
            Err(error) => return Err(error),
        }
    }
    unreachable!()
}

impl<H: Holder<K, V, F, A>, K: HashKey, V: Value, F: Remap<K, V>, A: Allocator + Clone> ClientOf<
    H,
    K,
    V,
    F,
    A,
> {
    /// Replaces the value at each key that a walk finds, bucket by bucket, by what the function returns
    /// for the key and the value that is there when its turn comes. Each is one call, a put in the order
    /// of calls; where the key was removed since the walk came by, it is a `contains_key`, and the
    /// function is not called. Returns how many values it replaced. Others may put new keys into buckets
    /// that were left, and change values between two calls.
    ///
    /// It waits for each bucket and each key in turn, and takes time linear in the buckets and, for each
    /// key, in the keys of its bucket. A key's bucket is locked while the function runs: a function that
    /// takes long keeps other clients out of the bucket, and one that calls the map, by whatever client,
    /// deadlocks where its key is of the same bucket. It allocates copies of the entries of one bucket at
    /// a time; a recorded map copies the key and the values for each call's record too.
    ///
    ///     client.put(rt, 1, 5)?;
    ///     assert_eq!(client.replace_all(rt, |_key: &u64, value: &u64| value.wrapping_add(1))?, 1);
    ///     assert_eq!(client.get(rt, &1)?, Some(6));
    ///
    /// # Errors
    ///
    /// `PassFull` where the client has made all the calls that it may and a key is left: the function is
    /// not called for it. `NoMemory` where the entries of a bucket cannot be copied; in a recorded map
    /// also where a call cannot be recorded, and then the function may have been called for a value that
    /// stays. The values that were replaced before that stay, and are counted in the error.
    pub fn replace_all<R: Wait, G: FnMut(&K, &V) -> V>(
        &mut self,
        rt: &R,
        f: G,
    ) -> Result<u64, NotReplaced>
    where
        G: Drop,
        requires callable { G.IsAlwaysCallable f }
        ensures replaced { IfOk result (λ n. IsReplaced G.step K.eq K.code V.eq F.remapped F.merged
            self.old.map.ledger f self.old.pass n self.new.pass) }
        ensures stopped { IfErr result (λ e. IsStopped G.step K.eq K.code V.eq F.remapped F.merged
            self.old.map.ledger e.fault f self.old.pass e.replaced self.new.pass) }
        ensures faults { IfErr result (λ e. IsOfCall e.fault) }
        ensures map { self.new.map ≡ self.old.map }
    {
        replace_walk(rt, self.holder.map(), self.seat.pass_mut(), f)
    }
}
