//! Reductions of all entries to one value.
ghost use Rattle.std.specs.Prelude.{◌≡◌, ℕ, ◌+◌, ◌<◌, ◌^◌, List, length, IfOk, IfSome, IsOk};
ghost use Rattle.std.specs.Prelude.{IsErrOf, IsTrue};
ghost use Rattle.std.specs.List.Sorted.{IsPermutation};
ghost use Rattle.chm.specs.Headline.{entries_of};
ghost use Rattle.bulk_tasks.specs.Folds.{fold_from, plain_fold, AreOfFew, FoldsInAnyOrder};
ghost use Rattle.bulk_tasks.specs.Plans.{IsPlanned};

use crate::collector::Collector;
use crate::fault::BulkFault;
use crate::operations::Bulk;
use crate::plan::Plan;
use crate::traits::{BasedReducer, Reducer};
use bin_history::{Bin, Remap, Value, Walk};
use chm::Quiet;
use hashkeys::HashKey;
use std::alloc::{AllocError, Allocator};
use std::sync::Wait;
use std::thread::Threads;
use steal_pool::Gate;

// The pairs of a walk, lifted and joined onto a value.
fn fold_onto<K, V, A: Allocator, R: Reducer<K, V>>(
    reducer: &R,
    first: R::A,
    walk: Walk<'_, K, V, A>,
) -> Result<R::A, AllocError>
    requires few { (n : ℕ) × R.within reducer.now n first × (n + length walk < 2 ^ 64) }
    ensures fold { IfOk result
        (λ a. a ≡ fold_from (R.lifted reducer.now) (R.joined reducer.now) first walk.entry) }
    ensures within { (n : ℕ) → R.within reducer.now n first →
        IfOk result (R.within reducer.now (n + length walk.entry)) }
    ensures total { IsTrue R.never_refuses → IsOk result }
{
    let mut folded = first;
    for (key, value) in walk {
        let lifted = reducer.lift(key, value)?;
        folded = reducer.join(folded, lifted)?;
    }
    Ok(folded)
}

// The pairs of bins, lifted and joined onto a value.
fn fold_bins_onto<K: HashKey, V: Value, F: Remap<K, V>, A: Allocator + Clone, R: Reducer<K, V>>(
    reducer: &R,
    first: R::A,
    bins: &[Bin<K, V, F, A>],
) -> Result<R::A, AllocError>
    requires few { (n : ℕ) × R.within reducer.now n first
        × (n + length (entries_of bins.now) < 2 ^ 64) }
    ensures fold { IfOk result
        (λ a. a ≡ fold_from (R.lifted reducer.now) (R.joined reducer.now) first
        (entries_of bins.now)) }
    ensures within { (n : ℕ) → R.within reducer.now n first →
        IfOk result (R.within reducer.now (n + length (entries_of bins.now))) }
    ensures total { IsTrue R.never_refuses → IsOk result }
{
    let mut folded = first;
    for bin in bins {
        folded = fold_onto(reducer, folded, bin.walk())?;
    }
    Ok(folded)
}

/// Collects the fold of the pairs by a reducer.
#[derive(Drop)]
pub(crate) struct Folding<'a, R> {
    pub(crate) reducer: &'a R,
}

impl<K: HashKey, V: Value, F: Remap<K, V>, A: Allocator + Clone, R: Reducer<K, V>> Collector<
    K,
    V,
    F,
    A,
> for Folding<'_, R> {
    ghost use Rattle.bulk_tasks.specs.Folds.{IsFolded};

    type Part = Result<Option<R::A>, AllocError>;

    ghost collected = { λ c es part. IsFolded (R.lifted c.reducer.now) (R.joined c.reducer.now)
        (R.within c.reducer.now) R.never_refuses es part };

    fn collect(&self, bins: &[Bin<K, V, F, A>]) -> Result<Option<R::A>, AllocError> {
        for (index, bin) in bins.iter().enumerate() {
            let mut walk = bin.walk();
            if let Some((key, value)) = walk.next() {
                let lifted = self.reducer.lift(key, value)?;
                let begun = fold_onto(self.reducer, lifted, walk)?;
                return Ok(Some(fold_bins_onto(self.reducer, begun, &bins[index + 1..])?));
            }
        }
        Ok(None)
    }

    fn append(
        &self,
        left: Result<Option<R::A>, AllocError>,
        right: Result<Option<R::A>, AllocError>,
    ) -> Result<Option<R::A>, AllocError> {
        let left = left?;
        let right = right?;
        let Some(first) = left else {
            return Ok(right);
        };
        match right {
            None => Ok(Some(first)),
            Some(second) => Ok(Some(self.reducer.join(first, second)?)),
        }
    }
}

// Whatever order pairs stand in, the reducer folds them to the same. It does nothing when it runs.
pub(crate) fn any_order<K, V, R: Reducer<K, V>>(reducer: &R)
    ensures { FoldsInAnyOrder (R.lifted reducer.now) (R.joined reducer.now) }
{
    // read for the proof alone, which so has the reducer's laws
    let _ = reducer;
}

// The fold from a basis, made of the plain fold: the basis joined to it, or alone where there were
// no pairs.
pub(crate) fn join_onto<K, V, R: Reducer<K, V>>(
    reducer: &R,
    basis: R::A,
    folded: Option<R::A>,
) -> Result<R::A, AllocError>
    requires few { IfSome folded (AreOfFew (R.within reducer.now) basis) }
    ensures fold { IfOk result (λ a. (es : List (K × V)) →
        folded ≡ plain_fold (R.lifted reducer.now) (R.joined reducer.now) es
        → a ≡ fold_from (R.lifted reducer.now) (R.joined reducer.now) basis es) }
    ensures total { IsTrue R.never_refuses → IsOk result }
{
    match folded {
        None => Ok(basis),
        Some(folded) => Ok(reducer.join(basis, folded)?),
    }
}

/// Returns the value of all entries by the reducer: what lifting each and joining from left to
/// right in walk order gives, and none of no entries. With a reducer that never fails it fails for
/// a bad number of workers alone. It takes time linear in the entries, shared by the plan's
/// workers, for which it waits. It locks nothing of the map.
///
/// Where `a` has the value 1, and `b` 2:
///
///     reduce(rt, alloc, quiet, &Plan::new(0, 4), &Greatest)? == Some(2)
///
/// # Errors
///
/// `BadWorkers` where the plan has not 1 to 16 workers; `NoMemory` where the reducer is out of memory.
pub fn reduce<
    K: HashKey + Send + Sync,
    V: Value + Send + Sync,
    F: Remap<K, V> + Send + Sync,
    A: Allocator + Clone + Send + Sync,
    B: Allocator + Clone + Send + Sync,
    R: Reducer<K, V> + Sync,
    G: Gate + Sync,
    Rt: Threads + Wait + Sync,
>(
    rt: &Rt,
    alloc: B,
    quiet: &Quiet<K, V, F, A>,
    plan: &Plan<'_, G>,
    reducer: &R,
) -> Result<Option<R::A>, BulkFault>
where
    R::A: Send,
    ensures fold { IfOk result (λ a. a ≡ plain_fold (R.lifted reducer.now) (R.joined reducer.now)
        (entries_of quiet.now.bins)) }
    ensures order { IfOk result (λ a. (es : List (K × V)) →
        IsPermutation (entries_of quiet.now.bins) es
        → a ≡ plain_fold (R.lifted reducer.now) (R.joined reducer.now) es) }
    ensures workers { IsPlanned plan.now.workers result }
    ensures total { IsTrue R.never_refuses → ¬ IsErrOf result BulkFault.NoMemory }
{
    Bulk::new(rt, alloc, quiet, plan).reduce(reducer)
}

/// Returns the value of all entries by the reducer, as `reduce` does, from the reducer's basis on.
/// It takes time linear in the entries, shared by the plan's workers, for which it waits. It locks
/// nothing of the map.
///
/// Where `a` has the value 1, and `b` 2:
///
///     reduce_based(rt, alloc, quiet, &Plan::new(0, 4), &Sum)? == 3
///
/// # Errors
///
/// `BadWorkers` where the plan has not 1 to 16 workers; `NoMemory` where the reducer is out of memory.
pub fn reduce_based<
    K: HashKey + Send + Sync,
    V: Value + Send + Sync,
    F: Remap<K, V> + Send + Sync,
    A: Allocator + Clone + Send + Sync,
    B: Allocator + Clone + Send + Sync,
    R: BasedReducer<K, V> + Sync,
    G: Gate + Sync,
    Rt: Threads + Wait + Sync,
>(
    rt: &Rt,
    alloc: B,
    quiet: &Quiet<K, V, F, A>,
    plan: &Plan<'_, G>,
    reducer: &R,
) -> Result<R::A, BulkFault>
where
    R::A: Send,
    ensures fold { IfOk result (λ a. a ≡ fold_from (R.lifted reducer.now) (R.joined reducer.now)
        (R.based reducer.now) (entries_of quiet.now.bins)) }
    ensures order { IfOk result (λ a. (es : List (K × V)) →
        IsPermutation (entries_of quiet.now.bins) es
        → a ≡ fold_from (R.lifted reducer.now) (R.joined reducer.now) (R.based reducer.now) es) }
    ensures workers { IsPlanned plan.now.workers result }
    ensures total { IsTrue R.never_refuses → ¬ IsErrOf result BulkFault.NoMemory }
{
    Bulk::new(rt, alloc, quiet, plan).reduce_based(reducer)
}
