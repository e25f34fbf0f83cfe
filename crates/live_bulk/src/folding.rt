//! Reductions of what a live map shows.
ghost use Rattle.std.specs.Prelude.{◌≡◌, ◌≤◌, [], length, All, IfOk, IsErrOf};
ghost use Rattle.std.specs.List.{AllZip};
ghost use Rattle.bin_history.specs.Calls.{after};
ghost use Rattle.count_ledger.specs.Fronts.{HasSeenMore};
ghost use Rattle.bulk_tasks.specs.Folds.{FoldsInAnyOrder};
ghost use Rattle.chm.specs.Shares.{AreSameClients};
ghost use Rattle.live_bulk.specs.Shared.{AreTooMany, IsReduced};
ghost use Rattle.live_bulk.specs.Plans.{IsPlanned};
ghost use Rattle.part_walks.specs.Parts.{most_shares};

use crate::fault::LiveFault;
use crate::gather::gather;
use bin_history::{Remap, Value};
use bulk_tasks::{Gate, Plan, Reducer};
use chm::{Map, Pass};
use hashkeys::HashKey;
use part_walks::{Stepper, Taker};
use std::alloc::Allocator;
use std::sync::Wait;
use std::thread::Threads;

/// The fold of some entries, none where there were none, and how many there were.
#[derive(Drop)]
pub(crate) struct Folded<T> {
    pub(crate) value: Option<T>,
    pub(crate) count: u64,
}

/// Collects the fold of the entries by a reducer.
#[derive(Drop)]
pub(crate) struct Folding<'a, R> {
    pub(crate) reducer: &'a R,
}

impl<K, V, R: Reducer<K, V>> Taker<K, V> for Folding<'_, R> {
    ghost use Rattle.live_bulk.specs.Folds.{IsFolded};

    type Part = Result<Folded<R::A>, LiveFault>;

    ghost reached = { λ c es part. IsFolded (R.lifted c.reducer.now) (R.joined c.reducer.now)
        (R.within c.reducer.now) R.never_refuses es part };

    fn add(
        &self,
        part: Result<Folded<R::A>, LiveFault>,
        key: &K,
        value: &V,
    ) -> Result<Folded<R::A>, LiveFault> {
        let Folded {
            value: folded,
            count,
        } = part?;
        let Some(count) = count.checked_add(1) else {
            return Err(LiveFault::TooMany);
        };
        let lifted = self.reducer.lift(key, value)?;
        let value = match folded {
            Some(folded) => Some(self.reducer.join(folded, lifted)?),
            None => Some(lifted),
        };
        Ok(Folded { value, count })
    }
}

impl<K, V, R: Reducer<K, V>> Stepper<K, V> for Folding<'_, R> {
    ghost use Rattle.std.specs.Prelude.{IsErr};

    ghost ends = { λ _ part. IsErr part };

    fn start(&self) -> Result<Folded<R::A>, LiveFault> {
        Ok(Folded {
            value: None,
            count: 0,
        })
    }

    fn look_again(&self, part: Result<Folded<R::A>, LiveFault>) -> Result<Folded<R::A>, LiveFault> {
        part
    }

    fn is_settled(&self, part: &Result<Folded<R::A>, LiveFault>) -> bool {
        part.is_err()
    }

    fn append(
        &self,
        left: Result<Folded<R::A>, LiveFault>,
        right: Result<Folded<R::A>, LiveFault>,
    ) -> Result<Folded<R::A>, LiveFault> {
        let left = left?;
        let right = right?;
        let Some(count) = left.count.checked_add(right.count) else {
            return Err(LiveFault::TooMany);
        };
        let mine = left.value;
        let theirs = right.value;
        let Some(first) = mine else {
            return Ok(Folded {
                value: theirs,
                count,
            });
        };
        let Some(second) = theirs else {
            return Ok(Folded {
                value: Some(first),
                count,
            });
        };
        let both = self.reducer.join(first, second)?;
        Ok(Folded {
            value: Some(both),
            count,
        })
    }
}

// In whatever order pairs stand, the reducer folds them to the same. It does nothing when it runs.
fn any_order<K, V, T: Reducer<K, V>>(reducer: &T)
    ensures { FoldsInAnyOrder (T.lifted reducer.now) (T.joined reducer.now) }
{
    let _ = reducer;
}

/// Returns the value, by the reducer, of all entries that the clients with these passes are shown,
/// each in its share of the buckets; none of no entries. Each bucket is shown as all calls before
/// had left it, those that the client had seen among them; no key is shown twice. On a map that
/// nobody calls meanwhile it is the value that `bulk::reduce` gives of the closed map.
///
/// It waits for the buckets and for its clients, and allocates a seat for each client. Each bucket
/// is locked while the reducer is shown its entries, so a reducer must not call the map. By each
/// client the passes have seen more, whatever it returns.
///
/// Where 1 has the value 5, and 2 has 6:
///
///     live_reduce(rt, &map, &mut passes, &Plan::new(0, 4), &Greatest)? == Some(6)
///
/// # Errors
///
/// `BadWorkers`: the plan has not 1 to 16 workers. `NoClient`: there is no pass. `NoMemory`: the
/// reducer was refused memory, or the seats were. `TooMany`: 2^64 entries or more were shown.
pub fn live_reduce<
    K: HashKey + Send + Sync,
    V: Value + Send + Sync,
    F: Remap<K, V> + Send + Sync,
    A: Allocator + Clone + Send + Sync,
    T: Reducer<K, V> + Sync,
    G: Gate + Sync,
    R: Threads + Wait + Sync,
>(
    rt: &R,
    map: &Map<K, V, F, A>,
    passes: &mut Vec<Pass<K, V, F>, A>,
    plan: &Plan<'_, G>,
    reducer: &T,
) -> Result<Option<T::A>, LiveFault>
where
    T::A: Send,
    requires own { All (λ p. p.ledger ≡ map.now.ledger.id) passes.old.items }
    requires few { length passes.old.items ≤ most_shares }
    ensures own { All (λ p. p.ledger ≡ map.now.ledger.id) passes.new.items }
    ensures len { length passes.new.items ≡ length passes.old.items }
    ensures clients { AreSameClients passes.old.items passes.new.items }
    ensures seen { AllZip HasSeenMore passes.old.items passes.new.items }
    ensures fold { IfOk result (IsReduced K.eq K.code (after V.eq F.remapped F.merged)
        (T.lifted reducer.now) (T.joined reducer.now) map.now.ledger passes.old.items
        passes.new.items) }
    ensures workers { IsPlanned plan.now.workers result }
    ensures no_client { IsErrOf result LiveFault.NoClient → passes.old.items ≡ [] }
    ensures too_many { IsErrOf result LiveFault.TooMany → AreTooMany K.eq K.code
        (after V.eq F.remapped F.merged) map.now.ledger passes.old.items passes.new.items }
{
    any_order(reducer);
    let part = gather(rt, map, passes, plan, &Folding { reducer })?;
    let folded = part?;
    Ok(folded.value)
}
