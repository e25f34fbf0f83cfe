//! The bulk operations, all by one plan.
ghost use Rattle.std.specs.Prelude.{◌≡◌, List, IfOk, IsErrOf, IsTrue};
ghost use Rattle.std.specs.List.Sorted.{IsPermutation};
ghost use Rattle.chm.specs.Headline.{entries_of};
ghost use Rattle.bulk_tasks.specs.Actions.{answers};
ghost use Rattle.bulk_tasks.specs.Folds.{fold_from, plain_fold};
ghost use Rattle.bulk_tasks.specs.Plans.{IsPlanned};
ghost use Rattle.bulk_tasks.specs.Searches.{IsSearched};

use crate::acting::Acting;
use crate::fault::BulkFault;
use crate::gather::gather;
use crate::plan::Plan;
use crate::reducing::{Folding, any_order, join_onto};
use crate::searching::{Probed, Searching, search_alone};
use crate::traits::{Action, BasedReducer, Probe, Reducer};
use bin_history::{Remap, Value};
use chm::Quiet;
use completers::Found;
use hashkeys::HashKey;
use std::alloc::Allocator;
use std::sync::Wait;
use std::thread::Threads;
use steal_pool::Gate;

/// Bulk operations on a closed map, by one plan and with one allocator. Each waits for its workers.
///
/// Where `a` has the value 1, and `b` 2:
///
///     Bulk::new(rt, alloc, quiet, &Plan::new(0, 4)).reduce(&Greatest)? == Some(2)
#[derive(Drop)]
pub struct Bulk<'a, K: HashKey, V: Value, F: Remap<K, V>, A: Allocator, B: Allocator, G, Rt> {
    rt: &'a Rt,
    alloc: B,
    quiet: &'a Quiet<K, V, F, A>,
    plan: &'a Plan<'a, G>,
}

impl<
    'a,
    K: HashKey + Send + Sync,
    V: Value + Send + Sync,
    F: Remap<K, V> + Send + Sync,
    A: Allocator + Clone + Send + Sync,
    B: Allocator + Clone + Send + Sync,
    G: Gate + Sync,
    Rt: Threads + Wait + Sync,
> Bulk<'a, K, V, F, A, B, G, Rt> {
    /// Returns the operations on this map by this plan. They allocate with this allocator.
    pub fn new(
        rt: &'a Rt,
        alloc: B,
        quiet: &'a Quiet<K, V, F, A>,
        plan: &'a Plan<'a, G>,
    ) -> Bulk<'a, K, V, F, A, B, G, Rt>
        ensures quiet { result.quiet.now ≡ quiet.now }
        ensures plan { result.plan.now ≡ plan.now }
    {
        Bulk {
            rt,
            alloc,
            quiet,
            plan,
        }
    }

    /// Returns the value of all entries by the reducer, as the function `reduce` does.
    ///
    /// # Errors
    ///
    /// `BadWorkers`: the plan has not 1 to 16 workers. `NoMemory`: the reducer is out of memory.
    pub fn reduce<R: Reducer<K, V> + Sync>(&self, reducer: &R) -> Result<Option<R::A>, BulkFault>
    where
        R::A: Send,
        ensures fold { IfOk result
            (λ a. a ≡ plain_fold (R.lifted reducer.now) (R.joined reducer.now)
            (entries_of self.now.quiet.now.bins)) }
        ensures order { IfOk result (λ a. (es : List (K × V)) →
            IsPermutation (entries_of self.now.quiet.now.bins) es
            → a ≡ plain_fold (R.lifted reducer.now) (R.joined reducer.now) es) }
        ensures workers { IsPlanned self.now.plan.now.workers result }
        ensures total { IsTrue R.never_refuses → ¬ IsErrOf result BulkFault.NoMemory }
    {
        self.plan.check()?;
        any_order(reducer);
        Ok(gather(
            self.rt,
            &self.alloc,
            self.quiet,
            self.plan,
            &Folding { reducer },
        )?)
    }

    /// Returns the value of all entries by the reducer, as the function `reduce_based` does.
    ///
    /// # Errors
    ///
    /// `BadWorkers`: the plan has not 1 to 16 workers. `NoMemory`: the reducer is out of memory.
    pub fn reduce_based<R: BasedReducer<K, V> + Sync>(&self, reducer: &R) -> Result<R::A, BulkFault>
    where
        R::A: Send,
        ensures fold { IfOk result (λ a. a ≡ fold_from (R.lifted reducer.now) (R.joined reducer.now)
            (R.based reducer.now) (entries_of self.now.quiet.now.bins)) }
        ensures order { IfOk result (λ a. (es : List (K × V)) →
            IsPermutation (entries_of self.now.quiet.now.bins) es
            → a ≡ fold_from (R.lifted reducer.now) (R.joined reducer.now) (R.based reducer.now) es) }
        ensures workers { IsPlanned self.now.plan.now.workers result }
        ensures total { IsTrue R.never_refuses → ¬ IsErrOf result BulkFault.NoMemory }
    {
        self.plan.check()?;
        any_order(reducer);
        let basis = reducer.basis()?;
        let folding = Folding { reducer };
        let folded = gather(self.rt, &self.alloc, self.quiet, self.plan, &folding)?;
        Ok(join_onto(reducer, basis, folded)?)
    }

    /// Returns something that the probe finds in some entry, as the function `search` does.
    ///
    /// # Errors
    ///
    /// `BadWorkers`: the plan has not 1 to 16 workers. `NoMemory`: the probe is out of memory, and
    /// nothing was found.
    pub fn search<P: Probe<K, V> + Sync>(&self, probe: &P) -> Result<Option<P::U>, BulkFault>
    where
        P::U: Send,
        ensures found { IfOk result
            (IsSearched (P.probed probe.now) (entries_of self.now.quiet.now.bins)) }
        ensures workers { IsPlanned self.now.plan.now.workers result }
        ensures total { IsTrue P.never_refuses → ¬ IsErrOf result BulkFault.NoMemory }
    {
        self.plan.check()?;
        let found = Found::new();
        let searching = Searching {
            probe,
            found: &found,
            may_give_up: true,
        };
        match gather(self.rt, &self.alloc, self.quiet, self.plan, &searching) {
            Probed::Found(u) => Ok(Some(u)),
            Probed::Nothing => Ok(None),
            Probed::Refused => Err(BulkFault::NoMemory),
            Probed::GaveUp => search_alone(self.quiet.bins(), probe),
        }
    }

    /// Returns what the action returns for each entry, as the function `for_each` does.
    ///
    /// # Errors
    ///
    /// `BadWorkers`: the plan has not 1 to 16 workers. `NoMemory`: the action or the list
    /// of its results is out of memory. What was done is done.
    pub fn for_each<X: Action<K, V> + Sync>(&self, action: &X) -> Result<Vec<X::R, B>, BulkFault>
    where
        X::R: Send,
        ensures answers { IfOk result (λ list. list.items ≡ answers (X.acted action.now)
            (entries_of self.now.quiet.now.bins)) }
        ensures workers { IsPlanned self.now.plan.now.workers result }
    {
        self.plan.check()?;
        let acting = Acting {
            alloc: &self.alloc,
            action,
        };
        Ok(gather(self.rt, &self.alloc, self.quiet, self.plan, &acting)?)
    }
}
