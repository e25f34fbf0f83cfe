//! What an action answers for all entries.
ghost use Rattle.std.specs.Prelude.{◌≡◌, IfOk};
ghost use Rattle.chm.specs.Headline.{entries_of};
ghost use Rattle.bulk_tasks.specs.Actions.{answers};
ghost use Rattle.bulk_tasks.specs.Plans.{IsPlanned};

use crate::collector::Collector;
use crate::fault::BulkFault;
use crate::operations::Bulk;
use crate::plan::Plan;
use crate::stepping::{Stepper, step_through};
use crate::traits::Action;
use bin_history::{Bin, Remap, Value};
use chm::Quiet;
use hashkeys::HashKey;
use std::alloc::{AllocError, Allocator};
use std::sync::Wait;
use std::thread::Threads;
use steal_pool::Gate;

/// Collects what an action answers.
#[derive(Drop)]
pub(crate) struct Acting<'a, X, B: Allocator> {
    pub(crate) alloc: &'a B,
    pub(crate) action: &'a X,
}

impl<K, V, X: Action<K, V>, B: Allocator + Clone> Stepper<K, V> for Acting<'_, X, B> {
    ghost use Rattle.std.specs.Prelude.{◌≡◌, IfOk};
    ghost use Rattle.bulk_tasks.specs.Actions.{answers};

    type Part = Result<Vec<X::R, B>, AllocError>;

    ghost reached = { λ c es part. IfOk part
        (λ list. list.items ≡ answers (X.acted c.action.now) es) };

    fn start(&self) -> Result<Vec<X::R, B>, AllocError> {
        Ok(Vec::new(self.alloc.clone()?))
    }

    fn add(
        &self,
        part: Result<Vec<X::R, B>, AllocError>,
        key: &K,
        value: &V,
    ) -> Result<Vec<X::R, B>, AllocError> {
        let mut list = part?;
        let answer = self.action.act(key, value)?;
        list.push(answer)?;
        Ok(list)
    }

    fn look_again(
        &self,
        part: Result<Vec<X::R, B>, AllocError>,
    ) -> Result<Vec<X::R, B>, AllocError> {
        part
    }

    fn is_settled(&self, part: &Result<Vec<X::R, B>, AllocError>) -> bool {
        part.is_err()
    }
}

impl<
    K: HashKey,
    V: Value,
    F: Remap<K, V>,
    A: Allocator + Clone,
    X: Action<K, V>,
    B: Allocator + Clone,
> Collector<K, V, F, A> for Acting<'_, X, B> {
    ghost use Rattle.std.specs.Prelude.{◌≡◌, IfOk};
    ghost use Rattle.bulk_tasks.specs.Actions.{answers};

    type Part = Result<Vec<X::R, B>, AllocError>;

    ghost collected = { λ c es part. IfOk part
        (λ list. list.items ≡ answers (X.acted c.action.now) es) };

    fn collect(&self, bins: &[Bin<K, V, F, A>]) -> Result<Vec<X::R, B>, AllocError> {
        step_through(self, bins)
    }

    fn append(
        &self,
        left: Result<Vec<X::R, B>, AllocError>,
        right: Result<Vec<X::R, B>, AllocError>,
    ) -> Result<Vec<X::R, B>, AllocError> {
        let mut list = left?;
        let mut more = right?;
        list.append(&mut more)?;
        Ok(list)
    }
}

/// Does the action with each entry, and returns the results in walk order, one an entry. Where
/// memory runs out, what was done is done, and no result is returned. It takes time linear
/// in the entries, shared by the plan's workers, for which it waits. It locks nothing of the map.
/// It allocates the list of the results.
///
/// Where `a` has the value 1, and `b` 2, and the action returns the value:
///
///     for_each(rt, alloc, quiet, &Plan::new(0, 4), &Values)?.as_slice() == [1, 2].as_slice()
///
/// # Errors
///
/// `BadWorkers` where the plan has not 1 to 16 workers; `NoMemory` where the action or the list of the
/// results is out of memory.
pub fn for_each<
    K: HashKey + Send + Sync,
    V: Value + Send + Sync,
    F: Remap<K, V> + Send + Sync,
    A: Allocator + Clone + Send + Sync,
    B: Allocator + Clone + Send + Sync,
    X: Action<K, V> + Sync,
    G: Gate + Sync,
    Rt: Threads + Wait + Sync,
>(
    rt: &Rt,
    alloc: B,
    quiet: &Quiet<K, V, F, A>,
    plan: &Plan<'_, G>,
    action: &X,
) -> Result<Vec<X::R, B>, BulkFault>
where
    X::R: Send,
    ensures answers { IfOk result
        (λ list. list.items ≡ answers (X.acted action.now) (entries_of quiet.now.bins)) }
    ensures workers { IsPlanned plan.now.workers result }
{
    Bulk::new(rt, alloc, quiet, plan).for_each(action)
}
