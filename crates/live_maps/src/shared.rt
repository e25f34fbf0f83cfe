//! Bulk operations on a shared map that others call meanwhile.
ghost use Rattle.std.specs.Prelude.{List, IfOk, IsErrOf};
ghost use Rattle.bin_history.specs.Calls.{after};
ghost use Rattle.count_ledger.specs.Views.{PassView};
ghost use Rattle.live_bulk.specs.Plans.{IsPlanned};
ghost use Rattle.live_bulk.specs.Shared.{AreTooMany, IsActed, IsFound, IsReduced};

use crate::moments::any_moment;
use crate::ordered::{live_for_each_after, live_reduce_after, live_search_after};
use bin_history::{Remap, Value};
use bulk_tasks::{Action, Gate, Plan, Probe, Reducer};
use clients::SharedMap;
use hashkeys::HashKey;
use live_bulk::LiveFault;
use std::alloc::Allocator;
use std::sync::Wait;
use std::thread::Threads;

/// Returns the value of the map's entries by the reducer, none of no entries, while others go on
/// calling. As many clients as the plan has workers, or those that are free, each walk over a share of
/// the buckets in a thread of their own; a share whose thread cannot be started is walked over by
/// another. Each bucket is shown as all calls before had left it, and no key is shown twice.
///
/// It waits for the locks of the buckets and for its workers, and allocates lists of the clients and
/// of what they collect. A bucket is locked while the reducer is shown its entries, so a reducer must
/// not call the map.
///
/// Where 1 has the value 5, and 2 has 6:
///
///     assert_eq!(live_reduce(rt, &map, &Plan::new(0, 4), &Greatest)?, Some(6));
///
/// # Errors
///
/// `BadWorkers`: the plan has not 1 to 16 workers. `NoClient`: no client is free. `NoMemory`: the
/// reducer or the operation was refused memory. `TooMany`: 2^64 entries were shown. The map goes on.
pub fn live_reduce<
    K: HashKey + Send + Sync,
    V: Value + Send + Sync,
    F: Remap<K, V> + Send + Sync,
    A: Allocator + Clone + Send + Sync,
    T: Reducer<K, V> + Sync,
    G: Gate + Sync,
    R: Threads + Wait + Sync,
>(
    rt: &R,
    map: &SharedMap<K, V, F, A>,
    plan: &Plan<'_, G>,
    reducer: &T,
) -> Result<Option<T::A>, LiveFault>
where
    T::A: Send,
    ensures fold { IfOk result (λ a. (olds : List (PassView K V F)) × (news : List (PassView K V F))
        × IsReduced K.eq K.code (after V.eq F.remapped F.merged) (T.lifted reducer.now)
        (T.joined reducer.now) map.now.ledger olds news a) }
    ensures workers { IsPlanned plan.now.workers result }
    ensures too_many { IsErrOf result LiveFault.TooMany → (olds : List (PassView K V F))
        × (news : List (PassView K V F)) × AreTooMany K.eq K.code (after V.eq F.remapped F.merged)
        map.now.ledger olds news }
{
    let mut moment = any_moment(map, plan)?;
    live_reduce_after(rt, map, &mut moment, plan, reducer)
}

/// Returns something that the probe finds in an entry of the map, or none, while others go on
/// calling. The clients walk as in `live_reduce`, and leave the rest out once one has found something.
/// What is found was there when its bucket was shown; where nothing is, no key was left out.
///
/// It waits for the locks of the buckets and for its workers, and allocates lists of the clients and
/// of what they collect. A bucket is locked while the probe is shown its entries, so a probe must not
/// call the map.
///
/// Where 1 has the value 5, and 2 has 6, and the probe finds a value above its number:
///
///     assert_eq!(live_search(rt, &map, &Plan::new(0, 4), &Above(5))?, Some(6));
///
/// # Errors
///
/// `BadWorkers`: the plan has not 1 to 16 workers. `NoClient`: no client is free. `NoMemory`: the
/// operation was refused memory, or the probe was and nothing was found. The map goes on.
pub fn live_search<
    K: HashKey + Send + Sync,
    V: Value + Send + Sync,
    F: Remap<K, V> + Send + Sync,
    A: Allocator + Clone + Send + Sync,
    P: Probe<K, V> + Sync,
    G: Gate + Sync,
    R: Threads + Wait + Sync,
>(
    rt: &R,
    map: &SharedMap<K, V, F, A>,
    plan: &Plan<'_, G>,
    probe: &P,
) -> Result<Option<P::U>, LiveFault>
where
    P::U: Send,
    ensures found { IfOk result (λ u. (olds : List (PassView K V F)) × (news : List (PassView K V F))
        × IsFound K.eq K.code (after V.eq F.remapped F.merged) (P.probed probe.now) map.now.ledger
        olds news u) }
    ensures workers { IsPlanned plan.now.workers result }
    ensures few_enough { IsErrOf result LiveFault.TooMany → ⊥ }
{
    let mut moment = any_moment(map, plan)?;
    live_search_after(rt, map, &mut moment, plan, probe)
}

/// Does the action with each entry of the map, while others go on calling, and returns what it
/// returned, one an entry. The clients walk as in `live_reduce`.
///
/// It waits for the locks of the buckets and for its workers, and allocates the list, and lists of
/// the clients and of what they collect. A bucket is locked while the action is done with its
/// entries, so an action must not call the map.
///
/// Where 1 has the value 5, and the action returns the value:
///
///     assert!(live_for_each(rt, &map, &Plan::new(0, 4), &Values)?.as_slice() == [5].as_slice());
///
/// # Errors
///
/// `BadWorkers`: the plan has not 1 to 16 workers. `NoClient`: no client is free. `NoMemory`: the
/// action or the operation was refused memory; what was done is done. The map goes on.
pub fn live_for_each<
    K: HashKey + Send + Sync,
    V: Value + Send + Sync,
    F: Remap<K, V> + Send + Sync,
    A: Allocator + Clone + Send + Sync,
    X: Action<K, V> + Sync,
    G: Gate + Sync,
    R: Threads + Wait + Sync,
>(
    rt: &R,
    map: &SharedMap<K, V, F, A>,
    plan: &Plan<'_, G>,
    action: &X,
) -> Result<Vec<X::R, A>, LiveFault>
where
    X::R: Send,
    ensures answers { IfOk result (λ list. (olds : List (PassView K V F))
        × (news : List (PassView K V F)) × IsActed K.eq K.code (after V.eq F.remapped F.merged)
        (X.acted action.now) map.now.ledger olds news list.items) }
    ensures workers { IsPlanned plan.now.workers result }
    ensures few_enough { IsErrOf result LiveFault.TooMany → ⊥ }
{
    let mut moment = any_moment(map, plan)?;
    live_for_each_after(rt, map, &mut moment, plan, action)
}
