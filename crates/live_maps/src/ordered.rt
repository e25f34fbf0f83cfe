//! Bulk operations on a shared map that others call meanwhile, ordered by a moment.
ghost use Rattle.std.specs.Prelude.{◌≡◌, ◌≤◌, List, All, IfErr, IfOk, IsErrOf, length};
ghost use Rattle.bin_history.specs.Calls.{after};
ghost use Rattle.count_ledger.specs.Fronts.{BeginsWith};
ghost use Rattle.count_ledger.specs.Views.{PassView};
ghost use Rattle.live_bulk.specs.Plans.{IsPlanned};
ghost use Rattle.live_bulk.specs.Shared.{AreTooMany, IsActed, IsFound, IsReduced};
ghost use Rattle.live_maps.specs.Moments.{AreBetween};

use crate::moments::{hear_each, tell_each};
use bin_history::{Remap, Value};
use bulk_tasks::{Action, Gate, Plan, Probe, Reducer};
use chm::{Moment, Pass};
use clients::SharedMap;
use hashkeys::HashKey;
use live_bulk::LiveFault;
use std::alloc::Allocator;
use std::sync::Wait;
use std::thread::Threads;

/// Takes up to this many passes, whose clients learn of the moment. It waits for nobody.
fn take_some<K: HashKey, V: Value, F: Remap<K, V>, A: Allocator + Clone>(
    map: &SharedMap<K, V, F, A>,
    wanted: usize,
    moment: &mut Moment<K, V, F>,
) -> Result<Vec<Pass<K, V, F>, A>, LiveFault>
    requires { moment.old.ledger ≡ map.now.ledger.id }
    ensures own { IfOk result (λ v. All (λ p. p.ledger ≡ map.now.ledger.id) v.items) }
    ensures few { IfOk result (λ v. length v.items ≤ wanted) }
    ensures told { IfOk result (λ v. All (λ p. BeginsWith p.seen moment.old.seen) v.items) }
    ensures same { moment.new ≡ moment.old }
    ensures faults { IfErr result (λ fault. fault ≡ LiveFault.NoMemory) }
{
    let Ok(mut passes) = map.lend_passes(wanted) else {
        return Err(LiveFault::NoMemory);
    };
    tell_each(map.map(), &mut passes, moment);
    Ok(passes)
}

/// Gives the passes back, once the moment has learned of what their clients have seen.
fn bring_all<K: HashKey, V: Value, F: Remap<K, V>, A: Allocator + Clone>(
    map: &SharedMap<K, V, F, A>,
    mut passes: Vec<Pass<K, V, F>, A>,
    moment: &mut Moment<K, V, F>,
)
    requires moment { moment.old.ledger ≡ map.now.ledger.id }
    requires own { All (λ p. p.ledger ≡ map.now.ledger.id) passes.items }
    ensures heard { All (λ p. BeginsWith moment.new.seen p.seen) passes.items }
    ensures ledger { moment.new.ledger ≡ moment.old.ledger }
    ensures more { BeginsWith moment.new.seen moment.old.seen }
{
    hear_each(map.map(), &mut passes, moment);
    map.return_passes(passes);
}

/// Returns the value of the map's entries by the reducer, as `live_reduce` does, after all calls that
/// the moment knows: the clients learn of it before they walk, so each bucket shows what these calls
/// left, or what later calls made of it. The moment then knows the calls that the clients saw.
///
/// Where 1 has the value 5 at the moment, and 2 has 6:
///
///     let mut moment = client.moment();
///     assert_eq!(live_reduce_after(rt, &map, &mut moment, &plan, &Greatest)?, Some(6));
///
/// # Errors
///
/// Those of `live_reduce`. Clients that had begun have told the moment what they saw.
pub fn live_reduce_after<
    K: HashKey + Send + Sync,
    V: Value + Send + Sync,
    F: Remap<K, V> + Send + Sync,
    A: Allocator + Clone + Send + Sync,
    T: Reducer<K, V> + Sync,
    G: Gate + Sync,
    R: Threads + Wait + Sync,
>(
    rt: &R,
    map: &SharedMap<K, V, F, A>,
    moment: &mut Moment<K, V, F>,
    plan: &Plan<'_, G>,
    reducer: &T,
) -> Result<Option<T::A>, LiveFault>
where
    T::A: Send,
    requires { moment.old.ledger ≡ map.now.ledger.id }
    ensures fold { IfOk result (λ a. (olds : List (PassView K V F)) × (news : List (PassView K V F))
        × AreBetween moment.old.seen olds news moment.new.seen
        × IsReduced K.eq K.code (after V.eq F.remapped F.merged) (T.lifted reducer.now)
        (T.joined reducer.now) map.now.ledger olds news a) }
    ensures workers { IsPlanned plan.now.workers result }
    ensures too_many { IsErrOf result LiveFault.TooMany → (olds : List (PassView K V F))
        × (news : List (PassView K V F)) × AreBetween moment.old.seen olds news moment.new.seen
        × AreTooMany K.eq K.code (after V.eq F.remapped F.merged) map.now.ledger olds news }
    ensures ledger { moment.new.ledger ≡ moment.old.ledger }
    ensures more { BeginsWith moment.new.seen moment.old.seen }
{
    let wanted = live_bulk::clients_for(map.map(), plan)?;
    let mut passes = take_some(map, wanted, moment)?;
    let reduced = live_bulk::live_reduce(rt, map.map(), &mut passes, plan, reducer);
    bring_all(map, passes, moment);
    reduced
}

/// Returns something that the probe finds in an entry of the map, or none, as `live_search` does, after
/// all calls that the moment knows, as `live_reduce_after`. The moment then knows the calls that the
/// clients saw.
///
/// Where 1 has the value 5 at the moment, and 2 has 6:
///
///     let mut moment = client.moment();
///     assert_eq!(live_search_after(rt, &map, &mut moment, &plan, &Above(5))?, Some(6));
///
/// # Errors
///
/// Those of `live_search`. Clients that had begun have told the moment what they saw.
pub fn live_search_after<
    K: HashKey + Send + Sync,
    V: Value + Send + Sync,
    F: Remap<K, V> + Send + Sync,
    A: Allocator + Clone + Send + Sync,
    P: Probe<K, V> + Sync,
    G: Gate + Sync,
    R: Threads + Wait + Sync,
>(
    rt: &R,
    map: &SharedMap<K, V, F, A>,
    moment: &mut Moment<K, V, F>,
    plan: &Plan<'_, G>,
    probe: &P,
) -> Result<Option<P::U>, LiveFault>
where
    P::U: Send,
    requires { moment.old.ledger ≡ map.now.ledger.id }
    ensures found { IfOk result (λ u. (olds : List (PassView K V F)) × (news : List (PassView K V F))
        × AreBetween moment.old.seen olds news moment.new.seen
        × IsFound K.eq K.code (after V.eq F.remapped F.merged) (P.probed probe.now) map.now.ledger
        olds news u) }
    ensures workers { IsPlanned plan.now.workers result }
    ensures few_enough { IsErrOf result LiveFault.TooMany → ⊥ }
    ensures ledger { moment.new.ledger ≡ moment.old.ledger }
    ensures more { BeginsWith moment.new.seen moment.old.seen }
{
    let wanted = live_bulk::clients_for(map.map(), plan)?;
    let mut passes = take_some(map, wanted, moment)?;
    let found = live_bulk::live_search(rt, map.map(), &mut passes, plan, probe);
    bring_all(map, passes, moment);
    found
}

/// Does the action with each entry of the map, as `live_for_each` does, after all calls that the moment
/// knows, as `live_reduce_after`, and returns what it returned, one an entry. The moment then knows the
/// calls that the clients saw.
///
/// Where 1 has the value 5 at the moment, and the action returns the value:
///
///     let mut moment = client.moment();
///     assert_eq!(live_for_each_after(rt, &map, &mut moment, &plan, &Values)?.len(), 1);
///
/// # Errors
///
/// Those of `live_for_each`. Clients that had begun have told the moment what they saw.
pub fn live_for_each_after<
    K: HashKey + Send + Sync,
    V: Value + Send + Sync,
    F: Remap<K, V> + Send + Sync,
    A: Allocator + Clone + Send + Sync,
    X: Action<K, V> + Sync,
    G: Gate + Sync,
    R: Threads + Wait + Sync,
>(
    rt: &R,
    map: &SharedMap<K, V, F, A>,
    moment: &mut Moment<K, V, F>,
    plan: &Plan<'_, G>,
    action: &X,
) -> Result<Vec<X::R, A>, LiveFault>
where
    X::R: Send,
    requires { moment.old.ledger ≡ map.now.ledger.id }
    ensures answers { IfOk result (λ list. (olds : List (PassView K V F))
        × (news : List (PassView K V F)) × AreBetween moment.old.seen olds news moment.new.seen
        × IsActed K.eq K.code (after V.eq F.remapped F.merged) (X.acted action.now)
        map.now.ledger olds news list.items) }
    ensures workers { IsPlanned plan.now.workers result }
    ensures few_enough { IsErrOf result LiveFault.TooMany → ⊥ }
    ensures ledger { moment.new.ledger ≡ moment.old.ledger }
    ensures more { BeginsWith moment.new.seen moment.old.seen }
{
    let wanted = live_bulk::clients_for(map.map(), plan)?;
    let mut passes = take_some(map, wanted, moment)?;
    let list = live_bulk::live_for_each(rt, map.map(), &mut passes, plan, action);
    bring_all(map, passes, moment);
    list
}
