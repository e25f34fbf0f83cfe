//! Bulk operations on a team's map that stays open.
ghost use Rattle.std.specs.Prelude.{◌≡◌, IfOk, IsErrOf};
ghost use Rattle.std.specs.List.{AllZip};
ghost use Rattle.bin_history.specs.Calls.{after};
ghost use Rattle.count_ledger.specs.Fronts.{HasSeenMore};
ghost use Rattle.live_bulk.specs.Plans.{IsPlanned};
ghost use Rattle.live_bulk.specs.Shared.{AreTooMany, IsActed, IsFound, IsReduced};

use bin_history::{Remap, Value};
use bulk_tasks::{Action, Gate, Plan, Probe, Reducer};
use clients::Team;
use hashkeys::HashKey;
use live_bulk::LiveFault;
use std::alloc::Allocator;
use std::sync::Wait;
use std::thread::Threads;

/// Returns the team, and the value of its map's entries by the reducer, none of no entries: the
/// clients walk over the map, each over a share of the buckets, in as many threads as the plan has
/// workers. No key is shown twice. The map stays open, and each client has then seen the calls that
/// its buckets show.
///
/// It waits for the clients, and allocates lists of them and of what they collect. A bucket is locked
/// while the reducer is shown its entries, so a reducer must not call the map.
///
///     let (team, greatest) = team_reduce(rt, team, &Plan::new(0, 4), &Greatest);
///
/// # Errors
///
/// `BadWorkers`: the plan has not 1 to 16 workers. `NoMemory`: the reducer or the operation was
/// refused memory. `TooMany`: 2^64 entries were shown. The team is returned in each case.
pub fn team_reduce<
    K: HashKey + Send + Sync,
    V: Value + Send + Sync,
    F: Remap<K, V> + Send + Sync,
    A: Allocator + Clone + Send + Sync,
    T: Reducer<K, V> + Sync,
    G: Gate + Sync,
    R: Threads + Wait + Sync,
>(
    rt: &R,
    team: Team<K, V, F, A>,
    plan: &Plan<'_, G>,
    reducer: &T,
) -> (Team<K, V, F, A>, Result<Option<T::A>, LiveFault>)
where
    T::A: Send,
    ensures map { result.0.map ≡ team.map }
    ensures seen { AllZip HasSeenMore team.passes result.0.passes }
    ensures fold { IfOk result.1 (IsReduced K.eq K.code (after V.eq F.remapped F.merged)
        (T.lifted reducer.now) (T.joined reducer.now) team.map.ledger team.passes result.0.passes) }
    ensures workers { IsPlanned plan.now.workers result.1 }
    ensures no_client { IsErrOf result.1 LiveFault.NoClient → ⊥ }
    ensures too_many { IsErrOf result.1 LiveFault.TooMany → AreTooMany K.eq K.code
        (after V.eq F.remapped F.merged) team.map.ledger team.passes result.0.passes }
{
    let (map, mut passes) = team.into_parts();
    let _clients = map.clients();
    let reduced = live_bulk::live_reduce(rt, &map, &mut passes, plan, reducer);
    (Team::of(map, passes), reduced)
}

/// Returns the team, and something that the probe finds in an entry of its map, or none. The clients
/// walk as in `team_reduce`, and leave the rest out once one has found something.
///
/// It waits for the clients, and allocates lists of them and of what they collect. A bucket is locked
/// while the probe is shown its entries, so a probe must not call the map.
///
///     let (team, found) = team_search(rt, team, &Plan::new(0, 4), &Above(38));
///
/// # Errors
///
/// `BadWorkers`: the plan has not 1 to 16 workers. `NoMemory`: the operation was refused memory, or
/// the probe was and nothing was found. The team is returned in each case.
pub fn team_search<
    K: HashKey + Send + Sync,
    V: Value + Send + Sync,
    F: Remap<K, V> + Send + Sync,
    A: Allocator + Clone + Send + Sync,
    P: Probe<K, V> + Sync,
    G: Gate + Sync,
    R: Threads + Wait + Sync,
>(
    rt: &R,
    team: Team<K, V, F, A>,
    plan: &Plan<'_, G>,
    probe: &P,
) -> (Team<K, V, F, A>, Result<Option<P::U>, LiveFault>)
where
    P::U: Send,
    ensures map { result.0.map ≡ team.map }
    ensures seen { AllZip HasSeenMore team.passes result.0.passes }
    ensures found { IfOk result.1 (IsFound K.eq K.code (after V.eq F.remapped F.merged)
        (P.probed probe.now) team.map.ledger team.passes result.0.passes) }
    ensures workers { IsPlanned plan.now.workers result.1 }
    ensures no_client { IsErrOf result.1 LiveFault.NoClient → ⊥ }
    ensures few_enough { IsErrOf result.1 LiveFault.TooMany → ⊥ }
{
    let (map, mut passes) = team.into_parts();
    let _clients = map.clients();
    let found = live_bulk::live_search(rt, &map, &mut passes, plan, probe);
    (Team::of(map, passes), found)
}

/// Does the action with each entry of the team's map, and returns the team, and what the action
/// returned, one an entry. The clients walk as in `team_reduce`.
///
/// It waits for the clients, and allocates the list, and lists of the clients and of what they
/// collect. A bucket is locked while the action is done with its entries, so an action must not call
/// the map.
///
///     let (team, list) = team_for_each(rt, team, &Plan::new(0, 4), &Values);
///
/// # Errors
///
/// `BadWorkers`: the plan has not 1 to 16 workers. `NoMemory`: the action or the operation was
/// refused memory; what was done is done. The team is returned in each case.
pub fn team_for_each<
    K: HashKey + Send + Sync,
    V: Value + Send + Sync,
    F: Remap<K, V> + Send + Sync,
    A: Allocator + Clone + Send + Sync,
    X: Action<K, V> + Sync,
    G: Gate + Sync,
    R: Threads + Wait + Sync,
>(
    rt: &R,
    team: Team<K, V, F, A>,
    plan: &Plan<'_, G>,
    action: &X,
) -> (Team<K, V, F, A>, Result<Vec<X::R, A>, LiveFault>)
where
    X::R: Send,
    ensures map { result.0.map ≡ team.map }
    ensures seen { AllZip HasSeenMore team.passes result.0.passes }
    ensures answers { IfOk result.1 (λ list. IsActed K.eq K.code (after V.eq F.remapped F.merged)
        (X.acted action.now) team.map.ledger team.passes result.0.passes list.items) }
    ensures workers { IsPlanned plan.now.workers result.1 }
    ensures no_client { IsErrOf result.1 LiveFault.NoClient → ⊥ }
    ensures few_enough { IsErrOf result.1 LiveFault.TooMany → ⊥ }
{
    let (map, mut passes) = team.into_parts();
    let _clients = map.clients();
    let list = live_bulk::live_for_each(rt, &map, &mut passes, plan, action);
    (Team::of(map, passes), list)
}
