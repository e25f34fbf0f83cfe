//! What an action returns for all that a live map shows.
ghost use Rattle.std.specs.Prelude.{◌≡◌, ◌≤◌, [], length, All, IfOk, IsErrOf};
ghost use Rattle.std.specs.List.{AllZip};
ghost use Rattle.bin_history.specs.Calls.{after};
ghost use Rattle.count_ledger.specs.Fronts.{HasSeenMore};
ghost use Rattle.chm.specs.Shares.{AreSameClients};
ghost use Rattle.live_bulk.specs.Plans.{IsPlanned};
ghost use Rattle.live_bulk.specs.Shared.{IsActed};
ghost use Rattle.part_walks.specs.Parts.{most_shares};

use crate::clients::clients_for;
use crate::fault::LiveFault;
use crate::gather::gather;
use bin_history::{Remap, Value};
use bulk_tasks::{Action, Gate, Plan};
use chm::{Map, Pass};
use hashkeys::HashKey;
use part_walks::{Stepper, Taker};
use std::alloc::{AllocError, Allocator};
use std::sync::Wait;
use std::thread::Threads;

/// Collects what an action returns.
#[derive(Drop)]
pub(crate) struct Acting<'a, X, B: Allocator> {
    pub(crate) alloc: B,
    pub(crate) action: &'a X,
}

impl<K, V, X: Action<K, V>, B: Allocator + Clone> Taker<K, V> for Acting<'_, X, B> {
    ghost use Rattle.std.specs.Prelude.{◌≡◌, IfOk};
    ghost use Rattle.bulk_tasks.specs.Actions.{answers};

    type Part = Result<Vec<X::R, B>, AllocError>;

    ghost reached = { λ c es part. IfOk part
        (λ list. list.items ≡ answers (X.acted c.action.now) es) };

    fn add(
        &self,
        part: Result<Vec<X::R, B>, AllocError>,
        key: &K,
        value: &V,
    ) -> Result<Vec<X::R, B>, AllocError> {
        let mut list = part?;
        let answer = self.action.act(key, value)?;
        list.push(answer)?;
        Ok(list)
    }
}

impl<K, V, X: Action<K, V>, B: Allocator + Clone> Stepper<K, V> for Acting<'_, X, B> {
    ghost use Rattle.std.specs.Prelude.{IsErr};

    ghost ends = { λ _ part. IsErr part };

    fn start(&self) -> Result<Vec<X::R, B>, AllocError> {
        Ok(Vec::new(self.alloc.clone()?))
    }

    fn look_again(
        &self,
        part: Result<Vec<X::R, B>, AllocError>,
    ) -> Result<Vec<X::R, B>, AllocError> {
        part
    }

    fn is_settled(&self, part: &Result<Vec<X::R, B>, AllocError>) -> bool {
        part.is_err()
    }

    fn append(
        &self,
        left: Result<Vec<X::R, B>, AllocError>,
        right: Result<Vec<X::R, B>, AllocError>,
    ) -> Result<Vec<X::R, B>, AllocError> {
        let mut list = left?;
        let mut more = right?;
        list.append(&mut more)?;
        Ok(list)
    }
}

/// Does the action with each entry that the clients with these passes are shown, each in its share
/// of the buckets, and returns what it returned, one an entry. Each bucket is shown as all calls
/// before had left it; no key is shown twice. On a map that nobody calls meanwhile the list is that
/// of `bulk::for_each` of the closed map, in another order where the table has grown.
///
/// It waits for the buckets and for its clients, and allocates the list and a seat for each client.
/// Each bucket is locked while the action is done with its entries, so an action must not call the
/// map. By each client the passes have seen more, whatever it returns.
///
/// Where 1 has the value 5, and the action returns the value:
///
///     live_for_each(rt, &map, &mut passes, &Plan::new(0, 4), &Values)?.as_slice() == [5].as_slice()
///
/// # Errors
///
/// `BadWorkers`: the plan has not 1 to 16 workers. `NoClient`: there is no pass. `NoMemory`: the
/// action was refused memory, or the list or the seats were. What was done is done.
pub fn live_for_each<
    K: HashKey + Send + Sync,
    V: Value + Send + Sync,
    F: Remap<K, V> + Send + Sync,
    A: Allocator + Clone + Send + Sync,
    X: Action<K, V> + Sync,
    G: Gate + Sync,
    R: Threads + Wait + Sync,
>(
    rt: &R,
    map: &Map<K, V, F, A>,
    passes: &mut Vec<Pass<K, V, F>, A>,
    plan: &Plan<'_, G>,
    action: &X,
) -> Result<Vec<X::R, A>, LiveFault>
where
    X::R: Send,
    requires own { All (λ p. p.ledger ≡ map.now.ledger.id) passes.old.items }
    requires few { length passes.old.items ≤ most_shares }
    ensures own { All (λ p. p.ledger ≡ map.now.ledger.id) passes.new.items }
    ensures len { length passes.new.items ≡ length passes.old.items }
    ensures clients { AreSameClients passes.old.items passes.new.items }
    ensures seen { AllZip HasSeenMore passes.old.items passes.new.items }
    ensures answers { IfOk result (λ list. IsActed K.eq K.code (after V.eq F.remapped F.merged)
        (X.acted action.now) map.now.ledger passes.old.items passes.new.items list.items) }
    ensures workers { IsPlanned plan.now.workers result }
    ensures no_client { IsErrOf result LiveFault.NoClient → passes.old.items ≡ [] }
    ensures few_enough { IsErrOf result LiveFault.TooMany → ⊥ }
{
    let _clients = clients_for(map, plan)?;
    let acting = Acting {
        alloc: passes.allocator().clone()?,
        action,
    };
    let part = gather(rt, map, passes, plan, &acting)?;
    let list = part?;
    Ok(list)
}
