//! What clients that work together learn of a moment, and what it learns of them.
ghost use Rattle.std.specs.Prelude.{◌≡◌, All, IfOk, IsErrOf, length};
ghost use Rattle.count_ledger.specs.Fronts.{BeginsWith};
ghost use Rattle.live_bulk.specs.Plans.{IsPlanned};

use bin_history::{Remap, Value};
use bulk_tasks::Plan;
use chm::{Fault, Map, Moment, Pass};
use clients::SharedMap;
use hashkeys::HashKey;
use live_bulk::LiveFault;
use std::alloc::Allocator;

/// The clients with these passes learn of the moment. It takes no memory, and waits for nobody.
pub(crate) fn tell_each<K: HashKey, V: Value, F: Remap<K, V>, A: Allocator>(
    map: &Map<K, V, F, A>,
    passes: &mut [Pass<K, V, F>],
    moment: &mut Moment<K, V, F>,
)
    requires own { All (λ p. p.ledger ≡ map.now.ledger.id) passes.old }
    requires moment { moment.old.ledger ≡ map.now.ledger.id }
    ensures own { All (λ p. p.ledger ≡ map.now.ledger.id) passes.new }
    ensures len { length passes.new ≡ length passes.old }
    ensures told { All (λ p. BeginsWith p.seen moment.old.seen) passes.new }
    ensures same { moment.new ≡ moment.old }
{
    for i in 0..passes.len() {
        map.learn(&mut passes[i], moment);
    }
}

/// The moment learns of all that the clients with these passes have seen. It takes no memory, and waits
/// for nobody.
pub(crate) fn hear_each<K: HashKey, V: Value, F: Remap<K, V>, A: Allocator>(
    map: &Map<K, V, F, A>,
    passes: &mut [Pass<K, V, F>],
    moment: &mut Moment<K, V, F>,
)
    requires own { All (λ p. p.ledger ≡ map.now.ledger.id) passes.old }
    requires moment { moment.old.ledger ≡ map.now.ledger.id }
    ensures own { All (λ p. p.ledger ≡ map.now.ledger.id) passes.new }
    ensures len { length passes.new ≡ length passes.old }
    ensures heard { All (λ p. BeginsWith moment.new.seen p.seen) passes.old }
    ensures ledger { moment.new.ledger ≡ moment.old.ledger }
    ensures more { BeginsWith moment.new.seen moment.old.seen }
{
    for i in 0..passes.len() {
        let pass = &mut passes[i];
        map.learn(pass, moment);
        *moment = map.moment(pass);
    }
}

/// What some client that is free has seen. It waits for nobody.
///
/// # Errors
///
/// `BadWorkers`, `NoClient` and `NoMemory`, as of the operation by the plan.
pub(crate) fn any_moment<K: HashKey, V: Value, F: Remap<K, V>, A: Allocator + Clone, G>(
    map: &SharedMap<K, V, F, A>,
    plan: &Plan<'_, G>,
) -> Result<Moment<K, V, F>, LiveFault>
    ensures moment { IfOk result (λ m. m.ledger ≡ map.now.ledger.id) }
    ensures workers { IsPlanned plan.now.workers result }
    ensures few_enough { IsErrOf result LiveFault.TooMany → ⊥ }
{
    let _wanted = live_bulk::clients_for(map.map(), plan)?;
    match map.client() {
        Ok(mut client) => Ok(client.moment()),
        Err(Fault::NoMemory) => Err(LiveFault::NoMemory),
        Err(_) => Err(LiveFault::NoClient),
    }
}
