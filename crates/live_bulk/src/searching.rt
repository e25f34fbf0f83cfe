//! A search of what a live map shows.
ghost use Rattle.std.specs.Prelude.{◌≡◌, ◌≤◌, [], length, All, IfOk, OnErr, IsErrOf, IsTrue};
ghost use Rattle.std.specs.List.{AllZip};
ghost use Rattle.bin_history.specs.Calls.{after};
ghost use Rattle.count_ledger.specs.Fronts.{HasSeenMore};
ghost use Rattle.chm.specs.Shares.{AreSameClients};
ghost use Rattle.live_bulk.specs.Plans.{IsPlanned};
ghost use Rattle.live_bulk.specs.Searches.{IsMore, IsProbed};
ghost use Rattle.live_bulk.specs.Shared.{HaveGathered, IsFound, IsSought};
ghost use Rattle.part_walks.specs.Parts.{most_shares};

use crate::fault::LiveFault;
use crate::gather::gather;
use bin_history::{Remap, Value};
use bulk_tasks::{Gate, Plan, Probe};
use chm::{Map, Pass};
use hashkeys::HashKey;
use part_walks::{Stepper, Taker};
use std::alloc::Allocator;
use std::sync::Wait;
use std::sync::atomic::{AtomicBool, Ordering};
use std::thread::Threads;

/// What a search has come to. It gives up where another worker has found something.
#[derive(Drop)]
pub enum Probed<U> {
    Found(U),
    Nothing,
    GaveUp,
    Refused,
}

/// Collects the first that a probe finds. Where it may give up, a worker does so at the first bucket
/// that it comes to after another has found something.
#[derive(Drop)]
pub(crate) struct Searching<'a, P> {
    pub(crate) probe: &'a P,
    pub(crate) found: &'a AtomicBool,
    pub(crate) may_give_up: bool,
}

impl<K, V, P: Probe<K, V>> Taker<K, V> for Searching<'_, P> {
    ghost use Rattle.std.specs.Prelude.{IsTrue};
    ghost use Rattle.live_bulk.specs.Searches.{IsProbed};

    type Part = Probed<P::U>;

    ghost reached = { λ c es part. IsProbed (P.probed c.probe.now) P.never_refuses
        (IsTrue c.may_give_up) es part };

    fn add(&self, part: Probed<P::U>, key: &K, value: &V) -> Probed<P::U> {
        let Probed::Nothing = part else {
            return part;
        };
        match self.probe.probe(key, value) {
            Ok(None) => Probed::Nothing,
            Ok(Some(u)) => {
                self.found.store(true, Ordering::SeqCst);
                Probed::Found(u)
            }
            Err(_) => Probed::Refused,
        }
    }
}

impl<K, V, P: Probe<K, V>> Stepper<K, V> for Searching<'_, P> {
    ghost use Rattle.live_bulk.specs.Searches.{IsMore};

    ghost ends = { λ _ part. IsMore part };

    fn start(&self) -> Probed<P::U> {
        Probed::Nothing
    }

    fn look_again(&self, part: Probed<P::U>) -> Probed<P::U> {
        match part {
            Probed::Nothing => {
                if self.may_give_up && self.found.load(Ordering::SeqCst) {
                    return Probed::GaveUp;
                }
                Probed::Nothing
            }
            other => other,
        }
    }

    fn is_settled(&self, part: &Probed<P::U>) -> bool {
        match part {
            Probed::Nothing => false,
            _ => true,
        }
    }

    fn append(&self, left: Probed<P::U>, right: Probed<P::U>) -> Probed<P::U> {
        match left {
            Probed::Found(u) => Probed::Found(u),
            Probed::Nothing => right,
            Probed::GaveUp => match right {
                Probed::Found(u) => Probed::Found(u),
                Probed::Refused => Probed::Refused,
                _ => Probed::GaveUp,
            },
            Probed::Refused => match right {
                Probed::Found(u) => Probed::Found(u),
                _ => Probed::Refused,
            },
        }
    }
}

/// What a search comes to where workers may give up or may not.
fn search_once<
    K: HashKey + Send + Sync,
    V: Value + Send + Sync,
    F: Remap<K, V> + Send + Sync,
    A: Allocator + Clone + Send + Sync,
    P: Probe<K, V> + Sync,
    G: Gate + Sync,
    R: Threads + Wait + Sync,
>(
    rt: &R,
    map: &Map<K, V, F, A>,
    passes: &mut Vec<Pass<K, V, F>, A>,
    plan: &Plan<'_, G>,
    probe: &P,
    may_give_up: bool,
) -> Result<Probed<P::U>, LiveFault>
where
    P::U: Send,
    requires own { All (λ p. p.ledger ≡ map.now.ledger.id) passes.old.items }
    requires few { length passes.old.items ≤ most_shares }
    ensures own { All (λ p. p.ledger ≡ map.now.ledger.id) passes.new.items }
    ensures len { length passes.new.items ≡ length passes.old.items }
    ensures clients { AreSameClients passes.old.items passes.new.items }
    ensures seen { AllZip HasSeenMore passes.old.items passes.new.items }
    ensures gathered { IfOk result (HaveGathered K.eq K.code (after V.eq F.remapped F.merged)
        (IsProbed (P.probed probe.now) P.never_refuses (IsTrue may_give_up)) IsMore map.now.ledger
        passes.old.items passes.new.items) }
    ensures refused { OnErr result (passes.new.items ≡ passes.old.items) }
    ensures workers { IsPlanned plan.now.workers result }
    ensures no_client { IsErrOf result LiveFault.NoClient → passes.old.items ≡ [] }
    ensures few_enough { IsErrOf result LiveFault.TooMany → ⊥ }
{
    let found = AtomicBool::new(false);
    let searching = Searching {
        probe,
        found: &found,
        may_give_up,
    };
    gather(rt, map, passes, plan, &searching)
}

/// A search in which no worker gives up.
fn search_whole<
    K: HashKey + Send + Sync,
    V: Value + Send + Sync,
    F: Remap<K, V> + Send + Sync,
    A: Allocator + Clone + Send + Sync,
    P: Probe<K, V> + Sync,
    G: Gate + Sync,
    R: Threads + Wait + Sync,
>(
    rt: &R,
    map: &Map<K, V, F, A>,
    passes: &mut Vec<Pass<K, V, F>, A>,
    plan: &Plan<'_, G>,
    probe: &P,
) -> Result<Option<P::U>, LiveFault>
where
    P::U: Send,
    requires own { All (λ p. p.ledger ≡ map.now.ledger.id) passes.old.items }
    requires few { length passes.old.items ≤ most_shares }
    ensures own { All (λ p. p.ledger ≡ map.now.ledger.id) passes.new.items }
    ensures len { length passes.new.items ≡ length passes.old.items }
    ensures clients { AreSameClients passes.old.items passes.new.items }
    ensures seen { AllZip HasSeenMore passes.old.items passes.new.items }
    ensures sought { IfOk result (IsSought K.eq K.code (after V.eq F.remapped F.merged)
        (P.probed probe.now) map.now.ledger passes.old.items passes.new.items) }
    ensures workers { IsPlanned plan.now.workers result }
    ensures no_client { IsErrOf result LiveFault.NoClient → passes.old.items ≡ [] }
    ensures few_enough { IsErrOf result LiveFault.TooMany → ⊥ }
{
    let part = search_once(rt, map, passes, plan, probe, false)?;
    match part {
        Probed::Found(u) => Ok(Some(u)),
        Probed::Nothing => Ok(None),
        Probed::Refused => Err(LiveFault::NoMemory),
        Probed::GaveUp => unreachable!(),
    }
}

/// Returns something that the probe finds in some entry that the clients with these passes are
/// shown, each in its share of the buckets: the entry was there at the front of its client. Returns
/// none where it finds nothing in any, and then no key was left out and none was shown twice. Once
/// something is found the clients leave the rest out. On a map that nobody calls meanwhile it
/// returns what `bulk::search` may return of the closed map.
///
/// It waits for the buckets and for its clients, and allocates a seat for each client. Each bucket
/// is locked while the probe is shown its entries, so a probe must not call the map. By each client
/// the passes have seen more, whatever it returns.
///
/// Where 1 has the value 5, and 2 has 6, and the probe finds a value above its number:
///
///     live_search(rt, &map, &mut passes, &Plan::new(0, 4), &Above(5))? == Some(6)
///
/// # Errors
///
/// `BadWorkers`: the plan has not 1 to 16 workers. `NoClient`: there is no pass. `NoMemory`: the
/// probe was refused memory and nothing was found, or the seats were.
pub fn live_search<
    K: HashKey + Send + Sync,
    V: Value + Send + Sync,
    F: Remap<K, V> + Send + Sync,
    A: Allocator + Clone + Send + Sync,
    P: Probe<K, V> + Sync,
    G: Gate + Sync,
    R: Threads + Wait + Sync,
>(
    rt: &R,
    map: &Map<K, V, F, A>,
    passes: &mut Vec<Pass<K, V, F>, A>,
    plan: &Plan<'_, G>,
    probe: &P,
) -> Result<Option<P::U>, LiveFault>
where
    P::U: Send,
    requires own { All (λ p. p.ledger ≡ map.now.ledger.id) passes.old.items }
    requires few { length passes.old.items ≤ most_shares }
    ensures own { All (λ p. p.ledger ≡ map.now.ledger.id) passes.new.items }
    ensures len { length passes.new.items ≡ length passes.old.items }
    ensures clients { AreSameClients passes.old.items passes.new.items }
    ensures seen { AllZip HasSeenMore passes.old.items passes.new.items }
    ensures found { IfOk result (IsFound K.eq K.code (after V.eq F.remapped F.merged)
        (P.probed probe.now) map.now.ledger passes.old.items passes.new.items) }
    ensures workers { IsPlanned plan.now.workers result }
    ensures no_client { IsErrOf result LiveFault.NoClient → passes.old.items ≡ [] }
    ensures few_enough { IsErrOf result LiveFault.TooMany → ⊥ }
{
    let part = search_once(rt, map, passes, plan, probe, true)?;
    match part {
        Probed::Found(u) => Ok(Some(u)),
        Probed::Nothing => Ok(None),
        Probed::Refused => Err(LiveFault::NoMemory),
        Probed::GaveUp => search_whole(rt, map, passes, plan, probe),
    }
}
