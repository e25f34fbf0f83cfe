//! A search of all entries.
ghost use Rattle.std.specs.Prelude.{◌≡◌, IfOk, IsErrOf, IsTrue};
ghost use Rattle.chm.specs.Headline.{entries_of};
ghost use Rattle.bulk_tasks.specs.Plans.{IsPlanned};
ghost use Rattle.bulk_tasks.specs.Searches.{IsSearched};

use crate::collector::Collector;
use crate::fault::BulkFault;
use crate::operations::Bulk;
use crate::plan::Plan;
use crate::stepping::{Stepper, step_through};
use crate::traits::Probe;
use bin_history::{Bin, Remap, Value};
use chm::Quiet;
use completers::{Finds, Found};
use hashkeys::HashKey;
use std::alloc::Allocator;
use std::sync::Wait;
use std::thread::Threads;
use steal_pool::Gate;

/// What a part of a search has come to. It gives up where another has found something.
#[derive(Drop)]
pub enum Probed<U> {
    Found(U),
    Nothing,
    GaveUp,
    Refused,
}

/// A search tells that something was found, and not where: whoever finds something claims index 0.
pub(crate) struct Somewhere;

impl Finds for Somewhere {
    ghost use Rattle.std.specs.Prelude.{◌≡◌};

    ghost finds = { λ index. index ≡ 0 };
}

/// Collects the first that a probe finds. Where it may give up, a part does so at the first bin
/// that it comes to after something was found.
#[derive(Drop)]
pub(crate) struct Searching<'a, P> {
    pub(crate) probe: &'a P,
    pub(crate) found: &'a Found<Somewhere>,
    pub(crate) may_give_up: bool,
}

impl<K, V, P: Probe<K, V>> Stepper<K, V> for Searching<'_, P> {
    ghost use Rattle.std.specs.Prelude.{IsTrue};
    ghost use Rattle.bulk_tasks.specs.Searches.{IsProbed};

    type Part = Probed<P::U>;

    ghost reached = { λ c es part. IsProbed (P.probed c.probe.now) P.never_refuses
        (IsTrue c.may_give_up) es part };

    fn start(&self) -> Probed<P::U> {
        Probed::Nothing
    }

    fn add(&self, part: Probed<P::U>, key: &K, value: &V) -> Probed<P::U> {
        let Probed::Nothing = part else {
            return part;
        };
        match self.probe.probe(key, value) {
            Ok(None) => Probed::Nothing,
            Ok(Some(u)) => {
                self.found.claim(0);
                Probed::Found(u)
            }
            Err(_) => Probed::Refused,
        }
    }

    fn look_again(&self, part: Probed<P::U>) -> Probed<P::U> {
        match part {
            Probed::Nothing => {
                if self.may_give_up && self.found.look().is_some() {
                    return Probed::GaveUp;
                }
                Probed::Nothing
            }
            other => other,
        }
    }

    fn is_settled(&self, part: &Probed<P::U>) -> bool {
        match part {
            Probed::Nothing => false,
            _ => true,
        }
    }
}

impl<K: HashKey, V: Value, F: Remap<K, V>, A: Allocator + Clone, P: Probe<K, V>> Collector<
    K,
    V,
    F,
    A,
> for Searching<'_, P> {
    ghost use Rattle.std.specs.Prelude.{IsTrue};
    ghost use Rattle.bulk_tasks.specs.Searches.{IsProbed};

    type Part = Probed<P::U>;

    ghost collected = { λ c es part. IsProbed (P.probed c.probe.now) P.never_refuses
        (IsTrue c.may_give_up) es part };

    fn collect(&self, bins: &[Bin<K, V, F, A>]) -> Probed<P::U> {
        step_through(self, bins)
    }

    fn append(&self, left: Probed<P::U>, right: Probed<P::U>) -> Probed<P::U> {
        match left {
            Probed::Found(u) => Probed::Found(u),
            Probed::Nothing => right,
            Probed::GaveUp => match right {
                Probed::Found(u) => Probed::Found(u),
                Probed::Refused => Probed::Refused,
                _ => Probed::GaveUp,
            },
            Probed::Refused => match right {
                Probed::Found(u) => Probed::Found(u),
                _ => Probed::Refused,
            },
        }
    }
}

/// A search by the caller alone, which does not give up.
pub(crate) fn search_alone<
    K: HashKey,
    V: Value,
    F: Remap<K, V>,
    A: Allocator + Clone,
    P: Probe<K, V>,
>(bins: &[Bin<K, V, F, A>], probe: &P) -> Result<Option<P::U>, BulkFault>
    ensures found { IfOk result (IsSearched (P.probed probe.now) (entries_of bins.now)) }
    ensures faults { ¬ IsErrOf result BulkFault.BadWorkers }
    ensures total { IsTrue P.never_refuses → ¬ IsErrOf result BulkFault.NoMemory }
{
    let found = Found::new();
    let alone = Searching {
        probe,
        found: &found,
        may_give_up: false,
    };
    match step_through(&alone, bins) {
        Probed::Found(u) => Ok(Some(u)),
        Probed::Nothing => Ok(None),
        Probed::Refused => Err(BulkFault::NoMemory),
        Probed::GaveUp => unreachable!(),
    }
}

/// Returns something that the probe finds in some entry, or none where it finds nothing in any.
/// Once something is found, other entries may be left out. With a probe that never fails it fails
/// for a bad number of workers alone. It takes time linear in the entries, shared by the plan's
/// workers, for which it waits. It locks nothing of the map.
///
/// Where `a` has the value 1, and `b` 2, and the probe finds a value above its number:
///
///     search(rt, alloc, quiet, &Plan::new(0, 4), &Above(1))? == Some(2)
///
/// # Errors
///
/// `BadWorkers` where the plan has not 1 to 16 workers; `NoMemory` where the probe is out of memory,
/// and nothing was found.
pub fn search<
    K: HashKey + Send + Sync,
    V: Value + Send + Sync,
    F: Remap<K, V> + Send + Sync,
    A: Allocator + Clone + Send + Sync,
    B: Allocator + Clone + Send + Sync,
    P: Probe<K, V> + Sync,
    G: Gate + Sync,
    Rt: Threads + Wait + Sync,
>(
    rt: &Rt,
    alloc: B,
    quiet: &Quiet<K, V, F, A>,
    plan: &Plan<'_, G>,
    probe: &P,
) -> Result<Option<P::U>, BulkFault>
where
    P::U: Send,
    ensures found { IfOk result (IsSearched (P.probed probe.now) (entries_of quiet.now.bins)) }
    ensures workers { IsPlanned plan.now.workers result }
    ensures total { IsTrue P.never_refuses → ¬ IsErrOf result BulkFault.NoMemory }
{
    Bulk::new(rt, alloc, quiet, plan).search(probe)
}
