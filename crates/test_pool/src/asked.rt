//! How often what a caller gives is asked.
ghost use Rattle.std.specs.Prelude.{◌≡◌};

use crate::bulk::FindingAny;
use crate::closed::{KeyQuiet, Look, on_counted};
use crate::samples::{CountedAction, assert_same};
use bulk_tasks::{
    BasedReducer, BulkFault, Plan, Probe, Reducer, for_each, reduce, reduce_based, search,
};
use hashkeys::Key;
use std::alloc::{AllocError, Global};
use std::process::Abort;
use std::sync::Wait;
use std::sync::atomic::AtomicU64;
use std::sync::atomic::Ordering::SeqCst;
use std::thread::Threads;

/// Reduces to nothing, and counts how often it is asked for what.
#[derive(Drop)]
struct CountedReducer {
    lifts: AtomicU64,
    joins: AtomicU64,
    bases: AtomicU64,
}

fn new_reducer() -> CountedReducer {
    CountedReducer {
        lifts: AtomicU64::new(0),
        joins: AtomicU64::new(0),
        bases: AtomicU64::new(0),
    }
}

impl CountedReducer {
    /// How many values were lifted, how many pairs of them joined, and how often the basis was
    /// asked for.
    fn counts(&self) -> (u64, u64, u64) {
        (
            self.lifts.load(SeqCst),
            self.joins.load(SeqCst),
            self.bases.load(SeqCst),
        )
    }
}

impl Reducer<Key, i64> for CountedReducer {
    ghost use Rattle.std.specs.Prelude.{true};
    ghost use Rattle.std.proofs.Common.{refl};

    type A = ();

    ghost lifted = { λ _ _ _. tt };

    ghost joined = { λ _ _ _. tt };

    ghost within = { λ _ _ _. Unit {0} };

    ghost never_refuses = { true };

    fn lift(&self, _key: &Key, _value: &i64) -> Result<(), AllocError> {
        self.lifts.fetch_add(1, SeqCst);
        Ok(())
    }

    fn join(&self, _left: (), _right: ()) -> Result<(), AllocError> {
        self.joins.fetch_add(1, SeqCst);
        Ok(())
    }

    ghost associative = { λ _ a b c. refl };

    ghost commutative = { λ _ a b. refl };

    ghost joins = { λ _ n m a b p q. tt };
}

impl BasedReducer<Key, i64> for CountedReducer {
    ghost use Rattle.std.proofs.Common.{refl};

    ghost based = { λ _. tt };

    fn basis(&self) -> Result<(), AllocError> {
        self.bases.fetch_add(1, SeqCst);
        Ok(())
    }

    ghost identity = { λ _. ((λ k v. (refl, refl)), λ a b. (refl, refl)) };
}

/// Finds nothing, and counts how often it is asked.
#[derive(Drop)]
struct CountedNothing {
    calls: AtomicU64,
}

impl Probe<Key, i64> for CountedNothing {
    ghost use Rattle.std.specs.Prelude.{true, None};

    type U = i64;

    ghost probed = { λ _ _ _. None };

    ghost never_refuses = { true };

    fn probe(&self, _key: &Key, _value: &i64) -> Result<Option<i64>, AllocError> {
        self.calls.fetch_add(1, SeqCst);
        Ok(None)
    }
}

/// How many entries a map has, with how many workers and by which threshold it is gone through.
const PLANS: [(u32, usize, u64); 12] = [
    (0, 1, 1),
    (0, 4, 1),
    (1, 4, 1),
    (2, 1, 1),
    (5, 1, u64::MAX),
    (5, 4, 1),
    (64, 1, 1),
    (64, 4, 1),
    (64, 16, 1),
    (64, 16, 0),
    (64, 4, 9),
    (64, 4, u64::MAX),
];

/// Reduces without a basis, and from one. Returns what each reduction returns, and how often its reducer
/// is called.
#[derive(Drop)]
struct Reducing {
    workers: usize,
    threshold: u64,
}

type Reduced = (Result<Option<()>, BulkFault>, (u64, u64, u64));

type Based = (Result<(), BulkFault>, (u64, u64, u64));

impl Look for Reducing {
    type Seen = (Reduced, Based);

    fn look<Rt: Threads + Wait + Sync + Abort>(
        &self,
        rt: &Rt,
        alloc: Global,
        quiet: &KeyQuiet,
    ) -> (Reduced, Based) {
        let plan = Plan::new(self.threshold, self.workers);
        let (plain, based) = (new_reducer(), new_reducer());
        let reduced = reduce(rt, alloc, quiet, &plan, &plain);
        let from_basis = reduce_based(rt, alloc, quiet, &plan, &based);
        ((reduced, plain.counts()), (from_basis, based.counts()))
    }
}

// Each pair is lifted once, and so many values are joined by one join less. A basis is asked for
// once, and joined to what there is once.
#[test]
fn a_reducer_is_asked_once_a_pair(rt: HostRuntime) {
    for plan in &PLANS {
        let (count, workers, threshold) = *plan;
        let reducing = Reducing { workers, threshold };
        let found = on_counted(&rt, rt.alloc(), count, &reducing);
        let n = u64::from(count);
        let some = if count > 0 { Some(()) } else { None };
        let plain = (Ok(some), (n, n.saturating_sub(1), 0));
        assert_same(&rt, &found, &(plain, (Ok(()), (n, n, 1))));
    }
}

/// Searches for nothing. Returns what the search returns, and how often its probe is called.
#[derive(Drop)]
struct FindingNothing {
    workers: usize,
    threshold: u64,
}

impl Look for FindingNothing {
    type Seen = (Result<Option<i64>, BulkFault>, u64);

    fn look<Rt: Threads + Wait + Sync + Abort>(
        &self,
        rt: &Rt,
        alloc: Global,
        quiet: &KeyQuiet,
    ) -> (Result<Option<i64>, BulkFault>, u64) {
        let probe = CountedNothing {
            calls: AtomicU64::new(0),
        };
        let plan = Plan::new(self.threshold, self.workers);
        let found = search(rt, alloc, quiet, &plan, &probe);
        (found, probe.calls.load(SeqCst))
    }
}

#[test]
fn a_probe_that_finds_nothing_is_asked_once_a_pair(rt: HostRuntime) {
    for plan in &PLANS {
        let (count, workers, threshold) = *plan;
        let finding = FindingNothing { workers, threshold };
        let found = on_counted(&rt, rt.alloc(), count, &finding);
        assert_same(&rt, &found, &(Ok(None), u64::from(count)));
    }
}

// Each worker asks once at most, since each find of its own ends its task and it looks before the
// next.
#[test]
fn a_worker_that_found_something_asks_no_more(rt: HostRuntime) {
    for workers in 1..=16 {
        let (is_found, calls) = on_counted(&rt, rt.alloc(), 64, &FindingAny { workers });
        let is_asked = 0 < calls && calls <= workers as u64;
        assert_same(&rt, &(workers, is_found, is_asked), &(workers, true, true));
    }
}

/// Returns how many results an action has, and how often it is called.
#[derive(Drop)]
struct Acting {
    workers: usize,
    threshold: u64,
}

impl Look for Acting {
    type Seen = (Result<usize, BulkFault>, u64);

    fn look<Rt: Threads + Wait + Sync + Abort>(
        &self,
        rt: &Rt,
        alloc: Global,
        quiet: &KeyQuiet,
    ) -> (Result<usize, BulkFault>, u64) {
        let action = CountedAction {
            calls: AtomicU64::new(0),
        };
        let plan = Plan::new(self.threshold, self.workers);
        let len = match for_each(rt, alloc, quiet, &plan, &action) {
            Ok(list) => Ok(list.len()),
            Err(fault) => Err(fault),
        };
        (len, action.calls.load(SeqCst))
    }
}

#[test]
fn an_action_is_called_once_a_pair(rt: HostRuntime) {
    for plan in &PLANS {
        let (count, workers, threshold) = *plan;
        let found = on_counted(&rt, rt.alloc(), count, &Acting { workers, threshold });
        assert_same(&rt, &found, &(Ok(count as usize), u64::from(count)));
    }
}
