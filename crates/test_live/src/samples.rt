//! What the bulk operations of these tests are run on, and by.
ghost use Rattle.std.specs.Prelude.{◌≡◌};
ghost use Rattle.std.specs.Thread.{IsSync};

use facingberyl::bulk::{Action, Gate, Greatest, Plan, Probe, Sum};
use facingberyl::{Add, Fault, Salt, SharedMap};
use live_maps::{LiveFault, live_for_each, live_reduce, live_search};
use std::alloc::{AllocError, Global};
use std::fmt::Debug;
use std::process::Abort;
use std::sync::Wait;
use std::sync::atomic::AtomicU64;
use std::sync::atomic::Ordering::SeqCst;
use std::thread::Threads;

/// Asserts that what was found is what is wanted. A call of it is one step of the caller, which
/// goes on as it is.
pub(crate) fn assert_same<T: PartialEq + Debug>(rt: &impl Abort, found: &T, wanted: &T) {
    assert_eq!(rt; found, wanted);
}

/// A shared map of these tests.
pub(crate) type Numbers = SharedMap<u64, u64, Add, Global>;

/// A shared map of this many buckets at first, for so many clients, with each of the keys from 1 up,
/// whose value is the key.
pub(crate) fn filled<R: Wait>(
    rt: &R,
    alloc: Global,
    capacity: usize,
    clients: u32,
    keys: u64,
) -> Result<Numbers, Fault> {
    let map: Numbers = SharedMap::with_salt(alloc, capacity, clients, Salt(0))?;
    let mut client = map.client()?;
    for key in 1..=keys {
        client.put(rt, key, key)?;
    }
    drop(client);
    Ok(map)
}

/// What a test does with a shared map. The steps of a function that owns a map are long, so one function
/// owns it, and each test borrows it.
pub(crate) trait Look {
    /// What it returns.
    type Seen: Drop;

    fn look<R: Threads + Wait + Sync>(&self, rt: &R, map: &Numbers) -> Result<Self::Seen, Fault>
        requires { IsSync R.row };
}

/// Opens a map, fills it, and returns what the test does.
pub(crate) fn seen<R: Threads + Wait + Sync, L: Look>(
    rt: &R,
    alloc: Global,
    (capacity, clients, keys): (usize, u32, u64),
    look: &L,
) -> Result<L::Seen, Fault> {
    let map = filled(rt, alloc, capacity, clients, keys)?;
    look.look(rt, &map)
}

/// The number of values that an action collects; how many of them, in order, are 1, 2, 3 and so on; and
/// whether each of them is there once.
pub(crate) type Listed = (usize, u64, bool);

fn count_up(values: &[u64]) -> Listed {
    let (mut next, mut last, mut ascend) = (1u64, 0, true);
    for value in values {
        ascend = ascend && *value > last;
        last = *value;
        if last == next {
            next = next.wrapping_add(1);
        }
    }
    (values.len(), next.wrapping_sub(1), ascend)
}

pub(crate) fn listed<R: Threads + Wait + Sync, G: Gate + Sync>(
    rt: &R,
    map: &Numbers,
    plan: &Plan<'_, G>,
) -> Result<Listed, LiveFault> {
    let mut values = live_for_each(rt, map, plan, &Values)?;
    values.sort()?;
    Ok(count_up(&values))
}

/// What each operation returns: the sum, the greatest value, a value above some number, and what an
/// action collects.
pub(crate) type Answers = (
    Result<Option<u128>, LiveFault>,
    Result<Option<u64>, LiveFault>,
    Result<Option<u64>, LiveFault>,
    Result<Listed, LiveFault>,
);

pub(crate) fn answers<R: Threads + Wait + Sync>(
    rt: &R,
    map: &Numbers,
    workers: usize,
    above: u64,
) -> Answers {
    let plan = Plan::new(0, workers);
    (
        live_reduce(rt, map, &plan, &Sum),
        live_reduce(rt, map, &plan, &Greatest),
        live_search(rt, map, &plan, &Above(above)),
        listed(rt, map, &plan),
    )
}

/// Finds a value above its number.
#[derive(Drop)]
pub(crate) struct Above(pub(crate) u64);

impl Probe<u64, u64> for Above {
    ghost use Rattle.std.specs.Prelude.{Some, None, nat_lt, if◌then◌else◌, true};

    type U = u64;

    ghost probed = { λ p _ v. if nat_lt p.0 v then Some v else None };

    ghost never_refuses = { true };

    fn probe(&self, _key: &u64, value: &u64) -> Result<Option<u64>, AllocError> {
        if *value > self.0 {
            return Ok(Some(*value));
        }
        Ok(None)
    }
}

/// Finds each value, and counts how often it is asked.
#[derive(Drop)]
pub(crate) struct Any {
    pub(crate) calls: AtomicU64,
}

impl Probe<u64, u64> for Any {
    ghost use Rattle.std.specs.Prelude.{Some, true};

    type U = u64;

    ghost probed = { λ _ _ v. Some v };

    ghost never_refuses = { true };

    fn probe(&self, _key: &u64, value: &u64) -> Result<Option<u64>, AllocError> {
        self.calls.fetch_add(1, SeqCst);
        Ok(Some(*value))
    }
}

/// Returns the value of each entry.
#[derive(Drop)]
pub(crate) struct Values;

impl Action<u64, u64> for Values {
    type R = u64;

    ghost acted = { λ _ _ v. v };

    fn act(&self, _key: &u64, value: &u64) -> Result<u64, AllocError> {
        Ok(*value)
    }
}
