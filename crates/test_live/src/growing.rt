//! Bulk operations on a map whose table grows under the workers' feet.
use crate::samples::{Above, Listed, Look, Numbers, assert_same, listed, seen};
use facingberyl::Fault;
use facingberyl::bulk::{Gate, Greatest, Plan};
use live_maps::{LiveFault, live_reduce, live_search};
use std::process::Abort;
use std::sync::Wait;
use std::sync::atomic::AtomicU64;
use std::sync::atomic::Ordering::SeqCst;
use std::thread::Threads;

/// Puts so many keys into the map at each share that a worker comes to, when the size of the table
/// that is shared out is fixed: from 1,001 up, each with its key as its value.
#[derive(Drop)]
struct Filling<'a, R> {
    rt: &'a R,
    map: &'a Numbers,
    keys: u64,
    next: AtomicU64,
}

impl<R: Wait> Gate for Filling<'_, R> {
    fn leaf(&self, _worker: usize, _lo: usize, _hi: usize) {
        let Ok(mut client) = self.map.client() else {
            return;
        };
        for _key in 0..self.keys {
            let key = self.next.fetch_add(1, SeqCst);
            let _ = client.put(self.rt, key, key);
        }
    }
}

/// A plan whose gate puts 600 keys at each share.
fn gate_of<'a, R: Wait>(rt: &'a R, map: &'a Numbers) -> Filling<'a, R> {
    Filling {
        rt,
        map,
        keys: 600,
        next: AtomicU64::new(1_001),
    }
}

/// What is listed, whether the table has grown, and the key that is put next.
type Grown = (Result<Listed, LiveFault>, bool, u64);

/// Lists the values by so many workers while the table grows.
fn list_growing<R: Threads + Wait + Sync>(
    rt: &R,
    map: &Numbers,
    workers: usize,
) -> Result<Grown, Fault> {
    // (all passes are made, since two threads do not make one at the same time)
    let passes = map.lend_passes(20)?;
    map.return_passes(passes);
    let before = map.map().table_size();
    let gate = gate_of(rt, map);
    let plan = Plan {
        threshold: 0,
        workers,
        gate: &gate,
    };
    let listed = listed(rt, map, &plan);
    let has_grown = map.map().table_size() > before;
    Ok((listed, has_grown, gate.next.load(SeqCst)))
}

/// Lists the values by so many workers while the table grows.
#[derive(Drop)]
struct Growing {
    workers: usize,
}

impl Look for Growing {
    type Seen = Grown;

    fn look<R: Threads + Wait + Sync>(&self, rt: &R, map: &Numbers) -> Result<Grown, Fault> {
        list_growing(rt, map, self.workers)
    }
}

/// The 100 keys that were there before are shown once each. Those that were put meanwhile, 600 a share,
/// are shown at most once. A table of 100 keys has 256 buckets, which are too few for 384.
#[test]
fn keys_are_shown_once_while_the_table_grows(rt: HostRuntime) {
    for workers in 1..=8 {
        let found = seen(&rt, rt.alloc(), (1, 20, 100), &Growing { workers });
        let Ok((Ok((count, old, ascend)), has_grown, next)) = found else {
            assert!(rt; false, "no fault");
            return;
        };
        let is_few = count <= 100 + 600 * workers;
        let found = (old, ascend, is_few, has_grown, next);
        let wanted = (100, true, true, true, 1_001 + 600 * workers as u64);
        assert_same(&rt, &found, &wanted);
    }
}

type Found = Result<Option<u64>, LiveFault>;

/// Returns the greatest value that one worker is shown, and then a value above 2,199.
fn find_by_one<R: Threads + Wait + Sync>(rt: &R, map: &Numbers) -> [Found; 2] {
    let gate = gate_of(rt, map);
    let plan = Plan {
        threshold: 0,
        workers: 1,
        gate: &gate,
    };
    [
        live_reduce(rt, map, &plan, &Greatest),
        live_search(rt, map, &plan, &Above(2_199)),
    ]
}

/// Finds by one worker while the table grows.
struct ByOneWorker;

impl Look for ByOneWorker {
    type Seen = [Found; 2];

    fn look<R: Threads + Wait + Sync>(&self, rt: &R, map: &Numbers) -> Result<[Found; 2], Fault> {
        Ok(find_by_one(rt, map))
    }
}

/// With one worker all was put before its first bucket: it is shown 700 keys, the greatest 1,600.
#[test]
fn one_worker_is_shown_what_was_put_before_it_began(rt: HostRuntime) {
    let found = seen(&rt, rt.alloc(), (1, 2, 100), &ByOneWorker);
    assert_same(&rt, &found, &Ok([Ok(Some(1_600)), Ok(Some(2_200))]));
}
