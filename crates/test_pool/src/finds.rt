//! Searches for one pair of several, by one worker and by more.
ghost use Rattle.std.specs.Prelude.{◌≡◌};

use crate::bulk::{Answering, found};
use crate::closed::{KeyQuiet, Look, on_counted, on_rows};
use crate::samples::assert_same;
use bulk_tasks::{BulkFault, Plan, Probe, search};
use hashkeys::Key;
use std::alloc::{AllocError, Global};
use std::process::Abort;
use std::sync::Wait;
use std::thread::Threads;

/// Finds the value 7, and is refused at any other.
struct Refusing;

impl Probe<Key, i64> for Refusing {
    ghost use Rattle.std.specs.Prelude.{false, Some};

    type U = i64;

    ghost probed = { λ _ _ v. Some v };

    ghost never_refuses = { false };

    fn probe(&self, _key: &Key, value: &i64) -> Result<Option<i64>, AllocError> {
        if *value == 7 {
            return Ok(Some(*value));
        }
        Err(AllocError)
    }
}

// In a table of 16 bins p, x and o lie in the bins 0, 8 and 15, the first, a middle and the last.
#[test]
fn one_pair_of_three_is_found(rt: HostRuntime) {
    let answering = Answering {
        thresholds: &[1],
        workers: &[1, 4],
        above: 2,
        wanted: found(12, 9, Some(9), 3),
    };
    for (p, x, o) in &[(9, 1, 2), (1, 9, 2), (1, 2, 9)] {
        on_rows(
            &rt,
            rt.alloc(),
            16,
            &[(b"p", *p), (b"x", *x), (b"o", *o)],
            &answering,
        );
    }
}

/// Searches, by so many workers, with a probe that is out of memory at each value but 7.
#[derive(Drop)]
struct FindingRefused {
    workers: usize,
}

impl Look for FindingRefused {
    type Seen = Result<Option<i64>, BulkFault>;

    fn look<Rt: Threads + Wait + Sync + Abort>(
        &self,
        rt: &Rt,
        alloc: Global,
        quiet: &KeyQuiet,
    ) -> Result<Option<i64>, BulkFault> {
        search(rt, alloc, quiet, &Plan::new(1, self.workers), &Refusing)
    }
}

#[test]
fn a_refused_probe_is_no_memory(rt: HostRuntime) {
    for workers in &[1, 4] {
        let finding = FindingRefused { workers: *workers };
        let found = on_counted(&rt, rt.alloc(), 1, &finding);
        assert_same(&rt, &found, &Err(BulkFault::NoMemory));
    }
}
