//! The examples of the bulk operations, as they stand with them.
use crate::closed::{KeyQuiet, Look, on_rows};
use crate::samples::{Above, assert_same};
use bulk_tasks::{
    Action, Bulk, BulkFault, Greatest, Plan, Sum, for_each, reduce, reduce_based, search,
};
use hashkeys::Key;
use std::alloc::{AllocError, Global};
use std::process::Abort;
use std::sync::Wait;
use std::thread::Threads;

/// Answers each value.
struct Values;

impl Action<Key, i64> for Values {
    type R = i64;

    ghost acted = { λ _ _ v. v };

    fn act(&self, _key: &Key, value: &i64) -> Result<i64, AllocError> {
        Ok(*value)
    }
}

/// Whether each operation answers as its example says of a map in which `a` has the value 1, and
/// `b` 2.
fn examples<Rt: Threads + Wait + Sync>(
    rt: &Rt,
    alloc: Global,
    quiet: &KeyQuiet,
) -> Result<[bool; 5], BulkFault> {
    Ok([
        reduce(rt, alloc, quiet, &Plan::new(0, 4), &Greatest)? == Some(2),
        reduce_based(rt, alloc, quiet, &Plan::new(0, 4), &Sum)? == 3,
        search(rt, alloc, quiet, &Plan::new(0, 4), &Above(1))? == Some(2),
        for_each(rt, alloc, quiet, &Plan::new(0, 4), &Values)?.as_slice() == [1, 2].as_slice(),
        Bulk::new(rt, alloc, quiet, &Plan::new(0, 4)).reduce(&Greatest)? == Some(2),
    ])
}

/// Whether each example is as it says.
struct AsTold;

impl Look for AsTold {
    type Seen = Result<[bool; 5], BulkFault>;

    fn look<Rt: Threads + Wait + Sync + Abort>(
        &self,
        rt: &Rt,
        alloc: Global,
        quiet: &KeyQuiet,
    ) -> Result<[bool; 5], BulkFault> {
        examples(rt, alloc, quiet)
    }
}

#[test]
fn each_operation_answers_as_its_example_says(rt: HostRuntime) {
    let found = on_rows(&rt, rt.alloc(), 16, &[(b"a", 1), (b"b", 2)], &AsTold);
    assert_same(&rt, &found, &Ok([true; 5]));
}
