//! A retain by a function that changes with each call: what it is called for, in which order, how many
//! entries are removed, and where it stops.
use crate::runs::{BOTH_FORMS, run, run_rows};

#[test]
fn each_entry_is_asked_once_in_order(rt: HostRuntime) {
    // 0, 2, 4, .. 62 are removed: the sum of 1, 3, 5, .. 63 is left.
    run_rows(
        &rt,
        rt.alloc(),
        "open $0 1 1
        twins 6 0 64
        made = 64
        every_second = 32 64 1
        made = 96
        close
        keys = 32
        sum = 1024",
        BOTH_FORMS,
    );
}

#[test]
fn a_full_pass_stops_before_the_function_is_called(rt: HostRuntime) {
    // "q" and "a" are of one bucket. The pass has one call left of a million.
    run(
        &rt,
        rt.alloc(),
        "open recorded 16 1
        put q 0 = none
        put a 1 = none
        often 999997 1
        every_second = full 1 1 1
        every_second = full 0 0 1
        close
        keys = 1
        sum = 1",
    );
}

#[test]
fn the_error_counts_what_was_removed(rt: HostRuntime) {
    // Two keys of one bucket and one of another. A bucket has room for four records at first, so that
    // "q" and "a", with three puts, take one remove more without memory.
    run_rows(
        &rt,
        rt.alloc(),
        "open recorded 16 1
        put q 1 = none
        put a 2 = none
        put Aa 3 = none
        put q 4 = 1
        made = 4
        grant $0
        keep_above max = $1 $2
        grant max
        made = $3",
        "0 no-memory 2 6
        max 3 0 7",
    );
}

#[test]
fn a_step_counts_the_entries_of_its_bucket(rt: HostRuntime) {
    // A table of one bucket grows to two with its first key.
    run_rows(
        &rt,
        rt.alloc(),
        "open $0 1 1
        put a 5 = none
        cursor
        drop_rest 5 = 2 1
        close
        keys = 0
        sum = 0",
        BOTH_FORMS,
    );
}
