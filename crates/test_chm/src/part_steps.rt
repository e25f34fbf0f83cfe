//! Steps by the cursor of a table that is wider or narrower than the map's, and of one whose buckets
//! are not all moved.
use crate::runs::run_rows;

/// The form, by which call a step is made, and how many of the three keys are left.
const WAYS: &str = "
    recorded visit 3
    recorded try 3
    recorded show 3
    recorded drop 0
    lean visit 3
    lean try 3
    lean show 3
    lean drop 0
";

// The hashes of `Aa`, `q` and `a` are 2112, 113 and 97.
#[test]
fn a_walk_goes_in_the_order_of_the_table_of_its_beginning(rt: HostRuntime) {
    // Three keys make a table of one bucket grow to eight.
    run_rows(
        &rt,
        rt.alloc(),
        "open $0 1 1
        put Aa 300 = none
        put q 1 = none
        put a 20 = none
        cursor
        step $1 8 0 Aa 300
        step $1 8 1 q 1 a 20
        empty_steps $1 8 2 8
        at_end = true
        close
        keys = $2",
        WAYS,
    );
}

#[test]
fn a_bucket_that_was_not_moved_is_met_by_its_parts(rt: HostRuntime) {
    // With six requests granted the table grows to two buckets, and the one bucket is not moved.
    run_rows(
        &rt,
        rt.alloc(),
        "open $0 1 1
        grant 6
        put a 20 = none
        grant max
        cursor
        step $1 2 0
        step $1 2 1 a 20
        at_end = true
        close
        keys = $2",
        "recorded visit 1
        recorded try 1
        recorded show 1
        recorded drop 0
        lean visit 1
        lean try 1
        lean show 1
        lean drop 0",
    );
}

#[test]
fn a_cursor_of_a_wider_table_meets_each_bucket_by_its_parts(rt: HostRuntime) {
    run_rows(
        &rt,
        rt.alloc(),
        "open $0 16 1
        put Aa 300 = none
        put q 1 = none
        put a 20 = none
        cursor 64
        step $1 64 0 Aa 300
        empty_steps $1 64 1 33
        step $1 64 33 a 20
        empty_steps $1 64 34 49
        step $1 64 49 q 1
        empty_steps $1 64 50 64
        at_end = true
        close
        keys = $2",
        WAYS,
    );
}

#[test]
fn a_cursor_of_a_narrower_table_meets_what_its_buckets_became(rt: HostRuntime) {
    run_rows(
        &rt,
        rt.alloc(),
        "open $0 16 1
        put Aa 300 = none
        put q 1 = none
        put a 20 = none
        cursor 4
        step $1 16 0 Aa 300
        step $1 16 8
        step $1 16 4
        step $1 16 12
        step $1 16 1 q 1 a 20
        step $1 16 9
        step $1 16 5
        step $1 16 13
        step $1 16 2
        step $1 16 10
        step $1 16 6
        step $1 16 14
        step $1 16 3
        step $1 16 11
        step $1 16 7
        step $1 16 15
        at_end = true
        close
        keys = $2",
        WAYS,
    );
}
