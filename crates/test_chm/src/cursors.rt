//! Walks that go a bucket at a time.
use crate::runs::{BOTH_FORMS, run_rows};

#[test]
fn a_client_calls_between_two_steps_of_its_walk(rt: HostRuntime) {
    // A put into the bucket that is next, and 14 buckets behind it.
    run_rows(
        &rt,
        rt.alloc(),
        "open $0 16 1
        put Aa 3 = none
        put q 1 = none
        cursor
        step visit 16 0 Aa 3
        put a 2 = none
        step visit 16 1 q 1 a 2
        rest = 14 0
        at_end = true",
        BOTH_FORMS,
    );
}

#[test]
fn a_walk_shows_each_key_once_whatever_was_divided(rt: HostRuntime) {
    // The table grows behind the first step. Of all keys 98 are not of its bucket.
    run_rows(
        &rt,
        rt.alloc(),
        "open $0 16 1
        put Aa 3 = none
        put q 1 = none
        put a 2 = none
        cursor
        step visit 16 0 Aa 3
        numbers 0 100
        rest_in_wider = 98 1
        close
        others 16 = 98",
        BOTH_FORMS,
    );
}

#[test]
fn a_refused_step_is_made_again(rt: HostRuntime) {
    // The copy of the one entry asks once.
    run_rows(
        &rt,
        rt.alloc(),
        "open $0 16 1
        put Aa 3 = none
        cursor
        grant $1
        visit = $2
        grant max
        $3 visit 16 0 Aa 3",
        "recorded 0 no-memory step
        recorded 1 1 skip
        lean 0 no-memory step
        lean 1 1 skip",
    );
}

#[test]
fn a_function_is_shown_each_entry_where_it_lies(rt: HostRuntime) {
    run_rows(
        &rt,
        rt.alloc(),
        "open $0 16 1
        put q 1 = none
        put a 20 = none
        put Aa 300 = none
        put zzzzzz 4000 = none
        grant 0
        cursor
        show_all = 4321 1
        refused = false
        grant max",
        BOTH_FORMS,
    );
}
