//! Walks that go by numbers.
use crate::runs::{BOTH_FORMS, run_rows};

#[test]
fn a_step_by_a_number_within_a_bucket_shows_what_begins_there(rt: HostRuntime) {
    // Of four buckets the number 6 is of the one with index 2, and begins its part of eight with index 6;
    // 7 begins the same part of the last one. A table of 2^2 buckets has the numbers from 3 times 2^26 =
    // 201326592 on, and none begins at 28 times 2^26 = 1879048192 or behind it.
    run_rows(
        &rt,
        rt.alloc(),
        "open $0 4 1
        at 0 = 0 201326593
        at 1 = 1 201326594
        at 6 = 6 201326595
        at 7 = 7 max
        at 201326595 = 3 max
        at 1879048191 = 67108863 max
        at 1879048192 = none max
        at 18446744073709551615 = none max
        close
        bins = 4
        pairs",
        BOTH_FORMS,
    );
}

#[test]
fn a_walk_by_numbers_goes_by_the_table_of_its_beginning(rt: HostRuntime) {
    // One that began in a table of one bucket, whose numbers begin at 2^26 = 67108864, meets those that
    // became of it: first the low half, of the indexes 0 and 2, and then the high one.
    run_rows(
        &rt,
        rt.alloc(),
        "open $0 4 1
        at 67108864 = 0 67108866
        at 67108866 = 2 67108865
        at 67108865 = 1 67108867
        at 67108867 = 3 max
        close
        bins = 4
        pairs",
        BOTH_FORMS,
    );
}

#[test]
fn a_walk_by_numbers_begins_by_the_table_of_just_then(rt: HostRuntime) {
    // Three keys make a table of one bucket grow to 2^3, whose numbers begin at 4 times 2^26 = 268435456.
    run_rows(
        &rt,
        rt.alloc(),
        "open $0 1 1
        at 0 = 0 max
        numbers 0 3
        at 0 = 0 268435457
        at 268435457 = 1 268435458
        at 268435463 = 7 max
        close
        bins = 8
        keys = 3",
        BOTH_FORMS,
    );
}
