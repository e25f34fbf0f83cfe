//! How many bins there are, with growth and after opening again.
use crate::runs::{run, run_rows};

/// A form, for how many bins a map is opened, how many new keys are put, and how many bins there are then.
const GROWN: &str = "open $0 $1 1
    numbers 0 $2
    close
    bins = $3
    keys = $2";

/// The same of a map that is opened with the pairs of that one, and that no call is made on.
const OPENED_AGAIN: &str = "open $0 $1 1
    numbers 0 $2
    close
    keys = $2
    reopen 2
    count_all = $2
    close
    bins = $3
    keys = $2
    records = 0";

#[test]
fn a_recorded_table_grows_at_three_keys_to_four_bins(rt: HostRuntime) {
    run_rows(
        &rt,
        rt.alloc(),
        GROWN,
        "recorded 1 0 1
        recorded 1 1 2
        recorded 1 2 4
        recorded 1 3 8
        recorded 1 5 8
        recorded 1 6 16
        recorded 1 11 16
        recorded 1 12 32
        recorded 5 0 8
        recorded 16 11 16
        recorded 16 12 32
        recorded 4096 24575 32768
        recorded 4096 24576 65536
        recorded 4096 60000 65536",
    );
}

#[test]
fn a_narrow_lean_table_grows_at_a_key_to_four_bins(rt: HostRuntime) {
    // The put that makes the table full moves 16 bins, and so does each call after it, until all are
    // moved.
    run_rows(
        &rt,
        rt.alloc(),
        GROWN,
        "lean 1 0 1
        lean 1 1 2
        lean 1 2 4
        lean 1 3 8
        lean 1 4 16
        lean 1 5 32
        lean 1 7 32
        lean 1 8 48
        lean 1 9 64
        lean 2 1 4
        lean 4 1 8
        lean 5 1 8
        lean 5 2 16
        lean 16 3 16
        lean 16 4 32
        lean 16 7 32
        lean 16 8 48
        lean 16 9 64
        lean 16 15 64
        lean 16 16 80
        lean 16 19 128
        lean 16 31 128
        lean 16 32 144
        lean 16 38 240
        lean 16 39 256
        lean 128 31 128
        lean 128 32 144",
    );
}

#[test]
fn a_lean_table_of_256_bins_grows_at_three_keys_to_two_bins(rt: HostRuntime) {
    run_rows(
        &rt,
        rt.alloc(),
        GROWN,
        "lean 16 383 256
        lean 16 384 272
        lean 16 399 512
        lean 129 383 256
        lean 256 384 272
        lean 512 767 512
        lean 512 768 528
        lean 512 799 1024
        lean 1024 1535 1024
        lean 1024 1536 1040
        lean 1024 1598 2032
        lean 1024 1599 2048
        lean 4096 6143 4096
        lean 4096 6144 4112
        lean 4096 6399 8192",
    );
}

#[test]
fn a_get_of_another_client_helps_a_lean_table(rt: HostRuntime) {
    // The eighth put opens the move from 32 bins and moves 16 of them, and the get moves the others.
    run(
        &rt,
        rt.alloc(),
        "open lean 16 2
        numbers 0 8
        as 1
        get k00000 = 0
        close
        bins = 64
        pairs",
    );
}

#[test]
fn a_wide_lean_table_grows_whatever_comes_between_puts(rt: HostRuntime) {
    // The last put moves 16 bins, and the get 16 more.
    run_rows(
        &rt,
        rt.alloc(),
        "open lean 1024 1
        put_and_get $0
        close
        bins = $1",
        "1535 1024
        1536 1056",
    );
}

#[test]
fn many_clients_that_put_few_keys_each_leave_few_keys_in_a_bin(rt: HostRuntime) {
    // Each of 4,096 clients puts 15 new keys, so many at each of its turns. No client adds a sixteenth key, by
    // which it would look whether the table is full. No bin has more than 4 keys.
    run_rows(
        &rt,
        rt.alloc(),
        "open lean 1024 4096
        turns $0 $1
        close
        keys = 61440
        more_bins 15359 = true
        pairs",
        "1 15
        3 5
        15 1",
    );
}

#[test]
fn a_recorded_table_is_opened_again_with_room_for_its_keys(rt: HostRuntime) {
    run_rows(
        &rt,
        rt.alloc(),
        OPENED_AGAIN,
        "recorded 1 0 1
        recorded 1 1 2
        recorded 16 11 16
        recorded 16 12 32
        recorded 16 24 64
        recorded 4096 0 4096
        recorded 16 49151 65536
        recorded 16 60000 65536",
    );
}

#[test]
fn a_lean_table_is_opened_again_with_room_for_its_keys(rt: HostRuntime) {
    run_rows(
        &rt,
        rt.alloc(),
        OPENED_AGAIN,
        "lean 1 0 1
        lean 1 1 8
        lean 1 2 16
        lean 1 3 16
        lean 1 4 32
        lean 16 3 16
        lean 16 4 32
        lean 16 7 32
        lean 16 8 64
        lean 16 16 128
        lean 16 31 128
        lean 16 32 256
        lean 16 383 256
        lean 16 384 512
        lean 4096 0 4096
        lean 16 6143 4096
        lean 16 6144 8192
        lean 16 98303 65536
        lean 16 98304 131072",
    );
}

#[test]
fn a_table_that_updates_alone_fill_grows(rt: HostRuntime) {
    // A lean table has then doubled at 4, 8, 16 and 32 keys, and a recorded one at 12, 24 and 48.
    run_rows(
        &rt,
        rt.alloc(),
        "open $0 16 1
        fill $1 60
        close
        bins = $2
        keys = 60",
        "recorded owned 128
        recorded lent 128
        recorded borrowed 128
        recorded tried 128
        lean owned 256
        lean lent 256
        lean borrowed 256
        lean tried 256",
    );
}

#[test]
fn a_call_by_what_stands_for_its_key_helps_a_lean_table(rt: HostRuntime) {
    // The eighth put opens the move from 32 bins and moves 16 of them, and the call moves the others.
    run_rows(
        &rt,
        rt.alloc(),
        "open lean 16 1
        numbers 0 8
        $0 k00000 = $1
        close
        bins = 64",
        "get_as 0
        contains_as true
        remove_as 0",
    );
}
