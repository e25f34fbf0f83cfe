//! Many calls of one client.
use crate::runs::{run, run_rows};

#[test]
fn a_map_that_is_opened_again_counts_its_opening_entries(rt: HostRuntime) {
    run_rows(
        &rt,
        rt.alloc(),
        "open $0 16 1
        numbers 0 $1
        close
        keys = $1
        reopen 1
        numbers $1 1
        count_all = $2
        count = $2
        close
        keys = $2
        bins = 32
        entries = $2
        records = $3
        numbers = $2",
        "recorded 11 12 1
        lean 3 4 0",
    );
}

#[test]
fn keys_of_one_hash_stand_in_one_bin(rt: HostRuntime) {
    // A recorded table grows at 12 keys and at 24. A lean one of 128 bins grows at 32: the last put
    // moves 16 of its bins.
    run_rows(
        &rt,
        rt.alloc(),
        "open $0 16 1
        twins 5 0 32
        close
        twins 5 = 32
        bins = $1
        full_bins = 1
        keys = 32",
        "recorded 64
        lean 144",
    );
}

#[test]
fn a_full_pass_makes_no_more_calls(rt: HostRuntime) {
    // The clear makes the last call, by which `Aa` goes.
    run(
        &rt,
        rt.alloc(),
        "open recorded 16 1
        put a 1 = none
        put q 2 = none
        put Aa 3 = none
        often 999996 1
        made = 999999
        clear = full
        get a = full
        walk = 16 2 3
        made = 1000000
        close
        keys = 2
        pairs a 1 q 2",
    );
}

#[test]
fn a_full_pass_clears_where_nothing_is_left(rt: HostRuntime) {
    run(
        &rt,
        rt.alloc(),
        "open recorded 16 1
        put a 1 = none
        often 999998 1
        clear
        clear
        made = 1000000
        close
        keys = 0
        pairs",
    );
}

#[test]
fn a_lean_pass_makes_three_million_calls(rt: HostRuntime) {
    run(
        &rt,
        rt.alloc(),
        "open lean 16 1
        put a 1 = none
        often 2999998 1
        remove a = 1
        made = 3000000
        close
        keys = 0
        records = 0
        pairs",
    );
}

#[test]
fn old_records_are_folded_into_the_base(rt: HostRuntime) {
    // 1,025 calls on two keys of one bin: both are put, one is taken away and put again.
    run(
        &rt,
        rt.alloc(),
        "open recorded 16 1
        put q 1 = none
        put a 2 = none
        often 1021 2
        remove q = 1
        put q 3 = none
        close
        pairs a 2 q 3
        slot_1 q 1 a 2 = 513
        records = 513",
    );
}
