//! Keeping some entries and removing the others.
use crate::runs::run_rows;

/// A form, how many requests are granted, what steps that remove all entries find, how many calls were made
/// then, and what the steps behind them find. Steps find how many there were, and how many entries they
/// removed. One entry was put twice.
const DROPPED: &str = "open $0 16 1
    put q 1 = none
    put a 2 = none
    put Aa 3 = none
    put q 4 = 1
    cursor
    grant $1
    drop_rest max = $2 $3
    grant max
    made = $4
    drop_rest max = $5 $6
    made = 7
    close
    keys = 0";

#[test]
fn each_entry_that_goes_is_a_remove(rt: HostRuntime) {
    run_rows(
        &rt,
        rt.alloc(),
        "open $0 16 2
        put q 1 = none
        put a 2 = none
        put Aa 3 = none
        as 1
        keep_above 1 = 1
        as 0
        view q = none
        view a = 2
        view Aa = 3
        made = 3
        as 1
        made = 1
        close
        keys = 2
        records = $1
        pairs Aa 3 a 2",
        "recorded 4
        lean 0",
    );
}

#[test]
fn a_refused_remove_leaves_those_before_it(rt: HostRuntime) {
    // A recorded bucket has room for four records at first. The one of "Aa" takes its remove, and the
    // one of "q" and "a", with three puts, takes the first of its two.
    run_rows(
        &rt,
        rt.alloc(),
        DROPPED,
        "recorded 0 no-memory 0 6 15 1
        lean 0 16 3 7 0 0",
    );
}

#[test]
fn nothing_is_kept_where_the_function_says_no(rt: HostRuntime) {
    run_rows(
        &rt,
        rt.alloc(),
        DROPPED,
        "recorded max 16 3 7 0 0
        lean max 16 3 7 0 0",
    );
}
