//! When tables grow, and what a put leaves whose requests are refused.
use crate::maps::assert_same;
use crate::runs::{requests_of, run_rows, run_turn};
use std::alloc::Global;
use std::process::Abort;
use std::sync::Wait;

#[test]
fn a_recorded_table_grows_at_three_quarters_of_its_bins(rt: HostRuntime) {
    run_rows(
        &rt,
        rt.alloc(),
        "open recorded $0 1
        numbers 0 $1
        close
        bins = $2",
        "2 1 2
        2 2 4
        4 2 4
        4 3 8
        8 5 8
        8 6 16
        32 23 32
        32 24 64
        4096 3071 4096
        4096 3072 8192",
    );
}

/// A map of 16 bins with all keys that it has room for, three of two bins and the numbered ones from 0 on;
/// one key more, with a request refused; and the next one. The row is the form, how many numbered keys
/// there is room for, the key and its value, what its put finds, how many keys and calls there are then, how
/// many of the numbered keys from 0 to 99, the number of the next one, how many of them there are with
/// it, and how many keys.
const FULL: &str = "open $0 16 1
    put a 100 = none
    put q 200 = none
    put Aa 300 = none
    numbers 0 $1
    grant @
    put $2 $3 = $4
    grant max
    count = $5
    made = $5
    get a = 100
    get q = 200
    get Aa = 300
    found = $6
    numbers $7 1
    get a = 100
    get q = 200
    get Aa = 300
    found = $8
    close
    bins = 32
    keys = $9
    pairs Aa 300 a 100 q 200";

/// Refuses each request of that put in turn, and answers how many there are. Its own are the
/// first ones: room for the entry, and in a recorded map for the record. Where one of them is
/// refused the key is not there, as the first row says; where one of the move is, each key has its value,
/// and later calls move what was not moved.
fn refuse_each<R: Wait + Abort>(rt: &R, memory: Global, own: u64, refused: &str, put: &str) -> u64 {
    for granted in 0..own {
        let was_refused = run_turn(rt, memory, FULL, (refused, granted));
        assert_same(rt, &(granted, was_refused), &(granted, true));
    }
    requests_of(rt, memory, FULL, (put, own))
}

#[test]
fn each_key_has_its_value_where_a_move_is_refused(rt: HostRuntime) {
    // The put's own: in a lean map it asks for none where its bucket is empty, as that of key 0 is, and
    // for one where it has an entry, as that of key 80. The move of a recorded map asks for the wider
    // table, three times for the strides, and at least for a room for each of 32 halves; that of a lean
    // one for the slots of the wider table's parts, four times for the strides, and four for the part.
    let recorded = refuse_each(
        &rt,
        rt.alloc(),
        2,
        "recorded 8 k00008 8 no-memory 11 8 9 9 12",
        "recorded 8 k00008 8 none 12 9 9 10 13",
    );
    assert!(rt; recorded >= 38 && recorded < 1000, "{recorded} requests");
    let empty = refuse_each(&rt, rt.alloc(), 0, "", "lean 0 k00000 0 none 4 1 1 2 5");
    let filled = refuse_each(
        &rt,
        rt.alloc(),
        1,
        "lean 0 k00050 80 no-memory 3 0 81 1 4",
        "lean 0 k00050 80 none 4 1 81 2 5",
    );
    assert_same(&rt, &(empty, filled), &(9, 10));
}
