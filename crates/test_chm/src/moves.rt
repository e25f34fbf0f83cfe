//! Moves whose requests are refused, and later calls that go on with them.
use crate::runs::run_rows;

/// The form, how many requests are granted, what the first put finds, how many bins and entries there are
/// then, and how many after the second put, which has a move of its own where the first one's was open.
///
/// In a recorded map the first put takes room for its entry and for the record, and in a lean one for
/// nothing, since a first entry lies in its bucket. Its move takes room for the table of two places, and
/// three times for the strides, or in a lean map four times. Then a recorded bin takes it for the entry
/// and the record of the half that has the key, and for each half's bin; and a lean one four times, for
/// the part of the table that the other half comes to. Without one of these the table has grown, and
/// the bin is moved by the next call on it.
const ROWS: &str = "
    recorded 0 no-memory 1 0 2 1
    recorded 1 no-memory 1 0 2 1
    recorded 2 none 1 1 2 2
    recorded 3 none 1 1 2 2
    recorded 4 none 1 1 2 2
    recorded 5 none 1 1 2 2
    recorded 6 none 1 1 4 2
    recorded 7 none 1 1 4 2
    recorded 8 none 1 1 4 2
    recorded 9 none 1 1 4 2
    recorded 10 none 2 1 4 2
    lean 0 none 1 1 2 2
    lean 1 none 1 1 2 2
    lean 2 none 1 1 2 2
    lean 3 none 1 1 2 2
    lean 4 none 1 1 2 2
    lean 5 none 1 1 4 2
    lean 6 none 1 1 4 2
    lean 7 none 1 1 4 2
    lean 8 none 1 1 4 2
    lean 9 none 2 1 4 2
";

#[test]
fn a_later_call_goes_on_with_a_refused_move(rt: HostRuntime) {
    run_rows(
        &rt,
        rt.alloc(),
        "open $0 1 1
        grant $1
        put k00000 0 = $2
        grant max
        walk = $3 $4
        put k00001 0 = none
        walk = $5 $6",
        ROWS,
    );
}

#[test]
fn a_map_closes_after_a_refused_move(rt: HostRuntime) {
    run_rows(
        &rt,
        rt.alloc(),
        "open $0 1 1
        grant $1
        put k00000 0 = $2
        grant max
        close
        bins = $3
        keys = $4",
        ROWS,
    );
}
