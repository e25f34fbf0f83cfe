//! The twelve calls.
use crate::runs::{BOTH_FORMS, run_rows};

#[test]
fn each_call_replies_as_its_row_says(rt: HostRuntime) {
    // Two keys are in four buckets, which came of one: 0, 2, 1 and 3 in walk order.
    run_rows(
        &rt,
        rt.alloc(),
        "open $0 1 1
        get a = none
        contains a = false
        replace a 9 = none
        compute_if_present a 9 = none
        put a 1 = none
        contains a = true
        put b 5 = none
        put a 2 = 1
        get a = 2
        put_if_absent a 9 = 2
        remove_if a 9 = false
        replace a 3 = 2
        replace_if a 2 9 = false
        replace_if a 3 4 = true
        compute_if_absent a 9 = 4
        compute_if_present a 2 = 6
        compute a 1 = 7
        merge a 10 1 = 18
        remove_if a 18 = true
        merge a 4 none = 4
        merge a 9 none = none
        remove b = 5
        remove b = none
        compute_if_absent b 3 = 3
        put_if_absent a 6 = none
        made = 25
        count = 2
        close
        keys = 2
        pairs b 3 a 6",
        BOTH_FORMS,
    );
}
