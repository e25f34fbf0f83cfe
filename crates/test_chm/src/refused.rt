//! Requests for memory that are refused, each in turn, but for those of a put.
use crate::lines::done_or_fault;
use crate::maps::assert_same;
use crate::opening::opening_fault;
use crate::runs::{form_of, requests_of};
use std::alloc::Global;
use std::process::Abort;
use std::sync::Wait;
use test_support::Refusing;

/// The one request is that of the full list of the four records of `a` and `q`: where it is refused, `Aa` is
/// away by a call that stands, and the next clear takes the others.
const CLEAR: &str = "open $0 16 1
    put a 1 = none
    put q 2 = none
    put Aa 3 = none
    often 2 1
    grant @
    clear = no-memory or done
    grant max
    count = 2 or 0
    made = 6 or 8
    clear
    close
    keys = 0";

/// Where a request is refused all stays as it was.
const WALK: &str = "open $0 16 1
    put a 1 = none
    put q 2 = none
    put Aa 3 = none
    grant @
    glance q = 2
    walk = no-memory or 16 3 6
    grant max
    made = 3
    close
    pairs Aa 3 a 1 q 2";

/// Where a request is refused map and passes come back, and the next close closes the map.
const CLOSE: &str = "open $0 16 1
    put a 1 = none
    put q 2 = none
    put Aa 3 = none
    grant @
    close = no-memory or done
    pairs Aa 3 a 1 q 2";

/// Where a request is refused the closed map is as before, and the next try opens it.
const REOPENING: &str = "open $0 16 1
    put a 1 = none
    put q 2 = none
    put Aa 3 = none
    close
    pairs Aa 3 a 1 q 2
    reopen 2 = no-memory or done
    close
    pairs Aa 3 a 1 q 2";

/// Where the request of the list of pairs is refused the closed map comes back as it was, and the next try
/// takes them.
const TAKING: &str = "open $0 16 1
    put a 1 = none
    put q 2 = none
    put Aa 3 = none
    close
    keys = 3
    pairs Aa 3 a 1 q 2
    take Aa 3 a 1 q 2 = no-memory 3 6 or 3 6";

/// Refuses each request in turn that making a map of two bins and two clients asks for, and answers how many
/// there are.
fn requests_of_opening(rt: &impl Abort, memory: Global, form: &str) -> u64 {
    for granted in 0..1000u64 {
        let switch = Refusing::new(memory);
        switch.refuse_after(granted);
        let fault = opening_fault(&switch, form_of(form), 2, 2);
        let refused = switch.has_refused();
        assert_same(rt, &(granted, fault.is_some()), &(granted, refused));
        if !refused {
            return granted;
        }
        assert_same(rt, &done_or_fault(fault), &("no-memory", [0; 3]));
    }
    1000
}

/// How many requests of the script are refused in turn, in a recorded and in a lean map.
fn requests_in<R: Wait + Abort>(rt: &R, memory: Global, script: &str) -> [u64; 2] {
    [
        requests_of(rt, memory, script, ("recorded", 0)),
        requests_of(rt, memory, script, ("lean", 0)),
    ]
}

/// Asserts that there are at least so many requests in each form, and not a thousand.
fn assert_at_least(rt: &impl Abort, requests: [u64; 2], least: u64) {
    let [recorded, lean] = requests;
    assert!(rt; recorded >= least && recorded < 1000, "{recorded} requests");
    assert!(rt; lean >= least && lean < 1000, "{lean} requests");
}

#[test]
fn each_request_is_refused_in_turn(rt: HostRuntime) {
    let opening = [
        requests_of_opening(&rt, rt.alloc(), "recorded"),
        requests_of_opening(&rt, rt.alloc(), "lean"),
    ];
    assert_at_least(&rt, opening, 5);
    assert_same(&rt, &requests_in(&rt, rt.alloc(), CLEAR), &[1, 0]);
    assert_at_least(&rt, requests_in(&rt, rt.alloc(), WALK), 3);
    assert_at_least(&rt, requests_in(&rt, rt.alloc(), CLOSE), 2);
    assert_at_least(&rt, requests_in(&rt, rt.alloc(), REOPENING), 5);
    assert_same(&rt, &requests_in(&rt, rt.alloc(), TAKING), &[1, 1]);
}
