//! How maps are opened and closed.
ghost use Rattle.std.specs.Prelude.{◌≡◌, All};

use crate::closed::look_at;
use crate::lines::{done_or_fault, small, wanted_of, words_of};
use crate::maps::{KeyMap, KeyOpened, KeyPass, assert_same, count_all, put_text};
use crate::runs::{BOTH_FORMS, form_of, run, run_rows};
use bin_history::Form;
use chm::{Fault, NotClosed};
use count_ledger::retire_all;
use std::alloc::{Allocator, Global};
use std::process::Abort;
use std::sync::Wait;
use test_maps::{BOTH, Single, close, open, put_back, take_pass};
use test_support::Refusing;

/// What making a map is refused with.
pub(crate) fn opening_fault<A: Allocator + Clone>(
    alloc: A,
    form: Form,
    capacity: usize,
    clients: u32,
) -> Option<Fault> {
    let opened: Result<KeyOpened<A>, Fault> = open(alloc, form, capacity, clients);
    match opened {
        Ok((map, passes)) => {
            retire_all(passes);
            drop(map);
            None
        }
        Err(fault) => Some(fault),
    }
}

/// Asserts what making a map of each line is refused with: a form, a capacity and a number of clients.
/// What is refused asks for no memory.
fn assert_openings(rt: &impl Abort, memory: Global, lines: &str) {
    for line in lines.lines() {
        let words = words_of(rt, line, "");
        let alloc = Refusing::new(memory);
        let form = form_of(words[0]);
        let fault = opening_fault(
            &alloc,
            form,
            small(rt, words[1]) as usize,
            small(rt, words[2]),
        );
        let asked = fault.is_some() && alloc.requests() > 0;
        let found = (line, done_or_fault(fault), asked);
        assert_same(rt, &found, &(line, wanted_of(rt, line, "", false), false));
    }
}

#[test]
fn capacity_and_clients_have_their_limits(rt: HostRuntime) {
    assert_openings(
        &rt,
        rt.alloc(),
        "recorded 1 1
        recorded 4096 32
        recorded 0 1 = bad-capacity
        recorded 0 0 = bad-capacity
        recorded 16 0 = bad-clients
        recorded 16 33 = bad-clients
        lean 1 1
        lean 4096 32
        lean 0 1 = bad-capacity
        lean 0 0 = bad-capacity
        lean 16 0 = bad-clients
        lean 16 65537 = bad-clients",
    );
    // a map of the default capacity for three clients
    run_rows(
        &rt,
        rt.alloc(),
        "open $0 default 3
        form = $0
        clients = 3
        count_all = 0
        close
        form = $0
        bins = 16",
        BOTH_FORMS,
    );
}

#[test]
fn a_capacity_past_the_most_asks_for_no_memory(rt: HostRuntime) {
    assert_openings(
        &rt,
        rt.alloc(),
        "recorded 4097 1 = bad-capacity
        lean 67108865 1 = bad-capacity",
    );
}

#[test]
fn a_lean_map_opens_with_a_million_bins(rt: HostRuntime) {
    run(
        &rt,
        rt.alloc(),
        "open lean 1048576 1
        numbers 0 3
        close
        bins = 1048576
        keys = 3",
    );
}

/// Tries to close a map while a pass is missing, and gets map and passes back.
fn close_early<R: Wait + Abort, A: Allocator + Clone>(
    rt: &R,
    map: KeyMap<A>,
    passes: Vec<KeyPass, A>,
) -> (KeyMap<A>, Vec<KeyPass, A>)
    requires { All (λ p. p.ledger ≡ map.ledger.id) passes.items }
    ensures id { result.0.ledger.id ≡ map.ledger.id }
    ensures own { All (λ p. p.ledger ≡ result.0.ledger.id) result.1.items }
{
    match map.close(passes) {
        Ok(_) => {
            assert!(rt; false, "a pass is missing");
            unreachable!()
        }
        Err(NotClosed { fault, map, passes }) => {
            assert!(rt; fault == Fault::PassMissing);
            (map.expect(rt, "the map comes back"), passes)
        }
    }
}

/// Closes a map of two clients, in vain while a pass is missing. Returns how many keys the passes
/// count.
fn close_twice<R: Wait + Abort, A: Allocator + Clone>(rt: &R, alloc: A, form: Form) -> u64 {
    let Single {
        map,
        mut pass,
        place,
    } = take_pass(open(alloc, form, 16, 2).expect(rt, "a map")).expect(rt, "a pass");
    put_text(rt, &map, &mut pass, b"a", 1);
    let (map, mut passes) = close_early(rt, map, place);
    put_back(&map, pass, &mut passes);
    let count = count_all(rt, &map, &mut passes);
    let closed = close(map, passes).expect(rt, "a closed map");
    look_at(rt, &closed, ("pairs a 1", ""), false);
    count
}

#[test]
fn a_map_closes_with_the_passes_of_all_clients(rt: HostRuntime) {
    for form in BOTH {
        let count = close_twice(&rt, rt.alloc(), form);
        assert_same(&rt, &count, &1);
    }
}
