//! What prints a closed map's entries, and how many keys it has.
use crate::examples::{Numbers, Plus};
use crate::maps::assert_same;
use bin_history::{Form, Reply};
use chm::{Fault, Quiet};
use std::alloc::Global;
use std::process::Abort;
use std::sync::Wait;
use test_maps::{Single, close_single, open_single};

/// A closed map with 5 at 1, or with no key.
fn closed<R: Wait + Abort>(rt: &R, alloc: Global, has_one: bool) -> Quiet<u64, u64, Plus, Global> {
    let Single {
        map,
        mut pass,
        place,
    } = open_single(alloc, Form::Lean, 1).expect(rt, "a map");
    let map: Numbers = map;
    if has_one {
        assert!(rt; map.put(rt, &mut pass, 1, 5) == Ok(Reply::Value(None)));
    }
    close_single(map, pass, place).expect(rt, "a closed map")
}

/// The examples of the calls that show a closed map's entries and count them.
fn examples(alloc: Global, quiet: &Quiet<u64, u64, Plus, Global>) -> Result<[bool; 3], Fault> {
    let printed = format!(in alloc; "{:?}", quiet.shown())?.as_str() == "{1: 5}";
    let has_one = quiet.len() == 1;
    let has_some = !quiet.is_empty();
    Ok([printed, has_one, has_some])
}

#[test]
fn a_closed_map_prints_its_entries_and_counts_them(rt: HostRuntime) {
    let quiet = closed(&rt, rt.alloc(), true);
    let found = examples(rt.alloc(), &quiet).expect(&rt, "memory");
    assert_same(&rt, &found, &[true; 3]);
    let none = closed(&rt, rt.alloc(), false);
    let text = format!(in rt.alloc(); "{:?}", none.shown()).expect(&rt, "memory");
    assert_same(&rt, &text.as_str(), &"{}");
    assert_same(&rt, &(none.len(), none.is_empty()), &(0, true));
}
