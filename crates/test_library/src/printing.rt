//! What prints a map's entries, and how many there are.
use crate::asserts::assert_same;
use clients::{Add, Fault, Salt, SharedMap};
use std::alloc::Global;
use std::sync::Wait;

type Numbers = SharedMap<u64, u64, Add, Global>;

/// What a client prints of a map without entries, and whether it tells, before and after a put of 5 at
/// 1, what it should.
fn printed<R: Wait>(rt: &R, alloc: Global, map: &Numbers) -> Result<(String, [bool; 4]), Fault> {
    let mut client = map.client()?;
    let before = format!(in alloc; "{:?}", client.shown(rt)?)?;
    let was_empty = client.is_empty();
    client.put(rt, 1, 5)?;
    let after = format!(in alloc; "{:?}", client.shown(rt)?)?;
    let is_printed = after.as_str() == "{1: 5}";
    Ok((
        before,
        [was_empty, is_printed, client.len() == 1, !client.is_empty()],
    ))
}

#[test]
fn a_client_prints_the_entries(rt: HostRuntime) {
    let map = SharedMap::with_salt(rt.alloc(), 1, 1, Salt(0)).expect(&rt, "no fault");
    let (before, told) = printed(&rt, rt.alloc(), &map).expect(&rt, "no fault");
    assert_same(&rt, &before.as_str(), &"{}");
    assert_same(&rt, &told, &[true; 4]);
}

#[test]
fn a_closed_map_prints_its_entries(rt: HostRuntime) {
    let map: Numbers = SharedMap::with_salt(rt.alloc(), 1, 1, Salt(0)).expect(&rt, "no fault");
    let mut client = map.client().expect(&rt, "a client");
    assert!(rt; client.put(&rt, 1, 5).is_ok());
    drop(client);
    let closed = map.close().ok().expect(&rt, "a closed map");
    let text = format!(in rt.alloc(); "{:?}", closed.shown()).expect(&rt, "memory");
    assert_same(&rt, &text.as_str(), &"{1: 5}");
    assert_same(&rt, &(closed.len(), closed.is_empty()), &(1, false));
}
