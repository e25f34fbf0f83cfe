//! A retain of a client by a function that changes, and its examples.
use crate::asserts::assert_same;
use clients::{Add, Fault, OwnedClient, Salt, SharedMap};
use std::alloc::Global;
use std::sync::Wait;

/// A client that owns its pass.
type Owned = OwnedClient<u64, u64, Add, Global>;

/// The examples of a retain and of its steps, each as it stands with its call.
fn examples<R: Wait>(rt: &R, client: &mut Owned) -> Result<[bool; 3], Fault> {
    client.put(rt, 1, 5)?;
    let first = client.retain(rt, |_key: &u64, value: &u64| *value > 5)? == 1;
    let gone = client.get(rt, &1)? == None;
    client.put(rt, 1, 5)?;
    let mut cursor = client.cursor();
    let mut keeps = |_key: &u64, value: &u64| *value > 5;
    let mut removed = 0;
    for _ in rt.forever() {
        let Some(some) = client.retain_next(rt, &mut cursor, &mut keeps)? else {
            break;
        };
        removed = some.saturating_add(removed);
    }
    Ok([first, gone, removed == 1])
}

/// Removes the first two entries for which the function is called, of ten. Returns how many it removed,
/// how often the function was called, and how many keys are left.
fn first_two<R: Wait>(rt: &R, client: &mut Owned) -> Result<(u64, u64, usize), Fault> {
    for key in 0..10u64 {
        client.put(rt, key, key)?;
    }
    let mut calls = 0u64;
    let removed = client.retain(rt, |_key: &u64, _value: &u64| {
        calls = calls.wrapping_add(1);
        calls > 2
    })?;
    Ok((removed, calls, client.len()))
}

#[test]
fn each_example_of_a_retain_is_as_it_says(rt: HostRuntime) {
    let map = SharedMap::with_salt(rt.alloc(), 1, 1, Salt(0)).expect(&rt, "no fault");
    let mut client = map.client().expect(&rt, "a client");
    let found = examples(&rt, &mut client).expect(&rt, "no fault");
    assert_same(&rt, &found, &[true; 3]);
}

#[test]
fn a_function_that_changes_is_called_once_an_entry(rt: HostRuntime) {
    let map = SharedMap::with_salt(rt.alloc(), 16, 1, Salt(0)).expect(&rt, "no fault");
    let mut client = map.client().expect(&rt, "a client");
    let told = first_two(&rt, &mut client).expect(&rt, "no fault");
    assert_same(&rt, &told, &(2, 10, 8));
}
