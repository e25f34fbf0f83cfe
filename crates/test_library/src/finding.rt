//! Whether some key of a map has a value.
use crate::asserts::assert_same;
use clients::{Add, Fault, OwnedClient, Salt, SharedMap};
use std::alloc::Global;
use std::sync::Wait;

/// A client that owns its pass.
type Owned = OwnedClient<u64, u64, Add, Global>;

/// The example of the call, as it stands with it.
fn example<R: Wait>(rt: &R, client: &mut Owned) -> Result<[bool; 2], Fault> {
    client.put(rt, 1, 5)?;
    Ok([
        client.contains_value(rt, &5),
        !client.contains_value(rt, &6),
    ])
}

#[test]
fn the_example_of_a_value_that_is_looked_for_is_as_it_says(rt: HostRuntime) {
    let map = SharedMap::with_salt(rt.alloc(), 1, 1, Salt(0)).expect(&rt, "no fault");
    let mut client = map.client().expect(&rt, "a client");
    let found = example(&rt, &mut client).expect(&rt, "no fault");
    assert_same(&rt, &found, &[true; 2]);
}

/// How many of the values 0 to 400 some key has, where each of the keys 0 to 99 has three times itself,
/// in a map that grew; and whether 3 is there before and after the key 1 is removed.
fn multiples<R: Wait>(rt: &R, client: &mut Owned) -> Result<(u64, [bool; 2]), Fault> {
    let mut count = 0u64;
    for key in 0..100u64 {
        client.put(rt, key, key * 3)?;
    }
    for value in 0..401u64 {
        if client.contains_value(rt, &value) {
            count = count.wrapping_add(1);
        }
    }
    let before = client.contains_value(rt, &3);
    client.remove(rt, &1)?;
    Ok((count, [before, client.contains_value(rt, &3)]))
}

#[test]
fn a_value_is_found_in_whatever_bucket_it_is(rt: HostRuntime) {
    let map = SharedMap::with_salt(rt.alloc(), 1, 1, Salt(0)).expect(&rt, "no fault");
    let mut client = map.client().expect(&rt, "a client");
    let empty = client.contains_value(&rt, &0);
    let told = multiples(&rt, &mut client).expect(&rt, "no fault");
    assert_same(&rt, &(empty, told), &(false, (100, [true, false])));
}
