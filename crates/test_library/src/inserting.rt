//! A value that a function makes, where a key has none.
use crate::asserts::assert_same;
use clients::{Add, Bytes, Fault, NoFunction, OwnedClient, Salt, SharedMap};
use std::alloc::Global;
use std::sync::Wait;
use test_helpers::{Alloc, Number};
use test_support::Refusing;

/// A client that owns its pass.
type Owned = OwnedClient<u64, u64, Add, Global>;

/// The example of the call, as it stands with it.
fn example<R: Wait>(rt: &R, client: &mut Owned) -> Result<[bool; 3], Fault> {
    client.remove(rt, &1)?;
    Ok([
        client.get_or_insert_with(rt, &1, || 5)? == 5,
        client.get_or_insert_with(rt, &1, || 6)? == 5,
        client.get(rt, &1)? == Some(5),
    ])
}

#[test]
fn the_example_of_a_value_that_is_made_is_as_it_says(rt: HostRuntime) {
    let map = SharedMap::with_salt(rt.alloc(), 1, 1, Salt(0)).expect(&rt, "no fault");
    let mut client = map.client().expect(&rt, "a client");
    let found = example(&rt, &mut client).expect(&rt, "no fault");
    assert_same(&rt, &found, &[true; 3]);
}

/// What two calls at a slice's key return, how often their functions ran, and what is left there.
fn by_slice<R: Wait>(
    rt: &R,
    client: &mut OwnedClient<Bytes<'static>, u64, Add, Global>,
) -> Result<([u64; 2], u64, Option<u64>), Fault> {
    let mut runs = 0u64;
    let first = client.get_or_insert_with(rt, &Bytes(b"one"), || {
        runs = runs.wrapping_add(1);
        5
    })?;
    let second = client.get_or_insert_with(rt, &Bytes(b"one"), || {
        runs = runs.wrapping_add(1);
        6
    })?;
    Ok(([first, second], runs, client.get(rt, &Bytes(b"one"))?))
}

#[test]
fn the_function_runs_only_where_there_is_no_value(rt: HostRuntime) {
    let map = SharedMap::with_salt(rt.alloc(), 1, 1, Salt(0)).expect(&rt, "no fault");
    let mut client = map.client().expect(&rt, "a client");
    let told = by_slice(&rt, &mut client).expect(&rt, "no fault");
    assert_same(&rt, &told, &([5, 5], 1, Some(5)));
}

/// What a call that is refused a copy answers at a key without a value and at one with 5, and what is at
/// the key then.
fn refused_copies<'a, R: Wait>(
    rt: &R,
    alloc: Alloc<'a>,
) -> Result<([Option<Fault>; 2], [Option<u64>; 2]), Fault> {
    let map: SharedMap<u64, Number<'a>, NoFunction, Alloc<'a>> = SharedMap::with_salt(
        alloc,
        1,
        1,
        Salt(0),
    )?;
    let mut client = map.client()?;
    alloc.refuse_after(0);
    let first = client
        .get_or_insert_with(rt, &1, || Number { number: 5, alloc })
        .err();
    let none = client.get(rt, &1)?;
    drop(client.get_or_insert_with(rt, &1, || Number { number: 5, alloc })?);
    alloc.refuse_after(0);
    let second = client
        .get_or_insert_with(rt, &1, || Number { number: 6, alloc })
        .err();
    let five = client.get(rt, &1)?;
    Ok((
        [first, second],
        [none.map(|it| it.number), five.map(|it| it.number)],
    ))
}

/// A lean map asks for nothing at a bucket's first entry, so the copy's request is the first.
#[test]
fn a_copy_that_is_refused_leaves_the_map_as_it_was(rt: HostRuntime) {
    let refusing = Refusing::new(rt.alloc());
    let told = refused_copies(&rt, &refusing).expect(&rt, "no fault");
    assert_same(&rt, &told, &([Some(Fault::NoMemory); 2], [None, Some(5)]));
}
