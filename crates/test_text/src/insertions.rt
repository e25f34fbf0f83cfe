//! A set that clients of a shared map insert keys into.
use crate::asserts::assert_same;
use clients::Fault;
use sets::SharedSet;
use std::alloc::Global;
use std::sync::Wait;

/// What insertions, looks and removals of 5 return, of which two each are made, and how many keys the
/// closed set has where 6 is inserted too.
fn run<R: Wait>(rt: &R, alloc: Global) -> Result<([bool; 7], u64), Fault> {
    let set: SharedSet<u64, Global> = SharedSet::new(alloc, 16)?;
    let mut client = set.client()?;
    let inserted = client.insert(rt, 5)?;
    let once = !client.insert(rt, 5)?;
    let there = client.contains(rt, &5)?;
    let removed = client.remove(rt, &5)?;
    let gone = !client.remove(rt, &5)?;
    let absent = !client.contains(rt, &5)?;
    let other = client.insert(rt, 6)?;
    drop(client);
    let closed = set.map.close()?;
    Ok((
        [inserted, once, there, removed, gone, absent, other],
        closed.mapping_count(),
    ))
}

#[test]
fn a_key_is_inserted_and_removed_once(rt: HostRuntime) {
    assert_same(&rt, &run(&rt, rt.alloc()), &Ok(([true; 7], 1)));
}
