//! Numbers are appended to a list at one key.
use crate::Measured;
use anyhow::Result;
use facingberyl::{Fault, ListOf, NoFunction, OwnedClient, SharedMap};
use std::alloc::Global;
use std::sync::Wait;
use std::time::{Clock, Instant};

/// A client of a map of lists.
type Lists = OwnedClient<u64, ListOf<u64, Global>, NoFunction, Global>;

/// Appends the numbers from 0 on to the list where it lies.
fn append_in_place<R: Wait>(rt: &R, client: &mut Lists, count: u64) -> Result<(), Fault> {
    for number in 0..count {
        let appended = client.modify(rt, &1, |list: &mut ListOf<u64, Global>| list.push(number))?;
        if let Some(pushed) = appended {
            pushed?;
        }
    }
    Ok(())
}

/// Takes the list out, appends a number, and puts the list back, for the numbers from 0 on.
fn append_outside<R: Wait>(rt: &R, client: &mut Lists, count: u64) -> Result<(), Fault> {
    for number in 0..count {
        if let Some(mut list) = client.remove(rt, &1)? {
            list.push(number)?;
            client.put(rt, 1, list)?;
        }
    }
    Ok(())
}

/// Measures so many appends, in place or outside of the map. The result is the length of the list.
pub(crate) fn measure<R: Wait + Clock>(
    rt: &R,
    alloc: Global,
    in_place: bool,
    count: u64,
) -> Result<Measured> {
    let map = SharedMap::new(alloc, 16)?;
    let mut client: Lists = map.client()?;
    client.put(rt, 1, ListOf::new(alloc))?;
    let start = Instant::now(rt)?;
    if in_place {
        append_in_place(rt, &mut client, count)?;
    } else {
        append_outside(rt, &mut client, count)?;
    }
    let taken = start.elapsed(rt)?;
    let result = client.view(rt, &1, |list: Option<&ListOf<u64, Global>>| {
        list.map_or(0, |list| list.len() as u64)
    });
    Ok(Measured { taken, result })
}
