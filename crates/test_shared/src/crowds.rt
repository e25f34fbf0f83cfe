//! Shared maps of many clients: each has a place for its pass, to which it comes back.
use crate::asserts::assert_same;
use crate::maps::{Numbers, Owned, share};
use clients::{Add, Fault, Quiet};
use std::alloc::Global;
use std::sync::Wait;
use std::thread;
use std::thread::Threads;

/// Takes a client, if one is free, which puts its number at its number.
fn take_one<R: Wait>(rt: &R, map: &Numbers) -> Result<Option<Owned>, Fault> {
    match map.client() {
        Ok(mut client) => {
            let number = client.number() as u64;
            client.put(rt, number, number)?;
            Ok(Some(client))
        }
        Err(Fault::NoClient) => Ok(None),
        Err(fault) => Err(fault),
    }
}

/// Takes as many clients as wanted, or those that are free, each of which puts its number at its number.
fn take_each<R: Wait>(
    rt: &R,
    alloc: Global,
    map: &Numbers,
    wanted: u32,
) -> Result<Vec<Owned>, Fault> {
    let mut clients = Vec::with_capacity(alloc, wanted as usize)?;
    for _client in 0..wanted {
        let Some(client) = take_one(rt, map)? else {
            break;
        };
        clients.push(client)?;
    }
    Ok(clients)
}

/// Gives the clients back: the first, and then the others from the last one on.
fn bring_each(mut clients: Vec<Owned>) {
    for _client in 0..clients.len() {
        if !clients.is_empty() {
            drop(clients.swap_remove(0));
        }
    }
}

/// Takes as many clients as wanted, or those that are free, and gives them back. Answers how many were
/// taken.
fn take_and_bring<R: Wait>(
    rt: &R,
    alloc: Global,
    map: &Numbers,
    wanted: u32,
) -> Result<u64, Fault> {
    let clients = take_each(rt, alloc, map, wanted)?;
    let taken = clients.len() as u64;
    bring_each(clients);
    Ok(taken)
}

/// How many of so many numbers have their value.
fn right_in(closed: &Quiet<u64, u64, Add, Global>, numbers: u32) -> u64 {
    let mut right = 0u64;
    for number in 0..u64::from(numbers) {
        if closed.get(&number) == Some(&number) {
            right = right.wrapping_add(1);
        }
    }
    right
}

/// Takes so many clients of a map for as many, gives them back in another order, takes all again, and
/// closes the map once they are back. Answers how many were taken each time, how many keys the closed
/// map has, and how many of the numbers have their value.
fn crowd<R: Wait>(rt: &R, alloc: Global, clients: u32) -> Result<[u64; 4], Fault> {
    let map = share(alloc, clients)?;
    let taken = take_and_bring(rt, alloc, &map, clients)?;
    let again = take_and_bring(rt, alloc, &map, clients)?;
    let closed = map.close()?;
    Ok([
        taken,
        again,
        closed.mapping_count(),
        right_in(&closed, clients),
    ])
}

/// How many clients a crowd has: the first 8 have the first row of places, the next 16 the second, and
/// the last 8 of 65,536 the last.
const CROWDS: [u32; 8] = [8, 9, 24, 25, 56, 57, 32_768, 65_536];

#[test]
fn each_client_of_a_crowd_comes_back(rt: HostRuntime) {
    for clients in &CROWDS {
        let told = crowd(&rt, rt.alloc(), *clients);
        let wanted = Ok([u64::from(*clients); 4]);
        assert_same(&rt, &(*clients, told), &(*clients, wanted));
    }
}

/// Takes a client and gives it back so many times. Answers how often none was free.
fn come_and_go(map: &Numbers, times: u32) -> u64 {
    let mut refused = 0u64;
    for _time in 0..times {
        match map.client() {
            Ok(client) => drop(client),
            Err(_) => refused = refused.wrapping_add(1),
        }
    }
    refused
}

/// Lets four threads take clients of a map for eight and give them back. At each moment at least four are
/// free. Answers how often a thread found none, and how many clients are taken when all are back.
fn jostle<R: Wait + Threads + Sync>(rt: &R, alloc: Global) -> Result<([u64; 4], u64), Fault> {
    let map = share(alloc, 8)?;
    take_and_bring(rt, alloc, &map, 8)?;
    let mut refused = [0; 4];
    let work = |_number: usize, count: &mut u64| {
        *count = come_and_go(&map, 200_000);
    };
    thread::for_each_mut(rt, &mut refused, 4, &work);
    Ok((refused, take_and_bring(rt, alloc, &map, 8)?))
}

/// A thread that others get ahead of tries again.
#[test]
fn a_client_is_free_whatever_other_threads_take(rt: HostRuntime) {
    let told = jostle(&rt, rt.alloc());
    assert_same(&rt, &told, &Ok(([0; 4], 8)));
}
