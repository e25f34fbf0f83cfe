//! Shared maps and teams where requests for memory are refused: what was there is there still.
use crate::asserts::assert_same;
use clients::{
    Add, ClientFault, Fault, Quiet, Salt, SharedMap, SharedNotClosed, Team, TeamNotClosed,
};
use std::alloc::{Allocator, Global};
use std::sync::Wait;
use test_support::Refusing;

/// A shared map of these tests.
type Numbers<A> = SharedMap<u64, u64, Add, A>;

type Closed<A> = Quiet<u64, u64, Add, A>;

/// The map that came back, closed now that nothing is refused.
fn closed_again<A: Allocator + Clone>(
    refused: SharedNotClosed<u64, u64, Add, A>,
) -> Option<Closed<A>> {
    let SharedNotClosed {
        fault: _,
        shared,
        unshared,
    } = refused;
    match shared {
        Some(map) => map.close().ok(),
        None => unshared?.close().ok(),
    }
}

/// Puts 5 at 1 by a client of a shared map, and closes the map while a request after so many is
/// refused; a map that comes back is closed again. Returns why it was not closed at first, and how
/// many keys it has.
fn close_shared<R: Wait, A: Allocator + Clone>(
    rt: &R,
    (switch, alloc): (&Refusing<Global>, A),
    granted: u64,
) -> Result<(Option<Fault>, Option<u64>), Fault> {
    let map: Numbers<A> = SharedMap::with_salt(alloc, 1, 2, Salt(0))?;
    map.client()?.put(rt, 1, 5)?;
    switch.refuse_after(granted);
    let closed = map.close();
    switch.refuse_after(u64::MAX);
    match closed {
        Ok(closed) => Ok((None, Some(closed.mapping_count()))),
        Err(refused) => {
            let fault = refused.fault;
            Ok((
                Some(fault),
                closed_again(refused).map(|closed| closed.mapping_count()),
            ))
        }
    }
}

/// The close is refused for memory at its first requests, and then not: each time the key is there.
#[test]
fn a_shared_map_that_cannot_be_closed_comes_back(rt: HostRuntime) {
    let alloc = Refusing::new(rt.alloc());
    let mut faults = [None; 33];
    for (granted, refused) in faults.iter_mut().enumerate() {
        let (fault, keys) = close_shared(&rt, (&alloc, &alloc), granted as u64).expect(
            &rt, "no fault",
        );
        *refused = fault;
        assert_same(&rt, &keys, &Some(1));
    }
    assert_same(
        &rt,
        &[faults[0], faults[32]],
        &[Some(Fault::NoMemory), None],
    );
    assert!(rt; faults.iter().filter(|fault| fault.is_some()).count() > 1);
}

/// Closes a team of two clients while a request after so many is refused, and again. Returns why it
/// was not closed at first, and of how many clients the team was that came back.
fn close_team<A: Allocator + Clone>(
    (switch, alloc): (&Refusing<Global>, A),
    granted: u64,
) -> Result<(Option<Fault>, usize), Fault> {
    let team: Team<u64, u64, Add, A> = Team::new(alloc, 1, 2)?;
    switch.refuse_after(granted);
    let closed = team.close();
    switch.refuse_after(u64::MAX);
    match closed {
        Ok(_closed) => Ok((None, 2)),
        Err(refused) => {
            let TeamNotClosed { fault, team } = refused;
            Ok((Some(fault), team.map_or(0, |team| team.passes().len())))
        }
    }
}

#[test]
fn a_team_that_cannot_be_closed_comes_back(rt: HostRuntime) {
    let alloc = Refusing::new(rt.alloc());
    let mut faults = [None; 33];
    for (granted, refused) in faults.iter_mut().enumerate() {
        let (fault, clients) = close_team((&alloc, &alloc), granted as u64).expect(&rt, "no fault");
        *refused = fault;
        assert_same(&rt, &clients, &2);
    }
    assert_same(
        &rt,
        &[faults[0], faults[32]],
        &[Some(Fault::NoMemory), None],
    );
}

/// Why no client is taken while its pass slot cannot be made, and the number of the client that is
/// taken later.
fn take_twice<A: Allocator + Clone>(
    (switch, alloc): (&Refusing<Global>, A),
) -> Result<(Option<Fault>, usize), Fault> {
    let map: Numbers<A> = SharedMap::with_salt(alloc, 1, 2, Salt(0))?;
    switch.refuse_after(0);
    let none = map.client().err();
    switch.refuse_after(u64::MAX);
    Ok((none, map.client()?.number()))
}

#[test]
fn a_client_that_was_refused_is_taken_later(rt: HostRuntime) {
    let alloc = Refusing::new(rt.alloc());
    let told = take_twice((&alloc, &alloc));
    assert_same(&rt, &told, &Ok((Some(Fault::NoMemory), 0)));
}

/// Why no client is waited for while its pass slot cannot be made, and the number of the client that is
/// taken later.
fn wait_twice<R: Wait, A: Allocator + Clone>(
    rt: &R,
    (switch, alloc): (&Refusing<Global>, A),
) -> Result<(Option<ClientFault>, usize), Fault> {
    let map: Numbers<A> = SharedMap::with_salt(alloc, 1, 2, Salt(0))?;
    switch.refuse_after(0);
    let none = map.client_when_in(rt).err();
    switch.refuse_after(u64::MAX);
    Ok((none, map.client_when_in(rt)?.number()))
}

/// Whoever waits for a client is told that there is no memory for it, at the first try.
#[test]
fn a_wait_for_a_client_ends_without_memory(rt: HostRuntime) {
    let alloc = Refusing::new(rt.alloc());
    let told = wait_twice(&rt, (&alloc, &alloc));
    assert_same(&rt, &told, &Ok((Some(ClientFault::NoMemory), 0)));
}

/// Wants nine passes to be lent while a request after so many is refused. Answers whether they were lent,
/// or why not, and how many clients can be taken after that.
fn lend_nine<A: Allocator + Clone>(
    (switch, alloc): (&Refusing<Global>, A),
    granted: u64,
) -> Result<(Result<usize, Fault>, usize), Fault> {
    let map: Numbers<A> = SharedMap::with_salt(alloc, 1, 9, Salt(0))?;
    switch.refuse_after(granted);
    let lent = map.lend_passes(9);
    switch.refuse_after(u64::MAX);
    let told = match lent {
        Ok(passes) => {
            let lent = passes.len();
            map.return_passes(passes);
            Ok(lent)
        }
        Err(fault) => Err(fault),
    };
    let all = map.lend_passes(9)?;
    let taken = all.len();
    map.return_passes(all);
    map.close()?;
    Ok((told, taken))
}

/// A loan asks for its list, for the places of the first eight clients and for those of the next: where a
/// request is refused all that it took is back.
#[test]
fn a_loan_that_is_refused_gives_its_passes_back(rt: HostRuntime) {
    let alloc = Refusing::new(rt.alloc());
    for granted in 0..3 {
        let told = lend_nine((&alloc, &alloc), granted);
        assert_same(
            &rt,
            &(granted, told),
            &(granted, Ok((Err(Fault::NoMemory), 9))),
        );
    }
    let told = lend_nine((&alloc, &alloc), 3);
    assert_same(&rt, &told, &Ok((Ok(9), 9)));
}
