//! Shared maps and the clients that own their passes.
use crate::asserts::assert_same;
use crate::maps::{Numbers, Owned, close, keys_of, share};
use clients::{
    Add, Call, Client, Computed, Fault, KeyArg, Loan, Op, Reply, SharedMap, Work, Worked,
};
use std::alloc::Global;
use std::sync::Wait;
use std::thread;
use std::thread::Threads;

/// Adds 5 at the client's number, and gets the sum.
#[derive(Clone, Copy)]
pub(crate) struct AddFive;

impl Work<u64, u64, Add, Global> for AddFive {
    type Out = Result<Option<u64>, Fault>;

    fn work<L: Loan, R: Wait>(
        &self,
        rt: &R,
        client: &mut Client<'_, L, u64, u64, Add, Global>,
    ) -> Result<Option<u64>, Fault> {
        let number = client.number() as u64;
        client.merge(rt, number, 5, Add)?;
        client.get(rt, &number)
    }
}

/// Gets the value at 0.
#[derive(Clone, Copy)]
struct GetZero;

impl Work<u64, u64, Add, Global> for GetZero {
    type Out = Result<Option<u64>, Fault>;

    fn work<L: Loan, R: Wait>(
        &self,
        rt: &R,
        client: &mut Client<'_, L, u64, u64, Add, Global>,
    ) -> Result<Option<u64>, Fault> {
        client.get(rt, &0)
    }
}

fn call<R: Wait>(rt: &R, client: &mut Owned) -> Result<bool, Fault> {
    client.call(rt, Call::Put(1, 5))?;
    Ok(client.call(rt, Call::Get(1))? == Reply::Value(Some(5)))
}

fn try_call(client: &mut Owned) -> bool {
    client.try_call(KeyArg::Owned(1), Op::Put(5)) == Some(Ok(Reply::Value(None)))
}

fn work<R: Wait>(rt: &R, client: &mut Owned) -> Result<bool, Fault> {
    Ok(client.number() == 0 && client.work(rt, &AddFive)? == Some(5))
}

/// Puts, gets and replaces at 2, of a client that owns its pass.
fn puts<R: Wait>(rt: &R, client: &mut Owned) -> Result<bool, Fault> {
    let put = client.put(rt, 2, 5)?.is_none() && client.put(rt, 2, 6)? == Some(5);
    let got = client.get(rt, &2)? == Some(6) && client.contains_key(rt, &2)?;
    Ok(put && got && client.put_if_absent(rt, 2, 7)? == Some(6))
}

/// Replaces 6 there, computes, and removes.
fn replaces<R: Wait>(rt: &R, client: &mut Owned) -> Result<bool, Fault> {
    let replaced = client.replace(rt, &2, 7)? == Some(6) && client.replace_if(rt, &2, 7, 8)?;
    let computed = client.compute(rt, 2, Add)? == Some(8);
    let removed = !client.remove_if(rt, &2, 7)? && client.remove(rt, &2)? == Some(8);
    Ok(replaced && computed && removed)
}

/// Those that may use a function.
fn counted<R: Wait>(rt: &R, map: &Numbers) -> Result<[(Option<u64>, bool); 3], Fault> {
    let mut client = map.client()?;
    client.put(rt, 2, 5)?;
    let Computed { value, used } = client.compute_if_absent(rt, 2, Add)?;
    let first = (value, used);
    let Computed { value, used } = client.compute_if_present(rt, &2, Add)?;
    let second = (value, used);
    let Computed { value, used } = client.merge(rt, 2, 2, Add)?;
    client.remove(rt, &2)?;
    Ok([first, second, (value, used)])
}

/// What it reads without a call.
fn read<R: Wait>(rt: &R, client: &mut Owned) -> Result<bool, Fault> {
    client.put(rt, 2, 5)?;
    let before = client.balance();
    let seen = client.look_up(rt, &2)? == Some(5) && client.glance(rt, &2)? == Some(5);
    let mut walked = 0usize;
    for visit in &client.walk(rt)? {
        walked = walked.wrapping_add(visit.entries.len());
    }
    client.remove(rt, &2)?;
    Ok(seen && walked >= 1 && client.balance() == before.wrapping_sub(1))
}

fn again(map: &Numbers) -> Result<bool, Fault> {
    let other = map.again()?;
    Ok(other.map().clients() == 65_536)
}

fn unshare(map: Numbers) -> Result<bool, Fault> {
    let unshared = map.unshare()?;
    if !(unshared.passes().len() == 1) {
        return Ok(false);
    }
    let closed = unshared.close()?;
    let map = SharedMap::reopen(&closed, 65_536)?;
    let again = map.map().mapping_count();
    drop(map);
    Ok(closed.mapping_count() == 2 && again == 2)
}

fn end(map: Numbers) -> Result<bool, Fault> {
    let closed = map.close()?;
    Ok(closed.mapping_count() == 1)
}

/// The examples of calls of a client that owns its pass.
fn use_client<R: Wait>(rt: &R, client: &mut Owned) -> Result<[bool; 4], Fault> {
    Ok([
        call(rt, client)?,
        puts(rt, client)?,
        replaces(rt, client)?,
        read(rt, client)?,
    ])
}

/// The examples of a map that is closed.
fn use_map<R: Wait>(rt: &R, alloc: Global) -> Result<([bool; 4], bool, bool), Fault> {
    let map = SharedMap::new(alloc, 16)?;
    let mut client = map.client()?;
    let used = use_client(rt, &mut client)?;
    drop(client);
    Ok((used, again(&map)?, end(map)?))
}

/// The examples of a map that is shared no more.
fn use_map_again<R: Wait>(rt: &R, alloc: Global) -> Result<[bool; 3], Fault> {
    let map = SharedMap::new(alloc, 16)?;
    let mut client = map.client_when_in(rt)?;
    let tried = try_call(&mut client);
    let worked = work(rt, &mut client)?;
    drop(client);
    Ok([tried, worked, unshare(map)?])
}

#[test]
fn each_example_of_a_shared_map_is_as_it_says(rt: HostRuntime) {
    let closed = use_map(&rt, rt.alloc());
    let unshared = use_map_again(&rt, rt.alloc());
    assert_same(
        &rt,
        &(closed, unshared),
        &(Ok(([true; 4], true, true)), Ok([true; 3])),
    );
}

/// By hand: 5 is there, so it is kept; what is there is doubled by nothing, as `Add` of a value
/// alone keeps it; 5 and 2 are 7.
#[test]
fn calls_say_whether_they_used_their_function(rt: HostRuntime) {
    let map = share(rt.alloc(), 1).expect(&rt, "no fault");
    let found = counted(&rt, &map);
    let wanted = [(Some(5), false), (Some(5), true), (Some(7), true)];
    assert_same(&rt, &(found, keys_of(map)), &(Ok(wanted), Some(0)));
}

/// Puts each of these keys at itself, each by a client of its own.
fn put_each<R: Wait>(rt: &R, map: &Numbers, keys: &[u64; 2]) -> Result<(), Fault> {
    for key in keys {
        map.client_when_in(rt)?.put(rt, *key, *key)?;
    }
    Ok(())
}

/// Each of two threads makes clients of a map for one: each waits until the client is in.
#[test]
fn each_thread_makes_its_clients(rt: HostRuntime) {
    let map = share(rt.alloc(), 1).expect(&rt, "no fault");
    let (first, second) = thread::join(
        &rt,
        || put_each(&rt, &map, &[0, 1]),
        || put_each(&rt, &map, &[2, 3]),
    );
    assert_same(
        &rt,
        &(first, second, keys_of(map)),
        &(Ok(()), Ok(()), Some(4)),
    );
}

/// The pair of a map that is closed knowing what its client did.
fn close_knowing<R: Wait>(rt: &R, map: Numbers) -> Result<Option<(u64, u64)>, Fault> {
    let mut client = map.client()?;
    client.put(rt, 1, 5)?;
    let moment = client.moment();
    drop(client);
    let closed = map.close_knowing(moment)?;
    Ok(closed.entries().next().copied())
}

/// What a client did is in the map that is closed with its moment.
#[test]
fn a_map_is_closed_knowing_what_a_client_did(rt: HostRuntime) {
    let map = share(rt.alloc(), 2).expect(&rt, "no fault");
    assert_same(&rt, &close_knowing(&rt, map), &Ok(Some((1, 5))));
}

/// What a client of another handle of the map answers to a put of 5 at 1.
fn put_by<R: Wait>(rt: &R, other: &Numbers) -> Result<Reply<u64>, Fault> {
    other.client()?.call(rt, Call::Put(1, 5))
}

/// What such a put answers; why the map is not closed while the other handle is there; and how many keys
/// the map has before and after it is closed.
fn use_two_handles<R: Wait>(
    rt: &R,
    map: Numbers,
) -> Result<(Reply<u64>, Fault, u64, Option<u64>), Fault> {
    let other = map.again()?;
    let put = put_by(rt, &other)?;
    let Err((fault, Some(map))) = close(map) else {
        return Err(Fault::BinMissing);
    };
    drop(other);
    let count = map.map().mapping_count();
    Ok((put, fault, count, keys_of(map)))
}

/// Another handle of the same map keeps it open, and its clients' calls are on the same map.
#[test]
fn a_map_with_two_handles_is_not_closed(rt: HostRuntime) {
    let map = share(rt.alloc(), 1).expect(&rt, "no fault");
    let told = use_two_handles(&rt, map);
    let wanted = (Reply::Value(None), Fault::PassMissing, 1, Some(1));
    assert_same(&rt, &told, &Ok(wanted));
}

/// A client works in a thread and comes back with the thread; another learns of what it had seen,
/// and gets what it put.
fn hand_over<R: Threads + Wait + Copy + Send + 'static>(
    rt: &R,
    map: &Numbers,
) -> Result<(Option<u64>, Option<u64>), Fault> {
    let first = map.client()?;
    let mut second = map.client()?;
    let Worked { mut client, answer } = first.start(rt, AddFive)?.join(rt);
    second.learn(&mut client.moment());
    Ok((answer?, second.work(rt, &GetZero)?))
}

#[test]
fn a_client_that_comes_back_from_its_thread_tells_another(rt: HostRuntime) {
    let map = share(rt.alloc(), 2).expect(&rt, "no fault");
    let got = hand_over(&rt, &map);
    assert_same(
        &rt,
        &(got, keys_of(map)),
        &(Ok((Some(5), Some(5))), Some(1)),
    );
}
