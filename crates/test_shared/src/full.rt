//! What follows when a client has made all the calls that it may: 1,000,000 in a recorded map.
use crate::asserts::assert_same;
use crate::given_back::{Told, Way, make};
use crate::maps::{Numbers, Owned, copied};
use clients::{Change, ClientFault, Fault, KeyArg, Map, Op, SharedMap};
use std::alloc::Global;
use std::sync::Wait;
use std::thread;
use std::thread::Threads;

/// A recorded map without entries, for two clients.
fn share_recorded(alloc: Global) -> Result<Numbers, Fault> {
    let (map, passes) = Map::new(alloc, 1, 1)?;
    match map.close(passes) {
        Ok(closed) => SharedMap::reopen(&closed, 2),
        Err(refused) => Err(refused.give_up()),
    }
}

/// The client puts 5 at 1, and makes all other calls that it may.
fn use_up<R: Wait>(rt: &R, client: &mut Owned) -> Result<(), Fault> {
    client.put(rt, 1, 5)?;
    for _ in 1..1_000_000u64 {
        client.contains_key(rt, &1)?;
    }
    Ok(())
}

/// Why some calls of the client are refused.
fn refusals<R: Wait>(rt: &R, client: &mut Owned) -> [Option<Fault>; 5] {
    let tried = match client.try_call(KeyArg::Owned(1), Op::Put(6)) {
        Some(tried) => tried.err(),
        None => None,
    };
    [
        client.put(rt, 1, 6).err(),
        client.put(rt, 2, 6).err(),
        client.get(rt, &1).err(),
        client.remove(rt, &1).err(),
        tried,
    ]
}

/// Why calls by functions that are shown or lent the value at 1 are refused, and whether a function was
/// called.
fn refused_functions<R: Wait>(rt: &R, client: &mut Owned) -> ([Option<Fault>; 3], bool) {
    let (mut shown, mut lent, mut tried) = (false, false, false);
    let updated = client.update(rt, 1, |_value| {
        shown = true;
        (Change::Set(6), ())
    });
    let modified = client.modify(rt, &1, |value: &mut u64| {
        lent = true;
        *value = 6;
    });
    let modified_or_busy = client.try_modify(&1, |value: &mut u64| {
        tried = true;
        *value = 6;
    });
    let busy = match modified_or_busy {
        Some(made) => made.err(),
        None => None,
    };
    (
        [updated.err(), modified.err(), busy],
        shown || lent || tried,
    )
}

/// What calls tell that give back what they were given.
fn given_back<R: Wait>(rt: &R, client: &mut Owned) -> [Told; 4] {
    [
        make(rt, client, Way::ModifyOrInsert, &2),
        make(rt, client, Way::UpdateOwned, &2),
        make(rt, client, Way::Put, &2),
        make(rt, client, Way::Update, &1),
    ]
}

/// What the client reads without a call: the values at 1 and 2, how many keys there are, and how
/// many its calls added.
fn reads<R: Wait>(rt: &R, client: &mut Owned) -> (Option<u64>, Option<u64>, u64, u64) {
    let first = client.view(rt, &1, copied);
    let second = client.view(rt, &2, copied);
    (
        first,
        second,
        client.map().mapping_count(),
        client.balance(),
    )
}

/// A full client's calls are refused, its functions are not called and come back, nothing is changed, and it still
/// reads.
#[test]
fn a_full_client_makes_no_more_calls(rt: HostRuntime) {
    let map = share_recorded(rt.alloc()).expect(&rt, "no fault");
    let mut client = map.client().expect(&rt, "a client");
    let used = use_up(&rt, &mut client);
    let refused = refusals(&rt, &mut client);
    let lent = refused_functions(&rt, &mut client);
    let given = given_back(&rt, &mut client);
    let read = reads(&rt, &mut client);
    drop(client);
    drop(map);
    let full = Some(Fault::PassFull);
    assert_same(&rt, &used, &Ok(()));
    assert_same(
        &rt,
        &(refused, lent, given, read),
        &(
            [full; 5],
            ([full; 3], false),
            [(full, true, false); 4],
            (Some(5), None, 1, 1),
        ),
    );
}

/// A client of the map makes all calls that it may, and is back.
fn use_one_up<R: Wait>(rt: &R, map: &Numbers) -> Result<(), Fault> {
    let mut client = map.client()?;
    use_up(rt, &mut client)
}

/// The numbers of the clients that a map gives after the first one is full: one that nobody had; the
/// same, when it came back; and none while it is out, since the full one is not given again.
fn next_clients<R: Wait>(
    rt: &R,
    map: &Numbers,
) -> Result<([usize; 2], Option<Fault>, Option<u64>), Fault> {
    use_one_up(rt, map)?;
    let first = map.client()?.number();
    let mut next = map.client()?;
    let none = map.client().err();
    Ok(([first, next.number()], none, next.put(rt, 1, 6)?))
}

/// The value at 1 that a closed map has.
fn value_left(map: Numbers) -> Result<Option<u64>, Fault> {
    let closed = map.close().map_err(|refused| refused.give_up())?;
    Ok(closed.get(&1).copied())
}

/// A client that comes back full is followed by the next one; the map is closed with both.
#[test]
fn a_full_client_is_followed_by_the_next(rt: HostRuntime) {
    let map = share_recorded(rt.alloc()).expect(&rt, "no fault");
    let told = next_clients(&rt, &map);
    let left = value_left(map);
    assert_same(
        &rt,
        &(told, left),
        &(Ok(([1, 1], Some(Fault::NoClient), Some(5))), Ok(Some(6))),
    );
}

/// Gives a client back after a while.
fn drop_late(client: Owned) {
    for _turn in 0..1_000u32 {
        thread::yield_now();
    }
    drop(client);
}

/// The client that is waited for while this one is given back.
fn wait_for_one<R: Wait + Threads + Sync>(
    rt: &R,
    map: &Numbers,
    client: Owned,
) -> Result<Owned, ClientFault> {
    let (waited, _) = thread::join(rt, || map.client_when_in(rt), || drop_late(client));
    waited
}

/// Why a map is not closed.
fn refusal_of_close(map: Numbers) -> Option<Fault> {
    match map.close() {
        Ok(_closed) => None,
        Err(refused) => Some(refused.give_up()),
    }
}

/// The numbers of the clients that are waited for while the first of two is full, and why none is once
/// both are. A close that fails meanwhile, since another handle is out, counts the first once.
fn wait_for_each<R: Wait + Threads + Sync>(
    rt: &R,
    map: Numbers,
) -> Result<([usize; 2], Option<Fault>, Option<ClientFault>), Fault> {
    use_one_up(rt, &map)?;
    let second = map.client_when_in(rt)?;
    let number = second.number();
    let other = map.again()?;
    let fault = refusal_of_close(map);
    let mut waited = wait_for_one(rt, &other, second)?;
    let again = waited.number();
    use_up(rt, &mut waited)?;
    drop(waited);
    let none = other.client_when_in(rt).err();
    Ok(([number, again], fault, none))
}

/// Once all clients came back full, whoever waits for one is told so.
#[test]
fn nobody_waits_for_a_client_once_all_are_full(rt: HostRuntime) {
    let map = share_recorded(rt.alloc()).expect(&rt, "no fault");
    let told = wait_for_each(&rt, map);
    let wanted = (
        [1, 1],
        Some(Fault::PassMissing),
        Some(ClientFault::ClientsFull),
    );
    assert_same(&rt, &told, &Ok(wanted));
}
