//! Calls by functions that are lent or given a value, where requests for memory are refused and where
//! the bucket is locked: what comes back, and whose function was called.
ghost use Rattle.std.specs.Prelude.{◌≡◌, OnErr};

use crate::asserts::assert_same;
use crate::maps::{Numbers, Owned, copied, keys_of, share};
use clients::{
    Add, ByteString, Change, Client, ClientOf, Fault, HashKey, Holder, Loan, MakesKey, NotMade,
    OwnedClient, Remap, Salt, SharedMap, Work,
};
use std::alloc::{Allocator, Global};
use std::sync::Wait;
use test_support::Refusing;

/// Why a call was not made, if it was not, and whether what was given came back and the function was
/// called.
pub(crate) type Told = (Option<Fault>, bool, bool);

/// What a call is made by, each of which leaves 7 at a key without a value.
const WAYS: [Way; 7] = [
    Way::ModifyOrInsert,
    Way::UpdateOwned,
    Way::UpdateOrKeep,
    Way::Put,
    Way::PutIfAbsent,
    Way::Merge,
    Way::Update,
];

#[derive(Clone, Copy)]
pub(crate) enum Way {
    ModifyOrInsert,
    UpdateOwned,
    UpdateOrKeep,
    Put,
    PutIfAbsent,
    Merge,
    Update,
}

/// Why it was not made, and whether what was given came back.
fn refusal<T: Drop, D: Drop>(made: Result<T, NotMade<D>>) -> (Option<Fault>, bool) {
    match made {
        Ok(_) => (None, false),
        Err(refused) => (Some(refused.fault), refused.given.is_some()),
    }
}

/// Lends or gives a function the value at the key of this query.
fn lend<K: HashKey, F: Remap<K, u64>, A: Allocator + Clone, Q: MakesKey<K, A>, R: Wait>(
    rt: &R,
    client: &mut OwnedClient<K, u64, F, A>,
    way: Way,
    query: Q,
) -> Told {
    let mut called = false;
    let (fault, back) = match way {
        Way::ModifyOrInsert => refusal(client.modify_or_insert(rt, query, 6, |value: &mut u64| {
            called = true;
            *value = 7;
        })),
        Way::UpdateOwned => refusal(client.update_owned(rt, query, |_value| {
            called = true;
            (Some(7), ())
        })),
        _ => {
            let placing = |place: &mut Option<u64>| -> Result<(), ()>
                ensures { OnErr result (place.new ≡ place.old) }
            {
                called = true;
                *place = Some(7);
                Ok(())
            };
            refusal(client.update_or_keep(rt, query, placing))
        }
    };
    (fault, back, called)
}

/// Makes a call by this query.
pub(crate) fn make<K: HashKey, F: Remap<K, u64>, A: Allocator + Clone, Q: MakesKey<K, A>, R: Wait>(
    rt: &R,
    client: &mut OwnedClient<K, u64, F, A>,
    way: Way,
    query: Q,
) -> Told {
    let mut called = false;
    let (fault, back) = match way {
        Way::Put => refusal(client.put_as(rt, query, 7)),
        Way::PutIfAbsent => refusal(client.put_if_absent_as(rt, query, 7)),
        Way::Merge => refusal(client.merge_as(rt, query, 7, |_old, new| {
            called = true;
            Some(new)
        })),
        Way::Update => refusal(client.update_as(rt, query, |_value| {
            called = true;
            (Change::Set(7), ())
        })),
        _ => return lend(rt, client, way, query),
    };
    (fault, back, called)
}

/// The number at the key of this query.
fn value_at<K: HashKey, F: Remap<K, u64>, A: Allocator + Clone, Q: MakesKey<K, A>, R: Wait>(
    rt: &R,
    client: &mut OwnedClient<K, u64, F, A>,
    query: Q,
) -> Option<u64> {
    client.view_as(rt, query, copied)
}

/// Makes the call at a key without a value with one request more granted each time, until it is made.
/// Returns how often it was refused, and whether each time all came back, no function was called, the
/// key had no value and no count changed; and the value that is left.
fn make_at_last<K: HashKey, F: Remap<K, u64>, A: Allocator + Clone, Q: MakesKey<K, A>, R: Wait>(
    rt: &R,
    switch: &Refusing<Global>,
    client: &mut OwnedClient<K, u64, F, A>,
    way: Way,
    query: Q,
) -> (u64, bool, Option<u64>) {
    let before = client.balance();
    let mut kept = true;
    for granted in 0..4u64 {
        switch.refuse_after(granted);
        let told = make(rt, client, way, query);
        switch.refuse_after(u64::MAX);
        let value = value_at(rt, client, query);
        if told.0.is_none() {
            return (granted, kept, value);
        }
        let refused = (Some(Fault::NoMemory), true, false);
        kept = kept && told == refused && value.is_none() && client.balance() == before;
    }
    (4, kept, None)
}

/// A shared map of counts by texts.
type Texts<A> = SharedMap<ByteString<A>, u64, Add, A>;

/// What is left of a map for one when requests of this way are refused, and then none: whether one or
/// two were refused, and each time nothing happened; and what is at the key, and at another, where 5 was
/// put before.
fn refuse_each<A: Allocator + Copy, R: Wait>(
    rt: &R,
    (switch, alloc): (&Refusing<Global>, A),
    way: Way,
) -> Result<(bool, bool, [Option<u64>; 2]), Fault> {
    let map: Texts<A> = SharedMap::with_salt(alloc, 1, 1, Salt(0))?;
    let mut client = map.client()?;
    let new = client.put_as(rt, b"one".as_slice(), 5)?.is_none();
    let (times, kept, left) = make_at_last(rt, switch, &mut client, way, b"two".as_slice());
    let still = value_at(rt, &mut client, b"one".as_slice());
    Ok((times == 1 || times == 2, new && kept, [left, still]))
}

/// The key's bytes and a box for its entry ask for memory. The key is put first; a bucket's first entry
/// needs no box.
#[test]
fn what_is_refused_comes_back_uncalled(rt: HostRuntime) {
    for number in 0..7usize {
        let alloc = Refusing::new(rt.alloc());
        let told = refuse_each(&rt, (&alloc, &alloc), WAYS[number]);
        assert_same(
            &rt,
            &(number, told, alloc.blocks_out()),
            &(number, Ok((true, true, [Some(7), Some(5)])), 0),
        );
    }
}

/// Whether a key was new, what the calls tell that are then made at it, and whether any of these asked
/// for memory.
fn make_each<A: Allocator + Copy, R: Wait>(
    rt: &R,
    (switch, alloc): (&Refusing<Global>, A),
) -> Result<(bool, [Told; 7], bool), Fault> {
    let map: Texts<A> = SharedMap::with_salt(alloc, 1, 1, Salt(0))?;
    let mut client = map.client()?;
    let new = client.put_as(rt, b"one".as_slice(), 5)?.is_none();
    let before = switch.requests();
    let mut told = [(None, false, false); 7];
    for number in 0..7usize {
        told[number] = make(rt, &mut client, WAYS[number], b"one".as_slice());
    }
    Ok((new, told, switch.requests() != before))
}

/// A key that is there is not made, and its value changes where it lies. Neither put takes a function.
#[test]
fn a_key_that_is_there_asks_for_no_memory(rt: HostRuntime) {
    let alloc = Refusing::new(rt.alloc());
    let told = make_each(&rt, (&alloc, &alloc));
    let (called, put) = ((None, false, true), (None, false, false));
    let wanted = [called, called, called, put, put, called, called];
    assert_same(&rt, &told, &Ok((true, wanted, false)));
}

/// Of a modify, a modify or insert, an update and one that may fail that were tried at 1: which were
/// made, and whose function was called.
type Tried = ([bool; 4], [bool; 4]);

/// What any client tries, lent or owned.
fn try_by<H: Holder<u64, u64, Add, Global>>(
    client: &mut ClientOf<H, u64, u64, Add, Global>,
) -> Tried {
    let (mut lent, mut defaulted, mut given, mut placed) = (false, false, false, false);
    let modified = client
        .try_modify(&1, |value: &mut u64| {
            lent = true;
            *value = 1;
        })
        .is_some();
    let inserted = client
        .try_modify_or_insert(&1, 100, |value: &mut u64| {
            defaulted = true;
            *value = 2;
        })
        .is_some();
    let updated = client
        .try_update_owned(&1, |_value: Option<u64>| {
            given = true;
            (Some(3), ())
        })
        .is_some();
    let placing = |place: &mut Option<u64>| -> Result<(), ()>
        ensures { OnErr result (place.new ≡ place.old) }
    {
        placed = true;
        *place = Some(4);
        Ok(())
    };
    let kept = client.try_update_or_keep(&1, placing).is_some();
    (
        [modified, inserted, updated, kept],
        [lent, defaulted, given, placed],
    )
}

/// The same by a client that is lent a pass.
#[derive(Clone, Copy)]
struct Try;

impl Work<u64, u64, Add, Global> for Try {
    type Out = Tried;

    fn work<L: Loan, R: Wait>(
        &self,
        _rt: &R,
        client: &mut Client<'_, L, u64, u64, Add, Global>,
    ) -> Tried {
        try_by(client)
    }
}

/// What a client tries, by both kinds of a client.
fn try_both<R: Wait>(rt: &R, client: &mut Owned) -> [Tried; 2] {
    [try_by(client), client.work(rt, &Try)]
}

/// What the second client tries while the first looks at the one bucket, where 5 is, and then; and the
/// value after each.
fn try_under_a_lock<R: Wait>(
    rt: &R,
    first: &mut Owned,
    second: &mut Owned,
) -> Result<[([Tried; 2], Option<u64>); 2], Fault> {
    first.put(rt, 1, 5)?;
    let busy = first.view(rt, &1, |_value| try_both(rt, second));
    let still = first.get(rt, &1)?;
    let free = try_both(rt, second);
    Ok([(busy, still), (free, first.get(rt, &1)?)])
}

/// What two clients of a map try.
fn try_by_two<R: Wait>(rt: &R, map: &Numbers) -> Result<[([Tried; 2], Option<u64>); 2], Fault> {
    let mut first = map.client()?;
    let mut second = map.client()?;
    try_under_a_lock(rt, &mut first, &mut second)
}

#[test]
fn a_busy_try_lends_nothing(rt: HostRuntime) {
    let map = share(rt.alloc(), 2).expect(&rt, "no fault");
    let tried = try_by_two(&rt, &map);
    let (busy, free) = (([false; 4], [false; 4]), ([true; 4], [true; 4]));
    assert_same(
        &rt,
        &(tried, keys_of(map)),
        &(Ok([([busy; 2], Some(5)), ([free; 2], Some(4))]), Some(1)),
    );
}
