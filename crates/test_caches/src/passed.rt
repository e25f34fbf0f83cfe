//! Entries that the hand passes, and functions that call the cache when an entry is handed to them.
use crate::asserts::assert_same;
use crate::calls::{Caller, Calls, Numbers, put, shown};
use clients::Fault;
use std::sync::Wait;

/// Puts 1 and 8 into a cache for two.
fn fill<R: Wait>(rt: &R, client: &mut Caller) -> Result<(), Fault> {
    put(rt, client, 1, 1)?;
    put(rt, client, 8, 8)?;
    Ok(())
}

/// Whether a client finds the key.
fn is_there<R: Wait>(rt: &R, client: &mut Caller, key: u64) -> Result<bool, Fault> {
    Ok(client.get(rt, &key, 0)?.is_some())
}

/// Fills a cache for two with 1 and 8, uses both, puts a third key, uses that, and puts a fourth. Shown is which of the
/// four are there, in this order.
#[derive(Drop)]
struct PassingTwice {
    third: u64,
    fourth: u64,
}

impl Calls for PassingTwice {
    type Shown = [bool; 4];

    fn call<R: Wait>(
        &self,
        rt: &R,
        _cache: &Numbers,
        client: &mut Caller,
    ) -> Result<[bool; 4], Fault> {
        fill(rt, client)?;
        is_there(rt, client, 1)?;
        is_there(rt, client, 8)?;
        put(rt, client, self.third, self.third)?;
        is_there(rt, client, self.third)?;
        put(rt, client, self.fourth, self.fourth)?;
        Ok([
            is_there(rt, client, 1)?,
            is_there(rt, client, 8)?,
            is_there(rt, client, self.third)?,
            is_there(rt, client, self.fourth)?,
        ])
    }
}

/// The hand passes 1 and 8, and one of them goes. The other one counts as not used then, so it goes next, and not the
/// third. By the last bits of hashes 8 is in the first bucket and 1 in one of the last, and most third keys lie between
/// them.
#[test]
fn an_entry_that_was_passed_counts_as_not_used(rt: HostRuntime) {
    for third in 2..8u64 {
        for fourth in 11..15u64 {
            let found = shown(&rt, rt.alloc(), 2, &PassingTwice { third, fourth });
            let wanted = [false, false, true, true];
            assert_same(&rt, &(third, fourth, found), &(third, fourth, wanted));
        }
    }
}

/// Fills a cache for two with 1 and 8, uses one of them, removes what has ended, which is nothing, and puts 3. Shown are how
/// many were removed, and which of 1, 8 and 3 are there.
#[derive(Drop)]
struct RemovingNone {
    used: u64,
}

impl Calls for RemovingNone {
    type Shown = (u64, [bool; 3]);

    fn call<R: Wait>(
        &self,
        rt: &R,
        _cache: &Numbers,
        client: &mut Caller,
    ) -> Result<(u64, [bool; 3]), Fault> {
        fill(rt, client)?;
        is_there(rt, client, self.used)?;
        let removed = client.remove_ended(rt, 5, &mut |_key: u64, _value: u64| ())?;
        put(rt, client, 3, 3)?;
        let there = [
            is_there(rt, client, 1)?,
            is_there(rt, client, 8)?,
            is_there(rt, client, 3)?,
        ];
        Ok((removed, there))
    }
}

/// Whichever of the two the hand meets first, the one that was not used goes.
#[test]
fn a_removal_of_ended_entries_leaves_the_others_used(rt: HostRuntime) {
    let of_first = shown(&rt, rt.alloc(), 2, &RemovingNone { used: 1 });
    let of_second = shown(&rt, rt.alloc(), 2, &RemovingNone { used: 8 });
    assert_same(&rt, &of_first, &(0, [true, false, true]));
    assert_same(&rt, &of_second, &(0, [false, true, true]));
}

/// What a function that is handed entries came to: how many there were, whether another client found the first when it was
/// handed over, and how many puts by that client were made.
type Handed = (u64, bool, u64);

/// Fills a cache for two, and puts a third key by a function that looks for the first entry that it is handed, and puts two
/// keys, each by another client. Shown are what the function came to, how many entries are left, and whether the third is
/// there.
struct PuttingByTwo;

impl Calls for PuttingByTwo {
    type Shown = (Handed, u64, bool);

    fn call<R: Wait>(
        &self,
        rt: &R,
        cache: &Numbers,
        client: &mut Caller,
    ) -> Result<(Handed, u64, bool), Fault> {
        let mut other = cache.client()?;
        fill(rt, client)?;
        let (mut handed, mut found, mut made) = (0u64, false, 0u64);
        let mut call = |key: u64, _value: u64| {
            handed = handed.saturating_add(1);
            if handed == 1 {
                found = other.get(rt, &key, 0) != Ok(None);
                for more in [11u64, 12] {
                    let is_put = put(rt, &mut other, more, more).is_ok();
                    made = made.saturating_add(is_put as u64);
                }
            }
        };
        client.put(rt, 3, 3, None, 0, &mut call)?;
        let has_third = is_there(rt, client, 3)?;
        let left = cache.map().mapping_count();
        Ok(((handed, found, made), left, has_third))
    }
}

/// The first entry is gone when it is handed over, and neither its bucket nor the hand is locked: the second put of the
/// other client moves the hand. The cache is full then, so another entry goes for the third key.
#[test]
fn a_function_that_is_handed_an_entry_calls_the_cache(rt: HostRuntime) {
    let called = shown(&rt, rt.alloc(), 2, &PuttingByTwo);
    assert_same(&rt, &called, &((2, false, 2), 2, true));
}
