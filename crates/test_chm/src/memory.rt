//! Calls that ask for no memory, and puts of new keys, which ask once beside another key of the bucket and never in an
//! empty one.
ghost use Rattle.std.specs.Prelude.{◌≡◌};

use crate::lines::{DONE, Found, Words, small, told};
use crate::maps::{KeyMap, KeyPass, all, has_replied, key, put_new};
use crate::runs::run;
use bin_history::Reply;
use chm::Fault;
use hashkeys::Key;
use std::alloc::{Allocator, Global};
use std::process::Abort;
use std::sync::Wait;
use test_helpers::Plus;
use test_maps::numbered_text;
use test_support::Refusing;

/// So many calls of the kind that the first word says. Returns how many of them replied as they should.
pub(crate) fn ask<R: Wait + Abort, A: Allocator + Clone>(
    rt: &R,
    switch: &Refusing<Global>,
    map: &KeyMap<A>,
    pass: &mut KeyPass,
    words: &Words<'_>,
) -> Found<'static>
    requires { pass.old.ledger ≡ map.now.ledger.id }
    ensures { pass.new.ledger ≡ map.now.ledger.id }
{
    let times = small(rt, words[1]);
    match words[0] {
        "put_alone" => told(put_alone(rt, map, pass, times)),
        "call_often" => told(call_often(rt, map, pass, times)),
        "put_again" => told(put_again(rt, switch, map, pass, times)),
        _ => {
            put_twins(rt, map, pass, times);
            DONE
        }
    }
}

fn is_refused(made: Result<Reply<u64>, Fault>) -> bool {
    made == Err(Fault::NoMemory)
}

/// Gets, puts and merges at a key that is there, in turn, three calls a time. Returns how many
/// times all three replied the value as it should be.
fn call_often<R: Wait + Abort, A: Allocator + Clone>(
    rt: &R,
    map: &KeyMap<A>,
    pass: &mut KeyPass,
    times: u32,
) -> u64
    requires { pass.old.ledger ≡ map.now.ledger.id }
    ensures { pass.new.ledger ≡ map.now.ledger.id }
{
    let mut right = 0u64;
    for time in 0..u64::from(times) {
        let got = map.get(rt, pass, key(rt, b"a"));
        let put = map.put(rt, pass, key(rt, b"a"), time);
        let merged = map.merge(rt, pass, key(rt, b"a"), 1, Plus(Some(0)));
        if all(&[
            has_replied(got, Some(time)),
            has_replied(put, Some(time)),
            has_replied(merged, Some(time.wrapping_add(1))),
        ]) {
            right = right.wrapping_add(1);
        }
    }
    right
}

/// A key of a number. With `Aa` and with `BB` before it the two have one hash, and so one bucket.
fn twin(rt: &impl Abort, head: [u8; 2], number: u32) -> Key {
    let text = numbered_text(number);
    let bytes = [
        head[0], head[1], text[0], text[1], text[2], text[3], text[4], text[5],
    ];
    key(rt, &bytes)
}

/// Puts both keys of each of so many numbers, with the number.
fn put_twins<R: Wait + Abort, A: Allocator + Clone>(
    rt: &R,
    map: &KeyMap<A>,
    pass: &mut KeyPass,
    count: u32,
)
    requires { pass.old.ledger ≡ map.now.ledger.id }
    ensures { pass.new.ledger ≡ map.now.ledger.id }
{
    for number in 0..count {
        put_new(rt, map, pass, twin(rt, *b"Aa", number), u64::from(number));
        put_new(rt, map, pass, twin(rt, *b"BB", number), u64::from(number));
    }
}

/// Takes the only key of a map away and puts it into its empty bucket again, so many times. Returns how
/// often both replied as they should.
fn put_alone<R: Wait + Abort, A: Allocator + Clone>(
    rt: &R,
    map: &KeyMap<A>,
    pass: &mut KeyPass,
    times: u32,
) -> u64
    requires { pass.old.ledger ≡ map.now.ledger.id }
    ensures { pass.new.ledger ≡ map.now.ledger.id }
{
    let mut right = 0u64;
    for _time in 0..times {
        let removed = map.remove(rt, pass, key(rt, b"a"));
        let put = map.put(rt, pass, key(rt, b"a"), 0);
        if all(&[has_replied(removed, Some(0)), has_replied(put, None)]) {
            right = right.wrapping_add(1);
        }
    }
    right
}

/// Takes a thousand keys away and puts them again beside another of their bucket, one after the other,
/// so many times. Returns how often the remove asked for no memory, a put was refused without memory,
/// and one that was granted one request was made.
fn put_again<R: Wait + Abort, A: Allocator + Clone>(
    rt: &R,
    switch: &Refusing<Global>,
    map: &KeyMap<A>,
    pass: &mut KeyPass,
    times: u32,
) -> u64
    requires { pass.old.ledger ≡ map.now.ledger.id }
    ensures { pass.new.ledger ≡ map.now.ledger.id }
{
    let mut right = 0u64;
    for time in 0..times.saturating_mul(1000) {
        let number = time % 1000;
        let value = u64::from(number);
        switch.refuse_after(0);
        let removed = map.remove(rt, pass, twin(rt, *b"BB", number));
        let refused = map.put(rt, pass, twin(rt, *b"BB", number), value);
        switch.refuse_after(1);
        let put = map.put(rt, pass, twin(rt, *b"BB", number), value);
        let once = !switch.has_refused();
        if all(&[
            has_replied(removed, Some(value)),
            is_refused(refused),
            has_replied(put, None),
            once,
        ]) {
            right = right.wrapping_add(1);
        }
    }
    switch.refuse_after(u64::MAX);
    right
}

#[test]
fn calls_on_a_lean_map_ask_for_memory_for_new_keys_alone(rt: HostRuntime) {
    // The only key is taken away and put again, and calls are made on it; then keys are taken away and put
    // again beside others.
    run(
        &rt,
        rt.alloc(),
        "open lean 4096 1
        put a 0 = none
        grant 0
        put_alone 10000 = 10000
        call_often 100000 = 100000
        refused = false
        grant max
        put_twins 1000
        put_again 10 = 10000
        close
        keys = 2001",
    );
}
