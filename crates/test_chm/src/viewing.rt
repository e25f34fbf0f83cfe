//! Reading a value where it lies: what is seen, by whom, at what cost, and behind which lock.
ghost use Rattle.std.specs.Prelude.{◌≡◌};

use crate::maps::{KeyMap, KeyPass, assert_same, key};
use crate::plays::{Play, played};
use crate::runs::{BOTH_FORMS, run_rows};
use crate::steps::own;
use bin_history::{Remap, Value};
use chm::{Fault, Map};
use count_ledger::Pass;
use hashkeys::Key;
use std::alloc::{Allocator, Global};
use std::process::Abort;
use std::sync::Wait;
use test_helpers::{Alloc, Answer, Number, Plus};
use test_maps::BOTH;
use test_support::Refusing;

#[test]
fn a_view_sees_what_the_call_before_it_left(rt: HostRuntime) {
    run_rows(
        &rt,
        rt.alloc(),
        "open $0 16 2
        put a 1 = none
        put q 4 = none
        as 1
        view a = 1
        as 0
        put a 2 = 1
        remove q = 4
        as 1
        view a = 2
        view q = none
        view Aa = none
        made = 0
        as 0
        made = 4
        close
        keys = 1
        pairs a 2",
        BOTH_FORMS,
    );
}

/// Puts a value at a key.
pub(crate) fn put_in<R: Wait + Abort, V: Value, F: Remap<Key, V>, A: Allocator + Clone>(
    rt: &R,
    map: &Map<Key, V, F, A>,
    pass: &mut Pass<Key, V, F>,
    text: &[u8],
    value: V,
)
    requires { pass.old.ledger ≡ map.now.ledger.id }
    ensures { pass.new.ledger ≡ map.now.ledger.id }
{
    assert!(rt; map.put(rt, pass, key(rt, text), value).is_ok());
}

/// While the first client looks at "a", the second tries to see at the same bucket and at another one.
/// Tells what came of it, and whether a function of a try that found the bucket locked was called.
#[derive(Drop)]
struct TryUnderALock;

impl<A: Allocator + Clone> Play<Key, u64, Plus, A> for TryUnderALock {
    type Told = ([Option<Option<u64>>; 2], bool);

    fn play<R: Wait + Abort>(
        &self,
        rt: &R,
        map: &KeyMap<A>,
        pass: &mut KeyPass,
        others: &mut Vec<KeyPass, A>,
    ) -> ([Option<Option<u64>>; 2], bool) {
        assert!(rt; others.len() == 1);
        put_in(rt, map, &mut others[0], b"a", 1);
        put_in(rt, map, &mut others[0], b"Aa", 3);
        view_twice(rt, map, &mut others[0], pass)
    }
}

fn view_twice<R: Wait + Abort, A: Allocator + Clone>(
    rt: &R,
    map: &KeyMap<A>,
    first: &mut KeyPass,
    second: &mut KeyPass,
) -> ([Option<Option<u64>>; 2], bool)
    requires first { first.old.ledger ≡ map.now.ledger.id }
    requires second { second.old.ledger ≡ map.now.ledger.id }
{
    let same = key(rt, b"q");
    let other = key(rt, b"Aa");
    let mut called = false;
    let tried = map.view(
        rt,
        first,
        &key(rt, b"a"),
        |_value|
            requires { second.now.ledger ≡ map.now.ledger.id }
        {
            let busy = map.try_view(second, &same, |value| {
                called = true;
                value.copied()
            });
            let free = map.try_view(second, &other, own);
            [busy, free]
        },
    );
    (tried, called)
}

#[test]
fn a_function_that_calls_the_map_finds_its_own_bucket_locked(rt: HostRuntime) {
    for form in BOTH {
        let told = played(&rt, rt.alloc(), (form, 2), &TryUnderALock);
        assert_same(&rt, &told, &([None, Some(Some(3))], false));
    }
    // A step of a walk that is tried goes on where nobody looks.
    run_rows(
        &rt,
        rt.alloc(),
        "open $0 16 2
        put a 1 = none
        put Aa 3 = none
        as 1
        cursor
        at_end = false
        step try 16 0 Aa 3",
        BOTH_FORMS,
    );
}

/// Looks at a value whose copies ask for memory: where it lies, and by copies with and without
/// memory. Tells what was seen, and whether the view asked for memory.
#[derive(Drop)]
struct Look<'a>(Alloc<'a>);

impl<'a> Play<Key, Number<'a>, Answer<'a>, Alloc<'a>> for Look<'a> {
    type Told = ([Option<u64>; 2], bool, Option<Fault>);

    fn play<R: Wait + Abort>(
        &self,
        rt: &R,
        map: &Map<Key, Number<'a>, Answer<'a>, Alloc<'a>>,
        pass: &mut Pass<Key, Number<'a>, Answer<'a>>,
        _others: &mut Vec<Pass<Key, Number<'a>, Answer<'a>>, Alloc<'a>>,
    ) -> ([Option<u64>; 2], bool, Option<Fault>) {
        let alloc = self.0;
        put_in(rt, map, pass, b"a", Number { number: 7, alloc });
        alloc.refuse_after(0);
        let viewed = map.view(rt, pass, &key(rt, b"a"), |value| Some(value?.number));
        let asked = alloc.has_refused();
        let (refused, copied) = copy_twice(rt, alloc, map, pass);
        ([viewed, Some(copied.number)], asked, refused)
    }
}

/// Copies the value of `a` without memory, and with it.
fn copy_twice<R: Wait + Abort, V: Value, F: Remap<Key, V>, A: Allocator + Clone>(
    rt: &R,
    switch: &Refusing<Global>,
    map: &Map<Key, V, F, A>,
    pass: &mut Pass<Key, V, F>,
) -> (Option<Fault>, V)
    requires { pass.old.ledger ≡ map.now.ledger.id }
{
    let at = key(rt, b"a");
    switch.refuse_after(0);
    let refused = map.look_up(rt, pass, &at).err();
    switch.refuse_after(u64::MAX);
    let copied = map.look_up(rt, pass, &at).expect(rt, "memory");
    (refused, copied.expect(rt, "a value"))
}

#[test]
fn a_view_copies_nothing_and_a_look_up_a_value(rt: HostRuntime) {
    for form in BOTH {
        let alloc = Refusing::new(rt.alloc());
        let told = played(&rt, &alloc, (form, 1), &Look(&alloc));
        assert_same(
            &rt,
            &told,
            &([Some(7), Some(7)], false, Some(Fault::NoMemory)),
        );
    }
}
