//! Tries that take a function: which of them call it.
ghost use Rattle.std.specs.Prelude.{◌≡◌};

use crate::maps::{assert_same, key};
use crate::plays::{Play, played};
use crate::viewing::put_in;
use bin_history::{KeyArg, Op, Remap, Value};
use chm::{Change, Map};
use count_ledger::Pass;
use hashkeys::Key;
use std::alloc::{Allocator, Global};
use std::process::Abort;
use std::sync::Wait;
use test_helpers::{Alloc, Answer, Number};
use test_maps::BOTH;
use test_support::Refusing;

/// Of a view, a view by a borrowed key, an update and a computation that were tried: which were made,
/// and whose function was called.
type Tried = ([bool; 4], [bool; 4]);

/// Tries the four at a key that has a value. The function of the computation asks for memory if it is
/// called.
fn try_at<V: Value, F: Remap<Key, V>, A: Allocator + Clone>(
    switch: &Refusing<Global>,
    map: &Map<Key, V, F, A>,
    pass: &mut Pass<Key, V, F>,
    at: &Key,
    function: F,
) -> Tried
    requires { pass.old.ledger ≡ map.now.ledger.id }
    ensures { pass.new.ledger ≡ map.now.ledger.id }
{
    let (mut by_view, mut by_form, mut by_update) = (false, false, false);
    let viewed = map.try_view(pass, at, |_value| by_view = true).is_some();
    let viewed_as = map.try_view_as(pass, at, |_value| by_form = true).is_some();
    let updated = map
        .try_update(pass, KeyArg::Borrowed(at), |_value| {
            by_update = true;
            (Change::Keep, ())
        })
        .is_some();
    let before = switch.requests();
    let computed = map
        .try_call(pass, KeyArg::Borrowed(at), Op::ComputeIfPresent(function))
        .is_some();
    let by_computation = switch.requests() > before;
    (
        [viewed, viewed_as, updated, computed],
        [by_view, by_form, by_update, by_computation],
    )
}

/// While the first client looks at "a", the second tries the four at "q", which is of the same bucket,
/// and at "Aa", which is of another one.
fn try_under_a_lock<R: Wait + Abort, V: Value, F: Remap<Key, V>, A: Allocator + Clone>(
    rt: &R,
    switch: &Refusing<Global>,
    map: &Map<Key, V, F, A>,
    first: &mut Pass<Key, V, F>,
    second: &mut Pass<Key, V, F>,
    functions: (F, F),
) -> [Tried; 2]
    requires first { first.old.ledger ≡ map.now.ledger.id }
    requires second { second.old.ledger ≡ map.now.ledger.id }
{
    let (one, other) = functions;
    map.view(
        rt,
        first,
        &key(rt, b"a"),
        |_value|
            requires { second.now.ledger ≡ map.now.ledger.id }
        {
            [
                try_at(switch, map, second, &key(rt, b"q"), one),
                try_at(switch, map, second, &key(rt, b"Aa"), other),
            ]
        },
    )
}

/// Values and functions that ask for memory.
#[derive(Drop)]
struct Asking<'a>(Alloc<'a>);

impl<'a> Play<Key, Number<'a>, Answer<'a>, Alloc<'a>> for Asking<'a> {
    type Told = [Tried; 2];

    fn play<R: Wait + Abort>(
        &self,
        rt: &R,
        map: &Map<Key, Number<'a>, Answer<'a>, Alloc<'a>>,
        pass: &mut Pass<Key, Number<'a>, Answer<'a>>,
        others: &mut Vec<Pass<Key, Number<'a>, Answer<'a>>, Alloc<'a>>,
    ) -> [Tried; 2] {
        let alloc = self.0;
        let number = Some(8);
        assert!(rt; others.len() == 1);
        put_in(rt, map, pass, b"q", Number { number: 4, alloc });
        put_in(rt, map, pass, b"Aa", Number { number: 5, alloc });
        let functions = (Answer { number, alloc }, Answer { number, alloc });
        try_under_a_lock(rt, alloc, map, &mut others[0], pass, functions)
    }
}

#[test]
fn a_busy_try_calls_no_function(rt: HostRuntime) {
    for form in BOTH {
        let alloc = Refusing::new(rt.alloc());
        let tried = played(&rt, &alloc, (form, 2), &Asking(&alloc));
        assert_same(
            &rt,
            &tried,
            &[([false; 4], [false; 4]), ([true; 4], [true; 4])],
        );
    }
}
