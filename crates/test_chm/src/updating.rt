//! Changing a value by a function: what it is shown, which call the change is, and what each refused
//! request leaves.
ghost use Rattle.std.specs.Prelude.{◌≡◌};

use crate::lines::number;
use crate::maps::{KeyMap, KeyPass, numbered};
use crate::runs::run_rows;
use bin_history::KeyArg;
use chm::{Change, Fault};
use hashkeys::Key;
use std::alloc::Allocator;
use std::process::Abort;
use std::sync::Wait;

/// What a function does to a value: it stays, goes, or is set to this.
pub(crate) fn change_to(rt: &impl Abort, word: &str, value: &str) -> Change<u64> {
    match word {
        "keep" => Change::Keep,
        "remove" => Change::Remove,
        _ => Change::Set(number(rt, value)),
    }
}

/// Changes a value by a function that is called once and returns what it was shown, by the call of this
/// name, which says how its key is given.
pub(crate) fn update<R: Wait + Abort, A: Allocator + Clone>(
    rt: &R,
    map: &KeyMap<A>,
    pass: &mut KeyPass,
    key: Key,
    way: &str,
    change: Change<u64>,
) -> Result<Option<u64>, Fault>
    requires { pass.old.ledger ≡ map.now.ledger.id }
    ensures { pass.new.ledger ≡ map.now.ledger.id }
{
    let mut called = 0u32;
    let showing = |value: Option<&u64>| -> (Change<u64>, Option<u64>) {
        called = called.saturating_add(1);
        (change, value.copied())
    };
    let made = match way {
        "owned" => map.update(rt, pass, key, showing),
        "lent" => map.update_lent(rt, pass, &key, showing),
        "borrowed" => map.update_on(rt, pass, KeyArg::Borrowed(&key), showing),
        _ => map
            .try_update(pass, KeyArg::Owned(key), showing)
            .expect(rt, "a free bucket"),
    };
    assert!(rt; called == 1);
    made
}

/// Updates of this way give so many new keys their numbers.
pub(crate) fn fill<R: Wait + Abort, A: Allocator + Clone>(
    rt: &R,
    map: &KeyMap<A>,
    pass: &mut KeyPass,
    way: &str,
    count: u32,
)
    requires { pass.old.ledger ≡ map.now.ledger.id }
    ensures { pass.new.ledger ≡ map.now.ledger.id }
{
    for number in 0..count {
        let change = Change::Set(u64::from(number));
        let shown = update(rt, map, pass, numbered(rt, number), way, change);
        assert!(rt; shown == Ok(None));
    }
}

#[test]
fn an_update_is_the_call_for_its_change(rt: HostRuntime) {
    // The value stays, is set twice and taken away, and is set once more. A lean map has no records.
    run_rows(
        &rt,
        rt.alloc(),
        "open $0 16 1
        update owned a keep = none
        update owned a set 6 = none
        update lent a set 7 = 6
        update tried a remove = 7
        update borrowed a set 9 = none
        get a = 9
        made = 6
        close
        pairs a 9
        records = $1
        record 0 = $2
        record 1 = $3 $4
        record 2 = $3 $5
        record 3 = $6
        record 4 = $3 $7
        record 5 = $8",
        "recorded 6 contains put 6 7 remove 9 get
        lean 0 lean lean 0 0 lean 0 lean",
    );
}

#[test]
fn a_lean_update_asks_for_memory_where_it_makes_an_entry(rt: HostRuntime) {
    // An update of one key, with no request granted: of `a`, which has the value 5, or of `q`, which has
    // none. What it finds, and the values of both then.
    run_rows(
        &rt,
        rt.alloc(),
        "open lean 16 1
        put a 5 = none
        grant 0
        update lent $0 $1 $2 = $3
        grant max
        view a = $4
        view q = $5",
        "a keep - 5 5 none
        a set 6 5 6 none
        a remove - 5 none none
        q keep - none 5 none
        q remove - none 5 none
        q set 6 no-memory 5 none",
    );
}

#[test]
fn a_refused_update_of_a_recorded_map_changes_nothing(rt: HostRuntime) {
    // A put and so many gets of `a`, which has the value 5, and an update to 6 of it or of `q`, with so many
    // requests granted. What it finds, and the values of both then. The bucket has room for four records
    // at first, and for as many entries.
    run_rows(
        &rt,
        rt.alloc(),
        "open recorded 16 1
        put a 5 = none
        often $1 5
        grant $2
        update lent $0 set 6 = $3
        grant max
        view a = $4
        view q = $5",
        "a 2 0 5 6 none
        a 3 0 no-memory 5 none
        a 3 1 5 6 none
        q 2 0 none 5 6
        q 3 0 no-memory 5 none
        q 3 1 none 5 6",
    );
}
