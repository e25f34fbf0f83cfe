//! Walks, glances, look-ups by what stands for a key, and clears.
ghost use Rattle.std.specs.Prelude.{◌≡◌};

use crate::lines::{Found, Words, number, reply_or_fault, small, told};
use crate::maps::{KeyMap, KeyPass, assert_pairs, key};
use crate::runs::{run, run_rows};
use bin_history::Form;
use chm::Fault;
use std::alloc::Allocator;
use std::process::Abort;
use std::sync::Wait;

/// How many buckets and entries a walk shows, and the sum of their values.
pub(crate) fn walked<R: Wait, A: Allocator + Clone>(
    rt: &R,
    map: &KeyMap<A>,
    pass: &mut KeyPass,
) -> Result<[u64; 3], Fault>
    requires { pass.old.ledger ≡ map.now.ledger.id }
    ensures { pass.new.ledger ≡ map.now.ledger.id }
{
    let visits = map.walk(rt, pass)?;
    let mut entries = 0u64;
    let mut sum = 0u64;
    for visit in &visits {
        for (_key, value) in &visit.entries {
            entries = entries.saturating_add(1);
            sum = sum.saturating_add(*value);
        }
    }
    Ok([visits.len() as u64, entries, sum])
}

/// How many visits of a walk are, each in its turn, of the class of as many as there are visits.
pub(crate) fn classes<R: Wait + Abort, A: Allocator + Clone>(
    rt: &R,
    map: &KeyMap<A>,
    pass: &mut KeyPass,
) -> u64
    requires { pass.old.ledger ≡ map.now.ledger.id }
    ensures { pass.new.ledger ≡ map.now.ledger.id }
{
    let visits = map.walk(rt, pass).expect(rt, "memory");
    let mut index = 0u32;
    for visit in &visits {
        if visit.class.index() == index && visit.class.n() as usize == visits.len() {
            index = index.saturating_add(1);
        }
    }
    u64::from(index)
}

/// The class of the visit of a walk of the place that the first word says, which shows the entries of the
/// other words.
pub(crate) fn show_bucket<R: Wait + Abort, A: Allocator + Clone>(
    rt: &R,
    map: &KeyMap<A>,
    pass: &mut KeyPass,
    words: &Words<'_>,
) -> Found<'static>
    requires { pass.old.ledger ≡ map.now.ledger.id }
    ensures { pass.new.ledger ≡ map.now.ledger.id }
{
    let visits = map.walk(rt, pass).expect(rt, "memory");
    let place = small(rt, words[1]) as usize;
    let visit = visits.get(place).expect(rt, "a bucket");
    assert_pairs(rt, &visit.entries, &words[2..]);
    (
        "",
        [
            u64::from(visit.class.n()),
            u64::from(visit.class.index()),
            0,
        ],
    )
}

/// How many entries the visit of a walk of the place that the first word says shows, among which is the pair
/// of the other two.
pub(crate) fn show_among<R: Wait + Abort, A: Allocator + Clone>(
    rt: &R,
    map: &KeyMap<A>,
    pass: &mut KeyPass,
    words: &Words<'_>,
) -> Found<'static>
    requires { pass.old.ledger ≡ map.now.ledger.id }
    ensures { pass.new.ledger ≡ map.now.ledger.id }
{
    let visits = map.walk(rt, pass).expect(rt, "memory");
    let place = small(rt, words[1]) as usize;
    let visit = visits.get(place).expect(rt, "a bucket");
    let wanted = (key(rt, words[2].as_bytes()), number(rt, words[3]));
    assert!(rt; visit.entries.contains(&wanted));
    told(visit.entries.len() as u64)
}

/// The index of the bucket that has the hash of the number, and the number behind it.
pub(crate) fn step_at<R: Wait + Abort, A: Allocator + Clone>(
    rt: &R,
    map: &KeyMap<A>,
    pass: &mut KeyPass,
    number: u64,
) -> Found<'static>
    requires { pass.old.ledger ≡ map.now.ledger.id }
    ensures { pass.new.ledger ≡ map.now.ledger.id }
{
    let tried = map
        .try_visit_at(pass, number)
        .expect(rt, "a bucket that nobody locks");
    let (shown, next) = tried.expect(rt, "memory");
    match shown {
        Some(visit) => ("", [u64::from(visit.class.index()), next, 0]),
        None => ("none", [next, 0, 0]),
    }
}

/// A call by what stands for its key, in a lean map.
pub(crate) fn look_up_by<R: Wait + Abort, A: Allocator + Clone>(
    rt: &R,
    map: &KeyMap<A>,
    pass: &mut KeyPass,
    words: &Words<'_>,
) -> Found<'static>
    requires { pass.old.ledger ≡ map.now.ledger.id }
    ensures { pass.new.ledger ≡ map.now.ledger.id }
{
    if map.form() != Form::Lean {
        return ("recorded", [0; 3]);
    }
    let at = key(rt, words[1].as_bytes());
    reply_or_fault(match words[0] {
        "get_as" => map.get_as(rt, pass, &at),
        "contains_as" => map.contains_as(rt, pass, &at),
        _ => map.remove_as(rt, pass, &at),
    })
}

/// A recorded map of four keys of four buckets, one of which is taken away and put again.
const RECORDED: &str = "open recorded 16 1
    put q 1 = none
    put a 2 = none
    put Aa 3 = none
    put zzzzzz 4 = none
    classes = 16
    walk = 16 4 10
    bucket 0 Aa 3 = 16 0
    bucket 1 q 1 a 2 = 16 1
    bucket 15 zzzzzz 4 = 16 15
    remove q = 1
    put q 5 = none
    classes = 16
    walk = 16 4 14
    bucket 0 Aa 3 = 16 0
    bucket 1 a 2 q 5 = 16 1
    bucket 15 zzzzzz 4 = 16 15
    close
    keys = 4";

/// The same in a lean map of three keys: it would grow with the fourth.
const LEAN: &str = "open lean 16 1
    put q 1 = none
    put a 2 = none
    put Aa 3 = none
    classes = 16
    walk = 16 3 6
    bucket 0 Aa 3 = 16 0
    bucket 1 q 1 a 2 = 16 1
    bucket 15 = 16 15
    remove q = 1
    put q 5 = none
    classes = 16
    walk = 16 3 10
    bucket 0 Aa 3 = 16 0
    bucket 1 a 2 q 5 = 16 1
    bucket 15 = 16 15
    close
    keys = 3";

#[test]
fn a_walk_shows_each_bin_in_turn(rt: HostRuntime) {
    run(&rt, rt.alloc(), RECORDED);
    run(&rt, rt.alloc(), LEAN);
}

/// Four keys, in a map that is opened again with them under the salt 1, and in one of 32 buckets that has
/// others too.
const FOUR: &str = "open $0 16 1 $1
    put q 1 = none
    put a 2 = none
    put Aa 3 = none
    put zzzzzz 4 = none
    close
    form = $0
    salt = $1
    bins = $2
    pairs $3 $4 $5 $6 $7 $8 $9 $10
    reopen 1 $11
    close
    form = $0
    salt = 1
    bins = $2
    pairs $12 $13 $14 $15 $16 $17 $18 $19";

/// The four keys and so many others, in 32 buckets.
const FOUR_AND_MORE: &str = "open $0 16 1 $1
    put q 1 = none
    put a 2 = none
    put Aa 3 = none
    put zzzzzz 4 = none
    numbers 0 $2
    close
    form = $0
    salt = $1
    bins = 32
    pairs $3 $4 $5 $6 $7 $8 $9 $10";

#[test]
fn a_walk_shows_four_keys_in_order(rt: HostRuntime) {
    // A lean table has grown to 32 buckets, and opens again with 32.
    run_rows(
        &rt,
        rt.alloc(),
        FOUR,
        "recorded 0 16 Aa 3 q 1 a 2 zzzzzz 4 1 q 1 a 2 Aa 3 zzzzzz 4
        lean 0 32 Aa 3 a 2 q 1 zzzzzz 4 1 a 2 Aa 3 q 1 zzzzzz 4",
    );
    run_rows(
        &rt,
        rt.alloc(),
        FOUR_AND_MORE,
        "recorded 0 8 Aa 3 a 2 q 1 zzzzzz 4
        lean 0 0 Aa 3 a 2 q 1 zzzzzz 4",
    );
}

#[test]
fn four_keys_stand_in_the_walk_order_of_a_salt(rt: HostRuntime) {
    // Opened again without a salt, a map has the one that it had.
    run_rows(
        &rt,
        rt.alloc(),
        FOUR,
        "recorded 1 16 q 1 a 2 Aa 3 zzzzzz 4 same q 1 a 2 Aa 3 zzzzzz 4
        lean 1 32 a 2 q 1 Aa 3 zzzzzz 4 same a 2 Aa 3 q 1 zzzzzz 4",
    );
    run_rows(
        &rt,
        rt.alloc(),
        FOUR_AND_MORE,
        "recorded 1 8 a 2 q 1 Aa 3 zzzzzz 4
        lean 1 0 a 2 q 1 Aa 3 zzzzzz 4",
    );
}

#[test]
fn a_glance_shows_the_value_before_and_after_a_move(rt: HostRuntime) {
    run_rows(
        &rt,
        rt.alloc(),
        "open $0 16 1
        glance a = none
        put a 7 = none
        glance a = 7
        numbers 0 $1
        glance a = 7
        glance q = none
        made = $2
        close
        bins = 32
        pairs a 7",
        "recorded 11 12
        lean 3 4",
    );
}

#[test]
fn a_clear_removes_each_entry_by_a_call(rt: HostRuntime) {
    run_rows(
        &rt,
        rt.alloc(),
        "open $0 16 1
        put a 1 = none
        put q 2 = none
        put Aa 3 = none
        clear
        made = 6
        close
        keys = 0
        records = $1
        pairs",
        "recorded 6
        lean 0",
    );
}
