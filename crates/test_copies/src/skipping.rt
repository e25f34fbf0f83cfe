//! A bin that a move skips, since it is held.
ghost use Rattle.std.specs.Prelude.{◌≡◌};

use crate::asserts::{assert_same, bin_of_32, key, numbered};
use crate::away::Away;
use crate::steps::{Steps, count_after_two};
use crate::waiting::{Event, Paired, WAIT, put_a, put_copy};
use bin_history::{Form, Reply, Value};
use chm::Map;
use count_ledger::Pass;
use hashkeys::Key;
use std::alloc::Global;
use std::process::Abort;
use std::sync::Wait;
use std::sync::atomic::AtomicU64;
use std::sync::atomic::Ordering::SeqCst;
use std::thread::Threads;

/// Puts copies of a value at so many keys that are not in the bin of `a`.
fn put_others<R: Wait + Abort, V: Value>(
    rt: &R,
    map: &Map<Key, V, Away, Global>,
    pass: &mut Pass<Key, V, Away>,
    value: &V,
    wanted: u32,
)
    requires { pass.old.ledger ≡ map.now.ledger.id }
    ensures { pass.new.ledger ≡ map.now.ledger.id }
{
    let held = bin_of_32(&key(rt, b"a")) % 16;
    let mut count = 0u32;
    for number in 0..100u32 {
        if bin_of_32(&numbered(rt, number)) % 16 != held && count < wanted {
            count = count.saturating_add(1);
            put_copy(rt, map, pass, number, value);
        }
    }
    assert!(rt; count == wanted);
}

/// How many bins a walk shows.
fn count_bins<R: Wait + Abort, V: Value>(
    rt: &R,
    map: &Map<Key, V, Away, Global>,
    pass: &mut Pass<Key, V, Away>,
) -> usize
    requires { pass.old.ledger ≡ map.now.ledger.id }
    ensures { pass.new.ledger ≡ map.now.ledger.id }
{
    map.walk(rt, pass).expect(rt, "memory").len()
}

/// Client 0 looks at `a`, and holds its bin while the copy of the value waits. Client 1 makes the
/// table grow meanwhile, which moves all other bins. The next call of client 0 on `a` moves its bin.
#[derive(Drop)]
struct GrowsRoundABin<'e, V> {
    value: &'e V,
    told: &'e AtomicU64,
    other: &'e V,
    others: u32,
    event: &'e Event,
}

/// Puts a copy of a value at `a` and looks at it there, where its next copy waits. Answers whether `a`
/// had no value before and has one then.
fn look_at_a<R: Wait + Abort, V: Value>(
    rt: &R,
    map: &Map<Key, V, Away, Global>,
    pass: &mut Pass<Key, V, Away>,
    steps: &GrowsRoundABin<'_, V>,
) -> [bool; 2]
    requires { pass.old.ledger ≡ map.now.ledger.id }
    ensures { pass.new.ledger ≡ map.now.ledger.id }
{
    let put = put_a(rt, map, pass, steps.value);
    steps.told.store(WAIT, SeqCst);
    let found = matches!(map.look_up(rt, pass, &key(rt, b"a")), Ok(Some(_)));
    steps.told.store(0, SeqCst);
    [put, found]
}

/// Asserts that a bin is missing before a call on `a`, and none after it.
fn call_a<R: Wait + Abort, V: Value>(
    rt: &R,
    map: &Map<Key, V, Away, Global>,
    pass: &mut Pass<Key, V, Away>,
)
    requires { pass.old.ledger ≡ map.now.ledger.id }
    ensures { pass.new.ledger ≡ map.now.ledger.id }
{
    let before = count_bins(rt, map, pass);
    let reply = map.contains_key(rt, pass, key(rt, b"a"));
    assert!(rt; reply == Ok(Reply::Truth(true)));
    assert_same(rt, &[before, count_bins(rt, map, pass)], &[31, 32]);
}

impl<'e, V: Value> Steps<Key, V, Away, Global> for GrowsRoundABin<'e, V> {
    type Told = ();

    fn take<R: Wait + Abort>(
        &self,
        rt: &R,
        map: &Map<Key, V, Away, Global>,
        pass: &mut Pass<Key, V, Away>,
    ) {
        if pass.client() == 0 {
            let looked = look_at_a(rt, map, pass, self);
            assert_same(rt, &looked, &[true; 2]);
            call_a(rt, map, pass);
        } else {
            self.event.wait(1);
            put_others(rt, map, pass, self.other, self.others);
            self.event.done();
        }
    }
}

/// Lets the two clients work on a map of 16 bins, which grows with so many keys. Answers how many keys
/// there are.
fn grow_round_a_held_bin<'e, R: Threads + Wait + Abort + Sync, V: Value + Send + Sync>(
    rt: &R,
    alloc: Global,
    (form, keys): (Form, u32),
    (value, other): (&'e V, &'e V),
    (event, told): (&'e Event, &'e AtomicU64),
) -> u64 {
    let steps = GrowsRoundABin {
        value,
        told,
        other,
        others: keys.saturating_sub(1),
        event,
    };
    count_after_two(rt, alloc, form, 16, &steps)
}

#[test]
fn a_bin_that_a_move_skipped_is_moved_by_the_next_call_on_it(rt: HostRuntime) {
    // A table of 16 bins grows with 12 keys in a recorded map, and with 4 in a lean one.
    for (form, wanted) in [(Form::Recorded, 12), (Form::Lean, 4)] {
        let event = Event::new();
        let told = AtomicU64::new(0);
        let quiet = AtomicU64::new(0);
        let value = Paired::new(&event, &told);
        let other = Paired::new(&event, &quiet);
        let keys = grow_round_a_held_bin::<HostRuntime, Paired>(
            &rt,
            rt.alloc(),
            (form, wanted),
            (&value, &other),
            (&event, &told),
        );
        assert_same(&rt, &(keys, event.given_up()), &(u64::from(wanted), 0));
    }
}
