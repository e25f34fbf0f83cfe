//! A call that helps with a move.
ghost use Rattle.std.specs.Prelude.{◌≡◌};

use crate::asserts::{assert_same, bin_of_32, numbered};
use crate::away::Away;
use crate::steps::{Steps, count_after_two};
use crate::waiting::{Event, Paired, WAIT, put_copy};
use bin_history::{Form, Reply, Value};
use chm::Map;
use count_ledger::Pass;
use hashkeys::Key;
use std::alloc::Global;
use std::process::Abort;
use std::sync::Wait;
use std::sync::atomic::AtomicU64;
use std::sync::atomic::Ordering::SeqCst;
use std::thread::Threads;

/// A key of the first of 32 bins.
fn key_of_bin_0(rt: &impl Abort) -> Key {
    for number in 0..1000u32 {
        let key = numbered(rt, number);
        if bin_of_32(&key) == 0 {
            return key;
        }
    }
    numbered(rt, 0)
}

/// The numbers of 24 keys, none of them of the first bin of 32. Some are of the first 16 bins,
/// which one stride moves, and some of the others.
fn numbers_of_24(rt: &impl Abort) -> [u32; 24] {
    let mut numbers = [0u32; 24];
    let mut count = 0usize;
    let mut low = 0u32;
    for number in 0..100u32 {
        let bin = bin_of_32(&numbered(rt, number));
        if bin > 0 && count < 24 {
            numbers[count] = number;
            count += 1;
            if bin < 16 {
                low = low.saturating_add(1);
            }
        }
    }
    assert!(rt; count == 24);
    assert!(rt; low > 0 && low < 24);
    numbers
}

/// Puts copies of a value at the first 23 of these keys, which are told to wait where they are
/// copied from then on, and the last value at the 24th: a table of 32 bins grows then.
fn put_24<R: Wait + Abort, V: Value>(
    rt: &R,
    map: &Map<Key, V, Away, Global>,
    pass: &mut Pass<Key, V, Away>,
    steps: &MovesAndHelps<'_, V>,
)
    requires pass { pass.old.ledger ≡ map.now.ledger.id }
    ensures { pass.new.ledger ≡ map.now.ledger.id }
{
    let mut count = 0u32;
    for number in numbers_of_24(rt) {
        count = count.saturating_add(1);
        let source = if count < 24 {
            steps.value
        } else {
            steps.told.store(WAIT, SeqCst);
            steps.last
        };
        put_copy(rt, map, pass, number, source);
    }
}

/// Client 0 puts keys until the table of a recorded map of 32 bins grows. The first copy that the move
/// makes of a value waits for a second one. Client 1 then makes a call on the first bin, which was moved
/// before.
#[derive(Drop)]
struct MovesAndHelps<'e, V> {
    value: &'e V,
    last: &'e V,
    event: &'e Event,
    told: &'e AtomicU64,
}

impl<'e, V: Value> Steps<Key, V, Away, Global> for MovesAndHelps<'e, V> {
    type Told = ();

    fn take<R: Wait + Abort>(
        &self,
        rt: &R,
        map: &Map<Key, V, Away, Global>,
        pass: &mut Pass<Key, V, Away>,
    ) {
        if pass.client() == 0 {
            put_24(rt, map, pass, self);
        } else {
            self.event.wait(1);
            let reply = map.contains_key(rt, pass, key_of_bin_0(rt));
            assert!(rt; reply == Ok(Reply::Truth(false)));
        }
    }
}

/// Lets the two clients work on a recorded map, and answers how many keys there are.
fn call_while_another_moves<'e, R: Threads + Wait + Abort + Sync, V: Value + Send + Sync>(
    rt: &R,
    alloc: Global,
    (value, last): (&'e V, &'e V),
    (event, told): (&'e Event, &'e AtomicU64),
) -> u64 {
    let steps = MovesAndHelps {
        value,
        last,
        event,
        told,
    };
    count_after_two(rt, alloc, Form::Recorded, 32, &steps)
}

#[test]
fn a_call_helps_with_a_stride(rt: HostRuntime) {
    // The copy that the first waits for is one of a value in the last 16 bins, and the opener,
    // which waits, has not come to them.
    let event = Event::new();
    let told = AtomicU64::new(0);
    let quiet = AtomicU64::new(0);
    let value = Paired::new(&event, &told);
    let last = Paired::new(&event, &quiet);
    let keys = call_while_another_moves::<HostRuntime, Paired>(
        &rt,
        rt.alloc(),
        (&value, &last),
        (&event, &told),
    );
    assert_same(&rt, &(event.given_up(), keys), &(0, 24));
}
