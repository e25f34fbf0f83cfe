//! How often a map asks its keys and functions.
ghost use Rattle.std.specs.Prelude.{◌≡◌};

use crate::asserts::assert_same;
use crate::counted::{Counted, Counting, Counts, Seven};
use crate::growing::put_one_more;
use crate::kinds::{Given, call_of_kind};
use crate::maps::put_new;
use crate::steps::{Steps, run, told};
use bin_history::{Form, Remap};
use chm::Map;
use count_ledger::Pass;
use hashkeys::HashKey;
use std::alloc::{Allocator, Global};
use std::process::Abort;
use std::sync::Wait;
use test_maps::BOTH;
use test_support::Refusing;

/// Of a kind of call: whether it takes out the entry of its key with the value 1, whether it adds an
/// entry where there is no value, and how often it asks its function where there is one and where there is none.
type Row = (bool, bool, u64, u64);

const ROWS: [Row; 12] = [
    (false, false, 0, 0),
    (false, false, 0, 0),
    (false, true, 0, 0),
    (false, true, 0, 0),
    (true, false, 0, 0),
    (true, false, 0, 0),
    (false, false, 0, 0),
    (false, false, 0, 0),
    (false, true, 0, 1),
    (false, false, 1, 0),
    (false, true, 1, 1),
    (false, true, 1, 0),
];

/// What is counted in a call whose bin has another key of another hash in front. The key is hashed
/// once. A lean bin compares keys of one hash alone: once to find the entry, and once more to take it
/// out; the last entry, which is there, is changed without another comparison. A recorded one compares
/// the key with each up to its own, and copies a key that it adds, for the record.
fn wanted(form: Form, row: Row, present: bool) -> [u64; 4] {
    let (takes, adds, of_present, of_absent) = row;
    let asked = if present { of_present } else { of_absent };
    match (form, present) {
        (Form::Lean, true) => [1, if takes { 2 } else { 1 }, 0, asked],
        (Form::Lean, false) => [1, 0, 0, asked],
        (Form::Recorded, true) => [1, 2, 0, asked],
        (Form::Recorded, false) => [1, 1, if adds { 1 } else { 0 }, asked],
    }
}

/// A call of a kind on the key 1, which has the value 1 or none, in a map of 16 bins in which 17 was put
/// first.
#[derive(Drop)]
struct CountsCall<'s, C> {
    counts: &'s C,
    kind: usize,
    present: bool,
}

impl<'s, K: HashKey, F: Remap<K, u64>, A: Allocator + Clone, C: Counting<K, F>> Steps<K, u64, F, A>
    for CountsCall<'s, C> {
    /// Whether the call was made, and what was counted in it.
    type Told = (bool, [u64; 4]);

    fn take<R: Wait + Abort>(
        &self,
        rt: &R,
        map: &Map<K, u64, F, A>,
        pass: &mut Pass<K, u64, F>,
    ) -> (bool, [u64; 4]) {
        put_new(rt, map, pass, self.counts, 17);
        if self.present {
            put_new(rt, map, pass, self.counts, 1);
        }
        let given = Given {
            old: 1,
            new: 5,
            function: self.counts.seven(),
        };
        let call = call_of_kind(self.kind, self.counts.key(1), given);
        self.counts.take();
        let made = map.call(rt, pass, call).is_ok();
        (made, self.counts.take())
    }
}

/// Makes a call of each kind on maps of the form, where its key is there and where it is not.
fn count_each<R: Wait + Abort, K: HashKey, F: Remap<K, u64>, C: Counting<K, F>>(
    rt: &R,
    alloc: Global,
    counts: &C,
    form: Form,
) {
    for (kind, row) in ROWS.iter().enumerate() {
        for present in [true, false] {
            let steps = CountsCall {
                counts,
                kind,
                present,
            };
            let found = told::<R, K, u64, F, Global, CountsCall<'_, C>>(
                rt, alloc, form, 16, &steps,
            );
            assert_same(
                rt,
                &(kind, found),
                &(kind, (true, wanted(form, *row, present))),
            );
        }
    }
}

#[test]
fn each_call_asks_its_key_and_its_function_so_often(rt: HostRuntime) {
    let counts = Counts::new();
    for form in BOTH {
        count_each::<HostRuntime, Counted, Seven, &Counts>(&rt, rt.alloc(), &&counts, form);
    }
}

/// A look, a glance and a walk over a map of the keys 17 and 1.
#[derive(Drop)]
struct Reads<'s, C> {
    counts: &'s C,
}

impl<'s, K: HashKey, F: Remap<K, u64>, A: Allocator + Clone, C: Counting<K, F>> Steps<K, u64, F, A>
    for Reads<'s, C> {
    /// Whether each found what is there, and what was counted in each.
    type Told = ([bool; 3], [[u64; 4]; 3]);

    fn take<R: Wait + Abort>(
        &self,
        rt: &R,
        map: &Map<K, u64, F, A>,
        pass: &mut Pass<K, u64, F>,
    ) -> ([bool; 3], [[u64; 4]; 3]) {
        put_new(rt, map, pass, self.counts, 17);
        put_new(rt, map, pass, self.counts, 1);
        let key = self.counts.key(1);
        self.counts.take();
        let looked = map.look_up(rt, pass, &key) == Ok(Some(1));
        let of_look = self.counts.take();
        let glanced = map.glance(rt, &key) == Ok(Some(1));
        let of_glance = self.counts.take();
        let walked = map.walk(rt, pass).is_ok();
        let of_walk = self.counts.take();
        ([looked, glanced, walked], [of_look, of_glance, of_walk])
    }
}

/// Reads a map of the form, closes it, and takes the pairs out. Compares what is counted in each.
fn count_readings<R: Wait + Abort, K: HashKey, F: Remap<K, u64>, C: Counting<K, F>>(
    rt: &R,
    alloc: Global,
    counts: &C,
    (form, compared): (Form, u64),
) {
    let (read, closed) = run::<R, K, u64, F, Global, Reads<'_, C>>(
        rt,
        alloc,
        form,
        16,
        &Reads { counts },
    );
    let of_close = counts.take();
    let taken = closed.into_entries().is_ok();
    let of_one = [1, compared, 0, 0];
    let wanted = ([true; 3], [of_one, of_one, [0, 0, 2, 0]]);
    assert_same(
        rt,
        &(read, of_close, taken, counts.take()),
        &(wanted, [0; 4], true, [0; 4]),
    );
}

#[test]
fn readings_and_a_close_ask_no_key_in_vain(rt: HostRuntime) {
    let counts = Counts::new();
    // A recorded bin compares the key with the one in front, too.
    for row in [(Form::Lean, 1), (Form::Recorded, 2)] {
        count_readings::<HostRuntime, Counted, Seven, &Counts>(&rt, rt.alloc(), &&counts, row);
    }
}

#[test]
fn a_move_of_a_lean_map_asks_no_key(rt: HostRuntime) {
    // The put itself asks its key once. The move of a recorded map, where no two keys share a bin,
    // looks for each of 12 entries and 12 records whether it is of the one half and whether it is of
    // the other, and copies it to one.
    let counts = Counts::new();
    let alloc = Refusing::new(rt.alloc());
    for (form, keys, wanted) in [
        (Form::Lean, 3, [1, 0, 0, 0]),
        (Form::Recorded, 11, [1 + 48, 0, 1 + 24, 0]),
    ] {
        let (put, bins) = put_one_more::<HostRuntime, Counted, Seven, &Refusing<Global>, &Counts>(
            &rt,
            (&alloc, &&alloc, &&counts),
            (form, keys),
        );
        assert_same(&rt, &(form, put.counted, bins), &(form, wanted, 32));
    }
}
