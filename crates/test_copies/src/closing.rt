//! A map that is closed again after each refused close.
ghost use Rattle.std.specs.Prelude.{◌≡◌, All};

use crate::asserts::assert_same;
use crate::counted::{Counted, Counting, Counts, Seven};
use crate::growing::PutsOneMore;
use crate::maps::count_below;
use crate::steps::begin;
use bin_history::{Form, Remap, Value};
use chm::{Fault, Map, NotClosed, Opened};
use count_ledger::Pass;
use hashkeys::HashKey;
use std::alloc::{Allocator, Global};
use std::process::Abort;
use std::sync::Wait;
use test_maps::{Single, close, put_back};
use test_support::Refusing;

/// Closes a map with the request after so many refused, and gets map and passes back.
fn refuse_close<K: HashKey, V: Value, F: Remap<K, V>, A: Allocator + Clone>(
    rt: &impl Abort,
    switch: &Refusing<Global>,
    granted: u64,
    map: Map<K, V, F, A>,
    passes: Vec<Pass<K, V, F>, A>,
) -> Opened<K, V, F, A>
    requires { All (λ p. p.ledger ≡ map.ledger.id) passes.items }
    ensures id { result.0.ledger.id ≡ map.ledger.id }
    ensures own { All (λ p. p.ledger ≡ result.0.ledger.id) result.1.items }
{
    switch.refuse_after(granted);
    match map.close(passes) {
        Ok(_) => {
            assert!(rt; false, "a request is refused");
            unreachable!()
        }
        Err(NotClosed { fault, map, passes }) => {
            assert!(rt; fault == Fault::NoMemory);
            (map.expect(rt, "the map comes back"), passes)
        }
    }
}

/// Closes a map of 40 keys, in vain with each of its two requests refused. Answers how many bins
/// and how many of the keys with their numbers it has in the end, and how many keys in all.
fn close_at_last<
    R: Wait + Abort,
    K: HashKey,
    F: Remap<K, u64>,
    A: Allocator + Clone,
    C: Counting<K, F>,
>(rt: &R, (switch, alloc, counts): (&Refusing<Global>, A, &C), form: Form) -> (usize, u32, u64) {
    let puts = PutsOneMore {
        switch,
        counts,
        number: 39,
        granted: u64::MAX,
    };
    let (_, single) = begin::<R, K, u64, F, A, PutsOneMore<'_, C>>(rt, alloc, form, 16, &puts);
    let Single {
        map,
        pass,
        mut place,
    } = single;
    put_back(&map, pass, &mut place);
    let (map, passes) = refuse_close(rt, switch, 0, map, place);
    let (map, passes) = refuse_close(rt, switch, 1, map, passes);
    switch.refuse_after(2);
    let closed = close(map, passes).expect(rt, "a closed map");
    assert!(rt; !switch.has_refused());
    let found = count_below(&closed, counts, 40);
    (closed.bins().len(), found, closed.mapping_count())
}

#[test]
fn a_map_closes_after_each_refused_close(rt: HostRuntime) {
    let counts = Counts::new();
    for (form, bins) in [(Form::Recorded, 64), (Form::Lean, 256)] {
        let alloc = Refusing::new(rt.alloc());
        let found = close_at_last::<HostRuntime, Counted, Seven, &Refusing<Global>, &Counts>(
            &rt,
            (&alloc, &alloc, &&counts),
            form,
        );
        assert_same(&rt, &found, &(bins, 40, 40));
    }
}
