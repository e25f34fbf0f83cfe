//! How much memory an opening, calls, folds and moves ask for, and how often.
ghost use Rattle.std.specs.Prelude.{◌≡◌};

use crate::asserts::assert_same;
use crate::counted::{Counted, Counting, Counts, Seven};
use crate::growing::put_one_more;
use crate::maps::{put_below, put_new};
use crate::steps::{Steps, told};
use bin_history::{Form, Remap, Reply, Value};
use chm::{Map, Opened};
use count_ledger::{Pass, retire_all};
use hashkeys::HashKey;
use std::alloc::{Allocator, Global};
use std::process::Abort;
use std::sync::Wait;
use test_maps::open;
use test_support::Refusing;

/// How many requests the opening of a map makes, and how many bytes it keeps.
fn opening<K: HashKey, V: Value, F: Remap<K, V>, A: Allocator + Clone>(
    rt: &impl Abort,
    (switch, alloc): (&Refusing<Global>, A),
    form: Form,
    capacity: usize,
    clients: u32,
) -> (u64, u64) {
    let before = switch.requests();
    let opened: Opened<K, V, F, A> = open(alloc, form, capacity, clients).expect(rt, "a map");
    let found = (switch.requests().wrapping_sub(before), switch.bytes_out());
    let (map, passes) = opened;
    retire_all(passes);
    drop(map);
    found
}

/// Opens maps of so many bins in both forms, and compares how many requests each makes.
fn assert_openings<K: HashKey, V: Value, F: Remap<K, V>, A: Allocator + Clone>(
    rt: &impl Abort,
    (switch, alloc): (&Refusing<Global>, &A),
    bins: u64,
    clients: u32,
) {
    for (form, wanted) in [(Form::Lean, 11), (Form::Recorded, bins.wrapping_add(8))] {
        let own = alloc.clone().expect(rt, "an allocator");
        let (found, _) = opening::<K, V, F, A>(rt, (switch, own), form, bins as usize, clients);
        assert_same(rt, &(form, bins, found), &(form, bins, wanted));
    }
}

#[test]
fn an_opening_asks_once_for_each_of_its_lists(rt: HostRuntime) {
    // The bases, the moves, the words of the books and the slots beside them, of which there are
    // none, the passes, the roles, the places and the tables. A lean map asks for the words of its
    // places, too, and for both once more where they are put into their table; and a recorded one
    // once for each bin.
    let alloc = Refusing::new(rt.alloc());
    for clients in [1, 32] {
        for bins in [1u64, 16, 4096] {
            assert_openings::<Counted, u64, Seven, &Refusing<Global>>(
                &rt,
                (&alloc, &&alloc),
                bins,
                clients,
            );
        }
    }
}

#[test]
fn a_lean_map_has_room_for_its_own_bins_alone(rt: HostRuntime) {
    // A bin has 48 bytes: 8 say what it has and its first entry's hash, 24 are that entry, and 16 lead
    // to the next. Up to 256 bins have two cache lines each for their words, up to 1,024 one, and else
    // 8 bytes; all else takes 8,192.
    let alloc = Refusing::new(rt.alloc());
    for (bins, each) in [
        (1u64, 176u64),
        (16, 176),
        (64, 176),
        (256, 176),
        (512, 112),
        (1024, 112),
        (2048, 56),
        (4096, 56),
    ] {
        let (_, bytes) = opening::<Counted, u64, Seven, &Refusing<Global>>(
            &rt,
            (&alloc, &alloc),
            Form::Lean,
            bins as usize,
            1,
        );
        assert_same(
            &rt,
            &(bins, bytes),
            &(bins, bins.wrapping_mul(each).wrapping_add(8192)),
        );
    }
}

#[test]
fn a_lean_map_of_16_keys_has_room_for_128_bins(rt: HostRuntime) {
    let counts = Counts::new();
    let alloc = Refusing::new(rt.alloc());
    let (put, _) = put_one_more::<HostRuntime, Counted, Seven, &Refusing<Global>, &Counts>(
        &rt,
        (&alloc, &&alloc, &&counts),
        (Form::Lean, 15),
    );
    // 8,192 bytes, 176 for each of 128 bins, and what three moves take: each key is its bin's first.
    let bytes = put.bytes;
    assert!(rt; 8192 + 128 * 176 < bytes && bytes < 35_328, "{bytes} bytes");
}

#[test]
fn a_move_asks_for_its_table_its_strides_and_copies(rt: HostRuntime) {
    // The put asks in a recorded map for room for the entry and for the record, and in a lean one for
    // none, since the key is its bin's first; the move for the table, and three times for the strides,
    // or in a lean map four times. Each half of a recorded
    // bin asks for the bin, and where it has the entry and the record of a key for room for both: no
    // two of the twelve keys share a bin. The lean bins' other halves come to one part of the table,
    // which asks for its places and for their words, and once more for both.
    let counts = Counts::new();
    let alloc = Refusing::new(rt.alloc());
    for (form, keys, wanted) in [
        (Form::Lean, 3, 1 + 4 + 4),
        (Form::Recorded, 11, 2 + 1 + 3 + 32 + 12 * 2),
    ] {
        let (put, _) = put_one_more::<HostRuntime, Counted, Seven, &Refusing<Global>, &Counts>(
            &rt,
            (&alloc, &&alloc, &&counts),
            (form, keys),
        );
        assert_same(&rt, &put.requests, &wanted);
    }
}

/// The put of the key 1, and so many gets of it.
#[derive(Drop)]
struct GetsOften<'s, C> {
    switch: &'s Refusing<Global>,
    counts: &'s C,
    gets: u32,
}

/// Gets the key 1 so often.
fn get_often<
    R: Wait + Abort,
    K: HashKey,
    F: Remap<K, u64>,
    A: Allocator + Clone,
    C: Counting<K, F>,
>(rt: &R, map: &Map<K, u64, F, A>, pass: &mut Pass<K, u64, F>, counts: &C, times: u32)
    requires { pass.old.ledger ≡ map.now.ledger.id }
    ensures { pass.new.ledger ≡ map.now.ledger.id }
{
    for _time in 0..times {
        let reply = map.get(rt, pass, counts.key(1));
        assert!(rt; reply == Ok(Reply::Value(Some(1))));
    }
}

impl<'s, K: HashKey, F: Remap<K, u64>, A: Allocator + Clone, C: Counting<K, F>> Steps<K, u64, F, A>
    for GetsOften<'s, C> {
    /// How many requests were made.
    type Told = u64;

    fn take<R: Wait + Abort>(
        &self,
        rt: &R,
        map: &Map<K, u64, F, A>,
        pass: &mut Pass<K, u64, F>,
    ) -> u64 {
        let before = self.switch.requests();
        put_new(rt, map, pass, self.counts, 1);
        get_often(rt, map, pass, self.counts, self.gets);
        self.switch.requests().wrapping_sub(before)
    }
}

/// Makes the put and the gets on maps of both forms, and compares how many requests they make: in a
/// recorded map so many, and in a lean one none.
fn assert_requests<
    R: Wait + Abort,
    K: HashKey,
    F: Remap<K, u64>,
    A: Allocator + Clone,
    C: Counting<K, F>,
>(rt: &R, (switch, alloc, counts): (&Refusing<Global>, &A, &C), calls: u32, wanted: u64) {
    for (form, requests) in [(Form::Recorded, wanted), (Form::Lean, 0)] {
        let steps = GetsOften {
            switch,
            counts,
            gets: calls.wrapping_sub(1),
        };
        let own = alloc.clone().expect(rt, "an allocator");
        let found = told::<R, K, u64, F, A, GetsOften<'_, C>>(rt, own, form, 16, &steps);
        assert_same(rt, &(form, calls, found), &(form, calls, requests));
    }
}

#[test]
fn calls_on_one_key_ask_for_records_and_for_one_fold(rt: HostRuntime) {
    // In a recorded map room for the entry; for four records, and for twice as many whenever they are
    // full, up to 1,024; and in the base for the key, in the first fold. In a lean one the entry lies
    // in its place.
    let counts = Counts::new();
    let alloc = Refusing::new(rt.alloc());
    for (calls, requests) in [
        (1u32, 2u64),
        (4, 2),
        (5, 3),
        (8, 3),
        (9, 4),
        (512, 9),
        (513, 10),
        (1024, 10),
        (1025, 11),
        (5000, 11),
    ] {
        assert_requests::<HostRuntime, Counted, Seven, &Refusing<Global>, &Counts>(
            &rt,
            (&alloc, &&alloc, &&counts),
            calls,
            requests,
        );
    }
}

/// The put of a key into a map of the keys below 5, another one on it, and the removal of a key.
#[derive(Drop)]
struct PutsAndRemoves<'s, C> {
    switch: &'s Refusing<Global>,
    counts: &'s C,
    number: u32,
    removed: u32,
}

impl<'s, K: HashKey, F: Remap<K, u64>, A: Allocator + Clone, C: Counting<K, F>> Steps<K, u64, F, A>
    for PutsAndRemoves<'s, C> {
    /// How many bytes are out before the put of the key, with it, after another put on it, and once the
    /// other key is removed.
    type Told = [u64; 4];

    fn take<R: Wait + Abort>(
        &self,
        rt: &R,
        map: &Map<K, u64, F, A>,
        pass: &mut Pass<K, u64, F>,
    ) -> [u64; 4] {
        let value = u64::from(self.number);
        put_below(rt, map, pass, self.counts, 5);
        let before = self.switch.bytes_out();
        put_new(rt, map, pass, self.counts, self.number);
        let with = self.switch.bytes_out();
        let again = map.put(rt, pass, self.counts.key(self.number), value);
        assert!(rt; again == Ok(Reply::Value(Some(value))));
        let after = self.switch.bytes_out();
        let removed = map.remove(rt, pass, self.counts.key(self.removed));
        assert!(rt; removed == Ok(Reply::Value(Some(u64::from(self.removed)))));
        [before, with, after, self.switch.bytes_out()]
    }
}

/// Puts and removes keys of a lean map, and compares how many bytes the put one takes.
fn assert_bytes<
    R: Wait + Abort,
    K: HashKey,
    F: Remap<K, u64>,
    A: Allocator + Clone,
    C: Counting<K, F>,
>(
    rt: &R,
    (switch, alloc, counts): (&Refusing<Global>, A, &C),
    (number, removed): (u32, u32),
    size: u64,
) {
    let steps = PutsAndRemoves {
        switch,
        counts,
        number,
        removed,
    };
    let [before, with, again, without] = told::<R, K, u64, F, A, PutsAndRemoves<'_, C>>(
        rt,
        alloc,
        Form::Lean,
        16,
        &steps,
    );
    let wanted = (before.wrapping_add(size), with, before);
    assert_same(rt, &(with, again, without), &wanted);
}

#[test]
fn the_first_key_of_a_bin_takes_no_room_and_the_next_a_box(rt: HostRuntime) {
    // Five keys are in 32 bins, where 21 shares its bin with none, and 36 with 4, behind which it
    // lies in a box of 48 bytes, as large as a bin. Of two keys either can be removed: the box is freed.
    let counts = Counts::new();
    let alloc = Refusing::new(rt.alloc());
    for (keys, size) in [((21, 21), 0), ((36, 36), 48), ((36, 4), 48)] {
        assert_bytes::<HostRuntime, Counted, Seven, &Refusing<Global>, &Counts>(
            &rt,
            (&alloc, &alloc, &&counts),
            keys,
            size,
        );
    }
}
