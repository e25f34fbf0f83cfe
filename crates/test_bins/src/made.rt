//! Bins of either form, whose calls are made in one step.
use crate::asserts::{assert_same, key};
use crate::rows::{LEFT, Makes, Pairs, Sums, listed, make_lines, make_often, pairs, sixteenth};
use bin_history::{Bin, Call, Form, KeyArg, Reply, Walk};
use hashkeys::{Class, Key, Salt};
use std::alloc::Global;
use std::process::Abort;
use test_helpers::Plus;

type KeyBin = Bin<Key, u64, Plus, Global>;

/// A bin, and where it takes its memory.
#[derive(Drop)]
pub(crate) struct Made {
    alloc: Global,
    bin: KeyBin,
}

/// A bin of the form without entries, which has every key.
pub(crate) fn empty(rt: &impl Abort, alloc: Global, form: Form) -> Made {
    let bin = Bin::new(&alloc, form, Salt(0), Class::new(1, 0), Vec::new(alloc));
    Made {
        alloc,
        bin: bin.expect(rt, "memory"),
    }
}

impl Makes for Made {
    fn make<R: Abort>(
        &mut self,
        rt: &R,
        call: Call<Key, u64, Plus>,
        ordinal: u64,
    ) -> (Reply<u64>, i64) {
        let (salt, class) = (self.bin.salt(), self.bin.class());
        let hash = salt.hash_of(call.key());
        assert!(rt; class.covers(hash) && ordinal < 1 << 48);
        let (key, op) = call.into_parts();
        let made = self
            .bin
            .make_on(&self.alloc, hash, KeyArg::Owned(key), op, 7, ordinal);
        let (reply, trace) = made.expect(rt, "memory");
        (reply, trace.delta())
    }
}

impl Made {
    /// A copy of the bin's entries.
    pub(crate) fn copied(&self, rt: &impl Abort) -> Vec<(Key, u64)> {
        self.bin.copy_entries(&self.alloc).expect(rt, "memory")
    }

    /// The entries, as a walk goes over them. A copy has the same.
    fn entries(&self, rt: &impl Abort) -> Pairs {
        let walked = pairs(&Sums, self.bin.walk());
        assert_same(rt, &pairs_in(&self.copied(rt)), &walked);
        walked
    }

    /// The value that the bin has at the key of one byte.
    fn value_at(&self, rt: &impl Abort, byte: u8) -> Option<u64> {
        let own = key(rt, &[byte]);
        self.bin.get(self.bin.salt().hash_of(&own), &own).copied()
    }

    /// How many records the bin stores, and how many entries its base has, where it is recorded.
    fn stored(&self) -> Option<(usize, usize)> {
        match self.bin.recorded() {
            Some(own) => Some((own.records().len(), own.base().len())),
            None => None,
        }
    }
}

/// The pairs of a list.
fn pairs_in(list: &[(Key, u64)]) -> Pairs {
    let walk: Walk<'_, Key, u64, Global> = Walk::of_list(list);
    pairs(&Sums, walk)
}

/// The entries of a bin of three, poured behind a pair of `z` and 1.
fn poured(rt: &impl Abort, made: Made) -> Pairs {
    let Made { alloc, bin } = made;
    let bin = Bin::of_kind(bin.into_kind());
    let mut list = Vec::with_capacity(alloc, 4).expect(rt, "memory");
    list.push_reserved((key(rt, b"z"), 1));
    assert!(rt; bin.copy_entries(&alloc).expect(rt, "memory").len() == 3);
    pairs_in(&bin.pour(list))
}

/// Asserts what a bin of the form answers after the calls of all lines, and what it stores then.
fn assert_each_call(rt: &impl Abort, alloc: Global, form: Form, stored: Option<(usize, usize)>) {
    let mut made = empty(rt, alloc, form);
    make_lines(rt, &mut made);
    assert_same(rt, &made.entries(rt), &listed(&LEFT));
    assert_same(rt, &(made.bin.form(), made.stored()), &(form, stored));
    let values = [made.value_at(rt, b'b'), made.value_at(rt, b'B')];
    let first = made.bin.first().expect(rt, "an entry").1;
    assert_same(rt, &(values, first), &([Some(7), None], 6));
    let [a, b, c] = LEFT;
    assert_same(rt, &poured(rt, made), &listed(&[(b'z', 1), a, b, c]));
}

#[test]
fn each_call_in_one_step_of_a_lean_bin(rt: HostRuntime) {
    assert_each_call(&rt, rt.alloc(), Form::Lean, None);
}

#[test]
fn each_call_in_one_step_of_a_recorded_bin(rt: HostRuntime) {
    assert_each_call(&rt, rt.alloc(), Form::Recorded, Some((36, 0)));
}

/// The byte of a key, a call on it, and how often it is made.
const SALTED: [(u8, &str, u32); 2] = [(b'a', "put 1", 1), (b'q', "put 2", 1)];

/// A bin of class (16, 1) under the salt 16, by which the hash of `a` is 113 and that of `q` is 97.
fn salted(rt: &impl Abort, alloc: Global, form: Form) -> Made {
    let bin = Bin::new(&alloc, form, Salt(16), sixteenth(), Vec::new(alloc));
    let mut made = Made {
        alloc,
        bin: bin.expect(rt, "memory"),
    };
    make_often(rt, &mut made, &SALTED);
    made
}

/// The halves of a bin.
fn halves(rt: &impl Abort, made: Made) -> (Made, Made) {
    let Made { alloc, bin } = made;
    assert!(rt; bin.class().n() < 65536);
    let Ok((low, high)) = bin.split(&alloc) else {
        assert!(rt; false, "memory");
        unreachable!()
    };
    (Made { alloc, bin: low }, Made { alloc, bin: high })
}

/// Asserts that the low half of a salted bin of the form has `q`, and the high half `a`.
fn assert_split(rt: &impl Abort, alloc: Global, form: Form) {
    let (low, high) = halves(rt, salted(rt, alloc, form));
    assert_same(rt, &[low.bin.form(), high.bin.form()], &[form; 2]);
    let found = [low.entries(rt), high.entries(rt)];
    assert_same(rt, &found, &[listed(&[(b'q', 2)]), listed(&[(b'a', 1)])]);
}

#[test]
fn a_salted_bin_is_split_by_salted_hashes(rt: HostRuntime) {
    assert_split(&rt, rt.alloc(), Form::Lean);
    assert_split(&rt, rt.alloc(), Form::Recorded);
}

/// The byte of a key, a call on it, and how often it is made.
const OFTEN: [(u8, &str, u32); 3] = [
    (b'b', "put 5", 1),
    (b'a', "put 0", 1),
    (b'a', "merge 1 +0", 10_000),
];

#[test]
fn a_lean_bin_stores_its_entries_alone(rt: HostRuntime) {
    let mut made = empty(&rt, rt.alloc(), Form::Lean);
    make_often(&rt, &mut made, &OFTEN);
    assert_same(
        &rt,
        &made.entries(&rt),
        &listed(&[(b'b', 5), (b'a', 10_000)]),
    );
}
