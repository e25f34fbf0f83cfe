//! Updates by functions, in a lean bin whose keys share one hash.
use crate::asserts::assert_same;
use crate::twins::Twin;
use bin_history::{LeanEntries, Posting, change_on, prepare_as, update_on};
use hashkeys::{ByteString, Class, Salt};
use std::alloc::Global;
use std::marker::Model;
use std::process::Abort;
use test_helpers::Plus;

/// What a function does at a number.
#[derive(Clone, Copy)]
enum Change {
    /// It leaves this, or nothing, and finds the value before.
    Leave(Option<u64>),
    /// It adds 1 to the value, or leaves 100 more than the number, and finds what it leaves.
    Count,
    /// It takes 1 from the value, and the entry out where none is left, and finds what it leaves. Of no
    /// value it fails, with the number.
    Spend,
}

/// What a change finds.
type Found = Result<Option<u64>, u64>;

impl Change {
    /// What the change leaves of the number's value, and what it finds.
    fn of(self, number: u64, value: Option<u64>) -> (Option<u64>, Found) {
        match self {
            Change::Leave(left) => (left, Ok(value)),
            Change::Count => {
                let now = value.unwrap_or(number.wrapping_add(99)).wrapping_add(1);
                (Some(now), Ok(Some(now)))
            }
            Change::Spend => match value {
                None => (None, Err(number)),
                Some(left) if left <= 1 => (None, Ok(Some(0))),
                Some(left) => (Some(left - 1), Ok(Some(left - 1))),
            },
        }
    }
}

/// A lean bin that every hash is of.
#[derive(Drop)]
struct Twins {
    alloc: Global,
    entries: LeanEntries<Twin, u64, Global>,
    salt: Salt,
    class: Class,
}

impl Model for Twins {
    ghost use Rattle.std.specs.Prelude.{◌≡◌, ℕ};
    ghost use Rattle.bin_history.specs.Leans.{LeanView};

    ghost Value = { LeanView ℕ ℕ };

    ghost view = { λ t. t.entries };

    ghost invariant = { λ t. (t.entries.salt ≡ t.salt) × (t.entries.class ≡ t.class) };
}

impl Twins {
    fn new(alloc: Global) -> Twins {
        let (salt, class) = (Salt(0), Class::new(1, 0));
        Twins {
            alloc,
            entries: LeanEntries::new(salt, class),
            salt,
            class,
        }
    }

    /// Makes a change at the number. Returns what the change found, and how it changed the number of keys.
    fn update(&mut self, rt: &impl Abort, number: u64, change: Change) -> (Found, i64) {
        let key = Twin(number);
        let hash = self.salt.hash_of(&key);
        assert!(rt; self.class.covers(hash));
        let prepared = prepare_as(&self.entries, &self.alloc, hash, &key).expect(rt, "memory");
        let changing = move |value: Option<u64>| -> (Option<u64>, Found) {
            change.of(number, value)
        };
        let made = update_on(&mut self.entries, hash, prepared, changing, 0, 0);
        let (found, posting): (Found, Posting<Twin, u64, Plus>) = made;
        (found, posting.delta())
    }

    /// Sets the number's value, where it has one. Returns the one before.
    fn set(&mut self, rt: &impl Abort, number: u64, value: u64) -> Option<u64> {
        let key = Twin(number);
        let hash = self.salt.hash_of(&key);
        assert!(rt; self.class.covers(hash));
        let setting = move |place: &mut u64| -> u64 {
            let before = *place;
            *place = value;
            before
        };
        let made = change_on(&mut self.entries, hash, &key, setting, 0, 0);
        let (before, _posting): (Option<u64>, Posting<Twin, u64, Plus>) = made;
        before
    }

    /// Asserts that the entries are these.
    fn assert_walk(&self, rt: &impl Abort, wanted: &[(u64, u64)]) {
        let mut rest = wanted.iter();
        for (key, value) in self.entries.walk() {
            let first = rest.next().expect(rt, "no entry more");
            assert_same(rt, &(key.0, *value), first);
        }
        assert_same(rt, &rest.next().is_none(), &true);
    }
}

/// A lean bin of byte strings, that every hash is of.
#[derive(Drop)]
struct Words {
    alloc: Global,
    entries: LeanEntries<ByteString<Global>, u64, Global>,
    salt: Salt,
    class: Class,
}

impl Model for Words {
    ghost use Rattle.std.specs.Prelude.{◌≡◌, ℕ, List};
    ghost use Rattle.bin_history.specs.Leans.{LeanView};

    ghost Value = { LeanView (List ℕ) ℕ };

    ghost view = { λ w. w.entries };

    ghost invariant = { λ w. (w.entries.salt ≡ w.salt) × (w.entries.class ≡ w.class) };
}

impl Words {
    fn new(alloc: Global) -> Words {
        let (salt, class) = (Salt(5), Class::new(1, 0));
        Words {
            alloc,
            entries: LeanEntries::new(salt, class),
            salt,
            class,
        }
    }

    /// Leaves this at the bytes, or takes them out. Returns the value before.
    fn leave(&mut self, rt: &impl Abort, bytes: &[u8], left: Option<u64>) -> Option<u64> {
        let hash = self.salt.hash_of_as::<ByteString<Global>, &[u8]>(bytes);
        assert!(rt; self.class.covers(hash));
        let prepared = prepare_as(&self.entries, &self.alloc, hash, bytes).expect(rt, "memory");
        let leaving = move |value: Option<u64>| -> (Option<u64>, Option<u64>) { (left, value) };
        let made = update_on(&mut self.entries, hash, prepared, leaving, 0, 0);
        let (before, _posting): (Option<u64>, Posting<ByteString<Global>, u64, Plus>) = made;
        before
    }

    /// Asserts that there is one entry, of these bytes and this value.
    fn assert_one(&self, rt: &impl Abort, bytes: &[u8], value: u64) {
        let mut wanted = Some((bytes, value));
        for (key, value) in self.entries.walk() {
            assert_same(rt, &Some((key.bytes(), *value)), &wanted);
            wanted = None;
        }
        assert!(rt; wanted.is_none());
    }
}

/// A number, what a function does there, what it finds, and how many keys more there are. It leaves a number,
/// or `none`, and finds the value before it; or it is `count` or `spend`, of which the second `fails` where
/// there is no value.
type Row = (u64, &'static str, &'static str, i64);

/// What values a function is given where they lie.
const LEFT: [Row; 13] = [
    (7, "none", "none", 0),
    (1, "10", "none", 1),
    (2, "20", "none", 1),
    (3, "30", "none", 1),
    // a value that stays keeps its place, the first's, another's and the last's
    (1, "11", "10", 0),
    (2, "21", "20", 0),
    (3, "31", "30", 0),
    (4, "none", "none", 0),
    (4, "40", "none", 1),
    // one that goes leaves the others in order
    (2, "none", "21", -1),
    (1, "none", "11", -1),
    (4, "none", "40", -1),
    (2, "22", "none", 1),
];

/// Counts that begin at none.
const COUNTED: [Row; 5] = [
    (1, "count", "101", 1),
    (1, "count", "102", 0),
    (2, "count", "102", 1),
    (2, "count", "103", 0),
    (1, "count", "103", 0),
];

/// What is spent until none is left.
const SPENT: [Row; 6] = [
    (1, "2", "none", 1),
    (2, "9", "none", 1),
    (1, "spend", "1", 0),
    (1, "spend", "0", -1),
    (1, "spend", "fails", 0),
    (1, "spend", "fails", 0),
];

/// Values far back among those of 100 numbers.
const FAR: [Row; 4] = [
    (99, "7", "99", 0),
    (50, "8", "50", 0),
    (98, "none", "98", -1),
    (100, "none", "none", 0),
];

/// The change of a row.
fn change_of(text: &str) -> Change {
    match text {
        "count" => Change::Count,
        "spend" => Change::Spend,
        left => Change::Leave(left.parse().ok()),
    }
}

/// What a change at the number finds.
fn found_of(number: u64, text: &str) -> Found {
    match text {
        "fails" => Err(number),
        found => Ok(found.parse().ok()),
    }
}

/// Makes the changes of the rows, in order.
fn change_all(rt: &impl Abort, twins: &mut Twins, rows: &[Row]) {
    for (number, change, found, delta) in rows {
        let made = twins.update(rt, *number, change_of(change));
        let wanted = (*number, (found_of(*number, found), *delta));
        assert_same(rt, &(*number, made), &wanted);
    }
}

/// The entries that the changes of the rows leave.
fn assert_changes(rt: &impl Abort, alloc: Global, rows: &[Row], left: &[(u64, u64)]) {
    let mut twins = Twins::new(alloc);
    change_all(rt, &mut twins, rows);
    twins.assert_walk(rt, left);
}

#[test]
fn a_function_is_given_values_where_they_lie(rt: HostRuntime) {
    assert_changes(&rt, rt.alloc(), &LEFT, &[(3, 31), (2, 22)]);
}

#[test]
fn a_function_is_given_a_value_or_none(rt: HostRuntime) {
    let mut twins = Twins::new(rt.alloc());
    change_all(&rt, &mut twins, &COUNTED);
    let found = [twins.set(&rt, 2, 5), twins.set(&rt, 3, 5)];
    assert_same(&rt, &found, &[Some(103), None]);
    twins.assert_walk(&rt, &[(1, 103), (2, 5)]);
}

#[test]
fn a_function_leaves_none_where_there_is_none(rt: HostRuntime) {
    assert_changes(&rt, rt.alloc(), &SPENT, &[(2, 9)]);
}

#[test]
fn values_far_back_in_a_chain_are_updated(rt: HostRuntime) {
    let mut twins = Twins::new(rt.alloc());
    for number in 0..100u64 {
        let made = twins.update(&rt, number, Change::Leave(Some(number)));
        assert_same(&rt, &made, &(Ok(None), 1));
    }
    change_all(&rt, &mut twins, &FAR);
    assert_same(&rt, &twins.set(&rt, 97, 6), &Some(97));
    for number in 0..97u64 {
        let made = twins.update(&rt, number, Change::Leave(None));
        let before = if number == 50 { 8 } else { number };
        assert_same(&rt, &made, &(Ok(Some(before)), -1));
    }
    twins.assert_walk(&rt, &[(97, 6), (99, 7)]);
}

/// What a function leaves at a text, and the value before it.
const TEXTS: [(&[u8], Option<u64>, Option<u64>); 5] = [
    (b"one", None, None),
    (b"one", Some(1), None),
    (b"two", Some(2), None),
    (b"two", Some(3), Some(2)),
    (b"one", None, Some(1)),
];

#[test]
fn a_key_is_made_of_a_slice(rt: HostRuntime) {
    let mut words = Words::new(rt.alloc());
    for (bytes, left, before) in &TEXTS {
        let found = words.leave(&rt, bytes, *left);
        assert_same(&rt, &(*bytes, found), &(*bytes, *before));
    }
    words.assert_one(&rt, b"two", 3);
}
