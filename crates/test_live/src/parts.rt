//! Walks over parts of tables that are wider than the map's, as wide, and narrower.
ghost use Rattle.std.specs.Prelude.{◌≡◌, ◌≤◌, ◌^◌};
ghost use Rattle.hashkeys.specs.Classes.{IsTableSize};

use crate::samples::assert_same;
use bin_history::Form;
use chm::{Map, PartWalk, Pass, Taker};
use facingberyl::Add;
use part_walks::share_of;
use std::alloc::Global;
use std::sync::Wait;
use test_maps::{BOTH, Single, close_single, open_single};

/// A map of these tests.
type Numbers = Map<u64, u64, Add, Global>;

/// The right of a client to call it.
type NumberPass = Pass<u64, u64, Add>;

/// Which of the keys 0 to 63 were shown, a bit each, and which more than once.
#[derive(Drop)]
struct Shown {
    once: u64,
    twice: u64,
}

/// Collects which keys are shown.
struct Collecting;

impl Taker<u64, u64> for Collecting {
    type Part = Shown;

    ghost reached = { λ _ _ _. Unit {0} };

    fn add(&self, part: Shown, key: &u64, _value: &u64) -> Shown {
        let bit = 1u64 << (*key % 64);
        Shown {
            once: part.once | bit,
            twice: part.twice | (part.once & bit),
        }
    }
}

/// What a share of the map's buckets shows besides.
fn walk_over<R: Wait>(
    rt: &R,
    map: &Numbers,
    pass: &mut NumberPass,
    share: PartWalk,
    shown: Shown,
) -> Shown
    requires { pass.old.ledger ≡ map.now.ledger.id }
    ensures { pass.new.ledger ≡ map.now.ledger.id }
{
    let mut walk = share;
    let mut part = shown;
    for _ in rt.forever() {
        if walk.is_at_end() {
            return part;
        }
        part = map.show_part(rt, pass, &mut walk, &Collecting, part);
    }
    unreachable!()
}

/// Whether the shares of a table of `n` buckets show each of the keys 1 to 32, and none twice.
fn is_whole<R: Wait>(rt: &R, map: &Numbers, pass: &mut NumberPass, n: u32, shares: usize) -> bool
    requires pass { pass.old.ledger ≡ map.now.ledger.id }
    requires size { IsTableSize n }
    requires shares { shares ≤ 16 }
    ensures { pass.new.ledger ≡ map.now.ledger.id }
{
    let mut shown = Shown { once: 0, twice: 0 };
    for number in 0..shares {
        let share = share_of(n, shares, number);
        shown = walk_over(rt, map, pass, share, shown);
    }
    shown.once == 8_589_934_590 && shown.twice == 0
}

/// Returns by how many of 1 to 8 shares that is so, of a table of `n` buckets, 2 to this exponent.
fn count_whole<R: Wait>(rt: &R, map: &Numbers, pass: &mut NumberPass, n: u32, exponent: u32) -> u64
    requires pass { pass.old.ledger ≡ map.now.ledger.id }
    requires size { (exponent ≤ 10) × (n ≡ 2 ^ exponent) }
    ensures { pass.new.ledger ≡ map.now.ledger.id }
{
    let mut whole = 0u64;
    for shares in 1..=8usize {
        whole = whole.wrapping_add(u64::from(is_whole(rt, map, pass, n, shares)));
    }
    whole
}

/// The same, of tables of 1, 2, 16, 64 and 1,024 buckets.
fn count_all<R: Wait>(rt: &R, map: &Numbers, pass: &mut NumberPass) -> [u64; 5]
    requires pass { pass.old.ledger ≡ map.now.ledger.id }
    ensures { pass.new.ledger ≡ map.now.ledger.id }
{
    [
        count_whole(rt, map, pass, 1, 0),
        count_whole(rt, map, pass, 2, 1),
        count_whole(rt, map, pass, 16, 4),
        count_whole(rt, map, pass, 64, 6),
        count_whole(rt, map, pass, 1_024, 10),
    ]
}

/// How many puts were made, and those counts after them.
type Filled = (u64, [u64; 5]);

/// Puts the keys 1 to 32, and counts after that.
fn fill_and_count<R: Wait>(rt: &R, map: &Numbers, pass: &mut NumberPass) -> Filled
    requires pass { pass.old.ledger ≡ map.now.ledger.id }
    ensures { pass.new.ledger ≡ map.now.ledger.id }
{
    let mut made = 0u64;
    for key in 1..=32u64 {
        made = made.wrapping_add(u64::from(map.put(rt, pass, key, key).is_ok()));
    }
    (made, count_all(rt, map, pass))
}

/// Returns what is counted of a map of this form that began with 16 buckets, and whether the map is closed
/// after that.
fn shown_in<R: Wait>(rt: &R, alloc: Global, form: Form) -> Option<(Filled, bool)> {
    let Some(
        Single {
            map,
            mut pass,
            place,
        },
    ) = open_single::<u64, u64, Add, Global>(alloc, form, 16)
    else {
        return None;
    };
    let shown = fill_and_count(rt, &map, &mut pass);
    Some((shown, close_single(map, pass, place).is_ok()))
}

/// 32 keys make a table of 16 buckets of either form grow.
#[test]
fn the_shares_of_any_table_show_each_key_once(rt: HostRuntime) {
    for form in &BOTH {
        let found = shown_in(&rt, rt.alloc(), *form);
        assert_same(&rt, &found, &Some(((32, [8; 5]), true)));
    }
}
