//! Ledgers at the program's keys.
ghost use Rattle.std.specs.Prelude.{◌≡◌, ◌<◌, ◌≤◌, [], length, IfOk, IfErr, vec_len, vec_capacity};
ghost use Rattle.std.specs.Prelude.{All};
ghost use Rattle.hashkeys.specs.Classes.{IsTableSize};
ghost use Rattle.count_ledger.specs.Opening.{new_passes};

use crate::asserts::{assert_same, key};
use crate::held::{Held, KeyLedger, KeyPass, KeyRole, hold_all, roles_of};
use crate::rows::op_between;
use bin_history::{Form, Reply};
use count_ledger::{Ledger, LedgerName, MOST_CALLS, retire_all};
use hashkeys::{Key, Salt};
use std::alloc::{AllocError, Global};
use std::process::Abort;
use std::test::Fail;
use std::thread::join_mut;
use test_helpers::{Plus, settled};

/// A call: which client makes it, on which bin and key, and which value it is to find and to leave, 0 for
/// none.
type Row = (usize, usize, &'static [u8], u64, u64);

/// The value of a row.
fn value_of(number: u64) -> Option<u64> {
    if number == 0 { None } else { Some(number) }
}

/// Makes a call on the key as the pass's next, which finds a value and leaves one, and posts it.
pub(crate) fn call(
    rt: &impl Abort,
    ledger: &KeyLedger,
    pass: &mut KeyPass,
    bin: &mut Held,
    text: &[u8],
    before: Option<u64>,
    after: Option<u64>,
)
    requires pass { pass.old.ledger ≡ ledger.now.id }
    requires role { bin.old.ledger ≡ ledger.now.id }
    ensures pass { pass.new.ledger ≡ ledger.now.id }
    ensures role { bin.new.ledger ≡ ledger.now.id }
{
    let key = key(rt, text);
    assert!(rt; pass.made() < ledger.most_calls());
    assert!(rt; pass.made() < 1 << 48);
    assert!(rt; bin.class().covers(bin.salt().hash_of(&key)));
    let op = op_between(before, after);
    let reply = bin.post(ledger, pass, key, op).expect(rt, "memory");
    assert_same(rt, &reply, &Reply::Value(before));
}

fn make_all(
    rt: &impl Abort,
    ledger: &KeyLedger,
    passes: &mut Vec<KeyPass>,
    bins: &mut Vec<Held>,
    rows: &[Row],
)
    requires passes { All (λ p. p.ledger ≡ ledger.now.id) passes.old.items }
    requires roles { All (λ r. r.ledger ≡ ledger.now.id) bins.old.items }
    ensures passes { All (λ p. p.ledger ≡ ledger.now.id) passes.new.items }
    ensures roles { All (λ r. r.ledger ≡ ledger.now.id) bins.new.items }
    ensures pass_len { vec_len passes.new ≡ vec_len passes.old }
    ensures pass_capacity { vec_capacity passes.new ≡ vec_capacity passes.old }
    ensures bin_len { vec_len bins.new ≡ vec_len bins.old }
    ensures bin_capacity { vec_capacity bins.new ≡ vec_capacity bins.old }
{
    for row in rows {
        let (client, bin, key, before, after) = *row;
        assert!(rt; client < passes.len() && bin < bins.len());
        let (before, after) = (value_of(before), value_of(after));
        call(
            rt,
            ledger,
            &mut passes[client],
            &mut bins[bin],
            key,
            before,
            after,
        );
    }
}

/// As many bins without pairs.
fn empty_bases(alloc: Global, n: usize) -> Result<Vec<Vec<(Key, u64)>>, AllocError>
    ensures len { IfOk result (λ bases. length bases.items ≡ n) }
    ensures empty { IfOk result (λ bases. All (λ base. base.items ≡ []) bases.items) }
{
    let mut bases = Vec::new(alloc);
    for _number in 0..n {
        bases.push(Vec::new(alloc))?;
    }
    Ok(bases)
}

/// A ledger of this many clients over an empty map, with the roles of as many classes.
fn open_books(
    alloc: Global,
    clients: u32,
    n: usize,
) -> Result<(KeyLedger, Vec<KeyPass>, Vec<KeyRole>), AllocError>
    requires some { 0 < clients }
    requires at_most { clients ≤ 32 }
    requires size { IsTableSize n }
    ensures clients { IfOk result (λ r. r.0.clients ≡ clients) }
    ensures passes { IfOk result (λ r. r.1.items ≡ new_passes r.0.id clients) }
    ensures own { IfOk result (λ r. All (λ x. x.ledger ≡ r.0.id) r.2.items) }
    ensures new { IfOk result (λ r. All
        (λ x. (x.salt ≡ record { 0 = 0 }) × (x.opening ≡ []) × (x.kept ≡ [])) r.2.items) }
    ensures roles { IfOk result (λ r. length r.2.items ≡ n) }
{
    let bases = empty_bases(alloc, n)?;
    Ledger::new(alloc, Form::Recorded, Salt(0), clients, &bases)
}

/// A ledger of this many clients over an empty map, with a bin for each role.
pub(crate) fn open(
    rt: &impl Abort,
    alloc: Global,
    clients: u32,
    n: usize,
) -> Result<(KeyLedger, Vec<KeyPass>, Vec<Held>), AllocError>
    requires some { 0 < clients }
    requires at_most { clients ≤ 32 }
    requires size { IsTableSize n }
    ensures clients { IfOk result (λ r. r.0.clients ≡ clients) }
    ensures passes { IfOk result (λ r. r.1.items ≡ new_passes r.0.id clients) }
    ensures own { IfOk result (λ r. All (λ x. x.ledger ≡ r.0.id) r.2.items) }
    ensures bins { IfOk result (λ r. length r.2.items ≡ n) }
{
    let (ledger, passes, roles) = open_books(alloc, clients, n)?;
    let bins = hold_all(rt, &ledger, Salt(0), roles);
    Ok((ledger, passes, bins))
}

/// A ledger of two clients over an empty map, the pass of each, and its bins.
pub(crate) fn open_for_two(
    rt: &impl Abort,
    alloc: Global,
    n: usize,
) -> (KeyLedger, KeyPass, KeyPass, Vec<Held>)
    requires size { IsTableSize n }
    ensures pass { result.1.ledger ≡ result.0.id }
    ensures other_pass { result.2.ledger ≡ result.0.id }
    ensures own { All (λ x. x.ledger ≡ result.0.id) result.3.items }
{
    let (ledger, mut passes, bins) = open(rt, alloc, 2, n).expect(rt, "memory");
    let other_pass = passes.pop().expect(rt, "a pass");
    let pass = passes.pop().expect(rt, "a pass");
    retire_all(passes);
    (ledger, pass, other_pass, bins)
}

/// Takes the last bin out.
pub(crate) fn take_bin(rt: &impl Abort, ledger: &KeyLedger, bins: &mut Vec<Held>) -> Held
    requires { All (λ r. r.ledger ≡ ledger.now.id) bins.old.items }
    ensures bin { result.ledger ≡ ledger.now.id }
    ensures others { All (λ r. r.ledger ≡ ledger.now.id) bins.new.items }
{
    // read for the proof alone
    let _ = ledger;
    let bin = bins.pop().expect(rt, "a bin");
    bin
}

/// Puts a bin back behind the others.
pub(crate) fn put_bin(rt: &impl Abort, ledger: &KeyLedger, bins: &mut Vec<Held>, bin: Held)
    requires bin { bin.ledger ≡ ledger.now.id }
    requires others { All (λ r. r.ledger ≡ ledger.now.id) bins.old.items }
    ensures { All (λ r. r.ledger ≡ ledger.now.id) bins.new.items }
{
    // read for the proof alone
    let _ = ledger;
    bins.push(bin).expect(rt, "memory");
}

/// Settles a ledger of two clients, and returns the sum of all deltas.
pub(crate) fn settled_for_two(
    rt: &impl Abort,
    ledger: KeyLedger,
    pass: KeyPass,
    other_pass: KeyPass,
    bins: Vec<Held>,
) -> Option<u64>
    requires pass { pass.ledger ≡ ledger.id }
    requires other_pass { other_pass.ledger ≡ ledger.id }
    requires own { All (λ r. r.ledger ≡ ledger.id) bins.items }
{
    let passes = Vec::from_array(*bins.allocator(), [pass, other_pass]).expect(rt, "memory");
    settled(ledger, passes, roles_of(rt, bins))
}

/// The first client puts four times, and the second takes one of its keys away.
const SHARED: [Row; 5] = [
    (0, 1, b"a", 0, 1),
    (0, 0, b"b", 0, 2),
    (0, 1, b"a", 1, 3),
    (0, 1, b"q", 0, 4),
    (1, 0, b"b", 2, 0),
];

#[test]
fn shares_and_sums_count_new_keys(rt: HostRuntime) {
    let (ledger, mut passes, mut bins) = open(&rt, rt.alloc(), 2, 2).expect(&rt, "memory");
    make_all(&rt, &ledger, &mut passes, &mut bins, &SHARED);
    let sums = (ledger.sum(), ledger.sum_all(&mut passes));
    assert!(rt; passes.len() == 2);
    let shares = (ledger.share(&mut passes[0]), ledger.share(&mut passes[1]));
    let total = settled(ledger, passes, roles_of(&rt, bins));
    let wanted = ((2, 2), (3, 18_446_744_073_709_551_615), Some(2));
    assert_same(&rt, &(sums, shares, total), &wanted);
}

/// Divides the last bin.
fn divide_last(rt: &impl Abort, ledger: &KeyLedger, bins: &mut Vec<Held>)
    requires { All (λ r. r.ledger ≡ ledger.now.id) bins.old.items }
    ensures { All (λ r. r.ledger ≡ ledger.now.id) bins.new.items }
{
    let bin = bins.pop().expect(rt, "a bin");
    assert!(rt; bin.class().n() < 65536);
    let (low, high) = bin.divide(rt, ledger);
    bins.push(low).expect(rt, "memory");
    bins.push(high).expect(rt, "memory");
}

/// Whether the bins are of these classes, by size and index.
fn are_of(bins: &[Held], classes: &[(u32, u32)]) -> bool {
    for (bin, class) in bins.iter().zip(classes) {
        if (bin.class().n(), bin.class().index()) != *class {
            return false;
        }
    }
    bins.len() == classes.len()
}

/// Both clients put a key before its bin is divided.
const BEFORE: [Row; 2] = [(0, 1, b"a", 0, 1), (1, 1, b"c", 0, 2)];

/// Each puts the other's key afterwards, and one puts a key more.
const AFTER: [Row; 3] = [(1, 1, b"a", 1, 3), (0, 2, b"c", 2, 4), (0, 1, b"q", 0, 5)];

#[test]
fn a_divided_role_keeps_each_key_in_its_half(rt: HostRuntime) {
    let (ledger, mut passes, mut bins) = open(&rt, rt.alloc(), 2, 2).expect(&rt, "memory");
    make_all(&rt, &ledger, &mut passes, &mut bins, &BEFORE);
    divide_last(&rt, &ledger, &mut bins);
    let are_divided = are_of(&bins, &[(2, 0), (4, 1), (4, 3)]);
    make_all(&rt, &ledger, &mut passes, &mut bins, &AFTER);
    let mut roles = roles_of(&rt, bins);
    assert!(rt; passes.len() == 2 && roles.len() == 3);
    ledger.meet(&mut passes[0], &mut roles[2]);
    let first = (passes[0].client(), passes[0].made());
    let second = (passes[1].client(), passes[1].made());
    let total = settled(ledger, passes, roles);
    let wanted = (true, ((0, 3), (1, 2)), Some(3));
    assert_same(&rt, &(are_divided, (first, second), total), &wanted);
}

/// Puts a key this many times.
pub(crate) fn put_often(
    rt: &impl Abort,
    ledger: &KeyLedger,
    pass: &mut KeyPass,
    bin: &mut Held,
    text: &[u8],
    times: u64,
)
    requires pass { pass.old.ledger ≡ ledger.now.id }
    requires role { bin.old.ledger ≡ ledger.now.id }
    ensures pass { pass.new.ledger ≡ ledger.now.id }
    ensures role { bin.new.ledger ≡ ledger.now.id }
{
    let mut before = None;
    for time in 0..times {
        call(rt, ledger, pass, bin, text, before, Some(time));
        before = Some(time);
    }
}

#[test]
fn two_threads_post_to_two_roles(rt: HostRuntime) {
    let (ledger, mut pass, mut other_pass, mut bins) = open_for_two(&rt, rt.alloc(), 2);
    let mut bin = take_bin(&rt, &ledger, &mut bins);
    let mut other_bin = take_bin(&rt, &ledger, &mut bins);
    join_mut(
        &rt,
        &mut || put_often(&rt, &ledger, &mut pass, &mut bin, b"a", 1000),
        &mut || put_often(&rt, &ledger, &mut other_pass, &mut other_bin, b"b", 1000),
    );
    let counts = (pass.made(), other_pass.made(), ledger.sum());
    put_bin(&rt, &ledger, &mut bins, bin);
    put_bin(&rt, &ledger, &mut bins, other_bin);
    let total = settled_for_two(&rt, ledger, pass, other_pass, bins);
    assert_same(&rt, &(counts, total), &((1000, 1000, 2), Some(2)));
}

#[test]
fn a_pass_takes_a_million_calls(rt: HostRuntime) {
    let (ledger, mut passes, mut bins) = open(&rt, rt.alloc(), 1, 2).expect(&rt, "memory");
    assert!(rt; passes.len() == 1 && bins.len() == 2);
    let (pass, bin) = (&mut passes[0], &mut bins[1]);
    put_often(&rt, &ledger, pass, bin, b"a", MOST_CALLS);
    let counts = (passes[0].made(), ledger.share(&mut passes[0]));
    let total = settled(ledger, passes, roles_of(&rt, bins));
    assert_same(&rt, &(counts, total), &((1_000_000, 1), Some(1)));
}

#[test]
fn a_name_has_no_bytes(rt: HostRuntime) {
    let (ledger, passes, roles) = open_books(rt.alloc(), 1, 2).expect(&rt, "memory");
    assert!(rt; roles.len() == 2);
    let name = LedgerName::of(&roles[0]);
    drop(name.again().to_tag());
    drop(name);
    let total = settled(ledger, passes, roles);
    assert_same(&rt, &(size_of::<LedgerName>(), total), &(0, Some(0)));
}

#[test]
fn the_largest_ledger_settles(rt: HostRuntime) -> Result<(), Fail> {
    let (ledger, passes, roles) = open_books(rt.alloc(), 32, 65536)?;
    let sizes = (passes.len(), roles.len());
    let total = settled(ledger, passes, roles);
    assert_same(&rt, &(sizes, total), &((32, 65536), Some(0)));
    Ok(())
}
