//! Ledgers that are not settled at first.
use crate::asserts::assert_same;
use crate::held::roles_of;
use crate::ledgers::{call, open};
use test_helpers::settled;

#[test]
fn settling_needs_each_pass(rt: HostRuntime) {
    let (ledger, mut passes, mut bins) = open(&rt, rt.alloc(), 2, 1).expect(&rt, "memory");
    let mut bin = bins.pop().expect(&rt, "a bin");
    let pass = passes.pop().expect(&rt, "a pass");
    assert!(rt; passes.len() == 1);
    call(&rt, &ledger, &mut passes[0], &mut bin, b"a", None, Some(1));
    let (ledger, mut passes, mut bin) = bin.refused(&rt, ledger, passes);
    call(&rt, &ledger, &mut passes[0], &mut bin, b"q", None, Some(2));
    passes.push_reserved(pass);
    bins.push_reserved(bin);
    let total = settled(ledger, passes, roles_of(&rt, bins));
    assert_same(&rt, &total, &Some(2));
}

#[test]
fn settling_needs_each_role(rt: HostRuntime) {
    let (ledger, mut passes, mut bins) = open(&rt, rt.alloc(), 2, 2).expect(&rt, "memory");
    let mut other = bins.pop().expect(&rt, "a bin");
    let bin = bins.pop().expect(&rt, "a bin");
    assert!(rt; passes.len() == 2);
    call(
        &rt,
        &ledger,
        &mut passes[0],
        &mut other,
        b"a",
        None,
        Some(1),
    );
    let (ledger, mut passes, mut bin) = bin.refused(&rt, ledger, passes);
    call(&rt, &ledger, &mut passes[1], &mut bin, b"b", None, Some(2));
    bins.push_reserved(bin);
    bins.push_reserved(other);
    let total = settled(ledger, passes, roles_of(&rt, bins));
    assert_same(&rt, &total, &Some(2));
}
