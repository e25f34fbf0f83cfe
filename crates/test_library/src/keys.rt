//! Functions of numbers.
use crate::asserts::assert_same;
use clients::{Add, Greatest, Remap, Set};

#[test]
fn functions_merge(rt: HostRuntime) {
    let (big, small) = (u64::MAX, i64::MIN);
    let merged = [
        <Add as Remap<u64, u64>>::merge(&Add, &2, &3).expect(&rt, "no fault"),
        <Add as Remap<u64, u64>>::merge(&Add, &big, &1).expect(&rt, "no fault"),
        <Greatest as Remap<u64, u64>>::merge(&Greatest, &5, &3).expect(&rt, "no fault"),
        <Set as Remap<u64, u64>>::merge(&Set, &5, &3).expect(&rt, "no fault"),
        <Add as Remap<u64, u64>>::remap(&Add, &1, Some(&4)).expect(&rt, "no fault"),
    ];
    let signed = [
        <Add as Remap<u64, i64>>::merge(&Add, &small, &-1).expect(&rt, "no fault"),
        <Greatest as Remap<u64, i64>>::merge(&Greatest, &-5, &-3).expect(&rt, "no fault"),
        <Set as Remap<u64, i64>>::merge(&Set, &5, &-3).expect(&rt, "no fault"),
    ];
    assert_same(
        &rt,
        &merged,
        &[Some(5), Some(big), Some(5), Some(3), Some(4)],
    );
    assert_same(&rt, &signed, &[Some(small), Some(-3), Some(-3)]);
}
