//! Which requests the allocator refuses.
use crate::asserts::assert_same;
use std::thread;
use test_support::Refusing;

#[test]
fn one_request_is_refused(rt: HostRuntime) {
    let alloc = Refusing::new(rt.alloc());
    for granted in 0..4u64 {
        alloc.refuse_after(granted);
        for number in 0..6u64 {
            let before = alloc.has_refused();
            let block = Vec::<u64, _>::with_capacity(&alloc, 1);
            let found = (before, block.is_err());
            assert_same(&rt, &found, &(number > granted, number == granted));
        }
    }
}

/// Whether the items are the numbers from 0 on.
fn are_counted(items: &[u64]) -> bool {
    let mut next = 0u64;
    for item in items {
        if *item != next {
            return false;
        }
        next = next.wrapping_add(1);
    }
    true
}

#[test]
fn a_refused_growth_leaves_the_items(rt: HostRuntime) {
    let alloc = Refusing::new(rt.alloc());
    let mut items = Vec::new(&alloc);
    alloc.refuse_after(1);
    let mut refused = 0u64;
    for number in 0..100u64 {
        if items.push(number).is_err() {
            refused = refused.wrapping_add(1);
            assert_same(&rt, &(items.len() as u64), &number);
            items.push(number).expect(&rt, "memory");
        }
    }
    let found = (refused, items.len(), are_counted(&items));
    assert_same(&rt, &found, &(1, 100, true));
}

#[test]
fn threads_count_together(rt: HostRuntime) {
    let alloc = Refusing::new(rt.alloc());
    alloc.refuse_after(5);
    let ask = |number: usize| Vec::from_array(&alloc, [number]).is_ok();
    let granted = thread::map_indices(&rt, rt.alloc(), 8, &ask).expect(&rt, "memory");
    let mut count = 0u32;
    for is_granted in &granted {
        count = count.wrapping_add(u32::from(*is_granted));
    }
    assert_same(&rt, &(count, alloc.has_refused()), &(7, true));
}
