//! What may be refused memory, at each power of two of its sizes and with ample memory.
ghost use Rattle.std.specs.Prelude.{◌≡◌, ◌^◌, ◌≤◌};

use crate::bulk::{Answering, found};
use crate::closed::on_counted;
use crate::samples::assert_same;
use crate::trees::Bins;
use completers::Tree;
use std::alloc::{AllocError, Global};

/// Makes trees of so many nodes, 2 to this level, with each number of slots. Returns how many of them have
/// a supply of that level.
fn make_trees(alloc: Global, nodes: usize, level: u32) -> Result<u64, AllocError>
    requires { (level ≤ 7) × (nodes ≡ 2 ^ level) }
{
    let mut made = 0u64;
    for slots in 1..=8 {
        let (tree, supply) = Tree::new(alloc, &Bins, nodes, slots, 65536)?;
        made = made.wrapping_add(u64::from(supply.level() == level));
        drop(supply);
        drop(tree);
    }
    Ok(made)
}

#[test]
fn trees_of_each_size_have_their_memory(rt: HostRuntime) {
    let alloc = rt.alloc();
    let made = [
        make_trees(alloc, 1, 0).unwrap_or(0),
        make_trees(alloc, 2, 1).unwrap_or(0),
        make_trees(alloc, 4, 2).unwrap_or(0),
        make_trees(alloc, 8, 3).unwrap_or(0),
        make_trees(alloc, 16, 4).unwrap_or(0),
        make_trees(alloc, 32, 5).unwrap_or(0),
        make_trees(alloc, 64, 6).unwrap_or(0),
        make_trees(alloc, 128, 7).unwrap_or(0),
    ];
    assert_same(&rt, &made, &[8; 8]);
}

// Of the values 1 to n the sum is n * (n + 1) / 2, and n alone is above n - 1.
#[test]
fn operations_on_each_number_of_entries_have_their_memory(rt: HostRuntime) {
    for level in 0..17u32 {
        let count = 1u32 << level;
        let n = i64::from(count);
        let sum = i128::from(n) * (i128::from(n) + 1) / 2;
        let answering = Answering {
            thresholds: &[1],
            workers: &[1, 4, 16],
            above: n - 1,
            wanted: found(sum, n, Some(n), count as usize),
        };
        on_counted(&rt, rt.alloc(), count, &answering);
    }
}
