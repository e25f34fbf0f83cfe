//! Tables that are made before bins are moved to them.
ghost use Rattle.std.specs.Prelude.{◌≤◌};

use crate::calls::assert_same;
use crate::lean::maps::quiet;
use bin_layout::{Moved, Refused};
use hashkeys::Class;
use std::alloc::Global;
use std::process::Abort;
use test_support::Refusing;

/// How many requests two tries to make the table of two bins make, and the move after them.
fn requests_of_a_table(rt: &impl Abort, alloc: &Refusing<Global>) -> [u64; 3] {
    let (map, ledger) = quiet(rt, alloc, 1);
    let opened = alloc.requests();
    let made = map.try_widen(2);
    let widened = alloc.requests();
    let again = map.try_widen(2);
    let asked = alloc.requests();
    let moved = map.try_forward(&ledger, Class::new(1, 0));
    let done = alloc.requests();
    drop(map);
    drop(ledger);
    assert_same(rt, &(made, again, moved), &(Ok(()), Ok(()), Ok(Moved::Yes)));
    [
        widened.wrapping_sub(opened),
        asked.wrapping_sub(widened),
        done.wrapping_sub(asked),
    ]
}

#[test]
fn a_table_is_made_once_before_its_move(rt: HostRuntime) {
    // The table asks for the slots of its parts. The move asks for the one part: for a list of its
    // places and one of their words, and for each once more.
    let alloc = Refusing::new(rt.alloc());
    assert_same(&rt, &requests_of_a_table(&rt, &alloc), &[1, 0, 4]);
}

/// What a try to make a table without memory answers, and the next one with memory.
fn widened(rt: &impl Abort, alloc: &Refusing<Global>) -> [Result<(), Refused>; 2] {
    let (map, ledger) = quiet(rt, alloc, 1);
    alloc.refuse_after(0);
    let refused = map.try_widen(2);
    alloc.refuse_after(u64::MAX);
    let made = map.try_widen(2);
    drop(map);
    drop(ledger);
    [refused, made]
}

#[test]
fn a_refused_table_is_made_at_the_next_try(rt: HostRuntime) {
    let alloc = Refusing::new(rt.alloc());
    let found = widened(&rt, &alloc);
    assert_same(&rt, &found, &[Err(Refused::NoMemory), Ok(())]);
}

/// How many bytes a map has that opens with 2 to the exponent bins, its ledger's left out.
fn bytes_of(rt: &impl Abort, alloc: &Refusing<Global>, exponent: u32) -> u64
    requires { exponent ≤ 26 }
{
    let before = alloc.bytes_out();
    let (map, ledger) = quiet(rt, alloc, 1u32 << exponent);
    drop(ledger);
    let bytes = alloc.bytes_out().wrapping_sub(before);
    drop(map);
    bytes
}

#[test]
fn opening_bins_have_two_cache_lines_each_or_one_or_none(rt: HostRuntime) {
    // A bin's place takes 72 bytes: 8 say what it has and its first entry's hash, 48 are that entry, of
    // a key of 33 bytes and a number, and 16 lead to the next and to its allocator. Its word takes 128,
    // 64 or 8 bytes. The rest is the same for each map.
    let alloc = Refusing::new(rt.alloc());
    let rest = bytes_of(&rt, &alloc, 0).wrapping_sub(200);
    for exponent in 0..13u32 {
        let each = match exponent {
            0..=8 => 200u64,
            9..=10 => 136,
            _ => 80,
        };
        let wanted = (1u64 << exponent).wrapping_mul(each).wrapping_add(rest);
        let found = bytes_of(&rt, &alloc, exponent);
        assert_same(&rt, &(exponent, found), &(exponent, wanted));
    }
}
