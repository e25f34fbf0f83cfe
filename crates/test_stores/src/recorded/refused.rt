//! Requests for memory that are refused, each in turn.
use crate::calls::{assert_same, count_of};
use crate::recorded::maps::{KeyMap, leaves_of, open_quiet, quiet, with_one};
use bin_history::Form;
use bin_layout::{Moved, Refused};
use hashkeys::Class;
use std::alloc::{Allocator, Global};
use std::process::Abort;
use std::sync::Wait;
use test_support::Refusing;

/// The size of the class and the number of entries of the bin of the hash 97, as it is held and as
/// it is read.
fn sizes<R: Wait, A: Allocator + Clone>(rt: &R, map: &KeyMap<A>) -> [(u32, usize); 2] {
    let held = map.hold(rt, 97);
    let of_held = (held.bin.class().n(), count_of(&held.bin));
    held.release();
    let shown = map.read(rt, 97);
    let of_shown = (shown.bin().class().n(), count_of(shown.bin()));
    shown.release();
    [of_held, of_shown]
}

/// Asserts of a try to move the one bin, which was of class 1, that it moved it or left it as it was for want of
/// memory, and that the next try moved it then.
fn assert_moved_in_the_end(
    rt: &impl Abort,
    first: Result<Moved, Refused>,
    between: [(u32, usize); 2],
    again: Moved,
    after: [(u32, usize); 2],
) {
    let moved = [(2, 1); 2];
    let wanted = match first {
        Ok(_) => (Ok(Moved::Yes), moved, Moved::Already),
        Err(_) => (Err(Refused::NoMemory), [(1, 1); 2], Moved::Yes),
    };
    assert_same(rt, &(first, between, again), &wanted);
    assert_same(rt, &after, &moved);
}

/// Moves the one bin of a map under an allocator that refuses the request after so many. Where the
/// move is refused the bin is there as before, and the next try moves it. Answers whether it was
/// moved, and whether a request was refused.
fn refused_move<R: Wait + Abort>(
    rt: &R,
    alloc: &Refusing<Global>,
    form: Form,
    granted: u64,
) -> (bool, bool) {
    let (map, ledger) = with_one(rt, &alloc, form, 1);
    alloc.refuse_after(granted);
    let first = map.try_forward(&ledger, Class::new(1, 0));
    let refused = alloc.has_refused();
    alloc.refuse_after(u64::MAX);
    let between = sizes(rt, &map);
    let again = map.forward(rt, &ledger, Class::new(1, 0));
    let after = sizes(rt, &map);
    drop(map);
    drop(ledger);
    let is_moved = first.is_ok();
    assert_moved_in_the_end(rt, first, between, again.expect(rt, "memory"), after);
    (is_moved, refused)
}

#[test]
fn a_refused_move_leaves_the_bin(rt: HostRuntime) {
    let alloc = Refusing::new(rt.alloc());
    // The table of two places; of a recorded bin the list of entries and the list of records of the
    // half that has the key too, and for each half room for the bin.
    for (form, needed) in &[(Form::Recorded, 5), (Form::Lean, 1)] {
        for granted in 0..9u64 {
            let found = refused_move(&rt, &alloc, *form, granted);
            let wanted = (granted >= *needed, granted < *needed);
            assert_same(&rt, &(*form, granted, found), &(*form, granted, wanted));
        }
    }
}

/// Makes room for the bins of a map under an allocator that refuses the request after so many, and
/// takes them out: refused, at the next try, and else without a request. Returns whether it was
/// refused.
fn refused_leaves<R: Wait + Abort>(rt: &R, alloc: &Refusing<Global>, granted: u64) -> bool {
    let (map, ledger) = quiet(rt, alloc, Form::Recorded, 4);
    drop(ledger);
    alloc.refuse_after(granted);
    let Ok(room) = map.room_for_leaves() else {
        assert_same(rt, &leaves_of(map, 4), &Some((4, 4, true)));
        return true;
    };
    alloc.refuse_after(0);
    let taken = match map.into_leaves(room) {
        Some((bins, roles)) => (bins.len(), roles.len()),
        None => (0, 0),
    };
    let asked = alloc.has_refused();
    alloc.refuse_after(u64::MAX);
    assert_same(rt, &(taken, asked), &((4, 4), false));
    false
}

#[test]
fn bins_are_taken_out_without_memory_once_there_is_room(rt: HostRuntime) {
    let alloc = Refusing::new(rt.alloc());
    for granted in 0..3u64 {
        let refused = refused_leaves(&rt, &alloc, granted);
        assert_same(&rt, &(granted, refused), &(granted, granted < 2));
    }
}

/// Makes a map under an allocator that refuses the request after so many, and answers whether it
/// was refused.
fn refused_map(alloc: &Refusing<Global>, form: Form, granted: u64) -> bool {
    alloc.refuse_after(granted);
    match open_quiet(alloc, form, 2) {
        Ok((map, ledger)) => {
            drop(ledger);
            drop(map);
            false
        }
        Err(_) => true,
    }
}

#[test]
fn a_refused_map_is_made_at_the_next_try(rt: HostRuntime) {
    let alloc = Refusing::new(rt.alloc());
    // Lists of bases, passes, roles and places, the two blocks of the ledger's words, and the list
    // of tables; of each of two recorded bins room for the bin.
    for (form, needed) in &[(Form::Recorded, 9), (Form::Lean, 7)] {
        for granted in 0..14u64 {
            let found = (refused_map(&alloc, *form, granted), alloc.has_refused());
            let is_refused = granted < *needed;
            assert_same(
                &rt,
                &(*form, granted, found),
                &(*form, granted, (is_refused, is_refused)),
            );
        }
    }
}
