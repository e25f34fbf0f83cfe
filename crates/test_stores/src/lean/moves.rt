//! What moves find, where bins are tried, and bins that are taken out.
ghost use Rattle.std.specs.Prelude.{◌≡◌};

use crate::calls::{KeyLedger, assert_same};
use crate::lean::maps::{KeyMap, open_quiet, quiet};
use bin_layout::{Moved, Refused};
use hashkeys::Class;
use std::alloc::{AllocError, Allocator, Global};
use test_support::Refusing;

/// Takes the bins out, and gives the sizes and indices of their classes in walk order.
fn classes_of<A: Allocator + Clone>(
    alloc: Global,
    map: KeyMap<A>,
) -> Result<Vec<(u32, u32)>, AllocError> {
    let room = map.room_for_leaves()?;
    let mut classes = Vec::new(alloc);
    if let Some((bins, _roles)) = map.into_leaves(room) {
        for bin in &bins {
            classes.push((bin.class().n(), bin.class().index()))?;
        }
    }
    Ok(classes)
}

/// What moves of the class of 2 at 1, and of classes that it divides into, find in turn.
fn moves_of_one<A: Allocator + Clone>(
    map: &KeyMap<A>,
    ledger: &KeyLedger<A>,
) -> [Result<Moved, Refused>; 5]
    requires ledger { ledger.now.id ≡ map.now.ledger }
{
    let narrow = map.try_forward(ledger, Class::new(4, 1));
    let narrower = map.try_forward(ledger, Class::new(8, 3));
    let own = map.try_forward(ledger, Class::new(2, 1));
    let again = map.try_forward(ledger, Class::new(2, 1));
    let of_a_half = map.try_forward(ledger, Class::new(8, 1));
    [narrow, narrower, own, again, of_a_half]
}

/// What the moves of the class of 2 at 1, and of classes that it divides into, are to find.
const MOVED: [Result<Moved, Refused>; 5] = [
    Ok(Moved::Wider),
    Ok(Moved::Wider),
    Ok(Moved::Yes),
    Ok(Moved::Already),
    Ok(Moved::Wider),
];

/// The classes that they leave, in walk order.
const LEFT: [(u32, u32); 3] = [(2, 0), (4, 1), (4, 3)];

#[test]
fn a_move_leaves_a_wider_bin(rt: HostRuntime) {
    let (map, ledger) = quiet(&rt, rt.alloc(), 2);
    let found = moves_of_one(&map, &ledger);
    let classes = classes_of(rt.alloc(), map).expect(&rt, "memory");
    drop(ledger);
    assert_same(&rt, &found, &MOVED);
    assert_same(&rt, &classes.as_slice(), &LEFT.as_slice());
}

/// The class of the bin of the hash that a try finds where it lies.
fn tried<A: Allocator + Clone>(map: &KeyMap<A>, hash: u32) -> Option<(u32, u32)> {
    let place = map.try_hold_in_place(hash)?;
    let class = place.class;
    place.release();
    Some((class.n(), class.index()))
}

#[test]
fn a_try_finds_a_bin_at_each_width(rt: HostRuntime) {
    let (map, ledger) = quiet(&rt, rt.alloc(), 2);
    let widened = map.try_widen(8);
    let at_first = tried(&map, 5);
    let moved = map.try_forward(&ledger, Class::new(2, 1));
    let half = tried(&map, 5);
    let moved_on = map.try_forward(&ledger, Class::new(4, 1));
    let widest = [tried(&map, 5), tried(&map, 3), tried(&map, 4)];
    drop(map);
    drop(ledger);
    let moves = (widened, moved, moved_on);
    assert_same(&rt, &moves, &(Ok(()), Ok(Moved::Yes), Ok(Moved::Yes)));
    let wanted = [Some((8, 5)), Some((4, 3)), Some((2, 0))];
    let found = (at_first, half, widest);
    assert_same(&rt, &found, &(Some((2, 1)), Some((4, 1)), wanted));
}

/// Makes room for the bins under an allocator that refuses the request after so many, and says
/// whether there is some. From then on the allocator refuses the next request, and all bins are taken
/// out all the same.
fn refused_room(alloc: &Refusing<Global>, own: Global, granted: u64) -> Result<bool, AllocError> {
    let (map, ledger) = open_quiet(alloc, 4)?;
    drop(ledger);
    alloc.refuse_after(granted);
    let Ok(room) = map.room_for_leaves() else {
        let left = classes_of(own, map)?;
        return if left.len() == 4 {
            Ok(false)
        } else {
            Err(AllocError)
        };
    };
    alloc.refuse_after(0);
    let taken = match map.into_leaves(room) {
        Some((bins, roles)) => (bins.len(), roles.len()),
        None => (0, 0),
    };
    let asked = alloc.has_refused();
    alloc.refuse_after(u64::MAX);
    if taken == (4, 4) && !asked {
        Ok(true)
    } else {
        Err(AllocError)
    }
}

#[test]
fn bins_are_taken_out_without_memory_once_there_is_room(rt: HostRuntime) {
    let alloc = Refusing::new(rt.alloc());
    for granted in 0..3u64 {
        let made = refused_room(&alloc, rt.alloc(), granted).expect(&rt, "memory");
        assert_same(&rt, &(granted, made), &(granted, granted == 2));
    }
}
