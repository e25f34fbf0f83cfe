//! The segments of a map's tables: the table of the indexes from 2^e up to 2^(e+1) is cut into segments of
//! 4,096 places, each of which is made when its first bin is.
use crate::slot::{BinSlot, SegmentTag};
use bin_history::{Remap, Value};
use boxcar::slot::{OnceSlot, SlotRule};
use hashkeys::HashKey;
use lock_table::{Fits, LockedSlots};
use std::alloc::Allocator;

/// How many places a segment has at most.
pub(crate) const SEGMENT: u32 = 4096;

/// So many places of a map, from an index on. A struct of its own, as `SegmentTable` is: the kit's borrow
/// checker covers few types inside one another, and a map's keys and values are inside these.
#[derive(Drop)]
pub struct Segment<K: HashKey, V: Value, F: Remap<K, V>, A: Allocator> {
    pub(crate) places: LockedSlots<BinSlot<K, V, F, A>, A>,
}

/// The rule of a slot for a segment: it is the map's, from the index that the slot's tag names.
pub struct OfSegment;

impl<K: HashKey, V: Value, F: Remap<K, V>, A: Allocator> SlotRule<Segment<K, V, F, A>>
    for OfSegment {
    ghost use Rattle.std.specs.Prelude.{min};
    ghost use Rattle.bin_layout.specs.Names.{home_named};
    ghost use Rattle.lean_bins.specs.Segments.{IsSegment, first_named, segment_places};

    ghost holds = { λ tag segment. IsSegment (home_named tag) (first_named tag)
        (min (first_named tag) segment_places)
        segment.places.table.shared.key.tag segment.places.table.shared.table_id.slots };
}

/// The segments of one table, each in a slot.
#[derive(Drop)]
pub struct SegmentTable<K: HashKey, V: Value, F: Remap<K, V>, A: Allocator> {
    pub(crate) segments: Vec<OnceSlot<Segment<K, V, F, A>, OfSegment>, A>,
}

/// The rule of a slot for a table: its segments are the map's, from the index that the slot's tag
/// names.
pub struct OfTable;

impl<K: HashKey, V: Value, F: Remap<K, V>, A: Allocator> SlotRule<SegmentTable<K, V, F, A>>
    for OfTable {
    ghost use Rattle.bin_layout.specs.Names.{home_named};
    ghost use Rattle.lean_bins.specs.Segments.{AreSegments, first_named};

    ghost holds = { λ tag table. AreSegments (home_named tag) (first_named tag) table.segments.items };
}

/// The slots of a map's tables: at each exponent e that of the indexes from 2^e up.
pub(crate) type Tables<K, V, F, A> = Vec<OnceSlot<SegmentTable<K, V, F, A>, OfTable>, A>;
