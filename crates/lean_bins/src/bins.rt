//! All bins of a map, and the way from a hash to its bin.
ghost use Rattle.std.specs.Prelude.{◌≡◌, ◌+◌, ◌*◌, ◌^◌, ◌<◌, ◌≤◌, min, IfSome, IfOk};
ghost use Rattle.hashkeys.specs.Classes.{IsTableSize};
ghost use Rattle.hashkeys.specs.Limits.{most_bins, most_exponent};
ghost use Rattle.bin_history.specs.declared.form.Form.TheVariants.{Lean};
ghost use Rattle.bin_layout.specs.Names.{home_named};
ghost use Rattle.lean_bins.specs.Segments.{IsSegment, AreSegments, first_named, segment_places};
ghost use Rattle.lean_bins.specs.Homes.{IsIndexOf, IsSlotRefOf};

use crate::hold::index_among;
use crate::segments::{SEGMENT, Segment, SegmentTable, Tables};
use crate::slot::{BinSlot, SegmentTag};
use bin_history::{Remap, Value};
use bin_layout::Refused;
use boxcar::slot::OnceSlot;
use boxcar::tag::{Names, Tag};
use count_ledger::LedgerName;
use hashkeys::{Class, HashKey, Salt};
use lock_table::{Glance, LockedSlots, Terms};
use std::alloc::{AllocError, Allocator};
use std::marker::Model;
use std::sync::atomic::AtomicU64;
use std::sync::atomic::Ordering::SeqCst;

/// The exponent of the most bins.
pub(crate) const MOST_EXPONENT: u32 = 26;

/// How many words apart the places of a map's opening table lie, by its number of bins: up to 256
/// places have two cache lines each, up to 1,024 one. A processor that reads a line may fetch the
/// next one too, so with two lines it fetches no other place's word.
pub(crate) fn stride_of_opening(n: u32) -> usize
    ensures some { 0 < result }
    ensures few { result ≤ 16 }
{
    match n {
        0..=256 => 16,
        257..=1024 => 8,
        _ => 1,
    }
}

/// How many words apart the places of a segment of a later table lie, by its first index: those below
/// 256 have two cache lines each.
fn stride_from(first: u32) -> usize
    ensures some { 0 < result }
    ensures few { result ≤ 16 }
{
    if first < 256 { 16 } else { 1 }
}

/// The bins of one map, each in the place of its index, where it stays when it is halved. Contracts
/// see the map's ledger, its form, its salt and the number of its opening bins.
#[derive(Drop)]
pub struct LeanBins<K: HashKey, V: Value, F: Remap<K, V>, A: Allocator> {
    pub(crate) opening: LockedSlots<BinSlot<K, V, F, A>, A>,
    pub(crate) tables: Tables<K, V, F, A>,
    /// The exponent of the widest table that bins are moved to, or more. A search goes from there to
    /// narrower tables: were it less, bins of wider ones would not be found.
    pub(crate) widest: AtomicU64,
    pub(crate) n: u32,
    pub(crate) salt: Salt,
    pub(crate) ledger: LedgerName,
}

impl<K: HashKey, V: Value, F: Remap<K, V>, A: Allocator> Model for LeanBins<K, V, F, A> {
    ghost use Rattle.bin_history.specs.declared.form.Form.TheVariants.{Lean};
    ghost use Rattle.bin_layout.specs.Views.{HomeView};
    ghost use Rattle.lean_bins.specs.Homes.{IsHome};

    ghost Value = { HomeView };

    ghost view = { λ g. record { ledger = g.ledger; form = Lean; salt = g.salt; n = g.n } };

    ghost invariant = { λ g. IsHome (record { ledger = g.ledger; form = Lean; salt = g.salt; n = g.n })
        g.opening.table.shared.key.tag g.opening.table.shared.table_id.slots g.tables.items };
}

/// Where the place of an index lies: in a segment, so far from its first place.
#[derive(Drop)]
pub(crate) struct SlotRef<'a, K: HashKey, V: Value, F: Remap<K, V>, A: Allocator> {
    pub(crate) rows: &'a LockedSlots<BinSlot<K, V, F, A>, A>,
    pub(crate) at: usize,
}

impl<K: HashKey, V: Value, F: Remap<K, V>, A: Allocator> LeanBins<K, V, F, A> {
    /// The number of opening bins: a power of two from 1 to 2^26.
    pub fn n(&self) -> u32
        ensures value { result ≡ self.now.n }
        ensures size { IsTableSize self.now.n }
    {
        self.n
    }

    /// The salt of the map's hashes.
    #[inline(always)]
    pub fn salt(&self) -> Salt
        ensures { result ≡ self.now.salt }
    {
        self.salt
    }

    /// A table, once it was made.
    #[inline(always)]
    fn table(&self, exponent: u32) -> Option<&SegmentTable<K, V, F, A>>
        requires { exponent < most_exponent }
        ensures { IfSome result (λ t. AreSegments self.now (2 ^ exponent) t.now.segments.items) }
    {
        self.tables[exponent as usize].get()
    }

    /// A segment of a table, where it was made.
    #[inline(always)]
    fn segment(&self, exponent: u32, number: u32) -> Option<&Segment<K, V, F, A>>
        requires table { exponent < most_exponent }
        requires within { number * segment_places < 2 ^ exponent }
        ensures { IfSome result
            (λ r. IsSegment self.now (2 ^ exponent + number * segment_places)
            (min (2 ^ exponent + number * segment_places) segment_places)
            r.now.places.table.shared.key.tag r.now.places.table.shared.table_id.slots) }
    {
        self.table(exponent)?.segments[number as usize].get()
    }

    /// The place of an index, where its segment was made.
    #[inline(always)]
    pub(crate) fn slot_ref(&self, index: u32) -> Option<SlotRef<'_, K, V, F, A>>
        requires { index < most_bins }
        ensures { IfSome result
            (λ s. IsSlotRefOf self.now index s.rows.now.table.shared.key.tag
            s.rows.now.table.shared.table_id.slots s.at) }
    {
        if index < self.n {
            return Some(SlotRef {
                rows: &self.opening,
                at: index as usize,
            });
        }
        let exponent = index.ilog2();
        let at = index - (1u32 << exponent);
        let segment = self.segment(exponent, at / SEGMENT)?;
        Some(SlotRef {
            rows: &segment.places,
            at: (at % SEGMENT) as usize,
        })
    }

    /// The exponent of the widest table that bins are moved to.
    #[inline(always)]
    pub(crate) fn widest(&self) -> u32
        ensures { result ≤ most_exponent }
    {
        self.widest.load(SeqCst).min(26) as u32
    }

    /// The place of the hash in the widest table where something stands or is locked, and else its
    /// opening place; its index; and what was seen there.
    pub(crate) fn find(&self, hash: u32) -> (u32, SlotRef<'_, K, V, F, A>, Glance)
        ensures slot_ref { IsSlotRefOf self.now result.0 result.1.rows.now.table.shared.key.tag
            result.1.rows.now.table.shared.table_id.slots result.1.at }
        ensures of_hash { IsIndexOf hash result.0 }
    {
        let mut index = index_among(hash, self.widest());
        while index >= self.n {
            if let Some(slot_ref) = self.slot_ref(index) {
                match slot_ref.rows.glance(slot_ref.at) {
                    Glance::Absent => {}
                    seen => return (index, slot_ref, seen),
                }
            }
            index -= 1u32 << index.ilog2();
        }
        let slot_ref = SlotRef {
            rows: &self.opening,
            at: index as usize,
        };
        let seen = slot_ref.rows.glance(slot_ref.at);
        (index, slot_ref, seen)
    }
}

/// What the tag of a slot says.
struct SlotName {
    first: u32,
    n: u32,
    salt: Salt,
    ledger: Tag,
}

struct OfSlotName;

impl Names<SlotName> for OfSlotName {
    ghost use Rattle.std.specs.Prelude.{◌∷◌};
    ghost use Rattle.bin_history.specs.declared.form.Form.TheVariants.{Lean};
    ghost use Rattle.bin_layout.specs.Names.{form_number};

    ghost numbers = { λ m. m.first ∷ m.n ∷ form_number Lean ∷ m.salt.0 ∷ m.ledger.numbers };
}

/// The tag of a slot of a map's segments or tables, from an index on.
pub(crate) fn tag_of(first: u32, n: u32, salt: Salt, ledger: &LedgerName) -> Tag
    ensures map { home_named result.numbers ≡ record { ledger = ledger.now; form = Lean; salt = salt; n = n } }
    ensures from { first_named result.numbers ≡ first }
{
    let name = SlotName {
        first,
        n,
        salt,
        ledger: ledger.to_tag(),
    };
    let tag = Tag::of::<SlotName, OfSlotName>(&name);
    let SlotName {
        first: _,
        n: _,
        salt: _,
        ledger,
    } = name;
    drop(ledger);
    tag
}

impl<K: HashKey, V: Value, F: Remap<K, V>, A: Allocator + Clone> LeanBins<K, V, F, A> {
    /// The allocator of the map's memory.
    pub fn allocator(&self) -> &A {
        self.tables.allocator()
    }

    /// A table. No segment is in it yet.
    fn new_segments(&self, exponent: u32) -> Result<SegmentTable<K, V, F, A>, AllocError>
        requires { exponent < most_exponent }
        ensures { IfOk result (λ t. AreSegments self.now (2 ^ exponent) t.segments.items) }
    {
        let first = 1u32 << exponent;
        let count = first.div_ceil(SEGMENT);
        let mut segments = Vec::with_capacity(self.allocator().clone()?, count as usize)?;
        for number in 0..count {
            let tag = tag_of(first + number * SEGMENT, self.n, self.salt, &self.ledger);
            segments.push_reserved(OnceSlot::new(&tag));
        }
        Ok(SegmentTable { segments })
    }

    /// The places of a segment of a table, with nothing in them.
    fn new_places(
        &self,
        exponent: u32,
        number: u32,
    ) -> Result<LockedSlots<BinSlot<K, V, F, A>, A>, AllocError>
        requires table { exponent < most_exponent }
        requires within { number * segment_places < 2 ^ exponent }
        ensures { IfOk result
            (λ r. IsSegment self.now (2 ^ exponent + number * segment_places)
            (min (2 ^ exponent + number * segment_places) segment_places)
            r.table.shared.key.tag r.table.shared.table_id.slots) }
    {
        let first = (1u32 << exponent) + number * SEGMENT;
        let count = first.min(SEGMENT);
        let mut blanks = Vec::with_capacity(self.allocator().clone()?, count as usize)?;
        for _blank in 0..count {
            blanks.push_reserved(BinSlot::nothing(self.salt, Class::new(1, 0)));
        }
        let tag = SegmentTag {
            first,
            n: self.n,
            salt: self.salt,
            ledger: self.ledger.again(),
        };
        let stride = stride_from(first);
        LockedSlots::absent(self.allocator(), Terms { tag, stride }, blanks)
    }

    /// A segment of a table, with nothing in its places.
    fn new_segment(&self, exponent: u32, number: u32) -> Result<Segment<K, V, F, A>, AllocError>
        requires table { exponent < most_exponent }
        requires within { number * segment_places < 2 ^ exponent }
        ensures { IfOk result
            (λ r. IsSegment self.now (2 ^ exponent + number * segment_places)
            (min (2 ^ exponent + number * segment_places) segment_places)
            r.places.table.shared.key.tag r.places.table.shared.table_id.slots) }
    {
        let places = self.new_places(exponent, number)?;
        Ok(Segment { places })
    }

    /// Makes the slots of a table's segments, if there are none yet.
    pub(crate) fn keep_parts(&self, exponent: u32) -> Result<(), AllocError>
        requires { exponent < most_exponent }
    {
        if self.table(exponent).is_none() {
            let table = self.new_segments(exponent)?;
            drop(self.tables[exponent as usize].set_written(table));
            self.widest.fetch_max(u64::from(exponent) + 1, SeqCst);
        }
        Ok(())
    }

    /// Makes a segment, if there is none yet.
    fn keep_segment(&self, exponent: u32, number: u32) -> Result<(), AllocError>
        requires table { exponent < most_exponent }
        requires within { number * segment_places < 2 ^ exponent }
    {
        if self.segment(exponent, number).is_none() {
            let segment = self.new_segment(exponent, number)?;
            if let Some(table) = self.table(exponent) {
                drop(table.segments[number as usize].set_written(segment));
            }
        }
        Ok(())
    }

    /// The place of an index. Its segment is made where there is none yet. Errors: `NoMemory`, and
    /// `Busy` where another thread is at work on the segment.
    pub(crate) fn try_slot_ref_for(&self, index: u32) -> Result<SlotRef<'_, K, V, F, A>, Refused>
        requires { index < most_bins }
        ensures { IfOk result
            (λ s. IsSlotRefOf self.now index s.rows.now.table.shared.key.tag
            s.rows.now.table.shared.table_id.slots s.at) }
    {
        if let Some(slot_ref) = self.slot_ref(index) {
            return Ok(slot_ref);
        }
        if index >= self.n {
            let exponent = index.ilog2();
            self.keep_parts(exponent)?;
            self.keep_segment(exponent, (index - (1u32 << exponent)) / SEGMENT)?;
        }
        self.slot_ref(index).ok_or(Refused::Busy)
    }

    /// Makes the slots of the segments of the table of this many bins, a power of two from 1 to 2^26,
    /// if there are none yet: so many bins the map can then be moved to. A table needs no other
    /// memory until its bins come. It waits for nobody.
    ///
    /// # Errors
    ///
    /// `NoMemory`, and then there are none.
    pub fn try_widen(&self, size: u32) -> Result<(), Refused>
        requires { IsTableSize size }
    {
        if size > 1 {
            self.keep_parts((size - 1).ilog2())?;
        }
        Ok(())
    }
}
