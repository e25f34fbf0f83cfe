//! Bins that are held, by value or where they lie.
ghost use Rattle.std.specs.Prelude.{◌≡◌, ◌+◌, ◌<◌, ◌≤◌, ◌^◌, ◌%◌, true, IfSome, IsSomeAnd};
ghost use Rattle.hashkeys.specs.Classes.{covers};
ghost use Rattle.hashkeys.specs.Limits.{most_exponent};
ghost use Rattle.bin_history.specs.Calls.{after};
ghost use Rattle.bin_history.specs.Lawful.{IsLawful};
ghost use Rattle.lock_table.specs.Taken.{taken};
ghost use Rattle.bin_layout.specs.Places.{AreAt};
ghost use Rattle.bin_layout.specs.Views.{IsPlaceOf, place_of};
ghost use Rattle.lean_bins.specs.Holding.{IsTakenFrom};
ghost use Rattle.lean_bins.specs.Homes.{IsSlotRefOf};
ghost use Rattle.lean_bins.specs.BinSlot.{IsInSlot};
ghost use Rattle.lean_bins.specs.Segments.{class_at, home_of};

use crate::bins::{LeanBins, MOST_EXPONENT, SlotRef};
use crate::slot::BinSlot;
use bin_history::{Bin, Remap, Value};
use count_ledger::BinRole;
use crossbeam_utils::Backoff;
use hashkeys::{Class, HashKey};
use lock_table::Glance;
use std::alloc::Allocator;
use std::sync::Wait;

/// A place that is held. A bin and its role lie there, or were taken out and are put back there.
/// Nobody else has either until it is released.
pub struct BinGuard<'a, K: HashKey, V: Value, F: Remap<K, V>, A: Allocator> {
    /// What lies there is lent by its `value`.
    pub inner: lock_table::SlotGuard<'a, BinSlot<K, V, F, A>, A>,
    /// The class of the bin's keys.
    pub class: Class,
    pub(crate) exponent: u32,
    /// The map that it is of.
    pub home: &'a LeanBins<K, V, F, A>,
    ghost from: { IsTakenFrom home.now class exponent inner.rows.now.table.shared.key.tag inner.at },
}

/// A bin that is held, with its role. Nobody else has either until it is released.
pub struct Held<'a, K: HashKey, V: Value, F: Remap<K, V>, A: Allocator> {
    pub bin: Bin<K, V, F, A>,
    pub role: BinRole<K, V, F>,
    pub place: BinGuard<'a, K, V, F, A>,
}

/// The index of the hash among 2 to the exponent.
#[inline(always)]
pub(crate) fn index_among(hash: u32, exponent: u32) -> u32
    requires { exponent ≤ most_exponent }
    ensures value { result ≡ hash % 2 ^ exponent }
    ensures below { result < 2 ^ exponent }
{
    hash & ((1u32 << exponent) - 1)
}

impl<K: HashKey, V: Value, F: Remap<K, V>, A: Allocator + Clone> LeanBins<K, V, F, A> {
    /// One try for the bin of a class at its place, where it stays.
    #[inline(always)]
    fn try_at<'a>(
        &'a self,
        slot_ref: SlotRef<'a, K, V, F, A>,
        exponent: u32,
        index: u32,
    ) -> Option<BinGuard<'a, K, V, F, A>>
        requires slot_ref { IsSlotRefOf self.now index slot_ref.rows.now.table.shared.key.tag
            slot_ref.rows.now.table.shared.table_id.slots slot_ref.at }
        requires few { exponent ≤ most_exponent }
        requires class { index < 2 ^ exponent }
        ensures class { IfSome result (λ t. t.class ≡ class_at index exponent) }
        ensures lies { IfSome result (λ t. IsSomeAnd (taken t.inner.seat.me.1)
            (IsInSlot K.eq (after V.eq F.remapped F.merged) (place_of t.home.now t.class))) }
        ensures of_map { IfSome result (λ t. IsPlaceOf self.now (place_of t.home.now t.class)) }
        ensures home { IfSome result (λ t. t.home.now ≡ self.now) }
    {
        let SlotRef { rows, at } = slot_ref;
        let inner = rows.try_hold(at, exponent)?;
        let class = Class::new(1u32 << exponent, index);
        Some(BinGuard {
            inner,
            class,
            exponent,
            home: self,
        })
    }

    /// Locks the bin of the hash where it lies, if that is the place where a bin most often is and nobody
    /// has it just then; or returns none. It waits for nobody.
    #[inline(always)]
    pub fn try_hold_widest(&self, hash: u32) -> Option<BinGuard<'_, K, V, F, A>>
        ensures lies { IfSome result (λ t. IsSomeAnd (taken t.inner.seat.me.1)
            (IsInSlot K.eq (after V.eq F.remapped F.merged) (place_of t.home.now t.class))) }
        ensures covers { IfSome result (λ t. covers t.class hash ≡ true) }
        ensures of_map { IfSome result (λ t. IsPlaceOf self.now (place_of t.home.now t.class)) }
        ensures home { IfSome result (λ t. t.home.now ≡ self.now) }
    {
        let exponent = self.widest();
        let index = index_among(hash, exponent);
        self.try_at(self.slot_ref(index)?, exponent, index)
    }

    /// Locks the bin of the hash where it lies, or returns none where another thread has it just
    /// then. It waits for nobody. It first tries the place where the bin most often is.
    #[inline(always)]
    pub fn try_hold_in_place(&self, hash: u32) -> Option<BinGuard<'_, K, V, F, A>>
        ensures lies { IfSome result (λ t. IsSomeAnd (taken t.inner.seat.me.1)
            (IsInSlot K.eq (after V.eq F.remapped F.merged) (place_of t.home.now t.class))) }
        ensures covers { IfSome result (λ t. covers t.class hash ≡ true) }
        ensures of_map { IfSome result (λ t. IsPlaceOf self.now (place_of t.home.now t.class)) }
        ensures home { IfSome result (λ t. t.home.now ≡ self.now) }
    {
        match self.try_hold_widest(hash) {
            Some(taken) => Some(taken),
            None => self.try_hold_elsewhere(hash),
        }
    }

    /// Does what `try_hold_found` does, and is inlined, as `hold_elsewhere` is.
    #[inline(always)]
    fn try_hold_elsewhere(&self, hash: u32) -> Option<BinGuard<'_, K, V, F, A>>
        ensures lies { IfSome result (λ t. IsSomeAnd (taken t.inner.seat.me.1)
            (IsInSlot K.eq (after V.eq F.remapped F.merged) (place_of t.home.now t.class))) }
        ensures covers { IfSome result (λ t. covers t.class hash ≡ true) }
        ensures of_map { IfSome result (λ t. IsPlaceOf self.now (place_of t.home.now t.class)) }
        ensures home { IfSome result (λ t. t.home.now ≡ self.now) }
    {
        self.try_hold_found(hash)
    }

    /// Locks the bin of the hash at the place where it is found, or returns none where another thread
    /// has it just then. It waits for nobody. It is not inlined.
    #[cold]
    #[inline(never)]
    pub fn try_hold_found(&self, hash: u32) -> Option<BinGuard<'_, K, V, F, A>>
        ensures lies { IfSome result (λ t. IsSomeAnd (taken t.inner.seat.me.1)
            (IsInSlot K.eq (after V.eq F.remapped F.merged) (place_of t.home.now t.class))) }
        ensures covers { IfSome result (λ t. covers t.class hash ≡ true) }
        ensures of_map { IfSome result (λ t. IsPlaceOf self.now (place_of t.home.now t.class)) }
        ensures home { IfSome result (λ t. t.home.now ≡ self.now) }
    {
        let (index, slot_ref, seen) = self.find(hash);
        let Glance::Present(exponent) = seen else {
            return None;
        };
        if exponent > MOST_EXPONENT || index_among(hash, exponent) != index {
            return None;
        }
        self.try_at(slot_ref, exponent, index)
    }

    /// Waits for the bin of the hash, and holds it where it lies.
    #[inline(always)]
    pub fn hold_in_place<R: Wait>(&self, rt: &R, hash: u32) -> BinGuard<'_, K, V, F, A>
        ensures lies { IsSomeAnd (taken result.inner.seat.me.1)
            (IsInSlot K.eq (after V.eq F.remapped F.merged) (place_of result.home.now result.class)) }
        ensures covers { covers result.class hash ≡ true }
        ensures of_map { IsPlaceOf self.now (place_of result.home.now result.class) }
        ensures home { result.home.now ≡ self.now }
    {
        match self.try_hold_widest(hash) {
            Some(taken) => taken,
            None => self.hold_elsewhere(rt, hash),
        }
    }

    /// Does what `hold_found` does, and is inlined: what that function returns lies in memory then on this
    /// way alone, and not where the bin is found at once.
    #[inline(always)]
    fn hold_elsewhere<R: Wait>(&self, rt: &R, hash: u32) -> BinGuard<'_, K, V, F, A>
        ensures lies { IsSomeAnd (taken result.inner.seat.me.1)
            (IsInSlot K.eq (after V.eq F.remapped F.merged) (place_of result.home.now result.class)) }
        ensures covers { covers result.class hash ≡ true }
        ensures of_map { IsPlaceOf self.now (place_of result.home.now result.class) }
        ensures home { result.home.now ≡ self.now }
    {
        self.hold_found(rt, hash)
    }

    /// Waits for the bin of the hash where it is found, and holds it there. It is not inlined.
    #[cold]
    #[inline(never)]
    pub fn hold_found<R: Wait>(&self, rt: &R, hash: u32) -> BinGuard<'_, K, V, F, A>
        ensures lies { IsSomeAnd (taken result.inner.seat.me.1)
            (IsInSlot K.eq (after V.eq F.remapped F.merged) (place_of result.home.now result.class)) }
        ensures covers { covers result.class hash ≡ true }
        ensures of_map { IsPlaceOf self.now (place_of result.home.now result.class) }
        ensures home { result.home.now ≡ self.now }
    {
        let backoff = Backoff::new();
        for _ in rt.forever() {
            if let Some(taken) = self.try_hold_found(hash) {
                return taken;
            }
            backoff.snooze();
        }
        unreachable!()
    }

    /// Holds the bin of the hash, or none where another thread has it just then. It waits for
    /// nobody.
    pub fn try_hold(&self, hash: u32) -> Option<Held<'_, K, V, F, A>>
        ensures at { IfSome result (λ h. AreAt K.eq (after V.eq F.remapped F.merged)
            (place_of h.place.home.now h.place.class) h.bin h.role) }
        ensures covers { IfSome result (λ h. covers h.bin.class hash ≡ true) }
        ensures lawful { IfSome result
            (λ h. IsLawful K.eq K.code (after V.eq F.remapped F.merged) h.bin) }
        ensures of_map { IfSome result
            (λ h. IsPlaceOf self.now (place_of h.place.home.now h.place.class)) }
        ensures home { IfSome result (λ h. h.place.home.now ≡ self.now) }
    {
        let taken = self.try_hold_found(hash)?;
        Some(taken.take_out())
    }

    /// Holds the bin of the class, or the one that its index has in place of it, or none where another
    /// thread has it just then. It waits for nobody. It first tries the place where a bin of the class lies.
    pub(crate) fn try_hold_of(&self, class: Class) -> Option<Held<'_, K, V, F, A>>
        ensures at { IfSome result (λ h. AreAt K.eq (after V.eq F.remapped F.merged)
            (place_of h.place.home.now h.place.class) h.bin h.role) }
        ensures lawful { IfSome result
            (λ h. IsLawful K.eq K.code (after V.eq F.remapped F.merged) h.bin) }
        ensures of_map { IfSome result
            (λ h. IsPlaceOf self.now (place_of h.place.home.now h.place.class)) }
        ensures home { IfSome result (λ h. h.place.home.now ≡ self.now) }
    {
        match self.try_class(class) {
            Some(taken) => Some(taken.take_out()),
            None => self.try_hold(class.index()),
        }
    }

    /// One try for the bin of the class at the place of its index.
    #[inline(always)]
    fn try_class(&self, class: Class) -> Option<BinGuard<'_, K, V, F, A>>
        ensures lies { IfSome result (λ t. IsSomeAnd (taken t.inner.seat.me.1)
            (IsInSlot K.eq (after V.eq F.remapped F.merged) (place_of t.home.now t.class))) }
        ensures of_map { IfSome result (λ t. IsPlaceOf self.now (place_of t.home.now t.class)) }
        ensures home { IfSome result (λ t. t.home.now ≡ self.now) }
    {
        let exponent = class.n().ilog2();
        let index = class.index();
        self.try_at(self.slot_ref(index)?, exponent, index)
    }

    /// Waits for the bin of the hash, and holds it.
    pub fn hold<R: Wait>(&self, rt: &R, hash: u32) -> Held<'_, K, V, F, A>
        ensures at { AreAt K.eq (after V.eq F.remapped F.merged)
            (place_of result.place.home.now result.place.class) result.bin result.role }
        ensures covers { covers result.bin.class hash ≡ true }
        ensures lawful { IsLawful K.eq K.code (after V.eq F.remapped F.merged) result.bin }
        ensures of_map { IsPlaceOf self.now
            (place_of result.place.home.now result.place.class) }
        ensures home { result.place.home.now ≡ self.now }
    {
        let place = self.hold_found(rt, hash);
        place.take_out()
    }
}

impl<'a, K: HashKey, V: Value, F: Remap<K, V>, A: Allocator + Clone> BinGuard<'a, K, V, F, A> {
    /// Takes the bin and its role out of their place.
    fn take_out(self) -> Held<'a, K, V, F, A>
        requires { IsSomeAnd (taken self.inner.seat.me.1)
            (IsInSlot K.eq (after V.eq F.remapped F.merged) (place_of self.home.now self.class)) }
        ensures at { AreAt K.eq (after V.eq F.remapped F.merged)
            (place_of result.place.home.now result.place.class) result.bin result.role }
        ensures lawful { IsLawful K.eq K.code (after V.eq F.remapped F.merged) result.bin }
        ensures class { result.place.class ≡ self.entry.class }
        ensures home { result.place.home.now ≡ self.entry.home.now }
    {
        let BinGuard {
            mut inner,
            class,
            exponent,
            home,
        } = self;
        let salt = home.salt();
        let bin_slot = inner.replace(BinSlot::nothing(salt, class));
        let (bin, role) = bin_slot.into_bin(salt, class);
        bin.lawful();
        Held {
            bin,
            role,
            place: BinGuard {
                inner,
                class,
                exponent,
                home,
            },
        }
    }

    /// Gives what lies there back: a bin of the class and its role, which agree. It waits for
    /// nobody.
    #[inline(always)]
    pub fn release(self)
        requires { IsSomeAnd (taken self.inner.seat.me.1)
            (IsInSlot K.eq (after V.eq F.remapped F.merged) (place_of self.home.now self.class)) }
    {
        let BinGuard {
            inner,
            class: _,
            exponent,
            home: _,
        } = self;
        inner.release(exponent);
    }
}

/// Puts a bin and its role at a place that is held, as one of 2 to the exponent.
#[inline(always)]
pub(crate) fn give_back<K: HashKey, V: Value, F: Remap<K, V>, A: Allocator + Clone>(
    inner: lock_table::SlotGuard<'_, BinSlot<K, V, F, A>, A>,
    exponent: u32,
    bin: Bin<K, V, F, A>,
    role: BinRole<K, V, F>,
)
    requires at { AreAt K.eq (after V.eq F.remapped F.merged)
        (place_of (home_of inner.rows.now.table.shared.key.tag)
        (class_at (inner.rows.now.table.shared.key.tag.first + inner.at) exponent)) bin role }
    requires least { inner.rows.now.table.shared.key.tag.n ≤ 2 ^ exponent }
{
    let mut held = inner;
    drop(held.replace(BinSlot::of(bin, role)));
    held.release(exponent);
}

impl<'a, K: HashKey, V: Value, F: Remap<K, V>, A: Allocator + Clone> BinGuard<'a, K, V, F, A> {
    /// Puts the bin and its role, which were taken out, back to their place. It waits for nobody.
    #[inline(always)]
    pub fn put_back(self, bin: Bin<K, V, F, A>, role: BinRole<K, V, F>)
        requires { AreAt K.eq (after V.eq F.remapped F.merged) (place_of self.home.now self.class)
            bin role }
    {
        let BinGuard {
            inner,
            class: _,
            exponent,
            home: _,
        } = self;
        give_back(inner, exponent, bin, role);
    }

    /// Leaves nothing at the place, for good.
    pub(crate) fn leave(self) {
        let BinGuard {
            inner,
            class,
            exponent: _,
            home,
        } = self;
        drop(inner.take(BinSlot::nothing(home.salt(), class)));
    }
}

impl<'a, K: HashKey, V: Value, F: Remap<K, V>, A: Allocator + Clone> Held<'a, K, V, F, A> {
    /// Gives the bin and its role back. They agree, and are of the class and the ledger that were
    /// held. It waits for nobody.
    #[inline(always)]
    pub fn release(self)
        requires { AreAt K.eq (after V.eq F.remapped F.merged)
            (place_of self.place.home.now self.place.class) self.bin self.role }
    {
        let Held { bin, role, place } = self;
        place.put_back(bin, role);
    }
}
