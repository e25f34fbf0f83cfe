//! A table of places.
ghost use Rattle.std.specs.Prelude.{◌≡◌, ◌≢◌, ℕ, ◌+◌, ◌*◌, ◌^◌, ◌<◌, length, IfOk, IfSome, IsSomeAnd};
ghost use Rattle.lock_table.specs.Places.{word_of, present};
ghost use Rattle.lock_table.specs.Taken.{taken};
ghost use lib.ListN.{get_elem?};
ghost use mathlib.Core.Option.{some};

use crate::held::SlotGuard;
use crate::terms::{Fits, OfPlaces, Sitting, Taking, Terms};
use atomic_table::{Refused, Table};
use std::alloc::{AllocError, Allocator};

/// The word of a place where nothing stands.
pub(crate) const ABSENT: u64 = 0;

/// The word of a place where a value stands is this and four times its kind.
pub(crate) const PRESENT: u64 = 1;

/// The word of a place that is held.
pub(crate) const HELD: u64 = 2;

/// What a look at a place shows.
#[derive(Clone, Copy, PartialEq, Eq, Debug)]
pub enum Glance {
    Absent,
    Present(u32),
    Held,
}

/// Values at the places of a table. Each may be absent, present or held.
#[derive(Drop)]
pub struct LockedSlots<X: Fits, A: Allocator> {
    pub(crate) table: Table<X, Terms<X::Tag>, Terms<X::Tag>, OfPlaces, A>,
    pub(crate) stride: usize,
    ghost strided: { stride ≡ table.shared.key.stride },
    ghost some: { 0 < stride },
    ghost words: { table.shared.table_id.words ≡ 8 + table.shared.table_id.slots * stride },
    ghost few: { table.shared.table_id.words < 2 ^ 63 },
}

impl<X: Fits, A: Allocator> LockedSlots<X, A> {
    /// The word of a place.
    #[inline(always)]
    pub(crate) fn word_at(&self, at: usize) -> usize
        requires { at < self.now.table.shared.table_id.slots }
        ensures is { result ≡ word_of self.now.table.shared.key.stride at }
        ensures within { result < self.now.table.shared.table_id.words }
    {
        8 + at * self.stride
    }

    /// One try for the value under a word.
    #[inline(always)]
    fn try_word(&self, at: usize, expected: u64) -> Option<SlotGuard<'_, X, A>>
        requires at { at < self.now.table.shared.table_id.slots }
        requires word { expected ≢ 2 }
        ensures rows { IfSome result (λ h. h.rows.now ≡ self.now) }
        ensures at { IfSome result (λ h. h.at ≡ at) }
        ensures fits { IfSome result (λ h. IsSomeAnd (taken h.seat.me.1)
            (λ x. (kind : ℕ) → expected ≡ present kind →
            X.fits self.now.table.shared.key.tag at kind x)) }
    {
        let word = self.word_at(at);
        let (_, mut seat) = self.table.shared.load_new_seat::<Sitting>(0);
        let found = self
            .table
            .shared
            .compare_exchange::<Taking>(&mut seat, word, expected, HELD);
        if found != expected {
            return None;
        }
        Some(SlotGuard {
            rows: self,
            at,
            word,
            seat,
        })
    }

    /// One try for the value of a kind at a place.
    #[inline(always)]
    pub fn try_hold(&self, at: usize, kind: u32) -> Option<SlotGuard<'_, X, A>>
        requires { at < self.now.table.shared.table_id.slots }
        ensures rows { IfSome result (λ h. h.rows.now ≡ self.now) }
        ensures at { IfSome result (λ h. h.at ≡ at) }
        ensures fits { IfSome result (λ h. IsSomeAnd (taken h.seat.me.1)
            (X.fits self.now.table.shared.key.tag at kind)) }
    {
        self.try_word(at, PRESENT + 4 * u64::from(kind))
    }

    /// One try for a place where nothing stands. What it holds is what was left there.
    pub fn try_begin(&self, at: usize) -> Option<SlotGuard<'_, X, A>>
        requires { at < self.now.table.shared.table_id.slots }
        ensures rows { IfSome result (λ h. h.rows.now ≡ self.now) }
        ensures at { IfSome result (λ h. h.at ≡ at) }
    {
        self.try_word(at, ABSENT)
    }

    /// What stood at a place a moment ago.
    pub fn glance(&self, at: usize) -> Glance
        requires { at < self.now.table.shared.table_id.slots }
    {
        let word = self.table.shared.peek(self.word_at(at));
        if word == ABSENT {
            Glance::Absent
        } else if word % 4 == PRESENT {
            Glance::Present((word / 4 % (1 << 32)) as u32)
        } else {
            Glance::Held
        }
    }
}

impl<X: Fits + Drop, A: Allocator + Clone> LockedSlots<X, A>
where
    X::Tag: Drop,
{
    /// A table of these values under one word.
    fn of(
        alloc: &A,
        terms: Terms<X::Tag>,
        word: u64,
        values: Vec<X, A>,
    ) -> Result<LockedSlots<X, A>, AllocError>
        requires stride { 0 < terms.stride }
        requires few { 8 + length values.items * terms.stride < 2 ^ 60 }
        requires word { word ≢ 2 }
        requires fits { (at kind : ℕ) (x : X) → word ≡ present kind
            → get_elem? values.items at ≡ some x → X.fits terms.tag at kind x }
        ensures count { IfOk result (λ r. r.table.shared.table_id.slots ≡ length values.items) }
        ensures terms { IfOk result (λ r. r.table.shared.key ≡ terms) }
    {
        let stride = terms.stride;
        let words = Vec::from_elem(alloc.clone()?, word, 8 + values.len() * stride)?;
        match Table::new(alloc.clone()?, &words, values, &terms) {
            Ok((table, seat)) => {
                drop(seat);
                Ok(LockedSlots { table, stride })
            }
            Err(refused) => {
                drop(refused);
                Err(AllocError)
            }
        }
    }

    /// A table where nothing stands. What is passed lies at its places meanwhile.
    pub fn absent(
        alloc: &A,
        terms: Terms<X::Tag>,
        blanks: Vec<X, A>,
    ) -> Result<LockedSlots<X, A>, AllocError>
        requires stride { 0 < terms.stride }
        requires few { 8 + length blanks.items * terms.stride < 2 ^ 60 }
        ensures count { IfOk result (λ r. r.table.shared.table_id.slots ≡ length blanks.items) }
        ensures terms { IfOk result (λ r. r.table.shared.key ≡ terms) }
    {
        LockedSlots::of(alloc, terms, ABSENT, blanks)
    }

    /// A table of values of one kind, each of which fits its place.
    pub fn present(
        alloc: &A,
        terms: Terms<X::Tag>,
        kind: u32,
        values: Vec<X, A>,
    ) -> Result<LockedSlots<X, A>, AllocError>
        requires stride { 0 < terms.stride }
        requires few { 8 + length values.items * terms.stride < 2 ^ 60 }
        requires fits { (at : ℕ) (x : X) → get_elem? values.items at ≡ some x → X.fits terms.tag at kind x }
        ensures count { IfOk result (λ r. r.table.shared.table_id.slots ≡ length values.items) }
        ensures terms { IfOk result (λ r. r.table.shared.key ≡ terms) }
    {
        LockedSlots::of(alloc, terms, PRESENT + 4 * u64::from(kind), values)
    }
}
