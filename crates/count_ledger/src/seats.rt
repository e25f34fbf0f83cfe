//! The steps of a ledger, on its seats.
ghost use Rattle.std.specs.Prelude.{◌≡◌, ℕ, ◌+◌, ◌%◌, ◌^◌, ◌<◌, Some, List, [], ◌∷◌, ◌++◌};
ghost use Rattle.std.specs.Prelude.{slice_index};
ghost use Rattle.count_ledger.specs.Steps.{Keeps, IsTold, books_with_record, first_of, rest_of};
ghost use Rattle.count_ledger.specs.Steps.{only_view, seen_by};
ghost use Rattle.count_ledger.specs.Words.{word_of};
ghost use Rattle.bin_history.specs.Calls.{after};
ghost use Rattle.bin_history.specs.Deltas.{delta};
ghost use Rattle.bin_history.specs.Records.{RecordView};

use crate::books::{Books, View};
use crate::steps::{KeepFirst, KeepSeen, StepTerms, Tells, Together};
use atomic_table::{Badge, Seat};
use bin_history::{Posting, Remap};
use hashkeys::HashKey;
use std::alloc::Allocator;
use std::mem;

/// Reads a word, and tells what the rule says of the seat's books. They may change with it, by the
/// calls so far.
#[inline(always)]
pub(crate) fn look<K: HashKey, V: Eq, F: Remap<K, V>, A: Allocator, T: StepTerms<K, V, F>>(
    shared: &Books<K, V, F, A>,
    seat: &mut Seat<(), View<K, V, F>>,
    word: usize,
) -> u64
    requires terms { T.terms ≡ Some shared.now.key }
    requires seat { seat.old.table_id ≡ shared.now.table_id }
    requires word { word < shared.now.table_id.words }
    requires rule { Keeps K.code K.eq (after V.eq F.remapped F.merged) shared.now.key seat.old.id
        seat.old.me.0 word (λ n. n) T.change }
    ensures seat { seat.new.table_id ≡ seat.old.table_id }
    ensures told { (words : List ℕ) × (calls : List (RecordView K V F))
        × (result ≡ slice_index words word)
        × (seat.new.me ≡ (T.change calls seat.old.me.0, seat.old.me.1))
        × IsTold K.code K.eq (after V.eq F.remapped F.merged) shared.now.key words calls
        seat.old.me.0 }
{
    shared.load::<Tells<T>>(seat, word)
}

/// Adds the delta of a call to a word, or loads word 0 where the delta is 0, while the seat's books
/// get its record, and tells what the rule said of them before. It returns the delta, as a 64-bit
/// two's complement number.
#[inline(always)]
pub(crate) fn add_delta<K: HashKey, V: Eq, F: Remap<K, V>, A: Allocator, T: StepTerms<K, V, F>>(
    shared: &Books<K, V, F, A>,
    seat: &mut Seat<(), View<K, V, F>>,
    word: usize,
    entry: &Posting<K, V, F>,
) -> u64
    requires terms { T.terms ≡ Some shared.now.key }
    requires change { T.change ≡ books_with_record entry.now }
    requires seat { seat.old.table_id ≡ shared.now.table_id }
    requires word { word < shared.now.table_id.words }
    requires rule { Keeps K.code K.eq (after V.eq F.remapped F.merged) shared.now.key seat.old.id
        seat.old.me.0 word (λ n. (n + word_of (delta entry.now)) % 2 ^ 64)
        (books_with_record entry.now) }
    requires idle { word_of (delta entry.now) ≡ 0 → Keeps K.code K.eq
        (after V.eq F.remapped F.merged) shared.now.key seat.old.id seat.old.me.0 0 (λ n. n)
        (books_with_record entry.now) }
    ensures delta { result ≡ word_of (delta entry.now) }
    ensures seat { seat.new.table_id ≡ seat.old.table_id }
    ensures told { (words : List ℕ) × (calls : List (RecordView K V F))
        × (seat.new.me ≡ (books_with_record entry.now calls seat.old.me.0, seat.old.me.1))
        × IsTold K.code K.eq (after V.eq F.remapped F.merged) shared.now.key words calls
        seat.old.me.0 }
{
    let delta = entry.delta().cast_unsigned();
    if delta == 0 {
        look::<K, V, F, A, T>(shared, seat, 0);
    } else {
        shared.fetch_add::<Tells<T>>(seat, word, delta);
    }
    delta
}

/// Puts the badge's books behind the seat's, and leaves the badge blank.
#[inline(always)]
pub(crate) fn join<K: HashKey, V: Eq, F: Remap<K, V>, A: Allocator>(
    shared: &Books<K, V, F, A>,
    seat: &mut Seat<(), View<K, V, F>>,
    badge: &mut Badge<View<K, V, F>>,
)
    requires seat { seat.old.table_id ≡ shared.now.table_id }
    requires badge { badge.old.table_id ≡ shared.now.table_id }
    requires words { 0 < shared.now.table_id.words }
    requires view { badge.old.views ≡ only_view badge.old.views ∷ [] }
    ensures seat { seat.new.table_id ≡ seat.old.table_id }
    ensures books { seat.new.me ≡ (seat.old.me.0 ++ only_view badge.old.views, seat.old.me.1) }
{
    let other = mem::replace(badge, Badge::blank());
    shared.join_seat::<Together>(seat, other.into_seat());
}

/// Leaves the seat its first book, and gives the others to the badge.
#[inline(always)]
pub(crate) fn part<K: HashKey, V: Eq, F: Remap<K, V>, A: Allocator>(
    shared: &Books<K, V, F, A>,
    seat: &mut Seat<(), View<K, V, F>>,
    badge: &mut Badge<View<K, V, F>>,
)
    requires seat { seat.old.table_id ≡ shared.now.table_id }
    requires words { 0 < shared.now.table_id.words }
    ensures seat { seat.new.table_id ≡ seat.old.table_id }
    ensures books { seat.new.me ≡ (first_of seat.old.me.0, seat.old.me.1) }
    ensures badge { badge.new.table_id ≡ seat.old.table_id }
    ensures others { badge.new.views ≡ rest_of seat.old.me.0 ∷ [] }
{
    *badge = shared.split_seat::<KeepFirst>(seat).into_badge();
}

/// A badge with a moment's book: what the seat's first book has seen. The seat stays as it is.
pub(crate) fn show<K: HashKey, V: Eq, F: Remap<K, V>, A: Allocator>(
    shared: &Books<K, V, F, A>,
    seat: &mut Seat<(), View<K, V, F>>,
) -> Badge<View<K, V, F>>
    requires seat { seat.old.table_id ≡ shared.now.table_id }
    requires words { 0 < shared.now.table_id.words }
    ensures seat { seat.new.table_id ≡ seat.old.table_id }
    ensures same { seat.new.me ≡ seat.old.me }
    ensures badge { result.table_id ≡ seat.old.table_id }
    ensures seen { result.views ≡ seen_by seat.old.me.0 ∷ [] }
{
    shared.split_seat::<KeepSeen>(seat).into_badge()
}
