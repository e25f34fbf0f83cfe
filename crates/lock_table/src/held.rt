//! A value that is held.
ghost use Rattle.std.specs.Prelude.{◌≡◌, ℕ, ◌<◌, [], ◌∷◌, IsSomeAnd};
ghost use Rattle.lock_table.specs.Places.{word_of};
ghost use Rattle.lock_table.specs.Taken.{taken, places};

use crate::locked_slots::{ABSENT, LockedSlots, PRESENT};
use crate::terms::{Fits, Giving, Terms};
use atomic_table::Seat;
use std::alloc::Allocator;
use std::mem;

/// A value that is held. Nobody else has it until it is released.
pub struct SlotGuard<'a, X: Fits, A: Allocator> {
    pub rows: &'a LockedSlots<X, A>,
    pub at: usize,
    /// Where the word of the place lies, so that giving the value back computes nothing.
    pub(crate) word: usize,
    pub(crate) seat: Seat<X, Terms<X::Tag>>,
    ghost within: { at < rows.now.table.shared.table_id.slots },
    ghost seated: { seat.table_id ≡ rows.now.table.shared.table_id },
    ghost holds: { places seat.me.1 ≡ at ∷ [] },
    ghost worded: { word ≡ word_of rows.now.table.shared.key.stride at },
    ghost below: { word < rows.now.table.shared.table_id.words },
}

impl<'a, X: Fits, A: Allocator> SlotGuard<'a, X, A> {
    ghost use Rattle.std.specs.Prelude.{Some};
    ghost use Rattle.std.specs.Borrow.{sem, Lends};
    ghost use mir.Syntax.{named};
    ghost use Rattle.lock_table.specs.Lending.{with_value};
    ghost use Rattle.lock_table.specs.contracts.held.SlotGuard.{the_row};

    /// The value. When the borrow ends, what was left there is held.
    #[inline(always)]
    pub fn value(&mut self) -> &mut X
        ensures* writes_back { sem 𝓛
            (Lends (the_row (record { mir = named 1; lft = [] }) X.row A.row X.Tag.row X.Fits A.Allocator)
            X.row self.entry result (with_value self.old)) }
        ensures value { taken self.old.seat.me.1 ≡ Some result.now }
    {
        let rows: &'a LockedSlots<X, A> = self.rows;
        let at = self.at;
        let seat = &mut self.seat;
        seat.slot_mut(&rows.table.shared, at)
    }

    /// Leaves another value in its place, which is then held.
    #[inline(always)]
    pub fn replace(&mut self, value: X) -> X
        ensures found { taken self.old.seat.me.1 ≡ Some result }
        ensures left { taken self.new.seat.me.1 ≡ Some value }
        ensures rows { self.new.rows ≡ self.old.rows }
        ensures at { self.new.at ≡ self.old.at }
    {
        mem::replace(self.value(), value)
    }

    /// Gives it back, as a value of this kind, which it fits.
    #[inline(always)]
    pub fn release(self, kind: u32)
        requires { IsSomeAnd (taken self.seat.me.1) (X.fits self.rows.now.table.shared.key.tag self.at kind) }
    {
        let SlotGuard {
            rows,
            at: _,
            word,
            mut seat,
        } = self;
        rows.table
            .shared
            .store::<Giving>(&mut seat, word, PRESENT + 4 * u64::from(kind));
    }

    /// Takes it for good, and leaves another in its place, which is then absent.
    pub fn take(self, blank: X) -> X
        ensures { IsSomeAnd (taken self.entry.seat.me.1) (λ x. result ≡ x) }
    {
        let SlotGuard {
            rows,
            at,
            word,
            mut seat,
        } = self;
        let taken = rows.table.shared.exchange(&mut seat, at, blank);
        rows.table.shared.store::<Giving>(&mut seat, word, ABSENT);
        taken
    }
}
