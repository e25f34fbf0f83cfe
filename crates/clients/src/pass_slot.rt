//! Pass slots, each for the pass of one client, in rows that are made as they are needed.
ghost use Rattle.std.specs.Prelude.{◌≡◌, ◌+◌, ◌*◌, ◌≤◌, ◌<◌, ◌^◌, ◌∷◌, ℕ, List, IfOk, IfSome, length, slice_index_or};
ghost use Rattle.bin_history.specs.Limits.{most_lean_clients};
ghost use Rattle.count_ledger.specs.Names.{numbers_of};
ghost use Rattle.clients.specs.PassPools.{ArePassSlots, AreRows};

use crate::slot::{Slot, Waits};
use boxcar::slot::{OnceSlot, SlotRule, Written};
use boxcar::tag::{Names, Tag};
use chm::{Pass, Roster};
use std::alloc::{AllocError, Allocator};
use std::marker::Model;
use std::sync::atomic::{AtomicU64, Ordering};

/// How many pass slots the first row has. Each other row has twice as many as the one before, so a row
/// of n pass slots begins with the pass slot of client n - 8.
const FIRST: u32 = 8;

/// How many rows there are. They are enough for 65,536 clients.
const ROWS: u32 = 14;

/// What stands below a pass slot that is not in the stack of those whose pass is in.
const NOT_IN: u64 = 4_294_967_296;

/// What stands below a pass slot whose pass came back full. It is not in the stack either.
const FULL: u64 = 4_294_967_297;

impl<K, V, F> Waits for Pass<K, V, F> {
    ghost use Rattle.std.specs.Prelude.{◌∷◌};
    ghost use Rattle.count_ledger.specs.Names.{numbers_of};

    ghost numbers = { λ p. p.client ∷ numbers_of p.ledger };

    fn end(self) {
        self.retire();
    }
}

impl<K, V, F> Waits for Roster<K, V, F> {
    ghost use Rattle.std.specs.Prelude.{◌∷◌};
    ghost use Rattle.count_ledger.specs.Names.{numbers_of};

    ghost numbers = { λ r. r.clients ∷ numbers_of r.ledger };

    fn end(self) {
        drop(self);
    }
}

/// A pass slot for the pass of one client, and the number that stands below its own in the stack of those
/// whose pass is in. Contracts see the numbers of its pass.
#[derive(Drop)]
pub(crate) struct PassSlot<K, V, F> {
    slot: Slot<Pass<K, V, F>>,
    below: AtomicU64,
}

impl<K, V, F> Model for PassSlot<K, V, F> {
    ghost use Rattle.std.specs.Prelude.{List, ℕ};

    ghost Value = { List ℕ };

    ghost view = { λ c. c.slot };
}

impl<K, V, F> PassSlot<K, V, F> {
    /// A pass slot whose pass is out, and which is not in the stack.
    fn new(tag: &Tag) -> PassSlot<K, V, F>
        ensures { result ≡ tag.now.numbers }
    {
        PassSlot {
            slot: Slot::new(tag),
            below: AtomicU64::new(NOT_IN),
        }
    }

    /// Takes the pass out. Returns none where it is out already. It waits for nobody.
    pub(crate) fn take(&self) -> Option<Pass<K, V, F>>
        ensures { IfSome result (λ p. p.client ∷ numbers_of p.ledger ≡ self.now) }
    {
        self.slot.take()
    }

    /// Brings the pass back. It waits for nobody.
    pub(crate) fn put_back(&self, pass: Pass<K, V, F>)
        requires { pass.client ∷ numbers_of pass.ledger ≡ self.now }
    {
        self.slot.put_back(pass);
    }

    /// Whether the pass slot was not in the stack. It counts as in it from now on, so that one thread alone
    /// puts it there.
    pub(crate) fn claim(&self) -> bool {
        self.below
            .compare_exchange(NOT_IN, 0, Ordering::SeqCst, Ordering::SeqCst)
            .is_ok()
    }

    /// Whether the pass slot, which is not in the stack, was not known to be full. It is from now on, and
    /// never comes into the stack.
    pub(crate) fn fill(&self) -> bool {
        self.below
            .compare_exchange(NOT_IN, FULL, Ordering::SeqCst, Ordering::SeqCst)
            .is_ok()
    }

    /// The pass slot is not in the stack any more.
    pub(crate) fn leave(&self) {
        self.below.store(NOT_IN, Ordering::SeqCst);
    }

    /// The number that stands below this pass slot's.
    pub(crate) fn below(&self) -> u64 {
        self.below.load(Ordering::SeqCst)
    }

    /// Puts a number below this pass slot's.
    pub(crate) fn set_below(&self, number: u64) {
        self.below.store(number, Ordering::SeqCst);
    }
}

struct Numbered {
    number: u32,
    tag: Tag,
}

/// A number before those of a tag.
struct Before;

impl Names<Numbered> for Before {
    ghost use Rattle.std.specs.Prelude.{◌∷◌};

    ghost numbers = { λ x. x.number ∷ x.tag.numbers };
}

struct Same;

impl Names<Tag> for Same {
    ghost numbers = { λ t. t.numbers };
}

/// The tag's numbers behind this one.
pub(crate) fn with_number(number: u32, tag: &Tag) -> Tag
    ensures { result.numbers ≡ number ∷ tag.now.numbers }
{
    let tag = Tag::of::<Tag, Same>(tag);
    let numbered = Numbered { number, tag };
    let whole = Tag::of::<Numbered, Before>(&numbered);
    let Numbered { number: _, tag } = numbered;
    drop(tag);
    whole
}

/// Pass slots for so many clients from a number on, whose passes are out.
fn new_pass_slots<K, V, F, A: Allocator>(
    alloc: A,
    tag: &Tag,
    first: u32,
    len: u32,
) -> Result<Vec<PassSlot<K, V, F>, A>, AllocError>
    requires { first + len < 2 ^ 32 }
    ensures { IfOk result
        (λ pass_slots. ArePassSlots (first ∷ len ∷ tag.now.numbers) pass_slots.items) }
{
    let mut pass_slots = Vec::with_capacity(alloc, len as usize)?;
    for at in 0..len {
        pass_slots.push_reserved(PassSlot::new(&with_number(first + at, tag)));
    }
    Ok(pass_slots)
}

/// A row has so many pass slots, for the clients from its first on.
struct InRow;

impl<K, V, F, A: Allocator> SlotRule<Vec<PassSlot<K, V, F>, A>> for InRow {
    ghost use Rattle.clients.specs.PassPools.{ArePassSlots};

    ghost holds = { λ tag pass_slots. ArePassSlots tag pass_slots.items };
}

/// What shows that a row of pass slots is made.
pub(crate) type Made<K, V, F, A> = Written<Vec<PassSlot<K, V, F>, A>>;

/// A row of pass slots for the clients from a number on, once it is made.
#[derive(Drop)]
pub(crate) struct Row<K, V, F, A: Allocator> {
    first: u32,
    len: u32,
    pass_slots: OnceSlot<Vec<PassSlot<K, V, F>, A>, InRow>,
}

impl<K, V, F, A: Allocator> Model for Row<K, V, F, A> {
    ghost use Rattle.std.specs.Prelude.{◌≡◌, ◌+◌, ◌<◌, ◌^◌, ◌∷◌};
    ghost use Rattle.clients.specs.PassPools.{RowView, ledger_in};

    ghost Value = { RowView };

    ghost view = { λ r. record {
      first = r.first;
      len = r.len;
      ledger = ledger_in r.pass_slots.tag;
      place = r.pass_slots.id;
    } };

    ghost invariant = { λ r. (r.pass_slots.tag ≡ r.first ∷ r.len ∷ ledger_in r.pass_slots.tag)
        × (r.first + r.len < 2 ^ 32) };
}

impl<K, V, F, A: Allocator> Row<K, V, F, A> {
    /// A row that is not made, for so many clients from a number on.
    fn new(tag: &Tag, first: u32, len: u32) -> Row<K, V, F, A>
        requires { first + len < 2 ^ 32 }
        ensures first { result.first ≡ first }
        ensures len { result.len ≡ len }
        ensures ledger { result.ledger ≡ tag.now.numbers }
    {
        Row {
            first,
            len,
            pass_slots: OnceSlot::new(&with_number(first, &with_number(len, tag))),
        }
    }

    /// What shows that the row is made, where it is.
    pub(crate) fn made(&self) -> Option<Made<K, V, F, A>>
        ensures { IfSome result (λ made. made.of ≡ self.now.place) }
    {
        self.pass_slots.witness()
    }

    /// The client's pass slot, in a row that is made.
    pub(crate) fn pass_slot<'a>(
        &'a self,
        client: u32,
        made: &Made<K, V, F, A>,
    ) -> &'a PassSlot<K, V, F>
        requires made { made.now.of ≡ self.now.place }
        requires first { self.now.first ≤ client }
        requires last { client < self.now.first + self.now.len }
        ensures { result.now ≡ client ∷ self.now.ledger }
    {
        let at = client - self.first;
        &self.pass_slots.value(made)[at as usize]
    }

    /// Makes the row, unless it is there, and returns what shows that it is.
    ///
    /// # Errors
    ///
    /// `AllocError`; it also comes where another thread makes the row just then, which none does while
    /// this one has the roster out.
    pub(crate) fn lay(&self, alloc: A, tag: &Tag) -> Result<Made<K, V, F, A>, AllocError>
        requires { tag.now.numbers ≡ self.now.ledger }
        ensures { IfOk result (λ made. made.of ≡ self.now.place) }
    {
        if let Some(made) = self.made() {
            return Ok(made);
        }
        let pass_slots = new_pass_slots(alloc, tag, self.first, self.len)?;
        match self.pass_slots.set_written(pass_slots) {
            Ok(made) => Ok(made),
            Err(_others) => self.made().ok_or(AllocError),
        }
    }
}

/// The number of the row that has the client's pass slot.
pub(crate) fn row_of(client: u32) -> usize
    requires { client < most_lean_clients }
    ensures row { result < 14 }
    ensures first { 8 * 2 ^ result ≤ client + 8 }
    ensures last { client + 8 < 2 * (8 * 2 ^ result) }
{
    (client / FIRST + 1).ilog2() as usize
}

/// Rows for all clients, none of which is made.
///
/// # Errors
///
/// `AllocError`.
pub(crate) fn new_rows<K, V, F, A: Allocator>(
    alloc: A,
    tag: &Tag,
) -> Result<Vec<Row<K, V, F, A>, A>, AllocError>
    ensures { IfOk result (λ rows. AreRows tag.now.numbers rows.items) }
{
    let mut rows = Vec::with_capacity(alloc, ROWS as usize)?;
    for row in 0..ROWS {
        let len = FIRST << row;
        rows.push_reserved(Row::new(tag, len - FIRST, len));
    }
    Ok(rows)
}
