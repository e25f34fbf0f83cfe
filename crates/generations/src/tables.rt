//! The tables of a map's later places, one for each size: in the table of n places the place at an
//! index is for the class of that index among n.
ghost use Rattle.std.specs.Prelude.{◌≡◌, ◌^◌, IfOk};
ghost use Rattle.generations.specs.Generations.{AreSlots, size_named};
ghost use Rattle.bin_layout.specs.Names.{home_named};

use crate::place::Place;
use bin_history::{Form, Remap, Value};
use boxcar::slot::{OnceSlot, SlotRule};
use boxcar::tag::{Names, Tag};
use count_ledger::LedgerName;
use hashkeys::{HashKey, Salt};
use std::alloc::{AllocError, Allocator};

/// How many sizes a table can have: 1, 2, 4 and so on to 2^26 places.
pub(crate) const SIZES: u32 = 27;

/// The places of one table.
pub(crate) type Places<K, V, F, A> = Vec<Place<K, V, F, A>, A>;

/// The rule of a slot for a table, whose tag names the map and the table's size: the table is the
/// map's, of that size.
pub struct OfSize;

impl<K: HashKey, V: Value, F: Remap<K, V>, A: Allocator> SlotRule<Vec<Place<K, V, F, A>, A>>
    for OfSize {
    ghost use Rattle.generations.specs.Generations.{IsTable, size_named};
    ghost use Rattle.bin_layout.specs.Names.{home_named};

    ghost holds = { λ tag places. IsTable (home_named tag) (size_named tag) places.items };
}

/// The slots of a map's tables: at each exponent that of the table of 2 to the exponent places.
pub(crate) type Slots<K, V, F, A> = Vec<OnceSlot<Vec<Place<K, V, F, A>, A>, OfSize>, A>;

/// What the tag of a slot says.
struct SlotName {
    exponent: u32,
    n: u32,
    form: Form,
    salt: Salt,
    ledger: Tag,
}

struct OfSlotName;

impl Names<SlotName> for OfSlotName {
    ghost use Rattle.std.specs.Prelude.{◌∷◌};
    ghost use Rattle.bin_layout.specs.Names.{form_number};

    ghost numbers = { λ m. m.exponent ∷ m.n ∷ form_number m.form ∷ m.salt.0 ∷ m.ledger.numbers };
}

fn tag_of(exponent: u32, n: u32, form: Form, salt: Salt, ledger: &LedgerName) -> Tag
    ensures map { home_named result.numbers ≡ record {
      ledger = ledger.now;
      form =
          form;
      salt = salt;
      n = n;
    } }
    ensures size { size_named result.numbers ≡ 2 ^ exponent }
{
    let name = SlotName {
        exponent,
        n,
        form,
        salt,
        ledger: ledger.to_tag(),
    };
    let tag = Tag::of::<SlotName, OfSlotName>(&name);
    let SlotName {
        exponent: _,
        n: _,
        form: _,
        salt: _,
        ledger,
    } = name;
    drop(ledger);
    tag
}

/// The slots of a map that opens with `n` bins. No table is in them yet.
pub(crate) fn no_tables<K: HashKey, V: Value, F: Remap<K, V>, A: Allocator + Clone>(
    alloc: A,
    n: u32,
    form: Form,
    salt: Salt,
    ledger: &LedgerName,
) -> Result<Slots<K, V, F, A>, AllocError>
    ensures { IfOk result
        (λ slots. AreSlots
        (record { ledger = ledger.now; form = form; salt = salt; n = n }) slots.items) }
{
    let mut slots = Vec::with_capacity(alloc, SIZES as usize)?;
    for exponent in 0..SIZES {
        let tag = tag_of(exponent, n, form, salt, ledger);
        slots.push_reserved(OnceSlot::new(&tag));
    }
    Ok(slots)
}
