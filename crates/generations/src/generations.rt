//! All places of a map, and the way from a hash to its place.
ghost use Rattle.std.specs.Prelude.{◌≡◌, ℕ, ◌<◌, ◌≤◌, ◌^◌, true, IfSome, IfOk, length};
ghost use Rattle.hashkeys.specs.Classes.{covers, low_half, high_half, IsTableSize};
ghost use Rattle.hashkeys.specs.Limits.{most_bins};
ghost use Rattle.bin_history.specs.Limits.{most_recorded_bins};
ghost use Rattle.bin_history.specs.declared.form.Form.TheVariants.{Recorded};
ghost use Rattle.generations.specs.Generations.{FitsForm, IsTable};
ghost use Rattle.bin_layout.specs.Views.{HomeView, IsPlaceOf, place_of};

use crate::place::{Place, leave_new};
use crate::state::State;
use crate::tables::{Places, SIZES, Slots, no_tables};
use bin_history::{Form, Remap, Value};
use bin_layout::{PlaceTag, Refused};
use count_ledger::LedgerName;
use counted_slot::Claim;
use hashkeys::{Class, HashKey, Salt};
use std::alloc::{AllocError, Allocator};
use std::marker::Model;
use std::sync::atomic::AtomicU64;
use std::sync::atomic::Ordering::SeqCst;

/// The locked bins of one map. Contracts see the map's ledger, its form, its salt and the number of
/// its opening bins.
#[derive(Drop)]
pub struct Generations<K: HashKey, V: Value, F: Remap<K, V>, A: Allocator> {
    opening: Vec<Place<K, V, F, A>, A>,
    tables: Slots<K, V, F, A>,
    /// The exponent of the widest table that was made, or more. A search goes from there to narrower
    /// tables: were it less, bins of wider ones would not be found.
    widest: AtomicU64,
    pub(crate) form: Form,
    pub(crate) salt: Salt,
    pub(crate) ledger: LedgerName,
}

impl<K: HashKey, V: Value, F: Remap<K, V>, A: Allocator> Model for Generations<K, V, F, A> {
    ghost use Rattle.bin_layout.specs.Views.{HomeView};

    ghost Value = { HomeView };

    ghost use Rattle.generations.specs.Generations.{generations_view, IsGenerations};

    ghost view = { λ g. generations_view g.ledger g.form g.salt g.opening.items };

    ghost invariant = { λ g. IsGenerations g.ledger g.form g.salt g.opening.items g.tables.items };
}

/// The rights to fill the places of the low and the high half of a bin.
type Halves<'a, K, V, F, A> = (Claim<'a, State<K, V, F, A>>, Claim<'a, State<K, V, F, A>>);

/// The place of a table that has the hash, and its class, which is told by where it stands.
fn place_in<'a, K: HashKey, V: Value, F: Remap<K, V>, A: Allocator>(
    places: &'a Places<K, V, F, A>,
    hash: u32,
) -> (&'a Place<K, V, F, A>, Class)
    requires { (map : HomeView) × (n : ℕ) × IsTable map n places.now.items }
    ensures of_map { (map : HomeView) (n : ℕ) → IsTable map n places.now.items →
        IsPlaceOf map result.0.now }
    ensures covers { covers result.0.now.class hash ≡ true }
    ensures class { result.1 ≡ result.0.now.class }
    ensures few { (map : HomeView) (n : ℕ) → IsTable map n places.now.items →
        FitsForm map result.1.n }
{
    let n = places.len() as u32;
    let index = hash & (n - 1);
    (&places[index as usize], Class::new(n, index))
}

impl<K: HashKey, V: Value, F: Remap<K, V>, A: Allocator> Generations<K, V, F, A> {
    /// The number of opening bins: a power of two from 1 to 2^26.
    pub fn n(&self) -> u32
        ensures value { result ≡ self.now.n }
        ensures size { IsTableSize self.now.n }
    {
        self.opening.len() as u32
    }

    /// The salt of the map's hashes.
    pub fn salt(&self) -> Salt
        ensures { result ≡ self.now.salt }
    {
        self.salt
    }

    /// The allocator of the map's memory.
    pub fn allocator(&self) -> &A {
        self.opening.allocator()
    }

    /// The tag of this map's place for a bin of the class.
    fn tag_for(&self, class: Class) -> PlaceTag
        ensures { result ≡ place_of self.now class }
    {
        PlaceTag {
            class,
            form: self.form,
            salt: self.salt,
            ledger: self.ledger.again(),
        }
    }

    /// The table of 2 to the exponent places, once it was made.
    fn table(&self, exponent: u32) -> Option<&Places<K, V, F, A>>
        ensures { IfSome result (λ t. IsTable self.now (2 ^ exponent) t.now.items) }
    {
        self.tables.get(exponent as usize)?.get()
    }

    /// The place of the hash in the widest table.
    pub(crate) fn widest_place(&self, hash: u32) -> &Place<K, V, F, A>
        ensures of_map { IsPlaceOf self.now result.now }
        ensures covers { covers result.now.class hash ≡ true }
    {
        let widest = self.widest.load(SeqCst).min(u64::from(SIZES)) as u32;
        match self.table(widest) {
            Some(places) => place_in(places, hash).0,
            None => place_in(&self.opening, hash).0,
        }
    }

    /// The place of the hash in the widest table where it was begun, and else its opening place,
    /// with its class.
    pub(crate) fn find(&self, hash: u32) -> (&Place<K, V, F, A>, Class)
        ensures of_map { IsPlaceOf self.now result.0.now }
        ensures covers { covers result.0.now.class hash ≡ true }
        ensures class { result.1 ≡ result.0.now.class }
        ensures few { FitsForm self.now result.1.n }
    {
        let widest = self.widest.load(SeqCst).min(u64::from(SIZES)) as u32;
        for narrower in 0..widest {
            if let Some(places) = self.table(widest - narrower) {
                let (place, class) = place_in(places, hash);
                if place.is_begun() {
                    return (place, class);
                }
            }
        }
        place_in(&self.opening, hash)
    }
}

impl<K: HashKey, V: Value, F: Remap<K, V>, A: Allocator + Clone> Generations<K, V, F, A> {
    /// The map with these opening places and no tables of later ones.
    pub(crate) fn with_opening(
        alloc: A,
        form: Form,
        salt: Salt,
        ledger: LedgerName,
        opening: Vec<Place<K, V, F, A>, A>,
    ) -> Result<Generations<K, V, F, A>, AllocError>
        requires opening { IsTable
            (record { ledger = ledger; form = form; salt = salt; n = length opening.items })
            (length opening.items) opening.items }
        ensures { IfOk result
            (λ g. g ≡ record {
              ledger = ledger;
              form = form;
              salt = salt;
              n =
                  length opening.items;
            }) }
    {
        let tables = no_tables(alloc, opening.len() as u32, form, salt, &ledger)?;
        Ok(Generations {
            opening,
            tables,
            widest: AtomicU64::new(0),
            form,
            salt,
            ledger,
        })
    }

    /// A table of places with nothing in them.
    fn new_table(&self, size: u32) -> Result<Places<K, V, F, A>, AllocError>
        requires size { IsTableSize size }
        requires few { self.now.form ≡ Recorded → size ≤ most_recorded_bins }
        requires least { self.now.n ≤ size }
        ensures { IfOk result (λ t. IsTable self.now size t.items) }
    {
        let mut places = Vec::with_capacity(self.allocator().clone()?, size as usize)?;
        for index in 0..size {
            let tag = self.tag_for(Class::new(size, index));
            places.push_reserved(Place::new(&tag, State::Away));
        }
        Ok(places)
    }

    /// Puts a table into its slot, unless there is one already.
    fn keep_table(&self, exponent: u32, places: Places<K, V, F, A>)
        requires { IsTable self.now (2 ^ exponent) places.items }
    {
        if let Some(slot) = self.tables.get(exponent as usize) {
            drop(slot.set_written(places));
            self.widest.fetch_max(u64::from(exponent), SeqCst);
        }
    }

    /// The table of this size, which is made where there is none yet. It is refused while another
    /// thread puts the same table in.
    fn table_made(&self, size: u32) -> Result<&Places<K, V, F, A>, Refused>
        requires size { IsTableSize size }
        requires few { self.now.form ≡ Recorded → size ≤ most_recorded_bins }
        requires least { self.now.n ≤ size }
        ensures { IfOk result (λ t. IsTable self.now size t.now.items) }
    {
        let exponent = size.ilog2();
        if let Some(places) = self.table(exponent) {
            return Ok(places);
        }
        let places = self.new_table(size)?;
        self.keep_table(exponent, places);
        match self.table(exponent) {
            Some(places) => Ok(places),
            None => Err(Refused::Busy),
        }
    }

    /// The rights to fill the places for the two halves of a bin, which stand in one table. It is
    /// made where there is none yet.
    pub(crate) fn claim_halves(&self, class: Class) -> Result<Halves<'_, K, V, F, A>, Refused>
        requires least { self.now.n ≤ class.n }
        requires size { class.n < most_bins }
        requires few { self.now.form ≡ Recorded → class.n < most_recorded_bins }
        ensures low { IfOk result
            (λ c. (c.0.right ≡ 2) × (c.0.tag ≡ place_of self.now (low_half class))) }
        ensures high { IfOk result
            (λ c. (c.1.right ≡ 2) × (c.1.tag ≡ place_of self.now (high_half class))) }
    {
        let (low, high) = class.halves();
        let places = self.table_made(low.n())?;
        let Some(low) = places[low.index() as usize].claim_new() else {
            return Err(Refused::Busy);
        };
        match places[high.index() as usize].claim_new() {
            Some(high) => Ok((low, high)),
            None => {
                leave_new(low);
                Err(Refused::Busy)
            }
        }
    }

    /// Makes the table of this many places, if there is none yet: so many bins the map can then be
    /// moved to. It is a power of two from 1 to 2^26, or to 65,536 if the map keeps records. It waits
    /// for nobody.
    ///
    /// # Errors
    ///
    /// `NoMemory`, and then there is none; `Busy` where another thread puts the same table in just
    /// then.
    pub fn try_widen(&self, size: u32) -> Result<(), Refused>
        requires size { IsTableSize size }
        requires few { self.now.form ≡ Recorded → size ≤ most_recorded_bins }
        requires least { self.now.n ≤ size }
    {
        self.table_made(size)?;
        Ok(())
    }
}
