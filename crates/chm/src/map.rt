//! A map that many threads share, and how it is opened.
ghost use Rattle.std.specs.Prelude.{◌≡◌, ◌≤◌, ◌<◌, ◌^◌, pos, ◌+ℤ◌, [], length, flat_map, replicate};
ghost use Rattle.std.specs.Prelude.{All, IfOk};
ghost use Rattle.std.specs.Int.{w64, int_max, cast_signed};
ghost use Rattle.hashkeys.specs.Classes.{IsTableSize};
ghost use Rattle.bin_history.specs.Entries.{HasDistinctKeys};
ghost use Rattle.bin_history.specs.Limits.{most_calls, most_clients};
ghost use Rattle.count_ledger.specs.Opening.{AreOfTheirClasses, left_in, lists_of, new_passes};
ghost use Rattle.count_ledger.specs.Words.{total_made};
ghost use Rattle.bin_history.specs.declared.form.Form.TheVariants.{Recorded, Lean};
ghost use Rattle.chm.specs.Limits.{most_pairs};
ghost use Rattle.chm.specs.Opened.{IsLimited, IsNew};
ghost use Rattle.chm.specs.Refusals.{AreClients, IsCapacity, IsCapacityOf};
ghost use Rattle.chm.specs.Sizes.{most_bins_of};

mod closing;

use crate::fault::Fault;
use crate::resize::policy::most_capacity;
use crate::resize::resizer::Resizer;
use crate::resize::size::size_for;
use bin_history::{Form, Remap, Value};
use bin_store::BinStore;
use count_ledger::{Ledger, Pass, Roster};
use hashkeys::{HashKey, Salt};
use std::alloc::{AllocError, Allocator};
use std::marker::Model;

/// A map of keys to values that many threads call at once. Each thread calls with a pass of its
/// own, which is one client's right to make calls; when all passes are back the map can be closed.
/// Contracts see its books and the number of bins that it opened with.
///
/// In the examples of its calls the map has keys and values of type `u64`, one client, whose pass
/// is `pass`, and no entries yet. `Plus(n)` is a function that adds n to a value, or to 0 where
/// there is none; a merge adds n to the sum of both.
pub struct Map<K: HashKey, V: Value, F: Remap<K, V>, A: Allocator> {
    pub(crate) ledger: Ledger<K, V, F, A>,
    pub(crate) bins: BinStore<K, V, F, A>,
    pub(crate) resizer: Resizer<A>,
    pub(crate) opened: u64,
}

impl<K: HashKey, V: Value, F: Remap<K, V>, A: Allocator> Model for Map<K, V, F, A> {
    ghost use Rattle.chm.specs.Views.{MapView, IsMap};

    ghost Value = { MapView K V };

    ghost view = { λ m. record { ledger = m.ledger; n = m.bins.n } };

    ghost invariant = { λ m. IsMap m.ledger m.bins m.opened };
}

// Written out, so that a crate above calls it: of a derived one it would prove each part anew.
impl<K: HashKey, V: Value, F: Remap<K, V>, A: Allocator> Drop for Map<K, V, F, A> {
    fn drop(self) {
        let Map {
            ledger: _,
            bins: _,
            resizer: _,
            opened: _,
        } = self;
    }
}

/// A map with the passes of all clients: of client 0, 1 and so on, in this order.
pub type Opened<K, V, F, A> = (Map<K, V, F, A>, Vec<Pass<K, V, F>, A>);

/// A map with its roster, from which a client takes its pass when it comes.
pub type Started<K, V, F, A> = (Map<K, V, F, A>, Roster<K, V, F>);

/// No pairs for each of so many bins.
pub(crate) fn no_bases<K: Drop, V: Drop, A: Allocator + Clone>(
    alloc: A,
    n: u32,
) -> Result<Vec<Vec<(K, V), A>, A>, AllocError>
    ensures { IfOk result (λ v. lists_of v ≡ replicate n []) }
{
    let mut bases = Vec::with_capacity(alloc.clone()?, n as usize)?;
    for _index in 0..n {
        bases.push_reserved(Vec::new(alloc.clone()?));
    }
    Ok(bases)
}

impl<K: HashKey, V: Value, F: Remap<K, V>, A: Allocator + Clone> Map<K, V, F, A> {
    /// The capacity of a map that nobody chose another for, in bins.
    pub const DEFAULT_CAPACITY: usize = 16;

    /// A map without entries, and a pass for each client. Its table begins with the least power of
    /// two of bins that is at least the capacity, which is 1 to 4,096; there are 1 to 32 clients.
    /// The salt of its hashes is 0. Its bins store the records of calls, and a pass makes 1,000,000
    /// calls; `lean` opens a map without either.
    ///
    ///     let (map, passes): Opened<u64, u64, Plus, Global> = Map::new(alloc, 16, 4)?;
    ///     map.clients() == 4 && passes.len() == 4
    pub fn new(alloc: A, capacity: usize, clients: u32) -> Result<Opened<K, V, F, A>, Fault>
        ensures new { IfOk result
            (λ r. IsNew Recorded (record { 0 = 0 }) capacity clients r.0 r.1.items) }
        ensures limits { IsLimited (IsCapacity capacity) (most_clients Recorded) clients result }
    {
        Map::with_salt(alloc, capacity, clients, Salt(0))
    }

    /// Opens a map as `new` does, with a salt with which the codes of keys are mixed.
    ///
    ///     let (map, passes): Opened<u64, u64, Plus, Global> = Map::with_salt(alloc, 16, 4, Salt(7))?;
    ///     map.salt() == Salt(7)
    pub fn with_salt(
        alloc: A,
        capacity: usize,
        clients: u32,
        salt: Salt,
    ) -> Result<Opened<K, V, F, A>, Fault>
        ensures new { IfOk result (λ r. IsNew Recorded salt capacity clients r.0 r.1.items) }
        ensures limits { IsLimited (IsCapacity capacity) (most_clients Recorded) clients result }
    {
        Map::with_passes(alloc, Form::Recorded, capacity, clients, salt)
    }

    /// Opens a lean map, with a salt, and takes the passes of all clients: its bins store no records
    /// of calls, its capacity is 1 to 2^26, there are 1 to 65,536 clients, and a pass makes as many
    /// calls as its share of 2^62: 2^57 of 32 clients. What is proved of its calls is what is of a
    /// recorded map's. A pass takes 128 bytes; `lean_with` leaves the passes to be taken later.
    ///
    ///     let (map, passes): Opened<u64, u64, Plus, Global> = Map::lean(alloc, 16, 4, Salt(0))?;
    ///     map.form() == Form::Lean
    pub fn lean(
        alloc: A,
        capacity: usize,
        clients: u32,
        salt: Salt,
    ) -> Result<Opened<K, V, F, A>, Fault>
        ensures new { IfOk result (λ r. IsNew Lean salt capacity clients r.0 r.1.items) }
        ensures limits { IsLimited (IsCapacityOf Lean capacity) (most_clients Lean) clients result }
    {
        Map::with_passes(alloc, Form::Lean, capacity, clients, salt)
    }

    /// Opens a lean map as `lean` does, with a roster in place of the passes: `join` takes a client's
    /// pass from it, while other clients make calls. A roster takes 8 bytes, however many clients
    /// there are.
    ///
    ///     let (map, roster): Started<u64, u64, Plus, Global> =
    ///         Map::lean_with(alloc, 16, 65_536, Salt(0))?;
    ///     map.clients() == 65_536 && roster.taken() == 0
    ///
    /// # Errors
    ///
    /// `BadCapacity` where the capacity is not 1 to 2^26, else `BadClients` where there are not 1 to
    /// 65,536 clients, before memory is asked for; `NoMemory` out of memory.
    pub fn lean_with(
        alloc: A,
        capacity: usize,
        clients: u32,
        salt: Salt,
    ) -> Result<Started<K, V, F, A>, Fault>
        ensures new { IfOk result (λ r. IsNew {F = F} Lean salt capacity clients r.0 (left_in r.1)) }
        ensures roster { IfOk result
            (λ r. r.1 ≡ record { ledger = r.0.ledger.id; next = 0; clients = clients }) }
        ensures limits { IsLimited (IsCapacityOf Lean capacity) (most_clients Lean) clients result }
    {
        Map::with_form(alloc, Form::Lean, capacity, clients, salt)
    }

    /// A map of the form without entries, and its roster.
    fn with_form(
        alloc: A,
        form: Form,
        capacity: usize,
        clients: u32,
        salt: Salt,
    ) -> Result<Started<K, V, F, A>, Fault>
        ensures new { IfOk result (λ r. IsNew {F = F} form salt capacity clients r.0 (left_in r.1)) }
        ensures roster { IfOk result
            (λ r. r.1 ≡ record { ledger = r.0.ledger.id; next = 0; clients = clients }) }
        ensures limits { IsLimited (IsCapacityOf form capacity) (most_clients form) clients result }
    {
        if capacity < 1 || capacity > most_capacity(form) {
            return Err(Fault::BadCapacity);
        }
        if clients < 1 || clients > form.most_clients() {
            return Err(Fault::BadClients);
        }
        let bases = no_bases(alloc.clone()?, size_for(capacity as u32))?;
        Ok(Map::open(alloc, form, salt, clients, bases, 0)?)
    }

    /// A map of the form without entries, and the passes of all clients.
    fn with_passes(
        alloc: A,
        form: Form,
        capacity: usize,
        clients: u32,
        salt: Salt,
    ) -> Result<Opened<K, V, F, A>, Fault>
        ensures new { IfOk result (λ r. IsNew form salt capacity clients r.0 r.1.items) }
        ensures limits { IsLimited (IsCapacityOf form capacity) (most_clients form) clients result }
    {
        match Map::with_form(alloc, form, capacity, clients, salt) {
            Ok((map, roster)) => Ok(map.with_all(roster)?),
            Err(fault) => Err(fault),
        }
    }

    /// The map with the passes of all clients, of which none was taken.
    pub(crate) fn with_all(
        self,
        mut roster: Roster<K, V, F>,
    ) -> Result<Opened<K, V, F, A>, AllocError>
        requires { roster ≡ record { ledger = self.ledger.id; next = 0; clients = self.ledger.clients } }
        ensures map { IfOk result (λ r. r.0 ≡ self) }
        ensures passes { IfOk result (λ r. r.1.items ≡ new_passes self.ledger.id self.ledger.clients) }
    {
        let alloc = self.resizer.allocator().clone()?;
        let mut passes = Vec::with_capacity(alloc, self.clients() as usize)?;
        self.ledger.join_all(&mut roster, &mut passes);
        Ok((self, passes))
    }

    /// A map whose opening bins are made of these bases, of `opened` pairs in all, and its roster.
    pub(crate) fn open(
        alloc: A,
        form: Form,
        salt: Salt,
        clients: u32,
        bases: Vec<Vec<(K, V), A>, A>,
        opened: u64,
    ) -> Result<Started<K, V, F, A>, AllocError>
        requires clients { AreClients (most_clients form) clients }
        requires size { IsTableSize (length bases.items) }
        requires wide { length bases.items ≤ most_bins_of form }
        requires distinct { All (λ base. HasDistinctKeys K.eq base.items) bases.items }
        requires of_class { AreOfTheirClasses K.code salt (lists_of bases) }
        requires opened { opened ≡ length (flat_map (λ base. base) (lists_of bases)) }
        requires few { opened ≤ most_pairs }
        ensures form { IfOk result (λ r. r.0.ledger.form ≡ form) }
        ensures salt { IfOk result (λ r. r.0.ledger.salt ≡ salt) }
        ensures clients { IfOk result (λ r. r.0.ledger.clients ≡ clients) }
        ensures opening { IfOk result
            (λ r. r.0.ledger.opening ≡ flat_map (λ base. base) (lists_of bases)) }
        ensures n { IfOk result (λ r. r.0.n ≡ length bases.items) }
        ensures roster { IfOk result
            (λ r. r.1 ≡ record { ledger = r.0.ledger.id; next = 0; clients = clients }) }
    {
        let n = bases.len() as u32;
        let resizer = Resizer::new(alloc.clone()?, n)?;
        let for_bins = alloc.clone()?;
        let (ledger, roster, roles) = Ledger::with_roster(alloc, form, salt, clients, &bases)?;
        let bins = BinStore::new(for_bins, form, salt, n, bases, roles)?;
        let map = Map {
            ledger,
            bins,
            resizer,
            opened,
        };
        Ok((map, roster))
    }
}

/// A two's complement number of 64 bits as a count: 0 where it is negative.
fn count_of(word: u64) -> u64
    ensures value { pos result ≡ int_max (pos 0) (cast_signed w64 word) }
    ensures bound { result < 2 ^ 63 }
{
    word.cast_signed().max(0).cast_unsigned()
}

impl<K: HashKey, V: Value, F: Remap<K, V>, A: Allocator> Map<K, V, F, A> {
    /// Returns how many keys there are, as far as a look at one count word after the other tells: at
    /// 32, or as many as there are clients. While other threads call, it is the number at no one
    /// moment, and nothing but its range is promised.
    ///
    ///     map.put(rt, pass, 1, 5)?;
    ///     map.mapping_count() == 1
    pub fn mapping_count(&self) -> u64
        ensures { result < 2 ^ 63 }
    {
        count_of(self.opened.wrapping_add(self.ledger.sum()))
    }

    /// Returns how many keys there are, by the passes of all clients: those at the opening, and the
    /// sum of all deltas.
    ///
    ///     map.mapping_count_all(&mut passes) == 0
    pub fn mapping_count_all(&self, passes: &mut [Pass<K, V, F>]) -> u64
        requires own { All (λ p. p.ledger ≡ self.now.ledger.id) passes.old }
        requires all { length passes.old ≡ self.now.ledger.clients }
        ensures count { pos result ≡ int_max (pos 0)
            (pos (length self.now.ledger.opening) +ℤ total_made passes.old) }
        ensures same { passes.new ≡ passes.old }
    {
        count_of(self.opened.wrapping_add(self.ledger.sum_all(passes)))
    }

    /// Returns the number of clients, with and without a pass: 1 to 32, in a lean map to 65,536.
    pub fn clients(&self) -> u32
        ensures value { result ≡ self.now.ledger.clients }
        ensures range { AreClients (most_clients self.now.ledger.form) result }
    {
        self.ledger.clients()
    }

    /// Returns how many calls a pass makes at most: 1,000,000, in a lean map 2^62 divided by the
    /// number of clients.
    #[inline(always)]
    pub fn most_calls(&self) -> u64
        ensures { result ≡ most_calls self.now.ledger.form self.now.ledger.clients }
    {
        self.ledger.most_calls()
    }

    /// Returns the form of the map: whether its bins store records.
    #[inline(always)]
    pub fn form(&self) -> Form
        ensures { result ≡ self.now.ledger.form }
    {
        self.ledger.form()
    }

    /// Returns the salt of the hashes of keys.
    #[inline(always)]
    pub fn salt(&self) -> Salt
        ensures { result ≡ self.now.ledger.salt }
    {
        self.bins.salt()
    }
}
