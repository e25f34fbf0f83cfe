//! How the places of a map are made.
ghost use Rattle.std.specs.Prelude.{◌≡◌, true, All, IfOk, [], length};
ghost use Rattle.hashkeys.specs.Classes.{IsTableSize, is_of};
ghost use Rattle.bin_history.specs.Calls.{after};
ghost use Rattle.bin_history.specs.Entries.{HasDistinctKeys};
ghost use Rattle.generations.specs.Generations.{IsTable};
ghost use Rattle.count_ledger.specs.Opening.{AreOfTheirClasses, lists_of, new_roles};
ghost use Rattle.count_ledger.specs.Views.{LedgerId};

use crate::generations::Generations;
use crate::place::Place;
use crate::state::State;
use bin_history::{Bin, Form, Remap, Value};
use bin_layout::PlaceTag;
use count_ledger::{BinRole, LedgerName};
use hashkeys::{Class, HashKey, Salt};
use std::alloc::{AllocError, Allocator};

/// The place of a bin of these pairs, with its role.
fn opening_place<K: HashKey, V: Value, F: Remap<K, V>, A: Allocator + Clone>(
    alloc: &A,
    form: Form,
    salt: Salt,
    class: Class,
    base: Vec<(K, V), A>,
    role: BinRole<K, V, F>,
) -> Result<Place<K, V, F, A>, AllocError>
    requires distinct { HasDistinctKeys K.eq base.items }
    requires of_class { All (λ e. is_of K.code salt class e.0 ≡ true) base.items }
    requires role { role ≡ record {
      ledger = role.ledger;
      salt = salt;
      class = class;
      opening =
          base.items;
      kept = [];
    } }
    ensures { IfOk result
        (λ p. p ≡ record { class = class; form = form; salt = salt; ledger = role.ledger }) }
{
    let tag = PlaceTag {
        class,
        form,
        salt,
        ledger: LedgerName::of(&role),
    };
    let bin = Bin::new(alloc, form, salt, class, base)?;
    Ok(Place::new(&tag, State::Live(role, bin)))
}

/// The places of the opening bins, each made of the base and the role at its place.
fn opening_places<K: HashKey, V: Value, F: Remap<K, V>, A: Allocator + Clone>(
    alloc: A,
    form: Form,
    salt: Salt,
    n: u32,
    bases: Vec<Vec<(K, V), A>, A>,
    roles: Vec<BinRole<K, V, F>, A>,
) -> Result<Vec<Place<K, V, F, A>, A>, AllocError>
    requires size { IsTableSize n }
    requires count { length bases.items ≡ n }
    requires distinct { All (λ base. HasDistinctKeys K.eq base.items) bases.items }
    requires of_class { AreOfTheirClasses K.code salt (lists_of bases) }
    requires roles { (ledger : LedgerId) × (roles.items ≡ new_roles ledger salt (lists_of bases)) }
    ensures count { IfOk result (λ places. length places.items ≡ n) }
    ensures places { IfOk result (λ places. (ledger : LedgerId) →
        roles.items ≡ new_roles ledger salt (lists_of bases)
        → IsTable (record { ledger = ledger; form = form; salt = salt; n = n }) n places.items) }
{
    let mut places = Vec::with_capacity(alloc.clone()?, n as usize)?;
    let mut bases = bases.into_iter();
    let mut roles = roles.into_iter();
    for index in 0..n {
        let Some(base) = bases.next() else {
            unreachable!()
        };
        let Some(role) = roles.next() else {
            unreachable!()
        };
        let class = Class::new(n, index);
        let place = opening_place(&alloc, form, salt, class, base, role)?;
        places.push_reserved(place);
    }
    Ok(places)
}

impl<K: HashKey, V: Value, F: Remap<K, V>, A: Allocator + Clone> Generations<K, V, F, A> {
    /// The map of `n` opening bins of the form, the bin at each place made of the base and
    /// the role at that place, which are as `Ledger::new` made the roles of these bases.
    pub fn new(
        alloc: A,
        form: Form,
        salt: Salt,
        n: u32,
        bases: Vec<Vec<(K, V), A>, A>,
        roles: Vec<BinRole<K, V, F>, A>,
    ) -> Result<Generations<K, V, F, A>, AllocError>
        requires size { IsTableSize n }
        requires count { length bases.items ≡ n }
        requires distinct { All (λ base. HasDistinctKeys K.eq base.items) bases.items }
        requires of_class { AreOfTheirClasses K.code salt (lists_of bases) }
        requires roles { (ledger : LedgerId)
            × (roles.items ≡ new_roles ledger salt (lists_of bases)) }
        ensures n { IfOk result (λ g. g.n ≡ n) }
        ensures form { IfOk result (λ g. g.form ≡ form) }
        ensures salt { IfOk result (λ g. g.salt ≡ salt) }
        ensures ledger { IfOk result (λ g. (ledger : LedgerId) →
            roles.items ≡ new_roles ledger salt (lists_of bases) → g.ledger ≡ ledger) }
    {
        let ledger = LedgerName::of(&roles[0]);
        let places = opening_places(alloc.clone()?, form, salt, n, bases, roles)?;
        Generations::with_opening(alloc, form, salt, ledger, places)
    }
}
