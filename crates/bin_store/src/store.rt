//! All bins of a map, and how they are made.
ghost use Rattle.std.specs.Prelude.{◌≡◌, true, All, IfOk, length};
ghost use Rattle.hashkeys.specs.Classes.{IsTableSize};
ghost use Rattle.bin_history.specs.Entries.{HasDistinctKeys};
ghost use Rattle.count_ledger.specs.Opening.{AreOfTheirClasses, lists_of, new_roles};
ghost use Rattle.count_ledger.specs.Views.{LedgerId};

use bin_history::{Form, Remap, Value};
use count_ledger::BinRole;
use generations::Generations;
use hashkeys::{HashKey, Salt};
use lean_bins::LeanBins;
use std::alloc::{AllocError, Allocator};
use std::marker::Model;

/// The bins of a map by their form.
#[derive(Drop)]
pub enum StoreKind<K: HashKey, V: Value, F: Remap<K, V>, A: Allocator> {
    Recorded(Generations<K, V, F, A>),
    Lean(LeanBins<K, V, F, A>),
}

/// The bins of one map, of either form. Contracts see the map's ledger, its form, its salt and the
/// number of its opening bins.
#[derive(Drop)]
pub struct BinStore<K: HashKey, V: Value, F: Remap<K, V>, A: Allocator> {
    pub kind: StoreKind<K, V, F, A>,
}

impl<K: HashKey, V: Value, F: Remap<K, V>, A: Allocator> Model for BinStore<K, V, F, A> {
    ghost use Rattle.bin_layout.specs.Views.{HomeView};
    ghost use Rattle.bin_store.specs.Homes.{view_of, IsOfItsForm};

    ghost Value = { HomeView };

    ghost view = { λ h. view_of h.kind };

    ghost invariant = { λ h. IsOfItsForm h.kind };
}

impl<K: HashKey, V: Value, F: Remap<K, V>, A: Allocator> BinStore<K, V, F, A> {
    /// The number of opening bins: a power of two from 1 to 2^26.
    pub fn n(&self) -> u32
        ensures value { result ≡ self.now.n }
        ensures size { IsTableSize self.now.n }
    {
        match &self.kind {
            StoreKind::Recorded(home) => home.n(),
            StoreKind::Lean(home) => home.n(),
        }
    }

    /// The salt of the map's hashes.
    pub fn salt(&self) -> Salt
        ensures { result ≡ self.now.salt }
    {
        match &self.kind {
            StoreKind::Recorded(home) => home.salt(),
            StoreKind::Lean(home) => home.salt(),
        }
    }
}

impl<K: HashKey, V: Value, F: Remap<K, V>, A: Allocator + Clone> BinStore<K, V, F, A> {
    /// The map of `n` opening bins of the form, the bin at each place made of the base and the role
    /// at that place, which are as `Ledger::new` made the roles of these bases.
    pub fn new(
        alloc: A,
        form: Form,
        salt: Salt,
        n: u32,
        bases: Vec<Vec<(K, V), A>, A>,
        roles: Vec<BinRole<K, V, F>, A>,
    ) -> Result<BinStore<K, V, F, A>, AllocError>
        requires size { IsTableSize n }
        requires count { length bases.items ≡ n }
        requires distinct { All (λ base. HasDistinctKeys K.eq base.items) bases.items }
        requires of_class { AreOfTheirClasses K.code salt (lists_of bases) }
        requires roles { (ledger : LedgerId)
            × (roles.items ≡ new_roles ledger salt (lists_of bases)) }
        ensures n { IfOk result (λ g. g.n ≡ n) }
        ensures form { IfOk result (λ g. g.form ≡ form) }
        ensures salt { IfOk result (λ g. g.salt ≡ salt) }
        ensures ledger { IfOk result (λ g. (ledger : LedgerId) →
            roles.items ≡ new_roles ledger salt (lists_of bases) → g.ledger ≡ ledger) }
    {
        match form {
            Form::Recorded => {
                let home = Generations::new(alloc, form, salt, n, bases, roles)?;
                Ok(BinStore {
                    kind: StoreKind::Recorded(home),
                })
            }
            Form::Lean => {
                let home = LeanBins::new(alloc, salt, n, bases, roles)?;
                Ok(BinStore {
                    kind: StoreKind::Lean(home),
                })
            }
        }
    }
}
