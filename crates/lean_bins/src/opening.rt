//! How the bins of a map are made.
ghost use Rattle.std.specs.Prelude.{◌≡◌, ◌^◌, true, All, IfOk, [], length};
ghost use Rattle.hashkeys.specs.Classes.{IsTableSize, is_of};
ghost use Rattle.bin_history.specs.Calls.{after};
ghost use Rattle.bin_history.specs.Entries.{HasDistinctKeys};
ghost use Rattle.bin_history.specs.declared.form.Form.TheVariants.{Lean};
ghost use Rattle.count_ledger.specs.Opening.{AreOfTheirClasses, lists_of, new_roles};
ghost use Rattle.count_ledger.specs.Views.{LedgerId};
ghost use Rattle.lean_bins.specs.BinSlot.{AreOpening, IsInSlotFor};
ghost use Rattle.lean_bins.specs.Segments.{AreTables};

use crate::bins::{LeanBins, stride_of_opening, tag_of};
use crate::segments::Tables;
use crate::slot::{BinSlot, SegmentTag};
use bin_history::{Bin, Form, Remap, Value};
use boxcar::slot::OnceSlot;
use count_ledger::{BinRole, LedgerName};
use hashkeys::{Class, HashKey, Salt};
use lock_table::{LockedSlots, Terms};
use std::alloc::{AllocError, Allocator};
use std::sync::atomic::AtomicU64;

/// A bin of these pairs, with its role.
fn opening_bin<K: HashKey, V: Value, F: Remap<K, V>, A: Allocator + Clone>(
    alloc: &A,
    salt: Salt,
    class: Class,
    base: Vec<(K, V), A>,
    role: BinRole<K, V, F>,
) -> Result<BinSlot<K, V, F, A>, AllocError>
    requires distinct { HasDistinctKeys K.eq base.items }
    requires of_class { All (λ e. is_of K.code salt class e.0 ≡ true) base.items }
    requires role { role
        ≡ record { ledger = role.ledger; salt = salt; class = class; opening = base.items; kept = [] } }
    ensures { IfOk result (IsInSlotFor K.eq (after V.eq F.remapped F.merged)
        (record { ledger = role.ledger; form = Lean; salt = salt; n = class.n }) class) }
{
    let bin = Bin::new(alloc, Form::Lean, salt, class, base)?;
    Ok(BinSlot::of(bin, role))
}

/// The opening bins, each made of the base and the role at its place.
fn opening_bins<K: HashKey, V: Value, F: Remap<K, V>, A: Allocator + Clone>(
    alloc: &A,
    salt: Salt,
    n: u32,
    bases: Vec<Vec<(K, V), A>, A>,
    roles: Vec<BinRole<K, V, F>, A>,
) -> Result<Vec<BinSlot<K, V, F, A>, A>, AllocError>
    requires size { IsTableSize n }
    requires count { length bases.items ≡ n }
    requires distinct { All (λ base. HasDistinctKeys K.eq base.items) bases.items }
    requires of_class { AreOfTheirClasses K.code salt (lists_of bases) }
    requires roles { (ledger : LedgerId) × (roles.items ≡ new_roles ledger salt (lists_of bases)) }
    ensures count { IfOk result (λ places. length places.items ≡ n) }
    ensures places { IfOk result (λ places. (ledger : LedgerId) →
        roles.items ≡ new_roles ledger salt (lists_of bases)
        → AreOpening K.eq (after V.eq F.remapped F.merged)
        (record { ledger = ledger; form = Lean; salt = salt; n = n }) places.items) }
{
    let mut places = Vec::with_capacity(alloc.clone()?, n as usize)?;
    let mut bases = bases.into_iter();
    let mut roles = roles.into_iter();
    for index in 0..n {
        let Some(base) = bases.next() else {
            unreachable!()
        };
        let Some(role) = roles.next() else {
            unreachable!()
        };
        let class = Class::new(n, index);
        let place = opening_bin(alloc, salt, class, base, role)?;
        places.push_reserved(place);
    }
    Ok(places)
}

/// The slots of a map's tables. No table is in them yet.
fn no_tables<K: HashKey, V: Value, F: Remap<K, V>, A: Allocator + Clone>(
    alloc: A,
    n: u32,
    salt: Salt,
    ledger: &LedgerName,
) -> Result<Tables<K, V, F, A>, AllocError>
    ensures { IfOk result (λ slots. AreTables
        (record { ledger = ledger.now; form = Lean; salt = salt; n = n }) slots.items) }
{
    let mut slots = Vec::with_capacity(alloc, 26)?;
    for exponent in 0..26u32 {
        let tag = tag_of(1u32 << exponent, n, salt, ledger);
        slots.push_reserved(OnceSlot::new(&tag));
    }
    Ok(slots)
}

impl<K: HashKey, V: Value, F: Remap<K, V>, A: Allocator + Clone> LeanBins<K, V, F, A> {
    /// The map with these opening bins and no tables of later ones.
    fn with_opening(
        alloc: A,
        salt: Salt,
        n: u32,
        ledger: LedgerName,
        bin_slot: Vec<BinSlot<K, V, F, A>, A>,
    ) -> Result<LeanBins<K, V, F, A>, AllocError>
        requires size { IsTableSize n }
        requires count { length bin_slot.items ≡ n }
        requires opening { AreOpening K.eq (after V.eq F.remapped F.merged)
            (record { ledger = ledger; form = Lean; salt = salt; n = n }) bin_slot.items }
        ensures { IfOk result (λ g. g ≡ record { ledger = ledger; form = Lean; salt = salt; n = n }) }
    {
        let tag = SegmentTag {
            first: 0,
            n,
            salt,
            ledger: ledger.again(),
        };
        let exponent = n.ilog2();
        let stride = stride_of_opening(n);
        let opening = LockedSlots::present(&alloc, Terms { tag, stride }, exponent, bin_slot)?;
        let tables = no_tables(alloc, n, salt, &ledger)?;
        Ok(LeanBins {
            opening,
            tables,
            widest: AtomicU64::new(u64::from(exponent)),
            n,
            salt,
            ledger,
        })
    }

    /// The map of `n` opening bins, the bin at each place made of the base and the role at that
    /// place, which are as `Ledger::new` made the roles of these bases.
    pub fn new(
        alloc: A,
        salt: Salt,
        n: u32,
        bases: Vec<Vec<(K, V), A>, A>,
        roles: Vec<BinRole<K, V, F>, A>,
    ) -> Result<LeanBins<K, V, F, A>, AllocError>
        requires size { IsTableSize n }
        requires count { length bases.items ≡ n }
        requires distinct { All (λ base. HasDistinctKeys K.eq base.items) bases.items }
        requires of_class { AreOfTheirClasses K.code salt (lists_of bases) }
        requires roles { (ledger : LedgerId)
            × (roles.items ≡ new_roles ledger salt (lists_of bases)) }
        ensures n { IfOk result (λ g. g.n ≡ n) }
        ensures form { IfOk result (λ g. g.form ≡ Lean) }
        ensures salt { IfOk result (λ g. g.salt ≡ salt) }
        ensures ledger { IfOk result (λ g. (ledger : LedgerId) →
            roles.items ≡ new_roles ledger salt (lists_of bases) → g.ledger ≡ ledger) }
    {
        let ledger = LedgerName::of(&roles[0]);
        let bin_slot = opening_bins(&alloc, salt, n, bases, roles)?;
        LeanBins::with_opening(alloc, salt, n, ledger, bin_slot)
    }
}
