//! What lies at a place, and the fact that its word tells of it.
ghost use Rattle.std.specs.Prelude.{◌≡◌, Some, IsSomeAnd};
ghost use Rattle.bin_history.specs.declared.form.Form.TheVariants.{Lean};
ghost use Rattle.lean_bins.specs.BinSlot.{bin_in};

use bin_history::{Bin, BinKind, LeanBin, LeanEntries, Remap, Value};
use count_ledger::{BinRole, LedgerName, RoleBook};
use hashkeys::{Class, HashKey, Salt};
use lock_table::Fits;
use std::alloc::Allocator;
use std::mem;

/// The entries of a bin and its role, or neither.
#[derive(Drop)]
pub struct BinSlot<K: HashKey, V: Value, F: Remap<K, V>, A: Allocator> {
    pub entries: LeanEntries<K, V, A>,
    pub role: RoleBook<K, V, F>,
}

/// What is fixed when a segment of a table is made: the index of its first place, the number of the
/// map's opening bins, its salt, and its ledger in contracts alone.
#[derive(Drop)]
pub struct SegmentTag {
    pub first: u32,
    pub n: u32,
    pub salt: Salt,
    pub ledger: LedgerName,
}

impl<K: HashKey, V: Value, F: Remap<K, V>, A: Allocator> Fits for BinSlot<K, V, F, A> {
    ghost use Rattle.bin_history.specs.Calls.{after};
    ghost use Rattle.lean_bins.specs.BinSlot.{FitsWord};

    type Tag = SegmentTag;

    ghost fits = { FitsWord K.eq (after V.eq F.remapped F.merged) };
}

impl<K: HashKey, V: Value, F: Remap<K, V>, A: Allocator + Clone> BinSlot<K, V, F, A> {
    /// Neither, at a place for bins of the class.
    #[inline(always)]
    pub(crate) fn nothing(salt: Salt, class: Class) -> BinSlot<K, V, F, A> {
        BinSlot {
            entries: LeanEntries::new(salt, class),
            role: RoleBook::blank(),
        }
    }

    /// A lean bin and its role.
    #[inline(always)]
    pub(crate) fn of(bin: Bin<K, V, F, A>, role: BinRole<K, V, F>) -> BinSlot<K, V, F, A>
        requires lean { bin.form ≡ Lean }
        ensures role { result.role ≡ Some role }
        ensures bin { bin_in result ≡ bin }
    {
        let BinKind::Lean(lean) = bin.into_kind() else {
            unreachable!()
        };
        BinSlot {
            entries: lean.into_entries(),
            role: RoleBook::of(role),
        }
    }

    /// The bin, of this salt and class, and its role.
    #[inline(always)]
    pub(crate) fn into_bin(self, salt: Salt, class: Class) -> (Bin<K, V, F, A>, BinRole<K, V, F>)
        requires salt { salt ≡ self.entries.salt }
        requires class { class ≡ self.entries.class }
        requires role { IsSomeAnd self.role (λ r. r.class ≡ class) }
        ensures bin { result.0 ≡ bin_in self }
        ensures role { self.role ≡ Some result.1 }
    {
        let BinSlot { entries, role } = self;
        let bin = Bin::of_kind(BinKind::Lean(LeanBin::of_entries(salt, class, entries)));
        (bin, role.into_role(class))
    }

    /// Takes the role, of this class, which is put back before the place is released.
    #[inline(always)]
    pub fn take_role(&mut self, class: Class) -> BinRole<K, V, F>
        requires { IsSomeAnd self.old.role (λ r. r.class ≡ class) }
        ensures role { self.old.role ≡ Some result }
        ensures entries { self.new.entries ≡ self.old.entries }
    {
        mem::replace(&mut self.role, RoleBook::blank()).into_role(class)
    }
}

impl<K: HashKey, V: Value, F: Remap<K, V>, A: Allocator + Clone> BinSlot<K, V, F, A> {
    /// Puts a role there.
    #[inline(always)]
    pub fn put_role(&mut self, role: BinRole<K, V, F>)
        ensures role { self.new.role ≡ Some role }
        ensures entries { self.new.entries ≡ self.old.entries }
    {
        self.role = RoleBook::of(role);
    }
}
