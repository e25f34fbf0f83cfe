//! A look at a bin that nobody posts.
ghost use Rattle.std.specs.Prelude.{◌≡◌, IfOk, IsOk};
ghost use Rattle.bin_entries.specs.Copies.{IsNeverRefused};
ghost use Rattle.bin_history.specs.Calls.{after};
ghost use Rattle.bin_history.specs.Hashes.{hash_by};
ghost use Rattle.bin_store.specs.Glances.{IsGlanced};

use crate::store::{BinStore, StoreKind};
use bin_entries::copy_of_option;
use bin_history::{Remap, Value, lawful_entries};
use generations::Generations;
use hashkeys::{AsKey, HashKey};
use lean_bins::LeanBins;
use std::alloc::{AllocError, Allocator};
use std::sync::Wait;

/// A copy of the value at the key that this stands for, in recorded bins. Others may read the bin
/// meanwhile.
fn glance_recorded<
    R: Wait,
    K: HashKey,
    V: Value,
    F: Remap<K, V>,
    A: Allocator + Clone,
    Q: AsKey<K>,
>(rt: &R, home: &Generations<K, V, F, A>, hash: u32, query: Q) -> Result<Option<V>, AllocError>
    requires hash { hash ≡ hash_by K.code home.now.salt (Q.stands_for query) }
    ensures glanced { IfOk result
        (IsGlanced K.eq K.code (after V.eq F.remapped F.merged) home.now hash
        (Q.stands_for query)) }
    ensures succeeds { IsNeverRefused V.is_infallible → IsOk result }
{
    let shown = home.read(rt, hash);
    let value = copy_of_option(shown.bin().get_as(hash, query));
    shown.release();
    value
}

/// A copy of the value at the key that this stands for, in lean bins. The bin is locked meanwhile, and
/// stays where it lies.
fn glance_lean<R: Wait, K: HashKey, V: Value, F: Remap<K, V>, A: Allocator + Clone, Q: AsKey<K>>(
    rt: &R,
    home: &LeanBins<K, V, F, A>,
    hash: u32,
    query: Q,
) -> Result<Option<V>, AllocError>
    requires hash { hash ≡ hash_by K.code home.now.salt (Q.stands_for query) }
    ensures glanced { IfOk result
        (IsGlanced K.eq K.code (after V.eq F.remapped F.merged) home.now hash
        (Q.stands_for query)) }
    ensures succeeds { IsNeverRefused V.is_infallible → IsOk result }
{
    let mut place = home.hold_in_place(rt, hash);
    let bin_slot = place.inner.value();
    lawful_entries::<K, V, F, A>(&bin_slot.entries);
    let value = copy_of_option(bin_slot.entries.get_as(hash, query));
    place.release();
    value
}

impl<K: HashKey, V: Value, F: Remap<K, V>, A: Allocator + Clone> BinStore<K, V, F, A> {
    /// A copy of the value at the key of this hash that this stands for, if it has one. It waits for
    /// the key's bin. A recorded bin is read beside others that read it; a lean one is locked, and
    /// stays where it lies. The copy alone takes memory.
    ///
    /// # Errors
    ///
    /// `AllocError` where the value fails to clone.
    pub fn glance_as<R: Wait, Q: AsKey<K>>(
        &self,
        rt: &R,
        hash: u32,
        query: Q,
    ) -> Result<Option<V>, AllocError>
        requires hash { hash ≡ hash_by K.code self.now.salt (Q.stands_for query) }
        ensures glanced { IfOk result
            (IsGlanced K.eq K.code (after V.eq F.remapped F.merged) self.now hash
            (Q.stands_for query)) }
        ensures succeeds { IsNeverRefused V.is_infallible → IsOk result }
    {
        match &self.kind {
            StoreKind::Recorded(home) => glance_recorded(rt, home, hash, query),
            StoreKind::Lean(home) => glance_lean(rt, home, hash, query),
        }
    }
}
