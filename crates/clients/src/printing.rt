//! What a client sees of a map, to be printed.
ghost use Rattle.std.specs.Prelude.{◌≡◌, ◌<◌, ◌^◌, All, IfOk, IfErr};
ghost use Rattle.bin_history.specs.Calls.{after};
ghost use Rattle.bin_history.specs.Entries.{HasDistinctKeys};
ghost use Rattle.count_ledger.specs.Fronts.{HasSeenMore};
ghost use Rattle.chm.specs.Visits.{AreVisits, IsOwn, shown_by};

use crate::client::ClientOf;
use crate::holder::Holder;
use bin_history::{Remap, Value};
use chm::{Fault, Visit};
use hashkeys::HashKey;
use std::alloc::Allocator;
use std::fmt::{self, Debug, Formatter};
use std::sync::Wait;

/// Copies of the entries of a map, bucket by bucket, as a walk found them; to be printed with `{:?}`
/// where its keys and values are.
#[derive(Drop)]
pub struct ShownEntries<K, V, A: Allocator> {
    pub visits: Vec<Visit<K, V, A>, A>,
}

impl<K: Debug, V: Debug, A: Allocator> Debug for ShownEntries<K, V, A> {
    fn fmt<W: fmt::Write>(&self, f: &mut Formatter<W>) -> fmt::Result {
        let mut map = f.debug_map();
        for visit in &self.visits {
            for (key, value) in &visit.entries {
                map.entry(key, value);
            }
        }
        map.finish()
    }
}

impl<H: Holder<K, V, F, A>, K: HashKey, V: Value, F: Remap<K, V>, A: Allocator + Clone> ClientOf<
    H,
    K,
    V,
    F,
    A,
> {
    /// Returns what prints the entries, as `walk` shows them: copies, each bucket as all calls before
    /// had left it. Nothing is locked while they are printed. It waits for each bucket in turn, takes
    /// time linear in the buckets and the entries, and allocates the copies.
    ///
    ///     client.put(rt, 1, 5)?;
    ///     let after = format!(in alloc; "{:?}", client.shown(rt)?)?;
    ///     assert_eq!(after.as_str(), "{1: 5}");
    ///
    /// # Errors
    ///
    /// `NoMemory`.
    pub fn shown<R: Wait>(&mut self, rt: &R) -> Result<ShownEntries<K, V, A>, Fault>
        ensures visits { IfOk result
            (λ s. AreVisits K.eq K.code (after V.eq F.remapped F.merged) self.old.map.n
            self.old.map.ledger
            self.old.pass s.visits.items self.new.pass) }
        ensures distinct { IfOk result (λ s. HasDistinctKeys K.eq (shown_by s.visits.items)) }
        ensures own { self.old.map.ledger.clients ≡ 1 → IfOk result
            (λ s. All (IsOwn K.eq K.code self.old.map.ledger self.old.pass) s.visits.items) }
        ensures seen { HasSeenMore self.old.pass self.new.pass }
        ensures faults { IfErr result (λ fault. fault ≡ Fault.NoMemory) }
        ensures map { self.new.map ≡ self.old.map }
    {
        let visits = self.walk(rt)?;
        Ok(ShownEntries { visits })
    }

    /// Returns how many keys there are, as `mapping_count` does: while other threads make calls it is an
    /// estimate, which is the number at no one moment. `Quiet::len` of the closed map is exact.
    ///
    ///     client.put(rt, 1, 5)?;
    ///     assert_eq!(client.len(), 1);
    pub fn len(&self) -> usize
        ensures { result < 2 ^ 63 }
    {
        self.mapping_count() as usize
    }

    /// Returns whether `len` is 0: while other threads make calls it is an estimate.
    /// `Quiet::is_empty` of the closed map is exact.
    ///
    ///     client.put(rt, 1, 5)?;
    ///     assert!(!client.is_empty());
    pub fn is_empty(&self) -> bool {
        self.mapping_count() == 0
    }
}
