//! A client empties the map.
ghost use Rattle.std.specs.Prelude.{◌≡◌, ◌≤◌, ◌↔◌, length, IfErr, OnOk, OnErr};
ghost use Rattle.bin_history.specs.Calls.{after};
ghost use Rattle.bin_history.specs.Sure.{IsNeverRefused};
ghost use Rattle.bin_history.specs.declared.form.Form.TheVariants.{Lean};
ghost use Rattle.count_ledger.specs.Limits.{most_calls};
ghost use Rattle.chm.specs.Cleared.{HasLeft, HasOwnLeft, HasRemoved, IsCleared, IsEmptied};
ghost use Rattle.chm.specs.Refusals.{IsOfCall};
ghost use Rattle.chm.specs.Sure.{IsMadeOrFull};

use crate::client::ClientOf;
use crate::holder::{Holder, Seat};
use bin_history::{Remap, Value};
use chm::Fault;
use hashkeys::HashKey;
use std::alloc::Allocator;
use std::sync::Wait;

impl<H: Holder<K, V, F, A>, K: HashKey, V: Value, F: Remap<K, V>, A: Allocator + Clone> ClientOf<
    H,
    K,
    V,
    F,
    A,
> {
    /// Removes all entries, bucket by bucket in walk order, each bucket under one lock, by a remove
    /// of each entry that it meets, as `Map::clear` does. Others may put new ones into buckets that
    /// were left; with one client the map is then empty. It waits for each bucket in turn, and
    /// takes time linear in the buckets and the entries.
    ///
    ///     client.put(rt, 1, 5)?;
    ///     client.clear(rt)?;
    ///     assert_eq!(client.get(rt, &1)?, None);
    ///
    /// # Errors
    ///
    /// `PassFull` where the client has made all the calls that it may and an entry is left, and
    /// `NoMemory` where one is left: in a lean map only where a key's copy asks for memory. The
    /// removes made before that stand.
    pub fn clear<R: Wait>(&mut self, rt: &R) -> Result<(), Fault>
        ensures cleared { OnOk result
            (IsCleared K.eq K.code (after V.eq F.remapped F.merged) self.old.map.n
            self.old.map.ledger self.old.pass self.new.pass) }
        ensures emptied { self.old.map.ledger.clients ≡ 1 →
            OnOk result
            (IsEmptied K.eq K.code self.old.map.n self.old.map.ledger
            self.new.pass) }
        ensures removed { HasRemoved self.old.pass self.new.pass }
        ensures full { IfErr result (λ fault. (fault ≡ Fault.PassFull) ↔
            (most_calls self.old.map.ledger.form self.old.map.ledger.clients ≤ length self.new.pass.made)) }
        ensures left { OnErr result
            (HasLeft K.eq K.code (after V.eq F.remapped F.merged) self.old.map.ledger
            self.new.pass) }
        ensures own_left { self.old.map.ledger.clients ≡ 1 →
            OnErr result (HasOwnLeft K.eq K.code self.old.map.ledger self.new.pass) }
        ensures sure { self.old.map.ledger.form ≡ Lean → IsNeverRefused K.is_infallible →
            IsMadeOrFull result }
        ensures faults { IfErr result IsOfCall }
        ensures map { self.new.map ≡ self.old.map }
    {
        self.holder.map().clear(rt, self.seat.pass_mut())
    }
}
