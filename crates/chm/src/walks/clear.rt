//! Emptying a map, bin by bin in walk order.
ghost use Rattle.std.specs.Prelude.{◌≡◌, ◌≤◌, ◌↔◌, false, length, IfErr, OnOk, OnErr};
ghost use Rattle.bin_history.specs.Calls.{after};
ghost use Rattle.bin_history.specs.Sure.{IsNeverRefused};
ghost use Rattle.bin_history.specs.declared.form.Form.TheVariants.{Lean};
ghost use Rattle.count_ledger.specs.Limits.{most_calls};
ghost use Rattle.chm.specs.Cleared.{HasLeft, HasOwnLeft, HasRemoved, IsCleared, IsEmptied};
ghost use Rattle.chm.specs.Refusals.{IsOfCall};
ghost use Rattle.chm.specs.Sure.{IsMadeOrFull};

use crate::fault::Fault;
use crate::map::Map;
use bin_history::{Remap, Value};
use count_ledger::Pass;
use hashkeys::HashKey;
use std::alloc::Allocator;
use std::sync::Wait;

impl<K: HashKey, V: Value, F: Remap<K, V>, A: Allocator + Clone> Map<K, V, F, A> {
    /// Takes all entries away, bin by bin in walk order, each bin under one hold, by a remove of
    /// each entry that it meets. Others may put new ones into bins that were left; with one client
    /// the map is then empty. Where a remove is refused, those made before it stand; a full pass
    /// refuses none but where an entry is left.
    ///
    ///     map.put(rt, pass, 1, 5)?;
    ///     map.clear(rt, pass)?;
    ///     map.get(rt, pass, 1)? == Reply::Value(None)
    pub fn clear<R: Wait>(&self, rt: &R, pass: &mut Pass<K, V, F>) -> Result<(), Fault>
        requires pass { pass.old.ledger ≡ self.now.ledger.id }
        ensures cleared { OnOk result
            (IsCleared K.eq K.code (after V.eq F.remapped F.merged) self.now.n
            self.now.ledger pass.old pass.new) }
        ensures emptied { self.now.ledger.clients ≡ 1 →
            OnOk result (IsEmptied K.eq K.code self.now.n self.now.ledger pass.new) }
        ensures removed { HasRemoved pass.old pass.new }
        ensures full { IfErr result (λ fault. (fault ≡ Fault.PassFull) ↔
            (most_calls self.now.ledger.form self.now.ledger.clients ≤ length pass.new.made)) }
        ensures left { OnErr result
            (HasLeft K.eq K.code (after V.eq F.remapped F.merged) self.now.ledger pass.new) }
        ensures own_left { self.now.ledger.clients ≡ 1 →
            OnErr result (HasOwnLeft K.eq K.code self.now.ledger pass.new) }
        ensures sure { self.now.ledger.form ≡ Lean → IsNeverRefused K.is_infallible →
            IsMadeOrFull result }
        ensures faults { IfErr result IsOfCall }
    {
        let mut none = |_key: &K, _value: &V|
            ensures { result ≡ false }
        { false };
        self.retain_from(rt, pass, self.opening_cursor(), &mut none)?;
        Ok(())
    }
}
