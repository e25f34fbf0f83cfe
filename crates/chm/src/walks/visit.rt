//! Walks over a map that others write, bin by bin in walk order.
ghost use Rattle.std.specs.Prelude.{◌≡◌, All, IfOk, IfErr};
ghost use Rattle.bin_history.specs.Calls.{after};
ghost use Rattle.bin_history.specs.Entries.{HasDistinctKeys};
ghost use Rattle.count_ledger.specs.Fronts.{HasSeenMore};
ghost use Rattle.chm.specs.Visits.{AreVisits, IsOwn, shown_by};

use crate::fault::Fault;
use crate::map::Map;
use bin_history::{Remap, Value};
use count_ledger::Pass;
use hashkeys::{Class, HashKey};
use std::alloc::Allocator;
use std::marker::Model;
use std::sync::Wait;

/// What a walk shows of a bin: its class, and copies of its entries in order.
#[derive(Drop)]
pub struct Visit<K, V, A: Allocator> {
    pub class: Class,
    pub entries: Vec<(K, V), A>,
}

impl<K, V, A: Allocator> Model for Visit<K, V, A> {
    ghost use Rattle.chm.specs.Visits.{VisitView};

    ghost Value = { VisitView K V };

    ghost view = { λ v. record { class = v.class; entries = v.entries.items } };
}

impl<K: HashKey, V: Value, F: Remap<K, V>, A: Allocator + Clone> Map<K, V, F, A> {
    /// Shows the entries of each bin in walk order, one bin after the other, each as all calls
    /// before that had left it: those that the pass had seen when the walk began, and others that
    /// were made meanwhile. No key comes twice. Calls of others may come between two bins; calls of
    /// the pass's own client do not, so with one client the walk shows the map. For want of memory
    /// nothing is shown.
    ///
    ///     map.put(rt, pass, 1, 5)?;
    ///     let visits = map.walk(rt, pass)?;
    ///     visits.iter().any(|visit| visit.entries.as_slice() == [(1, 5)].as_slice())
    pub fn walk<R: Wait>(
        &self,
        rt: &R,
        pass: &mut Pass<K, V, F>,
    ) -> Result<Vec<Visit<K, V, A>, A>, Fault>
        requires pass { pass.old.ledger ≡ self.now.ledger.id }
        ensures visits { IfOk result
            (λ v. AreVisits K.eq K.code (after V.eq F.remapped F.merged) self.now.n self.now.ledger
            pass.old v.items pass.new) }
        ensures distinct { IfOk result (λ v. HasDistinctKeys K.eq (shown_by v.items)) }
        ensures own { self.now.ledger.clients ≡ 1 →
            IfOk result (λ v. All (IsOwn K.eq K.code self.now.ledger pass.old) v.items) }
        ensures seen { HasSeenMore pass.old pass.new }
        ensures faults { IfErr result (λ fault. fault ≡ Fault.NoMemory) }
    {
        let mut visits = Vec::new(self.resizer.allocator().clone()?);
        let mut cursor = self.opening_cursor();
        for _ in rt.forever() {
            let shown = self.visit_next(rt, pass, &mut cursor)?;
            let Some(visit) = shown else {
                return Ok(visits);
            };
            visits.push(visit)?;
        }
        unreachable!()
    }
}
