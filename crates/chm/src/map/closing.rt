//! A map is taken apart: its bins and its books come together.
ghost use Rattle.std.specs.Prelude.{◌≡◌, All, IfOk, IfErr, IfSome};
ghost use Rattle.bin_history.specs.Calls.{after};
ghost use Rattle.chm.specs.Closing.{IsKnown, IsNotClosedFor, IsRestOf};
ghost use Rattle.chm.specs.Closing.{passes_with, seen_with, taken_with};

use crate::closed::close::{Refused, Rest, replayed, settle_all, taken};
use crate::closed::quiet::Quiet;
use crate::fault::Fault;
use crate::map::Map;
use bin_history::{Remap, Value};
use count_ledger::Pass;
use hashkeys::HashKey;
use std::alloc::Allocator;
use std::snapshot::Snapshot;

impl<K: HashKey, V: Value, F: Remap<K, V>, A: Allocator + Clone> Map<K, V, F, A> {
    /// Closes the map, with what it is closed with beside the passes.
    pub(crate) fn close_all(
        self,
        rest: Option<Rest<K, V, F>>,
        passes: Vec<Pass<K, V, F>, A>,
    ) -> Result<Quiet<K, V, F, A>, Refused<K, V, F, A>>
        requires rest { IfSome rest (IsRestOf self.ledger) }
        requires own { All (λ p. p.ledger ≡ self.ledger.id) passes.items }
        ensures ledger { IfOk result (λ q. q.ledger ≡ self.ledger) }
        ensures n { IfOk result (λ q. q.n ≡ self.n) }
        ensures known { IfOk result
            (IsKnown K.eq K.code (after V.eq F.remapped F.merged) (seen_with rest)) }
        ensures passes { IfOk result (λ q. q.passes ≡ passes_with rest passes.items) }
        ensures refused { IfErr result
            (λ e. IsNotClosedFor (taken_with self.ledger.clients rest) self passes.items
            (record { fault = e.fault; map = e.map; passes = e.passes.items })) }
        ensures rest { IfErr result (λ e. e.rest ≡ rest) }
    {
        if passes.len() < taken(self.clients(), &rest) as usize {
            return Err(Refused {
                fault: Fault::PassMissing,
                map: Some(self),
                rest,
                passes,
            });
        }
        let Ok(room) = self.bins.room_for_leaves() else {
            return Err(Refused {
                fault: Fault::NoMemory,
                map: Some(self),
                rest,
                passes,
            });
        };
        let (n, salt, form) = (self.bins.n(), self.salt(), self.form());
        let Map {
            ledger,
            bins,
            resizer: _,
            opened,
        } = self;
        let Some((bins, roles)) = bins.into_leaves(room) else {
            return Err(Refused {
                fault: Fault::BinMissing,
                map: None,
                rest,
                passes,
            });
        };
        replayed(&bins);
        let books = Snapshot::of(&ledger);
        let kept = Snapshot::of(&roles);
        let made = (Snapshot::of(&passes), Snapshot::of(&rest));
        let total = settle_all(ledger, rest, passes, roles);
        Ok(Quiet {
            bins,
            n,
            salt,
            form,
            count: opened.wrapping_add(total),
            ledger: books,
            roles: kept,
            passes: made.0,
            rest: made.1,
        })
    }
}
