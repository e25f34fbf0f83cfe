//! Laws of walks and clears, as contracts. The functions do nothing when they run.
ghost use Rattle.std.specs.Prelude.{ℕ, [], List, All};
ghost use Rattle.hashkeys.specs.Classes.{ClassView};
ghost use Rattle.bin_history.specs.Calls.{after};
ghost use Rattle.count_ledger.specs.Views.{LedgerView, PassView};
ghost use Rattle.bin_layout.specs.Walks.{IsWalk};
ghost use Rattle.chm.specs.ByClass.{AreOfHistory};
ghost use Rattle.chm.specs.Cleared.{AreCleared};
ghost use Rattle.chm.specs.Visits.{AreVisited, VisitView};

use bin_history::Remap;
use hashkeys::HashKey;

/// What a walk shows of a class, and the nothing that a clear leaves there, are what a history of
/// that class made of the opening map's part: a legal list of calls on its keys, in which the
/// calls of the pass's client are just those that it has made on them, in its order.
pub fn laws_of_classes<K: HashKey, V: Eq, F: Remap<K, V>>()
    ensures visited { (ledger : LedgerView K V) (old new : PassView K V F)
        (visits : List (VisitView K V))
        → AreVisited K.eq K.code (after V.eq F.remapped F.merged) ledger old visits new
        → All (λ v. AreOfHistory K.eq K.code (after V.eq F.remapped F.merged) ledger new v.class
        v.entries) visits }
    ensures cleared { (n : ℕ) (ledger : LedgerView K V) (old new : PassView K V F)
        (classes : List ClassView)
        → IsWalk n classes
        → AreCleared K.eq K.code (after V.eq F.remapped F.merged) ledger old classes new
        → All (λ c. AreOfHistory K.eq K.code (after V.eq F.remapped F.merged) ledger new c [])
        classes }
{}
