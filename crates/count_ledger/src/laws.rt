//! Laws of agreement and of sums, as contracts. The functions do nothing when they run.
ghost use Rattle.std.specs.Prelude.{◌≡◌, ℕ, ◌+◌, ◌%◌, ◌^◌, ◌<◌, ◌≤◌, ℤ, pos, ◌+ℤ◌, ◌≤ℤ◌, neg_ℤ};
ghost use Rattle.std.specs.Prelude.{FitsSigned, Bool, true, List, [], ◌∷◌, ◌++◌, length, All};
ghost use Rattle.std.specs.Int.{w64, cast_signed};
ghost use Rattle.hashkeys.specs.Classes.{ClassView, is_of};
ghost use Rattle.bin_history.specs.BinPart.{IsPartOf};
ghost use Rattle.bin_history.specs.Calls.{after};
ghost use Rattle.bin_history.specs.Cells.{records_on};
ghost use Rattle.bin_history.specs.Clients.{by_client};
ghost use Rattle.bin_history.specs.Deltas.{sum_of_deltas};
ghost use Rattle.bin_history.specs.Entries.{lookup, HasDistinctKeys, replay};
ghost use Rattle.bin_history.specs.Histories.{GoesOn};
ghost use Rattle.bin_history.specs.Lawful.{BinView, IsLawful};
ghost use Rattle.bin_history.specs.Part.{part_of_entries, part_of_records};
ghost use Rattle.bin_history.specs.Plain.{run, IsLegal, IsLegalStep};
ghost use Rattle.bin_history.specs.Readiness.{KeepsOrFolds};
ghost use Rattle.bin_history.specs.Records.{RecordView};
ghost use Rattle.count_ledger.specs.Agreement.{BinAgrees, part_of_role};
ghost use Rattle.count_ledger.specs.Books.{IsPassOf};
ghost use Rattle.count_ledger.specs.Fronts.{BeginsWith, IsFront, IsHistory, IsHistoryOn};
ghost use Rattle.count_ledger.specs.Limits.{most_lean_calls, most_lean_clients};
ghost use Rattle.count_ledger.specs.Settled.{AreReconciled};
ghost use Rattle.count_ledger.specs.Views.{LedgerView, PassView, RoleView};
ghost use Rattle.count_ledger.specs.Words.{word_of, total_of, total_made, total_kept};

use bin_history::Remap;
use hashkeys::HashKey;

/// A bin and its role agree when both are new, and go on agreeing when both go on by the same
/// records, when the bin's records are folded, and when bin and role divide. What the role kept is
/// then legal on its opening pairs, the bin's entries are their replay, and there are as many as
/// opening pairs and deltas say.
pub fn agreement_laws<K: HashKey, V: Eq, F: Remap<K, V>>()
    ensures new { (b : BinView K V F) (r : RoleView K V F)
        → b.class ≡ r.class → b.salt ≡ r.salt → HasDistinctKeys K.eq b.base → b.base ≡ r.opening →
        b.records ≡ [] → r.kept ≡ []
        → BinAgrees K.eq (after V.eq F.remapped F.merged) b r }
    ensures gone_on { (b c : BinView K V F) (r s : RoleView K V F) (more : List (RecordView K V F))
        → BinAgrees K.eq (after V.eq F.remapped F.merged) b r
        → c.class ≡ b.class → c.salt ≡ b.salt →
        GoesOn K.eq (after V.eq F.remapped F.merged) b more c
        → s ≡ record r { kept = r.kept ++ more }
        → BinAgrees K.eq (after V.eq F.remapped F.merged) c s }
    ensures prepared { (b c : BinView K V F) (r : RoleView K V F)
        → BinAgrees K.eq (after V.eq F.remapped F.merged) b r
        → IsLawful K.eq K.code (after V.eq F.remapped F.merged) b
        → c.class ≡ b.class → c.salt ≡ b.salt → KeepsOrFolds K.eq b c
        → BinAgrees K.eq (after V.eq F.remapped F.merged) c r }
    ensures divided { (b c : BinView K V F) (r s : RoleView K V F) (half : ClassView → ClassView)
        → BinAgrees K.eq (after V.eq F.remapped F.merged) b r
        → c.class ≡ half b.class → IsPartOf K.code b c → s ≡ part_of_role K.code (half r.class) r
        → BinAgrees K.eq (after V.eq F.remapped F.merged) c s }
    ensures replay { (b : BinView K V F) (r : RoleView K V F)
        → BinAgrees K.eq (after V.eq F.remapped F.merged) b r
        → IsLawful K.eq K.code (after V.eq F.remapped F.merged) b
        → b.entries ≡ replay K.eq b.base b.records
        → IsLegal K.eq (after V.eq F.remapped F.merged) (lookup K.eq r.opening) r.kept
        × (b.entries ≡ replay K.eq r.opening r.kept) }
    ensures count { (b : BinView K V F) (r : RoleView K V F)
        → BinAgrees K.eq (after V.eq F.remapped F.merged) b r
        → IsLawful K.eq K.code (after V.eq F.remapped F.merged) b
        → b.entries ≡ replay K.eq b.base b.records
        → pos (length b.entries) ≡ pos (length r.opening) +ℤ sum_of_deltas r.kept }
{}

/// What is known of a front. Its part in any class is a history of that class, in which each key of
/// the class has the value that it has in the front, and the pairs of the class stand in the same
/// order. Its calls on any one key are those of one cell. What it has behind all that a client had
/// seen is by other clients. A client that made a call behind a front has seen a front with its
/// call; and what begins with a front begins with what that begins with.
pub fn laws_of_fronts<K: HashKey, V: Eq, F: Remap<K, V>>()
    ensures history { (ledger : LedgerView K V) (pass : PassView K V F) (class : ClassView)
        (front : List (RecordView K V F))
        → IsFront K.eq (after V.eq F.remapped F.merged) ledger pass front
        → IsHistory K.eq (after V.eq F.remapped F.merged) K.code ledger pass class
        (part_of_records (is_of K.code ledger.salt class) front) }
    ensures value { (opening : List (K × V)) (test : K → Bool) (front : List (RecordView K V F))
        (key : K)
        → test key ≡ true
        → run K.eq (lookup K.eq (part_of_entries test opening)) (part_of_records test front) key
        ≡ run K.eq (lookup K.eq opening) front key }
    ensures pairs { (opening : List (K × V)) (test : K → Bool) (front : List (RecordView K V F))
        → replay K.eq (part_of_entries test opening) (part_of_records test front)
        ≡ part_of_entries test (replay K.eq opening front) }
    ensures key { (ledger : LedgerView K V) (pass : PassView K V F)
        (front : List (RecordView K V F)) (key : K)
        → IsFront K.eq (after V.eq F.remapped F.merged) ledger pass front
        → IsHistoryOn K.eq (after V.eq F.remapped F.merged) ledger pass key
        (records_on K.eq key front) }
    ensures others { (ledger : LedgerView K V) (pass : PassView K V F)
        (front rest : List (RecordView K V F))
        → IsFront K.eq (after V.eq F.remapped F.merged) ledger pass front
        → by_client pass.client pass.seen ≡ pass.made → front ≡ pass.seen ++ rest
        → by_client pass.client rest ≡ [] }
    ensures called { (ledger : LedgerView K V) (old new : PassView K V F) (r : RecordView K V F)
        (front : List (RecordView K V F))
        → IsFront K.eq (after V.eq F.remapped F.merged) ledger old front
        → r.client ≡ old.client
        → IsLegalStep K.eq (after V.eq F.remapped F.merged)
        (run K.eq (lookup K.eq ledger.opening) front) r
        → new ≡ record old { made = old.made ++ r ∷ []; seen = front ++ r ∷ [] }
        → IsFront K.eq (after V.eq F.remapped F.merged) ledger new new.seen }
    ensures begins { (xs ys zs : List (RecordView K V F)) → BeginsWith xs ys → BeginsWith ys zs
        → BeginsWith xs zs }
{}

/// Once all books are back, what all clients made and what all roles keep have one sum of deltas;
/// and the opening pairs of the ledger are those of its roles.
pub fn totals_of_all<K: HashKey, V, F>()
    ensures deltas { (ledger : LedgerView K V) (passes : List (PassView K V F))
        (roles : List (RoleView K V F))
        → AreReconciled K.code ledger passes roles
        → total_made passes ≡ total_kept roles }
    ensures count { (ledger : LedgerView K V) (passes : List (PassView K V F))
        (roles : List (RoleView K V F))
        → AreReconciled K.code ledger passes roles
        → pos (length ledger.opening) +ℤ total_made passes
        ≡ total_of (λ r. pos (length r.opening) +ℤ sum_of_deltas r.kept) roles }
{}

/// Words of sums add modulo 2^64, and a signed number of 64 bits can be read back from its word.
/// What all clients made changes the number of keys by at most 2^62.
pub fn words_of_sums<K: HashKey, V, F>()
    ensures add { (a b : ℤ) → word_of (a +ℤ b) ≡ (word_of a + word_of b) % 2 ^ 64 }
    ensures natural { (n : ℕ) → n < 2 ^ 64 → word_of (pos n) ≡ n }
    ensures signed { (z : ℤ) → FitsSigned w64 z → cast_signed w64 (word_of z) ≡ z }
    ensures bounds { (ledger : LedgerView K V) (passes : List (PassView K V F))
        → All (IsPassOf ledger) passes → ledger.clients ≤ most_lean_clients
        → length passes ≤ ledger.clients
        → (neg_ℤ (pos most_lean_calls) ≤ℤ total_made passes)
        × (total_made passes ≤ℤ pos most_lean_calls) }
{}
