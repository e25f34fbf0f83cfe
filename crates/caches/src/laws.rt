//! What the calls of a cache leave, as contracts. The functions do nothing when they run.
ghost use Rattle.std.specs.Prelude.{◌≡◌, ℕ, All, Bool, List, None, Option, Some};
ghost use Rattle.bin_history.specs.Calls.{after};
ghost use Rattle.bin_history.specs.Plain.{IsLegal, run};
ghost use Rattle.bin_history.specs.Records.{RecordView};
ghost use Rattle.caches.specs.Caches.{HasPutNothing, IsFound, IsNotCopied, IsOfLastPut, IsPutOrNothing, no_value};
ghost use Rattle.caches.specs.Entries.{same_entry};
ghost use Rattle.caches.specs.declared.entry.CacheEntry.{CacheEntry};
ghost use Rattle.count_ledger.specs.Views.{LedgerView, PassView};
ghost use Rattle.functions.specs.declared.nothing.NoFunction.{NoFunction};

use clients::{HashKey, Value};

/// In a legal order of calls on a map without entries, each of which is a put or puts nothing, the entry at a key has the
/// value and the deadline of the last put there. The clauses of each call of a cache say which of the two its calls are: a
/// put makes one put, and all others put nothing.
pub fn what_is_there_was_put_last<K: HashKey, V: Value>()
    ensures { (opening : K → Option (CacheEntry V)) (is_put : RecordView K (CacheEntry V) NoFunction → Bool)
        (calls : List (RecordView K (CacheEntry V) NoFunction)) (key : K) (e : CacheEntry V)
        → ((k : K) → opening k ≡ None)
        → IsLegal K.eq (after (same_entry V.eq) no_value no_value) opening calls
        → All (IsPutOrNothing is_put) calls
        → run K.eq opening calls key ≡ Some e
        → IsOfLastPut K.eq is_put calls key e }
{}

/// A get puts nothing: it makes one call, which leaves the value and the deadline that it found, or leaves no entry where
/// there was none.
pub fn a_get_puts_nothing<K: HashKey, V: Value>()
    ensures found { (ledger : LedgerView K (CacheEntry V)) (key : K) (time : ℕ)
        (old new : PassView K (CacheEntry V) NoFunction) (answer : Option V)
        → IsFound K.eq V.eq ledger key time old new answer → HasPutNothing old new }
    ensures not_copied { (ledger : LedgerView K (CacheEntry V)) (key : K)
        (old new : PassView K (CacheEntry V) NoFunction)
        → IsNotCopied K.eq V.eq ledger key old new → HasPutNothing old new }
{}
