//! Keys of updates, with what an update may be refused memory for.
ghost use Rattle.std.specs.Prelude.{◌≡◌, true, is_some, IfOk, IsOk};
ghost use Rattle.bin_history.specs.Entries.{lookup};
ghost use Rattle.bin_history.specs.Hashes.{hash_by};
ghost use Rattle.bin_history.specs.Updates.{HasPlace, prepared_key};

use crate::seen_key::SeenKey;
use bin_entries::{LeanEntries, Room};
use hashkeys::{AsKey, HashKey, MakesKey};
use std::alloc::{AllocError, Allocator};

/// The key of an update, with all that the update needs. `prepare_as` makes it, and `update_on` uses
/// it up.
#[derive(Drop)]
pub enum Prepared<K, V, A: Allocator, Q> {
    /// What stands for a key that has an entry.
    Sought(Q),
    /// A key of its own, which has none, and room for one.
    New(K, Room<K, V, A>),
}

impl<K: HashKey, V, A: Allocator, Q: AsKey<K>> Prepared<K, V, A, Q> {
    /// The key, in contracts alone.
    #[inline(always)]
    pub(crate) fn key(&self) -> SeenKey<K>
        ensures { result.value ≡ prepared_key Q.stands_for self.now }
    {
        match self {
            Prepared::Sought(query) => SeenKey::of_query(*query),
            Prepared::New(key, _) => SeenKey::of_query(key),
        }
    }
}

/// Makes all that an update of the key of this hash that the query stands for may be refused memory
/// for, where the key has no entry: the key, and the entry's box, if the bin has another entry. Out of
/// memory, nothing is changed, and no function was called.
#[tactic(auto, using(crate::proofs::Sure::copied_is_some))]
pub fn prepare_as<K: HashKey, V: Drop, A: Allocator + Clone, Q: MakesKey<K, A>>(
    entries: &LeanEntries<K, V, A>,
    alloc: &A,
    hash: u32,
    query: Q,
) -> Result<Prepared<K, V, A, Q>, AllocError>
    requires hash { hash ≡ hash_by K.code entries.now.salt (Q.stands_for query) }
    ensures key { IfOk result (λ p. prepared_key Q.stands_for p ≡ Q.stands_for query) }
    ensures prepared { IfOk result (HasPlace K.eq Q.stands_for entries.now.entries) }
    ensures succeeds { is_some (lookup K.eq entries.now.entries (Q.stands_for query)) ≡ true →
        IsOk result }
{
    if entries.get_as(hash, query).is_some() {
        return Ok(Prepared::Sought(query));
    }
    let own = query.make(alloc)?;
    let room = entries.room(alloc)?;
    Ok(Prepared::New(own, room))
}
