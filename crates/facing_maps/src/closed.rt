//! Closed maps, which may have several owners.
ghost use Rattle.std.specs.Prelude.{◌≡◌, IfSome, MatchOption, Some, None};
ghost use Rattle.bin_history.specs.Entries.{lookup};
ghost use Rattle.chm.specs.Headline.{entries_of};

use bin_history::{Remap, Value};
use chm::Quiet;
use hashkeys::{AsKey, HashKey};
use std::alloc::Global;
use std::marker::Model;
use std::sync::Arc;

/// Who owns a closed map.
#[derive(Drop)]
enum Owner<K: HashKey, V: Value, F: Remap<K, V>> {
    One(Quiet<K, V, F, Global>),
    /// Several, or the last of several.
    Several(Arc<Quiet<K, V, F, Global>, Global>),
}

/// A closed map, or an owner of one that has several. Contracts see the closed map.
#[derive(Drop)]
pub struct ClosedMap<K: HashKey, V: Value, F: Remap<K, V>> {
    owner: Owner<K, V, F>,
}

impl<K: HashKey, V: Value, F: Remap<K, V>> Model for ClosedMap<K, V, F> {
    ghost use Rattle.chm.specs.Headline.{QuietView};
    ghost use Rattle.facing_maps.specs.Places.{quiet_of};

    ghost Value = { QuietView K V F };

    ghost view = { λ c. quiet_of c.owner };
}

impl<K: HashKey, V: Value, F: Remap<K, V>> ClosedMap<K, V, F> {
    /// The closed map, with this owner. It takes no memory.
    pub(crate) fn new(quiet: Quiet<K, V, F, Global>) -> ClosedMap<K, V, F>
        ensures { result ≡ quiet }
    {
        ClosedMap {
            owner: Owner::One(quiet),
        }
    }

    /// The closed map.
    pub(crate) fn quiet(&self) -> &Quiet<K, V, F, Global>
        ensures { result.now ≡ self.now }
    {
        match &self.owner {
            Owner::One(quiet) => quiet,
            Owner::Several(shared) => &**shared,
        }
    }

    /// The value at the key that the query stands for.
    pub(crate) fn get_as<Q: AsKey<K>>(&self, query: Q) -> Option<&V>
        ensures { MatchOption result
            (lookup K.eq (entries_of self.now.bins) (Q.stands_for query) ≡ None)
            (λ value. lookup K.eq (entries_of self.now.bins) (Q.stands_for query)
            ≡ Some value.now) }
    {
        self.quiet().get_as(query)
    }

    /// The same closed map with several owners, where there is memory for their number.
    fn shared(self) -> ClosedMap<K, V, F>
        ensures { result ≡ self }
    {
        let quiet = match self.owner {
            Owner::One(quiet) => quiet,
            Owner::Several(shared) => {
                return ClosedMap {
                    owner: Owner::Several(shared),
                };
            }
        };
        let alloc = *quiet.allocator();
        let owner = match Arc::new(alloc, quiet) {
            Ok(shared) => Owner::Several(shared),
            Err(refused) => Owner::One(refused.value),
        };
        ClosedMap { owner }
    }

    /// One more owner of this closed map, where it has several.
    fn another(&self) -> Option<ClosedMap<K, V, F>>
        ensures { IfSome result (λ c. c ≡ self.now) }
    {
        match &self.owner {
            Owner::One(_) => None,
            Owner::Several(shared) => match Arc::try_clone(shared) {
                Ok(shared) => Some(ClosedMap {
                    owner: Owner::Several(shared),
                }),
                Err(_) => None,
            },
        }
    }

    /// The same closed map, and one more owner of it, or none where there is no memory. The first time it
    /// takes memory for the number of owners.
    pub(crate) fn into_two(self) -> (ClosedMap<K, V, F>, Option<ClosedMap<K, V, F>>)
        ensures same { result.0 ≡ self }
        ensures more { IfSome result.1 (λ c. c ≡ self) }
    {
        let shared = self.shared();
        let more = shared.another();
        (shared, more)
    }
}
