//! A set with clients that come and go.
ghost use Rattle.std.specs.Prelude.{◌≡◌, ◌⊎◌, ⊤, IfErr, IfOk, List};
ghost use Rattle.bin_history.specs.declared.form.Form.TheVariants.{Lean};
ghost use Rattle.bin_history.specs.Limits.{most_clients, most_lean_clients};
ghost use Rattle.chm.specs.Opened.{IsLimited, IsNew};
ghost use Rattle.chm.specs.Refusals.{IsCapacityOf};
ghost use Rattle.count_ledger.specs.Views.{PassView};
ghost use Rattle.functions.specs.declared.nothing.NoFunction.{NoFunction};

use crate::set_client::SetClient;
use clients::{Fault, NoFunction, SharedMap};
use hashkeys::HashKey;
use std::alloc::Allocator;

/// A set with clients that come and go: a shared map from keys to nothing, which `map` is. Its clients
/// insert keys, look for them and remove them.
#[derive(Drop)]
pub struct SharedSet<K: HashKey, A: Allocator> {
    pub map: SharedMap<K, (), NoFunction, A>,
}

impl<K: HashKey, A: Allocator + Clone> SharedSet<K, A> {
    /// Opens a set without keys, as `SharedMap::new` opens a map. It allocates the table, and waits for
    /// nobody.
    ///
    ///     let set: SharedSet<u64, Global> = SharedSet::new(alloc, 16)?;
    ///
    /// # Errors
    ///
    /// `BadCapacity` where the capacity is not 1 to 2^26; and `NoMemory`.
    pub fn new(alloc: A, capacity: usize) -> Result<SharedSet<K, A>, Fault>
        ensures new { IfOk result (λ s. (all : List (PassView K ⊤ NoFunction))
            × IsNew Lean (record { 0 = 0 }) capacity most_lean_clients s.map all) }
        ensures limits { IsLimited (IsCapacityOf Lean capacity) (most_clients Lean)
            most_lean_clients result }
    {
        match SharedMap::new(alloc, capacity) {
            Ok(map) => Ok(SharedSet { map }),
            Err(fault) => Err(fault),
        }
    }

    /// Returns a client of the set, as `SharedMap::client` returns one of a map.
    ///
    ///     let mut client = set.client()?;
    ///
    /// # Errors
    ///
    /// `NoClient` where no client is free; and `NoMemory`.
    pub fn client(&self) -> Result<SetClient<K, A>, Fault>
        ensures map { IfOk result (λ c. c.client.map ≡ self.now.map) }
        ensures faults { IfErr result
            (λ fault. (fault ≡ Fault.NoMemory) ⊎ (fault ≡ Fault.NoClient)) }
    {
        match self.map.client() {
            Ok(client) => Ok(SetClient { client }),
            Err(fault) => Err(fault),
        }
    }
}
