//! Room for what is taken out of a map.
ghost use Rattle.std.specs.Prelude.{◌≡◌, ◌≤◌, [], IfOk, vec_capacity};

use bin_history::{Bin, Remap, Value};
use count_ledger::BinRole;
use hashkeys::HashKey;
use std::alloc::{AllocError, Allocator};

/// Two empty lists, of bins and of their roles, with room for what is taken out of a map. Whoever has
/// it needs no other memory to take the bins out.
#[derive(Drop)]
pub struct Room<K: HashKey, V: Value, F: Remap<K, V>, A: Allocator> {
    pub bins: Vec<Bin<K, V, F, A>, A>,
    pub roles: Vec<BinRole<K, V, F>, A>,
    ghost no_bins: { bins.items ≡ [] },
    ghost no_roles: { roles.items ≡ [] },
}

impl<K: HashKey, V: Value, F: Remap<K, V>, A: Allocator + Clone> Room<K, V, F, A> {
    /// Room for so many bins and their roles: two requests of the allocator.
    pub fn new(alloc: &A, count: u32) -> Result<Room<K, V, F, A>, AllocError>
        ensures { IfOk result
            (λ room. (count ≤ vec_capacity room.bins) × (count ≤ vec_capacity room.roles)) }
    {
        let bins = Vec::with_capacity(alloc.clone()?, count as usize)?;
        let roles = Vec::with_capacity(alloc.clone()?, count as usize)?;
        Ok(Room { bins, roles })
    }
}
