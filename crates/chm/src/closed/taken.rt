//! The pairs of a closed map, taken out of it.
ghost use Rattle.std.specs.Prelude.{◌≡◌, [], ◌≤◌, length, vec_len, vec_capacity, IfOk, IfErr};
ghost use Rattle.bin_history.specs.Entries.{HasDistinctKeys};
ghost use Rattle.chm.specs.Headline.{entries_of};

use crate::closed::quiet::Quiet;
use bin_history::{Bin, Remap, Value};
use hashkeys::HashKey;
use std::alloc::{AllocError, Allocator};

/// Moves the pairs of the bins, bin by bin, into a list that has room for them.
fn move_all<K: HashKey, V: Value, F: Remap<K, V>, A: Allocator + Clone>(
    bins: Vec<Bin<K, V, F, A>, A>,
    mut room: Vec<(K, V), A>,
) -> Vec<(K, V), A>
    requires none { room.items ≡ [] }
    requires room { length (entries_of bins.items) ≤ vec_capacity room }
    ensures { result.items ≡ entries_of bins.items }
{
    for bin in bins {
        room = bin.pour(room);
    }
    room
}

impl<K: HashKey, V: Value, F: Remap<K, V>, A: Allocator + Clone> Quiet<K, V, F, A> {
    /// An empty list with room for all pairs.
    fn room(&self) -> Result<Vec<(K, V), A>, AllocError>
        ensures none { IfOk result (λ list. list.items ≡ []) }
        ensures room { IfOk result (λ list. length (entries_of self.now.bins) ≤ vec_capacity list) }
    {
        Vec::with_capacity(self.bins.allocator().clone()?, self.count as usize)
    }

    /// The pairs, bin by bin, as `entries` goes over them, taken out of the map by value: no key
    /// and no value is copied. It asks for the memory of one list. Where that is refused the closed
    /// map comes back as it was.
    ///
    ///     match quiet.into_entries() {
    ///         Ok(pairs) => pairs.as_slice() == [(1, 5)].as_slice(),
    ///         Err(_) => false,
    ///     }
    pub fn into_entries(self) -> Result<Vec<(K, V), A>, Quiet<K, V, F, A>>
        ensures entries { IfOk result (λ list. list.items ≡ entries_of self.bins) }
        ensures distinct { IfOk result (λ list. HasDistinctKeys K.eq list.items) }
        ensures refused { IfErr result (λ quiet. quiet ≡ self) }
    {
        self.histories();
        match self.room() {
            Ok(room) => Ok(move_all(self.into_bins(), room)),
            Err(AllocError) => Err(self),
        }
    }
}
