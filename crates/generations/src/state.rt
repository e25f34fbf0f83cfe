//! What lies under the lock of a place, and the fact that the lock keeps of it.
use bin_history::{Bin, Remap, Value};
use bin_layout::PlaceTag;
use count_ledger::BinRole;
use counted_slot::Fits;
use hashkeys::HashKey;
use std::alloc::Allocator;

/// A bin with its role, or neither: they were not put there yet, are held, were halved, or were
/// taken for good. The role comes first, beside the state's tag.
#[derive(Drop)]
pub(crate) enum State<K: HashKey, V: Value, F: Remap<K, V>, A: Allocator> {
    Live(BinRole<K, V, F>, Bin<K, V, F, A>),
    Away,
}

impl<K: HashKey, V: Value, F: Remap<K, V>, A: Allocator> Fits for State<K, V, F, A> {
    ghost use Rattle.bin_history.specs.Calls.{after};
    ghost use Rattle.generations.specs.States.{FitsPlace};

    type Tag = PlaceTag;

    ghost fits = { λ tag s. FitsPlace K.eq (after V.eq F.remapped F.merged) tag s };
}
