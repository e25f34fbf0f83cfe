//! What maps show of themselves: their form and a few numbers, and none of their keys.
use crate::closed::quiet::Quiet;
use crate::map::Map;
use bin_history::{Remap, Value};
use hashkeys::HashKey;
use std::alloc::Allocator;
use std::fmt::{self, Debug, Formatter};

impl<K: HashKey, V: Value, F: Remap<K, V>, A: Allocator> Debug for Map<K, V, F, A> {
    fn fmt<W: fmt::Write>(&self, f: &mut Formatter<W>) -> fmt::Result {
        f.debug_struct("Map")
            .field("form", &self.form())
            .field("clients", &self.clients())
            .field("keys", &self.mapping_count())
            .finish_non_exhaustive()
    }
}

impl<K: HashKey, V: Value, F: Remap<K, V>, A: Allocator> Debug for Quiet<K, V, F, A> {
    fn fmt<W: fmt::Write>(&self, f: &mut Formatter<W>) -> fmt::Result {
        f.debug_struct("Quiet")
            .field("form", &self.form())
            .field("bins", &self.bins().len())
            .field("keys", &self.mapping_count())
            .finish_non_exhaustive()
    }
}
