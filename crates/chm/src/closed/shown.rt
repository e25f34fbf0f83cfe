//! A closed map's entries, to be printed.
ghost use Rattle.std.specs.Prelude.{◌≡◌};

use crate::closed::quiet::Quiet;
use bin_history::{Remap, Value};
use hashkeys::HashKey;
use std::alloc::Allocator;
use std::fmt::{self, Debug, Formatter};

/// The entries of a closed map, to be printed with `{:?}` where its keys and values are.
#[derive(Drop)]
pub struct ShownQuiet<'a, K: HashKey, V: Value, F: Remap<K, V>, A: Allocator> {
    pub quiet: &'a Quiet<K, V, F, A>,
}

impl<K: HashKey, V: Value, F: Remap<K, V>, A: Allocator> Quiet<K, V, F, A> {
    /// Returns what prints the entries, bucket by bucket, as `entries` shows them. It copies nothing.
    ///
    ///     format!(in alloc; "{:?}", quiet.shown())?.as_str() == "{1: 5}"
    pub fn shown(&self) -> ShownQuiet<'_, K, V, F, A>
        ensures { result.quiet.now ≡ self.now }
    {
        ShownQuiet { quiet: self }
    }
}

impl<K: HashKey + Debug, V: Value + Debug, F: Remap<K, V>, A: Allocator + Clone> Debug
    for ShownQuiet<'_, K, V, F, A> {
    fn fmt<W: fmt::Write>(&self, f: &mut Formatter<W>) -> fmt::Result {
        let mut map = f.debug_map();
        for (key, value) in self.quiet.entries() {
            map.entry(key, value);
        }
        map.finish()
    }
}
