//! What teams, shared maps and clients show of themselves: their map, and a client's number.
use crate::client::ClientOf;
use crate::holder::Holder;
use crate::shared::SharedMap;
use crate::team::Team;
use crate::unshared::Unshared;
use bin_history::{Remap, Value};
use hashkeys::HashKey;
use std::alloc::Allocator;
use std::fmt::{self, Debug, Formatter};

impl<K: HashKey, V: Value, F: Remap<K, V>, A: Allocator> Debug for Team<K, V, F, A> {
    fn fmt<W: fmt::Write>(&self, f: &mut Formatter<W>) -> fmt::Result {
        f.debug_struct("Team").field("map", self.map()).finish()
    }
}

impl<K: HashKey, V: Value, F: Remap<K, V>, A: Allocator> Debug for SharedMap<K, V, F, A> {
    fn fmt<W: fmt::Write>(&self, f: &mut Formatter<W>) -> fmt::Result {
        f.debug_struct("SharedMap")
            .field("map", self.map())
            .finish()
    }
}

impl<K: HashKey, V: Value, F: Remap<K, V>, A: Allocator> Debug for Unshared<K, V, F, A> {
    fn fmt<W: fmt::Write>(&self, f: &mut Formatter<W>) -> fmt::Result {
        f.debug_struct("Unshared").field("map", self.map()).finish()
    }
}

impl<H: Holder<K, V, F, A>, K: HashKey, V: Value, F: Remap<K, V>, A: Allocator> Debug
    for ClientOf<H, K, V, F, A> {
    fn fmt<W: fmt::Write>(&self, f: &mut Formatter<W>) -> fmt::Result {
        f.debug_struct("Client")
            .field("number", &self.number())
            .field("map", self.map())
            .finish()
    }
}
