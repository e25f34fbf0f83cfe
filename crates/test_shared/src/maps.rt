//! New maps of tests and their clients, and what is left when they are closed.
use clients::{Add, Fault, HashKey, OwnedClient, Remap, Salt, SharedMap, SharedNotClosed, Value};
use std::alloc::{Allocator, Global};

/// A shared map of these tests.
pub(crate) type Numbers = SharedMap<u64, u64, Add, Global>;

/// A client of it.
pub(crate) type Owned = OwnedClient<u64, u64, Add, Global>;

pub(crate) fn share(alloc: Global, clients: u32) -> Result<Numbers, Fault> {
    SharedMap::with_salt(alloc, 1, clients, Salt(0))
}

/// How many keys the closed map has, or else why it was not closed, and the shared map.
pub(crate) fn close(map: Numbers) -> Result<u64, (Fault, Option<Numbers>)> {
    match map.close() {
        Ok(closed) => Ok(closed.mapping_count()),
        Err(refused) => {
            let SharedNotClosed {
                fault,
                shared,
                unshared: _,
            } = refused;
            Err((fault, shared))
        }
    }
}

/// A copy of a number that may be there.
pub(crate) fn copied(value: Option<&u64>) -> Option<u64> {
    value.copied()
}

/// How many keys a map has whose clients are back, and that is closed.
pub(crate) fn keys_of<K: HashKey, V: Value, F: Remap<K, V>, A: Allocator + Clone>(
    map: SharedMap<K, V, F, A>,
) -> Option<u64> {
    let closed = map.close().ok()?;
    Some(closed.mapping_count())
}

/// A client of a new map for 65,536 clients, whose table begins with 16 buckets.
pub(crate) fn client_of_many<K: HashKey, V: Value, F: Remap<K, V>, A: Allocator + Clone>(
    alloc: A,
) -> Result<OwnedClient<K, V, F, A>, Fault> {
    SharedMap::new(alloc, 16)?.client()
}
