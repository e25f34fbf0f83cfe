//! Keys as contracts know them.
ghost use Rattle.std.specs.Prelude.{◌≡◌};
ghost use base.Fml.{ftrue};

use hashkeys::{AsKey, HashKey};
use std::marker::{Model, PhantomData};

/// How a key is read off a value.
pub(crate) trait Stands<K, X> {
    ghost key: { X → K };
}

/// The key of a call in contracts alone: it need not be there. It has no bytes and owns nothing.
#[derive(Drop)]
pub(crate) struct SeenKey<K> {
    marker: PhantomData<K>,
    pub(crate) ghost value: { K },
}

impl<K> Model for SeenKey<K> {
    ghost also_owns = { λ _. ftrue };
}

impl<K> SeenKey<K> {
    /// The key that is read off the value.
    pub(crate) fn of<X, M: Stands<K, X>>(x: &X) -> SeenKey<K>
        ensures { result.value ≡ M.key x.now }
    {
        SeenKey {
            marker: PhantomData,
        }
    }
}

/// Reads the key off what stands for it.
struct ByQuery;

impl<K: HashKey, Q: AsKey<K>> Stands<K, Q> for ByQuery {
    ghost key = { λ q. Q.stands_for q };
}

impl<K: HashKey> SeenKey<K> {
    /// The key that this stands for.
    #[inline(always)]
    pub(crate) fn of_query<Q: AsKey<K>>(query: Q) -> SeenKey<K>
        ensures { result.value ≡ Q.stands_for query }
    {
        SeenKey::of::<Q, ByQuery>(&query)
    }
}
