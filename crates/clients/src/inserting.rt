//! A client puts what a function makes, where a key has no value.
ghost use Rattle.std.specs.Prelude.{◌≡◌, IfOk, IsOk, option_copied};
ghost use Rattle.bin_history.specs.Sure.{IsNeverRefused};
ghost use Rattle.chm.specs.Updates.{IsWithin};
ghost use Rattle.clients.specs.Inserted.{FindsOrMakes, IsInserted};

use crate::client::ClientOf;
use crate::holder::{Holder, Seat};
use bin_history::{Exact, Remap, Value};
use chm::{Change, Fault, Map, Pass};
use hashkeys::{HashKey, MakesKey};
use std::alloc::{AllocError, Allocator};
use std::sync::Wait;

/// A copy of a value.
fn copied<V: Exact>(value: &V) -> Result<V, AllocError>
    ensures copy { IfOk result (λ copy. copy ≡ value.now) }
    ensures sure { IsNeverRefused V.is_infallible → IsOk result }
{
    value.clone()
}

/// What is to become of the value at a key, and a copy of what the key has then. Where no copy can be
/// made, the value stays, or none.
fn found_or_made<V: Value, M: FnOnce() -> V>(
    found: Option<&V>,
    make: M,
) -> (Change<V>, Result<V, AllocError>)
where
    M: Drop,
    requires { M.IsAlwaysCallable make }
    ensures { FindsOrMakes (M.post make) V.is_infallible (option_copied found.entry) result.0
        result.1 }
{
    let Some(value) = found else {
        let made = make();
        return match copied(&made) {
            Ok(copy) => (Change::Set(made), Ok(copy)),
            Err(error) => (Change::Keep, Err(error)),
        };
    };
    (Change::Keep, copied(value))
}

/// Puts what the function makes, where the key has no value. Returns a copy of what the key has then.
fn insert_with<
    K: HashKey,
    V: Value,
    F: Remap<K, V>,
    A: Allocator + Clone,
    R: Wait,
    Q: MakesKey<K, A>,
    M: FnOnce() -> V,
>(rt: &R, map: &Map<K, V, F, A>, pass: &mut Pass<K, V, F>, key: Q, make: M) -> Result<V, Fault>
where
    M: Drop,
    requires callable { IsWithin map.now.ledger pass.old → M.IsAlwaysCallable make }
    requires pass { pass.old.ledger ≡ map.now.ledger.id }
    ensures { IsInserted K.eq V.eq F.remapped F.merged (M.post make) V.is_infallible map.now.ledger
        (Q.stands_for key) pass.old pass.new result }
{
    match map.update_as(
        rt,
        pass,
        key,
        move |found: Option<&V>| found_or_made(found, make),
    ) {
        Ok(Ok(value)) => Ok(value),
        Ok(Err(_)) => Err(Fault::NoMemory),
        Err(refused) => Err(refused.fault),
    }
}

impl<H: Holder<K, V, F, A>, K: HashKey, V: Value, F: Remap<K, V>, A: Allocator + Clone> ClientOf<
    H,
    K,
    V,
    F,
    A,
> {
    /// Returns a copy of the value at the key, after it has put the value that the function makes where
    /// there was none. The function is called only where the key has no value; else it is dropped. The
    /// key is given by a reference to one, or by what makes one, such as a slice; it is made only where
    /// the map has no entry of it.
    ///
    /// It is one call: a put of what the key has then. It locks the key's bucket, for which it waits and
    /// which stays locked while the function runs, and takes time linear in the keys of the bucket. A
    /// function that takes long keeps other clients out of the bucket, and one that calls the map, by
    /// whatever client, deadlocks where the other key is of the same bucket. In a lean map it allocates
    /// for a new key, before it calls the function, and what the function and the copy of the value do. A
    /// recorded map copies the key and the values for the call's record too.
    ///
    ///     client.remove(rt, &1)?;
    ///     assert_eq!(client.get_or_insert_with(rt, &1, || 5)?, 5);
    ///     assert_eq!(client.get_or_insert_with(rt, &1, || 6)?, 5);
    ///     assert_eq!(client.get(rt, &1)?, Some(5));
    ///
    /// # Errors
    ///
    /// `PassFull` before the function is called, and `NoMemory`. The value at the key stays, or there is
    /// none still; what the function made is dropped. Where the copy of the value was refused, the client
    /// has made a call that left all as it was; on any other fault it has made none.
    pub fn get_or_insert_with<R: Wait, Q: MakesKey<K, A>, M: FnOnce() -> V>(
        &mut self,
        rt: &R,
        key: Q,
        make: M,
    ) -> Result<V, Fault>
    where
        M: Drop,
        requires callable { IsWithin self.old.map.ledger self.old.pass → M.IsAlwaysCallable make }
        ensures inserted { IsInserted K.eq V.eq F.remapped F.merged (M.post make) V.is_infallible
            self.old.map.ledger (Q.stands_for key) self.old.pass self.new.pass result }
        ensures map { self.new.map ≡ self.old.map }
    {
        insert_with(rt, self.holder.map(), self.seat.pass_mut(), key, make)
    }
}
