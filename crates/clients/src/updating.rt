//! A client changes a value by a function of its own.
ghost use Rattle.std.specs.Prelude.{◌≡◌, ◌≤◌, length, IfSome, IfNone, IsSome};
ghost use Rattle.bin_history.specs.Ops.{key_in};
ghost use Rattle.count_ledger.specs.Limits.{most_calls};
ghost use Rattle.chm.specs.Updates.{IsUpdate, IsWithin};

use crate::client::ClientOf;
use crate::holder::{Holder, Seat};
use bin_history::{KeyArg, Remap, Value};
use chm::{Change, Fault};
use hashkeys::HashKey;
use std::alloc::Allocator;
use std::sync::Wait;

impl<H: Holder<K, V, F, A>, K: HashKey, V: Value, F: Remap<K, V>, A: Allocator + Clone> ClientOf<
    H,
    K,
    V,
    F,
    A,
> {
    /// Gives the function the value at the key, where it lies, and makes the change that it returns,
    /// by one call: a put, a remove, or, where the value stays, a `contains_key`. Returns the rest of
    /// what the function returns. The value is the one that all calls before had left there.
    ///
    /// It waits for the key's bucket, which is locked while the function runs: a function that takes
    /// long keeps other clients out of the bucket, and one that calls the map, by whatever client,
    /// deadlocks where the other key is of the same bucket. In a lean map it allocates where the
    /// change makes an entry, and else nowhere; a recorded map copies the key and the values for the
    /// call's record.
    ///
    ///     client.put(rt, 1, 5)?;
    ///     assert_eq!(client.update(rt, 1, |value| (Change::Set(6), value.copied()))?, Some(5));
    ///     assert_eq!(client.get(rt, &1)?, Some(6));
    ///
    /// # Errors
    ///
    /// `PassFull` before the function is called, and `NoMemory`. The map and the client are as they
    /// were. After `NoMemory` the function may have been called: what it returned is dropped.
    pub fn update<R: Wait, T: Drop, G: FnOnce(Option<&V>) -> (Change<V>, T)>(
        &mut self,
        rt: &R,
        key: K,
        f: G,
    ) -> Result<T, Fault>
    where
        G: Drop,
        requires callable { IsWithin self.old.map.ledger self.old.pass → G.IsAlwaysCallable f }
        ensures updated { IsUpdate K.eq V.eq F.remapped F.merged (G.post f) self.old.map.ledger key self.old.pass
            self.new.pass result }
        ensures map { self.new.map ≡ self.old.map }
    {
        self.holder.map().update(rt, self.seat.pass_mut(), key, f)
    }

    /// Updates the value at a borrowed key, as `update` does. The key is copied where an entry is
    /// made of it, and for the record in a recorded map.
    ///
    ///     client.put(rt, 1, 5)?;
    ///     assert_eq!(client.update_lent(rt, &1, |value| (Change::Remove, value.copied()))?, Some(5));
    ///
    /// # Errors
    ///
    /// Those of `update`.
    pub fn update_lent<R: Wait, T: Drop, G: FnOnce(Option<&V>) -> (Change<V>, T)>(
        &mut self,
        rt: &R,
        key: &K,
        f: G,
    ) -> Result<T, Fault>
    where
        G: Drop,
        requires callable { IsWithin self.old.map.ledger self.old.pass → G.IsAlwaysCallable f }
        ensures updated { IsUpdate K.eq V.eq F.remapped F.merged (G.post f) self.old.map.ledger key.now
            self.old.pass self.new.pass result }
        ensures map { self.new.map ≡ self.old.map }
    {
        self.holder
            .map()
            .update_lent(rt, self.seat.pass_mut(), key, f)
    }

    /// Tries to do what `update` does, and waits for nobody. Returns none where the key's bucket is
    /// locked just then: the client is as it was, and the function is dropped and not called.
    ///
    ///     client.put(rt, 1, 5)?;
    ///     assert_eq!(client.try_update(KeyArg::Borrowed(&1), |value| (Change::Keep, value.copied())), Some(Ok(Some(5))));
    ///
    /// # Errors
    ///
    /// Those of `update`.
    pub fn try_update<T: Drop, G: FnOnce(Option<&V>) -> (Change<V>, T)>(
        &mut self,
        key: KeyArg<'_, K>,
        f: G,
    ) -> Option<Result<T, Fault>>
    where
        G: Drop,
        requires callable { IsWithin self.old.map.ledger self.old.pass → G.IsAlwaysCallable f }
        ensures updated { IfSome result (IsUpdate K.eq V.eq F.remapped F.merged (G.post f)
            self.old.map.ledger (key_in key.entry) self.old.pass self.new.pass) }
        ensures full { most_calls self.old.map.ledger.form self.old.map.ledger.clients
            ≤ length self.old.pass.made → IsSome result }
        ensures busy { IfNone result (self.new.pass ≡ self.old.pass) }
        ensures map { self.new.map ≡ self.old.map }
    {
        self.holder.map().try_update(self.seat.pass_mut(), key, f)
    }
}
