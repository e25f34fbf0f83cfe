//! A client changes the value at a key by a function that is lent the value where it lies, or is given
//! it.
//!
//! Each of these calls is one call in the order of all calls, and locks the key's bucket, for which it
//! waits: the bucket stays locked while the function runs. A function that takes long keeps other
//! clients out of the bucket, and one that calls the map, by whatever client, deadlocks where the other
//! key is of the same bucket.
ghost use Rattle.std.specs.Prelude.{◌≡◌, ◌≤◌, Option, Err, length, IfSome, IfNone, IsSome};
ghost use Rattle.std.specs.Fn.{FnOnceReturnsAtMut};
ghost use Rattle.bin_history.specs.Updates.{LeavesSome};
ghost use Rattle.bin_history.specs.declared.form.Form.TheVariants.{Lean};
ghost use Rattle.count_ledger.specs.Limits.{most_calls};
ghost use Rattle.chm.specs.Given.{IsGive, IsModify, LeavesOrKeeps};
ghost use Rattle.chm.specs.Updates.{IsWithin};

use crate::client::ClientOf;
use crate::holder::{Holder, Seat};
use bin_history::{Remap, Value};
use chm::{Fault, NotMade};
use hashkeys::{AsKey, HashKey, MakesKey};
use std::alloc::Allocator;
use std::sync::Wait;

impl<H: Holder<K, V, F, A>, K: HashKey, V: Value, F: Remap<K, V>, A: Allocator + Clone> ClientOf<
    H,
    K,
    V,
    F,
    A,
> {
    /// Lends the function the value at the key, where it lies, and returns what the function returns.
    /// Where the key has no value it returns none, and the function is dropped and not called. The value
    /// is the one that all calls before had left there. It is one call: a put of what the function
    /// leaves, or a `contains_key`.
    ///
    /// It locks the key's bucket, for which it waits, and takes time linear in the keys of the bucket.
    /// In a lean map it copies nothing and allocates nothing. A recorded map lends the function a copy,
    /// and copies the key and the values for the call's record.
    ///
    ///     client.put(rt, 1, 5)?;
    ///     assert_eq!(client.modify(rt, &1, |value| replace(value, 6))?, Some(5));
    ///     assert_eq!(client.get(rt, &1)?, Some(6));
    ///     assert_eq!(client.modify(rt, &2, |value| *value = 7)?, None);
    ///
    /// # Errors
    ///
    /// `PassFull` before the function is called. In a recorded map, `NoMemory`: the function may have been
    /// called, and what it returned is dropped. The map and the client are as they were.
    pub fn modify<R: Wait, T: Drop, G: FnOnce(&mut V) -> T>(
        &mut self,
        rt: &R,
        key: &K,
        f: G,
    ) -> Result<Option<T>, Fault>
    where
        G: Drop,
        requires callable { IsWithin self.old.map.ledger self.old.pass → G.IsAlwaysCallable f }
        ensures modified { IsModify K.eq V.eq F.remapped F.merged (FnOnceReturnsAtMut G.FnOnce f)
            self.old.map.ledger key.now self.old.pass self.new.pass result }
        ensures map { self.new.map ≡ self.old.map }
    {
        self.holder.map().modify(rt, self.seat.pass_mut(), key, f)
    }

    /// Tries to do what `modify` does, and waits for nobody. Returns none where the key's bucket is
    /// locked just then: the client is as it was, and the function is dropped and not called.
    ///
    ///     client.put(rt, 1, 5)?;
    ///     assert_eq!(client.try_modify(&1, |value| replace(value, 6)), Some(Ok(Some(5))));
    ///
    /// # Errors
    ///
    /// Those of `modify`.
    pub fn try_modify<T: Drop, G: FnOnce(&mut V) -> T>(
        &mut self,
        key: &K,
        f: G,
    ) -> Option<Result<Option<T>, Fault>>
    where
        G: Drop,
        requires callable { IsWithin self.old.map.ledger self.old.pass → G.IsAlwaysCallable f }
        ensures modified { IfSome result (IsModify K.eq V.eq F.remapped F.merged
            (FnOnceReturnsAtMut G.FnOnce f) self.old.map.ledger key.now self.old.pass self.new.pass) }
        ensures full { most_calls self.old.map.ledger.form self.old.map.ledger.clients
            ≤ length self.old.pass.made → IsSome result }
        ensures busy { IfNone result (self.new.pass ≡ self.old.pass) }
        ensures map { self.new.map ≡ self.old.map }
    {
        self.holder.map().try_modify(self.seat.pass_mut(), key, f)
    }

    /// Lends the function the value at the key that the query stands for, as a slice stands for the key
    /// of its bytes. No key is made, so it requires a lean map. In all else it does what `modify` does.
    ///
    ///     client.put(rt, Bytes(b"one"), 5)?;
    ///     assert_eq!(client.modify_as(rt, b"one".as_slice(), |value| replace(value, 6))?, Some(5));
    ///
    /// # Errors
    ///
    /// `PassFull` before the function is called. The map and the client are as they were.
    pub fn modify_as<R: Wait, Q: AsKey<K>, T, G: FnOnce(&mut V) -> T>(
        &mut self,
        rt: &R,
        query: Q,
        f: G,
    ) -> Result<Option<T>, Fault>
    where
        G: Drop,
        requires form { self.old.map.ledger.form ≡ Lean }
        requires callable { IsWithin self.old.map.ledger self.old.pass → G.IsAlwaysCallable f }
        ensures modified { IsModify K.eq V.eq F.remapped F.merged (FnOnceReturnsAtMut G.FnOnce f)
            self.old.map.ledger (Q.stands_for query) self.old.pass self.new.pass result }
        ensures map { self.new.map ≡ self.old.map }
    {
        self.holder
            .map()
            .modify_as(rt, self.seat.pass_mut(), query, f)
    }

    /// Lends the function the value at the key, or the default where there is none, and returns what
    /// the function returns. The key has what the function leaves, by a put. The key is given by a
    /// reference to one, or by what makes one, such as a slice; it is made only where the map has no
    /// entry of it.
    ///
    /// It locks the key's bucket, for which it waits, and takes time linear in the keys of the bucket.
    /// In a lean map it copies no value, and allocates only for a new key and its entry, before it calls
    /// the function. A recorded map lends the function a copy, and copies the key and the values for the
    /// call's record.
    ///
    ///     assert_eq!(client.modify_or_insert(rt, &1, 10, |value| replace(value, 11))?, 10);
    ///     assert_eq!(client.modify_or_insert(rt, &1, 10, |value| replace(value, 12))?, 11);
    ///     assert_eq!(client.get(rt, &1)?, Some(12));
    ///
    /// # Errors
    ///
    /// `PassFull` before the function is called. `NoMemory`, which in a lean map comes only where the key
    /// has no value. The map and the client are as they were. The default and the function come back,
    /// and the function was not called; but nothing comes back of a recorded map that was out of memory
    /// after it had called the function.
    pub fn modify_or_insert<R: Wait, Q: MakesKey<K, A>, T: Drop, G: FnOnce(&mut V) -> T>(
        &mut self,
        rt: &R,
        key: Q,
        default: V,
        f: G,
    ) -> Result<T, NotMade<(V, G)>>
    where
        G: Drop,
        requires callable { IsWithin self.old.map.ledger self.old.pass → G.IsAlwaysCallable f }
        ensures made { IsGive K.eq V.eq F.remapped F.merged
            (LeavesSome (FnOnceReturnsAtMut G.FnOnce f) default) self.old.map.ledger
            (Q.stands_for key) (default, f) self.old.pass self.new.pass result }
        ensures map { self.new.map ≡ self.old.map }
    {
        self.holder
            .map()
            .modify_or_insert(rt, self.seat.pass_mut(), key, default, f)
    }

    /// Tries to do what `modify_or_insert` does, and waits for nobody. Returns none where the key's
    /// bucket is locked just then: the client is as it was, and the default and the function are dropped.
    ///
    ///     client.remove(rt, &1)?;
    ///     assert!(client.try_modify_or_insert(&1, 10, |value| *value).is_some());
    ///
    /// # Errors
    ///
    /// Those of `modify_or_insert`.
    pub fn try_modify_or_insert<Q: MakesKey<K, A>, T: Drop, G: FnOnce(&mut V) -> T>(
        &mut self,
        key: Q,
        default: V,
        f: G,
    ) -> Option<Result<T, NotMade<(V, G)>>>
    where
        G: Drop,
        requires callable { IsWithin self.old.map.ledger self.old.pass → G.IsAlwaysCallable f }
        ensures made { IfSome result (IsGive K.eq V.eq F.remapped F.merged
            (LeavesSome (FnOnceReturnsAtMut G.FnOnce f) default) self.old.map.ledger
            (Q.stands_for key) (default, f) self.old.pass self.new.pass) }
        ensures full { most_calls self.old.map.ledger.form self.old.map.ledger.clients
            ≤ length self.old.pass.made → IsSome result }
        ensures busy { IfNone result (self.new.pass ≡ self.old.pass) }
        ensures map { self.new.map ≡ self.old.map }
    {
        self.holder
            .map()
            .try_modify_or_insert(self.seat.pass_mut(), key, default, f)
    }

    /// Gives the function the value at the key, or none, and returns the second part of what the function
    /// returns. The key has the first part, by a put; where that is none, the key is removed. The key is
    /// given, and memory is taken, as by `modify_or_insert`; a recorded map gives the function a copy.
    ///
    ///     client.remove(rt, &1)?;
    ///     assert_eq!(client.update_owned(rt, &1, |value| (Some(5), value))?, None);
    ///     assert_eq!(client.update_owned(rt, &1, |value| (None, value))?, Some(5));
    ///     assert_eq!(client.get(rt, &1)?, None);
    ///
    /// # Errors
    ///
    /// Those of `modify_or_insert`; the function comes back.
    pub fn update_owned<
        R: Wait,
        Q: MakesKey<K, A>,
        T: Drop,
        G: FnOnce(Option<V>) -> (Option<V>, T),
    >(&mut self, rt: &R, key: Q, f: G) -> Result<T, NotMade<G>>
    where
        G: Drop,
        requires callable { IsWithin self.old.map.ledger self.old.pass → G.IsAlwaysCallable f }
        ensures made { IsGive K.eq V.eq F.remapped F.merged (G.post f) self.old.map.ledger
            (Q.stands_for key) f self.old.pass self.new.pass result }
        ensures map { self.new.map ≡ self.old.map }
    {
        self.holder
            .map()
            .update_owned(rt, self.seat.pass_mut(), key, f)
    }

    /// Tries to do what `update_owned` does, and waits for nobody. Returns none where the key's bucket
    /// is locked just then: the client is as it was, and the function is dropped and not called.
    ///
    ///     assert!(client.try_update_owned(&1, |value| (Some(5), value)).is_some());
    ///
    /// # Errors
    ///
    /// Those of `update_owned`.
    pub fn try_update_owned<Q: MakesKey<K, A>, T: Drop, G: FnOnce(Option<V>) -> (Option<V>, T)>(
        &mut self,
        key: Q,
        f: G,
    ) -> Option<Result<T, NotMade<G>>>
    where
        G: Drop,
        requires callable { IsWithin self.old.map.ledger self.old.pass → G.IsAlwaysCallable f }
        ensures made { IfSome result (IsGive K.eq V.eq F.remapped F.merged (G.post f)
            self.old.map.ledger (Q.stands_for key) f self.old.pass self.new.pass) }
        ensures full { most_calls self.old.map.ledger.form self.old.map.ledger.clients
            ≤ length self.old.pass.made → IsSome result }
        ensures busy { IfNone result (self.new.pass ≡ self.old.pass) }
        ensures map { self.new.map ≡ self.old.map }
    {
        self.holder
            .map()
            .try_update_owned(self.seat.pass_mut(), key, f)
    }

    /// Lends the function the place of the value at the key, or of none, and returns what the function
    /// returns. The key has what the function leaves in the place, by a put; where it leaves none, the
    /// key is removed. The function may return an error of its own: the place is then as it was. The key
    /// is given, and memory is taken, as by `modify_or_insert`; a recorded map lends the function a copy.
    ///
    /// Where `taken` takes the value out of a place, and fails with 7 where there is none:
    ///
    ///     client.remove(rt, &1)?;
    ///     assert_eq!(client.update_or_keep(rt, &1, taken)?, Err(7));
    ///     client.put(rt, 1, 5)?;
    ///     assert_eq!(client.update_or_keep(rt, &1, taken)?, Ok(5));
    ///     assert_eq!(client.get(rt, &1)?, None);
    ///
    /// A function that is shown the value and may fail goes to `update`, and returns
    /// `(Change::Keep, Err(error))` where it does.
    ///
    /// # Errors
    ///
    /// Those of `modify_or_insert`; the function comes back.
    pub fn update_or_keep<
        R: Wait,
        Q: MakesKey<K, A>,
        T: Drop,
        E: Drop,
        G: FnOnce(&mut Option<V>) -> Result<T, E>,
    >(&mut self, rt: &R, key: Q, f: G) -> Result<Result<T, E>, NotMade<G>>
    where
        G: Drop,
        requires callable { IsWithin self.old.map.ledger self.old.pass → G.IsAlwaysCallable f }
        requires keeps { (before : Option V) (error : E) (after : Option V) →
            FnOnceReturnsAtMut G.FnOnce f before (Err error) after → after ≡ before }
        ensures made { IsGive K.eq V.eq F.remapped F.merged
            (LeavesOrKeeps (FnOnceReturnsAtMut G.FnOnce f)) self.old.map.ledger (Q.stands_for key) f
            self.old.pass self.new.pass result }
        ensures map { self.new.map ≡ self.old.map }
    {
        self.holder
            .map()
            .update_or_keep(rt, self.seat.pass_mut(), key, f)
    }

    /// Tries to do what `update_or_keep` does, and waits for nobody. Returns none where the key's bucket
    /// is locked just then: the client is as it was, and the function is dropped and not called.
    ///
    ///     assert!(client.try_update_or_keep(&1, taken).is_some());
    ///
    /// # Errors
    ///
    /// Those of `update_or_keep`.
    pub fn try_update_or_keep<
        Q: MakesKey<K, A>,
        T: Drop,
        E: Drop,
        G: FnOnce(&mut Option<V>) -> Result<T, E>,
    >(&mut self, key: Q, f: G) -> Option<Result<Result<T, E>, NotMade<G>>>
    where
        G: Drop,
        requires callable { IsWithin self.old.map.ledger self.old.pass → G.IsAlwaysCallable f }
        requires keeps { (before : Option V) (error : E) (after : Option V) →
            FnOnceReturnsAtMut G.FnOnce f before (Err error) after → after ≡ before }
        ensures made { IfSome result (IsGive K.eq V.eq F.remapped F.merged
            (LeavesOrKeeps (FnOnceReturnsAtMut G.FnOnce f)) self.old.map.ledger (Q.stands_for key) f
            self.old.pass self.new.pass) }
        ensures full { most_calls self.old.map.ledger.form self.old.map.ledger.clients
            ≤ length self.old.pass.made → IsSome result }
        ensures busy { IfNone result (self.new.pass ≡ self.old.pass) }
        ensures map { self.new.map ≡ self.old.map }
    {
        self.holder
            .map()
            .try_update_or_keep(self.seat.pass_mut(), key, f)
    }
}
