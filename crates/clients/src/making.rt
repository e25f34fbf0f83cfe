//! The calls of a client that may make their key, by what makes it, as a slice makes the key of its
//! bytes: a key is made only where the map has no entry of it.
//!
//! Each is one call in the order of all calls: a put of what the key has then, or a `remove` where it has
//! nothing. Each locks the key's bucket, for which it waits, and takes time linear in the keys of the
//! bucket. The bucket stays locked while a function runs: one that takes long keeps other clients out of
//! the bucket, and one that calls the map, by whatever client, deadlocks where the other key is of the
//! same bucket.
//!
//! A lean map copies nothing. It allocates only for a key that has no entry, and for the entry, before it
//! calls the function; a bucket's first entry lies in the bucket, and takes no memory. A recorded map
//! makes the key, and copies it and the values for the call's record.
ghost use Rattle.std.specs.Prelude.{◌≡◌, Some};
ghost use Rattle.chm.specs.Given.{IsGive, LeavesByChange, LeavesMerged, put_where_none};
ghost use Rattle.chm.specs.Updates.{IsWithin};

use crate::client::ClientOf;
use crate::holder::{Holder, Seat};
use bin_history::{Remap, Value};
use chm::{Change, NotMade};
use hashkeys::{HashKey, MakesKey};
use std::alloc::Allocator;
use std::sync::Wait;

impl<H: Holder<K, V, F, A>, K: HashKey, V: Value, F: Remap<K, V>, A: Allocator + Clone> ClientOf<
    H,
    K,
    V,
    F,
    A,
> {
    /// Sets the value at the key that the query makes, and returns the value before. It locks the key's
    /// bucket, for which it waits, and takes time linear in the keys of the bucket. In a lean map it
    /// allocates for a new key alone, which is made only then.
    ///
    ///     assert_eq!(client.put_as(rt, b"one".as_slice(), 5)?, None);
    ///     assert_eq!(client.put_as(rt, b"one".as_slice(), 6)?, Some(5));
    ///
    /// # Errors
    ///
    /// `PassFull` where the client has made all the calls that it may, and `NoMemory`. Nothing is changed
    /// then, and the value comes back; but nothing comes back of a recorded map that was out of memory
    /// after it had moved the value.
    pub fn put_as<R: Wait, Q: MakesKey<K, A>>(
        &mut self,
        rt: &R,
        query: Q,
        value: V,
    ) -> Result<Option<V>, NotMade<V>>
        ensures made { IsGive K.eq V.eq F.remapped F.merged (λ before r. r ≡ (Some value, before))
            self.old.map.ledger (Q.stands_for query) value self.old.pass self.new.pass result }
        ensures map { self.new.map ≡ self.old.map }
    {
        self.holder
            .map()
            .put_as(rt, self.seat.pass_mut(), query, value)
    }

    /// Sets the value at the key that the query makes, where it has none. Returns none then, and else the
    /// value that was given: nothing is copied. It locks the key's bucket, for which it waits, and takes
    /// time linear in the keys of the bucket. In a lean map it allocates for a new key alone.
    ///
    ///     client.remove_as(rt, b"one".as_slice())?;
    ///     assert_eq!(client.put_if_absent_as(rt, b"one".as_slice(), 5)?, None);
    ///     assert_eq!(client.put_if_absent_as(rt, b"one".as_slice(), 6)?, Some(6));
    ///     assert_eq!(client.get_as(rt, b"one".as_slice())?, Some(5));
    ///
    /// # Errors
    ///
    /// Those of `put_as`.
    pub fn put_if_absent_as<R: Wait, Q: MakesKey<K, A>>(
        &mut self,
        rt: &R,
        query: Q,
        value: V,
    ) -> Result<Option<V>, NotMade<V>>
        ensures made { IsGive K.eq V.eq F.remapped F.merged (λ before r. r ≡ put_where_none value before)
            self.old.map.ledger (Q.stands_for query) value self.old.pass self.new.pass result }
        ensures map { self.new.map ≡ self.old.map }
    {
        self.holder
            .map()
            .put_if_absent_as(rt, self.seat.pass_mut(), query, value)
    }

    /// Sets this value at the key that the query makes, where it has none, and else what the function
    /// makes of the value before and of this one; where it makes none, the key is removed. Returns whether
    /// there was a value. It locks the key's bucket, for which it waits and which stays locked while the
    /// function runs, and takes time linear in the keys of the bucket. In a lean map it allocates for a
    /// new key, and what the function does.
    ///
    ///     client.remove_as(rt, b"one".as_slice())?;
    ///     assert_eq!(client.merge_as(rt, b"one".as_slice(), 5, |old, new| Some(old.min(new)))?, false);
    ///     assert_eq!(client.merge_as(rt, b"one".as_slice(), 3, |old, new| Some(old.min(new)))?, true);
    ///     assert_eq!(client.get_as(rt, b"one".as_slice())?, Some(3));
    ///
    /// # Errors
    ///
    /// `PassFull` before the function is called, and `NoMemory`. The map and the client are as they were.
    /// The value and the function come back, and the function was not called; but nothing comes back of a
    /// recorded map that was out of memory once the new value was made.
    pub fn merge_as<R: Wait, Q: MakesKey<K, A>, G: FnOnce(V, V) -> Option<V>>(
        &mut self,
        rt: &R,
        query: Q,
        value: V,
        f: G,
    ) -> Result<bool, NotMade<(V, G)>>
    where
        G: Drop,
        requires callable { IsWithin self.old.map.ledger self.old.pass → G.IsAlwaysCallable f }
        ensures made { IsGive K.eq V.eq F.remapped F.merged (LeavesMerged (G.post f) value)
            self.old.map.ledger (Q.stands_for query) (value, f) self.old.pass self.new.pass result }
        ensures map { self.new.map ≡ self.old.map }
    {
        self.holder
            .map()
            .merge_as(rt, self.seat.pass_mut(), query, value, f)
    }

    /// Shows the function the value at the key that the query makes, and makes the change that it
    /// returns. Returns the rest of what the function returns. A value that stays is put once more, and
    /// where there is none a `remove` is made. It locks the key's bucket, for which it waits and which
    /// stays locked while the function runs, and takes time linear in the keys of the bucket. In a lean
    /// map it allocates for a new key, before it calls the function, and what the function does.
    ///
    ///     client.put_as(rt, b"one".as_slice(), 5)?;
    ///     assert_eq!(client.update_as(rt, b"one".as_slice(), |v| (Change::Set(6), v.copied()))?, Some(5));
    ///     assert_eq!(client.get_as(rt, b"one".as_slice())?, Some(6));
    ///
    /// # Errors
    ///
    /// Those of `merge_as`; the function comes back.
    pub fn update_as<R: Wait, Q: MakesKey<K, A>, T: Drop, G: FnOnce(Option<&V>) -> (Change<V>, T)>(
        &mut self,
        rt: &R,
        query: Q,
        f: G,
    ) -> Result<T, NotMade<G>>
    where
        G: Drop,
        requires callable { IsWithin self.old.map.ledger self.old.pass → G.IsAlwaysCallable f }
        ensures made { IsGive K.eq V.eq F.remapped F.merged (LeavesByChange (G.post f)) self.old.map.ledger
            (Q.stands_for query) f self.old.pass self.new.pass result }
        ensures map { self.new.map ≡ self.old.map }
    {
        self.holder
            .map()
            .update_as(rt, self.seat.pass_mut(), query, f)
    }
}
