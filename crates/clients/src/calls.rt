//! The calls of a client, each with a result of its own type. One that may make an entry of its key
//! takes the key, the others borrow it.
//!
//! What a call says of memory is said of a lean map. In a recorded map each call also copies its key
//! and the values before and after for its record. In either, a call that finds the table full or a
//! move open does a part of the move, which may allocate; that this fails does not fail the call.
ghost use Rattle.std.specs.Prelude.{◌≡◌, true, false};
ghost use Rattle.bin_history.specs.Ops.{call_on, key_in};
ghost use Rattle.bin_history.specs.Sure.{IsNeverRefused};
ghost use Rattle.chm.specs.Headline.{IsAnsweredAs};
ghost use Rattle.chm.specs.Sure.{IsMadeOrFull, IsSureOf};
ghost use Rattle.bin_history.specs.declared.call.Call.TheVariants.{Get, Contains, Put, PutIfAbsent};
ghost use Rattle.bin_history.specs.declared.call.Call.TheVariants.{Remove, RemoveIf, Replace};
ghost use Rattle.bin_history.specs.declared.call.Call.TheVariants.{ReplaceIf, Compute};
ghost use Rattle.bin_history.specs.declared.call.Reply.TheVariants.{Value, Truth};
ghost use Rattle.bin_history.specs.declared.form.Form.TheVariants.{Lean};
ghost use Rattle.clients.specs.Replies.{answers_truth};

use crate::client::ClientOf;
use crate::holder::{Holder, Seat};
use bin_history::{KeyArg, Op, Remap, Reply, Value};
use chm::Fault;
use hashkeys::HashKey;
use std::alloc::Allocator;
use std::sync::Wait;

impl<H: Holder<K, V, F, A>, K: HashKey, V: Value, F: Remap<K, V>, A: Allocator + Clone> ClientOf<
    H,
    K,
    V,
    F,
    A,
> {
    /// Makes a call whose reply is a value.
    pub(crate) fn value_given<R: Wait>(
        &mut self,
        rt: &R,
        key: KeyArg<'_, K>,
        op: Op<V, F>,
    ) -> Result<Option<V>, Fault>
        requires value { answers_truth op ≡ false }
        ensures answered { IsAnsweredAs K.eq V.eq F.remapped F.merged Value
            self.old.map.ledger
            (call_on (key_in key.entry) op) self.old.pass self.new.pass result }
        ensures sure { IsSureOf V.is_infallible self.old.map.ledger.form op result }
        ensures map { self.new.map ≡ self.old.map }
    {
        match self
            .holder
            .map()
            .call_on(rt, self.seat.pass_mut(), key, op)?
        {
            Reply::Value(value) => Ok(value),
            Reply::Truth(_) => unreachable!(),
        }
    }

    /// Makes a call whose key is handed over, and whose reply is a value.
    pub(crate) fn value_of<'c, R: Wait>(
        &'c mut self,
        rt: &R,
        key: K,
        op: Op<V, F>,
    ) -> Result<Option<V>, Fault>
        requires value { answers_truth op ≡ false }
        ensures answered { IsAnsweredAs K.eq V.eq F.remapped F.merged Value
            self.old.map.ledger
            (call_on key op) self.old.pass self.new.pass result }
        ensures map { self.new.map ≡ self.old.map }
    {
        let key: KeyArg<'c, K> = KeyArg::Owned(key);
        self.value_given(rt, key, op)
    }

    /// Makes a call whose reply is a truth.
    fn truth_given<R: Wait>(
        &mut self,
        rt: &R,
        key: KeyArg<'_, K>,
        op: Op<V, F>,
    ) -> Result<bool, Fault>
        requires truth { answers_truth op ≡ true }
        ensures answered { IsAnsweredAs K.eq V.eq F.remapped F.merged Truth
            self.old.map.ledger
            (call_on (key_in key.entry) op) self.old.pass self.new.pass result }
        ensures sure { IsSureOf V.is_infallible self.old.map.ledger.form op result }
        ensures map { self.new.map ≡ self.old.map }
    {
        match self
            .holder
            .map()
            .call_on(rt, self.seat.pass_mut(), key, op)?
        {
            Reply::Value(_) => unreachable!(),
            Reply::Truth(truth) => Ok(truth),
        }
    }

    /// Returns a clone of the value at the key. It locks the key's bucket, for which it waits, and
    /// takes time linear in the keys of the bucket. In a lean map it allocates only what the clone
    /// does.
    ///
    ///     client.put(rt, 1, 5)?;
    ///     assert_eq!(client.get(rt, &1)?, Some(5));
    ///
    /// # Errors
    ///
    /// `PassFull` where the client has made all the calls that it may. `NoMemory`, which in a lean map
    /// comes only where the value cannot be copied. Nothing is changed then.
    pub fn get<R: Wait>(&mut self, rt: &R, key: &K) -> Result<Option<V>, Fault>
        ensures answered { IsAnsweredAs K.eq V.eq F.remapped F.merged Value
            self.old.map.ledger
            (Get key.now) self.old.pass self.new.pass result }
        ensures sure { self.old.map.ledger.form ≡ Lean → IsNeverRefused V.is_infallible →
            IsMadeOrFull result }
        ensures map { self.new.map ≡ self.old.map }
    {
        self.value_given(rt, KeyArg::Borrowed(key), Op::Get)
    }

    /// Returns whether the key has a value. It locks the key's bucket, for which it waits, and
    /// takes time linear in the keys of the bucket. In a lean map it allocates nothing.
    ///
    ///     client.put(rt, 1, 5)?;
    ///     assert!(client.contains_key(rt, &1)?);
    ///
    /// # Errors
    ///
    /// `PassFull` where the client has made all the calls that it may; in a recorded map, `NoMemory`.
    /// Nothing is changed then.
    pub fn contains_key<R: Wait>(&mut self, rt: &R, key: &K) -> Result<bool, Fault>
        ensures answered { IsAnsweredAs K.eq V.eq F.remapped F.merged Truth
            self.old.map.ledger
            (Contains key.now) self.old.pass self.new.pass result }
        ensures sure { self.old.map.ledger.form ≡ Lean → IsMadeOrFull result }
        ensures map { self.new.map ≡ self.old.map }
    {
        self.truth_given(rt, KeyArg::Borrowed(key), Op::Contains)
    }

    /// Sets the value at the key, and returns the value before. It locks the key's bucket, for
    /// which it waits, and takes time linear in the keys of the bucket. In a lean map it allocates
    /// for a new key alone.
    ///
    ///     client.put(rt, 1, 5)?;
    ///     assert_eq!(client.put(rt, 1, 6)?, Some(5));
    ///
    /// # Errors
    ///
    /// `PassFull` where the client has made all the calls that it may, and `NoMemory`. Nothing is
    /// changed then.
    pub fn put<R: Wait>(&mut self, rt: &R, key: K, value: V) -> Result<Option<V>, Fault>
        ensures answered { IsAnsweredAs K.eq V.eq F.remapped F.merged Value
            self.old.map.ledger
            (Put key value) self.old.pass self.new.pass result }
        ensures map { self.new.map ≡ self.old.map }
    {
        self.value_of(rt, key, Op::Put(value))
    }

    /// Sets the value at the key where it has none, and returns the value before. It locks the
    /// key's bucket, for which it waits, and takes time linear in the keys of the bucket. In a lean
    /// map it allocates for a new key, and what the clone of a value that stays does.
    ///
    ///     client.put(rt, 1, 5)?;
    ///     assert_eq!(client.put_if_absent(rt, 1, 6)?, Some(5));
    ///
    /// # Errors
    ///
    /// `PassFull` where the client has made all the calls that it may, and `NoMemory`. Nothing is
    /// changed then.
    pub fn put_if_absent<R: Wait>(&mut self, rt: &R, key: K, value: V) -> Result<Option<V>, Fault>
        ensures answered { IsAnsweredAs K.eq V.eq F.remapped F.merged Value
            self.old.map.ledger
            (PutIfAbsent key value) self.old.pass self.new.pass result }
        ensures map { self.new.map ≡ self.old.map }
    {
        self.value_of(rt, key, Op::PutIfAbsent(value))
    }

    /// Removes the key, and returns the value before. It locks the key's bucket, for which it
    /// waits, and takes time linear in the keys of the bucket. In a lean map it allocates nothing.
    ///
    ///     client.put(rt, 1, 5)?;
    ///     assert_eq!(client.remove(rt, &1)?, Some(5));
    ///
    /// # Errors
    ///
    /// `PassFull` where the client has made all the calls that it may; in a recorded map, `NoMemory`.
    /// Nothing is changed then.
    pub fn remove<R: Wait>(&mut self, rt: &R, key: &K) -> Result<Option<V>, Fault>
        ensures answered { IsAnsweredAs K.eq V.eq F.remapped F.merged Value
            self.old.map.ledger
            (Remove key.now) self.old.pass self.new.pass result }
        ensures sure { self.old.map.ledger.form ≡ Lean → IsMadeOrFull result }
        ensures map { self.new.map ≡ self.old.map }
    {
        self.value_given(rt, KeyArg::Borrowed(key), Op::Remove)
    }

    /// Removes the key where it has this value, and returns whether it had. It locks the key's
    /// bucket, for which it waits, and takes time linear in the keys of the bucket. In a lean map
    /// it allocates nothing.
    ///
    ///     client.put(rt, 1, 5)?;
    ///     assert!(!client.remove_if(rt, &1, 6)?);
    ///
    /// # Errors
    ///
    /// `PassFull` where the client has made all the calls that it may; in a recorded map, `NoMemory`.
    /// Nothing is changed then.
    pub fn remove_if<R: Wait>(&mut self, rt: &R, key: &K, value: V) -> Result<bool, Fault>
        ensures answered { IsAnsweredAs K.eq V.eq F.remapped F.merged Truth
            self.old.map.ledger
            (RemoveIf key.now value) self.old.pass self.new.pass result }
        ensures sure { self.old.map.ledger.form ≡ Lean → IsMadeOrFull result }
        ensures map { self.new.map ≡ self.old.map }
    {
        self.truth_given(rt, KeyArg::Borrowed(key), Op::RemoveIf(value))
    }

    /// Sets the value at the key where it has one, and returns the value before. It locks the key's
    /// bucket, for which it waits, and takes time linear in the keys of the bucket. In a lean map
    /// it allocates nothing.
    ///
    ///     client.remove(rt, &1)?;
    ///     assert_eq!(client.replace(rt, &1, 6)?, None);
    ///
    /// # Errors
    ///
    /// `PassFull` where the client has made all the calls that it may; in a recorded map, `NoMemory`.
    /// Nothing is changed then.
    pub fn replace<R: Wait>(&mut self, rt: &R, key: &K, value: V) -> Result<Option<V>, Fault>
        ensures answered { IsAnsweredAs K.eq V.eq F.remapped F.merged Value
            self.old.map.ledger
            (Replace key.now value) self.old.pass self.new.pass result }
        ensures sure { self.old.map.ledger.form ≡ Lean → IsMadeOrFull result }
        ensures map { self.new.map ≡ self.old.map }
    {
        self.value_given(rt, KeyArg::Borrowed(key), Op::Replace(value))
    }

    /// Sets the new value at the key where it has the old one, and returns whether it had. It locks
    /// the key's bucket, for which it waits, and takes time linear in the keys of the bucket. In a
    /// lean map it allocates nothing.
    ///
    ///     client.put(rt, 1, 5)?;
    ///     assert!(client.replace_if(rt, &1, 5, 6)?);
    ///
    /// # Errors
    ///
    /// `PassFull` where the client has made all the calls that it may; in a recorded map, `NoMemory`.
    /// Nothing is changed then.
    pub fn replace_if<R: Wait>(&mut self, rt: &R, key: &K, old: V, new: V) -> Result<bool, Fault>
        ensures answered { IsAnsweredAs K.eq V.eq F.remapped F.merged Truth
            self.old.map.ledger
            (ReplaceIf key.now old new) self.old.pass self.new.pass result }
        ensures sure { self.old.map.ledger.form ≡ Lean → IsMadeOrFull result }
        ensures map { self.new.map ≡ self.old.map }
    {
        self.truth_given(rt, KeyArg::Borrowed(key), Op::ReplaceIf(old, new))
    }

    /// Sets what the function makes of the value at the key, or of none, and returns the value
    /// after. Where the function makes none, the key is removed. The function is always used. It
    /// locks the key's bucket, for which it waits, and takes time linear in the keys of the bucket.
    /// The key's bucket is locked while the function runs. In a lean map it allocates for a new
    /// key, what the function does, and what the clone of the value does.
    ///
    ///     client.put(rt, 1, 5)?;
    ///     assert_eq!(client.compute(rt, 1, Add)?, Some(5));
    ///
    /// # Errors
    ///
    /// `PassFull` where the client has made all the calls that it may, and `NoMemory`. Nothing is
    /// changed then.
    pub fn compute<R: Wait>(&mut self, rt: &R, key: K, function: F) -> Result<Option<V>, Fault>
        ensures answered { IsAnsweredAs K.eq V.eq F.remapped F.merged Value
            self.old.map.ledger
            (Compute key function) self.old.pass self.new.pass result }
        ensures map { self.new.map ≡ self.old.map }
    {
        self.value_of(rt, key, Op::Compute(function))
    }
}
