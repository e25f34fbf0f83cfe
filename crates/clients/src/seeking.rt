//! The calls of a client on the key that something else stands for, as a slice stands for the key of
//! its bytes. No key is made. They are calls of a lean map, and stand in the order of all calls,
//! where a look-up posts nothing.
ghost use Rattle.std.specs.Prelude.{◌≡◌};
ghost use Rattle.bin_history.specs.Sure.{IsNeverRefused};
ghost use Rattle.bin_history.specs.declared.call.Call.TheVariants.{Get, Contains, Remove};
ghost use Rattle.bin_history.specs.declared.call.Reply.TheVariants.{Value, Truth};
ghost use Rattle.bin_history.specs.declared.form.Form.TheVariants.{Lean};
ghost use Rattle.chm.specs.Headline.{IsAnsweredAs};
ghost use Rattle.chm.specs.Sure.{IsMadeOrFull};

use crate::client::ClientOf;
use crate::holder::{Holder, Seat};
use bin_history::{Remap, Reply, Value};
use chm::Fault;
use hashkeys::{AsKey, HashKey};
use std::alloc::Allocator;
use std::sync::Wait;

impl<H: Holder<K, V, F, A>, K: HashKey, V: Value, F: Remap<K, V>, A: Allocator + Clone> ClientOf<
    H,
    K,
    V,
    F,
    A,
> {
    /// Returns a clone of the value at the key that the query stands for, by the call that `get`
    /// makes on that key: it has its place in the order of all calls, where `look_up_as` posts
    /// nothing. It locks the key's bucket, for which it waits, and takes time linear in the keys of
    /// the bucket. It allocates only what the clone does.
    ///
    ///     client.put(rt, Bytes(b"one"), 5)?;
    ///     assert_eq!(client.get_as(rt, b"one".as_slice())?, Some(5));
    ///
    /// # Errors
    ///
    /// `PassFull` where the client has made all the calls that it may; `NoMemory` where the value
    /// cannot be copied. Nothing is changed then.
    pub fn get_as<R: Wait, Q: AsKey<K>>(&mut self, rt: &R, query: Q) -> Result<Option<V>, Fault>
        requires form { self.old.map.ledger.form ≡ Lean }
        ensures answered { IsAnsweredAs K.eq V.eq F.remapped F.merged Value
            self.old.map.ledger
            (Get (Q.stands_for query)) self.old.pass self.new.pass result }
        ensures sure { IsNeverRefused V.is_infallible → IsMadeOrFull result }
        ensures map { self.new.map ≡ self.old.map }
    {
        match self.holder.map().get_as(rt, self.seat.pass_mut(), query)? {
            Reply::Value(value) => Ok(value),
            Reply::Truth(_) => unreachable!(),
        }
    }

    /// Returns whether the key that the query stands for has a value, by the call that
    /// `contains_key` makes on that key. It locks the key's bucket, for which it waits, and takes
    /// time linear in the keys of the bucket. It allocates nothing.
    ///
    ///     client.put(rt, Bytes(b"one"), 5)?;
    ///     assert!(client.contains_as(rt, b"one".as_slice())?);
    ///
    /// # Errors
    ///
    /// `PassFull` where the client has made all the calls that it may. Nothing is changed then.
    pub fn contains_as<R: Wait, Q: AsKey<K>>(&mut self, rt: &R, query: Q) -> Result<bool, Fault>
        requires form { self.old.map.ledger.form ≡ Lean }
        ensures answered { IsAnsweredAs K.eq V.eq F.remapped F.merged Truth
            self.old.map.ledger
            (Contains (Q.stands_for query)) self.old.pass self.new.pass result }
        ensures sure { IsMadeOrFull result }
        ensures map { self.new.map ≡ self.old.map }
    {
        match self
            .holder
            .map()
            .contains_as(rt, self.seat.pass_mut(), query)?
        {
            Reply::Value(_) => unreachable!(),
            Reply::Truth(truth) => Ok(truth),
        }
    }

    /// Removes the key that the query stands for, by the call that `remove` makes on that key, and
    /// returns the value before. It locks the key's bucket, for which it waits, and takes time
    /// linear in the keys of the bucket. It allocates nothing.
    ///
    ///     client.put(rt, Bytes(b"one"), 5)?;
    ///     assert_eq!(client.remove_as(rt, b"one".as_slice())?, Some(5));
    ///
    /// # Errors
    ///
    /// `PassFull` where the client has made all the calls that it may. Nothing is changed then.
    pub fn remove_as<R: Wait, Q: AsKey<K>>(&mut self, rt: &R, query: Q) -> Result<Option<V>, Fault>
        requires form { self.old.map.ledger.form ≡ Lean }
        ensures answered { IsAnsweredAs K.eq V.eq F.remapped F.merged Value
            self.old.map.ledger
            (Remove (Q.stands_for query)) self.old.pass self.new.pass result }
        ensures sure { IsMadeOrFull result }
        ensures map { self.new.map ≡ self.old.map }
    {
        match self
            .holder
            .map()
            .remove_as(rt, self.seat.pass_mut(), query)?
        {
            Reply::Value(value) => Ok(value),
            Reply::Truth(_) => unreachable!(),
        }
    }
}
