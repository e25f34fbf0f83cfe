//! Calls on the key that something else stands for, as a slice stands for the key of its bytes: those
//! that can add no entry and use no function. No key is made, so a lean map alone makes them: a
//! recorded one keeps the key of each call.
ghost use Rattle.std.specs.Prelude.{◌≡◌};
ghost use Rattle.bin_history.specs.Ops.{call_on};
ghost use Rattle.bin_history.specs.Seeks.{op_for};
ghost use Rattle.bin_history.specs.Sure.{IsNeverRefused};
ghost use Rattle.bin_history.specs.declared.call.Call.TheVariants.{Get, Contains, Remove};
ghost use Rattle.bin_history.specs.declared.form.Form.TheVariants.{Lean};
ghost use Rattle.chm.specs.Headline.{IsAnswered};
ghost use Rattle.chm.specs.Sure.{IsMadeOrFull};

use crate::calls::at_key::{AtKey, CallAtKey};
use crate::fault::Fault;
use crate::map::Map;
use crate::resize::policy::Growth;
use bin_history::{Bin, Remap, Reply, Seek, Value, lawful_entries};
use count_ledger::{BinRole, Pass};
use hashkeys::{AsKey, Class, HashKey, Salt};
use lean_bins::BinSlot;
use std::alloc::Allocator;
use std::sync::Wait;

/// A call that can add no entry and uses no function, and what stands for its key.
#[derive(Drop)]
struct Seeking<Q> {
    query: Q,
    seek: Seek,
}

impl<K: HashKey, V: Value, F: Remap<K, V>, A: Allocator + Clone, Q: AsKey<K>> AtKey<K, V, F, A>
    for Seeking<Q> {
    ghost use Rattle.std.specs.Prelude.{◌≡◌, ◌<◌, ◌≤◌, length};
    ghost use Rattle.bin_history.specs.Ops.{call_on};
    ghost use Rattle.bin_history.specs.Seeks.{op_for};
    ghost use Rattle.bin_history.specs.Sure.{IsNeverRefused};
    ghost use Rattle.bin_history.specs.declared.seek.Seek.TheVariants.{Get};
    ghost use Rattle.bin_history.specs.declared.form.Form.TheVariants.{Lean};
    ghost use Rattle.chm.specs.Headline.{IsCalled};
    ghost use Rattle.chm.specs.Updates.{IsWithin};
    ghost use Rattle.chm.specs.declared.fault.Fault.TheVariants.{NoMemory};

    type Answer = Reply<V>;

    type Failure = Fault;

    ghost key = { λ w. Q.stands_for w.query };

    ghost may = { λ w ledger pass. IsWithin ledger pass };

    ghost does = { λ w ledger old new reply. IsCalled K.eq V.eq F.remapped F.merged ledger
        (call_on (Q.stands_for w.query) (op_for w.seek)) old new reply };

    ghost fails = { λ w ledger old fault. (fault ≡ NoMemory)
        × (ledger.form ≡ Lean → (w.seek ≡ Get → IsNeverRefused V.is_infallible) → ⊥) };

    #[inline(always)]
    fn hash(&self, salt: Salt) -> u32 {
        salt.hash_of_as::<K, Q>(self.query)
    }

    #[inline(always)]
    fn in_place(
        self,
        map: &Map<K, V, F, A>,
        pass: &mut Pass<K, V, F>,
        bin_slot: &mut BinSlot<K, V, F, A>,
        class: Class,
        hash: u32,
    ) -> Result<(Reply<V>, Growth), Fault> {
        let Seeking { query, seek } = self;
        lawful_entries::<K, V, F, A>(&bin_slot.entries);
        let (reply, trace) = seek.make_on(
            &mut bin_slot.entries,
            hash,
            query,
            pass.client(),
            pass.made(),
        )?;
        let mut role = bin_slot.take_role(class);
        map.ledger.post_trace(pass, &mut role, &trace);
        bin_slot.put_role(role);
        Ok((reply, Growth::none()))
    }

    // A recorded map keeps the key of each call, and there is none.
    fn by_value(
        self,
        map: &Map<K, V, F, A>,
        pass: &mut Pass<K, V, F>,
        bin: &mut Bin<K, V, F, A>,
        role: &mut BinRole<K, V, F>,
        hash: u32,
    ) -> Result<(Reply<V>, Growth), Fault> {
        Err(Fault::NoMemory)
    }
}

impl<K: HashKey, V: Value, F: Remap<K, V>, A: Allocator + Clone, Q: AsKey<K>> CallAtKey<K, V, F, A>
    for Seeking<Q> {
    ghost use Rattle.std.specs.Prelude.{◌≡◌};
    ghost use Rattle.chm.specs.declared.fault.Fault.TheVariants.{PassFull};

    ghost full = { λ w fault. fault ≡ PassFull };

    fn refuse(self) -> Fault {
        Fault::PassFull
    }
}

impl<K: HashKey, V: Value, F: Remap<K, V>, A: Allocator + Clone> Map<K, V, F, A> {
    /// Makes a call on the key that this stands for, and then does the call's part for the table.
    #[inline(always)]
    fn seek<R: Wait, Q: AsKey<K>>(
        &self,
        rt: &R,
        pass: &mut Pass<K, V, F>,
        query: Q,
        seek: Seek,
    ) -> Result<Reply<V>, Fault>
        requires form { self.now.ledger.form ≡ Lean }
        requires pass { pass.old.ledger ≡ self.now.ledger.id }
        ensures answered { IsAnswered K.eq V.eq F.remapped F.merged self.now.ledger
            (call_on (Q.stands_for query) (op_for seek)) pass.old pass.new result }
        ensures sure { (seek ≡ Seek.Get → IsNeverRefused V.is_infallible) → IsMadeOrFull result }
    {
        self.call_at_key(rt, pass, Seeking { query, seek })
    }

    /// Returns the value at the key that this stands for, by a call of a lean map: a `get` of that key
    /// in the order of all calls. It waits for the key's bucket, and allocates only where a copy of
    /// the value does.
    ///
    ///     map.put(rt, pass, Bytes(b"one"), 5)?;
    ///     map.get_as(rt, pass, b"one".as_slice())? == Reply::Value(Some(5))
    ///
    /// # Errors
    ///
    /// `PassFull` if the pass has made all its calls; `NoMemory` if a copy of the value fails. The map
    /// and the pass are as they were.
    #[inline(always)]
    pub fn get_as<R: Wait, Q: AsKey<K>>(
        &self,
        rt: &R,
        pass: &mut Pass<K, V, F>,
        query: Q,
    ) -> Result<Reply<V>, Fault>
        requires form { self.now.ledger.form ≡ Lean }
        requires pass { pass.old.ledger ≡ self.now.ledger.id }
        ensures answered { IsAnswered K.eq V.eq F.remapped F.merged self.now.ledger
            (Get (Q.stands_for query)) pass.old pass.new result }
        ensures sure { IsNeverRefused V.is_infallible → IsMadeOrFull result }
    {
        self.seek(rt, pass, query, Seek::Get)
    }

    /// Returns whether the key that this stands for has a value, by a call of a lean map: a
    /// `contains_key` of that key in the order of all calls. It waits for the key's bucket, and
    /// allocates nothing.
    ///
    ///     map.put(rt, pass, Bytes(b"one"), 5)?;
    ///     map.contains_as(rt, pass, b"one".as_slice())? == Reply::Truth(true)
    ///
    /// # Errors
    ///
    /// `PassFull` if the pass has made all its calls. The map and the pass are as they were.
    #[inline(always)]
    pub fn contains_as<R: Wait, Q: AsKey<K>>(
        &self,
        rt: &R,
        pass: &mut Pass<K, V, F>,
        query: Q,
    ) -> Result<Reply<V>, Fault>
        requires form { self.now.ledger.form ≡ Lean }
        requires pass { pass.old.ledger ≡ self.now.ledger.id }
        ensures answered { IsAnswered K.eq V.eq F.remapped F.merged self.now.ledger
            (Contains (Q.stands_for query)) pass.old pass.new result }
        ensures sure { IsMadeOrFull result }
    {
        self.seek(rt, pass, query, Seek::Contains)
    }

    /// Takes the key that this stands for away, by a call of a lean map: a `remove` of that key in the
    /// order of all calls. Returns the value before. It waits for the key's bucket, and allocates
    /// nothing.
    ///
    ///     map.put(rt, pass, Bytes(b"one"), 5)?;
    ///     map.remove_as(rt, pass, b"one".as_slice())? == Reply::Value(Some(5))
    ///
    /// # Errors
    ///
    /// `PassFull` if the pass has made all its calls. The map and the pass are as they were.
    #[inline(always)]
    pub fn remove_as<R: Wait, Q: AsKey<K>>(
        &self,
        rt: &R,
        pass: &mut Pass<K, V, F>,
        query: Q,
    ) -> Result<Reply<V>, Fault>
        requires form { self.now.ledger.form ≡ Lean }
        requires pass { pass.old.ledger ≡ self.now.ledger.id }
        ensures answered { IsAnswered K.eq V.eq F.remapped F.merged self.now.ledger
            (Remove (Q.stands_for query)) pass.old pass.new result }
        ensures sure { IsMadeOrFull result }
    {
        self.seek(rt, pass, query, Seek::Remove)
    }
}
