//! The twelve calls.
//!
//! Each locks the bin of its key, and no other; where that is locked, it spins, then yields. Its cost
//! grows with the keys of that bin alone. In a lean map it allocates for a new key and for what copies
//! of values take. In a recorded map it also copies the key and the values before and after for its
//! record.
//!
//! # Errors
//!
//! `Fault::NoMemory` if it is out of memory, and `Fault::PassFull` after the last call that a pass may
//! make: 1,000,000 in a recorded map, 2^62 divided by the clients in a lean one. A call that fails
//! changes nothing.
ghost use Rattle.std.specs.Prelude.{◌≡◌, ◌≤◌, length, IfSome, IfNone, IsSome};
ghost use Rattle.bin_history.specs.Ops.{call_on, key_in};
ghost use Rattle.bin_history.specs.Sure.{IsNeverRefused, op_of};
ghost use Rattle.bin_history.specs.declared.call.Call.TheVariants.{Get, Contains, Put, PutIfAbsent};
ghost use Rattle.bin_history.specs.declared.call.Call.TheVariants.{Remove, RemoveIf, Replace};
ghost use Rattle.bin_history.specs.declared.call.Call.TheVariants.{ReplaceIf, ComputeIfAbsent};
ghost use Rattle.bin_history.specs.declared.call.Call.TheVariants.{ComputeIfPresent, Compute};
ghost use Rattle.bin_history.specs.declared.call.Call.TheVariants.{Merge};
ghost use Rattle.bin_history.specs.declared.form.Form.TheVariants.{Lean};
ghost use Rattle.count_ledger.specs.Limits.{most_calls};
ghost use Rattle.chm.specs.Headline.{IsAnswered};
ghost use Rattle.chm.specs.Sure.{IsMadeOrFull, IsSureOf};

mod at_key;
mod balance;
mod by_query;
mod give;
mod given;
mod held;
mod making;
mod modify;
pub(crate) mod not_made;
mod seek;
pub(crate) mod update;
mod view;

use crate::calls::making::Calling;
use crate::fault::Fault;
use crate::map::Map;
use bin_history::{Call, KeyArg, Op, Remap, Reply, Value};
use count_ledger::Pass;
use hashkeys::HashKey;
use std::alloc::Allocator;
use std::sync::Wait;

impl<K: HashKey, V: Value, F: Remap<K, V>, A: Allocator + Clone> Map<K, V, F, A> {
    /// Makes one of the twelve calls, and returns its reply. It waits for the key's bin. Then it does
    /// the call's part of a move of the table.
    ///
    ///     map.call(rt, pass, Call::Put(1, 5))?;
    ///     map.call(rt, pass, Call::Get(1))? == Reply::Value(Some(5))
    pub fn call<R: Wait>(
        &self,
        rt: &R,
        pass: &mut Pass<K, V, F>,
        call: Call<K, V, F>,
    ) -> Result<Reply<V>, Fault>
        requires pass { pass.old.ledger ≡ self.now.ledger.id }
        ensures answered { IsAnswered K.eq V.eq F.remapped F.merged self.now.ledger call pass.old
            pass.new result }
        ensures sure { IsSureOf V.is_infallible self.now.ledger.form (op_of call) result }
    {
        let (key, op) = call.into_parts();
        self.call_owned(rt, pass, key, op)
    }

    /// Makes a call whose key is handed over beside it.
    #[inline(always)]
    fn call_owned<'a, R: Wait>(
        &'a self,
        rt: &R,
        pass: &mut Pass<K, V, F>,
        key: K,
        op: Op<V, F>,
    ) -> Result<Reply<V>, Fault>
        requires pass { pass.old.ledger ≡ self.now.ledger.id }
        ensures answered { IsAnswered K.eq V.eq F.remapped F.merged self.now.ledger (call_on key op)
            pass.old pass.new result }
        ensures sure { IsSureOf V.is_infallible self.now.ledger.form op result }
    {
        let key: KeyArg<'a, K> = KeyArg::Owned(key);
        self.call_on(rt, pass, key, op)
    }

    /// Makes a call on a key that is given beside it, owned or borrowed, and returns its reply. It
    /// waits for the key's bin. It copies a borrowed key where it makes an entry of it, and for the
    /// record in a recorded map.
    ///
    ///     map.call_on(rt, pass, KeyArg::Owned(1), Op::Put(5))?;
    ///     map.call_on(rt, pass, KeyArg::Borrowed(&1), Op::Get)? == Reply::Value(Some(5))
    #[inline(always)]
    pub fn call_on<R: Wait>(
        &self,
        rt: &R,
        pass: &mut Pass<K, V, F>,
        key: KeyArg<'_, K>,
        op: Op<V, F>,
    ) -> Result<Reply<V>, Fault>
        requires pass { pass.old.ledger ≡ self.now.ledger.id }
        ensures answered { IsAnswered K.eq V.eq F.remapped F.merged self.now.ledger
            (call_on (key_in key.entry) op) pass.old pass.new result }
        ensures sure { IsSureOf V.is_infallible self.now.ledger.form op result }
    {
        self.call_at_key(rt, pass, Calling { key, op })
    }

    /// Makes a call as `call_on` does, unless the key's bin is locked just then: then it returns
    /// none, makes no call, and leaves the pass as it was. It waits for nobody.
    ///
    ///     map.try_call(pass, KeyArg::Owned(1), Op::Put(5)) == Some(Ok(Reply::Value(None)))
    #[inline(always)]
    pub fn try_call(
        &self,
        pass: &mut Pass<K, V, F>,
        key: KeyArg<'_, K>,
        op: Op<V, F>,
    ) -> Option<Result<Reply<V>, Fault>>
        requires pass { pass.old.ledger ≡ self.now.ledger.id }
        ensures answered { IfSome result
            (IsAnswered K.eq V.eq F.remapped F.merged self.now.ledger
            (call_on (key_in key.entry) op) pass.old pass.new) }
        ensures sure { IfSome result (IsSureOf V.is_infallible self.now.ledger.form op) }
        ensures full { most_calls self.now.ledger.form self.now.ledger.clients ≤ length pass.old.made →
            IsSome result }
        ensures busy { IfNone result (pass.new ≡ pass.old) }
    {
        self.try_call_at_key(pass, Calling { key, op })
    }

    /// Returns a clone of the value at the key.
    ///
    ///     map.put(rt, pass, 1, 5)?;
    ///     map.get(rt, pass, 1)? == Reply::Value(Some(5))
    ///     map.get(rt, pass, 2)? == Reply::Value(None)
    #[inline(always)]
    pub fn get<R: Wait>(&self, rt: &R, pass: &mut Pass<K, V, F>, key: K) -> Result<Reply<V>, Fault>
        requires pass { pass.old.ledger ≡ self.now.ledger.id }
        ensures answered { IsAnswered K.eq V.eq F.remapped F.merged self.now.ledger
            (Get key) pass.old pass.new result }
        ensures sure { self.now.ledger.form ≡ Lean → IsNeverRefused V.is_infallible → IsMadeOrFull result }
    {
        self.call_owned(rt, pass, key, Op::Get)
    }

    /// Returns whether the key has a value.
    ///
    ///     map.put(rt, pass, 1, 5)?;
    ///     map.contains_key(rt, pass, 1)? == Reply::Truth(true)
    ///     map.contains_key(rt, pass, 2)? == Reply::Truth(false)
    #[inline(always)]
    pub fn contains_key<R: Wait>(
        &self,
        rt: &R,
        pass: &mut Pass<K, V, F>,
        key: K,
    ) -> Result<Reply<V>, Fault>
        requires pass { pass.old.ledger ≡ self.now.ledger.id }
        ensures answered { IsAnswered K.eq V.eq F.remapped F.merged self.now.ledger
            (Contains key) pass.old pass.new result }
        ensures sure { self.now.ledger.form ≡ Lean → IsMadeOrFull result }
    {
        self.call_owned(rt, pass, key, Op::Contains)
    }

    /// Sets the value at the key. Returns the value before.
    ///
    ///     map.put(rt, pass, 1, 5)? == Reply::Value(None)
    ///     map.put(rt, pass, 1, 6)? == Reply::Value(Some(5))
    ///     map.get(rt, pass, 1)? == Reply::Value(Some(6))
    #[inline(always)]
    pub fn put<R: Wait>(
        &self,
        rt: &R,
        pass: &mut Pass<K, V, F>,
        key: K,
        value: V,
    ) -> Result<Reply<V>, Fault>
        requires pass { pass.old.ledger ≡ self.now.ledger.id }
        ensures { IsAnswered K.eq V.eq F.remapped F.merged self.now.ledger
            (Put key value) pass.old pass.new result }
    {
        self.call_owned(rt, pass, key, Op::Put(value))
    }

    /// Sets the value at the key where it has none. Returns the value before.
    ///
    ///     map.put_if_absent(rt, pass, 1, 5)? == Reply::Value(None)
    ///     map.put_if_absent(rt, pass, 1, 6)? == Reply::Value(Some(5))
    ///     map.get(rt, pass, 1)? == Reply::Value(Some(5))
    #[inline(always)]
    pub fn put_if_absent<R: Wait>(
        &self,
        rt: &R,
        pass: &mut Pass<K, V, F>,
        key: K,
        value: V,
    ) -> Result<Reply<V>, Fault>
        requires pass { pass.old.ledger ≡ self.now.ledger.id }
        ensures { IsAnswered K.eq V.eq F.remapped F.merged self.now.ledger
            (PutIfAbsent key value) pass.old pass.new result }
    {
        self.call_owned(rt, pass, key, Op::PutIfAbsent(value))
    }

    /// Removes the key. Returns the value before.
    ///
    ///     map.put(rt, pass, 1, 5)?;
    ///     map.remove(rt, pass, 1)? == Reply::Value(Some(5))
    ///     map.remove(rt, pass, 1)? == Reply::Value(None)
    #[inline(always)]
    pub fn remove<R: Wait>(
        &self,
        rt: &R,
        pass: &mut Pass<K, V, F>,
        key: K,
    ) -> Result<Reply<V>, Fault>
        requires pass { pass.old.ledger ≡ self.now.ledger.id }
        ensures answered { IsAnswered K.eq V.eq F.remapped F.merged self.now.ledger
            (Remove key) pass.old pass.new result }
        ensures sure { self.now.ledger.form ≡ Lean → IsMadeOrFull result }
    {
        self.call_owned(rt, pass, key, Op::Remove)
    }

    /// Removes the key where it has this value. Returns whether it had.
    ///
    ///     map.put(rt, pass, 1, 5)?;
    ///     map.remove_if(rt, pass, 1, 6)? == Reply::Truth(false)
    ///     map.remove_if(rt, pass, 1, 5)? == Reply::Truth(true)
    #[inline(always)]
    pub fn remove_if<R: Wait>(
        &self,
        rt: &R,
        pass: &mut Pass<K, V, F>,
        key: K,
        value: V,
    ) -> Result<Reply<V>, Fault>
        requires pass { pass.old.ledger ≡ self.now.ledger.id }
        ensures answered { IsAnswered K.eq V.eq F.remapped F.merged self.now.ledger
            (RemoveIf key value) pass.old pass.new result }
        ensures sure { self.now.ledger.form ≡ Lean → IsMadeOrFull result }
    {
        self.call_owned(rt, pass, key, Op::RemoveIf(value))
    }

    /// Sets the value at the key where it has one. Returns the value before.
    ///
    ///     map.replace(rt, pass, 1, 6)? == Reply::Value(None)
    ///     map.put(rt, pass, 1, 5)?;
    ///     map.replace(rt, pass, 1, 6)? == Reply::Value(Some(5))
    #[inline(always)]
    pub fn replace<R: Wait>(
        &self,
        rt: &R,
        pass: &mut Pass<K, V, F>,
        key: K,
        value: V,
    ) -> Result<Reply<V>, Fault>
        requires pass { pass.old.ledger ≡ self.now.ledger.id }
        ensures answered { IsAnswered K.eq V.eq F.remapped F.merged self.now.ledger
            (Replace key value) pass.old pass.new result }
        ensures sure { self.now.ledger.form ≡ Lean → IsMadeOrFull result }
    {
        self.call_owned(rt, pass, key, Op::Replace(value))
    }

    /// Sets the new value at the key where it has the old one. Returns whether it had.
    ///
    ///     map.put(rt, pass, 1, 5)?;
    ///     map.replace_if(rt, pass, 1, 5, 6)? == Reply::Truth(true)
    ///     map.get(rt, pass, 1)? == Reply::Value(Some(6))
    #[inline(always)]
    pub fn replace_if<R: Wait>(
        &self,
        rt: &R,
        pass: &mut Pass<K, V, F>,
        key: K,
        old: V,
        new: V,
    ) -> Result<Reply<V>, Fault>
        requires pass { pass.old.ledger ≡ self.now.ledger.id }
        ensures answered { IsAnswered K.eq V.eq F.remapped F.merged self.now.ledger
            (ReplaceIf key old new) pass.old pass.new result }
        ensures sure { self.now.ledger.form ≡ Lean → IsMadeOrFull result }
    {
        self.call_owned(rt, pass, key, Op::ReplaceIf(old, new))
    }

    /// Sets the value that the function makes at a key without one. Returns the value after. Only
    /// the key's bin is locked while the function runs.
    ///
    ///     map.compute_if_absent(rt, pass, 1, Plus(5))? == Reply::Value(Some(5))
    ///     map.compute_if_absent(rt, pass, 1, Plus(2))? == Reply::Value(Some(5))
    #[inline(always)]
    pub fn compute_if_absent<R: Wait>(
        &self,
        rt: &R,
        pass: &mut Pass<K, V, F>,
        key: K,
        function: F,
    ) -> Result<Reply<V>, Fault>
        requires pass { pass.old.ledger ≡ self.now.ledger.id }
        ensures { IsAnswered K.eq V.eq F.remapped F.merged self.now.ledger
            (ComputeIfAbsent key function) pass.old pass.new result }
    {
        self.call_owned(rt, pass, key, Op::ComputeIfAbsent(function))
    }

    /// Sets what the function makes of the value at a key with one. Returns the value after. Only
    /// the key's bin is locked while the function runs.
    ///
    ///     map.compute_if_present(rt, pass, 1, Plus(2))? == Reply::Value(None)
    ///     map.put(rt, pass, 1, 5)?;
    ///     map.compute_if_present(rt, pass, 1, Plus(2))? == Reply::Value(Some(7))
    #[inline(always)]
    pub fn compute_if_present<R: Wait>(
        &self,
        rt: &R,
        pass: &mut Pass<K, V, F>,
        key: K,
        function: F,
    ) -> Result<Reply<V>, Fault>
        requires pass { pass.old.ledger ≡ self.now.ledger.id }
        ensures { IsAnswered K.eq V.eq F.remapped F.merged self.now.ledger
            (ComputeIfPresent key function) pass.old pass.new result }
    {
        self.call_owned(rt, pass, key, Op::ComputeIfPresent(function))
    }

    /// Sets what the function makes of the value at the key, or of none. Returns the value after.
    /// Only the key's bin is locked while the function runs.
    ///
    ///     map.compute(rt, pass, 1, Plus(5))? == Reply::Value(Some(5))
    ///     map.compute(rt, pass, 1, Plus(2))? == Reply::Value(Some(7))
    #[inline(always)]
    pub fn compute<R: Wait>(
        &self,
        rt: &R,
        pass: &mut Pass<K, V, F>,
        key: K,
        function: F,
    ) -> Result<Reply<V>, Fault>
        requires pass { pass.old.ledger ≡ self.now.ledger.id }
        ensures { IsAnswered K.eq V.eq F.remapped F.merged self.now.ledger
            (Compute key function) pass.old pass.new result }
    {
        self.call_owned(rt, pass, key, Op::Compute(function))
    }

    /// Sets this value at a key without one, and at a key with one what the function makes of both.
    /// Returns the value after. Only the key's bin is locked while the function runs.
    ///
    ///     map.merge(rt, pass, 1, 5, Plus(0))? == Reply::Value(Some(5))
    ///     map.merge(rt, pass, 1, 2, Plus(0))? == Reply::Value(Some(7))
    #[inline(always)]
    pub fn merge<R: Wait>(
        &self,
        rt: &R,
        pass: &mut Pass<K, V, F>,
        key: K,
        value: V,
        function: F,
    ) -> Result<Reply<V>, Fault>
        requires pass { pass.old.ledger ≡ self.now.ledger.id }
        ensures { IsAnswered K.eq V.eq F.remapped F.merged self.now.ledger
            (Merge key value function) pass.old pass.new result }
    {
        self.call_owned(rt, pass, key, Op::Merge(value, function))
    }
}
