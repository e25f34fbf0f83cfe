//! The calls that may use a function, or not.
ghost use Rattle.std.specs.Prelude.{◌≡◌, false, IfOk};
ghost use Rattle.bin_history.specs.Ops.{call_on, key_in};
ghost use Rattle.chm.specs.Headline.{IsAnsweredAs};
ghost use Rattle.bin_history.specs.Deltas.{sum_of_deltas};
ghost use Rattle.bin_history.specs.declared.call.Call.TheVariants.{ComputeIfAbsent};
ghost use Rattle.bin_history.specs.declared.call.Call.TheVariants.{ComputeIfPresent, Merge};
ghost use Rattle.bin_history.specs.declared.call.Reply.TheVariants.{Value};
ghost use Rattle.count_ledger.specs.Words.{word_of};
ghost use Rattle.clients.specs.Computed.{IsTold, IsToldChange};
ghost use Rattle.clients.specs.Replies.{answers_truth};

use crate::client::ClientOf;
use crate::holder::{Holder, Seat};
use bin_history::{KeyArg, Op, Remap, Value};
use chm::Fault;
use hashkeys::HashKey;
use std::alloc::Allocator;
use std::sync::Wait;

/// What a call returns that may use a function, or not.
#[derive(Debug, Drop, PartialEq, Eq)]
pub struct Computed<V> {
    /// The value at the key after the call.
    pub value: Option<V>,
    /// Whether the function was used.
    pub used: bool,
}

impl<H: Holder<K, V, F, A>, K: HashKey, V: Value, F: Remap<K, V>, A: Allocator> ClientOf<
    H,
    K,
    V,
    F,
    A,
> {
    /// Returns how many keys the client's calls added, less how many they removed, as a 64-bit
    /// two's complement number. It takes constant time, allocates nothing, and waits for nobody.
    ///
    ///     client.remove(rt, &1)?;
    ///     let before = client.balance();
    ///     client.put(rt, 1, 5)?;
    ///     assert_eq!(client.balance(), before.wrapping_add(1));
    pub fn balance(&mut self) -> u64
        ensures sum { result ≡ word_of (sum_of_deltas self.old.pass.made) }
        ensures same { self.new.pass ≡ self.old.pass }
        ensures map { self.new.map ≡ self.old.map }
    {
        self.holder.map().balance(self.seat.pass_mut())
    }
}

impl<H: Holder<K, V, F, A>, K: HashKey, V: Value, F: Remap<K, V>, A: Allocator + Clone> ClientOf<
    H,
    K,
    V,
    F,
    A,
> {
    /// Makes a call whose reply is a value. Returns the value, and whether the call made its key
    /// present or took it away. The reply does not tell that, so the balance of the pass does.
    fn value_and_change<R: Wait>(
        &mut self,
        rt: &R,
        key: KeyArg<'_, K>,
        op: Op<V, F>,
    ) -> Result<(Option<V>, bool), Fault>
        requires value { answers_truth op ≡ false }
        ensures answered { IsAnsweredAs K.eq V.eq F.remapped F.merged
            (λ answer. Value answer.0) self.old.map.ledger
            (call_on (key_in key.entry) op) self.old.pass self.new.pass result }
        ensures changed { IfOk result (λ answer. IsToldChange self.old.pass self.new.pass answer.1) }
        ensures map { self.new.map ≡ self.old.map }
    {
        let before = self.balance();
        let value = self.value_given(rt, key, op)?;
        let changed = self.balance() != before;
        Ok((value, changed))
    }

    /// Sets what the function makes of none at a key without a value. Returns the value after, and
    /// whether the function was used. It locks the key's bucket, for which it waits, and takes time
    /// linear in the keys of the bucket. The key's bucket is locked while the function runs. In a
    /// lean map it allocates for a new key, what the function does, and what the clone of the value
    /// does.
    ///
    ///     client.put(rt, 1, 5)?;
    ///     assert_eq!(client.compute_if_absent(rt, 1, Add)?, Computed { value: Some(5), used: false });
    ///
    /// # Errors
    ///
    /// `PassFull` where the client has made all the calls that it may, and `NoMemory`. Nothing is
    /// changed then.
    pub fn compute_if_absent<'c, R: Wait>(
        &'c mut self,
        rt: &R,
        key: K,
        function: F,
    ) -> Result<Computed<V>, Fault>
        ensures answered { IsAnsweredAs K.eq V.eq F.remapped F.merged
            (λ answer. Value answer.value) self.old.map.ledger
            (ComputeIfAbsent key function) self.old.pass self.new.pass result }
        ensures used { IfOk result
            (λ answer. IsTold (ComputeIfAbsent key function) self.old.pass
            self.new.pass answer.used) }
        ensures map { self.new.map ≡ self.old.map }
    {
        let key: KeyArg<'c, K> = KeyArg::Owned(key);
        let (value, changed) = self.value_and_change(rt, key, Op::ComputeIfAbsent(function))?;
        let used = value.is_none() | changed;
        Ok(Computed { value, used })
    }

    /// Sets what the function makes of the value at a key with one; where it makes none, the key is
    /// removed. Returns the value after, and whether the function was used. It locks the key's
    /// bucket, for which it waits, and takes time linear in the keys of the bucket. The key's
    /// bucket is locked while the function runs. In a lean map it allocates what the function does,
    /// and what the clone of the value does.
    ///
    ///     client.put(rt, 1, 5)?;
    ///     assert_eq!(client.compute_if_present(rt, &1, Add)?, Computed { value: Some(5), used: true });
    ///
    /// # Errors
    ///
    /// `PassFull` where the client has made all the calls that it may, and `NoMemory`. Nothing is
    /// changed then.
    pub fn compute_if_present<R: Wait>(
        &mut self,
        rt: &R,
        key: &K,
        function: F,
    ) -> Result<Computed<V>, Fault>
        ensures answered { IsAnsweredAs K.eq V.eq F.remapped F.merged
            (λ answer. Value answer.value) self.old.map.ledger
            (ComputeIfPresent key.now function) self.old.pass self.new.pass result }
        ensures used { IfOk result
            (λ answer. IsTold (ComputeIfPresent key.now function) self.old.pass
            self.new.pass answer.used) }
        ensures map { self.new.map ≡ self.old.map }
    {
        let (value, changed) = self.value_and_change(
            rt,
            KeyArg::Borrowed(key),
            Op::ComputeIfPresent(function),
        )?;
        let used = value.is_some() | changed;
        Ok(Computed { value, used })
    }

    /// Sets this value at a key without one, and at a key with one what the function makes of both;
    /// where it makes none, the key is removed. Returns the value after, and whether the function
    /// was used. It locks the key's bucket, for which it waits, and takes time linear in the keys
    /// of the bucket. The key's bucket is locked while the function runs. In a lean map it
    /// allocates for a new key, what the function does, and what the clone of the value does.
    ///
    ///     client.put(rt, 1, 5)?;
    ///     assert_eq!(client.merge(rt, 1, 2, Add)?, Computed { value: Some(7), used: true });
    ///
    /// # Errors
    ///
    /// `PassFull` where the client has made all the calls that it may, and `NoMemory`. Nothing is
    /// changed then.
    pub fn merge<'c, R: Wait>(
        &'c mut self,
        rt: &R,
        key: K,
        value: V,
        function: F,
    ) -> Result<Computed<V>, Fault>
        ensures answered { IsAnsweredAs K.eq V.eq F.remapped F.merged
            (λ answer. Value answer.value) self.old.map.ledger
            (Merge key value function) self.old.pass self.new.pass result }
        ensures used { IfOk result
            (λ answer. IsTold (Merge key value function) self.old.pass
            self.new.pass answer.used) }
        ensures map { self.new.map ≡ self.old.map }
    {
        let key: KeyArg<'c, K> = KeyArg::Owned(key);
        let (value, changed) = self.value_and_change(rt, key, Op::Merge(value, function))?;
        let used = value.is_none() | !changed;
        Ok(Computed { value, used })
    }
}
