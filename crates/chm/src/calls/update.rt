//! Changing the value at a key by a function of the client's own, which sees the value where it lies
//! and runs while the key's bucket is locked.
ghost use Rattle.std.specs.Prelude.{◌≡◌, ◌≤◌, length, IfSome, IfNone, IsSome};
ghost use Rattle.bin_history.specs.Ops.{call_on, key_in};
ghost use Rattle.count_ledger.specs.Limits.{most_calls};
ghost use Rattle.chm.specs.Updates.{IsUpdate, IsWithin, call_for, op_for};

use crate::calls::at_key::{AtKey, CallAtKey};
use crate::fault::Fault;
use crate::map::Map;
use crate::resize::policy::Growth;
use bin_history::{Bin, KeyArg, Op, Remap, Value};
use count_ledger::{BinRole, Pass};
use hashkeys::{Class, HashKey, Salt};
use lean_bins::BinSlot;
use std::alloc::Allocator;
use std::sync::Wait;

/// What a function does to the value at a key.
#[derive(Drop)]
pub enum Change<V> {
    /// The value, if there is one, stays as it is.
    Keep,
    /// The key gets this value.
    Set(V),
    /// The key is taken away.
    Remove,
}

impl<V> Change<V> {
    /// The call that makes the change.
    fn into_op<K, F>(self) -> Op<V, F>
        ensures call { (key : K) → call_on key result ≡ call_for key self }
        ensures op { result ≡ op_for self }
    {
        match self {
            Change::Keep => Op::Contains,
            Change::Set(value) => Op::Put(value),
            Change::Remove => Op::Remove,
        }
    }
}

/// An update by a function, and its key.
#[derive(Drop)]
struct Updating<'k, K: HashKey, G> {
    key: KeyArg<'k, K>,
    f: G,
}

impl<
    K: HashKey,
    V: Value,
    F: Remap<K, V>,
    A: Allocator + Clone,
    T: Drop,
    G: FnOnce(Option<&V>) -> (Change<V>, T),
> AtKey<K, V, F, A> for Updating<'_, K, G> {
    ghost use Rattle.std.specs.Prelude.{◌≡◌, ◌<◌, ◌≤◌, length};
    ghost use Rattle.bin_history.specs.Ops.{key_in};
    ghost use Rattle.bin_history.specs.declared.form.Form.TheVariants.{Lean};
    ghost use Rattle.chm.specs.Updates.{AnswersAt, IsUpdated, IsWithin, MayAdd};
    ghost use Rattle.chm.specs.declared.fault.Fault.TheVariants.{NoMemory};

    type Answer = T;

    type Failure = Fault;

    ghost key = { λ w. key_in w.key };

    ghost may = { λ w ledger pass. IsWithin ledger pass × G.IsAlwaysCallable w.f };

    ghost does = { λ w ledger old new answer. IsUpdated K.eq V.eq F.remapped F.merged
        (λ before change. AnswersAt (G.post w.f) before (change, answer)) ledger (key_in w.key) old new };

    ghost fails = { λ w ledger old fault. (fault ≡ NoMemory)
        × (ledger.form ≡ Lean → MayAdd (G.post w.f)) };

    #[inline(always)]
    fn hash(&self, salt: Salt) -> u32 {
        salt.hash_of(self.key.get())
    }

    #[inline(always)]
    fn in_place(
        self,
        map: &Map<K, V, F, A>,
        pass: &mut Pass<K, V, F>,
        bin_slot: &mut BinSlot<K, V, F, A>,
        class: Class,
        hash: u32,
    ) -> Result<(T, Growth), Fault> {
        let Updating { key, f } = self;
        let asked = key.get();
        let (change, answer) = f(bin_slot.entries.get(hash, asked));
        let op = change.into_op::<K, F>();
        let (reply, growth) = map.call_in_place(pass, bin_slot, class, hash, key, op)?;
        drop(reply);
        Ok((answer, growth))
    }

    fn by_value(
        self,
        map: &Map<K, V, F, A>,
        pass: &mut Pass<K, V, F>,
        bin: &mut Bin<K, V, F, A>,
        role: &mut BinRole<K, V, F>,
        hash: u32,
    ) -> Result<(T, Growth), Fault> {
        let Updating { key, f } = self;
        let asked = key.get();
        let (change, answer) = f(bin.get(hash, asked));
        let op = change.into_op::<K, F>();
        let (reply, growth) = map.call_by_value(pass, bin, role, hash, key, op)?;
        drop(reply);
        Ok((answer, growth))
    }
}

impl<
    K: HashKey,
    V: Value,
    F: Remap<K, V>,
    A: Allocator + Clone,
    T: Drop,
    G: FnOnce(Option<&V>) -> (Change<V>, T),
> CallAtKey<K, V, F, A> for Updating<'_, K, G>
where
    G: Drop,
{
    ghost use Rattle.std.specs.Prelude.{◌≡◌};
    ghost use Rattle.chm.specs.declared.fault.Fault.TheVariants.{PassFull};

    ghost full = { λ w fault. fault ≡ PassFull };

    fn refuse(self) -> Fault {
        Fault::PassFull
    }
}

impl<K: HashKey, V: Value, F: Remap<K, V>, A: Allocator + Clone> Map<K, V, F, A> {
    /// Gives the function the value at the key, where it lies, and makes the change that it returns,
    /// by one call: a put, a remove, or, where the value stays, a `contains_key`. Returns the rest of
    /// what the function returns. The value is the one that all calls before had left there.
    ///
    /// It waits for the key's bucket, which is locked while the function runs: a function that takes
    /// long keeps other clients out of the bucket, and one that calls the map, by whatever pass,
    /// deadlocks where the other key is of the same bucket. In a lean map it allocates where the
    /// change makes an entry, and else nowhere; a recorded map copies the key and the values for the
    /// call's record.
    ///
    ///     map.put(rt, pass, 1, 5)?;
    ///     map.update(rt, pass, 1, |value| (Change::Set(6), value.copied()))? == Some(5)
    ///     map.get(rt, pass, 1)? == Reply::Value(Some(6))
    ///
    /// # Errors
    ///
    /// `PassFull` before the function is called, and `NoMemory`. The map and the pass are as they
    /// were. After `NoMemory` the function may have been called: what it returned is dropped.
    #[inline(always)]
    pub fn update<'a, R: Wait, T: Drop, G: FnOnce(Option<&V>) -> (Change<V>, T)>(
        &'a self,
        rt: &R,
        pass: &mut Pass<K, V, F>,
        key: K,
        f: G,
    ) -> Result<T, Fault>
    where
        G: Drop,
        requires callable { IsWithin self.now.ledger pass.old → G.IsAlwaysCallable f }
        requires pass { pass.old.ledger ≡ self.now.ledger.id }
        ensures { IsUpdate K.eq V.eq F.remapped F.merged (G.post f) self.now.ledger key pass.old
            pass.new result }
    {
        let key: KeyArg<'a, K> = KeyArg::Owned(key);
        self.update_on(rt, pass, key, f)
    }

    /// Updates the value at a borrowed key, as `update` does. The key is copied where an entry is
    /// made of it, and for the record in a recorded map.
    ///
    ///     map.put(rt, pass, 1, 5)?;
    ///     map.update_lent(rt, pass, &1, |value| (Change::Remove, value.copied()))? == Some(5)
    ///
    /// # Errors
    ///
    /// Those of `update`.
    #[inline(always)]
    pub fn update_lent<R: Wait, T: Drop, G: FnOnce(Option<&V>) -> (Change<V>, T)>(
        &self,
        rt: &R,
        pass: &mut Pass<K, V, F>,
        key: &K,
        f: G,
    ) -> Result<T, Fault>
    where
        G: Drop,
        requires callable { IsWithin self.now.ledger pass.old → G.IsAlwaysCallable f }
        requires pass { pass.old.ledger ≡ self.now.ledger.id }
        ensures { IsUpdate K.eq V.eq F.remapped F.merged (G.post f) self.now.ledger key.now
            pass.old pass.new result }
    {
        self.update_on(rt, pass, KeyArg::Borrowed(key), f)
    }

    /// Updates the value at a key that is given, owned or borrowed, as `update` does.
    ///
    ///     map.update_on(rt, pass, KeyArg::Borrowed(&1), |value| (Change::Keep, value.copied()))? == None
    ///
    /// # Errors
    ///
    /// Those of `update`.
    #[inline(always)]
    pub fn update_on<R: Wait, T: Drop, G: FnOnce(Option<&V>) -> (Change<V>, T)>(
        &self,
        rt: &R,
        pass: &mut Pass<K, V, F>,
        key: KeyArg<'_, K>,
        f: G,
    ) -> Result<T, Fault>
    where
        G: Drop,
        requires callable { IsWithin self.now.ledger pass.old → G.IsAlwaysCallable f }
        requires pass { pass.old.ledger ≡ self.now.ledger.id }
        ensures { IsUpdate K.eq V.eq F.remapped F.merged (G.post f) self.now.ledger
            (key_in key.entry) pass.old pass.new result }
    {
        self.call_at_key(rt, pass, Updating { key, f })
    }

    /// Tries to do what `update` does, and waits for nobody. Returns none where the key's bucket is
    /// locked just then: the pass is as it was, and the function is dropped and not called.
    ///
    ///     let given = KeyArg::Owned(1);
    ///     map.try_update(pass, given, |value| (Change::Set(5), value.copied())) == Some(Ok(None))
    ///
    /// # Errors
    ///
    /// Those of `update`.
    #[inline(always)]
    pub fn try_update<T: Drop, G: FnOnce(Option<&V>) -> (Change<V>, T)>(
        &self,
        pass: &mut Pass<K, V, F>,
        key: KeyArg<'_, K>,
        f: G,
    ) -> Option<Result<T, Fault>>
    where
        G: Drop,
        requires callable { IsWithin self.now.ledger pass.old → G.IsAlwaysCallable f }
        requires pass { pass.old.ledger ≡ self.now.ledger.id }
        ensures updated { IfSome result (IsUpdate K.eq V.eq F.remapped F.merged (G.post f)
            self.now.ledger (key_in key.entry) pass.old pass.new) }
        ensures full { most_calls self.now.ledger.form self.now.ledger.clients ≤ length pass.old.made →
            IsSome result }
        ensures busy { IfNone result (pass.new ≡ pass.old) }
    {
        self.try_call_at_key(pass, Updating { key, f })
    }
}
