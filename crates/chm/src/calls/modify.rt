//! Changing the value at a key where it lies, by a function that is lent it and runs while the key's
//! bucket is locked.
ghost use Rattle.std.specs.Prelude.{◌≡◌, ◌≤◌, true, length, IfSome, IfNone, IsSome};
ghost use Rattle.std.specs.Fn.{FnOnceReturnsAtMut};
ghost use Rattle.hashkeys.specs.Classes.{covers};
ghost use Rattle.bin_history.specs.Calls.{after};
ghost use Rattle.bin_history.specs.Hashes.{hash_by};
ghost use Rattle.bin_history.specs.declared.form.Form.TheVariants.{Lean};
ghost use Rattle.count_ledger.specs.Limits.{most_calls};
ghost use Rattle.lean_bins.specs.BinSlot.{IsInSlot};
ghost use Rattle.bin_layout.specs.Views.{place_of};
ghost use Rattle.chm.specs.Given.{IsModified, IsModify};
ghost use Rattle.chm.specs.Updates.{IsWithin};
ghost use Rattle.chm.specs.Views.{bins_of};

use crate::calls::at_key::{AtKey, CallAtKey};
use crate::calls::give::copies_for;
use crate::fault::Fault;
use crate::map::Map;
use crate::resize::policy::Growth;
use bin_history::{Bin, KeyArg, Op, Remap, Value, change_on, lawful_entries};
use count_ledger::{BinRole, Pass};
use hashkeys::{AsKey, Class, HashKey, Salt};
use lean_bins::BinSlot;
use std::alloc::Allocator;
use std::sync::Wait;

/// A function that is lent the value at a key.
#[derive(Drop)]
struct Modifying<'k, K, G> {
    key: &'k K,
    f: G,
}

/// A function that is lent the value at the key that a query stands for.
#[derive(Drop)]
struct ModifyingAs<Q, G> {
    query: Q,
    f: G,
}

impl<
    K: HashKey,
    V: Value,
    F: Remap<K, V>,
    A: Allocator + Clone,
    T: Drop,
    G: FnOnce(&mut V) -> T,
> AtKey<K, V, F, A> for Modifying<'_, K, G>
where
    G: Drop,
{
    ghost use Rattle.std.specs.Prelude.{◌≡◌, ◌<◌, ◌≤◌, length};
    ghost use Rattle.std.specs.Fn.{FnOnceReturnsAtMut};
    ghost use Rattle.bin_history.specs.declared.form.Form.TheVariants.{Lean};
    ghost use Rattle.chm.specs.Given.{IsModified};
    ghost use Rattle.chm.specs.Updates.{IsWithin};
    ghost use Rattle.chm.specs.declared.fault.Fault.TheVariants.{NoMemory};

    type Answer = Option<T>;

    type Failure = Fault;

    ghost key = { λ w. w.key.now };

    ghost may = { λ w ledger pass. IsWithin ledger pass × G.IsAlwaysCallable w.f };

    ghost does = { λ w ledger old new answer. IsModified K.eq V.eq F.remapped F.merged
        (FnOnceReturnsAtMut G.FnOnce w.f) ledger w.key.now old new answer };

    ghost fails = { λ w ledger old fault. (fault ≡ NoMemory) × (ledger.form ≡ Lean → ⊥) };

    #[inline(always)]
    fn hash(&self, salt: Salt) -> u32 {
        salt.hash_of_as::<K, &K>(self.key)
    }

    #[inline(always)]
    fn in_place(
        self,
        map: &Map<K, V, F, A>,
        pass: &mut Pass<K, V, F>,
        bin_slot: &mut BinSlot<K, V, F, A>,
        class: Class,
        hash: u32,
    ) -> Result<(Option<T>, Growth), Fault> {
        let answer = map.modify_in_place(pass, bin_slot, class, hash, self.key, self.f);
        Ok((answer, Growth::none()))
    }

    fn by_value<'m>(
        self,
        map: &'m Map<K, V, F, A>,
        pass: &mut Pass<K, V, F>,
        bin: &mut Bin<K, V, F, A>,
        role: &mut BinRole<K, V, F>,
        hash: u32,
    ) -> Result<(Option<T>, Growth), Fault> {
        let Modifying { key, f } = self;
        let (own, found) = copies_for(bin, map.resizer.allocator(), hash, key)?;
        let own: KeyArg<'m, K> = KeyArg::Owned(own);
        match found {
            None => {
                let (reply, growth) = map.call_by_value(pass, bin, role, hash, own, Op::Contains)?;
                drop(reply);
                Ok((None, growth))
            }
            Some(value) => {
                let mut value = value;
                let answer = f(&mut value);
                let put = Op::Put(value);
                let (reply, growth) = map.call_by_value(pass, bin, role, hash, own, put)?;
                drop(reply);
                Ok((Some(answer), growth))
            }
        }
    }
}

impl<
    K: HashKey,
    V: Value,
    F: Remap<K, V>,
    A: Allocator + Clone,
    T: Drop,
    G: FnOnce(&mut V) -> T,
> CallAtKey<K, V, F, A> for Modifying<'_, K, G>
where
    G: Drop,
{
    ghost use Rattle.std.specs.Prelude.{◌≡◌};
    ghost use Rattle.chm.specs.declared.fault.Fault.TheVariants.{PassFull};

    ghost full = { λ w fault. fault ≡ PassFull };

    fn refuse(self) -> Fault {
        Fault::PassFull
    }
}

impl<
    K: HashKey,
    V: Value,
    F: Remap<K, V>,
    A: Allocator + Clone,
    Q: AsKey<K>,
    T,
    G: FnOnce(&mut V) -> T,
> AtKey<K, V, F, A> for ModifyingAs<Q, G>
where
    G: Drop,
{
    ghost use Rattle.std.specs.Prelude.{◌≡◌, ◌<◌, ◌≤◌, length};
    ghost use Rattle.std.specs.Fn.{FnOnceReturnsAtMut};
    ghost use Rattle.bin_history.specs.declared.form.Form.TheVariants.{Lean};
    ghost use Rattle.chm.specs.Given.{IsModified};
    ghost use Rattle.chm.specs.Updates.{IsWithin};
    ghost use Rattle.chm.specs.declared.fault.Fault.TheVariants.{NoMemory};

    type Answer = Option<T>;

    type Failure = Fault;

    ghost key = { λ w. Q.stands_for w.query };

    ghost may = { λ w ledger pass. IsWithin ledger pass × G.IsAlwaysCallable w.f };

    ghost does = { λ w ledger old new answer. IsModified K.eq V.eq F.remapped F.merged
        (FnOnceReturnsAtMut G.FnOnce w.f) ledger (Q.stands_for w.query) old new answer };

    ghost fails = { λ w ledger old fault. (fault ≡ NoMemory) × (ledger.form ≡ Lean → ⊥) };

    #[inline(always)]
    fn hash(&self, salt: Salt) -> u32 {
        salt.hash_of_as::<K, Q>(self.query)
    }

    #[inline(always)]
    fn in_place(
        self,
        map: &Map<K, V, F, A>,
        pass: &mut Pass<K, V, F>,
        bin_slot: &mut BinSlot<K, V, F, A>,
        class: Class,
        hash: u32,
    ) -> Result<(Option<T>, Growth), Fault> {
        let answer = map.modify_in_place(pass, bin_slot, class, hash, self.query, self.f);
        Ok((answer, Growth::none()))
    }

    // A recorded map keeps the key of each call, and there is none.
    fn by_value(
        self,
        map: &Map<K, V, F, A>,
        pass: &mut Pass<K, V, F>,
        bin: &mut Bin<K, V, F, A>,
        role: &mut BinRole<K, V, F>,
        hash: u32,
    ) -> Result<(Option<T>, Growth), Fault> {
        Err(Fault::NoMemory)
    }
}

impl<
    K: HashKey,
    V: Value,
    F: Remap<K, V>,
    A: Allocator + Clone,
    Q: AsKey<K>,
    T,
    G: FnOnce(&mut V) -> T,
> CallAtKey<K, V, F, A> for ModifyingAs<Q, G>
where
    G: Drop,
{
    ghost use Rattle.std.specs.Prelude.{◌≡◌};
    ghost use Rattle.chm.specs.declared.fault.Fault.TheVariants.{PassFull};

    ghost full = { λ w fault. fault ≡ PassFull };

    fn refuse(self) -> Fault {
        Fault::PassFull
    }
}

impl<K: HashKey, V: Value, F: Remap<K, V>, A: Allocator + Clone> Map<K, V, F, A> {
    /// Lends the function the value at the key, where it lies, and returns what the function returns; or
    /// none where the key has no value, and then the function is dropped and not called. It is one call:
    /// a put of what the function leaves, or a `contains_key`. The value is the one that all calls before
    /// had left there.
    ///
    /// It waits for the key's bucket, which is locked while the function runs: a function that takes
    /// long keeps other clients out of the bucket, and one that calls the map, by whatever pass,
    /// deadlocks where the other key is of the same bucket. A lean map copies nothing and allocates
    /// nothing. A recorded map lends the function a copy, and copies the key and the values for the
    /// call's record.
    ///
    ///     map.put(rt, pass, 1, 5)?;
    ///     map.modify(rt, pass, &1, |value| replace(value, 6))? == Some(5)
    ///     map.get(rt, pass, 1)? == Reply::Value(Some(6))
    ///     map.modify(rt, pass, &2, |value| *value = 7)? == None
    ///
    /// # Errors
    ///
    /// `PassFull` before the function is called. Of a recorded map alone `NoMemory`; the function may
    /// have been called, and what it returned is dropped. The map and the pass are as they were.
    #[inline(always)]
    pub fn modify<R: Wait, T: Drop, G: FnOnce(&mut V) -> T>(
        &self,
        rt: &R,
        pass: &mut Pass<K, V, F>,
        key: &K,
        f: G,
    ) -> Result<Option<T>, Fault>
    where
        G: Drop,
        requires callable { IsWithin self.now.ledger pass.old → G.IsAlwaysCallable f }
        requires pass { pass.old.ledger ≡ self.now.ledger.id }
        ensures { IsModify K.eq V.eq F.remapped F.merged (FnOnceReturnsAtMut G.FnOnce f)
            self.now.ledger key.now pass.old pass.new result }
    {
        self.call_at_key(rt, pass, Modifying { key, f })
    }

    /// Tries to do what `modify` does, and waits for nobody. Returns none where the key's bucket is
    /// locked just then: the pass is as it was, and the function is dropped and not called.
    ///
    ///     map.put(rt, pass, 1, 5)?;
    ///     map.try_modify(pass, &1, |value| replace(value, 6)) == Some(Ok(Some(5)))
    ///
    /// # Errors
    ///
    /// Those of `modify`.
    #[inline(always)]
    pub fn try_modify<T: Drop, G: FnOnce(&mut V) -> T>(
        &self,
        pass: &mut Pass<K, V, F>,
        key: &K,
        f: G,
    ) -> Option<Result<Option<T>, Fault>>
    where
        G: Drop,
        requires callable { IsWithin self.now.ledger pass.old → G.IsAlwaysCallable f }
        requires pass { pass.old.ledger ≡ self.now.ledger.id }
        ensures modified { IfSome result (IsModify K.eq V.eq F.remapped F.merged
            (FnOnceReturnsAtMut G.FnOnce f) self.now.ledger key.now pass.old pass.new) }
        ensures full { most_calls self.now.ledger.form self.now.ledger.clients ≤ length pass.old.made →
            IsSome result }
        ensures busy { IfNone result (pass.new ≡ pass.old) }
    {
        self.try_call_at_key(pass, Modifying { key, f })
    }

    /// Lends the function the value at the key that this stands for, as a slice stands for the key of its
    /// bytes. No key is made, so a lean map alone does it. In all else it does what `modify` does.
    ///
    ///     map.put(rt, pass, Bytes(b"one"), 5)?;
    ///     map.modify_as(rt, pass, b"one".as_slice(), |value| replace(value, 6))? == Some(5)
    ///
    /// # Errors
    ///
    /// `PassFull` before the function is called. The map and the pass are as they were.
    #[inline(always)]
    pub fn modify_as<R: Wait, Q: AsKey<K>, T, G: FnOnce(&mut V) -> T>(
        &self,
        rt: &R,
        pass: &mut Pass<K, V, F>,
        query: Q,
        f: G,
    ) -> Result<Option<T>, Fault>
    where
        G: Drop,
        requires form { self.now.ledger.form ≡ Lean }
        requires callable { IsWithin self.now.ledger pass.old → G.IsAlwaysCallable f }
        requires pass { pass.old.ledger ≡ self.now.ledger.id }
        ensures { IsModify K.eq V.eq F.remapped F.merged (FnOnceReturnsAtMut G.FnOnce f)
            self.now.ledger (Q.stands_for query) pass.old pass.new result }
    {
        self.call_at_key(rt, pass, ModifyingAs { query, f })
    }

    /// Modifies the value at the key that this stands for in what lies at the place of a lean bucket of
    /// the class.
    #[inline(always)]
    fn modify_in_place<Q: AsKey<K>, T, G: FnOnce(&mut V) -> T>(
        &self,
        pass: &mut Pass<K, V, F>,
        bin_slot: &mut BinSlot<K, V, F, A>,
        class: Class,
        hash: u32,
        query: Q,
        f: G,
    ) -> Option<T>
    where
        G: Drop,
        requires callable { G.IsAlwaysCallable f }
        requires pass { pass.old.ledger ≡ self.now.ledger.id }
        requires room { IsWithin self.now.ledger pass.old }
        requires lies { IsInSlot K.eq (after V.eq F.remapped F.merged)
            (place_of (bins_of self.now) class) bin_slot.old }
        requires hash { hash ≡ hash_by K.code self.now.ledger.salt (Q.stands_for query) }
        requires covers { covers class hash ≡ true }
        ensures modified { IsModified K.eq V.eq F.remapped F.merged (FnOnceReturnsAtMut G.FnOnce f)
            self.now.ledger (Q.stands_for query) pass.old pass.new result }
        ensures lies { IsInSlot K.eq (after V.eq F.remapped F.merged)
            (place_of (bins_of self.now) class) bin_slot.new }
    {
        lawful_entries::<K, V, F, A>(&bin_slot.entries);
        let (answer, trace) = change_on(
            &mut bin_slot.entries,
            hash,
            query,
            f,
            pass.client(),
            pass.made(),
        );
        let mut role = bin_slot.take_role(class);
        self.ledger.post_trace(pass, &mut role, &trace);
        bin_slot.put_role(role);
        answer
    }
}
