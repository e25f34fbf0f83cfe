//! Reading the value at a key: where it lies, by a function, or as a copy. None of these is a call:
//! nothing is posted, and a full pass may read as well.
ghost use Rattle.std.specs.Prelude.{◌≡◌, IfNone, IfOk, IfErr, IfSome, IsOk, option_copied};
ghost use Rattle.bin_history.specs.Calls.{after};
ghost use Rattle.bin_history.specs.Entries.{lookup};
ghost use Rattle.bin_history.specs.Plain.{run};
ghost use Rattle.bin_history.specs.Sure.{IsNeverRefused};
ghost use Rattle.count_ledger.specs.Fronts.{HasSeen};
ghost use Rattle.chm.specs.Updates.{AnswersAt};
ghost use Rattle.chm.specs.Visits.{IsShown};

use crate::calls::at_key::AtKey;
use crate::fault::Fault;
use crate::map::Map;
use crate::resize::policy::Growth;
use bin_history::{Bin, Exact, Remap, Value};
use count_ledger::{BinRole, Pass};
use hashkeys::{AsKey, Class, HashKey, Salt};
use lean_bins::BinSlot;
use std::alloc::{AllocError, Allocator};
use std::sync::Wait;

/// How what cannot fail fails.
#[derive(Drop)]
enum Never {}

/// A function that is shown the value at the key that a query stands for.
#[derive(Drop)]
struct Viewing<Q, G> {
    query: Q,
    f: G,
}

impl<
    K: HashKey,
    V: Value,
    F: Remap<K, V>,
    A: Allocator + Clone,
    Q: AsKey<K>,
    T,
    G: FnOnce(Option<&V>) -> T,
> AtKey<K, V, F, A> for Viewing<Q, G> {
    ghost use Rattle.bin_history.specs.Calls.{after};
    ghost use Rattle.bin_history.specs.Entries.{lookup};
    ghost use Rattle.bin_history.specs.Plain.{run};
    ghost use Rattle.count_ledger.specs.Fronts.{HasSeen};
    ghost use Rattle.chm.specs.Updates.{AnswersAt};

    type Answer = T;

    type Failure = Never;

    ghost key = { λ w. Q.stands_for w.query };

    ghost may = { λ w ledger pass. G.IsAlwaysCallable w.f };

    ghost does = { λ w ledger old new answer. HasSeen K.eq (after V.eq F.remapped F.merged) ledger old new
        × AnswersAt (G.post w.f)
        (run K.eq (lookup K.eq ledger.opening) new.seen (Q.stands_for w.query)) answer };

    ghost fails = { λ w ledger old never. ⊥ };

    #[inline(always)]
    fn hash(&self, salt: Salt) -> u32 {
        salt.hash_of_as::<K, Q>(self.query)
    }

    #[inline(always)]
    fn in_place(
        self,
        map: &Map<K, V, F, A>,
        pass: &mut Pass<K, V, F>,
        bin_slot: &mut BinSlot<K, V, F, A>,
        class: Class,
        hash: u32,
    ) -> Result<(T, Growth), Never> {
        let Viewing { query, f } = self;
        let answer = f(bin_slot.entries.get_as(hash, query));
        map.observe_in_place(pass, bin_slot, class);
        Ok((answer, Growth::none()))
    }

    fn by_value(
        self,
        map: &Map<K, V, F, A>,
        pass: &mut Pass<K, V, F>,
        bin: &mut Bin<K, V, F, A>,
        role: &mut BinRole<K, V, F>,
        hash: u32,
    ) -> Result<(T, Growth), Never> {
        let Viewing { query, f } = self;
        let answer = f(bin.get_as(hash, query));
        map.observe_bin(pass, bin, role);
        Ok((answer, Growth::none()))
    }
}

impl<K: HashKey, V: Value, F: Remap<K, V>, A: Allocator + Clone> Map<K, V, F, A> {
    /// Gives the function the value at the key, where it lies, and returns what the function
    /// returns. The value is the one that all calls before had left there; the pass has then seen
    /// these calls. Nothing is copied, posted or allocated, so nothing can fail.
    ///
    /// It waits for the key's bucket, which is locked while the function runs: a function that takes
    /// long keeps other clients out of the bucket, and one that calls the map, by whatever pass,
    /// deadlocks where the other key is of the same bucket.
    ///
    ///     map.put(rt, pass, 1, 5)?;
    ///     map.view(rt, pass, &1, |value| value.copied()) == Some(5)
    #[inline(always)]
    pub fn view<R: Wait, T, G: FnOnce(Option<&V>) -> T>(
        &self,
        rt: &R,
        pass: &mut Pass<K, V, F>,
        key: &K,
        f: G,
    ) -> T
        requires callable { G.IsAlwaysCallable f }
        requires pass { pass.old.ledger ≡ self.now.ledger.id }
        ensures seen { HasSeen K.eq (after V.eq F.remapped F.merged) self.now.ledger pass.old
            pass.new }
        ensures shown { AnswersAt (G.post f)
            (run K.eq (lookup K.eq self.now.ledger.opening) pass.new.seen key.now) result }
    {
        self.view_as(rt, pass, key, f)
    }

    /// Gives the function the value at the key that this stands for, as a slice stands for the key
    /// of its bytes. No key is made. In all else it does what `view` does.
    ///
    ///     map.put(rt, pass, Bytes(b"one"), 5)?;
    ///     map.view_as(rt, pass, b"one".as_slice(), |value| value.copied()) == Some(5)
    #[inline(always)]
    pub fn view_as<R: Wait, Q: AsKey<K>, T, G: FnOnce(Option<&V>) -> T>(
        &self,
        rt: &R,
        pass: &mut Pass<K, V, F>,
        query: Q,
        f: G,
    ) -> T
        requires callable { G.IsAlwaysCallable f }
        requires pass { pass.old.ledger ≡ self.now.ledger.id }
        ensures seen { HasSeen K.eq (after V.eq F.remapped F.merged) self.now.ledger pass.old
            pass.new }
        ensures shown { AnswersAt (G.post f)
            (run K.eq (lookup K.eq self.now.ledger.opening) pass.new.seen (Q.stands_for query))
            result }
    {
        match self.at_key(rt, pass, Viewing { query, f }) {
            Ok((answer, _, _)) => answer,
            Err(never) => match never {},
        }
    }

    /// Tries to do what `view` does, and waits for nobody. Returns none where the key's bucket is
    /// locked just then: the pass is as it was, and the function is dropped and not called.
    ///
    ///     map.try_view(pass, &1, |value| value.is_some()) == Some(false)
    #[inline(always)]
    pub fn try_view<T, G: FnOnce(Option<&V>) -> T>(
        &self,
        pass: &mut Pass<K, V, F>,
        key: &K,
        f: G,
    ) -> Option<T>
    where
        G: Drop,
        requires callable { G.IsAlwaysCallable f }
        requires pass { pass.old.ledger ≡ self.now.ledger.id }
        ensures seen { IfSome result (λ _. HasSeen K.eq (after V.eq F.remapped F.merged)
            self.now.ledger pass.old pass.new) }
        ensures shown { IfSome result (AnswersAt (G.post f)
            (run K.eq (lookup K.eq self.now.ledger.opening) pass.new.seen key.now)) }
        ensures busy { IfNone result (pass.new ≡ pass.old) }
    {
        self.try_view_as(pass, key, f)
    }

    /// Tries to do what `view_as` does, and waits for nobody. Returns none where the key's bucket is
    /// locked just then: the pass is as it was, and the function is dropped and not called.
    ///
    ///     map.try_view_as(pass, b"one".as_slice(), |value| value.is_some()) == Some(true)
    #[inline(always)]
    pub fn try_view_as<Q: AsKey<K>, T, G: FnOnce(Option<&V>) -> T>(
        &self,
        pass: &mut Pass<K, V, F>,
        query: Q,
        f: G,
    ) -> Option<T>
    where
        G: Drop,
        requires callable { G.IsAlwaysCallable f }
        requires pass { pass.old.ledger ≡ self.now.ledger.id }
        ensures seen { IfSome result (λ _. HasSeen K.eq (after V.eq F.remapped F.merged)
            self.now.ledger pass.old pass.new) }
        ensures shown { IfSome result (AnswersAt (G.post f)
            (run K.eq (lookup K.eq self.now.ledger.opening) pass.new.seen (Q.stands_for query))) }
        ensures busy { IfNone result (pass.new ≡ pass.old) }
    {
        match self.try_at_key(pass, Viewing { query, f })? {
            Ok((answer, _, _)) => Some(answer),
            Err(never) => match never {},
        }
    }

    /// Returns a copy of the value at a key, which is the one that all calls before had left there.
    /// The pass has then seen these calls. It waits for the key's bucket as a call does, but it is
    /// no call: nothing is posted, and a full pass may look as well. It takes memory where a copy of
    /// the value does.
    ///
    ///     map.put(rt, pass, 1, 5)?;
    ///     map.look_up(rt, pass, &1)? == Some(5)
    ///     map.look_up(rt, pass, &2)? == None
    ///
    /// # Errors
    ///
    /// `NoMemory`, where the value cannot be copied.
    #[inline(always)]
    pub fn look_up<R: Wait>(
        &self,
        rt: &R,
        pass: &mut Pass<K, V, F>,
        key: &K,
    ) -> Result<Option<V>, Fault>
        requires pass { pass.old.ledger ≡ self.now.ledger.id }
        ensures seen { HasSeen K.eq (after V.eq F.remapped F.merged) self.now.ledger pass.old
            pass.new }
        ensures found { IfOk result (λ value. value
            ≡ run K.eq (lookup K.eq self.now.ledger.opening) pass.new.seen key.now) }
        ensures sure { IsNeverRefused V.is_infallible → IsOk result }
        ensures faults { IfErr result (λ fault. fault ≡ Fault.NoMemory) }
    {
        self.look_up_as(rt, pass, key)
    }

    /// Looks up the key that this stands for, as a slice stands for the key of its bytes. No key is
    /// made. In all else it does what `look_up` does.
    ///
    ///     map.put(rt, pass, Bytes(b"one"), 5)?;
    ///     map.look_up_as(rt, pass, b"one".as_slice())? == Some(5)
    ///
    /// # Errors
    ///
    /// `NoMemory`, where the value cannot be copied.
    #[inline(always)]
    pub fn look_up_as<R: Wait, Q: AsKey<K>>(
        &self,
        rt: &R,
        pass: &mut Pass<K, V, F>,
        query: Q,
    ) -> Result<Option<V>, Fault>
        requires pass { pass.old.ledger ≡ self.now.ledger.id }
        ensures seen { HasSeen K.eq (after V.eq F.remapped F.merged) self.now.ledger pass.old
            pass.new }
        ensures found { IfOk result (λ value. value
            ≡ run K.eq (lookup K.eq self.now.ledger.opening) pass.new.seen (Q.stands_for query)) }
        ensures sure { IsNeverRefused V.is_infallible → IsOk result }
        ensures faults { IfErr result (λ fault. fault ≡ Fault.NoMemory) }
    {
        let value = self.view_as(rt, pass, query, |value| copied(value));
        Ok(value?)
    }

    /// Returns a copy of the value at a key. A recorded map's bucket is read beside others that read
    /// it; a lean one's is locked. It is no call: nothing is posted, and which moment it shows is not
    /// said.
    ///
    ///     map.put(rt, pass, 1, 5)?;
    ///     map.glance(rt, &1)? == Some(5)
    pub fn glance<R: Wait>(&self, rt: &R, key: &K) -> Result<Option<V>, Fault>
        ensures shown { IfOk result
            (IsShown K.eq K.code (after V.eq F.remapped F.merged) self.now key.now) }
        ensures sure { IsNeverRefused V.is_infallible → IsOk result }
        ensures faults { IfErr result (λ fault. fault ≡ Fault.NoMemory) }
    {
        self.glance_as(rt, key)
    }

    /// Glances at the key that this stands for, as a slice stands for the key of its bytes. No key
    /// is made. It tells, and waits for, what a glance by the key does.
    ///
    ///     map.put(rt, pass, Bytes(b"one"), 5)?;
    ///     map.glance_as(rt, b"one".as_slice())? == Some(5)
    pub fn glance_as<R: Wait, Q: AsKey<K>>(&self, rt: &R, query: Q) -> Result<Option<V>, Fault>
        ensures shown { IfOk result
            (IsShown K.eq K.code (after V.eq F.remapped F.merged) self.now (Q.stands_for query)) }
        ensures sure { IsNeverRefused V.is_infallible → IsOk result }
        ensures faults { IfErr result (λ fault. fault ≡ Fault.NoMemory) }
    {
        let hash = self.salt().hash_of_as::<K, Q>(query);
        // without the pass, so which moment it shows is not known
        Ok(self.bins.glance_as(rt, hash, query)?)
    }
}

/// A copy of a value, if there is one.
fn copied<V: Exact>(value: Option<&V>) -> Result<Option<V>, AllocError>
    ensures copy { IfOk result (λ copy. copy ≡ option_copied value.entry) }
    ensures sure { IsNeverRefused V.is_infallible → IsOk result }
{
    match value {
        Some(value) => Ok(Some(value.clone()?)),
        None => Ok(None),
    }
}
