//! Calls by a function that is given the value at a key, or none. The key is given by a reference to one,
//! or by what stands for one, as a slice stands for the key of its bytes: a key is made only where the
//! map has no entry of it.
//!
//! Each is one call: a put of what the key has then, or a `remove` where it has nothing. Each waits for
//! the key's bucket, which is locked while the function runs: a function that takes long keeps other
//! clients out of the bucket, and one that calls the map, by whatever pass, deadlocks where the other
//! key is of the same bucket. A lean map copies nothing but a lent key that it has no entry of. It
//! allocates for that key and its entry before it calls the function, and else nowhere; a bucket's first
//! entry lies in the bucket, and takes no memory. A recorded map gives the function a copy, and copies
//! the key and the values for the call's record.
//!
//! # Errors
//!
//! `PassFull` before the function is called, and `NoMemory`. The map and the pass are as they were. What
//! was given beside the key comes back, the function too, and so was not called; but of a recorded map
//! that was out of memory after it had called the function nothing comes back.
ghost use Rattle.std.specs.Prelude.{◌≡◌, ◌≤◌, Option, Err, length, IfSome, IfNone, IsSome};
ghost use Rattle.std.specs.Fn.{FnOnceReturnsAtMut};
ghost use Rattle.bin_history.specs.Updates.{LeavesSome};
ghost use Rattle.count_ledger.specs.Limits.{most_calls};
ghost use Rattle.chm.specs.Given.{IsGive, LeavesOrKeeps};
ghost use Rattle.chm.specs.Updates.{IsWithin};

use crate::calls::not_made::NotMade;
use crate::map::Map;
use bin_history::{Remap, Value};
use count_ledger::Pass;
use hashkeys::{HashKey, MakesKey};
use std::alloc::Allocator;
use std::sync::Wait;

/// Lends the function the value, or the default where there is none.
#[inline(always)]
fn lent_or<V: Drop, T, G: FnOnce(&mut V) -> T>(given: (V, G), value: Option<V>) -> (Option<V>, T)
where
    G: Drop,
    requires { G.IsAlwaysCallable given.1 }
    ensures { LeavesSome (FnOnceReturnsAtMut G.FnOnce given.1) given.0 value result }
{
    let (default, f) = given;
    let mut value = value.unwrap_or(default);
    let answer = f(&mut value);
    (Some(value), answer)
}

/// Lends the function the place of the value, or of none.
#[inline(always)]
fn lent_place<V: Drop, T, E, G: FnOnce(&mut Option<V>) -> Result<T, E>>(
    f: G,
    value: Option<V>,
) -> (Option<V>, Result<T, E>)
where
    G: Drop,
    requires callable { G.IsAlwaysCallable f }
    requires keeps { (before : Option V) (error : E) (after : Option V) →
        FnOnceReturnsAtMut G.FnOnce f before (Err error) after → after ≡ before }
    ensures { LeavesOrKeeps (FnOnceReturnsAtMut G.FnOnce f) value result }
{
    let mut value = value;
    let answer = f(&mut value);
    (value, answer)
}

impl<K: HashKey, V: Value, F: Remap<K, V>, A: Allocator + Clone> Map<K, V, F, A> {
    /// Lends the function the value at the key, or else the default; the key has what the function
    /// leaves. Returns what the function returns.
    ///
    ///     map.modify_or_insert(rt, pass, &1, 10, |value| replace(value, 11))? == 10
    ///     map.modify_or_insert(rt, pass, &1, 10, |value| replace(value, 12))? == 11
    ///     map.get(rt, pass, 1)? == Reply::Value(Some(12))
    ///
    /// # Errors
    ///
    /// Those of this module; the default and the function come back.
    #[inline(always)]
    pub fn modify_or_insert<R: Wait, Q: MakesKey<K, A>, T: Drop, G: FnOnce(&mut V) -> T>(
        &self,
        rt: &R,
        pass: &mut Pass<K, V, F>,
        key: Q,
        default: V,
        f: G,
    ) -> Result<T, NotMade<(V, G)>>
    where
        G: Drop,
        requires callable { IsWithin self.now.ledger pass.old → G.IsAlwaysCallable f }
        requires pass { pass.old.ledger ≡ self.now.ledger.id }
        ensures { IsGive K.eq V.eq F.remapped F.merged
            (LeavesSome (FnOnceReturnsAtMut G.FnOnce f) default) self.now.ledger
            (Q.stands_for key) (default, f) pass.old pass.new result }
    {
        let lending = |given: (V, G), value: Option<V>| -> (Option<V>, T)
            requires { G.IsAlwaysCallable given.1 }
            ensures { LeavesSome (FnOnceReturnsAtMut G.FnOnce given.1) given.0 value result }
        { lent_or(given, value) };
        self.give(rt, pass, key, (default, f), lending)
    }

    /// Tries to do what `modify_or_insert` does, and waits for nobody. Returns none where the key's
    /// bucket is locked just then: the pass is as it was, and the default and the function are dropped.
    ///
    ///     map.try_modify_or_insert(pass, &1, 10, |value| *value).is_some()
    ///
    /// # Errors
    ///
    /// Those of this module; the default and the function come back.
    #[inline(always)]
    pub fn try_modify_or_insert<Q: MakesKey<K, A>, T: Drop, G: FnOnce(&mut V) -> T>(
        &self,
        pass: &mut Pass<K, V, F>,
        key: Q,
        default: V,
        f: G,
    ) -> Option<Result<T, NotMade<(V, G)>>>
    where
        G: Drop,
        requires callable { IsWithin self.now.ledger pass.old → G.IsAlwaysCallable f }
        requires pass { pass.old.ledger ≡ self.now.ledger.id }
        ensures made { IfSome result (IsGive K.eq V.eq F.remapped F.merged
            (LeavesSome (FnOnceReturnsAtMut G.FnOnce f) default) self.now.ledger
            (Q.stands_for key) (default, f) pass.old pass.new) }
        ensures full { most_calls self.now.ledger.form self.now.ledger.clients ≤ length pass.old.made →
            IsSome result }
        ensures busy { IfNone result (pass.new ≡ pass.old) }
    {
        let lending = |given: (V, G), value: Option<V>| -> (Option<V>, T)
            requires { G.IsAlwaysCallable given.1 }
            ensures { LeavesSome (FnOnceReturnsAtMut G.FnOnce given.1) given.0 value result }
        { lent_or(given, value) };
        self.try_give(pass, key, (default, f), lending)
    }

    /// Gives the function the value at the key, or none; the key has what the function returns, and for
    /// none is taken away. Returns the rest of what the function returns.
    ///
    ///     map.update_owned(rt, pass, &1, |value| (Some(5), value))? == None
    ///     map.update_owned(rt, pass, &1, |value| (None, value))? == Some(5)
    ///     map.get(rt, pass, 1)? == Reply::Value(None)
    ///
    /// # Errors
    ///
    /// Those of this module; the function comes back.
    #[inline(always)]
    pub fn update_owned<
        R: Wait,
        Q: MakesKey<K, A>,
        T: Drop,
        G: FnOnce(Option<V>) -> (Option<V>, T),
    >(&self, rt: &R, pass: &mut Pass<K, V, F>, key: Q, f: G) -> Result<T, NotMade<G>>
    where
        G: Drop,
        requires callable { IsWithin self.now.ledger pass.old → G.IsAlwaysCallable f }
        requires pass { pass.old.ledger ≡ self.now.ledger.id }
        ensures { IsGive K.eq V.eq F.remapped F.merged (G.post f) self.now.ledger
            (Q.stands_for key) f pass.old pass.new result }
    {
        let giving = |f: G, value: Option<V>| -> (Option<V>, T)
            requires { G.IsAlwaysCallable f }
            ensures { G.post f value result }
        { f(value) };
        self.give(rt, pass, key, f, giving)
    }

    /// Tries to do what `update_owned` does, and waits for nobody. Returns none where the key's bucket is
    /// locked just then: the pass is as it was, and the function is dropped and not called.
    ///
    ///     map.try_update_owned(pass, &1, |value| (Some(5), value)).is_some()
    ///
    /// # Errors
    ///
    /// Those of this module; the function comes back.
    #[inline(always)]
    pub fn try_update_owned<Q: MakesKey<K, A>, T: Drop, G: FnOnce(Option<V>) -> (Option<V>, T)>(
        &self,
        pass: &mut Pass<K, V, F>,
        key: Q,
        f: G,
    ) -> Option<Result<T, NotMade<G>>>
    where
        G: Drop,
        requires callable { IsWithin self.now.ledger pass.old → G.IsAlwaysCallable f }
        requires pass { pass.old.ledger ≡ self.now.ledger.id }
        ensures made { IfSome result (IsGive K.eq V.eq F.remapped F.merged (G.post f)
            self.now.ledger (Q.stands_for key) f pass.old pass.new) }
        ensures full { most_calls self.now.ledger.form self.now.ledger.clients ≤ length pass.old.made →
            IsSome result }
        ensures busy { IfNone result (pass.new ≡ pass.old) }
    {
        let giving = |f: G, value: Option<V>| -> (Option<V>, T)
            requires { G.IsAlwaysCallable f }
            ensures { G.post f value result }
        { f(value) };
        self.try_give(pass, key, f, giving)
    }

    /// Lends the function the place of the value at the key, or of none; the key has what the function
    /// leaves there, and for none is taken away. Returns what the function returns, which may be an error
    /// of its own: it has then left the place as it was.
    ///
    /// Where `taken` takes the value out of a place, and fails with 7 where there is none:
    ///
    ///     map.update_or_keep(rt, pass, &1, taken)? == Err(7)
    ///     map.put(rt, pass, 1, 5)?;
    ///     map.update_or_keep(rt, pass, &1, taken)? == Ok(5)
    ///     map.get(rt, pass, 1)? == Reply::Value(None)
    ///
    /// A function that is shown the value and may fail goes to `update`, and returns
    /// `(Change::Keep, Err(error))` where it does.
    ///
    /// # Errors
    ///
    /// Those of this module; the function comes back.
    #[inline(always)]
    pub fn update_or_keep<
        R: Wait,
        Q: MakesKey<K, A>,
        T: Drop,
        E: Drop,
        G: FnOnce(&mut Option<V>) -> Result<T, E>,
    >(&self, rt: &R, pass: &mut Pass<K, V, F>, key: Q, f: G) -> Result<Result<T, E>, NotMade<G>>
    where
        G: Drop,
        requires callable { IsWithin self.now.ledger pass.old → G.IsAlwaysCallable f }
        requires keeps { (before : Option V) (error : E) (after : Option V) →
            FnOnceReturnsAtMut G.FnOnce f before (Err error) after → after ≡ before }
        requires pass { pass.old.ledger ≡ self.now.ledger.id }
        ensures { IsGive K.eq V.eq F.remapped F.merged
            (LeavesOrKeeps (FnOnceReturnsAtMut G.FnOnce f)) self.now.ledger (Q.stands_for key) f
            pass.old pass.new result }
    {
        let lending = |f: G, value: Option<V>| -> (Option<V>, Result<T, E>)
            requires callable { G.IsAlwaysCallable f }
            requires keeps { (before : Option V) (error : E) (after : Option V) →
                FnOnceReturnsAtMut G.FnOnce f before (Err error) after → after ≡ before }
            ensures { LeavesOrKeeps (FnOnceReturnsAtMut G.FnOnce f) value result }
        { lent_place(f, value) };
        self.give(rt, pass, key, f, lending)
    }

    /// Tries to do what `update_or_keep` does, and waits for nobody. Returns none where the key's bucket
    /// is locked just then: the pass is as it was, and the function is dropped and not called.
    ///
    ///     map.try_update_or_keep(pass, &1, taken).is_some()
    ///
    /// # Errors
    ///
    /// Those of this module; the function comes back.
    #[inline(always)]
    pub fn try_update_or_keep<
        Q: MakesKey<K, A>,
        T: Drop,
        E: Drop,
        G: FnOnce(&mut Option<V>) -> Result<T, E>,
    >(&self, pass: &mut Pass<K, V, F>, key: Q, f: G) -> Option<Result<Result<T, E>, NotMade<G>>>
    where
        G: Drop,
        requires callable { IsWithin self.now.ledger pass.old → G.IsAlwaysCallable f }
        requires keeps { (before : Option V) (error : E) (after : Option V) →
            FnOnceReturnsAtMut G.FnOnce f before (Err error) after → after ≡ before }
        requires pass { pass.old.ledger ≡ self.now.ledger.id }
        ensures made { IfSome result (IsGive K.eq V.eq F.remapped F.merged
            (LeavesOrKeeps (FnOnceReturnsAtMut G.FnOnce f)) self.now.ledger (Q.stands_for key) f
            pass.old pass.new) }
        ensures full { most_calls self.now.ledger.form self.now.ledger.clients ≤ length pass.old.made →
            IsSome result }
        ensures busy { IfNone result (pass.new ≡ pass.old) }
    {
        let lending = |f: G, value: Option<V>| -> (Option<V>, Result<T, E>)
            requires callable { G.IsAlwaysCallable f }
            requires keeps { (before : Option V) (error : E) (after : Option V) →
                FnOnceReturnsAtMut G.FnOnce f before (Err error) after → after ≡ before }
            ensures { LeavesOrKeeps (FnOnceReturnsAtMut G.FnOnce f) value result }
        { lent_place(f, value) };
        self.try_give(pass, key, f, lending)
    }
}
