//! The calls that may make their key, by what stands for it, as a slice stands for the key of its bytes: a
//! key is made only where the map has no entry of it.
//!
//! Each is one call: a put of what the key has then, or a `remove` where it has nothing. Each waits for
//! the key's bucket, which is locked while the function runs: a function that takes long keeps other
//! clients out of the bucket, and one that calls the map, by whatever pass, deadlocks where the other
//! key is of the same bucket. A lean map copies nothing. It allocates for a key that has no entry, and
//! for the entry, before it calls the function, and else nowhere; a bucket's first entry lies in the
//! bucket, and takes no memory. A recorded map makes the key, and copies it and the values for the
//! call's record.
//!
//! # Errors
//!
//! `PassFull` before the function is called, and `NoMemory`. The map and the pass are as they were. What
//! was given beside the key comes back, the function too, and so was not called; but of a recorded map
//! that was out of memory once the new value was made nothing comes back.
ghost use Rattle.std.specs.Prelude.{◌≡◌, Some};
ghost use Rattle.chm.specs.Given.{IsGive, LeavesByChange, LeavesMerged, put_where_none};
ghost use Rattle.chm.specs.Updates.{IsWithin};

use crate::calls::not_made::NotMade;
use crate::calls::update::Change;
use crate::map::Map;
use bin_history::{Remap, Value};
use count_ledger::Pass;
use hashkeys::{HashKey, MakesKey};
use std::alloc::Allocator;
use std::sync::Wait;

impl<K: HashKey, V: Value, F: Remap<K, V>, A: Allocator + Clone> Map<K, V, F, A> {
    /// Sets the value at the key that this stands for. Returns the value before.
    ///
    ///     map.put_as(rt, pass, b"one".as_slice(), 5)? == None
    ///     map.put_as(rt, pass, b"one".as_slice(), 6)? == Some(5)
    ///
    /// # Errors
    ///
    /// Those of this module; the value comes back.
    #[inline(always)]
    pub fn put_as<R: Wait, Q: MakesKey<K, A>>(
        &self,
        rt: &R,
        pass: &mut Pass<K, V, F>,
        query: Q,
        value: V,
    ) -> Result<Option<V>, NotMade<V>>
        requires pass { pass.old.ledger ≡ self.now.ledger.id }
        ensures { IsGive K.eq V.eq F.remapped F.merged (λ before r. r ≡ (Some value, before))
            self.now.ledger (Q.stands_for query) value pass.old pass.new result }
    {
        let putting = |value: V, before: Option<V>| -> (Option<V>, Option<V>)
            ensures { result ≡ (Some value, before) }
        { (Some(value), before) };
        self.give(rt, pass, query, value, putting)
    }

    /// Sets the value at the key that this stands for, where it has none. Returns none then, and else the
    /// value that was given: nothing is copied.
    ///
    ///     map.put_if_absent_as(rt, pass, b"one".as_slice(), 5)? == None
    ///     map.put_if_absent_as(rt, pass, b"one".as_slice(), 6)? == Some(6)
    ///     map.get_as(rt, pass, b"one".as_slice())? == Reply::Value(Some(5))
    ///
    /// # Errors
    ///
    /// Those of this module; the value comes back.
    #[inline(always)]
    pub fn put_if_absent_as<R: Wait, Q: MakesKey<K, A>>(
        &self,
        rt: &R,
        pass: &mut Pass<K, V, F>,
        query: Q,
        value: V,
    ) -> Result<Option<V>, NotMade<V>>
        requires pass { pass.old.ledger ≡ self.now.ledger.id }
        ensures { IsGive K.eq V.eq F.remapped F.merged (λ before r. r ≡ put_where_none value before)
            self.now.ledger (Q.stands_for query) value pass.old pass.new result }
    {
        let putting = |value: V, before: Option<V>| -> (Option<V>, Option<V>)
            ensures { result ≡ put_where_none value before }
        {
            match before {
                None => (Some(value), None),
                Some(before) => (Some(before), Some(value)),
            }
        };
        self.give(rt, pass, query, value, putting)
    }

    /// Sets this value at the key that this stands for, where it has none, and else what the function
    /// makes of the value before and of this one; for none the key is taken away. Returns whether it had
    /// a value.
    ///
    ///     map.merge_as(rt, pass, b"one".as_slice(), 5, |old, new| Some(old.min(new)))? == false
    ///     map.merge_as(rt, pass, b"one".as_slice(), 3, |old, new| Some(old.min(new)))? == true
    ///     map.get_as(rt, pass, b"one".as_slice())? == Reply::Value(Some(3))
    ///
    /// # Errors
    ///
    /// Those of this module; the value and the function come back.
    #[inline(always)]
    pub fn merge_as<R: Wait, Q: MakesKey<K, A>, G: FnOnce(V, V) -> Option<V>>(
        &self,
        rt: &R,
        pass: &mut Pass<K, V, F>,
        query: Q,
        value: V,
        f: G,
    ) -> Result<bool, NotMade<(V, G)>>
    where
        G: Drop,
        requires callable { IsWithin self.now.ledger pass.old → G.IsAlwaysCallable f }
        requires pass { pass.old.ledger ≡ self.now.ledger.id }
        ensures { IsGive K.eq V.eq F.remapped F.merged (LeavesMerged (G.post f) value)
            self.now.ledger (Q.stands_for query) (value, f) pass.old pass.new result }
    {
        let merging = |given: (V, G), before: Option<V>| -> (Option<V>, bool)
            requires { G.IsAlwaysCallable given.1 }
            ensures { LeavesMerged (G.post given.1) given.0 before result }
        {
            let (value, f) = given;
            match before {
                None => (Some(value), false),
                Some(before) => (f(before, value), true),
            }
        };
        self.give(rt, pass, query, (value, f), merging)
    }

    /// Shows the function the value at the key that this stands for, and makes the change that it
    /// returns. Returns the rest of what the function returns. A value that stays is put once more, and
    /// where there is none a `remove` is made.
    ///
    ///     map.put_as(rt, pass, b"one".as_slice(), 5)?;
    ///     map.update_as(rt, pass, b"one".as_slice(), |v| (Change::Set(6), v.copied()))? == Some(5)
    ///     map.get_as(rt, pass, b"one".as_slice())? == Reply::Value(Some(6))
    ///
    /// # Errors
    ///
    /// Those of this module; the function comes back.
    #[inline(always)]
    pub fn update_as<R: Wait, Q: MakesKey<K, A>, T: Drop, G: FnOnce(Option<&V>) -> (Change<V>, T)>(
        &self,
        rt: &R,
        pass: &mut Pass<K, V, F>,
        query: Q,
        f: G,
    ) -> Result<T, NotMade<G>>
    where
        G: Drop,
        requires callable { IsWithin self.now.ledger pass.old → G.IsAlwaysCallable f }
        requires pass { pass.old.ledger ≡ self.now.ledger.id }
        ensures { IsGive K.eq V.eq F.remapped F.merged (LeavesByChange (G.post f)) self.now.ledger
            (Q.stands_for query) f pass.old pass.new result }
    {
        let showing = |f: G, value: Option<V>| -> (Option<V>, T)
            requires { G.IsAlwaysCallable f }
            ensures { LeavesByChange (G.post f) value result }
        {
            let (change, answer) = f(value.as_ref());
            match change {
                Change::Keep => (value, answer),
                Change::Set(value) => (Some(value), answer),
                Change::Remove => (None, answer),
            }
        };
        self.give(rt, pass, query, f, showing)
    }
}
