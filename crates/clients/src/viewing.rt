//! A client looks at a value where it lies, by a function of its own.
ghost use Rattle.std.specs.Prelude.{◌≡◌, IfSome, IfNone};
ghost use Rattle.bin_history.specs.Calls.{after};
ghost use Rattle.bin_history.specs.Entries.{lookup};
ghost use Rattle.bin_history.specs.Plain.{run};
ghost use Rattle.count_ledger.specs.Fronts.{HasSeen};
ghost use Rattle.chm.specs.Updates.{AnswersAt};

use crate::client::ClientOf;
use crate::holder::{Holder, Seat};
use bin_history::{Remap, Value};
use hashkeys::{AsKey, HashKey};
use std::alloc::Allocator;
use std::sync::Wait;

impl<H: Holder<K, V, F, A>, K: HashKey, V: Value, F: Remap<K, V>, A: Allocator + Clone> ClientOf<
    H,
    K,
    V,
    F,
    A,
> {
    /// Gives the function the value at the key, where it lies, and returns what the function
    /// returns. The value is the one that all calls before had left there; the client has then seen
    /// these calls. Nothing is copied, posted or allocated, so nothing can fail.
    ///
    /// It waits for the key's bucket, which is locked while the function runs: a function that takes
    /// long keeps other clients out of the bucket, and one that calls the map, by whatever client,
    /// deadlocks where the other key is of the same bucket.
    ///
    ///     client.put(rt, 1, 5)?;
    ///     assert_eq!(client.view(rt, &1, |value| value.copied()), Some(5));
    pub fn view<R: Wait, T, G: FnOnce(Option<&V>) -> T>(&mut self, rt: &R, key: &K, f: G) -> T
        requires callable { G.IsAlwaysCallable f }
        ensures seen { HasSeen K.eq (after V.eq F.remapped F.merged) self.old.map.ledger self.old.pass
            self.new.pass }
        ensures shown { AnswersAt (G.post f)
            (run K.eq (lookup K.eq self.old.map.ledger.opening) self.new.pass.seen key.now) result }
        ensures map { self.new.map ≡ self.old.map }
    {
        self.holder.map().view(rt, self.seat.pass_mut(), key, f)
    }

    /// Gives the function the value at the key that this stands for, as a slice stands for the key
    /// of its bytes. No key is made. In all else it does what `view` does.
    ///
    ///     client.put(rt, Bytes(b"one"), 5)?;
    ///     assert_eq!(client.view_as(rt, b"one".as_slice(), |value| value.copied()), Some(5));
    pub fn view_as<R: Wait, Q: AsKey<K>, T, G: FnOnce(Option<&V>) -> T>(
        &mut self,
        rt: &R,
        query: Q,
        f: G,
    ) -> T
        requires callable { G.IsAlwaysCallable f }
        ensures seen { HasSeen K.eq (after V.eq F.remapped F.merged) self.old.map.ledger self.old.pass
            self.new.pass }
        ensures shown { AnswersAt (G.post f)
            (run K.eq (lookup K.eq self.old.map.ledger.opening) self.new.pass.seen (Q.stands_for query))
            result }
        ensures map { self.new.map ≡ self.old.map }
    {
        self.holder
            .map()
            .view_as(rt, self.seat.pass_mut(), query, f)
    }

    /// Tries to do what `view` does, and waits for nobody. Returns none where the key's bucket is
    /// locked just then: the client is as it was, and the function is dropped and not called.
    ///
    ///     client.remove(rt, &1)?;
    ///     assert_eq!(client.try_view(&1, |value| value.copied()), Some(None));
    pub fn try_view<T, G: FnOnce(Option<&V>) -> T>(&mut self, key: &K, f: G) -> Option<T>
    where
        G: Drop,
        requires callable { G.IsAlwaysCallable f }
        ensures seen { IfSome result (λ _. HasSeen K.eq (after V.eq F.remapped F.merged)
            self.old.map.ledger self.old.pass self.new.pass) }
        ensures shown { IfSome result (AnswersAt (G.post f)
            (run K.eq (lookup K.eq self.old.map.ledger.opening) self.new.pass.seen key.now)) }
        ensures busy { IfNone result (self.new.pass ≡ self.old.pass) }
        ensures map { self.new.map ≡ self.old.map }
    {
        self.holder.map().try_view(self.seat.pass_mut(), key, f)
    }

    /// Tries to do what `view_as` does, and waits for nobody. Returns none where the key's bucket is
    /// locked just then: the client is as it was, and the function is dropped and not called.
    ///
    ///     assert_eq!(client.try_view_as(b"two".as_slice(), |value| value.copied()), Some(None));
    pub fn try_view_as<Q: AsKey<K>, T, G: FnOnce(Option<&V>) -> T>(
        &mut self,
        query: Q,
        f: G,
    ) -> Option<T>
    where
        G: Drop,
        requires callable { G.IsAlwaysCallable f }
        ensures seen { IfSome result (λ _. HasSeen K.eq (after V.eq F.remapped F.merged)
            self.old.map.ledger self.old.pass self.new.pass) }
        ensures shown { IfSome result (AnswersAt (G.post f)
            (run K.eq (lookup K.eq self.old.map.ledger.opening) self.new.pass.seen (Q.stands_for query))) }
        ensures busy { IfNone result (self.new.pass ≡ self.old.pass) }
        ensures map { self.new.map ≡ self.old.map }
    {
        self.holder
            .map()
            .try_view_as(self.seat.pass_mut(), query, f)
    }
}
