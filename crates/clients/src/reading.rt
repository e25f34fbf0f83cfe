//! What a client reads without a call: nothing is posted, and a full pass may read too.
ghost use Rattle.std.specs.Prelude.{◌≡◌, ◌<◌, ◌^◌, All, IfOk, IfErr, IsOk};
ghost use Rattle.bin_history.specs.Calls.{after};
ghost use Rattle.bin_history.specs.Entries.{HasDistinctKeys, lookup};
ghost use Rattle.bin_history.specs.Plain.{run};
ghost use Rattle.bin_history.specs.Sure.{IsNeverRefused};
ghost use Rattle.count_ledger.specs.Fronts.{HasSeen, HasSeenMore};
ghost use Rattle.chm.specs.Visits.{AreVisits, IsOwn, IsShown, shown_by};

use crate::client::ClientOf;
use crate::holder::{Holder, Seat};
use bin_history::{Remap, Value};
use chm::{Fault, Visit};
use hashkeys::{AsKey, HashKey};
use std::alloc::Allocator;
use std::sync::Wait;

impl<H: Holder<K, V, F, A>, K: HashKey, V: Value, F: Remap<K, V>, A: Allocator + Clone> ClientOf<
    H,
    K,
    V,
    F,
    A,
> {
    /// Returns a clone of the value at the key, as all calls so far left it, which the client has
    /// then seen. It is no call and posts nothing. It locks the key's bucket, for which it waits,
    /// and takes time linear in the keys of the bucket. It allocates only what the clone does.
    ///
    ///     client.put(rt, 1, 5)?;
    ///     assert_eq!(client.look_up(rt, &1)?, Some(5));
    ///
    /// # Errors
    ///
    /// `NoMemory`, where the value cannot be copied.
    pub fn look_up<R: Wait>(&mut self, rt: &R, key: &K) -> Result<Option<V>, Fault>
        ensures seen { HasSeen K.eq (after V.eq F.remapped F.merged) self.old.map.ledger
            self.old.pass self.new.pass }
        ensures found { IfOk result (λ value. value
            ≡ run K.eq (lookup K.eq self.old.map.ledger.opening) self.new.pass.seen
            key.now) }
        ensures sure { IsNeverRefused V.is_infallible → IsOk result }
        ensures faults { IfErr result (λ fault. fault ≡ Fault.NoMemory) }
        ensures map { self.new.map ≡ self.old.map }
    {
        self.holder.map().look_up(rt, self.seat.pass_mut(), key)
    }

    /// Returns a clone of the value at the key that the query stands for, as a slice stands for the
    /// key of its bytes. The value is as all calls so far left it, which the client has then seen.
    /// No key is made. It is no call and posts nothing. It locks the key's bucket, for which it
    /// waits, and takes time linear in the keys of the bucket. It allocates only what the clone
    /// does.
    ///
    ///     client.put(rt, Bytes(b"one"), 5)?;
    ///     assert_eq!(client.look_up_as(rt, b"one".as_slice())?, Some(5));
    ///
    /// # Errors
    ///
    /// `NoMemory`, where the value cannot be copied.
    pub fn look_up_as<R: Wait, Q: AsKey<K>>(&mut self, rt: &R, query: Q) -> Result<Option<V>, Fault>
        ensures seen { HasSeen K.eq (after V.eq F.remapped F.merged) self.old.map.ledger
            self.old.pass self.new.pass }
        ensures found { IfOk result (λ value. value
            ≡ run K.eq (lookup K.eq self.old.map.ledger.opening) self.new.pass.seen
            (Q.stands_for query)) }
        ensures sure { IsNeverRefused V.is_infallible → IsOk result }
        ensures faults { IfErr result (λ fault. fault ≡ Fault.NoMemory) }
        ensures map { self.new.map ≡ self.old.map }
    {
        self.holder
            .map()
            .look_up_as(rt, self.seat.pass_mut(), query)
    }

    /// Returns a clone of the value that the key has at some moment. Which moment is not said. It
    /// waits for the key's bucket, which it locks in a lean map and reads beside other readers in a
    /// recorded one, and takes time linear in the keys of the bucket. It allocates only what the
    /// clone does.
    ///
    ///     client.put(rt, 1, 5)?;
    ///     assert_eq!(client.glance(rt, &1)?, Some(5));
    ///
    /// # Errors
    ///
    /// `NoMemory`, where the value cannot be copied.
    pub fn glance<R: Wait>(&self, rt: &R, key: &K) -> Result<Option<V>, Fault>
        ensures shown { IfOk result
            (IsShown K.eq K.code (after V.eq F.remapped F.merged) self.now.map key.now) }
        ensures sure { IsNeverRefused V.is_infallible → IsOk result }
        ensures faults { IfErr result (λ fault. fault ≡ Fault.NoMemory) }
    {
        self.holder.map().glance(rt, key)
    }

    /// Returns a clone of the value that the key for which the query stands has at some moment; a
    /// slice stands for the key of its bytes. No key is made. Which moment is not said. It waits
    /// for the key's bucket, which it locks in a lean map and reads beside other readers in a
    /// recorded one, and takes time linear in the keys of the bucket. It allocates only what the
    /// clone does.
    ///
    ///     client.put(rt, Bytes(b"one"), 5)?;
    ///     assert_eq!(client.glance_as(rt, b"one".as_slice())?, Some(5));
    ///
    /// # Errors
    ///
    /// `NoMemory`, where the value cannot be copied.
    pub fn glance_as<R: Wait, Q: AsKey<K>>(&self, rt: &R, query: Q) -> Result<Option<V>, Fault>
        ensures shown { IfOk result
            (IsShown K.eq K.code (after V.eq F.remapped F.merged) self.now.map
            (Q.stands_for query)) }
        ensures sure { IsNeverRefused V.is_infallible → IsOk result }
        ensures faults { IfErr result (λ fault. fault ≡ Fault.NoMemory) }
    {
        self.holder.map().glance_as(rt, query)
    }

    /// Returns copies of the entries of each bucket in walk order, one bucket after the other, as
    /// `Map::walk` does: each bucket as all calls before had left it, those that the client had
    /// seen when the walk began, and others made meanwhile. No key comes twice. With one client the
    /// walk shows the map. It waits for each bucket in turn, takes time linear in the buckets and
    /// the entries, and allocates the copies.
    ///
    ///     client.put(rt, 1, 5)?;
    ///     let visits = client.walk(rt)?;
    ///     assert!(visits.iter().any(|visit| visit.entries.as_slice() == [(1, 5)].as_slice()));
    ///
    /// # Errors
    ///
    /// `NoMemory`. Nothing is shown then.
    pub fn walk<R: Wait>(&mut self, rt: &R) -> Result<Vec<Visit<K, V, A>, A>, Fault>
        ensures visits { IfOk result
            (λ v. AreVisits K.eq K.code (after V.eq F.remapped F.merged) self.old.map.n
            self.old.map.ledger
            self.old.pass v.items self.new.pass) }
        ensures distinct { IfOk result (λ v. HasDistinctKeys K.eq (shown_by v.items)) }
        ensures own { self.old.map.ledger.clients ≡ 1 →
            IfOk result
            (λ v. All (IsOwn K.eq K.code self.old.map.ledger self.old.pass) v.items) }
        ensures seen { HasSeenMore self.old.pass self.new.pass }
        ensures faults { IfErr result (λ fault. fault ≡ Fault.NoMemory) }
        ensures map { self.new.map ≡ self.old.map }
    {
        self.holder.map().walk(rt, self.seat.pass_mut())
    }
}

impl<H: Holder<K, V, F, A>, K: HashKey, V: Value, F: Remap<K, V>, A: Allocator> ClientOf<
    H,
    K,
    V,
    F,
    A,
> {
    /// Returns how many keys there are, as far as a look at one client's count after the other
    /// tells. While other threads call, this is the number at no one moment, and nothing is
    /// promised but that it is below 2^63. It looks at no more than 32 counts, allocates nothing,
    /// and waits for nobody.
    ///
    ///     client.put(rt, 1, 5)?;
    ///     assert_eq!(client.mapping_count(), 1);
    pub fn mapping_count(&self) -> u64
        ensures { result < 2 ^ 63 }
    {
        self.holder.map().mapping_count()
    }
}
