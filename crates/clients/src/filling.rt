//! A client puts many pairs.
ghost use Rattle.std.specs.Prelude.{◌≡◌, ◌≤◌, ◌↔◌, length, IfErr};
ghost use Rattle.std.specs.Iterator.{IsFinite};
ghost use Rattle.chm.specs.Refusals.{IsOfCall};
ghost use Rattle.count_ledger.specs.Limits.{most_calls};
ghost use Rattle.clients.specs.Filled.{HasPut};

use crate::client::ClientOf;
use crate::holder::{Holder, Seat};
use bin_history::{Remap, Value};
use chm::Fault;
use hashkeys::HashKey;
use std::alloc::Allocator;
use std::sync::Wait;

impl<H: Holder<K, V, F, A>, K: HashKey, V: Value, F: Remap<K, V>, A: Allocator + Clone> ClientOf<
    H,
    K,
    V,
    F,
    A,
> {
    /// Puts each pair in order: where a key comes twice, the last value stays. The pairs are those of a
    /// list, or of whatever makes an iterator that ends. It is one `put` a pair: it locks the bucket of
    /// each key in turn, for which it waits, and allocates what each `put` does. No bucket is locked
    /// while the iterator makes the next pair.
    ///
    ///     client.put_all(rt, vec![in alloc; (1, 5), (2, 6)]?)?;
    ///     assert_eq!(client.get(rt, &2)?, Some(6));
    ///     client.put_all(rt, (1..101).map(|n: u64| (n, n / 2)))?;
    ///     assert_eq!(client.get(rt, &100)?, Some(50));
    ///
    /// # Errors
    ///
    /// `PassFull` where the client has made all the calls that it may and a pair is left, and
    /// `NoMemory`. The puts made before that stand. The pair that was to be put is dropped, and so are
    /// the pairs behind it, unless the iterator is given by `&mut`: they are left in it then.
    pub fn put_all<R: Wait, I: IntoIterator<Item = (K, V)>>(
        &mut self,
        rt: &R,
        pairs: I,
    ) -> Result<(), Fault>
        requires ends { (it : I.IntoIter) → I.into_iter_gives pairs it →
            I.IntoIter.can_next it × IsFinite (I.IntoIter.remaining it) }
        ensures put { HasPut K.eq V.eq F.remapped F.merged I.into_iter_gives I.IntoIter.next_gives
            self.old.map.ledger pairs self.old.pass self.new.pass result }
        ensures full { IfErr result (λ fault. (fault ≡ Fault.PassFull) ↔
            (most_calls self.old.map.ledger.form self.old.map.ledger.clients ≤ length self.new.pass.made)) }
        ensures faults { IfErr result IsOfCall }
        ensures map { self.new.map ≡ self.old.map }
    {
        for (key, value) in pairs {
            self.put(rt, key, value)?;
        }
        Ok(())
    }
}
