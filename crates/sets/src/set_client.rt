//! A client of a set.
ghost use Rattle.std.specs.Prelude.{◌≡◌};
ghost use Rattle.bin_history.specs.declared.call.Call.TheVariants.{Contains, PutIfAbsent, Remove};
ghost use Rattle.bin_history.specs.declared.call.Reply.TheVariants.{Truth, Value};
ghost use Rattle.bin_history.specs.declared.form.Form.TheVariants.{Lean};
ghost use Rattle.chm.specs.Headline.{IsAnsweredAs};
ghost use Rattle.chm.specs.Sure.{IsMadeOrFull};
ghost use Rattle.sets.specs.Sets.{no_value, same_value, value_if, value_unless};

use clients::{Fault, NoFunction, OwnedClient};
use hashkeys::HashKey;
use std::alloc::Allocator;
use std::sync::Wait;

/// A client of a set. It may go to another thread, and gives its pass back when it is dropped. `client` is
/// the client of the map from keys to nothing, which has all other calls.
#[derive(Drop)]
pub struct SetClient<K: HashKey, A: Allocator> {
    pub client: OwnedClient<K, (), NoFunction, A>,
}

impl<K: HashKey, A: Allocator + Clone> SetClient<K, A> {
    /// Inserts the key, and returns whether it was not there. It locks the key's bucket, for which it
    /// waits, takes time linear in the keys of the bucket, and allocates for a new key alone.
    ///
    ///     assert!(client.insert(rt, 5)?);
    ///     assert!(!client.insert(rt, 5)?);
    ///
    /// # Errors
    ///
    /// `PassFull` where the client has made all the calls that it may, and `NoMemory`. Nothing is changed
    /// then.
    pub fn insert<R: Wait>(&mut self, rt: &R, key: K) -> Result<bool, Fault>
        ensures answered { IsAnsweredAs K.eq same_value no_value no_value (λ new. Value (value_unless new))
            self.old.client.map.ledger (PutIfAbsent key tt) self.old.client.pass
            self.new.client.pass result }
        ensures map { self.new.client.map ≡ self.old.client.map }
    {
        match self.client.put_if_absent(rt, key, ()) {
            Ok(None) => Ok(true),
            Ok(Some(())) => Ok(false),
            Err(fault) => Err(fault),
        }
    }

    /// Returns whether the key is there. It locks the key's bucket, for which it waits, takes time linear
    /// in the keys of the bucket, and allocates nothing.
    ///
    ///     assert!(client.contains(rt, &5)?);
    ///
    /// # Errors
    ///
    /// `PassFull` where the client has made all the calls that it may. Nothing is changed then.
    pub fn contains<R: Wait>(&mut self, rt: &R, key: &K) -> Result<bool, Fault>
        ensures answered { IsAnsweredAs K.eq same_value no_value no_value Truth
            self.old.client.map.ledger (Contains key.now) self.old.client.pass
            self.new.client.pass result }
        ensures sure { self.old.client.map.ledger.form ≡ Lean → IsMadeOrFull result }
        ensures map { self.new.client.map ≡ self.old.client.map }
    {
        self.client.contains_key(rt, key)
    }

    /// Removes the key, and returns whether it was there. It locks the key's bucket, for which it waits,
    /// takes time linear in the keys of the bucket, and allocates nothing.
    ///
    ///     assert!(client.remove(rt, &5)?);
    ///     assert!(!client.remove(rt, &5)?);
    ///
    /// # Errors
    ///
    /// `PassFull` where the client has made all the calls that it may. Nothing is changed then.
    pub fn remove<R: Wait>(&mut self, rt: &R, key: &K) -> Result<bool, Fault>
        ensures answered { IsAnsweredAs K.eq same_value no_value no_value (λ there. Value (value_if there))
            self.old.client.map.ledger (Remove key.now) self.old.client.pass
            self.new.client.pass result }
        ensures sure { self.old.client.map.ledger.form ≡ Lean → IsMadeOrFull result }
        ensures map { self.new.client.map ≡ self.old.client.map }
    {
        match self.client.remove(rt, key) {
            Ok(None) => Ok(false),
            Ok(Some(())) => Ok(true),
            Err(fault) => Err(fault),
        }
    }
}
