//! Calls of clients, and what is read of closed maps.
ghost use Rattle.std.specs.Prelude.{⊤};
ghost use Rattle.bin_history.specs.Ops.{call_on, key_in};
ghost use Rattle.facing_maps.specs.Answers.{answered};
ghost use Rattle.facing_maps.specs.Calls.{IsCalled, IsFound};

use crate::stage::Stage;
use crate::status::CallOutcome;
use bin_history::{KeyArg, Op, Remap, Value};
use hashkeys::{AsKey, HashKey};

impl<K: HashKey, V: Value, F: Remap<K, V>> Stage<K, V, F> {
    /// Tries a call of the client that this is, if it is one. It waits for nobody.
    pub fn try_call(&mut self, key: KeyArg<'_, K>, op: Op<V, F>) -> Option<CallOutcome<V>>
        ensures { IsCalled K.eq V.eq F.remapped F.merged ⊤ (λ _. ⊥) self.old
            (call_on (key_in key.entry) op) self.new (answered result) }
    {
        match self {
            Stage::Client(client) => Some(Ok(client.try_call(key, op))),
            _ => None,
        }
    }

    /// The value at the key that the query stands for, in the closed map that this is, if it is one.
    pub fn find_as<Q: AsKey<K>>(&self, query: Q) -> Option<Result<Option<&V>, u32>>
        ensures { IsFound K.eq ⊤ (λ _. ⊥) self.now (Q.stands_for query) (answered result) }
    {
        match self {
            Stage::Closed(closed) => Some(Ok(closed.quiet().get_as(query))),
            _ => None,
        }
    }
}
