//! Calls that are made in one step.
ghost use Rattle.std.specs.Prelude.{◌≡◌, ◌<◌, ◌^◌, true, IfOk, IsOk, OnErr};
ghost use Rattle.hashkeys.specs.Classes.{is_of};
ghost use Rattle.bin_history.specs.Limits.{most_lean_clients};
ghost use Rattle.bin_history.specs.Made.{IsMadeOn};
ghost use Rattle.bin_history.specs.Ops.{call_on, key_in};
ghost use Rattle.bin_history.specs.Sure.{IsSure};

use crate::call::{Remap, Reply, Value};
use crate::op::Op;
use crate::posting::Posting;
use crate::recorded::RecordedBin;
use bin_entries::KeyArg;
use hashkeys::HashKey;
use std::alloc::{AllocError, Allocator};

impl<K: HashKey, V: Value, F: Remap<K, V>, A: Allocator + Clone> RecordedBin<K, V, F, A> {
    /// Makes a call, as the call of this client, below 65,536, after so many others of it, fewer
    /// than 2^48: what `prepare_on` and `apply` do, one after the other. It returns the reply and
    /// what the books need. Out of memory, the call is dropped, and nothing is changed.
    pub fn make_on(
        &mut self,
        key: KeyArg<'_, K>,
        op: Op<V, F>,
        client: u32,
        ordinal: u64,
    ) -> Result<(Reply<V>, Posting<K, V, F>), AllocError>
    where
        K: Drop,
        V: Drop,
        F: Drop,
        requires of_class { is_of K.code self.old.salt self.old.class (key_in key) ≡ true }
        requires client { client < most_lean_clients }
        requires ordinal { ordinal < 2 ^ 48 }
        ensures made { IfOk result
            (λ r. IsMadeOn K.eq V.eq F.remapped F.merged client ordinal
            (call_on (key_in key.entry) op) self.old self.new r.0 r.1) }
        ensures succeeds { IsSure K.eq K.is_infallible V.is_infallible self.old
            (key_in key.entry) op → IsOk result }
        ensures records { OnErr result (self.new.records ≡ self.old.records) }
        ensures base { OnErr result (self.new.base ≡ self.old.base) }
        ensures entries { OnErr result (self.new.entries ≡ self.old.entries) }
        ensures form { self.new.form ≡ self.old.form }
        ensures class { self.new.class ≡ self.old.class }
        ensures salt { self.new.salt ≡ self.old.salt }
    {
        self.lawful();
        let ready = self.prepare_on(key, op)?;
        Ok(self.apply(ready, client, ordinal))
    }
}
