//! The twelve calls, on a key that is given beside them.
ghost use Rattle.std.specs.Prelude.{◌≡◌};

use crate::calls::at_key::{AtKey, CallAtKey};
use crate::fault::Fault;
use crate::map::Map;
use crate::resize::policy::Growth;
use bin_history::{Bin, KeyArg, Op, Remap, Reply, Value};
use count_ledger::{BinRole, Pass};
use hashkeys::{Class, HashKey, Salt};
use lean_bins::BinSlot;
use std::alloc::Allocator;

/// One of the twelve calls, and its key.
#[derive(Drop)]
pub(crate) struct Calling<'k, K: HashKey, V: Value, F: Remap<K, V>> {
    pub(crate) key: KeyArg<'k, K>,
    pub(crate) op: Op<V, F>,
}

impl<K: HashKey, V: Value, F: Remap<K, V>, A: Allocator + Clone> AtKey<K, V, F, A>
    for Calling<'_, K, V, F> {
    ghost use Rattle.std.specs.Prelude.{◌≡◌, ◌<◌, ◌≤◌, length};
    ghost use Rattle.bin_history.specs.Ops.{call_on, key_in};
    ghost use Rattle.bin_history.specs.declared.form.Form.TheVariants.{Lean};
    ghost use Rattle.chm.specs.Headline.{IsCalled};
    ghost use Rattle.chm.specs.Sure.{NeedsNoMemory};
    ghost use Rattle.chm.specs.Updates.{IsWithin};
    ghost use Rattle.chm.specs.declared.fault.Fault.TheVariants.{NoMemory};

    type Answer = Reply<V>;

    type Failure = Fault;

    ghost key = { λ w. key_in w.key };

    ghost may = { λ w ledger pass. IsWithin ledger pass };

    ghost does = { λ w ledger old new reply. IsCalled K.eq V.eq F.remapped F.merged ledger
        (call_on (key_in w.key) w.op) old new reply };

    ghost fails = { λ w ledger old fault. (fault ≡ NoMemory)
        × (ledger.form ≡ Lean → NeedsNoMemory V.is_infallible w.op → ⊥) };

    #[inline(always)]
    fn hash(&self, salt: Salt) -> u32 {
        salt.hash_of(self.key.get())
    }

    #[inline(always)]
    fn in_place(
        self,
        map: &Map<K, V, F, A>,
        pass: &mut Pass<K, V, F>,
        bin_slot: &mut BinSlot<K, V, F, A>,
        class: Class,
        hash: u32,
    ) -> Result<(Reply<V>, Growth), Fault> {
        let Calling { key, op } = self;
        let (reply, growth) = map.call_in_place(pass, bin_slot, class, hash, key, op)?;
        Ok((reply, growth))
    }

    fn by_value(
        self,
        map: &Map<K, V, F, A>,
        pass: &mut Pass<K, V, F>,
        bin: &mut Bin<K, V, F, A>,
        role: &mut BinRole<K, V, F>,
        hash: u32,
    ) -> Result<(Reply<V>, Growth), Fault> {
        let Calling { key, op } = self;
        let (reply, growth) = map.call_by_value(pass, bin, role, hash, key, op)?;
        Ok((reply, growth))
    }
}

impl<K: HashKey, V: Value, F: Remap<K, V>, A: Allocator + Clone> CallAtKey<K, V, F, A>
    for Calling<'_, K, V, F> {
    ghost use Rattle.std.specs.Prelude.{◌≡◌};
    ghost use Rattle.chm.specs.declared.fault.Fault.TheVariants.{PassFull};

    ghost full = { λ w fault. fault ≡ PassFull };

    fn refuse(self) -> Fault {
        Fault::PassFull
    }
}
