//! What is done with a bin while it is held.
ghost use Rattle.std.specs.Prelude.{◌≡◌, ◌<◌, true, length, IfOk, IsOk, OnErr};
ghost use Rattle.hashkeys.specs.Classes.{covers, is_of};
ghost use Rattle.bin_history.specs.Calls.{after};
ghost use Rattle.bin_history.specs.Hashes.{hash_by};
ghost use Rattle.bin_history.specs.Leans.{as_bin};
ghost use Rattle.bin_history.specs.Ops.{call_on, key_in};
ghost use Rattle.bin_history.specs.Sure.{IsKept, IsSpared, IsSure};
ghost use Rattle.count_ledger.specs.Agreement.{BinAgrees};
ghost use Rattle.count_ledger.specs.Fronts.{HasSeen};
ghost use Rattle.count_ledger.specs.Limits.{most_calls};
ghost use Rattle.bin_layout.specs.Views.{place_of};
ghost use Rattle.lean_bins.specs.BinSlot.{IsInSlot};
ghost use Rattle.chm.specs.Headline.{IsCalled};
ghost use Rattle.chm.specs.Histories.{IsCalledOn, IsMet};
ghost use Rattle.chm.specs.Views.{bins_of};

use crate::map::Map;
use crate::resize::policy::Growth;
use bin_history::{Bin, KeyArg, Op, Remap, Reply, Value, lawful_entries};
use count_ledger::{BinRole, Pass};
use hashkeys::{Class, HashKey};
use lean_bins::BinSlot;
use std::alloc::{AllocError, Allocator};

impl<K: HashKey, V: Value, F: Remap<K, V>, A: Allocator + Clone> Map<K, V, F, A> {
    /// Makes a call on a bin that is held, on a key of this hash, and posts it. It replies, and says
    /// whether the call made its key present. For want of memory nothing is posted, and the entries stay.
    pub(crate) fn call_by_value(
        &self,
        pass: &mut Pass<K, V, F>,
        bin: &mut Bin<K, V, F, A>,
        role: &mut BinRole<K, V, F>,
        hash: u32,
        key: KeyArg<'_, K>,
        op: Op<V, F>,
    ) -> Result<(Reply<V>, Growth), AllocError>
        requires pass { pass.old.ledger ≡ self.now.ledger.id }
        requires role { role.old.ledger ≡ self.now.ledger.id }
        requires room { length pass.old.made < most_calls self.now.ledger.form self.now.ledger.clients }
        requires form { bin.old.form ≡ self.now.ledger.form }
        requires agree { BinAgrees K.eq (after V.eq F.remapped F.merged) bin.old role.old }
        requires hash { hash ≡ hash_by K.code bin.old.salt (key_in key) }
        requires of_class { is_of K.code bin.old.salt bin.old.class (key_in key) ≡ true }
        ensures called { IfOk result
            (λ r. IsCalledOn K.eq K.code V.eq F.remapped F.merged self.now.ledger bin.old bin.new
            (call_on (key_in key.entry) op) pass.old pass.new r.0) }
        ensures sure { IsSure K.eq K.is_infallible V.is_infallible bin.old (key_in key.entry) op
            → IsOk result }
        ensures refused { OnErr result (pass.new ≡ pass.old) }
        ensures stayed { OnErr result (bin.new.entries ≡ bin.old.entries) }
        ensures form { bin.new.form ≡ bin.old.form }
        ensures class { bin.new.class ≡ bin.old.class }
        ensures salt { bin.new.salt ≡ bin.old.salt }
        ensures ledger { role.new.ledger ≡ role.old.ledger }
        ensures agree { BinAgrees K.eq (after V.eq F.remapped F.merged) bin.new role.new }
    {
        bin.lawful();
        let alloc = self.resizer.allocator();
        let (reply, trace) = bin.make_on(alloc, hash, key, op, pass.client(), pass.made())?;
        self.ledger.post_trace(pass, role, &trace);
        Ok((reply, Growth::recorded(trace.delta())))
    }

    /// Makes a call on what lies at the place of a lean bin of the class, on a key of this hash, and
    /// posts it. It replies, and says whether the call made its key present, and whether the bin is
    /// crowded since. The bin and its role stay there. For want of memory nothing is posted or changed.
    #[inline(always)]
    pub(crate) fn call_in_place(
        &self,
        pass: &mut Pass<K, V, F>,
        bin_slot: &mut BinSlot<K, V, F, A>,
        class: Class,
        hash: u32,
        key: KeyArg<'_, K>,
        op: Op<V, F>,
    ) -> Result<(Reply<V>, Growth), AllocError>
        requires pass { pass.old.ledger ≡ self.now.ledger.id }
        requires room { length pass.old.made < most_calls self.now.ledger.form self.now.ledger.clients }
        requires lies { IsInSlot K.eq (after V.eq F.remapped F.merged)
            (place_of (bins_of self.now) class) bin_slot.old }
        requires hash { hash ≡ hash_by K.code self.now.ledger.salt (key_in key) }
        requires covers { covers class hash ≡ true }
        ensures met { IfOk result
            (λ r. IsCalledOn K.eq K.code V.eq F.remapped F.merged self.now.ledger
            (as_bin bin_slot.old.entries) (as_bin bin_slot.new.entries)
            (call_on (key_in key.entry) op) pass.old pass.new r.0) }
        ensures called { IfOk result
            (λ r. IsCalled K.eq V.eq F.remapped F.merged self.now.ledger
            (call_on (key_in key.entry) op) pass.old pass.new r.0) }
        ensures spared { IsSpared K.eq (IsKept K.is_infallible key.entry) V.is_infallible
            bin_slot.old.entries.entries (key_in key.entry) op → IsOk result }
        ensures refused { OnErr result (pass.new ≡ pass.old) }
        ensures stayed { OnErr result (bin_slot.new ≡ bin_slot.old) }
        ensures lies { IsInSlot K.eq (after V.eq F.remapped F.merged)
            (place_of (bins_of self.now) class) bin_slot.new }
    {
        lawful_entries::<K, V, F, A>(&bin_slot.entries);
        let alloc = self.resizer.allocator();
        let (reply, trace) = op.make_on(
            &mut bin_slot.entries,
            alloc,
            hash,
            key,
            pass.client(),
            pass.made(),
        )?;
        let mut role = bin_slot.take_role(class);
        self.ledger.post_trace(pass, &mut role, &trace);
        bin_slot.put_role(role);
        Ok((reply, Growth::lean(trace.delta(), bin_slot)))
    }

    /// The pass sees all calls so far, and the bin that is held has what they left in its class.
    pub(crate) fn observe_bin(
        &self,
        pass: &mut Pass<K, V, F>,
        bin: &Bin<K, V, F, A>,
        role: &mut BinRole<K, V, F>,
    )
        requires pass { pass.old.ledger ≡ self.now.ledger.id }
        requires role { role.old.ledger ≡ self.now.ledger.id }
        requires agree { BinAgrees K.eq (after V.eq F.remapped F.merged) bin.now role.old }
        ensures seen { HasSeen K.eq (after V.eq F.remapped F.merged) self.now.ledger pass.old
            pass.new }
        ensures met { IsMet K.eq K.code self.now.ledger pass.new.seen bin.now }
        ensures same_role { role.new ≡ role.old }
    {
        bin.lawful();
        self.ledger.meet(pass, role);
    }
}
