//! Entries of a lean bucket that are removed where they lie.
ghost use Rattle.std.specs.Prelude.{◌≡◌, ◌<◌, ◌++◌, [], ◌∷◌, ℕ, List, length, Some, true};
ghost use Rattle.std.specs.Prelude.{IfNone, IfOk, IfSome, IfErr, IsSomeAnd, OnOk};
ghost use Rattle.hashkeys.specs.Classes.{ClassView, covers};
ghost use Rattle.bin_history.specs.Calls.{after};
ghost use Rattle.bin_history.specs.Sure.{IsNeverRefused};
ghost use Rattle.lock_table.specs.Taken.{taken};
ghost use Rattle.count_ledger.specs.Views.{PassView};
ghost use Rattle.bin_layout.specs.Views.{place_of};
ghost use Rattle.lean_bins.specs.BinSlot.{IsInSlot};
ghost use Rattle.chm.specs.Cleared.{HasRemoved};
ghost use Rattle.chm.specs.Cursors.{HasPassed};
ghost use Rattle.chm.specs.Refusals.{IsOfCall};
ghost use Rattle.chm.specs.Retained.{HasKept, HasStopped, HasStoppedAt, IsRetainedIn, IsSettled, IsStoppedIn};
ghost use Rattle.chm.specs.Sure.{IsMadeOrFull};
ghost use Rattle.chm.specs.Views.{bins_of};

use crate::fault::Fault;
use crate::map::Map;
use crate::walks::asking::{first_refused, is_left_behind};
use crate::walks::cursor::Cursor;
use bin_history::{KeyArg, Op, Remap, Value, lawful_entries};
use count_ledger::Pass;
use hashkeys::{Class, HashKey};
use lean_bins::{BinGuard, BinSlot};
use part_walks::narrower;
use std::alloc::Allocator;
use std::sync::Wait;

impl<K: HashKey, V: Value, F: Remap<K, V>, A: Allocator + Clone> Map<K, V, F, A> {
    /// Goes on behind so many entries at the place of a lean bucket of its own class: calls the function
    /// for those of another class, and removes the first for which it returns false, by a call of the
    /// pass's client. Returns how many entries are before it; none if there is none.
    fn drop_next_in_place<'a, R: Wait, G: FnMut(&K, &V) -> bool>(
        &'a self,
        rt: &R,
        pass: &mut Pass<K, V, F>,
        bin_slot: &mut BinSlot<K, V, F, A>,
        own: Class,
        class: Class,
        past: u64,
        keeps: &mut G,
    ) -> Result<Option<u64>, Fault>
        requires callable { G.IsAlwaysCallable keeps.old }
        requires pass { pass.old.ledger ≡ self.now.ledger.id }
        requires lies { IsInSlot K.eq (after V.eq F.remapped F.merged)
            (place_of (bins_of self.now) own) bin_slot.old }
        ensures settled { (p : G) (start : PassView K V F) →
            IsSettled G.step K.code self.now.ledger class p start keeps.old pass.old past
            bin_slot.old.entries.entries →
            IfOk result (λ more. IfSome more (λ place.
            IsSettled G.step K.code self.now.ledger class p start keeps.new pass.new place
            bin_slot.new.entries.entries)) }
        ensures kept { (p : G) (start : PassView K V F) →
            IsSettled G.step K.code self.now.ledger class p start keeps.old pass.old past
            bin_slot.old.entries.entries →
            IfOk result (λ more. IfNone more (HasKept G.step K.code self.now.ledger class p start
            keeps.new pass.new bin_slot.new.entries.entries)) }
        ensures stopped { (p : G) (start : PassView K V F) →
            IsSettled G.step K.code self.now.ledger class p start keeps.old pass.old past
            bin_slot.old.entries.entries →
            IfErr result (λ fault. HasStopped G.step K.code self.now.ledger class fault p start
            keeps.new pass.new bin_slot.new.entries.entries) }
        ensures fewer { IfOk result (λ more. IfSome more (λ _.
            length bin_slot.new.entries.entries < length bin_slot.old.entries.entries)) }
        ensures removed { HasRemoved pass.old pass.new }
        ensures callable { G.IsAlwaysCallable keeps.new }
        ensures lies { IsInSlot K.eq (after V.eq F.remapped F.merged)
            (place_of (bins_of self.now) own) bin_slot.new }
        ensures sure { IsNeverRefused K.is_infallible → IsMadeOrFull result }
        ensures faults { IfErr result IsOfCall }
    {
        lawful_entries::<K, V, F, A>(&bin_slot.entries);
        let salt = self.salt();
        let walk = bin_slot.entries.walk();
        if pass.made() >= self.ledger.most_calls() {
            if is_left_behind(walk, salt, own, class, past) {
                return Err(Fault::PassFull);
            }
            return Ok(None);
        }
        let Some((place, entry)) = first_refused(rt, walk, salt, own, class, past, keeps) else {
            return Ok(None);
        };
        let key = entry.0.clone()?;
        let hash = salt.hash_of(&key);
        let given: KeyArg<'a, K> = KeyArg::Owned(key);
        self.call_in_place(pass, bin_slot, own, hash, given, Op::Remove)?;
        Ok(Some(place))
    }

    /// Calls the function once for each entry, at the place of a lean bucket of its own class, that is of
    /// another class, in order, and removes those for which it returns false, until a call fails.
    fn drop_all_in_place<R: Wait, G: FnMut(&K, &V) -> bool>(
        &self,
        rt: &R,
        pass: &mut Pass<K, V, F>,
        bin_slot: &mut BinSlot<K, V, F, A>,
        own: Class,
        class: Class,
        keeps: &mut G,
    ) -> Result<(), Fault>
        requires callable { G.IsAlwaysCallable keeps.old }
        requires pass { pass.old.ledger ≡ self.now.ledger.id }
        requires lies { IsInSlot K.eq (after V.eq F.remapped F.merged)
            (place_of (bins_of self.now) own) bin_slot.old }
        ensures kept { OnOk result (HasKept G.step K.code self.now.ledger class keeps.old pass.old
            keeps.new pass.new bin_slot.new.entries.entries) }
        ensures stopped { IfErr result (λ fault. HasStopped G.step K.code self.now.ledger class fault
            keeps.old pass.old keeps.new pass.new bin_slot.new.entries.entries) }
        ensures removed { HasRemoved pass.old pass.new }
        ensures callable { G.IsAlwaysCallable keeps.new }
        ensures lies { IsInSlot K.eq (after V.eq F.remapped F.merged)
            (place_of (bins_of self.now) own) bin_slot.new }
        ensures sure { IsNeverRefused K.is_infallible → IsMadeOrFull result }
        ensures faults { IfErr result IsOfCall }
    {
        let mut past = 0;
        while let Some(place) = self.drop_next_in_place(
            rt, pass, bin_slot, own, class, past, keeps,
        )? {
            past = place;
        }
        Ok(())
    }

    /// Does what `drop_all_in_place` does. The pass then sees all calls so far.
    fn retain_in_place<R: Wait, G: FnMut(&K, &V) -> bool>(
        &self,
        rt: &R,
        pass: &mut Pass<K, V, F>,
        bin_slot: &mut BinSlot<K, V, F, A>,
        own: Class,
        class: Class,
        keeps: &mut G,
    ) -> Result<(), Fault>
        requires callable { G.IsAlwaysCallable keeps.old }
        requires pass { pass.old.ledger ≡ self.now.ledger.id }
        requires lies { IsInSlot K.eq (after V.eq F.remapped F.merged)
            (place_of (bins_of self.now) own) bin_slot.old }
        requires within { (hash : ℕ) → covers class hash ≡ true → covers own hash ≡ true }
        ensures kept { OnOk result (IsRetainedIn G.step K.eq K.code (after V.eq F.remapped F.merged)
            self.now.ledger class keeps.old pass.old keeps.new pass.new) }
        ensures stopped { IfErr result (λ fault. IsStoppedIn G.step K.eq K.code
            (after V.eq F.remapped F.merged) self.now.ledger fault class keeps.old pass.old keeps.new
            pass.new) }
        ensures removed { HasRemoved pass.old pass.new }
        ensures callable { G.IsAlwaysCallable keeps.new }
        ensures lies { IsInSlot K.eq (after V.eq F.remapped F.merged)
            (place_of (bins_of self.now) own) bin_slot.new }
        ensures sure { IsNeverRefused K.is_infallible → IsMadeOrFull result }
        ensures faults { IfErr result IsOfCall }
    {
        let done = self.drop_all_in_place(rt, pass, bin_slot, own, class, keeps);
        lawful_entries::<K, V, F, A>(&bin_slot.entries);
        self.observe_in_place(pass, bin_slot, own);
        done
    }

    /// Goes through those entries of a locked lean bucket that are of the class that is next, or of the
    /// first that it has become: removes those for which the function returns false, unlocks the bucket
    /// and, where no call failed, goes past them.
    pub(crate) fn retain_guarded<R: Wait, G: FnMut(&K, &V) -> bool>(
        &self,
        rt: &R,
        mut held: BinGuard<'_, K, V, F, A>,
        pass: &mut Pass<K, V, F>,
        cursor: &mut Cursor,
        next: Class,
        keeps: &mut G,
    ) -> Result<(), Fault>
        requires callable { G.IsAlwaysCallable keeps.old }
        requires pass { pass.old.ledger ≡ self.now.ledger.id }
        requires next { cursor.old.next ≡ Some next }
        requires lies { IsSomeAnd (taken held.inner.seat.me.1)
            (IsInSlot K.eq (after V.eq F.remapped F.merged) (place_of held.home.now held.class)) }
        requires home { held.home.now ≡ bins_of self.now }
        requires covers { covers held.class next.index ≡ true }
        ensures kept { OnOk result ((class : ClassView)
            × IsRetainedIn G.step K.eq K.code (after V.eq F.remapped F.merged) self.now.ledger class
            keeps.old pass.old keeps.new pass.new
            × ((classes : List ClassView) → HasPassed cursor.old classes →
            HasPassed cursor.new (classes ++ class ∷ []))) }
        ensures stopped { IfErr result (λ fault. IsSomeAnd cursor.old.next (λ at.
            HasStoppedAt G.step K.eq K.code (after V.eq F.remapped F.merged) self.now.ledger fault at
            keeps.old pass.old keeps.new pass.new) × (cursor.new ≡ cursor.old)) }
        ensures removed { HasRemoved pass.old pass.new }
        ensures callable { G.IsAlwaysCallable keeps.new }
        ensures n { cursor.new.n ≡ cursor.old.n }
        ensures sure { IsNeverRefused K.is_infallible → IsMadeOrFull result }
        ensures faults { IfErr result IsOfCall }
    {
        let own = held.class;
        let class = narrower(next, own);
        let done = self.retain_in_place(rt, pass, held.inner.value(), own, class, keeps);
        held.release();
        done?;
        cursor.go_past(class);
        Ok(())
    }
}
