//! Entries of a locked bucket that are removed by value.
use crate::fault::Fault;
use crate::map::Map;
use crate::walks::asking::{first_refused, is_left_behind};
use crate::walks::cursor::Cursor;
use bin_history::{Bin, KeyArg, Op, Remap, Value};
use bin_store::Held;
use count_ledger::{BinRole, Pass};
use hashkeys::{Class, HashKey};
use std::alloc::Allocator;
use std::sync::Wait;

impl<K: HashKey, V: Value, F: Remap<K, V>, A: Allocator + Clone> Map<K, V, F, A> {
    ghost use Rattle.std.specs.Prelude.{◌≡◌, ◌<◌, ◌++◌, [], ◌∷◌, ℕ, List, length, true};
    ghost use Rattle.std.specs.Prelude.{IfErr, IfNone, IfOk, IfSome, IsSomeAnd, OnOk};
    ghost use Rattle.hashkeys.specs.Classes.{ClassView, covers};
    ghost use Rattle.bin_history.specs.Calls.{after};
    ghost use Rattle.bin_history.specs.Sure.{IsNeverRefused};
    ghost use Rattle.bin_history.specs.declared.form.Form.TheVariants.{Lean};
    ghost use Rattle.count_ledger.specs.Agreement.{BinAgrees};
    ghost use Rattle.count_ledger.specs.Views.{PassView};
    ghost use Rattle.bin_store.specs.Places.{tag_of};
    ghost use Rattle.bin_layout.specs.Places.{AreAt};
    ghost use Rattle.part_walks.specs.Parts.{IsFirstOf};
    ghost use Rattle.chm.specs.Cleared.{HasRemoved};
    ghost use Rattle.chm.specs.Cursors.{HasPassed};
    ghost use Rattle.chm.specs.Refusals.{IsOfCall};
    ghost use Rattle.chm.specs.Retained.{HasKept, HasStopped, HasStoppedAt, IsRetainedIn, IsSettled};
    ghost use Rattle.chm.specs.Sure.{IsMadeOrFull};

    /// Goes on behind so many entries of a locked bucket: calls the function for those of the class, and
    /// removes the first for which it returns false, by a call of the pass's client. Returns how many
    /// entries are before it; none if there is none.
    fn drop_next<'a, R: Wait, G: FnMut(&K, &V) -> bool>(
        &'a self,
        rt: &R,
        pass: &mut Pass<K, V, F>,
        bin: &mut Bin<K, V, F, A>,
        role: &mut BinRole<K, V, F>,
        class: Class,
        past: u64,
        keeps: &mut G,
    ) -> Result<Option<u64>, Fault>
        requires callable { G.IsAlwaysCallable keeps.old }
        requires pass { pass.old.ledger ≡ self.now.ledger.id }
        requires role { role.old.ledger ≡ self.now.ledger.id }
        requires form { bin.old.form ≡ self.now.ledger.form }
        requires salt { bin.old.salt ≡ self.now.ledger.salt }
        requires agree { BinAgrees K.eq (after V.eq F.remapped F.merged) bin.old role.old }
        ensures settled { (p : G) (start : PassView K V F) →
            IsSettled G.step K.code self.now.ledger class p start keeps.old pass.old past
            bin.old.entries →
            IfOk result (λ more. IfSome more (λ place.
            IsSettled G.step K.code self.now.ledger class p start keeps.new pass.new place
            bin.new.entries)) }
        ensures kept { (p : G) (start : PassView K V F) →
            IsSettled G.step K.code self.now.ledger class p start keeps.old pass.old past
            bin.old.entries →
            IfOk result (λ more. IfNone more (HasKept G.step K.code self.now.ledger class p start
            keeps.new pass.new bin.new.entries)) }
        ensures stopped { (p : G) (start : PassView K V F) →
            IsSettled G.step K.code self.now.ledger class p start keeps.old pass.old past
            bin.old.entries →
            IfErr result (λ fault. HasStopped G.step K.code self.now.ledger class fault p start
            keeps.new pass.new bin.new.entries) }
        ensures fewer { IfOk result (λ more. IfSome more (λ _.
            length bin.new.entries < length bin.old.entries)) }
        ensures removed { HasRemoved pass.old pass.new }
        ensures callable { G.IsAlwaysCallable keeps.new }
        ensures form { bin.new.form ≡ bin.old.form }
        ensures class { bin.new.class ≡ bin.old.class }
        ensures salt { bin.new.salt ≡ bin.old.salt }
        ensures ledger { role.new.ledger ≡ role.old.ledger }
        ensures agree { BinAgrees K.eq (after V.eq F.remapped F.merged) bin.new role.new }
        ensures sure { self.now.ledger.form ≡ Lean → IsNeverRefused K.is_infallible →
            IsNeverRefused V.is_infallible → IsMadeOrFull result }
        ensures faults { IfErr result IsOfCall }
    {
        bin.lawful();
        let own = bin.class();
        let salt = bin.salt();
        let walk = bin.walk();
        if pass.made() >= self.ledger.most_calls() {
            if is_left_behind(walk, salt, own, class, past) {
                return Err(Fault::PassFull);
            }
            return Ok(None);
        }
        let Some((place, entry)) = first_refused(rt, walk, salt, own, class, past, keeps) else {
            return Ok(None);
        };
        let key = entry.0.clone()?;
        let hash = salt.hash_of(&key);
        let given: KeyArg<'a, K> = KeyArg::Owned(key);
        self.call_by_value(pass, bin, role, hash, given, Op::Remove)?;
        Ok(Some(place))
    }

    /// Calls the function once for each entry of a locked bucket that is of the class, in order, and
    /// removes those for which it returns false, until a call fails.
    fn drop_all<R: Wait, G: FnMut(&K, &V) -> bool>(
        &self,
        rt: &R,
        pass: &mut Pass<K, V, F>,
        bin: &mut Bin<K, V, F, A>,
        role: &mut BinRole<K, V, F>,
        class: Class,
        keeps: &mut G,
    ) -> Result<(), Fault>
        requires callable { G.IsAlwaysCallable keeps.old }
        requires pass { pass.old.ledger ≡ self.now.ledger.id }
        requires role { role.old.ledger ≡ self.now.ledger.id }
        requires form { bin.old.form ≡ self.now.ledger.form }
        requires salt { bin.old.salt ≡ self.now.ledger.salt }
        requires agree { BinAgrees K.eq (after V.eq F.remapped F.merged) bin.old role.old }
        ensures kept { OnOk result (HasKept G.step K.code self.now.ledger class keeps.old pass.old
            keeps.new pass.new bin.new.entries) }
        ensures stopped { IfErr result (λ fault. HasStopped G.step K.code self.now.ledger class fault
            keeps.old pass.old keeps.new pass.new bin.new.entries) }
        ensures removed { HasRemoved pass.old pass.new }
        ensures callable { G.IsAlwaysCallable keeps.new }
        ensures form { bin.new.form ≡ bin.old.form }
        ensures class { bin.new.class ≡ bin.old.class }
        ensures salt { bin.new.salt ≡ bin.old.salt }
        ensures ledger { role.new.ledger ≡ role.old.ledger }
        ensures agree { BinAgrees K.eq (after V.eq F.remapped F.merged) bin.new role.new }
        ensures sure { self.now.ledger.form ≡ Lean → IsNeverRefused K.is_infallible →
            IsNeverRefused V.is_infallible → IsMadeOrFull result }
        ensures faults { IfErr result IsOfCall }
    {
        let mut past = 0;
        while let Some(place) = self.drop_next(rt, pass, bin, role, class, past, keeps)? {
            past = place;
        }
        Ok(())
    }

    /// Goes through those entries of a locked bucket that are of the class: removes those for which the
    /// function returns false, unlocks the bucket and, where no call failed, goes past them.
    pub(crate) fn retain_held<R: Wait, G: FnMut(&K, &V) -> bool>(
        &self,
        rt: &R,
        mut held: Held<'_, K, V, F, A>,
        pass: &mut Pass<K, V, F>,
        cursor: &mut Cursor,
        class: Class,
        keeps: &mut G,
    ) -> Result<(), Fault>
        requires callable { G.IsAlwaysCallable keeps.old }
        requires pass { pass.old.ledger ≡ self.now.ledger.id }
        requires first { IsSomeAnd cursor.old.next (λ next. IsFirstOf next class) }
        requires within { (hash : ℕ) → covers class hash ≡ true → covers held.bin.class hash ≡ true }
        requires at { AreAt K.eq (after V.eq F.remapped F.merged) (tag_of held.place) held.bin
            held.role }
        requires ledger { held.role.ledger ≡ self.now.ledger.id }
        requires form { held.bin.form ≡ self.now.ledger.form }
        requires salt { held.bin.salt ≡ self.now.ledger.salt }
        ensures kept { OnOk result (IsRetainedIn G.step K.eq K.code (after V.eq F.remapped F.merged)
            self.now.ledger class keeps.old pass.old keeps.new pass.new
            × ((classes : List ClassView) → HasPassed cursor.old classes →
            HasPassed cursor.new (classes ++ class ∷ []))) }
        ensures stopped { IfErr result (λ fault. IsSomeAnd cursor.old.next (λ next.
            HasStoppedAt G.step K.eq K.code (after V.eq F.remapped F.merged) self.now.ledger fault next
            keeps.old pass.old keeps.new pass.new) × (cursor.new ≡ cursor.old)) }
        ensures removed { HasRemoved pass.old pass.new }
        ensures callable { G.IsAlwaysCallable keeps.new }
        ensures n { cursor.new.n ≡ cursor.old.n }
        ensures sure { self.now.ledger.form ≡ Lean → IsNeverRefused K.is_infallible →
            IsNeverRefused V.is_infallible → IsMadeOrFull result }
        ensures faults { IfErr result IsOfCall }
    {
        let lent = &mut held;
        let bin = &mut lent.bin;
        let done = self.drop_all(rt, pass, bin, &mut lent.role, class, keeps);
        bin.lawful();
        self.observe_bin(pass, bin, &mut lent.role);
        held.release();
        done?;
        cursor.go_past(class);
        Ok(())
    }
}
