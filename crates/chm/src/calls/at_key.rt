//! What a client does at a key while the key's bucket is locked: the bucket is locked, and unlocked, in
//! this file alone. A lean bucket stays where it lies, and a recorded one is taken out to lock it.
ghost use Rattle.std.specs.Prelude.{◌≡◌, ◌≤◌, true, length, IfErr, IfNone, IfOk, IfSome, IsSome, IsSomeAnd, OnErr};
ghost use Rattle.hashkeys.specs.Classes.{covers};
ghost use Rattle.bin_history.specs.Calls.{after};
ghost use Rattle.bin_history.specs.Hashes.{hash_by};
ghost use Rattle.bin_history.specs.declared.form.Form.TheVariants.{Lean, Recorded};
ghost use Rattle.lock_table.specs.Taken.{taken};
ghost use Rattle.bin_store.specs.Places.{tag_of};
ghost use Rattle.bin_layout.specs.Places.{AreAt};
ghost use Rattle.bin_layout.specs.Views.{place_of};
ghost use Rattle.count_ledger.specs.Limits.{most_calls};
ghost use Rattle.lean_bins.specs.BinSlot.{IsInSlot};
ghost use Rattle.chm.specs.AtKey.{IsCallAtKey};
ghost use Rattle.chm.specs.Updates.{IsWithin};
ghost use Rattle.chm.specs.Views.{bins_of};

use crate::map::Map;
use crate::resize::policy::Growth;
use bin_history::{Bin, Remap, Value};
use bin_store::{Held, StoreKind};
use count_ledger::{BinRole, Pass};
use hashkeys::{Class, HashKey, Salt};
use lean_bins::{BinGuard, BinSlot};
use std::alloc::Allocator;
use std::sync::Wait;

/// What is done at a key while the key's bucket is locked.
pub(crate) trait AtKey<K: HashKey, V: Value, F: Remap<K, V>, A: Allocator + Clone> {
    ghost use Rattle.std.specs.Prelude.{◌≡◌, true, IfOk, IfErr, OnErr};
    ghost use Rattle.hashkeys.specs.Classes.{covers};
    ghost use Rattle.bin_history.specs.Calls.{after};
    ghost use Rattle.bin_history.specs.Hashes.{hash_by};
    ghost use Rattle.bin_history.specs.declared.form.Form.TheVariants.{Lean, Recorded};
    ghost use Rattle.bin_layout.specs.Views.{place_of};
    ghost use Rattle.count_ledger.specs.Agreement.{BinAgrees};
    ghost use Rattle.count_ledger.specs.Views.{LedgerView, PassView};
    ghost use Rattle.lean_bins.specs.BinSlot.{IsInSlot};
    ghost use Rattle.chm.specs.Views.{bins_of};

    /// What it returns.
    type Answer;

    /// What it fails with.
    type Failure;

    ghost key: { Self → K };

    // When it may be done.
    ghost may: { Self → LedgerView K V → PassView K V F → Type 0 };

    // What the pass is then, and what it returns.
    ghost does: { Self → LedgerView K V → PassView K V F → PassView K V F → Self.Answer → Type 0 };

    // What it fails with, and when.
    ghost fails: { Self → LedgerView K V → PassView K V F → Self.Failure → Type 0 };

    /// The key's hash.
    fn hash(&self, salt: Salt) -> u32
        ensures { result ≡ hash_by K.code salt (key self.now) };

    /// Does it in a lean bucket of the class, where it lies.
    fn in_place(
        self,
        map: &Map<K, V, F, A>,
        pass: &mut Pass<K, V, F>,
        bin_slot: &mut BinSlot<K, V, F, A>,
        class: Class,
        hash: u32,
    ) -> Result<(Self::Answer, Growth), Self::Failure>
        requires may { may self map.now.ledger pass.old }
        requires pass { pass.old.ledger ≡ map.now.ledger.id }
        requires lies { IsInSlot K.eq (after V.eq F.remapped F.merged)
            (place_of (bins_of map.now) class) bin_slot.old }
        requires hash { hash ≡ hash_by K.code map.now.ledger.salt (key self) }
        requires covers { covers class hash ≡ true }
        ensures done { IfOk result (λ r. does self map.now.ledger pass.old pass.new r.0) }
        ensures fails { IfErr result (fails self map.now.ledger pass.old) }
        ensures same { OnErr result (pass.new ≡ pass.old) }
        ensures lies { IsInSlot K.eq (after V.eq F.remapped F.merged)
            (place_of (bins_of map.now) class) bin_slot.new };

    /// Does it in a recorded bucket that was taken out.
    fn by_value(
        self,
        map: &Map<K, V, F, A>,
        pass: &mut Pass<K, V, F>,
        bin: &mut Bin<K, V, F, A>,
        role: &mut BinRole<K, V, F>,
        hash: u32,
    ) -> Result<(Self::Answer, Growth), Self::Failure>
        requires may { may self map.now.ledger pass.old }
        requires recorded { map.now.ledger.form ≡ Recorded }
        requires pass { pass.old.ledger ≡ map.now.ledger.id }
        requires role { role.old.ledger ≡ map.now.ledger.id }
        requires form { bin.old.form ≡ map.now.ledger.form }
        requires salt { bin.old.salt ≡ map.now.ledger.salt }
        requires agree { BinAgrees K.eq (after V.eq F.remapped F.merged) bin.old role.old }
        requires hash { hash ≡ hash_by K.code map.now.ledger.salt (key self) }
        requires covers { covers bin.old.class hash ≡ true }
        ensures done { IfOk result (λ r. does self map.now.ledger pass.old pass.new r.0) }
        ensures fails { IfErr result (fails self map.now.ledger pass.old) }
        ensures same { OnErr result (pass.new ≡ pass.old) }
        ensures form { bin.new.form ≡ bin.old.form }
        ensures class { bin.new.class ≡ bin.old.class }
        ensures salt { bin.new.salt ≡ bin.old.salt }
        ensures ledger { role.new.ledger ≡ role.old.ledger }
        ensures agree { BinAgrees K.eq (after V.eq F.remapped F.merged) bin.new role.new };
}

/// What is done at a key and posted: the pass makes one call more.
pub(crate) trait CallAtKey<K: HashKey, V: Value, F: Remap<K, V>, A: Allocator + Clone>: AtKey<
    K,
    V,
    F,
    A,
> {
    // What it fails with where the pass is full.
    ghost full: { Self → Self.Failure → Type 0 };

    /// Fails, since the pass is full.
    fn refuse(self) -> Self::Failure
        ensures { full self result };
}

impl<K: HashKey, V: Value, F: Remap<K, V>, A: Allocator + Clone> Map<K, V, F, A> {
    /// Does it in a lean bucket that is locked where it lies, and unlocks the bucket.
    #[inline(always)]
    fn on_guard<W: AtKey<K, V, F, A>>(
        &self,
        mut guard: BinGuard<'_, K, V, F, A>,
        pass: &mut Pass<K, V, F>,
        hash: u32,
        work: W,
    ) -> Result<(W::Answer, Class, Growth), W::Failure>
        requires may { W.may work self.now.ledger pass.old }
        requires pass { pass.old.ledger ≡ self.now.ledger.id }
        requires hash { hash ≡ hash_by K.code self.now.ledger.salt (W.key work) }
        requires lies { IsSomeAnd (taken guard.inner.seat.me.1)
            (IsInSlot K.eq (after V.eq F.remapped F.merged) (place_of guard.home.now guard.class)) }
        requires home { guard.home.now ≡ bins_of self.now }
        requires covers { covers guard.class hash ≡ true }
        ensures done { IfOk result (λ r. W.does work self.now.ledger pass.old pass.new r.0) }
        ensures fails { IfErr result (W.fails work self.now.ledger pass.old) }
        ensures same { OnErr result (pass.new ≡ pass.old) }
    {
        let class = guard.class;
        let done = work.in_place(self, pass, guard.inner.value(), class, hash);
        guard.release();
        match done {
            Ok((answer, growth)) => Ok((answer, class, growth)),
            Err(failure) => Err(failure),
        }
    }

    /// Does it in a recorded bucket that was taken out, and puts the bucket back. It is not inlined, so
    /// that what is done in a lean bucket is short enough to be.
    #[cold]
    #[inline(never)]
    fn on_held<W: AtKey<K, V, F, A>>(
        &self,
        mut held: Held<'_, K, V, F, A>,
        pass: &mut Pass<K, V, F>,
        hash: u32,
        work: W,
    ) -> Result<(W::Answer, Class, Growth), W::Failure>
        requires may { W.may work self.now.ledger pass.old }
        requires recorded { self.now.ledger.form ≡ Recorded }
        requires pass { pass.old.ledger ≡ self.now.ledger.id }
        requires hash { hash ≡ hash_by K.code self.now.ledger.salt (W.key work) }
        requires at { AreAt K.eq (after V.eq F.remapped F.merged) (tag_of held.place) held.bin
            held.role }
        requires ledger { held.role.ledger ≡ self.now.ledger.id }
        requires form { held.bin.form ≡ self.now.ledger.form }
        requires salt { held.bin.salt ≡ self.now.ledger.salt }
        requires covers { covers held.bin.class hash ≡ true }
        ensures done { IfOk result (λ r. W.does work self.now.ledger pass.old pass.new r.0) }
        ensures fails { IfErr result (W.fails work self.now.ledger pass.old) }
        ensures same { OnErr result (pass.new ≡ pass.old) }
    {
        let lent = &mut held;
        let bin = &mut lent.bin;
        let class = bin.class();
        let done = work.by_value(self, pass, bin, &mut lent.role, hash);
        held.release();
        match done {
            Ok((answer, growth)) => Ok((answer, class, growth)),
            Err(failure) => Err(failure),
        }
    }

    /// Locks the bucket of the key, for which it waits, does it there, and unlocks the bucket.
    #[inline(always)]
    pub(crate) fn at_key<R: Wait, W: AtKey<K, V, F, A>>(
        &self,
        rt: &R,
        pass: &mut Pass<K, V, F>,
        work: W,
    ) -> Result<(W::Answer, Class, Growth), W::Failure>
        requires may { W.may work self.now.ledger pass.old }
        requires pass { pass.old.ledger ≡ self.now.ledger.id }
        ensures done { IfOk result (λ r. W.does work self.now.ledger pass.old pass.new r.0) }
        ensures fails { IfErr result (W.fails work self.now.ledger pass.old) }
        ensures same { OnErr result (pass.new ≡ pass.old) }
    {
        match &self.bins.kind {
            StoreKind::Recorded(_) => {
                let hash = work.hash(self.salt());
                let held = self.bins.hold(rt, hash);
                self.on_held(held, pass, hash, work)
            }
            StoreKind::Lean(home) => {
                let hash = work.hash(home.salt());
                let guard = home.hold_in_place(rt, hash);
                self.on_guard(guard, pass, hash, work)
            }
        }
    }

    /// Does what `at_key` does, unless the bucket of the key is locked just then: then nothing is done,
    /// and none is returned. It waits for nobody.
    #[inline(always)]
    pub(crate) fn try_at_key<W: AtKey<K, V, F, A> + Drop>(
        &self,
        pass: &mut Pass<K, V, F>,
        work: W,
    ) -> Option<Result<(W::Answer, Class, Growth), W::Failure>>
        requires may { W.may work self.now.ledger pass.old }
        requires pass { pass.old.ledger ≡ self.now.ledger.id }
        ensures done { IfSome result (λ done. IfOk done
            (λ r. W.does work self.now.ledger pass.old pass.new r.0)) }
        ensures fails { IfSome result (λ done. IfErr done (W.fails work self.now.ledger pass.old)) }
        ensures same { IfSome result (λ done. OnErr done (pass.new ≡ pass.old)) }
        ensures busy { IfNone result (pass.new ≡ pass.old) }
    {
        match &self.bins.kind {
            StoreKind::Recorded(_) => {
                let hash = work.hash(self.salt());
                let held = self.bins.try_hold(hash)?;
                Some(self.on_held(held, pass, hash, work))
            }
            StoreKind::Lean(home) => {
                let hash = work.hash(home.salt());
                let guard = home.try_hold_in_place(hash)?;
                Some(self.on_guard(guard, pass, hash, work))
            }
        }
    }

    /// Makes a call at its key, for whose bucket it waits, and then does the call's part for the table;
    /// or fails if the pass is full.
    #[inline(always)]
    pub(crate) fn call_at_key<R: Wait, W: CallAtKey<K, V, F, A>>(
        &self,
        rt: &R,
        pass: &mut Pass<K, V, F>,
        work: W,
    ) -> Result<W::Answer, W::Failure>
        requires may { IsWithin self.now.ledger pass.old → W.may work self.now.ledger pass.old }
        requires pass { pass.old.ledger ≡ self.now.ledger.id }
        ensures { IsCallAtKey (W.does work) (W.fails work) (W.full work) self.now.ledger pass.old
            pass.new result }
    {
        if pass.made() >= self.ledger.most_calls() {
            return Err(work.refuse());
        }
        if let StoreKind::Lean(home) = &self.bins.kind {
            let hash = work.hash(home.salt());
            if let Some(guard) = home.try_hold_widest(hash) {
                return self.call_on_guard(guard, pass, hash, work);
            }
        }
        self.call_elsewhere(rt, pass, work)
    }

    /// Makes a call in a lean bucket that is locked where it lies, unlocks the bucket, and does the call's
    /// part for the table.
    #[inline(always)]
    fn call_on_guard<W: AtKey<K, V, F, A>>(
        &self,
        guard: BinGuard<'_, K, V, F, A>,
        pass: &mut Pass<K, V, F>,
        hash: u32,
        work: W,
    ) -> Result<W::Answer, W::Failure>
        requires may { W.may work self.now.ledger pass.old }
        requires pass { pass.old.ledger ≡ self.now.ledger.id }
        requires hash { hash ≡ hash_by K.code self.now.ledger.salt (W.key work) }
        requires lies { IsSomeAnd (taken guard.inner.seat.me.1)
            (IsInSlot K.eq (after V.eq F.remapped F.merged) (place_of guard.home.now guard.class)) }
        requires home { guard.home.now ≡ bins_of self.now }
        requires covers { covers guard.class hash ≡ true }
        ensures done { IfOk result (W.does work self.now.ledger pass.old pass.new) }
        ensures fails { IfErr result (W.fails work self.now.ledger pass.old) }
        ensures same { OnErr result (pass.new ≡ pass.old) }
    {
        match self.on_guard(guard, pass, hash, work) {
            Ok((answer, class, growth)) => {
                self.after_call(pass, class, growth);
                Ok(answer)
            }
            Err(failure) => Err(failure),
        }
    }

    /// Does what `call_slowly` does, and is inlined: what is handed to that function and what it returns
    /// then lies in memory on this way alone, and a short call keeps all in registers.
    #[inline(always)]
    fn call_elsewhere<R: Wait, W: AtKey<K, V, F, A>>(
        &self,
        rt: &R,
        pass: &mut Pass<K, V, F>,
        work: W,
    ) -> Result<W::Answer, W::Failure>
        requires may { W.may work self.now.ledger pass.old }
        requires pass { pass.old.ledger ≡ self.now.ledger.id }
        ensures done { IfOk result (W.does work self.now.ledger pass.old pass.new) }
        ensures fails { IfErr result (W.fails work self.now.ledger pass.old) }
        ensures same { OnErr result (pass.new ≡ pass.old) }
    {
        self.call_slowly(rt, pass, work)
    }

    /// Makes a call whose bucket is not free where a bucket most often lies, or is a recorded one, and does
    /// the call's part for the table. It waits for the bucket.
    #[cold]
    #[inline(never)]
    fn call_slowly<R: Wait, W: AtKey<K, V, F, A>>(
        &self,
        rt: &R,
        pass: &mut Pass<K, V, F>,
        work: W,
    ) -> Result<W::Answer, W::Failure>
        requires may { W.may work self.now.ledger pass.old }
        requires pass { pass.old.ledger ≡ self.now.ledger.id }
        ensures done { IfOk result (W.does work self.now.ledger pass.old pass.new) }
        ensures fails { IfErr result (W.fails work self.now.ledger pass.old) }
        ensures same { OnErr result (pass.new ≡ pass.old) }
    {
        match self.at_key(rt, pass, work) {
            Ok((answer, class, growth)) => {
                self.after_call(pass, class, growth);
                Ok(answer)
            }
            Err(failure) => Err(failure),
        }
    }

    /// Does what `call_at_key` does, unless the bucket of the key is locked just then: then no call is
    /// made, and none is returned. It waits for nobody.
    #[inline(always)]
    pub(crate) fn try_call_at_key<W: CallAtKey<K, V, F, A> + Drop>(
        &self,
        pass: &mut Pass<K, V, F>,
        work: W,
    ) -> Option<Result<W::Answer, W::Failure>>
        requires may { IsWithin self.now.ledger pass.old → W.may work self.now.ledger pass.old }
        requires pass { pass.old.ledger ≡ self.now.ledger.id }
        ensures made { IfSome result (IsCallAtKey (W.does work) (W.fails work) (W.full work)
            self.now.ledger pass.old pass.new) }
        ensures full { most_calls self.now.ledger.form self.now.ledger.clients ≤ length pass.old.made →
            IsSome result }
        ensures busy { IfNone result (pass.new ≡ pass.old) }
    {
        if pass.made() >= self.ledger.most_calls() {
            return Some(Err(work.refuse()));
        }
        if let StoreKind::Lean(home) = &self.bins.kind {
            let hash = work.hash(home.salt());
            if let Some(guard) = home.try_hold_widest(hash) {
                return Some(self.call_on_guard(guard, pass, hash, work));
            }
        }
        self.try_call_elsewhere(pass, work)
    }

    /// Does what `try_call_slowly` does, and is inlined, as `call_elsewhere` is.
    #[inline(always)]
    fn try_call_elsewhere<W: AtKey<K, V, F, A> + Drop>(
        &self,
        pass: &mut Pass<K, V, F>,
        work: W,
    ) -> Option<Result<W::Answer, W::Failure>>
        requires may { W.may work self.now.ledger pass.old }
        requires pass { pass.old.ledger ≡ self.now.ledger.id }
        ensures done { IfSome result (λ done. IfOk done (W.does work self.now.ledger pass.old pass.new)) }
        ensures fails { IfSome result (λ done. IfErr done (W.fails work self.now.ledger pass.old)) }
        ensures same { IfSome result (λ done. OnErr done (pass.new ≡ pass.old)) }
        ensures busy { IfNone result (pass.new ≡ pass.old) }
    {
        self.try_call_slowly(pass, work)
    }

    /// Does what `call_slowly` does, unless the bucket is locked just then: then it returns none.
    #[cold]
    #[inline(never)]
    fn try_call_slowly<W: AtKey<K, V, F, A> + Drop>(
        &self,
        pass: &mut Pass<K, V, F>,
        work: W,
    ) -> Option<Result<W::Answer, W::Failure>>
        requires may { W.may work self.now.ledger pass.old }
        requires pass { pass.old.ledger ≡ self.now.ledger.id }
        ensures done { IfSome result (λ done. IfOk done (W.does work self.now.ledger pass.old pass.new)) }
        ensures fails { IfSome result (λ done. IfErr done (W.fails work self.now.ledger pass.old)) }
        ensures same { IfSome result (λ done. OnErr done (pass.new ≡ pass.old)) }
        ensures busy { IfNone result (pass.new ≡ pass.old) }
    {
        match self.try_at_key(pass, work)? {
            Ok((answer, class, growth)) => {
                self.after_call(pass, class, growth);
                Some(Ok(answer))
            }
            Err(failure) => Some(Err(failure)),
        }
    }
}
