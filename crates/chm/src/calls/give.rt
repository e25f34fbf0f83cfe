//! Giving the value at a key, or none, to a function that runs while the key's bucket is locked, and
//! which says what the key has then. What else is given to the function comes back where it is not
//! called.
ghost use Rattle.std.specs.Prelude.{◌≡◌, ◌≤◌, List, Option, length, IfOk, IfSome, IfNone, IsSome};
ghost use Rattle.bin_history.specs.Calls.{after};
ghost use Rattle.bin_history.specs.Entries.{lookup};
ghost use Rattle.bin_history.specs.Hashes.{hash_by};
ghost use Rattle.bin_history.specs.Leans.{as_bin};
ghost use Rattle.bin_history.specs.Ops.{call_on};
ghost use Rattle.bin_history.specs.Readiness.{call_to};
ghost use Rattle.bin_history.specs.Records.{RecordView};
ghost use Rattle.count_ledger.specs.Fronts.{IsFront};
ghost use Rattle.count_ledger.specs.Limits.{most_calls};
ghost use Rattle.lean_bins.specs.BinSlot.{IsInSlot};
ghost use Rattle.bin_layout.specs.Views.{place_of};
ghost use Rattle.chm.specs.Given.{IsGive};
ghost use Rattle.chm.specs.Histories.{IsMet};
ghost use Rattle.chm.specs.Updates.{IsWithin};
ghost use Rattle.chm.specs.Views.{bins_of};

use crate::calls::at_key::{AtKey, CallAtKey};
use crate::calls::not_made::NotMade;
use crate::fault::Fault;
use crate::map::Map;
use crate::resize::policy::Growth;
use bin_history::{Bin, KeyArg, Op, Remap, Value, lawful_entries, prepare_as, update_on};
use count_ledger::{BinRole, Pass};
use hashkeys::{Class, HashKey, MakesKey, Salt};
use lean_bins::BinSlot;
use std::alloc::{AllocError, Allocator};
use std::sync::Wait;

/// The call that leaves this value at its key, or none.
fn op_leaving<K, V, F>(left: Option<V>) -> Op<V, F>
    ensures { (key : K) → call_on key result ≡ call_to key left }
{
    match left {
        Some(value) => Op::Put(value),
        None => Op::Remove,
    }
}

/// The key that this stands for, and a copy of the value at it, if there is one.
pub(crate) fn copies_for<
    K: HashKey,
    V: Value,
    F: Remap<K, V>,
    A: Allocator + Clone,
    Q: MakesKey<K, A>,
>(bin: &Bin<K, V, F, A>, alloc: &A, hash: u32, query: Q) -> Result<(K, Option<V>), AllocError>
    requires hash { hash ≡ hash_by K.code bin.now.salt (Q.stands_for query) }
    ensures key { IfOk result (λ r. r.0 ≡ Q.stands_for query) }
    ensures value { IfOk result (λ r. r.1 ≡ lookup K.eq bin.now.entries (Q.stands_for query)) }
{
    let key = query.make(alloc)?;
    match bin.get_as(hash, query) {
        Some(value) => {
            let copy = value.clone()?;
            Ok((key, Some(copy)))
        }
        None => Ok((key, None)),
    }
}

/// A function that is given the value at a key, what is given with it, and what makes the key.
#[derive(Drop)]
struct Giving<Q, D, G> {
    query: Q,
    given: D,
    f: G,
}

impl<
    K: HashKey,
    V: Value,
    F: Remap<K, V>,
    A: Allocator + Clone,
    Q: MakesKey<K, A>,
    D: Drop,
    T: Drop,
    G: FnOnce(D, Option<V>) -> (Option<V>, T),
> AtKey<K, V, F, A> for Giving<Q, D, G>
where
    G: Drop,
{
    ghost use Rattle.std.specs.Prelude.{◌≡◌, ◌<◌, ◌≤◌, Option, Some, length};
    ghost use Rattle.bin_history.specs.declared.form.Form.TheVariants.{Lean};
    ghost use Rattle.chm.specs.Given.{IsBackOrUsed, IsGiven, MayBeAbsent};
    ghost use Rattle.chm.specs.Updates.{IsWithin};
    ghost use Rattle.chm.specs.declared.fault.Fault.TheVariants.{NoMemory};

    type Answer = T;

    type Failure = NotMade<D>;

    ghost key = { λ w. Q.stands_for w.query };

    ghost may = { λ w ledger pass. IsWithin ledger pass
        × ((before : Option V) → G.pre w.f w.given before) };

    ghost does = { λ w ledger old new answer. IsGiven K.eq V.eq F.remapped F.merged
        (G.post w.f w.given) ledger (Q.stands_for w.query) old new answer };

    ghost fails = { λ w ledger old e. (e.fault ≡ NoMemory)
        × (ledger.form ≡ Lean → (e.given ≡ Some w.given)
        × MayBeAbsent K.eq V.eq F.remapped F.merged ledger (Q.stands_for w.query) old)
        × IsBackOrUsed (G.post w.f w.given) w.given e.given };

    #[inline(always)]
    fn hash(&self, salt: Salt) -> u32 {
        salt.hash_of_as::<K, Q>(self.query)
    }

    #[inline(always)]
    fn in_place(
        self,
        map: &Map<K, V, F, A>,
        pass: &mut Pass<K, V, F>,
        bin_slot: &mut BinSlot<K, V, F, A>,
        class: Class,
        hash: u32,
    ) -> Result<(T, Growth), NotMade<D>> {
        let Giving { query, given, f } = self;
        lawful_entries::<K, V, F, A>(&bin_slot.entries);
        let alloc = map.resizer.allocator();
        let Ok(prepared) = prepare_as(&bin_slot.entries, alloc, hash, query) else {
            map.peek_in_place(pass, bin_slot, class);
            return Err(NotMade {
                fault: Fault::NoMemory,
                given: Some(given),
            });
        };
        let giving = move |value: Option<V>| -> (Option<V>, T)
            requires { (before : Option V) → G.pre f given before }
            ensures { G.post f given value result }
        { f(given, value) };
        let (answer, trace) = update_on(
            &mut bin_slot.entries,
            hash,
            prepared,
            giving,
            pass.client(),
            pass.made(),
        );
        let mut role = bin_slot.take_role(class);
        map.ledger.post_trace(pass, &mut role, &trace);
        bin_slot.put_role(role);
        Ok((answer, Growth::lean(trace.delta(), bin_slot)))
    }

    fn by_value<'m>(
        self,
        map: &'m Map<K, V, F, A>,
        pass: &mut Pass<K, V, F>,
        bin: &mut Bin<K, V, F, A>,
        role: &mut BinRole<K, V, F>,
        hash: u32,
    ) -> Result<(T, Growth), NotMade<D>> {
        let Giving { query, given, f } = self;
        let Ok((own, before)) = copies_for(bin, map.resizer.allocator(), hash, query) else {
            return Err(NotMade {
                fault: Fault::NoMemory,
                given: Some(given),
            });
        };
        let (left, answer) = f(given, before);
        let op = op_leaving::<K, V, F>(left);
        let own: KeyArg<'m, K> = KeyArg::Owned(own);
        let Ok((reply, growth)) = map.call_by_value(pass, bin, role, hash, own, op) else {
            return Err(NotMade {
                fault: Fault::NoMemory,
                given: None,
            });
        };
        drop(reply);
        Ok((answer, growth))
    }
}

impl<
    K: HashKey,
    V: Value,
    F: Remap<K, V>,
    A: Allocator + Clone,
    Q: MakesKey<K, A>,
    D: Drop,
    T: Drop,
    G: FnOnce(D, Option<V>) -> (Option<V>, T),
> CallAtKey<K, V, F, A> for Giving<Q, D, G>
where
    G: Drop,
{
    ghost use Rattle.std.specs.Prelude.{◌≡◌, Some};
    ghost use Rattle.chm.specs.declared.fault.Fault.TheVariants.{PassFull};

    ghost full = { λ w e. (e.fault ≡ PassFull) × (e.given ≡ Some w.given) };

    fn refuse(self) -> NotMade<D> {
        NotMade {
            fault: Fault::PassFull,
            given: Some(self.given),
        }
    }
}

impl<K: HashKey, V: Value, F: Remap<K, V>, A: Allocator + Clone> Map<K, V, F, A> {
    /// Tells that what lies at the place of a lean bucket of the class is what the calls of some front
    /// left in its class. The pass has seen no more than before.
    #[cold]
    #[inline(never)]
    fn peek_in_place(
        &self,
        pass: &mut Pass<K, V, F>,
        bin_slot: &mut BinSlot<K, V, F, A>,
        class: Class,
    )
        requires pass { pass.old.ledger ≡ self.now.ledger.id }
        requires lies { IsInSlot K.eq (after V.eq F.remapped F.merged)
            (place_of (bins_of self.now) class) bin_slot.old }
        ensures front { (front : List (RecordView K V F))
            × IsFront K.eq (after V.eq F.remapped F.merged) self.now.ledger pass.old front
            × IsMet K.eq K.code self.now.ledger front (as_bin bin_slot.old.entries) }
        ensures same { pass.new ≡ pass.old }
        ensures lies { IsInSlot K.eq (after V.eq F.remapped F.merged)
            (place_of (bins_of self.now) class) bin_slot.new }
    {
        lawful_entries::<K, V, F, A>(&bin_slot.entries);
        let mut role = bin_slot.take_role(class);
        self.ledger.peek(pass, &mut role);
        bin_slot.put_role(role);
    }

    /// Gives the function the value at the key that this stands for, or none, with what else is given,
    /// and the key has what the function returns. It waits for the key's bucket.
    #[inline(always)]
    pub(crate) fn give<
        R: Wait,
        Q: MakesKey<K, A>,
        D: Drop,
        T: Drop,
        G: FnOnce(D, Option<V>) -> (Option<V>, T),
    >(&self, rt: &R, pass: &mut Pass<K, V, F>, query: Q, given: D, f: G) -> Result<T, NotMade<D>>
    where
        G: Drop,
        requires callable { IsWithin self.now.ledger pass.old → (before : Option V) → G.pre f given before }
        requires pass { pass.old.ledger ≡ self.now.ledger.id }
        ensures { IsGive K.eq V.eq F.remapped F.merged (G.post f given) self.now.ledger
            (Q.stands_for query) given pass.old pass.new result }
    {
        self.call_at_key(rt, pass, Giving { query, given, f })
    }

    /// Tries to do what `give` does, and waits for nobody. Returns none where the key's bucket is locked
    /// just then: what was given is dropped.
    #[inline(always)]
    pub(crate) fn try_give<
        Q: MakesKey<K, A>,
        D: Drop,
        T: Drop,
        G: FnOnce(D, Option<V>) -> (Option<V>, T),
    >(&self, pass: &mut Pass<K, V, F>, query: Q, given: D, f: G) -> Option<Result<T, NotMade<D>>>
    where
        G: Drop,
        requires callable { IsWithin self.now.ledger pass.old → (before : Option V) → G.pre f given before }
        requires pass { pass.old.ledger ≡ self.now.ledger.id }
        ensures made { IfSome result (IsGive K.eq V.eq F.remapped F.merged (G.post f given)
            self.now.ledger (Q.stands_for query) given pass.old pass.new) }
        ensures full { most_calls self.now.ledger.form self.now.ledger.clients ≤ length pass.old.made →
            IsSome result }
        ensures busy { IfNone result (pass.new ≡ pass.old) }
    {
        self.try_call_at_key(pass, Giving { query, given, f })
    }
}
