//! One bin, of either form.
ghost use Rattle.std.specs.Prelude.{◌≡◌, ◌+◌, ◌<◌, ◌≤◌, ◌^◌, ◌++◌, [], true, All, IfOk, IfErr, IsOk, OnErr};
ghost use Rattle.std.specs.Prelude.{option_copied, length, vec_len, vec_capacity, MatchOption};
ghost use Rattle.hashkeys.specs.Classes.{is_of, low_half, high_half};
ghost use Rattle.hashkeys.specs.Limits.{most_bins};
ghost use Rattle.bin_history.specs.BinPart.{IsPartOf};
ghost use Rattle.bin_history.specs.Calls.{after};
ghost use Rattle.bin_history.specs.Entries.{first_in, lookup, HasDistinctKeys, replay};
ghost use Rattle.bin_history.specs.Hashes.{hash_by};
ghost use Rattle.bin_history.specs.Lawful.{IsLawful};
ghost use Rattle.bin_history.specs.Leans.{as_bin};
ghost use Rattle.bin_history.specs.Limits.{most_lean_clients};
ghost use Rattle.bin_history.specs.Made.{IsMadeOn};
ghost use Rattle.bin_history.specs.Ops.{call_on, key_in};
ghost use Rattle.bin_history.specs.Sure.{IsSure};
ghost use Rattle.bin_history.specs.declared.form.Form.TheVariants.{Lean, Recorded};

use crate::call::{Remap, Reply, Value};
use crate::form::Form;
use crate::lean::LeanBin;
use crate::op::Op;
use crate::posting::Posting;
use crate::recorded::RecordedBin;
use bin_entries::{KeyArg, Walk, chain_of};
use hashkeys::{AsKey, Class, HashKey, Salt};
use std::alloc::{AllocError, Allocator};
use std::marker::Model;

/// A bin by its form.
#[derive(Drop)]
pub enum BinKind<K: HashKey, V: Value, F: Remap<K, V>, A: Allocator> {
    Lean(LeanBin<K, V, A>),
    Recorded(Box<RecordedBin<K, V, F, A>, A>),
}

/// A bin of a map: the entries of a class in order of insertion and, in the recorded form, the
/// records of the calls that made them from a base. Contracts see it as a `BinView`; whatever they
/// see is lawful (`Bin::lawful`). To contracts a lean bin has no records, and its base is its
/// entries.
#[derive(Drop)]
pub struct Bin<K: HashKey, V: Value, F: Remap<K, V>, A: Allocator> {
    kind: BinKind<K, V, F, A>,
}

impl<K: HashKey, V: Value, F: Remap<K, V>, A: Allocator> Model for Bin<K, V, F, A> {
    ghost use Rattle.bin_history.specs.Bins.{bin_of};
    ghost use Rattle.bin_history.specs.Lawful.{BinView};

    ghost Value = { BinView K V F };

    ghost view = { λ b. bin_of b.kind };
}

impl<K: HashKey, V: Value, F: Remap<K, V>, A: Allocator + Clone> Bin<K, V, F, A> {
    ghost use Rattle.bin_history.specs.Bins.{bin_of, form_of};

    /// A bin of the form with these pairs, in their order, and no records. The pairs' keys are
    /// distinct and of the class. A lean bin of no pairs takes no memory.
    pub fn new(
        alloc: &A,
        form: Form,
        salt: Salt,
        class: Class,
        base: Vec<(K, V), A>,
    ) -> Result<Bin<K, V, F, A>, AllocError>
    where
        K: Drop,
        V: Drop,
        F: Drop,
        requires distinct { HasDistinctKeys K.eq base.items }
        requires of_class { All (λ e. is_of K.code salt class e.0 ≡ true) base.items }
        ensures succeeds { (form ≡ Lean) → base.items ≡ [] → IsOk result }
        ensures form { IfOk result (λ b. b.form ≡ form) }
        ensures salt { IfOk result (λ b. b.salt ≡ salt) }
        ensures class { IfOk result (λ b. b.class ≡ class) }
        ensures base { IfOk result (λ b. b.base ≡ base.items) }
        ensures records { IfOk result (λ b. b.records ≡ []) }
        ensures entries { IfOk result (λ b. b.entries ≡ base.items) }
    {
        match form {
            Form::Lean => {
                let chain = chain_of(alloc, salt, base)?;
                Ok(Bin {
                    kind: BinKind::Lean(LeanBin::of_chain(salt, class, chain)),
                })
            }
            Form::Recorded => {
                let bin = RecordedBin::new(alloc.clone()?, salt, class, base)?;
                match Box::new(alloc.clone()?, bin) {
                    Ok(boxed) => Ok(Bin {
                        kind: BinKind::Recorded(boxed),
                    }),
                    Err(failed) => {
                        drop(failed);
                        Err(AllocError)
                    }
                }
            }
        }
    }

    /// A bin of the kind.
    pub fn of_kind(kind: BinKind<K, V, F, A>) -> Bin<K, V, F, A>
        ensures { result ≡ bin_of kind }
    {
        Bin { kind }
    }

    /// The bin by its form.
    pub fn into_kind(self) -> BinKind<K, V, F, A>
        ensures bin { bin_of result ≡ self }
        ensures form { form_of result ≡ self.form }
    {
        match self.kind {
            BinKind::Lean(bin) => BinKind::Lean(bin),
            BinKind::Recorded(bin) => {
                bin.lawful();
                BinKind::Recorded(bin)
            }
        }
    }

    /// The bin with its records, where it is of the recorded form.
    pub fn recorded(&self) -> Option<&RecordedBin<K, V, F, A>>
        ensures { MatchOption result (self.now.form ≡ Lean)
            (λ bin. (bin.now ≡ self.now) × (self.now.form ≡ Recorded)) }
    {
        match &self.kind {
            BinKind::Lean(_) => None,
            BinKind::Recorded(bin) => {
                bin.lawful();
                Some(bin)
            }
        }
    }

    /// The form of the bin.
    pub fn form(&self) -> Form
        ensures { result ≡ self.now.form }
    {
        match &self.kind {
            BinKind::Lean(_) => Form::Lean,
            BinKind::Recorded(bin) => {
                bin.lawful();
                Form::Recorded
            }
        }
    }

    /// The class whose keys the bin holds.
    pub fn class(&self) -> Class
        ensures { result ≡ self.now.class }
    {
        match &self.kind {
            BinKind::Lean(bin) => bin.class(),
            BinKind::Recorded(bin) => bin.class(),
        }
    }

    /// The salt of the map's hashes.
    pub fn salt(&self) -> Salt
        ensures { result ≡ self.now.salt }
    {
        match &self.kind {
            BinKind::Lean(bin) => bin.salt(),
            BinKind::Recorded(bin) => bin.salt(),
        }
    }

    /// The value at the key that this stands for, which is of this hash.
    pub fn get_as<Q: AsKey<K>>(&self, hash: u32, query: Q) -> Option<&V>
        requires hash { hash ≡ hash_by K.code self.now.salt (Q.stands_for query) }
        ensures { option_copied result ≡ lookup K.eq self.now.entries (Q.stands_for query) }
    {
        match &self.kind {
            BinKind::Lean(bin) => bin.get_as(hash, query),
            BinKind::Recorded(bin) => bin.get_as(query),
        }
    }

    /// The value at a key of this hash.
    pub fn get(&self, hash: u32, key: &K) -> Option<&V>
        requires hash { hash ≡ hash_by K.code self.now.salt key.now }
        ensures { option_copied result ≡ lookup K.eq self.now.entries key.now }
    {
        self.get_as(hash, key)
    }

    /// What holds of each bin. It does nothing when it runs.
    pub fn lawful(&self)
        ensures lawful { IsLawful K.eq K.code (after V.eq F.remapped F.merged) self.now }
        ensures replayed { self.now.entries ≡ replay K.eq self.now.base self.now.records }
    {
        match &self.kind {
            BinKind::Lean(bin) => bin.lawful::<F>(),
            BinKind::Recorded(bin) => bin.lawful(),
        }
    }

    /// Makes a call on a key of this hash, as the call of this client, below 65,536, after so many
    /// others of it, in a recorded bin fewer than 2^48. It returns the reply and what the books
    /// need. Out of memory, the call is dropped, and nothing is changed.
    pub fn make_on(
        &mut self,
        alloc: &A,
        hash: u32,
        key: KeyArg<'_, K>,
        op: Op<V, F>,
        client: u32,
        ordinal: u64,
    ) -> Result<(Reply<V>, Posting<K, V, F>), AllocError>
    where
        K: Drop,
        V: Drop,
        F: Drop,
        requires hash { hash ≡ hash_by K.code self.old.salt (key_in key) }
        requires of_class { is_of K.code self.old.salt self.old.class (key_in key) ≡ true }
        requires client { client < most_lean_clients }
        requires ordinal { self.old.form ≡ Recorded → ordinal < 2 ^ 48 }
        ensures made { IfOk result
            (λ r. IsMadeOn K.eq V.eq F.remapped F.merged client ordinal
            (call_on (key_in key.entry) op) self.old self.new r.0 r.1) }
        ensures succeeds { IsSure K.eq K.is_infallible V.is_infallible self.old
            (key_in key.entry) op → IsOk result }
        ensures records { OnErr result (self.new.records ≡ self.old.records) }
        ensures base { OnErr result (self.new.base ≡ self.old.base) }
        ensures entries { OnErr result (self.new.entries ≡ self.old.entries) }
        ensures form { self.new.form ≡ self.old.form }
        ensures class { self.new.class ≡ self.old.class }
        ensures salt { self.new.salt ≡ self.old.salt }
    {
        match &mut self.kind {
            BinKind::Lean(bin) => bin.make_on(alloc, hash, key, op, client, ordinal),
            BinKind::Recorded(bin) => {
                bin.lawful();
                bin.make_on(key, op, client, ordinal)
            }
        }
    }
}

/// A value in room of its own.
fn boxed<T: Drop, A: Allocator + Clone>(alloc: &A, value: T) -> Result<Box<T, A>, AllocError>
    ensures { IfOk result (λ b. b.value ≡ value) }
{
    match Box::new(alloc.clone()?, value) {
        Ok(boxed) => Ok(boxed),
        Err(failed) => {
            drop(failed);
            Err(AllocError)
        }
    }
}

impl<K: HashKey, V: Value, F: Remap<K, V>, A: Allocator + Clone> Bin<K, V, F, A> {
    /// The entries, in order.
    pub fn walk(&self) -> Walk<'_, K, V, A>
        ensures { result ≡ self.now.entries }
    {
        match &self.kind {
            BinKind::Lean(bin) => bin.walk(),
            BinKind::Recorded(bin) => Walk::of_list(bin.entries()),
        }
    }

    /// The first entry.
    pub fn first(&self) -> Option<&(K, V)>
        ensures { option_copied result ≡ first_in self.now.entries }
    {
        let mut walk = self.walk();
        walk.next()
    }

    /// A copy of the entries, in order.
    pub fn copy_entries(&self, alloc: &A) -> Result<Vec<(K, V), A>, AllocError>
        ensures { IfOk result (λ copy. copy.items ≡ self.now.entries) }
    {
        match &self.kind {
            BinKind::Lean(bin) => bin.copies(alloc.clone()?),
            BinKind::Recorded(bin) => bin.copy_entries(),
        }
    }

    /// Moves the entries, in order, into a list that has room for them.
    pub fn pour(self, mut list: Vec<(K, V), A>) -> Vec<(K, V), A>
        requires room { vec_len list + length self.entries ≤ vec_capacity list }
        ensures items { result.items ≡ list.items ++ self.entries }
        ensures capacity { vec_capacity list ≤ vec_capacity result }
    {
        match self.kind {
            BinKind::Lean(bin) => bin.pour(list),
            BinKind::Recorded(bin) => {
                let mut own = Box::into_inner(bin).into_entries();
                match list.append(&mut own) {
                    Ok(()) => list,
                    Err(AllocError) => unreachable!(),
                }
            }
        }
    }

    /// The two halves of a recorded bin: copies, each in room of its own.
    fn boxed_halves(
        alloc: &A,
        bin: &RecordedBin<K, V, F, A>,
    ) -> Result<(Bin<K, V, F, A>, Bin<K, V, F, A>), AllocError>
        requires size { bin.now.class.n < most_bins }
        ensures low_class { IfOk result (λ b. b.0.class ≡ low_half bin.now.class) }
        ensures high_class { IfOk result (λ b. b.1.class ≡ high_half bin.now.class) }
        ensures low { IfOk result (λ b. IsPartOf K.code bin.now b.0) }
        ensures high { IfOk result (λ b. IsPartOf K.code bin.now b.1) }
    {
        let (low, high) = bin.split()?;
        let low = boxed(alloc, low)?;
        let high = boxed(alloc, high)?;
        Ok((
            Bin {
                kind: BinKind::Recorded(low),
            },
            Bin {
                kind: BinKind::Recorded(high),
            },
        ))
    }

    /// The bins of the low and the high half of the class, in the bin's form, each with its part of
    /// base, records and entries, in order. A lean bin's entries are moved, which takes no memory.
    /// Those of a recorded bin are copies, and for want of memory the bin comes back as it was.
    pub fn split(
        self,
        alloc: &A,
    ) -> Result<(Bin<K, V, F, A>, Bin<K, V, F, A>), (Bin<K, V, F, A>, AllocError)>
        requires size { self.class.n < most_bins }
        ensures succeeds { self.form ≡ Lean → IsOk result }
        ensures low_class { IfOk result (λ b. b.0.class ≡ low_half self.class) }
        ensures high_class { IfOk result (λ b. b.1.class ≡ high_half self.class) }
        ensures low { IfOk result (λ b. IsPartOf K.code self b.0) }
        ensures high { IfOk result (λ b. IsPartOf K.code self b.1) }
        ensures refused { IfErr result (λ e. e.0 ≡ self) }
    {
        match self.kind {
            BinKind::Lean(bin) => {
                let (low, high) = bin.split();
                Ok((
                    Bin {
                        kind: BinKind::Lean(low),
                    },
                    Bin {
                        kind: BinKind::Lean(high),
                    },
                ))
            }
            BinKind::Recorded(bin) => {
                bin.lawful();
                match Bin::boxed_halves(alloc, &bin) {
                    Ok(halves) => Ok(halves),
                    Err(error) => Err((
                        Bin {
                            kind: BinKind::Recorded(bin),
                        },
                        error,
                    )),
                }
            }
        }
    }
}
