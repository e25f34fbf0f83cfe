//! A closed map.
ghost use Rattle.std.specs.Prelude.{◌≡◌, ◌==◌, All, List, length};
ghost use Rattle.bin_history.specs.Calls.{after};
ghost use Rattle.bin_history.specs.Entries.{HasDistinctKeys};
ghost use Rattle.bin_history.specs.Records.{RecordView};
ghost use Rattle.chm.specs.Headline.{IsHistoryOfKey, IsOneOrder, IsQuiet, IsToldInOrder};
ghost use Rattle.chm.specs.Headline.{entries_of};

use crate::closed::close::Rest;
use bin_history::{Bin, Form, Remap, Value, Walk};
use count_ledger::{BinRole, Ledger, Pass};
use hashkeys::{HashKey, Salt};
use std::alloc::Allocator;
use std::marker::Model;
use std::snapshot::Snapshot;

/// A map that nobody calls any more: its bins do not change. Contracts see its bins beside the
/// books that it was closed with. In the examples of its calls it has one key, 1, with the value 5.
pub struct Quiet<K: HashKey, V: Value, F: Remap<K, V>, A: Allocator> {
    pub(crate) bins: Vec<Bin<K, V, F, A>, A>,
    pub(crate) n: u32,
    pub(crate) salt: Salt,
    pub(crate) form: Form,
    pub(crate) count: u64,
    pub(crate) ledger: Snapshot<Ledger<K, V, F, A>>,
    pub(crate) roles: Snapshot<Vec<BinRole<K, V, F>, A>>,
    pub(crate) passes: Snapshot<Vec<Pass<K, V, F>, A>>,
    pub(crate) rest: Snapshot<Option<Rest<K, V, F>>>,
}

impl<K: HashKey, V: Value, F: Remap<K, V>, A: Allocator> Model for Quiet<K, V, F, A> {
    ghost use Rattle.std.specs.Prelude.{◌≡◌, length};
    ghost use Rattle.bin_history.specs.Calls.{after};
    ghost use Rattle.chm.specs.Closing.{passes_with};
    ghost use Rattle.chm.specs.Headline.{QuietView, entries_of, IsQuiet};

    ghost Value = { QuietView K V F };

    ghost view = { λ q. record {
      ledger = q.ledger.value;
      n = q.n;
      bins = q.bins.items;
      roles =
          q.roles.value.items;
      passes =
          passes_with q.rest.value q.passes.value.items;
    } };

    ghost invariant = { λ q.
        IsQuiet K.eq K.code (after V.eq F.remapped F.merged) (record { ledger = q.ledger.value; n = q.n; bins = q.bins.items; roles = q.roles.value.items; passes = passes_with q.rest.value q.passes.value.items })
        × (q.salt ≡ q.ledger.value.salt)
        × (q.count ≡ length (entries_of q.bins.items))
        × (q.form ≡ q.ledger.value.form) };
}

// Written out, so that a crate above calls it: of a derived one it would prove each part anew.
impl<K: HashKey, V: Value, F: Remap<K, V>, A: Allocator> Drop for Quiet<K, V, F, A> {
    fn drop(self) {
        let Quiet {
            bins: _,
            n: _,
            salt: _,
            form: _,
            count: _,
            ledger: _,
            roles: _,
            passes: _,
            rest: _,
        } = self;
    }
}

impl<K: HashKey, V: Value, F: Remap<K, V>, A: Allocator> Quiet<K, V, F, A> {
    /// The bins of a closed map that is taken apart, in walk order.
    pub(crate) fn into_bins(self) -> Vec<Bin<K, V, F, A>, A>
        ensures { result.items ≡ self.bins }
    {
        let Quiet {
            bins,
            n: _,
            salt: _,
            form: _,
            count: _,
            ledger: _,
            roles: _,
            passes: _,
            rest: _,
        } = self;
        bins
    }

    /// Returns the bins, in walk order.
    pub fn bins(&self) -> &[Bin<K, V, F, A>]
        ensures { result.now ≡ self.now.bins }
    {
        &self.bins
    }

    /// Returns the allocator of the bins.
    pub fn allocator(&self) -> &A {
        self.bins.allocator()
    }

    /// Returns the number of keys.
    ///
    ///     quiet.mapping_count() == 1
    pub fn mapping_count(&self) -> u64
        ensures { result ≡ length (entries_of self.now.bins) }
    {
        self.count
    }

    /// Returns the number of keys.
    ///
    ///     quiet.len() == 1
    pub fn len(&self) -> usize
        ensures { result ≡ length (entries_of self.now.bins) }
    {
        self.count as usize
    }

    /// Returns whether there is no key.
    ///
    ///     !quiet.is_empty()
    pub fn is_empty(&self) -> bool
        ensures { result ≡ (length (entries_of self.now.bins) == 0) }
    {
        self.count == 0
    }

    /// Returns the salt of the hashes of keys.
    pub fn salt(&self) -> Salt
        ensures { result ≡ self.now.ledger.salt }
    {
        self.salt
    }

    /// Returns the form that the map had, which a map opened again has too.
    pub fn form(&self) -> Form
        ensures { result ≡ self.now.ledger.form }
    {
        self.form
    }

    /// What holds of each closed map. It does nothing when it runs.
    pub fn lawful(&self)
        ensures { IsQuiet K.eq K.code (after V.eq F.remapped F.merged) self.now }
    {
        // read for the proof alone, which so has the invariant
        let _ = &self.bins;
    }

    /// There is one order of all calls of all clients, in which they are those of a one-thread map:
    /// each client's in that client's order, each bin's as its role kept them, legal on the opening
    /// map, and they leave the pairs of this map. It begins with what each pass has seen. It does
    /// nothing when it runs.
    pub fn one_order(&self)
        ensures { (calls : List (RecordView K V F))
            × IsOneOrder K.eq K.code (after V.eq F.remapped F.merged) self.now calls }
    {
        // read for the proof alone, which so has the invariant
        let _ = &self.bins;
    }

    /// Each call comes, in one order of all calls, after every call that its client had seen when
    /// it made it, of its own, by a look or by a moment of another client. It does nothing when it
    /// runs.
    pub fn told_in_order(&self)
        ensures { (calls : List (RecordView K V F))
            × IsOneOrder K.eq K.code (after V.eq F.remapped F.merged) self.now calls
            × All (IsToldInOrder calls) self.now.passes }
    {
        // read for the proof alone, which so has the invariant
        let _ = &self.bins;
    }

    /// What holds of each key: no key stands twice, and all calls on one key, which are of each
    /// client just those that it made on the key, in its order, are calls of one cell, from the
    /// value that the key had at the opening to the one that it has. It does nothing when it runs.
    pub fn histories(&self)
        ensures distinct { HasDistinctKeys K.eq (entries_of self.now.bins) }
        ensures each_key { (k : K) → (rs : List (RecordView K V F))
            × IsHistoryOfKey K.eq (after V.eq F.remapped F.merged) self.now k rs }
    {
        // read for the proof alone, which so has the invariant
        let _ = &self.bins;
    }
}

impl<K: HashKey, V: Value, F: Remap<K, V>, A: Allocator + Clone> Quiet<K, V, F, A> {
    /// Returns the pairs of the bins, bin by bin.
    ///
    ///     let mut pairs = quiet.entries();
    ///     pairs.next().copied() == Some((1, 5))
    ///     pairs.next().is_none()
    pub fn entries(&self) -> Entries<'_, K, V, F, A>
        ensures { result ≡ entries_of self.now.bins }
    {
        self.lawful();
        let Some((first, bins)) = self.bins().split_first() else {
            unreachable!()
        };
        Entries {
            own: first.walk(),
            bins,
        }
    }
}

/// A loop over a closed map goes over its pairs as `entries` does.
impl<'a, K: HashKey, V: Value, F: Remap<K, V>, A: Allocator + Clone> IntoIterator
    for &'a Quiet<K, V, F, A> {
    ghost use Rattle.std.specs.Prelude.{◌≡◌};
    ghost use Rattle.chm.specs.Headline.{entries_of};

    type Item = &'a (K, V);

    type IntoIter = Entries<'a, K, V, F, A>;

    ghost into_iter_gives = { λ quiet pairs. pairs ≡ entries_of quiet.now.bins };

    fn into_iter(self) -> Entries<'a, K, V, F, A> {
        self.entries()
    }
}

/// The pairs of bins, bin by bin. Contracts see the pairs that are left.
#[derive(Drop)]
pub struct Entries<'a, K: HashKey, V: Value, F: Remap<K, V>, A: Allocator> {
    own: Walk<'a, K, V, A>,
    bins: &'a [Bin<K, V, F, A>],
}

impl<'a, K: HashKey, V: Value, F: Remap<K, V>, A: Allocator> Model for Entries<'a, K, V, F, A> {
    ghost use Rattle.std.specs.Prelude.{List, ◌++◌};
    ghost use Rattle.chm.specs.Headline.{entries_of};

    ghost Value = { List (K × V) };

    ghost view = { λ e. e.own ++ entries_of e.bins.now };
}

impl<'a, K: HashKey, V: Value, F: Remap<K, V>, A: Allocator + Clone> Iterator
    for Entries<'a, K, V, F, A> {
    ghost use Rattle.std.specs.Iterator.{YieldsFirstRef, item_count};

    type Item = &'a (K, V);

    ghost next_gives = { YieldsFirstRef (λ e. e) };

    ghost remaining = { item_count (λ e. e) };

    fn next(&mut self) -> Option<&'a (K, V)> {
        loop {
            if let Some(entry) = self.own.next() {
                return Some(entry);
            }
            let (bin, bins) = self.bins.split_first()?;
            self.own = bin.walk();
            self.bins = bins;
        }
    }
}
