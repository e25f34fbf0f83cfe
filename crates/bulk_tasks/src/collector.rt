//! What is collected from the pairs of bins, in parts that lie side by side.
ghost use Rattle.std.specs.Prelude.{◌<◌, ◌+◌, ◌^◌, ◌++◌, List, length, slice_range};
ghost use Rattle.chm.specs.Headline.{entries_of};
ghost use Rattle.completers.specs.Parts.{AreParts};

use bin_history::{Bin, Remap, Value};
use completers::{Partial, Parts, Relation};
use hashkeys::HashKey;
use std::alloc::Allocator;
use steal_pool::Body;

/// What the pairs of bins give.
pub trait Collector<K: HashKey, V: Value, F: Remap<K, V>, A: Allocator + Clone> {
    type Part: Drop;

    // Of the pairs of a list, in order.
    ghost collected: { Self → List (K × V) → Self.Part → Type 0 };

    /// What the pairs of these bins give, of which there are fewer than 2^64.
    fn collect(&self, bins: &[Bin<K, V, F, A>]) -> Self::Part
        requires few { length (entries_of bins.now) < 2 ^ 64 }
        ensures { collected self.now (entries_of bins.now) result };

    /// The part of two parts side by side, of fewer than 2^64 pairs together.
    fn append(&self, left: Self::Part, right: Self::Part) -> Self::Part
        requires few { (es : List (K × V)) × (fs : List (K × V)) × collected self.now es left
            × collected self.now fs right × (length es + length fs < 2 ^ 64) }
        ensures { (es fs : List (K × V)) → collected self.now es left → collected self.now fs right
            → collected self.now (es ++ fs) result };
}

/// The bins of a closed map, whose ranges workers collect from.
#[derive(Drop)]
pub(crate) struct Collecting<'a, K: HashKey, V: Value, F: Remap<K, V>, A: Allocator, C> {
    pub(crate) bins: &'a [Bin<K, V, F, A>],
    pub(crate) collector: &'a C,
    ghost few: { length (entries_of bins.now) < 2 ^ 64 },
}

impl<K: HashKey, V: Value, F: Remap<K, V>, A: Allocator + Clone, C: Collector<K, V, F, A>> Relation
    for Collecting<'_, K, V, F, A, C> {
    ghost use Rattle.std.specs.Prelude.{slice_range};
    ghost use Rattle.chm.specs.Headline.{entries_of};

    type Part = C::Part;

    ghost relates = { λ b lo hi part. C.collected b.collector.now
        (entries_of (slice_range b.bins.now lo hi)) part };
}

impl<K: HashKey, V: Value, F: Remap<K, V>, A: Allocator + Clone, C: Collector<K, V, F, A>> Body
    for Collecting<'_, K, V, F, A, C> {
    ghost use Rattle.std.specs.Prelude.{length};

    ghost limit = { λ b. length b.bins.now };

    fn leaf(&self, lo: usize, hi: usize) -> C::Part {
        self.collector.collect(&self.bins[lo..hi])
    }

    fn join(&self, lo: usize, hi: usize, parts: Parts<C::Part>) -> C::Part
        requires range { lo < hi }
        requires parts { AreParts
            (λ a b part. C.collected self.now.collector.now
            (entries_of (slice_range self.now.bins.now a b)) part) lo hi parts }
        ensures { C.collected self.now.collector.now
            (entries_of (slice_range self.now.bins.now lo hi)) result }
    {
        let mut parts = parts;
        let Some(first) = parts.take() else {
            unreachable!()
        };
        let mut whole = first;
        while let Some(next) = parts.take() {
            whole = Partial {
                lo,
                hi: next.hi,
                part: self.collector.append(whole.part, next.part),
            };
        }
        // read here, so that the loop's invariant can name it
        let _ = hi;
        whole.part
    }
}
