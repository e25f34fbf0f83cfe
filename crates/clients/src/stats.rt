//! How long a map's buckets are.
ghost use Rattle.std.specs.Prelude.{◌≡◌, ◌++◌, ◌∷◌, [], ℕ, List};
ghost use Rattle.bin_history.specs.Calls.{after};
ghost use Rattle.count_ledger.specs.Fronts.{HasSeenMore};
ghost use Rattle.clients.specs.Stats.{ShowsStats, IsStats, capped};

use crate::client::ClientOf;
use crate::holder::{Holder, Seat};
use bin_history::{Remap, Value};
use chm::{Map, PartWalk, Pass, Taker};
use hashkeys::HashKey;
use std::alloc::Allocator;
use std::sync::Wait;

/// The buckets of a map and how long they are. A number that is out of the range of `u64` is its
/// greatest.
#[derive(Clone, Copy, Debug, Drop, PartialEq, Eq)]
pub struct Stats {
    /// How many buckets there are, empty ones among them.
    pub buckets: u64,
    /// How many entries all have.
    pub entries: u64,
    /// How many entries the longest has.
    pub longest: u64,
    /// How many buckets have no entry, one entry, and so on up to 7; and last how many have 8 or more.
    pub lengths: [u64; 9],
}

/// Counts the entries of a bucket.
struct Counting;

impl<K, V> Taker<K, V> for Counting {
    ghost use Rattle.std.specs.Prelude.{◌≡◌, length};
    ghost use Rattle.clients.specs.Stats.{capped};

    type Part = u64;

    ghost reached = { λ _ es count. count ≡ capped (length es) };

    fn add(&self, part: u64, _key: &K, _value: &V) -> u64 {
        part.saturating_add(1)
    }
}

/// Those of no bucket.
fn of_no_bucket() -> Stats
    ensures { IsStats [] result }
{
    Stats {
        buckets: 0,
        entries: 0,
        longest: 0,
        lengths: [0; 9],
    }
}

/// The same with one bucket more, of so many entries.
fn with_bucket(stats: Stats, len: u64) -> Stats
    ensures { (lengths : List ℕ) (whole : ℕ) → IsStats lengths stats → len ≡ capped whole →
        IsStats (lengths ++ whole ∷ []) result }
{
    let mut lengths = stats.lengths;
    let place = len.min(8) as usize;
    lengths[place] = lengths[place].saturating_add(1);
    Stats {
        buckets: stats.buckets.saturating_add(1),
        entries: stats.entries.saturating_add(len),
        longest: stats.longest.max(len),
        lengths,
    }
}

/// Walks where the entries lie, and counts.
fn take_stats<K: HashKey, V: Value, F: Remap<K, V>, A: Allocator + Clone, R: Wait>(
    rt: &R,
    map: &Map<K, V, F, A>,
    pass: &mut Pass<K, V, F>,
) -> Stats
    requires pass { pass.old.ledger ≡ map.now.ledger.id }
    ensures stats { ShowsStats K.eq K.code (after V.eq F.remapped F.merged) map.now pass.old pass.new
        result }
    ensures seen { HasSeenMore pass.old pass.new }
{
    let n = map.table_size();
    let mut walk = PartWalk::new(n, 0, n);
    let mut stats = of_no_bucket();
    for _ in rt.forever() {
        if walk.is_at_end() {
            return stats;
        }
        let len = map.show_part(rt, pass, &mut walk, &Counting, 0);
        stats = with_bucket(stats, len);
    }
    unreachable!()
}

impl<H: Holder<K, V, F, A>, K: HashKey, V: Value, F: Remap<K, V>, A: Allocator + Clone> ClientOf<
    H,
    K,
    V,
    F,
    A,
> {
    /// Returns how many buckets and entries the map has, and how long its buckets are, as a walk shows
    /// them: each bucket as all calls before had left it. Of a bucket that a growing map has not moved
    /// yet, each part that is to be moved counts as a bucket. While other threads make calls, the numbers
    /// are those at no one moment.
    ///
    /// It waits for each bucket in turn, which is locked while its entries are counted, and takes time
    /// linear in the buckets and the entries. Nothing is copied, posted or allocated, so nothing can
    /// fail.
    ///
    ///     client.put(rt, 1, 5)?;
    ///     let stats = client.stats(rt);
    ///     assert_eq!(stats.entries, 1);
    ///     assert_eq!(stats.longest, 1);
    ///     assert_eq!(stats.lengths[1], 1);
    ///     assert_eq!(stats.lengths[0], stats.buckets.saturating_sub(1));
    pub fn stats<R: Wait>(&mut self, rt: &R) -> Stats
        ensures stats { ShowsStats K.eq K.code (after V.eq F.remapped F.merged) self.old.map
            self.old.pass self.new.pass result }
        ensures seen { HasSeenMore self.old.pass self.new.pass }
        ensures map { self.new.map ≡ self.old.map }
    {
        take_stats(rt, self.holder.map(), self.seat.pass_mut())
    }
}
