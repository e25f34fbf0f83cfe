//! What the calls of a client came to.
ghost use Rattle.std.specs.Prelude.{◌≡◌, ◌+◌, ◌-◌, ◌^◌, min};
ghost use Rattle.caches.specs.Counted.{with_eviction, with_get};

/// How many gets found a value, how many found none, and how many entries were evicted. Each count stays at
/// 2^64 - 1 once it is there.
#[derive(Clone, Copy, PartialEq, Eq, Debug)]
pub struct CacheCounts {
    pub hits: u64,
    pub misses: u64,
    pub evictions: u64,
}

impl CacheCounts {
    /// Returns the counts of a client that has made no call.
    pub fn none() -> CacheCounts
        ensures hits { result.hits ≡ 0 }
        ensures misses { result.misses ≡ 0 }
        ensures evictions { result.evictions ≡ 0 }
    {
        CacheCounts {
            hits: 0,
            misses: 0,
            evictions: 0,
        }
    }

    /// With a get that found a value, or none.
    pub(crate) fn with_get(self, is_hit: bool) -> CacheCounts
        ensures { result ≡ with_get is_hit self }
    {
        if is_hit {
            CacheCounts {
                hits: self.hits.saturating_add(1),
                ..self
            }
        } else {
            CacheCounts {
                misses: self.misses.saturating_add(1),
                ..self
            }
        }
    }

    /// With one more entry that was evicted.
    pub(crate) fn with_eviction(self) -> CacheCounts
        ensures { result ≡ with_eviction self }
    {
        CacheCounts {
            evictions: self.evictions.saturating_add(1),
            ..self
        }
    }

    /// Returns the sums of these counts and of others.
    ///
    ///     let all = first.counts().and(second.counts());
    pub fn and(self, other: CacheCounts) -> CacheCounts
        ensures hits { result.hits ≡ min (self.hits + other.hits) (2 ^ 64 - 1) }
        ensures misses { result.misses ≡ min (self.misses + other.misses) (2 ^ 64 - 1) }
        ensures evictions { result.evictions ≡ min (self.evictions + other.evictions) (2 ^ 64 - 1) }
    {
        CacheCounts {
            hits: self.hits.saturating_add(other.hits),
            misses: self.misses.saturating_add(other.misses),
            evictions: self.evictions.saturating_add(other.evictions),
        }
    }
}
