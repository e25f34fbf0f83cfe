//! How many workers a pool has at most, and how many shares a deque has.

/// A pool has no more workers than this.
pub const MOST_WORKERS: usize = 16;

/// A deque has so many shares: one for each way into it that is out, and the others for its owner.
pub(crate) const ALL_SHARES: u64 = 32;
