//! A body whose part is how many bins a range has, and which tells its leaves.
ghost use Rattle.std.specs.Prelude.{◌≡◌, ◌+◌, ◌<◌};
ghost use Rattle.completers.specs.Parts.{AreParts};

use completers::{Parts, Relation};
use std::sync::atomic::AtomicU64;
use std::sync::atomic::Ordering::SeqCst;
use steal_pool::Body;

/// Counts calls, and keeps the set of the leaves that it was called for.
#[derive(Drop)]
pub(crate) struct Leaves {
    names: AtomicU64,
    pub(crate) calls: AtomicU64,
}

pub(crate) fn no_leaves() -> Leaves {
    Leaves {
        names: AtomicU64::new(0),
        calls: AtomicU64::new(0),
    }
}

// The bit of a leaf. Those of a small range have each its own.
fn bit_of(lo: usize, hi: usize) -> u64 {
    1u64.wrapping_shl((lo % 8) as u32 * 8 + (hi % 16) as u32)
}

impl Leaves {
    pub(crate) fn add(&self, lo: usize, hi: usize) {
        self.calls.fetch_add(1, SeqCst);
        self.names.fetch_or(bit_of(lo, hi), SeqCst);
    }

    /// Whether it was called for this leaf.
    pub(crate) fn has(&self, lo: usize, hi: usize) -> bool {
        self.names.load(SeqCst) & bit_of(lo, hi) != 0
    }

    /// Whether it has seen just these leaves, each once.
    pub(crate) fn are(&self, leaves: &[(usize, usize)]) -> bool {
        let mut names = 0;
        for (lo, hi) in leaves {
            names |= bit_of(*lo, *hi);
        }
        self.names.load(SeqCst) == names && self.calls.load(SeqCst) == leaves.len() as u64
    }
}

/// How many bins a range has.
#[derive(Drop)]
pub(crate) struct Count {
    pub(crate) leaves: Leaves,
}

pub(crate) fn new_count() -> Count {
    Count {
        leaves: no_leaves(),
    }
}

impl Relation for Count {
    type Part = usize;

    ghost relates = { λ _ lo hi part. lo + part ≡ hi };
}

impl Body for Count {
    ghost use Rattle.std.specs.Prelude.{ℕ};

    ghost limit = { λ _. 1000000 };

    fn leaf(&self, lo: usize, hi: usize) -> usize {
        self.leaves.add(lo, hi);
        hi - lo
    }

    fn join(&self, lo: usize, hi: usize, parts: Parts<usize>) -> usize
        requires { (lo < hi) × AreParts (λ a b part. a + part ≡ b) lo hi parts }
        ensures { lo + result ≡ hi }
    {
        let mut parts = parts;
        let mut end = lo;
        while let Some(x) = parts.take() {
            end = x.hi;
        }
        // read here, so that the loop's invariant can name it
        let _ = hi;
        end - lo
    }
}
