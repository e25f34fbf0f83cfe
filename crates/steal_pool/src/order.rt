//! What the caller of a run asked for.
ghost use Rattle.std.specs.Prelude.{◌<◌, ◌≤◌};
ghost use Rattle.steal_pool.specs.Limits.{most_batch, most_workers};

use crate::body::Body;

/// How many workers, of whom at most so many have threads, do what with how many bins, in which
/// batch.
#[derive(Drop)]
pub struct Order<'a, B: Body, G> {
    pub workers: usize,
    pub threads: usize,
    pub gate: &'a G,
    pub body: &'a B,
    pub bins: usize,
    pub batch: usize,
    ghost workers_are: { (0 < workers) × (workers ≤ most_workers) },
    ghost bins_are: { (0 < bins) × (bins ≤ B.limit body.now) },
    ghost batch_is: { batch ≤ most_batch },
}
