//! What is called before each leaf of a run.
ghost use Rattle.std.specs.Prelude.{◌<◌};
ghost use Rattle.steal_pool.specs.Limits.{most_workers};

/// What is called before each leaf of a bulk operation.
pub trait Gate {
    /// The worker is about to take the bins from `lo` to below `hi`.
    fn leaf(&self, worker: usize, lo: usize, hi: usize)
        requires worker { worker < most_workers }
        requires range { lo < hi };
}

/// A gate that holds nothing back.
#[derive(Clone, Copy, Debug)]
pub struct OpenGate;

impl Gate for OpenGate {
    fn leaf(&self, _worker: usize, _lo: usize, _hi: usize) {}
}
