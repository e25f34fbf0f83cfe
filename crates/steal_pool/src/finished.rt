//! What a run ends with.

/// How many tasks a run shared. A worker that forks pushes a task to its deque, and a worker that
/// has nothing to do takes one, from its own deque or another's.
#[derive(Clone, Copy, Debug, PartialEq, Eq)]
pub struct Tasks {
    /// So many were pushed by all workers.
    pub pushed: u64,
    /// So many were taken by all workers.
    pub taken: u64,
}

/// The end of a run.
#[derive(Drop)]
pub struct Finished<P> {
    /// The part of all bins.
    pub part: P,
    /// What the settlement counted once all workers were back: each task was taken once, and none
    /// is left. None: nothing was shared, since memory for the tree or the deques was refused.
    pub tasks: Option<Tasks>,
}
