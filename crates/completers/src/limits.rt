//! How many nodes a tree has at most.

/// A tree has no more nodes than this.
pub const MOST_NODES: usize = 128;

/// How many words it then has: two a node.
pub(crate) const MOST_WORDS: usize = 2 * MOST_NODES;
