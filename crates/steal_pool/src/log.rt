//! What one who holds a deque, or a way into it, knows.
use std::collections::LinkedList;

/// What somebody has pushed and taken, and how many of the shares in a deque it has. No value of it
/// is made.
pub struct Log<T> {
    pub shares: u64,
    pub pushed: LinkedList<T>,
    pub taken: LinkedList<T>,
}
