//! Counted completers. A range of bins is worked on as a tree of nodes: whoever opens a
//! node forks upper halves of its range to others, and keeps the lower half.
//! Each fork, and the node itself, has a ticket, and each ticket arrives once, with a
//! part for its range. The last arrival at a node has the parts of all its tickets,
//! in range order, and the ticket above it: it joins them, and arrives there with the
//! joined part. So what a tree gives for its whole range is what one thread would give,
//! whoever did which range, in whatever order.
//!
//! Each node counts the tickets that have not arrived in one word, with one fetch_add for a
//! fork and one fetch_sub for an arrival. Nothing waits, and only `Tree::new` takes memory.
#![tactic(auto)]

mod arrive;
mod found;
mod limits;
mod node;
mod parts;
mod relation;
mod rule;
mod steps;
mod tokens;
mod tree;
mod words;

pub use arrive::Arrival;
pub use found::{Finds, Found};
pub use limits::MOST_NODES;
pub use parts::Parts;
pub use relation::{Partial, Relation};
pub use tokens::{Counted, Node, Supply, Ticket};
pub use tree::Tree;
