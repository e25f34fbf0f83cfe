//! The locked bins of a map, each in a place of its own with a lock. Places stand in tables, one
//! for each size: the opening table has a place for each class among n, and the table of 2n places,
//! made when the map is to grow, one for each half of those. Where a bin is replaced by its halves
//! these are put into their places of the wider table. Whoever looks for a hash begins at the
//! widest table and takes the first place that was begun.
//!
//! Whoever gets the lock of a place finds a lawful bin of the place's class, and a role
//! of this map's ledger that agrees with it. No call but `new`, `try_widen`, `try_halve`,
//! `try_forward`, `forward` and `room_for_leaves` takes memory. Calls that may wait for another thread
//! take a `Wait`; those that begin with `try_` are refused in place of waiting.
#![tactic(auto)]

mod forward;
mod generations;
mod hold;
mod leaves;
mod opening;
mod place;
mod shown;
mod state;
mod tables;

pub use generations::Generations;
pub use hold::{Held, Taken};
pub use place::Place;
pub use shown::Shown;
