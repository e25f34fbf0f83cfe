//! What the homes of a map's bins have in common, whatever they are made of: the names of a map and
//! of its places, the order in which its bins are walked, and what moves answer.
#![tactic(auto)]

mod moved;
mod room;
mod tag;
mod walk;

pub use moved::{Moved, Refused};
pub use room::Room;
pub use tag::PlaceTag;
pub use walk::{next_in_walk, walk_laws};
