//! Walks over parts of a table, and what is collected from the entries that they show. A table of
//! `n` buckets is shared out by its indexes: each share is walked over by itself, however the buckets
//! divide meanwhile, and together the walks have every hash once.
#![tactic(auto)]

mod joining;
mod seats;
mod shares;
mod stepping;
mod taker;
mod walk;

pub use joining::join_all;
pub use seats::{Room, Seat, room_for, seat_all, unseat_all};
pub use shares::{bound, share_of};
pub use stepping::Stepper;
pub use taker::{Taker, is_same, show_entries};
pub use walk::{PartWalk, narrower};
