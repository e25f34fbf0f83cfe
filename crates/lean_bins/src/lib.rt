//! A home for the bins of a lean map. Each bin lies in the place of its index, as a chain under a
//! word of its own, and stays there when it is halved: its low half keeps the place, its high half
//! goes to the place so much further. The places from each power of two on are cut into segments of
//! 4,096, and a segment is made when its first bin is.
//!
//! Whoever holds a bin has it and its role where they lie or by value, takes one compare-exchange to
//! get them and one store to give them back. No call but `new`, `try_widen`, `try_halve`,
//! `try_forward` and `room_for_leaves` takes memory. The calls named `hold..` wait for another
//! thread, and nothing else does.
#![tactic(auto)]

mod bins;
mod halve;
mod hold;
mod leaves;
mod opening;
mod segments;
mod slot;

pub use bins::LeanBins;
pub use hold::{BinGuard, Held};
pub use slot::{BinSlot, SegmentTag};
