//! The home of a map's bins, of either form: recorded bins lie in `generations`, lean ones in
//! `lean_bins`. What is proved of both is the same, so that a map has one code for either.
//!
//! Whoever holds a bin has it and its role by value. No call but `new`, `try_widen`, `try_halve`,
//! `try_forward`, `glance_as` and `room_for_leaves` takes memory. Calls that may wait for another thread
//! take a `Wait`; those that begin with `try_` are refused in place of waiting.
#![tactic(auto)]

mod glance;
mod hold;
mod leaves;
mod moving;
mod store;

pub use hold::{Held, Place};
pub use store::{BinStore, StoreKind};
