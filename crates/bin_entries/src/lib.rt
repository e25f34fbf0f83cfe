//! The entries of a bin: lists of pairs of a key and a value, and the chain that stores them.
#![tactic(auto)]

mod append;
mod at_key;
mod boxes;
mod chain;
mod change;
mod copies;
mod key_arg;
mod lean_entries;
mod part;
mod update;
mod walk;

pub use append::Room;
pub use chain::{Chain, chain_of};
pub use copies::{copy_of, copy_of_both, copy_of_entries, copy_of_option};
pub use key_arg::KeyArg;
pub use lean_entries::LeanEntries;
pub use part::{is_of, part_of_entries};
pub use walk::{Left, Walk};
