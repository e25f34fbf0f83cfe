//! Shared maps for text from outside: each draws a secret seed, under which it hashes its keys, so that
//! nobody who does not know the seed can choose texts that share a bucket.
//!
//! A map makes the query for a text (`TextMap::of`), and each `_as` call of a client takes it.
#![tactic(auto)]

mod closed_seeded;
mod not_closed;
mod seeded_map;
mod text_fault;

pub use closed_seeded::{ClosedSeeded, ClosedTexts};
pub use not_closed::TextNotClosed;
pub use seeded_keys::{Hashed, Query, Seed};
pub use seeded_map::{SeededMap, TextClient, TextMap};
pub use text_fault::TextFault;
