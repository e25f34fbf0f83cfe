//! What handles stand for.
use facing_maps::{Keys, Merging, SeededKey, SharedBytes, Stage};
use functions::NoFunction;
use seeded_keys::NumberSeed;

/// What a handle stands for. A map, its clients and the closed map have one seed.
#[derive(Drop)]
pub enum Target {
    /// Of a map from whole numbers to whole numbers.
    Numbers(NumberSeed, Stage<u64, u64, Merging>),
    /// Of a map from byte strings to byte strings.
    Bytes(Keys, Stage<SeededKey, SharedBytes, NoFunction>),
    /// Of a map from byte strings to whole numbers.
    Counts(Keys, Stage<SeededKey, u64, Merging>),
    /// A value of a map of byte strings: a copy, or an owner more.
    Held(SharedBytes),
}
