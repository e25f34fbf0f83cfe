//! Keys of bytes for maps that are fed from outside: their codes are SipHash-1-3 under a seed, so
//! that nobody who does not know the seed can choose keys that share one.
//!
//! A program draws one `Seed`, makes its keys by `Seed::key`, and looks for bytes by `Seed::query`,
//! which makes no key. Keys of two seeds are different keys, also where their bytes are the same.
#![tactic(auto)]

mod hashed;
mod mixing;
mod number_seed;
mod padded;
mod query;
mod seed;
mod short;

pub use hashed::Hashed;
pub use number_seed::NumberSeed;
pub use padded::Padded;
pub use query::Query;
pub use seed::Seed;
pub use short::ShortBytes;
