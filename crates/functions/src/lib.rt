//! Functions of values, ready to be those of a map: none, and for merges the sum, the greatest, and
//! the one given. Types of values: lists, values in boxes of their own, and values with several
//! owners.
#![tactic(auto)]

mod boxed;
mod list_of;
mod nothing;
mod numbers;
mod shared;
mod signed;
mod unsigned;

pub use boxed::Boxed;
pub use list_of::ListOf;
pub use nothing::NoFunction;
pub use numbers::{Add, Greatest, Set};
pub use shared::Shared;
