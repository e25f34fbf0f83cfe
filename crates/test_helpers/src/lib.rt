//! What the crates of tests share: values that ask for memory where they are copied, functions of a
//! value, and ledgers that end.
#![tactic(auto)]

mod books;
mod functions;
mod values;

pub use books::settled;
pub use functions::{Keep, Plus};
pub use values::{Alloc, Answer, Number};
