//! The maps for programs in C and in languages that call C: from whole numbers to whole numbers, from
//! byte strings to byte strings, and from byte strings to whole numbers.
//!
//! Each export tries its work, waits for nobody, and says so where another thread was in its way: the
//! functions of the headers then try again. A handle stands for an open map, for one of its clients, for
//! a closed map, or for a value that is held. An export takes it and gives it back through `out`, so one
//! call has it at a time. Null, or a handle of something else, is answered by a status, and nothing is
//! touched then; so is a key of more than 65,536 bytes, or a value of more than 2^29.
#![tactic(auto)]

mod bytes;
mod calls;
mod closed;
mod counts;
mod exchanges;
mod handle;
mod held;
mod maps;
mod numbers;
mod owners;
mod pairs;
mod target;

pub use handle::{FacingHandle, FacingOut};
pub use pairs::FacingSizes;
