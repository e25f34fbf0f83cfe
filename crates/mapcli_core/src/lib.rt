//! What the program `mapcli` does, for any input and output: `words` reads a command line, `run`
//! runs a script of client blocks over a concurrent hash map, all clients at the same time, and
//! answers queries of it, and `status`, `line` and `tell` say how a run ended.
#![tactic(auto)]

mod answers;
mod client;
mod command;
mod device;
mod fault;
mod gate;
mod laws;
mod options;
mod play;
mod running;
mod tasks;
mod telling;
mod text;
mod whole;

pub use command::words;
pub use device::{DeviceError, Input, Output, Reader, Writer};
pub use fault::Fault;
pub use gate::{ClientGate, Gate, OpenGate};
pub use laws::{each_key, no_crossed_misses, one_output};
pub use options::Options;
pub use running::{parse, run};
pub use telling::{line, status, tell};
