//! The script language of `mapcli`: scripts, their texts, and the faults of texts that are none.
#![tactic(auto)]

mod bytes;
mod command;
mod draft;
mod fault;
mod forms;
mod function;
mod laws;
mod line;
mod number;
mod script;
mod text;
mod words;

pub use fault::{Fault, Kind, ParseError};
pub use function::Function;
pub use laws::{one_verdict, scripts_are_within_limits};
pub use script::{Query, Script, ScriptCall};
pub use text::parse;
