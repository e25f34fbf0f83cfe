//! Maps for the crates of tests: made in either form, with the pass of one client taken out, and
//! closed. Nothing here ends a test: what goes wrong is answered.
#![tactic(auto)]

mod samples;

pub use samples::{
    BOTH, Single, close, close_single, numbered_text, open, open_salted, open_single, put_back,
    take_pass,
};
