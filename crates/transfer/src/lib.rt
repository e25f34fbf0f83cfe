//! The strides of a move. While a table of bins doubles, its opener and any helpers move the bins,
//! 16 at a time. A `Strides` hands out the ranges of one move, each to one mover, and tells one of
//! them that with its range all bins are finished.
//!
//! A mover is the right to take part. A move has 64: the opener's, and 63 that lie in places of
//! their own until somebody enters. Each step is one fetch_add on one of two words.
//!
//! A `SharedStrides` has a mover for each client, which takes it up and puts it back again and
//! again, so that a move of a table of up to 2^26 bins goes in steps of one range each.
//! Nothing waits, and only `Strides::new` and `SharedStrides::new` take memory.
#![tactic(auto)]

mod again;
mod book;
mod mover;
mod range;
mod steps;
mod strides;

pub use again::SharedStrides;
pub use mover::Mover;
pub use range::{Finish, Range, STRIDE};
pub use strides::Strides;
