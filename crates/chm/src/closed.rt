//! The end of a map, what is known of a closed one, and how it is opened again.

pub(crate) mod close;
pub(crate) mod quiet;
mod reopen;
pub(crate) mod shown;
mod single;
mod taken;
