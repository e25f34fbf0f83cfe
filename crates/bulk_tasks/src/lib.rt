//! Bulk operations on a closed map: `reduce`, `reduce_based`, `search` and `for_each`. Each halves
//! the range of the map's bins into tasks, which the workers of a pool share, and returns what one
//! thread returns that goes over the entries in walk order, whoever did which task.
#![tactic(auto)]

mod acting;
mod batches;
mod collector;
mod fault;
mod gather;
mod operations;
mod plan;
mod reducers;
mod reducing;
mod searching;
mod stepping;
mod traits;
mod unsigned;

pub use acting::for_each;
pub use batches::batch;
pub use fault::BulkFault;
pub use operations::Bulk;
pub use plan::Plan;
pub use reducers::{Greatest, Sum};
pub use reducing::{reduce, reduce_based};
pub use searching::search;
pub use steal_pool::{Gate, MOST_WORKERS, OpenGate};
pub use traits::{Action, BasedReducer, Probe, Reducer};
