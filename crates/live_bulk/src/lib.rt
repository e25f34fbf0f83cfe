//! Bulk operations on a map that others call meanwhile: `live_reduce`, `live_search` and
//! `live_for_each`. The indexes of the table are shared out among clients, each of which walks over
//! the buckets of its share in a thread of its own, and sees each as all calls before had left it.
//! Together they have every hash once, so no key is shown twice. What they make of the entries is
//! what one thread makes of them, in walk order.
#![tactic(auto)]

mod acting;
mod clients;
mod fault;
mod folding;
mod gather;
mod searching;
mod visiting;
mod working;

pub use acting::live_for_each;
pub use clients::clients_for;
pub use fault::LiveFault;
pub use folding::live_reduce;
pub use searching::live_search;
