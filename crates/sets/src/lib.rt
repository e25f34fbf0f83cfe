//! A set that many threads call at once: a shared map whose values are nothing.
#![tactic(auto)]

mod set_client;
mod shared_set;

pub use set_client::SetClient;
pub use shared_set::SharedSet;
