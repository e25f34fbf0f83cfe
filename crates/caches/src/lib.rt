//! A bounded cache that many threads call at once: a shared map of entries, each with a deadline, of which
//! those that were not used lately go where it is full.
#![tactic(auto)]

mod cache;
mod cache_client;
mod counts;
mod entry;
mod evicting;
mod laws;

pub use cache::Cache;
pub use cache_client::CacheClient;
pub use counts::CacheCounts;
pub use entry::CacheEntry;
pub use laws::{a_get_puts_nothing, what_is_there_was_put_last};
