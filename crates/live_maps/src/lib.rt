//! Bulk operations on a shared map that others call meanwhile, and on a team's map that stays open.
//! The clients that are free, or all clients of the team, each walk over a share of the buckets;
//! `live_bulk` says what they see.
#![tactic(auto)]

mod moments;
mod ordered;
mod shared;
mod team;

pub use live_bulk::{LiveFault, clients_for};
pub use ordered::{live_for_each_after, live_reduce_after, live_search_after};
pub use shared::{live_for_each, live_reduce, live_search};
pub use team::{team_for_each, team_reduce, team_search};
