//! Workers that share the work on a range of bins. A body says what a leaf, a part of the
//! range, gives, and how parts side by side are joined. `run` halves the range into a tree of
//! counted completers, and its workers take the leaves: each pushes what it forks to a
//! deque of its own, takes its newest task, or else the oldest of another worker's.
//! What `run` answers is the part of the whole range, whoever did which leaf. A run ends with a
//! settlement: each task that was pushed was taken once. The parts of a run are public as well:
//! tests of what only they show use them.
#![tactic(auto)]

mod body;
mod crew;
mod deque;
mod finished;
mod gate;
mod job;
mod labor;
mod limits;
mod log;
mod member;
mod order;
mod pool;
mod rule;
mod seats;
mod settle;
mod task;
mod way;

pub use body::Body;
pub use crew::members;
pub use deque::Own;
pub use finished::{Finished, Tasks};
pub use gate::{Gate, OpenGate};
pub use limits::MOST_WORKERS;
pub use member::Member;
pub use order::Order;
pub use pool::{new_deques, nodes_for, run, run_order};
pub use seats::Seats;
pub use settle::close;
pub use way::Way;
