//! A concurrent hash map with its clients: the map and what its calls name, keys and functions ready
//! to use, a team of clients that work on one map in threads, and a shared map whose clients come
//! and go.
#![tactic(auto)]

mod calls;
mod clearing;
mod client;
mod client_fault;
mod computed;
mod filling;
mod finding;
mod folding;
mod holder;
mod inserting;
mod lent;
mod letter;
mod making;
mod modifying;
mod moments;
mod not_closed;
mod owned;
mod parked;
mod pass_pool;
mod pass_slot;
mod printing;
mod reading;
mod replacing;
mod retaining;
mod seeking;
mod shared;
mod shown;
mod slot;
mod stats;
mod team;
mod unshared;
mod update;
mod updating;
mod viewing;
mod walking;
mod work;

pub use chm::{
    AsKey, ByteString, Bytes, Call, Change, Class, Cursor, Entries, Exact, Fault, Form, HashKey,
    Key, KeyArg, MOST_BINS, MOST_CALLS, MOST_CLIENTS, MOST_LEAN_CALLS, MOST_LEAN_CLIENTS, MakesKey,
    Map, Moment, NotClosed, NotClosedWith, NotMade, NotRetained, Op, Opened, Pass, Quiet, Remap,
    Reply, Roster, Salt, Sharing, ShownQuiet, Started, Text, Value, Visit, retire_all,
};
pub use client::ClientOf;
pub use client_fault::ClientFault;
pub use computed::Computed;
pub use functions::{Add, Boxed, Greatest, ListOf, NoFunction, Set, Shared};
pub use holder::{Holder, Seat};
pub use lent::{Client, Lent, Loan};
pub use letter::{About, Letter};
pub use owned::{Owned, OwnedClient, OwnedPass};
pub use parked::{Worked, Working};
pub use printing::ShownEntries;
pub use replacing::NotReplaced;
pub use shared::SharedMap;
pub use stats::Stats;
pub use team::{Team, TeamNotClosed};
pub use unshared::{SharedNotClosed, Unshared};
pub use update::{ByValue, Update};
pub use work::Work;
