//! The concurrent hash map: `chm` is short for it. Many threads call one map of keys to values at the
//! same time.
//!
//! # Locking
//!
//! A table consists of bins, which other maps call buckets. A call locks the bin of its key, makes its
//! change there, posts it to the books of its client and of the bin, and unlocks the bin. Where
//! another call has the bin locked, it spins, then yields. A function without a bound `Wait` waits for
//! nobody.
//!
//! # Order
//!
//! The map is linearizable as far as its clients can tell. There is one order of all calls, in which
//! each call returns what a map of one thread returns. In this order a call comes after every call
//! that its client had seen: the client's own, those before them, and those that it looked up, walked
//! over or learned of by a `Moment` of another client. No contract orders two calls between which
//! nothing was handed over.
//!
//! # Growth
//!
//! The table grows while it is called. A call that made its key present, in a full table, opens a move
//! to twice as many bins. A mover takes 16 bins at a time: in a recorded map until none is left, in a
//! lean one once, as does each other call while the move is open. A recorded table is full with three
//! keys to four bins, and grows to 65,536 bins. A lean table is full with one key to four bins while it
//! has fewer than 256 bins, so that few keys share a bin, and with three keys to two bins from then
//! on; it grows to 2^26 bins. From 1,024 lean bins on, a client counts the keys once for 16 keys that
//! it adds. A move never waits: it skips a bin that is locked, and the next call on that bin moves it.
//! So a call waits for its own bin alone, and a move that fails does not fail the call.
//!
//! # Source files
//!
//! - `calls/`: what a client's call does at its key; `calls.rt` has the twelve calls.
//! - `walks/`: what goes over the whole map, bin by bin: walks, a clear and a retain.
//! - `resize/`: how the table grows: when, how far, and who moves which bins.
//! - `closed/`: the end of a map, what is known of a closed one, and how it is opened again.
//! - `map.rt`: the map and how it is opened; `joining.rt`, `moments.rt` and `share.rt`: its clients;
//!   `fault.rt`: what calls fail with.
#![tactic(auto)]

mod calls;
mod closed;
mod debug;
mod fault;
mod joining;
mod laws;
mod map;
mod moments;
mod resize;
mod share;
mod walks;

pub use bin_history::{Call, Exact, Form, KeyArg, Op, Remap, Reply, Value};
pub use calls::not_made::NotMade;
pub use calls::update::Change;
pub use closed::close::{NotClosed, NotClosedWith};
pub use closed::quiet::{Entries, Quiet};
pub use closed::shown::ShownQuiet;
pub use count_ledger::{
    MOST_CALLS, MOST_CLIENTS, MOST_LEAN_CALLS, MOST_LEAN_CLIENTS, Moment, Pass, Roster, retire_all,
};
pub use fault::Fault;
pub use hashkeys::{
    AsKey, ByteString, Bytes, Class, HashKey, Key, MOST_BINS, MakesKey, Salt, Text,
};
pub use laws::laws_of_classes;
pub use map::{Map, Opened, Started};
pub use part_walks::{PartWalk, Taker};
pub use resize::policy::MOST_RECORDED_BINS;
pub use share::Sharing;
pub use walks::cursor::Cursor;
pub use walks::not_retained::NotRetained;
pub use walks::numbered::{END_OF_WALK, Step};
pub use walks::visit::Visit;
