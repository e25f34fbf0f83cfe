//! What the exports of the C library share, whatever a map's keys and values are: maps from their
//! opening to their close, calls of clients, keys under a seed, and statuses.
#![tactic(auto)]

mod bytes;
mod calls;
mod changes;
mod changing;
mod closed;
mod copying;
mod exchanged;
mod keys;
mod laying;
mod merging;
mod pairs;
mod seeded;
mod shared;
mod stage;
mod status;

pub use bytes::{try_bytes, try_exchange_bytes};
pub use changes::{AddUpTo, Exchange};
pub use changing::{ChangeOutcome, ChangeReply, Changed, Changing, try_change_on};
pub use closed::ClosedMap;
pub use copying::copy_into;
pub use exchanged::{FacingExchanged, tell_added, tell_exchanged, tell_exchanged_bytes};
pub use keys::{Keys, SeededKey};
pub use laying::{Heads, Laying, Whole};
pub use merging::Merging;
pub use pairs::{Pairs, Seen, copy_numbers, copy_pairs, total};
pub use seeded::{find, try_has, try_look, try_on};
pub use shared::SharedBytes;
pub use stage::Stage;
pub use status::{
    BAD_CAPACITY, BAD_CLIENTS, BAD_PLACE, BIN_MISSING, BUSY, CLIENT_FULL, CLIENT_OUT, CallOutcome,
    DONE, FacingAnswer, MOST_BYTES, MOST_VALUE, NO_CLIENT, NO_MEMORY, NO_ROOM, TOO_LONG,
    WRONG_HANDLE, answered, code_of, show_whole, status_in, tell, tell_bytes, tell_length,
    tell_whole,
};
