//! A concurrent hash map, in one import: the map and its clients, keys and functions ready to use,
//! a bounded cache, bulk operations on a closed map, and on one that others call meanwhile.
#![tactic(auto)]

/// Bulk operations on a closed map.
pub use bulk_tasks as bulk;
/// A bounded cache that many threads call at once.
pub use caches::{Cache, CacheClient, CacheCounts, CacheEntry};
pub use clients::{
    About, Add, AsKey, Boxed, ByValue, ByteString, Bytes, Call, Change, Class, Client, ClientFault,
    ClientOf, Computed, Cursor, Entries, Exact, Fault, Form, Greatest, HashKey, Holder, Key,
    KeyArg, Lent, Letter, ListOf, Loan, MOST_BINS, MOST_CALLS, MOST_CLIENTS, MOST_LEAN_CALLS,
    MOST_LEAN_CLIENTS, MakesKey, Map, Moment, NoFunction, NotClosed, NotClosedWith, NotMade,
    NotReplaced, NotRetained, Op, Opened, Owned, OwnedClient, OwnedPass, Pass, Quiet, Remap, Reply,
    Roster, Salt, Seat, Set, Shared, SharedMap, SharedNotClosed, Sharing, ShownEntries, ShownQuiet,
    Started, Stats, Team, TeamNotClosed, Text, Unshared, Update, Value, Visit, Work, Worked,
    Working, retire_all,
};
/// Bulk operations on a map that others call meanwhile.
pub use live_maps as live;
/// A set that many threads call at once.
pub use sets::{SetClient, SharedSet};
/// The map for text from outside.
pub use text_maps::{
    ClosedSeeded, ClosedTexts, Hashed, Query, Seed, SeededMap, TextClient, TextFault, TextMap,
    TextNotClosed,
};
