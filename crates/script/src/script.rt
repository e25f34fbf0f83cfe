//! Scripts: blocks of calls, one a client, and then queries.

use crate::function::Function;
use bin_history::Call;
use hashkeys::Key;
use std::alloc::Allocator;

/// A call of a script.
pub type ScriptCall = Call<Key, i64, Function>;

/// A question that is asked of the map once all clients have ended. Thresholds say from how many
/// keys on the work may be divided; they change no answer.
#[derive(Debug, Drop, PartialEq, Eq)]
pub enum Query {
    /// The number of keys.
    Count,
    /// The sum of all values.
    ReduceSum(u64),
    /// The greatest value, if there is one.
    ReduceMax(u64),
    /// A value above the given one, if there is one, with the threshold.
    SearchAbove(i64, u64),
    /// All pairs, in byte order of their keys.
    List(u64),
}

/// A script that was read: the calls of each client, in their order, and the queries. There are 1
/// to 32 blocks, of at most 1,000,000 calls each.
#[derive(Drop)]
pub struct Script<A: Allocator> {
    pub blocks: Vec<Vec<ScriptCall, A>, A>,
    pub queries: Vec<Query, A>,
}
