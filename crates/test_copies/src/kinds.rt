//! A call of each kind.
use bin_history::Call;

/// The values and the function of a call.
pub(crate) struct Given<V, F> {
    /// The value that a call expects at its key.
    pub(crate) old: V,
    /// The value that a call puts there.
    pub(crate) new: V,
    pub(crate) function: F,
}

/// The call of a kind, from 0 to 11, on this key.
pub(crate) fn call_of_kind<K: Drop, V: Drop, F: Drop>(
    kind: usize,
    key: K,
    given: Given<V, F>,
) -> Call<K, V, F> {
    let Given { old, new, function } = given;
    match kind {
        0 => Call::Get(key),
        1 => Call::Contains(key),
        2 => Call::Put(key, new),
        3 => Call::PutIfAbsent(key, new),
        4 => Call::Remove(key),
        5 => Call::RemoveIf(key, old),
        6 => Call::Replace(key, new),
        7 => Call::ReplaceIf(key, old, new),
        8 => Call::ComputeIfAbsent(key, function),
        9 => Call::ComputeIfPresent(key, function),
        10 => Call::Compute(key, function),
        _ => Call::Merge(key, new, function),
    }
}
