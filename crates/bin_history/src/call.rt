//! Calls, and what they reply.
ghost use Rattle.std.specs.Prelude.{◌≡◌, Option, IfOk, option_copied};
ghost use Rattle.bin_history.specs.Calls.{key_of};
ghost use Rattle.bin_history.specs.Ops.{call_on};

use crate::op::Op;
use hashkeys::Exact;
use std::alloc::AllocError;

/// A remapping function of keys `K` and values `V`, which may answer that the key is to have no
/// value. It states which function it computes; it may fail only for want of memory.
pub trait Remap<K, V>: Exact + Drop {
    ghost remapped: { Self → K → Option V → Option V };

    ghost merged: { Self → V → V → Option V };

    /// The value that the key is to have, by the value that it has. The three compute calls ask it.
    fn remap(&self, key: &K, value: Option<&V>) -> Result<Option<V>, AllocError>
        ensures { IfOk result (λ r. r ≡ remapped self.now key.now (option_copied value.entry)) };

    /// The value that a present key is to have, by its value and the one given to a merge.
    fn merge(&self, old: &V, given: &V) -> Result<Option<V>, AllocError>
        ensures { IfOk result (λ r. r ≡ merged self.now old.now given.now) };
}

/// What a map may hold as values: whatever can be copied, compared and dropped.
pub trait Value: Exact + Eq + Drop {}

impl<V: Exact + Eq + Drop> Value for V {}

/// A call on a key, with its arguments.
#[derive(Drop)]
pub enum Call<K, V, F> {
    Get(K),
    Contains(K),
    Put(K, V),
    PutIfAbsent(K, V),
    Remove(K),
    RemoveIf(K, V),
    Replace(K, V),
    /// The value to be replaced, and the new one.
    ReplaceIf(K, V, V),
    ComputeIfAbsent(K, F),
    ComputeIfPresent(K, F),
    Compute(K, F),
    Merge(K, V, F),
}

/// What a call answers: the value at its key, if any, or whether something was so.
#[derive(Debug, Drop, PartialEq, Eq)]
pub enum Reply<V> {
    Value(Option<V>),
    Truth(bool),
}

impl<K, V, F> Call<K, V, F> {
    /// The key that the call is on.
    pub fn key(&self) -> &K
        ensures { result.now ≡ key_of self.now }
    {
        match self {
            Call::Get(key) => key,
            Call::Contains(key) => key,
            Call::Put(key, _) => key,
            Call::PutIfAbsent(key, _) => key,
            Call::Remove(key) => key,
            Call::RemoveIf(key, _) => key,
            Call::Replace(key, _) => key,
            Call::ReplaceIf(key, _, _) => key,
            Call::ComputeIfAbsent(key, _) => key,
            Call::ComputeIfPresent(key, _) => key,
            Call::Compute(key, _) => key,
            Call::Merge(key, _, _) => key,
        }
    }

    /// The call on this key.
    pub(crate) fn on(key: K, op: Op<V, F>) -> Call<K, V, F>
        ensures { result ≡ call_on key op }
    {
        match op {
            Op::Get => Call::Get(key),
            Op::Contains => Call::Contains(key),
            Op::Put(value) => Call::Put(key, value),
            Op::PutIfAbsent(value) => Call::PutIfAbsent(key, value),
            Op::Remove => Call::Remove(key),
            Op::RemoveIf(value) => Call::RemoveIf(key, value),
            Op::Replace(value) => Call::Replace(key, value),
            Op::ReplaceIf(old, new) => Call::ReplaceIf(key, old, new),
            Op::ComputeIfAbsent(function) => Call::ComputeIfAbsent(key, function),
            Op::ComputeIfPresent(function) => Call::ComputeIfPresent(key, function),
            Op::Compute(function) => Call::Compute(key, function),
            Op::Merge(value, function) => Call::Merge(key, value, function),
        }
    }

    /// The call's key, and the call without it.
    pub fn into_parts(self) -> (K, Op<V, F>)
        ensures { call_on result.0 result.1 ≡ self }
    {
        match self {
            Call::Get(key) => (key, Op::Get),
            Call::Contains(key) => (key, Op::Contains),
            Call::Put(key, value) => (key, Op::Put(value)),
            Call::PutIfAbsent(key, value) => (key, Op::PutIfAbsent(value)),
            Call::Remove(key) => (key, Op::Remove),
            Call::RemoveIf(key, value) => (key, Op::RemoveIf(value)),
            Call::Replace(key, value) => (key, Op::Replace(value)),
            Call::ReplaceIf(key, old, new) => (key, Op::ReplaceIf(old, new)),
            Call::ComputeIfAbsent(key, function) => (key, Op::ComputeIfAbsent(function)),
            Call::ComputeIfPresent(key, function) => (key, Op::ComputeIfPresent(function)),
            Call::Compute(key, function) => (key, Op::Compute(function)),
            Call::Merge(key, value, function) => (key, Op::Merge(value, function)),
        }
    }
}

impl<K: Drop, V: Drop, F: Drop> Call<K, V, F> {
    /// The key, without the rest of the call.
    pub(crate) fn into_key(self) -> K
        ensures { result ≡ key_of self }
    {
        match self {
            Call::Get(key) => key,
            Call::Contains(key) => key,
            Call::Put(key, _) => key,
            Call::PutIfAbsent(key, _) => key,
            Call::Remove(key) => key,
            Call::RemoveIf(key, _) => key,
            Call::Replace(key, _) => key,
            Call::ReplaceIf(key, _, _) => key,
            Call::ComputeIfAbsent(key, _) => key,
            Call::ComputeIfPresent(key, _) => key,
            Call::Compute(key, _) => key,
            Call::Merge(key, _, _) => key,
        }
    }
}
