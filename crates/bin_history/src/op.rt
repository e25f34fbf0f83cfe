//! Calls without their keys.
ghost use Rattle.std.specs.Prelude.{◌≡◌, option_copied};
ghost use Rattle.bin_history.specs.Ops.{may_add, value_of};

/// A call without the key that it is on, with its other arguments.
#[derive(Drop)]
pub enum Op<V, F> {
    Get,
    Contains,
    Put(V),
    PutIfAbsent(V),
    Remove,
    RemoveIf(V),
    Replace(V),
    /// The value to be replaced, and the new one.
    ReplaceIf(V, V),
    ComputeIfAbsent(F),
    ComputeIfPresent(F),
    Compute(F),
    Merge(V, F),
}

impl<V, F> Op<V, F> {
    /// Whether the call may give a value to a key that has none.
    pub(crate) fn may_add(&self) -> bool
        ensures { result ≡ may_add self.now }
    {
        match self {
            Op::Put(_)
            | Op::PutIfAbsent(_)
            | Op::ComputeIfAbsent(_)
            | Op::Compute(_)
            | Op::Merge(_, _) => true,
            Op::Get
            | Op::Contains
            | Op::Remove
            | Op::RemoveIf(_)
            | Op::Replace(_)
            | Op::ReplaceIf(_, _)
            | Op::ComputeIfPresent(_) => false,
        }
    }

    /// The value that the call may give its key, where it brings one.
    #[inline(always)]
    pub(crate) fn value(&self) -> Option<&V>
        ensures { option_copied result ≡ value_of self.now }
    {
        match self {
            Op::Put(value) | Op::PutIfAbsent(value) | Op::Replace(value) => Some(value),
            Op::ReplaceIf(_, new) => Some(new),
            Op::Merge(value, _) => Some(value),
            Op::Get | Op::Contains | Op::Remove | Op::RemoveIf(_) => None,
            Op::ComputeIfAbsent(_) | Op::ComputeIfPresent(_) | Op::Compute(_) => None,
        }
    }
}

impl<V: Drop, F: Drop> Op<V, F> {
    /// The value that `value` shows.
    #[inline(always)]
    pub(crate) fn into_value(self) -> Option<V>
        ensures { result ≡ value_of self }
    {
        match self {
            Op::Put(value) | Op::PutIfAbsent(value) | Op::Replace(value) => Some(value),
            Op::ReplaceIf(_, new) => Some(new),
            Op::Merge(value, _) => Some(value),
            Op::Get | Op::Contains | Op::Remove | Op::RemoveIf(_) => None,
            Op::ComputeIfAbsent(_) | Op::ComputeIfPresent(_) | Op::Compute(_) => None,
        }
    }
}
