//! Calls as contracts know them.
ghost use Rattle.std.specs.Prelude.{◌≡◌, Some, None, option_copied};
ghost use Rattle.bin_history.specs.Ops.{call_on};
ghost use Rattle.bin_history.specs.Readiness.{call_seen, call_to, value_seen};
ghost use Rattle.bin_history.specs.declared.call.Call.TheVariants.{Contains, Put};

use crate::call::Call;
use crate::op::Op;
use crate::seen_key::SeenKey;
use hashkeys::{AsKey, HashKey};
use std::snapshot::Snapshot;

/// A call in contracts alone: whole, or its key and what is left of it, or a put of a value that a
/// function left where it lies. Nothing of it is stored.
#[derive(Drop)]
pub(crate) enum SeenCall<K, V, F> {
    Whole(Snapshot<Call<K, V, F>>),
    Parts(SeenKey<K>, Snapshot<Op<V, F>>),
    PutThere(SeenKey<K>, Snapshot<V>),
}

/// A call, and the values just before it and just after it, where there are any. Of the values it
/// stores whether there are any; what they are, and the call, is in contracts alone.
#[derive(Drop)]
pub(crate) struct Seen<K, V, F> {
    pub(crate) call: SeenCall<K, V, F>,
    pub(crate) before: Option<Snapshot<V>>,
    pub(crate) after: Option<Snapshot<V>>,
}

/// A value, if there is one, in contracts alone.
#[inline(always)]
pub(crate) fn value_seen<V>(value: Option<&V>) -> Option<Snapshot<V>>
    ensures { value_seen result ≡ option_copied value.entry }
{
    match value {
        Some(inner) => Some(Snapshot::of(inner)),
        None => None,
    }
}

impl<K: HashKey, V, F> Seen<K, V, F> {
    /// A call on the key that this stands for, and the values before and after it.
    #[inline(always)]
    pub(crate) fn of<Q: AsKey<K>>(
        query: Q,
        op: &Op<V, F>,
        before: Option<&V>,
        after: Option<&V>,
    ) -> Seen<K, V, F>
        ensures call { call_seen result.call ≡ call_on (Q.stands_for query) op.now }
        ensures before { value_seen result.before ≡ option_copied before.entry }
        ensures after { value_seen result.after ≡ option_copied after.entry }
    {
        Seen {
            call: SeenCall::Parts(SeenKey::of_query(query), Snapshot::of(op)),
            before: value_seen(before),
            after: value_seen(after),
        }
    }

    /// A call on the key that this stands for that takes this value away.
    #[inline(always)]
    pub(crate) fn of_taken<Q: AsKey<K>>(query: Q, op: &Op<V, F>, taken: Option<&V>) -> Seen<K, V, F>
        ensures call { call_seen result.call ≡ call_on (Q.stands_for query) op.now }
        ensures before { value_seen result.before ≡ option_copied taken.entry }
        ensures after { value_seen result.after ≡ None }
    {
        Seen {
            call: SeenCall::Parts(SeenKey::of_query(query), Snapshot::of(op)),
            before: value_seen(taken),
            after: None,
        }
    }

    /// A put of a value at the key that this stands for, where another was.
    #[inline(always)]
    pub(crate) fn of_change<Q: AsKey<K>>(
        query: Q,
        before: Snapshot<V>,
        put: Snapshot<V>,
        after: Snapshot<V>,
    ) -> Seen<K, V, F>
        ensures call { call_seen result.call ≡ Put (Q.stands_for query) put.value }
        ensures before { value_seen result.before ≡ Some before.value }
        ensures after { value_seen result.after ≡ Some after.value }
    {
        Seen {
            call: SeenCall::PutThere(SeenKey::of_query(query), put),
            before: Some(before),
            after: Some(after),
        }
    }

    /// A question whether the key that this stands for has a value, where it has none.
    #[inline(always)]
    pub(crate) fn of_absent<Q: AsKey<K>>(query: Q) -> Seen<K, V, F>
        ensures call { call_seen result.call ≡ Contains (Q.stands_for query) }
        ensures before { value_seen result.before ≡ None }
        ensures after { value_seen result.after ≡ None }
    {
        Seen {
            call: SeenCall::Parts(SeenKey::of_query(query), Snapshot::of(&Op::Contains)),
            before: None,
            after: None,
        }
    }

    /// The call by which a key gets this value, or none, and the values before and after it.
    #[inline(always)]
    pub(crate) fn of_update(
        key: SeenKey<K>,
        before: Option<Snapshot<V>>,
        put: Option<Snapshot<V>>,
        after: Option<Snapshot<V>>,
    ) -> Seen<K, V, F>
        ensures call { call_seen result.call ≡ call_to key.value (value_seen put) }
        ensures before { result.before ≡ before }
        ensures after { result.after ≡ after }
    {
        match put {
            Some(put) => Seen {
                call: SeenCall::PutThere(key, put),
                before,
                after,
            },
            None => Seen {
                call: SeenCall::Parts(key, Snapshot::of(&Op::Remove)),
                before,
                after,
            },
        }
    }
}
