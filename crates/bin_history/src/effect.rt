//! What a call does to the value at its key, and what it answers.
ghost use Rattle.std.specs.Prelude.{◌≡◌, IfOk, IsOk, option_copied};
ghost use Rattle.bin_history.specs.Changes.{reply_of, left_by};
ghost use Rattle.bin_history.specs.Ops.{value_of};
ghost use Rattle.bin_history.specs.Sure.{IsNeverRefused};
ghost use Rattle.bin_history.specs.declared.effect.Effect.TheVariants.{Give};

use crate::call::Reply;
use crate::op::Op;
use bin_entries::copy_of_option;
use hashkeys::Exact;
use std::alloc::AllocError;

/// What a call does to the value at its key.
#[derive(Drop)]
pub enum Effect<V> {
    Keep,
    /// The key gets the value that the call brings.
    Give,
    Set(Option<V>),
}

/// What a prepared call answers, as contracts see it.
#[derive(Drop)]
pub enum Answer<V> {
    /// This reply.
    Known(Reply<V>),
    /// The value that the call takes away.
    Taken,
}

impl<V> Effect<V> {
    /// The value that the effect of a call leaves.
    #[inline(always)]
    pub(crate) fn left<'a, F>(&'a self, op: &'a Op<V, F>, before: Option<&'a V>) -> Option<&'a V>
        ensures { option_copied result ≡ left_by op.now self.now (option_copied before.entry) }
    {
        match self {
            Effect::Keep => before,
            Effect::Give => op.value(),
            Effect::Set(value) => value.as_ref(),
        }
    }
}

impl<V: Exact> Effect<V> {
    /// A copy of the value that the call brings, where the effect is to give it.
    pub(crate) fn copy_given<F>(&self, op: &Op<V, F>) -> Result<Option<V>, AllocError>
        ensures value { IfOk result (λ value. self.now ≡ Give → value ≡ value_of op.now) }
        ensures succeeds { IsNeverRefused V.is_infallible → IsOk result }
    {
        match self {
            Effect::Give => copy_of_option(op.value()),
            Effect::Keep | Effect::Set(_) => Ok(None),
        }
    }
}

impl<V: Drop> Answer<V> {
    /// The reply, by the value that the call took away.
    #[inline(always)]
    pub(crate) fn reply(self, taken: Option<V>) -> Reply<V>
        ensures { result ≡ reply_of self taken }
    {
        match self {
            Answer::Known(reply) => reply,
            Answer::Taken => Reply::Value(taken),
        }
    }
}
