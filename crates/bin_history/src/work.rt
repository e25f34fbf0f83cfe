//! A call worked out, by the value at its key.
ghost use Rattle.std.specs.Prelude.{◌≡◌, false, IfOk, IsOk, option_copied};
ghost use Rattle.bin_history.specs.Calls.{is_value};
ghost use Rattle.bin_history.specs.Changes.{IsWork};
ghost use Rattle.bin_history.specs.Effects.{effect_of, holds};
ghost use Rattle.bin_history.specs.Sure.{IsNeverRefused, asks, copies_none};

use crate::call::{Remap, Reply, Value};
use crate::effect::{Answer, Effect};
use crate::op::Op;
use bin_entries::copy_of_option;
use std::alloc::AllocError;

/// What a call does, and what it answers.
#[derive(Drop)]
pub(crate) struct Work<V> {
    pub(crate) effect: Effect<V>,
    pub(crate) answer: Answer<V>,
}

/// Whether the value is this one.
#[inline(always)]
fn is_value<V: Eq>(value: Option<&V>, other: &V) -> bool
    ensures { result ≡ is_value V.eq (option_copied value.entry) other.now }
{
    match value {
        Some(inner) => inner == other,
        None => false,
    }
}

/// What a call that answers whether something is so finds, by the value before it.
#[inline(always)]
fn holds<V: Eq, F>(op: &Op<V, F>, before: Option<&V>) -> bool
    ensures { result ≡ holds V.eq op.now (option_copied before.entry) }
{
    match op {
        Op::Contains => before.is_some(),
        Op::RemoveIf(value) => is_value(before, value),
        Op::ReplaceIf(old, _) => is_value(before, old),
        _ => false,
    }
}

// What a call does is one table and what it answers another: the toolchain drops `inline(always)` from a
// function that would be much larger.

/// What a call on the key does, by the value before it and by what `holds` answers. The call's
/// function is asked once at most.
#[inline(always)]
fn effect_of<K, V: Value, F: Remap<K, V>>(
    key: &K,
    op: &Op<V, F>,
    before: Option<&V>,
    is_so: bool,
) -> Result<Effect<V>, AllocError>
    requires { is_so ≡ holds V.eq op.now (option_copied before) }
    ensures effect { IfOk result (λ effect. effect
        ≡ effect_of V.eq F.remapped F.merged key.now op.now (option_copied before.entry)) }
    ensures succeeds { asks op.now (option_copied before.entry) ≡ false → IsOk result }
{
    let is_there = before.is_some();
    Ok(match op {
        Op::Get | Op::Contains => Effect::Keep,
        Op::Put(_) => Effect::Give,
        Op::Remove => Effect::Set(None),
        Op::PutIfAbsent(_) if is_there => Effect::Keep,
        Op::PutIfAbsent(_) => Effect::Give,
        Op::Replace(_) if is_there => Effect::Give,
        Op::Replace(_) => Effect::Keep,
        Op::RemoveIf(_) if is_so => Effect::Set(None),
        Op::ReplaceIf(_, _) if is_so => Effect::Give,
        Op::RemoveIf(_) | Op::ReplaceIf(_, _) => Effect::Keep,
        Op::ComputeIfAbsent(_) if is_there => Effect::Keep,
        Op::ComputeIfPresent(_) if !is_there => Effect::Keep,
        Op::ComputeIfAbsent(function) | Op::ComputeIfPresent(function) | Op::Compute(function) =>
            Effect::Set(function.remap(key, before)?),
        Op::Merge(value, function) => match before {
            Some(old) => Effect::Set(function.merge(old, value)?),
            None => Effect::Give,
        },
    })
}

/// What the call on the key does and what it answers, by the value before it. The call's function
/// is asked once at most, and one copy of a value is made at most.
#[inline(always)]
pub(crate) fn work_of<K, V: Value, F: Remap<K, V>>(
    key: &K,
    op: &Op<V, F>,
    before: Option<&V>,
) -> Result<Work<V>, AllocError>
    ensures work { IfOk result
        (λ work. IsWork V.eq F.remapped F.merged key.now op.now (option_copied before.entry) work) }
    ensures succeeds { (copies_none op.now ≡ false → IsNeverRefused V.is_infallible) →
        asks op.now (option_copied before.entry) ≡ false → IsOk result }
{
    let is_so = holds(op, before);
    let effect = effect_of(key, op, before, is_so)?;
    let shown = match op {
        Op::Get | Op::PutIfAbsent(_) => before,
        Op::ComputeIfAbsent(_) | Op::ComputeIfPresent(_) | Op::Compute(_) | Op::Merge(_, _) => {
            effect.left(op, before)
        }
        Op::Put(_) | Op::Remove | Op::Replace(_) => {
            return Ok(Work {
                effect,
                answer: Answer::Taken,
            });
        }
        Op::Contains | Op::RemoveIf(_) | Op::ReplaceIf(_, _) => {
            return Ok(Work {
                effect,
                answer: Answer::Known(Reply::Truth(is_so)),
            });
        }
    };
    let answer = Answer::Known(Reply::Value(copy_of_option(shown)?));
    Ok(Work { effect, answer })
}
