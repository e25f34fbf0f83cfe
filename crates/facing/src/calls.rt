//! Calls of clients.
ghost use Rattle.std.specs.Prelude.{◌≡◌};
ghost use Rattle.bin_history.specs.Ops.{call_on};
ghost use Rattle.facing_maps.specs.Answers.{answered};
ghost use Rattle.facing.specs.Calls.{IsNumberCalled, IsCountCalled, IsCountLooked, IsCountAsked};
ghost use Rattle.facing.specs.Calls.{IsBytesCalled, IsBytesLooked, IsBytesAsked, IsTold};

use crate::target::Target;
use bin_history::{KeyArg, Op};
use facing_maps::{CallOutcome, Merging, SharedBytes, try_bytes, try_has, try_look, try_on};
use functions::NoFunction;
use hashkeys::Bytes;

/// Tries a call of the client of a map of whole numbers that this is, if it is one. It waits for nobody.
pub(crate) fn try_number(
    target: &mut Target,
    key: u64,
    op: Op<u64, Merging>,
) -> Option<CallOutcome<u64>>
    ensures { IsNumberCalled target.old (λ k. call_on k op) key target.new (answered result) }
{
    match target {
        Target::Numbers(seed, stage) => stage.try_call(KeyArg::Owned(seed.mix(key)), op),
        _ => None,
    }
}

/// Tries a call of the client of a map from byte strings to whole numbers that this is, if it is
/// one. It waits for nobody.
pub(crate) fn try_count(
    target: &mut Target,
    key: &[u8],
    op: Op<u64, Merging>,
) -> Option<CallOutcome<u64>>
    ensures { IsCountCalled target.old (λ k. call_on k op) key.now target.new (answered result) }
{
    match target {
        Target::Counts(keys, stage) => try_on(stage, keys, key, op),
        _ => None,
    }
}

/// Tries to look at the number at a key, by the client that this is, if it is one. It waits for nobody.
pub(crate) fn try_look_count(target: &mut Target, key: &[u8]) -> Option<CallOutcome<u64>>
    ensures { IsCountLooked target.old key.now target.new (answered result) }
{
    match target {
        Target::Counts(keys, stage) => try_look(stage, keys, key),
        _ => None,
    }
}

/// Tries to look whether a key has a number, by the client that this is, if it is one. It waits for nobody.
pub(crate) fn try_has_count(target: &mut Target, key: &[u8]) -> Option<CallOutcome<u64>>
    ensures { IsCountAsked target.old key.now target.new (answered result) }
{
    match target {
        Target::Counts(keys, stage) => try_has(stage, keys, key),
        _ => None,
    }
}

/// Tries a call of the client of a map of byte strings that this is, if it is one. It waits for nobody.
pub(crate) fn try_byte(
    target: &mut Target,
    key: &[u8],
    op: Op<Bytes<'_>, NoFunction>,
) -> Option<CallOutcome<SharedBytes>>
    ensures { IsBytesCalled target.old op.entry key.now target.new (answered result) }
{
    match target {
        Target::Bytes(keys, stage) => try_bytes(stage, keys, key, op),
        _ => None,
    }
}

/// Tries to look at the value at a key, by the client that this is, if it is one: at most 22 bytes are
/// copied, and a longer value has an owner more. It waits for nobody.
pub(crate) fn try_look_bytes(target: &mut Target, key: &[u8]) -> Option<CallOutcome<SharedBytes>>
    ensures { IsBytesLooked target.old key.now target.new (answered result) }
{
    match target {
        Target::Bytes(keys, stage) => try_look(stage, keys, key),
        _ => None,
    }
}

/// Tries to look whether a key has a value, by the client that this is, if it is one. It waits for nobody.
pub(crate) fn try_has_bytes(target: &mut Target, key: &[u8]) -> Option<CallOutcome<SharedBytes>>
    ensures { IsBytesAsked target.old key.now target.new (answered result) }
{
    match target {
        Target::Bytes(keys, stage) => try_has(stage, keys, key),
        _ => None,
    }
}
