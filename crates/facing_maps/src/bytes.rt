//! Calls of clients of maps from bytes to bytes.
ghost use Rattle.std.specs.Prelude.{◌≡◌, ◌≤◌, IfOk, option_copied};
ghost use Rattle.bin_history.specs.Ops.{call_on};
ghost use Rattle.facing_maps.specs.Answers.{answered};
ghost use Rattle.facing_maps.specs.Calls.{IsCalled, IsTried};
ghost use Rattle.facing_maps.specs.Changes.{exchange, length_in, longest_in, IsChanged, IsChangeTried, IsOrStays};
ghost use Rattle.facing_maps.specs.Functions.{no_value};
ghost use Rattle.facing_maps.specs.Keys.{key_of, same_key, same_bytes, longest, AreAllowed, IsRefusalOf};

use crate::changes::ExchangeBytes;
use crate::changing::{ChangeOutcome, try_change_at};
use crate::keys::{Keys, SeededKey};
use crate::seeded::try_at;
use crate::shared::SharedBytes;
use crate::stage::Stage;
use crate::status::{CallOutcome, MOST_BYTES, MOST_VALUE, NO_MEMORY, TOO_LONG};
use bin_history::Op;
use clients::OwnedClient;
use functions::NoFunction;
use hashkeys::Bytes;
use std::alloc::{AllocError, Global};

/// The call with values of its own in the place of these. It takes memory for each.
fn owned(
    alloc: Global,
    op: Op<Bytes<'_>, NoFunction>,
) -> Result<Op<SharedBytes, NoFunction>, AllocError>
    ensures { IfOk result (λ o. o ≡ op.entry) }
{
    Ok(match op {
        Op::Get => Op::Get,
        Op::Contains => Op::Contains,
        Op::Put(value) => Op::Put(SharedBytes::copy_of(alloc, value.0)?),
        Op::PutIfAbsent(value) => Op::PutIfAbsent(SharedBytes::copy_of(alloc, value.0)?),
        Op::Remove => Op::Remove,
        Op::RemoveIf(value) => Op::RemoveIf(SharedBytes::copy_of(alloc, value.0)?),
        Op::Replace(value) => Op::Replace(SharedBytes::copy_of(alloc, value.0)?),
        Op::ReplaceIf(old, new) => Op::ReplaceIf(
            SharedBytes::copy_of(alloc, old.0)?,
            SharedBytes::copy_of(alloc, new.0)?,
        ),
        Op::ComputeIfAbsent(function) => Op::ComputeIfAbsent(function),
        Op::ComputeIfPresent(function) => Op::ComputeIfPresent(function),
        Op::Compute(function) => Op::Compute(function),
        Op::Merge(value, function) => { Op::Merge(SharedBytes::copy_of(alloc, value.0)?, function) }
    })
}

/// How long the longest of a call's values is.
fn longest(op: &Op<Bytes<'_>, NoFunction>) -> usize
    ensures { result ≡ longest op.now }
{
    match op {
        Op::Get | Op::Contains | Op::Remove => 0,
        Op::Put(value) | Op::PutIfAbsent(value) | Op::RemoveIf(value) | Op::Replace(value) => {
            value.0.len()
        }
        Op::ReplaceIf(old, new) => old.0.len().max(new.0.len()),
        Op::ComputeIfAbsent(_) | Op::ComputeIfPresent(_) | Op::Compute(_) => 0,
        Op::Merge(value, _) => value.0.len(),
    }
}

/// Tries a call of a client on the key of these bytes, with copies of these values.
fn try_bytes_at(
    client: &mut OwnedClient<SeededKey, SharedBytes, NoFunction, Global>,
    keys: &mut Keys,
    key: &[u8],
    op: Op<Bytes<'_>, NoFunction>,
) -> CallOutcome<SharedBytes>
    ensures tried { IsTried same_key same_bytes no_value no_value
        (AreAllowed key.now (longest op.entry)) (IsRefusalOf key.now (longest op.entry)) client.old.map.ledger
        (call_on (key_of keys.old key.now) op.entry) client.old.pass client.new.pass result }
    ensures map { client.new.map ≡ client.old.map }
    ensures seed { keys.new ≡ keys.old }
{
    if longest(&op) > MOST_VALUE || key.len() > MOST_BYTES {
        return Err(TOO_LONG);
    }
    match owned(keys.allocator(), op) {
        Ok(op) => try_at(client, keys, key, op),
        Err(_) => Err(NO_MEMORY),
    }
}

/// Tries a call on the key of these bytes, with copies of these values, of the client that this is, if
/// it is one. It waits for nobody.
pub fn try_bytes(
    stage: &mut Stage<SeededKey, SharedBytes, NoFunction>,
    keys: &mut Keys,
    key: &[u8],
    op: Op<Bytes<'_>, NoFunction>,
) -> Option<CallOutcome<SharedBytes>>
    ensures called { IsCalled same_key same_bytes no_value no_value
        (AreAllowed key.now (longest op.entry)) (IsRefusalOf key.now (longest op.entry)) stage.old
        (call_on (key_of keys.old key.now) op.entry) stage.new (answered result) }
    ensures seed { keys.new ≡ keys.old }
{
    match stage {
        Stage::Client(client) => Some(try_bytes_at(client, keys, key, op)),
        _ => None,
    }
}

/// The value with bytes of its own, if there is one. It takes memory for them.
fn owned_value(alloc: Global, value: Option<&[u8]>) -> Result<Option<SharedBytes>, AllocError>
    ensures { IfOk result (λ owned. owned ≡ option_copied value.entry) }
{
    match value {
        Some(bytes) => Ok(Some(SharedBytes::copy_of(alloc, bytes)?)),
        None => Ok(None),
    }
}

/// How many bytes there are, if any.
fn length_of(bytes: Option<&[u8]>) -> usize
    ensures { result ≡ length_in (option_copied bytes.entry) }
{
    match bytes {
        Some(bytes) => bytes.len(),
        None => 0,
    }
}

/// Tries an exchange by a client on the key of these bytes, with a copy of this value.
fn try_exchange_at(
    client: &mut OwnedClient<SeededKey, SharedBytes, NoFunction, Global>,
    keys: &mut Keys,
    key: &[u8],
    expected: Option<&[u8]>,
    value: Option<&[u8]>,
) -> ChangeOutcome<SharedBytes>
    ensures tried { IsChangeTried same_key same_bytes no_value no_value
        (AreAllowed key.now (longest_in (option_copied expected.entry) (option_copied value.entry)))
        (IsRefusalOf key.now (longest_in (option_copied expected.entry) (option_copied value.entry)))
        (λ seen made. IsOrStays
        (exchange same_bytes (option_copied expected.entry) (option_copied value.entry) seen) made)
        client.old.map.ledger (key_of keys.old key.now) client.old.pass client.new.pass result }
    ensures map { client.new.map ≡ client.old.map }
    ensures seed { keys.new ≡ keys.old }
{
    if length_of(expected).max(length_of(value)) > MOST_VALUE || key.len() > MOST_BYTES {
        return Err(TOO_LONG);
    }
    match owned_value(keys.allocator(), value) {
        Ok(value) => try_change_at(client, keys, key, ExchangeBytes { expected, value }),
        Err(_) => Err(NO_MEMORY),
    }
}

/// Tries to give the key of these bytes a copy of this value, or none, where it has the value that is
/// expected, or none, by the client that this is, if it is one. It waits for nobody.
pub fn try_exchange_bytes(
    stage: &mut Stage<SeededKey, SharedBytes, NoFunction>,
    keys: &mut Keys,
    key: &[u8],
    expected: Option<&[u8]>,
    value: Option<&[u8]>,
) -> Option<ChangeOutcome<SharedBytes>>
    ensures changed { IsChanged same_key same_bytes no_value no_value
        (AreAllowed key.now (longest_in (option_copied expected.entry) (option_copied value.entry)))
        (IsRefusalOf key.now (longest_in (option_copied expected.entry) (option_copied value.entry)))
        (λ seen made. IsOrStays
        (exchange same_bytes (option_copied expected.entry) (option_copied value.entry) seen) made)
        stage.old (key_of keys.old key.now) stage.new (answered result) }
    ensures seed { keys.new ≡ keys.old }
{
    match stage {
        Stage::Client(client) => Some(try_exchange_at(client, keys, key, expected, value)),
        _ => None,
    }
}
