//! Calls of clients whose keys are bytes under a seed, and what is read of closed maps of such keys. A
//! key that is too long is refused, and only where the handle is a right one.
ghost use Rattle.std.specs.Prelude.{◌≡◌, ◌≤◌, IfOk, IsOk, ⊤, length, option_copied, is_some};
ghost use Rattle.bin_history.specs.Calls.{after};
ghost use Rattle.bin_history.specs.Ops.{call_on};
ghost use Rattle.bin_history.specs.Sure.{IsNeverRefused};
ghost use Rattle.bin_history.specs.declared.call.Reply.TheVariants.{Value, Truth};
ghost use Rattle.facing_maps.specs.Answers.{answered};
ghost use Rattle.facing_maps.specs.Calls.{IsCalled, IsTried, IsLooked, IsLook, IsFound};
ghost use Rattle.facing_maps.specs.Keys.{key_of, same_key, code_in, IsRefusal, IsTooLong};
ghost use Rattle.facing_maps.specs.Statuses.{facing_longest};

use crate::keys::{Keys, SeededKey};
use crate::stage::Stage;
use crate::status::{CallOutcome, MOST_BYTES, NO_MEMORY, TOO_LONG};
use bin_history::{Exact, KeyArg, Op, Remap, Reply, Value};
use chm::Fault;
use clients::OwnedClient;
use std::alloc::{AllocError, Global};

/// A copy of a value, if there is one.
pub(crate) fn copied<V: Exact>(value: Option<&V>) -> Result<Option<V>, AllocError>
    ensures copy { IfOk result (λ copy. copy ≡ option_copied value.entry) }
    ensures sure { IsNeverRefused V.is_infallible → IsOk result }
{
    match value {
        Some(value) => Ok(Some(value.clone()?)),
        None => Ok(None),
    }
}

/// Tries a call of a client on the key of these bytes, which is made in the room of the keys.
pub(crate) fn try_at<V: Value, F: Remap<SeededKey, V>>(
    client: &mut OwnedClient<SeededKey, V, F, Global>,
    keys: &mut Keys,
    key: &[u8],
    op: Op<V, F>,
) -> CallOutcome<V>
    ensures tried { IsTried same_key V.eq F.remapped F.merged
        (length key.now ≤ facing_longest) (IsRefusal (length key.now)) client.old.map.ledger
        (call_on (key_of keys.old key.now) op) client.old.pass client.new.pass result }
    ensures map { client.new.map ≡ client.old.map }
    ensures seed { keys.new ≡ keys.old }
{
    if key.len() > MOST_BYTES {
        return Err(TOO_LONG);
    }
    match keys.key(key) {
        Ok(made) => {
            let tried = client.try_call(KeyArg::Borrowed(&made), op);
            keys.take_back(made);
            Ok(tried)
        }
        Err(_) => Err(NO_MEMORY),
    }
}

/// Tries to look at the value at the key of these bytes. No key is made.
fn try_look_at<V: Value, F: Remap<SeededKey, V>>(
    client: &mut OwnedClient<SeededKey, V, F, Global>,
    keys: &Keys,
    key: &[u8],
) -> CallOutcome<V>
    ensures look { IsLook same_key (after V.eq F.remapped F.merged)
        (IsNeverRefused V.is_infallible) Value (length key.now ≤ facing_longest)
        (IsTooLong (length key.now)) client.old.map.ledger (key_of keys.now key.now)
        client.old.pass client.new.pass result }
    ensures map { client.new.map ≡ client.old.map }
{
    if key.len() > MOST_BYTES {
        return Err(TOO_LONG);
    }
    match client.try_view_as(keys.query(key), |value| copied(value)) {
        Some(Ok(value)) => Ok(Some(Ok(Reply::Value(value)))),
        Some(Err(_)) => Ok(Some(Err(Fault::NoMemory))),
        None => Ok(None),
    }
}

/// Tries to look whether the key of these bytes has a value. No key is made.
fn try_has_at<V: Value, F: Remap<SeededKey, V>>(
    client: &mut OwnedClient<SeededKey, V, F, Global>,
    keys: &Keys,
    key: &[u8],
) -> CallOutcome<V>
    ensures look { IsLook same_key (after V.eq F.remapped F.merged) ⊤ (λ v. Truth (is_some v))
        (length key.now ≤ facing_longest) (IsTooLong (length key.now)) client.old.map.ledger
        (key_of keys.now key.now) client.old.pass client.new.pass result }
    ensures map { client.new.map ≡ client.old.map }
{
    if key.len() > MOST_BYTES {
        return Err(TOO_LONG);
    }
    match client.try_view_as(keys.query(key), |value| value.is_some()) {
        Some(truth) => Ok(Some(Ok(Reply::Truth(truth)))),
        None => Ok(None),
    }
}

/// Tries a call on the key of these bytes, of the client that this is, if it is one. It waits for
/// nobody.
pub fn try_on<V: Value, F: Remap<SeededKey, V>>(
    stage: &mut Stage<SeededKey, V, F>,
    keys: &mut Keys,
    key: &[u8],
    op: Op<V, F>,
) -> Option<CallOutcome<V>>
    ensures called { IsCalled same_key V.eq F.remapped F.merged
        (length key.now ≤ facing_longest) (IsRefusal (length key.now)) stage.old
        (call_on (key_of keys.old key.now) op) stage.new (answered result) }
    ensures seed { keys.new ≡ keys.old }
{
    match stage {
        Stage::Client(client) => Some(try_at(client, keys, key, op)),
        _ => None,
    }
}

/// Tries to look at the value at the key of these bytes, by the client that this is, if it is one. No
/// key is made and it waits for nobody.
pub fn try_look<V: Value, F: Remap<SeededKey, V>>(
    stage: &mut Stage<SeededKey, V, F>,
    keys: &Keys,
    key: &[u8],
) -> Option<CallOutcome<V>>
    ensures { IsLooked same_key (after V.eq F.remapped F.merged) (IsNeverRefused V.is_infallible)
        Value (length key.now ≤ facing_longest) (IsTooLong (length key.now)) stage.old
        (key_of keys.now key.now) stage.new (answered result) }
{
    match stage {
        Stage::Client(client) => Some(try_look_at(client, keys, key)),
        _ => None,
    }
}

/// Tries to look whether the key of these bytes has a value, by the client that this is, if it is one.
/// No key is made and it waits for nobody.
pub fn try_has<V: Value, F: Remap<SeededKey, V>>(
    stage: &mut Stage<SeededKey, V, F>,
    keys: &Keys,
    key: &[u8],
) -> Option<CallOutcome<V>>
    ensures { IsLooked same_key (after V.eq F.remapped F.merged) ⊤ (λ v. Truth (is_some v))
        (length key.now ≤ facing_longest) (IsTooLong (length key.now)) stage.old
        (key_of keys.now key.now) stage.new (answered result) }
{
    match stage {
        Stage::Client(client) => Some(try_has_at(client, keys, key)),
        _ => None,
    }
}

/// The value at the key of these bytes, in the closed map that this is, if it is one. No key is made.
pub fn find<'a, V: Value, F: Remap<SeededKey, V>>(
    stage: &'a Stage<SeededKey, V, F>,
    keys: &Keys,
    key: &[u8],
) -> Option<Result<Option<&'a V>, u32>>
    ensures { IsFound same_key (length key.now ≤ facing_longest) (IsTooLong (length key.now))
        stage.now (key_of keys.now key.now) (answered result) }
{
    match stage {
        Stage::Closed(closed) => {
            if key.len() > MOST_BYTES {
                return Some(Err(TOO_LONG));
            }
            Some(Ok(closed.get_as(keys.query(key))))
        }
        _ => None,
    }
}
