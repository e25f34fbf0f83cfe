//! The clients of a script: each makes the calls of its block, with its pass.
ghost use Rattle.std.specs.Prelude.{◌≡◌, ◌≤◌, [], length, IfOk, IfErr};
ghost use Rattle.bin_history.specs.Limits.{most_calls, most_recorded_calls};
ghost use Rattle.bin_history.specs.declared.form.Form.TheVariants.{Recorded};
ghost use Rattle.chm.specs.declared.fault.Fault.TheVariants.{NoMemory};
ghost use Rattle.mapcli_core.specs.Played.{AreShort, HasMade};

use crate::gate::ClientGate;
use bin_history::{Call, Reply};
use chm::{Fault, Map, Quiet, Sharing};
use count_ledger::Pass;
use hashkeys::Key;
use script::{Function, ScriptCall};
use std::alloc::{AllocError, Allocator};
use std::sync::Wait;

/// A map of the program's keys and values.
pub(crate) type ScriptMap<A> = Map<Key, i64, Function, A>;

/// Such a map, closed.
pub(crate) type ScriptQuiet<A> = Quiet<Key, i64, Function, A>;

/// The right of one client to make calls of it.
pub(crate) type ScriptPass = Pass<Key, i64, Function>;

/// A copy of a call. It takes no memory.
fn copy_of(call: &ScriptCall) -> Result<ScriptCall, AllocError>
    ensures { IfOk result (λ copy. copy ≡ call.now) }
{
    Ok(match call {
        Call::Get(key) => Call::Get(key.clone()?),
        Call::Contains(key) => Call::Contains(key.clone()?),
        Call::Put(key, value) => Call::Put(key.clone()?, *value),
        Call::PutIfAbsent(key, value) => Call::PutIfAbsent(key.clone()?, *value),
        Call::Remove(key) => Call::Remove(key.clone()?),
        Call::RemoveIf(key, value) => Call::RemoveIf(key.clone()?, *value),
        Call::Replace(key, value) => Call::Replace(key.clone()?, *value),
        Call::ReplaceIf(key, old, new) => Call::ReplaceIf(key.clone()?, *old, *new),
        Call::ComputeIfAbsent(key, function) => {
            Call::ComputeIfAbsent(key.clone()?, function.clone()?)
        }
        Call::ComputeIfPresent(key, function) => {
            Call::ComputeIfPresent(key.clone()?, function.clone()?)
        }
        Call::Compute(key, function) => Call::Compute(key.clone()?, function.clone()?),
        Call::Merge(key, value, function) => {
            Call::Merge(key.clone()?, *value, function.clone()?)
        }
    })
}

/// Makes the calls of one client, and answers their replies. It is refused for want of memory
/// alone.
fn make_calls<R: Wait, G: ClientGate, A: Allocator + Clone>(
    rt: &R,
    map: &ScriptMap<A>,
    gate: &G,
    pass: &mut ScriptPass,
    calls: &Vec<ScriptCall, A>,
) -> Result<Vec<Reply<i64>, A>, Fault>
    requires pass { pass.old.ledger ≡ map.now.ledger.id }
    requires fresh { pass.old.made ≡ [] }
    requires short { length calls.now.items ≤ most_recorded_calls }
    requires limit { most_recorded_calls
        ≤ most_calls map.now.ledger.form map.now.ledger.clients }
    ensures ledger { pass.new.ledger ≡ pass.old.ledger }
    ensures client { pass.new.client ≡ pass.old.client }
    ensures made { IfOk result
        (λ replies. HasMade calls.now.items replies.items pass.new.made) }
    ensures fault { IfErr result (λ fault. fault ≡ NoMemory) }
{
    let mut replies = Vec::with_capacity(calls.allocator().clone()?, calls.len())?;
    for call in calls {
        gate.call(pass.client() as usize, pass.made());
        let copy = copy_of(call)?;
        let reply = map.call(rt, pass, copy)?;
        replies.push_reserved(reply);
    }
    Ok(replies)
}

/// The client blocks of a script: client after client makes the calls of its own, with a pass that
/// has made none, and answers their replies, or why one was refused.
#[derive(Drop)]
pub(crate) struct Blocks<'a, G, A: Allocator> {
    pub(crate) blocks: &'a Vec<Vec<ScriptCall, A>, A>,
    pub(crate) gate: &'a G,
    ghost short: { AreShort blocks.now },
}

impl<G: ClientGate, A: Allocator + Clone> Sharing<Key, i64, Function, A> for Blocks<'_, G, A> {
    ghost use Rattle.std.specs.Prelude.{◌≤◌};
    ghost use Rattle.bin_history.specs.Limits.{most_calls, most_recorded_calls};
    ghost use Rattle.mapcli_core.specs.Played.{HasPlayed};

    type Out = Result<Vec<Reply<i64>, A>, Fault>;

    ghost fits = { λ b ledger. most_recorded_calls ≤ most_calls ledger.form ledger.clients };

    ghost does = { λ b before after answer. HasPlayed b.blocks.now before after answer };

    fn work<R: Wait>(
        &self,
        rt: &R,
        map: &ScriptMap<A>,
        pass: &mut ScriptPass,
    ) -> Result<Vec<Reply<i64>, A>, Fault> {
        let client = pass.client() as usize;
        if client >= self.blocks.len() || pass.made() > 0 {
            return Err(Fault::PassFull);
        }
        make_calls(rt, map, self.gate, pass, &self.blocks[client])
    }
}
