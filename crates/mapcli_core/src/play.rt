//! The client blocks of a script, each played by a thread of its own on one map.
ghost use Rattle.std.specs.Prelude.{◌≡◌, ◌≤◌, length, map, All, Ok, IfOk, IfErr};
ghost use Rattle.bin_history.specs.Limits.{most_calls, most_recorded_calls};
ghost use Rattle.chm.specs.declared.fault.Fault.TheVariants.{NoMemory};
ghost use Rattle.count_ledger.specs.Opening.{lists_of, new_passes};
ghost use Rattle.script.specs.Verdicts.{IsWithinLimits};
ghost use Rattle.mapcli_core.specs.Failures.{IsOfPlay};
ghost use Rattle.mapcli_core.specs.Outcomes.{IsAllowed};
ghost use Rattle.mapcli_core.specs.Played.{outcome_of, ArePlayed, IsAnswerOfClient};

use crate::client::{Blocks, ScriptMap, ScriptPass};
use crate::gate::ClientGate;
use crate::options::Options;
use bin_history::Reply;
use chm::{Fault, Map, Quiet};
use count_ledger::retire_all;
use hashkeys::Key;
use script::{Function, ScriptCall};
use std::alloc::Allocator;
use std::sync::Wait;
use std::thread::Threads;

/// The replies of each client.
type Replies<A> = Vec<Vec<Reply<i64>, A>, A>;

/// The replies of each client, where no call was refused.
fn replies_of<A: Allocator + Clone>(
    answers: Vec<Result<Vec<Reply<i64>, A>, Fault>, A>,
) -> Result<Replies<A>, Fault>
    requires { All IsAnswerOfClient answers.items }
    ensures replies { IfOk result (λ replies. map Ok replies.items ≡ answers.items) }
    ensures fault { IfErr result (λ fault. fault ≡ NoMemory) }
{
    let mut replies = Vec::with_capacity(answers.allocator().clone()?, answers.len())?;
    for answer in answers {
        let own = answer?;
        replies.push_reserved(own);
    }
    Ok(replies)
}

/// Plays the blocks, the first with the first pass, and so on. All passes come back.
fn play_blocks<R: Threads + Wait + Sync, G: ClientGate + Sync, A: Allocator + Clone + Send + Sync>(
    rt: &R,
    map: &ScriptMap<A>,
    gate: &G,
    passes: &mut Vec<ScriptPass, A>,
    blocks: Vec<Vec<ScriptCall, A>, A>,
) -> Result<Replies<A>, Fault>
    requires limits { IsWithinLimits (lists_of blocks) }
    requires fresh { passes.old.items ≡ new_passes map.now.ledger.id (length blocks.items) }
    requires limit { most_recorded_calls
        ≤ most_calls map.now.ledger.form map.now.ledger.clients }
    ensures ledger { All (λ p. p.ledger ≡ map.now.ledger.id) passes.new.items }
    ensures played { IfOk result
        (λ replies. ArePlayed (lists_of blocks) (lists_of replies) passes.new.items) }
    ensures fault { IfErr result (λ fault. fault ≡ NoMemory) }
{
    let answered = map.share(
        rt,
        passes,
        &Blocks {
            blocks: &blocks,
            gate,
        },
    );
    drop(blocks);
    let answers = answered?;
    replies_of(answers)
}

/// What playing the client blocks came to: the replies of each client, and the closed map.
#[derive(Drop)]
pub(crate) struct Played<A: Allocator> {
    pub(crate) replies: Replies<A>,
    pub(crate) map: Quiet<Key, i64, Function, A>,
}

/// Plays the client blocks on a new map, block 0 as client 0 and so on, and closes the map.
pub(crate) fn play<
    R: Threads + Wait + Sync,
    G: ClientGate + Sync,
    A: Allocator + Clone + Send + Sync,
>(
    rt: &R,
    alloc: A,
    options: &Options,
    blocks: Vec<Vec<ScriptCall, A>, A>,
    gate: &G,
) -> Result<Played<A>, Fault>
    requires { IsWithinLimits (lists_of blocks) }
    ensures ok { IfOk result (λ p. IsAllowed (lists_of blocks) (outcome_of p.replies p.map)) }
    ensures fault { IfErr result IsOfPlay }
{
    let (capacity, clients) = (options.capacity(), blocks.len() as u32);
    let (map, mut passes) = Map::lean(alloc, capacity, clients, options.salt())?;
    let replies = match play_blocks(rt, &map, gate, &mut passes, blocks) {
        Ok(replies) => replies,
        Err(fault) => {
            retire_all(passes);
            return Err(fault);
        }
    };
    match map.close(passes) {
        Ok(map) => {
            map.lawful();
            Ok(Played { replies, map })
        }
        Err(not_closed) => Err(not_closed.give_up()),
    }
}
