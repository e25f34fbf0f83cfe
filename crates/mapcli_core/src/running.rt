//! A run of a script: from the bytes of its text to those of the output.
ghost use Rattle.std.specs.Prelude.{◌≡◌, ◌≢◌, ◌⊎◌, ◌↔◌, MatchResult, IfOk, IfErr, OnOk, OnErr};
ghost use Rattle.std.specs.Prelude.{IsErrOf};
ghost use Rattle.std.specs.Io.KnownBytes.{Appends, Keeps};
ghost use Rattle.script.specs.Verdicts.{blocks_of, IsText, IsWithinLimits};
ghost use Rattle.mapcli_core.specs.Devices.{AppendsFront};
ghost use Rattle.mapcli_core.specs.Runs.{IsOutputOf, IsUnread, IsRefusalOf, OfInput, OfOutput};
ghost use Rattle.mapcli_core.specs.Runs.{OneCounts};

use crate::answers::{Crew, push_answers};
use crate::device::{Input, Output};
use crate::fault::{Fault, refused};
use crate::gate::ClientGate;
use crate::options::Options;
use crate::play::play;
use crate::text::push_clients;
use crate::whole::{read_all, write_all};
use script::Script;
use std::alloc::Allocator;
use std::sync::Wait;
use std::thread::Threads;

/// The script that the text is. It is refused where the text is no script, with its first bad line,
/// and where memory runs out.
pub fn parse<A: Allocator + Clone>(alloc: A, text: &[u8]) -> Result<Script<A>, Fault>
    ensures script { IfOk result (λ script. IsText text.now script) }
    ensures limits { IfOk result (λ script. IsWithinLimits (blocks_of script)) }
    ensures fault { IfErr result (λ fault. IsUnread text.now fault) }
{
    Ok(script::parse(alloc, text)?)
}

/// The output text of the script that the text is.
fn output_of<R: Threads + Wait + Sync, G: ClientGate + Sync, A: Allocator + Clone + Send + Sync>(
    rt: &R,
    alloc: A,
    text: &[u8],
    options: &Options,
    gate: &G,
) -> Result<Vec<u8, A>, Fault>
    ensures { MatchResult result (λ bytes. IsOutputOf text.now bytes.items)
        (λ fault. IsRefusalOf text.now fault) }
{
    let Script { blocks, queries } = parse(alloc.clone()?, text)?;
    let played = match play(rt, alloc.clone()?, options, blocks, gate) {
        Ok(played) => played,
        Err(fault) => return Err(refused(fault)),
    };
    let mut bytes = Vec::new(alloc.clone()?);
    push_clients(&mut bytes, &played.replies)?;
    let crew = Crew {
        workers: options.workers(),
        gate,
    };
    push_answers(rt, &alloc, &mut bytes, &played.map, &crew, &queries)?;
    Ok(bytes)
}

/// Reads the whole input, runs the script that it is, and writes the output text. The clients make
/// their calls at the same time, each in a thread of its own, or in one that there is where no more
/// can be started; each client's calls are made in their order, and the gate is called before each.
/// Queries are answered by the workers of a pool. Nothing is written before all queries are
/// answered; where a write fails, a beginning of the output text was written. It waits for its
/// threads.
pub fn run<
    R: Threads + Wait + Sync,
    I: Input,
    O: Output,
    G: ClientGate + Sync,
    A: Allocator + Clone + Send + Sync,
>(rt: &R, alloc: A, input: &mut I, output: &mut O, options: &Options, gate: &G) -> Result<(), Fault>
    ensures ok { OnOk result
        (OfOutput (I.remaining input.old)
        (λ bytes. Appends (O.contents output.old) (O.contents output.new) bytes)) }
    ensures fault { IfErr result (λ fault. (fault ≡ Fault.Device) ⊎ OfInput (I.remaining input.old)
        (λ text. IsRefusalOf text fault)) }
    ensures unwritten { OnErr result (O.failures output.new ≡ O.failures output.old →
        Keeps (O.contents output.old) (O.contents output.new)) }
    ensures beginning { O.failures output.new ≢ O.failures output.old
        → OfOutput (I.remaining input.old)
        (λ bytes. AppendsFront (O.contents output.old) (O.contents output.new) bytes) }
    ensures counts { OneCounts result (I.failures input.old) (I.failures input.new)
        (O.failures output.old) (O.failures output.new) }
    ensures device { IsErrOf result Fault.Device
        ↔ ((I.failures input.new ≢ I.failures input.old)
        ⊎ (O.failures output.new ≢ O.failures output.old)) }
{
    let text = read_all(alloc.clone()?, input)?;
    let bytes = output_of(rt, alloc, &text, options, gate)?;
    write_all(output, &bytes)
}
