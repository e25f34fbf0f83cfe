//! How a run's end is told.
ghost use Rattle.std.specs.Prelude.{◌≡◌, ◌≢◌, [], ◌∷◌, true, false, IfOk, IsErrOf, OnOk, OnErr, map};
ghost use Rattle.std.specs.Prelude.{string_bytes};
ghost use Rattle.std.specs.Io.KnownBytes.{Appends};
ghost use Rattle.mapcli_core.specs.Devices.{AppendsFront};
ghost use Rattle.mapcli_core.specs.Failures.{count_after};
ghost use Rattle.mapcli_core.specs.Statuses.{status_of, line_of, is_help};
ghost use Rattle.mapcli_core.specs.declared.fault.Fault.TheVariants.{ScriptFault};

use crate::device::Output;
use crate::fault::Fault;
use crate::whole::{write_all, write_pieces};
use itoa::Buffer;
use script::Kind;
use std::alloc::{AllocError, Global};

/// The status that the program exits with after this end of a run.
pub fn status(fault: &Fault) -> u8
    ensures { result ≡ status_of fault.now }
{
    match fault {
        Fault::Help(_) => 0,
        Fault::ScriptFault { line: _, kind: _ } => 1,
        Fault::Usage(_) | Fault::BadCapacity | Fault::BadWorkers => 2,
        Fault::NoMemory | Fault::Device | Fault::BinMissing => 3,
    }
}

/// What is told of an end of a run that is no script's fault: `clap`'s text, or a line that is always
/// the same.
fn text_of(fault: &Fault) -> &str
    requires { status_of fault.now ≢ 1 }
    ensures { result.now ≡ line_of fault.now }
{
    match fault {
        Fault::Help(text) | Fault::Usage(text) => text,
        Fault::ScriptFault { line: _, kind: _ } => unreachable!(),
        Fault::NoMemory => "mapcli: no memory\n",
        Fault::Device => "mapcli: device\n",
        Fault::BinMissing => "mapcli: bins missing\n",
        Fault::BadCapacity => "mapcli: the capacity is not 1 to 4096\n",
        Fault::BadWorkers => "mapcli: the workers are not 1 to 16\n",
    }
}

/// What is told of this end of a run: `clap`'s text, or one line.
///
/// # Errors
///
/// `AllocError` where the text cannot be made; `tell` needs no memory for the same text.
pub fn line(alloc: Global, fault: &Fault) -> Result<String, AllocError>
    ensures { IfOk result (λ told. string_bytes told ≡ line_of fault.now) }
{
    match fault {
        Fault::ScriptFault { line, kind } => {
            let (line, kind) = (*line, *kind);
            let fault = script::Fault { line, kind };
            format!(in alloc; "mapcli: {fault}\n")
        }
        _ => String::from_str(alloc, text_of(fault)),
    }
}

/// Five pieces, in their order.
fn five<'a>(
    first: &'a str,
    second: &'a str,
    third: &'a str,
    fourth: &'a str,
    fifth: &'a str,
) -> [&'a str; 5]
    ensures { map (λ p. p.now) result
        ≡ first.now ∷ second.now ∷ third.now ∷ fourth.now ∷ fifth.now ∷ [] }
{
    [first, second, third, fourth, fifth]
}

/// Writes the line of a script's fault, in pieces, which need no memory. Where a write fails, a
/// beginning of it was written.
fn write_script_fault<E: Output>(errors: &mut E, line: u64, kind: Kind) -> Result<(), Fault>
    ensures ok { OnOk result (Appends (E.contents errors.old) (E.contents errors.new)
        (line_of (ScriptFault line kind))) }
    ensures err { OnErr result (AppendsFront (E.contents errors.old) (E.contents errors.new)
        (line_of (ScriptFault line kind))) }
    ensures failures { E.failures errors.new ≡ count_after result (E.failures errors.old) }
    ensures faults { OnErr result (IsErrOf result Fault.Device) }
{
    let mut digits = Buffer::new();
    let number = digits.format(line);
    let pieces = five("mapcli: line ", number, ": ", kind.text(), "\n");
    write_pieces(errors, &pieces)
}

/// Tells how a run ended: help to the output, any other end to where errors are told. What is
/// written is what `line` answers. It takes no memory, so that the want of it can be told too.
///
/// # Errors
///
/// `Device` where a write fails; the text was then written in part.
pub fn tell<O: Output, E: Output>(
    output: &mut O,
    errors: &mut E,
    fault: &Fault,
) -> Result<(), Fault>
    ensures help { is_help fault.now ≡ true → errors.new ≡ errors.old }
    ensures other { is_help fault.now ≡ false → output.new ≡ output.old }
    ensures help_text { OnOk result (is_help fault.now ≡ true
        → Appends (O.contents output.old) (O.contents output.new) (line_of fault.now)) }
    ensures help_in_part { OnErr result (is_help fault.now ≡ true
        → AppendsFront (O.contents output.old) (O.contents output.new) (line_of fault.now)) }
    ensures error_text { OnOk result (is_help fault.now ≡ false
        → Appends (E.contents errors.old) (E.contents errors.new) (line_of fault.now)) }
    ensures error_in_part { OnErr result (is_help fault.now ≡ false
        → AppendsFront (E.contents errors.old) (E.contents errors.new) (line_of fault.now)) }
    ensures faults { OnErr result (IsErrOf result Fault.Device) }
    ensures help_failures { is_help fault.now ≡ true
        → O.failures output.new ≡ count_after result (O.failures output.old) }
    ensures error_failures { is_help fault.now ≡ false
        → E.failures errors.new ≡ count_after result (E.failures errors.old) }
{
    match fault {
        Fault::Help(text) => write_all(output, text.as_bytes()),
        Fault::ScriptFault { line, kind } => write_script_fault(errors, *line, *kind),
        _ => write_all(errors, text_of(fault).as_bytes()),
    }
}
