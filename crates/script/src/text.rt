//! The text of a script, read line by line.
ghost use Rattle.std.specs.Prelude.{◌≡◌, IfOk, IfErr};
ghost use Rattle.script.specs.declared.fault.ParseError.TheVariants as errors;
ghost use Rattle.script.specs.Verdicts.{blocks_of, IsText, IsTold, IsWithinLimits};

use crate::draft::Draft;
use crate::fault::{Fault, Kind, ParseError};
use crate::line::first_line;
use crate::script::Script;
use std::alloc::Allocator;

/// The script that the text is. Where the text is no script, the error names its first bad line;
/// else an error comes only where memory runs out.
pub fn parse<A: Allocator + Clone>(alloc: A, text: &[u8]) -> Result<Script<A>, ParseError>
    // The text is that of this script, and of no other.
    ensures script { IfOk result (λ s. IsText text.now s) }

    // It is that of none, and has no other fault.
    ensures fault { IfErr result (IsTold text.now) }
    ensures limits { IfOk result (λ s. IsWithinLimits (blocks_of s)) }
{
    let mut draft = Draft::Start;
    let mut rest = text;
    let mut number = 1u64;
    'lines: while !rest.is_empty() {
        let Some((line, more)) = first_line(rest) else {
            return Err(ParseError::Fault(Fault {
                line: number,
                kind: Kind::Cut,
            }));
        };
        match draft.take(alloc.clone()?, &line) {
            Ok(()) => {}
            Err(error) => return Err(error.at(number)),
        }
        rest = more;
        number += 1;
    }
    match draft {
        Draft::Queries { blocks, queries } => Ok(Script { blocks, queries }),
        Draft::Start => Err(missing_at(number)),
        Draft::Calls {
            blocks: _blocks,
            block: _block,
        } => Err(missing_at(number)),
    }
}

/// The error of a text that ends too early, before the line of this number.
fn missing_at(line: u64) -> ParseError
    ensures { result ≡ errors.Fault (record { line = line; kind = Kind.Missing }) }
{
    ParseError::Fault(Fault {
        line,
        kind: Kind::Missing,
    })
}
