//! Scripts as far as they were read.
ghost use Rattle.std.specs.Prelude.{List, OnOk, IfErr};
ghost use Rattle.script.specs.Lines.{words, IsPrintable, IsSpaced};
ghost use Rattle.script.specs.Grammar.{ScriptCall as CallView, Line, Reads, client};
ghost use Rattle.script.specs.Grammar.{call as call_line};
ghost use Rattle.script.specs.Reading.{calls, forms_at, IsLine, Leads};
ghost use Rattle.script.specs.Drafts.{in_block, section_of, HasBadBytes, IsRefused, IsMisread};
ghost use Rattle.script.specs.Drafts.{IsRefusedAtLimit};

use crate::fault::{Kind, LineError};
use crate::forms::{BlockLine, read_in_block, read_query, read_start};
use crate::line::TextLine;
use crate::script::{Query, ScriptCall};
use crate::words::first_word;
use bin_history::{MOST_CALLS, MOST_CLIENTS};
use std::alloc::Allocator;
use std::mem;

/// A script as far as it was read.
#[derive(Drop)]
pub(crate) enum Draft<A: Allocator> {
    /// Before the first line.
    Start,
    /// In a client's block, after earlier ones.
    Calls {
        blocks: Vec<Vec<ScriptCall, A>, A>,
        block: Vec<ScriptCall, A>,
    },
    /// Among the queries.
    Queries {
        blocks: Vec<Vec<ScriptCall, A>, A>,
        queries: Vec<Query, A>,
    },
}

/// Whether all bytes are printable, and single spaces stand between words alone.
fn check_bytes(line: &[u8]) -> Result<(), Kind>
    ensures printable { OnOk result (IsPrintable line.now) }
    ensures spaced { OnOk result (IsSpaced line.now) }
    ensures err { IfErr result (HasBadBytes line.now) }
{
    if !line.iter().all(|byte| (b' '..=b'~').contains(byte)) {
        return Err(Kind::Bytes);
    }
    if line.split(|byte| *byte == b' ').any(|word| word.is_empty()) {
        return Err(Kind::Spaces);
    }
    Ok(())
}

impl<A: Allocator + Clone> Draft<A> {
    /// Takes one more line. Where all words are right, so are the bytes: they are looked at only
    /// where one is wrong.
    pub(crate) fn take(&mut self, alloc: A, line: &TextLine<'_>) -> Result<(), LineError>
        ensures ok { OnOk result ((said : Line) × IsLine (section_of self.old) line.now said
            × Leads (section_of self.old) said (section_of self.new)) }
        ensures err { IfErr result (IsRefused (section_of self.old) line.now) }
    {
        match self.take_words(alloc, line) {
            Ok(()) => Ok(()),
            Err(LineError::NoMemory) => Err(LineError::NoMemory),
            Err(LineError::Bad(kind)) => {
                check_bytes(line.bytes())?;
                Err(LineError::Bad(kind))
            }
        }
    }

    /// Takes what the words of one more line say.
    fn take_words(&mut self, alloc: A, line: &TextLine<'_>) -> Result<(), LineError>
        ensures ok { OnOk result
            ((said : Line) × Reads (forms_at (section_of self.old)) (words line.now) said
            × Leads (section_of self.old) said (section_of self.new)) }
        ensures err { IfErr result (IsMisread (section_of self.old) line.now) }
    {
        let (first, rest) = first_word(line);
        match self {
            Draft::Start => {
                read_start(first, rest)?;
                *self = Draft::Calls {
                    blocks: Vec::new(alloc.clone()?),
                    block: Vec::new(alloc),
                };
                Ok(())
            }
            Draft::Calls { blocks, block } => match read_in_block(first, rest)? {
                BlockLine::Client => push_block(alloc, blocks, block),
                BlockLine::Query => {
                    blocks.push(mem::replace(block, Vec::new(alloc.clone()?)))?;
                    *self = Draft::Queries {
                        blocks: mem::replace(blocks, Vec::new(alloc.clone()?)),
                        queries: Vec::new(alloc),
                    };
                    Ok(())
                }
                BlockLine::Call(call) => push_call(block, call),
            },
            Draft::Queries { blocks: _, queries } => {
                let query = read_query(first, rest)?;
                queries.push(query)?;
                Ok(())
            }
        }
    }
}

/// Ends a block, and begins the next.
fn push_block<A: Allocator>(
    alloc: A,
    blocks: &mut Vec<Vec<ScriptCall, A>, A>,
    block: &mut Vec<ScriptCall, A>,
) -> Result<(), LineError>
    ensures ok { OnOk result
        (Leads (in_block blocks.old.items block.old.items) client
        (in_block blocks.new.items block.new.items)) }
    ensures err { IfErr result
        (IsRefusedAtLimit (in_block blocks.old.items block.old.items) client) }
{
    if blocks.len() >= MOST_CLIENTS as usize - 1 {
        return Err(LineError::Bad(Kind::Limit));
    }
    blocks.push(mem::replace(block, Vec::new(alloc)))?;
    Ok(())
}

/// Puts a call at the end of a block.
fn push_call<A: Allocator>(
    block: &mut Vec<ScriptCall, A>,
    call: ScriptCall,
) -> Result<(), LineError>
    ensures ok { OnOk result ((blocks : List (List CallView)) →
        Leads (calls blocks block.old.items) (call_line call) (calls blocks block.new.items)) }
    ensures err { IfErr result (λ e. (blocks : List (List CallView)) →
        IsRefusedAtLimit (calls blocks block.old.items) (call_line call) e) }
{
    if block.len() >= MOST_CALLS as usize {
        return Err(LineError::Bad(Kind::Limit));
    }
    block.push(call)?;
    Ok(())
}
