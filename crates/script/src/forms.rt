//! The forms of lines: what each first word asks for, and what the line then says.
ghost use Rattle.std.specs.Prelude.{◌≡◌, [], ◌∷◌, OnOk, IfOk, IfErr};
ghost use Rattle.script.specs.Lines.{Word, IsNumber, IsThreshold};
ghost use Rattle.script.specs.Grammar.{client, call, ask, sum_or_max, above, start_forms};
ghost use Rattle.script.specs.Grammar.{call_forms, block_forms, query_forms, IsFunction, IsMerger};
ghost use Rattle.script.specs.Grammar.{Says, Reads};
ghost use Rattle.script.specs.Faults.{a_number, a_threshold, a_function, a_merger, a_sum_or_max};
ghost use Rattle.script.specs.Faults.{the_above, slots_of, IsWrong, AreWrong};
ghost use Rattle.script.specs.Commands.{form};
ghost use Rattle.script.specs.Drafts.{line_of};

use crate::bytes::is;
use crate::command::{Command, command_of};
use crate::fault::Kind;
use crate::function::Function;
use crate::script::{Query, ScriptCall};
use crate::words::Words;
use bin_history::Call;

/// What a line says where calls may stand.
#[derive(Drop)]
pub(crate) enum BlockLine {
    /// The next client's block begins.
    Client,
    /// The queries begin.
    Query,
    Call(ScriptCall),
}

/// Reads the first line of a script, which opens the first block.
pub(crate) fn read_start(first: &[u8], rest: Words<'_>) -> Result<(), Kind>
    ensures ok { OnOk result (Reads start_forms (first.now ∷ rest.entry) client) }
    ensures err { IfErr result (AreWrong start_forms (first.now ∷ rest.entry)) }
{
    if is(b"client", first) {
        rest.end()
    } else {
        Err(Kind::Word)
    }
}

/// Reads a line of a client's block, or one that ends it.
#[inline(always)]
pub(crate) fn read_in_block(first: &[u8], rest: Words<'_>) -> Result<BlockLine, Kind>
    ensures ok { IfOk result (λ line. Reads block_forms (first.now ∷ rest.entry) (line_of line)) }
    ensures err { IfErr result (AreWrong block_forms (first.now ∷ rest.entry)) }
{
    if is(b"client", first) {
        rest.end()?;
        Ok(BlockLine::Client)
    } else if is(b"query", first) {
        rest.end()?;
        Ok(BlockLine::Query)
    } else {
        let call = read_call(first, rest)?;
        Ok(BlockLine::Call(call))
    }
}

/// Reads a call.
#[inline(always)]
fn read_call(first: &[u8], rest: Words<'_>) -> Result<ScriptCall, Kind>
    ensures ok { IfOk result (λ c. Reads call_forms (first.now ∷ rest.entry) (call c)) }
    ensures err { IfErr result (AreWrong call_forms (first.now ∷ rest.entry)) }
{
    match command_of(first) {
        Some(command) => read_arguments(command, rest),
        None => Err(Kind::Word),
    }
}

/// Reads the words after the first word of a call. All calls have a key in front: it is read in one
/// place, and moved into the call from there.
#[inline(always)]
fn read_arguments(command: Command, mut words: Words<'_>) -> Result<ScriptCall, Kind>
    ensures ok { IfOk result (λ c. Says (form command) words.entry (call c)) }
    ensures err { IfErr result (IsWrong (slots_of (form command)) words.entry) }
{
    let word = words.front()?;
    let Some(key) = word.key() else {
        return Err(Kind::Key);
    };
    Ok(match command {
        Command::Get => {
            words.end()?;
            Call::Get(key)
        }
        Command::Contains => {
            words.end()?;
            Call::Contains(key)
        }
        Command::Put => Call::Put(key, last_number(words)?),
        Command::PutIfAbsent => Call::PutIfAbsent(key, last_number(words)?),
        Command::Remove => {
            words.end()?;
            Call::Remove(key)
        }
        Command::RemoveIf => Call::RemoveIf(key, last_number(words)?),
        Command::Replace => Call::Replace(key, last_number(words)?),
        Command::ReplaceIf => {
            let (old, new) = last_numbers(words)?;
            Call::ReplaceIf(key, old, new)
        }
        Command::ComputeIfAbsent => Call::ComputeIfAbsent(key, last_function(words)?),
        Command::ComputeIfPresent => Call::ComputeIfPresent(key, last_function(words)?),
        Command::Compute => Call::Compute(key, last_function(words)?),
        Command::Merge => {
            let (value, function) = last_merger(words)?;
            Call::Merge(key, value, function)
        }
    })
}

/// The one word that is left, which is to be a number.
#[inline(always)]
fn last_number(mut words: Words<'_>) -> Result<i64, Kind>
    ensures ok { IfOk result (λ n. (w : Word) × IsNumber w n × (words.entry ≡ w ∷ [])) }
    ensures err { IfErr result (IsWrong (a_number ∷ []) words.entry) }
{
    let number = words.number()?;
    words.end()?;
    Ok(number)
}

/// The two words that are left, which are to be numbers.
#[inline(always)]
fn last_numbers(mut words: Words<'_>) -> Result<(i64, i64), Kind>
    ensures ok { IfOk result (λ r. (w x : Word) × IsNumber w r.0 × IsNumber x r.1
        × (words.entry ≡ w ∷ x ∷ [])) }
    ensures err { IfErr result (IsWrong (a_number ∷ a_number ∷ []) words.entry) }
{
    let first = words.number()?;
    let second = words.number()?;
    words.end()?;
    Ok((first, second))
}

/// The function whose words are left.
#[inline(always)]
fn last_function(mut words: Words<'_>) -> Result<Function, Kind>
    ensures ok { IfOk result (λ f. IsFunction words.entry f) }
    ensures err { IfErr result (IsWrong (a_function ∷ []) words.entry) }
{
    let function = words.function()?;
    words.end()?;
    Ok(function)
}

/// The value and the function of a merge, whose words are left.
#[inline(always)]
fn last_merger(mut words: Words<'_>) -> Result<(i64, Function), Kind>
    ensures ok { IfOk result (λ r. (w m : Word) × IsNumber w r.0 × IsMerger m r.0 r.1
        × (words.entry ≡ w ∷ m ∷ [])) }
    ensures err { IfErr result (IsWrong (a_number ∷ a_merger ∷ []) words.entry) }
{
    let number = words.number()?;
    let function = words.merger(number)?;
    words.end()?;
    Ok((number, function))
}

/// Reads a query.
pub(crate) fn read_query(first: &[u8], rest: Words<'_>) -> Result<Query, Kind>
    ensures ok { IfOk result (λ q. Reads query_forms (first.now ∷ rest.entry) (ask q)) }
    ensures err { IfErr result (AreWrong query_forms (first.now ∷ rest.entry)) }
{
    if is(b"count", first) {
        rest.end()?;
        Ok(Query::Count)
    } else if is(b"reduce", first) {
        read_reduce(rest)
    } else if is(b"search", first) {
        read_search(rest)
    } else if is(b"list", first) {
        let threshold = read_threshold(rest)?;
        Ok(Query::List(threshold))
    } else {
        Err(Kind::Word)
    }
}

fn read_threshold(mut words: Words<'_>) -> Result<u64, Kind>
    ensures ok { IfOk result (λ t. (w : Word) × IsThreshold w t × (words.entry ≡ w ∷ [])) }
    ensures err { IfErr result (IsWrong (a_threshold ∷ []) words.entry) }
{
    let threshold = words.threshold()?;
    words.end()?;
    Ok(threshold)
}

fn read_reduce(mut words: Words<'_>) -> Result<Query, Kind>
    ensures ok { IfOk result
        (λ q. Says (sum_or_max Query.ReduceSum Query.ReduceMax) words.entry (ask q)) }
    ensures err { IfErr result (IsWrong (a_sum_or_max ∷ a_threshold ∷ []) words.entry) }
{
    let is_sum = words.is_sum()?;
    let threshold = read_threshold(words)?;
    Ok(if is_sum {
        Query::ReduceSum(threshold)
    } else {
        Query::ReduceMax(threshold)
    })
}

fn read_search(mut words: Words<'_>) -> Result<Query, Kind>
    ensures ok { IfOk result (λ q. Says (above Query.SearchAbove) words.entry (ask q)) }
    ensures err { IfErr result (IsWrong (the_above ∷ a_number ∷ a_threshold ∷ []) words.entry) }
{
    words.above()?;
    let value = words.number()?;
    let threshold = read_threshold(words)?;
    Ok(Query::SearchAbove(value, threshold))
}
