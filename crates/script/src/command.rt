//! The calls that lines name by their first words.
ghost use Rattle.std.specs.Prelude.{◌≡◌, Some, None, MatchOption};
ghost use Rattle.script.specs.Grammar.{call_forms, form_of};
ghost use Rattle.script.specs.Commands.{form};

use crate::bytes::is;

/// Which call a line makes.
#[derive(Clone, Copy)]
pub(crate) enum Command {
    Get,
    Contains,
    Put,
    PutIfAbsent,
    Remove,
    RemoveIf,
    Replace,
    ReplaceIf,
    ComputeIfAbsent,
    ComputeIfPresent,
    Compute,
    Merge,
}

/// The call that a first word names, if it names one.
#[inline(always)]
pub(crate) fn command_of(first: &[u8]) -> Option<Command>
    ensures { MatchOption result (form_of call_forms first.now ≡ None)
        (λ c. form_of call_forms first.now ≡ Some (form c)) }
{
    if is(b"get", first) {
        Some(Command::Get)
    } else if is(b"contains", first) {
        Some(Command::Contains)
    } else if is(b"put", first) {
        Some(Command::Put)
    } else if is(b"put_if_absent", first) {
        Some(Command::PutIfAbsent)
    } else if is(b"remove", first) {
        Some(Command::Remove)
    } else if is(b"remove_if", first) {
        Some(Command::RemoveIf)
    } else if is(b"replace", first) {
        Some(Command::Replace)
    } else if is(b"replace_if", first) {
        Some(Command::ReplaceIf)
    } else if is(b"compute_if_absent", first) {
        Some(Command::ComputeIfAbsent)
    } else if is(b"compute_if_present", first) {
        Some(Command::ComputeIfPresent)
    } else if is(b"compute", first) {
        Some(Command::Compute)
    } else if is(b"merge", first) {
        Some(Command::Merge)
    } else {
        None
    }
}
