//! Scripts: a line is what is done and, behind `=`, what it finds, in words.
use bin_history::{Form, Reply};
use chm::Fault;
use std::process::Abort;

/// The words of a line; those behind its end are empty.
pub(crate) type Words<'a> = [&'a str; 10];

/// What a line finds: a word, such as `none`, and numbers.
pub(crate) type Found<'a> = (&'a str, [u64; 3]);

/// What is found where there is nothing to find.
pub(crate) const DONE: Found<'static> = ("done", [0; 3]);

/// The text before a word, and the text behind it.
pub(crate) fn cut<'a>(text: &'a str, word: &str) -> (&'a str, &'a str) {
    text.split_once(word).unwrap_or((text, ""))
}

/// The number that a word says; `max` is the greatest.
pub(crate) fn number(rt: &impl Abort, word: &str) -> u64 {
    if word == "max" {
        return u64::MAX;
    }
    word.parse::<u64>().ok().expect(rt, "a number")
}

/// The number that a word says, where it is small.
pub(crate) fn small(rt: &impl Abort, word: &str) -> u32 {
    word.parse::<u32>().ok().expect(rt, "a small number")
}

/// The number that a word says, and 0 where there is no word.
pub(crate) fn number_or_0(rt: &impl Abort, word: &str) -> u64 {
    if word == "" { 0 } else { number(rt, word) }
}

/// The number that a word says, and none for `none` and where there is no word.
pub(crate) fn optional(rt: &impl Abort, word: &str) -> Option<u64> {
    if word == "" || word == "none" {
        None
    } else {
        Some(number(rt, word))
    }
}

/// The word, or where it is `$0`, `$1` and so on, that word of the row.
fn in_row<'a>(rt: &impl Abort, word: &'a str, row: &'a str) -> &'a str {
    match word.strip_prefix("$") {
        Some(place) => row
            .split_ascii_whitespace()
            .nth(number(rt, place) as usize)
            .expect(rt, "a word of the row"),
        None => word,
    }
}

/// The words of a line with those of a row.
pub(crate) fn words_of<'a>(rt: &impl Abort, line: &'a str, row: &'a str) -> Words<'a> {
    let mut words = [""; 10];
    let mut count = 0usize;
    for word in line.split_ascii_whitespace() {
        assert!(rt; count < 10);
        words[count] = in_row(rt, word, row);
        count += 1;
    }
    words
}

/// What a line wants: the words behind its `=`, and of two choices with `or` between them the first where
/// a request was refused. Where there are none it is done.
pub(crate) fn wanted_of<'a>(
    rt: &impl Abort,
    line: &'a str,
    row: &'a str,
    refused: bool,
) -> Found<'a> {
    let (_act, wanted) = line.split_once("=").unwrap_or((line, "done"));
    let (first, second) = wanted.split_once(" or ").unwrap_or((wanted, wanted));
    found_in(rt, &words_of(rt, if refused { first } else { second }, row))
}

fn found_in<'a>(rt: &impl Abort, words: &Words<'a>) -> Found<'a> {
    if words[0].parse::<u64>().is_ok() {
        ("", numbers(rt, words[0], words[1], words[2]))
    } else {
        (words[0], numbers(rt, words[1], words[2], words[3]))
    }
}

fn numbers(rt: &impl Abort, first: &str, second: &str, third: &str) -> [u64; 3] {
    [
        number_or_0(rt, first),
        number_or_0(rt, second),
        number_or_0(rt, third),
    ]
}

/// A number that is found.
pub(crate) fn told(number: u64) -> Found<'static> {
    ("", [number, 0, 0])
}

pub(crate) fn truth(truth: bool) -> Found<'static> {
    (if truth { "true" } else { "false" }, [0; 3])
}

pub(crate) fn value(value: Option<u64>) -> Found<'static> {
    match value {
        Some(value) => told(value),
        None => ("none", [0; 3]),
    }
}

pub(crate) fn form_word(form: Form) -> Found<'static> {
    match form {
        Form::Recorded => ("recorded", [0; 3]),
        Form::Lean => ("lean", [0; 3]),
    }
}

/// The word of a fault.
pub(crate) fn refusal(fault: Fault) -> &'static str {
    match fault {
        Fault::NoMemory => "no-memory",
        Fault::PassFull => "full",
        Fault::BadCapacity => "bad-capacity",
        Fault::BadClients => "bad-clients",
        _ => "another-fault",
    }
}

/// What a call that may fail finds, which gives these numbers.
pub(crate) fn numbers_or_fault(made: Result<[u64; 3], Fault>) -> Found<'static> {
    match made {
        Ok(numbers) => ("", numbers),
        Err(fault) => (refusal(fault), [0; 3]),
    }
}

pub(crate) fn value_or_fault(made: Result<Option<u64>, Fault>) -> Found<'static> {
    match made {
        Ok(shown) => value(shown),
        Err(fault) => (refusal(fault), [0; 3]),
    }
}

pub(crate) fn reply_or_fault(made: Result<Reply<u64>, Fault>) -> Found<'static> {
    match made {
        Ok(Reply::Value(shown)) => value(shown),
        Ok(Reply::Truth(said)) => truth(said),
        Err(fault) => (refusal(fault), [0; 3]),
    }
}

/// Done, or refused.
pub(crate) fn done_or_fault(fault: Option<Fault>) -> Found<'static> {
    match fault {
        None => DONE,
        Some(fault) => (refusal(fault), [0; 3]),
    }
}
