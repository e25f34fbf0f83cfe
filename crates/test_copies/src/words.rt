//! Texts as keys and values, and what calls reply in words.
use bin_history::Reply;
use chm::Fault;
use hashkeys::ByteString;
use std::alloc::Allocator;
use std::process::Abort;
use test_helpers::Number;

pub(crate) type Text<A> = ByteString<A>;

pub(crate) fn text<A: Allocator + Clone>(rt: &impl Abort, alloc: &A, bytes: &[u8]) -> Text<A> {
    let alloc = alloc.clone().expect(rt, "an allocator");
    ByteString::new(bytes.to_vec(alloc).expect(rt, "memory"))
}

/// A value that tests name by a word.
pub(crate) trait Worded: Drop {
    fn word(&self) -> &'static str;
}

impl Worded for u64 {
    fn word(&self) -> &'static str {
        match *self {
            1 => "1",
            2 => "2",
            3 => "3",
            5 => "5",
            7 => "7",
            _ => "another number",
        }
    }
}

impl<'a> Worded for Number<'a> {
    fn word(&self) -> &'static str {
        self.number.word()
    }
}

const WORDS: [&str; 5] = ["one", "other", "four", "fives", "sixths"];

impl<A: Allocator> Worded for Text<A> {
    fn word(&self) -> &'static str {
        for word in WORDS {
            if word.as_bytes() == self.bytes() {
                return word;
            }
        }
        "another text"
    }
}

/// A value in a word, or that there is none.
pub(crate) fn word_of<V: Worded>(value: Option<&V>) -> &'static str {
    match value {
        Some(value) => value.word(),
        None => "none",
    }
}

fn fault_word(fault: Fault) -> &'static str {
    match fault {
        Fault::NoMemory => "no memory",
        _ => "another fault",
    }
}

/// The reply of a call in a word.
pub(crate) fn reply_word<V: Worded>(reply: Result<Reply<V>, Fault>) -> &'static str {
    match reply {
        Ok(Reply::Value(value)) => word_of(value.as_ref()),
        Ok(Reply::Truth(true)) => "true",
        Ok(Reply::Truth(false)) => "false",
        Err(fault) => fault_word(fault),
    }
}

/// What a look-up or a glance found in a word.
pub(crate) fn look_word<V: Worded>(found: Result<Option<V>, Fault>) -> &'static str {
    match found {
        Ok(value) => word_of(value.as_ref()),
        Err(fault) => fault_word(fault),
    }
}
