//! The lines of the output.
ghost use Rattle.std.specs.Prelude.{◌≡◌, ◌++◌, codes, IfOk, OnOk, map};
ghost use Rattle.std.specs.List.{flat_map};
ghost use Rattle.mapcli_core.specs.Texts.{output_line, option_text, reply_text, clients_text};
ghost use Rattle.mapcli_core.specs.Texts.{client_text, pair_text};

use bin_history::Reply;
use hashkeys::Key;
use itoa::{Buffer, Integer};
use std::alloc::{AllocError, Allocator};

/// Appends bytes to a text.
pub(crate) fn push<A: Allocator>(text: &mut Vec<u8, A>, bytes: &[u8]) -> Result<(), AllocError>
    ensures { OnOk result (text.new.items ≡ text.old.items ++ bytes.now) }
{
    text.extend_from_slice(bytes)?;
    Ok(())
}

/// Appends a number.
pub(crate) fn push_number<I: Integer, A: Allocator>(
    text: &mut Vec<u8, A>,
    number: I,
) -> Result<(), AllocError>
    ensures { OnOk result (text.new.items ≡ text.old.items ++ I.text number) }
{
    let mut buffer = Buffer::new();
    push(text, buffer.format(number).as_bytes())
}

/// Appends a number, and ends the line.
pub(crate) fn push_number_line<I: Integer, A: Allocator>(
    text: &mut Vec<u8, A>,
    number: I,
) -> Result<(), AllocError>
    ensures { OnOk result (text.new.items ≡ text.old.items ++ output_line (I.text number)) }
{
    push_number(text, number)?;
    push(text, b"\n")
}

/// Appends `some V` or `none`, and ends the line.
pub(crate) fn push_option<A: Allocator>(
    text: &mut Vec<u8, A>,
    value: Option<i64>,
) -> Result<(), AllocError>
    ensures { OnOk result (text.new.items ≡ text.old.items ++ output_line (option_text value)) }
{
    match value {
        None => push(text, b"none\n"),
        Some(number) => {
            push(text, b"some ")?;
            push_number(text, number)?;
            push(text, b"\n")
        }
    }
}

/// Appends the line of a reply.
fn push_reply<A: Allocator>(text: &mut Vec<u8, A>, reply: &Reply<i64>) -> Result<(), AllocError>
    ensures { OnOk result (text.new.items ≡ text.old.items ++ output_line (reply_text reply.now)) }
{
    match reply {
        Reply::Value(value) => push_option(text, *value),
        Reply::Truth(true) => push(text, b"true\n"),
        Reply::Truth(false) => push(text, b"false\n"),
    }
}

/// Appends the line of a client and those of its replies.
fn push_client<A: Allocator>(
    text: &mut Vec<u8, A>,
    client: usize,
    replies: &[Reply<i64>],
) -> Result<(), AllocError>
    ensures { OnOk result (text.new.items ≡ text.old.items ++ client_text client replies.now) }
{
    push(text, b"client ")?;
    push_number(text, client)?;
    push(text, b"\n")?;
    for reply in replies {
        push_reply(text, reply)?;
    }
    Ok(())
}

/// Appends the lines of all clients.
pub(crate) fn push_clients<A: Allocator, B: Allocator>(
    text: &mut Vec<u8, A>,
    replies: &[Vec<Reply<i64>, B>],
) -> Result<(), AllocError>
    ensures { OnOk result
        (text.new.items ≡ text.old.items ++ clients_text 0 (map (λ r. r.items) replies.now)) }
{
    for (client, own) in replies.iter().enumerate() {
        push_client(text, client, own)?;
    }
    Ok(())
}

/// Appends the lines of pairs.
pub(crate) fn push_pairs<A: Allocator>(
    text: &mut Vec<u8, A>,
    pairs: &[(Key, i64)],
) -> Result<(), AllocError>
    ensures { OnOk result
        (text.new.items ≡ text.old.items ++ flat_map (λ e. output_line (pair_text e)) pairs.now) }
{
    for (key, value) in pairs {
        push(text, key.bytes())?;
        push(text, b" ")?;
        push_number(text, *value)?;
        push(text, b"\n")?;
    }
    Ok(())
}
