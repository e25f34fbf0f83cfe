//! `word_count [FILE [CLIENTS]]` prints the ten most frequent words of a text, those first that
//! come first in byte order where they are equally frequent. It reads the file, or else standard
//! input. The words are counted in one map by as many clients, 1 to 32, each in a thread of its
//! own; else by 4.
#![tactic(auto)]

mod count;

use anyhow::Result;
use clients::Bytes;
use count::count;
use std::alloc::{AllocError, Global};
use std::io::Read;
use std::{env, fs};

/// How many words are printed.
const PRINTED: usize = 10;

fn is_word_byte(byte: u8) -> bool {
    byte.is_ascii_alphanumeric() || byte == b'_' || byte == b'\'' || byte >= 128
}

/// The words of the text, dealt to so many parts in turn.
fn deal(alloc: Global, text: &[u8], clients: usize) -> Result<Vec<Vec<Bytes<'_>>>, AllocError> {
    let mut parts = Vec::with_capacity(alloc, clients)?;
    for _ in 0..clients {
        parts.push(Vec::new(alloc))?;
    }
    let words = text
        .split(|byte| !is_word_byte(*byte))
        .filter(|word| !word.is_empty());
    for (number, word) in words.enumerate() {
        if let Some(part) = parts.get_mut(number % clients.max(1)) {
            part.push(Bytes(word))?;
        }
    }
    Ok(parts)
}

fn main(rt: HostRuntime) -> Result<()> {
    let words: Vec<String> = env::args(&rt)?.collect(rt.alloc())?;
    let mut text = Vec::new(rt.alloc());
    match words.get(1) {
        Some(path) => text = fs::read(&rt, path)?,
        None => drop(rt.stdin().read_to_end(&mut text)?),
    }
    let clients = match words.get(2) {
        Some(word) => word.as_str().parse::<usize>()?,
        None => 4,
    };
    text.make_ascii_lowercase();
    let parts = deal(rt.alloc(), &text, clients)?;
    let mut counts = count(&rt, rt.alloc(), &parts)?;
    counts.sort_unstable_by(|a, b| b.1.cmp(&a.1).then(a.0.0.cmp(b.0.0)));
    for (word, count) in counts.iter().take(PRINTED) {
        println!(rt; "{count} {}", str::from_utf8(word.0).unwrap_or("?"))?;
    }
    Ok(())
}
