//! An inverted index of a text: of each word the places where it stands. The word at a place is drawn,
//! nearly by Zipf's law: of the first 2^17 - 1 words, which stand in 17 rows, the first row of one word
//! and each other one of twice as many, each row is as likely as the others.
use crate::Measured;
use crate::random::drawn_at;
use anyhow::Result;
use facingberyl::{Client, Fault, ListOf, Loan, NoFunction, Team, Text, Work};
use std::alloc::{AllocError, Global};
use std::sync::Wait;
use std::thread::Threads;
use std::time::{Clock, Instant};

/// How many rows of words there are.
const ROWS: u64 = 17;

/// The places of a word.
type Places = ListOf<u32, Global>;

/// The number of the word at a place.
fn word_at(place: u64) -> u64 {
    let drawn = drawn_at(place);
    let row = 1u64 << (drawn % ROWS);
    let rest = (drawn >> 32) & row.wrapping_sub(1);
    row.wrapping_add(rest).wrapping_sub(1)
}

/// The words `w0`, `w1` and so on.
fn words(alloc: Global) -> Result<Vec<String>, AllocError> {
    let count = (1u64 << ROWS).wrapping_sub(1);
    let mut words = Vec::new(alloc);
    for number in 0..count {
        words.push(format!(in alloc; "w{number}")?)?;
    }
    Ok(words)
}

/// Reads as many places as each of the other clients, which follow each other.
#[derive(Clone, Copy)]
struct Read<'a> {
    alloc: Global,
    words: &'a [String],
    places: u32,
}

impl<'a> Work<Text<Global>, Places, NoFunction, Global> for Read<'a> {
    type Out = Result<(), Fault>;

    fn work<L: Loan, R: Wait>(
        &self,
        rt: &R,
        client: &mut Client<'_, L, Text<Global>, Places, NoFunction, Global>,
    ) -> Result<(), Fault> {
        let own = (client.number() % 32) as u32;
        let first = own.saturating_mul(self.places);
        for place in first..first.saturating_add(self.places) {
            if let Some(word) = self.words.get(word_at(place.into()) as usize) {
                let none = ListOf::new(self.alloc);
                client.modify_or_insert(rt, word.as_str(), none, |places: &mut Places| {
                    places.push(place)
                })??;
            }
        }
        Ok(())
    }
}

/// Measures how so many clients index a text of so many places. The result is how many words it has.
pub(crate) fn measure<R: Threads + Wait + Clock + Sync>(
    rt: &R,
    alloc: Global,
    clients: u32,
    places: u32,
) -> Result<Measured> {
    let words = words(alloc)?;
    let read = Read {
        alloc,
        words: words.as_slice(),
        places: places / clients.max(1),
    };
    let mut team = Team::new(alloc, 16, clients)?;
    let start = Instant::now(rt)?;
    for done in team.work(rt, &read)? {
        done?;
    }
    let taken = start.elapsed(rt)?;
    let result = team.close()?.mapping_count();
    Ok(Measured { taken, result })
}
