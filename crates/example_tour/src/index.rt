//! An inverted index: four clients read the lines of a text, and note of each word where it stands.
use anyhow::Result;
use facingberyl::{Client, Fault, ListOf, Loan, NoFunction, Quiet, Team, Text, Work};
use std::alloc::Global;
use std::sync::Wait;
use std::thread::Threads;

/// The text.
const LINES: [&'static str; 8] = [
    "this is the house that jack built",
    "this is the malt that lay in the house",
    "this is the rat that ate the malt",
    "this is the cat that killed the rat",
    "this is the dog that worried the cat",
    "this is the cow that tossed the dog",
    "this is the maiden that milked the cow",
    "this is the man that kissed the maiden",
];

/// The numbers of the lines in which a word stands.
type Places = ListOf<u32, Global>;

/// Reads each fourth line. A word becomes a key where it is new; else its list grows where it lies.
#[derive(Clone, Copy)]
struct Read {
    alloc: Global,
}

impl Work<Text<Global>, Places, NoFunction, Global> for Read {
    type Out = Result<(), Fault>;

    fn work<L: Loan, R: Wait>(
        &self,
        rt: &R,
        client: &mut Client<'_, L, Text<Global>, Places, NoFunction, Global>,
    ) -> Result<(), Fault> {
        for (line, text) in (1..9u32).zip(&LINES) {
            if line as usize % 4 == client.number() {
                for word in text.split_whitespace() {
                    let none = ListOf::new(self.alloc);
                    client.modify_or_insert(rt, word, none, |places: &mut Places| {
                        places.push(line)
                    })??;
                }
            }
        }
        Ok(())
    }
}

/// The places of a word in order, whichever client came first.
fn places_of(
    alloc: Global,
    index: &Quiet<Text<Global>, Places, NoFunction, Global>,
    word: &str,
) -> Result<Vec<u32>> {
    match index.get_as(word) {
        Some(places) => {
            let mut places = places.as_slice().to_vec(alloc)?;
            places.sort_unstable();
            Ok(places)
        }
        None => Ok(Vec::new(alloc)),
    }
}

pub(crate) fn run<R: Threads + Wait + Print + Sync>(rt: &R, alloc: Global) -> Result<()> {
    let mut team = Team::new(alloc, 16, 4)?;
    for done in team.work(rt, &Read { alloc })? {
        done?;
    }
    let index = team.close()?;
    let mut places = 0usize;
    for (_, its) in index.entries() {
        places = places.saturating_add(its.len());
    }
    println!(rt; "{} words in {places} places", index.mapping_count())?;
    for word in ["cat", "house", "the", "fish"] {
        let places = places_of(alloc, &index, word)?;
        println!(rt; "{word}: {places:?}")?;
    }
    Ok(())
}
