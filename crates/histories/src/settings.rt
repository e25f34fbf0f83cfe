//! What the program is told.
use clap::{Arg, ArgAction, ArgMatches, Command};
use std::alloc::{AllocError, Global};

/// What is to be done.
#[derive(Clone, Copy)]
pub(crate) enum Settings {
    /// To write the histories of so many seeds, from the first on.
    Write { first: u64, count: u64 },
    /// To call, close and open again for so many seconds.
    Soak { seconds: u64 },
}

impl Settings {
    /// What the matches of `command` ask for.
    pub(crate) fn matched(matches: &ArgMatches) -> Settings {
        match matches.get_one::<u64>("soak") {
            Some(seconds) => Settings::Soak { seconds },
            None => Settings::Write {
                first: matches.get_one::<u64>("first").unwrap_or(0),
                count: matches.get_one::<u64>("count").unwrap_or(1),
            },
        }
    }
}

fn number<'a>(alloc: Global, name: &'a str, help: &'a str) -> Arg<'a> {
    Arg::new(alloc, name)
        .long(name)
        .value_name("N")
        .help(help)
        .action(ArgAction::Set)
        .value_parser(clap::value_parser!(u64))
}

/// The command line that the program takes.
pub(crate) fn command<'a>(alloc: Global) -> Result<Command<'a>, AllocError> {
    Command::new(alloc, "histories")
        .about("Writes histories of calls that threads make of one map at the same time")
        .arg(number(alloc, "count", "How many histories"))?
        .arg(number(alloc, "first", "The seed of the first one"))?
        .arg(number(
            alloc,
            "soak",
            "Write none: call, close and open again for so many seconds",
        ))
}
