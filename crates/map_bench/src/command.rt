//! The command line.
use clap::{Arg, ArgAction, Command};
use std::alloc::{AllocError, Global};

fn number<'a>(alloc: Global, name: &'a str, help: &'a str, default: &'a str) -> Arg<'a> {
    Arg::new(alloc, name)
        .long(name)
        .value_name("N")
        .help(help)
        .action(ArgAction::Set)
        .default_value(default)
}

fn threads_arg<'a>(alloc: Global) -> Arg<'a> {
    number(
        alloc,
        "threads",
        "How many threads make calls, 1 to 31",
        "4",
    )
    .value_parser(clap::value_parser!(u8).range(1..=31))
}

fn calls_arg<'a>(alloc: Global) -> Arg<'a> {
    number(
        alloc,
        "calls",
        "How many calls each makes, 1 to 100000000; of a recorded map 1000000",
        "1000000",
    )
    .value_parser(clap::value_parser!(u32).range(1..=100_000_000))
}

fn keys_arg<'a>(alloc: Global) -> Arg<'a> {
    number(alloc, "keys", "On how many keys, 1 to 10000000", "20000").value_parser(
        clap::value_parser!(u32).range(1..=10_000_000),
    )
}

fn capacity_arg<'a>(alloc: Global) -> Arg<'a> {
    number(
        alloc,
        "capacity",
        "How many buckets the map opens with at least, 1 to 4096",
        "16",
    )
    .value_parser(clap::value_parser!(u16).range(1..=4096))
}

/// The words that name modes, and the one that names bulk operations.
const MODES: [&'static str; 14] = [
    "mix", "get", "merge", "glance", "look", "view", "update", "walk", "copies", "list", "churn",
    "fill", "stall", "bulk",
];

/// What they are.
const MODES_HELP: &'static str =
    "mix: 80 gets, 15 puts, 5 removes; get; merge; glance; look; view; update; walk, copies or list: go over all; churn: put, remove; fill an empty map; stall: its longest call; bulk: bulk operations on a live map";

fn mode_arg<'a>(alloc: Global) -> Arg<'a> {
    Arg::new(alloc, "mode")
        .long("mode")
        .value_name("MODE")
        .help(MODES_HELP)
        .action(ArgAction::Set)
        .value_parser(MODES.as_slice())
        .default_value("mix")
}

fn lanes_arg<'a>(alloc: Global) -> Arg<'a> {
    Arg::new(alloc, "lanes")
        .long("lanes")
        .value_name("LANES")
        .help("own, or one: all threads add into one word of the count")
        .action(ArgAction::Set)
        .value_parser(["own", "one"].as_slice())
        .default_value("own")
}

fn form_arg<'a>(alloc: Global) -> Arg<'a> {
    Arg::new(alloc, "form")
        .long("form")
        .value_name("FORM")
        .help("lean, or recorded: a map that stores a record of each call")
        .action(ArgAction::Set)
        .value_parser(["lean", "recorded"].as_slice())
        .default_value("lean")
}

fn choice_arg<'a>(alloc: Global) -> Arg<'a> {
    Arg::new(alloc, "choice")
        .long("choice")
        .value_name("CHOICE")
        .help("uniform, or zipf: keys are chosen by Zipf's law with the exponent 0.99")
        .action(ArgAction::Set)
        .value_parser(["uniform", "zipf"].as_slice())
        .default_value("uniform")
}

fn entries_arg<'a>(alloc: Global) -> Arg<'a> {
    number(
        alloc,
        "entries",
        "In mode bulk, how many entries the map has, 0 to 4294967295",
        "1000000",
    )
    .value_parser(clap::value_parser!(u32))
}

fn workers_arg<'a>(alloc: Global) -> Arg<'a> {
    number(
        alloc,
        "workers",
        "In mode bulk, how many workers an operation has, 1 to 16",
        "4",
    )
    .value_parser(clap::value_parser!(u8).range(1..=16))
}

fn writers_arg<'a>(alloc: Global) -> Arg<'a> {
    number(
        alloc,
        "writers",
        "In mode bulk, how many clients put and remove other keys meanwhile",
        "0",
    )
    .value_parser(["0", "2"].as_slice())
}

fn runs_arg<'a>(alloc: Global) -> Arg<'a> {
    number(
        alloc,
        "runs",
        "In mode bulk, of how many runs the best time is printed; 0: what operations return",
        "20",
    )
    .value_parser(clap::value_parser!(u32))
}

/// The command line that the program takes.
pub(crate) fn command<'a>(alloc: Global) -> Result<Command<'a>, AllocError> {
    Command::new(alloc, "map_bench")
        .about(
            "Measures how many million calls a second threads make of one map, or how long bulk operations take",
        )
        .arg(threads_arg(alloc))?
        .arg(calls_arg(alloc))?
        .arg(keys_arg(alloc))?
        .arg(capacity_arg(alloc))?
        .arg(mode_arg(alloc))?
        .arg(form_arg(alloc))?
        .arg(choice_arg(alloc))?
        .arg(lanes_arg(alloc))?
        .arg(entries_arg(alloc))?
        .arg(workers_arg(alloc))?
        .arg(writers_arg(alloc))?
        .arg(runs_arg(alloc))
}
