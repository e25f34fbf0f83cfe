//! The words of the command line.
ghost use Rattle.std.specs.Prelude.{◌≡◌, ◌<◌, ◌^◌, [], ◌∷◌, ℕ, true, false, map, string_bytes};
ghost use Rattle.std.specs.Prelude.{IfOk, IfErr, IfSome, IsErrAnd, IsSome};
ghost use Rattle.clap.specs.Words.{app_of, fault_of, found_of, kind_of, matches_of, one_of, rows_of};
ghost use Rattle.clap.specs.Words.{rule_of, takes, IsAmong};
ghost use Rattle.clap.specs.declared.error.kind.ErrorKind.{ErrorKind as ErrorKindView};
ghost use Rattle.clap.specs.declared.error.kind.ErrorKind.TheVariants.{OutOfMemory};
ghost use Rattle.mapcli_core.specs.CommandLine.{workers_rule, capacity_rule, salt_rule, file_rule};
ghost use Rattle.mapcli_core.specs.CommandLine.{program, command_line, SaysNumber, AreRead, AreSaid};
ghost use Rattle.mapcli_core.specs.CommandLine.{AreWhole};
ghost use Rattle.mapcli_core.specs.Statuses.{EndsInHelp, EndsWords, IsRequest, is_help};
ghost use Rattle.mapcli_core.specs.declared.fault.Fault.TheVariants.{NoMemory};

use crate::fault::Fault;
use crate::options::Options;
use crate::telling::line;
use clap::error::ErrorKind;
use clap::{Arg, ArgAction, ArgMatches, Command};
use hashkeys::Salt;
use std::alloc::{AllocError, Global};

/// What is told where an option has no number or FILE no text, which the command's defaults and its
/// required FILE rule out.
const NOT_SAID: &str = "mapcli: an option or FILE is not given\n";

/// The options and FILE that the words after the program's name say: of each option the number on
/// the line, and where the line has none its default.
///
/// # Errors
///
/// `Usage` with what is wrong with the words; `Help` with the text that is asked for, where they ask
/// for help or for the version; `NoMemory`. Words that the command takes, and that say options in
/// their ranges and a FILE, are refused for want of memory alone.
pub fn words(alloc: Global, words: &[String]) -> Result<(Options, String), Fault>
    ensures said { IfOk result (λ r. AreSaid (map string_bytes words.now) r.0 (string_bytes r.1)) }
    ensures taken { takes program (command_line (map string_bytes words.now)) ≡ true →
        AreWhole (matches_of program (command_line (map string_bytes words.now)))
        → IfErr result (λ fault. fault ≡ NoMemory) }
    ensures asked { (kind : ErrorKindView) → IsRequest kind
        → fault_of program (command_line (map string_bytes words.now)) ≡ kind ∷ []
        → IsErrAnd result EndsInHelp }
    ensures help { IfErr result (λ fault. is_help fault ≡ true → (kind : ErrorKindView)
        × IsRequest kind
        × IsAmong kind (fault_of program (command_line (map string_bytes words.now)))) }
    ensures ended { IfErr result EndsWords }
{
    let line = whole_line(alloc, words)?;
    read_words(alloc, &line)
}

/// The words with the program's name before them.
fn whole_line<'a>(alloc: Global, words: &'a [String]) -> Result<Vec<&'a str>, AllocError>
    ensures { IfOk result
        (λ line. map (λ s. s.now) line.items ≡ command_line (map string_bytes words.now)) }
{
    let mut line: Vec<&str> = Vec::with_capacity(alloc, words.len().saturating_add(1))?;
    line.push("mapcli")?;
    for word in words {
        line.push(word.as_str())?;
    }
    Ok(line)
}

fn read_words<'a>(alloc: Global, line: &'a [&'a str]) -> Result<(Options, String), Fault>
    ensures said { IfOk result (λ r. AreRead (matches_of program (map (λ s. s.now) line.now)) r.0
        (string_bytes r.1)) }
    ensures taken { takes program (map (λ s. s.now) line.now) ≡ true →
        AreWhole (matches_of program (map (λ s. s.now) line.now))
        → IfErr result (λ fault. fault ≡ NoMemory) }
    ensures asked { (kind : ErrorKindView) → IsRequest kind
        → fault_of program (map (λ s. s.now) line.now) ≡ kind ∷ [] → IsErrAnd result EndsInHelp }
    ensures help { IfErr result (λ fault. is_help fault ≡ true → (kind : ErrorKindView)
        × IsRequest kind × IsAmong kind (fault_of program (map (λ s. s.now) line.now))) }
    ensures ended { IfErr result EndsWords }
{
    match command(alloc)?.try_get_matches_from(line) {
        Ok(matches) => read_matches(alloc, &matches),
        Err(error) => Err(refusal(alloc, &error)),
    }
}

/// The options and FILE of a command line that was taken.
fn read_matches(alloc: Global, matches: &ArgMatches<'_>) -> Result<(Options, String), Fault>
    ensures said { IfOk result
        (λ r. AreRead (rows_of (found_of matches.now)) r.0 (string_bytes r.1)) }
    ensures whole { AreWhole (rows_of (found_of matches.now)) →
        IfErr result (λ fault. fault ≡ NoMemory) }
    ensures no_help { IfErr result (λ fault. is_help fault ≡ false) }
    ensures ended { IfErr result EndsWords }
{
    let Some(workers) = number(matches, "workers") else {
        return Err(usage(alloc, NOT_SAID));
    };
    let Some(capacity) = number(matches, "capacity") else {
        return Err(usage(alloc, NOT_SAID));
    };
    let Some(salt) = number(matches, "salt") else {
        return Err(usage(alloc, NOT_SAID));
    };
    let Some(file) = matches.get_str("FILE") else {
        return Err(usage(alloc, NOT_SAID));
    };
    match Options::with_salt(workers as usize, capacity as usize, Salt(salt)) {
        Ok(options) => Ok((options, String::from_str(alloc, file)?)),
        Err(fault) => Err(wrong_options(alloc, &fault)),
    }
}

/// The number that an option says.
fn number(matches: &ArgMatches<'_>, id: &str) -> Option<u32>
    ensures says { IfSome result (SaysNumber (one_of id.now (rows_of (found_of matches.now)))) }
    ensures found { (n : ℕ) → SaysNumber (one_of id.now (rows_of (found_of matches.now))) n →
        n < 2 ^ 32 → IsSome result }
{
    matches.get_one::<u32>(id)
}

/// The fault that options out of their ranges are, which the ranges of the command rule out before.
fn wrong_options(alloc: Global, fault: &Fault) -> Fault
    ensures ended { EndsWords result }
    ensures no_help { is_help result ≡ false }
{
    match line(alloc, fault) {
        Ok(text) => Fault::Usage(text),
        Err(_) => Fault::NoMemory,
    }
}

/// The fault that this text tells of.
fn usage(alloc: Global, text: &str) -> Fault
    ensures ended { EndsWords result }
    ensures no_help { is_help result ≡ false }
{
    match String::from_str(alloc, text) {
        Ok(text) => Fault::Usage(text),
        Err(_) => Fault::NoMemory,
    }
}

/// The fault that a refused command line is.
fn refusal(alloc: Global, error: &clap::Error) -> Fault
    ensures ended { EndsWords result }
    ensures memory { kind_of error.now ≡ OutOfMemory → result ≡ NoMemory }
    ensures asked { IsRequest (kind_of error.now) → EndsInHelp result }
    ensures help { is_help result ≡ true → IsRequest (kind_of error.now) }
{
    let Ok(text) = error.to_string(alloc) else {
        return Fault::NoMemory;
    };
    match error.kind() {
        ErrorKind::DisplayHelp | ErrorKind::DisplayVersion => Fault::Help(text),
        ErrorKind::OutOfMemory => Fault::NoMemory,
        _ => Fault::Usage(text),
    }
}

/// What `--version` tells, as the file `VERSION` of the repository says.
const VERSION: &str = "0.1.0";

/// What `--help` tells of scripts.
const ABOUT_SCRIPTS: &str =
    "A script has a block for each client: the line `client`, then a line for each of
its calls. After the blocks come the line `query` and a line for each query. An
example, with what its lines print beside them:

  client           client 0
  put a 1          none
  merge a 2 sum    some 3
  query
  count            1
  list 1           a 3

Calls:    get K, contains K, put K V, put_if_absent K V, remove K,
          remove_if K V, replace K V, replace_if K V V, compute_if_absent K F,
          compute_if_present K F, compute K F, merge K V M
Queries:  count, reduce sum T, reduce max T, search above V T, list T

K is a key: 1 to 32 letters, digits or _. V is a signed number of 64 bits. F is
sum V, max V, set V or drop; M is sum, max, set or drop. T says from how many
keys on the work may be divided, and changes no answer.

The first bad line is told as `mapcli: line L: KIND`. The kinds:
  cut       the line is not ended by a line feed
  bytes     it holds a byte outside 0x20 to 0x7E, such as a tab
  spaces    it is empty, begins or ends with a space, or has two side by side
  word      its first word is not allowed in its section
  count     a word after the first is missing, or there is one too many
  key       a word that should be a key is none
  number    a word that should be a number is none
  function  a word that should name a function is none
  limit     it is the 33rd line `client`, or the 1,000,001st call of its block
  missing   the text ends before a line `query`

The exit status is 0; or 1 for a bad line of the script, 2 for wrong words, and 3
where memory ran out or a file could not be opened, read or written.

In a clone of the repository, bin/mapcli proves and builds this program if it is
not there, and with --unproved as its first word compiles it without proofs. The
page docs/SCRIPTS.md has all rules of scripts.";

/// How many workers answer queries.
fn workers<'a>(alloc: Global) -> Arg<'a>
    ensures rule { rule_of result ≡ workers_rule }
    ensures local { result.global ≡ false }
{
    Arg::new(alloc, "workers")
        .long("workers")
        .value_name("N")
        .help("How many workers answer the queries, 1 to 16")
        .action(ArgAction::Set)
        .value_parser(clap::value_parser!(u16).range(1..=16))
        .default_value("4")
}

/// How many buckets the map opens with.
fn capacity<'a>(alloc: Global) -> Arg<'a>
    ensures rule { rule_of result ≡ capacity_rule }
    ensures local { result.global ≡ false }
{
    Arg::new(alloc, "capacity")
        .long("capacity")
        .value_name("N")
        .help("How many buckets the map opens with at least, 1 to 4096")
        .action(ArgAction::Set)
        .value_parser(clap::value_parser!(u16).range(1..=4096))
        .default_value("16")
}

/// The salt of hashes.
fn salt<'a>(alloc: Global) -> Arg<'a>
    ensures rule { rule_of result ≡ salt_rule }
    ensures local { result.global ≡ false }
{
    Arg::new(alloc, "salt")
        .long("salt")
        .value_name("N")
        .help("What the hashes of keys are mixed with, 0 to 4294967295")
        .action(ArgAction::Set)
        .value_parser(clap::value_parser!(u32))
        .default_value("0")
}

/// Where the script is.
fn file<'a>(alloc: Global) -> Arg<'a>
    ensures rule { rule_of result ≡ file_rule }
    ensures local { result.global ≡ false }
{
    Arg::new(alloc, "FILE")
        .required(true)
        .help("The script, or - for standard input")
        .action(ArgAction::Set)
}

/// The command line that the program takes.
fn command<'a>(alloc: Global) -> Result<Command<'a>, AllocError>
    ensures { IfOk result (λ c. app_of c ≡ program) }
{
    Command::new(alloc, "mapcli")
        .version(VERSION)
        .about("Runs a script of client blocks over a concurrent hash map, and answers its queries")
        .after_help(ABOUT_SCRIPTS)
        .arg(workers(alloc))?
        .arg(capacity(alloc))?
        .arg(salt(alloc))?
        .arg(file(alloc))
}
