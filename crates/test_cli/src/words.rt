//! Command lines, and how the ends of runs are told.
use hashkeys::Salt;
use mapcli_core::{Fault, Options, Writer, line, status, tell, words};
use script::Kind;
use std::alloc::{AllocError, Global};
use std::process::Abort;

fn strings(alloc: Global, given: &[&str]) -> Result<Vec<String>, AllocError> {
    let mut strings = Vec::new(alloc);
    for word in given {
        strings.push(String::from_str(alloc, word)?)?;
    }
    Ok(strings)
}

/// What words are read as: workers, capacity, salt and file; none where they are refused.
fn read(alloc: Global, given: &[&str]) -> Result<Option<(usize, usize, Salt, String)>, AllocError> {
    let given = strings(alloc, given)?;
    match words(alloc, &given) {
        Ok((options, file)) => {
            let (workers, capacity) = (options.workers(), options.capacity());
            Ok(Some((workers, capacity, options.salt(), file)))
        }
        Err(_) => Ok(None),
    }
}

/// Asserts the status and the line of a fault.
fn assert_fault(rt: &impl Abort, alloc: Global, fault: &Fault, wanted_status: u8, wanted: &str) {
    let found = status(fault);
    let text = line(alloc, fault).expect(rt, "memory");
    let is_same = found == wanted_status && text.as_str() == wanted;
    assert!(rt; is_same, "{found}: {text}");
}

/// Asserts that words are refused, with this status and this text.
fn assert_refusal(rt: &impl Abort, alloc: Global, given: &[&str], wanted_status: u8, wanted: &str) {
    let given = strings(alloc, given).expect(rt, "memory");
    let Err(fault) = words(alloc, &given) else {
        panic!(rt; "{given:?} were taken");
    };
    assert_fault(rt, alloc, &fault, wanted_status, wanted);
}

/// Words, and the workers, the capacity, the salt and the file that they say.
const TAKEN: [(&[&str], usize, usize, u32, &str); 5] = [
    (&["f"], 4, 16, 0, "f"),
    (&["-"], 4, 16, 0, "-"),
    (&["--salt", "04", "--workers=+5", "f"], 5, 16, 4, "f"),
    (
        &[
            "--workers",
            "16",
            "--capacity",
            "4096",
            "--salt",
            "4294967295",
            "a b",
        ],
        16,
        4096,
        4294967295,
        "a b",
    ),
    (
        &["f", "--workers=1", "--capacity=1", "--salt=7"],
        1,
        1,
        7,
        "f",
    ),
];

/// Asserts what words are read as.
fn assert_taken(
    rt: &impl Abort,
    alloc: Global,
    given: &[&str],
    wanted: (usize, usize, Salt),
    wanted_file: &str,
) {
    let found = read(alloc, given).expect(rt, "memory");
    let (workers, capacity, salt, file) = found.expect(rt, "words that are taken");
    let is_same = (workers, capacity, salt) == wanted && file.as_str() == wanted_file;
    assert!(rt; is_same, "{given:?}");
}

#[test]
fn words_are_taken(rt: HostRuntime) {
    for (given, workers, capacity, salt, file) in &TAKEN {
        let wanted = (*workers, *capacity, Salt(*salt));
        assert_taken(&rt, rt.alloc(), given, wanted, file);
    }
}

/// Wrong words, and what is told of them.
const WRONG: [(&[&str], &str); 9] = [
    (
        &["--salt=-1", "f"],
        "error: invalid value '-1' for '--salt <N>': -1 is not in 0..=4294967295\n\nFor more information, try '--help'.\n",
    ),
    (
        &["--salt", "x", "f"],
        "error: invalid value 'x' for '--salt <N>': invalid digit found in string\n\nFor more information, try '--help'.\n",
    ),
    (
        &["--salt=", "f"],
        "error: invalid value '' for '--salt <N>': cannot parse integer from empty string\n\nFor more information, try '--help'.\n",
    ),
    (
        &["--workers", "17", "f"],
        "error: invalid value '17' for '--workers <N>': 17 is not in 1..=16\n\nFor more information, try '--help'.\n",
    ),
    (
        &["--workers", "0", "f"],
        "error: invalid value '0' for '--workers <N>': 0 is not in 1..=16\n\nFor more information, try '--help'.\n",
    ),
    (
        &["--capacity", "4097", "f"],
        "error: invalid value '4097' for '--capacity <N>': 4097 is not in 1..=4096\n\nFor more information, try '--help'.\n",
    ),
    (
        &["--salt", "4294967296", "f"],
        "error: invalid value '4294967296' for '--salt <N>': 4294967296 is not in 0..=4294967295\n\nFor more information, try '--help'.\n",
    ),
    (
        &[],
        "error: the following required arguments were not provided:\n  <FILE>\n\nUsage: mapcli <FILE>\n\nFor more information, try '--help'.\n",
    ),
    (
        &["f", "g"],
        "error: unexpected argument 'g' found\n\nUsage: mapcli [OPTIONS] <FILE>\n\nFor more information, try '--help'.\n",
    ),
];

#[test]
fn wrong_words_are_told_with_their_usage(rt: HostRuntime) {
    for (given, wanted) in &WRONG {
        assert_refusal(&rt, rt.alloc(), given, 2, wanted);
    }
}

const HELP: &str =
    "Runs a script of client blocks over a concurrent hash map, and answers its queries

Usage: mapcli [OPTIONS] <FILE>

Arguments:
  <FILE>  The script, or - for standard input

Options:
      --workers <N>   How many workers answer the queries, 1 to 16 [default: 4]
      --capacity <N>  How many buckets the map opens with at least, 1 to 4096 [default: 16]
      --salt <N>      What the hashes of keys are mixed with, 0 to 4294967295 [default: 0]
  -h, --help          Print help
  -V, --version       Print version

A script has a block for each client: the line `client`, then a line for each of
its calls. After the blocks come the line `query` and a line for each query. An
example, with what its lines print beside them:

  client           client 0
  put a 1          none
  merge a 2 sum    some 3
  query
  count            1
  list 1           a 3

Calls:    get K, contains K, put K V, put_if_absent K V, remove K,
          remove_if K V, replace K V, replace_if K V V, compute_if_absent K F,
          compute_if_present K F, compute K F, merge K V M
Queries:  count, reduce sum T, reduce max T, search above V T, list T

K is a key: 1 to 32 letters, digits or _. V is a signed number of 64 bits. F is
sum V, max V, set V or drop; M is sum, max, set or drop. T says from how many
keys on the work may be divided, and changes no answer.

The first bad line is told as `mapcli: line L: KIND`. The kinds:
  cut       the line is not ended by a line feed
  bytes     it holds a byte outside 0x20 to 0x7E, such as a tab
  spaces    it is empty, begins or ends with a space, or has two side by side
  word      its first word is not allowed in its section
  count     a word after the first is missing, or there is one too many
  key       a word that should be a key is none
  number    a word that should be a number is none
  function  a word that should name a function is none
  limit     it is the 33rd line `client`, or the 1,000,001st call of its block
  missing   the text ends before a line `query`

The exit status is 0; or 1 for a bad line of the script, 2 for wrong words, and 3
where memory ran out or a file could not be opened, read or written.

In a clone of the repository, bin/mapcli proves and builds this program if it is
not there, and with --unproved as its first word compiles it without proofs. The
page docs/SCRIPTS.md has all rules of scripts.
";

/// Words that ask for something, and what is told.
const ASKED: [(&[&str], &str); 4] = [
    (&["--help", "--version"], HELP),
    (&["-h", "--version"], HELP),
    (&["--version", "--workers", "0"], "mapcli 0.1.0\n"),
    (&["-V", "--workers", "0"], "mapcli 0.1.0\n"),
];

/// The first request decides, whatever stands behind it.
#[test]
fn what_is_asked_for_is_no_fault(rt: HostRuntime) {
    for (given, wanted) in &ASKED {
        assert_refusal(&rt, rt.alloc(), given, 0, wanted);
    }
}

/// Workers and capacities that are refused, and what is told.
const OUT_OF_RANGE: [(usize, usize, &str); 5] = [
    (1, 0, "mapcli: the capacity is not 1 to 4096\n"),
    (1, 4097, "mapcli: the capacity is not 1 to 4096\n"),
    (0, 0, "mapcli: the capacity is not 1 to 4096\n"),
    (0, 1, "mapcli: the workers are not 1 to 16\n"),
    (17, 4096, "mapcli: the workers are not 1 to 16\n"),
];

/// The capacity is looked at before the workers.
#[test]
fn options_have_ranges(rt: HostRuntime) {
    for (workers, capacity) in &[(1, 1), (16, 4096)] {
        let options = Options::new(*workers, *capacity).expect(&rt, "options");
        let found = (options.workers(), options.capacity(), options.salt());
        assert!(rt; found == (*workers, *capacity, Salt(0)), "{found:?}");
    }
    for (workers, capacity, wanted) in &OUT_OF_RANGE {
        let Err(fault) = Options::new(*workers, *capacity) else {
            panic!(rt; "{workers} workers and capacity {capacity} were taken");
        };
        assert_fault(&rt, rt.alloc(), &fault, 2, wanted);
    }
}

/// The status and the text of every end of a run that is no success.
const ENDS: [(u8, &str); 8] = [
    (3, "mapcli: no memory\n"),
    (3, "mapcli: device\n"),
    (3, "mapcli: bins missing\n"),
    (1, "mapcli: line 1: missing\n"),
    (1, "mapcli: line 1000002: limit\n"),
    (2, "mapcli: the capacity is not 1 to 4096\n"),
    (2, "mapcli: the workers are not 1 to 16\n"),
    (2, "a wrong word\n"),
];

/// The end that a row tells of.
fn end(rt: &impl Abort, alloc: Global, row: usize) -> Fault {
    match row {
        0 => Fault::NoMemory,
        1 => Fault::Device,
        2 => Fault::BinMissing,
        3 => Fault::ScriptFault {
            line: 1,
            kind: Kind::Missing,
        },
        4 => Fault::ScriptFault {
            line: 1000002,
            kind: Kind::Limit,
        },
        5 => Fault::BadCapacity,
        6 => Fault::BadWorkers,
        _ => Fault::Usage(String::from_str(alloc, "a wrong word\n").expect(rt, "memory")),
    }
}

#[test]
fn each_fault_has_its_status_and_its_line(rt: HostRuntime) {
    for (row, (status, wanted)) in ENDS.iter().enumerate() {
        let fault = end(&rt, rt.alloc(), row);
        assert_fault(&rt, rt.alloc(), &fault, *status, wanted);
    }
}

/// Asserts what is told of an end: to the first writer, and to the second.
fn assert_told(rt: &impl Abort, alloc: Global, fault: &Fault, wanted: [&str; 2]) {
    let mut output = Writer::new(Vec::new(alloc));
    let mut errors = Writer::new(Vec::new(alloc));
    let told = tell(&mut output, &mut errors, fault).is_ok();
    let [first, second] = wanted;
    let is_same = told
        && output.inner.as_slice() == first.as_bytes()
        && errors.inner.as_slice() == second.as_bytes();
    assert!(rt; is_same, "{second}");
}

/// Help goes to the first writer, each other end to the second.
#[test]
fn help_is_told_apart_from_faults(rt: HostRuntime) {
    let help = Fault::Help(String::from_str(rt.alloc(), "asked\n").expect(&rt, "memory"));
    assert_told(&rt, rt.alloc(), &help, ["asked\n", ""]);
    for (row, (_status, wanted)) in ENDS.iter().enumerate() {
        assert_told(&rt, rt.alloc(), &end(&rt, rt.alloc(), row), ["", wanted]);
    }
}
