//! How a script is run, and what it tells.
use hashkeys::Salt;
use mapcli_core::{ClientGate, OpenGate, Options, Reader, Writer, line, run, status};
use std::alloc::AllocGlobal;
use std::process::Abort;
use std::sync::Wait;
use std::thread::Threads;

/// Writes the template behind the text, with a number for each `#`.
pub(crate) fn fill(rt: &impl Abort, text: &mut String, template: &str, numbers: &[i64]) {
    let mut rest = numbers.iter();
    for letter in template.chars() {
        if letter == '#' {
            let number = rest.next().expect(rt, "a number");
            write!(text, "{number}").expect(rt, "memory");
        } else {
            text.push(letter).expect(rt, "memory");
        }
    }
}

/// The options of a run: its workers, its capacity and its salt.
pub(crate) fn options(rt: &impl Abort, workers: usize, capacity: usize, salt: u32) -> Options {
    Options::with_salt(workers, capacity, Salt(salt)).expect(rt, "options")
}

/// The status that a run of the script under a gate ends with, and all that it tells: the output
/// text, or the line of the fault.
pub(crate) fn told_under<R: Threads + Wait + Sync + Abort + AllocGlobal, G: ClientGate + Sync>(
    rt: &R,
    script: &[u8],
    options: &Options,
    gate: &G,
) -> (u8, Vec<u8>) {
    let mut input = Reader::new(script);
    let mut output = Writer::new(Vec::new(rt.alloc()));
    let ended = run(rt, rt.alloc(), &mut input, &mut output, options, gate);
    let written = output.inner;
    let Err(fault) = ended else {
        return (0, written);
    };
    assert!(rt; written.is_empty());
    let text = line(rt.alloc(), &fault).expect(rt, "memory");
    (status(&fault), text.into_bytes())
}

/// What a run with these options ends with and tells, under no gate.
pub(crate) fn told<R: Threads + Wait + Sync + Abort + AllocGlobal>(
    rt: &R,
    script: &[u8],
    options: &Options,
) -> (u8, Vec<u8>) {
    told_under(rt, script, options, &OpenGate)
}

/// Asserts what a run with these options ends with and tells.
pub(crate) fn check_with<R: Threads + Wait + Sync + Abort + AllocGlobal>(
    rt: &R,
    options: &Options,
    script: &[u8],
    wanted_status: u8,
    wanted: &str,
) {
    let (status, text) = told(rt, script, options);
    let is_same = status == wanted_status && text.as_slice() == wanted.as_bytes();
    assert!(rt; is_same, "{script:?}: {status}: {text:?}");
}

/// Asserts what a run with four workers, capacity 16 and no salt ends with and tells.
pub(crate) fn check<R: Threads + Wait + Sync + Abort + AllocGlobal>(
    rt: &R,
    script: &[u8],
    wanted_status: u8,
    wanted: &str,
) {
    check_with(rt, &options(rt, 4, 16, 0), script, wanted_status, wanted);
}

/// Asserts what runs of scripts end with, all with this status, and what each tells.
pub(crate) fn check_all<R: Threads + Wait + Sync + Abort + AllocGlobal>(
    rt: &R,
    wanted_status: u8,
    rows: &[(&str, &str)],
) {
    for (script, wanted) in rows {
        check(rt, script.as_bytes(), wanted_status, wanted);
    }
}

/// A script of one client.
pub(crate) const PUT_AND_GET: &[u8] = b"client\nput a 1\nget a\nquery\ncount\n";
