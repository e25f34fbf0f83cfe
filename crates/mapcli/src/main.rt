//! `mapcli` runs scripts of client blocks over a concurrent hash map, all clients at the same time,
//! and answers queries of it.
#![tactic(auto)]

use mapcli_core::{Fault, OpenGate, Options, Output, Reader, Writer, run, status, tell, words};
use std::alloc::Global;
use std::fs::File;
use std::process::ExitCode;
use std::{env, io};

/// What is told of a word that is not UTF-8, as `clap` would.
const NOT_UTF_8: &str = "error: invalid UTF-8 was detected in one or more arguments

Usage: mapcli [OPTIONS] <FILE>

For more information, try '--help'.
";

/// Reads the words of the command line.
fn read_words(rt: &HostRuntime) -> Result<(Options, String), Fault> {
    let all = match env::args(rt) {
        Ok(all) => all,
        Err(error) => return Err(unread(rt.alloc(), error)),
    };
    let after_name: Vec<String> = all.skip(1).collect(rt.alloc())?;
    words(rt.alloc(), &after_name)
}

/// What the system did not give: memory, or else a device.
fn refused(error: io::Error) -> Fault {
    match error.kind() {
        io::ErrorKind::OutOfMemory => Fault::NoMemory,
        _ => Fault::Device,
    }
}

/// Why the words of the command line could not be read.
fn unread(alloc: Global, error: io::Error) -> Fault {
    if error.kind() != io::ErrorKind::InvalidData {
        return refused(error);
    }
    match String::from_str(alloc, NOT_UTF_8) {
        Ok(text) => Fault::Usage(text),
        Err(_) => Fault::NoMemory,
    }
}

/// Opens FILE.
fn open(rt: &HostRuntime, path: &str) -> Result<File, Fault> {
    File::open(rt, path).map_err(refused)
}

/// Runs a script, from FILE or standard input to standard output.
fn main(rt: HostRuntime) -> ExitCode {
    let alloc = rt.alloc();
    let mut output = Writer::new(rt.stdout());
    let mut errors = Writer::new(rt.stderr());
    let (options, path) = match read_words(&rt) {
        Ok(read) => read,
        Err(fault) => return end(&mut output, &mut errors, &fault),
    };
    let ended = if path.as_str() == "-" {
        let mut input = Reader::new(rt.stdin());
        run(&rt, alloc, &mut input, &mut output, &options, &OpenGate)
    } else {
        match open(&rt, &path) {
            Ok(file) => {
                let mut input = Reader::new(file);
                run(&rt, alloc, &mut input, &mut output, &options, &OpenGate)
            }
            Err(fault) => Err(fault),
        }
    };
    match ended {
        Ok(()) => ExitCode::SUCCESS,
        Err(fault) => end(&mut output, &mut errors, &fault),
    }
}

/// Tells how the run ended, and gives its status.
fn end<O: Output, E: Output>(output: &mut O, errors: &mut E, fault: &Fault) -> ExitCode {
    match tell(output, errors, fault) {
        // help, the one end of status 0, that could not be written
        Err(unwritten) if status(fault) == 0 => {
            let _ = tell(output, errors, &unwritten);
            ExitCode::from(status(&unwritten))
        }
        _ => ExitCode::from(status(fault)),
    }
}
