//! Runs over readers and writers that fail.
use mapcli_core::{Fault, OpenGate, Options, Reader, Writer, run};
use std::alloc::{AllocGlobal, Global};
use std::io::{self, ErrorKind, Read, Write};
use std::process::Abort;
use std::sync::Wait;
use std::thread::Threads;
use test_support::Refusing;

/// The options of a run: four workers, capacity 16 and no salt.
fn options(rt: &impl Abort) -> Options {
    Options::new(4, 16).expect(rt, "options")
}

/// Gives a script at most 8 bytes a read. One read fails, and those after it go on.
#[derive(Drop)]
struct Pieces {
    left: &'static [u8],
    reads: usize,
    failing: usize,
}

impl Read for Pieces {
    fn read(&mut self, buffer: &mut [u8]) -> io::Result<usize> {
        let number = self.reads;
        self.reads = number.wrapping_add(1);
        if number == self.failing {
            return Err(io::Error::from(ErrorKind::BrokenPipe));
        }
        let count = buffer.len().min(8);
        Read::read(&mut self.left, &mut buffer[..count])
    }
}

/// What the writer does at its failing write.
#[derive(Clone, Copy)]
enum Failure {
    Refuse,
    TakeNothing,
}

/// Takes one byte a write. One write, by its number from 1, fails or takes nothing.
#[derive(Drop)]
struct Bytes {
    taken: Vec<u8>,
    writes: usize,
    failing: usize,
    failure: Failure,
}

impl Write for Bytes {
    fn write(&mut self, piece: &[u8]) -> io::Result<usize> {
        self.writes = self.writes.wrapping_add(1);
        if self.writes == self.failing {
            return match self.failure {
                Failure::Refuse => Err(io::Error::from(ErrorKind::BrokenPipe)),
                Failure::TakeNothing => Ok(0),
            };
        }
        match piece.first() {
            Some(byte) => {
                self.taken.push(*byte)?;
                Ok(1)
            }
            None => Ok(0),
        }
    }

    fn flush(&mut self) -> io::Result<()> {
        Ok(())
    }
}

const SCRIPT: &[u8] = b"client\nput a 1\nget a\nquery\ncount\n";

const OUTPUT: &[u8] = b"client 0\nnone\nsome 1\n1\n";

fn in_pieces(failing: usize) -> Pieces {
    Pieces {
        left: SCRIPT,
        reads: 0,
        failing,
    }
}

fn byte_by_byte(alloc: Global, failing: usize, failure: Failure) -> Bytes {
    Bytes {
        taken: Vec::new(alloc),
        writes: 0,
        failing,
        failure,
    }
}

/// What is left of a run on devices: how it ended, what was written, and how many writes and reads
/// there were and failed.
#[derive(Drop)]
struct Left {
    ended: Result<(), Fault>,
    taken: Vec<u8>,
    writes: usize,
    reads: usize,
    failures: (u64, u64),
}

impl Left {
    /// Whether the run was refused by a device and left this.
    fn is_refused(&self, taken: &[u8], failures: (u64, u64)) -> bool {
        let is_device = matches!(self.ended, Err(Fault::Device));
        is_device && self.taken.as_slice() == taken && self.failures == failures
    }

    /// Whether the run ended well and left the whole output.
    fn is_done(&self) -> bool {
        self.ended.is_ok() && self.taken.as_slice() == OUTPUT && self.failures == (0, 0)
    }
}

/// A run whose reader and writer fail at these numbers.
fn run_failing<R: Threads + Wait + Sync + Abort + AllocGlobal>(
    rt: &R,
    failing_read: usize,
    failing_write: usize,
    failure: Failure,
) -> Left {
    let mut input = Reader::new(in_pieces(failing_read));
    let mut output = Writer::new(byte_by_byte(rt.alloc(), failing_write, failure));
    let options = options(rt);
    let ended = run(rt, rt.alloc(), &mut input, &mut output, &options, &OpenGate);
    let failures = (input.failures, output.failures);
    let reads = input.inner.reads;
    let Bytes { taken, writes, .. } = output.inner;
    Left {
        ended,
        taken,
        writes,
        reads,
        failures,
    }
}

/// The script comes in five pieces, and a sixth read tells its end.
#[test]
fn a_failed_read_is_never_the_end_of_the_input(rt: HostRuntime) {
    for failing in 0..6 {
        let left = run_failing(&rt, failing, 0, Failure::Refuse);
        assert!(rt;
            left.is_refused(b"", (1, 0)) && left.writes == 0,
            "at {failing}"
        );
    }
    let left = run_failing(&rt, 6, 0, Failure::Refuse);
    assert!(rt; left.is_done() && left.reads == 6);
}

/// A reader and a writer of which a signal interrupts every second call.
#[derive(Drop)]
struct Interrupted<D> {
    inner: D,
    is_next: bool,
}

impl<D> Interrupted<D> {
    fn is_interrupted(&mut self) -> bool {
        self.is_next = !self.is_next;
        self.is_next
    }
}

impl<D: Read> Read for Interrupted<D> {
    fn read(&mut self, buffer: &mut [u8]) -> io::Result<usize> {
        if self.is_interrupted() {
            return Err(io::Error::from(ErrorKind::Interrupted));
        }
        self.inner.read(buffer)
    }
}

impl<D: Write> Write for Interrupted<D> {
    fn write(&mut self, piece: &[u8]) -> io::Result<usize> {
        if self.is_interrupted() {
            return Err(io::Error::from(ErrorKind::Interrupted));
        }
        self.inner.write(piece)
    }

    fn flush(&mut self) -> io::Result<()> {
        self.inner.flush()
    }
}

#[test]
fn interrupted_reads_and_writes_are_made_again(rt: HostRuntime) {
    let mut input = Reader::new(Interrupted {
        inner: in_pieces(6),
        is_next: false,
    });
    let mut output = Writer::new(Interrupted {
        inner: byte_by_byte(rt.alloc(), 0, Failure::Refuse),
        is_next: false,
    });
    let options = options(&rt);
    let ended = run(
        &rt,
        rt.alloc(),
        &mut input,
        &mut output,
        &options,
        &OpenGate,
    )
    .is_ok();
    let failures = (input.failures, output.failures);
    let is_whole = output.inner.inner.taken.as_slice() == OUTPUT;
    drop(input);
    drop(output);
    assert!(rt; ended && is_whole && failures == (0, 0));
}

/// Where one of the writes fails, one for each byte of the output text, what was written is a
/// beginning of it.
#[test]
fn a_failed_write_leaves_a_beginning(rt: HostRuntime) {
    for failure in &[Failure::Refuse, Failure::TakeNothing] {
        for taken in 0..OUTPUT.len() {
            let left = run_failing(&rt, 6, taken + 1, *failure);
            let is_refused = left.is_refused(&OUTPUT[..taken], (0, 1));
            assert!(rt; is_refused, "after {taken}");
        }
    }
    let left = run_failing(&rt, 6, OUTPUT.len() + 1, Failure::Refuse);
    assert!(rt; left.is_done());
}

/// A script with a query of each kind, the numbers and the list by more than one task.
const ALL_QUERIES: &[u8] =
    b"client\nput b 1\nput a 2\nmerge a 3 sum\nclient\nget c\nquery\ncount\nreduce sum 1\nreduce max 1\nsearch above 4 1\nlist 1\n";

/// Its output text.
const ALL_ANSWERS: &[u8] =
    b"client 0\nnone\nnone\nsome 5\nclient 1\nnone\n2\n6\nsome 5\nsome 5\na 5\nb 1\n";

/// A run that is granted so many requests, and refused the next: whether it was made, and whether
/// the run ended well. Where it did it has written its whole output text, since what a worker is
/// refused memory for is done without; and else it says so and has written nothing.
fn run_granted<R: Threads + Wait + Sync + Abort + AllocGlobal>(
    rt: &R,
    refusing: &Refusing<Global>,
    granted: u64,
) -> (bool, bool) {
    let mut input = Reader::new(ALL_QUERIES);
    let mut output = Writer::new(Vec::new(rt.alloc()));
    let options = options(rt);
    refusing.refuse_after(granted);
    let ended = run(rt, refusing, &mut input, &mut output, &options, &OpenGate);
    let was_refused = refusing.has_refused();
    let written = output.inner.as_slice();
    match &ended {
        Ok(()) => assert!(rt; written == ALL_ANSWERS, "at {granted}"),
        Err(Fault::NoMemory) => assert!(rt; was_refused && written.is_empty(), "at {granted}"),
        Err(_) => panic!(rt; "another fault at {granted}"),
    }
    (was_refused, ended.is_ok())
}

/// Each request for memory is refused in turn, those of the queries too, until a run asks for no
/// more.
#[test]
fn a_refused_request_leaves_all_written_or_nothing(rt: HostRuntime) {
    let refusing = Refusing::new(rt.alloc());
    let (mut ended_well, mut ended_early) = (0u64, 0u64);
    for granted in 0..1000 {
        match run_granted(&rt, &refusing, granted) {
            (false, _) => {
                assert!(rt; ended_well > 0 && ended_early > 10);
                return;
            }
            (true, true) => ended_well = ended_well.wrapping_add(1),
            (true, false) => ended_early = ended_early.wrapping_add(1),
        }
    }
    panic!(rt; "each of 1000 requests was refused")
}
