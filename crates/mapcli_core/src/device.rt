//! What bytes are read from and written to.
ghost use Rattle.std.specs.Prelude.{◌≡◌, ℕ, ◌<◌, ◌+◌, ◌^◌, ◌%◌, List, Option, IfOk, is_ok, length};
ghost use Rattle.std.specs.Prelude.{if◌then◌else◌};
ghost use Rattle.std.specs.Io.{ReadsAtMost, WritesAtMost};
ghost use Rattle.std.specs.Io.KnownBytes.{ReadConsumes, WriteAppends};
ghost use Rattle.mapcli_core.specs.Devices.{failures_after};

use std::io::{ErrorKind, Read, Write};

/// A read or a write failed.
#[derive(Clone, Copy, Debug, PartialEq, Eq)]
pub struct DeviceError;

/// What bytes are read from. It counts the reads that failed, modulo 2^64.
pub trait Input {
    // The bytes that reads will give from here on, where they are known.
    ghost remaining: { Self → Option (List ℕ) };

    ghost failures: { Self → ℕ };

    /// Reads some bytes into the front of the buffer and answers how many; 0 at the end of the
    /// input alone, where the buffer has room.
    fn read(&mut self, buffer: &mut [u8]) -> Result<usize, DeviceError>
        ensures bound { ReadsAtMost result buffer.new }
        ensures bytes { ReadConsumes (remaining self.old) (remaining self.new) result buffer.new }
        ensures failures { failures self.new ≡ failures_after result (failures self.old) };
}

/// What bytes are written to. It counts the writes that failed, modulo 2^64. A write that takes no
/// byte of a piece that has some is one that failed.
pub trait Output {
    // The bytes that were written, where they are known.
    ghost contents: { Self → Option (List ℕ) };

    ghost failures: { Self → ℕ };

    /// Writes some bytes of the front of the piece and answers how many.
    fn write(&mut self, piece: &[u8]) -> Result<usize, DeviceError>
        ensures bound { WritesAtMost result piece.now }
        ensures some { IfOk result (λ n. 0 < length piece.now → 0 < n) }
        ensures bytes { WriteAppends (contents self.old) (contents self.new) result piece.now }
        ensures failures { failures self.new ≡ failures_after result (failures self.old) };
}

/// An input from any reader. A read that a signal interrupts is made again.
#[derive(Drop)]
pub struct Reader<R> {
    /// What is read.
    pub inner: R,
    /// How many reads failed, modulo 2^64.
    pub failures: u64,
}

impl<R> Reader<R> {
    /// An input that has not failed yet.
    pub fn new(inner: R) -> Reader<R>
        ensures inner { result.inner ≡ inner }
        ensures failures { result.failures ≡ 0 }
    {
        Reader { inner, failures: 0 }
    }
}

impl<R: Read> Input for Reader<R> {
    ghost remaining = { λ r. R.remaining r.inner };

    ghost failures = { λ r. r.failures };

    fn read(&mut self, buffer: &mut [u8]) -> Result<usize, DeviceError> {
        for _ in 0..u64::MAX {
            match self.inner.read(buffer) {
                Ok(n) => return Ok(n),
                Err(e) if e.kind() == ErrorKind::Interrupted => {}
                Err(_) => break,
            }
        }
        self.failures = self.failures.wrapping_add(1);
        Err(DeviceError)
    }
}

/// An output to any writer. A write that a signal interrupts is made again.
#[derive(Drop)]
pub struct Writer<W> {
    /// What is written to.
    pub inner: W,
    /// How many writes failed, modulo 2^64.
    pub failures: u64,
}

impl<W> Writer<W> {
    /// An output that has not failed yet.
    pub fn new(inner: W) -> Writer<W>
        ensures inner { result.inner ≡ inner }
        ensures failures { result.failures ≡ 0 }
    {
        Writer { inner, failures: 0 }
    }
}

impl<W: Write> Output for Writer<W> {
    ghost contents = { λ w. W.contents w.inner };

    ghost failures = { λ w. w.failures };

    fn write(&mut self, piece: &[u8]) -> Result<usize, DeviceError> {
        for _ in 0..u64::MAX {
            match self.inner.write(piece) {
                Ok(0) if !piece.is_empty() => break,
                Ok(n) => return Ok(n),
                Err(e) if e.kind() == ErrorKind::Interrupted => {}
                Err(_) => break,
            }
        }
        self.failures = self.failures.wrapping_add(1);
        Err(DeviceError)
    }
}
