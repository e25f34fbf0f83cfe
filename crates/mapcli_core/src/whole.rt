//! Whole inputs and whole outputs.
ghost use Rattle.std.specs.Prelude.{◌≡◌, ◌<◌, ◌⊎◌, vec_len, IfOk, IfSome, OnOk, OnErr, IsErrOf};
ghost use Rattle.std.specs.Io.KnownBytes.{Appends};
ghost use Rattle.std.specs.List.{flat_map};
ghost use Rattle.mapcli_core.specs.Failures.{count_after};
ghost use Rattle.mapcli_core.specs.Devices.{AppendsFront};

use crate::device::{Input, Output};
use crate::fault::Fault;
use std::alloc::{AllocError, Allocator};

/// How many bytes are asked for at a time.
const PIECE: usize = 64 * 1024;

fn piece<A: Allocator>(alloc: A) -> Result<Vec<u8, A>, AllocError>
    ensures { IfOk result (λ p. 0 < vec_len p) }
{
    vec![in alloc; 0u8; PIECE]
}

/// All bytes that the input gives.
pub(crate) fn read_all<I: Input, A: Allocator + Clone>(
    alloc: A,
    input: &mut I,
) -> Result<Vec<u8, A>, Fault>
    ensures text { IfOk result
        (λ text. IfSome (I.remaining input.old) (λ bytes. text.items ≡ bytes)) }
    ensures failures { I.failures input.new ≡ count_after result (I.failures input.old) }
    ensures faults { OnErr result (IsErrOf result Fault.Device ⊎ IsErrOf result Fault.NoMemory) }
{
    let mut piece = piece(alloc.clone()?)?;
    let mut text = Vec::new(alloc);
    for _ in 0..u64::MAX {
        let count = input.read(&mut piece)?;
        if count == 0 {
            return Ok(text);
        }
        text.extend_from_slice(&piece[..count])?;
    }
    Err(Fault::NoMemory)
}

/// Writes all bytes. Where a write fails, a beginning of them was written.
pub(crate) fn write_all<O: Output>(output: &mut O, bytes: &[u8]) -> Result<(), Fault>
    ensures ok { OnOk result (Appends (O.contents output.old) (O.contents output.new) bytes.now) }
    ensures err { OnErr result
        (AppendsFront (O.contents output.old) (O.contents output.new) bytes.now) }
    ensures failures { O.failures output.new ≡ count_after result (O.failures output.old) }
    ensures faults { OnErr result (IsErrOf result Fault.Device) }
{
    let mut written = 0;
    while written < bytes.len() {
        written += output.write(&bytes[written..])?;
    }
    Ok(())
}

/// Writes all pieces, one behind the other. Where a write fails, a beginning of what they are put
/// together was written. It takes no memory.
pub(crate) fn write_pieces<O: Output>(output: &mut O, pieces: &[&str]) -> Result<(), Fault>
    ensures ok { OnOk result (Appends (O.contents output.old) (O.contents output.new)
        (flat_map (λ p. p.now) pieces.now)) }
    ensures err { OnErr result (AppendsFront (O.contents output.old) (O.contents output.new)
        (flat_map (λ p. p.now) pieces.now)) }
    ensures failures { O.failures output.new ≡ count_after result (O.failures output.old) }
    ensures faults { OnErr result (IsErrOf result Fault.Device) }
{
    for piece in pieces {
        write_all(output, piece.as_bytes())?;
    }
    Ok(())
}
