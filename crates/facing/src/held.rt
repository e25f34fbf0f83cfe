//! Values of a map of byte strings that are held, and read in parts.
ghost use Rattle.std.specs.Prelude.{◌≡◌};
ghost use Rattle.facing_maps.specs.Answers.{answered};
ghost use Rattle.facing_maps.specs.Stages.{status_in};
ghost use Rattle.facing_maps.specs.Statuses.{facing_wrong_handle};
ghost use Rattle.facing.specs.Handles.{IsFilled};
ghost use Rattle.facing.specs.Calls.{IsHeld, IsHeldAs, IsRead};

use crate::calls::try_look_bytes;
use crate::handle::{Asked, FacingHandle, FacingOut, lend};
use crate::owners::give;
use crate::target::Target;
use bin_history::Reply;
use facing_maps::{
    CallOutcome, DONE, FacingAnswer, SharedBytes, copy_into, status_in, tell_length,
};
use std::alloc::Global;

/// Gives a handle of the value that a look found, and tells how many bytes it has.
fn hold(
    alloc: Global,
    tried: CallOutcome<SharedBytes>,
    held: &mut FacingOut,
    answer: &mut FacingAnswer,
) -> u32
    ensures { IsHeldAs tried result (held.old, answer.old) (held.new, answer.new) }
{
    match tried {
        Ok(Some(Ok(Reply::Value(Some(value))))) => {
            let len = value.bytes().len() as u64;
            let status = give(alloc, Target::Held(value), held);
            if status == DONE {
                *answer = FacingAnswer::some(len);
            }
            status
        }
        others => tell_length(others, answer),
    }
}

/// Gets the value at the key as a handle of its own, which lives on where the map gives its key another:
/// a copy of at most 22 bytes, or an owner more of a longer value, until the handle is freed. It answers
/// how many bytes the value has. It takes memory for the handle.
#[unsafe(no_mangle)]
pub extern "C" fn facing_c_bytes_try_hold(
    alloc: Global,
    client: FacingHandle,
    out: &mut FacingOut,
    key: &[u8],
    held: &mut FacingOut,
    answer: &mut FacingAnswer,
) -> u32
    ensures filled { IsFilled client.ptr → IsFilled out.new.ptr }
    ensures told { IsFilled client.ptr → IsHeld client.target key.now out.new.target result
        (held.old, answer.old) (held.new, answer.new) }
    ensures null { ¬ IsFilled client.ptr → (result ≡ facing_wrong_handle) × (out.new ≡ out.old)
        × (held.new ≡ held.old) × (answer.new ≡ answer.old) }
{
    let tried = lend!(client, out, |target| try_look_bytes(target, key));
    hold(alloc, tried, held, answer)
}

/// Copies the bytes of the value that this is, if it is one, from a place on, as far as there is room for
/// them.
fn read(target: &Target, from: usize, room: &mut [u8], answer: &mut FacingAnswer) -> Asked<()>
    ensures { IsRead target.now from (status_in (answered result)) (room.old, answer.old) (room.new, answer.new) }
{
    match target {
        Target::Held(value) => {
            let bytes = value.bytes();
            *answer = FacingAnswer::some(bytes.len() as u64);
            if from < bytes.len() {
                copy_into(&bytes[from..], room);
            }
            Some(Ok(()))
        }
        _ => None,
    }
}

/// Copies bytes of a value that is held, from this place on, as far as there is room for them. It answers
/// how many bytes the value has.
#[unsafe(no_mangle)]
pub extern "C" fn facing_c_bytes_read(
    held: FacingHandle,
    out: &mut FacingOut,
    from: usize,
    room: &mut [u8],
    answer: &mut FacingAnswer,
) -> u32
    ensures filled { IsFilled held.ptr → IsFilled out.new.ptr }
    ensures same { IsFilled held.ptr → out.new.target ≡ held.target }
    ensures read { IsFilled held.ptr →
        IsRead held.target from result (room.old, answer.old) (room.new, answer.new) }
    ensures null { ¬ IsFilled held.ptr → (result ≡ facing_wrong_handle) × (out.new ≡ out.old)
        × (room.new ≡ room.old) × (answer.new ≡ answer.old) }
{
    status_in(lend!(held, out, |target| read(target, from, room, answer)))
}
