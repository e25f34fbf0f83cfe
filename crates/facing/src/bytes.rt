//! The exports of the map from byte strings to byte strings. The header `facing_bytes.h` says what C
//! must keep.
ghost use Rattle.std.specs.Prelude.{◌≡◌, ◌≢◌};
ghost use Rattle.bin_history.specs.Limits.{most_clients};
ghost use Rattle.bin_history.specs.declared.form.Form.TheVariants.{Lean};
ghost use Rattle.bin_history.specs.declared.op.Op.TheVariants.{Put, PutIfAbsent, Remove, RemoveIf};
ghost use Rattle.bin_history.specs.declared.op.Op.TheVariants.{Replace, ReplaceIf};
ghost use Rattle.chm.specs.Refusals.{IsCapacityOf};
ghost use Rattle.facing_maps.specs.Stages.{IsMakingStatus};
ghost use Rattle.facing_maps.specs.Statuses.{facing_done, facing_wrong_handle};
ghost use Rattle.facing.specs.Calls.{IsBytesTold, IsTruthTold, IsBytesShown, IsBytesHas};
ghost use Rattle.facing.specs.Closed.{IsBytesFound};
ghost use Rattle.facing.specs.Handles.{IsFilled};
ghost use Rattle.facing.specs.Targets.{IsBytesOpened};

use crate::calls::{try_byte, try_has_bytes, try_look_bytes};
use crate::closed;
use crate::handle::{FacingHandle, FacingOut, lend};
use crate::owners::give;
use crate::target::Target;
use bin_history::Op;
use facing_maps::{
    FacingAnswer, Keys, Stage, code_of, status_in, tell_bytes, tell_length, tell_whole,
};
use functions::NoFunction;
use hashkeys::Bytes;
use seeded_keys::Seed;
use std::alloc::Global;

/// Opens a map without entries, whose keys are byte strings under this seed, for a number of clients:
/// a table for so many bins, 1 to 2^26, and 1 to 65,536 clients.
#[unsafe(no_mangle)]
pub extern "C" fn facing_c_bytes_open(
    alloc: Global,
    capacity: usize,
    clients: u32,
    seed0: u64,
    seed1: u64,
    out: &mut FacingOut,
) -> u32
    ensures new { result ≡ facing_done → IsFilled out.new.ptr
        × IsBytesOpened (record { key0 = seed0; key1 = seed1 }) capacity clients out.new.target }
    ensures refused { result ≢ facing_done → out.new ≡ out.old }
    ensures status { IsMakingStatus (IsCapacityOf Lean capacity) (most_clients Lean) clients result }
{
    match Stage::open(alloc, capacity, clients, 0) {
        Ok(stage) => {
            let keys = Keys::new(alloc, Seed::of(seed0, seed1));
            give(alloc, Target::Bytes(keys, stage), out)
        }
        Err(fault) => code_of(fault),
    }
}

/// Tries a call of a client, whose reply is a value.
fn call(
    client: FacingHandle,
    out: &mut FacingOut,
    key: &[u8],
    op: Op<Bytes<'_>, NoFunction>,
    room: &mut [u8],
    answer: &mut FacingAnswer,
) -> u32
    ensures filled { IsFilled client.ptr → IsFilled out.new.ptr }
    ensures told { IsFilled client.ptr → IsBytesTold client.target op.entry key.now
        out.new.target result (room.old, answer.old) (room.new, answer.new) }
    ensures null { ¬ IsFilled client.ptr → (result ≡ facing_wrong_handle) × (out.new ≡ out.old)
        × (room.new ≡ room.old) × (answer.new ≡ answer.old) }
{
    let tried = lend!(client, out, |target| try_byte(target, key, op));
    tell_bytes(tried, room, answer)
}

/// Tries a call of a client, whose reply is a truth.
fn ask(
    client: FacingHandle,
    out: &mut FacingOut,
    key: &[u8],
    op: Op<Bytes<'_>, NoFunction>,
    answer: &mut FacingAnswer,
) -> u32
    ensures filled { IsFilled client.ptr → IsFilled out.new.ptr }
    ensures told { IsFilled client.ptr → IsTruthTold client.target op.entry key.now
        out.new.target result answer.old answer.new }
    ensures null { ¬ IsFilled client.ptr →
        (result ≡ facing_wrong_handle) × (out.new ≡ out.old) × (answer.new ≡ answer.old) }
{
    let tried = lend!(client, out, |target| try_byte(target, key, op));
    tell_length(tried, answer)
}

/// Gets the value at the key, where it finds room. It answers how many bytes the value has. No key is
/// made. At most 22 bytes are copied while the bucket is locked; a longer value has an owner more for as
/// long as it is copied.
#[unsafe(no_mangle)]
pub extern "C" fn facing_c_bytes_try_get(
    client: FacingHandle,
    out: &mut FacingOut,
    key: &[u8],
    room: &mut [u8],
    answer: &mut FacingAnswer,
) -> u32
    ensures filled { IsFilled client.ptr → IsFilled out.new.ptr }
    ensures told { IsFilled client.ptr → IsBytesShown client.target key.now out.new.target result
        (room.old, answer.old) (room.new, answer.new) }
    ensures null { ¬ IsFilled client.ptr → (result ≡ facing_wrong_handle) × (out.new ≡ out.old)
        × (room.new ≡ room.old) × (answer.new ≡ answer.old) }
{
    let tried = lend!(client, out, |target| try_look_bytes(target, key));
    tell_whole(tried, room, answer)
}

/// Whether the key has a value. It takes no memory.
#[unsafe(no_mangle)]
pub extern "C" fn facing_c_bytes_try_contains(
    client: FacingHandle,
    out: &mut FacingOut,
    key: &[u8],
    answer: &mut FacingAnswer,
) -> u32
    ensures filled { IsFilled client.ptr → IsFilled out.new.ptr }
    ensures told { IsFilled client.ptr →
        IsBytesHas client.target key.now out.new.target result answer.old answer.new }
    ensures null { ¬ IsFilled client.ptr →
        (result ≡ facing_wrong_handle) × (out.new ≡ out.old) × (answer.new ≡ answer.old) }
{
    let tried = lend!(client, out, |target| try_has_bytes(target, key));
    tell_length(tried, answer)
}

/// Gives the key this value. It answers the value before.
#[unsafe(no_mangle)]
pub extern "C" fn facing_c_bytes_try_put(
    client: FacingHandle,
    out: &mut FacingOut,
    key: &[u8],
    value: &[u8],
    room: &mut [u8],
    answer: &mut FacingAnswer,
) -> u32
    ensures filled { IsFilled client.ptr → IsFilled out.new.ptr }
    ensures told { IsFilled client.ptr → IsBytesTold client.target (Put value.now) key.now
        out.new.target result (room.old, answer.old) (room.new, answer.new) }
    ensures null { ¬ IsFilled client.ptr → (result ≡ facing_wrong_handle) × (out.new ≡ out.old)
        × (room.new ≡ room.old) × (answer.new ≡ answer.old) }
{
    call(client, out, key, Op::Put(Bytes(value)), room, answer)
}

/// Gives the key this value where it has none. It answers the value before.
#[unsafe(no_mangle)]
pub extern "C" fn facing_c_bytes_try_put_if_absent(
    client: FacingHandle,
    out: &mut FacingOut,
    key: &[u8],
    value: &[u8],
    room: &mut [u8],
    answer: &mut FacingAnswer,
) -> u32
    ensures filled { IsFilled client.ptr → IsFilled out.new.ptr }
    ensures told { IsFilled client.ptr → IsBytesTold client.target (PutIfAbsent value.now) key.now
        out.new.target result (room.old, answer.old) (room.new, answer.new) }
    ensures null { ¬ IsFilled client.ptr → (result ≡ facing_wrong_handle) × (out.new ≡ out.old)
        × (room.new ≡ room.old) × (answer.new ≡ answer.old) }
{
    call(
        client,
        out,
        key,
        Op::PutIfAbsent(Bytes(value)),
        room,
        answer,
    )
}

/// Takes the key away. It answers the value before.
#[unsafe(no_mangle)]
pub extern "C" fn facing_c_bytes_try_remove(
    client: FacingHandle,
    out: &mut FacingOut,
    key: &[u8],
    room: &mut [u8],
    answer: &mut FacingAnswer,
) -> u32
    ensures filled { IsFilled client.ptr → IsFilled out.new.ptr }
    ensures told { IsFilled client.ptr → IsBytesTold client.target (Remove) key.now
        out.new.target result (room.old, answer.old) (room.new, answer.new) }
    ensures null { ¬ IsFilled client.ptr → (result ≡ facing_wrong_handle) × (out.new ≡ out.old)
        × (room.new ≡ room.old) × (answer.new ≡ answer.old) }
{
    call(client, out, key, Op::Remove, room, answer)
}

/// Takes the key away where it has this value. It answers whether it had.
#[unsafe(no_mangle)]
pub extern "C" fn facing_c_bytes_try_remove_if(
    client: FacingHandle,
    out: &mut FacingOut,
    key: &[u8],
    value: &[u8],
    answer: &mut FacingAnswer,
) -> u32
    ensures filled { IsFilled client.ptr → IsFilled out.new.ptr }
    ensures told { IsFilled client.ptr → IsTruthTold client.target (RemoveIf value.now) key.now
        out.new.target result answer.old answer.new }
    ensures null { ¬ IsFilled client.ptr →
        (result ≡ facing_wrong_handle) × (out.new ≡ out.old) × (answer.new ≡ answer.old) }
{
    ask(client, out, key, Op::RemoveIf(Bytes(value)), answer)
}

/// Gives the key this value where it has one. It answers the value before.
#[unsafe(no_mangle)]
pub extern "C" fn facing_c_bytes_try_replace(
    client: FacingHandle,
    out: &mut FacingOut,
    key: &[u8],
    value: &[u8],
    room: &mut [u8],
    answer: &mut FacingAnswer,
) -> u32
    ensures filled { IsFilled client.ptr → IsFilled out.new.ptr }
    ensures told { IsFilled client.ptr → IsBytesTold client.target (Replace value.now) key.now
        out.new.target result (room.old, answer.old) (room.new, answer.new) }
    ensures null { ¬ IsFilled client.ptr → (result ≡ facing_wrong_handle) × (out.new ≡ out.old)
        × (room.new ≡ room.old) × (answer.new ≡ answer.old) }
{
    call(client, out, key, Op::Replace(Bytes(value)), room, answer)
}

/// Gives the key the new value where it has the old one. It answers whether it had.
#[unsafe(no_mangle)]
pub extern "C" fn facing_c_bytes_try_replace_if(
    client: FacingHandle,
    out: &mut FacingOut,
    key: &[u8],
    old: &[u8],
    new: &[u8],
    answer: &mut FacingAnswer,
) -> u32
    ensures filled { IsFilled client.ptr → IsFilled out.new.ptr }
    ensures told { IsFilled client.ptr → IsTruthTold client.target (ReplaceIf old.now new.now) key.now
        out.new.target result answer.old answer.new }
    ensures null { ¬ IsFilled client.ptr →
        (result ≡ facing_wrong_handle) × (out.new ≡ out.old) × (answer.new ≡ answer.old) }
{
    ask(
        client,
        out,
        key,
        Op::ReplaceIf(Bytes(old), Bytes(new)),
        answer,
    )
}

/// Finds the value at a key of a closed map, where it finds room. It answers how many bytes the value
/// has.
#[unsafe(no_mangle)]
pub extern "C" fn facing_c_bytes_find(
    closed: FacingHandle,
    out: &mut FacingOut,
    key: &[u8],
    room: &mut [u8],
    answer: &mut FacingAnswer,
) -> u32
    ensures filled { IsFilled closed.ptr → IsFilled out.new.ptr }
    ensures same { IsFilled closed.ptr → out.new.target ≡ closed.target }
    ensures found { IsFilled closed.ptr → IsBytesFound closed.target key.now result
        (room.old, answer.old) (room.new, answer.new) }
    ensures null { ¬ IsFilled closed.ptr → (result ≡ facing_wrong_handle) × (out.new ≡ out.old)
        × (room.new ≡ room.old) × (answer.new ≡ answer.old) }
{
    let found = lend!(
        closed,
        out,
        |target| closed::find_bytes(target, key, room, answer)
    );
    status_in(found)
}
