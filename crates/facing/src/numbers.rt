//! The exports of the map from whole numbers to whole numbers. The header `facing.h` says what C must
//! keep.
ghost use Rattle.std.specs.Prelude.{◌≡◌, ◌≢◌};
ghost use Rattle.bin_history.specs.Limits.{most_clients};
ghost use Rattle.bin_history.specs.Ops.{call_on};
ghost use Rattle.bin_history.specs.declared.call.Call.TheVariants.{Get, Contains, Put, PutIfAbsent};
ghost use Rattle.bin_history.specs.declared.call.Call.TheVariants.{Remove, RemoveIf, Replace};
ghost use Rattle.bin_history.specs.declared.call.Call.TheVariants.{ReplaceIf, Merge};
ghost use Rattle.bin_history.specs.declared.form.Form.TheVariants.{Lean};
ghost use Rattle.chm.specs.Refusals.{IsCapacityOf};
ghost use Rattle.facing_maps.specs.Stages.{IsMakingStatus};
ghost use Rattle.facing_maps.specs.Statuses.{facing_done, facing_wrong_handle};
ghost use Rattle.facing.specs.Calls.{IsNumberTold};
ghost use Rattle.facing.specs.Closed.{IsNumberFound};
ghost use Rattle.facing.specs.Handles.{IsFilled};
ghost use Rattle.facing.specs.Targets.{IsNumbersOpened};

use crate::calls::try_number;
use crate::closed;
use crate::handle::{FacingHandle, FacingOut, lend};
use crate::owners::give;
use crate::target::Target;
use bin_history::Op;
use facing_maps::{FacingAnswer, Merging, Stage, code_of, status_in, tell};
use seeded_keys::NumberSeed;
use std::alloc::Global;

/// Opens a map without entries, for a number of clients: a table for so many bins, 1 to 2^26, and 1
/// to 65,536 clients. Its keys lie in it under the seed of these two numbers. The salt is mixed into the
/// codes of keys.
#[unsafe(no_mangle)]
pub extern "C" fn facing_c_open_seeded(
    alloc: Global,
    capacity: usize,
    clients: u32,
    salt: u32,
    seed0: u64,
    seed1: u64,
    out: &mut FacingOut,
) -> u32
    ensures new { result ≡ facing_done → IsFilled out.new.ptr
        × IsNumbersOpened seed0 seed1 salt capacity clients out.new.target }
    ensures refused { result ≢ facing_done → out.new ≡ out.old }
    ensures status { IsMakingStatus (IsCapacityOf Lean capacity) (most_clients Lean) clients result }
{
    match Stage::open(alloc, capacity, clients, salt) {
        Ok(stage) => {
            let seed = NumberSeed::of(seed0, seed1);
            give(alloc, Target::Numbers(seed, stage), out)
        }
        Err(fault) => code_of(fault),
    }
}

/// Opens a map as `facing_c_open_seeded` does, under the seed of 1 and 0, which leaves numbers near each
/// other near each other.
#[unsafe(no_mangle)]
pub extern "C" fn facing_c_open(
    alloc: Global,
    capacity: usize,
    clients: u32,
    salt: u32,
    out: &mut FacingOut,
) -> u32
    ensures new { result ≡ facing_done → IsFilled out.new.ptr
        × IsNumbersOpened 1 0 salt capacity clients out.new.target }
    ensures refused { result ≢ facing_done → out.new ≡ out.old }
    ensures status { IsMakingStatus (IsCapacityOf Lean capacity) (most_clients Lean) clients result }
{
    facing_c_open_seeded(alloc, capacity, clients, salt, 1, 0, out)
}

/// Tries a call of a client.
fn call(
    client: FacingHandle,
    out: &mut FacingOut,
    key: u64,
    op: Op<u64, Merging>,
    answer: &mut FacingAnswer,
) -> u32
    ensures filled { IsFilled client.ptr → IsFilled out.new.ptr }
    ensures told { IsFilled client.ptr →
        IsNumberTold client.target (λ k. call_on k op) key out.new.target result answer.old answer.new }
    ensures null { ¬ IsFilled client.ptr →
        (result ≡ facing_wrong_handle) × (out.new ≡ out.old) × (answer.new ≡ answer.old) }
{
    let tried = lend!(client, out, |target| try_number(target, key, op));
    tell(tried, answer)
}

/// Gets the value at the key.
#[unsafe(no_mangle)]
pub extern "C" fn facing_c_try_get(
    client: FacingHandle,
    out: &mut FacingOut,
    key: u64,
    answer: &mut FacingAnswer,
) -> u32
    ensures filled { IsFilled client.ptr → IsFilled out.new.ptr }
    ensures told { IsFilled client.ptr →
        IsNumberTold client.target (λ k. Get k) key out.new.target result answer.old answer.new }
    ensures null { ¬ IsFilled client.ptr →
        (result ≡ facing_wrong_handle) × (out.new ≡ out.old) × (answer.new ≡ answer.old) }
{
    call(client, out, key, Op::Get, answer)
}

/// Whether the key has a value.
#[unsafe(no_mangle)]
pub extern "C" fn facing_c_try_contains(
    client: FacingHandle,
    out: &mut FacingOut,
    key: u64,
    answer: &mut FacingAnswer,
) -> u32
    ensures filled { IsFilled client.ptr → IsFilled out.new.ptr }
    ensures told { IsFilled client.ptr →
        IsNumberTold client.target (λ k. Contains k) key out.new.target result answer.old answer.new }
    ensures null { ¬ IsFilled client.ptr →
        (result ≡ facing_wrong_handle) × (out.new ≡ out.old) × (answer.new ≡ answer.old) }
{
    call(client, out, key, Op::Contains, answer)
}

/// Gives the key this value. It answers the value before.
#[unsafe(no_mangle)]
pub extern "C" fn facing_c_try_put(
    client: FacingHandle,
    out: &mut FacingOut,
    key: u64,
    value: u64,
    answer: &mut FacingAnswer,
) -> u32
    ensures filled { IsFilled client.ptr → IsFilled out.new.ptr }
    ensures told { IsFilled client.ptr →
        IsNumberTold client.target (λ k. Put k value) key out.new.target result answer.old answer.new }
    ensures null { ¬ IsFilled client.ptr →
        (result ≡ facing_wrong_handle) × (out.new ≡ out.old) × (answer.new ≡ answer.old) }
{
    call(client, out, key, Op::Put(value), answer)
}

/// Gives the key this value where it has none. It answers the value before.
#[unsafe(no_mangle)]
pub extern "C" fn facing_c_try_put_if_absent(
    client: FacingHandle,
    out: &mut FacingOut,
    key: u64,
    value: u64,
    answer: &mut FacingAnswer,
) -> u32
    ensures filled { IsFilled client.ptr → IsFilled out.new.ptr }
    ensures told { IsFilled client.ptr →
        IsNumberTold client.target (λ k. PutIfAbsent k value) key out.new.target result answer.old answer.new }
    ensures null { ¬ IsFilled client.ptr →
        (result ≡ facing_wrong_handle) × (out.new ≡ out.old) × (answer.new ≡ answer.old) }
{
    call(client, out, key, Op::PutIfAbsent(value), answer)
}

/// Takes the key away. It answers the value before.
#[unsafe(no_mangle)]
pub extern "C" fn facing_c_try_remove(
    client: FacingHandle,
    out: &mut FacingOut,
    key: u64,
    answer: &mut FacingAnswer,
) -> u32
    ensures filled { IsFilled client.ptr → IsFilled out.new.ptr }
    ensures told { IsFilled client.ptr →
        IsNumberTold client.target (λ k. Remove k) key out.new.target result answer.old answer.new }
    ensures null { ¬ IsFilled client.ptr →
        (result ≡ facing_wrong_handle) × (out.new ≡ out.old) × (answer.new ≡ answer.old) }
{
    call(client, out, key, Op::Remove, answer)
}

/// Takes the key away where it has this value. It answers whether it had.
#[unsafe(no_mangle)]
pub extern "C" fn facing_c_try_remove_if(
    client: FacingHandle,
    out: &mut FacingOut,
    key: u64,
    value: u64,
    answer: &mut FacingAnswer,
) -> u32
    ensures filled { IsFilled client.ptr → IsFilled out.new.ptr }
    ensures told { IsFilled client.ptr →
        IsNumberTold client.target (λ k. RemoveIf k value) key out.new.target result answer.old answer.new }
    ensures null { ¬ IsFilled client.ptr →
        (result ≡ facing_wrong_handle) × (out.new ≡ out.old) × (answer.new ≡ answer.old) }
{
    call(client, out, key, Op::RemoveIf(value), answer)
}

/// Gives the key this value where it has one. It answers the value before.
#[unsafe(no_mangle)]
pub extern "C" fn facing_c_try_replace(
    client: FacingHandle,
    out: &mut FacingOut,
    key: u64,
    value: u64,
    answer: &mut FacingAnswer,
) -> u32
    ensures filled { IsFilled client.ptr → IsFilled out.new.ptr }
    ensures told { IsFilled client.ptr →
        IsNumberTold client.target (λ k. Replace k value) key out.new.target result answer.old answer.new }
    ensures null { ¬ IsFilled client.ptr →
        (result ≡ facing_wrong_handle) × (out.new ≡ out.old) × (answer.new ≡ answer.old) }
{
    call(client, out, key, Op::Replace(value), answer)
}

/// Gives the key the new value where it has the old one. It answers whether it had.
#[unsafe(no_mangle)]
pub extern "C" fn facing_c_try_replace_if(
    client: FacingHandle,
    out: &mut FacingOut,
    key: u64,
    old: u64,
    new: u64,
    answer: &mut FacingAnswer,
) -> u32
    ensures filled { IsFilled client.ptr → IsFilled out.new.ptr }
    ensures told { IsFilled client.ptr →
        IsNumberTold client.target (λ k. ReplaceIf k old new) key out.new.target result answer.old answer.new }
    ensures null { ¬ IsFilled client.ptr →
        (result ≡ facing_wrong_handle) × (out.new ≡ out.old) × (answer.new ≡ answer.old) }
{
    call(client, out, key, Op::ReplaceIf(old, new), answer)
}

/// Adds to the value at the key, or gives it this one where it has none. It answers the value after.
#[unsafe(no_mangle)]
pub extern "C" fn facing_c_try_add(
    client: FacingHandle,
    out: &mut FacingOut,
    key: u64,
    value: u64,
    answer: &mut FacingAnswer,
) -> u32
    ensures filled { IsFilled client.ptr → IsFilled out.new.ptr }
    ensures told { IsFilled client.ptr →
        IsNumberTold client.target (λ k. Merge k value Merging.Add) key out.new.target result answer.old answer.new }
    ensures null { ¬ IsFilled client.ptr →
        (result ≡ facing_wrong_handle) × (out.new ≡ out.old) × (answer.new ≡ answer.old) }
{
    call(client, out, key, Op::Merge(value, Merging::Add), answer)
}

/// Gives the key the greater of its value and this one. It answers the value after.
#[unsafe(no_mangle)]
pub extern "C" fn facing_c_try_greatest(
    client: FacingHandle,
    out: &mut FacingOut,
    key: u64,
    value: u64,
    answer: &mut FacingAnswer,
) -> u32
    ensures filled { IsFilled client.ptr → IsFilled out.new.ptr }
    ensures told { IsFilled client.ptr →
        IsNumberTold client.target (λ k. Merge k value Merging.Greatest) key out.new.target result answer.old answer.new }
    ensures null { ¬ IsFilled client.ptr →
        (result ≡ facing_wrong_handle) × (out.new ≡ out.old) × (answer.new ≡ answer.old) }
{
    call(
        client,
        out,
        key,
        Op::Merge(value, Merging::Greatest),
        answer,
    )
}

/// Gives the key this value. It answers the value after.
#[unsafe(no_mangle)]
pub extern "C" fn facing_c_try_set(
    client: FacingHandle,
    out: &mut FacingOut,
    key: u64,
    value: u64,
    answer: &mut FacingAnswer,
) -> u32
    ensures filled { IsFilled client.ptr → IsFilled out.new.ptr }
    ensures told { IsFilled client.ptr →
        IsNumberTold client.target (λ k. Merge k value Merging.Set) key out.new.target result answer.old answer.new }
    ensures null { ¬ IsFilled client.ptr →
        (result ≡ facing_wrong_handle) × (out.new ≡ out.old) × (answer.new ≡ answer.old) }
{
    call(client, out, key, Op::Merge(value, Merging::Set), answer)
}

/// Finds the value at a key of a closed map.
#[unsafe(no_mangle)]
pub extern "C" fn facing_c_find(
    closed: FacingHandle,
    out: &mut FacingOut,
    key: u64,
    answer: &mut FacingAnswer,
) -> u32
    ensures filled { IsFilled closed.ptr → IsFilled out.new.ptr }
    ensures same { IsFilled closed.ptr → out.new.target ≡ closed.target }
    ensures found { IsFilled closed.ptr →
        IsNumberFound closed.target key result answer.old answer.new }
    ensures null { ¬ IsFilled closed.ptr →
        (result ≡ facing_wrong_handle) × (out.new ≡ out.old) × (answer.new ≡ answer.old) }
{
    let found = lend!(
        closed,
        out,
        |target| closed::find_number(target, key, answer)
    );
    status_in(found)
}
