//! The exports of the map from byte strings to whole numbers. The header `facing_counts.h` says what C
//! must keep.
ghost use Rattle.std.specs.Prelude.{◌≡◌, ◌≢◌};
ghost use Rattle.bin_history.specs.Limits.{most_clients};
ghost use Rattle.bin_history.specs.Ops.{call_on};
ghost use Rattle.bin_history.specs.declared.call.Call.TheVariants.{Put, PutIfAbsent, Remove, RemoveIf};
ghost use Rattle.bin_history.specs.declared.call.Call.TheVariants.{Replace, ReplaceIf, Merge};
ghost use Rattle.bin_history.specs.declared.form.Form.TheVariants.{Lean};
ghost use Rattle.chm.specs.Refusals.{IsCapacityOf};
ghost use Rattle.facing_maps.specs.Stages.{IsMakingStatus};
ghost use Rattle.facing_maps.specs.Statuses.{facing_done, facing_wrong_handle};
ghost use Rattle.facing.specs.Calls.{IsCountTold, IsCountShown, IsCountHas};
ghost use Rattle.facing.specs.Closed.{IsCountFound};
ghost use Rattle.facing.specs.Handles.{IsFilled};
ghost use Rattle.facing.specs.Targets.{IsCountsOpened};

use crate::calls::{try_count, try_has_count, try_look_count};
use crate::closed;
use crate::handle::{FacingHandle, FacingOut, lend};
use crate::owners::give;
use crate::target::Target;
use bin_history::Op;
use facing_maps::{FacingAnswer, Keys, Merging, Stage, code_of, status_in, tell};
use seeded_keys::Seed;
use std::alloc::Global;

/// Opens a map without entries, whose keys are byte strings under this seed, for a number of clients:
/// a table for so many bins, 1 to 2^26, and 1 to 65,536 clients.
#[unsafe(no_mangle)]
pub extern "C" fn facing_c_counts_open(
    alloc: Global,
    capacity: usize,
    clients: u32,
    seed0: u64,
    seed1: u64,
    out: &mut FacingOut,
) -> u32
    ensures new { result ≡ facing_done → IsFilled out.new.ptr
        × IsCountsOpened (record { key0 = seed0; key1 = seed1 }) capacity clients out.new.target }
    ensures refused { result ≢ facing_done → out.new ≡ out.old }
    ensures status { IsMakingStatus (IsCapacityOf Lean capacity) (most_clients Lean) clients result }
{
    match Stage::open(alloc, capacity, clients, 0) {
        Ok(stage) => {
            let keys = Keys::new(alloc, Seed::of(seed0, seed1));
            give(alloc, Target::Counts(keys, stage), out)
        }
        Err(fault) => code_of(fault),
    }
}

/// Tries a call of a client.
fn call(
    client: FacingHandle,
    out: &mut FacingOut,
    key: &[u8],
    op: Op<u64, Merging>,
    answer: &mut FacingAnswer,
) -> u32
    ensures filled { IsFilled client.ptr → IsFilled out.new.ptr }
    ensures told { IsFilled client.ptr → IsCountTold client.target (λ k. call_on k op) key.now
        out.new.target result answer.old answer.new }
    ensures null { ¬ IsFilled client.ptr →
        (result ≡ facing_wrong_handle) × (out.new ≡ out.old) × (answer.new ≡ answer.old) }
{
    let tried = lend!(client, out, |target| try_count(target, key, op));
    tell(tried, answer)
}

/// Gets the value at the key. It takes no memory.
#[unsafe(no_mangle)]
pub extern "C" fn facing_c_counts_try_get(
    client: FacingHandle,
    out: &mut FacingOut,
    key: &[u8],
    answer: &mut FacingAnswer,
) -> u32
    ensures filled { IsFilled client.ptr → IsFilled out.new.ptr }
    ensures told { IsFilled client.ptr →
        IsCountShown client.target key.now out.new.target result answer.old answer.new }
    ensures null { ¬ IsFilled client.ptr →
        (result ≡ facing_wrong_handle) × (out.new ≡ out.old) × (answer.new ≡ answer.old) }
{
    let tried = lend!(client, out, |target| try_look_count(target, key));
    tell(tried, answer)
}

/// Whether the key has a value. It takes no memory.
#[unsafe(no_mangle)]
pub extern "C" fn facing_c_counts_try_contains(
    client: FacingHandle,
    out: &mut FacingOut,
    key: &[u8],
    answer: &mut FacingAnswer,
) -> u32
    ensures filled { IsFilled client.ptr → IsFilled out.new.ptr }
    ensures told { IsFilled client.ptr →
        IsCountHas client.target key.now out.new.target result answer.old answer.new }
    ensures null { ¬ IsFilled client.ptr →
        (result ≡ facing_wrong_handle) × (out.new ≡ out.old) × (answer.new ≡ answer.old) }
{
    let tried = lend!(client, out, |target| try_has_count(target, key));
    tell(tried, answer)
}

/// Gives the key this value. It answers the value before.
#[unsafe(no_mangle)]
pub extern "C" fn facing_c_counts_try_put(
    client: FacingHandle,
    out: &mut FacingOut,
    key: &[u8],
    value: u64,
    answer: &mut FacingAnswer,
) -> u32
    ensures filled { IsFilled client.ptr → IsFilled out.new.ptr }
    ensures told { IsFilled client.ptr → IsCountTold client.target (λ k. Put k value) key.now
        out.new.target result answer.old answer.new }
    ensures null { ¬ IsFilled client.ptr →
        (result ≡ facing_wrong_handle) × (out.new ≡ out.old) × (answer.new ≡ answer.old) }
{
    call(client, out, key, Op::Put(value), answer)
}

/// Gives the key this value where it has none. It answers the value before.
#[unsafe(no_mangle)]
pub extern "C" fn facing_c_counts_try_put_if_absent(
    client: FacingHandle,
    out: &mut FacingOut,
    key: &[u8],
    value: u64,
    answer: &mut FacingAnswer,
) -> u32
    ensures filled { IsFilled client.ptr → IsFilled out.new.ptr }
    ensures told { IsFilled client.ptr → IsCountTold client.target (λ k. PutIfAbsent k value) key.now
        out.new.target result answer.old answer.new }
    ensures null { ¬ IsFilled client.ptr →
        (result ≡ facing_wrong_handle) × (out.new ≡ out.old) × (answer.new ≡ answer.old) }
{
    call(client, out, key, Op::PutIfAbsent(value), answer)
}

/// Takes the key away. It answers the value before.
#[unsafe(no_mangle)]
pub extern "C" fn facing_c_counts_try_remove(
    client: FacingHandle,
    out: &mut FacingOut,
    key: &[u8],
    answer: &mut FacingAnswer,
) -> u32
    ensures filled { IsFilled client.ptr → IsFilled out.new.ptr }
    ensures told { IsFilled client.ptr → IsCountTold client.target (λ k. Remove k) key.now
        out.new.target result answer.old answer.new }
    ensures null { ¬ IsFilled client.ptr →
        (result ≡ facing_wrong_handle) × (out.new ≡ out.old) × (answer.new ≡ answer.old) }
{
    call(client, out, key, Op::Remove, answer)
}

/// Takes the key away where it has this value. It answers whether it had.
#[unsafe(no_mangle)]
pub extern "C" fn facing_c_counts_try_remove_if(
    client: FacingHandle,
    out: &mut FacingOut,
    key: &[u8],
    value: u64,
    answer: &mut FacingAnswer,
) -> u32
    ensures filled { IsFilled client.ptr → IsFilled out.new.ptr }
    ensures told { IsFilled client.ptr → IsCountTold client.target (λ k. RemoveIf k value) key.now
        out.new.target result answer.old answer.new }
    ensures null { ¬ IsFilled client.ptr →
        (result ≡ facing_wrong_handle) × (out.new ≡ out.old) × (answer.new ≡ answer.old) }
{
    call(client, out, key, Op::RemoveIf(value), answer)
}

/// Gives the key this value where it has one. It answers the value before.
#[unsafe(no_mangle)]
pub extern "C" fn facing_c_counts_try_replace(
    client: FacingHandle,
    out: &mut FacingOut,
    key: &[u8],
    value: u64,
    answer: &mut FacingAnswer,
) -> u32
    ensures filled { IsFilled client.ptr → IsFilled out.new.ptr }
    ensures told { IsFilled client.ptr → IsCountTold client.target (λ k. Replace k value) key.now
        out.new.target result answer.old answer.new }
    ensures null { ¬ IsFilled client.ptr →
        (result ≡ facing_wrong_handle) × (out.new ≡ out.old) × (answer.new ≡ answer.old) }
{
    call(client, out, key, Op::Replace(value), answer)
}

/// Gives the key the new value where it has the old one. It answers whether it had.
#[unsafe(no_mangle)]
pub extern "C" fn facing_c_counts_try_replace_if(
    client: FacingHandle,
    out: &mut FacingOut,
    key: &[u8],
    old: u64,
    new: u64,
    answer: &mut FacingAnswer,
) -> u32
    ensures filled { IsFilled client.ptr → IsFilled out.new.ptr }
    ensures told { IsFilled client.ptr → IsCountTold client.target (λ k. ReplaceIf k old new) key.now
        out.new.target result answer.old answer.new }
    ensures null { ¬ IsFilled client.ptr →
        (result ≡ facing_wrong_handle) × (out.new ≡ out.old) × (answer.new ≡ answer.old) }
{
    call(client, out, key, Op::ReplaceIf(old, new), answer)
}

/// Adds to the value at the key, or gives it this one where it has none. It answers the value after.
#[unsafe(no_mangle)]
pub extern "C" fn facing_c_counts_try_add(
    client: FacingHandle,
    out: &mut FacingOut,
    key: &[u8],
    value: u64,
    answer: &mut FacingAnswer,
) -> u32
    ensures filled { IsFilled client.ptr → IsFilled out.new.ptr }
    ensures told { IsFilled client.ptr → IsCountTold client.target (λ k. Merge k value Merging.Add) key.now
        out.new.target result answer.old answer.new }
    ensures null { ¬ IsFilled client.ptr →
        (result ≡ facing_wrong_handle) × (out.new ≡ out.old) × (answer.new ≡ answer.old) }
{
    call(client, out, key, Op::Merge(value, Merging::Add), answer)
}

/// Gives the key the greater of its value and this one. It answers the value after.
#[unsafe(no_mangle)]
pub extern "C" fn facing_c_counts_try_greatest(
    client: FacingHandle,
    out: &mut FacingOut,
    key: &[u8],
    value: u64,
    answer: &mut FacingAnswer,
) -> u32
    ensures filled { IsFilled client.ptr → IsFilled out.new.ptr }
    ensures told { IsFilled client.ptr → IsCountTold client.target (λ k. Merge k value Merging.Greatest) key.now
        out.new.target result answer.old answer.new }
    ensures null { ¬ IsFilled client.ptr →
        (result ≡ facing_wrong_handle) × (out.new ≡ out.old) × (answer.new ≡ answer.old) }
{
    call(
        client,
        out,
        key,
        Op::Merge(value, Merging::Greatest),
        answer,
    )
}

/// Gives the key this value. It answers the value after.
#[unsafe(no_mangle)]
pub extern "C" fn facing_c_counts_try_set(
    client: FacingHandle,
    out: &mut FacingOut,
    key: &[u8],
    value: u64,
    answer: &mut FacingAnswer,
) -> u32
    ensures filled { IsFilled client.ptr → IsFilled out.new.ptr }
    ensures told { IsFilled client.ptr → IsCountTold client.target (λ k. Merge k value Merging.Set) key.now
        out.new.target result answer.old answer.new }
    ensures null { ¬ IsFilled client.ptr →
        (result ≡ facing_wrong_handle) × (out.new ≡ out.old) × (answer.new ≡ answer.old) }
{
    call(client, out, key, Op::Merge(value, Merging::Set), answer)
}

/// Finds the value at a key of a closed map.
#[unsafe(no_mangle)]
pub extern "C" fn facing_c_counts_find(
    closed: FacingHandle,
    out: &mut FacingOut,
    key: &[u8],
    answer: &mut FacingAnswer,
) -> u32
    ensures filled { IsFilled closed.ptr → IsFilled out.new.ptr }
    ensures same { IsFilled closed.ptr → out.new.target ≡ closed.target }
    ensures found { IsFilled closed.ptr →
        IsCountFound closed.target key.now result answer.old answer.new }
    ensures null { ¬ IsFilled closed.ptr →
        (result ≡ facing_wrong_handle) × (out.new ≡ out.old) × (answer.new ≡ answer.old) }
{
    let found = lend!(
        closed,
        out,
        |target| closed::find_count(target, key, answer)
    );
    status_in(found)
}
