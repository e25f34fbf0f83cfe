//! The exports that copy pairs out of a map, a bucket at a time.
ghost use Rattle.std.specs.Prelude.{◌≡◌, length, take};
ghost use Rattle.facing_maps.specs.Answers.{answered};
ghost use Rattle.facing_maps.specs.Stages.{status_in};
ghost use Rattle.facing_maps.specs.Statuses.{facing_wrong_handle};
ghost use Rattle.facing.specs.Handles.{IsFilled};
ghost use Rattle.facing.specs.Pairs.{AreNumbersTold, ArePairsTold, AreNumbersOf, AreCountsOf, AreBytesOf};
ghost use Rattle.seeded_keys.specs.Mixing.{unmixed};

use crate::handle::{Asked, FacingHandle, FacingOut, lend};
use crate::target::Target;
use facing_maps::{
    FacingAnswer, Heads, Laying, NO_ROOM, SeededKey, Seen, SharedBytes, Whole, copy_numbers,
    copy_pairs, status_in, total,
};
use seeded_keys::NumberSeed;

/// How many pairs a bucket has, and how many bytes their keys and values have.
#[repr(C)]
#[derive(Clone, Copy, PartialEq, Eq, Debug)]
pub struct FacingSizes {
    pub pairs: u64,
    pub bytes: u64,
}

/// Tells what a step of a walk showed.
fn tell_numbers(
    seen: Seen<u64, u64>,
    seed: NumberSeed,
    next: &mut u64,
    keys: &mut [u64],
    values: &mut [u64],
    answer: &mut FacingAnswer,
) -> Result<(), u32>
    ensures { AreNumbersTold (unmixed seed) seen (next.old, keys.old, values.old, answer.old)
        (next.new, keys.new, values.new, answer.new) (status_in result) }
{
    match seen {
        Ok((shown, then)) => match shown {
            Some(pairs) => {
                let pairs = pairs.as_slice();
                *next = then;
                *answer = FacingAnswer::some(pairs.len() as u64);
                let count = copy_numbers(pairs, seed, keys, values);
                if count < pairs.len() {
                    Err(NO_ROOM)
                } else {
                    Ok(())
                }
            }
            None => {
                *next = then;
                *answer = FacingAnswer::some(0);
                Ok(())
            }
        },
        Err(status) => Err(status),
    }
}

/// Tells what a step of a walk showed, of values what `laying` copies.
fn tell_pairs<V: Drop, L: Laying<V>>(
    seen: Seen<SeededKey, V>,
    laying: &L,
    next: &mut u64,
    key_lens: &mut [u64],
    numbers: &mut [u64],
    room: &mut [u8],
    sizes: &mut FacingSizes,
) -> Result<(), u32>
    ensures { ArePairsTold (L.number laying.now) (L.laid laying.now) seen (next.old, key_lens.old, numbers.old, room.old, sizes.old)
        (next.new, key_lens.new, numbers.new, room.new, sizes.new) (status_in result) }
{
    match seen {
        Ok((shown, then)) => match shown {
            Some(pairs) => {
                let pairs = pairs.as_slice();
                *next = then;
                *sizes = FacingSizes {
                    pairs: pairs.len() as u64,
                    bytes: total(pairs, laying),
                };
                let count = copy_pairs(pairs, laying, key_lens, numbers, room);
                if count < pairs.len() {
                    Err(NO_ROOM)
                } else {
                    Ok(())
                }
            }
            None => {
                *next = then;
                *sizes = FacingSizes { pairs: 0, bytes: 0 };
                Ok(())
            }
        },
        Err(status) => Err(status),
    }
}

/// Tells the pairs of a bucket of the numbers map that this is, if it is one.
fn numbers_at(
    target: &mut Target,
    at: u64,
    next: &mut u64,
    keys: &mut [u64],
    values: &mut [u64],
    answer: &mut FacingAnswer,
) -> Asked<()>
    ensures { AreNumbersOf target.old at (next.old, keys.old, values.old, answer.old)
        (next.new, keys.new, values.new, answer.new) target.new (status_in (answered result)) }
{
    match target {
        Target::Numbers(seed, stage) => {
            let seen = stage.try_visit(at)?;
            Some(tell_numbers(seen, *seed, next, keys, values, answer))
        }
        _ => None,
    }
}

/// Tries to copy the pairs of the bucket at this place, of a closed map or of one whose client this is, as
/// far as there is room for them. It answers how many the bucket has, and the
/// number that a walk goes on at. A walk begins at 0.
#[unsafe(no_mangle)]
pub extern "C" fn facing_c_try_pairs(
    any: FacingHandle,
    out: &mut FacingOut,
    at: u64,
    next: &mut u64,
    keys: &mut [u64],
    values: &mut [u64],
    answer: &mut FacingAnswer,
) -> u32
    ensures filled { IsFilled any.ptr → IsFilled out.new.ptr }
    ensures copied { IsFilled any.ptr → AreNumbersOf any.target at
        (next.old, keys.old, values.old, answer.old)
        (next.new, keys.new, values.new, answer.new) out.new.target result }
    ensures null { ¬ IsFilled any.ptr → (result ≡ facing_wrong_handle) × (out.new ≡ out.old)
        × (next.new ≡ next.old) × (keys.new ≡ keys.old)
        × (values.new ≡ values.old)
        × (answer.new ≡ answer.old) }
{
    let told = lend!(
        any,
        out,
        |target| numbers_at(target, at, next, keys, values, answer)
    );
    status_in(told)
}

/// Tells the pairs of a bucket of the bytes map that this is, if it is one, of values what `laying` copies.
fn bytes_at<L: Laying<SharedBytes>>(
    target: &mut Target,
    laying: &L,
    at: u64,
    next: &mut u64,
    key_lens: &mut [u64],
    value_lens: &mut [u64],
    room: &mut [u8],
    sizes: &mut FacingSizes,
) -> Asked<()>
    ensures { AreBytesOf (L.number laying.now) (L.laid laying.now) target.old at (next.old, key_lens.old, value_lens.old, room.old, sizes.old)
        (next.new, key_lens.new, value_lens.new, room.new, sizes.new) target.new (status_in (answered result)) }
{
    match target {
        Target::Bytes(_, stage) => {
            let seen = stage.try_visit(at)?;
            Some(tell_pairs(seen, laying, next, key_lens, value_lens, room, sizes))
        }
        _ => None,
    }
}

/// Tries to copy the pairs of the bucket at this place, of a closed map or of one whose client this is, as
/// far as there is room for them. It answers how many the bucket has and their bytes, and the
/// number that a walk goes on at. A walk begins at 0.
#[unsafe(no_mangle)]
pub extern "C" fn facing_c_bytes_try_pairs(
    any: FacingHandle,
    out: &mut FacingOut,
    at: u64,
    next: &mut u64,
    key_lens: &mut [u64],
    value_lens: &mut [u64],
    room: &mut [u8],
    sizes: &mut FacingSizes,
) -> u32
    ensures filled { IsFilled any.ptr → IsFilled out.new.ptr }
    ensures copied { IsFilled any.ptr → AreBytesOf length (λ v. v) any.target at
        (next.old, key_lens.old, value_lens.old, room.old, sizes.old)
        (next.new, key_lens.new, value_lens.new, room.new, sizes.new) out.new.target result }
    ensures null { ¬ IsFilled any.ptr → (result ≡ facing_wrong_handle) × (out.new ≡ out.old)
        × (next.new ≡ next.old) × (key_lens.new ≡ key_lens.old)
        × (value_lens.new ≡ value_lens.old)
        × (room.new ≡ room.old)
        × (sizes.new ≡ sizes.old) }
{
    let told = lend!(any, out, |target| {
        bytes_at(target, &Whole, at, next, key_lens, value_lens, room, sizes)
    });
    status_in(told)
}

/// Tries to copy the keys of the bucket at this place, as `facing_c_bytes_try_pairs` copies pairs, and of
/// each value the first bytes, at most so many. It answers how many the bucket has, how many bytes it
/// copies of all, and the number that a walk goes on at. The lengths of values are those of whole values.
#[unsafe(no_mangle)]
pub extern "C" fn facing_c_bytes_try_heads(
    any: FacingHandle,
    out: &mut FacingOut,
    at: u64,
    most: usize,
    next: &mut u64,
    key_lens: &mut [u64],
    value_lens: &mut [u64],
    room: &mut [u8],
    sizes: &mut FacingSizes,
) -> u32
    ensures filled { IsFilled any.ptr → IsFilled out.new.ptr }
    ensures copied { IsFilled any.ptr → AreBytesOf length (take most) any.target at
        (next.old, key_lens.old, value_lens.old, room.old, sizes.old)
        (next.new, key_lens.new, value_lens.new, room.new, sizes.new) out.new.target result }
    ensures null { ¬ IsFilled any.ptr → (result ≡ facing_wrong_handle) × (out.new ≡ out.old)
        × (next.new ≡ next.old) × (key_lens.new ≡ key_lens.old)
        × (value_lens.new ≡ value_lens.old)
        × (room.new ≡ room.old)
        × (sizes.new ≡ sizes.old) }
{
    let heads = Heads(most);
    let told = lend!(any, out, |target| {
        bytes_at(target, &heads, at, next, key_lens, value_lens, room, sizes)
    });
    status_in(told)
}

/// Tells the pairs of a bucket of the counts map that this is, if it is one.
fn counts_at(
    target: &mut Target,
    at: u64,
    next: &mut u64,
    key_lens: &mut [u64],
    values: &mut [u64],
    room: &mut [u8],
    sizes: &mut FacingSizes,
) -> Asked<()>
    ensures { AreCountsOf target.old at (next.old, key_lens.old, values.old, room.old, sizes.old)
        (next.new, key_lens.new, values.new, room.new, sizes.new) target.new (status_in (answered result)) }
{
    match target {
        Target::Counts(_, stage) => {
            let seen = stage.try_visit(at)?;
            Some(tell_pairs(seen, &Whole, next, key_lens, values, room, sizes))
        }
        _ => None,
    }
}

/// Tries to copy the pairs of the bucket at this place, of a closed map or of one whose client this is, as
/// far as there is room for them. It answers how many the bucket has and the bytes of their keys, and the
/// number that a walk goes on at. A walk begins at 0.
#[unsafe(no_mangle)]
pub extern "C" fn facing_c_counts_try_pairs(
    any: FacingHandle,
    out: &mut FacingOut,
    at: u64,
    next: &mut u64,
    key_lens: &mut [u64],
    values: &mut [u64],
    room: &mut [u8],
    sizes: &mut FacingSizes,
) -> u32
    ensures filled { IsFilled any.ptr → IsFilled out.new.ptr }
    ensures copied { IsFilled any.ptr → AreCountsOf any.target at
        (next.old, key_lens.old, values.old, room.old, sizes.old)
        (next.new, key_lens.new, values.new, room.new, sizes.new) out.new.target result }
    ensures null { ¬ IsFilled any.ptr → (result ≡ facing_wrong_handle) × (out.new ≡ out.old)
        × (next.new ≡ next.old) × (key_lens.new ≡ key_lens.old)
        × (values.new ≡ values.old)
        × (room.new ≡ room.old)
        × (sizes.new ≡ sizes.old) }
{
    let told = lend!(any, out, |target| {
        counts_at(target, at, next, key_lens, values, room, sizes)
    });
    status_in(told)
}
