//! The exports that change a value by what it is, under one lock. They are the same for each kind of map
//! but for its keys and values.
ghost use Rattle.std.specs.Prelude.{◌≡◌, option_copied};
ghost use Rattle.facing_maps.specs.Answers.{answered};
ghost use Rattle.facing_maps.specs.Statuses.{facing_wrong_handle};
ghost use Rattle.facing.specs.Changes.{given, IsNumberChanged, IsCountChanged, IsBytesExchanged};
ghost use Rattle.facing.specs.Changes.{IsNumberExchangeTold, IsCountExchangeTold, IsBytesExchangeTold};
ghost use Rattle.facing.specs.Changes.{IsNumberAddTold, IsCountAddTold};
ghost use Rattle.facing.specs.Handles.{IsFilled};

use crate::handle::{FacingHandle, FacingOut, lend};
use crate::target::Target;
use bin_history::KeyArg;
use facing_maps::{
    AddUpTo, ChangeOutcome, Changing, Exchange, FacingAnswer, FacingExchanged, SharedBytes,
    tell_added, tell_exchanged, tell_exchanged_bytes, try_change_on, try_exchange_bytes,
};

/// A value that an export is given, or none where the number before it is 0.
fn given<T: Drop>(has: u32, value: T) -> Option<T>
    ensures { result ≡ given has value }
{
    if has == 0 { None } else { Some(value) }
}

/// The exchange that an export is asked for.
fn exchange_of(has_expected: u32, expected: u64, has_value: u32, value: u64) -> Exchange
    ensures { result ≡ record { expected = given has_expected expected; value = given has_value value } }
{
    let expected = given(has_expected, expected);
    let value = given(has_value, value);
    Exchange { expected, value }
}

/// Tries a change by the client of a map of whole numbers that this is, if it is one. It waits for nobody.
fn try_number<C: Changing<u64>>(
    target: &mut Target,
    key: u64,
    changing: C,
) -> Option<ChangeOutcome<u64>>
    ensures { IsNumberChanged target.old (C.changes changing) key target.new (answered result) }
{
    match target {
        Target::Numbers(seed, stage) => stage.try_change(KeyArg::Owned(seed.mix(key)), changing),
        _ => None,
    }
}

/// Tries a change by the client of a map from byte strings to whole numbers that this is, if it is one. It
/// waits for nobody.
fn try_count<C: Changing<u64>>(
    target: &mut Target,
    key: &[u8],
    changing: C,
) -> Option<ChangeOutcome<u64>>
    ensures { IsCountChanged target.old (C.changes changing) key.now target.new (answered result) }
{
    match target {
        Target::Counts(keys, stage) => try_change_on(stage, keys, key, changing),
        _ => None,
    }
}

/// Tries an exchange by the client of a map of byte strings that this is, if it is one. It waits for nobody.
fn try_bytes(
    target: &mut Target,
    key: &[u8],
    expected: Option<&[u8]>,
    value: Option<&[u8]>,
) -> Option<ChangeOutcome<SharedBytes>>
    ensures { IsBytesExchanged target.old (option_copied expected.entry) (option_copied value.entry) key.now
        target.new (answered result) }
{
    match target {
        Target::Bytes(keys, stage) => try_exchange_bytes(stage, keys, key, expected, value),
        _ => None,
    }
}

/// Gives the key this value, or none, where it has the one that is expected, or none. It answers whether
/// it did, and what was there.
#[unsafe(no_mangle)]
pub extern "C" fn facing_c_try_exchange(
    client: FacingHandle,
    out: &mut FacingOut,
    key: u64,
    has_expected: u32,
    expected: u64,
    has_value: u32,
    value: u64,
    answer: &mut FacingExchanged,
) -> u32
    ensures filled { IsFilled client.ptr → IsFilled out.new.ptr }
    ensures told { IsFilled client.ptr → IsNumberExchangeTold client.target (given has_expected expected)
        (given has_value value) key out.new.target result answer.old answer.new }
    ensures null { ¬ IsFilled client.ptr →
        (result ≡ facing_wrong_handle) × (out.new ≡ out.old) × (answer.new ≡ answer.old) }
{
    let exchange = exchange_of(has_expected, expected, has_value, value);
    let tried = lend!(client, out, |target| try_number(target, key, exchange));
    tell_exchanged(tried, answer)
}

/// Adds to the value at the key, where the sum is at most this bound; a key without a value counts as 0.
/// It answers whether it was, and the value after.
#[unsafe(no_mangle)]
pub extern "C" fn facing_c_try_add_up_to(
    client: FacingHandle,
    out: &mut FacingOut,
    key: u64,
    amount: u64,
    most: u64,
    answer: &mut FacingAnswer,
) -> u32
    ensures filled { IsFilled client.ptr → IsFilled out.new.ptr }
    ensures told { IsFilled client.ptr → IsNumberAddTold client.target amount most key
        out.new.target result answer.old answer.new }
    ensures null { ¬ IsFilled client.ptr →
        (result ≡ facing_wrong_handle) × (out.new ≡ out.old) × (answer.new ≡ answer.old) }
{
    let tried = lend!(
        client,
        out,
        |target| try_number(target, key, AddUpTo { amount, most })
    );
    tell_added(tried, answer)
}

/// Gives the key this value, or none, where it has the one that is expected, or none. It answers whether
/// it did, and what was there.
#[unsafe(no_mangle)]
pub extern "C" fn facing_c_counts_try_exchange(
    client: FacingHandle,
    out: &mut FacingOut,
    key: &[u8],
    has_expected: u32,
    expected: u64,
    has_value: u32,
    value: u64,
    answer: &mut FacingExchanged,
) -> u32
    ensures filled { IsFilled client.ptr → IsFilled out.new.ptr }
    ensures told { IsFilled client.ptr → IsCountExchangeTold client.target (given has_expected expected)
        (given has_value value) key.now out.new.target result answer.old answer.new }
    ensures null { ¬ IsFilled client.ptr →
        (result ≡ facing_wrong_handle) × (out.new ≡ out.old) × (answer.new ≡ answer.old) }
{
    let exchange = exchange_of(has_expected, expected, has_value, value);
    let tried = lend!(client, out, |target| try_count(target, key, exchange));
    tell_exchanged(tried, answer)
}

/// Adds to the value at the key, where the sum is at most this bound; a key without a value counts as 0.
/// It answers whether it was, and the value after.
#[unsafe(no_mangle)]
pub extern "C" fn facing_c_counts_try_add_up_to(
    client: FacingHandle,
    out: &mut FacingOut,
    key: &[u8],
    amount: u64,
    most: u64,
    answer: &mut FacingAnswer,
) -> u32
    ensures filled { IsFilled client.ptr → IsFilled out.new.ptr }
    ensures told { IsFilled client.ptr → IsCountAddTold client.target amount most key.now
        out.new.target result answer.old answer.new }
    ensures null { ¬ IsFilled client.ptr →
        (result ≡ facing_wrong_handle) × (out.new ≡ out.old) × (answer.new ≡ answer.old) }
{
    let tried = lend!(
        client,
        out,
        |target| try_count(target, key, AddUpTo { amount, most })
    );
    tell_added(tried, answer)
}

/// Gives the key this value, or none, where it has the one that is expected, or none. It answers whether
/// it did, and what was there, as far as there is room for it. At most 22 bytes are copied while the
/// bucket is locked; the bytes that are expected are compared there.
#[unsafe(no_mangle)]
pub extern "C" fn facing_c_bytes_try_exchange(
    client: FacingHandle,
    out: &mut FacingOut,
    key: &[u8],
    has_expected: u32,
    expected: &[u8],
    has_value: u32,
    value: &[u8],
    room: &mut [u8],
    answer: &mut FacingExchanged,
) -> u32
    ensures filled { IsFilled client.ptr → IsFilled out.new.ptr }
    ensures told { IsFilled client.ptr → IsBytesExchangeTold client.target (given has_expected expected.now)
        (given has_value value.now) key.now out.new.target result (room.old, answer.old)
        (room.new, answer.new) }
    ensures null { ¬ IsFilled client.ptr → (result ≡ facing_wrong_handle) × (out.new ≡ out.old)
        × (room.new ≡ room.old) × (answer.new ≡ answer.old) }
{
    let expected = given(has_expected, expected);
    let value = given(has_value, value);
    let tried = lend!(
        client,
        out,
        |target| try_bytes(target, key, expected, value)
    );
    tell_exchanged_bytes(tried, room, answer)
}
