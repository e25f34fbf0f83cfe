//! What changes by the value that is there answer.
ghost use Rattle.std.specs.Prelude.{◌≡◌, length};
ghost use Rattle.facing_maps.specs.Changes.{added_by, exchanged_by, one_if, seen_room, told_of};
ghost use Rattle.facing_maps.specs.Stages.{status_in};

use crate::changing::{ChangeOutcome, Changed};
use crate::copying::copy_into;
use crate::shared::SharedBytes;
use crate::status::{BUSY, DONE, FacingAnswer, NO_MEMORY, code_of};

/// What an exchange answers beside its status: whether it was made, as 1 or 0; whether there was a value,
/// as 1 or 0; and that value, or how many bytes it has, or 0.
#[repr(C)]
#[derive(Clone, Copy, PartialEq, Eq, Debug)]
pub struct FacingExchanged {
    pub made: u32,
    pub found: u32,
    pub value: u64,
}

/// 1 where it is so, and else 0.
fn one_if(truth: bool) -> u32
    ensures { result ≡ one_if truth }
{
    if truth { 1 } else { 0 }
}

impl FacingExchanged {
    /// What an exchange answers, by what it told.
    fn of(made: bool, seen: FacingAnswer) -> FacingExchanged
        ensures made { result.made ≡ one_if made }
        ensures found { result.found ≡ seen.found }
        ensures value { result.value ≡ seen.value }
    {
        FacingExchanged {
            made: one_if(made),
            found: seen.found,
            value: seen.value,
        }
    }
}

/// What a change told, or the status for which it told nothing.
fn told<V: Drop>(tried: ChangeOutcome<V>) -> Result<Changed<V>, u32>
    ensures { result ≡ told_of tried }
{
    match tried {
        Ok(Some(Ok(Ok(changed)))) => Ok(changed),
        Ok(Some(Ok(Err(_)))) => Err(NO_MEMORY),
        Ok(Some(Err(fault))) => Err(code_of(fault)),
        Ok(None) => Err(BUSY),
        Err(status) => Err(status),
    }
}

/// Tells what came of an exchange of numbers. Where it was not tried, the answer is as it was.
pub fn tell_exchanged(tried: ChangeOutcome<u64>, answer: &mut FacingExchanged) -> u32
    ensures status { result ≡ status_in (told_of tried) }
    ensures answer { answer.new ≡ exchanged_by (λ v. v) (told_of tried) answer.old }
{
    match told(tried) {
        Ok(changed) => {
            *answer = FacingExchanged::of(changed.made, FacingAnswer::of(changed.value));
            DONE
        }
        Err(status) => status,
    }
}

/// Tells what came of a sum up to a bound: whether it was at most the bound, and the value after.
pub fn tell_added(tried: ChangeOutcome<u64>, answer: &mut FacingAnswer) -> u32
    ensures status { result ≡ status_in (told_of tried) }
    ensures answer { answer.new ≡ added_by (told_of tried) answer.old }
{
    match told(tried) {
        Ok(changed) => {
            *answer = FacingAnswer {
                found: one_if(changed.made),
                value: changed.value.unwrap_or(0),
            };
            DONE
        }
        Err(status) => status,
    }
}

/// Tells what came of an exchange of bytes: what was there as far as there is room for it, and how many
/// bytes it has. Where it was not tried, nothing is touched.
pub fn tell_exchanged_bytes(
    tried: ChangeOutcome<SharedBytes>,
    room: &mut [u8],
    answer: &mut FacingExchanged,
) -> u32
    ensures status { result ≡ status_in (told_of tried) }
    ensures room { room.new ≡ seen_room (told_of tried) room.old }
    ensures answer { answer.new ≡ exchanged_by length (told_of tried) answer.old }
{
    match told(tried) {
        Ok(Changed { made, value }) => {
            let seen = match value {
                Some(value) => {
                    copy_into(value.bytes(), room);
                    FacingAnswer::some(value.bytes().len() as u64)
                }
                None => FacingAnswer::none(),
            };
            *answer = FacingExchanged::of(made, seen);
            DONE
        }
        Err(status) => status,
    }
}
