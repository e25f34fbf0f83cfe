//! What is read of closed maps.
ghost use Rattle.facing_maps.specs.Answers.{answered};
ghost use Rattle.facing_maps.specs.Stages.{status_in};
ghost use Rattle.facing.specs.Closed.{IsNumberFound, IsCountFound, IsBytesFound, IsNumberShown};

use crate::handle::Asked;
use crate::target::Target;
use facing_maps::{FacingAnswer, find, show_whole};

/// Tells the number at a key, if there is one.
fn tell_found(found: Result<Option<&u64>, u32>, answer: &mut FacingAnswer) -> Result<(), u32>
    ensures { IsNumberShown found.entry (status_in result) answer.old answer.new }
{
    match found {
        Ok(value) => {
            *answer = FacingAnswer::of(value.copied());
            Ok(())
        }
        Err(status) => Err(status),
    }
}

/// Tells the number at the key in the closed map that this is, if it is one.
pub(crate) fn find_number(target: &Target, key: u64, answer: &mut FacingAnswer) -> Asked<()>
    ensures { IsNumberFound target.now key (status_in (answered result)) answer.old answer.new }
{
    match target {
        Target::Numbers(seed, stage) => { Some(tell_found(stage.find_as(&seed.mix(key))?, answer)) }
        _ => None,
    }
}

/// Tells the number at the key in the closed map that this is, if it is one.
pub(crate) fn find_count(target: &Target, key: &[u8], answer: &mut FacingAnswer) -> Asked<()>
    ensures { IsCountFound target.now key.now (status_in (answered result)) answer.old answer.new }
{
    match target {
        Target::Counts(keys, stage) => Some(tell_found(find(stage, keys, key)?, answer)),
        _ => None,
    }
}

/// Shows the value at the key in the closed map that this is, if it is one, where it finds room.
pub(crate) fn find_bytes(
    target: &Target,
    key: &[u8],
    room: &mut [u8],
    answer: &mut FacingAnswer,
) -> Asked<()>
    ensures { IsBytesFound target.now key.now (status_in (answered result)) (room.old, answer.old)
        (room.new, answer.new) }
{
    match target {
        Target::Bytes(keys, stage) => match find(stage, keys, key)? {
            Ok(Some(value)) => Some(show_whole(value, room, answer)),
            Ok(None) => {
                *answer = FacingAnswer::none();
                Some(Ok(()))
            }
            Err(status) => Some(Err(status)),
        },
        _ => None,
    }
}
