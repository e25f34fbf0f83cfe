//! Maps, from their opening to their close, whatever their keys and values are.
ghost use Rattle.facing.specs.Targets.{IsClientOf, IsClientStatus, IsReopenedFrom, IsReopeningStatus};
ghost use Rattle.std.specs.Prelude.{◌≡◌};
ghost use Rattle.facing.specs.Targets.{IsAgainStatus, IsClosedAs, IsCounted, IsCountTold};
ghost use Rattle.facing_maps.specs.Answers.{answered};
ghost use Rattle.facing_maps.specs.Stages.{IsMadeOr, status_in};

use crate::handle::Asked;
use crate::target::Target;
use facing_maps::FacingAnswer;

/// A client of the open map that this is, if it is one, which was in.
pub(crate) fn client(target: &Target) -> Asked<Target>
    ensures made { IsMadeOr (IsClientOf target.now) (answered result) }
    ensures status { IsClientStatus target.now (status_in (answered result)) }
{
    match target {
        Target::Numbers(seed, stage) => match stage.client()? {
            Ok(made) => Some(Ok(Target::Numbers(*seed, made))),
            Err(status) => Some(Err(status)),
        },
        Target::Bytes(keys, stage) => match stage.client()? {
            Ok(made) => Some(Ok(Target::Bytes(keys.again(), made))),
            Err(status) => Some(Err(status)),
        },
        Target::Counts(keys, stage) => match stage.client()? {
            Ok(made) => Some(Ok(Target::Counts(keys.again(), made))),
            Err(status) => Some(Err(status)),
        },
        Target::Held(_) => None,
    }
}

/// A map that begins with copies of the pairs of the closed map that this is, if it is one, which stays as
/// it is.
pub(crate) fn reopen(target: &Target, clients: u32) -> Asked<Target>
    ensures made { IsMadeOr (IsReopenedFrom target.now clients) (answered result) }
    ensures status { IsReopeningStatus target.now clients (status_in (answered result)) }
{
    match target {
        Target::Numbers(seed, stage) => match stage.reopen(clients)? {
            Ok(made) => Some(Ok(Target::Numbers(*seed, made))),
            Err(status) => Some(Err(status)),
        },
        Target::Bytes(keys, stage) => match stage.reopen(clients)? {
            Ok(made) => Some(Ok(Target::Bytes(keys.again(), made))),
            Err(status) => Some(Err(status)),
        },
        Target::Counts(keys, stage) => match stage.reopen(clients)? {
            Ok(made) => Some(Ok(Target::Counts(keys.again(), made))),
            Err(status) => Some(Err(status)),
        },
        Target::Held(_) => None,
    }
}

/// One more owner of the closed map that this is, if it is one, with the same seed.
pub(crate) fn again(target: &mut Target) -> Asked<Target>
    ensures same { target.new ≡ target.old }
    ensures again { IsMadeOr (λ again. again ≡ target.old) (answered result) }
    ensures status { IsAgainStatus target.old (status_in (answered result)) }
{
    match target {
        Target::Numbers(seed, stage) => match stage.again()? {
            Ok(more) => Some(Ok(Target::Numbers(*seed, more))),
            Err(status) => Some(Err(status)),
        },
        Target::Bytes(keys, stage) => match stage.again()? {
            Ok(more) => Some(Ok(Target::Bytes(keys.again(), more))),
            Err(status) => Some(Err(status)),
        },
        Target::Counts(keys, stage) => match stage.again()? {
            Ok(more) => Some(Ok(Target::Counts(keys.again(), more))),
            Err(status) => Some(Err(status)),
        },
        Target::Held(_) => None,
    }
}

/// Closes the map that this is, if it is one, in its place. It waits for nobody.
pub(crate) fn close(target: &mut Target) -> Asked<()>
    ensures { IsClosedAs target.old target.new (status_in (answered result)) }
{
    match target {
        Target::Numbers(_, stage) => stage.close(),
        Target::Bytes(_, stage) => stage.close(),
        Target::Counts(_, stage) => stage.close(),
        Target::Held(_) => None,
    }
}

/// The number of keys: just so of a closed map, and of another as far as a look tells.
fn counted(target: &Target) -> Asked<u64>
    ensures { IsCounted target.now (answered result) }
{
    match target {
        Target::Numbers(_, stage) => stage.count(),
        Target::Bytes(_, stage) => stage.count(),
        Target::Counts(_, stage) => stage.count(),
        Target::Held(_) => None,
    }
}

/// Tells the number of keys.
pub(crate) fn count(target: &Target, answer: &mut FacingAnswer) -> Asked<()>
    ensures { IsCountTold target.now (status_in (answered result)) answer.old answer.new }
{
    match counted(target)? {
        Ok(n) => {
            *answer = FacingAnswer::some(n);
            Some(Ok(()))
        }
        Err(status) => Some(Err(status)),
    }
}
