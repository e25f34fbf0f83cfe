//! Functions that may fail with an error of the program's own, which `?` brings out of the call.
ghost use Rattle.std.specs.Prelude.{◌≡◌, OnErr};

use crate::asserts::assert_same;
use crate::maps::{Numbers, Owned, keys_of, share};
use clients::{Change, Fault, NotMade};
use std::sync::Wait;

/// Why nothing is taken.
#[derive(Clone, Copy, Debug, PartialEq, Drop)]
enum Refusal {
    /// There is no such article.
    Unknown,
    /// There are so many left, which are too few.
    Few(u64),
    /// The call was refused.
    Map(Fault),
}

impl From<Fault> for Refusal {
    fn from(fault: Fault) -> Refusal {
        Refusal::Map(fault)
    }
}

impl<D: Drop> From<NotMade<D>> for Refusal {
    fn from(error: NotMade<D>) -> Refusal {
        Refusal::Map(error.fault)
    }
}

/// How many are left when some are taken.
fn less(stock: Option<u64>, count: u64) -> Result<u64, Refusal> {
    let stock = stock.ok_or(Refusal::Unknown)?;
    stock.checked_sub(count).ok_or(Refusal::Few(stock))
}

/// Takes some of the article 1, by a function that is lent the place of its number. Returns how many
/// are left.
fn take<R: Wait>(rt: &R, client: &mut Owned, count: u64) -> Result<u64, Refusal> {
    let taking = |place: &mut Option<u64>| -> Result<u64, Refusal>
        ensures { OnErr result (place.new ≡ place.old) }
    {
        let left = less(*place, count)?;
        *place = Some(left);
        Ok(left)
    };
    Ok(client.update_or_keep(rt, &1, taking)??)
}

/// The same by a function that is shown the number.
fn take_shown<R: Wait>(rt: &R, client: &mut Owned, count: u64) -> Result<u64, Refusal> {
    let left = client.update(rt, 1, |stock| match less(stock.copied(), count) {
        Ok(left) => (Change::Set(left), Ok(left)),
        Err(refusal) => (Change::Keep, Err(refusal)),
    })??;
    Ok(left)
}

/// How some are taken: by a function that is lent the place, or that is shown the number.
#[derive(Clone, Copy)]
enum Taking {
    Lent,
    Shown,
}

/// What is taken, and what is left.
type Taken = (Result<u64, Refusal>, Option<u64>);

/// Takes some in this way, and gets how many are left.
fn take_and_get<R: Wait>(
    rt: &R,
    client: &mut Owned,
    taking: Taking,
    count: u64,
) -> Result<Taken, Fault> {
    let taken = match taking {
        Taking::Lent => take(rt, client, count),
        Taking::Shown => take_shown(rt, client, count),
    };
    Ok((taken, client.get(rt, &1)?))
}

/// Takes 3 where nothing is, and 3, 3 and 2 of 5.
fn take_all<R: Wait>(rt: &R, client: &mut Owned, taking: Taking) -> Result<[Taken; 4], Fault> {
    client.remove(rt, &1)?;
    let unknown = take_and_get(rt, client, taking, 3)?;
    client.put(rt, 1, 5)?;
    Ok([
        unknown,
        take_and_get(rt, client, taking, 3)?,
        take_and_get(rt, client, taking, 3)?,
        take_and_get(rt, client, taking, 2)?,
    ])
}

/// Takes them in both ways.
fn take_both<R: Wait>(rt: &R, map: &Numbers) -> Result<[[Taken; 4]; 2], Fault> {
    let mut client = map.client()?;
    let lent = take_all(rt, &mut client, Taking::Lent)?;
    Ok([lent, take_all(rt, &mut client, Taking::Shown)?])
}

/// What they tell: there is nothing, 2 of 5 are left, which are too few for 3, and then none.
const WANTED: [Taken; 4] = [
    (Err(Refusal::Unknown), None),
    (Ok(2), Some(2)),
    (Err(Refusal::Few(2)), Some(2)),
    (Ok(0), Some(0)),
];

#[test]
fn an_error_of_the_function_leaves_the_value(rt: HostRuntime) {
    let map = share(rt.alloc(), 1).expect(&rt, "no fault");
    let taken = take_both(&rt, &map);
    assert_same(&rt, &(taken, keys_of(map)), &(Ok([WANTED; 2]), Some(1)));
}
