//! Tries that take a function, of a client that owns its pass and of one that is lent one: which of
//! them call it.
use crate::asserts::assert_same;
use crate::maps::{Numbers, Owned, keys_of, share};
use clients::{Add, Change, Client, ClientOf, Fault, Holder, KeyArg, Loan, Work};
use std::alloc::Global;
use std::sync::Wait;

/// Of a view, a view by a borrowed key and an update that were tried at 1: which were made, and whose
/// function was called.
type Tried = ([bool; 3], [bool; 3]);

/// What any client tries, lent or owned.
fn try_by<H: Holder<u64, u64, Add, Global>>(
    client: &mut ClientOf<H, u64, u64, Add, Global>,
) -> Tried {
    let (mut by_view, mut by_form, mut by_update) = (false, false, false);
    let viewed = client.try_view(&1, |_value| by_view = true).is_some();
    let viewed_as = client.try_view_as(&1, |_value| by_form = true).is_some();
    let updated = client
        .try_update(KeyArg::Borrowed(&1), |_value| {
            by_update = true;
            (Change::Keep, ())
        })
        .is_some();
    ([viewed, viewed_as, updated], [by_view, by_form, by_update])
}

/// The same by a client that is lent a pass.
#[derive(Clone, Copy)]
struct Try;

impl Work<u64, u64, Add, Global> for Try {
    type Out = Tried;

    fn work<L: Loan, R: Wait>(
        &self,
        _rt: &R,
        client: &mut Client<'_, L, u64, u64, Add, Global>,
    ) -> Tried {
        try_by(client)
    }
}

/// What the second client tries, by both kinds of a client.
fn try_both<R: Wait>(rt: &R, second: &mut Owned) -> [Tried; 2] {
    [try_by(second), second.work(rt, &Try)]
}

/// What it tries while the first looks at the one bucket, and then.
fn try_under_a_lock<R: Wait>(rt: &R, first: &mut Owned, second: &mut Owned) -> [[Tried; 2]; 2] {
    let busy = first.view(rt, &1, |_value| try_both(rt, second));
    [busy, try_both(rt, second)]
}

/// What two clients of a map try.
fn try_by_two<R: Wait>(rt: &R, map: &Numbers) -> Result<[[Tried; 2]; 2], Fault> {
    let mut first = map.client()?;
    let mut second = map.client()?;
    Ok(try_under_a_lock(rt, &mut first, &mut second))
}

#[test]
fn a_busy_try_of_a_client_calls_no_function(rt: HostRuntime) {
    let map = share(rt.alloc(), 2).expect(&rt, "no fault");
    let tried = try_by_two(&rt, &map);
    let (busy, free) = (([false; 3], [false; 3]), ([true; 3], [true; 3]));
    assert_same(
        &rt,
        &(tried, keys_of(map)),
        &(Ok([[busy; 2], [free; 2]]), Some(0)),
    );
}
