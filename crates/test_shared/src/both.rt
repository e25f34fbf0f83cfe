//! Functions over any client, lent or owned, and calls that both kinds have.
use crate::asserts::assert_same;
use crate::maps::{Numbers, keys_of, share};
use clients::{Add, Call, Client, ClientOf, Fault, Holder, KeyArg, Loan, Op, Reply, Work};
use std::alloc::Global;
use std::sync::Wait;

/// A client of these tests.
type Any<H> = ClientOf<H, u64, u64, Add, Global>;

/// Adds 1 at 7, twice. Returns the sum.
fn add_twice<H: Holder<u64, u64, Add, Global>, R: Wait>(
    rt: &R,
    client: &mut Any<H>,
) -> Result<Option<u64>, Fault> {
    client.merge(rt, 7, 1, Add)?;
    Ok(client.merge(rt, 7, 1, Add)?.value)
}

/// Adds 1 at 7, twice.
#[derive(Clone, Copy)]
struct AddTwice;

impl Work<u64, u64, Add, Global> for AddTwice {
    type Out = Result<Option<u64>, Fault>;

    fn work<L: Loan, R: Wait>(
        &self,
        rt: &R,
        client: &mut Client<'_, L, u64, u64, Add, Global>,
    ) -> Result<Option<u64>, Fault> {
        add_twice(rt, client)
    }
}

type Got = Result<Reply<u64>, Fault>;

/// What a client gets at 7 by a call, and by a try, and the sum after work of its own.
type Told = (Got, Option<Got>, Result<Option<u64>, Fault>);

/// Gets at 7 by a call that is a value, and by a try; then lets the client that it is lent work.
#[derive(Clone, Copy)]
struct Tell;

impl Work<u64, u64, Add, Global> for Tell {
    type Out = Told;

    fn work<L: Loan, R: Wait>(
        &self,
        rt: &R,
        client: &mut Client<'_, L, u64, u64, Add, Global>,
    ) -> Told {
        let called = client.call(rt, Call::Get(7));
        let tried = client.try_call(KeyArg::Owned(7), Op::Get);
        (called, tried, client.work(rt, &AddTwice))
    }
}

/// The sums that an owned client and one that it lends come to, and what the latter tells.
fn tell_both<R: Wait>(rt: &R, map: &Numbers) -> Result<(Option<u64>, Option<u64>, Told), Fault> {
    let mut client = map.client()?;
    let owned = add_twice(rt, &mut client)?;
    let lent = client.work(rt, &AddTwice)?;
    Ok((owned, lent, client.work(rt, &Tell)))
}

#[test]
fn one_function_takes_both_kinds_of_a_client(rt: HostRuntime) {
    let map = share(rt.alloc(), 1).expect(&rt, "no fault");
    let told = tell_both(&rt, &map);
    let of_lent = (
        Ok(Reply::Value(Some(4))),
        Some(Ok(Reply::Value(Some(4)))),
        Ok(Some(6)),
    );
    assert_same(
        &rt,
        &(told, keys_of(map)),
        &(Ok((Some(2), Some(4), of_lent)), Some(1)),
    );
}
