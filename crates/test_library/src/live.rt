//! Pairs that are put all at once, and folds over a map that lives.
use crate::asserts::assert_same;
use clients::{Add, Client, Fault, Loan, Team, Work};
use std::alloc::Global;
use std::sync::Wait;

/// A client of these tests.
type Numbers<'a, L> = Client<'a, L, u64, u64, Add, Global>;

/// How many of the pairs are of a client, who has a hundred keys, and what their values sum up to.
fn own_pairs(number: u64, sums: (u64, u64), pair: (u64, u64)) -> (u64, u64) {
    let (count, sum) = sums;
    let (key, value) = pair;
    if key / 100 != number {
        return sums;
    }
    (count.saturating_add(1), sum.saturating_add(value))
}

/// Puts its hundred keys with the values 1 to 100, and the first key once more, with 1,000; and
/// folds over the map.
#[derive(Clone, Copy)]
struct FillAndFold {
    alloc: Global,
}

impl Work<u64, u64, Add, Global> for FillAndFold {
    type Out = Result<(u64, u64), Fault>;

    fn work<L: Loan, R: Wait>(
        &self,
        rt: &R,
        client: &mut Numbers<'_, L>,
    ) -> Result<(u64, u64), Fault> {
        let number = client.number() as u64;
        let first = number.wrapping_mul(100);
        let mut pairs = Vec::with_capacity(self.alloc, 101)?;
        for value in 1..101u64 {
            pairs.push((first.wrapping_add(value - 1), value))?;
        }
        pairs.push((first, 1_000))?;
        client.put_all(rt, pairs)?;
        client.fold(rt, (0, 0), |sums, pair| own_pairs(number, sums, pair))
    }
}

/// Four clients put and fold at the same time, on a map that grows: each finds all that it put
/// itself, the last value where a key came twice: 1,000 + 2 + 3 + .. + 100 = 6,049.
#[test]
fn a_client_folds_over_all_that_it_put(rt: HostRuntime) {
    let alloc = rt.alloc();
    let mut team = Team::new(alloc, 1, 4).expect(&rt, "no fault");
    let answers = team
        .work(&rt, &FillAndFold { alloc })
        .expect(&rt, "no fault");
    let count = team.close().expect(&rt, "no fault").mapping_count();
    assert_same(&rt, &answers.as_slice(), &[Ok((100, 6_049)); 4].as_slice());
    assert_same(&rt, &count, &400);
}
