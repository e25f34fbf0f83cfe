//! What clients answer, and in which order.
use crate::asserts::assert_same;
use clients::{Add, Client, Fault, Loan, Team, Work};
use std::alloc::Global;
use std::sync::Wait;

/// Each client puts its number, at its number, and answers both.
#[derive(Clone, Copy)]
struct PutTheNumber;

impl Work<u64, u64, Add, Global> for PutTheNumber {
    type Out = Result<(usize, Option<u64>), Fault>;

    fn work<L: Loan, R: Wait>(
        &self,
        rt: &R,
        client: &mut Client<'_, L, u64, u64, Add, Global>,
    ) -> Result<(usize, Option<u64>), Fault> {
        let number = client.number();
        client.put(rt, number as u64, number as u64)?;
        Ok((number, client.get(rt, &(number as u64))?))
    }
}

/// Four clients answer their numbers, twice: the answers stand in the order of the clients,
/// whichever thread ends first.
#[test]
fn answers_stand_in_the_order_of_the_clients(rt: HostRuntime) {
    let mut team = Team::new(rt.alloc(), 1, 4).expect(&rt, "no fault");
    let first = team.work(&rt, &PutTheNumber).expect(&rt, "no fault");
    let again = team.work(&rt, &PutTheNumber).expect(&rt, "no fault");
    let count = team.close().expect(&rt, "no fault").mapping_count();
    let all = [
        Ok((0, Some(0))),
        Ok((1, Some(1))),
        Ok((2, Some(2))),
        Ok((3, Some(3))),
    ];
    assert_same(&rt, &first.as_slice(), &all.as_slice());
    assert_same(&rt, &again.as_slice(), &all.as_slice());
    assert_same(&rt, &count, &4);
}
