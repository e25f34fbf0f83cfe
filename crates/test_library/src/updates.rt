//! Functions of one's own, of the value alone.
use crate::asserts::assert_same;
use clients::{ByValue, Client, Exact, Fault, Loan, Team, Update, Work};
use std::alloc::Global;
use std::sync::Wait;

/// Twice the value, and 1 where there is none.
#[derive(Clone, Copy)]
struct Double;

impl Exact for Double {
    ghost use Rattle.std.proofs.Common.{rules};

    ghost copies_exactly = { Prim.search rules };
}

impl Update<u64> for Double {
    ghost use Rattle.test_library.specs.Doubles.{doubled};

    ghost updated = { λ _ value. doubled value };

    fn update(&self, value: Option<&u64>) -> u64 {
        value.map_or(1, |value| value.saturating_mul(2))
    }
}

/// A map's function of it.
type Doubling = ByValue<Double>;

/// Uses the function in each of the four ways.
#[derive(Clone, Copy)]
struct UseIt;

impl Work<u64, u64, Doubling, Global> for UseIt {
    type Out = Result<[Option<u64>; 5], Fault>;

    fn work<L: Loan, R: Wait>(
        &self,
        rt: &R,
        client: &mut Client<'_, L, u64, u64, Doubling, Global>,
    ) -> Result<[Option<u64>; 5], Fault> {
        Ok([
            client.compute(rt, 1, ByValue(Double))?,
            client.compute(rt, 1, ByValue(Double))?,
            client.compute_if_present(rt, &1, ByValue(Double))?.value,
            client.compute_if_absent(rt, 2, ByValue(Double))?.value,
            client.merge(rt, 1, 9, ByValue(Double))?.value,
        ])
    }
}

#[test]
fn a_function_of_the_value_alone_computes(rt: HostRuntime) {
    let mut team = Team::new(rt.alloc(), 16, 1).expect(&rt, "no fault");
    let answers = team.work(&rt, &UseIt).expect(&rt, "no fault");
    drop(team);
    let all = [Some(1), Some(2), Some(4), Some(1), Some(9)];
    assert_same(&rt, &answers.as_slice(), &[Ok(all)].as_slice());
}
