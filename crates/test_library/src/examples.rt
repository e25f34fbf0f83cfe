//! The examples of the calls of a client, each as it stands with its call.
use crate::asserts::assert_same;
use clients::{Add, Client, Computed, Fault, Loan, Team, Work};
use std::alloc::Global;
use std::sync::Wait;

/// A client of the examples.
type Numbers<'a, L> = Client<'a, L, u64, u64, Add, Global>;

/// Runs an example of more than one call, or of a call that goes through all entries.
fn run_longer<L: Loan, R: Wait>(
    rt: &R,
    alloc: Global,
    client: &mut Numbers<'_, L>,
    number: u64,
) -> Result<bool, Fault> {
    match number {
        0 => {
            client.remove(rt, &1)?;
            Ok(client.replace(rt, &1, 6)? == None)
        }
        1 => {
            client.remove(rt, &1)?;
            let before = client.balance();
            client.put(rt, 1, 5)?;
            Ok(client.balance() == before.wrapping_add(1))
        }
        2 => {
            let visits = client.walk(rt)?;
            Ok(
                visits
                    .iter()
                    .any(|visit| visit.entries.as_slice() == [(1, 5)].as_slice()),
            )
        }
        3 => {
            let mut most = 0;
            client.for_each(rt, |(_key, value)| most = value.max(most))?;
            Ok(most == 5)
        }
        4 => {
            client.clear(rt)?;
            Ok(client.get(rt, &1)? == None)
        }
        _ => {
            client.put_all(rt, vec![in alloc; (1, 5), (2, 6)]?)?;
            Ok(client.get(rt, &2)? == Some(6))
        }
    }
}

/// Runs an example of a call that uses a function, or not.
fn run_computed<L: Loan, R: Wait>(
    rt: &R,
    alloc: Global,
    client: &mut Numbers<'_, L>,
    number: u64,
) -> Result<bool, Fault> {
    match number {
        5 => Ok(client.compute(rt, 1, Add)? == Some(5)),
        6 => Ok(
            client.compute_if_absent(rt, 1, Add)?
                == Computed {
                    value: Some(5),
                    used: false,
                },
        ),
        7 => Ok(
            client.compute_if_present(rt, &1, Add)?
                == Computed {
                    value: Some(5),
                    used: true,
                },
        ),
        8 => Ok(
            client.merge(rt, 1, 2, Add)?
                == Computed {
                    value: Some(7),
                    used: true,
                },
        ),
        _ => run_longer(rt, alloc, client, number),
    }
}

/// Runs the example of this number, each of which begins with 5 at 1. There are 21, of which the last
/// alone leaves another key.
fn run<L: Loan, R: Wait>(
    rt: &R,
    alloc: Global,
    client: &mut Numbers<'_, L>,
    number: u64,
) -> Result<bool, Fault> {
    client.put(rt, 1, 5)?;
    match number {
        9 => Ok(client.get(rt, &1)? == Some(5)),
        10 => Ok(client.look_up(rt, &1)? == Some(5)),
        11 => Ok(client.contains_key(rt, &1)?),
        12 => Ok(client.put(rt, 1, 6)? == Some(5)),
        13 => Ok(client.put_if_absent(rt, 1, 6)? == Some(5)),
        14 => Ok(client.remove(rt, &1)? == Some(5)),
        15 => Ok(!client.remove_if(rt, &1, 6)?),
        16 => Ok(client.replace_if(rt, &1, 5, 6)?),
        17 => Ok(client.glance(rt, &1)? == Some(5)),
        18 => Ok(client.mapping_count() == 1),
        19 => Ok(client.fold(rt, 0, |most, (_key, value)| value.max(most))? == 5),
        _ => run_computed(rt, alloc, client, number),
    }
}

/// Runs the examples, and answers which is the first that is not as it says.
#[derive(Clone, Copy)]
struct Examples {
    alloc: Global,
}

impl Work<u64, u64, Add, Global> for Examples {
    type Out = Option<u64>;

    fn work<L: Loan, R: Wait>(&self, rt: &R, client: &mut Numbers<'_, L>) -> Option<u64> {
        for number in 0..21u64 {
            if run(rt, self.alloc, client, number) != Ok(true) {
                return Some(number);
            }
        }
        None
    }
}

/// The examples at the calls of a client, run by one client on one map.
#[test]
fn each_example_is_as_it_says(rt: HostRuntime) {
    let alloc = rt.alloc();
    let mut team = Team::new(alloc, 1, 1).expect(&rt, "no fault");
    let answers = team.work(&rt, &Examples { alloc }).expect(&rt, "no fault");
    drop(team);
    assert_same(&rt, &answers.as_slice(), &[None].as_slice());
}
