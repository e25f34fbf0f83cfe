//! Threads that share a map without a team, and the pairs of a closed map.
use crate::asserts::assert_same;
use clients::{
    Add, Bytes, Client, Fault, HashKey, Loan, Map, NotClosed, Pass, Quiet, Remap, Salt, Sharing,
    Team, Value, Work, retire_all,
};
use std::alloc::{Allocator, Global};
use std::sync::Wait;
use std::thread::Threads;

/// The closed map of a team, which is given up where it cannot be closed.
pub(crate) fn close_or_give_up<K: HashKey, V: Value, F: Remap<K, V>, A: Allocator + Clone>(
    team: Team<K, V, F, A>,
) -> Result<Quiet<K, V, F, A>, Fault> {
    team.close().map_err(|refused| refused.give_up())
}

/// Each client adds 1 at key 0, and its number at its number.
#[derive(Clone, Copy)]
struct Numbers;

impl Sharing<u64, u64, Add, Global> for Numbers {
    type Out = Result<(), Fault>;

    fn work<R: Wait>(
        &self,
        rt: &R,
        map: &Map<u64, u64, Add, Global>,
        pass: &mut Pass<u64, u64, Add>,
    ) -> Result<(), Fault> {
        let number = u64::from(pass.client());
        map.merge(rt, pass, 0, 1, Add)?;
        map.merge(rt, pass, number, number, Add)?;
        Ok(())
    }
}

/// A closed map on which three clients worked.
fn shared<R: Threads + Wait + Sync>(rt: &R, alloc: Global) -> Option<Quiet<u64, u64, Add, Global>> {
    let (map, mut passes) = Map::lean(alloc, 16, 3, Salt(0)).ok()?;
    let answers = map.share(rt, &mut passes, &Numbers);
    match map.close(passes) {
        Ok(closed) => (answers.ok()?.as_slice() == [Ok(()); 3].as_slice()).then_some(closed),
        Err(
            NotClosed {
                fault: _,
                map: _,
                passes,
            },
        ) => {
            retire_all(passes);
            None
        }
    }
}

#[test]
fn threads_share_a_map_without_a_team(rt: HostRuntime) {
    let closed = shared(&rt, rt.alloc());
    let mut pairs = Vec::new(rt.alloc());
    if let Some(Ok(taken)) = closed.map(|quiet| quiet.into_entries()) {
        pairs = taken;
    }
    pairs.sort_unstable();
    assert_same(&rt, &pairs.as_slice(), &[(0, 3), (1, 1), (2, 2)].as_slice());
}

/// Puts two words.
#[derive(Clone, Copy)]
struct Words;

impl Work<Bytes<'static>, u64, Add, Global> for Words {
    type Out = Result<(), Fault>;

    fn work<L: Loan, R: Wait>(
        &self,
        rt: &R,
        client: &mut Client<'_, L, Bytes<'static>, u64, Add, Global>,
    ) -> Result<(), Fault> {
        client.put(rt, Bytes(b"one"), 1)?;
        client.put(rt, Bytes(b"two"), 2)?;
        Ok(())
    }
}

#[test]
fn the_pairs_of_a_team_are_taken_out(rt: HostRuntime) {
    let mut team = Team::new(rt.alloc(), 1, 1).expect(&rt, "no fault");
    for answer in team.work(&rt, &Words).expect(&rt, "no fault") {
        answer.expect(&rt, "no fault");
    }
    let mut sum = 0;
    let mut bytes = 0;
    if let Ok(pairs) = close_or_give_up(team)
        .expect(&rt, "no fault")
        .into_entries()
    {
        for (word, count) in pairs {
            bytes = word.0.len().wrapping_add(bytes);
            sum = count.wrapping_add(sum);
        }
    }
    assert_same(&rt, &bytes, &6);
    assert_same(&rt, &sum, &3);
}
