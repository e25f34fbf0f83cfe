//! A team of one client, and refused teams.
use crate::asserts::assert_same;
use clients::{Add, Client, Computed, Fault, Loan, NoFunction, Quiet, Team, Work};
use std::alloc::Global;
use std::process::Abort;
use std::sync::Wait;
use std::thread::Threads;

/// A call without its key.
#[derive(Clone, Copy)]
enum Call {
    Get,
    Contains,
    Put(u64),
    PutIfAbsent(u64),
    Remove,
    RemoveIf(u64),
    Replace(u64),
    ReplaceIf(u64, u64),
    ComputeIfAbsent,
    ComputeIfPresent,
    Compute,
    Merge(u64),
}

/// What a call answers.
#[derive(Clone, Copy, PartialEq)]
enum Told {
    Value(Option<u64>),
    Truth(bool),
    /// The value after the call, and whether the function was used.
    Computed(Option<u64>, bool),
}

/// A call on a key, and what it answers.
type Row = (u64, Call, Told);

const NONE: Told = Told::Value(None);

/// Each of the twelve calls.
const TYPED: [Row; 17] = [
    (1, Call::Contains, Told::Truth(false)),
    (1, Call::Replace(9), NONE),
    (1, Call::Put(5), NONE),
    (1, Call::PutIfAbsent(9), Told::Value(Some(5))),
    (1, Call::RemoveIf(9), Told::Truth(false)),
    (1, Call::ReplaceIf(5, 6), Told::Truth(true)),
    (1, Call::Merge(4), Told::Computed(Some(10), true)),
    (1, Call::Compute, Told::Value(Some(10))),
    (2, Call::ComputeIfAbsent, Told::Computed(None, true)),
    (1, Call::ComputeIfAbsent, Told::Computed(Some(10), false)),
    (1, Call::ComputeIfPresent, Told::Computed(Some(10), true)),
    (2, Call::ComputeIfPresent, Told::Computed(None, false)),
    (4, Call::Merge(8), Told::Computed(Some(8), false)),
    (4, Call::Remove, Told::Value(Some(8))),
    (3, Call::Put(7), NONE),
    (1, Call::Remove, Told::Value(Some(10))),
    (3, Call::Get, Told::Value(Some(7))),
];

/// The calls that borrow their key, between puts.
const BORROWING: [Row; 10] = [
    (1, Call::Put(5), NONE),
    (1, Call::Contains, Told::Truth(true)),
    (2, Call::Contains, Told::Truth(false)),
    (1, Call::Replace(6), Told::Value(Some(5))),
    (2, Call::Replace(6), NONE),
    (1, Call::Get, Told::Value(Some(6))),
    (2, Call::Get, NONE),
    (2, Call::Remove, NONE),
    (1, Call::Remove, Told::Value(Some(6))),
    (2, Call::Put(7), NONE),
];

/// The answer of a call that may use its function.
fn computed(answer: Computed<u64>) -> Told {
    Told::Computed(answer.value, answer.used)
}

/// Makes a call.
fn make<L: Loan, R: Wait>(
    rt: &R,
    client: &mut Client<'_, L, u64, u64, Add, Global>,
    key: u64,
    call: Call,
) -> Result<Told, Fault> {
    match call {
        Call::Get => Ok(Told::Value(client.get(rt, &key)?)),
        Call::Contains => Ok(Told::Truth(client.contains_key(rt, &key)?)),
        Call::Put(value) => Ok(Told::Value(client.put(rt, key, value)?)),
        Call::PutIfAbsent(value) => Ok(Told::Value(client.put_if_absent(rt, key, value)?)),
        Call::Remove => Ok(Told::Value(client.remove(rt, &key)?)),
        Call::RemoveIf(value) => Ok(Told::Truth(client.remove_if(rt, &key, value)?)),
        Call::Replace(value) => Ok(Told::Value(client.replace(rt, &key, value)?)),
        Call::ReplaceIf(old, new) => Ok(Told::Truth(client.replace_if(rt, &key, old, new)?)),
        Call::ComputeIfAbsent => Ok(computed(client.compute_if_absent(rt, key, Add)?)),
        Call::ComputeIfPresent => Ok(computed(client.compute_if_present(rt, &key, Add)?)),
        Call::Compute => Ok(Told::Value(client.compute(rt, key, Add)?)),
        Call::Merge(value) => Ok(computed(client.merge(rt, key, value, Add)?)),
    }
}

/// Makes the calls of a table, and answers which is the first to answer something else.
#[derive(Clone, Copy)]
enum Table {
    Typed,
    Borrowing,
}

impl Work<u64, u64, Add, Global> for Table {
    type Out = Option<usize>;

    fn work<L: Loan, R: Wait>(
        &self,
        rt: &R,
        client: &mut Client<'_, L, u64, u64, Add, Global>,
    ) -> Option<usize> {
        let rows = match self {
            Table::Typed => TYPED.as_slice(),
            Table::Borrowing => BORROWING.as_slice(),
        };
        for (line, (key, call, told)) in rows.iter().enumerate() {
            if make(rt, client, *key, *call) != Ok(*told) {
                return Some(line);
            }
        }
        None
    }
}

/// How many calls one client of a new map made, how many keys are left, the greatest value, and the
/// values at 1, 2 and 3.
type Left = (u64, u64, Option<u64>, [Option<u64>; 3]);

fn first_values(closed: &Quiet<u64, u64, Add, Global>) -> [Option<u64>; 3] {
    let value = |key: u64| closed.get(&key).copied();
    [value(1), value(2), value(3)]
}

/// Asserts that each call of a table answers as its row says, and what they leave.
fn assert_answers<R: Threads + Wait + Abort + Sync>(
    rt: &R,
    alloc: Global,
    table: Table,
    wanted: &Left,
) {
    let mut team = Team::new(alloc, 1, 1).expect(rt, "no fault");
    let answers = team.work(rt, &table).expect(rt, "no fault");
    let made = team.passes().first().map_or(0, |pass| pass.made());
    let closed = team.close().expect(rt, "no fault");
    let greatest = closed.entries().map(|pair| pair.1).max();
    let left = (
        made,
        closed.mapping_count(),
        greatest,
        first_values(&closed),
    );
    drop(closed);
    assert_same(rt, &answers.as_slice(), &[None].as_slice());
    assert_same(rt, &left, wanted);
}

#[test]
fn each_typed_call_answers(rt: HostRuntime) {
    let wanted = (17, 1, Some(7), [None, None, Some(7)]);
    assert_answers(&rt, rt.alloc(), Table::Typed, &wanted);
}

/// A key that was borrowed is still the caller's, and the calls reply as those do that take it.
#[test]
fn each_call_that_borrows_its_key_answers(rt: HostRuntime) {
    let wanted = (10, 1, Some(7), [None, Some(7), None]);
    assert_answers(&rt, rt.alloc(), Table::Borrowing, &wanted);
}

#[test]
fn a_team_is_refused(rt: HostRuntime) {
    let none = Team::<u64, u64, NoFunction, Global>::new(rt.alloc(), 0, 1).err();
    let crowd = Team::<u64, u64, NoFunction, Global>::new(rt.alloc(), 4096, 33).err();
    let taken_apart = Team::<u64, u64, NoFunction, Global>::new(rt.alloc(), 16, 3)
        .expect(&rt, "no fault")
        .into_parts();
    let (map, passes) = taken_apart;
    let team = Team::of(map, passes);
    let clients = team.map().clients();
    drop(team);
    assert_same(&rt, &none, &Some(Fault::BadCapacity));
    assert_same(&rt, &crowd, &Some(Fault::BadClients));
    assert_same(&rt, &clients, &3);
}

/// Client 0 puts 5 at 1, or each client gets what lies there.
#[derive(Clone, Copy)]
enum Round {
    Put,
    Get,
}

impl Work<u64, u64, Add, Global> for Round {
    type Out = Result<Option<u64>, Fault>;

    fn work<L: Loan, R: Wait>(
        &self,
        rt: &R,
        client: &mut Client<'_, L, u64, u64, Add, Global>,
    ) -> Result<Option<u64>, Fault> {
        match (self, client.number()) {
            (Round::Put, 0) => client.put(rt, 1, 5),
            (Round::Put, _) => Ok(None),
            (Round::Get, _) => client.get(rt, &1),
        }
    }
}

/// When a round of work ends each client has learned what all did in it, so in the next round each
/// gets it.
#[test]
fn a_round_of_work_stands_behind_the_one_before(rt: HostRuntime) {
    let mut team = Team::new(rt.alloc(), 1, 3).expect(&rt, "no fault");
    let put = team.work(&rt, &Round::Put).expect(&rt, "no fault");
    let got = team.work(&rt, &Round::Get).expect(&rt, "no fault");
    let clients = (team.passes()[0].client(), team.passes()[2].client());
    drop(team);
    assert_same(
        &rt,
        &put.as_slice(),
        &[Ok(None), Ok(None), Ok(None)].as_slice(),
    );
    assert_same(
        &rt,
        &got.as_slice(),
        &[Ok(Some(5)), Ok(Some(5)), Ok(Some(5))].as_slice(),
    );
    assert_same(&rt, &clients, &(0, 2));
}
