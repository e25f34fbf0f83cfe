//! Keys of bytes that are looked for by slices, of which no key is made.

use crate::asserts::assert_same;
use crate::closed::close_or_give_up;
use clients::{
    AsKey, ByteString, Bytes, Client, Fault, Form, HashKey, Loan, Map, NoFunction, Quiet, Team,
    Work,
};
use std::alloc::Global;
use std::sync::Wait;
use test_helpers::{Alloc, Number};
use test_support::Refusing;

/// A client of these tests. A copy of a value asks for memory once.
type Numbers<'c, 'a, L, K> = Client<'c, L, K, Number<'a>, NoFunction, Alloc<'a>>;

/// What a look-up and a glance find, and how many requests for memory both make.
type Found = ([Option<u64>; 2], u64);

const BOTH: [Form; 2] = [Form::Recorded, Form::Lean];

/// The bytes that are looked for: those of two keys that are there, one of them empty, and of two
/// that are not.
const QUERIES: [&[u8]; 4] = [b"one", b"", b"on", b"one "];

/// What is found there, 5 and 6, with one copy for a look-up and one for a glance.
const WANTED: [Found; 4] = [
    ([Some(5); 2], 2),
    ([Some(6); 2], 2),
    ([None; 2], 0),
    ([None; 2], 0),
];

/// The number of a value that was found.
fn told(found: Option<Number<'_>>) -> Option<u64> {
    match found {
        Some(value) => Some(value.number),
        None => None,
    }
}

/// Looks for the key that this stands for.
fn look<'a, L: Loan, R: Wait, K: HashKey, Q: AsKey<K>>(
    rt: &R,
    alloc: Alloc<'a>,
    client: &mut Numbers<'_, 'a, L, K>,
    query: Q,
) -> Result<Found, Fault> {
    let before = alloc.requests();
    let looked_up = told(client.look_up_as(rt, query)?);
    let glanced = told(client.glance_as(rt, query)?);
    let asked = alloc.requests().wrapping_sub(before);
    Ok(([looked_up, glanced], asked))
}

/// Looks for each of the queries. Answers the first for which something else is found than wanted.
fn first_wrong<'a, L: Loan, R: Wait, K: HashKey, Q: AsKey<K> + Copy>(
    rt: &R,
    alloc: Alloc<'a>,
    client: &mut Numbers<'_, 'a, L, K>,
    queries: &[Q; 4],
) -> Result<Option<usize>, Fault> {
    for (line, (query, wanted)) in queries.iter().zip(&WANTED).enumerate() {
        if look(rt, alloc, client, *query)? != *wanted {
            return Ok(Some(line));
        }
    }
    Ok(None)
}

/// Puts 5 at `one` and 6 at the key without bytes, and looks for each of the queries.
#[derive(Clone, Copy)]
struct Looks<'a> {
    alloc: Alloc<'a>,
}

impl<'a> Looks<'a> {
    fn number(&self, number: u64) -> Number<'a> {
        Number {
            number,
            alloc: self.alloc,
        }
    }

    fn text(&self, bytes: &[u8]) -> Result<ByteString<Alloc<'a>>, Fault> {
        Ok(ByteString::new(bytes.to_vec(self.alloc)?))
    }
}

impl<'a> Work<Bytes<'static>, Number<'a>, NoFunction, Alloc<'a>> for Looks<'a> {
    type Out = Result<Option<usize>, Fault>;

    fn work<L: Loan, R: Wait>(
        &self,
        rt: &R,
        client: &mut Numbers<'_, 'a, L, Bytes<'static>>,
    ) -> Result<Option<usize>, Fault> {
        client.put(rt, Bytes(b"one"), self.number(5))?;
        client.put(rt, Bytes(b""), self.number(6))?;
        first_wrong(rt, self.alloc, client, &QUERIES)
    }
}

impl<'a> Work<ByteString<Alloc<'a>>, Number<'a>, NoFunction, Alloc<'a>> for Looks<'a> {
    type Out = Result<Option<usize>, Fault>;

    fn work<L: Loan, R: Wait>(
        &self,
        rt: &R,
        client: &mut Numbers<'_, 'a, L, ByteString<Alloc<'a>>>,
    ) -> Result<Option<usize>, Fault> {
        client.put(rt, self.text(b"one")?, self.number(5))?;
        client.put(rt, self.text(b"")?, self.number(6))?;
        first_wrong(rt, self.alloc, client, &QUERIES)
    }
}

/// A team of one client, on a map whose bins store records.
fn recorded_team<'a, K: HashKey>(
    alloc: Alloc<'a>,
) -> Result<Team<K, Number<'a>, NoFunction, Alloc<'a>>, Fault> {
    let (map, passes) = Map::new(alloc, 16, 1)?;
    Ok(Team::of(map, passes))
}

/// A team of one client, on a map of the form.
fn team_of<'a, K: HashKey>(
    alloc: Alloc<'a>,
    form: Form,
) -> Result<Team<K, Number<'a>, NoFunction, Alloc<'a>>, Fault> {
    match form {
        Form::Lean => Team::new(alloc, 16, 1),
        Form::Recorded => recorded_team(alloc),
    }
}

/// The numbers that the closed map has at the keys that these stand for.
fn numbers_left<'a, K: HashKey, Q: AsKey<K> + Copy>(
    closed: &Quiet<K, Number<'a>, NoFunction, Alloc<'a>>,
    queries: &[Q; 4],
) -> [Option<u64>; 4] {
    let mut numbers = [None; 4];
    for (number, query) in numbers.iter_mut().zip(queries) {
        *number = match closed.get_as(*query) {
            Some(value) => Some(value.number),
            None => None,
        };
    }
    numbers
}

#[test]
fn a_slice_finds_a_key_that_lies_elsewhere(rt: HostRuntime) {
    for form in BOTH {
        let alloc = Refusing::new(rt.alloc());
        let mut team = team_of::<Bytes<'static>>(&alloc, form).expect(&rt, "no fault");
        let answers = team
            .work(&rt, &Looks { alloc: &alloc })
            .expect(&rt, "no fault");
        let closed = close_or_give_up(team).expect(&rt, "no fault");
        let left = numbers_left(&closed, &QUERIES);
        drop(closed);
        assert_same(&rt, &answers.as_slice(), &[Ok(None)].as_slice());
        assert_same(&rt, &left, &[Some(5), Some(6), None, None]);
    }
}

#[test]
fn a_slice_finds_a_key_that_owns_its_bytes(rt: HostRuntime) {
    for form in BOTH {
        let alloc = Refusing::new(rt.alloc());
        let mut team = team_of::<ByteString<Alloc<'_>>>(&alloc, form).expect(&rt, "no fault");
        let answers = team
            .work(&rt, &Looks { alloc: &alloc })
            .expect(&rt, "no fault");
        let closed = close_or_give_up(team).expect(&rt, "no fault");
        let left = numbers_left(&closed, &QUERIES);
        drop(closed);
        assert_same(&rt, &answers.as_slice(), &[Ok(None)].as_slice());
        assert_same(&rt, &left, &[Some(5), Some(6), None, None]);
    }
}

/// A client of the examples.
type Words<'c, L> = Client<'c, L, Bytes<'static>, u64, NoFunction, Global>;

fn look_up_as<L: Loan, R: Wait>(rt: &R, client: &mut Words<'_, L>) -> Result<bool, Fault> {
    client.put(rt, Bytes(b"one"), 5)?;
    Ok(client.look_up_as(rt, b"one".as_slice())? == Some(5))
}

fn glance_as<L: Loan, R: Wait>(rt: &R, client: &mut Words<'_, L>) -> Result<bool, Fault> {
    client.put(rt, Bytes(b"one"), 5)?;
    Ok(client.glance_as(rt, b"one".as_slice())? == Some(5))
}

/// Runs the examples, and answers which are right.
#[derive(Clone, Copy)]
struct Examples;

impl Work<Bytes<'static>, u64, NoFunction, Global> for Examples {
    type Out = [Result<bool, Fault>; 2];

    fn work<L: Loan, R: Wait>(
        &self,
        rt: &R,
        client: &mut Words<'_, L>,
    ) -> [Result<bool, Fault>; 2] {
        [look_up_as(rt, client), glance_as(rt, client)]
    }
}

#[test]
fn each_example_of_a_slice_is_as_it_says(rt: HostRuntime) {
    let mut team = Team::new(rt.alloc(), 1, 1).expect(&rt, "no fault");
    let answers = team.work(&rt, &Examples).expect(&rt, "no fault");
    drop(team);
    assert_same(&rt, &answers.as_slice(), &[[Ok(true); 2]].as_slice());
}
