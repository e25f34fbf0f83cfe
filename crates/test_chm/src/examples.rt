//! The examples of opening, sharing and closing a map, and of a closed one, each as it stands with
//! its call.
ghost use Rattle.std.specs.Prelude.{◌≡◌, All};

use crate::call_examples::first_wrong;
use crate::maps::assert_same;
use bin_history::{Exact, Form, Remap};
use chm::{Fault, Map, Opened, Quiet, Sharing};
use count_ledger::{Pass, retire_all};
use hashkeys::Salt;
use std::alloc::{AllocError, Global};
use std::process::Abort;
use std::sync::Wait;
use std::thread::Threads;
use test_maps::{Single, open, open_single, put_back};

/// Adds a number to a value, or to 0 where there is none; a merge adds it to the sum of both.
#[derive(Drop)]
pub(crate) struct Plus(pub(crate) u64);

impl Clone for Plus {
    ghost use Rattle.std.specs.Prelude.{◌≡◌};

    ghost is_clone = { λ x y. y ≡ x };

    fn clone(&self) -> Result<Plus, AllocError> {
        Ok(Plus(self.0))
    }
}

impl Exact for Plus {
    ghost copies_exactly = { λ x y e. e };
}

impl Remap<u64, u64> for Plus {
    ghost use Rattle.std.specs.Prelude.{Some, unwrap_or, min, ◌+◌, ◌-◌, ◌^◌};

    ghost remapped = { λ f _ value. Some (min (unwrap_or value 0 + f.0) (2 ^ 64 - 1)) };

    ghost merged = { λ f old given. Some
        (min (min (old + given) (2 ^ 64 - 1) + f.0) (2 ^ 64 - 1)) };

    fn remap(&self, _key: &u64, value: Option<&u64>) -> Result<Option<u64>, AllocError> {
        let old = value.copied().unwrap_or(0);
        Ok(Some(old.saturating_add(self.0)))
    }

    fn merge(&self, old: &u64, given: &u64) -> Result<Option<u64>, AllocError> {
        let both = old.saturating_add(*given);
        Ok(Some(both.saturating_add(self.0)))
    }
}

/// A map of the examples.
pub(crate) type Numbers = Map<u64, u64, Plus, Global>;

/// The right of a client to call it.
pub(crate) type NumberPass = Pass<u64, u64, Plus>;

/// Such a map, closed.
pub(crate) type NumberQuiet = Quiet<u64, u64, Plus, Global>;

fn new(rt: &impl Abort, alloc: Global) -> bool {
    let (map, passes): Opened<u64, u64, Plus, Global> = Map::new(alloc, 16, 4).expect(rt, "memory");
    let told = map.clients() == 4 && passes.len() == 4;
    retire_all(passes);
    told
}

fn with_salt(rt: &impl Abort, alloc: Global) -> bool {
    let (map, passes): Opened<u64, u64, Plus, Global> = Map::with_salt(
        alloc,
        16,
        4,
        Salt(7),
    ).expect(rt, "memory");
    let told = map.salt() == Salt(7);
    retire_all(passes);
    told
}

fn lean(rt: &impl Abort, alloc: Global) -> bool {
    let (map, passes): Opened<u64, u64, Plus, Global> = Map::lean(alloc, 16, 4, Salt(0)).expect(
        rt, "memory",
    );
    let told = map.form() == Form::Lean;
    retire_all(passes);
    told
}

fn close(map: Numbers, passes: Vec<NumberPass, Global>) -> Result<NumberQuiet, Fault>
    requires { All (λ p. p.ledger ≡ map.ledger.id) passes.items }
{
    match map.close(passes) {
        Ok(quiet) => Ok(quiet),
        Err(refused) => Err(refused.give_up()),
    }
}

/// Adds 1 at 1, and answers the client's number.
#[derive(Clone, Copy)]
struct AddOne;

impl Sharing<u64, u64, Plus, Global> for AddOne {
    type Out = u32;

    fn work<R: Wait>(&self, rt: &R, map: &Numbers, pass: &mut NumberPass) -> u32 {
        let _ = map.merge(rt, pass, 1, 1, Plus(0));
        pass.client()
    }
}

/// Whether the answers come in order and the sum is right.
fn are_added<R: Threads + Wait + Abort + Sync>(
    rt: &R,
    map: &Numbers,
    passes: &mut Vec<NumberPass, Global>,
) -> bool
    requires { All (λ p. p.ledger ≡ map.now.ledger.id) passes.old.items }
    ensures { All (λ p. p.ledger ≡ map.now.ledger.id) passes.new.items }
{
    let answered = map
        .share(rt, passes, &AddOne)
        .expect(rt, "memory")
        .as_slice()
        == [0, 1, 2, 3].as_slice();
    answered && map.glance(rt, &1).expect(rt, "memory") == Some(4)
}

/// Closes a map that is asked for nothing more.
fn close_or_give_up<R: Wait>(
    rt: &R,
    map: Numbers,
    passes: Vec<NumberPass, Global>,
) -> Result<NumberQuiet, Fault>
    requires { All (λ p. p.ledger ≡ map.ledger.id) passes.items }
{
    map.close(passes).map_err(|refused| refused.give_up())
}

fn share<R: Threads + Wait + Abort + Sync>(rt: &R, alloc: Global) -> bool {
    let (map, mut passes): Opened<u64, u64, Plus, Global> = open(alloc, Form::Lean, 16, 4).expect(
        rt, "a map",
    );
    let told = are_added(rt, &map, &mut passes);
    drop(close_or_give_up(rt, map, passes).expect(rt, "a closed map"));
    told
}

fn mapping_count_all(rt: &impl Abort, alloc: Global) -> bool {
    let (map, mut passes): Opened<u64, u64, Plus, Global> = open(alloc, Form::Lean, 16, 4).expect(
        rt, "a map",
    );
    assert!(rt; passes.len() == map.clients() as usize);
    let told = map.mapping_count_all(&mut passes) == 0;
    retire_all(passes);
    told
}

fn quiet_get(quiet: &NumberQuiet) -> bool {
    quiet.get(&1).copied() == Some(5) && quiet.get(&2).is_none()
}

fn entries(quiet: &NumberQuiet) -> bool {
    let mut pairs = quiet.entries();
    let first = pairs.next().copied() == Some((1, 5));
    first && pairs.next().is_none()
}

fn reopen(rt: &impl Abort, quiet: &NumberQuiet) -> bool {
    let (map, passes) = quiet.reopen(2).expect(rt, "memory");
    let told = map.clients() == 2 && map.mapping_count() == 1;
    retire_all(passes);
    told
}

fn reopen_with(rt: &impl Abort, quiet: &NumberQuiet) -> bool {
    let (map, passes) = quiet.reopen_with(2, Salt(7)).expect(rt, "memory");
    let told = map.salt() == Salt(7);
    retire_all(passes);
    told
}

fn into_entries(quiet: NumberQuiet) -> bool {
    match quiet.into_entries() {
        Ok(pairs) => pairs.as_slice() == [(1, 5)].as_slice(),
        Err(_) => false,
    }
}

/// The closed map of the examples of calls, which has 5 at 1, and the number of one that was wrong.
fn closed<R: Wait + Abort>(rt: &R, alloc: Global) -> (NumberQuiet, Option<u64>) {
    let Single {
        map,
        mut pass,
        mut place,
    } = open_single(alloc, Form::Lean, 16).expect(rt, "a map");
    let wrong = first_wrong(rt, &map, &mut pass);
    let _ = map.put(rt, &mut pass, 1, 5);
    put_back(&map, pass, &mut place);
    (close(map, place).expect(rt, "a closed map"), wrong)
}

#[test]
fn each_example_of_a_call_is_as_it_says(rt: HostRuntime) {
    let (quiet, wrong) = closed(&rt, rt.alloc());
    drop(quiet);
    assert_same(&rt, &wrong, &None);
}

#[test]
fn each_example_of_opening_and_sharing_is_as_it_says(rt: HostRuntime) {
    let told = [
        new(&rt, rt.alloc()),
        with_salt(&rt, rt.alloc()),
        lean(&rt, rt.alloc()),
        share(&rt, rt.alloc()),
        mapping_count_all(&rt, rt.alloc()),
    ];
    assert_same(&rt, &told, &[true; 5]);
}

#[test]
fn each_example_of_a_closed_map_is_as_it_says(rt: HostRuntime) {
    let (quiet, _) = closed(&rt, rt.alloc());
    let told = [
        quiet_get(&quiet),
        quiet.mapping_count() == 1,
        entries(&quiet),
        reopen(&rt, &quiet),
        reopen_with(&rt, &quiet),
        into_entries(quiet),
    ];
    assert_same(&rt, &told, &[true; 6]);
}
