//! Clients that take their passes while a map lives, lanes, and closes with a roster.
ghost use Rattle.std.specs.Prelude.{◌≡◌, All, IfOk, IfSome};

use crate::examples::{NumberPass, NumberQuiet, Numbers, Plus};
use crate::maps::assert_same;
use crate::plays::{Play, played};
use crate::runs::run;
use bin_history::Reply;
use chm::{Fault, Map, Moment, NotClosedWith, Roster, Started};
use hashkeys::Salt;
use std::alloc::Global;
use std::process::Abort;
use std::sync::Wait;
use test_maps::{BOTH, Single, close_single, open, take_pass};
use test_support::Refusing;

/// A lean map of numbers, and its roster.
type NumbersStarted = Started<u64, u64, Plus, Global>;

type NumberRoster = Roster<u64, u64, Plus>;

#[test]
fn two_clients_of_one_lane_count_each_its_own(rt: HostRuntime) {
    // Clients 0 and 32 count in one lane: the first adds two keys, the other adds one and takes one of
    // the first's away.
    run(
        &rt,
        rt.alloc(),
        "open lean 16 33
        client = 0
        as 32
        client = 32
        as 0
        put a 5 = none
        put q 5 = none
        put q 6 = 5
        as 32
        put Aa 5 = none
        remove a = 5
        get q = 6
        balance = 0
        as 0
        balance = 2
        count = 2
        close
        keys = 2
        pairs Aa 5 q 6",
    );
}

/// Whether the roster has no pass left.
fn is_empty(map: &Numbers, roster: &mut NumberRoster) -> bool
    requires { roster.old.ledger ≡ map.now.ledger.id }
    ensures ledger { roster.new.ledger ≡ roster.old.ledger }
    ensures clients { roster.new.clients ≡ roster.old.clients }
{
    match map.join(roster) {
        None => true,
        Some(pass) => {
            pass.retire();
            false
        }
    }
}

/// Both clients join. Tells their numbers, how many passes were taken and how many clients there are, and
/// whether the roster is empty then.
fn two_join(
    rt: &impl Abort,
    map: &Numbers,
    roster: &mut NumberRoster,
) -> ((u32, u32), (u32, u32), bool)
    requires { roster.old.ledger ≡ map.now.ledger.id }
{
    let first = map.join(roster).expect(rt, "a pass");
    let second = map.join(roster).expect(rt, "a pass");
    let clients = (first.client(), second.client());
    let taken = (roster.taken(), roster.clients());
    let empty = is_empty(map, roster);
    first.retire();
    second.retire();
    (clients, taken, empty)
}

#[test]
fn a_roster_gives_each_client_its_pass_once(rt: HostRuntime) {
    let (map, mut roster): NumbersStarted = Map::lean_with(rt.alloc(), 16, 2, Salt(0)).expect(
        &rt, "a map",
    );
    let told = two_join(&rt, &map, &mut roster);
    assert_same(&rt, &told, &((0, 1), (2, 2), true));
    assert_same(&rt, &size_of::<NumberRoster>(), &8);
}

/// A client that comes and puts 5 at 1.
fn joined<R: Wait>(rt: &R, map: &Numbers, roster: &mut NumberRoster) -> Option<NumberPass>
    requires { roster.old.ledger ≡ map.now.ledger.id }
    ensures ledger { roster.new.ledger ≡ roster.old.ledger }
    ensures clients { roster.new.clients ≡ roster.old.clients }
    ensures pass { IfSome result (λ p. p.ledger ≡ map.now.ledger.id) }
{
    let mut pass = map.join(roster)?;
    let put = map.put(rt, &mut pass, 1, 5);
    if put.is_ok() {
        Some(pass)
    } else {
        pass.retire();
        None
    }
}

/// A lean map of 65,536 clients, none of which has come.
fn started(alloc: Global) -> Result<NumbersStarted, Fault>
    ensures id { IfOk result (λ r. r.1.ledger ≡ r.0.ledger.id) }
    ensures clients { IfOk result (λ r. r.1.clients ≡ r.0.ledger.clients) }
{
    let (map, roster): Started<u64, u64, Plus, Global> = Map::lean_with(
        alloc,
        16,
        65_536,
        Salt(0),
    )?;
    Ok((map, roster))
}

fn closed_with(
    map: Numbers,
    roster: NumberRoster,
    passes: Vec<NumberPass, Global>,
) -> Result<NumberQuiet, Fault>
    requires roster { roster.ledger ≡ map.ledger.id }
    requires clients { roster.clients ≡ map.ledger.clients }
    requires own { All (λ p. p.ledger ≡ map.ledger.id) passes.items }
{
    map.close_with(roster, passes)
        .map_err(|refused| refused.give_up())
}

/// One client of 65,536 puts a key; it and another hand their passes in, one by one. Returns the
/// fault of the close without the second pass, and the keys at last.
fn closed_by_two<R: Wait + Abort>(rt: &R, alloc: Global) -> (Fault, u64) {
    let (map, mut roster) = started(alloc).expect(rt, "a map");
    assert!(rt; map.clients() == 65_536 && roster.taken() == 0);
    let first = joined(rt, &map, &mut roster).expect(rt, "a pass");
    let second = map.join(&mut roster).expect(rt, "a pass");
    let mut passes = Vec::with_capacity(alloc, 2).expect(rt, "memory");
    passes.push_reserved(first);
    match map.close_with(roster, passes) {
        Ok(_) => {
            assert!(rt; false, "a pass is missing");
            unreachable!()
        }
        Err(refused) => {
            let NotClosedWith {
                fault,
                map,
                roster,
                known: _,
                mut passes,
            } = refused;
            passes.push(second).expect(rt, "memory");
            let map = map.expect(rt, "the map comes back");
            let closed = closed_with(map, roster, passes).expect(rt, "a closed map");
            (fault, closed.mapping_count())
        }
    }
}

#[test]
fn a_map_closes_with_the_passes_that_were_taken(rt: HostRuntime) {
    let told = closed_by_two(&rt, rt.alloc());
    assert_same(&rt, &told, &(Fault::PassMissing, 1));
}

fn closed_by_a_moment(
    map: Numbers,
    roster: NumberRoster,
    moment: Moment<u64, u64, Plus>,
    passes: Vec<NumberPass, Global>,
) -> Result<NumberQuiet, Fault>
    requires roster { roster.ledger ≡ map.ledger.id }
    requires clients { roster.clients ≡ map.ledger.clients }
    requires moment { moment.ledger ≡ map.ledger.id }
    requires own { All (λ p. p.ledger ≡ map.ledger.id) passes.items }
{
    map.close_knowing(roster, moment, passes)
        .map_err(|refused| refused.give_up())
}

/// One client puts and hands over its moment, with which the map is closed. Returns what the closed
/// map has at the key.
fn closed_knowing<R: Wait + Abort>(rt: &R, alloc: Global) -> Option<u64> {
    let (map, mut roster) = started(alloc).expect(rt, "a map");
    let mut pass = joined(rt, &map, &mut roster).expect(rt, "a pass");
    let moment = map.moment(&mut pass);
    let mut passes = Vec::with_capacity(alloc, 1).expect(rt, "memory");
    passes.push_reserved(pass);
    let closed = closed_by_a_moment(map, roster, moment, passes).expect(rt, "a closed map");
    closed.get(&1).copied()
}

/// A closed map is opened again for two clients.
fn restarted(quiet: &NumberQuiet) -> Result<bool, Fault> {
    let (map, roster) = quiet.restart(2, Salt(7))?;
    Ok(map.clients() == 2 && roster.taken() == 0)
}

#[test]
fn a_closed_map_starts_again_with_a_roster(rt: HostRuntime) {
    let (map, mut roster) = started(rt.alloc()).expect(&rt, "a map");
    let pass = joined(&rt, &map, &mut roster).expect(&rt, "a pass");
    let mut passes = Vec::with_capacity(rt.alloc(), 1).expect(&rt, "memory");
    passes.push_reserved(pass);
    let closed = closed_with(map, roster, passes).expect(&rt, "a closed map");
    assert!(rt; restarted(&closed) == Ok(true));
}

#[test]
fn a_map_closes_with_a_moment(rt: HostRuntime) {
    let value = closed_knowing(&rt, rt.alloc());
    assert_same(&rt, &value, &Some(5));
}

#[test]
fn too_many_clients_ask_for_no_memory(rt: HostRuntime) {
    for clients in [0, 65_537] {
        let alloc = Refusing::new(rt.alloc());
        let made: Result<Started<u64, u64, Plus, _>, Fault> = Map::lean_with(
            &alloc,
            16,
            clients,
            Salt(0),
        );
        assert_same(
            &rt,
            &(made.err(), alloc.requests()),
            &(Some(Fault::BadClients), 0),
        );
    }
}

/// The first of these clients puts, both learn of each other, and the second gets.
fn all_learn<R: Wait + Abort>(rt: &R, map: &Numbers, passes: &mut [NumberPass]) -> bool
    requires { All (λ p. p.ledger ≡ map.now.ledger.id) passes.old }
{
    assert!(rt; passes.len() == 2);
    map.put(rt, &mut passes[0], 1, 5).expect(rt, "memory");
    map.learn_all(passes);
    map.get(rt, &mut passes[1], 1).expect(rt, "memory") == Reply::Value(Some(5))
}

/// Whether the two other clients learn.
#[derive(Drop)]
struct AllLearn;

impl Play<u64, u64, Plus, Global> for AllLearn {
    type Told = bool;

    fn play<R: Wait + Abort>(
        &self,
        rt: &R,
        map: &Numbers,
        _pass: &mut NumberPass,
        others: &mut Vec<NumberPass, Global>,
    ) -> bool {
        all_learn(rt, map, others)
    }
}

#[test]
fn all_clients_learn_what_one_put(rt: HostRuntime) {
    for form in BOTH {
        let right = played(&rt, rt.alloc(), (form, 3), &AllLearn);
        assert_same(&rt, &(form, right), &(form, true));
    }
}

fn seen_together(map: &Numbers, first: &mut NumberPass, second: &mut NumberPass)
    requires first { first.old.ledger ≡ map.now.ledger.id }
    requires second { second.old.ledger ≡ map.now.ledger.id }
    ensures first { first.new ≡ first.old }
    ensures second { second.new ≡ second.old }
{
    map.together(first, second);
}

#[test]
fn two_clients_see_one_order(rt: HostRuntime) {
    for form in BOTH {
        let Single {
            map,
            mut pass,
            mut place,
        } = take_pass(open(rt.alloc(), form, 16, 2).expect(&rt, "a map")).expect(&rt, "a pass");
        assert!(rt; place.len() == 1);
        let put = map.put(&rt, &mut pass, 1, 5);
        seen_together(&map, &mut place[0], &mut pass);
        let made = (place[0].made(), pass.made());
        let closed: Result<chm::Quiet<u64, u64, Plus, Global>, Fault> = close_single(
            map, pass, place,
        );
        assert!(rt; put.is_ok() && closed.is_ok());
        assert_same(&rt, &made, &(0, 1));
    }
}
