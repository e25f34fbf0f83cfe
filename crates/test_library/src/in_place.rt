//! Views, updates, and walks a bucket at a time, of a team's client and of one that owns its pass.
ghost use Rattle.std.specs.Prelude.{◌≡◌};
ghost use Rattle.bin_history.specs.declared.form.Form.TheVariants.{Lean};

use crate::asserts::assert_same;
use clients::{
    Add, Bytes, Change, Client, Fault, KeyArg, Loan, OwnedClient, Salt, SharedMap, Team, Work,
};
use std::alloc::Global;
use std::sync::Wait;

/// A client of a team.
type Lent<'a, L> = Client<'a, L, u64, u64, Add, Global>;

/// A client that owns its pass.
type Owned = OwnedClient<u64, u64, Add, Global>;

/// Goes a step of a walk of a map with one key, 1, in one bucket, in one of five ways, 7 to 11. Returns
/// whether what it finds is right.
fn lent_step<L: Loan, R: Wait>(rt: &R, client: &mut Lent<'_, L>, way: u64) -> Result<bool, Fault> {
    let mut cursor = client.cursor();
    let mut most = 0;
    match way {
        7 => Ok(client.visit_next(rt, &mut cursor)?.is_some()),
        8 => Ok(client.try_visit_next(&mut cursor).is_some()),
        9 => Ok(client.show_next(
            rt,
            &mut cursor,
            &mut |_key: &u64, value: &u64| most = most.max(*value),
        )),
        10 => {
            let mut keeps = |_key: &u64, value: &u64| *value > 5;
            Ok(client.retain_next(rt, &mut cursor, &mut keeps)?.is_some())
        }
        _ => {
            client.show_each(rt, |_key: &u64, value: &u64| most = most.max(*value));
            Ok(most == 5)
        }
    }
}

/// Views, updates or drops what lies at 1, in one of twelve ways, after a put of 5, or in way 6 of 6.
/// Returns whether what it finds is right.
fn lent_value<L: Loan, R: Wait>(rt: &R, client: &mut Lent<'_, L>, way: u64) -> Result<bool, Fault> {
    client.put(rt, 1, if way == 6 { 6 } else { 5 })?;
    match way {
        0 => Ok(client.view(rt, &1, |value| value.copied()) == Some(5)),
        1 => {
            client.remove(rt, &1)?;
            Ok(client.try_view(&1, |value| value.copied()) == Some(None))
        }
        2 => {
            let found = client.update(rt, 1, |value| (Change::Set(6), value.copied()))? == Some(5);
            Ok(found && client.get(rt, &1)? == Some(6))
        }
        3 => {
            let found = client.update_lent(rt, &1, |value| (Change::Remove, value.copied()))?
                == Some(5);
            Ok(found && client.get(rt, &1)? == None)
        }
        4 => Ok(
            client.try_update(KeyArg::Borrowed(&1), |value| (Change::Keep, value.copied()))
                == Some(Ok(Some(5))),
        ),
        5 | 6 => {
            client.retain(rt, |_key: &u64, value: &u64| *value > 5)?;
            let left = if way == 6 { Some(6) } else { None };
            Ok(client.get(rt, &1)? == left)
        }
        _ => lent_step(rt, client, way),
    }
}

/// Looks at values where they lie. Answers the first way in which something else is found than it
/// should.
#[derive(Clone, Copy)]
struct InPlace;

impl Work<u64, u64, Add, Global> for InPlace {
    type Out = Option<u64>;

    fn work<L: Loan, R: Wait>(&self, rt: &R, client: &mut Lent<'_, L>) -> Option<u64> {
        for way in 0..12u64 {
            if lent_value(rt, client, way) != Ok(true) {
                return Some(way);
            }
        }
        None
    }
}

#[test]
fn a_client_of_a_team_looks_at_values_where_they_lie(rt: HostRuntime) {
    let mut team = Team::new(rt.alloc(), 1, 1).expect(&rt, "no fault");
    let answers = team.work(&rt, &InPlace).expect(&rt, "no fault");
    drop(team);
    assert_same(&rt, &answers.as_slice(), &[None].as_slice());
}

/// The same by a client that owns its pass.
fn own_values<R: Wait>(rt: &R, client: &mut Owned) -> Result<[bool; 6], Fault> {
    client.put(rt, 1, 5)?;
    let viewed = client.view(rt, &1, |value| value.copied()) == Some(5);
    let tried = client.try_view(&2, |value| value.copied()) == Some(None);
    let updated = client.update(rt, 1, |value| (Change::Set(6), value.copied()))? == Some(5);
    let kept = client.try_update(KeyArg::Borrowed(&1), |value| (Change::Keep, value.copied()))
        == Some(Ok(Some(6)));
    let removed = client.update_lent(rt, &1, |value| (Change::Remove, value.copied()))? == Some(6);
    client.put(rt, 1, 5)?;
    client.retain(rt, |_key: &u64, value: &u64| *value > 5)?;
    Ok([
        viewed,
        tried,
        updated,
        kept,
        removed,
        client.get(rt, &1)? == None,
    ])
}

fn own_walks<R: Wait>(rt: &R, client: &mut Owned) -> Result<[bool; 6], Fault> {
    client.put(rt, 1, 5)?;
    let mut cursor = client.cursor();
    let visited = client.visit_next(rt, &mut cursor)?.is_some();
    let mut cursor = client.cursor();
    let tried = client.try_visit_next(&mut cursor).is_some();
    let mut cursor = client.cursor();
    let mut most = 0;
    let shown = client.show_next(
        rt,
        &mut cursor,
        &mut |_key: &u64, value: &u64| most = most.max(*value),
    );
    let mut cursor = client.cursor();
    let mut keeps = |_key: &u64, value: &u64| *value > 5;
    let went = client.retain_next(rt, &mut cursor, &mut keeps)?.is_some();
    client.put(rt, 1, 5)?;
    let mut most = 0;
    client.show_each(rt, |_key: &u64, value: &u64| most = most.max(*value));
    let folded = client.fold(rt, 0, |most, (_key, value)| value.max(most))? == 5;
    Ok([visited, tried, shown, went, most == 5, folded])
}

#[test]
fn a_client_that_owns_its_pass_looks_at_values_where_they_lie(rt: HostRuntime) {
    let map = SharedMap::with_salt(rt.alloc(), 1, 1, Salt(0)).expect(&rt, "no fault");
    let mut client = map.client().expect(&rt, "a client");
    let values = own_values(&rt, &mut client).expect(&rt, "no fault");
    let walks = own_walks(&rt, &mut client).expect(&rt, "no fault");
    drop(client);
    assert_same(&rt, &values, &[true; 6]);
    assert_same(&rt, &walks, &[true; 6]);
    assert_same(
        &rt,
        &map.close().ok().map(|closed| closed.mapping_count()),
        &Some(1),
    );
}

/// A client of a map of byte strings.
type Texts = OwnedClient<Bytes<'static>, u64, Add, Global>;

/// Views and looks up by slices, and makes calls by them.
fn by_slices<R: Wait>(rt: &R, client: &mut Texts) -> Result<[bool; 6], Fault>
    requires { client.old.map.ledger.form ≡ Lean }
    ensures { client.new.map ≡ client.old.map }
{
    client.put(rt, Bytes(b"one"), 5)?;
    let viewed = client.view_as(rt, b"one".as_slice(), |value| value.copied()) == Some(5);
    let tried = client.try_view_as(b"two".as_slice(), |value| value.copied()) == Some(None);
    let looked = client.look_up_as(rt, b"one".as_slice())? == Some(5);
    Ok([
        viewed,
        tried,
        looked,
        client.get_as(rt, b"one".as_slice())? == Some(5),
        client.contains_as(rt, b"one".as_slice())?,
        client.remove_as(rt, b"one".as_slice())? == Some(5),
    ])
}

#[test]
fn a_slice_stands_for_its_key_in_calls(rt: HostRuntime) {
    let map = SharedMap::with_salt(rt.alloc(), 16, 4, Salt(7)).expect(&rt, "no fault");
    let mut client = map.client().expect(&rt, "a client");
    let found = by_slices(&rt, &mut client).expect(&rt, "no fault");
    let none = client
        .get_as(&rt, b"one".as_slice())
        .expect(&rt, "no fault");
    let made = client.balance();
    drop(client);
    assert_same(&rt, &found, &[true; 6]);
    assert_same(&rt, &none, &None);
    assert_same(&rt, &made, &0);
    assert_same(
        &rt,
        &map.close().ok().map(|closed| closed.mapping_count()),
        &Some(0),
    );
}
