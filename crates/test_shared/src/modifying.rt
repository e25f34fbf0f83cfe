//! Calls that change a value by a function that is lent it or given it, and calls by what makes their
//! key: the examples of each, as they stand with their call, and a list that grows where it lies.
ghost use Rattle.std.specs.Prelude.{◌≡◌, OnErr};
ghost use Rattle.bin_history.specs.declared.form.Form.TheVariants.{Lean};

use crate::asserts::assert_same;
use crate::maps::{Numbers, keys_of, share};
use clients::{
    Add, Bytes, Change, Client, ClientOf, Fault, Holder, ListOf, Loan, NoFunction, OwnedClient,
    Salt, SharedMap, Work,
};
use std::alloc::Global;
use std::mem::replace;
use std::sync::Wait;

/// A client of these tests, lent or owned.
type Any<H> = ClientOf<H, u64, u64, Add, Global>;

fn modify<H: Holder<u64, u64, Add, Global>, R: Wait>(
    rt: &R,
    client: &mut Any<H>,
) -> Result<bool, Fault> {
    client.put(rt, 1, 5)?;
    let lent = client.modify(rt, &1, |value| replace(value, 6))? == Some(5);
    let left = client.get(rt, &1)? == Some(6);
    let none = client.modify(rt, &2, |value| *value = 7)? == None;
    let still_none = client.get(rt, &2)? == None;
    client.put(rt, 1, 5)?;
    let tried = client.try_modify(&1, |value| replace(value, 6)) == Some(Ok(Some(5)));
    let left_by_a_try = client.remove(rt, &1)? == Some(6);
    Ok(lent && left && none && still_none && tried && left_by_a_try)
}

fn modify_or_insert<H: Holder<u64, u64, Add, Global>, R: Wait>(
    rt: &R,
    client: &mut Any<H>,
) -> Result<bool, Fault> {
    let made = client.modify_or_insert(rt, &1, 10, |value| replace(value, 11))? == 10;
    let modified = client.modify_or_insert(rt, &1, 10, |value| replace(value, 12))? == 11;
    let left = client.get(rt, &1)? == Some(12);
    client.remove(rt, &1)?;
    let tried = client
        .try_modify_or_insert(&1, 10, |value| *value)
        .is_some();
    let left_by_a_try = client.remove(rt, &1)? == Some(10);
    Ok(made && modified && left && tried && left_by_a_try)
}

fn update_owned<H: Holder<u64, u64, Add, Global>, R: Wait>(
    rt: &R,
    client: &mut Any<H>,
) -> Result<bool, Fault> {
    client.remove(rt, &1)?;
    let set = client.update_owned(rt, &1, |value| (Some(5), value))? == None;
    let removed = client.update_owned(rt, &1, |value| (None, value))? == Some(5);
    let none = client.get(rt, &1)? == None;
    let tried = client
        .try_update_owned(&1, |value| (Some(5), value))
        .is_some();
    let left_by_a_try = client.remove(rt, &1)? == Some(5);
    Ok(set && removed && none && tried && left_by_a_try)
}

/// Takes the value out of a place. Fails with 7 where there is none.
fn taken(place: &mut Option<u64>) -> Result<u64, u64>
    ensures { OnErr result (place.new ≡ place.old) }
{
    match *place {
        Some(value) => {
            *place = None;
            Ok(value)
        }
        None => Err(7),
    }
}

fn update_or_keep<H: Holder<u64, u64, Add, Global>, R: Wait>(
    rt: &R,
    client: &mut Any<H>,
) -> Result<bool, Fault> {
    client.remove(rt, &1)?;
    let failed = client.update_or_keep(rt, &1, taken)? == Err(7);
    client.put(rt, 1, 5)?;
    let taken_out = client.update_or_keep(rt, &1, taken)? == Ok(5);
    let none = client.get(rt, &1)? == None;
    client.put(rt, 1, 5)?;
    let tried = client.try_update_or_keep(&1, taken).is_some();
    let none_after_a_try = client.get(rt, &1)? == None;
    Ok(failed && taken_out && none && tried && none_after_a_try)
}

/// The examples of values that are lent or given, by any client.
fn make_each<H: Holder<u64, u64, Add, Global>, R: Wait>(
    rt: &R,
    client: &mut Any<H>,
) -> Result<[bool; 4], Fault> {
    Ok([
        modify(rt, client)?,
        modify_or_insert(rt, client)?,
        update_owned(rt, client)?,
        update_or_keep(rt, client)?,
    ])
}

/// The same by a client that is lent a pass.
#[derive(Clone, Copy)]
struct Lend;

impl Work<u64, u64, Add, Global> for Lend {
    type Out = Result<[bool; 4], Fault>;

    fn work<L: Loan, R: Wait>(
        &self,
        rt: &R,
        client: &mut Client<'_, L, u64, u64, Add, Global>,
    ) -> Result<[bool; 4], Fault> {
        make_each(rt, client)
    }
}

/// Those of a client that owns its pass, and of one that it lends it to.
fn make_both<R: Wait>(rt: &R, map: &Numbers) -> Result<[[bool; 4]; 2], Fault> {
    let mut client = map.client()?;
    let owned = make_each(rt, &mut client)?;
    Ok([owned, client.work(rt, &Lend)?])
}

#[test]
fn each_example_of_a_value_that_a_client_lends_is_as_it_says(rt: HostRuntime) {
    let map = share(rt.alloc(), 1).expect(&rt, "no fault");
    let made = make_both(&rt, &map);
    assert_same(&rt, &(made, keys_of(map)), &(Ok([[true; 4]; 2]), Some(0)));
}

/// A client of a map of byte strings.
type Texts = OwnedClient<Bytes<'static>, u64, Add, Global>;

fn puts<R: Wait>(rt: &R, client: &mut Texts) -> Result<bool, Fault>
    requires { client.old.map.ledger.form ≡ Lean }
    ensures { client.new.map ≡ client.old.map }
{
    let put = client.put_as(rt, b"one".as_slice(), 5)? == None;
    let again = client.put_as(rt, b"one".as_slice(), 6)? == Some(5);
    client.remove_as(rt, b"one".as_slice())?;
    let set = client.put_if_absent_as(rt, b"one".as_slice(), 5)? == None;
    let left_over = client.put_if_absent_as(rt, b"one".as_slice(), 6)? == Some(6);
    let left = client.get_as(rt, b"one".as_slice())? == Some(5);
    Ok(put && again && set && left_over && left)
}

fn merge_as<R: Wait>(rt: &R, client: &mut Texts) -> Result<bool, Fault>
    requires { client.old.map.ledger.form ≡ Lean }
    ensures { client.new.map ≡ client.old.map }
{
    client.remove_as(rt, b"one".as_slice())?;
    let set = client.merge_as(rt, b"one".as_slice(), 5, |old, new| Some(old.min(new)))? == false;
    let merged = client.merge_as(rt, b"one".as_slice(), 3, |old, new| Some(old.min(new)))? == true;
    let left = client.get_as(rt, b"one".as_slice())? == Some(3);
    Ok(set && merged && left)
}

fn changes<R: Wait>(rt: &R, client: &mut Texts) -> Result<bool, Fault>
    requires { client.old.map.ledger.form ≡ Lean }
    ensures { client.new.map ≡ client.old.map }
{
    client.put_as(rt, b"one".as_slice(), 5)?;
    let shown = client.update_as(rt, b"one".as_slice(), |v| (Change::Set(6), v.copied()))?
        == Some(5);
    let left = client.get_as(rt, b"one".as_slice())? == Some(6);
    client.put(rt, Bytes(b"one"), 5)?;
    let lent = client.modify_as(rt, b"one".as_slice(), |value| replace(value, 6))? == Some(5);
    let left_in_place = client.remove_as(rt, b"one".as_slice())? == Some(6);
    Ok(shown && left && lent && left_in_place)
}

/// The examples of calls by what makes their key, and how many more keys there are then.
fn make_by_slices<R: Wait>(rt: &R, client: &mut Texts) -> Result<([bool; 3], u64), Fault>
    requires { client.old.map.ledger.form ≡ Lean }
{
    let made = [
        puts(rt, client)?,
        merge_as(rt, client)?,
        changes(rt, client)?,
    ];
    Ok((made, client.balance()))
}

#[test]
fn each_example_of_what_makes_its_key_is_as_it_says(rt: HostRuntime) {
    let map = SharedMap::with_salt(rt.alloc(), 16, 4, Salt(7)).expect(&rt, "no fault");
    let mut client = map.client().expect(&rt, "a client");
    let told = make_by_slices(&rt, &mut client);
    drop(client);
    assert_same(&rt, &told, &Ok(([true; 3], 0)));
}

/// A client of a map of lists.
type Lists = OwnedClient<u64, ListOf<u64, Global>, NoFunction, Global>;

/// How many numbers are appended at one key.
const APPENDED: u64 = 50_000;

/// Appends the numbers from 0 on to the list at the key, where it lies; the first one makes the list.
/// Returns whether each call found it.
fn append_all<R: Wait>(rt: &R, alloc: Global, client: &mut Lists) -> Result<bool, Fault> {
    client.modify_or_insert(rt, &1, ListOf::new(alloc), |list| list.push(0))??;
    for number in 1..APPENDED {
        match client.modify(rt, &1, |list| list.push(number))? {
            Some(pushed) => pushed?,
            None => return Ok(false),
        }
    }
    Ok(true)
}

/// Whether a list has the numbers from 0 on that were appended.
fn has_all(list: Option<&ListOf<u64, Global>>) -> bool {
    match list {
        Some(list) => list.iter().copied().eq(0..APPENDED),
        None => false,
    }
}

#[test]
fn a_list_grows_where_it_lies(rt: HostRuntime) {
    let map = SharedMap::with_salt(rt.alloc(), 1, 1, Salt(0)).expect(&rt, "no fault");
    let mut client = map.client().expect(&rt, "a client");
    let found = append_all(&rt, rt.alloc(), &mut client);
    let in_order = client.view(&rt, &1, has_all);
    drop(client);
    assert_same(&rt, &(found, in_order), &(Ok(true), true));
}
