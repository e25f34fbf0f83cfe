//! Lists as values: what they have, what they are equal to, and what becomes of them out of memory.
use crate::asserts::assert_same;
use clients::{Exact, Fault, ListOf, NoFunction, OwnedClient, SharedMap};
use std::alloc::{AllocError, Allocator, Global};
use std::sync::Wait;
use test_support::Refusing;

/// A list of these numbers.
fn list_of<A: Allocator>(alloc: A, numbers: &[u64]) -> Result<ListOf<u64, A>, AllocError> {
    let mut list = ListOf::new(alloc);
    for number in numbers {
        list.push(*number)?;
    }
    Ok(list)
}

/// The sum of a list's numbers, or less, where it is out of range.
fn sum_of<A: Allocator>(list: &ListOf<u64, A>) -> u64 {
    list.iter()
        .fold(0, |sum: u64, number| sum.saturating_add(*number))
}

/// A list of 3, 5 and 8, from which two are taken, is of 3.
fn take_two(alloc: Global) -> Result<([Option<u64>; 2], usize, u64, Vec<u64>), AllocError> {
    let mut list = list_of(alloc, &[3, 5, 8])?;
    let sum = sum_of(&list);
    let taken = [list.pop(), list.pop()];
    let len = list.len();
    Ok((taken, len, sum, list.into_items()))
}

#[test]
fn the_last_item_is_taken_first(rt: HostRuntime) {
    let (taken, len, sum, left) = take_two(rt.alloc()).expect(&rt, "memory");
    assert_same(&rt, &taken, &[Some(8), Some(5)]);
    assert_same(&rt, &len, &1);
    assert_same(&rt, &sum, &16);
    assert_same(&rt, &left.as_slice(), &[3].as_slice());
}

/// Whether lists are empty: a new one, one of an item, the same when its item is taken; and what is
/// taken from one that is empty.
fn empty_ones(alloc: Global) -> Result<([bool; 3], Option<u64>), AllocError> {
    let mut list = ListOf::new(alloc);
    let new = list.is_empty();
    list.push(3)?;
    let of_one = list.is_empty();
    list.pop();
    Ok(([new, of_one, list.is_empty()], list.pop()))
}

#[test]
fn a_list_is_empty_without_items(rt: HostRuntime) {
    let found = empty_ones(rt.alloc()).expect(&rt, "memory");
    assert_same(&rt, &found, &([true, false, true], None));
}

/// Whether a list of 1 and 2 with room for more is equal to one of 1 and 2 without, to one of 1, to
/// one of 1 and 3, and to its clone.
fn equal_ones(alloc: Global) -> Result<[bool; 4], AllocError> {
    let mut roomy = list_of(alloc, &[1, 2, 3, 4, 5])?;
    roomy.pop();
    roomy.pop();
    roomy.pop();
    let mut items = Vec::with_capacity(alloc, 2)?;
    items.push(1)?;
    items.push(2)?;
    let clone = roomy.clone()?;
    Ok([
        roomy == ListOf::of(items),
        roomy == list_of(alloc, &[1])?,
        roomy == list_of(alloc, &[1, 3])?,
        roomy == clone,
    ])
}

#[test]
fn lists_are_equal_by_their_items(rt: HostRuntime) {
    let found = equal_ones(rt.alloc()).expect(&rt, "memory");
    assert_same(&rt, &found, &[true, false, false, true]);
}

#[test]
fn a_list_prints_its_items(rt: HostRuntime) {
    let list = list_of(rt.alloc(), &[3, 5]).expect(&rt, "memory");
    let text = format!(in rt.alloc(); "{list:?}").expect(&rt, "memory");
    assert_same(&rt, &text.as_str(), &"[3, 5]");
}

/// Out of memory an item comes back, and the list is as it was.
#[test]
fn an_item_that_finds_no_room_comes_back(rt: HostRuntime) {
    let alloc = Refusing::new(rt.alloc());
    let mut list = ListOf::new(&alloc);
    assert_same(&rt, &alloc.requests(), &0);
    alloc.refuse_after(1);
    let mut refused = None;
    for next in 0..1000u64 {
        refused = list.push(next).map_err(|refused| refused.value).err();
        if refused.is_some() {
            break;
        }
    }
    alloc.refuse_after(u64::MAX);
    let len = list.len() as u64;
    assert_same(&rt, &refused, &Some(len));
    assert!(rt; len >= 1);
    assert!(rt; list.iter().copied().eq(0..len));
    list.push(len)
        .map_err(AllocError::from)
        .expect(&rt, "memory");
    assert_same(&rt, &list.pop(), &Some(len));
    drop(list);
    assert_same(&rt, &alloc.bytes_out(), &0);
}

/// A clone is refused where there is no memory for its items; a list of none asks for none.
#[test]
fn a_list_that_cannot_be_cloned_is_as_it_was(rt: HostRuntime) {
    let alloc = Refusing::new(rt.alloc());
    let list = list_of(&alloc, &[3, 5]).expect(&rt, "memory");
    let empty: ListOf<u64, &Refusing<Global>> = ListOf::new(&alloc);
    alloc.refuse_after(0);
    let of_none = empty.clone().is_ok();
    let refused = list.clone().is_err();
    assert_same(&rt, &[of_none, refused], &[true, true]);
    assert_same(&rt, &list.as_slice(), &[3, 5].as_slice());
}

/// Whether a clone of a list of two lists is made, where a request after so many is refused.
fn clone_of_two(alloc: &Refusing<Global>, granted: u64) -> Result<bool, AllocError> {
    let mut two = ListOf::new(alloc);
    two.push(list_of(alloc, &[3])?)?;
    two.push(list_of(alloc, &[5, 8])?)?;
    alloc.refuse_after(granted);
    let clone: Result<_, _> = two.clone();
    alloc.refuse_after(u64::MAX);
    match clone {
        Ok(clone) => Ok(clone == two),
        Err(_) => Ok(false),
    }
}

/// A clone of a list of two lists asks for three blocks: one for each list. Where one is refused, what was
/// cloned before is freed.
#[test]
fn each_request_of_a_clone_is_refused_in_turn(rt: HostRuntime) {
    let alloc = Refusing::new(rt.alloc());
    let mut made = [false; 4];
    for (granted, made) in made.iter_mut().enumerate() {
        *made = clone_of_two(&alloc, granted as u64).expect(&rt, "memory");
        assert_same(&rt, &alloc.bytes_out(), &0);
    }
    assert_same(&rt, &made, &[false, false, false, true]);
}

/// A client of a map of lists.
type Lists = OwnedClient<u64, ListOf<u64, Global>, NoFunction, Global>;

/// Adds a number to the list at the key: takes it out and puts it back. Returns how many there are then.
fn add<R: Wait>(
    rt: &R,
    client: &mut Lists,
    (key, number): (u64, u64),
    alloc: Global,
) -> Result<usize, Fault> {
    let mut list = client.remove(rt, &key)?.unwrap_or(ListOf::new(alloc));
    list.push(number)?;
    let len = list.len();
    client.put(rt, key, list)?;
    Ok(len)
}

/// Adds 3 and 5 to the list at 1, and 8 to that at 2. Returns the sums that a view and a get show of
/// the first; whether it is replaced where it is said to be of 3, and of 3 and 5; and the sum of all.
fn use_lists<R: Wait>(rt: &R, alloc: Global) -> Result<([u64; 2], [bool; 2], u64), Fault> {
    let map = SharedMap::new(alloc, 16)?;
    let mut client = map.client()?;
    add(rt, &mut client, (1, 3), alloc)?;
    add(rt, &mut client, (1, 5), alloc)?;
    add(rt, &mut client, (2, 8), alloc)?;
    let viewed = client.view(rt, &1, |list| list.map_or(0, |list| sum_of(list)));
    let got = client.get(rt, &1)?.map_or(0, |list| sum_of(&list));
    let other = list_of(alloc, &[13])?;
    let replaced = [
        client.replace_if(rt, &1, list_of(alloc, &[3])?, other.clone()?)?,
        client.replace_if(rt, &1, list_of(alloc, &[3, 5])?, other)?,
    ];
    let mut sum = 0u64;
    client.show_each(rt, |_key: &u64, list: &ListOf<u64, Global>| {
        sum = sum.saturating_add(sum_of(list));
    });
    Ok(([viewed, got], replaced, sum))
}

#[test]
fn a_map_has_lists(rt: HostRuntime) {
    let all = use_lists(&rt, rt.alloc()).expect(&rt, "no fault");
    assert_same(&rt, &all, &([8, 8], [false, true], 21));
}

/// A list whose memory comes from an allocator that can be told to refuse.
#[derive(Clone, PartialEq, Eq, Drop)]
struct Refused<'a> {
    list: ListOf<u64, &'a Refusing<Global>>,
}

impl<'a> Exact for Refused<'a> {
    ghost use Rattle.std.proofs.Common.{rules};
    ghost use Rattle.std.proofs.lemmas.List.Elements.{same_from_all_zip};

    ghost copies_exactly = { Prim.search (rules, same_from_all_zip) };
}

/// Puts a list of 3 and 5, and gets it while a request for memory is refused. Returns what the get
/// failed with, and the sum that a view shows meanwhile.
fn get_refused<'a, R: Wait>(
    rt: &R,
    alloc: Global,
    switch: &'a Refusing<Global>,
) -> Result<(Option<Fault>, u64), Fault> {
    let map = SharedMap::new(alloc, 16)?;
    let mut client: OwnedClient<u64, Refused<'a>, NoFunction, Global> = map.client()?;
    let list = list_of(switch, &[3, 5])?;
    client.put(rt, 1, Refused { list })?;
    switch.refuse_after(0);
    let got = client.get(rt, &1);
    let viewed = client.view(rt, &1, |kept| kept.map_or(0, |kept| sum_of(&kept.list)));
    switch.refuse_after(u64::MAX);
    Ok((got.err(), viewed))
}

#[test]
fn a_list_that_cannot_be_cloned_stays_in_the_map(rt: HostRuntime) {
    let switch = Refusing::new(rt.alloc());
    let found = get_refused(&rt, rt.alloc(), &switch).expect(&rt, "no fault");
    assert_same(&rt, &found, &(Some(Fault::NoMemory), 8));
    assert_same(&rt, &switch.bytes_out(), &0);
}

/// What is bought, and what it costs: a value of a program's own, with a list in it.
#[derive(Clone, PartialEq, Eq, Drop)]
struct Cart {
    items: ListOf<u64, Global>,
    total: u64,
}

impl Exact for Cart {
    ghost use Rattle.std.proofs.Common.{rules};
    ghost use Rattle.std.proofs.lemmas.List.Elements.{same_from_all_zip};

    ghost copies_exactly = { Prim.search (rules, same_from_all_zip) };
}

/// A client of its own puts a cart of a number and 10 at the number, and looks at it.
fn put_cart<R: Wait>(
    rt: &R,
    map: &SharedMap<u64, Cart, NoFunction, Global>,
    alloc: Global,
    number: u64,
) -> Result<u64, Fault> {
    let mut client = map.client()?;
    let items = list_of(alloc, &[number, 10])?;
    client.put(rt, number, Cart { items, total: 1 })?;
    let cart = client.get(rt, &number)?;
    Ok(cart.map_or(0, |cart| sum_of(&cart.items).saturating_add(cart.total)))
}

/// What four clients, one after the other, find in their carts.
fn fill_carts<R: Wait>(rt: &R, alloc: Global) -> Result<[u64; 4], Fault> {
    let map = SharedMap::new(alloc, 16)?;
    Ok([
        put_cart(rt, &map, alloc, 0)?,
        put_cart(rt, &map, alloc, 1)?,
        put_cart(rt, &map, alloc, 2)?,
        put_cart(rt, &map, alloc, 3)?,
    ])
}

#[test]
fn clients_put_values_with_lists_in_them(rt: HostRuntime) {
    let found = fill_carts(&rt, rt.alloc());
    assert_same(&rt, &found, &Ok([11, 12, 13, 14]));
}

/// The length that the example at `ListOf` comes to.
fn example<R: Wait>(rt: &R, alloc: Global) -> Result<usize, Fault> {
    let map: SharedMap<u64, ListOf<u64, Global>, NoFunction, Global> = SharedMap::new(alloc, 16)?;
    let mut client = map.client()?;
    let mut list = ListOf::new(alloc);
    list.push(5)?;
    client.put(rt, 1, list)?;
    let len = client.view(rt, &1, |list| list.map_or(0, |list| list.len()));
    Ok(len)
}

#[test]
fn the_example_of_a_list_is_as_it_says(rt: HostRuntime) {
    let len = example(&rt, rt.alloc()).expect(&rt, "no fault");
    assert_same(&rt, &len, &1);
}
