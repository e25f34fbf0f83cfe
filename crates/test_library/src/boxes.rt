//! Values in boxes of their own: what they have, what they are equal to, and what becomes of them out
//! of memory.
use crate::asserts::assert_same;
use clients::{Boxed, Exact, Fault, ListOf, NoFunction, OwnedClient, SharedMap, Text};
use std::alloc::{AllocError, Global};
use std::mem::size_of;
use std::sync::Wait;
use test_support::Refusing;

/// A value of 128 bytes in a box.
type Wide = Boxed<[u64; 16], Global>;

/// What a box has before and after it is changed where it lies, and when it is taken out.
fn change_one(alloc: Global) -> Result<[u64; 3], AllocError> {
    let mut wide = Boxed::new(alloc, [7u64; 16])?;
    let before = wide.get()[15];
    *wide.get_mut() = [8; 16];
    let after = wide.get()[15];
    Ok([before, after, wide.into_inner()[0]])
}

#[test]
fn a_value_is_changed_in_its_box(rt: HostRuntime) {
    let found = change_one(rt.alloc()).expect(&rt, "memory");
    assert_same(&rt, &found, &[7, 8, 8]);
}

/// Whether a box of 3 is equal to another of 3, to one of 5, and to its clone.
fn equal_ones(alloc: Global) -> Result<[bool; 3], AllocError> {
    let three = Boxed::new(alloc, 3u64)?;
    let clone = three.clone()?;
    Ok([
        three == Boxed::new(alloc, 3)?,
        three == Boxed::new(alloc, 5)?,
        three == clone,
    ])
}

#[test]
fn boxes_are_equal_by_their_values(rt: HostRuntime) {
    let found = equal_ones(rt.alloc()).expect(&rt, "memory");
    assert_same(&rt, &found, &[true, false, true]);
}

#[test]
fn a_box_prints_its_value_and_is_a_pointer(rt: HostRuntime) {
    let three = Boxed::new(rt.alloc(), 3u64)
        .map_err(AllocError::from)
        .expect(&rt, "memory");
    let text = format!(in rt.alloc(); "{three:?}").expect(&rt, "memory");
    assert_same(&rt, &text.as_str(), &"3");
    assert_same(&rt, &size_of::<Wide>(), &8);
}

/// Out of memory a value comes back, and a box that is to be cloned is as it was.
#[test]
fn a_value_that_finds_no_box_comes_back(rt: HostRuntime) {
    let alloc = Refusing::new(rt.alloc());
    let boxed = Boxed::new(&alloc, 3u64)
        .map_err(AllocError::from)
        .expect(&rt, "memory");
    alloc.refuse_after(0);
    let refused = Boxed::new(&alloc, 5u64)
        .map_err(|refused| refused.value)
        .err();
    alloc.refuse_after(0);
    let not_cloned = boxed.clone().is_err();
    alloc.refuse_after(u64::MAX);
    assert_same(&rt, &refused, &Some(5));
    assert!(rt; not_cloned);
    assert_same(&rt, boxed.get(), &3);
    drop(boxed);
    assert_same(&rt, &alloc.bytes_out(), &0);
}

/// A value of a program's own, of 128 bytes.
#[derive(Clone, PartialEq, Eq, Drop)]
struct Page {
    words: [u64; 16],
}

impl Exact for Page {
    ghost use Rattle.std.proofs.Common.{rules};

    ghost copies_exactly = { Prim.search rules };
}

/// A page in a box.
fn page_of(alloc: Global, word: u64) -> Result<Boxed<Page, Global>, AllocError> {
    let page = Page { words: [word; 16] };
    Ok(Boxed::new(alloc, page)?)
}

/// A client of a map of boxed values.
type Boxes = OwnedClient<u64, Boxed<Page, Global>, NoFunction, Global>;

/// Puts a box at 1. Returns what a view and a get show of it, and whether it is removed where it is
/// said to be another, and then itself.
fn use_boxes<R: Wait>(rt: &R, alloc: Global) -> Result<([u64; 2], [bool; 2]), Fault> {
    let map = SharedMap::new(alloc, 16)?;
    let mut client: Boxes = map.client()?;
    client.put(rt, 1, page_of(alloc, 7)?)?;
    let viewed = client.view(rt, &1, |page| page.map_or(0, |page| page.get().words[15]));
    let got = client.get(rt, &1)?.map_or(0, |page| page.get().words[15]);
    let removed = [
        client.remove_if(rt, &1, page_of(alloc, 8)?)?,
        client.remove_if(rt, &1, page_of(alloc, 7)?)?,
    ];
    Ok(([viewed, got], removed))
}

#[test]
fn a_map_has_boxed_values(rt: HostRuntime) {
    let found = use_boxes(&rt, rt.alloc()).expect(&rt, "no fault");
    assert_same(&rt, &found, &([7, 7], [false, true]));
}

/// A list of texts, or none.
#[derive(Clone, PartialEq, Eq, Drop)]
struct Notes {
    texts: Option<ListOf<Text<Global>, Global>>,
}

impl Exact for Notes {
    ghost use Rattle.std.proofs.Common.{rules};
    ghost use Rattle.std.proofs.lemmas.List.Elements.{same_from_all_zip};

    ghost copies_exactly = { Prim.search (rules, same_from_all_zip) };
}

/// A client of a map of boxed lists of texts.
type Texts = OwnedClient<u64, Boxed<Notes, Global>, NoFunction, Global>;

/// Puts none at 1, and a list of two texts at 2. Returns how many texts there are at each key.
fn use_texts<R: Wait>(rt: &R, alloc: Global) -> Result<[Option<usize>; 2], Fault> {
    let map = SharedMap::new(alloc, 16)?;
    let mut client: Texts = map.client()?;
    let mut list = ListOf::new(alloc);
    list.push(Text::new(String::from_str(alloc, "a")?))?;
    list.push(Text::new(String::from_str(alloc, "b")?))?;
    client.put(rt, 1, Boxed::new(alloc, Notes { texts: None })?)?;
    client.put(rt, 2, Boxed::new(alloc, Notes { texts: Some(list) })?)?;
    let none = client
        .get(rt, &1)?
        .and_then(|notes| notes.into_inner().texts);
    let two = client
        .get(rt, &2)?
        .and_then(|notes| notes.into_inner().texts);
    Ok([none.map(|list| list.len()), two.map(|list| list.len())])
}

#[test]
fn values_of_several_kinds_lie_in_one_another(rt: HostRuntime) {
    let found = use_texts(&rt, rt.alloc()).expect(&rt, "no fault");
    assert_same(&rt, &found, &[None, Some(2)]);
}
