//! Each call of a client by the query that a map makes of a text.
ghost use Rattle.std.specs.Prelude.{◌≡◌};
ghost use Rattle.bin_history.specs.declared.form.Form.TheVariants.{Lean};

use crate::asserts::assert_same;
use clients::{Add, Change, Fault};
use std::alloc::Global;
use std::mem::replace;
use std::sync::Wait;
use text_maps::{Query, Seed, TextClient, TextMap};

/// A map of these tests, and a client of it.
pub(crate) type Texts = TextMap<u64, Add, Global>;

pub(crate) type Caller = TextClient<u64, Add, Global>;

/// What a call returns of a value.
type Got = Result<Option<u64>, Fault>;

/// The calls that a test makes. One function owns a map and a client of it, and each test borrows them.
trait Calls {
    /// What they return.
    type Shown: Drop;

    fn call<R: Wait>(&self, rt: &R, text: &Texts, client: &mut Caller) -> Result<Self::Shown, Fault>
        requires { client.old.map.ledger.form ≡ Lean };
}

/// Opens a map and a client, and returns what the calls return.
fn shown<R: Wait, C: Calls>(rt: &R, alloc: Global, calls: &C) -> Result<C::Shown, Fault> {
    let text = TextMap::with_seed(alloc, 1, Seed::of(1, 2))?;
    let mut client = text.client()?;
    calls.call(rt, &text, &mut client)
}

fn put<R: Wait>(rt: &R, client: &mut Caller, query: Query<'_>, value: u64) -> Got
    requires { client.old.map.ledger.form ≡ Lean }
    ensures { client.new.map ≡ client.old.map }
{
    Ok(client.put_as(rt, query, value)?)
}

fn put_if_absent<R: Wait>(rt: &R, client: &mut Caller, query: Query<'_>, value: u64) -> Got
    requires { client.old.map.ledger.form ≡ Lean }
    ensures { client.new.map ≡ client.old.map }
{
    Ok(client.put_if_absent_as(rt, query, value)?)
}

/// Calls that set a value, and calls that remove one.
fn set<R: Wait>(rt: &R, text: &Texts, client: &mut Caller) -> [Got; 6]
    requires { client.old.map.ledger.form ≡ Lean }
    ensures { client.new.map ≡ client.old.map }
{
    [
        put(rt, client, text.of("a"), 5),
        put(rt, client, text.of("a"), 6),
        put_if_absent(rt, client, text.of("a"), 7),
        client.remove_as(rt, text.of("a")),
        client.remove_as(rt, text.of("a")),
        put_if_absent(rt, client, text.of("a"), 7),
    ]
}

/// What the calls return that read.
type Looked = ([Got; 4], [Result<bool, Fault>; 2], Option<u64>);

/// Calls that read the value of "a", which is 7, and the one of "b", which is not there.
fn read<R: Wait>(rt: &R, text: &Texts, client: &mut Caller) -> Looked
    requires { client.old.map.ledger.form ≡ Lean }
    ensures { client.new.map ≡ client.old.map }
{
    let got = [
        client.get_as(rt, text.of("a")),
        client.get_as(rt, text.of("b")),
        client.look_up_as(rt, text.of("a")),
        client.glance_as(rt, text.of("a")),
    ];
    let contained = [
        client.contains_as(rt, text.of("a")),
        client.contains_as(rt, text.of("b")),
    ];
    let viewed = client.view_as(rt, text.of("a"), |value| value.copied());
    (got, contained, viewed)
}

/// Calls that change the value of "a", which is 7, by a function.
fn change_it<R: Wait>(rt: &R, text: &Texts, client: &mut Caller) -> Result<[bool; 6], Fault>
    requires { client.old.map.ledger.form ≡ Lean }
    ensures { client.new.map ≡ client.old.map }
{
    let lent = client.modify_as(rt, text.of("a"), |value| replace(value, 8))? == Some(7);
    let inserted = client.modify_or_insert(rt, text.of("a"), 1, |value| replace(value, 9))? == 8;
    let shown = client.update_as(rt, text.of("a"), |v| (Change::Set(10), v.copied()))? == Some(9);
    let given = client.update_owned(rt, text.of("a"), |value| (Some(11), value))? == Some(10);
    let merged = client.merge_as(rt, text.of("a"), 2, |old, new| Some(old.max(new)))?;
    let left = client.get_as(rt, text.of("a"))? == Some(11);
    Ok([lent, inserted, shown, given, merged, left])
}

/// Each call of a client that takes a query.
struct Each;

impl Calls for Each {
    type Shown = ([Got; 6], Looked, [bool; 6]);

    fn call<R: Wait>(
        &self,
        rt: &R,
        text: &Texts,
        client: &mut Caller,
    ) -> Result<([Got; 6], Looked, [bool; 6]), Fault> {
        let (set, read) = (set(rt, text, client), read(rt, text, client));
        Ok((set, read, change_it(rt, text, client)?))
    }
}

#[test]
fn each_call_takes_the_query_of_a_text(rt: HostRuntime) {
    let set = [
        Ok(None),
        Ok(Some(5)),
        Ok(Some(7)),
        Ok(Some(6)),
        Ok(None),
        Ok(None),
    ];
    let got = [Ok(Some(7)), Ok(None), Ok(Some(7)), Ok(Some(7))];
    let read = (got, [Ok(true), Ok(false)], Some(7));
    let found = shown(&rt, rt.alloc(), &Each);
    assert_same(&rt, &found, &Ok((set, read, [true; 6])));
}

/// Puts a number at each text but the last, then gets all of them: by the text, and by its bytes. Returns how
/// many texts there are, too.
#[derive(Drop)]
struct Differing {
    texts: [&'static str; 4],
}

impl Calls for Differing {
    type Shown = ([Got; 3], [Got; 4], [Got; 4], u64);

    fn call<R: Wait>(
        &self,
        rt: &R,
        text: &Texts,
        client: &mut Caller,
    ) -> Result<([Got; 3], [Got; 4], [Got; 4], u64), Fault> {
        let [first, second, third, absent] = self.texts;
        let set = [
            put(rt, client, text.of(first), 1),
            put(rt, client, text.of_bytes(second.as_bytes()), 2),
            put(rt, client, text.of(third), 3),
        ];
        let by_text = [
            client.get_as(rt, text.of(first)),
            client.get_as(rt, text.of(second)),
            client.get_as(rt, text.of(third)),
            client.get_as(rt, text.of(absent)),
        ];
        let by_bytes = [
            client.get_as(rt, text.of_bytes(first.as_bytes())),
            client.get_as(rt, text.of_bytes(second.as_bytes())),
            client.get_as(rt, text.of_bytes(third.as_bytes())),
            client.get_as(rt, text.of_bytes(absent.as_bytes())),
        ];
        Ok((set, by_text, by_bytes, text.map().mapping_count()))
    }
}

/// Texts that differ in a byte, in their length, in an accent, and far behind their beginning: at most 18
/// bytes lie in a key, and up to 64 in one block.
const ROWS: [[&str; 4]; 4] = [
    ["", "a", "aa", "b"],
    ["a", "a\0", "a\0\0", "\0"],
    ["e", "é", "E", "É"],
    [
        "the text of a key that has its bytes in a block of more than sixty-four bytes: 1",
        "the text of a key that has its bytes in a block of more than sixty-four bytes: 2",
        "the text of a key that has its bytes in a block of more than sixty-four bytes: ",
        "the text of a key that has its bytes in a block of more than sixty-four bytes: 3",
    ],
];

#[test]
fn texts_that_differ_are_other_keys(rt: HostRuntime) {
    let got = [Ok(Some(1)), Ok(Some(2)), Ok(Some(3)), Ok(None)];
    for texts in &ROWS {
        let found = shown(&rt, rt.alloc(), &Differing { texts: *texts });
        assert_same(&rt, &found, &Ok(([Ok(None); 3], got, got, 3)));
    }
}

/// Puts a number at bytes that are no UTF-8, and gets it and another.
struct NoText;

impl Calls for NoText {
    type Shown = [Got; 3];

    fn call<R: Wait>(&self, rt: &R, text: &Texts, client: &mut Caller) -> Result<[Got; 3], Fault> {
        Ok([
            put(rt, client, text.of_bytes(b"\xff"), 5),
            client.get_as(rt, text.of_bytes(b"\xff")),
            client.get_as(rt, text.of_bytes(b"\xfe")),
        ])
    }
}

/// Bytes that are no UTF-8 are a key too.
#[test]
fn bytes_that_are_no_text_are_a_key_of_their_own(rt: HostRuntime) {
    let found = shown(&rt, rt.alloc(), &NoText);
    assert_same(&rt, &found, &Ok([Ok(None), Ok(Some(5)), Ok(None)]));
}
