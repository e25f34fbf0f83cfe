//! Calls that borrow their key, on maps whose keys and values take memory to copy.
ghost use Rattle.std.specs.Prelude.{◌≡◌};

use crate::asserts::assert_same;
use crate::away::Away;
use crate::steps::{Steps, run};
use crate::words::{Text, reply_word, text, word_of};
use bin_history::{Form, KeyArg, Op};
use chm::Map;
use count_ledger::Pass;
use std::alloc::{Allocator, Global};
use std::process::Abort;
use std::sync::Wait;
use test_maps::BOTH;
use test_support::Refusing;

pub(crate) type TextMap<A> = Map<Text<A>, Text<A>, Away, A>;

pub(crate) type TextPass<A> = Pass<Text<A>, Text<A>, Away>;

/// Puts `one` at `a`, which has no value.
pub(crate) fn put_one<R: Wait + Abort, A: Allocator + Clone>(
    rt: &R,
    alloc: &A,
    map: &TextMap<A>,
    pass: &mut TextPass<A>,
)
    requires { pass.old.ledger ≡ map.now.ledger.id }
    ensures { pass.new.ledger ≡ map.now.ledger.id }
{
    let put = map.put(rt, pass, text(rt, alloc, b"a"), text(rt, alloc, b"one"));
    assert_same(rt, &reply_word(put), &"none");
}

/// A call by its name; a replace is by this value.
fn op_of<A: Allocator>(call: &str, value: Text<A>) -> Op<Text<A>, Away> {
    match call {
        "get" => Op::Get,
        "contains" => Op::Contains,
        "remove" => Op::Remove,
        _ => Op::Replace(value),
    }
}

/// The put of `one` at `a`, and a call that borrows its key, with the request after so many refused.
#[derive(Drop)]
struct LentCall<'s, A: Allocator> {
    switch: &'s Refusing<Global>,
    alloc: &'s A,
    call: &'static str,
    key: &'static [u8],
    granted: u64,
}

impl<'s, A: Allocator + Clone> Steps<Text<A>, Text<A>, Away, A> for LentCall<'s, A> {
    /// The reply, whether a request was refused, and how many calls were made.
    type Told = (&'static str, bool, u64);

    fn take<R: Wait + Abort>(
        &self,
        rt: &R,
        map: &TextMap<A>,
        pass: &mut TextPass<A>,
    ) -> (&'static str, bool, u64) {
        put_one(rt, self.alloc, map, pass);
        let key = text(rt, self.alloc, self.key);
        let op = op_of(self.call, text(rt, self.alloc, b"other"));
        self.switch.refuse_after(self.granted);
        let reply = map.call_on(rt, pass, KeyArg::Borrowed(&key), op);
        let refused = self.switch.has_refused();
        self.switch.refuse_after(u64::MAX);
        (reply_word(reply), refused, pass.made())
    }
}

/// A call, and its key: `a` has the value `one`, and `b` none. What it replies, and the value that it
/// leaves at `a`. How many requests it makes in a recorded map, and in a lean one.
type Row = (&'static str, &'static [u8], [&'static str; 2], [u64; 2]);

// A lean map copies the value that a get answers. A recorded one copies the key, the values before and
// after, and the value that is both stored and recorded; in the bin of `b` there is no room for a
// record yet.
const ROWS: [Row; 8] = [
    ("get", b"a", ["one", "one"], [4, 1]),
    ("get", b"b", ["none", "one"], [2, 0]),
    ("contains", b"a", ["true", "one"], [3, 0]),
    ("contains", b"b", ["false", "one"], [2, 0]),
    ("remove", b"a", ["one", "none"], [2, 0]),
    ("remove", b"b", ["none", "one"], [2, 0]),
    ("replace", b"a", ["one", "other"], [4, 0]),
    ("replace", b"b", ["none", "one"], [2, 0]),
];

/// Makes the call of a row with the request after so many refused. Where one is, the call leaves the map
/// as it was.
fn assert_row<R: Wait + Abort, A: Allocator + Clone>(
    rt: &R,
    (switch, alloc): (&Refusing<Global>, &A),
    form: Form,
    row: Row,
    (granted, refused): (u64, bool),
) {
    let (call, key, [reply, left], _) = row;
    let steps = LentCall {
        switch,
        alloc,
        call,
        key,
        granted,
    };
    let own = alloc.clone().expect(rt, "an allocator");
    let (told, closed) = run(rt, own, form, 16, &steps);
    let found = word_of(closed.get(&text(rt, alloc, b"a")));
    let wanted = if refused {
        (("no memory", true, 1), "one")
    } else {
        ((reply, false, 2), left)
    };
    assert_same(
        rt,
        &(call, key, told, found),
        &(call, key, wanted.0, wanted.1),
    );
}

/// Makes the call of each row.
fn make_each<R: Wait + Abort, A: Allocator + Clone>(rt: &R, both: (&Refusing<Global>, &A)) {
    for form in BOTH {
        for row in ROWS {
            assert_row(rt, both, form, row, (u64::MAX, false));
        }
    }
}

#[test]
fn calls_that_borrow_their_key_reply_as_those_that_take_it(rt: HostRuntime) {
    let alloc = Refusing::new(rt.alloc());
    make_each(&rt, (&alloc, &&alloc));
}

/// Refuses each request of the call of each row in turn, and then none.
fn refuse_each<R: Wait + Abort, A: Allocator + Clone>(rt: &R, both: (&Refusing<Global>, &A)) {
    for form in BOTH {
        for row in ROWS {
            let requests = match form {
                Form::Recorded => row.3[0],
                Form::Lean => row.3[1],
            };
            for granted in 0..requests.saturating_add(1) {
                assert_row(rt, both, form, row, (granted, granted < requests));
            }
        }
    }
}

#[test]
fn a_refused_call_that_borrows_its_key_leaves_the_map(rt: HostRuntime) {
    let alloc = Refusing::new(rt.alloc());
    refuse_each(&rt, (&alloc, &&alloc));
}

/// A call on `a`, the value that it brings, how many requests are granted, and its reply. A put and a
/// replace take their key, and the others borrow it.
type Change = (&'static str, &'static [u8], u64, &'static str);

/// Changes of `a`, which has the value `one` before and after them. None of them but the last asks for
/// memory.
const CHANGES: [Change; 6] = [
    ("put", b"four", 0, "one"),
    ("replace", b"fives", 0, "four"),
    ("lent replace", b"sixths", 0, "fives"),
    ("contains", b"", 0, "true"),
    ("remove", b"", 0, "sixths"),
    ("put", b"one", u64::MAX, "none"),
];

/// A thousand rounds of the changes.
#[derive(Drop)]
struct Rounds<'s, A: Allocator> {
    switch: &'s Refusing<Global>,
    alloc: &'s A,
}

/// Makes a change. Answers whether it replied what its row says and was refused nothing.
fn make_change<R: Wait + Abort, A: Allocator + Clone>(
    rt: &R,
    rounds: &Rounds<'_, A>,
    map: &TextMap<A>,
    pass: &mut TextPass<A>,
    row: Change,
) -> bool
    requires { pass.old.ledger ≡ map.now.ledger.id }
    ensures { pass.new.ledger ≡ map.now.ledger.id }
{
    let (call, bytes, granted, wanted) = row;
    let key = text(rt, rounds.alloc, b"a");
    let value = text(rt, rounds.alloc, bytes);
    rounds.switch.refuse_after(granted);
    let reply = match call {
        "put" => map.put(rt, pass, key, value),
        "replace" => map.replace(rt, pass, key, value),
        _ => map.call_on(rt, pass, KeyArg::Borrowed(&key), op_of(call, value)),
    };
    let refused = rounds.switch.has_refused();
    rounds.switch.refuse_after(u64::MAX);
    reply_word(reply) == wanted && !refused
}

/// Makes the changes of all rows. Answers whether each was right.
fn change_often<R: Wait + Abort, A: Allocator + Clone>(
    rt: &R,
    rounds: &Rounds<'_, A>,
    map: &TextMap<A>,
    pass: &mut TextPass<A>,
) -> bool
    requires { pass.old.ledger ≡ map.now.ledger.id }
    ensures { pass.new.ledger ≡ map.now.ledger.id }
{
    let mut right = true;
    for row in CHANGES {
        right = make_change(rt, rounds, map, pass, row) && right;
    }
    right
}

impl<'s, A: Allocator + Clone> Steps<Text<A>, Text<A>, Away, A> for Rounds<'s, A> {
    /// How many rounds were right.
    type Told = u64;

    fn take<R: Wait + Abort>(&self, rt: &R, map: &TextMap<A>, pass: &mut TextPass<A>) -> u64 {
        put_one(rt, self.alloc, map, pass);
        let mut right = 0u64;
        for _round in 0..1000u32 {
            if change_often(rt, self, map, pass) {
                right = right.wrapping_add(1);
            }
        }
        right
    }
}

/// How many rounds on a lean map are right, and how many keys there are then.
fn change_lean<R: Wait + Abort, A: Allocator + Clone>(
    rt: &R,
    (switch, alloc): (&Refusing<Global>, &A),
) -> (u64, u64) {
    let own = alloc.clone().expect(rt, "an allocator");
    let (right, closed) = run(rt, own, Form::Lean, 16, &Rounds { switch, alloc });
    (right, closed.mapping_count())
}

#[test]
fn changes_of_a_lean_map_move_their_values(rt: HostRuntime) {
    let alloc = Refusing::new(rt.alloc());
    assert_same(&rt, &change_lean(&rt, (&alloc, &&alloc)), &(1000, 1));
}
