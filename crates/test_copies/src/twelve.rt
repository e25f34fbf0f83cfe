//! Each of the twelve calls, each of its requests refused in turn.
ghost use Rattle.std.specs.Prelude.{◌≡◌};

use crate::asserts::{assert_same, key};
use crate::kinds::{Given, call_of_kind};
use crate::steps::{Steps, told};
use crate::words::{Worded, reply_word, word_of};
use bin_history::{Form, Remap, Value};
use chm::{Map, Visit};
use count_ledger::Pass;
use hashkeys::Key;
use std::alloc::{Allocator, Global};
use std::process::Abort;
use std::sync::Wait;
use test_helpers::{Alloc, Answer, Number};
use test_support::Refusing;

/// What makes values, and the function whose result is 7, whose copies ask for memory.
trait Makes<V, F> {
    fn value(&self, number: u64) -> V;

    fn seven(&self) -> F;
}

impl<'a> Makes<Number<'a>, Answer<'a>> for Alloc<'a> {
    fn value(&self, number: u64) -> Number<'a> {
        Number {
            number,
            alloc: *self,
        }
    }

    fn seven(&self) -> Answer<'a> {
        Answer {
            number: Some(7),
            alloc: *self,
        }
    }
}

/// Of a kind of call its reply, and the value that it leaves at `a`: where `a` has the value 1, and where
/// it has none.
type Row = [[&'static str; 2]; 2];

const ROWS: [Row; 12] = [
    [["1", "1"], ["none", "none"]],
    [["true", "1"], ["false", "none"]],
    [["1", "5"], ["none", "5"]],
    [["1", "1"], ["none", "5"]],
    [["1", "none"], ["none", "none"]],
    [["true", "none"], ["false", "none"]],
    [["1", "5"], ["none", "none"]],
    [["true", "5"], ["false", "none"]],
    [["1", "1"], ["7", "7"]],
    [["7", "7"], ["none", "none"]],
    [["7", "7"], ["7", "7"]],
    [["7", "7"], ["5", "5"]],
];

/// Makes a call of a kind on `a`.
fn make<R: Wait + Abort, V: Value + Worded, F: Remap<Key, V>, A: Allocator + Clone, M: Makes<V, F>>(
    rt: &R,
    map: &Map<Key, V, F, A>,
    pass: &mut Pass<Key, V, F>,
    maker: &M,
    kind: usize,
) -> &'static str
    requires { pass.old.ledger ≡ map.now.ledger.id }
    ensures { pass.new.ledger ≡ map.now.ledger.id }
{
    let given = Given {
        old: maker.value(1),
        new: maker.value(5),
        function: maker.seven(),
    };
    let call = call_of_kind(kind, key(rt, b"a"), given);
    reply_word(map.call(rt, pass, call))
}

/// Puts a value at a key that has none.
fn put<R: Wait + Abort, V: Value + Worded, F: Remap<Key, V>, A: Allocator + Clone>(
    rt: &R,
    map: &Map<Key, V, F, A>,
    pass: &mut Pass<Key, V, F>,
    text: &[u8],
    value: V,
)
    requires { pass.old.ledger ≡ map.now.ledger.id }
    ensures { pass.new.ledger ≡ map.now.ledger.id }
{
    let reply = map.put(rt, pass, key(rt, text), value);
    assert_same(rt, &reply_word(reply), &"none");
}

/// The values of `Aa`, `q` and `a` that a walk shows, how many keys it shows, and how many calls were
/// made.
type Shown = ([&'static str; 3], usize, u64);

/// The value at a key that a walk shows.
fn value_at<V: Worded, A: Allocator>(visits: &[Visit<Key, V, A>], text: &[u8]) -> &'static str {
    for visit in visits {
        for (key, value) in &visit.entries {
            if key.bytes() == text {
                return value.word();
            }
        }
    }
    "none"
}

/// The values of the three keys that a walk shows, and how many keys it shows.
fn values_of<V: Worded, A: Allocator>(visits: &[Visit<Key, V, A>]) -> ([&'static str; 3], usize) {
    let mut count = 0usize;
    for visit in visits {
        count = count.saturating_add(visit.entries.len());
    }
    let values = [
        value_at(visits, b"Aa"),
        value_at(visits, b"q"),
        value_at(visits, b"a"),
    ];
    (values, count)
}

fn shown<R: Wait + Abort, V: Value + Worded, F: Remap<Key, V>, A: Allocator + Clone>(
    rt: &R,
    map: &Map<Key, V, F, A>,
    pass: &mut Pass<Key, V, F>,
) -> Shown
    requires { pass.old.ledger ≡ map.now.ledger.id }
    ensures { pass.new.ledger ≡ map.now.ledger.id }
{
    let visits = map.walk(rt, pass).expect(rt, "memory");
    let (values, count) = values_of(&visits);
    (values, count, pass.made())
}

/// Puts 2 at `q`, 3 at `Aa`, and 1 at `a` or not. Then a call of a kind, with the request after so many
/// refused, and again where it was refused.
#[derive(Drop)]
struct RefusedCall<'s, M> {
    switch: &'s Refusing<Global>,
    maker: &'s M,
    present: bool,
    kind: usize,
    granted: u64,
}

impl<'s, V: Value + Worded, F: Remap<Key, V>, A: Allocator + Clone, M: Makes<V, F>> Steps<
    Key,
    V,
    F,
    A,
> for RefusedCall<'s, M> {
    /// Whether the call was refused, its reply, what is shown then, the reply of the last call, and what
    /// is shown after it.
    type Told = (bool, [&'static str; 2], [Shown; 2]);

    fn take<R: Wait + Abort>(
        &self,
        rt: &R,
        map: &Map<Key, V, F, A>,
        pass: &mut Pass<Key, V, F>,
    ) -> (bool, [&'static str; 2], [Shown; 2]) {
        put(rt, map, pass, b"q", self.maker.value(2));
        put(rt, map, pass, b"Aa", self.maker.value(3));
        if self.present {
            put(rt, map, pass, b"a", self.maker.value(1));
        }
        self.switch.refuse_after(self.granted);
        let first = make(rt, map, pass, self.maker, self.kind);
        let refused = self.switch.has_refused();
        self.switch.refuse_after(u64::MAX);
        let between = shown(rt, map, pass);
        let last = if refused {
            make(rt, map, pass, self.maker, self.kind)
        } else {
            first
        };
        (refused, [first, last], [between, shown(rt, map, pass)])
    }
}

/// What is shown where `a` has this value, if any, after so many calls.
fn with_value(value: &'static str, made: u64) -> Shown {
    let count = if value == "none" { 2 } else { 3 };
    (["3", "2", value], count, made)
}

/// What is told of a call: where it was refused, a walk and the books were as before, and the next try
/// made it.
fn wanted(
    refused: bool,
    present: bool,
    [reply, left]: [&'static str; 2],
) -> (bool, [&'static str; 2], [Shown; 2]) {
    let (before, after) = if present {
        (with_value("1", 3), with_value(left, 4))
    } else {
        (with_value("none", 2), with_value(left, 3))
    };
    if refused {
        (true, ["no memory", reply], [before, after])
    } else {
        (false, [reply, reply], [after, after])
    }
}

/// Refuses each request of a call in turn, and answers how many there are.
fn refuse_each<
    R: Wait + Abort,
    V: Value + Worded,
    F: Remap<Key, V>,
    A: Allocator + Clone,
    M: Makes<V, F>,
>(
    rt: &R,
    (switch, alloc, maker): (&Refusing<Global>, &A, &M),
    form: Form,
    (kind, present): (usize, bool),
    outcome: [&'static str; 2],
) -> u64 {
    for granted in 0..100u64 {
        let steps = RefusedCall {
            switch,
            maker,
            present,
            kind,
            granted,
        };
        let own = alloc.clone().expect(rt, "an allocator");
        let found = told::<R, Key, V, F, A, RefusedCall<'_, M>>(rt, own, form, 16, &steps);
        let refused = found.0;
        assert_same(
            rt,
            &(kind, found),
            &(kind, wanted(refused, present, outcome)),
        );
        if !refused {
            return granted;
        }
    }
    100
}

/// Refuses each request of each call in turn, and answers how many there are.
fn refuse_all<
    R: Wait + Abort,
    V: Value + Worded,
    F: Remap<Key, V>,
    A: Allocator + Clone,
    M: Makes<V, F>,
>(rt: &R, both: (&Refusing<Global>, &A, &M), form: Form) -> u64 {
    let mut requests = 0u64;
    for (kind, [present, absent]) in ROWS.iter().enumerate() {
        let first = refuse_each(rt, both, form, (kind, true), *present);
        let second = refuse_each(rt, both, form, (kind, false), *absent);
        requests = requests.saturating_add(first).saturating_add(second);
    }
    requests
}

#[test]
fn each_of_the_twelve_calls_is_refused_in_turn(rt: HostRuntime) {
    // A lean map copies the value that is both stored and replied, and a function asks once: 9
    // where `a` has a value, 5 where it has none; and of those five calls store a new entry. A
    // recorded one copies the values before and after for the record, too, and an argument that is
    // stored: 34 and 13. There is room for the entry and the record.
    let alloc = Refusing::new(rt.alloc());
    for (form, wanted) in [(Form::Recorded, 47), (Form::Lean, 19)] {
        let requests = refuse_all::<HostRuntime, Number, Answer, Alloc, Alloc>(
            &rt,
            (&alloc, &&alloc, &&alloc),
            form,
        );
        assert_same(&rt, &requests, &wanted);
    }
}
