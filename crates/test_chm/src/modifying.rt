//! Functions that are lent or given values, and calls by what makes their key: what each returns and
//! leaves in both forms, and what is left where requests are refused.
ghost use Rattle.std.specs.Prelude.{◌≡◌};

use crate::given::{Word, WordMap, WordPass, act, word_of};
use crate::lines::{cut, wanted_of, words_of};
use crate::maps::assert_same;
use crate::plays::{Play, played};
use bin_history::Form;
use std::alloc::{Allocator, Global};
use std::process::Abort;
use std::sync::Wait;
use test_helpers::Plus;
use test_maps::BOTH;
use test_support::Refusing;

/// Words, what is done at each and what that finds: with all requests granted, and then with none.
#[derive(Drop)]
struct Script<'a, A: Allocator> {
    switch: &'a Refusing<Global>,
    alloc: A,
    granted: &'a str,
    bare: &'a str,
}

impl<'a, A: Allocator + Copy> Play<Word<A>, u64, Plus, A> for Script<'a, A> {
    /// How many keys its calls left.
    type Told = u64;

    fn play<R: Wait + Abort>(
        &self,
        rt: &R,
        map: &WordMap<A>,
        pass: &mut WordPass<A>,
        _others: &mut Vec<WordPass<A>, A>,
    ) -> u64 {
        follow(
            rt,
            (self.switch, self.alloc),
            map,
            pass,
            self.granted,
            u64::MAX,
        );
        follow(rt, (self.switch, self.alloc), map, pass, self.bare, 0);
        map.balance(pass)
    }
}

/// Does what the lines say, each with so many requests granted, and asserts that what it says is found.
fn follow<R: Wait + Abort, A: Allocator + Copy>(
    rt: &R,
    memory: (&Refusing<Global>, A),
    map: &WordMap<A>,
    pass: &mut WordPass<A>,
    lines: &str,
    granted: u64,
)
    requires { pass.old.ledger ≡ map.now.ledger.id }
    ensures { pass.new.ledger ≡ map.now.ledger.id }
{
    let (switch, alloc) = memory;
    for line in lines.lines() {
        let words = words_of(rt, cut(line, "=").0, "");
        let at = word_of(rt, alloc, words[0]);
        switch.refuse_after(granted);
        let found = act(rt, map, pass, &at, &words);
        switch.refuse_after(u64::MAX);
        assert_same(rt, &(line, found), &(line, wanted_of(rt, line, "", false)));
    }
}

/// What each finds by what those before it left, by hand.
const GRANTED: &str = "one modify 1 = none
    one add 5 = 105
    one add 5 = 110
    one modify 7 = 110
    two modify 1 = none
    one modify_bytes 8 = 7
    two modify_bytes 1 = none
    two own none = none
    two own 3 = none
    two own 4 = 3
    two spend 5 = none
    two spend 1 = 3
    two modify 4 = 3
    two spend 4 = 0
    two spend 1 = none
    two modify 1 = none
    one own none = 8
    one own none = none
    one put 1 = none
    one put 2 = 1
    two put_if_absent 6 = none
    two put_if_absent 7 = 7
    two modify 6 = 6
    two merge 4 = 1
    two modify 2 = 2
    two merge 2 = 1
    two merge 9 = none
    two keep = 9
    two set 8 = 9
    two remove = 8
    two remove = none
    two keep = none
    two modify 1 = none
    two set 7 = none
    two own 7 = 7
    one keep = 2
    one remove = 2
    one put_if_absent 3 = none
    two own none = 7";

#[test]
fn functions_are_lent_and_given_what_calls_left(rt: HostRuntime) {
    for form in BOTH {
        let alloc = Refusing::new(rt.alloc());
        let script = Script {
            switch: &alloc,
            alloc: &alloc,
            granted: GRANTED,
            bare: "",
        };
        assert_same(&rt, &played(&rt, &alloc, (form, 1), &script), &1);
    }
}

/// What is done while no request is granted, in a lean map, and behind each what it leaves at its word.
const BARE: &str = "one modify 6 = 5
    one look = 6
    one modify_bytes 7 = 6
    one look = 7
    one add 1 = 8
    one look = 8
    one own 9 = 8
    one look = 9
    one spend 4 = 5
    one look = 5
    one put 4 = 5
    one look = 4
    one put_if_absent 3 = 3
    one look = 4
    one merge 1 = 1
    one look = 3
    one set 2 = 3
    one look = 2
    one keep = 2
    one look = 2
    two modify 1 = none
    two look = none
    two modify_bytes 1 = none
    two look = none
    two add 1 = no-memory 1 0 100
    two look = none
    two own 1 = no-memory 1
    two look = none
    two own none = no-memory 1
    two look = none
    two spend 1 = no-memory 1
    two look = none
    two put 1 = no-memory 1 0 1
    two look = none
    two put_if_absent 1 = no-memory 1 0 1
    two look = none
    two merge 1 = no-memory 1 0 1
    two look = none
    two set 1 = no-memory 1
    two look = none
    one remove = 2
    one look = none
    one modify 1 = none
    one look = none";

#[test]
fn a_lean_map_asks_for_memory_where_a_key_has_no_entry(rt: HostRuntime) {
    let alloc = Refusing::new(rt.alloc());
    let script = Script {
        switch: &alloc,
        alloc: &alloc,
        granted: "one put 5 = none",
        bare: BARE,
    };
    assert_same(&rt, &played(&rt, &alloc, (Form::Lean, 1), &script), &0);
}
