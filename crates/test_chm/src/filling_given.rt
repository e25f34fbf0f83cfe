//! Growth by calls whose function is lent or given a value, and by calls by what makes their key.
ghost use Rattle.std.specs.Prelude.{◌≡◌};

use crate::given::{Word, WordMap, WordPass, act};
use crate::lines::{cut, wanted_of, words_of};
use crate::maps::assert_same;
use crate::plays::{Play, played};
use bin_history::Form;
use hashkeys::ByteString;
use std::alloc::Allocator;
use std::process::Abort;
use std::sync::Wait;
use test_helpers::Plus;
use test_maps::{BOTH, numbered_text};

/// How a word without a value gets one, and what that finds: by a call that waits, and by one that is tried.
const WAYS: &str = "word add 5 = 105
    word own 5 = none
    word place 5 = none
    word put 5 = none
    word put_if_absent 5 = none
    word merge 5 = none
    word set 5 = none
    word try_add 5 = 105
    word try_own 5 = none
    word try_place 5 = none";

/// 60 new words get a value in this way. Tells how many buckets the table has then, and how many keys.
#[derive(Drop)]
struct Filling<'a, A: Allocator> {
    alloc: A,
    line: &'a str,
}

impl<'a, A: Allocator + Copy> Play<Word<A>, u64, Plus, A> for Filling<'a, A> {
    type Told = (u32, u64);

    fn play<R: Wait + Abort>(
        &self,
        rt: &R,
        map: &WordMap<A>,
        pass: &mut WordPass<A>,
        _others: &mut Vec<WordPass<A>, A>,
    ) -> (u32, u64) {
        fill_by(rt, self.alloc, map, pass, self.line);
        (map.table_size(), map.balance(pass))
    }
}

fn fill_by<R: Wait + Abort, A: Allocator + Copy>(
    rt: &R,
    alloc: A,
    map: &WordMap<A>,
    pass: &mut WordPass<A>,
    line: &str,
)
    requires { pass.old.ledger ≡ map.now.ledger.id }
    ensures { pass.new.ledger ≡ map.now.ledger.id }
{
    let words = words_of(rt, cut(line, "=").0, "");
    let wanted = wanted_of(rt, line, "", false);
    for number in 0..60u32 {
        let word = ByteString::new(numbered_text(number).to_vec(alloc).expect(rt, "memory"));
        let found = act(rt, map, pass, &word, &words);
        assert_same(rt, &(line, found), &(line, wanted));
    }
}

/// A lean table doubles at 4, 8, 16 and 32 keys, and a recorded one at 12, 24 and 48.
fn wanted(form: Form) -> (u32, u64) {
    match form {
        Form::Lean => (256, 60),
        Form::Recorded => (128, 60),
    }
}

#[test]
fn a_table_that_given_values_alone_fill_grows(rt: HostRuntime) {
    for form in BOTH {
        for line in WAYS.lines() {
            let alloc = rt.alloc();
            let grown = played(&rt, alloc, (form, 1), &Filling { alloc, line });
            assert_same(&rt, &(form, line, grown), &(form, line, wanted(form)));
        }
    }
}
