//! Maps at keys that are their own codes.
ghost use Rattle.std.specs.Prelude.{◌≡◌};

use crate::counted::Counting;
use bin_history::{Form, Remap, Reply};
use chm::{Map, Quiet};
use count_ledger::Pass;
use hashkeys::HashKey;
use std::alloc::Allocator;
use std::process::Abort;
use std::sync::Wait;

/// Puts a number at a key that is not there: at the key of that number.
pub(crate) fn put_new<
    R: Wait + Abort,
    K: HashKey,
    F: Remap<K, u64>,
    A: Allocator + Clone,
    C: Counting<K, F>,
>(rt: &R, map: &Map<K, u64, F, A>, pass: &mut Pass<K, u64, F>, counts: &C, number: u32)
    requires { pass.old.ledger ≡ map.now.ledger.id }
    ensures { pass.new.ledger ≡ map.now.ledger.id }
{
    let reply = map.put(rt, pass, counts.key(number), u64::from(number));
    assert!(rt; reply == Ok(Reply::Value(None)));
}

/// Puts each number below this one at its key, which is not there.
pub(crate) fn put_below<
    R: Wait + Abort,
    K: HashKey,
    F: Remap<K, u64>,
    A: Allocator + Clone,
    C: Counting<K, F>,
>(rt: &R, map: &Map<K, u64, F, A>, pass: &mut Pass<K, u64, F>, counts: &C, end: u32)
    requires { pass.old.ledger ≡ map.now.ledger.id }
    ensures { pass.new.ledger ≡ map.now.ledger.id }
{
    for number in 0..end {
        put_new(rt, map, pass, counts, number);
    }
}

/// How many keys a map of 16 bins has room for.
pub(crate) fn room(form: Form) -> u32 {
    match form {
        Form::Recorded => 11,
        Form::Lean => 3,
    }
}

/// How many of the numbers below this one a closed map has at their keys.
pub(crate) fn count_below<K: HashKey, F: Remap<K, u64>, A: Allocator + Clone, C: Counting<K, F>>(
    closed: &Quiet<K, u64, F, A>,
    counts: &C,
    end: u32,
) -> u32 {
    let mut found = 0u32;
    for number in 0..end {
        let value = closed.get(&counts.key(number)).copied();
        if value == Some(u64::from(number)) {
            found = found.saturating_add(1);
        }
    }
    found
}
