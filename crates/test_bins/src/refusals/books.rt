//! A ledger and a move, each request of their making refused in turn.
ghost use Rattle.std.specs.Prelude.{◌≡◌, All, IfOk};

use crate::asserts::assert_same;
use bin_history::Form;
use count_ledger::{BinRole, Ledger, Pass};
use hashkeys::{Key, Salt};
use std::alloc::{AllocError, Allocator, Global};
use std::process::Abort;
use test_helpers::{Alloc, Keep, settled};
use test_support::Refusing;
use transfer::{Finish, Range, Strides};

/// More than any call's requests.
const MANY: u64 = 1000;

type Made<A> = (
    Ledger<Key, u64, Keep, A>,
    Vec<Pass<Key, u64, Keep>, A>,
    Vec<BinRole<Key, u64, Keep>, A>,
);

/// Settles a ledger of two clients over two bins that nobody called.
fn assert_settles<A: Allocator>(rt: &impl Abort, made: Made<A>)
    requires passes { All (λ p. p.ledger ≡ made.0.id) made.1.items }
    requires roles { All (λ r. r.ledger ≡ made.0.id) made.2.items }
{
    let (ledger, passes, roles) = made;
    let sizes = (passes.len(), roles.len());
    let total = settled(ledger, passes, roles).expect(rt, "the ledger settles");
    assert_same(rt, &(sizes, total), &((2, 2), 0));
}

/// A ledger of two clients over two empty bins.
fn make<A: Allocator + Clone>(alloc: &A) -> Result<Made<A>, AllocError>
    ensures passes { IfOk result (λ made. All (λ p. p.ledger ≡ made.0.id) made.1.items) }
    ensures roles { IfOk result (λ made. All (λ r. r.ledger ≡ made.0.id) made.2.items) }
{
    let mut bases = Vec::with_capacity(alloc.clone()?, 2)?;
    bases.push_reserved(Vec::new(alloc.clone()?));
    bases.push_reserved(Vec::new(alloc.clone()?));
    Ledger::new(alloc.clone()?, Form::Recorded, Salt(0), 2, &bases)
}

/// Makes a ledger with the request after so many refused, and again where there was one. Answers
/// whether there was.
fn refuse_ledger<A: Allocator + Clone>(
    rt: &impl Abort,
    switch: &Refusing<Global>,
    alloc: &A,
    granted: u64,
) -> bool {
    switch.refuse_after(granted);
    let made = make(alloc);
    let refused = switch.has_refused();
    assert!(rt; made.is_err() == refused);
    match made {
        Ok(made) => assert_settles(rt, made),
        Err(_) => assert_settles(rt, make(alloc).expect(rt, "memory")),
    }
    refused
}

#[test]
fn a_refused_ledger_is_made_again(rt: HostRuntime) {
    let alloc = Refusing::new(rt.alloc());
    let mut refusals = 0u64;
    for granted in 0..MANY {
        if !refuse_ledger(&rt, &alloc, &&alloc, granted) {
            break;
        }
        refusals = refusals.wrapping_add(1);
    }
    // The lists of bases, passes and roles, and the table's two blocks.
    assert_same(&rt, &refusals, &5);
}

/// Makes the move of one bin, again where a request was refused, and moves the bin. Answers its
/// range and its finish.
fn move_one(rt: &impl Abort, alloc: Alloc<'_>) -> Result<(Range, Finish), AllocError> {
    let made = Strides::new(alloc, 1).or_else(|_| Strides::new(alloc, 1));
    let (strides, mut opener) = made?;
    let range = strides.claim(&mut opener).expect(rt, "a range");
    let finish = strides.finish(&mut opener, range);
    Ok((range, finish))
}

#[test]
fn a_refused_move_is_made_again(rt: HostRuntime) {
    let alloc = Refusing::new(rt.alloc());
    let mut refusals = 0u64;
    for granted in 0..MANY {
        alloc.refuse_after(granted);
        let moved = move_one(&rt, &alloc).expect(&rt, "memory");
        assert_same(&rt, &moved, &(Range { lo: 0, hi: 1 }, Finish::Last));
        if !alloc.has_refused() {
            break;
        }
        refusals = refusals.wrapping_add(1);
    }
    // The list of spare movers, and the table's two blocks.
    assert_same(&rt, &refusals, &3);
}
