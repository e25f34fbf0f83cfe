//! A tree of completers, each request of its making refused in turn.
ghost use Rattle.std.specs.Prelude.{◌≡◌, IfOk};

use crate::asserts::assert_same;
use completers::{Arrival, Partial, Relation, Supply, Tree};
use std::alloc::AllocError;
use std::process::Abort;
use test_helpers::Alloc;
use test_support::Refusing;

/// More than any call's requests.
const MANY: u64 = 1000;

/// A part is how many bins the range has.
struct Bins;

impl Relation for Bins {
    type Part = usize;

    ghost relates = { λ _ _ _ _. Unit {0} };
}

type Made<'a> = (Tree<Bins, Alloc<'a>>, Supply<usize>);

/// A tree of four nodes over five bins.
fn make(alloc: Alloc<'_>) -> Result<Made<'_>, AllocError>
    ensures bins { IfOk result (λ made. made.0.bins ≡ 5) }
    ensures slots { IfOk result (λ made. made.0.slots ≡ 3) }
    ensures supply { IfOk result (λ made. made.1.tree ≡ made.0.identity) }
{
    Tree::new(alloc, &Bins, 4, 3, 5)
}

/// The range of the first part and the part, whether there is another, and whether there is a
/// ticket above.
type Seen = ((usize, usize, usize), bool, bool);

/// What a last arrival is told; none: the arrival was not the last.
fn seen(arrival: Arrival<usize>) -> Option<Seen> {
    let Arrival::Last(mut parts, above) = arrival else {
        return None;
    };
    let first = parts.take()?;
    let part = (first.lo, first.hi, first.part);
    Some((part, parts.take().is_some(), above.is_some()))
}

/// The one ticket of a root that does not fork arrives last, with the whole range.
fn assert_completes(rt: &impl Abort, made: Made<'_>)
    requires bins { made.0.bins ≡ 5 }
    requires supply { made.1.tree ≡ made.0.identity }
{
    let (tree, supply) = made;
    let level = supply.level();
    let own = tree.open(supply, None, 0, 5).own(&tree);
    let whole = Partial {
        lo: 0,
        hi: 5,
        part: 5,
    };
    let last = seen(tree.arrive(own, whole));
    drop(tree);
    assert_same(rt, &(level, last), &(2, Some(((0, 5, 5), false, false))));
}

/// Makes a tree with the request after so many refused, and again where there was one. Answers
/// whether there was.
fn refuse_tree(rt: &impl Abort, alloc: Alloc<'_>, granted: u64) -> Result<bool, AllocError> {
    alloc.refuse_after(granted);
    if let Ok(made) = make(alloc) {
        assert_completes(rt, made);
        assert!(rt; !alloc.has_refused());
        return Ok(false);
    }
    assert!(rt; alloc.has_refused());
    assert_completes(rt, make(alloc)?);
    Ok(true)
}

#[test]
fn a_refused_tree_is_made_again(rt: HostRuntime) {
    let alloc = Refusing::new(rt.alloc());
    let mut refusals = 0u64;
    for granted in 0..MANY {
        if !refuse_tree(&rt, &alloc, granted).expect(&rt, "memory") {
            break;
        }
        refusals = refusals.wrapping_add(1);
    }
    // The table's list of places, its words and its places.
    assert_same(&rt, &refusals, &3);
}

/// A root of five bins that forks once, at 2, and what is told of the arrivals of its own ticket and
/// of that of its child's node.
fn fork_once(tree: &Tree<Bins, Alloc<'_>>, supply: Supply<usize>) -> [Option<Seen>; 2]
    requires tree { (tree.now.bins ≡ 5) × (tree.now.slots ≡ 3) }
    requires supply { (supply.tree ≡ tree.now.identity) × (supply.level ≡ 2) }
{
    let mut root = tree.open(supply, None, 0, 5);
    let (ticket, below) = root.fork(tree, 2);
    let child = tree.open(below, Some(ticket), 2, 5);
    let low = Partial {
        lo: 0,
        hi: 2,
        part: 2,
    };
    let high = Partial {
        lo: 2,
        hi: 5,
        part: 3,
    };
    let first = seen(tree.arrive(root.own(tree), low));
    [first, seen(tree.arrive(child.own(tree), high))]
}

/// Nor does an arrival.
#[test]
fn a_fork_asks_for_no_memory(rt: HostRuntime) {
    let alloc = Refusing::new(rt.alloc());
    let (tree, supply) = make(&alloc).expect(&rt, "memory");
    assert!(rt; supply.level() == 2);
    alloc.refuse_after(0);
    let told = fork_once(&tree, supply);
    let refused = alloc.has_refused();
    drop(tree);
    let wanted = [None, Some(((2, 5, 3), false, true))];
    assert_same(&rt, &(told, refused), &(wanted, false));
}
