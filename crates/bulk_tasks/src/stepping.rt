//! What is collected pair by pair.
ghost use Rattle.std.specs.Prelude.{◌++◌, ◌∷◌, [], List, IsTrue};
ghost use Rattle.chm.specs.Headline.{entries_of};

use bin_history::{Bin, Remap, Value, Walk};
use hashkeys::HashKey;
use std::alloc::Allocator;

/// What pairs give that are added one after the other: nothing yet at first, then pair by pair.
pub trait Stepper<K, V> {
    type Part: Drop;

    // Of the pairs of a list, in order.
    ghost reached: { Self → List (K × V) → Self.Part → Type 0 };

    fn start(&self) -> Self::Part
        ensures { reached self.now [] result };

    /// The part with one pair more.
    fn add(&self, part: Self::Part, key: &K, value: &V) -> Self::Part
        ensures { (es : List (K × V)) → reached self.now es part →
            reached self.now (es ++ (key.now, value.now) ∷ []) result };

    /// Returns the part as it is, or one that says that the stepper gives up. It is asked for
    /// before each bin.
    fn look_again(&self, part: Self::Part) -> Self::Part
        ensures { (es : List (K × V)) → reached self.now es part → reached self.now es result };

    /// Whether no further pair changes the part.
    fn is_settled(&self, part: &Self::Part) -> bool
        ensures { IsTrue result → (es fs : List (K × V)) → reached self.now es part.now →
            reached self.now (es ++ fs) part.now };
}

// The part with the pairs of a walk more.
fn add_all<K, V, A: Allocator, S: Stepper<K, V>>(
    stepper: &S,
    part: S::Part,
    walk: Walk<'_, K, V, A>,
) -> S::Part
    ensures { (es : List (K × V)) → S.reached stepper.now es part →
        S.reached stepper.now (es ++ walk.entry) result }
{
    let mut part = part;
    for (key, value) in walk {
        part = stepper.add(part, key, value);
    }
    part
}

/// What the pairs of these bins give.
pub(crate) fn step_through<
    K: HashKey,
    V: Value,
    F: Remap<K, V>,
    A: Allocator + Clone,
    S: Stepper<K, V>,
>(stepper: &S, bins: &[Bin<K, V, F, A>]) -> S::Part
    ensures { S.reached stepper.now (entries_of bins.now) result }
{
    let mut part = stepper.start();
    for bin in bins {
        part = stepper.look_again(part);
        if stepper.is_settled(&part) {
            return part;
        }
        part = add_all(stepper, part, bin.walk());
    }
    part
}
