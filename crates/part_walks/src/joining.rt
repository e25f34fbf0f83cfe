//! What the workers collected, put together.
ghost use Rattle.std.specs.Prelude.{List, flat_map};
ghost use Rattle.std.specs.List.{AllZip};
ghost use Rattle.part_walks.specs.Joined.{HasEnd};

use crate::stepping::Stepper;
use std::alloc::Allocator;

/// The part of all parts, in order.
pub fn join_all<K, V, S: Stepper<K, V>, A: Allocator>(
    stepper: &S,
    parts: Vec<S::Part, A>,
) -> S::Part
    requires reached { (ess : List (List (K × V))) × AllZip (S.reached stepper.now) ess parts.items }
    ensures reached { (ess : List (List (K × V))) → AllZip (S.reached stepper.now) ess parts.items →
        S.reached stepper.now (flat_map (λ es. es) ess) result }
    ensures ends { HasEnd (S.ends stepper.now) parts.items → S.ends stepper.now result }
{
    let mut joined = stepper.start();
    for part in parts {
        joined = stepper.append(joined, part);
    }
    joined
}
