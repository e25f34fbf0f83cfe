//! How one worker visits its share.
ghost use Rattle.std.specs.Prelude.{◌≡◌, ◌⊎◌, [], List};
ghost use Rattle.bin_history.specs.Calls.{after};
ghost use Rattle.part_walks.specs.Parts.{HasWalked, IsWalkFrom};
ghost use Rattle.chm.specs.Visits.{AreVisited, VisitView, classes_of_visits, shown_by};

use bin_history::{Remap, Value};
use chm::{Map, Pass};
use hashkeys::HashKey;
use part_walks::{PartWalk, Stepper};
use std::alloc::Allocator;
use std::sync::Wait;

/// Visits the buckets of a share one after the other, until the stepper is settled.
pub(crate) fn visit_share<
    K: HashKey,
    V: Value,
    F: Remap<K, V>,
    A: Allocator + Clone,
    R: Wait,
    S: Stepper<K, V>,
>(rt: &R, map: &Map<K, V, F, A>, pass: &mut Pass<K, V, F>, share: PartWalk, stepper: &S) -> S::Part
    requires pass { pass.old.ledger ≡ map.now.ledger.id }
    requires begun { HasWalked share [] }
    ensures { (visits : List (VisitView K V))
        × AreVisited K.eq K.code (after V.eq F.remapped F.merged) map.now.ledger pass.old visits
        pass.new
        × S.reached stepper.now (shown_by visits) result
        × (S.ends stepper.now result
        ⊎ IsWalkFrom share.n share.lo share.hi (classes_of_visits visits)) }
{
    let mut walk = share;
    let mut part = stepper.start();
    for _ in rt.forever() {
        part = stepper.look_again(part);
        if walk.is_at_end() {
            return part;
        }
        if stepper.is_settled(&part) {
            return part;
        }
        part = map.show_part(rt, pass, &mut walk, stepper, part);
    }
    unreachable!()
}
