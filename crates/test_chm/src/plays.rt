//! What the clients of a map do that is made for it.
ghost use Rattle.std.specs.Prelude.{◌≡◌, All};

use bin_history::{Form, Remap, Value};
use chm::Map;
use count_ledger::{Pass, retire_all};
use hashkeys::HashKey;
use std::alloc::Allocator;
use std::process::Abort;
use std::sync::Wait;
use test_maps::{Single, open, take_pass};

/// What the clients of a map do with it.
pub(crate) trait Play<K: HashKey, V: Value, F: Remap<K, V>, A: Allocator + Clone> {
    /// What they tell of it.
    type Told: Drop;

    /// What the last client does, and the others, whose passes are in their place.
    fn play<R: Wait + Abort>(
        &self,
        rt: &R,
        map: &Map<K, V, F, A>,
        pass: &mut Pass<K, V, F>,
        others: &mut Vec<Pass<K, V, F>, A>,
    ) -> Self::Told
        requires pass { pass.old.ledger ≡ map.now.ledger.id }
        requires others { All (λ p. p.ledger ≡ map.now.ledger.id) others.old.items };
}

/// Makes a map of 16 buckets for so many clients, and lets them do what they do. Returns what they tell.
pub(crate) fn played<
    R: Wait + Abort,
    K: HashKey,
    V: Value,
    F: Remap<K, V>,
    A: Allocator + Clone,
    P: Play<K, V, F, A>,
>(rt: &R, alloc: A, (form, clients): (Form, u32), play: &P) -> P::Told {
    let Single {
        map,
        mut pass,
        mut place,
    } = take_pass(open(alloc, form, 16, clients).expect(rt, "a map")).expect(rt, "a pass");
    let told = play.play(rt, &map, &mut pass, &mut place);
    pass.retire();
    retire_all(place);
    told
}
