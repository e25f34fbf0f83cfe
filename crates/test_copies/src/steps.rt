//! What tests do with maps, by the passes of their clients.
ghost use Rattle.std.specs.Prelude.{◌≡◌, All};

use bin_history::{Form, Remap, Value};
use chm::{Map, Quiet};
use count_ledger::Pass;
use hashkeys::HashKey;
use std::alloc::{Allocator, Global};
use std::process::Abort;
use std::sync::Wait;
use std::thread::{self, Threads};
use test_maps::{Single, close, close_single, open, open_single};

/// What a client does with a map, by the pass that it is lent.
pub(crate) trait Steps<K: HashKey, V: Value, F: Remap<K, V>, A: Allocator + Clone> {
    /// What the client tells.
    type Told: Drop;

    fn take<R: Wait + Abort>(
        &self,
        rt: &R,
        map: &Map<K, V, F, A>,
        pass: &mut Pass<K, V, F>,
    ) -> Self::Told
        requires { pass.old.ledger ≡ map.now.ledger.id }
        ensures { pass.new.ledger ≡ map.now.ledger.id };
}

/// Takes steps on a new map of one client, which stays open.
pub(crate) fn begin<
    R: Wait + Abort,
    K: HashKey,
    V: Value,
    F: Remap<K, V>,
    A: Allocator + Clone,
    S: Steps<K, V, F, A>,
>(rt: &R, alloc: A, form: Form, capacity: usize, steps: &S) -> (S::Told, Single<K, V, F, A>)
    ensures pass { result.1.pass.ledger ≡ result.1.map.ledger.id }
    ensures place { All (λ p. p.ledger ≡ result.1.map.ledger.id) result.1.place.items }
{
    let Single {
        map,
        mut pass,
        place,
    } = open_single(alloc, form, capacity).expect(rt, "a map");
    let told = steps.take(rt, &map, &mut pass);
    (told, Single { map, pass, place })
}

/// Takes steps on a new map of one client, and closes it.
pub(crate) fn run<
    R: Wait + Abort,
    K: HashKey,
    V: Value,
    F: Remap<K, V>,
    A: Allocator + Clone,
    S: Steps<K, V, F, A>,
>(rt: &R, alloc: A, form: Form, capacity: usize, steps: &S) -> (S::Told, Quiet<K, V, F, A>) {
    let (told, Single { map, pass, place }) = begin(rt, alloc, form, capacity, steps);
    let closed = close_single(map, pass, place).expect(rt, "a closed map");
    (told, closed)
}

/// What the client of a new map tells of its steps. The map is closed after them.
pub(crate) fn told<
    R: Wait + Abort,
    K: HashKey,
    V: Value,
    F: Remap<K, V>,
    A: Allocator + Clone,
    S: Steps<K, V, F, A>,
>(rt: &R, alloc: A, form: Form, capacity: usize, steps: &S) -> S::Told {
    run(rt, alloc, form, capacity, steps).0
}

/// Lets each client take the steps, in at most four threads.
pub(crate) fn take_all<
    R: Threads + Wait + Abort + Sync,
    K: HashKey + Send + Sync,
    V: Value + Send + Sync,
    F: Remap<K, V> + Send + Sync,
    S: Steps<K, V, F, Global> + Sync,
>(rt: &R, map: &Map<K, V, F, Global>, passes: &mut [Pass<K, V, F>], steps: &S)
where
    S::Told: Send,
    requires { All (λ p. p.ledger ≡ map.now.ledger.id) passes.old }
    ensures { All (λ p. p.ledger ≡ map.now.ledger.id) passes.new }
{
    let work = |_number: usize, pass: &mut Pass<K, V, F>|
        requires { pass.now.ledger ≡ map.now.ledger.id }
        ensures { pass.exit.now.ledger ≡ map.entry.now.ledger.id }
    { drop(steps.take(rt, map, pass)) };
    thread::for_each_mut(rt, passes, 4, &work);
}

/// Lets two clients of a new map take the steps together, and closes it. Answers how many keys there
/// are.
pub(crate) fn count_after_two<
    R: Threads + Wait + Abort + Sync,
    K: HashKey + Send + Sync,
    V: Value + Send + Sync,
    F: Remap<K, V> + Send + Sync,
    S: Steps<K, V, F, Global> + Sync,
>(rt: &R, alloc: Global, form: Form, capacity: usize, steps: &S) -> u64
where
    S::Told: Send,
{
    let (map, mut passes) = open::<K, V, F, Global>(alloc, form, capacity, 2).expect(rt, "a map");
    take_all(rt, &map, &mut passes, steps);
    close(map, passes)
        .expect(rt, "a closed map")
        .mapping_count()
}
