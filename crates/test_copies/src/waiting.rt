//! Functions and copies that wait for another thread while a bin is held or read.
ghost use Rattle.std.specs.Prelude.{◌≡◌};

use crate::asserts::{assert_same, key, numbered};
use crate::away::Away;
use crate::steps::{Steps, begin, count_after_two, run};
use crate::words::reply_word;
use bin_history::{Exact, Form, Remap, Reply, Value};
use chm::{Fault, Map};
use count_ledger::Pass;
use crossbeam_utils::Backoff;
use hashkeys::Key;
use std::alloc::{AllocError, Global};
use std::process::Abort;
use std::sync::Wait;
use std::sync::atomic::AtomicU64;
use std::sync::atomic::Ordering::SeqCst;
use std::thread::{self, Threads};
use test_maps::{BOTH, Single, close_single};

/// What threads wait for: how often it has been done, and how many waits for it were given up.
#[derive(Drop)]
pub(crate) struct Event {
    done: AtomicU64,
    given_up: AtomicU64,
}

impl Event {
    pub(crate) fn new() -> Event {
        Event {
            done: AtomicU64::new(0),
            given_up: AtomicU64::new(0),
        }
    }

    /// Waits until it has been done so often, but not for ever.
    pub(crate) fn wait(&self, times: u64) {
        let backoff = Backoff::new();
        for _turn in 0..10_000_000u32 {
            if self.done.load(SeqCst) >= times {
                return;
            }
            backoff.snooze();
        }
        self.given_up.fetch_add(1, SeqCst);
    }

    pub(crate) fn done(&self) {
        self.done.fetch_add(1, SeqCst);
    }

    pub(crate) fn given_up(&self) -> u64 {
        self.given_up.load(SeqCst)
    }
}

/// Gives a key the value 1, once the event has been done. It tells that it was asked.
#[derive(Drop)]
pub(crate) struct OneAfter<'a> {
    pub(crate) asked: &'a Event,
    pub(crate) event: &'a Event,
}

impl<'a> Clone for OneAfter<'a> {
    ghost use Rattle.std.specs.Prelude.{◌≡◌};

    ghost is_clone = { λ x y. y ≡ x };

    fn clone(&self) -> Result<OneAfter<'a>, AllocError> {
        Ok(OneAfter {
            asked: self.asked,
            event: self.event,
        })
    }
}

impl<'a> Exact for OneAfter<'a> {
    ghost copies_exactly = { λ x y e. e };
}

impl<'a> Remap<Key, u64> for OneAfter<'a> {
    ghost use Rattle.std.specs.Prelude.{Some};

    ghost remapped = { λ f k v. Some 1 };

    ghost merged = { λ f old given. Some old };

    fn remap(&self, _key: &Key, _value: Option<&u64>) -> Result<Option<u64>, AllocError> {
        self.asked.done();
        self.event.wait(1);
        Ok(Some(1))
    }

    fn merge(&self, old: &u64, _given: &u64) -> Result<Option<u64>, AllocError> {
        Ok(Some(*old))
    }
}

/// Computes at `a`, which has no value, with a function that gives it the value 1.
pub(crate) fn compute_at_a<R: Wait + Abort, F: Remap<Key, u64>>(
    rt: &R,
    map: &Map<Key, u64, F, Global>,
    pass: &mut Pass<Key, u64, F>,
    function: &F,
)
    requires { pass.old.ledger ≡ map.now.ledger.id }
    ensures { pass.new.ledger ≡ map.now.ledger.id }
{
    let function = function.clone().expect(rt, "memory");
    let reply = map.compute(rt, pass, key(rt, b"a"), function);
    assert_same(rt, &reply_word(reply), &"1");
}

/// Client 0 computes at a key with a function that waits until client 1 has put another one, which
/// client 1 does once the function was asked.
#[derive(Drop)]
struct ComputesAndPuts<'e, F> {
    function: &'e F,
    asked: &'e Event,
    event: &'e Event,
}

impl<'e, F: Remap<Key, u64>> Steps<Key, u64, F, Global> for ComputesAndPuts<'e, F> {
    type Told = ();

    fn take<R: Wait + Abort>(
        &self,
        rt: &R,
        map: &Map<Key, u64, F, Global>,
        pass: &mut Pass<Key, u64, F>,
    ) {
        if pass.client() == 0 {
            compute_at_a(rt, map, pass, self.function);
        } else {
            self.asked.wait(1);
            let reply = map.put(rt, pass, key(rt, b"Aa"), 1);
            self.event.done();
            assert_same(rt, &reply_word(reply), &"none");
        }
    }
}

#[test]
fn a_function_waits_for_a_put_on_another_bin(rt: HostRuntime) {
    for form in BOTH {
        let (asked, event) = (Event::new(), Event::new());
        let function = OneAfter {
            asked: &asked,
            event: &event,
        };
        let steps = ComputesAndPuts {
            function: &function,
            asked: &asked,
            event: &event,
        };
        let count = count_after_two(&rt, rt.alloc(), form, 16, &steps);
        assert_same(
            &rt,
            &(asked.given_up(), event.given_up(), count),
            &(0, 0, 2),
        );
    }
}

/// What the copies of a value are told to do: nothing, to wait for one another, or to be refused.
pub(crate) const WAIT: u64 = 1;

const REFUSE: u64 = 2;

/// A value whose copies wait for one another, or are refused, once they are told to. Any two are
/// equal.
#[derive(Drop)]
pub(crate) struct Paired<'a> {
    event: &'a Event,
    told: &'a AtomicU64,
}

impl<'a> Paired<'a> {
    pub(crate) fn new(event: &'a Event, told: &'a AtomicU64) -> Paired<'a>
        ensures { result ≡ record { event = event.entry; told = told.entry } }
    {
        Paired { event, told }
    }
}

impl<'a> Clone for Paired<'a> {
    ghost use Rattle.std.specs.Prelude.{◌≡◌};

    ghost is_clone = { λ x y. y ≡ x };

    fn clone(&self) -> Result<Paired<'a>, AllocError> {
        let told = self.told.load(SeqCst);
        if told == REFUSE {
            return Err(AllocError);
        }
        if told == WAIT {
            self.event.done();
            self.event.wait(2);
        }
        Ok(Paired::new(self.event, self.told))
    }
}

impl<'a> Exact for Paired<'a> {
    ghost copies_exactly = { λ x y e. e };
}

impl<'a> PartialEq for Paired<'a> {
    ghost use Rattle.std.specs.Prelude.{true};
    ghost use Rattle.std.specs.Cmp.{partial_equiv_from_equiv};
    ghost use Rattle.std.specs.Cmp.Derive.{point_equiv};

    ghost eq = { λ x y. true };

    ghost laws = { partial_equiv_from_equiv point_equiv };

    fn eq(&self, _other: &Paired<'a>) -> bool {
        true
    }
}

impl<'a> Eq for Paired<'a> {
    ghost use Rattle.std.specs.Cmp.Derive.{point_equiv};

    ghost laws = { point_equiv };
}

/// Gives the key of a number, which has none, a copy of a value.
pub(crate) fn put_copy<R: Wait + Abort, V: Value>(
    rt: &R,
    map: &Map<Key, V, Away, Global>,
    pass: &mut Pass<Key, V, Away>,
    number: u32,
    value: &V,
)
    requires { pass.old.ledger ≡ map.now.ledger.id }
    ensures { pass.new.ledger ≡ map.now.ledger.id }
{
    let copy = value.clone().expect(rt, "memory");
    let reply = map.put(rt, pass, numbered(rt, number), copy);
    assert!(rt; reply == Ok(Reply::Value(None)));
}

/// Gives the key `a` a copy of a value, and says whether it had none.
pub(crate) fn put_a<R: Wait + Abort, V: Value>(
    rt: &R,
    map: &Map<Key, V, Away, Global>,
    pass: &mut Pass<Key, V, Away>,
    value: &V,
) -> bool
    requires { pass.old.ledger ≡ map.now.ledger.id }
    ensures { pass.new.ledger ≡ map.now.ledger.id }
{
    let copy = value.clone().expect(rt, "memory");
    map.put(rt, pass, key(rt, b"a"), copy) == Ok(Reply::Value(None))
}

/// The put of a copy of a value at `a`.
#[derive(Drop)]
struct PutsA<'e, V> {
    value: &'e V,
}

impl<'e, V: Value> Steps<Key, V, Away, Global> for PutsA<'e, V> {
    /// Whether `a` had no value.
    type Told = bool;

    fn take<R: Wait + Abort>(
        &self,
        rt: &R,
        map: &Map<Key, V, Away, Global>,
        pass: &mut Pass<Key, V, Away>,
    ) -> bool {
        put_a(rt, map, pass, self.value)
    }
}

/// Glances at `a` in two threads at once. Answers whether each found a value.
fn glance_twice<R: Threads + Wait + Abort + Sync, V: Value + Send + Sync>(
    rt: &R,
    map: &Map<Key, V, Away, Global>,
) -> (bool, bool) {
    let glance = || matches!(map.glance(rt, &key(rt, b"a")), Ok(Some(_)));
    let both = thread::join(rt, glance, glance);
    both
}

/// Puts a value at `a` in a recorded map, and glances at it in two threads at once, while its copies are
/// told to wait. Answers whether `a` had no value, what both glances found, and how many keys there are.
fn glance_together<R: Threads + Wait + Abort + Sync, V: Value + Send + Sync>(
    rt: &R,
    alloc: Global,
    value: &V,
    told: &AtomicU64,
) -> (bool, (bool, bool), u64) {
    let (put, Single { map, pass, place }) = begin(rt, alloc, Form::Recorded, 16, &PutsA { value });
    told.store(WAIT, SeqCst);
    let both = glance_twice(rt, &map);
    told.store(0, SeqCst);
    let closed = close_single(map, pass, place).expect(rt, "a closed map");
    (put, both, closed.mapping_count())
}

#[test]
fn two_glances_copy_one_value_at_once(rt: HostRuntime) {
    let event = Event::new();
    let told = AtomicU64::new(0);
    let value = Paired::new(&event, &told);
    let found = glance_together(&rt, rt.alloc(), &value, &told);
    assert_same(
        &rt,
        &(found, event.given_up()),
        &((true, (true, true), 1), 0),
    );
}

/// The put of a value at `a`, a glance at it while its copies are refused, and another one once they are
/// not.
#[derive(Drop)]
struct GlancesInVain<'e, V> {
    value: &'e V,
    told: &'e AtomicU64,
}

impl<'e, V: Value> Steps<Key, V, Away, Global> for GlancesInVain<'e, V> {
    /// Whether `a` had no value, the first glance failed for want of memory, and the second one found
    /// the value.
    type Told = [bool; 3];

    fn take<R: Wait + Abort>(
        &self,
        rt: &R,
        map: &Map<Key, V, Away, Global>,
        pass: &mut Pass<Key, V, Away>,
    ) -> [bool; 3] {
        let put = put_a(rt, map, pass, self.value);
        self.told.store(REFUSE, SeqCst);
        let refused = matches!(map.glance(rt, &key(rt, b"a")), Err(Fault::NoMemory));
        self.told.store(0, SeqCst);
        let again = matches!(map.glance(rt, &key(rt, b"a")), Ok(Some(_)));
        [put, refused, again]
    }
}

/// What is found in a map of the form, and how many keys there are.
fn glance_in_vain<R: Wait + Abort, V: Value>(
    rt: &R,
    alloc: Global,
    form: Form,
    steps: &GlancesInVain<'_, V>,
) -> ([bool; 3], u64) {
    let (found, closed) = run(rt, alloc, form, 16, steps);
    (found, closed.mapping_count())
}

#[test]
fn a_glance_whose_copy_is_refused_leaves_the_bin(rt: HostRuntime) {
    let event = Event::new();
    let told = AtomicU64::new(0);
    let value = Paired::new(&event, &told);
    let steps = GlancesInVain {
        value: &value,
        told: &told,
    };
    for form in BOTH {
        let found = glance_in_vain(&rt, rt.alloc(), form, &steps);
        assert_same(&rt, &found, &([true; 3], 1));
    }
}
