//! All memory comes back, whatever a map was used for.
ghost use Rattle.std.specs.Prelude.{◌≡◌};

use crate::asserts::assert_same;
use crate::maps::room;
use crate::steps::{Steps, begin, run, told};
use crate::texts::{CallsOften, Puts, Says, TextMap, TextPass, key};
use crate::words::Text;
use bin_history::{Form, Remap, Value};
use chm::Opened;
use count_ledger::retire_all;
use hashkeys::HashKey;
use std::alloc::{Allocator, Global};
use std::process::Abort;
use std::sync::Wait;
use test_helpers::Alloc;
use test_maps::{BOTH, Single, close, open};
use test_support::Refusing;

/// Asserts that memory was asked for, and all of it came back.
fn assert_all_back(rt: &impl Abort, alloc: Alloc<'_>) {
    assert!(rt; alloc.requests() > 0);
    assert_same(rt, &(alloc.blocks_out(), alloc.bytes_out()), &(0, 0));
}

/// Opens a map of 16 bins and three clients, and drops it. Answers how many blocks were out between.
fn open_and_drop<A: Allocator + Clone>(
    rt: &impl Abort,
    switch: &Refusing<Global>,
    alloc: A,
    form: Form,
) -> u64 {
    let opened: Opened<Text<A>, Text<A>, Says<A>, A> = open(alloc, form, 16, 3).expect(rt, "a map");
    let blocks = switch.blocks_out();
    let (map, passes) = opened;
    retire_all(passes);
    drop(map);
    blocks
}

#[test]
fn a_new_map_gives_all_back(rt: HostRuntime) {
    for form in BOTH {
        let alloc = Refusing::new(rt.alloc());
        let blocks = open_and_drop(&rt, &alloc, &alloc, form);
        assert!(rt; blocks > 0);
        assert_all_back(&rt, &alloc);
    }
}

/// The forms, and with how many keys a table of 16 bins has grown to 64.
const GROWN: [(Form, u32); 2] = [(Form::Recorded, 30), (Form::Lean, 15)];

/// Takes steps on a new map, and drops it as it is.
fn drop_after<
    R: Wait + Abort,
    K: HashKey,
    V: Value,
    F: Remap<K, V>,
    A: Allocator + Clone,
    S: Steps<K, V, F, A>,
>(rt: &R, alloc: A, form: Form, steps: &S) {
    let (_, Single { map, pass, place }) = begin(rt, alloc, form, 16, steps);
    pass.retire();
    retire_all(place);
    drop(map);
}

#[test]
fn a_map_that_is_not_closed_gives_all_back(rt: HostRuntime) {
    for (form, count) in GROWN {
        let alloc = Refusing::new(rt.alloc());
        let puts = Puts {
            alloc: &&alloc,
            count,
        };
        drop_after(&rt, &alloc, form, &puts);
        assert_all_back(&rt, &alloc);
    }
}

/// How many bins a map has that is closed after steps.
fn bins_after<
    R: Wait + Abort,
    K: HashKey,
    V: Value,
    F: Remap<K, V>,
    A: Allocator + Clone,
    S: Steps<K, V, F, A>,
>(rt: &R, alloc: A, form: Form, steps: &S) -> usize {
    let (_, closed) = run(rt, alloc, form, 16, steps);
    closed.bins().len()
}

#[test]
fn a_map_that_grew_gives_all_back(rt: HostRuntime) {
    for (form, count) in GROWN {
        let alloc = Refusing::new(rt.alloc());
        let puts = Puts {
            alloc: &&alloc,
            count,
        };
        assert_same(&rt, &bins_after(&rt, &alloc, form, &puts), &64);
        assert_all_back(&rt, &alloc);
    }
}

#[test]
fn calls_of_each_kind_give_all_back(rt: HostRuntime) {
    // Two hundred calls of each kind in one bin: so a recorded map folds records of each kind.
    for form in BOTH {
        let alloc = Refusing::new(rt.alloc());
        let calls = CallsOften {
            alloc: &&alloc,
            times: 2400,
        };
        told(&rt, &alloc, form, 1, &calls);
        assert_all_back(&rt, &alloc);
    }
}

/// A look, a glance, a walk and a clear.
#[derive(Drop)]
struct ReadsAndClears<'s, A: Allocator> {
    puts: Puts<'s, A>,
}

impl<'s, A: Allocator + Clone> Steps<Text<A>, Text<A>, Says<A>, A> for ReadsAndClears<'s, A> {
    /// Whether each succeeded.
    type Told = [bool; 4];

    fn take<R: Wait + Abort>(&self, rt: &R, map: &TextMap<A>, pass: &mut TextPass<A>) -> [bool; 4] {
        self.puts.take(rt, map, pass);
        let key = key(rt, self.puts.alloc, 0);
        let looked = map.look_up(rt, pass, &key).is_ok();
        let glanced = map.glance(rt, &key).is_ok();
        let walked = map.walk(rt, pass).is_ok();
        let cleared = map.clear(rt, pass).is_ok();
        [looked, glanced, walked, cleared]
    }
}

#[test]
fn readings_and_a_clear_give_all_back(rt: HostRuntime) {
    for form in BOTH {
        let alloc = Refusing::new(rt.alloc());
        let puts = Puts {
            alloc: &&alloc,
            count: 5,
        };
        let succeeded = told(&rt, &alloc, form, 16, &ReadsAndClears { puts });
        assert_same(&rt, &succeeded, &[true; 4]);
        assert_all_back(&rt, &alloc);
    }
}

/// Takes steps on a new map and closes it, opens the closed map again, and closes both. Answers how many
/// pairs come out of one.
fn open_again_after<
    R: Wait + Abort,
    K: HashKey,
    V: Value,
    F: Remap<K, V>,
    A: Allocator + Clone,
    S: Steps<K, V, F, A>,
>(rt: &R, alloc: A, form: Form, steps: &S) -> usize {
    let (_, first) = run(rt, alloc, form, 16, steps);
    let (map, passes) = first.reopen(2).expect(rt, "a map");
    let second = close(map, passes).expect(rt, "a closed map");
    drop(first);
    let pairs = second.into_entries().ok().expect(rt, "memory");
    pairs.len()
}

#[test]
fn a_map_that_is_opened_again_gives_all_back(rt: HostRuntime) {
    for form in BOTH {
        let alloc = Refusing::new(rt.alloc());
        let puts = Puts {
            alloc: &&alloc,
            count: 30,
        };
        assert_same(&rt, &open_again_after(&rt, &alloc, form, &puts), &30);
        assert_all_back(&rt, &alloc);
    }
}

/// Takes steps on a new map, and closes it without the pass of its client, which ends. Answers whether it
/// was given up.
fn give_up_after<
    R: Wait + Abort,
    K: HashKey,
    V: Value,
    F: Remap<K, V>,
    A: Allocator + Clone,
    S: Steps<K, V, F, A>,
>(rt: &R, alloc: A, form: Form, steps: &S) -> bool {
    let (_, Single { map, pass, place }) = begin(rt, alloc, form, 16, steps);
    pass.retire();
    close(map, place).is_err()
}

#[test]
fn a_map_that_is_given_up_gives_all_back(rt: HostRuntime) {
    for form in BOTH {
        let alloc = Refusing::new(rt.alloc());
        let puts = Puts {
            alloc: &&alloc,
            count: 5,
        };
        assert!(rt; give_up_after(&rt, &alloc, form, &puts));
        assert_all_back(&rt, &alloc);
    }
}

/// The puts of all keys that a map has room for, and of one key more, with the request after so many
/// refused.
#[derive(Drop)]
struct RefusedPut<'s, A: Allocator> {
    switch: &'s Refusing<Global>,
    puts: Puts<'s, A>,
    granted: u64,
}

impl<'s, A: Allocator + Clone> Steps<Text<A>, Text<A>, Says<A>, A> for RefusedPut<'s, A> {
    /// Whether there was such a request.
    type Told = bool;

    fn take<R: Wait + Abort>(&self, rt: &R, map: &TextMap<A>, pass: &mut TextPass<A>) -> bool {
        self.puts.take(rt, map, pass);
        let next = key(rt, self.puts.alloc, self.puts.count);
        let value = key(rt, self.puts.alloc, 0);
        self.switch.refuse_after(self.granted);
        drop(map.put(rt, pass, next, value));
        let refused = self.switch.has_refused();
        self.switch.refuse_after(u64::MAX);
        refused
    }
}

/// Refuses each request of the put in turn, and answers how many there are.
fn refuse_each<R: Wait + Abort, A: Allocator + Clone>(
    rt: &R,
    (switch, alloc): (&Refusing<Global>, &A),
    form: Form,
) -> u64 {
    let count = room(form);
    for granted in 0..1000u64 {
        let steps = RefusedPut {
            switch,
            puts: Puts { alloc, count },
            granted,
        };
        let own = alloc.clone().expect(rt, "an allocator");
        let refused = told(rt, own, form, 16, &steps);
        assert_all_back(rt, switch);
        if !refused {
            return granted;
        }
    }
    1000
}

#[test]
fn a_refused_put_or_move_gives_all_back(rt: HostRuntime) {
    for form in BOTH {
        let alloc = Refusing::new(rt.alloc());
        let requests = refuse_each(&rt, (&alloc, &&alloc), form);
        assert!(rt; requests > 8 && requests < 1000);
    }
}
