//! A put that makes the table grow: what it asks for, and what walks show where it is refused.
ghost use Rattle.std.specs.Prelude.{◌≡◌};

use crate::asserts::assert_same;
use crate::counted::{Counted, Counting, Counts, Seven};
use crate::maps::{put_below, room};
use crate::steps::{Steps, run, told};
use crate::words::reply_word;
use bin_history::{Form, Remap};
use chm::{Map, Visit};
use count_ledger::Pass;
use hashkeys::HashKey;
use std::alloc::{Allocator, Global};
use std::process::Abort;
use std::sync::Wait;
use test_support::Refusing;

/// What a walk shows: the size and the index of each bin, and how many entries it has and the sum of
/// their values.
type Shown = Vec<(u32, u32, usize, u64)>;

fn bins_of<K, A: Allocator>(rt: &impl Abort, memory: Global, visits: &[Visit<K, u64, A>]) -> Shown {
    let mut bins = Vec::new(memory);
    for visit in visits {
        let mut sum = 0u64;
        for (_key, value) in &visit.entries {
            sum = sum.wrapping_add(*value);
        }
        let class = (visit.class.n(), visit.class.index());
        bins.push((class.0, class.1, visit.entries.len(), sum))
            .expect(rt, "memory");
    }
    bins
}

fn shown<R: Wait + Abort, K: HashKey, F: Remap<K, u64>, A: Allocator + Clone>(
    rt: &R,
    memory: Global,
    map: &Map<K, u64, F, A>,
    pass: &mut Pass<K, u64, F>,
) -> Shown
    requires { pass.old.ledger ≡ map.now.ledger.id }
    ensures { pass.new.ledger ≡ map.now.ledger.id }
{
    let visits = map.walk(rt, pass).expect(rt, "memory");
    bins_of(rt, memory, &visits)
}

/// How many entries the bins have, and the sum of their values.
fn sums(bins: &[(u32, u32, usize, u64)]) -> (usize, u64) {
    let mut entries = 0usize;
    let mut values = 0u64;
    for (_n, _index, len, sum) in bins {
        entries = entries.saturating_add(*len);
        values = values.saturating_add(*sum);
    }
    (entries, values)
}

/// The puts of the numbers below one at their keys, and then of that one, with the request after so many
/// refused.
#[derive(Drop)]
pub(crate) struct PutsOneMore<'s, C> {
    pub(crate) switch: &'s Refusing<Global>,
    pub(crate) counts: &'s C,
    pub(crate) number: u32,
    pub(crate) granted: u64,
}

/// What is told of the last put.
#[derive(Drop)]
pub(crate) struct OfPut {
    pub(crate) reply: &'static str,
    /// Whether a request was refused.
    pub(crate) refused: bool,
    /// What was counted in it.
    pub(crate) counted: [u64; 4],
    /// How many requests it made.
    pub(crate) requests: u64,
    /// How many bytes were out after it.
    pub(crate) bytes: u64,
}

/// Makes the last put.
fn put_last<R: Wait + Abort, K: HashKey, F: Remap<K, u64>, A: Allocator + Clone, C: Counting<K, F>>(
    rt: &R,
    map: &Map<K, u64, F, A>,
    pass: &mut Pass<K, u64, F>,
    steps: &PutsOneMore<'_, C>,
) -> OfPut
    requires { pass.old.ledger ≡ map.now.ledger.id }
    ensures { pass.new.ledger ≡ map.now.ledger.id }
{
    let PutsOneMore {
        switch,
        counts,
        number,
        granted,
    } = steps;
    counts.take();
    let before = switch.requests();
    switch.refuse_after(*granted);
    let reply = map.put(rt, pass, counts.key(*number), u64::from(*number));
    let refused = switch.has_refused();
    switch.refuse_after(u64::MAX);
    OfPut {
        reply: reply_word(reply),
        refused,
        counted: counts.take(),
        requests: switch.requests().wrapping_sub(before),
        bytes: switch.bytes_out(),
    }
}

impl<'s, K: HashKey, F: Remap<K, u64>, A: Allocator + Clone, C: Counting<K, F>> Steps<K, u64, F, A>
    for PutsOneMore<'s, C> {
    type Told = OfPut;

    fn take<R: Wait + Abort>(
        &self,
        rt: &R,
        map: &Map<K, u64, F, A>,
        pass: &mut Pass<K, u64, F>,
    ) -> OfPut {
        put_below(rt, map, pass, self.counts, self.number);
        put_last(rt, map, pass, self)
    }
}

/// What is told of the put of a number into a map of 16 bins with those below it, and how many bins there
/// are then.
pub(crate) fn put_one_more<
    R: Wait + Abort,
    K: HashKey,
    F: Remap<K, u64>,
    A: Allocator + Clone,
    C: Counting<K, F>,
>(
    rt: &R,
    (switch, alloc, counts): (&Refusing<Global>, &A, &C),
    (form, number): (Form, u32),
) -> (OfPut, usize) {
    let steps = PutsOneMore {
        switch,
        counts,
        number,
        granted: u64::MAX,
    };
    let own = alloc.clone().expect(rt, "an allocator");
    let (put, closed) = run::<R, K, u64, F, A, PutsOneMore<'_, C>>(rt, own, form, 16, &steps);
    (put, closed.bins().len())
}

/// The same puts, and what walks show before the last one and after it.
#[derive(Drop)]
struct WalksRound<'s, C> {
    memory: Global,
    puts: PutsOneMore<'s, C>,
}

impl<'s, K: HashKey, F: Remap<K, u64>, A: Allocator + Clone, C: Counting<K, F>> Steps<K, u64, F, A>
    for WalksRound<'s, C> {
    /// The reply of the last put, and whether it was refused; whether the walk after it shows what the
    /// one before it showed, and the sums that it shows.
    type Told = (&'static str, bool, bool, (usize, u64));

    fn take<R: Wait + Abort>(
        &self,
        rt: &R,
        map: &Map<K, u64, F, A>,
        pass: &mut Pass<K, u64, F>,
    ) -> (&'static str, bool, bool, (usize, u64)) {
        put_below(rt, map, pass, self.puts.counts, self.puts.number);
        let before = shown(rt, self.memory, map, pass);
        let put = put_last(rt, map, pass, &self.puts);
        let after = shown(rt, self.memory, map, pass);
        (put.reply, put.refused, after == before, sums(&after))
    }
}

/// Refuses each request of the put in turn, of which so many are its own, and answers how many there
/// are. Where one of its own is refused a walk shows what it showed before; where one of the move is,
/// the keys and the one more.
fn refuse_each<
    R: Wait + Abort,
    K: HashKey,
    F: Remap<K, u64>,
    A: Allocator + Clone,
    C: Counting<K, F>,
>(
    rt: &R,
    (switch, alloc, counts): (&Refusing<Global>, &A, &C),
    memory: Global,
    (form, own): (Form, u64),
) -> u64 {
    let (before, after) = match form {
        Form::Recorded => ((11, 55), (12, 66)),
        Form::Lean => ((3, 3), (4, 6)),
    };
    for granted in 0..1000u64 {
        let puts = PutsOneMore {
            switch,
            counts,
            number: room(form),
            granted,
        };
        let steps = WalksRound { memory, puts };
        let map_alloc = alloc.clone().expect(rt, "an allocator");
        let found = told::<R, K, u64, F, A, WalksRound<'_, C>>(rt, map_alloc, form, 16, &steps);
        let refused = found.1;
        let wanted = if granted < own {
            ("no memory", refused, true, before)
        } else {
            ("none", refused, false, after)
        };
        assert_same(rt, &found, &wanted);
        if !refused {
            return granted;
        }
    }
    1000
}

#[test]
fn a_walk_shows_what_a_refused_put_left(rt: HostRuntime) {
    // The put asks in a recorded map for room for the entry and for the record, and in a lean one for
    // none, since the key is its bin's first. The move of a
    // recorded map asks for the table, three times for the strides, once for each half of a bin and
    // twice more for each of the twelve that have a key; that of a lean one for the slots of the
    // table's parts, four times for the strides, and four times for the part.
    let counts = Counts::new();
    let alloc = Refusing::new(rt.alloc());
    for (form, own, wanted) in [(Form::Recorded, 2, 2 + 60), (Form::Lean, 0, 9)] {
        let requests = refuse_each::<HostRuntime, Counted, Seven, &Refusing<Global>, &Counts>(
            &rt,
            (&alloc, &&alloc, &&counts),
            rt.alloc(),
            (form, own),
        );
        assert_same(&rt, &requests, &wanted);
    }
}
