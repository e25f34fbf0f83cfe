//! Calls that are tried while another client holds a bin.
ghost use Rattle.std.specs.Prelude.{◌≡◌};

use crate::asserts::{assert_same, key};
use crate::steps::{Steps, count_after_two};
use crate::waiting::{Event, OneAfter, compute_at_a};
use crate::words::reply_word;
use bin_history::{KeyArg, Op, Remap};
use chm::Map;
use count_ledger::Pass;
use hashkeys::Key;
use std::alloc::Global;
use std::process::Abort;
use std::sync::Wait;
use test_maps::BOTH;

/// Tries to put 1 at a key. Answers the reply in a word, or that the put was not made.
fn try_put<F: Remap<Key, u64>>(
    rt: &impl Abort,
    map: &Map<Key, u64, F, Global>,
    pass: &mut Pass<Key, u64, F>,
    text: &[u8],
) -> &'static str
    requires pass { pass.old.ledger ≡ map.now.ledger.id }
    ensures { pass.new.ledger ≡ map.now.ledger.id }
{
    match map.try_call(pass, KeyArg::Owned(key(rt, text)), Op::Put(1)) {
        Some(reply) => reply_word(reply),
        None => "not made",
    }
}

/// Client 0 computes at `a`, and holds its bin while its function waits. Client 1 tries a put there
/// meanwhile, which is not made, and one on another bin, which is.
#[derive(Drop)]
struct ComputesAndTries<'e, F> {
    function: &'e F,
    asked: &'e Event,
    event: &'e Event,
}

impl<'e, F: Remap<Key, u64>> Steps<Key, u64, F, Global> for ComputesAndTries<'e, F> {
    type Told = ();

    fn take<R: Wait + Abort>(
        &self,
        rt: &R,
        map: &Map<Key, u64, F, Global>,
        pass: &mut Pass<Key, u64, F>,
    ) {
        if pass.client() == 0 {
            compute_at_a(rt, map, pass, self.function);
        } else {
            self.asked.wait(1);
            let held = try_put(rt, map, pass, b"a");
            let free = try_put(rt, map, pass, b"Aa");
            self.event.done();
            assert_same(rt, &(held, free), &("not made", "none"));
        }
    }
}

#[test]
fn a_call_that_is_tried_is_not_made_where_its_bin_is_held(rt: HostRuntime) {
    for form in BOTH {
        let (asked, event) = (Event::new(), Event::new());
        let function = OneAfter {
            asked: &asked,
            event: &event,
        };
        let steps = ComputesAndTries {
            function: &function,
            asked: &asked,
            event: &event,
        };
        let count = count_after_two(&rt, rt.alloc(), form, 16, &steps);
        assert_same(
            &rt,
            &(asked.given_up(), event.given_up(), count),
            &(0, 0, 2),
        );
    }
}
