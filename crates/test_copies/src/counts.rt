//! What a map counts once its clients are done.
ghost use Rattle.std.specs.Prelude.{◌≡◌, All};

use crate::asserts::assert_same;
use crate::away::Away;
use crate::steps::{Steps, take_all};
use bin_history::{Form, Reply};
use chm::Map;
use count_ledger::Pass;
use std::alloc::Global;
use std::process::Abort;
use std::sync::Wait;
use std::thread::Threads;
use test_maps::{BOTH, close, open};

type NumberMap = Map<u32, u64, Away, Global>;

type NumberPass = Pass<u32, u64, Away>;

/// Client 0 puts one key, and each other one more than the client before.
#[derive(Drop)]
struct PutsSome;

impl Steps<u32, u64, Away, Global> for PutsSome {
    type Told = ();

    fn take<R: Wait + Abort>(&self, rt: &R, map: &NumberMap, pass: &mut NumberPass) {
        let client = pass.client();
        for number in 0..client.saturating_add(1) {
            let key = client.saturating_mul(64).saturating_add(number);
            let reply = map.put(rt, pass, key, u64::from(client));
            assert!(rt; reply == Ok(Reply::Value(None)));
        }
    }
}

/// Each client removes half of the keys that another put: client 31 those of client 0, and so on.
#[derive(Drop)]
struct RemovesHalf;

impl Steps<u32, u64, Away, Global> for RemovesHalf {
    type Told = ();

    fn take<R: Wait + Abort>(&self, rt: &R, map: &NumberMap, pass: &mut NumberPass) {
        let client = 31u32.saturating_sub(pass.client());
        for number in 0..client.saturating_add(1) / 2 {
            let key = client.saturating_mul(64).saturating_add(number);
            let reply = map.remove(rt, pass, key);
            assert!(rt; reply == Ok(Reply::Value(Some(u64::from(client)))));
        }
    }
}

/// Lets each client put keys, and then remove half of those of another. Answers how many keys the map
/// counts after the puts, how many the passes count together then, and how many the map counts after
/// the removes.
fn put_and_remove<R: Threads + Wait + Abort + Sync>(
    rt: &R,
    map: &NumberMap,
    passes: &mut [NumberPass],
) -> [u64; 3]
    requires { All (λ p. p.ledger ≡ map.now.ledger.id) passes.old }
    ensures { All (λ p. p.ledger ≡ map.now.ledger.id) passes.new }
{
    take_all(rt, map, passes, &PutsSome);
    let with_all = map.mapping_count();
    assert!(rt; passes.len() == map.clients() as usize);
    let of_passes = map.mapping_count_all(passes);
    take_all(rt, map, passes, &RemovesHalf);
    [with_all, of_passes, map.mapping_count()]
}

/// Lets 32 clients put and remove keys. Answers how many keys the map counts after the puts, how many
/// the passes count then, and how many the map counts after the removes, and once it is closed.
fn count_clients<R: Threads + Wait + Abort + Sync>(rt: &R, alloc: Global, form: Form) -> [u64; 4] {
    let (map, mut passes) = open::<u32, u64, Away, Global>(alloc, form, 16, 32).expect(rt, "a map");
    let [with_all, of_passes, with_half] = put_and_remove(rt, &map, &mut passes);
    let closed = close(map, passes).expect(rt, "a closed map");
    [with_all, of_passes, with_half, closed.mapping_count()]
}

#[test]
fn clients_that_are_done_are_all_counted(rt: HostRuntime) {
    // One key and two and so on up to 32; and of each number the lower half away.
    for form in BOTH {
        let counted = count_clients(&rt, rt.alloc(), form);
        assert_same(&rt, &counted, &[528, 528, 272, 272]);
    }
}
