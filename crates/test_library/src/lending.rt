//! Passes of a shared map that are lent.
use crate::asserts::assert_same;
use clients::{Add, Fault, Salt, SharedMap};
use std::alloc::Global;

/// A map of up to 65,536 clients lends as many passes as are wanted; the map closes once they are
/// back.
#[test]
fn passes_are_lent_and_brought_back(rt: HostRuntime) {
    let map: SharedMap<u64, u64, Add, Global> = SharedMap::new(rt.alloc(), 16).expect(
        &rt, "no fault",
    );
    let passes = map.lend_passes(4).expect(&rt, "no fault");
    let lent = passes.len();
    map.return_passes(passes);
    assert_same(&rt, &lent, &4);
    let closed = map.close().expect(&rt, "a closed map");
    assert_same(&rt, &closed.mapping_count(), &0);
}

/// A map for two clients lends both passes where four are wanted; they are out until they are back.
#[test]
fn passes_that_are_lent_are_out(rt: HostRuntime) {
    let map: SharedMap<u64, u64, Add, Global> = SharedMap::with_salt(
        rt.alloc(),
        1,
        2,
        Salt(0),
    ).expect(&rt, "no fault");
    let passes = map.lend_passes(4).expect(&rt, "no fault");
    let lent = passes.len();
    let missing = map.client().err();
    let none = map.lend_passes(1);
    map.return_passes(passes);
    let fewer = match none {
        Ok(none) => {
            let fewer = none.len();
            map.return_passes(none);
            fewer
        }
        Err(_) => 9,
    };
    assert_same(&rt, &lent, &2);
    assert_same(&rt, &missing, &Some(Fault::NoClient));
    assert_same(&rt, &fewer, &0);
    let client = map.client().expect(&rt, "a client");
    drop(client);
}
