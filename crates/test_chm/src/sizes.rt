//! What may be refused memory, at each power of two of a map's entries and with ample memory.
use crate::runs::run_rows;

/// How many keys there are, and the sum of their values.
const SIZES: &str = "
    1 0
    2 1
    4 6
    8 28
    16 120
    32 496
    64 2016
    128 8128
    256 32640
    512 130816
    1024 523776
    2048 2096128
    4096 8386560
    8192 33550336
    16384 134209536
    32768 536854528
    65536 2147450880
";

#[test]
fn recorded_maps_of_each_size_have_their_memory(rt: HostRuntime) {
    run_rows(
        &rt,
        rt.alloc(),
        "open recorded 1 1
        numbers 0 $0
        walk_entries = $0
        close
        keys = $0
        take = $0 $1",
        SIZES,
    );
}

#[test]
fn lean_maps_of_each_size_have_their_memory(rt: HostRuntime) {
    run_rows(
        &rt,
        rt.alloc(),
        "open lean 1 1
        numbers 0 $0
        walk_entries = $0
        close
        keys = $0
        take = $0 $1",
        SIZES,
    );
}
