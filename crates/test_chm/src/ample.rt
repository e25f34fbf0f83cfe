//! Maps that are opened with pairs, and bins whose keys have one hash, of 1, 2, 4, .. 4,096 keys with
//! memory for all: nothing is refused at any size.
use crate::runs::run_rows;

/// The form, for how many bins the first map is opened, how many keys are put, each with its number, how
/// many bins the second one has, and the sum of the values of each.
///
/// The second has the least table with room for them: in a recorded map of twice as many bins as keys; in a
/// lean one of eight times as many up to 256, and then of as many.
const OPENED: &str = "
    recorded 1 1 2 0
    recorded 1 1 2 0
    recorded 1 2 4 1
    recorded 2 2 4 1
    recorded 1 4 8 6
    recorded 4 4 8 6
    recorded 1 8 16 28
    recorded 8 8 16 28
    recorded 1 16 32 120
    recorded 16 16 32 120
    recorded 1 32 64 496
    recorded 32 32 64 496
    recorded 1 64 128 2016
    recorded 64 64 128 2016
    recorded 1 128 256 8128
    recorded 128 128 256 8128
    recorded 1 256 512 32640
    recorded 256 256 512 32640
    recorded 1 512 1024 130816
    recorded 512 512 1024 130816
    recorded 1 1024 2048 523776
    recorded 1024 1024 2048 523776
    recorded 1 2048 4096 2096128
    recorded 2048 2048 4096 2096128
    recorded 1 4096 8192 8386560
    recorded 4096 4096 8192 8386560
    lean 1 1 8 0
    lean 1 1 8 0
    lean 1 2 16 1
    lean 2 2 16 1
    lean 1 4 32 6
    lean 4 4 32 6
    lean 1 8 64 28
    lean 8 8 64 28
    lean 1 16 128 120
    lean 16 16 128 120
    lean 1 32 256 496
    lean 32 32 256 496
    lean 1 64 256 2016
    lean 64 64 256 2016
    lean 1 128 256 8128
    lean 128 128 256 8128
    lean 1 256 256 32640
    lean 256 256 256 32640
    lean 1 512 512 130816
    lean 512 512 512 130816
    lean 1 1024 1024 523776
    lean 1024 1024 1024 523776
    lean 1 2048 2048 2096128
    lean 2048 2048 2048 2096128
    lean 1 4096 4096 8386560
    lean 4096 4096 4096 8386560
";

#[test]
fn a_map_opens_with_pairs_of_any_number_where_there_is_memory(rt: HostRuntime) {
    run_rows(
        &rt,
        rt.alloc(),
        "open $0 $1 1
        numbers 0 $2
        close
        keys = $2
        reopen 1
        close
        bins = $3
        take = $2 $4",
        OPENED,
    );
}

/// How many bins a map of one bin has once 1, 2, 4, .. 4,096 keys were put. A recorded one has
/// twice as many bins as keys. A lean one grows at a key to four bins while it has fewer than 256, and
/// then at three keys to two; 8, 16 and 32 keys are put while 16 bins more are moved at each put.
const GROWN: &str = "
    recorded 2 4 8 16 32 64 128 256 512 1024 2048 4096 8192
    lean 2 4 16 48 80 144 256 256 256 512 1024 2048 4096
";

#[test]
fn a_bin_has_keys_of_any_number_where_there_is_memory(rt: HostRuntime) {
    run_rows(
        &rt,
        rt.alloc(),
        "open $0 1 1
        twins 12 0 1
        walk = $1 1 0
        twins 12 1 2
        walk = $2 2 1
        twins 12 2 4
        walk = $3 4 6
        twins 12 4 8
        walk = $4 8 28
        twins 12 8 16
        walk = $5 16 120
        twins 12 16 32
        walk = $6 32 496
        twins 12 32 64
        walk = $7 64 2016
        twins 12 64 128
        walk = $8 128 8128
        twins 12 128 256
        walk = $9 256 32640
        twins 12 256 512
        walk = $10 512 130816
        twins 12 512 1024
        walk = $11 1024 523776
        twins 12 1024 2048
        walk = $12 2048 2096128
        twins 12 2048 4096
        walk = $13 4096 8386560
        close
        keys = 4096
        reopen 1
        close
        take = 4096 8386560",
        GROWN,
    );
}
