//! Numbers under a seed. What they lie under is computed by hand.
use crate::asserts::assert_same;
use hashkeys::Salt;
use seeded_keys::NumberSeed;
use std::alloc::Global;
use std::process::Abort;

#[test]
fn numbers_under_a_seed_are_known(rt: HostRuntime) {
    let seed = NumberSeed::of(4, 3);
    // (0 ^ 3) * 5 is 15, whose upper half is 0.
    // (2^32 ^ 3) * 5 is 5 * 2^32 + 15, and 15 ^ 5 is 10.
    // ((2^64 - 1) ^ 3) * 5 is 2^64 - 20 in 64 bits, whose upper half is all ones.
    let found = [seed.mix(0), seed.mix(0x1_0000_0000), seed.mix(u64::MAX)];
    assert_same(&rt, &found, &[15, 0x5_0000_000a, 0xffff_ffff_0000_0013]);
}

const NUMBERS: [u64; 8] = [
    0,
    1,
    2,
    1 << 31,
    1 << 32,
    1 << 63,
    0x0123_4567_89ab_cdef,
    u64::MAX,
];

#[test]
fn a_number_under_a_seed_comes_back(rt: HostRuntime) {
    for first in &NUMBERS {
        let seed = NumberSeed::of(*first, 0xfedc_ba98_7654_3210);
        for number in &NUMBERS {
            let found = (*first, seed.unmix(seed.mix(*number)));
            assert_same(&rt, &found, &(*first, *number));
        }
    }
}

#[test]
fn the_factor_of_a_seed_is_its_first_number_made_odd(rt: HostRuntime) {
    let mut number = 2u64;
    for _ in 0..200 {
        let factor = number | 1;
        let found = NumberSeed::of(number, 0).mix(1);
        assert_same(&rt, &(number, found), &(number, factor ^ (factor >> 32)));
        number = number.wrapping_mul(0x5851_f42d_4c95_7f2d).wrapping_add(1);
    }
}

/// How many keys 4,096 inserts into 2,048 buckets pass: each passes those that are in its bucket. The keys
/// are the products of the factor and the numbers from the first on.
fn passed(rt: &impl Abort, alloc: Global, seed: NumberSeed, factor: u64, first: u64) -> u64 {
    let mut counts = Vec::new(alloc);
    for _ in 0..2048 {
        counts.push(0u64).expect(rt, "memory");
    }
    let mut passed = 0u64;
    for i in 0..4096u64 {
        let number = factor.wrapping_mul(first.wrapping_add(i));
        let bucket = Salt(0).hash_of(&seed.mix(number)) % 2048;
        let count = counts.get_mut(bucket as usize).expect(rt, "a bucket");
        passed = passed.saturating_add(*count);
        *count = count.saturating_add(1);
    }
    passed
}

/// 2^64 over the golden ratio, by which a map multiplies keys, times this is 1: keys that a map without a
/// seed has in one bucket are multiples of it.
const INVERSE: u64 = 0xf1de_83e1_9937_733d;

/// Keys by their factor and the first number that it multiplies. A map without a seed has those of the
/// first row in one bucket. Those of the other rows differ in their upper bits alone.
const CHOSEN: [(u64, u64); 3] = [(INVERSE, 7 << 32), (1 << 32, 0), (1 << 50, 0)];

#[test]
fn chosen_numbers_share_buckets_no_more_than_others(rt: HostRuntime) {
    // The digits of pi.
    let seed = NumberSeed::of(0x243f_6a88_85a3_08d3, 0x1319_8a2e_0370_7344);
    let plain = passed(&rt, rt.alloc(), seed, 1, 0);
    let most = plain.saturating_add(plain / 2);
    for (factor, first) in &CHOSEN {
        let found = passed(&rt, rt.alloc(), seed, *factor, *first);
        assert_same(&rt, &(*factor, found <= most), &(*factor, true));
    }
}
