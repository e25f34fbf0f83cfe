//! Codes, spreads, slots and classes of known keys.
ghost use Rattle.std.specs.Prelude.{◌<◌};

use crate::asserts::{assert_same, key};
use crate::rows::sixteenth;
use hashkeys::{HashKey, Key, Salt, spread};
use std::cmp::Ordering;
use std::process::Abort;

/// The text of a key, and then a salt, the key's code, the code's spread, the key's hash under the salt, and
/// the hash's slots of 16, 32 and 4,096.
type Row = (&'static [u8], [u32; 7]);

const ROWS: [Row; 13] = [
    (b"a", [0, 97, 97, 97, 1, 1, 97]),
    (b"q", [0, 113, 113, 113, 1, 17, 113]),
    (b"Aa", [0, 2112, 2112, 2112, 0, 0, 2112]),
    (b"BB", [0, 2112, 2112, 2112, 0, 0, 2112]),
    (
        b"zzzzzz",
        [0, 3_609_181_632, 0x571F_6ADF, 0x571F_6ADF, 15, 31, 2783],
    ),
    (
        b"zzzzzzz",
        [0, 215_481_018, 0x0CD7_F66D, 0x0CD7_F66D, 13, 13, 1645],
    ),
    (b"a", [1, 97, 97, 96, 0, 0, 96]),
    (b"q", [1, 113, 113, 112, 0, 16, 112]),
    (b"Aa", [1, 2112, 2112, 2113, 1, 1, 2113]),
    (
        b"zzzzzz",
        [1, 3_609_181_632, 0x571F_6ADF, 0x571F_6ADE, 14, 30, 2782],
    ),
    (b"a", [2_147_483_648, 97, 97, 0x0000_8061, 1, 1, 97]),
    (b"q", [2_147_483_648, 113, 113, 0x0000_8071, 1, 17, 113]),
    (
        b"zzzzzz",
        [
            2_147_483_648,
            3_609_181_632,
            0x571F_6ADF,
            0x571F_EADF,
            15,
            31,
            2783,
        ],
    ),
];

/// The numbers of the key of the text under the salt, as a row has them.
fn numbers_of(rt: &impl Abort, text: &[u8], salt: u32) -> [u32; 7] {
    let key = Key::read(text).expect(rt, "a key");
    let hash = Salt(salt).hash_of(&key);
    assert!(rt; key.bytes() == text);
    let code = key.hash_code();
    [
        salt,
        code,
        spread(code),
        hash,
        hash % 16,
        hash % 32,
        hash % 4096,
    ]
}

#[test]
fn known_codes_spreads_hashes_and_slots(rt: HostRuntime) {
    for (text, wanted) in &ROWS {
        assert_same(&rt, &numbers_of(&rt, text, wanted[0]), wanted);
    }
}

/// A hash, and whether a class of 16, its low half and its high half cover it.
const COVERED: [(u32, [bool; 3]); 3] = [
    (97, [true, true, false]),
    (113, [true, false, true]),
    (2112, [false, false, false]),
];

#[test]
fn a_class_covers_its_hashes_in_one_half(rt: HostRuntime) {
    let class = sixteenth();
    let (low, high) = class.halves();
    let sizes = [class.n(), low.n(), high.n()];
    assert_same(&rt, &sizes, &[16, 32, 32]);
    let indices = [class.index(), low.index(), high.index()];
    assert_same(&rt, &indices, &[1, 1, 17]);
    for row in &COVERED {
        let hash = row.0;
        let found = [class.covers(hash), low.covers(hash), high.covers(hash)];
        assert_same(&rt, &(hash, found), row);
    }
}

/// A byte, and whether it may stand in a key.
const BYTES: [(u8, bool); 23] = [
    (b'0', true),
    (b'9', true),
    (b'A', true),
    (b'Z', true),
    (b'a', true),
    (b'z', true),
    (b'_', true),
    (0, false),
    (9, false),
    (10, false),
    (13, false),
    (32, false),
    (45, false),
    (47, false),
    (58, false),
    (64, false),
    (91, false),
    (94, false),
    (96, false),
    (123, false),
    (127, false),
    (128, false),
    (255, false),
];

/// Whether the bytes are a key, which has them then.
fn is_key(bytes: &[u8]) -> bool {
    match Key::read(bytes) {
        Some(key) => key.bytes() == bytes,
        None => false,
    }
}

/// Whether a byte is a key alone, and with two others, before, between and behind them.
fn are_keys(byte: u8) -> [bool; 4] {
    [
        is_key(&[byte]),
        is_key(&[byte, b'a', b'Z']),
        is_key(&[b'0', byte, b'9']),
        is_key(&[b'A', b'z', byte]),
    ]
}

#[test]
fn other_bytes_are_no_key(rt: HostRuntime) {
    for (byte, wanted) in &BYTES {
        assert_same(&rt, &(*byte, are_keys(*byte)), &(*byte, [*wanted; 4]));
    }
    let found = [is_key(&[b'_'; 32]), is_key(b""), is_key(&[b'_'; 33])];
    assert_same(&rt, &found, &[true, false, false]);
}

/// Texts of keys in their order: digits, capitals, `_`, small letters; and a key before those that it
/// begins.
const ORDERED: [&[u8]; 11] = [
    b"0",
    b"9",
    b"A",
    b"AA",
    b"B",
    b"_",
    b"__",
    &[b'_'; 32],
    b"a",
    b"zzzzzz",
    b"zzzzzzz",
];

/// How the keys of two texts compare, whether the first is below the other, and whether a copy of the first
/// is equal to the other.
fn compared(rt: &impl Abort, text: &[u8], other: &[u8]) -> (Ordering, bool, bool) {
    let (first, second) = (key(rt, text), key(rt, other));
    let copy = first.clone().expect(rt, "memory");
    (first.cmp(&second), first < second, copy == second)
}

#[test]
fn keys_stand_in_byte_order(rt: HostRuntime) {
    for pair in 0..121usize {
        let (i, j) = (pair / 11, pair % 11);
        let found = compared(&rt, ORDERED[i], ORDERED[j]);
        assert_same(&rt, &(i, j, found), &(i, j, (i.cmp(&j), i < j, i == j)));
    }
}

/// The most of 256 numbers, each shifted to the left by so many bits, that are in one of 256 slots.
fn most_in_a_slot(shift: u32) -> u8
    requires { shift < 64 }
{
    let mut slots = [0u8; 256];
    let mut most = 0u8;
    for i in 0..256u64 {
        let slot = (Salt(0).hash_of(&(i << shift)) % 256) as usize;
        let count = slots[slot].saturating_add(1);
        slots[slot] = count;
        most = most.max(count);
    }
    most
}

#[test]
fn numbers_that_differ_in_upper_bits_lie_apart(rt: HostRuntime) {
    let found = [
        most_in_a_slot(0) < 8,
        most_in_a_slot(16) < 8,
        most_in_a_slot(32) < 8,
        most_in_a_slot(48) < 8,
    ];
    assert_same(&rt, &found, &[true; 4]);
}
