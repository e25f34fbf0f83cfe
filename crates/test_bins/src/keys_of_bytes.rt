//! Keys of bytes, of which the short ones lie in themselves.
use crate::asserts::assert_same;
use hashkeys::{AsKey, Bytes, HashKey};
use seeded_keys::{Hashed, Padded, Seed, ShortBytes};
use std::alloc::{Allocator, Global};
use std::process::Abort;
use test_support::Refusing;

/// The bytes 1, 2, 3 and so on.
const COUNTED: [u8; 66] = [
    1, 2, 3, 4, 5, 6, 7, 8, 9, 10, 11, 12, 13, 14, 15, 16, 17, 18, 19, 20, 21, 22, 23, 24, 25, 26,
    27, 28, 29, 30, 31, 32, 33, 34, 35, 36, 37, 38, 39, 40, 41, 42, 43, 44, 45, 46, 47, 48, 49, 50,
    51, 52, 53, 54, 55, 56, 57, 58, 59, 60, 61, 62, 63, 64, 65, 66,
];

/// So many bytes, and how many blocks a clone of their key takes: none where they lie inline.
const LENGTHS: [(u8, u64); 15] = [
    (0, 0),
    (1, 0),
    (16, 0),
    (17, 0),
    (18, 0),
    (19, 1),
    (24, 1),
    (25, 1),
    (32, 1),
    (33, 1),
    (48, 1),
    (49, 1),
    (64, 1),
    (65, 2),
    (66, 2),
];

/// The seed of the keys here.
fn seed() -> Seed {
    Seed::of(3, 4)
}

fn key<A: Allocator + Copy>(rt: &impl Abort, alloc: A, bytes: &[u8]) -> Hashed<A> {
    let room = bytes.to_vec(alloc).expect(rt, "memory");
    seed().key(Box::new(alloc, room).expect(rt, "memory"))
}

/// The first so many of the counted bytes.
fn counted(len: u8) -> &'static [u8] {
    let (front, _) = COUNTED.as_slice().split_at((len as usize).min(66));
    front
}

/// Whether bytes that lie inline are those given, as a key of their own and as the key.
fn inline(own: &Hashed<Global>, given: &[u8]) -> Option<[bool; 2]> {
    match seed().short_key::<Global>(given) {
        Some(short) => Some([short.bytes() == given, short == *own]),
        None => None,
    }
}

/// Whether the room of a key has the bytes given.
fn room(own: Hashed<Global>, given: &[u8]) -> Option<bool> {
    match own.into_room() {
        Some(room) => Some(room.as_slice() == given),
        None => None,
    }
}

#[test]
fn up_to_eighteen_bytes_lie_inline(rt: HostRuntime) {
    for (len, blocks) in &LENGTHS {
        let given = counted(*len);
        let own = key(&rt, rt.alloc(), given);
        let found = (own.bytes() == given, inline(&own, given), room(own, given));
        let wanted = if *blocks == 0 {
            (true, Some([true; 2]), None)
        } else {
            (true, None, Some(true))
        };
        assert_same(&rt, &(*len, found), &(*len, wanted));
    }
}

#[test]
fn short_bytes_have_as_many_as_their_type_says(rt: HostRuntime) {
    for (len, wanted) in [(4, Some([true; 2])), (5, Some([true; 2])), (6, None)] {
        let found = match ShortBytes::<5>::copy_of(counted(len)) {
            Some(short) => {
                let copy = short.clone().expect(&rt, "no request");
                Some([short.bytes() == counted(len), copy.bytes() == counted(len)])
            }
            None => None,
        };
        assert_same(&rt, &(len, found), &(len, wanted));
    }
}

#[test]
fn padded_bytes_have_zeros_behind_them(rt: HostRuntime) {
    let padded = Padded::<5>::copy_of(b"\x01\x02\x03".as_slice());
    assert_same(&rt, &padded.front(3), &b"\x01\x02\x03".as_slice());
    assert_same(&rt, &padded.front(5), &b"\x01\x02\x03\0\0".as_slice());
}

/// Whether a clone is made where the next request is refused, and whether there was one. What comes after
/// it is granted.
fn refused_clone<A: Allocator + Clone>(switch: &Refusing<Global>, own: &Hashed<A>) -> (bool, bool) {
    switch.refuse_after(0);
    let is_made = own.clone().is_ok();
    (is_made, switch.has_refused())
}

/// What is found of a clone and of its clone: whether both are as the key and the latter has the bytes
/// given, the codes of both, how many blocks are out with them, and whether the latter has room.
type Clones = ([bool; 3], [u32; 2], u64, bool);

fn clones<A: Allocator + Clone>(
    rt: &impl Abort,
    switch: &Refusing<Global>,
    own: &Hashed<A>,
    given: &[u8],
) -> Clones {
    let same = own.clone().expect(rt, "memory");
    let again = same.clone().expect(rt, "memory");
    let equal = [same == *own, again == *own, again.bytes() == given];
    let codes = [same.hash_code(), again.hash_code()];
    let blocks = switch.blocks_out();
    (equal, codes, blocks, again.into_room().is_some())
}

/// Asserts that clones of a key of so many bytes take so many blocks each.
fn assert_clones<A: Allocator + Copy>(
    rt: &impl Abort,
    switch: &Refusing<Global>,
    alloc: A,
    len: u8,
    blocks: u64,
) {
    let given = counted(len);
    let own = key(rt, alloc, given);
    let before = switch.blocks_out();
    let refused = refused_clone(switch, &own);
    let found = clones(rt, switch, &own, given);
    switch.refuse_after(9);
    let is_inline = blocks == 0;
    let own_blocks = if is_inline { 0 } else { 2 };
    let first = (len, before, refused);
    assert_same(rt, &first, &(len, own_blocks, (is_inline, !is_inline)));
    let both = own_blocks.wrapping_add(blocks.wrapping_mul(2));
    let wanted = ([true; 3], [own.hash_code(); 2], both, blocks == 2);
    assert_same(rt, &(len, found), &(len, wanted));
}

#[test]
fn clones_of_long_keys_alone_take_memory(rt: HostRuntime) {
    let alloc = Refusing::new(rt.alloc());
    for (len, blocks) in &LENGTHS {
        assert_clones(&rt, &alloc, &alloc, *len, *blocks);
    }
    assert_same(&rt, &alloc.blocks_out(), &0);
}

/// Whether a look-up by the bytes finds the key.
fn is_found<A: Allocator + Clone>(bytes: &[u8], key: &Hashed<A>) -> bool {
    seed().query(bytes).is_key(key)
}

/// Whether the keys of two texts are equal, as they are made, as they are stored and as a look-up compares
/// them.
fn are_equal(rt: &impl Abort, alloc: Global, one: &[u8], other: &[u8]) -> bool {
    let (first, second) = (key(rt, alloc, one), key(rt, alloc, other));
    let stored = second.clone().expect(rt, "memory");
    let is_equal = first == second;
    let found = [
        first == stored,
        is_found(one, &second),
        is_found(one, &stored),
        is_found(other, &first),
    ];
    assert_same(rt, &found, &[is_equal; 4]);
    is_equal
}

/// Two texts, and whether they are equal: what lies after the bytes of a short text is 0.
const TEXTS: [(&[u8], &[u8], bool); 7] = [
    (b"", b"\0", false),
    (b"a\0", b"a", false),
    (&[0; 17], &[0; 18], false),
    (&[0; 18], &[0; 19], false),
    (&[0; 23], &[0; 24], false),
    (&[0; 24], &[0; 25], false),
    (&[0; 18], &[0; 18], true),
];

#[test]
fn keys_are_equal_to_those_of_the_same_bytes_alone(rt: HostRuntime) {
    let mut others = COUNTED;
    for len in 0..66u8 {
        let end = len as usize;
        others[end] = 77;
        let found = [
            are_equal(&rt, rt.alloc(), counted(len), counted(len)),
            are_equal(&rt, rt.alloc(), counted(len), counted(len + 1)),
            are_equal(&rt, rt.alloc(), counted(len + 1), &others[..end + 1]),
        ];
        others[end] = COUNTED[end];
        assert_same(&rt, &(len, found), &(len, [true, false, false]));
    }
    for (one, other, wanted) in &TEXTS {
        let found = are_equal(&rt, rt.alloc(), one, other);
        assert_same(&rt, &(one.len(), found), &(one.len(), *wanted));
    }
}

/// Bytes and their plain code: of a byte 1 before so many bytes 0, the power of 31 with that exponent,
/// modulo 2^32.
const CODES: [(&[u8], u32); 9] = [
    (b"", 0),
    (b"Aa", 2112),
    (b"\x01\0\0\0\0", 923_521),
    (b"\x01\0\0\0\0\0\0\0", 1_742_810_335),
    (b"\x01\0\0\0\0\0\0\0\0", 2_487_512_833),
    (b"\x01\0\0\0\0\0\0\0\0\0\0\0", 129_082_719),
    (
        b"\0\0\0\0\0\0\0\0\0\0\0\0\0\0\0\0\0\0\0\0\0\0\0\0\0\0\0\0\0\x01",
        1,
    ),
    (
        b"\0\0\0\0\0\0\0\0\0\0\0\0\0\0\0\0\0\0\0\0\0\0\0\0\0\0\0\0\0\x01\0",
        31,
    ),
    (
        b"\x01\0\0\0\0\0\0\0\0\0\0\0\0\0\0\0\0\0\0\0\0\0\0\0\0\0\0\0\0\0\0",
        350_799_937,
    ),
];

#[test]
fn plain_codes_of_bytes_are_known(rt: HostRuntime) {
    for (bytes, code) in &CODES {
        assert_same(
            &rt,
            &(bytes.len(), Bytes(bytes).hash_code()),
            &(bytes.len(), *code),
        );
    }
}
