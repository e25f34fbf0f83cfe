//! Codes of bytes under a seed, and keys that keep them. The codes are the lower halves of SipHash-1-3
//! as Rust's and Python's libraries compute it.
use crate::asserts::assert_same;
use hashkeys::{AsKey, HashKey, MakesKey};
use seeded_keys::{Hashed, Query, Seed};
use std::alloc::{AllocError, Allocator, Global};
use std::io;
use std::process::Abort;
use std::random::RandomSource;
use test_support::Refusing;

/// How many of the bytes 0, 1, 2 and so on, and their code under the seed of the bytes 0 to 15.
const ROWS: [(usize, u32); 8] = [
    (0, 84_919_516),
    (1, 2_102_905_491),
    (7, 2_612_072_768),
    (8, 2_368_313_998),
    (9, 1_812_348_388),
    (15, 709_990_742),
    (16, 2_106_624_870),
    (63, 3_082_531_752),
];

/// The code of the bytes, of their query and of their key.
fn codes_of(rt: &impl Abort, alloc: Global, seed: Seed, bytes: &[u8]) -> [u32; 3] {
    let of_query = code_of(seed.query(bytes));
    [
        seed.code(bytes),
        of_query,
        key(rt, alloc, seed, bytes).hash_code(),
    ]
}

#[test]
fn codes_under_a_seed_are_known(rt: HostRuntime) {
    let seed = Seed::of(0x0706_0504_0302_0100, 0x0f0e_0d0c_0b0a_0908);
    let mut bytes = [0u8; 63];
    for byte in 0..63u8 {
        bytes[byte as usize] = byte;
    }
    for (len, code) in &ROWS {
        let front = bytes.as_slice().get(..*len).expect(&rt, "so many bytes");
        let codes = codes_of(&rt, rt.alloc(), seed, front);
        assert_same(&rt, &(*len, codes), &(*len, [*code; 3]));
    }
}

/// The code of a query, as a map of byte strings asks for it.
fn code_of(query: Query<'_>) -> u32 {
    AsKey::<Hashed<Global>>::key_code(&query)
}

fn key(rt: &impl Abort, alloc: Global, seed: Seed, text: &[u8]) -> Hashed<Global> {
    let room = Vec::from_slice(alloc, text).expect(rt, "memory");
    seed.key(Box::new(alloc, room).expect(rt, "memory"))
}

#[test]
fn keys_that_share_a_plain_code_differ_under_a_seed(rt: HostRuntime) {
    let (first, second) = (Seed::of(0, 0), Seed::of(1, 2));
    let of_first = [first.code(b"AaAaBB"), first.code(b"BBAaBB")];
    let of_second = [second.code(b"AaAaBB"), second.code(b"BBAaBB")];
    let wanted = (
        [1_627_611_258, 2_557_305_604],
        [3_774_494_831, 2_007_832_404],
    );
    assert_same(&rt, &(of_first, of_second), &wanted);
}

/// Whether the key is equal to its copy, and to that of its bytes under another seed, and whether it has these
/// bytes.
fn equals(
    rt: &impl Abort,
    alloc: Global,
    own: &Hashed<Global>,
    other: Seed,
    text: &[u8],
) -> [bool; 3] {
    let copy = own.clone().expect(rt, "memory");
    let second = key(rt, alloc, other, text);
    [*own == copy, *own == second, own.bytes() == text]
}

#[test]
fn a_query_finds_the_key_of_its_seed_alone(rt: HostRuntime) {
    let (first, second) = (Seed::of(0, 0), Seed::of(1, 2));
    let one = key(&rt, rt.alloc(), first, b"AaAaBB");
    let found = [
        first.query(b"AaAaBB").is_key(&one),
        second.query(b"AaAaBB").is_key(&one),
        first.query(b"BBAaBB").is_key(&one),
    ];
    assert_same(&rt, &found, &[true, false, false]);
    let equal = equals(&rt, rt.alloc(), &one, second, b"AaAaBB");
    assert_same(&rt, &equal, &[true, false, true]);
}

/// Whether the key that a query makes has the bytes and their code, where one is made.
fn is_made<A: Allocator + Clone>(alloc: &A, seed: Seed, text: &[u8]) -> Option<bool> {
    let made: Result<Hashed<A>, AllocError> = seed.query(text).make(alloc);
    match made {
        Ok(made) => Some(made.hash_code() == seed.code(text) && made.bytes() == text),
        Err(_) => None,
    }
}

/// At most eighteen bytes lie in the key itself. Out of memory for more, none is made.
#[test]
fn a_query_makes_its_key_and_asks_for_memory_for_long_bytes(rt: HostRuntime) {
    let alloc = Refusing::new(rt.alloc());
    let seed = Seed::of(1, 2);
    let more = b"abcdefghijklmnopqrs".as_slice();
    alloc.refuse_after(0);
    let (empty, eighteen) = (
        is_made(&&alloc, seed, b""),
        is_made(&&alloc, seed, &more[..18]),
    );
    assert_same(
        &rt,
        &(empty, eighteen, alloc.requests()),
        &(Some(true), Some(true), 0),
    );
    let long = [is_made(&&alloc, seed, more), is_made(&&alloc, seed, more)];
    assert_same(&rt, &long, &[None, Some(true)]);
}

/// A seed of the system.
fn random(rt: &(impl Abort + RandomSource)) -> Seed {
    Seed::random(rt).expect(rt, "memory")
}

#[test]
fn two_seeds_of_the_system_differ(rt: HostRuntime) {
    assert!(rt; random(&rt) != random(&rt));
}

/// A source that gives the bytes from a number on, one after the other.
#[derive(Drop)]
struct Counting {
    first: u8,
}

impl RandomSource for Counting {
    fn fill_bytes(&self, buf: &mut [u8]) -> io::Result<()> {
        let mut next = self.first;
        for byte in buf.iter_mut() {
            *byte = next;
            next = next.wrapping_add(1);
        }
        Ok(())
    }
}

/// The number that a source begins with, and both halves of its seed.
const HALVES: [(u8, u64, u64); 2] = [
    (0, 0x0706_0504_0302_0100, 0x0f0e_0d0c_0b0a_0908),
    (0x80, 0x8786_8584_8382_8180, 0x8f8e_8d8c_8b8a_8988),
];

/// The first half is of the first eight bytes that the source gives, and the second of the next eight,
/// least byte first.
#[test]
fn each_half_of_a_seed_is_of_bytes_of_its_own(rt: HostRuntime) {
    for (first, low, high) in &HALVES {
        let seed = Seed::random(&Counting { first: *first }).expect(&rt, "bytes");
        let is_same = seed == Seed::of(*low, *high);
        assert_same(&rt, &(*first, is_same), &(*first, true));
    }
}
