//! Codes of numbers at each width, of bytes and text, and of keys that are made of others.
use crate::asserts::assert_same;
use hashkeys::{AsKey, ByteString, Bytes, HashKey, MakesKey, Text};
use std::alloc::Global;
use std::process::Abort;

/// Whether what a key is looked up by has the key's code and is found to be the key.
fn stands_for<K: HashKey, Q: AsKey<K>>(query: Q, key: &K) -> bool {
    query.key_code() == key.hash_code() && query.is_key(key)
}

#[test]
fn numbers_have_known_codes(rt: HostRuntime) {
    let codes = [
        0u64.hash_code(),
        1u64.hash_code(),
        1u32.hash_code(),
        2u64.hash_code(),
        0x1_0000_0000u64.hash_code(),
    ];
    assert_same(
        &rt,
        &codes,
        &[0, 0x9e37_79b9, 0x9e37_79b9, 0x3c6e_f372, 0x7f4a_7c15],
    );
}

#[test]
fn a_number_has_one_code_at_each_width(rt: HostRuntime) {
    let codes = [
        5u64.hash_code(),
        5u32.hash_code(),
        5usize.hash_code(),
        5i64.hash_code(),
        5i32.hash_code(),
    ];
    assert_same(&rt, &codes, &[0x1715_609f; 5]);
    // of -1, the upper half of 2^64 less the multiplier
    let codes = [
        (-1i64).hash_code(),
        (-1i32).hash_code(),
        (-2i32).hash_code(),
    ];
    assert_same(&rt, &codes, &[0x61c8_8646, 0x61c8_8646, 0xc391_0c8d]);
}

#[test]
fn pairs_have_known_codes(rt: HostRuntime) {
    let codes = [
        (0u64, 0u64).hash_code(),
        (0u64, 1u64).hash_code(),
        (1u64, 0u64).hash_code(),
        (1u64, 2u64).hash_code(),
        (2u32, 1i64).hash_code(),
    ];
    assert_same(
        &rt,
        &codes,
        &[0, 0x3209_f5cc, 0xcffc_982d, 0xb4c6_07b1, 0xd203_2626],
    );
    let codes = [
        ((1u64, 2u64), 3u64).hash_code(),
        ((3u64, 2u64), 1u64).hash_code(),
        (Bytes(b"Aa"), 1u32).hash_code(),
        // a number of 128 bits as the pair of its halves
        0x1_0000_0000_0000_0002u128.hash_code(),
        [65u8, 97].hash_code(),
    ];
    assert_same(
        &rt,
        &codes,
        &[0x7d2d_3c8f, 0x3b55_3c6c, 0x5889_a30c, 0xb4c6_07b1, 2112],
    );
}

/// The bytes `BB`, as a key.
fn twice_b(rt: &impl Abort, alloc: Global) -> ByteString<Global> {
    ByteString::new([66u8, 66].to_vec(alloc).expect(rt, "memory"))
}

/// Whether what two keys are looked up by stands for the pair of them.
fn stand_for<K: HashKey, L: HashKey, Q: AsKey<K>, R: AsKey<L>>(
    one: Q,
    other: R,
    key: &(K, L),
) -> bool {
    stands_for((one, other), key)
}

/// A key that is a pair, of which a part is a pair itself.
type Nested = ((ByteString<Global>, u32), u64);

/// Whether the parts stand for the key.
fn are_parts(bytes: &[u8], number: u32, last: u64, key: &Nested) -> bool {
    stand_for((bytes, &number), &last, key)
}

#[test]
fn a_pair_is_looked_up_by_its_parts(rt: HostRuntime) {
    let key = ((twice_b(&rt, rt.alloc()), 7u32), 9u64);
    let found = [
        stands_for(&key, &key),
        are_parts(b"BB", 7, 9, &key),
        // the code is that of the key, the bytes are not
        are_parts(b"Aa", 7, 9, &key),
        are_parts(b"BB", 9, 7, &key),
    ];
    assert_same(&rt, &found, &[true, true, false, false]);
}

/// Whether the text stands for the key.
fn is_text(text: &str, key: &Text<Global>) -> bool {
    stands_for(text, key)
}

/// The key of a text.
fn text_key(rt: &impl Abort, alloc: Global, text: &str) -> Text<Global> {
    Text::new(String::from_str(alloc, text).expect(rt, "memory"))
}

/// The code of a copy of the key, and whether the copy and its text are as they are to be.
fn copied_text(rt: &impl Abort, key: &Text<Global>, text: &str) -> (u32, [bool; 2]) {
    let copy = key.clone().expect(rt, "memory");
    (copy.hash_code(), [copy == *key, copy.as_str() == text])
}

#[test]
fn text_is_a_key(rt: HostRuntime) {
    let key = text_key(&rt, rt.alloc(), "é");
    // two bytes, 195 and 169
    assert_same(&rt, &copied_text(&rt, &key, "é"), &(6214, [true; 2]));
    let stand = [is_text("é", &key), is_text("e", &key)];
    assert_same(&rt, &stand, &[true, false]);
    assert!(rt; key.into_string().as_str() == "é");
}

/// The code of a copy of the key, and whether the copy and its bytes are as they are to be.
fn copied_bytes(rt: &impl Abort, key: &ByteString<Global>, bytes: &[u8]) -> (u32, [bool; 2]) {
    let copy = key.clone().expect(rt, "memory");
    (copy.hash_code(), [copy == *key, copy.bytes() == bytes])
}

#[test]
fn byte_strings_are_keys(rt: HostRuntime) {
    let key = twice_b(&rt, rt.alloc());
    assert_same(&rt, &copied_bytes(&rt, &key, b"BB"), &(2112, [true; 2]));
    assert!(rt; key.into_bytes().as_slice() == b"BB".as_slice());
    let (one, other) = (Bytes(b"Aa"), Bytes(b"BB"));
    assert!(rt; one.hash_code() == 2112 && one != other);
}

/// The pair of keys that is made of what stands for each.
fn made<K: HashKey, L: HashKey, Q: MakesKey<K, Global>, R: MakesKey<L, Global>>(
    rt: &impl Abort,
    alloc: Global,
    one: Q,
    other: R,
) -> (K, L) {
    (one, other).make(&alloc).expect(rt, "memory")
}

#[test]
fn a_key_is_made_of_what_stands_for_it(rt: HostRuntime) {
    let own: (ByteString<Global>, Text<Global>) = made(&rt, rt.alloc(), b"BB".as_slice(), "é");
    assert!(rt; own.0.bytes() == b"BB".as_slice() && own.1.as_str() == "é");
    let borrowed: (Bytes<'_>, u32) = made(&rt, rt.alloc(), own.0.bytes(), &7u32);
    assert!(rt; borrowed.0.0 == b"BB".as_slice() && borrowed.1 == 7);
}

/// How many of some numbers are there before already.
fn collisions(numbers: &mut [u32]) -> u32 {
    numbers.sort_unstable();
    let mut before = None;
    let mut count = 0u32;
    for number in numbers.iter() {
        if before == Some(*number) {
            count = count.saturating_add(1);
        }
        before = Some(*number);
    }
    count
}

/// How many codes of keys are there twice, of each two numbers below 100 in either order: those of their
/// pairs, or of the numbers of 128 bits of which they are the halves.
fn codes_twice(rt: &impl Abort, alloc: Global, are_halves: bool) -> u32 {
    let mut codes = Vec::new(alloc);
    for number in 0..10_000u64 {
        let (i, j) = (number / 100, number % 100);
        let code = if are_halves {
            ((u128::from(i) << 64) | u128::from(j)).hash_code()
        } else {
            (i, j).hash_code()
        };
        codes.push(code).expect(rt, "memory");
    }
    collisions(&mut codes)
}

#[test]
fn swapped_pairs_and_halves_have_codes_of_their_own(rt: HostRuntime) {
    assert!(rt; codes_twice(&rt, rt.alloc(), false) <= 2);
    assert!(rt; codes_twice(&rt, rt.alloc(), true) <= 2);
}
