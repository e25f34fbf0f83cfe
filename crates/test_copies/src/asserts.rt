//! Keys of the program, and what is asserted of what was found.
use hashkeys::{Key, Salt};
use std::fmt::Debug;
use std::process::Abort;
use test_maps::numbered_text;

pub(crate) fn key(rt: &impl Abort, text: &[u8]) -> Key {
    Key::read(text).expect(rt, "a key")
}

/// The key `k` with the lowest five hexadecimal digits of a number.
pub(crate) fn numbered(rt: &impl Abort, number: u32) -> Key {
    key(rt, &numbered_text(number))
}

/// The bin of a key in a table of 32 bins, under the salt 0.
pub(crate) fn bin_of_32(key: &Key) -> u32 {
    Salt(0).hash_of(key) % 32
}

/// Asserts that what was found is what is wanted.
pub(crate) fn assert_same<T: PartialEq + Debug>(rt: &impl Abort, found: &T, wanted: &T) {
    assert_eq!(rt; found, wanted);
}
