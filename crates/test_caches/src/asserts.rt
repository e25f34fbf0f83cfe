//! What is asserted of what was found.
use std::fmt::Debug;
use std::process::Abort;

/// Asserts that what was found is what is wanted. A call of it is one step of the caller, which
/// goes on as it is.
pub(crate) fn assert_same<T: PartialEq + Debug>(rt: &impl Abort, found: &T, wanted: &T) {
    assert_eq!(rt; found, wanted);
}
