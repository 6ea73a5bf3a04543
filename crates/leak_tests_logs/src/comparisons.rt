//! Comparisons that end a test.
//!
//! One that is written out in a test takes three to five times the steps of a call to prove.

use std::fmt::Debug;
use std::process::Abort;

/// Ends the test if the two differ.
pub fn same<T: Copy + PartialEq + Debug>(rt: &impl Abort, found: T, wanted: T) {
    assert_eq!(rt; found, wanted);
}

/// Ends the test if the two differ, and names the case.
pub fn same_in<C: Debug, T: Copy + PartialEq + Debug>(
    rt: &impl Abort,
    case: &C,
    found: T,
    wanted: T,
) {
    assert_eq!(rt; found, wanted, "{case:?}");
}
