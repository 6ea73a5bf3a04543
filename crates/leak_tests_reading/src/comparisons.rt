//! Comparisons that end a test.
//!
//! One that is written out in a test takes three to five times the steps of a call to prove.

use std::alloc::Global;
use std::fmt::{Debug, Display};
use std::process::Abort;
use std::test::Fail;

/// Ends the test if the two differ.
pub fn same<T: Copy + PartialEq + Debug>(rt: &impl Abort, found: T, wanted: T) {
    assert_eq!(rt; found, wanted);
}

/// Ends the test if the two differ, and names the case.
pub fn same_in<C: Debug, T: Copy + PartialEq + Debug>(
    rt: &impl Abort,
    case: &C,
    found: T,
    wanted: T,
) {
    assert_eq!(rt; found, wanted, "{case:?}");
}

/// Ends the test if one of the values prints another text than the one beside it.
pub fn print<T: Display>(rt: &impl Abort, alloc: Global, rows: &[(T, &str)]) -> Result<(), Fail> {
    for (value, wanted) in rows {
        let text = value.to_string(alloc)?;
        same(rt, text.as_str(), *wanted);
    }
    Ok(())
}
