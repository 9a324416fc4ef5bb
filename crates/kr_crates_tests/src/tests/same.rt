//! What a test expects, as functions: `assert_eq!` is proved anew at each place, and a function that has it is proved once.

use std::fmt::Debug;
use std::process::Abort;

/// Compares two values. A failed test tells both, and what was compared.
pub fn same<T: PartialEq + Debug>(rt: &impl Abort, left: &T, right: &T, what: &str) {
    assert_eq!(rt; left, right, "{what}");
}

/// Compares two values for a row of a table. A failed test tells both, what was compared, and the row.
pub fn same_for<T: PartialEq + Debug, R: Debug>(
    rt: &impl Abort,
    left: &T,
    right: &T,
    what: &str,
    row: &R,
) {
    assert_eq!(rt; left, right, "{what} for {row:?}");
}

/// Checks a condition for a row of a table. A failed test tells the condition and the row.
pub fn holds_for<R: Debug>(rt: &impl Abort, condition: bool, what: &str, row: &R) {
    assert!(rt; condition, "{what} for {row:?}");
}
