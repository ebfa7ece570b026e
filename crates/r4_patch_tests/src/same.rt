//! What tests compare. An assertion is proved at each place where it stands, so there is one for all of them.

use std::fmt::Debug;
use std::process::Abort;

/// Ends the test unless the two are equal, in this row of its table, counted from 0.
pub fn same_in<T: PartialEq + Debug, X: Abort>(rt: &X, got: &T, wanted: &T, row: usize) {
    assert_eq!(rt; *got, *wanted, "row {row}");
}
