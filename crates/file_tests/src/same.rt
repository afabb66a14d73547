//! What ends a test that has not passed.

use std::fmt::Debug;
use std::process::Abort;

/// Ends the test where two values differ.
pub fn same<R: Copy + Abort, T: PartialEq + Debug + Drop>(rt: R, got: T, wanted: T) {
    assert_eq!(rt; got, wanted);
}
