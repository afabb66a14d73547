//! Checks that end a test, each a function of its own: a test that calls them is proved in a fraction of the time.
use std::fmt::Debug;
use std::process::Abort;

/// Ends the test where two values differ.
pub fn same<R: Copy + Abort, T: PartialEq + Debug + Drop>(rt: R, got: T, wanted: T) {
    assert_eq!(rt; got, wanted);
}

/// Ends the test where a condition does not hold.
pub fn holds<R: Copy + Abort>(rt: R, condition: bool, what: &str) {
    assert!(rt; condition, "{what}");
}
