//! A check that ends a test. It is a function, since a test that calls it is proved in a fraction of the time.
use std::fmt::Debug;
use std::process::Abort;

/// Ends the test where two values differ.
pub fn same<R: Copy + Abort, T: PartialEq + Debug + Drop>(rt: R, got: T, wanted: T) {
    assert_eq!(rt; got, wanted);
}
