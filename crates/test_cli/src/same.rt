//! Assertions in functions of their own, so that the body of a test has no exit at an assertion.
use std::fmt::Debug;
use std::process::Abort;

pub(crate) fn same<T: PartialEq + Debug>(rt: &impl Abort, got: &T, want: &T) {
    assert_eq!(rt; *got, *want);
}

pub(crate) fn holds(rt: &impl Abort, said: bool) {
    assert!(rt; said);
}
