//! The ends of a test.
use std::fmt;
use std::process::Abort;

/// The value, or the end of the test where it was refused. A test with no way out but this is a straight line, and cheap to prove.
pub(crate) fn must<T, E: Drop>(rt: &impl Abort, outcome: Result<T, E>) -> T {
    match outcome {
        Ok(value) => value,
        Err(_) => panic!(rt; "a call was refused"),
    }
}

/// The error of a refused call. A call that wasn't refused ends the test.
pub(crate) fn must_refuse<T: Drop, E>(rt: &impl Abort, outcome: Result<T, E>) -> E {
    match outcome {
        Ok(_) => panic!(rt; "a call wasn't refused"),
        Err(error) => error,
    }
}

/// Asserts that two values are equal.
pub(crate) fn equals<T: PartialEq + fmt::Debug>(rt: &impl Abort, found: &T, wanted: &T) {
    assert_eq!(rt; *found, *wanted);
}

/// Asserts that a condition holds for a row.
pub(crate) fn must_hold<R: fmt::Debug>(rt: &impl Abort, row: &R, is_so: bool) {
    assert!(rt; is_so, "of {row:?}");
}
