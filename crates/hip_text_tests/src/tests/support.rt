//! The ends of a test, and the assertions of several modules.
use super::text::{FromUtf8Error, Text};
use hip_text::Kind;
use std::alloc::{AllocError, Global};
use std::fmt;
use std::process::Abort;

/// Asserts that two values are equal. In a test the macro's own code costs as much to prove as several calls.
pub(crate) fn equals<T: PartialEq + fmt::Debug>(rt: &impl Abort, found: &T, wanted: &T) {
    assert_eq!(rt; *found, *wanted);
}

/// Asserts that a condition holds.
pub(crate) fn must_hold(rt: &impl Abort, is_so: bool) {
    assert!(rt; is_so);
}

/// The value, or the end of the test where it was refused. A test with no way out but this is a straight line, and cheap to prove.
pub(crate) fn must<T, E: Drop>(rt: &impl Abort, outcome: Result<T, E>) -> T {
    match outcome {
        Ok(value) => value,
        Err(_) => panic!(rt; "a call was refused"),
    }
}

/// Asserts what a text holds, and where.
pub(crate) fn holds<T: Text>(rt: &impl Abort, text: &T, items: &str, kind: Kind) {
    assert_eq!(rt;
        (text.as_str(), text.len(), text.kind()),
        (items, items.len(), kind)
    );
}

/// Like [`holds`], for a text that isn't used any more.
pub(crate) fn is<T: Text>(rt: &impl Abort, text: T, items: &str, kind: Kind) {
    holds(rt, &text, items, kind);
}

/// The error of a refused call. A call that wasn't refused ends the test.
pub(crate) fn must_refuse<T: Drop, E>(rt: &impl Abort, outcome: Result<T, E>) -> E {
    match outcome {
        Ok(_) => panic!(rt; "a call wasn't refused"),
        Err(error) => error,
    }
}

/// Asserts how a string reads.
pub(crate) fn reads(rt: &impl Abort, string: &str, wanted: &str) {
    assert_eq!(rt; string, wanted);
}

/// Where the longest front that is UTF-8 ends, and how long what is wrong there is, where it doesn't just end.
pub(crate) fn cause_of<E: FromUtf8Error>(error: &E) -> (usize, Option<usize>) {
    let cause = error.utf8_error();
    (cause.valid_up_to(), cause.error_len())
}

/// A value as `Display` shows it.
pub(crate) fn shown<T: fmt::Display>(alloc: Global, value: &T) -> Result<String, AllocError> {
    format!(in alloc; "{value}")
}

/// An error as `Display` and as `Debug` show it.
pub(crate) fn both_shown<E: fmt::Display + fmt::Debug>(
    alloc: Global,
    error: &E,
) -> Result<(String, String), AllocError> {
    Ok((shown(alloc, error)?, debugged(alloc, error)?))
}

/// A value as `Debug` shows it.
pub(crate) fn debugged<T: fmt::Debug>(alloc: Global, value: &T) -> Result<String, AllocError> {
    format!(in alloc; "{value:?}")
}
