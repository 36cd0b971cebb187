//! The ends of a test, and the assertions of several modules.
use super::bytes::Bytes;
use hip_bytes::Kind;
use std::alloc::{AllocError, Global};
use std::fmt;
use std::process::Abort;

pub(crate) const LETTERS: &[u8] = b"abcdefghijklmnopqrstuvwxyz";

/// Asserts that two values are equal. In a test the macro's own code costs as much to prove as several calls.
pub(crate) fn equals<T: PartialEq + fmt::Debug>(rt: &impl Abort, found: &T, wanted: &T) {
    assert_eq!(rt; *found, *wanted);
}

/// The value, or the end of the test where it was refused. A test with no way out but this is a straight line, and cheap to prove.
pub(crate) fn must<T, E: Drop>(rt: &impl Abort, outcome: Result<T, E>) -> T {
    match outcome {
        Ok(value) => value,
        Err(_) => panic!(rt; "a call was refused"),
    }
}

/// Asserts what a handle holds, and where.
pub(crate) fn holds<H: Bytes>(rt: &impl Abort, handle: &H, items: &[u8], kind: Kind) {
    assert_eq!(rt;
        (
            handle.as_slice(),
            handle.len(),
            handle.is_empty(),
            handle.kind()
        ),
        (items, items.len(), items.is_empty(), kind)
    );
}

/// Like [`holds`], for a handle that isn't used any more.
pub(crate) fn is<H: Bytes>(rt: &impl Abort, handle: H, items: &[u8], kind: Kind) {
    holds(rt, &handle, items, kind);
}

/// The error of a refused call. A call that wasn't refused ends the test.
pub(crate) fn must_refuse<T: Drop, E>(rt: &impl Abort, outcome: Result<T, E>) -> E {
    match outcome {
        Ok(_) => panic!(rt; "a call wasn't refused"),
        Err(error) => error,
    }
}

/// An error as `Display` and as `Debug` show it.
pub(crate) fn both_shown<E: fmt::Display + fmt::Debug>(
    alloc: Global,
    error: &E,
) -> Result<(String, String), AllocError> {
    Ok((format!(in alloc; "{error}")?, text_of(alloc, error)?))
}

/// A value as `Debug` shows it.
pub(crate) fn text_of<T: fmt::Debug>(alloc: Global, value: &T) -> Result<String, AllocError> {
    format!(in alloc; "{value:?}")
}
