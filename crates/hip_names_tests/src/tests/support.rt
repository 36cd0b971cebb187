//! The ends of a test, and the questions that several modules ask of a value.
use hip_bytes::Kind;
use std::alloc::{AllocError, Global};
use std::cmp::Ordering;
use std::fmt;
use std::process::Abort;

/// Asserts that two values are equal. In a test the macro's own code costs as much to prove as several calls.
pub(crate) fn equals<T: PartialEq + fmt::Debug>(rt: &impl Abort, found: &T, wanted: &T) {
    assert_eq!(rt; *found, *wanted);
}

/// The value, or the end of the test where it was refused. A test with no way out but this is a straight line, and cheap to prove.
pub(crate) fn must<T, E: Drop>(rt: &impl Abort, outcome: Result<T, E>) -> T {
    match outcome {
        Ok(value) => value,
        Err(_) => panic!(rt; "a call was refused"),
    }
}

/// The error of a refused call. A call that wasn't refused ends the test.
pub(crate) fn must_refuse<T: Drop, E>(rt: &impl Abort, outcome: Result<T, E>) -> E {
    match outcome {
        Ok(_) => panic!(rt; "a call wasn't refused"),
        Err(error) => error,
    }
}

/// How two keys stand to each other, each way round, and whether they are equal.
pub(crate) fn compared<K: Ord>(left: &K, right: &K) -> (Ordering, Ordering, bool) {
    (left.cmp(right), right.cmp(left), left == right)
}

/// Whether two values are equal.
pub(crate) fn are_equal<V: Eq>(left: &V, right: &V) -> bool {
    left == right
}

/// A value as `Debug` shows it.
pub(crate) fn text_of<T: fmt::Debug>(alloc: Global, value: &T) -> Result<String, AllocError> {
    format!(in alloc; "{value:?}")
}

/// Where so many bytes lie that were copied.
pub(crate) fn kind_of_copy(len: usize) -> Option<Kind> {
    if len > 23 {
        Some(Kind::Allocated)
    } else {
        Some(Kind::Inline)
    }
}

/// The kind that is told by three answers, where just one is true.
pub(crate) fn kind_of(inline: bool, borrowed: bool, allocated: bool) -> Option<Kind> {
    match (inline, borrowed, allocated) {
        (true, false, false) => Some(Kind::Inline),
        (false, true, false) => Some(Kind::Borrowed),
        (false, false, true) => Some(Kind::Allocated),
        _ => None,
    }
}
