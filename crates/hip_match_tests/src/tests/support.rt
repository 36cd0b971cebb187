//! The ends of a test, and what it asserts of any value.
ghost use Rattle.std.specs.Prelude.{◌≡◌, Ok};

use std::alloc::AllocError;
use std::fmt;
use std::process::Abort;

/// The clone, or the end of the test where there is no memory for it. A test with no way out but this is a straight line, and cheap to prove.
pub(crate) fn must<R>(rt: &impl Abort, clone: Result<R, AllocError>) -> R
    ensures { clone ≡ Ok result }
{
    match clone {
        Ok(copy) => copy,
        Err(_) => panic!(rt; "a clone was refused"),
    }
}

/// Asserts that two values are equal. In a test the macro's own code costs as much to prove as several calls.
pub(crate) fn equals<T: PartialEq + fmt::Debug>(rt: &impl Abort, found: &T, wanted: &T) {
    assert_eq!(rt; *found, *wanted);
}
