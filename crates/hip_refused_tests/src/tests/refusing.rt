//! Orders to refuse a request for memory. They are requests themselves, for more than any block can have, so that the C library refuses
//! them where nothing reads them.
use std::alloc::Global;
use std::fmt;
use std::process::Abort;

const GREATEST: usize = isize::MAX as usize;

/// The greatest number of requests of a scenario that are refused.
const MOST: usize = 10_000;

/// Orders that the `k`-th request from here on is refused, and no other.
pub(crate) fn refuse(alloc: Global, k: usize) {
    let _order = Vec::<u8>::with_capacity(alloc, GREATEST - k.min(MOST));
}

/// Takes the order back, and says whether it was carried out.
pub(crate) fn was_refused(alloc: Global) -> bool {
    let _question = Vec::<u8>::with_capacity(alloc, GREATEST);
    Vec::<u8>::with_capacity(alloc, 1).is_err()
}

/// Whether orders are carried out.
pub(crate) fn is_refusing(alloc: Global) -> bool {
    refuse(alloc, 1);
    let is_refused = Vec::<u8>::with_capacity(alloc, 1).is_err();
    is_refused & was_refused(alloc)
}

/// Runs a scenario with its first request refused, then its second, and so on, until it says that none was. Answers how many were.
pub(crate) fn each<F: Fn(usize) -> bool>(scenario: F) -> usize
    requires { F.IsAlwaysCallable scenario }
{
    for k in 1..MOST {
        if !scenario(k) {
            return k - 1;
        }
    }
    MOST
}

/// The value, or the end of the test where it was refused.
pub(crate) fn must<T, E: Drop>(rt: &impl Abort, outcome: Result<T, E>) -> T {
    match outcome {
        Ok(value) => value,
        Err(_) => panic!(rt; "a call was refused"),
    }
}

/// Asserts that a condition holds.
pub(crate) fn must_hold(rt: &impl Abort, is_so: bool) {
    assert!(rt; is_so);
}

/// Asserts that two values are equal.
pub(crate) fn equals<T: PartialEq + fmt::Debug>(rt: &impl Abort, found: &T, wanted: &T) {
    assert_eq!(rt; *found, *wanted);
}

/// Asserts that requests of a row of a table were refused, where any are.
pub(crate) fn must_meet(rt: &impl Abort, alloc: Global, row: usize, refusals: usize) {
    assert!(rt; refusals > 0 || !is_refusing(alloc), "row {row}");
}
