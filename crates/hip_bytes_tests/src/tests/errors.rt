//! Ranges that are refused: what the error tells, and its texts.
use super::bytes::Bytes;
use super::faults::{Refusal, Told};
use super::suite::{Suite, run_on_each};
use super::support::{equals, is, must};
use hip_bytes::{Kind, SliceErrorKind};
use std::alloc::Global;
use std::ops::Bound;
use std::process::Abort;

/// Bytes and two bounds that are no range of theirs, and what the error tells of them.
#[derive(Clone, Copy)]
struct Refused {
    bytes: &'static [u8],
    bounds: (Bound<usize>, Bound<usize>),
    kind: SliceErrorKind,
    start: usize,
    end: usize,
    text: &'static str,
}

const START_OUT: SliceErrorKind = SliceErrorKind::StartOutOfBounds;

const END_OUT: SliceErrorKind = SliceErrorKind::EndOutOfBounds;

const TURNED: SliceErrorKind = SliceErrorKind::StartGreaterThanEnd;

const MAX: usize = usize::MAX;

const REFUSED: &[Refused] = &[
    Refused {
        bytes: b"abc",
        bounds: (Bound::Included(4), Bound::Unbounded),
        kind: START_OUT,
        start: 4,
        end: 3,
        text: "range start index 4 out of bounds for slice of length 3",
    },
    Refused {
        bytes: b"abc",
        bounds: (Bound::Included(4), Bound::Excluded(2)),
        kind: START_OUT,
        start: 4,
        end: 2,
        text: "range start index 4 out of bounds for slice of length 3",
    },
    Refused {
        bytes: b"abc",
        bounds: (Bound::Included(MAX), Bound::Included(MAX)),
        kind: START_OUT,
        start: MAX,
        end: MAX,
        text: "range start index 18446744073709551615 out of bounds for slice of length 3",
    },
    Refused {
        bytes: b"abc",
        bounds: (Bound::Excluded(MAX), Bound::Included(MAX)),
        kind: START_OUT,
        start: MAX,
        end: MAX,
        text: "range start index 18446744073709551615 out of bounds for slice of length 3",
    },
    Refused {
        bytes: b"abc",
        bounds: (Bound::Included(5), Bound::Excluded(4)),
        kind: START_OUT,
        start: 5,
        end: 4,
        text: "range start index 5 out of bounds for slice of length 3",
    },
    Refused {
        bytes: b"abc",
        bounds: (Bound::Excluded(MAX), Bound::Unbounded),
        kind: START_OUT,
        start: MAX,
        end: 3,
        text: "range start index 18446744073709551615 out of bounds for slice of length 3",
    },
    Refused {
        bytes: b"abc",
        bounds: (Bound::Included(0), Bound::Excluded(4)),
        kind: END_OUT,
        start: 0,
        end: 4,
        text: "range end index 4 out of bounds for slice of length 3",
    },
    Refused {
        bytes: b"abc",
        bounds: (Bound::Included(3), Bound::Excluded(2)),
        kind: TURNED,
        start: 3,
        end: 2,
        text: "range starts at 3 but ends at 2",
    },
    Refused {
        bytes: b"abc",
        bounds: (Bound::Included(2), Bound::Excluded(1)),
        kind: TURNED,
        start: 2,
        end: 1,
        text: "range starts at 2 but ends at 1",
    },
    Refused {
        bytes: b"abc",
        bounds: (Bound::Excluded(2), Bound::Included(1)),
        kind: TURNED,
        start: 3,
        end: 2,
        text: "range starts at 3 but ends at 2",
    },
    Refused {
        bytes: b"abc",
        bounds: (Bound::Unbounded, Bound::Included(MAX)),
        kind: END_OUT,
        start: 0,
        end: MAX,
        text: "range end index 18446744073709551615 out of bounds for slice of length 3",
    },
    Refused {
        bytes: b"",
        bounds: (Bound::Included(0), Bound::Included(MAX)),
        kind: END_OUT,
        start: 0,
        end: MAX,
        text: "range end index 18446744073709551615 out of bounds for slice of length 0",
    },
];

/// The error of a refused range. A range that wasn't refused ends the test.
fn told<H: Bytes>(rt: &impl Abort, outcome: Result<H, Refusal>) -> Told {
    match outcome {
        Err(Refusal::Slice(told)) => told,
        _ => panic!(rt; "no range was refused"),
    }
}

/// Two places that are no range of `abc`, and what the error of `try_slice` tells of them.
const REFUSED_PLACES: &[(usize, usize, SliceErrorKind, &str)] = &[
    (
        4,
        2,
        START_OUT,
        "range start index 4 out of bounds for slice of length 3",
    ),
    (2, 1, TURNED, "range starts at 2 but ends at 1"),
];

fn refused_places<H: Bytes>(rt: &impl Abort, alloc: Global) {
    let handle = must(rt, H::inline(b"abc"));
    for (start, end, kind, text) in REFUSED_PLACES {
        let told = told(rt, handle.try_slice(alloc, *start..*end));
        equals(
            rt,
            &(told.kind, told.range, told.display.as_str()),
            &(*kind, *start..*end, *text),
        );
    }
}

fn refused_end<H: Bytes>(rt: &impl Abort, alloc: Global) {
    let handle = must(rt, H::inline(b"abc"));
    let told = told(rt, handle.try_slice(alloc, ..=MAX));
    equals(rt, &(told.kind, told.end), &(END_OUT, MAX));
}

fn is_refused<H: Bytes>(rt: &impl Abort, alloc: Global, row: Refused) {
    let handle = must(rt, H::from_slice(alloc, row.bytes));
    let (low, high) = row.bounds;
    tells(rt, told(rt, handle.try_slice_bounds(alloc, low, high)), row);
}

/// Asserts what the error tells.
fn tells(rt: &impl Abort, told: Told, row: Refused) {
    equals(
        rt,
        &(told.kind, told.start, told.end, told.range),
        &(row.kind, row.start, row.end, row.start..row.end),
    );
    equals(rt, &told.source.as_slice(), &row.bytes);
    equals(rt, &told.display.as_str(), &row.text);
}

fn refusals<H: Bytes>(rt: &impl Abort, alloc: Global) {
    for row in REFUSED {
        is_refused::<H>(rt, alloc, *row);
    }
}

/// Errors are equal by what was tried and by the bytes, wherever these lie.
fn equal_refusals<H: Bytes>(rt: &impl Abort, alloc: Global) {
    let copied = must(rt, H::from_slice(alloc, b"abc"));
    let (lent, another) = (H::borrowed(b"abc"), H::borrowed(b"abd"));
    equals(
        rt,
        &(
            H::slice_errors_eq(alloc, (&copied, 4), (&lent, 4)),
            H::slice_errors_eq(alloc, (&copied, 4), (&lent, 5)),
            H::slice_errors_eq(alloc, (&lent, 4), (&another, 4)),
        ),
        &(true, false, false),
    );
}

fn refused_debug<H: Bytes>(rt: &impl Abort, alloc: Global) {
    let handle = must(rt, H::inline(b"abc"));
    let told = told(rt, handle.try_slice(alloc, 0..4));
    equals(
        rt,
        &told.debug.as_str(),
        &"SliceError { kind: EndOutOfBounds, start: 0, end: 4, bytes: [97, 98, 99] }",
    );
}

fn ranges<H: Bytes>(rt: &impl Abort, alloc: Global) {
    let handle = must(rt, H::inline(b"abc"));
    is(
        rt,
        must(rt, handle.try_slice(alloc, 0..=1)),
        b"ab",
        Kind::Inline,
    );
    is(
        rt,
        must(rt, H::new().try_slice(alloc, 0..0)),
        b"",
        Kind::Inline,
    );
}

struct Errors;

impl Suite for Errors {
    fn run<H: Bytes>(rt: &impl Abort, alloc: Global) {
        refusals::<H>(rt, alloc);
        refused_places::<H>(rt, alloc);
        refused_end::<H>(rt, alloc);
        equal_refusals::<H>(rt, alloc);
        ranges::<H>(rt, alloc);
        refused_debug::<H>(rt, alloc);
    }
}

#[test]
fn a_range_is_refused_by_its_first_fault(rt: HostRuntime) {
    run_on_each::<Errors>(&rt, rt.alloc());
}
