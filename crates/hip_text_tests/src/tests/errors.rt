//! Ranges that are refused, and bytes that aren't a text.
use super::faults::{Refusal, Told};
use super::suite::{Suite, run_on_each};
use super::support::{cause_of, equals, is, must, must_refuse, reads, shown};
use super::text::{Bytes, FromUtf8Error, Text};
use hip_text::{BytesFault, Kind, SliceErrorKind};
use std::alloc::Global;
use std::ops::Bound::{self, Excluded, Included, Unbounded};
use std::process::Abort;

/// Two bounds that are no range of a text, the kind of the error, where it tells that the range starts and ends, and its text.
type Refused = (
    Bound<usize>,
    Bound<usize>,
    SliceErrorKind,
    usize,
    usize,
    &'static str,
);

const START_OUT: SliceErrorKind = SliceErrorKind::StartOutOfBounds;

const END_OUT: SliceErrorKind = SliceErrorKind::EndOutOfBounds;

const TURNED: SliceErrorKind = SliceErrorKind::StartGreaterThanEnd;

const START_MID: SliceErrorKind = SliceErrorKind::StartNotACharBoundary;

const END_MID: SliceErrorKind = SliceErrorKind::EndNotACharBoundary;

const MAX: usize = usize::MAX;

/// Ranges that are refused, of the bytes 61 C3 A9 7A.
const OF_THREE: &[Refused] = &[
    (
        Included(5),
        Excluded(2),
        START_OUT,
        5,
        2,
        "range start index 5 is out of bounds of `aéz`",
    ),
    (
        Included(2),
        Included(MAX),
        END_OUT,
        2,
        MAX,
        "range end index 18446744073709551615 is out of bounds of `aéz`",
    ),
    (
        Included(3),
        Excluded(2),
        TURNED,
        3,
        2,
        "range starts at 3 but ends at 2 when slicing `aéz`",
    ),
    (
        Excluded(1),
        Unbounded,
        START_MID,
        2,
        4,
        "range start index 2 is not a char boundary of `aéz`",
    ),
    (
        Unbounded,
        Included(1),
        END_MID,
        0,
        2,
        "range end index 2 is not a char boundary of `aéz`",
    ),
];

/// Ranges that are refused, of the bytes C3 A9.
const OF_ONE: &[Refused] = &[
    (
        Included(1),
        Unbounded,
        START_MID,
        1,
        2,
        "range start index 1 is not a char boundary of `é`",
    ),
    (
        Included(0),
        Excluded(1),
        END_MID,
        0,
        1,
        "range end index 1 is not a char boundary of `é`",
    ),
    (
        Included(1),
        Excluded(3),
        END_OUT,
        1,
        3,
        "range end index 3 is out of bounds of `é`",
    ),
    (
        Included(1),
        Excluded(1),
        START_MID,
        1,
        1,
        "range start index 1 is not a char boundary of `é`",
    ),
];

/// Ranges that are refused, of the bytes 61 C3 A9 F0 9F 98 80: numbers are looked at before boundaries.
const OF_FOUR: &[Refused] = &[
    (
        Included(2),
        Unbounded,
        START_MID,
        2,
        7,
        "range start index 2 is not a char boundary of `aé😀`",
    ),
    (
        Included(2),
        Excluded(2),
        START_MID,
        2,
        2,
        "range start index 2 is not a char boundary of `aé😀`",
    ),
    (
        Included(0),
        Excluded(2),
        END_MID,
        0,
        2,
        "range end index 2 is not a char boundary of `aé😀`",
    ),
    (
        Included(3),
        Excluded(5),
        END_MID,
        3,
        5,
        "range end index 5 is not a char boundary of `aé😀`",
    ),
    (
        Included(2),
        Excluded(8),
        END_OUT,
        2,
        8,
        "range end index 8 is out of bounds of `aé😀`",
    ),
    (
        Included(5),
        Excluded(4),
        TURNED,
        5,
        4,
        "range starts at 5 but ends at 4 when slicing `aé😀`",
    ),
];

/// Two places that are a range of `aé😀`, and the part.
const PARTS: &[(usize, usize, &str)] = &[(1, 3, "é"), (3, 7, "😀")];

fn parts<T: Text>(rt: &impl Abort, alloc: Global) {
    for (start, end, text) in PARTS {
        let part = must(rt, T::borrowed("aé😀").slice(alloc, *start..*end));
        is(rt, part, text, Kind::Borrowed);
    }
}

/// An error as `Debug` shows it.
fn refused_debug<T: Text>(rt: &impl Abort, alloc: Global) {
    match T::borrowed("abc").try_slice_bounds(alloc, Included(0), Excluded(4)) {
        Err(Refusal::Slice(told)) => reads(
            rt,
            told.debug.as_str(),
            "SliceError { kind: EndOutOfBounds, start: 0, end: 4, string: \"abc\" }",
        ),
        _ => panic!(rt; "no range was refused"),
    }
}

fn refuses<T: Text>(rt: &impl Abort, alloc: Global, source: &'static str, rows: &[Refused]) {
    for row in rows {
        match T::borrowed(source).try_slice_bounds(alloc, row.0, row.1) {
            Err(Refusal::Slice(told)) => tells(rt, told, source, *row),
            _ => panic!(rt; "no range was refused"),
        }
    }
}

/// Asserts what the error tells.
fn tells(rt: &impl Abort, told: Told, source: &str, row: Refused) {
    let (_, _, kind, start, end, text) = row;
    equals(
        rt,
        &(told.kind, told.start, told.end, told.range),
        &(kind, start, end, start..end),
    );
    equals(
        rt,
        &(told.source.as_str(), told.display.as_str()),
        &(source, text),
    );
}

/// Bytes that aren't a text come back from the error as they were.
fn is_kept<T: Text>(rt: &impl Abort, bytes: T::Bytes, kind: Kind) {
    let error = must_refuse(rt, T::from_utf8(bytes));
    equals(rt, &cause_of(&error), &(3, Some(1)));
    let back = error.into_bytes();
    equals(
        rt,
        &(back.as_slice(), back.kind()),
        &(b"abc\xFF".as_slice(), kind),
    );
}

/// Bytes that aren't UTF-8: lent, alone, and with an owner that has room.
fn not_utf8<T: Text>(rt: &impl Abort, alloc: Global) {
    is_kept::<T>(rt, T::Bytes::borrowed(b"abc\xFF"), Kind::Borrowed);
    let bytes = must(rt, T::Bytes::from_slice(alloc, b"abc\xFF"));
    is_kept::<T>(rt, bytes, Kind::Inline);
    let mut roomy = must(rt, T::Bytes::with_capacity(alloc, 42));
    must(rt, roomy.push_slice(alloc, b"abc\xFF"));
    is_kept::<T>(rt, roomy, Kind::Allocated);
}

fn text_of_the_error<T: Text>(rt: &impl Abort, alloc: Global) {
    let bytes = must(rt, T::Bytes::from_slice(alloc, b"abc\xFFc"));
    let error = must_refuse(rt, T::from_utf8(bytes));
    reads(
        rt,
        must(rt, shown(alloc, &error)).as_str(),
        "invalid utf-8 sequence of 1 bytes from index 3",
    );
}

fn not_utf8_in_a_slice<T: Text>(rt: &impl Abort, alloc: Global) {
    let fault = must_refuse(rt, T::try_from_slice(alloc, b"abc\x80"));
    equals(rt, &fault, &BytesFault::NotUtf8);
}

fn not_utf8_in_a_vector<T: Text>(rt: &impl Abort, alloc: Global) {
    let vec = must(rt, Vec::from_slice(alloc, b"abc\x80"));
    let (fault, back) = must_refuse(rt, T::try_from_vec(alloc, vec));
    equals(
        rt,
        &(fault, back.as_slice()),
        &(BytesFault::NotUtf8, b"abc\x80".as_slice()),
    );
}

fn repaired<T: Text>(rt: &impl Abort, alloc: Global) {
    let broken = must(rt, T::Bytes::from_slice(alloc, b"a\xFFb"));
    let text = must(rt, T::from_utf8_lossy(alloc, broken));
    is(rt, text, "a\u{FFFD}b", Kind::Inline);
    let whole = must(rt, T::from_utf8_lossy(alloc, T::Bytes::borrowed(b"abc")));
    is(rt, whole, "abc", Kind::Borrowed);
}

struct TextErrors;

impl Suite for TextErrors {
    fn run<T: Text>(rt: &impl Abort, alloc: Global) {
        refuses::<T>(rt, alloc, "aéz", OF_THREE);
        refuses::<T>(rt, alloc, "é", OF_ONE);
        refuses::<T>(rt, alloc, "aé😀", OF_FOUR);
        parts::<T>(rt, alloc);
        refused_debug::<T>(rt, alloc);
        not_utf8::<T>(rt, alloc);
        text_of_the_error::<T>(rt, alloc);
        not_utf8_in_a_slice::<T>(rt, alloc);
        not_utf8_in_a_vector::<T>(rt, alloc);
        repaired::<T>(rt, alloc);
    }
}

#[test]
fn ranges_and_bytes_are_refused_with_a_text(rt: HostRuntime) {
    run_on_each::<TextErrors>(&rt, rt.alloc());
}
