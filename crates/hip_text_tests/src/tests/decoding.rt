//! Bytes that are UTF-8, that aren't, and their repair.
use super::suite::{Suite, run_on_each};
use super::support::{cause_of, debugged, equals, must, must_refuse, reads, shown};
use super::text::{Bytes, FromUtf8Error, Text};
use hip_text::Kind;
use std::alloc::Global;
use std::process::Abort;

/// Both ends of each class of characters.
const ACCEPTED: &[&[u8]] = &[
    b"",
    b"\x00",
    b"\x7F",
    b"\xC2\x80",
    b"\xDF\xBF",
    b"\xE0\xA0\x80",
    b"\xED\x9F\xBF",
    b"\xEE\x80\x80",
    b"\xEF\xBF\xBF",
    b"\xF0\x90\x80\x80",
    b"\xF4\x8F\xBF\xBF",
];

/// Bytes that aren't UTF-8, where their longest front that is ends, and how long what is wrong there is, where it doesn't just end.
type Refused = (&'static [u8], usize, Option<usize>);

const REFUSED: &[Refused] = &[
    // Continuations alone.
    (b"\x80", 0, Some(1)),
    (b"\xBF", 0, Some(1)),
    // Longer than they need be.
    (b"\xC0\x80", 0, Some(1)),
    (b"\xC1\xBF", 0, Some(1)),
    (b"\xE0\x80\x80", 0, Some(1)),
    (b"\xE0\x9F\xBF", 0, Some(1)),
    (b"\xF0\x80\x80\x80", 0, Some(1)),
    (b"\xF0\x8F\xBF\xBF", 0, Some(1)),
    // Surrogates.
    (b"\xED\xA0\x80", 0, Some(1)),
    (b"\xED\xBF\xBF", 0, Some(1)),
    // Past the last character.
    (b"\xF4\x90\x80\x80", 0, Some(1)),
    (b"\xF5\x80\x80\x80", 0, Some(1)),
    (b"\xFE", 0, Some(1)),
    (b"\xFF", 0, Some(1)),
    (b"\xC3\x28", 0, Some(1)),
    (b"abc\x80", 3, Some(1)),
    // Cut short.
    (b"a\xC3", 1, None),
    (b"\xE2\x82", 0, None),
    (b"\xF0\x9F\x98", 0, None),
    (b"\xE2\x82a", 0, Some(2)),
    (b"a\xF0\x9F\x98a", 1, Some(3)),
    (b"ab\xC3\xA9\x80", 4, Some(1)),
];

/// Bytes and their repair.
type Repaired = (&'static [u8], &'static str);

const REPAIRED: &[Repaired] = &[
    (b"a\xFFb", "a\u{FFFD}b"),
    (b"\xE2\x82a", "\u{FFFD}a"),
    (b"a\xF0\x9F\x98a", "a\u{FFFD}a"),
    (b"\xE2\x82", "\u{FFFD}"),
    (b"\x80\x80", "\u{FFFD}\u{FFFD}"),
    (b"\xC0\x80", "\u{FFFD}\u{FFFD}"),
    (b"\xED\xA0\x80", "\u{FFFD}\u{FFFD}\u{FFFD}"),
    (b"\xF4\x90\x80\x80", "\u{FFFD}\u{FFFD}\u{FFFD}\u{FFFD}"),
    (b"\xE2(\xA1", "\u{FFFD}(\u{FFFD}"),
];

fn accepts<T: Text>(rt: &impl Abort, alloc: Global) {
    for bytes in ACCEPTED {
        let text = must(rt, T::from_utf8(T::Bytes::borrowed(bytes)));
        equals(
            rt,
            &(text.as_bytes(), text.kind()),
            &(*bytes, Kind::Borrowed),
        );
        let copied = must(rt, T::try_from_slice(alloc, bytes));
        equals(rt, &copied.as_bytes(), &(*bytes));
    }
}

/// The value is refused, and its clone, and the error's clone is the error.
fn refuses<T: Text>(rt: &impl Abort, alloc: Global) {
    for (bytes, front, len) in REFUSED {
        let value = T::Bytes::borrowed(bytes);
        let clone = must_refuse(rt, T::from_utf8(must(rt, value.clone(alloc))));
        let error = must_refuse(rt, T::from_utf8(value));
        let cause = (*front, *len);
        equals(rt, &(cause_of(&error), error.as_bytes()), &(cause, *bytes));
        let cloned = must(rt, error.clone(alloc));
        equals(rt, &(clone == error, cloned == error), &(true, true));
        equals(
            rt,
            &(cause_of(&cloned), cloned.as_bytes()),
            &(cause, *bytes),
        );
    }
}

fn repairs<T: Text>(rt: &impl Abort, alloc: Global) {
    for (bytes, text) in REPAIRED {
        let repaired = must(rt, T::from_utf8_lossy(alloc, T::Bytes::borrowed(bytes)));
        reads(rt, repaired.as_str(), text);
    }
}

/// Seven faults fit the handle itself, eight don't.
fn repairs_by_length<T: Text>(rt: &impl Abort, alloc: Global) {
    for (len, kind) in [(7, Kind::Inline), (8, Kind::Allocated)] {
        let faults = must(rt, T::Bytes::borrowed(b"\xFF").repeat(alloc, len));
        let repaired = must(rt, T::from_utf8_lossy(alloc, faults));
        equals(rt, &(repaired.len(), repaired.kind()), &(3 * len, kind));
    }
}

fn prints_itself<T: Text>(rt: &impl Abort, alloc: Global) {
    let error = must_refuse(rt, T::from_utf8(T::Bytes::borrowed(b"abc\xFF")));
    reads(
        rt,
        must(rt, debugged(alloc, &error)).as_str(),
        "FromUtf8Error { bytes: [97, 98, 99, 255], error: Utf8Error { valid_up_to: 3, error_len: Some(1) } }",
    );
    let cut = must_refuse(rt, T::from_utf8(T::Bytes::borrowed(b"a\xC3")));
    reads(
        rt,
        must(rt, shown(alloc, &cut)).as_str(),
        "incomplete utf-8 byte sequence from index 1",
    );
}

struct Decoding;

impl Suite for Decoding {
    fn run<T: Text>(rt: &impl Abort, alloc: Global) {
        accepts::<T>(rt, alloc);
        refuses::<T>(rt, alloc);
        repairs::<T>(rt, alloc);
        repairs_by_length::<T>(rt, alloc);
        prints_itself::<T>(rt, alloc);
    }
}

#[test]
fn bytes_are_read_as_utf8_or_repaired(rt: HostRuntime) {
    run_on_each::<Decoding>(&rt, rt.alloc());
}
