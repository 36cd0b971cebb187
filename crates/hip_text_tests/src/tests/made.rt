//! Joins and repetitions, and texts of units of UTF-16.
use super::suite::{Suite, run_on_each};
use super::support::{equals, is, must, must_refuse, reads};
use super::text::{Bytes, FromUtf8Error, Text};
use hip_text::{GrowFault, HipStr, Kind, Meter, Rc, Utf16Fault};
use std::alloc::Global;
use std::process::Abort;

/// Texts, what stands between them, and what they make.
type Joined = (&'static [&'static str], &'static str, &'static str);

const JOINED: &[Joined] = &[
    (&[], "-", ""),
    (&[""], "-", ""),
    (&["", ""], "-", "-"),
    (&["ab"], "-", "ab"),
    (&["a", "é", "b"], "", "aéb"),
    (&["é", "漢"], " – ", "é – 漢"),
    (
        &["", ""],
        "------------------------",
        "------------------------",
    ),
];

fn joins<T: Text>(rt: &impl Abort, alloc: Global) {
    for (texts, sep, whole) in JOINED {
        let joined = must(rt, T::join_slices(alloc, texts, sep));
        reads(rt, joined.as_str(), whole);
        let gathered = must(rt, T::join(alloc, texts, sep));
        reads(rt, gathered.as_str(), whole);
    }
}

fn concatenates<T: Text>(rt: &impl Abort, alloc: Global) {
    let mut meter = Meter::new();
    let whole = must(
        rt,
        T::concat_slices_metered(alloc, &["é", "", "z"], &mut meter),
    );
    equals(rt, &(whole.as_str(), meter.copied()), &("éz", 3));
    let whole = must(rt, T::concat(alloc, ["é", "", "z"]));
    reads(rt, whole.as_str(), "éz");
}

fn repeats<T: Text>(rt: &impl Abort, alloc: Global) {
    let text = must(rt, T::from_str(alloc, "é"));
    is(rt, must(rt, text.repeat(alloc, 3)), "ééé", Kind::Inline);
    let fault = must_refuse(rt, text.repeat(alloc, usize::MAX));
    equals(rt, &fault, &GrowFault::TooLong);
    let twice = must(rt, T::borrowed("é-").repeat(alloc, 2));
    is(rt, twice, "é-é-", Kind::Inline);
}

/// Units that are UTF-16, and their text.
type Spelt = (&'static [u16], &'static str);

const SPELT: &[Spelt] = &[
    (&[], ""),
    (&[0x61, 0xE9, 0x6F22], "aé漢"),
    (&[0xD83D, 0xDE00], "😀"),
    (&[0xD800, 0xDC00, 0xDBFF, 0xDFFF], "\u{10000}\u{10FFFF}"),
    (&[0xD7FF, 0xE000, 0xFFFF], "\u{D7FF}\u{E000}\u{FFFF}"),
    (
        &[
            0x4E2D, 0x4E2D, 0x4E2D, 0x4E2D, 0x4E2D, 0x4E2D, 0x4E2D, 0x4E2D,
        ],
        "中中中中中中中中",
    ),
];

/// Units of which one is a surrogate without a partner, its position, and their text with U+FFFD for each such.
type Unpaired = (&'static [u16], usize, &'static str);

const UNPAIRED: &[Unpaired] = &[
    (&[0xD83D, 0x61], 0, "\u{FFFD}a"),
    (&[0xDC00], 0, "\u{FFFD}"),
    (&[0x61, 0xD83D], 1, "a\u{FFFD}"),
    (&[0x61, 0xDE00, 0xD83D], 1, "a\u{FFFD}\u{FFFD}"),
    (&[0xD83D, 0xDE00, 0xDFFF], 2, "😀\u{FFFD}"),
    (&[0xD83D, 0xD83D, 0xDE00], 0, "\u{FFFD}😀"),
    (&[0xDC00, 0xD800], 0, "\u{FFFD}\u{FFFD}"),
];

fn reads_units<T: Text>(rt: &impl Abort, alloc: Global) {
    for (units, text) in SPELT {
        let read = must(rt, T::from_utf16(alloc, units));
        reads(rt, read.as_str(), text);
        let read = must(rt, T::from_utf16_lossy(alloc, units));
        reads(rt, read.as_str(), text);
    }
}

fn refuses_units<T: Text>(rt: &impl Abort, alloc: Global) {
    for (units, at, text) in UNPAIRED {
        let fault = must_refuse(rt, T::from_utf16(alloc, units));
        equals(rt, &fault, &Utf16Fault::Unpaired(*at));
        let read = must(rt, T::from_utf16_lossy(alloc, units));
        reads(rt, read.as_str(), text);
    }
}

/// Errors are equal by their bytes, wherever these lie.
fn compares_errors<T: Text>(rt: &impl Abort, alloc: Global) {
    let copied = must(rt, T::Bytes::from_slice(alloc, b"a\xFF"));
    let copied = must_refuse(rt, T::from_utf8(copied));
    let same = must_refuse(rt, T::from_utf8(T::Bytes::borrowed(b"a\xFF")));
    let other = must_refuse(rt, T::from_utf8(T::Bytes::borrowed(b"b\xFF")));
    equals(rt, &(copied == same, copied != same), &(true, false));
    equals(rt, &(other == same, other != same), &(false, true));
    equals(rt, &must(rt, same.clone(alloc)), &same);
}

struct Made;

impl Suite for Made {
    fn run<T: Text>(rt: &impl Abort, alloc: Global) {
        joins::<T>(rt, alloc);
        concatenates::<T>(rt, alloc);
        repeats::<T>(rt, alloc);
        compares_errors::<T>(rt, alloc);
        reads_units::<T>(rt, alloc);
        refuses_units::<T>(rt, alloc);
    }
}

#[test]
fn texts_are_joined_and_read_from_units(rt: HostRuntime) {
    run_on_each::<Made>(&rt, rt.alloc());
}

#[test]
fn a_closure_writes(rt: HostRuntime) {
    let mut text = must(&rt, HipStr::<Rc>::from_str(rt.alloc(), "Hello"));
    let pushed = text.with_mutated(
        rt.alloc(),
        |string: &mut String| string.push_str(", World!"),
    );
    must(&rt, must(&rt, pushed));
    equals(&rt, &text.as_str(), &"Hello, World!");
}
