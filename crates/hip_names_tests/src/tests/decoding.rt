//! OS strings that are UTF-8, that aren't, and their repair.
use super::handle::Handle;
use super::name::{Name, OsStr};
use super::support::{equals, must, text_of};
use hip_bytes::Kind;
use std::alloc::Global;
use std::process::Abort;

/// Bytes, whether they are UTF-8, and what Rust's `String::from_utf8_lossy` makes of them.
type Decoded = (&'static [u8], bool, &'static str);

const DECODED: &[Decoded] = &[
    (b"", true, ""),
    (b"a\xC3\xA9z", true, "a\u{E9}z"),
    (b"a\xFFb", false, "a\u{FFFD}b"),
    (b"abc\x80", false, "abc\u{FFFD}"),
    (b"\xE0\x80\x80", false, "\u{FFFD}\u{FFFD}\u{FFFD}"),
    (b"\xF0\x9F\x98", false, "\u{FFFD}"),
    (
        b"\xFF 23 bytes and some more",
        false,
        "\u{FFFD} 23 bytes and some more",
    ),
];

fn is_decoded<N: OsStr>(rt: &impl Abort, alloc: Global, row: Decoded) {
    let (bytes, is_text, repaired) = row;
    let name = must(rt, N::lent(bytes));
    let (text, is_lent) = must(rt, name.to_str_lossy(alloc));
    equals(rt, &(text.as_str(), is_lent), &(repaired, is_text));
    assert!(rt; is(must(rt, name.to_str(alloc)), is_text, repaired));
}

/// Whether this is the text where there is one.
fn is(text: Option<String>, is_text: bool, want: &str) -> bool {
    match text {
        Some(text) => is_text & (text.as_str() == want),
        None => !is_text,
    }
}

fn becomes_text<N: Name>(rt: &impl Abort, row: Decoded) {
    let (bytes, is_text, text) = row;
    match must(rt, N::lent(bytes)).into_str_eq(text) {
        Ok(told) => equals(rt, &(told, is_text), &((true, Kind::Borrowed), true)),
        Err(back) => equals(rt, &(back.bytes(), is_text), &(bytes, false)),
    }
}

/// Bytes that aren't UTF-8 are told by their numbers.
fn debugs<N: Name>(rt: &impl Abort, alloc: Global) {
    let name = must(rt, N::lent(b"a\"\n\xFFb"));
    let said = must(rt, text_of(alloc, &name));
    equals(rt, &said.as_str(), &"\"a\\\"\\n\\xffb\"");
}

/// The tests of an OS string or of a path.
pub(crate) fn of_either<N: Name>(rt: &impl Abort) {
    for row in DECODED {
        becomes_text::<N>(rt, *row);
    }
}

/// The tests of an OS string alone.
pub(crate) fn of_os_strings<N: OsStr>(rt: &impl Abort, alloc: Global) {
    for row in DECODED {
        is_decoded::<N>(rt, alloc, *row);
    }
    debugs::<N>(rt, alloc);
}
