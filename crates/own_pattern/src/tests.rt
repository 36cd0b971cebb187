//! The set taken by a text's own calls, against `str`'s answers for a closure of the same characters.
use crate::TruthTable;
use hipstr::LocalHipStr;
use hipstr::string::TextCuts;
use std::alloc::{AllocError, Global};

/// Texts with marks of ASCII at their ends, side by side and between characters beyond ASCII, and texts without one.
const TEXTS: &[&str] = &[
    "",
    ",",
    "a",
    "a,b -c",
    "--a, b--",
    "é,ü- ß",
    ",日本 語,",
    "äöüß€日",
    "a text that has more bytes than a handle holds, so that its parts share",
];

fn texts() -> &'static [&'static str] {
    TEXTS
}

fn is_mark(c: char) -> bool {
    c == ',' || c == ' ' || c == '-'
}

/// The characters that `is_mark` passes.
fn marks() -> TruthTable {
    TruthTable::new().with(b',').with(b' ').with(b'-')
}

/// Whether the pieces are these.
fn are(pieces: &[LocalHipStr<'_>], expected: &[&str]) -> bool {
    if pieces.len() != expected.len() {
        return false;
    }
    for i in 0..pieces.len() {
        if pieces[i].as_str() != expected[i] {
            return false;
        }
    }
    true
}

fn splits(alloc: Global, text: &str) -> Result<bool, AllocError> {
    let handle = LocalHipStr::from_str(alloc, text)?;
    let pieces = handle.split(alloc, marks()).collect()?;
    let expected = text.split(|c| is_mark(c)).collect::<Vec<_>>(alloc)?;
    Ok(are(&pieces, &expected))
}

fn splits_from_the_end(alloc: Global, text: &str) -> Result<bool, AllocError> {
    let handle = LocalHipStr::from_str(alloc, text)?;
    let pieces = handle.rsplit(alloc, marks()).collect()?;
    let expected = text.rsplit(|c| is_mark(c)).collect::<Vec<_>>(alloc)?;
    Ok(are(&pieces, &expected))
}

fn matches(alloc: Global, text: &str) -> Result<bool, AllocError> {
    let handle = LocalHipStr::from_str(alloc, text)?;
    let pieces = handle.matches(alloc, marks()).collect()?;
    let expected = text.matches(|c| is_mark(c)).collect::<Vec<_>>(alloc)?;
    Ok(are(&pieces, &expected))
}

/// Whether this piece is the last of a walk from the front.
fn is_last<'b>(
    alloc: Global,
    handle: &LocalHipStr<'b>,
    expected: &str,
) -> Result<bool, AllocError> {
    let mut pieces = handle.split(alloc, marks());
    match pieces.next_back() {
        Some(piece) => Ok(piece?.str_eq(expected)),
        None => Ok(false),
    }
}

fn draws_the_last(alloc: Global, text: &str) -> Result<bool, AllocError> {
    let handle = LocalHipStr::from_str(alloc, text)?;
    let mut parts = text.split(|c| is_mark(c));
    match parts.next_back() {
        Some(expected) => is_last(alloc, &handle, expected),
        None => Ok(false),
    }
}

fn trims(alloc: Global, text: &str) -> Result<bool, AllocError> {
    let handle = LocalHipStr::from_str(alloc, text)?;
    let rest = handle.trim_matches(alloc, marks())?;
    Ok(rest.str_eq(text.trim_matches(|c| is_mark(c))))
}

#[test]
fn a_text_takes_the_set_as_str_takes_a_closure(rt: HostRuntime) {
    let alloc = rt.alloc();
    for text in texts() {
        assert!(rt; splits(alloc, *text) == Ok(true), "split {text}");
        assert!(rt;
            splits_from_the_end(alloc, *text) == Ok(true),
            "rsplit {text}"
        );
        assert!(rt; matches(alloc, *text) == Ok(true), "matches {text}");
        assert!(rt;
            draws_the_last(alloc, *text) == Ok(true),
            "next_back {text}"
        );
        assert!(rt; trims(alloc, *text) == Ok(true), "trim_matches {text}");
    }
}
