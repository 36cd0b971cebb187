//! Walks by texts.
use super::walks::Walk::{
    Matches, RSplit, RSplitN, RSplitTerminator, Split, SplitInclusive, SplitN, SplitTerminator,
};
use super::walks::{Row, lists, walks};
use hip_match::indices::{MatchIndices, RMatchIndices};
use std::process::Abort;
use std::test::Fail;

/// Matches that overlap.
fn overlapping() -> &'static [Row<&'static str>] {
    &[
        Row(Matches, "aaa", "aa", &["aa"]),
        Row(Split, "aaa", "aa", &["", "a"]),
        Row(SplitInclusive, "aaa", "aa", &["aa", "a"]),
        Row(RSplit, "aaa", "aa", &["", "a"]),
        Row(RSplitTerminator, "aaa", "aa", &["a"]),
        Row(Split, "aaaa", "aa", &["", "", ""]),
    ]
}

/// An empty text.
fn empty_text() -> &'static [Row<&'static str>] {
    &[
        Row(Split, "abc", "", &["", "a", "b", "c", ""]),
        Row(SplitInclusive, "abc", "", &["", "a", "b", "c"]),
        Row(SplitTerminator, "abc", "", &["", "a", "b", "c"]),
        Row(RSplit, "abc", "", &["", "c", "b", "a", ""]),
        Row(RSplitTerminator, "abc", "", &["c", "b", "a", ""]),
        Row(Split, "", "", &["", ""]),
        Row(SplitInclusive, "", "", &[""]),
        Row(SplitTerminator, "", "", &[""]),
        Row(Matches, "", "", &[""]),
        Row(Split, "é", "", &["", "é", ""]),
        Row(SplitN(2), "é", "", &["", "é"]),
    ]
}

/// Empty pieces.
fn empty_pieces() -> &'static [Row<&'static str>] {
    &[
        Row(SplitTerminator, "A..B..", ".", &["A", "", "B", ""]),
        Row(RSplitTerminator, "A..B..", ".", &["", "B", "", "A"]),
    ]
}

/// Counts.
fn counts() -> &'static [Row<&'static str>] {
    &[
        Row(SplitN(0), "a,b,c", ",", &[]),
        Row(SplitN(1), "a,b,c", ",", &["a,b,c"]),
        Row(SplitN(2), "a,b,c", ",", &["a", "b,c"]),
        Row(RSplitN(0), "a,b,c", ",", &[]),
        Row(RSplitN(2), "a,b,c", ",", &["c", "a,b"]),
        Row(RSplitN(9), "a,b,c", ",", &["c", "b", "a"]),
        Row(SplitN(3), "a,b,,", ",", &["a", "b", ","]),
        Row(RSplitN(3), ",,a,b", ",", &["b", "a", ","]),
        Row(RSplit, "a😀b€cé", "€", &["cé", "a😀b"]),
    ]
}

fn walks_each(rt: &impl Abort, rows: &[Row<&'static str>]) {
    for Row(kind, text, pattern, want) in rows {
        walks(rt, *kind, text, *pattern, want);
    }
}

#[test]
fn by_a_text(rt: HostRuntime) {
    walks_each(&rt, overlapping());
    walks_each(&rt, empty_text());
    walks_each(&rt, empty_pieces());
    walks_each(&rt, counts());
}

#[test]
fn by_a_text_behind_a_reference(rt: HostRuntime) {
    walks(&rt, Split, "a😀b€cé", &"€", &["a😀b", "cé"]);
    walks(&rt, RSplit, "a😀b€cé", &"€", &["cé", "a😀b"]);
}

#[test]
fn by_an_owned_text(rt: HostRuntime) -> Result<(), Fail> {
    let comma = String::from_str(rt.alloc(), ", ")?;
    walks(&rt, Split, "a, b,c", &comma, &["a", "b,c"]);
    walks(&rt, RSplit, "a, b,c", &comma, &["b,c", "a"]);
    Ok(())
}

/// A text, a pattern, and the places of its leftmost and of its rightmost matches.
#[derive(Clone, Copy)]
struct MatchPlaces(
    &'static str,
    &'static str,
    &'static [(usize, usize)],
    &'static [(usize, usize)],
);

const PLACES: &[MatchPlaces] = &[
    MatchPlaces("aaa", "aa", &[(0, 2)], &[(1, 3)]),
    MatchPlaces("ababababa", "aba", &[(0, 3), (4, 7)], &[(6, 9), (2, 5)]),
    MatchPlaces("é", "", &[(0, 0), (2, 2)], &[(2, 2), (0, 0)]),
    // Punctuation of the pattern that stands where the pattern doesn't.
    MatchPlaces("--> a-> -->", "-->", &[(0, 3), (8, 11)], &[(8, 11), (0, 3)]),
    MatchPlaces("-a--a", "a--", &[(1, 4)], &[(1, 4)]),
    MatchPlaces("> <--> b<--> >", " <-->", &[(1, 6)], &[(1, 6)]),
    // One right behind another.
    MatchPlaces(
        "needleneedle",
        "needle",
        &[(0, 6), (6, 12)],
        &[(6, 12), (0, 6)],
    ),
    MatchPlaces(
        "a😀",
        "",
        &[(0, 0), (1, 1), (5, 5)],
        &[(5, 5), (1, 1), (0, 0)],
    ),
];

fn match_places() -> &'static [MatchPlaces] {
    PLACES
}

#[test]
fn places(rt: HostRuntime) {
    for MatchPlaces(text, pattern, leftmost, rightmost) in match_places() {
        lists(&rt, MatchIndices::new(text, *pattern), leftmost);
        lists(&rt, RMatchIndices::new(text, *pattern), rightmost);
    }
}
