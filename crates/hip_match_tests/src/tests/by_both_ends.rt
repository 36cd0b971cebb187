//! Walks from both ends.
use super::walks::Walk::{
    MatchIndices, Matches, RMatchIndices, RMatches, RSplit, RSplitTerminator, Split,
    SplitInclusive, SplitTerminator,
};
use super::walks::{Drawn, Walk, draws, walk_by_script};
use hip_match::lines::Lines;

fn by_one_rows() -> &'static [Drawn] {
    &[
        Drawn(Split, "a,b,c,d", ',', "FBBF", &["a", "d", "c", "b"]),
        Drawn(SplitTerminator, "A..B..", '.', "BBFF", &["", "B", "A", ""]),
        Drawn(SplitTerminator, "..", '.', "BB", &["", ""]),
        Drawn(SplitTerminator, "a,b,", ',', "FB", &["a", "b"]),
        Drawn(SplitInclusive, "a,b,", ',', "BB", &["b,", "a,"]),
        Drawn(RSplit, "a,b,c", ',', "FBF", &["c", "a", "b"]),
        Drawn(RSplitTerminator, "a,b,", ',', "FB", &["b", "a"]),
        Drawn(Split, "é,ü,", ',', "BFB", &["", "é", "ü"]),
    ]
}

#[test]
fn by_a_character(rt: HostRuntime) {
    for Drawn(kind, text, pattern, script, want) in by_one_rows() {
        walk_by_script(&rt, *kind, text, *pattern, script, want);
    }
}

/// A walk over the digits of `a1b2c3`, a script, and what it draws.
#[derive(Clone, Copy)]
struct Digits(Walk, &'static str, &'static [&'static str]);

fn digit_rows() -> &'static [Digits] {
    &[
        Digits(MatchIndices, "FBF", &["1", "3", "2"]),
        Digits(RMatchIndices, "FBF", &["3", "1", "2"]),
        Digits(Matches, "BFF", &["3", "1", "2"]),
        Digits(RMatches, "BFF", &["1", "3", "2"]),
    ]
}

#[test]
fn by_digits(rt: HostRuntime) {
    let digits = ['1', '2', '3'];
    for Digits(kind, script, want) in digit_rows() {
        walk_by_script(&rt, *kind, "a1b2c3", &digits, script, want);
        walk_by_script(&rt, *kind, "a1b2c3", digits.as_slice(), script, want);
    }
}

#[test]
fn of_lines(rt: HostRuntime) {
    draws(&rt, "x\r\ny", Lines::new("x\r\ny"), "BF", &["y", "x"]);
}
