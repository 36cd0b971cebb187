//! Lines, and runs between white space.
use super::support::equals;
use super::walks::{draws, gives};
use hip_match::lines::Lines;
use hip_match::trim::{trim, trim_end, trim_start};
use hip_match::white_space::{SplitAsciiWhitespace, SplitWhitespace};

/// A text, and parts of it.
#[derive(Clone, Copy)]
struct Parts(&'static str, &'static [&'static str]);

fn line_rows() -> &'static [Parts] {
    &[
        Parts("x\r\ny\n\nz\r", &["x", "y", "", "z\r"]),
        Parts("\r\n", &[""]),
        Parts("a\r\r\n", &["a\r"]),
        Parts("", &[]),
    ]
}

#[test]
fn lines(rt: HostRuntime) {
    for Parts(text, want) in line_rows() {
        gives(&rt, text, Lines::new(text), want);
    }
}

fn run_rows() -> &'static [Parts] {
    &[
        Parts("a\x0Bb c", &["a", "b", "c"]),
        Parts("", &[]),
        Parts("a\u{2003}b ", &["a", "b"]),
    ]
}

/// 20 times a character of the bytes C4 89, of which the last looks like white space but for its first bit.
const TWENTY: &str = "ĉĉĉĉĉĉĉĉĉĉĉĉĉĉĉĉĉĉĉĉ";

/// 32 bytes.
const SIXTEEN: &str = "éééééééééééééééé";

fn ascii_run_rows() -> &'static [Parts] {
    &[
        Parts("a\x0Bb c", &["a\x0Bb", "c"]),
        Parts("a\u{2003}b ", &["a\u{2003}b"]),
        Parts(TWENTY, &[TWENTY]),
        Parts("éééééééééééééééé éééééééééééééééé", &[SIXTEEN, SIXTEEN]),
    ]
}

#[test]
fn runs(rt: HostRuntime) {
    for Parts(text, want) in run_rows() {
        gives(&rt, text, SplitWhitespace::new(text), want);
    }
    for Parts(text, want) in ascii_run_rows() {
        gives(&rt, text, SplitAsciiWhitespace::new(text), want);
    }
}

/// A text, a script, and what it draws.
#[derive(Clone, Copy)]
struct Drawn(&'static str, &'static str, &'static [&'static str]);

fn drawn_runs() -> &'static [Drawn] {
    &[
        Drawn("\u{a0} a\u{2003}\u{85}é b ", "FBF", &["a", "b", "é"]),
        Drawn("a\u{2003}b ", "BF", &["b", "a"]),
    ]
}

fn drawn_ascii_runs() -> &'static [Drawn] {
    &[
        Drawn("a\x0Bb c", "BF", &["c", "a\x0Bb"]),
        Drawn(TWENTY, "B", &[TWENTY]),
        Drawn(
            "éééééééééééééééé éééééééééééééééé",
            "BF",
            &[SIXTEEN, SIXTEEN],
        ),
        Drawn("a\u{2003}b ", "B", &["a\u{2003}b"]),
    ]
}

#[test]
fn runs_from_both_ends(rt: HostRuntime) {
    for Drawn(text, script, want) in drawn_runs() {
        draws(&rt, text, SplitWhitespace::new(text), script, want);
    }
    for Drawn(text, script, want) in drawn_ascii_runs() {
        draws(&rt, text, SplitAsciiWhitespace::new(text), script, want);
    }
}

/// A text, and what is left of it without white space at both ends, at its front, at its end.
#[derive(Clone, Copy)]
struct Trimmed(&'static str, (usize, usize), (usize, usize), (usize, usize));

fn trimmed_rows() -> &'static [Trimmed] {
    &[
        Trimmed(" \u{a0}\u{2003}a\u{85}", (6, 7), (6, 9), (0, 7)),
        Trimmed("\u{2003}b\u{2003} ", (3, 4), (3, 8), (0, 4)),
        Trimmed("b", (0, 1), (0, 1), (0, 1)),
    ]
}

#[test]
fn trims(rt: HostRuntime) {
    for Trimmed(text, both, start, end) in trimmed_rows() {
        equals(
            &rt,
            &(trim(text), trim_start(text), trim_end(text)),
            &(*both, *start, *end),
        );
    }
}
