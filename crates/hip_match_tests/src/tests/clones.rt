//! Clones of iterators.
ghost use Rattle.std.specs.Prelude.{◌≡◌, Ok, IsOk};

use super::support::{equals, must};
use super::walks::gives;
use hip_match::indices::{MatchIndices, RMatchIndices};
use hip_match::lines::Lines;
use hip_match::matches::Matches;
use hip_match::ranges::{CloneRanges, Ranges, RangesBack};
use hip_match::rmatches::RMatches;
use hip_match::rsplit::{RSplit, RSplitN, RSplitTerminator};
use hip_match::split::{Split, SplitInclusive, SplitN, SplitTerminator};
use hip_match::white_space::{SplitAsciiWhitespace, SplitWhitespace};
use std::alloc::AllocError;
use std::process::Abort;
use std::test::Fail;

const TEXT: &str = "a,b,";

#[test]
fn clones_go_on_alike(rt: HostRuntime) {
    let mut ranges = Split::new("a,b,c", ',');
    equals(&rt, &ranges.next(), &Some((0, 1)));
    gives(&rt, "a,b,c", must(&rt, ranges.clone()), &["b", "c"]);
    equals(
        &rt,
        &(ranges.next_back(), ranges.next()),
        &(Some((4, 5)), Some((2, 3))),
    );
}

// The clone of a walk by a text allocates nothing, nor does that of lines.
fn of_a_text<'h>(ranges: &Split<'h, &'h str>) -> Result<Split<'h, &'h str>, AllocError>
    ensures { IsOk result }
{
    ranges.clone()
}

fn of_a_string<'h>(ranges: &RSplitN<'h, &'h String>) -> Result<RSplitN<'h, &'h String>, AllocError>
    ensures { IsOk result }
{
    ranges.clone()
}

fn of_lines<'h>(ranges: &Lines<'h>) -> Result<Lines<'h>, AllocError>
    ensures { IsOk result }
{
    ranges.clone()
}

fn of_runs<'h>(ranges: &SplitWhitespace<'h>) -> Result<SplitWhitespace<'h>, AllocError>
    ensures { IsOk result }
{
    ranges.clone()
}

// Asserts that a clone gives these parts of the text.
fn copies<R: CloneRanges>(rt: &impl Abort, text: &str, ranges: R, want: &[&str])
    requires ready { R.ready ranges }
    requires text { R.text ranges ≡ text.now }
{
    gives(rt, text, must(rt, ranges.clone()), want);
}

// Asserts that a clone made in the middle of the walk, and the walk itself, go on with these parts of the text.
fn go_on<R: CloneRanges>(rt: &impl Abort, text: &str, mut ranges: R, want: &[&str])
    requires ready { R.ready ranges }
    requires text { R.text ranges ≡ text.now }
{
    drop(ranges.next());
    gives(rt, text, must(rt, ranges.clone()), want);
    gives(rt, text, ranges, want);
}

/// A separator, and a text of three parts between it.
#[derive(Clone, Copy)]
struct Parted(&'static str, &'static str);

const PARTED: [Parted; 3] = [
    Parted("ab", "xabyabz"),
    Parted("abc", "xabcyabcz"),
    Parted(
        "0123456789012345678901234567890123456789",
        "x0123456789012345678901234567890123456789y0123456789012345678901234567890123456789z",
    ),
];

#[test]
fn by_texts(rt: HostRuntime) {
    for Parted(separator, text) in PARTED {
        go_on(&rt, text, Split::new(text, separator), &["y", "z"]);
        go_on(&rt, text, RSplit::new(text, separator), &["y", "x"]);
        assert!(rt; of_a_text(&Split::new(text, separator)).is_ok());
    }
}

#[test]
fn without_memory(rt: HostRuntime) -> Result<(), Fail> {
    let separator = String::from_str(rt.alloc(), ",")?;
    assert!(rt; of_a_string(&RSplitN::new(TEXT, 2, &separator)).is_ok());
    assert!(rt; of_lines(&Lines::new(TEXT)).is_ok());
    assert!(rt; of_runs(&SplitWhitespace::new(TEXT)).is_ok());
    Ok(())
}

#[test]
fn of_matches(rt: HostRuntime) {
    let commas = [",", ","];
    copies(&rt, TEXT, Matches::new(TEXT, ','), &commas);
    copies(&rt, TEXT, MatchIndices::new(TEXT, ','), &commas);
    copies(&rt, TEXT, RMatches::new(TEXT, ','), &commas);
    copies(&rt, TEXT, RMatchIndices::new(TEXT, ','), &commas);
}

#[test]
fn of_pieces(rt: HostRuntime) {
    copies(&rt, TEXT, SplitInclusive::new(TEXT, ','), &["a,", "b,"]);
    copies(&rt, TEXT, SplitTerminator::new(TEXT, ','), &["a", "b"]);
    copies(&rt, TEXT, SplitN::new(TEXT, 2, ','), &["a", "b,"]);
}

#[test]
fn of_pieces_from_the_end(rt: HostRuntime) {
    let backwards = ["", "b", "a"];
    copies(&rt, TEXT, RSplit::new(TEXT, ','), &backwards);
    copies(&rt, TEXT, RSplitN::new(TEXT, 9, ','), &backwards);
    copies(&rt, TEXT, RSplitTerminator::new(TEXT, ','), &["b", "a"]);
}

#[test]
fn of_lines_and_runs(rt: HostRuntime) {
    copies(&rt, TEXT, Lines::new(TEXT), &[TEXT]);
    copies(&rt, TEXT, SplitWhitespace::new(TEXT), &[TEXT]);
    copies(&rt, TEXT, SplitAsciiWhitespace::new(TEXT), &[TEXT]);
}
