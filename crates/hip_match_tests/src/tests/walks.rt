//! The iterators by name, and what is asserted of any of them.
ghost use Rattle.std.specs.Prelude.{◌≡◌};

use super::support::equals;
use hip_match::indices::{MatchIndices, RMatchIndices};
use hip_match::matches::Matches;
use hip_match::pattern::{OneChar, ReversePattern};
use hip_match::ranges::{Ranges, RangesBack};
use hip_match::rmatches::RMatches;
use hip_match::rsplit::{RSplit, RSplitN, RSplitTerminator};
use hip_match::split::{Split, SplitInclusive, SplitN, SplitTerminator};
use std::process::Abort;

/// An iterator over what a pattern makes of a text.
#[derive(Clone, Copy)]
pub(crate) enum Walk {
    Matches,
    MatchIndices,
    RMatches,
    RMatchIndices,
    Split,
    SplitInclusive,
    SplitTerminator,
    SplitN(usize),
    RSplit,
    RSplitTerminator,
    RSplitN(usize),
}

/// A walk over a text by a pattern, and the parts of the text that it gives.
#[derive(Clone, Copy)]
pub(crate) struct Row<P>(
    pub Walk,
    pub &'static str,
    pub P,
    pub &'static [&'static str],
);

/// A walk over a text by a character, drawn from the ends that a script names, and the parts of the text that it gives.
#[derive(Clone, Copy)]
pub(crate) struct Drawn(
    pub Walk,
    pub &'static str,
    pub char,
    pub &'static str,
    pub &'static [&'static str],
);

/// Asserts that the ranges are these parts of the text, from the front, and then none.
pub(crate) fn gives<R: Ranges + Drop>(rt: &impl Abort, text: &str, mut ranges: R, want: &[&str])
    requires ready { R.ready ranges }
    requires text { R.text ranges ≡ text.now }
{
    for piece in want {
        let Some((start, end)) = ranges.next() else {
            panic!(rt; "too few pieces");
        };
        equals(rt, &&text[start..end], &(*piece));
    }
    equals(rt, &(ranges.next(), ranges.next()), &(None, None));
}

/// Asserts that these are the ranges, from the front, and then none.
pub(crate) fn lists<R: Ranges + Drop>(rt: &impl Abort, mut ranges: R, want: &[(usize, usize)])
    requires { R.ready ranges }
{
    for range in want {
        equals(rt, &ranges.next(), &Some(*range));
    }
    equals(rt, &(ranges.next(), ranges.next()), &(None, None));
}

/// Asserts that the script, of `F` and `B`, draws these parts of the text, and that then there are none at either end.
pub(crate) fn draws<R: RangesBack + Drop>(
    rt: &impl Abort,
    text: &str,
    mut ranges: R,
    script: &str,
    want: &[&str],
)
    requires ready { R.ready ranges }
    requires text { R.text ranges ≡ text.now }
{
    for (end, piece) in script.as_bytes().iter().zip(want) {
        let drawn = if *end == b'F' {
            ranges.next()
        } else {
            ranges.next_back()
        };
        let Some((start, end)) = drawn else {
            panic!(rt; "too few pieces");
        };
        equals(rt, &&text[start..end], &(*piece));
    }
    equals(
        rt,
        &(ranges.next(), ranges.next_back(), ranges.next()),
        &(None, None, None),
    );
}

/// Asserts what a walk gives from its front.
pub(crate) fn walks<P: ReversePattern>(
    rt: &impl Abort,
    kind: Walk,
    text: &str,
    pattern: P,
    want: &[&str],
)
    requires { P.can_search pattern }
{
    match kind {
        Walk::Matches => gives(rt, text, Matches::new(text, pattern), want),
        Walk::MatchIndices => gives(rt, text, MatchIndices::new(text, pattern), want),
        Walk::RMatches => gives(rt, text, RMatches::new(text, pattern), want),
        Walk::RMatchIndices => gives(rt, text, RMatchIndices::new(text, pattern), want),
        Walk::Split => gives(rt, text, Split::new(text, pattern), want),
        Walk::SplitInclusive => gives(rt, text, SplitInclusive::new(text, pattern), want),
        Walk::SplitTerminator => gives(rt, text, SplitTerminator::new(text, pattern), want),
        Walk::SplitN(count) => gives(rt, text, SplitN::new(text, count, pattern), want),
        Walk::RSplit => gives(rt, text, RSplit::new(text, pattern), want),
        Walk::RSplitTerminator => gives(rt, text, RSplitTerminator::new(text, pattern), want),
        Walk::RSplitN(count) => gives(rt, text, RSplitN::new(text, count, pattern), want),
    }
}

/// Asserts what a script draws from a walk.
pub(crate) fn walk_by_script<P: OneChar>(
    rt: &impl Abort,
    kind: Walk,
    text: &str,
    pattern: P,
    script: &str,
    want: &[&str],
)
    requires { P.can_search pattern }
{
    match kind {
        Walk::Matches => draws(rt, text, Matches::new(text, pattern), script, want),
        Walk::MatchIndices => draws(rt, text, MatchIndices::new(text, pattern), script, want),
        Walk::RMatches => draws(rt, text, RMatches::new(text, pattern), script, want),
        Walk::RMatchIndices => draws(rt, text, RMatchIndices::new(text, pattern), script, want),
        Walk::Split => draws(rt, text, Split::new(text, pattern), script, want),
        Walk::SplitInclusive => draws(rt, text, SplitInclusive::new(text, pattern), script, want),
        Walk::SplitTerminator => draws(rt, text, SplitTerminator::new(text, pattern), script, want),
        Walk::RSplit => draws(rt, text, RSplit::new(text, pattern), script, want),
        Walk::RSplitTerminator => {
            draws(rt, text, RSplitTerminator::new(text, pattern), script, want)
        }
        Walk::SplitN(_) | Walk::RSplitN(_) => panic!(rt; "it has no back"),
    }
}
