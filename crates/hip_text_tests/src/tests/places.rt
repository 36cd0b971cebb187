//! Matches with their positions.
use super::suite::{OfBackend, run_by_each};
use super::support::equals;
use hip_cuts::hip_match::indices::{MatchIndices, RMatchIndices};
use hip_cuts::hip_match::pattern::{OneChar, Pattern, ReversePattern};
use hip_cuts::{Backend, HipStr, IterWrapper, TextCuts};
use std::alloc::{AllocError, Global};
use std::process::Abort;

/// The answer of a walk's `next`: a position and a piece.
pub(crate) type Found<'b, B> = Option<(usize, Result<HipStr<'b, B>, AllocError>)>;

/// Whether this text was found at this place, or nothing was.
pub(crate) fn is_match<B: Backend>(found: Found<'_, B>, place: Option<usize>, text: &str) -> bool {
    match found {
        Some((at, Ok(piece))) => (place == Some(at)) & piece.str_eq(text),
        Some((_, Err(_))) => false,
        None => place.is_none(),
    }
}

/// A text, a pattern, and the places of its matches from the front and from the end.
type Row = (
    &'static str,
    &'static str,
    [Option<usize>; 5],
    [Option<usize>; 5],
);

const ROWS: &[Row] = &[
    (
        "aaa",
        "aa",
        [Some(0), None, None, None, None],
        [Some(1), None, None, None, None],
    ),
    (
        "ababababa",
        "aba",
        [Some(0), Some(4), None, None, None],
        [Some(6), Some(2), None, None, None],
    ),
    (
        "é",
        "",
        [Some(0), Some(2), None, None, None],
        [Some(2), Some(0), None, None, None],
    ),
    (
        "abc",
        "",
        [Some(0), Some(1), Some(2), Some(3), None],
        [Some(3), Some(2), Some(1), Some(0), None],
    ),
];

fn place_rows() -> &'static [Row] {
    ROWS
}

/// Whether this is the first match that is left.
fn finds_first<'h, 'b, B: Backend, P: Pattern>(
    matches: &mut IterWrapper<'h, 'b, B, MatchIndices<'h, P>>,
    place: Option<usize>,
    text: &str,
) -> bool {
    is_match(matches.next(), place, text)
}

/// Whether this is the last match that is left.
fn finds_last<'h, 'b, B: Backend, P: OneChar>(
    matches: &mut IterWrapper<'h, 'b, B, MatchIndices<'h, P>>,
    place: Option<usize>,
    text: &str,
) -> bool {
    is_match(matches.next_back(), place, text)
}

/// Whether this is the first that is left of the matches from the end.
fn rfinds_first<'h, 'b, B: Backend, P: ReversePattern>(
    matches: &mut IterWrapper<'h, 'b, B, RMatchIndices<'h, P>>,
    place: Option<usize>,
    text: &str,
) -> bool {
    is_match(matches.next(), place, text)
}

/// Whether this is the last that is left of the matches from the end.
fn rfinds_last<'h, 'b, B: Backend, P: OneChar>(
    matches: &mut IterWrapper<'h, 'b, B, RMatchIndices<'h, P>>,
    place: Option<usize>,
    text: &str,
) -> bool {
    is_match(matches.next_back(), place, text)
}

/// Whether these are the places of the matches, and then there is none.
fn lists<B: Backend>(
    source: &HipStr<'_, B>,
    alloc: Global,
    pattern: &str,
    places: [Option<usize>; 5],
) -> bool {
    let mut matches = source.match_indices(alloc, pattern);
    finds_first(&mut matches, places[0], pattern)
        & finds_first(&mut matches, places[1], pattern)
        & finds_first(&mut matches, places[2], pattern)
        & finds_first(&mut matches, places[3], pattern)
        & finds_first(&mut matches, places[4], pattern)
}

/// Whether these are the places of the matches from the end, and then there is none.
fn lists_back<B: Backend>(
    source: &HipStr<'_, B>,
    alloc: Global,
    pattern: &str,
    places: [Option<usize>; 5],
) -> bool {
    let mut matches = source.rmatch_indices(alloc, pattern);
    rfinds_first(&mut matches, places[0], pattern)
        & rfinds_first(&mut matches, places[1], pattern)
        & rfinds_first(&mut matches, places[2], pattern)
        & rfinds_first(&mut matches, places[3], pattern)
        & rfinds_first(&mut matches, places[4], pattern)
}

/// Whether the digits of `a1b2c3` are drawn from both ends.
pub(crate) fn draws_digits<B: Backend, P: OneChar>(alloc: Global, pattern: P) -> bool
    requires { P.can_search pattern }
{
    let source = HipStr::<B>::borrowed("a1b2c3");
    let mut matches = source.match_indices(alloc, pattern);
    finds_first(&mut matches, Some(1), "1")
        & finds_last(&mut matches, Some(5), "3")
        & finds_first(&mut matches, Some(3), "2")
        & finds_last(&mut matches, None, "")
}

/// Whether the digits of `a1b2c3` are drawn from both ends of the matches from the end.
pub(crate) fn draws_digits_back<B: Backend, P: OneChar>(alloc: Global, pattern: P) -> bool
    requires { P.can_search pattern }
{
    let source = HipStr::<B>::borrowed("a1b2c3");
    let mut matches = source.rmatch_indices(alloc, pattern);
    rfinds_first(&mut matches, Some(5), "3")
        & rfinds_last(&mut matches, Some(1), "1")
        & rfinds_first(&mut matches, Some(3), "2")
        & rfinds_last(&mut matches, None, "")
}

struct Places;

impl OfBackend for Places {
    fn run<B: Backend>(rt: &impl Abort, alloc: Global) {
        for (text, pattern, places, places_back) in place_rows() {
            let source = HipStr::<B>::borrowed(*text);
            let is_same = lists(&source, alloc, pattern, *places)
                & lists_back(&source, alloc, pattern, *places_back);
            equals(rt, &(*text, is_same), &(*text, true));
        }
    }
}

#[test]
fn matches_have_their_places(rt: HostRuntime) {
    run_by_each::<Places>(&rt, rt.alloc());
}
