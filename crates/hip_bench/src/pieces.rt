//! Pieces of a text: splits, matches, lines and words. Where the input isn't a text, the answer is 0.
ghost use Rattle.std.specs.Prelude.{◌≡◌};

use crate::ring::{Ring, mix};
use hipstr::Rc;
use hipstr::pattern::{CharPred, MatchIndices, Pattern, ReversePattern};
use hipstr::string::{HipStr, IterWrapper, TextCuts, Unnumbered};
use std::alloc::Global;
use std::str;

/// The characters of a set.
const SEPARATORS: &[char] = &[',', ';'];

/// Puts a piece, and answers its length.
#[inline(always)]
pub(crate) fn put<'b>(ring: &mut Ring<'b, Rc>, piece: HipStr<'b, Rc>) -> u64 {
    let len = piece.len() as u64;
    ring.put(piece.into_bytes());
    len
}

/// Puts all pieces of a walk, and sums their lengths.
fn put_pieces<'h, 'b, I: Unnumbered + Drop>(
    pieces: IterWrapper<'h, 'b, Rc, I>,
    ring: &mut Ring<'b, Rc>,
) -> Option<u64> {
    let mut sum = 0u64;
    for piece in pieces {
        sum = sum.wrapping_add(put(ring, piece.ok()?));
    }
    Some(sum)
}

/// Puts all matches, and sums their places and their lengths.
fn put_places<'h, 'b, P: Pattern>(
    matches: IterWrapper<'h, 'b, Rc, MatchIndices<'h, P>>,
    ring: &mut Ring<'b, Rc>,
) -> Option<u64> {
    let mut sum = 0u64;
    for (place, piece) in matches {
        sum = sum
            .wrapping_add(place as u64)
            .wrapping_add(put(ring, piece.ok()?));
    }
    Some(sum)
}

/// How a text is taken apart.
#[derive(Clone, Copy)]
enum Parts {
    Split,
    SplitInclusive,
    RSplit,
    Matches,
    MatchIndices,
    // These three need no pattern.
    Lines,
    SplitWhitespace,
    SplitAsciiWhitespace,
}

/// Puts all pieces of a text.
fn put_all<'b, P: ReversePattern>(
    alloc: Global,
    text: &HipStr<'b, Rc>,
    parts: Parts,
    pattern: P,
    ring: &mut Ring<'b, Rc>,
) -> Option<u64>
    requires { P.can_search pattern }
{
    match parts {
        Parts::Split => put_pieces(text.split(alloc, pattern), ring),
        Parts::SplitInclusive => put_pieces(text.split_inclusive(alloc, pattern), ring),
        Parts::RSplit => put_pieces(text.rsplit(alloc, pattern), ring),
        Parts::Matches => put_pieces(text.matches(alloc, pattern), ring),
        Parts::MatchIndices => put_places(text.match_indices(alloc, pattern), ring),
        Parts::Lines => put_pieces(text.lines(alloc), ring),
        Parts::SplitWhitespace => put_pieces(text.split_whitespace(alloc), ring),
        Parts::SplitAsciiWhitespace => put_pieces(text.split_ascii_whitespace(alloc), ring),
    }
}

/// The input as a text that has an owner.
pub(crate) fn owned<'b>(alloc: Global, input: &[u8]) -> Option<HipStr<'b, Rc>> {
    HipStr::from_str(alloc, str::from_utf8(input).ok()?).ok()
}

/// The input as a text that is lent.
pub(crate) fn lent<'b>(input: &'b [u8]) -> Option<HipStr<'b, Rc>> {
    Some(HipStr::borrowed(str::from_utf8(input).ok()?))
}

/// Each round puts all pieces of the text.
fn rounds_by<P: ReversePattern + Copy>(
    alloc: Global,
    text: Option<HipStr<'_, Rc>>,
    parts: Parts,
    pattern: P,
    rounds: u64,
) -> Option<u64>
    requires { P.can_search pattern }
{
    let text = text?;
    let mut ring = Ring::new(alloc).ok()?;
    let mut sum = 0u64;
    for _ in 0..rounds {
        sum = sum.wrapping_add(put_all(alloc, &text, parts, pattern, &mut ring)?);
    }
    Some(ring.fold(sum))
}

/// Like [`rounds_by`], with a closure that passes `,` and `;`.
fn rounds_by_closure(
    alloc: Global,
    text: Option<HipStr<'_, Rc>>,
    parts: Parts,
    rounds: u64,
) -> Option<u64> {
    let text = text?;
    let mut ring = Ring::new(alloc).ok()?;
    let mut sum = 0u64;
    for _ in 0..rounds {
        let pattern = CharPred::new(|c| c == ',' || c == ';');
        sum = sum.wrapping_add(put_all(alloc, &text, parts, pattern, &mut ring)?);
    }
    Some(ring.fold(sum))
}

/// Each round makes a list of the parts between commas, and sums their lengths.
fn collected(alloc: Global, input: &[u8], rounds: u64) -> Option<u64> {
    let text = owned(alloc, input)?;
    let mut total = 0;
    for _ in 0..rounds {
        let list = text.split(alloc, ',').collect().ok()?;
        let mut sum = 0u64;
        for piece in &list {
            sum = sum.wrapping_add(piece.len() as u64);
        }
        total = mix(mix(total, list.len() as u64), sum);
    }
    Some(total)
}

#[unsafe(no_mangle)]
pub extern "C" fn hip_split_char(alloc: Global, input: &[u8], rounds: u64) -> u64 {
    rounds_by(alloc, owned(alloc, input), Parts::Split, ',', rounds).unwrap_or(0)
}

#[unsafe(no_mangle)]
pub extern "C" fn hip_split_char_borrowed(alloc: Global, input: &[u8], rounds: u64) -> u64 {
    rounds_by(alloc, lent(input), Parts::Split, ',', rounds).unwrap_or(0)
}

#[unsafe(no_mangle)]
pub extern "C" fn hip_split_char_collect(alloc: Global, input: &[u8], rounds: u64) -> u64 {
    collected(alloc, input, rounds).unwrap_or(0)
}

#[unsafe(no_mangle)]
pub extern "C" fn hip_split_str(alloc: Global, input: &[u8], rounds: u64) -> u64 {
    rounds_by(alloc, owned(alloc, input), Parts::Split, ",", rounds).unwrap_or(0)
}

#[unsafe(no_mangle)]
pub extern "C" fn hip_split_str2(alloc: Global, input: &[u8], rounds: u64) -> u64 {
    rounds_by(alloc, owned(alloc, input), Parts::Split, "ab", rounds).unwrap_or(0)
}

#[unsafe(no_mangle)]
pub extern "C" fn hip_split_pred(alloc: Global, input: &[u8], rounds: u64) -> u64 {
    rounds_by_closure(alloc, owned(alloc, input), Parts::Split, rounds).unwrap_or(0)
}

#[unsafe(no_mangle)]
pub extern "C" fn hip_split_set(alloc: Global, input: &[u8], rounds: u64) -> u64 {
    rounds_by(alloc, owned(alloc, input), Parts::Split, SEPARATORS, rounds).unwrap_or(0)
}

#[unsafe(no_mangle)]
pub extern "C" fn hip_split_pred_mixed(alloc: Global, input: &[u8], rounds: u64) -> u64 {
    rounds_by_closure(alloc, owned(alloc, input), Parts::Split, rounds).unwrap_or(0)
}

#[unsafe(no_mangle)]
pub extern "C" fn hip_split_char_mixed(alloc: Global, input: &[u8], rounds: u64) -> u64 {
    rounds_by(alloc, owned(alloc, input), Parts::Split, ',', rounds).unwrap_or(0)
}

#[unsafe(no_mangle)]
pub extern "C" fn hip_split_inclusive(alloc: Global, input: &[u8], rounds: u64) -> u64 {
    rounds_by(
        alloc,
        owned(alloc, input),
        Parts::SplitInclusive,
        ',',
        rounds,
    )
    .unwrap_or(0)
}

#[unsafe(no_mangle)]
pub extern "C" fn hip_rsplit_char(alloc: Global, input: &[u8], rounds: u64) -> u64 {
    rounds_by(alloc, owned(alloc, input), Parts::RSplit, ',', rounds).unwrap_or(0)
}

#[unsafe(no_mangle)]
pub extern "C" fn hip_rsplit_str(alloc: Global, input: &[u8], rounds: u64) -> u64 {
    rounds_by(alloc, owned(alloc, input), Parts::RSplit, ",", rounds).unwrap_or(0)
}

#[unsafe(no_mangle)]
pub extern "C" fn hip_rsplit_str2(alloc: Global, input: &[u8], rounds: u64) -> u64 {
    rounds_by(alloc, owned(alloc, input), Parts::RSplit, "ab", rounds).unwrap_or(0)
}

#[unsafe(no_mangle)]
pub extern "C" fn hip_rsplit_pred(alloc: Global, input: &[u8], rounds: u64) -> u64 {
    rounds_by_closure(alloc, owned(alloc, input), Parts::RSplit, rounds).unwrap_or(0)
}

#[unsafe(no_mangle)]
pub extern "C" fn hip_lines(alloc: Global, input: &[u8], rounds: u64) -> u64 {
    rounds_by(alloc, owned(alloc, input), Parts::Lines, ' ', rounds).unwrap_or(0)
}

#[unsafe(no_mangle)]
pub extern "C" fn hip_split_whitespace(alloc: Global, input: &[u8], rounds: u64) -> u64 {
    rounds_by(
        alloc,
        owned(alloc, input),
        Parts::SplitWhitespace,
        ' ',
        rounds,
    )
    .unwrap_or(0)
}

#[unsafe(no_mangle)]
pub extern "C" fn hip_split_whitespace_mixed(alloc: Global, input: &[u8], rounds: u64) -> u64 {
    rounds_by(
        alloc,
        owned(alloc, input),
        Parts::SplitWhitespace,
        ' ',
        rounds,
    )
    .unwrap_or(0)
}

#[unsafe(no_mangle)]
pub extern "C" fn hip_split_ascii_whitespace(alloc: Global, input: &[u8], rounds: u64) -> u64 {
    rounds_by(
        alloc,
        owned(alloc, input),
        Parts::SplitAsciiWhitespace,
        ' ',
        rounds,
    )
    .unwrap_or(0)
}

#[unsafe(no_mangle)]
pub extern "C" fn hip_matches_str2(alloc: Global, input: &[u8], rounds: u64) -> u64 {
    rounds_by(alloc, owned(alloc, input), Parts::Matches, "ab", rounds).unwrap_or(0)
}

#[unsafe(no_mangle)]
pub extern "C" fn hip_matches_pred(alloc: Global, input: &[u8], rounds: u64) -> u64 {
    rounds_by_closure(alloc, owned(alloc, input), Parts::Matches, rounds).unwrap_or(0)
}

#[unsafe(no_mangle)]
pub extern "C" fn hip_match_indices_char(alloc: Global, input: &[u8], rounds: u64) -> u64 {
    rounds_by(alloc, owned(alloc, input), Parts::MatchIndices, ',', rounds).unwrap_or(0)
}

#[unsafe(no_mangle)]
pub extern "C" fn hip_match_indices_str2(alloc: Global, input: &[u8], rounds: u64) -> u64 {
    rounds_by(
        alloc,
        owned(alloc, input),
        Parts::MatchIndices,
        "ab",
        rounds,
    )
    .unwrap_or(0)
}
