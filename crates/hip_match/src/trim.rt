//! The range of a text without matches, or white space, at its ends.
#![tactic(auto, using(crate::proofs::Rules::trim))]

ghost use Rattle.std.specs.Prelude.{◌≡◌, length, IfSome};
ghost use Rattle.std.specs.Char.{is_whitespace};
ghost use Rattle.std.specs.Str.{IsCharBoundary};
ghost use Rattle.hip_match.specs.Occurrence.{IsCut};
ghost use Rattle.hip_match.specs.Characters.{char_ends};
ghost use Rattle.hip_match.specs.Trims.{TrimsFront, TrimsBack, strip_prefix, strip_suffix, split_once, rsplit_once};

use crate::matches::Matches;
use crate::pattern::{DoubleEndedPattern, Pattern, ReversePattern};
use crate::ranges::Ranges;
use crate::rmatches::RMatches;
use crate::white_space::WhiteSpace;

// Where the longest front of nonempty matches ends.
#[inline]
fn front_of<P: Pattern>(text: &str, pattern: &P) -> usize
    requires { P.can_search pattern.now }
    ensures front { TrimsFront (P.ends pattern.now text.now) result }
    ensures boundary { IsCharBoundary text.now result }
{
    let mut at = 0;
    while let Some(end) = pattern.match_at(text, at) {
        if end == at {
            break;
        }
        at = end;
    }
    at
}

// Where the longest back of nonempty matches starts, of what lies from `from` on.
#[inline]
fn back_of<P: ReversePattern>(text: &str, pattern: &P, from: usize) -> usize
    requires can { P.can_search pattern.now }
    requires boundary { IsCharBoundary text.now from }
    ensures back { TrimsBack (P.ends pattern.now text.now) from (length text.now) result }
    ensures boundary { IsCharBoundary text.now result }
{
    let mut to = text.len();
    while let Some(start) = pattern.match_before(text, to) {
        if start == to || start < from {
            break;
        }
        to = start;
    }
    to
}

/// The range without the longest front of nonempty matches. An empty pattern removes nothing.
#[inline]
pub fn trim_start_matches<P: Pattern>(text: &str, pattern: P) -> (usize, usize)
    requires { P.can_search pattern }
    ensures front { TrimsFront (P.ends pattern text.now) result.0 }
    ensures end { result.1 ≡ length text.now }
    ensures cut { IsCut text.now result }
{
    (front_of(text, &pattern), text.len())
}

/// The range without the longest back of nonempty matches. An empty pattern removes nothing.
#[inline]
pub fn trim_end_matches<P: ReversePattern>(text: &str, pattern: P) -> (usize, usize)
    requires { P.can_search pattern }
    ensures start { result.0 ≡ 0 }
    ensures back { TrimsBack (P.ends pattern text.now) 0 (length text.now) result.1 }
    ensures cut { IsCut text.now result }
{
    (0, back_of(text, &pattern, 0))
}

/// The range without the longest front of matches, and without the longest back of them in what is left.
#[inline]
pub fn trim_matches<P: DoubleEndedPattern>(text: &str, pattern: P) -> (usize, usize)
    requires { P.can_search pattern }
    ensures front { TrimsFront (P.ends pattern text.now) result.0 }
    ensures back { TrimsBack (P.ends pattern text.now) result.0 (length text.now) result.1 }
    ensures cut { IsCut text.now result }
{
    let start = front_of(text, &pattern);
    (start, back_of(text, &pattern, start))
}

/// The range without white space at its front.
#[inline]
pub fn trim_start(text: &str) -> (usize, usize)
    ensures front { TrimsFront (char_ends is_whitespace text.now) result.0 }
    ensures end { result.1 ≡ length text.now }
    ensures cut { IsCut text.now result }
{
    trim_start_matches(text, WhiteSpace)
}

/// The range without white space at its end.
#[inline]
pub fn trim_end(text: &str) -> (usize, usize)
    ensures start { result.0 ≡ 0 }
    ensures back { TrimsBack (char_ends is_whitespace text.now) 0 (length text.now) result.1 }
    ensures cut { IsCut text.now result }
{
    trim_end_matches(text, WhiteSpace)
}

/// The range without white space at its front and at its end.
#[inline]
pub fn trim(text: &str) -> (usize, usize)
    ensures front { TrimsFront (char_ends is_whitespace text.now) result.0 }
    ensures back { TrimsBack (char_ends is_whitespace text.now) result.0
        (length text.now) result.1 }
    ensures cut { IsCut text.now result }
{
    trim_matches(text, WhiteSpace)
}

/// The range without one match at its front, if there is one.
#[inline]
pub fn strip_prefix<P: Pattern>(text: &str, pattern: P) -> Option<(usize, usize)>
    requires { P.can_search pattern }
    ensures value { result ≡ strip_prefix (P.ends pattern text.now) (length text.now) }
    ensures cut { IfSome result (IsCut text.now) }
{
    let end = pattern.match_at(text, 0)?;
    Some((end, text.len()))
}

/// The range without one match at its end, if there is one.
#[inline]
pub fn strip_suffix<P: ReversePattern>(text: &str, pattern: P) -> Option<(usize, usize)>
    requires { P.can_search pattern }
    ensures value { result ≡ strip_suffix (P.ends pattern text.now) (length text.now) }
    ensures cut { IfSome result (IsCut text.now) }
{
    let start = pattern.match_before(text, text.len())?;
    Some((0, start))
}

/// The range before the first match and the range behind it, if there is one.
#[inline]
pub fn split_once<P: Pattern>(text: &str, pattern: P) -> Option<((usize, usize), (usize, usize))>
    requires { P.can_search pattern }
    ensures value { result ≡ split_once (P.ends pattern text.now) (length text.now) }
    ensures cut { IfSome result (λ parts. IsCut text.now parts.0 × IsCut text.now parts.1) }
{
    let mut matches = Matches::new(text, pattern);
    let (start, end) = matches.next()?;
    Some(((0, start), (end, text.len())))
}

/// The range before the rightmost match and the range behind it, if there is one.
#[inline]
pub fn rsplit_once<P: ReversePattern>(
    text: &str,
    pattern: P,
) -> Option<((usize, usize), (usize, usize))>
    requires { P.can_search pattern }
    ensures value { result ≡ rsplit_once (P.ends pattern text.now) (length text.now) }
    ensures cut { IfSome result (λ parts. IsCut text.now parts.0 × IsCut text.now parts.1) }
{
    let mut matches = RMatches::new(text, pattern);
    let (start, end) = matches.next()?;
    Some(((0, start), (end, text.len())))
}
