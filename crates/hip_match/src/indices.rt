//! Matches whose positions are told too.
ghost use Rattle.std.specs.Prelude.{length};
ghost use Rattle.hip_match.specs.Iterators.{Gives};
ghost use Rattle.hip_match.specs.Leftmost.{leftmost};
ghost use Rattle.hip_match.specs.Rightmost.{rightmost};

use crate::matches::Matches;
use crate::pattern::{Pattern, ReversePattern};
use crate::ranges::{CloneRanges, Ranges, RangesBack};
use crate::rmatches::RMatches;

/// The ranges of matches that are told with their positions.
#[derive(Clone, Drop)]
pub struct Indices<I: Ranges> {
    matches: I,
}

/// The ranges of the occurrences of a pattern in a text, leftmost first.
pub type MatchIndices<'h, P> = Indices<Matches<'h, P>>;

/// The ranges of the rightmost occurrences of a pattern in a text, last first.
pub type RMatchIndices<'h, P> = Indices<RMatches<'h, P>>;

impl<'h, P: Pattern> Indices<Matches<'h, P>> {
    /// The ranges of the occurrences of `pattern` in `text`.
    #[inline]
    pub fn new(text: &'h str, pattern: P) -> Self
        requires { P.can_search pattern }
        ensures ranges { Gives ⟦<Indices<Matches<'h, P>> as Ranges>⟧ result text.now
            (leftmost (P.ends pattern text.now) (length text.now)) }
    {
        Indices {
            matches: Matches::new(text, pattern),
        }
    }
}

impl<'h, P: ReversePattern> Indices<RMatches<'h, P>> {
    /// The ranges of the rightmost occurrences of `pattern` in `text`.
    #[inline]
    pub fn new(text: &'h str, pattern: P) -> Self
        requires { P.can_search pattern }
        ensures ranges { Gives ⟦<Indices<RMatches<'h, P>> as Ranges>⟧ result text.now
            (rightmost (P.ends pattern text.now) (length text.now)) }
    {
        Indices {
            matches: RMatches::new(text, pattern),
        }
    }
}

impl<I: Ranges> Ranges for Indices<I> {
    ghost ready = { λ s. I.ready s.matches };

    ghost text = { λ s. I.text s.matches };

    ghost rest = { λ s. I.rest s.matches };

    #[inline]
    fn next(&mut self) -> Option<(usize, usize)> {
        self.matches.next()
    }
}

impl<I: RangesBack> RangesBack for Indices<I> {
    #[inline]
    fn next_back(&mut self) -> Option<(usize, usize)> {
        self.matches.next_back()
    }
}

impl<I: CloneRanges> CloneRanges for Indices<I> {
    ghost clone_keeps = { λ ranges copy is. I.clone_keeps ranges.matches copy.matches is };
}
