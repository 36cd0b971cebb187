//! The occurrences of a pattern, rightmost first.
ghost use Rattle.std.specs.Prelude.{[], length, if◌then◌else◌};
ghost use Rattle.hip_match.specs.Clones.{ClonesKeep};
ghost use Rattle.hip_match.specs.Iterators.{Gives, GivesAlike};
ghost use Rattle.hip_match.specs.Rightmost.{rightmost, rightmost_between};
ghost use Rattle.hip_match.specs.Ready.{IsBackWindow, IsBetweenBack, IsGoing};

use crate::boundaries::boundary_before;
use crate::pattern::{ClonePattern, OneChar, ReversePattern};
use crate::ranges::{CloneRanges, Ranges, RangesBack};
use std::alloc::AllocError;

/// The occurrences of a pattern in a text, rightmost first, no two overlapping.
#[derive(Drop)]
pub struct RMatches<'h, P: ReversePattern> {
    text: &'h str,
    pattern: P,
    searcher: P::Searcher,
    from: usize,
    to: usize,
    done: bool,
}

// The searcher is prepared anew, so that nothing but the pattern's clone may allocate.
impl<'h, P: ReversePattern + Clone> Clone for RMatches<'h, P> {
    ghost is_clone = { λ m copy. ClonesKeep P.is_clone P.can_search P.ends →
        GivesAlike ⟦<RMatches<'h, P> as Ranges>⟧ m copy };

    ghost is_infallible = { λ m. P.is_infallible m.pattern };

    fn clone(&self) -> Result<Self, AllocError> {
        let pattern = self.pattern.clone()?;
        let searcher = pattern.reverse_searcher(self.text, self.from, self.to);
        Ok(RMatches {
            text: self.text,
            pattern,
            searcher,
            from: self.from,
            to: self.to,
            done: self.done,
        })
    }
}

impl<'h, P: ReversePattern + ClonePattern> CloneRanges for RMatches<'h, P> {
    ghost clone_keeps = { λ _ _ is. is P.clones_keep };
}

impl<'h, P: ReversePattern> RMatches<'h, P> {
    /// The occurrences of `pattern` in `text`.
    #[tactic(auto, using(crate::proofs::Rules::text_ends))]
    #[inline]
    pub fn new(text: &'h str, pattern: P) -> Self
        requires { P.can_search pattern }
        ensures ranges { Gives ⟦<RMatches<'h, P> as Ranges>⟧ result text.now
            (rightmost (P.ends pattern text.now) (length text.now)) }
        ensures between { IsBetweenBack text.now 0
            (rightmost (P.ends pattern text.now) (length text.now)) (length text.now) }
    {
        let searcher = pattern.reverse_searcher(text, 0, text.len());
        RMatches {
            text,
            pattern,
            searcher,
            from: 0,
            to: text.len(),
            done: false,
        }
    }
}

impl<'h, P: ReversePattern> Ranges for RMatches<'h, P> {
    ghost ready = { λ s. IsBackWindow (P.can_search s.pattern × IsGoing s.done (P.is_ready s.pattern s.searcher s.text.now s.from) (P.is_ready_back s.pattern s.searcher s.text.now s.to)) s.text.now (P.ends s.pattern s.text.now) s.from s.to };

    ghost text = { λ s. s.text.now };

    ghost rest = { λ s. if s.done then [] else rightmost_between (P.ends s.pattern s.text.now) s.from s.to };

    #[inline]
    fn next(&mut self) -> Option<(usize, usize)> {
        if self.done {
            return None;
        }
        match self
            .pattern
            .last_match_by(&mut self.searcher, self.text, self.to)
        {
            Some((start, end)) if self.from <= start => {
                if start < end {
                    self.to = start;
                } else if self.from < start {
                    self.to = boundary_before(self.text, start);
                } else {
                    self.done = true;
                }
                Some((start, end))
            }
            _ => {
                self.done = true;
                None
            }
        }
    }
}

impl<'h, P: OneChar> RangesBack for RMatches<'h, P> {
    #[inline]
    fn next_back(&mut self) -> Option<(usize, usize)> {
        if self.done {
            return None;
        }
        match self
            .pattern
            .next_match_by(&mut self.searcher, self.text, self.from)
        {
            Some((start, end)) if end <= self.to => {
                self.from = end;
                Some((start, end))
            }
            _ => {
                self.done = true;
                None
            }
        }
    }
}
