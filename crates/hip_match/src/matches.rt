//! The occurrences of a pattern, leftmost first.
ghost use Rattle.std.specs.Prelude.{◌<◌, [], IfSome, length, if◌then◌else◌};
ghost use Rattle.hip_match.specs.Clones.{ClonesKeep};
ghost use Rattle.hip_match.specs.Iterators.{Gives, GivesAlike, Takes};
ghost use Rattle.hip_match.specs.Leftmost.{leftmost, leftmost_between};
ghost use Rattle.hip_match.specs.Ready.{IsFrontWindow, IsBetween, IsGoing, TakesLast, TakesLastCut};

use crate::boundaries::boundary_after;
use crate::pattern::{ClonePattern, OneChar, Pattern};
use crate::ranges::{CloneRanges, Ranges, RangesBack};
use std::alloc::AllocError;

/// The occurrences of a pattern in a text, leftmost first, no two overlapping.
#[derive(Drop)]
pub struct Matches<'h, P: Pattern> {
    text: &'h str,
    pattern: P,
    searcher: P::Searcher,
    from: usize,
    to: usize,
    done: bool,
}

// The searcher is prepared anew, so that nothing but the pattern's clone may allocate.
impl<'h, P: Pattern + Clone> Clone for Matches<'h, P> {
    ghost is_clone = { λ m copy. ClonesKeep P.is_clone P.can_search P.ends →
        GivesAlike ⟦<Matches<'h, P> as Ranges>⟧ m copy };

    ghost is_infallible = { λ m. P.is_infallible m.pattern };

    fn clone(&self) -> Result<Self, AllocError> {
        let pattern = self.pattern.clone()?;
        let searcher = pattern.searcher(self.text, self.from, self.to);
        Ok(Matches {
            text: self.text,
            pattern,
            searcher,
            from: self.from,
            to: self.to,
            done: self.done,
        })
    }
}

impl<'h, P: ClonePattern> CloneRanges for Matches<'h, P> {
    ghost clone_keeps = { λ _ _ is. is P.clones_keep };
}

impl<'h, P: Pattern> Matches<'h, P> {
    /// The occurrences of `pattern` in `text`.
    #[inline]
    pub fn new(text: &'h str, pattern: P) -> Self
        requires { P.can_search pattern }
        ensures ranges { Gives ⟦<Matches<'h, P> as Ranges>⟧ result text.now
            (leftmost (P.ends pattern text.now) (length text.now)) }
        ensures between { IsBetween text.now 0
            (leftmost (P.ends pattern text.now) (length text.now)) (length text.now) }
    {
        let searcher = pattern.searcher(text, 0, text.len());
        Matches {
            text,
            pattern,
            searcher,
            from: 0,
            to: text.len(),
            done: false,
        }
    }
}

impl<'h, P: Pattern> Ranges for Matches<'h, P> {
    ghost ready = { λ s. IsFrontWindow (P.can_search s.pattern × IsGoing s.done (P.is_ready s.pattern s.searcher s.text.now s.from) (P.is_ready_back s.pattern s.searcher s.text.now s.to)) s.text.now (P.ends s.pattern s.text.now) s.from s.to };

    ghost text = { λ s. s.text.now };

    ghost rest = { λ s. if s.done then [] else leftmost_between (P.ends s.pattern s.text.now) s.from s.to };

    #[inline(always)]
    fn next(&mut self) -> Option<(usize, usize)> {
        if self.done {
            return None;
        }
        match self
            .pattern
            .next_match_by(&mut self.searcher, self.text, self.from)
        {
            Some((start, end)) if end <= self.to => {
                if start < end {
                    self.from = end;
                } else if end < self.to {
                    self.from = boundary_after(self.text, end);
                } else {
                    self.done = true;
                }
                Some((start, end))
            }
            _ => {
                self.done = true;
                None
            }
        }
    }
}

impl<'h, P: OneChar> Matches<'h, P> {
    // Like `next_back`, but its contract says that no match is empty.
    #[inline(always)]
    pub(crate) fn next_back_match(&mut self) -> Option<(usize, usize)>
        requires { ⟦<Matches<'h, P> as Ranges>⟧.ready self.old }
        ensures taken { Takes ⟦<Matches<'h, P> as Ranges>⟧ TakesLast self.old result self.new }
        ensures holds { IfSome result (λ r. r.0 < r.1) }
    {
        if self.done {
            return None;
        }
        match self
            .pattern
            .last_match_by(&mut self.searcher, self.text, self.to)
        {
            Some((start, end)) if self.from <= start => {
                self.to = start;
                Some((start, end))
            }
            _ => {
                self.done = true;
                None
            }
        }
    }

    // The last match that ends before `end`. One that ends there is passed.
    #[inline]
    pub(crate) fn last_before(&mut self, end: usize) -> Option<(usize, usize)>
        requires { ⟦<Matches<'h, P> as Ranges>⟧.ready self.old }
        ensures taken { Takes ⟦<Matches<'h, P> as Ranges>⟧
            (TakesLastCut end) self.old result self.new }
    {
        let last = self.next_back_match()?;
        if last.1 < end {
            return Some(last);
        }
        self.next_back_match()
    }
}

impl<'h, P: OneChar> RangesBack for Matches<'h, P> {
    #[inline(always)]
    fn next_back(&mut self) -> Option<(usize, usize)> {
        self.next_back_match()
    }
}
