//! The parts of a text between the occurrences of a pattern, from its end.
#![tactic(auto, using(crate::proofs::Rules::rsplit))]

ghost use Rattle.std.specs.Prelude.{[], length, if◌then◌else◌};
ghost use Rattle.std.proofs.Common.{ap};
ghost use Rattle.hip_match.specs.Clones.{gaps_back_kept, made_kept, parts_kept};
ghost use Rattle.hip_match.specs.Iterators.{Gives, LiesBetweenBack};
ghost use Rattle.hip_match.specs.Pieces.{rsplit, rsplit_terminator, rsplitn, at_most_from, from_terminator, gaps_back};
ghost use Rattle.hip_match.specs.Ready.{IsBetweenBack};

use crate::pattern::{ClonePattern, OneChar, ReversePattern};
use crate::ranges::{CloneRanges, Ranges, RangesBack};
use crate::rmatches::RMatches;

/// The parts of a text between the rightmost occurrences of a pattern, last first.
#[derive(Clone, Drop)]
pub struct RSplit<'h, P: ReversePattern> {
    matches: RMatches<'h, P>,
    start: usize,
    end: usize,
    done: bool,
}

impl<'h, P: ReversePattern + ClonePattern> CloneRanges for RSplit<'h, P> {
    ghost clone_keeps = { λ _ _ is. gaps_back_kept (is.0 P.clones_keep) is.1.0 is.1.1.0 is.1.1.1 };
}

impl<'h, P: ReversePattern> RSplit<'h, P> {
    /// The parts of `text` between the rightmost occurrences of `pattern`.
    #[inline]
    pub fn new(text: &'h str, pattern: P) -> Self
        requires { P.can_search pattern }
        ensures ranges { Gives ⟦<RSplit<'h, P> as Ranges>⟧ result text.now
            (rsplit (P.ends pattern text.now) (length text.now)) }
    {
        RSplit {
            matches: RMatches::new(text, pattern),
            start: 0,
            end: text.len(),
            done: false,
        }
    }
}

impl<'h, P: ReversePattern> Ranges for RSplit<'h, P> {
    ghost ready = { λ s. LiesBetweenBack ⟦<RMatches<'h, P> as Ranges>⟧ s.matches s.start s.end };

    ghost text = { λ s. s.matches.text.now };

    ghost rest = { λ s. if s.done then [] else gaps_back s.start (⟦<RMatches<'h, P> as Ranges>⟧.rest s.matches) s.end };

    #[inline]
    fn next(&mut self) -> Option<(usize, usize)> {
        if self.done {
            return None;
        }
        match self.matches.next() {
            Some((start, end)) => {
                let last = (end, self.end);
                self.end = start;
                Some(last)
            }
            None => {
                self.done = true;
                Some((self.start, self.end))
            }
        }
    }
}

impl<'h, P: OneChar> RangesBack for RSplit<'h, P> {
    #[inline]
    fn next_back(&mut self) -> Option<(usize, usize)> {
        if self.done {
            return None;
        }
        match self.matches.next_back() {
            Some((start, end)) => {
                let first = (self.start, start);
                self.start = end;
                Some(first)
            }
            None => {
                self.done = true;
                Some((self.start, self.end))
            }
        }
    }
}

/// The parts of a text between the rightmost occurrences of a pattern, last first, without the first of them where that is empty.
#[derive(Clone, Drop)]
pub struct RSplitTerminator<'h, P: ReversePattern> {
    split: RSplit<'h, P>,
    // An empty part at the end of the text is still to be left out.
    beginning: bool,
}

impl<'h, P: ReversePattern + ClonePattern> CloneRanges for RSplitTerminator<'h, P> {
    ghost clone_keeps = { λ _ _ is. made_kept (ap from_terminator is.1)
        (gaps_back_kept (is.0.0 P.clones_keep) is.0.1.0 is.0.1.1.0 is.0.1.1.1) };
}

impl<'h, P: ReversePattern> RSplitTerminator<'h, P> {
    /// The parts of `text` that rightmost occurrences of `pattern` end.
    #[inline]
    pub fn new(text: &'h str, pattern: P) -> Self
        requires { P.can_search pattern }
        ensures ranges { Gives ⟦<RSplitTerminator<'h, P> as Ranges>⟧ result text.now
            (rsplit_terminator (P.ends pattern text.now) (length text.now)) }
    {
        RSplitTerminator {
            split: RSplit::new(text, pattern),
            beginning: true,
        }
    }
}

impl<'h, P: ReversePattern> Ranges for RSplitTerminator<'h, P> {
    ghost ready = { λ s. ⟦<RSplit<'h, P> as Ranges>⟧.ready s.split };

    ghost text = { λ s. s.split.matches.text.now };

    ghost rest = { λ s. from_terminator s.beginning (⟦<RSplit<'h, P> as Ranges>⟧.rest s.split) };

    #[inline]
    fn next(&mut self) -> Option<(usize, usize)> {
        if !self.beginning {
            return self.split.next();
        }
        self.beginning = false;
        let (start, end) = self.split.next()?;
        if start < end {
            return Some((start, end));
        }
        self.split.next()
    }
}

impl<'h, P: OneChar> RangesBack for RSplitTerminator<'h, P> {
    #[inline]
    fn next_back(&mut self) -> Option<(usize, usize)> {
        let (start, end) = self.split.next_back()?;
        if self.beginning && self.split.done && start == end {
            return None;
        }
        Some((start, end))
    }
}

/// At most `count` parts of a text between the rightmost occurrences of a pattern, last first. Where there are `count`, the last of them
/// begins at the text's start.
#[derive(Clone, Drop)]
pub struct RSplitN<'h, P: ReversePattern> {
    matches: RMatches<'h, P>,
    start: usize,
    end: usize,
    count: usize,
}

impl<'h, P: ReversePattern + ClonePattern> CloneRanges for RSplitN<'h, P> {
    ghost clone_keeps = { λ _ _ is. parts_kept IsBetweenBack
        (λ count i l n. at_most_from count (gaps_back i l n) i)
        (is.0 P.clones_keep) is.1.0 is.1.1.0 is.1.1.1 };
}

impl<'h, P: ReversePattern> RSplitN<'h, P> {
    /// At most `count` parts of `text` between the rightmost occurrences of `pattern`.
    #[inline]
    pub fn new(text: &'h str, count: usize, pattern: P) -> Self
        requires { P.can_search pattern }
        ensures ranges { Gives ⟦<RSplitN<'h, P> as Ranges>⟧ result text.now
            (rsplitn count (P.ends pattern text.now) (length text.now)) }
    {
        RSplitN {
            matches: RMatches::new(text, pattern),
            start: 0,
            end: text.len(),
            count,
        }
    }
}

impl<'h, P: ReversePattern> Ranges for RSplitN<'h, P> {
    ghost ready = { λ s. LiesBetweenBack ⟦<RMatches<'h, P> as Ranges>⟧ s.matches s.start s.end };

    ghost text = { λ s. s.matches.text.now };

    ghost rest = { λ s. at_most_from s.count (gaps_back s.start (⟦<RMatches<'h, P> as Ranges>⟧.rest s.matches) s.end) s.start };

    #[inline]
    fn next(&mut self) -> Option<(usize, usize)> {
        if self.count == 0 {
            return None;
        }
        if self.count == 1 {
            self.count = 0;
            return Some((self.start, self.end));
        }
        match self.matches.next() {
            Some((start, end)) => {
                let piece = (end, self.end);
                self.end = start;
                self.count -= 1;
                Some(piece)
            }
            None => {
                self.count = 0;
                Some((self.start, self.end))
            }
        }
    }
}
