//! The parts of a text between the occurrences of a pattern, from its front.

ghost use Rattle.std.specs.Prelude.{[], length, if◌then◌else◌};
ghost use Rattle.std.proofs.Common.{ap};
ghost use Rattle.hip_match.specs.Clones.{ended_kept, gaps_kept, made_kept, parts_kept};
ghost use Rattle.hip_match.specs.Iterators.{Gives, LiesBetween};
ghost use Rattle.hip_match.specs.Pieces.{split, split_inclusive, split_terminator, splitn, at_most_to, ended, gaps, to_terminator};
ghost use Rattle.hip_match.specs.Ready.{IsBetween};

use crate::matches::Matches;
use crate::pattern::{ClonePattern, OneChar, Pattern};
use crate::ranges::{CloneRanges, Ranges, RangesBack};

/// The parts of a text between the occurrences of a pattern, one more than there are occurrences.
#[derive(Clone, Drop)]
pub struct Split<'h, P: Pattern> {
    matches: Matches<'h, P>,
    start: usize,
    end: usize,
    done: bool,
}

impl<'h, P: ClonePattern> CloneRanges for Split<'h, P> {
    ghost clone_keeps = { λ _ _ is. gaps_kept (is.0 P.clones_keep) is.1.0 is.1.1.0 is.1.1.1 };
}

impl<'h, P: Pattern> Split<'h, P> {
    /// The parts of `text` between the occurrences of `pattern`.
    #[inline]
    pub fn new(text: &'h str, pattern: P) -> Self
        requires { P.can_search pattern }
        ensures ranges { Gives ⟦<Split<'h, P> as Ranges>⟧ result text.now
            (split (P.ends pattern text.now) (length text.now)) }
    {
        Split {
            matches: Matches::new(text, pattern),
            start: 0,
            end: text.len(),
            done: false,
        }
    }
}

impl<'h, P: Pattern> Ranges for Split<'h, P> {
    ghost ready = { λ s. LiesBetween ⟦<Matches<'h, P> as Ranges>⟧ s.matches s.start s.end };

    ghost text = { λ s. s.matches.text.now };

    ghost rest = { λ s. if s.done then [] else gaps s.start (⟦<Matches<'h, P> as Ranges>⟧.rest s.matches) s.end };

    #[inline(always)]
    fn next(&mut self) -> Option<(usize, usize)> {
        if self.done {
            return None;
        }
        match self.matches.next() {
            Some((start, end)) => {
                let first = (self.start, start);
                self.start = end;
                Some(first)
            }
            None => {
                self.done = true;
                Some((self.start, self.end))
            }
        }
    }
}

impl<'h, P: OneChar> RangesBack for Split<'h, P> {
    #[inline(always)]
    fn next_back(&mut self) -> Option<(usize, usize)> {
        if self.done {
            return None;
        }
        match self.matches.next_back() {
            Some((start, end)) => {
                let last = (end, self.end);
                self.end = start;
                Some(last)
            }
            None => {
                self.done = true;
                Some((self.start, self.end))
            }
        }
    }
}

/// The parts of a text, each ended by an occurrence of a pattern, which belongs to it. A last empty part is left out.
#[derive(Clone, Drop)]
pub struct SplitInclusive<'h, P: Pattern> {
    matches: Matches<'h, P>,
    start: usize,
    end: usize,
    done: bool,
}

impl<'h, P: ClonePattern> CloneRanges for SplitInclusive<'h, P> {
    ghost clone_keeps = { λ _ _ is. ended_kept (is.0 P.clones_keep) is.1.0 is.1.1.0 is.1.1.1 };
}

impl<'h, P: Pattern> SplitInclusive<'h, P> {
    /// The parts of `text`, each ended by an occurrence of `pattern`.
    #[inline]
    pub fn new(text: &'h str, pattern: P) -> Self
        requires { P.can_search pattern }
        ensures ranges { Gives ⟦<SplitInclusive<'h, P> as Ranges>⟧ result text.now
            (split_inclusive (P.ends pattern text.now) (length text.now)) }
    {
        SplitInclusive {
            matches: Matches::new(text, pattern),
            start: 0,
            end: text.len(),
            done: false,
        }
    }
}

impl<'h, P: Pattern> Ranges for SplitInclusive<'h, P> {
    ghost ready = { λ s. LiesBetween ⟦<Matches<'h, P> as Ranges>⟧ s.matches s.start s.end };

    ghost text = { λ s. s.matches.text.now };

    ghost rest = { λ s. if s.done then [] else ended s.start (⟦<Matches<'h, P> as Ranges>⟧.rest s.matches) s.end };

    #[inline(always)]
    fn next(&mut self) -> Option<(usize, usize)> {
        if self.done {
            return None;
        }
        match self.matches.next() {
            Some((_, end)) => {
                let piece = (self.start, end);
                self.start = end;
                Some(piece)
            }
            None => {
                self.done = true;
                if self.start < self.end {
                    Some((self.start, self.end))
                } else {
                    None
                }
            }
        }
    }
}

impl<'h, P: OneChar> RangesBack for SplitInclusive<'h, P> {
    #[inline]
    fn next_back(&mut self) -> Option<(usize, usize)> {
        if self.done {
            return None;
        }
        match self.matches.last_before(self.end) {
            Some((_, end)) => {
                let piece = (end, self.end);
                self.end = end;
                Some(piece)
            }
            None => {
                self.done = true;
                if self.start < self.end {
                    Some((self.start, self.end))
                } else {
                    None
                }
            }
        }
    }
}

/// The parts of a text between the occurrences of a pattern, without the last where that is empty.
#[derive(Clone, Drop)]
pub struct SplitTerminator<'h, P: Pattern> {
    split: Split<'h, P>,
    // A last empty part is still to be left out.
    ending: bool,
}

impl<'h, P: ClonePattern> CloneRanges for SplitTerminator<'h, P> {
    ghost clone_keeps = { λ _ _ is. made_kept (ap to_terminator is.1)
        (gaps_kept (is.0.0 P.clones_keep) is.0.1.0 is.0.1.1.0 is.0.1.1.1) };
}

impl<'h, P: Pattern> SplitTerminator<'h, P> {
    /// The parts of `text` that occurrences of `pattern` end.
    #[inline]
    pub fn new(text: &'h str, pattern: P) -> Self
        requires { P.can_search pattern }
        ensures ranges { Gives ⟦<SplitTerminator<'h, P> as Ranges>⟧ result text.now
            (split_terminator (P.ends pattern text.now) (length text.now)) }
    {
        SplitTerminator {
            split: Split::new(text, pattern),
            ending: true,
        }
    }
}

impl<'h, P: Pattern> Ranges for SplitTerminator<'h, P> {
    ghost ready = { λ s. ⟦<Split<'h, P> as Ranges>⟧.ready s.split };

    ghost text = { λ s. s.split.matches.text.now };

    ghost rest = { λ s. to_terminator s.ending (⟦<Split<'h, P> as Ranges>⟧.rest s.split) };

    #[inline(always)]
    fn next(&mut self) -> Option<(usize, usize)> {
        let (start, end) = self.split.next()?;
        if self.ending && self.split.done && start == end {
            return None;
        }
        Some((start, end))
    }
}

impl<'h, P: OneChar> RangesBack for SplitTerminator<'h, P> {
    #[inline]
    fn next_back(&mut self) -> Option<(usize, usize)> {
        if !self.ending {
            return self.split.next_back();
        }
        self.ending = false;
        let (start, end) = self.split.next_back()?;
        if start < end {
            return Some((start, end));
        }
        self.split.next_back()
    }
}

/// At most `count` parts of a text between the occurrences of a pattern. Where there are `count`, the last of them runs to the end.
#[derive(Clone, Drop)]
pub struct SplitN<'h, P: Pattern> {
    matches: Matches<'h, P>,
    start: usize,
    end: usize,
    count: usize,
}

impl<'h, P: ClonePattern> CloneRanges for SplitN<'h, P> {
    ghost clone_keeps = { λ _ _ is. parts_kept IsBetween
        (λ count i l n. at_most_to count (gaps i l n) n)
        (is.0 P.clones_keep) is.1.0 is.1.1.0 is.1.1.1 };
}

impl<'h, P: Pattern> SplitN<'h, P> {
    /// At most `count` parts of `text` between the occurrences of `pattern`.
    #[inline]
    pub fn new(text: &'h str, count: usize, pattern: P) -> Self
        requires { P.can_search pattern }
        ensures ranges { Gives ⟦<SplitN<'h, P> as Ranges>⟧ result text.now
            (splitn count (P.ends pattern text.now) (length text.now)) }
    {
        SplitN {
            matches: Matches::new(text, pattern),
            start: 0,
            end: text.len(),
            count,
        }
    }
}

impl<'h, P: Pattern> Ranges for SplitN<'h, P> {
    ghost ready = { λ s. LiesBetween ⟦<Matches<'h, P> as Ranges>⟧ s.matches s.start s.end };

    ghost text = { λ s. s.matches.text.now };

    ghost rest = { λ s. at_most_to s.count (gaps s.start (⟦<Matches<'h, P> as Ranges>⟧.rest s.matches) s.end) s.end };

    #[inline(always)]
    fn next(&mut self) -> Option<(usize, usize)> {
        if self.count == 0 {
            return None;
        }
        if self.count == 1 {
            self.count = 0;
            return Some((self.start, self.end));
        }
        match self.matches.next() {
            Some((start, end)) => {
                let piece = (self.start, start);
                self.start = end;
                self.count -= 1;
                Some(piece)
            }
            None => {
                self.count = 0;
                Some((self.start, self.end))
            }
        }
    }
}
