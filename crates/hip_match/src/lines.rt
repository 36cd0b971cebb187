//! The lines of a text.
ghost use Rattle.std.specs.Prelude.{◌≡◌, ◌==◌, map};
ghost use Rattle.std.proofs.Common.{ap};
ghost use Rattle.hip_match.specs.Bytes.{IsWithin};
ghost use Rattle.hip_match.specs.Characters.{char_ends};
ghost use Rattle.hip_match.specs.Clones.{ended_kept, lines_kept};
ghost use Rattle.hip_match.specs.Iterators.{Gives};
ghost use Rattle.hip_match.specs.Occurrence.{IsCut};
ghost use Rattle.hip_match.specs.Runs.{line_of, lines, without_return};

use crate::ranges::{CloneRanges, Ranges, RangesBack};
use crate::split::SplitInclusive;

/// The lines of a text, each ended by a line feed or by the text's end. The line feed is left out, and so is one carriage return before it.
#[derive(Clone, Drop)]
pub struct Lines<'h> {
    text: &'h str,
    parts: SplitInclusive<'h, char>,
}

impl<'h> Lines<'h> {
    /// The lines of `text`.
    #[inline]
    pub fn new(text: &'h str) -> Self
        ensures ranges { Gives ⟦<Lines<'h> as Ranges>⟧ result text.now (lines text.now) }
    {
        Lines {
            text,
            parts: SplitInclusive::new(text, '\n'),
        }
    }
}

// The range from `start` up to `feed` without one carriage return at its end.
#[inline]
pub(crate) fn without_return(bytes: &[u8], start: usize, feed: usize) -> (usize, usize)
    requires { IsWithin bytes.now (start, feed) }
    ensures value { result ≡ without_return bytes.now (start, feed) }
    ensures within { IsWithin bytes.now result }
{
    if start == feed || bytes[feed - 1] != b'\r' {
        return (start, feed);
    }
    (start, feed - 1)
}

// A part without its line feed and one carriage return before that.
#[inline]
fn without_line_end(text: &str, part: (usize, usize)) -> (usize, usize)
    requires { IsCut text.now part }
    ensures value { result ≡ line_of text.now part }
    ensures cut { IsCut text.now result }
{
    let bytes = text.as_bytes();
    let (start, end) = part;
    if start == end || bytes[end - 1] != b'\n' {
        return part;
    }
    without_return(bytes, start, end - 1)
}

impl<'h> Ranges for Lines<'h> {
    ghost ready = { λ s. ⟦<SplitInclusive<'h, char> as Ranges>⟧.ready s.parts
        × (s.parts.matches.text.now ≡ s.text.now) };

    ghost text = { λ s. s.text.now };

    ghost rest = { λ s. map (line_of s.text.now) (⟦<SplitInclusive<'h, char> as Ranges>⟧.rest s.parts) };

    #[inline]
    fn next(&mut self) -> Option<(usize, usize)> {
        let part = self.parts.next()?;
        Some(without_line_end(self.text, part))
    }
}

impl<'h> CloneRanges for Lines<'h> {
    ghost clone_keeps = { λ _ _ is. lines_kept (ap (λ t. t.now) is.0)
        (ended_kept (is.1.0 (λ _ _ same. record {
          searchable = λ h. h;
          occurs = ap (λ c. char_ends (λ d. d == c)) same;
        })) is.1.1.0 is.1.1.1.0 is.1.1.1.1) };
}

impl<'h> RangesBack for Lines<'h> {
    #[inline]
    fn next_back(&mut self) -> Option<(usize, usize)> {
        let part = self.parts.next_back()?;
        Some(without_line_end(self.text, part))
    }
}
