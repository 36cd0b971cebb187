//! The lines of bytes that needn't be UTF-8.

ghost use Rattle.std.specs.Prelude.{◌≡◌, false, IfSome};
ghost use Rattle.std.specs.Iterator.{YieldsLast};
ghost use Rattle.hip_match.specs.Bytes.{IsWithin, byte_lines, lines_left};
ghost use Rattle.hip_match.specs.Clones.{same_ranges};
ghost use Rattle.hip_match.specs.Iterators.{GivesBytes};

use crate::lines::without_return;
use crate::marked_parts::SplitByte;
use crate::ranges::{ByteRanges, CloneByteRanges};
use std::alloc::AllocError;

/// The lines of bytes, each ended by a line feed or by the end of the bytes. The line feed is left out, and so is one carriage return
/// before it. [`Lines`](crate::lines::Lines) are those of a text.
#[derive(Drop)]
pub struct ByteLines<'h> {
    parts: SplitByte<'h>,
    // Behind the last part that is left the bytes end.
    is_open: bool,
}

impl<'h> ByteLines<'h> {
    /// The lines of `bytes`.
    #[tactic(auto, using(crate::proofs::LineLemmas::lines_of_parts))]
    #[inline]
    pub fn new(bytes: &'h [u8]) -> Self
        ensures ranges { GivesBytes ⟦<ByteLines<'h> as ByteRanges>⟧ result bytes.now (byte_lines bytes.now) }
    {
        ByteLines {
            parts: SplitByte::between(bytes, b'\n'),
            is_open: true,
        }
    }

    // The last line that is left, where a line feed stands behind it.
    #[tactic(auto, using(crate::proofs::Rules::byte_lines))]
    #[inline]
    fn last_ended(&mut self) -> Option<(usize, usize)>
        requires ready { ⟦<ByteLines<'h> as ByteRanges>⟧.ready self.old }
        requires ended { self.old.is_open ≡ false }
        ensures last { YieldsLast ⟦<ByteLines<'h> as ByteRanges>⟧.rest self.old result self.new }
        ensures within { IfSome result (IsWithin self.old.parts.bytes.now) }
        ensures bytes { self.new.parts.bytes.now ≡ self.old.parts.bytes.now }
        ensures ready { ⟦<ByteLines<'h> as ByteRanges>⟧.ready self.new }
    {
        let (start, end) = self.parts.next_back()?;
        Some(without_return(self.parts.bytes, start, end))
    }
}

impl<'h> ByteRanges for ByteLines<'h> {
    ghost ready = { λ s. ⟦<SplitByte<'h> as ByteRanges>⟧.ready s.parts };

    ghost bytes = { λ s. s.parts.bytes.now };

    ghost rest = { λ s. lines_left s.parts.bytes.now s.is_open (⟦<SplitByte<'h> as ByteRanges>⟧.rest s.parts) };

    #[inline]
    fn next(&mut self) -> Option<(usize, usize)> {
        let (start, end) = self.parts.next()?;
        if self.is_open && self.parts.done {
            return if start < end {
                Some((start, end))
            } else {
                None
            };
        }
        Some(without_return(self.parts.bytes, start, end))
    }

    #[tactic(auto, using(crate::proofs::Rules::byte_lines))]
    #[inline]
    fn next_back(&mut self) -> Option<(usize, usize)> {
        if !self.is_open {
            return self.last_ended();
        }
        self.is_open = false;
        let (start, end) = self.parts.next_back()?;
        if start < end {
            return Some((start, end));
        }
        self.last_ended()
    }
}

impl<'h> Clone for ByteLines<'h> {
    ghost is_clone = { λ s copy. copy ≡ s };

    ghost is_infallible = { λ _. Unit {0} };

    fn clone(&self) -> Result<Self, AllocError> {
        Ok(ByteLines {
            parts: self.parts.clone()?,
            is_open: self.is_open,
        })
    }
}

impl<'h> CloneByteRanges for ByteLines<'h> {
    ghost clone_keeps = { λ _ _ is. same_ranges ⟦<ByteLines<'h> as ByteRanges>⟧.ready ⟦<ByteLines<'h> as ByteRanges>⟧.bytes
        ⟦<ByteLines<'h> as ByteRanges>⟧.rest is };
}
