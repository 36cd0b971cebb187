//! Sets of characters of ASCII.
#![tactic(auto, using(crate::proofs::Rules::ascii_set))]

ghost use Rattle.std.specs.Prelude.{IfSome, ◌≡◌, ◌==◌, ◌+◌, ◌<◌, ◌≤◌, ◌&&◌, ◌||◌, ℕ, false, not, length, slice_index, if◌then◌else◌};
ghost use Rattle.std.specs.Int.{bit_at};
ghost use Rattle.std.specs.Char.{is_ascii, is_ascii_alphabetic, is_ascii_alphanumeric, is_ascii_whitespace};
ghost use Rattle.hip_match.specs.AsciiSets.{in_set};
ghost use Rattle.hip_match.specs.Characters.{char_ends};
ghost use Rattle.hip_match.specs.CharLaws.{char_ends-spans, char_ends-one_start, char_ends-one_char};
ghost use Rattle.hip_match.specs.Searchers.{AreAhead, AreBehind};
ghost use Rattle.hip_match.specs.MarkedSets.{AreStarts};

use crate::byte_test::{ASCII_COLUMNS, ByteTest, has_nibbles, nibble_lanes};
use crate::chars::{CharSet, end_of, start_before};
use crate::marked_set::{MarkedSet, last_marked, next_marked};
use crate::marks::{Marks, block};
use crate::pattern::{ClonePattern, DoubleEndedPattern, OneChar, Pattern, ReversePattern};
use crate::place_test::{Bytes, PlaceTest};
use std::simd::prelude::*;

/// A set of characters of ASCII. A walk finds them 64 bytes at a time.
#[derive(Clone, Copy)]
pub struct AsciiSet {
    rows: [u8; 16],
}

impl AsciiSet {
    /// No character.
    #[inline]
    pub fn new() -> Self
        ensures { (c : ℕ) → in_set result c ≡ false }
    {
        AsciiSet { rows: [0; 16] }
    }

    /// The letters, as `char::is_ascii_alphabetic` tells them.
    #[inline]
    pub fn alphabetic() -> Self
        ensures { in_set result ≡ is_ascii_alphabetic }
    {
        AsciiSet {
            rows: [
                160, 240, 240, 240, 240, 240, 240, 240, 240, 240, 240, 80, 80, 80, 80, 80,
            ],
        }
    }

    /// The letters and digits, as `char::is_ascii_alphanumeric` tells them.
    #[inline]
    pub fn alphanumeric() -> Self
        ensures { in_set result ≡ is_ascii_alphanumeric }
    {
        AsciiSet {
            rows: [
                168, 248, 248, 248, 248, 248, 248, 248, 248, 248, 240, 80, 80, 80, 80, 80,
            ],
        }
    }

    /// The white space, as `char::is_ascii_whitespace` tells it.
    #[inline]
    pub fn whitespace() -> Self
        ensures { in_set result ≡ is_ascii_whitespace }
    {
        AsciiSet {
            rows: [4, 0, 0, 0, 0, 0, 0, 0, 0, 1, 1, 0, 1, 1, 0, 0],
        }
    }

    /// These characters and one more.
    #[inline]
    pub fn with(self, byte: u8) -> Self
        requires { byte < 128 }
        ensures { (c : ℕ) → in_set result c ≡ (c == byte || in_set self c) }
    {
        let mut rows = self.rows;
        rows[(byte & 15) as usize] |= 1 << (byte >> 4);
        AsciiSet { rows }
    }

    /// The characters of both.
    #[inline]
    pub fn union(self, other: Self) -> Self
        ensures { (c : ℕ) → in_set result c ≡ (in_set self c || in_set other c) }
    {
        let rows = u8x16::from_array(self.rows) | u8x16::from_array(other.rows);
        AsciiSet {
            rows: rows.to_array(),
        }
    }

    /// The other characters of ASCII.
    #[inline]
    pub fn complement(self) -> Self
        ensures { (c : ℕ) → in_set result c ≡ (is_ascii c && not (in_set self c)) }
    {
        let rows = u8x16::from_array(self.rows) ^ u8x16::splat(0xFF);
        AsciiSet {
            rows: rows.to_array(),
        }
    }

    /// Which of the 64 bytes from `at` on are characters of the set, as a mask whose lowest bit is the first byte's: for scanners of users.
    #[inline(always)]
    pub fn marks(self, bytes: &[u8], at: usize) -> u64
        requires { at + 64 ≤ length bytes.now }
        ensures { (k : ℕ) → k < 64
            → bit_at result k ≡ (if in_set self (slice_index bytes.now (at + k)) then 1 else 0) }
    {
        block(&Bytes(self), bytes, at)
    }
}

impl ByteTest for AsciiSet {
    ghost passes = { in_set };

    #[inline(always)]
    fn lanes(&self, bytes: &[u8], at: usize) -> u64 {
        nibble_lanes(&self.rows, &ASCII_COLUMNS, bytes, at)
    }
}

impl CharSet for AsciiSet {
    ghost belongs = { in_set };

    #[inline]
    fn has(&self, c: char) -> bool {
        c.is_ascii() && has_nibbles(&self.rows, &ASCII_COLUMNS, c as u8)
    }
}

impl MarkedSet for AsciiSet {
    type Test = Bytes<AsciiSet>;

    ghost is_found_by = { λ s. AreStarts (in_set s) 1 };

    ghost first_places = { λ _ _ found. found.first };

    #[inline(always)]
    fn end_at_mark(&self, _test: &Bytes<AsciiSet>, _text: &str, at: usize) -> Option<usize> {
        Some(at + 1)
    }
}

impl Pattern for AsciiSet {
    type Searcher = Option<Marks<Bytes<AsciiSet>>>;

    ghost ends = { λ s. char_ends (in_set s) };

    ghost is_ready = { λ s m text from. AreAhead (AreStarts (in_set s) 1) (⟦<Bytes<AsciiSet> as PlaceTest>⟧.places) m text from };

    ghost is_ready_back = { λ s m text to. AreBehind (AreStarts (in_set s) 1) (⟦<Bytes<AsciiSet> as PlaceTest>⟧.places) m text to };

    #[inline]
    fn searcher(&self, _text: &str, from: usize, to: usize) -> Option<Marks<Bytes<AsciiSet>>> {
        Some(Marks::new(Bytes(*self), from, to))
    }

    #[inline(always)]
    fn next_match_by(
        &self,
        searcher: &mut Option<Marks<Bytes<AsciiSet>>>,
        text: &str,
        from: usize,
    ) -> Option<(usize, usize)> {
        next_marked(self, searcher, text, from)
    }

    #[inline]
    fn match_at(&self, text: &str, at: usize) -> Option<usize> {
        end_of(self, text, at)
    }

    ghost spans = { λ s. char_ends-spans (in_set s) };
}

impl ReversePattern for AsciiSet {
    #[inline(always)]
    fn last_match_by(
        &self,
        searcher: &mut Option<Marks<Bytes<AsciiSet>>>,
        text: &str,
        to: usize,
    ) -> Option<(usize, usize)> {
        last_marked(self, searcher, text, to)
    }

    #[inline]
    fn match_before(&self, text: &str, to: usize) -> Option<usize> {
        start_before(self, text, to)
    }

    ghost one_start = { λ s. char_ends-one_start (in_set s) };
}

impl OneChar for AsciiSet {
    ghost one_char = { λ s. char_ends-one_char (in_set s) };
}

impl ClonePattern for AsciiSet {
    ghost use Rattle.std.proofs.Common.{rules};

    ghost clones_keep = { Prim.search rules };
}

impl DoubleEndedPattern for AsciiSet {}
