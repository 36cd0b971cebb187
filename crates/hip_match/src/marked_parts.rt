//! The parts of a text, or of bytes that needn't be UTF-8, between bytes that pass a test.

ghost use Rattle.std.specs.Prelude.{◌≡◌, ◌==◌, ◌<◌, ◌≤◌, ℕ, [], false, length, if◌then◌else◌};
ghost use Rattle.std.specs.Iterator.{YieldsFirst, YieldsLast};
ghost use Rattle.hip_match.specs.Bytes.{byte_ends};
ghost use Rattle.hip_match.specs.Characters.{char_ends};
ghost use Rattle.hip_match.specs.Clones.{same_ranges};
ghost use Rattle.hip_match.specs.Iterators.{Gives, GivesBytes};
ghost use Rattle.hip_match.specs.Marks.{Ahead, Behind, IsBackPart, IsFrontPart, by_byte, marked_parts};
ghost use Rattle.hip_match.specs.Pieces.{split};
ghost use Rattle.hip_match.specs.Ready.{IsWindow};

use crate::byte_test::{ByteTest, OneByte};
use crate::marks::Marks;
use crate::place_test::Bytes;
use crate::ranges::{ByteRanges, CloneByteRanges, CloneRanges, Ranges, RangesBack};
use std::alloc::AllocError;

/// The parts between the bytes that pass a test: of a text, where the test is of characters of ASCII, or of any bytes.
/// [`Split`](crate::split::Split) gives those of a text too, in more steps.
#[derive(Drop)]
pub struct MarkedParts<'h, T: ByteTest> {
    pub(crate) bytes: &'h [u8],
    from: usize,
    to: usize,
    marks: Marks<Bytes<T>>,
    pub(crate) done: bool,
}

impl<'h, T: ByteTest> MarkedParts<'h, T> {
    // The parts of `bytes` between those that pass `test`.
    #[inline]
    pub(crate) fn of_bytes(bytes: &'h [u8], test: T) -> Self
        ensures made { GivesBytes ⟦<MarkedParts<'h, T> as ByteRanges>⟧ result bytes.now
            (split (byte_ends (T.passes test) bytes.now) (length bytes.now)) }
        ensures test { result.marks.test.0 ≡ test }
        ensures whole { result.from ≡ 0 × result.to ≡ length bytes.now }
    {
        MarkedParts {
            bytes,
            from: 0,
            to: bytes.len(),
            marks: Marks::new(Bytes(test), 0, bytes.len()),
            done: false,
        }
    }

    // The parts of `text` between the characters that pass `test`.
    #[tactic(auto, using(crate::proofs::Rules::text_ends))]
    #[inline]
    pub(crate) fn by(text: &'h str, test: T) -> Self
        requires { (c : ℕ) → 128 ≤ c → T.passes test c ≡ false }
        ensures { Gives ⟦<MarkedParts<'h, T> as Ranges>⟧ result text.now
            (split (char_ends (T.passes test) text.now) (length text.now)) }
    {
        MarkedParts::of_bytes(text.as_bytes(), test)
    }

    // The first part that is left.
    #[inline(always)]
    fn take_first(&mut self) -> Option<(usize, usize)>
        requires { ⟦<MarkedParts<'h, T> as ByteRanges>⟧.ready self.old }
        ensures first { YieldsFirst ⟦<MarkedParts<'h, T> as ByteRanges>⟧.rest self.old result self.new }
        ensures ready { ⟦<MarkedParts<'h, T> as ByteRanges>⟧.ready self.new }
        ensures bytes { self.new.bytes ≡ self.old.bytes }
        ensures test { self.new.marks.test ≡ self.old.marks.test }
        ensures to { self.new.to ≡ self.old.to }
        ensures part { IsFrontPart (T.passes self.old.marks.test.0) self.old.bytes.now self.old.from self.old.to result self.new.from }
    {
        if self.done {
            return None;
        }
        let start = self.from;
        let marks = &mut self.marks;
        match marks.front.next(&marks.test, self.bytes, start) {
            Some(at) if at < self.to => {
                self.from = at + 1;
                Some((start, at))
            }
            _ => {
                self.done = true;
                Some((start, self.to))
            }
        }
    }

    // The last part that is left.
    #[inline(always)]
    fn take_last(&mut self) -> Option<(usize, usize)>
        requires { ⟦<MarkedParts<'h, T> as ByteRanges>⟧.ready self.old }
        ensures last { YieldsLast ⟦<MarkedParts<'h, T> as ByteRanges>⟧.rest self.old result self.new }
        ensures ready { ⟦<MarkedParts<'h, T> as ByteRanges>⟧.ready self.new }
        ensures bytes { self.new.bytes ≡ self.old.bytes }
        ensures test { self.new.marks.test ≡ self.old.marks.test }
        ensures from { self.new.from ≡ self.old.from }
        ensures part { IsBackPart (T.passes self.old.marks.test.0) self.old.bytes.now self.old.from self.old.to result self.new.to }
    {
        if self.done {
            return None;
        }
        let end = self.to;
        let marks = &mut self.marks;
        match marks.back.last(&marks.test, self.bytes, end) {
            Some(at) if self.from <= at => {
                self.to = at;
                Some((at + 1, end))
            }
            _ => {
                self.done = true;
                Some((self.from, end))
            }
        }
    }
}

impl<'h, T: ByteTest> ByteRanges for MarkedParts<'h, T> {
    ghost ready = { λ s. (s.from ≤ s.to) × (s.to ≤ length s.bytes.now)
        × (s.done ≡ false
        → Ahead (by_byte (T.passes s.marks.test.0)) s.bytes.now s.from s.marks.front.next s.marks.front.bits
        × Behind (by_byte (T.passes s.marks.test.0)) s.bytes.now s.to s.marks.back.start s.marks.back.bits) };

    ghost bytes = { λ s. s.bytes.now };

    ghost rest = { λ s. if s.done then [] else marked_parts (T.passes s.marks.test.0) s.bytes.now s.from s.to };

    #[inline(always)]
    fn next(&mut self) -> Option<(usize, usize)> {
        self.take_first()
    }

    #[inline(always)]
    fn next_back(&mut self) -> Option<(usize, usize)> {
        self.take_last()
    }
}

impl<'h, T: ByteTest> Ranges for MarkedParts<'h, T> {
    ghost ready = { λ s. IsWindow s.bytes.now s.from s.to
        × ((c : ℕ) → 128 ≤ c → T.passes s.marks.test.0 c ≡ false)
        × ⟦<MarkedParts<'h, T> as ByteRanges>⟧.ready s };

    ghost text = { λ s. s.bytes.now };

    ghost rest = { λ s. ⟦<MarkedParts<'h, T> as ByteRanges>⟧.rest s };

    #[inline(always)]
    fn next(&mut self) -> Option<(usize, usize)> {
        self.take_first()
    }
}

impl<'h, T: ByteTest> RangesBack for MarkedParts<'h, T> {
    #[inline(always)]
    fn next_back(&mut self) -> Option<(usize, usize)> {
        self.take_last()
    }
}

impl<'h, T: ByteTest> Clone for MarkedParts<'h, T> {
    ghost is_clone = { λ s copy. copy ≡ s };

    ghost is_infallible = { λ _. Unit {0} };

    fn clone(&self) -> Result<Self, AllocError> {
        Ok(MarkedParts {
            bytes: self.bytes,
            from: self.from,
            to: self.to,
            marks: self.marks,
            done: self.done,
        })
    }
}

impl<'h, T: ByteTest> CloneRanges for MarkedParts<'h, T> {
    ghost clone_keeps = { λ _ _ is. same_ranges ⟦<MarkedParts<'h, T> as Ranges>⟧.ready ⟦<MarkedParts<'h, T> as Ranges>⟧.text
        ⟦<MarkedParts<'h, T> as Ranges>⟧.rest is };
}

impl<'h, T: ByteTest> CloneByteRanges for MarkedParts<'h, T> {
    ghost clone_keeps = { λ _ _ is. same_ranges ⟦<MarkedParts<'h, T> as ByteRanges>⟧.ready ⟦<MarkedParts<'h, T> as ByteRanges>⟧.bytes
        ⟦<MarkedParts<'h, T> as ByteRanges>⟧.rest is };
}

/// The parts of a text between one character of ASCII, or of bytes between one byte.
pub type SplitByte<'h> = MarkedParts<'h, OneByte>;

impl<'h> MarkedParts<'h, OneByte> {
    /// The parts of `text` between the characters `byte`.
    #[inline]
    pub fn new(text: &'h str, byte: u8) -> Self
        requires { byte < 128 }
        ensures ranges { Gives ⟦<MarkedParts<'h, OneByte> as Ranges>⟧ result text.now
            (split (char_ends (λ c. c == byte) text.now) (length text.now)) }
    {
        MarkedParts::by(text, OneByte(byte))
    }

    /// The parts of `bytes` between the bytes `byte`.
    #[inline]
    pub fn between(bytes: &'h [u8], byte: u8) -> Self
        ensures ranges { GivesBytes ⟦<MarkedParts<'h, OneByte> as ByteRanges>⟧ result bytes.now
            (split (byte_ends (λ b. b == byte) bytes.now) (length bytes.now)) }
    {
        MarkedParts::of_bytes(bytes, OneByte(byte))
    }
}
