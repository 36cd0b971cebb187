//! Pieces of bytes, drawn one after another.
ghost use Rattle.std.specs.Prelude.{◌≡◌, IfOk, IfSome, length};
ghost use Rattle.std.specs.Iterator.{UpTo, at_most, item_count};
ghost use Rattle.std.specs.Iterator.SizeHint.{IsWithinCount};
ghost use Rattle.hip_text.specs.Meter.{RisesAtMost};
ghost use Rattle.hip_cuts.specs.Piece.{AreParts, parts_cost};
ghost use Rattle.hip_cuts.specs.Piece.{DrawsFirstBytes, DrawsLastBytes, FirstBytes, LastBytes};
ghost use Rattle.hip_cuts.specs.Piece.{FirstCosts, LastCosts, PieceCounts};

use crate::pieces::PieceSource;
use hip_bytes::HipByt;
use hip_match::ranges::{ByteRanges, CloneByteRanges};
use hip_text::{Backend, Meter};
use std::alloc::{AllocError, Global};
use std::marker::Model;

/// The pieces of bytes at the ranges that `I` gives, from both ends. Seen as the source and the ranges that are left.
#[derive(Drop)]
pub struct BytePieces<'h, S: PieceSource, I: ByteRanges> {
    source: &'h S,
    ranges: I,
    alloc: Global,
}

impl<'h, S: PieceSource, I: ByteRanges> Model for BytePieces<'h, S, I> {
    ghost use Rattle.std.specs.Prelude.{◌≡◌};
    ghost use Rattle.hip_cuts.specs.Piece.{Left};

    ghost Value = { Left };

    ghost view = { λ pieces. record { source = S.handle pieces.source.now; rest = I.rest pieces.ranges } };

    ghost invariant = { λ pieces. I.ready pieces.ranges × (I.bytes pieces.ranges ≡ (S.handle pieces.source.now).items) };
}

impl<'h, S: PieceSource, I: ByteRanges> BytePieces<'h, S, I> {
    /// The pieces of `source` at `ranges`, which are ranges of it.
    #[inline]
    pub(crate) fn new(source: &'h S, alloc: Global, ranges: I) -> Self
        requires ready { I.ready ranges }
        requires bytes { I.bytes ranges ≡ (S.handle source.now).items }
        ensures source { result.source ≡ S.handle source.now }
        ensures rest { result.rest ≡ I.rest ranges }
    {
        BytePieces {
            source,
            ranges,
            alloc,
        }
    }
}

/// A clone gives the pieces once more. It allocates where a clone of the ranges does.
impl<'h, S: PieceSource, I: CloneByteRanges> Clone for BytePieces<'h, S, I> {
    ghost is_clone = { λ pieces copy. copy ≡ pieces };

    ghost is_infallible = { λ _. (ranges : I) → I.is_infallible ranges };

    fn clone(&self) -> Result<Self, AllocError> {
        let ranges = self.ranges.clone()?;
        Ok(BytePieces {
            source: self.source,
            ranges,
            alloc: self.alloc,
        })
    }
}

impl<'h, 'b, B: Backend, I: ByteRanges> BytePieces<'h, HipByt<'b, B>, I> {
    /// The first piece that is left. One that is refused for memory has been passed.
    #[inline(always)]
    pub fn next(&mut self) -> Option<Result<HipByt<'b, B>, AllocError>>
        ensures first { FirstBytes self.old result self.new }
        ensures source { self.new.source ≡ self.old.source }
    {
        self.next_metered(&mut Meter::new())
    }

    /// [`BytePieces::next`], counted.
    #[inline(always)]
    pub fn next_metered(&mut self, meter: &mut Meter) -> Option<Result<HipByt<'b, B>, AllocError>>
        ensures first { FirstBytes self.old result self.new }
        ensures counted { FirstCosts B.SHARES self.old result self.new meter.old meter.new }
        ensures copied { PieceCounts B.SHARES self.old result meter.old meter.new }
        ensures source { self.new.source ≡ self.old.source }
    {
        let (start, end) = self.ranges.next()?;
        Some(self.source.part_metered(self.alloc, start, end, meter))
    }

    /// The last piece that is left. One that is refused for memory has been passed.
    #[inline]
    pub fn next_back(&mut self) -> Option<Result<HipByt<'b, B>, AllocError>>
        ensures last { LastBytes self.old result self.new }
        ensures source { self.new.source ≡ self.old.source }
    {
        self.next_back_metered(&mut Meter::new())
    }

    /// [`BytePieces::next_back`], counted.
    #[inline]
    pub fn next_back_metered(
        &mut self,
        meter: &mut Meter,
    ) -> Option<Result<HipByt<'b, B>, AllocError>>
        ensures last { LastBytes self.old result self.new }
        ensures counted { LastCosts B.SHARES self.old result self.new meter.old meter.new }
        ensures copied { PieceCounts B.SHARES self.old result meter.old meter.new }
        ensures source { self.new.source ≡ self.old.source }
    {
        let (start, end) = self.ranges.next_back()?;
        Some(self.source.part_metered(self.alloc, start, end, meter))
    }
}

impl<'h, 'b, B: Backend, I: ByteRanges + Drop> BytePieces<'h, HipByt<'b, B>, I> {
    /// All pieces that are left, in a vector, which is allocated besides what the pieces allocate.
    pub fn collect(self) -> Result<Vec<HipByt<'b, B>>, AllocError>
        ensures { IfOk result (λ pieces. AreParts self.entry.source self.entry.rest pieces.items) }
    {
        self.collect_metered(&mut Meter::new())
    }

    /// [`BytePieces::collect`], counted.
    pub fn collect_metered(mut self, meter: &mut Meter) -> Result<Vec<HipByt<'b, B>>, AllocError>
        ensures pieces { IfOk result
            (λ pieces. AreParts self.entry.source self.entry.rest pieces.items) }
        ensures counted { RisesAtMost meter.old meter.new
            (parts_cost B.SHARES self.entry.source self.entry.rest) }
    {
        let mut pieces = Vec::new(self.alloc);
        while let Some(piece) = self.next_metered(meter) {
            pieces.push(piece?)?;
        }
        Ok(pieces)
    }
}

/// A `for` loop goes over it by this.
impl<'h, 'b, B: Backend, I: ByteRanges + Drop> Iterator for BytePieces<'h, HipByt<'b, B>, I> {
    type Item = Result<HipByt<'b, B>, AllocError>;

    ghost next_gives = { DrawsFirstBytes };

    ghost remaining = { item_count (λ pieces. pieces.rest) };

    #[inline(always)]
    fn next(&mut self) -> Option<Result<HipByt<'b, B>, AllocError>> {
        self.next_metered(&mut Meter::new())
    }

    fn size_hint(&self) -> (usize, Option<usize>)
        ensures lower { IsWithinCount result.0 (at_most (length self.now.rest)) }
        ensures upper { IfSome result.1 (UpTo (at_most (length self.now.rest))) }
    {
        (0, None)
    }
}

/// From the back.
impl<'h, 'b, B: Backend, I: ByteRanges + Drop> DoubleEndedIterator
    for BytePieces<'h, HipByt<'b, B>, I> {
    ghost next_back_gives = { DrawsLastBytes };

    #[inline]
    fn next_back(&mut self) -> Option<Result<HipByt<'b, B>, AllocError>> {
        self.next_back_metered(&mut Meter::new())
    }
}
