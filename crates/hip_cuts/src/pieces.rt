//! Pieces of a text, drawn one after another.
ghost use Rattle.std.specs.Prelude.{◌≡◌, IfOk, IfSome, length};
ghost use Rattle.std.specs.Iterator.{UpTo, at_most, item_count};
ghost use Rattle.std.specs.Iterator.SizeHint.{IsWithinCount};
ghost use Rattle.hip_text.specs.Handle.{Handle};
ghost use Rattle.hip_text.specs.Meter.{RisesAtMost};
ghost use Rattle.hip_cuts.specs.Piece.{AreMatches, AreParts, parts_cost};
ghost use Rattle.hip_cuts.specs.Piece.{DrawsFirst, DrawsFirstMatch, DrawsLast, DrawsLastMatch};
ghost use Rattle.hip_cuts.specs.Piece.{FirstCosts, FirstMatch, FirstPiece, LastCosts, LastMatch, LastPiece, MatchCounts, PieceCounts};

use hip_match::indices::Indices;
use hip_match::lines::Lines;
use hip_match::matches::Matches;
use hip_match::pattern::{Pattern, ReversePattern};
use hip_match::ranges::{CloneRanges, Ranges, RangesBack};
use hip_match::rmatches::RMatches;
use hip_match::rsplit::{RSplit, RSplitN, RSplitTerminator};
use hip_match::split::{Split, SplitInclusive, SplitN, SplitTerminator};
use hip_match::white_space::Runs;
use hip_text::{Backend, HipStr, Meter};
use std::alloc::{AllocError, Global};
use std::marker::Model;

/// A source that is taken apart.
pub trait PieceSource {
    /// The handle that is seen of it.
    ghost handle: { Self → Handle };
}

impl<'b, B: Backend> PieceSource for HipStr<'b, B> {
    ghost handle = { λ text. text };
}

/// Ranges whose pieces are given alone, without their positions.
pub trait Unnumbered: Ranges {}

impl<'h, P: Pattern> Unnumbered for Split<'h, P> {}

impl<'h, P: Pattern> Unnumbered for SplitInclusive<'h, P> {}

impl<'h, P: Pattern> Unnumbered for SplitTerminator<'h, P> {}

impl<'h, P: Pattern> Unnumbered for SplitN<'h, P> {}

impl<'h, P: Pattern> Unnumbered for Matches<'h, P> {}

impl<'h, P: ReversePattern> Unnumbered for RSplit<'h, P> {}

impl<'h, P: ReversePattern> Unnumbered for RSplitTerminator<'h, P> {}

impl<'h, P: ReversePattern> Unnumbered for RSplitN<'h, P> {}

impl<'h, P: ReversePattern> Unnumbered for RMatches<'h, P> {}

impl<'h> Unnumbered for Lines<'h> {}

impl<R: Ranges> Unnumbered for Runs<R> {}

/// The pieces of a source at the ranges that `I` gives. Seen as the source and the ranges that are left.
#[derive(Drop)]
pub struct Pieces<'h, S: PieceSource, I: Ranges> {
    source: &'h S,
    ranges: I,
    alloc: Global,
}

/// The pieces of a text.
pub type IterWrapper<'h, 'b, B, I> = Pieces<'h, HipStr<'b, B>, I>;

impl<'h, S: PieceSource, I: Ranges> Model for Pieces<'h, S, I> {
    ghost use Rattle.std.specs.Prelude.{◌≡◌};
    ghost use Rattle.hip_cuts.specs.Piece.{Left};

    ghost Value = { Left };

    ghost view = { λ pieces. record { source = S.handle pieces.source.now; rest = I.rest pieces.ranges } };

    ghost invariant = { λ pieces. I.ready pieces.ranges × (I.text pieces.ranges ≡ (S.handle pieces.source.now).items) };
}

impl<'h, S: PieceSource, I: Ranges> Pieces<'h, S, I> {
    /// The pieces of `source` at `ranges`, which are ranges of it.
    #[inline]
    pub(crate) fn new(source: &'h S, alloc: Global, ranges: I) -> Self
        requires ready { I.ready ranges }
        requires text { I.text ranges ≡ (S.handle source.now).items }
        ensures source { result.source ≡ S.handle source.now }
        ensures rest { result.rest ≡ I.rest ranges }
    {
        Pieces {
            source,
            ranges,
            alloc,
        }
    }
}

/// A clone gives the pieces once more. It may allocate only where a clone of the ranges may: where a clone of their pattern may.
impl<'h, S: PieceSource, I: CloneRanges> Clone for Pieces<'h, S, I> {
    ghost is_clone = { λ pieces copy. copy ≡ pieces };

    ghost is_infallible = { λ _. (ranges : I) → I.is_infallible ranges };

    fn clone(&self) -> Result<Self, AllocError> {
        let ranges = self.ranges.clone()?;
        Ok(Pieces {
            source: self.source,
            ranges,
            alloc: self.alloc,
        })
    }
}

impl<'h, 'b, B: Backend, I: Ranges> Pieces<'h, HipStr<'b, B>, I> {
    /// The first match that is left, as its position and its part.
    #[inline(always)]
    fn first_match(
        &mut self,
        meter: &mut Meter,
    ) -> Option<(usize, Result<HipStr<'b, B>, AllocError>)>
        ensures first { FirstMatch self.old result self.new }
        ensures counted { FirstCosts B.SHARES self.old result self.new meter.old meter.new }
        ensures copied { MatchCounts B.SHARES self.old result meter.old meter.new }
        ensures source { self.new.source ≡ self.old.source }
    {
        let (start, end) = self.ranges.next()?;
        let first = self.source.part_metered(self.alloc, start, end, meter);
        Some((start, first))
    }
}

impl<'h, 'b, B: Backend, I: Ranges + Drop> Pieces<'h, HipStr<'b, B>, I> {
    /// All matches that are left, as their positions and their parts.
    fn collect_matches(
        mut self,
        meter: &mut Meter,
    ) -> Result<Vec<(usize, HipStr<'b, B>)>, AllocError>
        ensures matches { IfOk result
            (λ matches. AreMatches self.entry.source self.entry.rest matches.items) }
        ensures counted { RisesAtMost meter.old meter.new
            (parts_cost B.SHARES self.entry.source self.entry.rest) }
    {
        let mut matches = Vec::new(self.alloc);
        while let Some((position, part)) = self.first_match(meter) {
            matches.push((position, part?))?;
        }
        Ok(matches)
    }
}

impl<'h, 'b, B: Backend, I: RangesBack> Pieces<'h, HipStr<'b, B>, I> {
    /// The last match that is left, as its position and its part.
    #[inline(always)]
    fn last_match(
        &mut self,
        meter: &mut Meter,
    ) -> Option<(usize, Result<HipStr<'b, B>, AllocError>)>
        ensures last { LastMatch self.old result self.new }
        ensures counted { LastCosts B.SHARES self.old result self.new meter.old meter.new }
        ensures copied { MatchCounts B.SHARES self.old result meter.old meter.new }
        ensures source { self.new.source ≡ self.old.source }
    {
        let (start, end) = self.ranges.next_back()?;
        let last = self.source.part_metered(self.alloc, start, end, meter);
        Some((start, last))
    }
}

impl<'h, 'b, B: Backend, I: Unnumbered> Pieces<'h, HipStr<'b, B>, I> {
    /// The first piece that is left. One that is refused for memory has been passed.
    #[inline(always)]
    pub fn next(&mut self) -> Option<Result<HipStr<'b, B>, AllocError>>
        ensures first { FirstPiece self.old result self.new }
        ensures source { self.new.source ≡ self.old.source }
    {
        self.next_metered(&mut Meter::new())
    }

    /// [`Pieces::next`], counted.
    #[inline(always)]
    pub fn next_metered(&mut self, meter: &mut Meter) -> Option<Result<HipStr<'b, B>, AllocError>>
        ensures first { FirstPiece self.old result self.new }
        ensures counted { FirstCosts B.SHARES self.old result self.new meter.old meter.new }
        ensures copied { PieceCounts B.SHARES self.old result meter.old meter.new }
        ensures source { self.new.source ≡ self.old.source }
    {
        let (_, piece) = self.first_match(meter)?;
        Some(piece)
    }
}

impl<'h, 'b, B: Backend, I: Unnumbered + Drop> Pieces<'h, HipStr<'b, B>, I> {
    /// All pieces that are left, in a vector, which is allocated besides what the pieces allocate.
    pub fn collect(self) -> Result<Vec<HipStr<'b, B>>, AllocError>
        ensures { IfOk result (λ pieces. AreParts self.entry.source self.entry.rest pieces.items) }
    {
        self.collect_metered(&mut Meter::new())
    }

    /// [`Pieces::collect`], counted.
    pub fn collect_metered(mut self, meter: &mut Meter) -> Result<Vec<HipStr<'b, B>>, AllocError>
        ensures pieces { IfOk result
            (λ pieces. AreParts self.entry.source self.entry.rest pieces.items) }
        ensures counted { RisesAtMost meter.old meter.new
            (parts_cost B.SHARES self.entry.source self.entry.rest) }
    {
        let mut pieces = Vec::new(self.alloc);
        while let Some((_, piece)) = self.first_match(meter) {
            pieces.push(piece?)?;
        }
        Ok(pieces)
    }
}

impl<'h, 'b, B: Backend, I: Unnumbered + RangesBack> Pieces<'h, HipStr<'b, B>, I> {
    /// The last piece that is left. One that is refused for memory has been passed.
    #[inline]
    pub fn next_back(&mut self) -> Option<Result<HipStr<'b, B>, AllocError>>
        ensures last { LastPiece self.old result self.new }
        ensures source { self.new.source ≡ self.old.source }
    {
        self.next_back_metered(&mut Meter::new())
    }

    /// [`Pieces::next_back`], counted.
    #[inline]
    pub fn next_back_metered(
        &mut self,
        meter: &mut Meter,
    ) -> Option<Result<HipStr<'b, B>, AllocError>>
        ensures last { LastPiece self.old result self.new }
        ensures counted { LastCosts B.SHARES self.old result self.new meter.old meter.new }
        ensures copied { PieceCounts B.SHARES self.old result meter.old meter.new }
        ensures source { self.new.source ≡ self.old.source }
    {
        let (_, piece) = self.last_match(meter)?;
        Some(piece)
    }
}

/// A `for` loop goes over it by this.
impl<'h, 'b, B: Backend, I: Unnumbered + Drop> Iterator for Pieces<'h, HipStr<'b, B>, I> {
    type Item = Result<HipStr<'b, B>, AllocError>;

    ghost next_gives = { DrawsFirst };

    ghost remaining = { item_count (λ pieces. pieces.rest) };

    #[inline(always)]
    fn next(&mut self) -> Option<Result<HipStr<'b, B>, AllocError>> {
        let mut meter = Meter::new();
        self.next_metered(&mut meter)
    }

    fn size_hint(&self) -> (usize, Option<usize>)
        ensures lower { IsWithinCount result.0 (at_most (length self.now.rest)) }
        ensures upper { IfSome result.1 (UpTo (at_most (length self.now.rest))) }
    {
        (0, None)
    }
}

/// From the back.
impl<'h, 'b, B: Backend, I: Unnumbered + RangesBack + Drop> DoubleEndedIterator
    for Pieces<'h, HipStr<'b, B>, I> {
    ghost next_back_gives = { DrawsLast };

    #[inline]
    fn next_back(&mut self) -> Option<Result<HipStr<'b, B>, AllocError>> {
        self.next_back_metered(&mut Meter::new())
    }
}

impl<'h, 'b, B: Backend, I: Ranges + Drop> Pieces<'h, HipStr<'b, B>, Indices<I>> {
    /// The first match that is left, as its position and its piece. One that is refused for memory has been passed.
    #[inline(always)]
    pub fn next(&mut self) -> Option<(usize, Result<HipStr<'b, B>, AllocError>)>
        ensures first { FirstMatch self.old result self.new }
        ensures source { self.new.source ≡ self.old.source }
    {
        self.next_metered(&mut Meter::new())
    }

    /// [`Pieces::next`], counted.
    #[inline(always)]
    pub fn next_metered(
        &mut self,
        meter: &mut Meter,
    ) -> Option<(usize, Result<HipStr<'b, B>, AllocError>)>
        ensures first { FirstMatch self.old result self.new }
        ensures counted { FirstCosts B.SHARES self.old result self.new meter.old meter.new }
        ensures copied { MatchCounts B.SHARES self.old result meter.old meter.new }
        ensures source { self.new.source ≡ self.old.source }
    {
        self.first_match(meter)
    }

    /// All matches that are left, in a vector, which is allocated besides what the pieces allocate.
    pub fn collect(self) -> Result<Vec<(usize, HipStr<'b, B>)>, AllocError>
        ensures { IfOk result
            (λ matches. AreMatches self.entry.source self.entry.rest matches.items) }
    {
        self.collect_metered(&mut Meter::new())
    }

    /// [`Pieces::collect`], counted.
    pub fn collect_metered(
        self,
        meter: &mut Meter,
    ) -> Result<Vec<(usize, HipStr<'b, B>)>, AllocError>
        ensures matches { IfOk result
            (λ matches. AreMatches self.entry.source self.entry.rest matches.items) }
        ensures counted { RisesAtMost meter.old meter.new
            (parts_cost B.SHARES self.entry.source self.entry.rest) }
    {
        self.collect_matches(meter)
    }
}

impl<'h, 'b, B: Backend, I: RangesBack + Drop> Pieces<'h, HipStr<'b, B>, Indices<I>> {
    /// The last match that is left, as its position and its piece. One that is refused for memory has been passed.
    #[inline]
    pub fn next_back(&mut self) -> Option<(usize, Result<HipStr<'b, B>, AllocError>)>
        ensures last { LastMatch self.old result self.new }
        ensures source { self.new.source ≡ self.old.source }
    {
        self.next_back_metered(&mut Meter::new())
    }

    /// [`Pieces::next_back`], counted.
    #[inline]
    pub fn next_back_metered(
        &mut self,
        meter: &mut Meter,
    ) -> Option<(usize, Result<HipStr<'b, B>, AllocError>)>
        ensures last { LastMatch self.old result self.new }
        ensures counted { LastCosts B.SHARES self.old result self.new meter.old meter.new }
        ensures copied { MatchCounts B.SHARES self.old result meter.old meter.new }
        ensures source { self.new.source ≡ self.old.source }
    {
        self.last_match(meter)
    }
}

/// A `for` loop goes over it by this.
impl<'h, 'b, B: Backend, I: Ranges + Drop> Iterator for Pieces<'h, HipStr<'b, B>, Indices<I>> {
    type Item = (usize, Result<HipStr<'b, B>, AllocError>);

    ghost next_gives = { DrawsFirstMatch };

    ghost remaining = { item_count (λ pieces. pieces.rest) };

    #[inline(always)]
    fn next(&mut self) -> Option<(usize, Result<HipStr<'b, B>, AllocError>)> {
        self.first_match(&mut Meter::new())
    }

    fn size_hint(&self) -> (usize, Option<usize>)
        ensures lower { IsWithinCount result.0 (at_most (length self.now.rest)) }
        ensures upper { IfSome result.1 (UpTo (at_most (length self.now.rest))) }
    {
        (0, None)
    }
}

/// From the back.
impl<'h, 'b, B: Backend, I: RangesBack + Drop> DoubleEndedIterator
    for Pieces<'h, HipStr<'b, B>, Indices<I>> {
    ghost next_back_gives = { DrawsLastMatch };

    #[inline]
    fn next_back(&mut self) -> Option<(usize, Result<HipStr<'b, B>, AllocError>)> {
        self.last_match(&mut Meter::new())
    }
}
