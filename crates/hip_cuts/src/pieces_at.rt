//! Pieces at ranges that the caller makes, as those by a closure.
ghost use Rattle.std.specs.Prelude.{◌≡◌, IfSome, length};
ghost use Rattle.std.specs.Iterator.{UpTo, at_most, item_count};
ghost use Rattle.std.specs.Iterator.SizeHint.{IsWithinCount};
ghost use Rattle.hip_cuts.specs.Piece.{ClonesKeepRanges, DrawsFirstMatch, DrawsLastMatch, draws_by};
ghost use Rattle.hip_cuts.specs.Walks.{GoesAlike, GoesOver};

use crate::pieces::PieceSource;
use crate::walk::Walk;
use hip_match::ranges::{Ranges, RangesBack};
use hip_text::{Backend, HipStr, Meter};
use std::alloc::{AllocError, Global};

/// The pieces of a source at the ranges that `I` gives, each with its position. A function that made the ranges by a closure holds these.
#[derive(Drop)]
pub struct PiecesAt<'h, S, I> {
    source: &'h S,
    ranges: I,
    alloc: Global,
}

impl<'h, S: PieceSource, I: Ranges> Walk for PiecesAt<'h, S, I> {
    ghost ready = { λ pieces. I.ready pieces.ranges × (I.text pieces.ranges ≡ (S.handle pieces.source.now).items) };

    ghost left = { λ pieces. record { source = S.handle pieces.source.now; rest = I.rest pieces.ranges } };
}

impl<'h, S: PieceSource, I: Ranges> PiecesAt<'h, S, I> {
    #[inline]
    pub(crate) fn new(source: &'h S, alloc: Global, ranges: I) -> Self
        requires ready { I.ready ranges }
        requires text { I.text ranges ≡ (S.handle source.now).items }
        ensures { GoesOver ⟦<Self as Walk>⟧ result (S.handle source.now) (I.rest ranges) }
    {
        PiecesAt {
            source,
            ranges,
            alloc,
        }
    }
}

/// A clone gives the pieces once more, where a clone of the ranges gives what they do.
impl<'h, S: PieceSource, I: Ranges + Clone> Clone for PiecesAt<'h, S, I> {
    ghost is_clone = { λ pieces copy. ClonesKeepRanges I.is_clone I.ready I.text I.rest
        → GoesAlike ⟦<PiecesAt<'h, S, I> as Walk>⟧ pieces copy };

    ghost is_infallible = { λ pieces. I.is_infallible pieces.ranges };

    fn clone(&self) -> Result<Self, AllocError> {
        Ok(PiecesAt {
            source: self.source,
            ranges: self.ranges.clone()?,
            alloc: self.alloc,
        })
    }
}

/// A `for` loop goes over them by this.
impl<'h, 'b, B: Backend, I: Ranges + Drop> Iterator for PiecesAt<'h, HipStr<'b, B>, I> {
    type Item = (usize, Result<HipStr<'b, B>, AllocError>);

    ghost can_next = { ⟦<PiecesAt<'h, HipStr<'b, B>, I> as Walk>⟧.ready };

    ghost next_gives = { draws_by DrawsFirstMatch ⟦<PiecesAt<'h, HipStr<'b, B>, I> as Walk>⟧.left };

    ghost remaining = { item_count (λ pieces. I.rest pieces.ranges) };

    #[inline(always)]
    fn next(&mut self) -> Option<(usize, Result<HipStr<'b, B>, AllocError>)> {
        let (start, end) = self.ranges.next()?;
        let piece = self
            .source
            .part_metered(self.alloc, start, end, &mut Meter::new());
        Some((start, piece))
    }

    fn size_hint(&self) -> (usize, Option<usize>)
        ensures lower { IsWithinCount result.0 (at_most (length (I.rest self.now.ranges))) }
        ensures upper { IfSome result.1 (UpTo (at_most (length (I.rest self.now.ranges)))) }
    {
        (0, None)
    }
}

/// From the back.
impl<'h, 'b, B: Backend, I: RangesBack + Drop> DoubleEndedIterator
    for PiecesAt<'h, HipStr<'b, B>, I> {
    ghost can_next_back = { ⟦<PiecesAt<'h, HipStr<'b, B>, I> as Walk>⟧.ready };

    ghost next_back_gives = { draws_by DrawsLastMatch ⟦<PiecesAt<'h, HipStr<'b, B>, I> as Walk>⟧.left };

    #[inline]
    fn next_back(&mut self) -> Option<(usize, Result<HipStr<'b, B>, AllocError>)> {
        let (start, end) = self.ranges.next_back()?;
        let piece = self
            .source
            .part_metered(self.alloc, start, end, &mut Meter::new());
        Some((start, piece))
    }
}
