//! Clones and parts.
ghost use Rattle.std.specs.Prelude.{◌≡◌, ◌≤◌, ◌-◌, IfOk, OnOk, MatchOption, length, slice_range, None};
ghost use Rattle.std.specs.Str.{IsCharBoundary};
ghost use Rattle.std.specs.Range.Bound.{start_index, end_index};
ghost use Rattle.hip_bytes.specs.Cost.{clone_cost, cut_cost, PartCounts};
ghost use Rattle.hip_bytes.specs.Made.{CloneAnswers, CutAnswers};
ghost use Rattle.hip_bytes.specs.Meter.{RisesAtLeast, RisesAtMost};
ghost use Rattle.hip_bytes.specs.Range.{slice_of};
ghost use Rattle.hip_text.specs.Slice.{SliceAnswers, text_slice_fault, slice_cost};

use super::HipStr;
use crate::slice_error::{SliceError, SliceErrorKind, SliceRefusal};
use hip_bytes::{Backend, Meter, bound_of, range_of};
use std::alloc::{AllocError, Global};
use std::ops::{Bound, RangeBounds};

/// The start and the end that two bounds have in a text, or why they are no range of it.
#[inline]
fn text_range(
    text: &str,
    low: Bound<usize>,
    high: Bound<usize>,
) -> Result<(usize, usize), SliceErrorKind>
    ensures range { MatchOption (text_slice_fault low high text.now)
        (result ≡ Ok (start_index low, end_index high (length text.now)))
        (λ kind. result ≡ Err kind) }
    ensures ordered { IfOk result (λ range. (range.0 ≤ range.1) × (range.1 ≤ length text.now)) }
    ensures boundaries { IfOk result
        (λ range. IsCharBoundary text.now range.0 × IsCharBoundary text.now range.1) }
{
    let (start, end) = range_of(low, high, text.len())?;
    if !text.is_char_boundary(start) {
        return Err(SliceErrorKind::StartNotACharBoundary);
    }
    if !text.is_char_boundary(end) {
        return Err(SliceErrorKind::EndNotACharBoundary);
    }
    Ok((start, end))
}

impl<'b, B: Backend> HipStr<'b, B> {
    /// A handle of the same text and kind. On a backend that shares owners no byte of an owner is copied.
    #[inline]
    pub fn clone(&self, alloc: Global) -> Result<Self, AllocError>
        ensures clone { CloneAnswers self.now result }
    {
        self.clone_metered(alloc, &mut Meter::new())
    }

    /// [`HipStr::clone`], counted.
    #[tactic(auto, using(crate::proofs::Texts::texts))]
    #[inline]
    pub fn clone_metered(&self, alloc: Global, meter: &mut Meter) -> Result<Self, AllocError>
        ensures clone { CloneAnswers self.now result }
        ensures counted { RisesAtMost meter.old meter.new
            (clone_cost B.SHARES self.now.kind (length self.now.items)) }
        ensures copied { OnOk result (RisesAtLeast meter.old meter.new
            (clone_cost B.SHARES self.now.kind (length self.now.items))) }
    {
        Ok(HipStr {
            bytes: self.bytes.clone_metered(alloc, meter)?,
        })
    }

    /// The part from `start` up to `end`, counted: [`HipStr::slice_unchecked_metered`] of two boundaries that are tested already.
    #[tactic(auto, using(crate::proofs::Texts::cuts))]
    #[inline]
    pub fn part_metered(
        &self,
        alloc: Global,
        start: usize,
        end: usize,
        meter: &mut Meter,
    ) -> Result<Self, AllocError>
        requires ordered { start ≤ end }
        requires in_bounds { end ≤ length self.now.items }
        requires start_at_boundary { IsCharBoundary self.now.items start }
        requires end_at_boundary { IsCharBoundary self.now.items end }
        ensures part { CutAnswers self.now (slice_range self.now.items start end) result }
        ensures counted { RisesAtMost meter.old meter.new
            (cut_cost B.SHARES self.now.kind (end - start)) }
        ensures copied { IfOk result
            (λ part. PartCounts B.SHARES self.now part meter.old meter.new) }
    {
        Ok(HipStr {
            bytes: self.bytes.part_metered(alloc, start, end, meter)?,
        })
    }

    /// The part in this range, or why there is none. A short part of an owner's bytes lies in the new handle itself; a longer one
    /// shares the owner where owners are shared.
    #[inline]
    pub fn try_slice_bounds(
        &self,
        alloc: Global,
        low: Bound<usize>,
        high: Bound<usize>,
    ) -> Result<Self, SliceRefusal<'_, 'b, B>>
        ensures slice { SliceAnswers self.now low high result }
    {
        self.try_slice_bounds_metered(alloc, low, high, &mut Meter::new())
    }

    /// [`HipStr::try_slice_bounds`], counted.
    #[inline]
    pub fn try_slice_bounds_metered(
        &self,
        alloc: Global,
        low: Bound<usize>,
        high: Bound<usize>,
        meter: &mut Meter,
    ) -> Result<Self, SliceRefusal<'_, 'b, B>>
        ensures slice { SliceAnswers self.now low high result }
        ensures counted { RisesAtMost meter.old meter.new (slice_cost B.SHARES self.now low high) }
        ensures copied { IfOk result
            (λ part. PartCounts B.SHARES self.now part meter.old meter.new) }
    {
        match text_range(self.as_str(), low, high) {
            Ok((start, end)) => match self.part_metered(alloc, start, end, meter) {
                Ok(part) => Ok(part),
                Err(AllocError) => Err(SliceRefusal::Memory),
            },
            Err(kind) => Err(SliceRefusal::Slice(SliceError::of_bounds(kind, low, high, self))),
        }
    }

    /// [`HipStr::try_slice_bounds`] of a range as Rust writes it.
    #[inline]
    pub fn try_slice<R: RangeBounds<usize>>(
        &self,
        alloc: Global,
        range: R,
    ) -> Result<Self, SliceRefusal<'_, 'b, B>>
        ensures slice { R.has_bounds range
            → SliceAnswers self.now (R.start_bound range) (R.end_bound range) result }
    {
        self.try_slice_metered(alloc, range, &mut Meter::new())
    }

    /// [`HipStr::try_slice`], counted.
    #[inline]
    pub fn try_slice_metered<R: RangeBounds<usize>>(
        &self,
        alloc: Global,
        range: R,
        meter: &mut Meter,
    ) -> Result<Self, SliceRefusal<'_, 'b, B>>
        ensures slice { R.has_bounds range
            → SliceAnswers self.now (R.start_bound range) (R.end_bound range) result }
        ensures counted { R.has_bounds range
            → RisesAtMost meter.old meter.new
            (slice_cost B.SHARES self.now (R.start_bound range) (R.end_bound range)) }
        ensures copied { IfOk result
            (λ part. PartCounts B.SHARES self.now part meter.old meter.new) }
    {
        let low = bound_of(range.start_bound());
        let high = bound_of(range.end_bound());
        self.try_slice_bounds_metered(alloc, low, high, meter)
    }

    /// The part in a range of the text, with both ends at boundaries. [`HipStr::try_slice`] tests whether the range is one.
    #[inline]
    pub fn slice<R: RangeBounds<usize>>(&self, alloc: Global, range: R) -> Result<Self, AllocError>
        requires bounds { R.has_bounds range }
        requires valid { text_slice_fault (R.start_bound range)
            (R.end_bound range) self.now.items ≡ None }
        ensures part { CutAnswers self.now
            (slice_of (R.start_bound range) (R.end_bound range) self.now.items) result }
    {
        self.slice_metered(alloc, range, &mut Meter::new())
    }

    /// [`HipStr::slice`], counted.
    #[inline]
    pub fn slice_metered<R: RangeBounds<usize>>(
        &self,
        alloc: Global,
        range: R,
        meter: &mut Meter,
    ) -> Result<Self, AllocError>
        requires bounds { R.has_bounds range }
        requires valid { text_slice_fault (R.start_bound range)
            (R.end_bound range) self.now.items ≡ None }
        ensures part { CutAnswers self.now
            (slice_of (R.start_bound range) (R.end_bound range) self.now.items) result }
        ensures counted { RisesAtMost meter.old meter.new
            (cut_cost B.SHARES self.now.kind
            (length (slice_of (R.start_bound range) (R.end_bound range) self.now.items))) }
        ensures copied { IfOk result
            (λ part. PartCounts B.SHARES self.now part meter.old meter.new) }
    {
        let low = bound_of(range.start_bound());
        let high = bound_of(range.end_bound());
        let (start, end) = text_range(self.as_str(), low, high).unwrap();
        self.part_metered(alloc, start, end, meter)
    }

    /// [`HipStr::slice`] under the name that it has where the range is tested already.
    #[inline]
    pub fn slice_unchecked<R: RangeBounds<usize>>(
        &self,
        alloc: Global,
        range: R,
    ) -> Result<Self, AllocError>
        requires bounds { R.has_bounds range }
        requires valid { text_slice_fault (R.start_bound range)
            (R.end_bound range) self.now.items ≡ None }
        ensures part { CutAnswers self.now
            (slice_of (R.start_bound range) (R.end_bound range) self.now.items) result }
    {
        self.slice_metered(alloc, range, &mut Meter::new())
    }

    /// [`HipStr::slice_unchecked`], counted.
    #[inline]
    pub fn slice_unchecked_metered<R: RangeBounds<usize>>(
        &self,
        alloc: Global,
        range: R,
        meter: &mut Meter,
    ) -> Result<Self, AllocError>
        requires bounds { R.has_bounds range }
        requires valid { text_slice_fault (R.start_bound range)
            (R.end_bound range) self.now.items ≡ None }
        ensures part { CutAnswers self.now
            (slice_of (R.start_bound range) (R.end_bound range) self.now.items) result }
        ensures counted { RisesAtMost meter.old meter.new
            (cut_cost B.SHARES self.now.kind
            (length (slice_of (R.start_bound range) (R.end_bound range) self.now.items))) }
        ensures copied { IfOk result
            (λ part. PartCounts B.SHARES self.now part meter.old meter.new) }
    {
        self.slice_metered(alloc, range, meter)
    }
}
