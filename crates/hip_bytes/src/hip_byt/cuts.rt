//! Clones and parts.
ghost use Rattle.std.specs.Prelude.{◌≡◌, ◌≤◌, ◌-◌, length, slice_range, None, IfOk, OnOk};
ghost use Rattle.hip_raw.specs.Meter.{RisesAtLeast, RisesAtMost};
ghost use Rattle.hip_bytes.specs.Cost.{clone_cost, cut_cost, PartCounts};
ghost use Rattle.hip_bytes.specs.Made.{CloneAnswers, CutAnswers};
ghost use Rattle.hip_bytes.specs.Range.{slice_fault, slice_of};
ghost use Rattle.hip_bytes.specs.Slice.{SliceAnswers, slice_cost};

use super::{HipByt, Repr};
use crate::kind::INLINE_CAPACITY;
use crate::range::{bound_of, range_of, sound_range};
use crate::slice_error::{SliceError, SliceRefusal};
use hip_raw::{Backend, Borrowed, Inline, Meter};
use std::alloc::{AllocError, Global};
use std::ops::{Bound, RangeBounds};

impl<'b, B: Backend> HipByt<'b, B> {
    /// A handle of the same bytes and kind. On a backend that shares owners no byte of an owner is copied.
    #[inline]
    pub fn clone(&self, alloc: Global) -> Result<Self, AllocError>
        ensures clone { CloneAnswers self.now result }
    {
        self.clone_metered(alloc, &mut Meter::new())
    }

    /// [`HipByt::clone`], counted.
    #[inline]
    pub fn clone_metered(&self, alloc: Global, meter: &mut Meter) -> Result<Self, AllocError>
        ensures clone { CloneAnswers self.now result }
        ensures counted { RisesAtMost meter.old meter.new
            (clone_cost B.SHARES self.now.kind (length self.now.items)) }
        ensures copied { OnOk result (RisesAtLeast meter.old meter.new
            (clone_cost B.SHARES self.now.kind (length self.now.items))) }
    {
        let repr = match &self.bare.repr {
            Repr::Inline(inline) => Repr::Inline(inline.clone_metered(meter)),
            Repr::Borrowed(borrowed) => Repr::Borrowed(*borrowed),
            Repr::Allocated(allocated) => {
                let range = 0..allocated.len();
                Repr::Allocated(allocated.slice_unchecked_metered(alloc, range, meter)?)
            }
        };
        Ok(HipByt::of(repr))
    }

    /// The part from `start` up to `end`, counted: [`HipByt::slice_unchecked_metered`] of two ends that are tested already.
    #[inline]
    pub fn part_metered(
        &self,
        alloc: Global,
        start: usize,
        end: usize,
        meter: &mut Meter,
    ) -> Result<Self, AllocError>
        requires ordered { start ≤ end }
        requires in_bounds { end ≤ length self.now.items }
        ensures part { CutAnswers self.now (slice_range self.now.items start end) result }
        ensures counted { RisesAtMost meter.old meter.new
            (cut_cost B.SHARES self.now.kind (end - start)) }
        ensures copied { IfOk result
            (λ part. PartCounts B.SHARES self.now part meter.old meter.new) }
    {
        let repr = match &self.bare.repr {
            Repr::Inline(inline) => {
                Repr::Inline(inline.slice_unchecked_metered(start, end, meter))
            }
            Repr::Borrowed(borrowed) => {
                Repr::Borrowed(Borrowed::new(&borrowed.as_slice()[start..end]))
            }
            Repr::Allocated(allocated) if end - start <= INLINE_CAPACITY => {
                let bytes = allocated.as_slice();
                Repr::Inline(Inline::part_unchecked_metered(bytes, start, end, meter))
            }
            Repr::Allocated(allocated) => {
                Repr::Allocated(allocated.slice_unchecked_metered(alloc, start..end, meter)?)
            }
        };
        Ok(HipByt::of(repr))
    }

    /// The part in this range, or why there is none. A short part of an owner's bytes lies in the new handle itself; a longer one
    /// shares the owner where owners are shared.
    #[inline]
    pub fn try_slice_bounds(
        &self,
        alloc: Global,
        low: Bound<usize>,
        high: Bound<usize>,
    ) -> Result<Self, SliceRefusal<'_, 'b, B>>
        ensures slice { SliceAnswers self.now low high result }
    {
        self.try_slice_bounds_metered(alloc, low, high, &mut Meter::new())
    }

    /// [`HipByt::try_slice_bounds`], counted.
    #[inline]
    pub fn try_slice_bounds_metered(
        &self,
        alloc: Global,
        low: Bound<usize>,
        high: Bound<usize>,
        meter: &mut Meter,
    ) -> Result<Self, SliceRefusal<'_, 'b, B>>
        ensures slice { SliceAnswers self.now low high result }
        ensures counted { RisesAtMost meter.old meter.new (slice_cost B.SHARES self.now low high) }
        ensures copied { IfOk result
            (λ part. PartCounts B.SHARES self.now part meter.old meter.new) }
    {
        let len = self.len();
        match range_of(low, high, len) {
            Ok((start, end)) => match self.part_metered(alloc, start, end, meter) {
                Ok(part) => Ok(part),
                Err(AllocError) => Err(SliceRefusal::Memory),
            },
            Err(kind) => Err(SliceRefusal::Slice(SliceError::of_bounds(kind, low, high, self))),
        }
    }

    /// [`HipByt::try_slice_bounds`] of a range as Rust writes it.
    #[inline]
    pub fn try_slice<R: RangeBounds<usize>>(
        &self,
        alloc: Global,
        range: R,
    ) -> Result<Self, SliceRefusal<'_, 'b, B>>
        ensures slice { R.has_bounds range
            → SliceAnswers self.now (R.start_bound range) (R.end_bound range) result }
    {
        self.try_slice_metered(alloc, range, &mut Meter::new())
    }

    /// [`HipByt::try_slice`], counted.
    #[inline]
    pub fn try_slice_metered<R: RangeBounds<usize>>(
        &self,
        alloc: Global,
        range: R,
        meter: &mut Meter,
    ) -> Result<Self, SliceRefusal<'_, 'b, B>>
        ensures slice { R.has_bounds range
            → SliceAnswers self.now (R.start_bound range) (R.end_bound range) result }
        ensures counted { R.has_bounds range
            → RisesAtMost meter.old meter.new
            (slice_cost B.SHARES self.now (R.start_bound range) (R.end_bound range)) }
        ensures copied { IfOk result
            (λ part. PartCounts B.SHARES self.now part meter.old meter.new) }
    {
        let low = bound_of(range.start_bound());
        let high = bound_of(range.end_bound());
        self.try_slice_bounds_metered(alloc, low, high, meter)
    }

    /// The part in a range of the bytes. [`HipByt::try_slice`] tests whether the range is one.
    #[inline]
    pub fn slice<R: RangeBounds<usize>>(&self, alloc: Global, range: R) -> Result<Self, AllocError>
        requires bounds { R.has_bounds range }
        requires valid { slice_fault (R.start_bound range) (R.end_bound range)
            (length self.now.items) ≡ None }
        ensures part { CutAnswers self.now
            (slice_of (R.start_bound range) (R.end_bound range) self.now.items) result }
    {
        self.slice_metered(alloc, range, &mut Meter::new())
    }

    /// [`HipByt::slice`], counted.
    #[inline]
    pub fn slice_metered<R: RangeBounds<usize>>(
        &self,
        alloc: Global,
        range: R,
        meter: &mut Meter,
    ) -> Result<Self, AllocError>
        requires bounds { R.has_bounds range }
        requires valid { slice_fault (R.start_bound range) (R.end_bound range)
            (length self.now.items) ≡ None }
        ensures part { CutAnswers self.now
            (slice_of (R.start_bound range) (R.end_bound range) self.now.items) result }
        ensures counted { RisesAtMost meter.old meter.new
            (cut_cost B.SHARES self.now.kind
            (length (slice_of (R.start_bound range) (R.end_bound range) self.now.items))) }
        ensures copied { IfOk result
            (λ part. PartCounts B.SHARES self.now part meter.old meter.new) }
    {
        let (start, end) = sound_range(
            bound_of(range.start_bound()),
            bound_of(range.end_bound()),
            self.len(),
        );
        self.part_metered(alloc, start, end, meter)
    }

    /// [`HipByt::slice`] under the name that it has where the range is tested already.
    #[inline]
    pub fn slice_unchecked<R: RangeBounds<usize>>(
        &self,
        alloc: Global,
        range: R,
    ) -> Result<Self, AllocError>
        requires bounds { R.has_bounds range }
        requires valid { slice_fault (R.start_bound range) (R.end_bound range)
            (length self.now.items) ≡ None }
        ensures part { CutAnswers self.now
            (slice_of (R.start_bound range) (R.end_bound range) self.now.items) result }
    {
        self.slice_metered(alloc, range, &mut Meter::new())
    }

    /// [`HipByt::slice_unchecked`], counted.
    #[inline]
    pub fn slice_unchecked_metered<R: RangeBounds<usize>>(
        &self,
        alloc: Global,
        range: R,
        meter: &mut Meter,
    ) -> Result<Self, AllocError>
        requires bounds { R.has_bounds range }
        requires valid { slice_fault (R.start_bound range) (R.end_bound range)
            (length self.now.items) ≡ None }
        ensures part { CutAnswers self.now
            (slice_of (R.start_bound range) (R.end_bound range) self.now.items) result }
        ensures counted { RisesAtMost meter.old meter.new
            (cut_cost B.SHARES self.now.kind
            (length (slice_of (R.start_bound range) (R.end_bound range) self.now.items))) }
        ensures copied { IfOk result
            (λ part. PartCounts B.SHARES self.now part meter.old meter.new) }
    {
        self.slice_metered(alloc, range, meter)
    }
}
