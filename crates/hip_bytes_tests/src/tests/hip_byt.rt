//! The tests' calls of a byte string, for any backend.
use super::bytes::Bytes;
use super::faults::{Part, RangeFault, Tried, part_or_told};
use hip_bytes::{
    Backend, GrowFault, HipByt, INLINE_CAPACITY, Kind, Meter, RefMut, SliceRefusal, Unique,
};
use std::alloc::{AllocError, Global};
use std::borrow::CowSlice;
use std::cmp::Ordering;
use std::convert::AsSlice;
use std::ops::{Bound, Range, RangeBounds};

impl<B: Backend> Bytes for HipByt<'static, B> {
    const SHARES: bool = B::SHARES;

    fn inline_capacity() -> usize {
        HipByt::<B>::inline_capacity()
    }

    fn new() -> Self {
        HipByt::new()
    }

    fn default() -> Self {
        Default::default()
    }

    fn inline(bytes: &[u8]) -> Result<Self, &'static str> {
        if bytes.len() > INLINE_CAPACITY {
            return Err("too long");
        }
        Ok(HipByt::inline(bytes))
    }

    fn try_inline(bytes: &[u8]) -> Option<Self> {
        HipByt::try_inline(bytes)
    }

    fn borrowed(bytes: &'static [u8]) -> Self {
        HipByt::borrowed(bytes)
    }

    fn from_static(bytes: &'static [u8]) -> Self {
        HipByt::from_static(bytes)
    }

    fn with_capacity(alloc: Global, capacity: usize) -> Result<Self, AllocError> {
        HipByt::with_capacity(alloc, capacity)
    }

    fn from_slice(alloc: Global, bytes: &[u8]) -> Result<Self, AllocError> {
        HipByt::from_slice(alloc, bytes)
    }

    fn from_vec(alloc: Global, vec: Vec<u8>) -> Result<Self, Vec<u8>> {
        HipByt::from_vec(alloc, vec)
    }

    fn from_cow(alloc: Global, cow: CowSlice<'static, u8>) -> Result<Self, CowSlice<'static, u8>> {
        HipByt::from_cow(alloc, cow)
    }

    fn clone(&self, alloc: Global) -> Result<Self, AllocError> {
        self.clone(alloc)
    }

    fn clone_metered(&self, alloc: Global, meter: &mut Meter) -> Result<Self, AllocError> {
        self.clone_metered(alloc, meter)
    }

    fn len(&self) -> usize {
        self.len()
    }

    fn is_empty(&self) -> bool {
        self.is_empty()
    }

    fn as_slice(&self) -> &[u8] {
        self.as_slice()
    }

    fn as_slice_of_trait(&self) -> &[u8] {
        AsSlice::as_slice(self)
    }

    fn kind(&self) -> Kind {
        self.kind()
    }

    fn is_inline(&self) -> bool {
        self.is_inline()
    }

    fn is_borrowed(&self) -> bool {
        self.is_borrowed()
    }

    fn is_allocated(&self) -> bool {
        self.is_allocated()
    }

    fn capacity(&self) -> usize {
        self.capacity()
    }

    fn is_normalized(&self) -> bool {
        self.is_normalized()
    }

    fn as_borrowed(&self) -> Option<&'static [u8]> {
        self.as_borrowed()
    }

    fn into_borrowed(self) -> Result<&'static [u8], Self> {
        self.into_borrowed()
    }

    fn into_owned(self, alloc: Global) -> Result<Self, Self> {
        self.into_owned(alloc)
    }

    fn into_vec(self, alloc: Global) -> Result<Vec<u8>, Self> {
        self.into_vec(alloc)
    }

    fn into_vec_copied(self, alloc: Global) -> Result<Vec<u8>, Self> {
        self.into_vec_copied(alloc)
    }

    fn into_cow(self, alloc: Global) -> Result<CowSlice<'static, u8>, Self> {
        self.into_cow(alloc)
    }

    fn push(&mut self, alloc: Global, byte: u8) -> Result<(), AllocError> {
        self.push(alloc, byte)
    }

    fn push_metered(
        &mut self,
        alloc: Global,
        byte: u8,
        meter: &mut Meter,
    ) -> Result<(), AllocError> {
        self.push_metered(alloc, byte, meter)
    }

    fn push_slice(&mut self, alloc: Global, addition: &[u8]) -> Result<(), AllocError> {
        self.push_slice(alloc, addition)
    }

    fn push_slice_metered(
        &mut self,
        alloc: Global,
        addition: &[u8],
        meter: &mut Meter,
    ) -> Result<(), AllocError> {
        self.push_slice_metered(alloc, addition, meter)
    }

    fn truncate(&mut self, len: usize) {
        self.truncate(len);
    }

    fn pop(&mut self) -> Option<u8> {
        self.pop()
    }

    fn clear(&mut self) {
        self.clear();
    }

    fn shrink_to(&mut self, alloc: Global, least: usize) -> Result<(), AllocError> {
        self.shrink_to(alloc, least)
    }

    fn shrink_to_fit(&mut self, alloc: Global) -> Result<(), AllocError> {
        self.shrink_to_fit(alloc)
    }

    fn try_slice<R: RangeBounds<usize>>(&self, alloc: Global, range: R) -> Tried<Self> {
        part_or_told(alloc, self.try_slice(alloc, range))
    }

    fn try_slice_bounds(
        &self,
        alloc: Global,
        low: Bound<usize>,
        high: Bound<usize>,
    ) -> Tried<Self> {
        part_or_told(alloc, self.try_slice_bounds(alloc, low, high))
    }

    fn slice_errors_eq(alloc: Global, left: (&Self, usize), right: (&Self, usize)) -> bool {
        let Err(SliceRefusal::Slice(error)) = left.0.try_slice(alloc, left.1..) else {
            return false;
        };
        let Err(SliceRefusal::Slice(other)) = right.0.try_slice(alloc, right.1..) else {
            return false;
        };
        error == other
    }

    fn slice(&self, alloc: Global, range: Range<usize>) -> Part<Self> {
        if range.start > range.end || range.end > self.len() {
            return Err(RangeFault::Bad);
        }
        self.slice(alloc, range).or(Err(RangeFault::Memory))
    }

    fn slice_from(&self, alloc: Global, start: usize) -> Part<Self> {
        if start > self.len() {
            return Err(RangeFault::Bad);
        }
        self.slice(alloc, start..).or(Err(RangeFault::Memory))
    }

    fn slice_to(&self, alloc: Global, end: usize) -> Part<Self> {
        if end > self.len() {
            return Err(RangeFault::Bad);
        }
        self.slice(alloc, ..end).or(Err(RangeFault::Memory))
    }

    fn slice_through(&self, alloc: Global, start: usize, last: usize) -> Part<Self> {
        if start > last || last >= self.len() {
            return Err(RangeFault::Bad);
        }
        self.slice(alloc, start..=last).or(Err(RangeFault::Memory))
    }

    fn slice_full(&self, alloc: Global) -> Result<Self, AllocError> {
        self.slice(alloc, ..)
    }

    fn slice_metered(&self, alloc: Global, range: Range<usize>, meter: &mut Meter) -> Part<Self> {
        if range.start > range.end || range.end > self.len() {
            return Err(RangeFault::Bad);
        }
        let part = self.slice_metered(alloc, range, meter);
        part.or(Err(RangeFault::Memory))
    }

    fn slice_unchecked(&self, alloc: Global, range: Range<usize>) -> Part<Self> {
        if range.start > range.end || range.end > self.len() {
            return Err(RangeFault::Bad);
        }
        self.slice_unchecked(alloc, range)
            .or(Err(RangeFault::Memory))
    }

    fn slice_unchecked_through(&self, alloc: Global, last: usize) -> Part<Self> {
        if last >= self.len() {
            return Err(RangeFault::Bad);
        }
        self.slice_unchecked(alloc, ..=last)
            .or(Err(RangeFault::Memory))
    }

    fn slice_unchecked_metered(
        &self,
        alloc: Global,
        range: Range<usize>,
        meter: &mut Meter,
    ) -> Part<Self> {
        if range.start > range.end || range.end > self.len() {
            return Err(RangeFault::Bad);
        }
        let part = self.slice_unchecked_metered(alloc, range, meter);
        part.or(Err(RangeFault::Memory))
    }

    fn repeat(&self, alloc: Global, n: usize) -> Result<Self, GrowFault> {
        self.repeat(alloc, n)
    }

    fn repeat_metered(
        &self,
        alloc: Global,
        n: usize,
        meter: &mut Meter,
    ) -> Result<Self, GrowFault> {
        self.repeat_metered(alloc, n, meter)
    }

    fn concat_slices(alloc: Global, slices: &[&[u8]]) -> Result<Self, GrowFault> {
        HipByt::concat_slices(alloc, slices)
    }

    fn join_slices(alloc: Global, slices: &[&[u8]], sep: &[u8]) -> Result<Self, GrowFault> {
        HipByt::join_slices(alloc, slices, sep)
    }

    fn join_slices_metered(
        alloc: Global,
        slices: &[&[u8]],
        sep: &[u8],
        meter: &mut Meter,
    ) -> Result<Self, GrowFault> {
        HipByt::join_slices_metered(alloc, slices, sep, meter)
    }

    fn concat(alloc: Global, pieces: [&'static [u8]; 3]) -> Result<Self, GrowFault> {
        HipByt::concat(alloc, pieces)
    }

    fn join(alloc: Global, pieces: [&'static [u8]; 3], sep: &[u8]) -> Result<Self, GrowFault> {
        HipByt::join(alloc, pieces, sep)
    }

    fn join_two_metered(
        alloc: Global,
        pieces: [&'static [u8]; 2],
        sep: &[u8],
        meter: &mut Meter,
    ) -> Result<Self, GrowFault> {
        HipByt::join_metered(alloc, pieces, sep, meter)
    }

    fn eq_slice(&self, other: &[u8]) -> bool {
        self.eq_slice(other)
    }

    fn cmp_slice(&self, other: &[u8]) -> Ordering {
        self.cmp_slice(other)
    }

    fn eq_with(&self, other: &'static [u8]) -> bool {
        self.eq_with(&HipByt::<Unique>::borrowed(other))
    }

    fn cmp_with(&self, other: &'static [u8]) -> Ordering {
        self.cmp_with(&HipByt::<Unique>::borrowed(other))
    }

    fn as_mut_slice(&mut self) -> Option<&mut [u8]> {
        self.as_mut_slice()
    }

    fn to_mut_slice(&mut self, alloc: Global) -> Result<&mut [u8], AllocError> {
        self.to_mut_slice(alloc)
    }

    fn with_mut_slice_reverse(&mut self) -> Option<()> {
        self.with_mut_slice(|bytes| bytes.reverse())
    }

    fn with_to_mut_slice_metered_uppercase(
        &mut self,
        alloc: Global,
        meter: &mut Meter,
    ) -> Result<(), AllocError> {
        self.with_to_mut_slice_metered(alloc, |bytes| bytes.make_ascii_uppercase(), meter)
    }

    fn make_ascii_uppercase(&mut self, alloc: Global) -> Result<(), AllocError> {
        self.make_ascii_uppercase(alloc)
    }

    fn make_ascii_lowercase(&mut self, alloc: Global) -> Result<(), AllocError> {
        self.make_ascii_lowercase(alloc)
    }

    fn to_ascii_uppercase(&self, alloc: Global) -> Result<Self, AllocError> {
        self.to_ascii_uppercase(alloc)
    }

    fn to_ascii_lowercase(&self, alloc: Global) -> Result<Self, AllocError> {
        self.to_ascii_lowercase(alloc)
    }

    fn mutate(&mut self, alloc: Global) -> Result<RefMut<'_, Self>, AllocError> {
        self.mutate(alloc)
    }
}
