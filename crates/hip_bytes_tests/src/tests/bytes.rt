//! The calls of a byte string that the tests make, by their own names. A longer name is that call with one kind of range, with a number of
//! pieces, or with one closure. The methods have no contracts, so that a test knows nothing but what it compares.
use super::faults::{Part, Tried};
use hip_bytes::{GrowFault, Kind, Meter, RefMut, Source};
use std::alloc::{AllocError, Global};
use std::borrow::CowSlice;
use std::cmp::Ordering;
use std::fmt;
use std::hash::Hash;
use std::ops::{Bound, Range, RangeBounds};

pub trait Bytes: Source + Hash + Ord + fmt::Debug {
    /// Whether owners are shared.
    const SHARES: bool;

    fn inline_capacity() -> usize;

    fn new() -> Self;

    fn default() -> Self;

    fn inline(bytes: &[u8]) -> Result<Self, &'static str>;

    fn try_inline(bytes: &[u8]) -> Option<Self>;

    fn borrowed(bytes: &'static [u8]) -> Self;

    fn from_static(bytes: &'static [u8]) -> Self;

    fn with_capacity(alloc: Global, capacity: usize) -> Result<Self, AllocError>;

    fn from_slice(alloc: Global, bytes: &[u8]) -> Result<Self, AllocError>;

    fn from_vec(alloc: Global, vec: Vec<u8>) -> Result<Self, Vec<u8>>;

    fn from_cow(alloc: Global, cow: CowSlice<'static, u8>) -> Result<Self, CowSlice<'static, u8>>;

    fn clone(&self, alloc: Global) -> Result<Self, AllocError>;

    fn clone_metered(&self, alloc: Global, meter: &mut Meter) -> Result<Self, AllocError>;

    fn len(&self) -> usize;

    fn is_empty(&self) -> bool;

    fn as_slice(&self) -> &[u8];

    /// The call of that name of the trait `AsSlice`.
    fn as_slice_of_trait(&self) -> &[u8];

    fn kind(&self) -> Kind;

    fn is_inline(&self) -> bool;

    fn is_borrowed(&self) -> bool;

    fn is_allocated(&self) -> bool;

    fn capacity(&self) -> usize;

    fn is_normalized(&self) -> bool;

    fn as_borrowed(&self) -> Option<&'static [u8]>;

    fn into_borrowed(self) -> Result<&'static [u8], Self>;

    fn into_owned(self, alloc: Global) -> Result<Self, Self>;

    fn into_vec(self, alloc: Global) -> Result<Vec<u8>, Self>;

    fn into_vec_copied(self, alloc: Global) -> Result<Vec<u8>, Self>;

    fn into_cow(self, alloc: Global) -> Result<CowSlice<'static, u8>, Self>;

    fn push(&mut self, alloc: Global, byte: u8) -> Result<(), AllocError>;

    fn push_metered(
        &mut self,
        alloc: Global,
        byte: u8,
        meter: &mut Meter,
    ) -> Result<(), AllocError>;

    fn push_slice(&mut self, alloc: Global, addition: &[u8]) -> Result<(), AllocError>;

    fn push_slice_metered(
        &mut self,
        alloc: Global,
        addition: &[u8],
        meter: &mut Meter,
    ) -> Result<(), AllocError>;

    fn truncate(&mut self, len: usize);

    fn pop(&mut self) -> Option<u8>;

    fn clear(&mut self);

    fn shrink_to(&mut self, alloc: Global, least: usize) -> Result<(), AllocError>;

    fn shrink_to_fit(&mut self, alloc: Global) -> Result<(), AllocError>;

    fn try_slice<R: RangeBounds<usize>>(&self, alloc: Global, range: R) -> Tried<Self>;

    fn try_slice_bounds(&self, alloc: Global, low: Bound<usize>, high: Bound<usize>) -> Tried<Self>;

    /// Whether the errors are equal by which `try_slice` refuses two values from two places on.
    fn slice_errors_eq(alloc: Global, left: (&Self, usize), right: (&Self, usize)) -> bool;

    fn slice(&self, alloc: Global, range: Range<usize>) -> Part<Self>;

    fn slice_from(&self, alloc: Global, start: usize) -> Part<Self>;

    fn slice_to(&self, alloc: Global, end: usize) -> Part<Self>;

    /// `slice` of an inclusive range.
    fn slice_through(&self, alloc: Global, start: usize, last: usize) -> Part<Self>;

    fn slice_full(&self, alloc: Global) -> Result<Self, AllocError>;

    fn slice_metered(&self, alloc: Global, range: Range<usize>, meter: &mut Meter) -> Part<Self>;

    fn slice_unchecked(&self, alloc: Global, range: Range<usize>) -> Part<Self>;

    /// `slice_unchecked` of an inclusive range that has no start.
    fn slice_unchecked_through(&self, alloc: Global, last: usize) -> Part<Self>;

    fn slice_unchecked_metered(
        &self,
        alloc: Global,
        range: Range<usize>,
        meter: &mut Meter,
    ) -> Part<Self>;

    fn repeat(&self, alloc: Global, n: usize) -> Result<Self, GrowFault>;

    fn repeat_metered(&self, alloc: Global, n: usize, meter: &mut Meter) -> Result<Self, GrowFault>;

    fn concat_slices(alloc: Global, slices: &[&[u8]]) -> Result<Self, GrowFault>;

    fn join_slices(alloc: Global, slices: &[&[u8]], sep: &[u8]) -> Result<Self, GrowFault>;

    fn join_slices_metered(
        alloc: Global,
        slices: &[&[u8]],
        sep: &[u8],
        meter: &mut Meter,
    ) -> Result<Self, GrowFault>;

    fn concat(alloc: Global, pieces: [&'static [u8]; 3]) -> Result<Self, GrowFault>;

    fn join(alloc: Global, pieces: [&'static [u8]; 3], sep: &[u8]) -> Result<Self, GrowFault>;

    fn join_two_metered(
        alloc: Global,
        pieces: [&'static [u8]; 2],
        sep: &[u8],
        meter: &mut Meter,
    ) -> Result<Self, GrowFault>;

    fn eq_slice(&self, other: &[u8]) -> bool;

    fn cmp_slice(&self, other: &[u8]) -> Ordering;

    /// `eq_with` a lent value of `Unique`.
    fn eq_with(&self, other: &'static [u8]) -> bool;

    /// `cmp_with` a lent value of `Unique`.
    fn cmp_with(&self, other: &'static [u8]) -> Ordering;

    fn as_mut_slice(&mut self) -> Option<&mut [u8]>;

    fn to_mut_slice(&mut self, alloc: Global) -> Result<&mut [u8], AllocError>;

    /// `with_mut_slice` with the closure that reverses the bytes.
    fn with_mut_slice_reverse(&mut self) -> Option<()>;

    /// `with_to_mut_slice_metered` with the closure that makes the letters capitals.
    fn with_to_mut_slice_metered_uppercase(
        &mut self,
        alloc: Global,
        meter: &mut Meter,
    ) -> Result<(), AllocError>;

    fn make_ascii_uppercase(&mut self, alloc: Global) -> Result<(), AllocError>;

    fn make_ascii_lowercase(&mut self, alloc: Global) -> Result<(), AllocError>;

    fn to_ascii_uppercase(&self, alloc: Global) -> Result<Self, AllocError>;

    fn to_ascii_lowercase(&self, alloc: Global) -> Result<Self, AllocError>;

    fn mutate(&mut self, alloc: Global) -> Result<RefMut<'_, Self>, AllocError>;
}
