//! The tests' calls of a text, for any backend.
use super::faults::{Part, RangeFault, Refusal, Told};
use super::support::both_shown;
use super::text::{Bytes, FromUtf8Error, Text};
use hip_text::{
    Backend, BytesFault, GrowFault, HipByt, HipStr, Kind, Meter, SliceError, SliceRefusal, Unique,
    Utf16Fault,
};
use std::alloc::{AllocError, Global};
use std::borrow::CowStr;
use std::cmp::Ordering;
use std::ops::{Bound, Range};
use std::str::Utf8Error;

fn told_by<B: Backend>(
    alloc: Global,
    error: SliceError<'_, 'static, B>,
) -> Result<Told, AllocError> {
    let (display, debug) = both_shown(alloc, &error)?;
    Ok(Told {
        source: String::from_str(alloc, error.source().as_str())?,
        kind: error.kind(),
        start: error.start(),
        end: error.end(),
        range: error.range(),
        display,
        debug,
    })
}

/// A copy of what was lent, unless it couldn't be added to or written back.
fn lent_if(is_so: bool, lent: Result<String, AllocError>) -> Result<String, AllocError> {
    if is_so { lent } else { Err(AllocError) }
}

impl<B: Backend> Text for HipStr<'static, B> {
    type Bytes = HipByt<'static, B>;

    type FromUtf8Error = hip_text::FromUtf8Error<'static, B>;

    fn new() -> Self {
        HipStr::new()
    }

    fn with_capacity(alloc: Global, capacity: usize) -> Result<Self, AllocError> {
        HipStr::with_capacity(alloc, capacity)
    }

    fn inline_capacity() -> usize {
        HipStr::<B>::inline_capacity()
    }

    fn from_static(text: &'static str) -> Self {
        HipStr::from_static(text)
    }

    fn borrowed(text: &'static str) -> Self {
        HipStr::borrowed(text)
    }

    fn from_str(alloc: Global, text: &str) -> Result<Self, AllocError> {
        HipStr::from_str(alloc, text)
    }

    fn from_string(alloc: Global, string: String) -> Result<Self, String> {
        HipStr::from_string(alloc, string)
    }

    fn from_cow(alloc: Global, cow: CowStr<'static>) -> Result<Self, CowStr<'static>> {
        HipStr::from_cow(alloc, cow)
    }

    fn from_utf8(bytes: HipByt<'static, B>) -> Result<Self, hip_text::FromUtf8Error<'static, B>> {
        HipStr::from_utf8(bytes)
    }

    fn from_utf8_lossy(
        alloc: Global,
        bytes: HipByt<'static, B>,
    ) -> Result<Self, HipByt<'static, B>> {
        HipStr::from_utf8_lossy(alloc, bytes)
    }

    fn try_from_slice(alloc: Global, bytes: &[u8]) -> Result<Self, BytesFault> {
        HipStr::try_from_slice(alloc, bytes)
    }

    fn try_from_vec(alloc: Global, vec: Vec<u8>) -> Result<Self, (BytesFault, Vec<u8>)> {
        HipStr::try_from_vec(alloc, vec)
    }

    fn from_utf16(alloc: Global, units: &[u16]) -> Result<Self, Utf16Fault> {
        HipStr::from_utf16(alloc, units)
    }

    fn from_utf16_lossy(alloc: Global, units: &[u16]) -> Result<Self, AllocError> {
        HipStr::from_utf16_lossy(alloc, units)
    }

    fn join_slices(alloc: Global, texts: &[&str], sep: &str) -> Result<Self, GrowFault> {
        HipStr::join_slices(alloc, texts, sep)
    }

    fn join(alloc: Global, texts: &[&str], sep: &str) -> Result<Self, GrowFault> {
        HipStr::join(alloc, texts.iter().copied(), sep)
    }

    fn concat_slices_metered(
        alloc: Global,
        texts: &[&str],
        meter: &mut Meter,
    ) -> Result<Self, GrowFault> {
        HipStr::concat_slices_metered(alloc, texts, meter)
    }

    fn concat(alloc: Global, texts: [&'static str; 3]) -> Result<Self, GrowFault> {
        HipStr::concat(alloc, texts)
    }

    fn repeat(&self, alloc: Global, n: usize) -> Result<Self, GrowFault> {
        self.repeat(alloc, n)
    }

    fn clone(&self, alloc: Global) -> Result<Self, AllocError> {
        self.clone(alloc)
    }

    fn slice(&self, alloc: Global, range: Range<usize>) -> Part<Self> {
        if self.try_slice(alloc, range.start..range.end).is_err() {
            return Err(RangeFault::Bad);
        }
        self.slice(alloc, range).or(Err(RangeFault::Memory))
    }

    fn slice_metered_from(&self, alloc: Global, start: usize, meter: &mut Meter) -> Part<Self> {
        if self.try_slice(alloc, start..).is_err() {
            return Err(RangeFault::Bad);
        }
        let part = self.slice_metered(alloc, start.., meter);
        part.or(Err(RangeFault::Memory))
    }

    fn try_slice_bounds(
        &self,
        alloc: Global,
        low: Bound<usize>,
        high: Bound<usize>,
    ) -> Result<Self, Refusal> {
        match self.try_slice_bounds(alloc, low, high) {
            Ok(part) => Ok(part),
            Err(SliceRefusal::Memory) => Err(Refusal::Memory),
            Err(SliceRefusal::Slice(error)) => match told_by(alloc, error) {
                Ok(told) => Err(Refusal::Slice(told)),
                Err(AllocError) => Err(Refusal::Memory),
            },
        }
    }

    fn as_str(&self) -> &str {
        self.as_str()
    }

    fn as_bytes(&self) -> &[u8] {
        self.as_bytes()
    }

    fn len(&self) -> usize {
        self.len()
    }

    fn kind(&self) -> Kind {
        self.kind()
    }

    fn capacity(&self) -> usize {
        self.capacity()
    }

    fn into_borrowed(self) -> Result<&'static str, Self> {
        self.into_borrowed()
    }

    fn into_string(self, alloc: Global) -> Result<String, Self> {
        self.into_string(alloc)
    }

    fn into_string_copied(self, alloc: Global) -> Result<String, Self> {
        self.into_string_copied(alloc)
    }

    fn into_cow(self, alloc: Global) -> Result<CowStr<'static>, Self> {
        self.into_cow(alloc)
    }

    fn into_bytes(self) -> HipByt<'static, B> {
        self.into_bytes()
    }

    fn into(self) -> HipByt<'static, B> {
        HipByt::from(self)
    }

    fn push_str(&mut self, alloc: Global, addition: &str) -> Result<(), AllocError> {
        self.push_str(alloc, addition)
    }

    fn push(&mut self, alloc: Global, c: char) -> Result<(), AllocError> {
        self.push(alloc, c)
    }

    fn mutate_push_str(&mut self, alloc: Global, addition: &str) -> Result<String, AllocError> {
        let mut guard = self.mutate(alloc)?;
        let added = guard.as_mut_string().push_str(addition).is_ok();
        let lent = String::from_str(alloc, guard.as_string().as_str());
        let is_back = guard.finish(alloc).is_ok();
        lent_if(is_back & added, lent)
    }

    fn mutate_push_str_drop(&mut self, alloc: Global, addition: &str) -> Result<(), AllocError> {
        self.mutate(alloc)?.as_mut_string().push_str(addition)
    }

    fn truncate(&mut self, len: usize) -> Result<(), RangeFault> {
        if len < self.len() && !self.as_str().is_char_boundary(len) {
            return Err(RangeFault::Bad);
        }
        self.truncate(len);
        Ok(())
    }

    fn pop(&mut self) -> Option<char> {
        self.pop()
    }

    fn to_ascii_uppercase(&self, alloc: Global) -> Result<Self, AllocError> {
        self.to_ascii_uppercase(alloc)
    }

    fn to_ascii_lowercase(&self, alloc: Global) -> Result<Self, AllocError> {
        self.to_ascii_lowercase(alloc)
    }

    fn str_eq(&self, other: &str) -> bool {
        self.str_eq(other)
    }

    fn eq_with(&self, other: &str) -> bool {
        self.eq_with(&HipStr::<Unique>::borrowed(other))
    }

    fn str_cmp(&self, other: &str) -> Ordering {
        self.str_cmp(other)
    }

    fn cmp_with(&self, other: &str) -> Ordering {
        self.cmp_with(&HipStr::<Unique>::borrowed(other))
    }

    fn cmp_borrowed(left: &str, right: &str) -> Ordering {
        Ord::cmp(&HipStr::<B>::borrowed(left), &HipStr::borrowed(right))
    }
}

impl<B: Backend> Bytes for HipByt<'static, B> {
    fn borrowed(bytes: &'static [u8]) -> Self {
        HipByt::borrowed(bytes)
    }

    fn from_slice(alloc: Global, bytes: &[u8]) -> Result<Self, AllocError> {
        HipByt::from_slice(alloc, bytes)
    }

    fn with_capacity(alloc: Global, capacity: usize) -> Result<Self, AllocError> {
        HipByt::with_capacity(alloc, capacity)
    }

    fn push_slice(&mut self, alloc: Global, addition: &[u8]) -> Result<(), AllocError> {
        self.push_slice(alloc, addition)
    }

    fn clone(&self, alloc: Global) -> Result<Self, AllocError> {
        self.clone(alloc)
    }

    fn repeat(&self, alloc: Global, n: usize) -> Result<Self, GrowFault> {
        self.repeat(alloc, n)
    }

    fn kind(&self) -> Kind {
        self.kind()
    }

    fn as_slice(&self) -> &[u8] {
        self.as_slice()
    }

    fn into_vec_copied(self, alloc: Global) -> Result<Vec<u8>, Self> {
        self.into_vec_copied(alloc)
    }
}

impl<B: Backend> FromUtf8Error for hip_text::FromUtf8Error<'static, B> {
    type Bytes = HipByt<'static, B>;

    fn as_bytes(&self) -> &[u8] {
        self.as_bytes()
    }

    fn utf8_error(&self) -> Utf8Error {
        self.utf8_error()
    }

    fn into_bytes(self) -> HipByt<'static, B> {
        self.into_bytes()
    }

    fn clone(&self, alloc: Global) -> Result<Self, AllocError> {
        self.clone(alloc)
    }
}
