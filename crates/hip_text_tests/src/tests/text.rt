//! The calls that the tests make on a text, on its bytes, and on the error of bytes that aren't one, by their own names. A longer name is
//! that call with one kind of range, or of its guard. The methods have no contracts, so that a test knows nothing but what it compares.
use super::faults::{Part, RangeFault, Refusal};
use hip_text::{BytesFault, GrowFault, Kind, Meter, Utf16Fault};
use std::alloc::{AllocError, Global};
use std::borrow::CowStr;
use std::cmp::Ordering;
use std::fmt;
use std::hash::Hash;
use std::ops::{Bound, Range};
use std::str::Utf8Error;

pub trait Text: Hash + Ord + Drop {
    type Bytes: Bytes;

    type FromUtf8Error: FromUtf8Error<Bytes = Self::Bytes>;

    fn new() -> Self;

    fn with_capacity(alloc: Global, capacity: usize) -> Result<Self, AllocError>;

    fn inline_capacity() -> usize;

    fn from_static(text: &'static str) -> Self;

    fn borrowed(text: &'static str) -> Self;

    fn from_str(alloc: Global, text: &str) -> Result<Self, AllocError>;

    fn from_string(alloc: Global, string: String) -> Result<Self, String>;

    fn from_cow(alloc: Global, cow: CowStr<'static>) -> Result<Self, CowStr<'static>>;

    fn from_utf8(bytes: Self::Bytes) -> Result<Self, Self::FromUtf8Error>;

    fn from_utf8_lossy(alloc: Global, bytes: Self::Bytes) -> Result<Self, Self::Bytes>;

    fn try_from_slice(alloc: Global, bytes: &[u8]) -> Result<Self, BytesFault>;

    fn try_from_vec(alloc: Global, vec: Vec<u8>) -> Result<Self, (BytesFault, Vec<u8>)>;

    fn from_utf16(alloc: Global, units: &[u16]) -> Result<Self, Utf16Fault>;

    fn from_utf16_lossy(alloc: Global, units: &[u16]) -> Result<Self, AllocError>;

    fn join_slices(alloc: Global, texts: &[&str], sep: &str) -> Result<Self, GrowFault>;

    fn join(alloc: Global, texts: &[&str], sep: &str) -> Result<Self, GrowFault>;

    fn concat_slices_metered(
        alloc: Global,
        texts: &[&str],
        meter: &mut Meter,
    ) -> Result<Self, GrowFault>;

    fn concat(alloc: Global, texts: [&'static str; 3]) -> Result<Self, GrowFault>;

    fn repeat(&self, alloc: Global, n: usize) -> Result<Self, GrowFault>;

    fn clone(&self, alloc: Global) -> Result<Self, AllocError>;

    fn slice(&self, alloc: Global, range: Range<usize>) -> Part<Self>;

    fn slice_metered_from(&self, alloc: Global, start: usize, meter: &mut Meter) -> Part<Self>;

    fn try_slice_bounds(
        &self,
        alloc: Global,
        low: Bound<usize>,
        high: Bound<usize>,
    ) -> Result<Self, Refusal>;

    fn as_str(&self) -> &str;

    fn as_bytes(&self) -> &[u8];

    fn len(&self) -> usize;

    fn kind(&self) -> Kind;

    fn capacity(&self) -> usize;

    fn into_borrowed(self) -> Result<&'static str, Self>;

    fn into_string(self, alloc: Global) -> Result<String, Self>;

    fn into_string_copied(self, alloc: Global) -> Result<String, Self>;

    fn into_cow(self, alloc: Global) -> Result<CowStr<'static>, Self>;

    fn into_bytes(self) -> Self::Bytes;

    /// The byte string that `From` makes.
    fn into(self) -> Self::Bytes;

    fn push_str(&mut self, alloc: Global, addition: &str) -> Result<(), AllocError>;

    fn push(&mut self, alloc: Global, c: char) -> Result<(), AllocError>;

    /// Adds to the string that `mutate` lends, and tells what it holds then.
    fn mutate_push_str(&mut self, alloc: Global, addition: &str) -> Result<String, AllocError>;

    /// Adds to the string that `mutate` lends, and drops the guard, which isn't written back.
    fn mutate_push_str_drop(&mut self, alloc: Global, addition: &str) -> Result<(), AllocError>;

    fn truncate(&mut self, len: usize) -> Result<(), RangeFault>;

    fn pop(&mut self) -> Option<char>;

    fn to_ascii_uppercase(&self, alloc: Global) -> Result<Self, AllocError>;

    fn to_ascii_lowercase(&self, alloc: Global) -> Result<Self, AllocError>;

    fn str_eq(&self, other: &str) -> bool;

    /// `eq_with` a lent text of `Unique`.
    fn eq_with(&self, other: &str) -> bool;

    fn str_cmp(&self, other: &str) -> Ordering;

    /// `cmp_with` a lent text of `Unique`.
    fn cmp_with(&self, other: &str) -> Ordering;

    /// `cmp` of two texts that are lent for a while.
    fn cmp_borrowed(left: &str, right: &str) -> Ordering;
}

pub trait Bytes: Drop {
    fn borrowed(bytes: &'static [u8]) -> Self;

    fn from_slice(alloc: Global, bytes: &[u8]) -> Result<Self, AllocError>;

    fn with_capacity(alloc: Global, capacity: usize) -> Result<Self, AllocError>;

    fn push_slice(&mut self, alloc: Global, addition: &[u8]) -> Result<(), AllocError>;

    fn clone(&self, alloc: Global) -> Result<Self, AllocError>;

    fn repeat(&self, alloc: Global, n: usize) -> Result<Self, GrowFault>;

    fn kind(&self) -> Kind;

    fn as_slice(&self) -> &[u8];

    fn into_vec_copied(self, alloc: Global) -> Result<Vec<u8>, Self>;
}

pub trait FromUtf8Error: PartialEq + fmt::Display + fmt::Debug + Drop {
    type Bytes: Bytes;

    fn as_bytes(&self) -> &[u8];

    fn utf8_error(&self) -> Utf8Error;

    fn into_bytes(self) -> Self::Bytes;

    fn clone(&self, alloc: Global) -> Result<Self, AllocError>;
}
