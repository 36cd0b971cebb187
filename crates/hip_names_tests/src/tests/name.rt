//! The calls that the tests make on an OS string and on a path alike, and on an OS string alone, by their own names. A name of two calls is
//! the one after the other. The methods have no contracts, so that a test knows nothing but what it compares.
use super::handle::Handle;
use hip_bytes::{Kind, RefMut, Source};
use std::alloc::{AllocError, Global};
use std::borrow::CowSlice;
use std::cmp::Ordering;
use std::fmt;
use std::hash::Hash;

pub trait Name: Handle + Source + Hash + Ord + fmt::Debug {
    type Bytes: Handle;

    /// Whether it is compared by components, and not by bytes.
    const IS_PATH: bool;

    fn new() -> Self;

    fn default() -> Self;

    fn inline_capacity() -> usize;

    fn borrowed(text: &'static str) -> Self;

    fn from_static(text: &'static str) -> Self;

    fn from_str(alloc: Global, text: &str) -> Result<Self, AllocError>;

    fn from_string(alloc: Global, string: String) -> Result<Self, String>;

    fn clone(&self, alloc: Global) -> Result<Self, AllocError>;

    fn into_owned(self, alloc: Global) -> Result<Self, Self>;

    fn capacity(&self) -> usize;

    fn as_borrowed(&self) -> Option<&'static [u8]>;

    fn into_borrowed(self) -> Result<&'static [u8], Self>;

    /// By `into_os_string` or `into_path_buf`.
    fn into_vec(self, alloc: Global) -> Result<Vec<u8>, Self>;

    fn into_os_string(self, alloc: Global) -> Result<Vec<u8>, Self>;

    /// The byte string that `From` makes, of a path by way of an OS string.
    fn into(self) -> Self::Bytes;

    /// By `into_bytes`, and of a path `into_os_str` before it.
    fn into_vec_copied(self, alloc: Global) -> Result<Vec<u8>, AllocError>;

    fn mutate(&mut self, alloc: Global) -> Result<RefMut<'_, Self>, AllocError>;

    fn shrink_to(&mut self, alloc: Global, least: usize) -> Result<(), AllocError>;

    fn shrink_to_fit(&mut self, alloc: Global) -> Result<(), AllocError>;

    fn os_str_eq(&self, other: &[u8]) -> bool;

    fn path_eq(&self, other: &[u8]) -> bool;

    fn path_cmp(&self, other: &[u8]) -> Ordering;

    /// By each `From`: to the other type, from it to a byte string, and back.
    fn there_and_back(self) -> Self;

    /// `into_owned` of a text that is lent for a while.
    fn borrowed_into_owned(alloc: Global, text: &str) -> Result<Self, AllocError>;

    /// `with_capacity` and `push` of an OS string.
    fn with_capacity_push(alloc: Global, capacity: usize, text: &str) -> Result<Self, AllocError>;

    /// `into_cow` of the byte string.
    fn into_cow(self, alloc: Global) -> Result<CowSlice<'static, u8>, AllocError>;

    /// Whether the text is this, by `str_eq`, and where it lies.
    fn into_str_eq(self, text: &str) -> Result<(bool, Kind), Self>;
}

/// The calls that an OS string alone has.
pub trait OsStr: Name {
    fn len(&self) -> usize;

    fn is_empty(&self) -> bool;

    fn push(&mut self, alloc: Global, addition: &str) -> Result<(), AllocError>;

    fn os_str_cmp(&self, other: &[u8]) -> Ordering;

    /// A copy of the text.
    fn to_str(&self, alloc: Global) -> Result<Option<String>, AllocError>;

    /// A copy of the text, and whether that was lent.
    fn to_str_lossy(&self, alloc: Global) -> Result<(String, bool), AllocError>;
}
