//! The tests' calls of a path.
use super::handle::{Handle, Json};
use super::name::Name;
use super::support::kind_of;
use hip_bytes::RefMut;
use hip_names::{Backend, HipByt, HipOsStr, HipPath, JsonFault, Kind};
use serde_json::Value;
use std::alloc::{AllocError, Global};
use std::borrow::CowSlice;
use std::cmp::Ordering;

impl<B: Backend> Handle for HipPath<'static, B> {
    fn lent(bytes: &'static [u8]) -> Result<Self, &'static str> {
        Ok(HipPath::from(HipByt::borrowed(bytes)))
    }

    fn bytes(&self) -> &[u8] {
        self.as_path()
    }

    fn kind(&self) -> Option<Kind> {
        kind_of(self.is_inline(), self.is_borrowed(), self.is_allocated())
    }
}

impl<B: Backend> Json for HipPath<'static, B> {
    fn to_json(&self, alloc: Global) -> Result<Value, JsonFault> {
        self.to_json(alloc)
    }

    fn from_json(alloc: Global, value: &Value) -> Result<Self, JsonFault> {
        HipPath::from_json(alloc, value)
    }
}

impl<B: Backend> Name for HipPath<'static, B> {
    type Bytes = HipByt<'static, B>;

    const IS_PATH: bool = true;

    fn new() -> Self {
        HipPath::new()
    }

    fn default() -> Self {
        Default::default()
    }

    fn inline_capacity() -> usize {
        HipPath::<B>::inline_capacity()
    }

    fn borrowed(text: &'static str) -> Self {
        HipPath::borrowed(text)
    }

    fn from_static(text: &'static str) -> Self {
        HipPath::from_static(text)
    }

    fn from_str(alloc: Global, text: &str) -> Result<Self, AllocError> {
        HipPath::from_str(alloc, text)
    }

    fn from_string(alloc: Global, string: String) -> Result<Self, String> {
        HipPath::from_string(alloc, string)
    }

    fn clone(&self, alloc: Global) -> Result<Self, AllocError> {
        self.clone(alloc)
    }

    fn into_owned(self, alloc: Global) -> Result<Self, Self> {
        self.into_owned(alloc)
    }

    fn capacity(&self) -> usize {
        self.capacity()
    }

    fn as_borrowed(&self) -> Option<&'static [u8]> {
        self.as_borrowed()
    }

    fn into_borrowed(self) -> Result<&'static [u8], Self> {
        self.into_borrowed()
    }

    fn into_vec(self, alloc: Global) -> Result<Vec<u8>, Self> {
        self.into_path_buf(alloc)
    }

    fn into_os_string(self, alloc: Global) -> Result<Vec<u8>, Self> {
        self.into_os_string(alloc)
    }

    fn into(self) -> HipByt<'static, B> {
        HipByt::from(self)
    }

    fn into_vec_copied(self, alloc: Global) -> Result<Vec<u8>, AllocError> {
        let bytes = self.into_os_str().into_bytes();
        bytes.into_vec_copied(alloc).or(Err(AllocError))
    }

    fn mutate(&mut self, alloc: Global) -> Result<RefMut<'_, Self>, AllocError> {
        self.mutate(alloc)
    }

    fn shrink_to(&mut self, alloc: Global, least: usize) -> Result<(), AllocError> {
        self.shrink_to(alloc, least)
    }

    fn shrink_to_fit(&mut self, alloc: Global) -> Result<(), AllocError> {
        self.shrink_to_fit(alloc)
    }

    fn os_str_eq(&self, other: &[u8]) -> bool {
        self.os_str_eq(other)
    }

    fn path_eq(&self, other: &[u8]) -> bool {
        self.path_eq(other)
    }

    fn path_cmp(&self, other: &[u8]) -> Ordering {
        self.path_cmp(other)
    }

    fn there_and_back(self) -> Self {
        HipPath::from(HipOsStr::from(HipByt::from(HipOsStr::from(self))))
    }

    fn borrowed_into_owned(alloc: Global, text: &str) -> Result<Self, AllocError> {
        HipPath::borrowed(text)
            .into_owned(alloc)
            .or(Err(AllocError))
    }

    fn with_capacity_push(alloc: Global, capacity: usize, text: &str) -> Result<Self, AllocError> {
        let mut name = HipOsStr::with_capacity(alloc, capacity)?;
        name.push(alloc, text)?;
        Ok(HipPath::from(name))
    }

    fn into_cow(self, alloc: Global) -> Result<CowSlice<'static, u8>, AllocError> {
        let bytes = self.into_os_str().into_bytes();
        bytes.into_cow(alloc).or(Err(AllocError))
    }

    fn into_str_eq(self, text: &str) -> Result<(bool, Kind), Self> {
        let made = self.into_str()?;
        Ok((made.str_eq(text), made.kind()))
    }
}
