//! Conversions.
ghost use Rattle.std.specs.Prelude.{◌≡◌, IfErr, IfOk, OnOk};
ghost use Rattle.hip_names.specs.Decode.{IntoStrAnswers};

use super::HipPath;
use crate::hip_os_str::HipOsStr;
use hip_bytes::{Backend, HipByt, Kind};
use hip_text::HipStr;
use std::alloc::Global;

impl<'b, B: Backend> HipPath<'b, B> {
    /// The OS string, in the same handle.
    #[inline]
    pub fn into_os_str(self) -> HipOsStr<'b, B>
        ensures { result ≡ self.entry }
    {
        let HipPath { name } = self;
        name
    }

    /// The bytes in a vector, where that takes no copy: they lie with an owner that no other handle shares. Any other value is handed back.
    #[inline]
    pub fn into_os_string(self, alloc: Global) -> Result<Vec<u8>, Self>
        ensures items { IfOk result (λ vec. vec.items ≡ self.entry.items) }
        ensures kind { OnOk result (self.entry.kind ≡ Kind.Allocated) }
        ensures handed_back { IfErr result (λ back. back ≡ self.entry) }
    {
        match self.into_os_str().into_os_string(alloc) {
            Ok(vec) => Ok(vec),
            Err(name) => Err(HipPath { name }),
        }
    }

    /// [`HipPath::into_os_string`], as hipstr names it where a path is asked for.
    #[inline]
    pub fn into_path_buf(self, alloc: Global) -> Result<Vec<u8>, Self>
        ensures items { IfOk result (λ vec. vec.items ≡ self.entry.items) }
        ensures kind { OnOk result (self.entry.kind ≡ Kind.Allocated) }
        ensures handed_back { IfErr result (λ back. back ≡ self.entry) }
    {
        self.into_os_string(alloc)
    }

    /// The text of the bytes, in the same handle, where they are UTF-8. Any other value is handed back.
    #[inline]
    pub fn into_str(self) -> Result<HipStr<'b, B>, Self>
        ensures utf8 { IntoStrAnswers self.entry result }
    {
        match self.into_os_str().into_str() {
            Ok(text) => Ok(text),
            Err(name) => Err(HipPath { name }),
        }
    }
}

impl<'b, B: Backend> From<HipOsStr<'b, B>> for HipPath<'b, B> {
    ghost from_gives = { λ name path. path ≡ name };

    #[inline]
    fn from(name: HipOsStr<'b, B>) -> Self {
        HipPath { name }
    }
}

impl<'b, B: Backend> From<HipStr<'b, B>> for HipPath<'b, B> {
    ghost from_gives = { λ text path. path ≡ text };

    #[inline]
    fn from(text: HipStr<'b, B>) -> Self {
        HipPath {
            name: HipOsStr::from(text),
        }
    }
}

impl<'b, B: Backend> From<HipPath<'b, B>> for HipOsStr<'b, B> {
    ghost from_gives = { λ path name. name ≡ path };

    #[inline]
    fn from(path: HipPath<'b, B>) -> Self {
        path.into_os_str()
    }
}

impl<'b, B: Backend> From<HipByt<'b, B>> for HipPath<'b, B> {
    ghost from_gives = { λ bytes path. path ≡ bytes };

    #[inline]
    fn from(bytes: HipByt<'b, B>) -> Self {
        HipPath {
            name: HipOsStr::from(bytes),
        }
    }
}

impl<'b, B: Backend> From<HipPath<'b, B>> for HipByt<'b, B> {
    ghost from_gives = { λ path bytes. bytes ≡ path };

    #[inline]
    fn from(path: HipPath<'b, B>) -> Self {
        path.into_os_str().into_bytes()
    }
}
