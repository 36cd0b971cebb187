//! Conversions.
ghost use Rattle.std.specs.Prelude.{◌≡◌, IfErr, IfOk, IsUtf8, OnOk};
ghost use Rattle.std.specs.Str.{encode_utf8_all};
ghost use Rattle.bstr.specs.Utf8.{lossy_chars};
ghost use Rattle.hip_bytes.specs.Kinds.{HoldsByLength};
ghost use Rattle.hip_bytes.specs.Made.{CloneAnswers};
ghost use Rattle.hip_names.specs.Decode.{IntoStrAnswers, ToStrAnswers};

use super::HipOsStr;
use hip_bytes::{Backend, HipByt, Kind};
use hip_text::HipStr;
use simdutf8::is_utf8;
use std::alloc::{AllocError, Global};

impl<'b, B: Backend> HipOsStr<'b, B> {
    /// The bytes, in the same handle.
    #[inline]
    pub fn into_bytes(self) -> HipByt<'b, B>
        ensures { result ≡ self.entry }
    {
        let HipOsStr { bytes } = self;
        bytes
    }

    /// The bytes in a vector, where that takes no copy: they lie with an owner that no other handle shares. Any other value is handed back.
    #[inline]
    pub fn into_os_string(self, alloc: Global) -> Result<Vec<u8>, Self>
        ensures items { IfOk result (λ vec. vec.items ≡ self.entry.items) }
        ensures kind { OnOk result (self.entry.kind ≡ Kind.Allocated) }
        ensures handed_back { IfErr result (λ back. back ≡ self.entry) }
    {
        match self.into_bytes().into_vec(alloc) {
            Ok(vec) => Ok(vec),
            Err(bytes) => Err(HipOsStr { bytes }),
        }
    }

    /// The text of the bytes, in the same handle, where they are UTF-8. Any other value is handed back.
    #[inline]
    pub fn into_str(self) -> Result<HipStr<'b, B>, Self>
        ensures utf8 { IntoStrAnswers self.entry result }
    {
        match HipStr::from_utf8(self.into_bytes()) {
            Ok(text) => Ok(text),
            Err(error) => Err(HipOsStr {
                bytes: error.into_bytes(),
            }),
        }
    }

    /// A clone as a text, where the bytes are UTF-8, which is tested first.
    #[inline]
    pub fn to_str(&self, alloc: Global) -> Result<Option<HipStr<'b, B>>, AllocError>
        ensures utf8 { ToStrAnswers self.now result }
    {
        if !is_utf8(self.bytes.as_slice()) {
            return Ok(None);
        }
        let bytes = self.bytes.clone(alloc)?;
        Ok(Some(HipStr::from_utf8_unchecked(bytes)))
    }

    /// A clone as a text, where the bytes are UTF-8; else a new text, in which each longest front of a character that isn't one, or byte
    /// that begins none, is U+FFFD.
    pub fn to_str_lossy(&self, alloc: Global) -> Result<HipStr<'b, B>, AllocError>
        ensures valid { IsUtf8 self.now.items → CloneAnswers self.now result }
        ensures repaired { ¬ (IsUtf8 self.now.items)
            → IfOk result (λ text. HoldsByLength text
            (encode_utf8_all (lossy_chars self.now.items))) }
    {
        if let Some(text) = self.to_str(alloc)? {
            return Ok(text);
        }
        let Ok(repaired) = HipStr::<B>::from_utf8_lossy(alloc, HipByt::borrowed(self.as_os_str()))
        else {
            return Err(AllocError);
        };
        match repaired.into_owned(alloc) {
            Ok(text) => Ok(text),
            Err(_) => Err(AllocError),
        }
    }
}

impl<'b, B: Backend> From<HipByt<'b, B>> for HipOsStr<'b, B> {
    ghost from_gives = { λ bytes name. name ≡ bytes };

    #[inline]
    fn from(bytes: HipByt<'b, B>) -> Self {
        HipOsStr { bytes }
    }
}

impl<'b, B: Backend> From<HipStr<'b, B>> for HipOsStr<'b, B> {
    ghost from_gives = { λ text name. name ≡ text };

    #[inline]
    fn from(text: HipStr<'b, B>) -> Self {
        HipOsStr {
            bytes: text.into_bytes(),
        }
    }
}

impl<'b, B: Backend> From<HipOsStr<'b, B>> for HipByt<'b, B> {
    ghost from_gives = { λ name bytes. bytes ≡ name };

    #[inline]
    fn from(name: HipOsStr<'b, B>) -> Self {
        name.into_bytes()
    }
}
