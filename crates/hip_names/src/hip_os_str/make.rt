//! Makers, clones, and what changes in place.
ghost use Rattle.std.specs.Prelude.{◌≡◌, ◌≤◌, ◌<◌, [], length, max, IfOk, IfErr, OnErr};
ghost use Rattle.std.specs.String.{string_bytes, string_vec};
ghost use Rattle.hip_bytes.specs.Change.{PushAnswers, ShrinkAnswers};
ghost use Rattle.hip_bytes.specs.Kinds.{by_length, Holds, IsEmptyInline};
ghost use Rattle.hip_bytes.specs.Made.{CloneAnswers, MakeAnswers, OwnedAnswers};
ghost use Rattle.hip_bytes.specs.declared.kind.TheConstants.{INLINE_CAPACITY};

use super::HipOsStr;
use hip_bytes::{Backend, HipByt, Kind};
use hip_text::HipStr;
use std::alloc::{AllocError, Global};

impl<'b, B: Backend> HipOsStr<'b, B> {
    /// The empty OS string.
    #[inline]
    pub fn new() -> Self
        ensures holds { IsEmptyInline result }
    {
        HipOsStr {
            bytes: HipByt::new(),
        }
    }

    /// The empty OS string, with room for `capacity` bytes.
    #[inline]
    pub fn with_capacity(alloc: Global, capacity: usize) -> Result<Self, AllocError>
        ensures holds { IfOk result (λ name. Holds name (by_length capacity) []) }
        ensures room { IfOk result (λ name. capacity ≤ name.capacity) }
        ensures memory { OnErr result (INLINE_CAPACITY < capacity) }
    {
        Ok(HipOsStr {
            bytes: HipByt::with_capacity(alloc, capacity)?,
        })
    }

    /// This text, no byte of it copied.
    #[inline]
    pub fn borrowed(text: &'b str) -> Self
        ensures holds { Holds result Kind.Borrowed text.entry.now }
    {
        HipOsStr {
            bytes: HipByt::borrowed(text.as_bytes()),
        }
    }

    /// This text, which lives as long as the program. No byte is copied.
    #[inline]
    pub fn from_static(text: &'static str) -> Self
        ensures holds { Holds result Kind.Borrowed text.now }
    {
        Self::borrowed(text)
    }

    /// A copy of this text.
    #[inline]
    pub fn from_str(alloc: Global, text: &str) -> Result<Self, AllocError>
        ensures made { MakeAnswers text.now result }
    {
        Ok(HipOsStr {
            bytes: HipByt::from_slice(alloc, text.as_bytes())?,
        })
    }

    /// The text of a `String`, which is taken over where it is too long for the handle itself. A refused one is handed back.
    #[inline]
    pub fn from_string(alloc: Global, string: String) -> Result<Self, String>
        ensures made { MakeAnswers (string_bytes string) result }
        ensures handed_back { IfErr result (λ back. string_vec back ≡ string_vec string) }
    {
        Ok(HipOsStr::from(HipStr::from_string(alloc, string)?))
    }

    /// A handle of the same bytes and kind. On a backend that shares owners no byte of an owner is copied.
    #[inline]
    pub fn clone(&self, alloc: Global) -> Result<Self, AllocError>
        ensures clone { CloneAnswers self.now result }
    {
        Ok(HipOsStr {
            bytes: self.bytes.clone(alloc)?,
        })
    }

    /// An equal OS string that no other value lends. Only lent bytes are copied. A refused value is handed back.
    #[inline]
    pub fn into_owned(self, alloc: Global) -> Result<HipOsStr<'static, B>, Self>
        ensures owned { OwnedAnswers self.entry result }
    {
        match self.into_bytes().into_owned(alloc) {
            Ok(bytes) => Ok(HipOsStr { bytes }),
            Err(bytes) => Err(HipOsStr { bytes }),
        }
    }

    /// Adds a text at the end: in place where it fits the handle itself or its owner is not shared, else in a copy. Where it is empty,
    /// nothing changes.
    #[inline]
    pub fn push(&mut self, alloc: Global, addition: &str) -> Result<(), AllocError>
        ensures push { PushAnswers B.SHARES self.old addition.now result self.new }
    {
        self.bytes.push_slice(alloc, addition.as_bytes())
    }

    /// Gives room back: to the handle itself where `least` and the bytes fit it, else to no less than both. Bytes that lie in the handle
    /// itself or with another value stay as they are.
    #[inline]
    pub fn shrink_to(&mut self, alloc: Global, least: usize) -> Result<(), AllocError>
        ensures shrink { ShrinkAnswers self.old
            (max least (length self.old.items)) result self.new }
    {
        self.bytes.shrink_to(alloc, least)
    }

    /// [`HipOsStr::shrink_to`] as far as it goes.
    #[inline]
    pub fn shrink_to_fit(&mut self, alloc: Global) -> Result<(), AllocError>
        ensures shrink { ShrinkAnswers self.old (length self.old.items) result self.new }
    {
        self.bytes.shrink_to_fit(alloc)
    }
}

impl<'b, B: Backend> Default for HipOsStr<'b, B> {
    ghost is_default = { IsEmptyInline };

    #[inline]
    fn default() -> Self {
        Self::new()
    }
}
