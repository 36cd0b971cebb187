//! Makers, clones, and what changes in place.
ghost use Rattle.std.specs.Prelude.{◌≡◌, length, max, IfErr};
ghost use Rattle.std.specs.String.{string_bytes, string_vec};
ghost use Rattle.hip_bytes.specs.Change.{ShrinkAnswers};
ghost use Rattle.hip_bytes.specs.Kinds.{Holds, IsEmptyInline};
ghost use Rattle.hip_bytes.specs.Made.{CloneAnswers, MakeAnswers, OwnedAnswers};

use super::HipPath;
use crate::hip_os_str::HipOsStr;
use hip_bytes::{Backend, Kind};
use std::alloc::{AllocError, Global};

impl<'b, B: Backend> HipPath<'b, B> {
    /// The empty path.
    #[inline]
    pub fn new() -> Self
        ensures holds { IsEmptyInline result }
    {
        HipPath {
            name: HipOsStr::new(),
        }
    }

    /// This text, no byte of it copied.
    #[inline]
    pub fn borrowed(text: &'b str) -> Self
        ensures holds { Holds result Kind.Borrowed text.entry.now }
    {
        HipPath {
            name: HipOsStr::borrowed(text),
        }
    }

    /// This text, which lives as long as the program. No byte is copied.
    #[inline]
    pub fn from_static(text: &'static str) -> Self
        ensures holds { Holds result Kind.Borrowed text.now }
    {
        Self::borrowed(text)
    }

    /// A copy of this text.
    #[inline]
    pub fn from_str(alloc: Global, text: &str) -> Result<Self, AllocError>
        ensures made { MakeAnswers text.now result }
    {
        Ok(HipPath {
            name: HipOsStr::from_str(alloc, text)?,
        })
    }

    /// The text of a `String`, which is taken over where it is too long for the handle itself. A refused one is handed back.
    #[inline]
    pub fn from_string(alloc: Global, string: String) -> Result<Self, String>
        ensures made { MakeAnswers (string_bytes string) result }
        ensures handed_back { IfErr result (λ back. string_vec back ≡ string_vec string) }
    {
        Ok(HipPath {
            name: HipOsStr::from_string(alloc, string)?,
        })
    }

    /// A handle of the same bytes and kind. On a backend that shares owners no byte of an owner is copied.
    #[inline]
    pub fn clone(&self, alloc: Global) -> Result<Self, AllocError>
        ensures clone { CloneAnswers self.now result }
    {
        Ok(HipPath {
            name: self.name.clone(alloc)?,
        })
    }

    /// An equal path that no other value lends. Only lent bytes are copied. A refused value is handed back.
    #[inline]
    pub fn into_owned(self, alloc: Global) -> Result<HipPath<'static, B>, Self>
        ensures owned { OwnedAnswers self.entry result }
    {
        match self.into_os_str().into_owned(alloc) {
            Ok(name) => Ok(HipPath { name }),
            Err(name) => Err(HipPath { name }),
        }
    }

    /// Gives room back: to the handle itself where `least` and the bytes fit it, else to no less than both. Bytes that lie in the handle
    /// itself or with another value stay as they are.
    #[inline]
    pub fn shrink_to(&mut self, alloc: Global, least: usize) -> Result<(), AllocError>
        ensures shrink { ShrinkAnswers self.old
            (max least (length self.old.items)) result self.new }
    {
        self.name.shrink_to(alloc, least)
    }

    /// [`HipPath::shrink_to`] as far as it goes.
    #[inline]
    pub fn shrink_to_fit(&mut self, alloc: Global) -> Result<(), AllocError>
        ensures shrink { ShrinkAnswers self.old (length self.old.items) result self.new }
    {
        self.name.shrink_to_fit(alloc)
    }
}

impl<'b, B: Backend> Default for HipPath<'b, B> {
    ghost is_default = { IsEmptyInline };

    #[inline]
    fn default() -> Self {
        Self::new()
    }
}
