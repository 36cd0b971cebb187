//! Views.
ghost use Rattle.std.specs.Prelude.{◌≡◌, ◌<◌, ◌≤◌, ◌^◌, ◌==◌, ◌↔◌, length, IsTrue, IsSome, IsOk, IfSome, IfOk, IfErr};
ghost use Rattle.hip_bytes.specs.Kinds.{HasCapacity};

use super::{HipByt, Repr};
use crate::kind::{INLINE_CAPACITY, Kind};
use hip_raw::Backend;
use std::convert::AsSlice;

impl<'b, B: Backend> HipByt<'b, B> {
    /// The number of bytes.
    #[inline]
    pub fn len(&self) -> usize
        ensures len { result ≡ length self.now.items }
        ensures bound { length self.now.items < 2 ^ 64 }
        ensures fits_inline { self.now.kind ≡ Kind.Inline
            → length self.now.items ≤ INLINE_CAPACITY }
    {
        match &self.bare.repr {
            Repr::Inline(inline) => inline.len(),
            Repr::Borrowed(borrowed) => borrowed.len(),
            Repr::Allocated(allocated) => allocated.len(),
        }
    }

    /// Whether there is no byte.
    #[inline]
    pub fn is_empty(&self) -> bool
        ensures { result ≡ (length self.now.items == 0) }
    {
        self.len() == 0
    }

    /// The bytes.
    #[inline]
    pub fn as_slice(&self) -> &[u8]
        ensures items { result.now ≡ self.now.items }
    {
        match &self.bare.repr {
            Repr::Inline(inline) => inline.as_slice(),
            Repr::Borrowed(borrowed) => borrowed.as_slice(),
            Repr::Allocated(allocated) => allocated.as_slice(),
        }
    }

    /// Where the bytes lie.
    #[inline]
    pub fn kind(&self) -> Kind
        ensures { result ≡ self.now.kind }
    {
        match &self.bare.repr {
            Repr::Inline(_) => Kind::Inline,
            Repr::Borrowed(_) => Kind::Borrowed,
            Repr::Allocated(_) => Kind::Allocated,
        }
    }

    /// Whether the bytes lie in the handle itself.
    #[inline]
    pub fn is_inline(&self) -> bool
        ensures { IsTrue result ↔ (self.now.kind ≡ Kind.Inline) }
    {
        matches!(&self.bare.repr, Repr::Inline(_))
    }

    /// Whether the bytes lie with another value, which lends them.
    #[inline]
    pub fn is_borrowed(&self) -> bool
        ensures { IsTrue result ↔ (self.now.kind ≡ Kind.Borrowed) }
    {
        matches!(&self.bare.repr, Repr::Borrowed(_))
    }

    /// Whether the bytes lie with an owner.
    #[inline]
    pub fn is_allocated(&self) -> bool
        ensures { IsTrue result ↔ (self.now.kind ≡ Kind.Allocated) }
    {
        matches!(&self.bare.repr, Repr::Allocated(_))
    }

    /// Whether bytes that lie with an owner are too many for the handle itself. It holds of each other handle.
    #[inline]
    pub fn is_normalized(&self) -> bool
        ensures { IsTrue result
            ↔ (self.now.kind ≡ Kind.Allocated → INLINE_CAPACITY < length self.now.items) }
    {
        !self.is_allocated() || self.len() > INLINE_CAPACITY
    }

    /// The greatest number of bytes that a handle holds in itself.
    #[inline]
    pub fn inline_capacity() -> usize
        ensures { result ≡ INLINE_CAPACITY }
    {
        INLINE_CAPACITY
    }

    /// The number of bytes that the handle can hold where they lie.
    #[inline]
    pub fn capacity(&self) -> usize
        ensures capacity { result ≡ self.now.capacity }
        ensures kind { HasCapacity self.now.kind (length self.now.items) self.now.capacity }
    {
        match &self.bare.repr {
            Repr::Inline(inline) => inline.capacity(),
            Repr::Borrowed(borrowed) => borrowed.len(),
            Repr::Allocated(allocated) => allocated.capacity(),
        }
    }

    /// The bytes for as long as they are lent, where they are borrowed.
    #[inline]
    pub fn as_borrowed(&self) -> Option<&'b [u8]>
        ensures borrowed { IsSome result ↔ (self.now.kind ≡ Kind.Borrowed) }
        ensures items { IfSome result (λ bytes. bytes.now ≡ self.now.items) }
    {
        match &self.bare.repr {
            Repr::Borrowed(borrowed) => Some(borrowed.as_slice()),
            _ => None,
        }
    }

    /// The bytes for as long as they are lent, where they are borrowed. Any other value is handed back.
    #[inline]
    pub fn into_borrowed(self) -> Result<&'b [u8], Self>
        ensures borrowed { IsOk result ↔ (self.entry.kind ≡ Kind.Borrowed) }
        ensures items { IfOk result (λ bytes. bytes.now ≡ self.entry.items) }
        ensures handed_back { IfErr result (λ back. back ≡ self.entry) }
    {
        match self.as_borrowed() {
            Some(bytes) => Ok(bytes),
            None => Err(self),
        }
    }
}

impl<'b, B: Backend> AsSlice<u8> for HipByt<'b, B> {
    ghost items = { λ handle. handle.items };

    #[inline]
    fn as_slice(&self) -> &[u8] {
        HipByt::as_slice(self)
    }
}
