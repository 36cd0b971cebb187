//! Views.
ghost use Rattle.std.specs.Prelude.{◌≡◌, ◌<◌, ◌^◌, ◌==◌, ◌↔◌, length, IsTrue, IsSome, IsOk, IfSome, IfOk, IfErr};
ghost use Rattle.hip_bytes.specs.Kinds.{HasCapacity};

use super::HipOsStr;
use hip_bytes::{Backend, INLINE_CAPACITY, Kind};

impl<'b, B: Backend> HipOsStr<'b, B> {
    /// The number of bytes.
    #[inline]
    pub fn len(&self) -> usize
        ensures len { result ≡ length self.now.items }
        ensures bound { length self.now.items < 2 ^ 64 }
    {
        self.bytes.len()
    }

    /// Whether there is no byte.
    #[inline]
    pub fn is_empty(&self) -> bool
        ensures { result ≡ (length self.now.items == 0) }
    {
        self.bytes.is_empty()
    }

    /// The bytes.
    #[inline]
    pub fn as_os_str(&self) -> &[u8]
        ensures items { result.now ≡ self.now.items }
    {
        self.bytes.as_slice()
    }

    /// Whether the bytes lie in the handle itself.
    #[inline]
    pub fn is_inline(&self) -> bool
        ensures { IsTrue result ↔ (self.now.kind ≡ Kind.Inline) }
    {
        self.bytes.is_inline()
    }

    /// Whether the bytes lie with another value, which lends them.
    #[inline]
    pub fn is_borrowed(&self) -> bool
        ensures { IsTrue result ↔ (self.now.kind ≡ Kind.Borrowed) }
    {
        self.bytes.is_borrowed()
    }

    /// Whether the bytes lie with an owner.
    #[inline]
    pub fn is_allocated(&self) -> bool
        ensures { IsTrue result ↔ (self.now.kind ≡ Kind.Allocated) }
    {
        self.bytes.is_allocated()
    }

    /// The greatest number of bytes that an OS string holds in itself.
    #[inline]
    pub fn inline_capacity() -> usize
        ensures { result ≡ INLINE_CAPACITY }
    {
        INLINE_CAPACITY
    }

    /// The number of bytes that the OS string can hold where they lie.
    #[inline]
    pub fn capacity(&self) -> usize
        ensures capacity { result ≡ self.now.capacity }
        ensures kind { HasCapacity self.now.kind (length self.now.items) self.now.capacity }
    {
        self.bytes.capacity()
    }

    /// The bytes for as long as they are lent, where they are borrowed.
    #[inline]
    pub fn as_borrowed(&self) -> Option<&'b [u8]>
        ensures borrowed { IsSome result ↔ (self.now.kind ≡ Kind.Borrowed) }
        ensures items { IfSome result (λ bytes. bytes.now ≡ self.now.items) }
    {
        self.bytes.as_borrowed()
    }

    /// The bytes for as long as they are lent, where they are borrowed. Any other value is handed back.
    #[inline]
    pub fn into_borrowed(self) -> Result<&'b [u8], Self>
        ensures borrowed { IsOk result ↔ (self.entry.kind ≡ Kind.Borrowed) }
        ensures items { IfOk result (λ bytes. bytes.now ≡ self.entry.items) }
        ensures handed_back { IfErr result (λ back. back ≡ self.entry) }
    {
        match self.into_bytes().into_borrowed() {
            Ok(bytes) => Ok(bytes),
            Err(bytes) => Err(HipOsStr { bytes }),
        }
    }
}
