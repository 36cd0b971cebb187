//! Views.
ghost use Rattle.std.specs.Prelude.{◌≡◌, ◌<◌, ◌^◌, ◌==◌, ◌↔◌, length, IsUtf8, IsTrue, IsSome, IsOk, IfSome, IfOk, IfErr};
ghost use Rattle.hip_bytes.specs.Kinds.{HasCapacity};

use super::HipStr;
use hip_bytes::{Backend, INLINE_CAPACITY, Kind};
use std::convert::{AsSlice, AsStr};
use std::str::from_utf8_unchecked;

impl<'b, B: Backend> HipStr<'b, B> {
    /// The number of bytes of the text.
    #[inline]
    pub fn len(&self) -> usize
        ensures len { result ≡ length self.now.items }
        ensures bound { length self.now.items < 2 ^ 64 }
    {
        self.bytes.len()
    }

    /// Whether the text has no byte.
    #[inline]
    pub fn is_empty(&self) -> bool
        ensures { result ≡ (length self.now.items == 0) }
    {
        self.bytes.is_empty()
    }

    /// The text.
    #[tactic(auto, using(crate::proofs::Texts::texts))]
    #[inline]
    pub fn as_str(&self) -> &str
        ensures items { result.now ≡ self.now.items }
        ensures utf8 { IsUtf8 result.now }
    {
        unsafe { from_utf8_unchecked(self.bytes.as_slice()) }
    }

    /// The bytes.
    #[tactic(auto, using(crate::proofs::Texts::texts))]
    #[inline]
    pub fn as_bytes(&self) -> &[u8]
        ensures items { result.now ≡ self.now.items }
        ensures utf8 { IsUtf8 result.now }
    {
        self.bytes.as_slice()
    }

    /// Where the bytes lie.
    #[inline]
    pub fn kind(&self) -> Kind
        ensures { result ≡ self.now.kind }
    {
        self.bytes.kind()
    }

    /// Whether the bytes lie in the handle itself.
    #[inline]
    pub fn is_inline(&self) -> bool
        ensures { IsTrue result ↔ (self.now.kind ≡ Kind.Inline) }
    {
        self.bytes.is_inline()
    }

    /// Whether the bytes lie with another value, which lends them.
    #[inline]
    pub fn is_borrowed(&self) -> bool
        ensures { IsTrue result ↔ (self.now.kind ≡ Kind.Borrowed) }
    {
        self.bytes.is_borrowed()
    }

    /// Whether the bytes lie with an owner.
    #[inline]
    pub fn is_allocated(&self) -> bool
        ensures { IsTrue result ↔ (self.now.kind ≡ Kind.Allocated) }
    {
        self.bytes.is_allocated()
    }

    /// The greatest number of bytes that a text holds in itself.
    #[inline]
    pub fn inline_capacity() -> usize
        ensures { result ≡ INLINE_CAPACITY }
    {
        INLINE_CAPACITY
    }

    /// The number of bytes that the text can hold where they lie.
    #[inline]
    pub fn capacity(&self) -> usize
        ensures capacity { result ≡ self.now.capacity }
        ensures kind { HasCapacity self.now.kind (length self.now.items) self.now.capacity }
    {
        self.bytes.capacity()
    }

    /// The text for as long as it is lent, where it is borrowed.
    #[tactic(auto, using(crate::proofs::Texts::texts))]
    #[inline]
    pub fn as_borrowed(&self) -> Option<&'b str>
        ensures borrowed { IsSome result ↔ (self.now.kind ≡ Kind.Borrowed) }
        ensures items { IfSome result (λ text. text.now ≡ self.now.items) }
    {
        match self.bytes.as_borrowed() {
            Some(bytes) => Some(unsafe { from_utf8_unchecked(bytes) }),
            None => None,
        }
    }

    /// The text for as long as it is lent, where it is borrowed. Any other value is handed back.
    #[inline]
    pub fn into_borrowed(self) -> Result<&'b str, Self>
        ensures borrowed { IsOk result ↔ (self.entry.kind ≡ Kind.Borrowed) }
        ensures items { IfOk result (λ text. text.now ≡ self.entry.items) }
        ensures handed_back { IfErr result (λ back. back ≡ self.entry) }
    {
        match self.as_borrowed() {
            Some(text) => Ok(text),
            None => Err(self),
        }
    }
}

impl<'b, B: Backend> AsStr for HipStr<'b, B> {
    ghost text = { λ text. text.items };

    #[inline]
    fn as_str(&self) -> &str {
        HipStr::as_str(self)
    }
}

impl<'b, B: Backend> AsSlice<u8> for HipStr<'b, B> {
    ghost items = { λ text. text.items };

    #[inline]
    fn as_slice(&self) -> &[u8] {
        self.as_bytes()
    }
}
