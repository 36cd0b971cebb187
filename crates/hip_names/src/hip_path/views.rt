//! Views.
ghost use Rattle.std.specs.Prelude.{◌≡◌, ◌↔◌, length, IsTrue, IsSome, IsOk, IfSome, IfOk, IfErr};
ghost use Rattle.hip_bytes.specs.Kinds.{HasCapacity};
ghost use Rattle.hip_names.specs.Components.{components};
ghost use Rattle.hip_names.specs.Shown.{to_come};

use super::HipPath;
use crate::component::Components;
use hip_bytes::{Backend, INLINE_CAPACITY, Kind};

impl<'b, B: Backend> HipPath<'b, B> {
    /// The bytes.
    #[inline]
    pub fn as_path(&self) -> &[u8]
        ensures items { result.now ≡ self.now.items }
    {
        self.name.as_os_str()
    }

    /// The bytes.
    #[inline]
    pub fn as_os_str(&self) -> &[u8]
        ensures items { result.now ≡ self.now.items }
    {
        self.name.as_os_str()
    }

    /// The components of the path, from both ends.
    #[inline]
    pub fn components(&self) -> Components<'_>
        ensures { to_come result ≡ components self.now.items }
    {
        Components::new(self.as_path())
    }

    /// Whether the bytes lie in the handle itself.
    #[inline]
    pub fn is_inline(&self) -> bool
        ensures { IsTrue result ↔ (self.now.kind ≡ Kind.Inline) }
    {
        self.name.is_inline()
    }

    /// Whether the bytes lie with another value, which lends them.
    #[inline]
    pub fn is_borrowed(&self) -> bool
        ensures { IsTrue result ↔ (self.now.kind ≡ Kind.Borrowed) }
    {
        self.name.is_borrowed()
    }

    /// Whether the bytes lie with an owner.
    #[inline]
    pub fn is_allocated(&self) -> bool
        ensures { IsTrue result ↔ (self.now.kind ≡ Kind.Allocated) }
    {
        self.name.is_allocated()
    }

    /// The greatest number of bytes that a path holds in itself.
    #[inline]
    pub fn inline_capacity() -> usize
        ensures { result ≡ INLINE_CAPACITY }
    {
        INLINE_CAPACITY
    }

    /// The number of bytes that the path can hold where they lie.
    #[inline]
    pub fn capacity(&self) -> usize
        ensures capacity { result ≡ self.now.capacity }
        ensures kind { HasCapacity self.now.kind (length self.now.items) self.now.capacity }
    {
        self.name.capacity()
    }

    /// The bytes for as long as they are lent, where they are borrowed.
    #[inline]
    pub fn as_borrowed(&self) -> Option<&'b [u8]>
        ensures borrowed { IsSome result ↔ (self.now.kind ≡ Kind.Borrowed) }
        ensures items { IfSome result (λ bytes. bytes.now ≡ self.now.items) }
    {
        self.name.as_borrowed()
    }

    /// The bytes for as long as they are lent, where they are borrowed. Any other value is handed back.
    #[inline]
    pub fn into_borrowed(self) -> Result<&'b [u8], Self>
        ensures borrowed { IsOk result ↔ (self.entry.kind ≡ Kind.Borrowed) }
        ensures items { IfOk result (λ bytes. bytes.now ≡ self.entry.items) }
        ensures handed_back { IfErr result (λ back. back ≡ self.entry) }
    {
        match self.into_os_str().into_borrowed() {
            Ok(bytes) => Ok(bytes),
            Err(name) => Err(HipPath { name }),
        }
    }
}
