//! Makers.
ghost use Rattle.std.specs.Prelude.{◌≡◌, ◌≤◌, ◌<◌, ◌↔◌, [], length, vec_len, IsSome, IfSome, IfNone, IfOk, IfErr, OnErr};
ghost use Rattle.hip_raw.specs.Meter.{RisesAtLeast, RisesAtMost, times_copied};
ghost use Rattle.hip_bytes.specs.Cost.{taken_cost};
ghost use Rattle.hip_bytes.specs.Kinds.{by_length, Holds, IsEmptyInline};
ghost use Rattle.hip_bytes.specs.Made.{MakeAnswers};

use super::{HipByt, Repr};
use crate::kind::{INLINE_CAPACITY, Kind};
use hip_raw::{Allocated, Backend, Borrowed, Inline, Meter};
use std::alloc::{AllocError, Global};

impl<'b, B: Backend> HipByt<'b, B> {
    /// No bytes.
    #[inline]
    pub fn new() -> Self
        ensures holds { IsEmptyInline result }
    {
        HipByt::of(Repr::Inline(Inline::empty()))
    }

    /// These bytes, in the handle itself. [`HipByt::try_inline`] tests their number.
    #[inline]
    pub fn inline(bytes: &[u8]) -> Self
        requires { length bytes.now ≤ INLINE_CAPACITY }
        ensures holds { Holds result Kind.Inline bytes.now }
    {
        Self::inline_metered(bytes, &mut Meter::new())
    }

    /// [`HipByt::inline`], counted.
    #[inline]
    pub fn inline_metered(bytes: &[u8], meter: &mut Meter) -> Self
        requires { length bytes.now ≤ INLINE_CAPACITY }
        ensures holds { Holds result Kind.Inline bytes.now }
        ensures counted { RisesAtMost meter.old meter.new (length bytes.now) }
        ensures copied { RisesAtLeast meter.old meter.new (length bytes.now) }
    {
        HipByt::of(Repr::Inline(Inline::new_unchecked_metered(bytes, meter)))
    }

    /// These bytes in the handle itself, or `None` where they are too many for it.
    #[inline]
    pub fn try_inline(bytes: &[u8]) -> Option<Self>
        ensures fits { IsSome result ↔ (length bytes.now ≤ INLINE_CAPACITY) }
        ensures holds { IfSome result (λ handle. Holds handle Kind.Inline bytes.now) }
    {
        Self::try_inline_metered(bytes, &mut Meter::new())
    }

    /// [`HipByt::try_inline`], counted.
    #[inline]
    pub fn try_inline_metered(bytes: &[u8], meter: &mut Meter) -> Option<Self>
        ensures fits { IsSome result ↔ (length bytes.now ≤ INLINE_CAPACITY) }
        ensures holds { IfSome result (λ handle. Holds handle Kind.Inline bytes.now) }
        ensures counted { RisesAtMost meter.old meter.new (length bytes.now) }
        ensures copied { IfSome result
            (λ handle. RisesAtLeast meter.old meter.new (length bytes.now)) }
        ensures none { IfNone result (meter.new ≡ meter.old) }
    {
        if bytes.len() <= INLINE_CAPACITY {
            Some(Self::inline_metered(bytes, meter))
        } else {
            None
        }
    }

    /// No bytes, with room for `capacity`.
    #[inline]
    pub fn with_capacity(alloc: Global, capacity: usize) -> Result<Self, AllocError>
        ensures holds { IfOk result (λ handle. Holds handle (by_length capacity) []) }
        ensures room { IfOk result (λ handle. capacity ≤ handle.capacity) }
        ensures memory { OnErr result (INLINE_CAPACITY < capacity) }
    {
        if capacity <= INLINE_CAPACITY {
            return Ok(Self::new());
        }
        let allocated = Allocated::with_capacity(alloc, capacity)?;
        Ok(HipByt::of(Repr::Allocated(allocated)))
    }

    /// These bytes, none copied.
    #[inline]
    pub fn borrowed(bytes: &'b [u8]) -> Self
        ensures holds { Holds result Kind.Borrowed bytes.entry.now }
    {
        HipByt::of(Repr::Borrowed(Borrowed::new(bytes)))
    }

    /// These bytes, which live as long as the program. None is copied.
    #[inline]
    pub fn from_static(bytes: &'static [u8]) -> Self
        ensures holds { Holds result Kind.Borrowed bytes.now }
    {
        Self::borrowed(bytes)
    }

    /// A copy of these bytes.
    #[inline]
    pub fn from_slice(alloc: Global, bytes: &[u8]) -> Result<Self, AllocError>
        ensures made { MakeAnswers bytes.now result }
    {
        Self::from_slice_metered(alloc, bytes, &mut Meter::new())
    }

    /// [`HipByt::from_slice`], counted.
    #[inline]
    pub fn from_slice_metered(
        alloc: Global,
        bytes: &[u8],
        meter: &mut Meter,
    ) -> Result<Self, AllocError>
        ensures made { MakeAnswers bytes.now result }
        ensures counted { RisesAtMost meter.old meter.new
            (times_copied B.SHARES (length bytes.now)) }
        ensures copied { IfOk result
            (λ handle. RisesAtLeast meter.old meter.new (length bytes.now)) }
    {
        if bytes.len() <= INLINE_CAPACITY {
            return Ok(Self::inline_metered(bytes, meter));
        }
        Ok(HipByt::of(Repr::Allocated(Allocated::from_slice_metered(alloc, bytes, meter)?)))
    }

    /// The bytes of a vector, which is taken over where they are too many for the handle itself. A refused vector is handed back.
    #[inline]
    pub fn from_vec(alloc: Global, vec: Vec<u8>) -> Result<Self, Vec<u8>>
        ensures made { MakeAnswers vec.items result }
        ensures handed_back { IfErr result (λ back. back ≡ vec) }
    {
        Self::from_vec_metered(alloc, vec, &mut Meter::new())
    }

    /// [`HipByt::from_vec`], counted.
    #[inline]
    pub fn from_vec_metered(alloc: Global, vec: Vec<u8>, meter: &mut Meter) -> Result<Self, Vec<u8>>
        ensures made { MakeAnswers vec.items result }
        ensures counted { RisesAtMost meter.old meter.new (taken_cost B.SHARES (vec_len vec)) }
        ensures handed_back { IfErr result (λ back. back ≡ vec) }
    {
        if vec.len() <= INLINE_CAPACITY {
            return Ok(Self::inline_metered(vec.as_slice(), meter));
        }
        Ok(HipByt::of(Repr::Allocated(Allocated::new_metered(alloc, vec, meter)?)))
    }
}

impl<'b, B: Backend> Default for HipByt<'b, B> {
    ghost is_default = { IsEmptyInline };

    #[inline]
    fn default() -> Self {
        Self::new()
    }
}
