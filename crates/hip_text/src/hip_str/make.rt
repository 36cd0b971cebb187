//! Makers.
ghost use Rattle.std.specs.Prelude.{◌≡◌, ◌≤◌, [], IsUtf8, length, IfOk, IfErr, OnErr, ◌<◌};
ghost use Rattle.hip_bytes.specs.Meter.{RisesAtLeast, RisesAtMost, times_copied};
ghost use Rattle.hip_bytes.specs.Kinds.{by_length, Holds, IsEmptyInline};
ghost use Rattle.hip_bytes.specs.Made.{MakeAnswers};
ghost use Rattle.hip_bytes.specs.declared.kind.TheConstants.{INLINE_CAPACITY};

use super::HipStr;
use hip_bytes::{Backend, HipByt, Kind, Meter};
use std::alloc::{AllocError, Global};

impl<'b, B: Backend> HipStr<'b, B> {
    /// The empty text.
    #[inline]
    pub fn new() -> Self
        ensures holds { IsEmptyInline result }
    {
        HipStr::from_utf8_unchecked(HipByt::new())
    }

    /// The empty text, with room for `capacity` bytes.
    #[inline]
    pub fn with_capacity(alloc: Global, capacity: usize) -> Result<Self, AllocError>
        ensures holds { IfOk result (λ text. Holds text (by_length capacity) []) }
        ensures room { IfOk result (λ text. capacity ≤ text.capacity) }
        ensures memory { OnErr result (INLINE_CAPACITY < capacity) }
    {
        Ok(HipStr::from_utf8_unchecked(HipByt::with_capacity(alloc, capacity)?))
    }

    /// This text, no byte of it copied.
    #[inline]
    pub fn borrowed(text: &'b str) -> Self
        ensures holds { Holds result Kind.Borrowed text.entry.now }
    {
        HipStr::from_utf8_unchecked(HipByt::borrowed(text.as_bytes()))
    }

    /// This text, which lives as long as the program. No byte is copied.
    #[inline]
    pub fn from_static(text: &'static str) -> Self
        ensures holds { Holds result Kind.Borrowed text.now }
    {
        Self::borrowed(text)
    }

    /// A copy of this text.
    #[inline]
    pub fn from_str(alloc: Global, text: &str) -> Result<Self, AllocError>
        ensures made { MakeAnswers text.now result }
    {
        Self::from_str_metered(alloc, text, &mut Meter::new())
    }

    /// [`HipStr::from_str`], counted.
    #[inline]
    pub fn from_str_metered(
        alloc: Global,
        text: &str,
        meter: &mut Meter,
    ) -> Result<Self, AllocError>
        ensures made { MakeAnswers text.now result }
        ensures counted { RisesAtMost meter.old meter.new
            (times_copied B.SHARES (length text.now)) }
        ensures copied { IfOk result (λ made. RisesAtLeast meter.old meter.new (length text.now)) }
    {
        let bytes = HipByt::from_slice_metered(alloc, text.as_bytes(), meter)?;
        Ok(HipStr::from_utf8_unchecked(bytes))
    }
}

impl<'b, B: Backend> Default for HipStr<'b, B> {
    ghost is_default = { IsEmptyInline };

    #[inline]
    fn default() -> Self {
        Self::new()
    }
}
