//! Conversions.
ghost use Rattle.std.specs.Prelude.{◌≡◌, ◌<◌, length, IsOkAnd, IfOk, IfErr, OnOk, OnErr};
ghost use Rattle.std.specs.Cow.{cow_slice_items, IsBorrowedSlice, IsOwnedSlice};
ghost use Rattle.hip_raw.specs.Meter.{RisesAtLeast, RisesAtMost};
ghost use Rattle.hip_bytes.specs.Cost.{lent_count, owned_cost};
ghost use Rattle.hip_bytes.specs.Kinds.{by_length, HasCapacity};
ghost use Rattle.hip_bytes.specs.Made.{OwnedAnswers};

use super::{HipByt, Repr};
use crate::kind::{INLINE_CAPACITY, Kind};
use hip_raw::{Backend, Meter, copy_counted};
use std::alloc::{AllocError, Global};
use std::borrow::CowSlice;

impl<'b, B: Backend> HipByt<'b, B> {
    /// Equal bytes that no other value lends. Only lent bytes are copied. A refused value is handed back.
    #[inline]
    pub fn into_owned(self, alloc: Global) -> Result<HipByt<'static, B>, Self>
        ensures owned { OwnedAnswers self.entry result }
    {
        self.into_owned_metered(alloc, &mut Meter::new())
    }

    /// [`HipByt::into_owned`], counted.
    #[inline]
    pub fn into_owned_metered(
        self,
        alloc: Global,
        meter: &mut Meter,
    ) -> Result<HipByt<'static, B>, Self>
        ensures owned { OwnedAnswers self.entry result }
        ensures counted { RisesAtMost meter.old meter.new
            (owned_cost B.SHARES self.entry.kind (length self.entry.items)) }
        ensures copied { OnOk result (RisesAtLeast meter.old meter.new
            (lent_count self.entry.kind (length self.entry.items))) }
    {
        let _capacity = self.capacity();
        match self.into_repr() {
            Repr::Inline(inline) => Ok(HipByt::of(Repr::Inline(inline))),
            Repr::Allocated(allocated) => Ok(HipByt::of(Repr::Allocated(allocated))),
            Repr::Borrowed(borrowed) => {
                match HipByt::from_slice_metered(alloc, borrowed.as_slice(), meter) {
                    Ok(handle) => Ok(handle),
                    Err(AllocError) => Err(HipByt::of(Repr::Borrowed(borrowed))),
                }
            }
        }
    }

    /// The bytes in a vector, where that takes no copy: they lie with an owner that no other handle shares. Any other value is handed
    /// back.
    #[inline]
    pub fn into_vec(self, alloc: Global) -> Result<Vec<u8>, Self>
        ensures items { IfOk result (λ vec. vec.items ≡ self.entry.items) }
        ensures kind { OnOk result (self.entry.kind ≡ Kind.Allocated) }
        ensures handed_back { IfErr result (λ back. back ≡ self.entry) }
    {
        match self.into_repr() {
            Repr::Allocated(allocated) => match allocated.try_into_vec(alloc) {
                Ok(vec) => Ok(vec),
                Err(allocated) => Err(HipByt::of(Repr::Allocated(allocated))),
            },
            repr => Err(HipByt::of(repr)),
        }
    }

    /// The bytes in a vector, copied where [`HipByt::into_vec`] hands the value back. A refused value is handed back.
    #[inline]
    pub fn into_vec_copied(self, alloc: Global) -> Result<Vec<u8>, Self>
        ensures items { IfOk result (λ vec. vec.items ≡ self.entry.items) }
        ensures handed_back { IfErr result (λ back. back ≡ self.entry) }
    {
        self.into_vec_copied_metered(alloc, &mut Meter::new())
    }

    /// [`HipByt::into_vec_copied`], counted.
    pub(crate) fn into_vec_copied_metered(
        self,
        alloc: Global,
        meter: &mut Meter,
    ) -> Result<Vec<u8>, Self>
        ensures items { IfOk result (λ vec. vec.items ≡ self.entry.items) }
        ensures counted { RisesAtMost meter.old meter.new (length self.entry.items) }
        ensures handed_back { IfErr result (λ back. back ≡ self.entry) }
    {
        let handle = match self.into_repr() {
            Repr::Allocated(allocated) => match allocated.try_into_vec_metered(alloc, meter) {
                Ok(vec) => return Ok(vec),
                Err(allocated) => HipByt::of(Repr::Allocated(allocated)),
            },
            repr => HipByt::of(repr),
        };
        match copy_counted(alloc, handle.as_slice(), meter) {
            Ok(vec) => Ok(vec),
            Err(AllocError) => Err(handle),
        }
    }

    /// The bytes of a `Cow`: borrowed ones stay so, and a vector is taken over as by [`HipByt::from_vec`]. A refused one is handed
    /// back.
    #[inline]
    pub fn from_cow(alloc: Global, cow: CowSlice<'b, u8>) -> Result<Self, CowSlice<'b, u8>>
        ensures items { IfOk result (λ handle. handle.items ≡ cow_slice_items cow.entry) }
        ensures borrowed { IsBorrowedSlice cow.entry
            → IsOkAnd result (λ handle. handle.kind ≡ Kind.Borrowed) }
        ensures owned { IsOwnedSlice cow.entry
            → IfOk result (λ handle. handle.kind ≡ by_length (length (cow_slice_items cow.entry))) }
        ensures capacity { IfOk result
            (λ handle. HasCapacity handle.kind (length handle.items) handle.capacity) }
        ensures memory { OnErr result (INLINE_CAPACITY < length (cow_slice_items cow.entry)) }
        ensures handed_back { IfErr result (λ back. back ≡ cow.entry) }
    {
        match cow {
            CowSlice::Borrowed(bytes) => Ok(HipByt::borrowed(bytes)),
            CowSlice::Owned(vec) => match HipByt::from_vec(alloc, vec) {
                Ok(handle) => Ok(handle),
                Err(vec) => Err(CowSlice::Owned(vec)),
            },
        }
    }

    /// The bytes as a `Cow`: borrowed ones stay so, others go into a vector as by [`HipByt::into_vec_copied`]. A refused value is
    /// handed back.
    #[inline]
    pub fn into_cow(self, alloc: Global) -> Result<CowSlice<'b, u8>, Self>
        ensures items { IfOk result (λ cow. cow_slice_items cow ≡ self.entry.items) }
        ensures borrowed { self.entry.kind ≡ Kind.Borrowed → IfOk result IsBorrowedSlice }
        ensures owned { (self.entry.kind ≡ Kind.Borrowed → ⊥) → IfOk result IsOwnedSlice }
        ensures memory { OnErr result (self.entry.kind ≡ Kind.Borrowed → ⊥) }
        ensures handed_back { IfErr result (λ back. back ≡ self.entry) }
    {
        match self.as_borrowed() {
            Some(bytes) => Ok(CowSlice::Borrowed(bytes)),
            None => Ok(CowSlice::Owned(self.into_vec_copied(alloc)?)),
        }
    }
}
