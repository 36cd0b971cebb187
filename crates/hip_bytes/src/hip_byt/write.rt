//! Writing in place.
ghost use Rattle.std.specs.Prelude.{◌≡◌, ◌+◌, ◌≤◌, false, length, map, IsSome, IfSome, IfNone, IfOk, OnOk, OnErr, OnSome};
ghost use Rattle.std.specs.Char.{to_ascii_lowercase, to_ascii_uppercase};
ghost use Rattle.std.specs.Fn.{FnOnceReturnsAtMut, FnOnceTakesAtMut};
ghost use Rattle.hip_raw.specs.Meter.{RisesAtLeast, RisesAtMost, times_copied};
ghost use Rattle.hip_bytes.specs.Repr.{handle_of};
ghost use Rattle.hip_bytes.specs.Change.{WriteAnswers};
ghost use Rattle.hip_bytes.specs.Cost.{write_cost, clone_cost, lent_count, WriteNeedsMemory};
ghost use Rattle.hip_bytes.specs.Kinds.{owned_kind, HasCapacity};
ghost use Rattle.hip_bytes.specs.Made.{CopyAnswers};

use super::{Bare, HipByt, Repr};
use crate::kind::{INLINE_CAPACITY, Kind};
use hip_raw::{
    Allocated, Backend, Inline, Meter, copy_counted, make_ascii_lowercase, make_ascii_uppercase,
};
use std::alloc::{AllocError, Global};

impl<'b, B: Backend> HipByt<'b, B> {
    /// Calls `f` with the bytes, for writing, where they may be written in place: they lie in the handle itself, or with an owner
    /// that no other handle shares.
    #[inline]
    pub fn with_mut_slice<R, F: FnOnce(&mut [u8]) -> R>(&mut self, f: F) -> Option<R>
    where
        F: Drop,
        requires { FnOnceTakesAtMut F.FnOnce f self.old.items }
        ensures ran { IfSome result
            (λ answer. FnOnceReturnsAtMut F.FnOnce f self.old.items answer self.new.items) }
        ensures len { length self.new.items ≡ length self.old.items }
        ensures kind { self.new.kind ≡ self.old.kind }
        ensures capacity { self.new.capacity ≡ self.old.capacity }
        ensures inline { self.old.kind ≡ Kind.Inline → IsSome result }
        ensures borrowed { OnSome result (self.old.kind ≡ Kind.Borrowed → ⊥) }
        ensures sole { B.SHARES ≡ false → self.old.kind ≡ Kind.Allocated → IsSome result }
        ensures none { IfNone result (self.new ≡ self.old) }
    {
        match &mut self.bare.repr {
            Repr::Inline(inline) => Some(f(inline.as_mut_slice())),
            Repr::Borrowed(_) => None,
            Repr::Allocated(allocated) => allocated.with_mut_slice(f).ok(),
        }
    }

    /// The bytes, for writing, where they may be written in place.
    #[inline]
    pub fn as_mut_slice(&mut self) -> Option<&mut [u8]>
        ensures items { IfSome result (λ bytes. bytes.now ≡ self.old.items) }
        ensures inline { self.old.kind ≡ Kind.Inline → IsSome result }
        ensures borrowed { OnSome result (self.old.kind ≡ Kind.Borrowed → ⊥) }
        ensures sole { B.SHARES ≡ false → self.old.kind ≡ Kind.Allocated → IsSome result }
    {
        self.bare.as_mut_slice()
    }

    /// Calls `f` with the bytes, for writing. Bytes that another value lends, or that another handle shares, are copied first.
    #[inline]
    pub fn with_to_mut_slice<R, F: FnOnce(&mut [u8]) -> R>(
        &mut self,
        alloc: Global,
        f: F,
    ) -> Result<R, AllocError>
    where
        F: Drop,
        R: Drop,
        requires { FnOnceTakesAtMut F.FnOnce f self.old.items }
        ensures ran { IfOk result
            (λ answer. FnOnceReturnsAtMut F.FnOnce f self.old.items answer self.new.items) }
        ensures len { length self.new.items ≡ length self.old.items }
        ensures kind { OnOk result
            (self.new.kind ≡ owned_kind self.old.kind (length self.old.items)) }
        ensures capacity { OnOk result
            (HasCapacity self.new.kind (length self.new.items) self.new.capacity) }
        ensures kept { B.SHARES ≡ false → self.old.kind ≡ Kind.Allocated
            → self.new.capacity ≡ self.old.capacity }
        ensures memory { OnErr result
            (WriteNeedsMemory B.SHARES self.old.kind (length self.old.items)) }
        ensures err { OnErr result (self.new ≡ self.old) }
    {
        self.with_to_mut_slice_metered(alloc, f, &mut Meter::new())
    }

    /// [`HipByt::with_to_mut_slice`], counted.
    #[inline]
    pub fn with_to_mut_slice_metered<R, F: FnOnce(&mut [u8]) -> R>(
        &mut self,
        alloc: Global,
        f: F,
        meter: &mut Meter,
    ) -> Result<R, AllocError>
    where
        F: Drop,
        R: Drop,
        requires { FnOnceTakesAtMut F.FnOnce f self.old.items }
        ensures ran { IfOk result
            (λ answer. FnOnceReturnsAtMut F.FnOnce f self.old.items answer self.new.items) }
        ensures len { length self.new.items ≡ length self.old.items }
        ensures kind { OnOk result
            (self.new.kind ≡ owned_kind self.old.kind (length self.old.items)) }
        ensures capacity { OnOk result
            (HasCapacity self.new.kind (length self.new.items) self.new.capacity) }
        ensures kept { B.SHARES ≡ false → self.old.kind ≡ Kind.Allocated
            → self.new.capacity ≡ self.old.capacity }
        ensures memory { OnErr result
            (WriteNeedsMemory B.SHARES self.old.kind (length self.old.items)) }
        ensures counted { RisesAtMost meter.old meter.new
            (write_cost B.SHARES self.old.kind (length self.old.items)) }
        ensures copied { OnOk result (RisesAtLeast meter.old meter.new
            (lent_count self.old.kind (length self.old.items))) }
        ensures err { OnErr result (self.new ≡ self.old) }
    {
        let f = match &mut self.bare.repr {
            Repr::Inline(inline) => return Ok(f(inline.as_mut_slice())),
            Repr::Borrowed(_) => f,
            Repr::Allocated(allocated) => match allocated.with_mut_slice(f) {
                Ok(answer) => return Ok(answer),
                Err(f) => f,
            },
        };
        let (repr, answer) = if self.is_borrowed() && self.len() <= INLINE_CAPACITY {
            let mut inline = Inline::new_unchecked_metered(self.as_slice(), meter);
            let answer = f(inline.as_mut_slice());
            (Repr::Inline(inline), answer)
        } else {
            written(alloc, self.as_slice(), f, meter)?
        };
        self.bare.repr = repr;
        Ok(answer)
    }

    /// The bytes, for writing. Bytes that another value lends, or that another handle shares, are copied first. A refused call changes
    /// nothing, as [`HipByt::with_to_mut_slice`] says of its own.
    #[inline]
    pub fn to_mut_slice(&mut self, alloc: Global) -> Result<&mut [u8], AllocError>
        ensures items { IfOk result (λ bytes. bytes.now ≡ self.old.items) }
        ensures memory { OnErr result
            (WriteNeedsMemory B.SHARES self.old.kind (length self.old.items)) }
    {
        self.to_mut_slice_metered(alloc, &mut Meter::new())
    }

    /// [`HipByt::to_mut_slice`], counted.
    #[inline]
    pub fn to_mut_slice_metered(
        &mut self,
        alloc: Global,
        meter: &mut Meter,
    ) -> Result<&mut [u8], AllocError>
        ensures items { IfOk result (λ bytes. bytes.now ≡ self.old.items) }
        ensures memory { OnErr result
            (WriteNeedsMemory B.SHARES self.old.kind (length self.old.items)) }
        ensures counted { RisesAtMost meter.old meter.new
            (write_cost B.SHARES self.old.kind (length self.old.items)) }
        ensures copied { OnOk result (RisesAtLeast meter.old meter.new
            (lent_count self.old.kind (length self.old.items))) }
    {
        self.with_to_mut_slice_metered(alloc, |_| (), meter)?;
        match self.as_mut_slice() {
            Some(bytes) => Ok(bytes),
            None => Err(AllocError),
        }
    }

    /// Moves the letters `A` to `Z` to `a` to `z`, and keeps every other byte.
    #[inline]
    pub fn make_ascii_lowercase(&mut self, alloc: Global) -> Result<(), AllocError>
        ensures write { WriteAnswers B.SHARES self.old
            (map to_ascii_lowercase self.old.items) result self.new }
    {
        self.make_ascii_lowercase_metered(alloc, &mut Meter::new())
    }

    /// [`HipByt::make_ascii_lowercase`], counted.
    #[inline]
    pub fn make_ascii_lowercase_metered(
        &mut self,
        alloc: Global,
        meter: &mut Meter,
    ) -> Result<(), AllocError>
        ensures write { WriteAnswers B.SHARES self.old
            (map to_ascii_lowercase self.old.items) result self.new }
        ensures counted { RisesAtMost meter.old meter.new
            (write_cost B.SHARES self.old.kind (length self.old.items)) }
        ensures copied { OnOk result (RisesAtLeast meter.old meter.new
            (lent_count self.old.kind (length self.old.items))) }
    {
        self.with_to_mut_slice_metered(alloc, |bytes| make_ascii_lowercase(bytes), meter)
    }

    /// A copy in which the letters `A` to `Z` are `a` to `z`.
    #[inline]
    pub fn to_ascii_lowercase(&self, alloc: Global) -> Result<Self, AllocError>
        ensures copy { CopyAnswers self.now (map to_ascii_lowercase self.now.items) result }
    {
        self.to_ascii_lowercase_metered(alloc, &mut Meter::new())
    }

    /// [`HipByt::to_ascii_lowercase`], counted.
    #[inline]
    pub fn to_ascii_lowercase_metered(
        &self,
        alloc: Global,
        meter: &mut Meter,
    ) -> Result<Self, AllocError>
        ensures copy { CopyAnswers self.now (map to_ascii_lowercase self.now.items) result }
        ensures counted { RisesAtMost meter.old meter.new
            (clone_cost B.SHARES self.now.kind (length self.now.items)
            + write_cost B.SHARES self.now.kind (length self.now.items)) }
    {
        let mut copy = self.clone_metered(alloc, meter)?;
        copy.make_ascii_lowercase_metered(alloc, meter)?;
        Ok(copy)
    }

    /// Moves the letters `a` to `z` to `A` to `Z`, and keeps every other byte.
    #[inline]
    pub fn make_ascii_uppercase(&mut self, alloc: Global) -> Result<(), AllocError>
        ensures write { WriteAnswers B.SHARES self.old
            (map to_ascii_uppercase self.old.items) result self.new }
    {
        self.make_ascii_uppercase_metered(alloc, &mut Meter::new())
    }

    /// [`HipByt::make_ascii_uppercase`], counted.
    #[inline]
    pub fn make_ascii_uppercase_metered(
        &mut self,
        alloc: Global,
        meter: &mut Meter,
    ) -> Result<(), AllocError>
        ensures write { WriteAnswers B.SHARES self.old
            (map to_ascii_uppercase self.old.items) result self.new }
        ensures counted { RisesAtMost meter.old meter.new
            (write_cost B.SHARES self.old.kind (length self.old.items)) }
        ensures copied { OnOk result (RisesAtLeast meter.old meter.new
            (lent_count self.old.kind (length self.old.items))) }
    {
        self.with_to_mut_slice_metered(alloc, |bytes| make_ascii_uppercase(bytes), meter)
    }

    /// A copy in which the letters `a` to `z` are `A` to `Z`.
    #[inline]
    pub fn to_ascii_uppercase(&self, alloc: Global) -> Result<Self, AllocError>
        ensures copy { CopyAnswers self.now (map to_ascii_uppercase self.now.items) result }
    {
        self.to_ascii_uppercase_metered(alloc, &mut Meter::new())
    }

    /// [`HipByt::to_ascii_uppercase`], counted.
    #[inline]
    pub fn to_ascii_uppercase_metered(
        &self,
        alloc: Global,
        meter: &mut Meter,
    ) -> Result<Self, AllocError>
        ensures copy { CopyAnswers self.now (map to_ascii_uppercase self.now.items) result }
        ensures counted { RisesAtMost meter.old meter.new
            (clone_cost B.SHARES self.now.kind (length self.now.items)
            + write_cost B.SHARES self.now.kind (length self.now.items)) }
    {
        let mut copy = self.clone_metered(alloc, meter)?;
        copy.make_ascii_uppercase_metered(alloc, meter)?;
        Ok(copy)
    }
}

/// An owner of a copy of these bytes, in which `f` has written.
#[inline]
fn written<'b, B: Backend, R, F: FnOnce(&mut [u8]) -> R>(
    alloc: Global,
    bytes: &[u8],
    f: F,
    meter: &mut Meter,
) -> Result<(Repr<'b, B>, R), AllocError>
where
    R: Drop,
    requires { FnOnceTakesAtMut F.FnOnce f bytes.now }
    ensures ran { IfOk result
        (λ made. FnOnceReturnsAtMut F.FnOnce f bytes.now made.1 (handle_of made.0).items) }
    ensures len { IfOk result (λ made. length (handle_of made.0).items ≡ length bytes.now) }
    ensures kind { IfOk result (λ made. (handle_of made.0).kind ≡ Kind.Allocated) }
    ensures fits { IfOk result (λ made. length bytes.now ≤ (handle_of made.0).capacity) }
    ensures counted { RisesAtMost meter.old meter.new (times_copied B.SHARES (length bytes.now)) }
    ensures copied { OnOk result (RisesAtLeast meter.old meter.new (length bytes.now)) }
{
    let mut vec = copy_counted(alloc, bytes, meter)?;
    let answer = f(vec.as_mut_slice());
    match Allocated::new_metered(alloc, vec, meter) {
        Ok(allocated) => Ok((Repr::Allocated(allocated), answer)),
        Err(_) => Err(AllocError),
    }
}

impl<'b, B: Backend> Bare<'b, B> {
    ghost use Rattle.hip_bytes.specs.Repr.{handle_of};

    #[inline]
    fn as_mut_slice(&mut self) -> Option<&mut [u8]>
        ensures items { IfSome result (λ bytes. bytes.now ≡ (handle_of self.old.repr).items) }
        ensures inline { (handle_of self.old.repr).kind ≡ Kind.Inline → IsSome result }
        ensures borrowed { OnSome result ((handle_of self.old.repr).kind ≡ Kind.Borrowed → ⊥) }
        ensures sole { B.SHARES ≡ false → (handle_of self.old.repr).kind ≡ Kind.Allocated
            → IsSome result }
    {
        match &mut self.repr {
            Repr::Inline(inline) => Some(inline.as_mut_slice()),
            Repr::Borrowed(_) => None,
            Repr::Allocated(allocated) => allocated.as_mut_slice(),
        }
    }
}
