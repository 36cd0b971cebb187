//! Pushes, and cuts in place.
ghost use Rattle.std.specs.Prelude.{◌≡◌, ◌≤◌, ◌<◌, ◌+◌, ◌↔◌, ◌∷◌, [], ◌++◌, length, take, max, min, IfOk, IfNone, IsSome, OnOk, OnErr, OnSome};
ghost use Rattle.std.specs.Option.{option_to_list};
ghost use Rattle.hip_raw.specs.Meter.{RisesAtLeast, RisesAtMost, times_copied};
ghost use Rattle.hip_bytes.specs.Change.{IsShortened, PopAnswers, PushAnswers, ShrinkAnswers};
ghost use Rattle.hip_bytes.specs.Cost.{CutNeedsMemory, PushIsPaid, PushNeedsMemory, push_cost, shortened_cost, shrink_cost};
ghost use Rattle.hip_bytes.specs.Repr.{handle_of};
ghost use Rattle.hip_bytes.specs.Kinds.{by_length, cut_kind, kept_capacity, PushedKind, HasCapacity};
ghost use Rattle.hip_bytes.specs.declared.kind.TheConstants.{INLINE_CAPACITY};

use super::{HipByt, Repr};
use crate::kind::{INLINE_CAPACITY, Kind};
use hip_raw::{Allocated, Appended, Backend, Inline, Meter, fill_counted};
use std::alloc::{AllocError, Global};

/// A handle of the bytes of two slices, one behind the other, by length.
#[cold]
#[inline(never)]
fn joined<'b, B: Backend>(
    alloc: Global,
    front: &[u8],
    back: &[u8],
    meter: &mut Meter,
) -> Result<Repr<'b, B>, AllocError>
    ensures items { IfOk result (λ repr. (handle_of repr).items ≡ front.now ++ back.now) }
    ensures kind { IfOk result
        (λ repr. (handle_of repr).kind ≡ by_length (length front.now + length back.now)) }
    ensures capacity { IfOk result
        (λ repr. HasCapacity (handle_of repr).kind (length front.now + length back.now)
        (handle_of repr).capacity) }
    ensures memory { OnErr result (INLINE_CAPACITY < length front.now + length back.now) }
    ensures counted { RisesAtMost meter.old meter.new
        (times_copied B.SHARES (length front.now + length back.now)) }
    ensures copied { IfOk result
        (λ repr. RisesAtLeast meter.old meter.new (length front.now + length back.now)) }
{
    let Some(len) = front.len().checked_add(back.len()) else {
        return Err(AllocError);
    };
    if len <= INLINE_CAPACITY {
        let mut inline = Inline::new_unchecked_metered(front, meter);
        inline.push_slice_unchecked_metered(back, meter);
        return Ok(Repr::Inline(inline));
    }
    let mut vec = vec![in alloc; 0; len]?;
    let (front_room, back_room) = vec.as_mut_slice().split_at_mut(front.len());
    fill_counted(front_room, front, meter);
    fill_counted(back_room, back, meter);
    match Allocated::new_metered(alloc, vec, meter) {
        Ok(allocated) => Ok(Repr::Allocated(allocated)),
        Err(_) => Err(AllocError),
    }
}

impl<'b, B: Backend> HipByt<'b, B> {
    /// Adds bytes at the end: in place where they fit the handle itself or its owner is not shared, else in a copy. Where there are none
    /// to add, nothing changes, whatever the representation.
    #[inline(always)]
    pub fn push_slice(&mut self, alloc: Global, addition: &[u8]) -> Result<(), AllocError>
        ensures push { PushAnswers B.SHARES self.old addition.now result self.new }
    {
        self.push_slice_metered(alloc, addition, &mut Meter::new())
    }

    /// [`HipByt::push_slice`], counted.
    #[inline(always)]
    pub fn push_slice_metered(
        &mut self,
        alloc: Global,
        addition: &[u8],
        meter: &mut Meter,
    ) -> Result<(), AllocError>
        ensures push { PushAnswers B.SHARES self.old addition.now result self.new }
        ensures counted { RisesAtMost meter.old meter.new
            (push_cost B.SHARES (length self.old.items) (length addition.now)) }
        ensures copied { OnOk result (RisesAtLeast meter.old meter.new (length addition.now)) }
        ensures paid { PushIsPaid B.SHARES self.old self.new
            (length addition.now) meter.old meter.new }
    {
        if addition.is_empty() {
            return Ok(());
        }
        match &mut self.bare.repr {
            Repr::Inline(inline) if addition.len() <= INLINE_CAPACITY - inline.len() => {
                inline.push_slice_unchecked_metered(addition, meter);
                return Ok(());
            }
            Repr::Allocated(allocated) => {
                match allocated.push_slice_metered(alloc, addition, meter) {
                    Appended::Done => return Ok(()),
                    Appended::Memory => return Err(AllocError),
                    Appended::Shared => {}
                }
            }
            _ => {}
        }
        let mut apart = Meter::new();
        let outcome = self.push_copied(alloc, addition, &mut apart);
        meter.add(&apart);
        outcome
    }

    // Appends by a copy of all bytes: those of the handle have no room behind them, are borrowed, or are shared.
    #[cold]
    #[inline(never)]
    fn push_copied(
        &mut self,
        alloc: Global,
        addition: &[u8],
        meter: &mut Meter,
    ) -> Result<(), AllocError>
        ensures items { OnOk result (self.new.items ≡ self.old.items ++ addition.now) }
        ensures kind { OnOk result
            (self.new.kind ≡ by_length (length self.old.items + length addition.now)) }
        ensures capacity { OnOk result
            (HasCapacity self.new.kind (length self.new.items) self.new.capacity) }
        ensures memory { OnErr result
            (INLINE_CAPACITY < length self.old.items + length addition.now) }
        ensures counted { RisesAtMost meter.old meter.new
            (times_copied B.SHARES (length self.old.items + length addition.now)) }
        ensures copied { OnOk result
            (RisesAtLeast meter.old meter.new (length self.old.items + length addition.now)) }
        ensures err { OnErr result (self.new ≡ self.old) }
    {
        self.bare.repr = joined(alloc, self.as_slice(), addition, meter)?;
        Ok(())
    }

    /// Adds a byte at the end.
    #[inline(always)]
    pub fn push(&mut self, alloc: Global, byte: u8) -> Result<(), AllocError>
        ensures push { PushAnswers B.SHARES self.old (byte ∷ []) result self.new }
    {
        self.push_slice(alloc, &[byte])
    }

    /// [`HipByt::push`], counted.
    #[inline(always)]
    pub fn push_metered(
        &mut self,
        alloc: Global,
        byte: u8,
        meter: &mut Meter,
    ) -> Result<(), AllocError>
        ensures push { PushAnswers B.SHARES self.old (byte ∷ []) result self.new }
        ensures counted { RisesAtMost meter.old meter.new
            (push_cost B.SHARES (length self.old.items) 1) }
        ensures copied { OnOk result (RisesAtLeast meter.old meter.new 1) }
        ensures paid { PushIsPaid B.SHARES self.old self.new 1 meter.old meter.new }
    {
        self.push_slice_metered(alloc, &[byte], meter)
    }

    /// Keeps the first `len` bytes, or all where there are fewer.
    #[inline]
    pub fn truncate(&mut self, len: usize)
        ensures shortened { IsShortened self.old self.new len }
    {
        self.truncate_metered(len, &mut Meter::new());
    }

    /// [`HipByt::truncate`], counted.
    #[inline]
    pub fn truncate_metered(&mut self, len: usize, meter: &mut Meter)
        ensures shortened { IsShortened self.old self.new len }
        ensures counted { RisesAtMost meter.old meter.new (shortened_cost self.old.kind) }
    {
        match &mut self.bare.repr {
            Repr::Inline(inline) => inline.truncate(len),
            Repr::Borrowed(borrowed) => borrowed.truncate(len),
            Repr::Allocated(allocated) if len >= allocated.len() => {}
            Repr::Allocated(allocated) if len > INLINE_CAPACITY => allocated.truncate(len),
            Repr::Allocated(allocated) => {
                let inline = Inline::new_unchecked_metered(&allocated.as_slice()[..len], meter);
                self.bare.repr = Repr::Inline(inline);
            }
        }
    }

    /// Removes all bytes.
    #[inline]
    pub fn clear(&mut self)
        ensures shortened { IsShortened self.old self.new 0 }
    {
        self.clear_metered(&mut Meter::new());
    }

    /// [`HipByt::clear`], counted.
    #[inline]
    pub fn clear_metered(&mut self, meter: &mut Meter)
        ensures shortened { IsShortened self.old self.new 0 }
        ensures counted { RisesAtMost meter.old meter.new (shortened_cost self.old.kind) }
    {
        self.truncate_metered(0, meter);
    }

    /// Takes the last byte off.
    #[inline]
    pub fn pop(&mut self) -> Option<u8>
        ensures pop { PopAnswers self.old result self.new }
    {
        self.pop_metered(&mut Meter::new())
    }

    /// [`HipByt::pop`], counted.
    #[inline]
    pub fn pop_metered(&mut self, meter: &mut Meter) -> Option<u8>
        ensures pop { PopAnswers self.old result self.new }
        ensures counted { RisesAtMost meter.old meter.new (shortened_cost self.old.kind) }
    {
        match &mut self.bare.repr {
            Repr::Allocated(allocated) if allocated.len() > INLINE_CAPACITY + 1 => {
                let len = allocated.len() - 1;
                let last = allocated.as_slice()[len];
                allocated.truncate(len);
                Some(last)
            }
            _ => self.pop_short(meter),
        }
    }

    // Like [`HipByt::pop_metered`], where the rest may fit in the handle itself, or the bytes don't lie with an owner.
    #[inline(never)]
    fn pop_short(&mut self, meter: &mut Meter) -> Option<u8>
        ensures pop { PopAnswers self.old result self.new }
        ensures counted { RisesAtMost meter.old meter.new (shortened_cost self.old.kind) }
    {
        let (last, rest) = self.as_slice().split_last()?;
        let (last, len) = (*last, rest.len());
        self.truncate_metered(len, meter);
        Some(last)
    }

    /// Gives room back: to the handle itself where `least` and the bytes fit it, else to no less than both. Bytes that lie in the handle
    /// itself or with another value stay as they are.
    pub fn shrink_to(&mut self, alloc: Global, least: usize) -> Result<(), AllocError>
        ensures shrink { ShrinkAnswers self.old
            (max least (length self.old.items)) result self.new }
    {
        self.shrink_to_metered(alloc, least, &mut Meter::new())
    }

    /// [`HipByt::shrink_to`], counted.
    pub fn shrink_to_metered(
        &mut self,
        alloc: Global,
        least: usize,
        meter: &mut Meter,
    ) -> Result<(), AllocError>
        ensures shrink { ShrinkAnswers self.old
            (max least (length self.old.items)) result self.new }
        ensures counted { RisesAtMost meter.old meter.new
            (shrink_cost B.SHARES self.old.kind (length self.old.items)) }
    {
        match &mut self.bare.repr {
            Repr::Inline(_) | Repr::Borrowed(_) => Ok(()),
            Repr::Allocated(allocated) if least.max(allocated.len()) <= INLINE_CAPACITY => {
                let inline = Inline::new_unchecked_metered(allocated.as_slice(), meter);
                self.bare.repr = Repr::Inline(inline);
                Ok(())
            }
            Repr::Allocated(allocated) => allocated.shrink_to_metered(alloc, least, meter),
        }
    }

    /// [`HipByt::shrink_to`] as far as it goes.
    pub fn shrink_to_fit(&mut self, alloc: Global) -> Result<(), AllocError>
        ensures shrink { ShrinkAnswers self.old (length self.old.items) result self.new }
    {
        self.shrink_to(alloc, 0)
    }
}
