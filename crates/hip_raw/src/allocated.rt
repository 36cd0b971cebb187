//! Bytes that an owner holds.
ghost use Rattle.std.specs.Prelude.{◌≡◌, ◌+◌, ◌*◌, ◌-◌, ◌^◌, ◌<◌, ◌≤◌, ◌==◌, ◌++◌, max, min, map, false, true, [], length, take, vec_capacity, vec_len, IsSome, IfSome, IfOk, IfErr, OnOk, OnErr, slice_range, slice_set, if◌then◌else◌, IsOk};
ghost use Rattle.std.specs.Char.{to_ascii_lowercase, to_ascii_uppercase};
ghost use Rattle.std.specs.Fn.{FnOnceReturnsAtMut, FnOnceTakesAtMut};
ghost use Rattle.hip_raw.specs.Appended.{OnDone, OnShared, OnMemory, OnRefused};
ghost use Rattle.hip_raw.specs.Held.{held_items, held_capacity, OwnAnswers};
ghost use Rattle.hip_raw.specs.Meter.{RisesAtLeast, RisesAtMost, pot, times_copied, unless_shared};
ghost use Rattle.hip_raw.specs.Window.{window};

use crate::appended::Appended;
use crate::ascii_case::{make_ascii_lowercase, make_ascii_uppercase};
use crate::backend::Backend;
use crate::block::Block;
use crate::extent::Extent;
use crate::meter::Meter;
use crate::room::{Room, cut, write_range};
use std::alloc::{AllocError, Global};
use std::marker::Model;
use std::ops::Range;

/// A range of the bytes that an owner holds. A contract sees the bytes and the capacity, that of the owner from the range's start on.
#[derive(Drop)]
pub struct Allocated<B: Backend> {
    owner: B,
    extent: B::Extent,
}

impl<B: Backend> Model for Allocated<B> {
    ghost use Rattle.std.specs.Prelude.{◌-◌, length};
    ghost use Rattle.hip_raw.specs.Allocated.{LiesIn};
    ghost use Rattle.hip_raw.specs.Held.{Held};
    ghost use Rattle.hip_raw.specs.Window.{window};

    ghost Value = { Held };

    ghost view = { λ h. record {
      items = window (B.items h.owner) (B.Extent.start_of h.extent) (B.Extent.len_of h.extent (length (B.items h.owner)));
      capacity = B.capacity h.owner - B.Extent.start_of h.extent;
    } };

    ghost invariant = { λ h. LiesIn B.SHARES (B.items h.owner) (B.capacity h.owner) (B.Extent.start_of h.extent) (B.Extent.len_of h.extent (length (B.items h.owner))) };
}

impl<B: Backend> Allocated<B> {
    /// The `len` bytes of an owner's list from `start` on.
    #[inline(always)]
    pub(crate) fn from_parts(owner: B, start: usize, len: usize) -> Self
        requires within { start + len ≤ length (B.items owner) }
        requires fits { length (B.items owner) ≤ B.capacity owner }
        requires bound { length (B.items owner) < 2 ^ 64 }
        requires position { B.SHARES ≡ false → start ≡ 0 }
        requires whole { B.SHARES ≡ false → len ≡ length (B.items owner) }
        ensures items { result.items ≡ window (B.items owner) start len }
        ensures capacity { result.capacity ≡ B.capacity owner - start }
    {
        let extent = B::Extent::of(start, len, owner.as_slice().len());
        Allocated { owner, extent }
    }

    /// All bytes of a vector, which is taken over.
    #[inline]
    pub fn new(alloc: Global, vec: Vec<u8>) -> Result<Self, Vec<u8>>
        ensures owned { OwnAnswers held_items held_capacity vec result }
    {
        Self::new_metered(alloc, vec, &mut Meter::new())
    }

    /// [`Allocated::new`], counted.
    #[inline]
    pub fn new_metered(alloc: Global, vec: Vec<u8>, meter: &mut Meter) -> Result<Self, Vec<u8>>
        ensures owned { OwnAnswers held_items held_capacity vec result }
        ensures counted { RisesAtMost meter.old meter.new (unless_shared B.SHARES (vec_len vec)) }
        ensures refused_copies_nothing { OnErr result (meter.new ≡ meter.old) }
    {
        let len = vec.len();
        let owner = B::own(alloc, vec, meter)?;
        Ok(Self::from_parts(owner, 0, len))
    }

    /// [`Allocated::new_metered`], in a block that an owner left.
    #[inline]
    pub fn new_in_metered(
        alloc: Global,
        block: Block,
        vec: Vec<u8>,
        meter: &mut Meter,
    ) -> Result<Self, Vec<u8>>
        ensures owned { OwnAnswers held_items held_capacity vec result }
        ensures counted { RisesAtMost meter.old meter.new (unless_shared B.SHARES (vec_len vec)) }
        ensures refused_copies_nothing { OnErr result (meter.new ≡ meter.old) }
    {
        let len = vec.len();
        let owner = B::own_in(alloc, block, vec, meter)?;
        Ok(Self::from_parts(owner, 0, len))
    }

    /// A copy of these bytes, under an owner of its own.
    #[inline]
    pub fn from_slice(alloc: Global, bytes: &[u8]) -> Result<Self, AllocError>
        ensures items { IfOk result (λ made. made.items ≡ bytes.now) }
        ensures fits { IfOk result (λ made. length made.items ≤ made.capacity) }
    {
        Self::from_slice_metered(alloc, bytes, &mut Meter::new())
    }

    /// [`Allocated::from_slice`], counted.
    #[inline]
    pub fn from_slice_metered(
        alloc: Global,
        bytes: &[u8],
        meter: &mut Meter,
    ) -> Result<Self, AllocError>
        ensures items { IfOk result (λ made. made.items ≡ bytes.now) }
        ensures fits { IfOk result (λ made. length made.items ≤ made.capacity) }
        ensures counted { RisesAtMost meter.old meter.new
            (times_copied B.SHARES (length bytes.now)) }
        ensures copied { IfOk result (λ made. RisesAtLeast meter.old meter.new (length bytes.now)) }
    {
        Self::with_room_metered(alloc, bytes, bytes.len(), meter)
    }

    /// No bytes, under an owner with room for `capacity`.
    #[inline]
    pub fn with_capacity(alloc: Global, capacity: usize) -> Result<Self, AllocError>
        ensures items { IfOk result (λ made. made.items ≡ []) }
        ensures capacity { IfOk result (λ made. capacity ≤ made.capacity) }
    {
        Self::with_room_metered(alloc, &[], capacity, &mut Meter::new())
    }

    // Like `from_slice_metered`, but with a capacity of at least `room`.
    #[inline]
    fn with_room_metered(
        alloc: Global,
        bytes: &[u8],
        room: usize,
        meter: &mut Meter,
    ) -> Result<Self, AllocError>
        requires { length bytes.now ≤ room }
        ensures items { IfOk result (λ made. made.items ≡ bytes.now) }
        ensures room { IfOk result (λ made. room ≤ made.capacity) }
        ensures fits { IfOk result (λ made. length made.items ≤ made.capacity) }
        ensures counted { RisesAtMost meter.old meter.new
            (times_copied B.SHARES (length bytes.now)) }
        ensures copied { IfOk result (λ made. RisesAtLeast meter.old meter.new (length bytes.now)) }
    {
        let owner = B::copy_of(alloc, bytes, room, meter)?;
        Ok(Self::from_parts(owner, 0, bytes.len()))
    }

    /// The number of bytes.
    #[inline]
    pub fn len(&self) -> usize
        ensures len { result ≡ length self.now.items }
        ensures fits { length self.now.items ≤ self.now.capacity }
        ensures bound { length self.now.items < 2 ^ 64 }
    {
        self.extent.len(self.owner.as_slice().len())
    }

    /// Whether there is no byte.
    #[inline]
    pub fn is_empty(&self) -> bool
        ensures { result ≡ (length self.now.items == 0) }
    {
        self.len() == 0
    }

    /// The number of bytes that it can hold without allocating, as long as the owner isn't shared.
    #[inline]
    pub fn capacity(&self) -> usize
        ensures capacity { result ≡ self.now.capacity }
        ensures fits { length self.now.items ≤ self.now.capacity }
    {
        self.owner.capacity() - self.extent.start()
    }

    /// The bytes.
    #[inline]
    pub fn as_slice(&self) -> &[u8]
        ensures items { result.now ≡ self.now.items }
        ensures fits { length self.now.items ≤ self.now.capacity }
        ensures bound { length self.now.items < 2 ^ 64 }
    {
        let start = self.extent.start();
        let bytes = self.owner.as_slice();
        &bytes[start..start + self.extent.len(bytes.len())]
    }

    /// The bytes in this range, under the same owner where owners can be shared, else under one of their own.
    #[inline]
    pub fn slice_unchecked(&self, alloc: Global, range: Range<usize>) -> Result<Self, AllocError>
        requires start_le_end { range.start ≤ range.end }
        requires in_bounds { range.end ≤ length self.now.items }
        ensures items { IfOk result
            (λ made. made.items ≡ slice_range self.now.items range.start range.end) }
        ensures fits { IfOk result (λ made. length made.items ≤ made.capacity) }
    {
        self.slice_unchecked_metered(alloc, range, &mut Meter::new())
    }

    /// [`Allocated::slice_unchecked`], counted.
    #[inline]
    pub fn slice_unchecked_metered(
        &self,
        alloc: Global,
        range: Range<usize>,
        meter: &mut Meter,
    ) -> Result<Self, AllocError>
        requires start_le_end { range.start ≤ range.end }
        requires in_bounds { range.end ≤ length self.now.items }
        ensures items { IfOk result
            (λ made. made.items ≡ slice_range self.now.items range.start range.end) }
        ensures fits { IfOk result (λ made. length made.items ≤ made.capacity) }
        ensures counted { RisesAtMost meter.old meter.new
            (unless_shared B.SHARES (range.end - range.start)) }
        ensures copied { OnOk result (RisesAtLeast meter.old meter.new
            (unless_shared B.SHARES (range.end - range.start))) }
        ensures refused_copies_nothing { OnErr result (meter.new ≡ meter.old) }
    {
        let len = range.end - range.start;
        let (owner, start) = self
            .owner
            .part(alloc, self.extent.start() + range.start, len, meter)?;
        Ok(Self::from_parts(owner, start, len))
    }

    /// Appends these bytes in place. The answer says whether that could be done.
    #[inline]
    pub fn push_slice(&mut self, alloc: Global, addition: &[u8]) -> Appended
        ensures items { OnDone result (self.new.items ≡ self.old.items ++ addition.now) }
        ensures fits { length self.new.items ≤ self.new.capacity }
        ensures capacity { B.SHARES ≡ false → self.old.capacity ≤ self.new.capacity }
        ensures shared { OnShared result (B.SHARES ≡ true) }
        ensures memory { OnMemory result
            (B.SHARES ≡ false → self.old.capacity < length self.old.items + length addition.now) }
        ensures refused { OnRefused result (self.new ≡ self.old) }
    {
        self.push_slice_metered(alloc, addition, &mut Meter::new())
    }

    /// [`Allocated::push_slice`], counted.
    #[inline(always)]
    pub fn push_slice_metered(
        &mut self,
        alloc: Global,
        addition: &[u8],
        meter: &mut Meter,
    ) -> Appended
        ensures items { OnDone result (self.new.items ≡ self.old.items ++ addition.now) }
        ensures fits { length self.new.items ≤ self.new.capacity }
        ensures capacity { B.SHARES ≡ false → self.old.capacity ≤ self.new.capacity }
        ensures counted { RisesAtMost meter.old meter.new
            (length addition.now + unless_shared B.SHARES (length self.old.items)) }
        ensures copied { OnDone result (RisesAtLeast meter.old meter.new (length addition.now)) }
        ensures potential { B.SHARES ≡ false → OnDone result (meter.new + pot (length self.new.items) self.new.capacity
            ≤ meter.old + pot (length self.old.items) self.old.capacity + 3 * length addition.now) }
        ensures shared { OnShared result (B.SHARES ≡ true) }
        ensures memory { OnMemory result
            (B.SHARES ≡ false → self.old.capacity < length self.old.items + length addition.now) }
        ensures refused { OnRefused result (self.new ≡ self.old) }
        ensures refused_copies_nothing { OnRefused result (meter.new ≡ meter.old) }
    {
        let len = self.len();
        let start = self.extent.start();
        let keep = start + len;
        let answer = self.owner.append(alloc, keep, addition, meter);
        if let Appended::Done = answer {
            self.extent = B::Extent::of(start, len + addition.len(), keep + addition.len());
        }
        answer
    }

    /// Keeps the first `len` bytes, or all where there are fewer, and the owner. It copies nothing.
    #[inline]
    pub fn truncate(&mut self, len: usize)
        ensures items { self.new.items ≡ take len self.old.items }
        ensures fits { length self.new.items ≤ self.new.capacity }
        ensures capacity { self.new.capacity ≡ self.old.capacity }
    {
        if len < self.len() {
            if !B::SHARES {
                cut(&mut self.owner, len);
            }
            self.extent = B::Extent::of(self.extent.start(), len, self.owner.as_slice().len());
        }
    }

    /// The bytes in a vector, where no other handle shares the owner.
    #[inline]
    pub fn try_into_vec(self, alloc: Global) -> Result<Vec<u8>, Self>
        ensures items { IfOk result (λ vec. vec.items ≡ self.items) }
        ensures room { IfOk result (λ vec. self.capacity ≤ vec_capacity vec) }
        ensures handed_back { IfErr result (λ back. back ≡ self) }
    {
        self.try_into_vec_metered(alloc, &mut Meter::new())
    }

    /// [`Allocated::try_into_vec`], counted.
    #[inline]
    pub fn try_into_vec_metered(self, alloc: Global, meter: &mut Meter) -> Result<Vec<u8>, Self>
        ensures items { IfOk result (λ vec. vec.items ≡ self.items) }
        ensures room { IfOk result (λ vec. self.capacity ≤ vec_capacity vec) }
        ensures counted { RisesAtMost meter.old meter.new
            (unless_shared B.SHARES (length self.items)) }
        ensures handed_back { IfErr result (λ back. back ≡ self) }
        ensures refused_copies_nothing { OnErr result (meter.new ≡ meter.old) }
    {
        let (vec, _block) = self.try_take_vec_metered(alloc, meter)?;
        Ok(vec)
    }

    /// [`Allocated::try_into_vec_metered`], and the block that the vector lay in, for [`Allocated::new_in_metered`].
    #[inline]
    pub fn try_take_vec_metered(
        self,
        alloc: Global,
        meter: &mut Meter,
    ) -> Result<(Vec<u8>, Block), Self>
        ensures items { IfOk result (λ taken. taken.0.items ≡ self.items) }
        ensures room { IfOk result (λ taken. self.capacity ≤ vec_capacity taken.0) }
        ensures counted { RisesAtMost meter.old meter.new
            (unless_shared B.SHARES (length self.items)) }
        ensures handed_back { IfErr result (λ back. back ≡ self) }
        ensures refused_copies_nothing { OnErr result (meter.new ≡ meter.old) }
    {
        if self.extent.start() != 0 {
            return Err(self);
        }
        let len = self.len();
        let Allocated { mut owner, .. } = self;
        cut(&mut owner, len);
        match owner.try_take_vec(alloc, meter) {
            Ok((mut vec, block)) => {
                vec.truncate(len);
                Ok((vec, block))
            }
            Err(owner) => Err(Self::from_parts(owner, 0, len)),
        }
    }

    /// Calls `f` with the bytes, for writing, where no other handle shares the owner. Where one does, `f` is handed back.
    #[inline]
    pub fn with_mut_slice<R, F: FnOnce(&mut [u8]) -> R>(&mut self, f: F) -> Result<R, F>
        requires { FnOnceTakesAtMut F.FnOnce f self.old.items }
        ensures ran { IfOk result
            (λ answer. FnOnceReturnsAtMut F.FnOnce f self.old.items answer self.new.items) }
        ensures len { length self.new.items ≡ length self.old.items }
        ensures fits { length self.new.items ≤ self.new.capacity }
        ensures capacity { self.new.capacity ≡ self.old.capacity }
        ensures sole { B.SHARES ≡ false → IsOk result }
        ensures err { OnErr result (self.new ≡ self.old) }
        ensures handed_back { IfErr result (λ back. back ≡ f) }
    {
        let start = self.extent.start();
        let len = self.len();
        write_range(&mut self.owner, start, len, f)
    }

    /// Writes one byte, where no other handle shares the owner, and answers whether it did.
    #[inline]
    pub fn set(&mut self, index: usize, byte: u8) -> bool
        requires { index < length self.old.items }
        ensures items { self.new.items
            ≡ (if result then slice_set self.old.items index byte else self.old.items) }
        ensures capacity { self.new.capacity ≡ self.old.capacity }
        ensures sole { B.SHARES ≡ false → result ≡ true }
    {
        self.with_mut_slice(|bytes| bytes[index] = byte).is_ok()
    }

    /// Moves the letters `A` to `Z` by 32, where no other handle shares the owner, and answers whether it did.
    #[inline]
    pub fn make_ascii_lowercase(&mut self) -> bool
        ensures items { self.new.items
            ≡ (if result then map to_ascii_lowercase self.old.items else self.old.items) }
        ensures capacity { self.new.capacity ≡ self.old.capacity }
        ensures sole { B.SHARES ≡ false → result ≡ true }
    {
        self.with_mut_slice(|bytes| make_ascii_lowercase(bytes))
            .is_ok()
    }

    /// Moves the letters `a` to `z` by 32, where no other handle shares the owner, and answers whether it did.
    #[inline]
    pub fn make_ascii_uppercase(&mut self) -> bool
        ensures items { self.new.items
            ≡ (if result then map to_ascii_uppercase self.old.items else self.old.items) }
        ensures capacity { self.new.capacity ≡ self.old.capacity }
        ensures sole { B.SHARES ≡ false → result ≡ true }
    {
        self.with_mut_slice(|bytes| make_ascii_uppercase(bytes))
            .is_ok()
    }

    /// The bytes, for writing, where no other handle shares the owner.
    #[inline]
    pub fn as_mut_slice(&mut self) -> Option<&mut [u8]>
        ensures items { IfSome result (λ bytes. bytes.now ≡ self.old.items) }
        ensures sole { B.SHARES ≡ false → IsSome result }
    {
        let start = self.extent.start();
        let end = start + self.len();
        match self.owner.writable() {
            Some(sole) => {
                let bytes = sole.as_mut_slice();
                Some(&mut bytes[start..end])
            }
            None => None,
        }
    }

    /// Gives back room past `least` bytes, or past the length. Where there is none it does nothing; else it copies the bytes to an owner of
    /// their own, and keeps the old one where the new one isn't smaller.
    pub fn shrink_to(&mut self, alloc: Global, least: usize) -> Result<(), AllocError>
        ensures items { self.new.items ≡ self.old.items }
        ensures fits { length self.new.items ≤ self.new.capacity }
        ensures kept { min self.old.capacity (max least (length self.old.items))
            ≤ self.new.capacity }
        ensures capacity { self.new.capacity ≤ self.old.capacity }
        ensures memory { OnErr result (max least (length self.old.items) < self.old.capacity) }
        ensures err { OnErr result (self.new ≡ self.old) }
    {
        self.shrink_to_metered(alloc, least, &mut Meter::new())
    }

    /// [`Allocated::shrink_to`], counted.
    pub fn shrink_to_metered(
        &mut self,
        alloc: Global,
        least: usize,
        meter: &mut Meter,
    ) -> Result<(), AllocError>
        ensures items { self.new.items ≡ self.old.items }
        ensures fits { length self.new.items ≤ self.new.capacity }
        ensures kept { min self.old.capacity (max least (length self.old.items))
            ≤ self.new.capacity }
        ensures capacity { self.new.capacity ≤ self.old.capacity }
        ensures counted { RisesAtMost meter.old meter.new
            (times_copied B.SHARES (length self.old.items)) }
        ensures memory { OnErr result (max least (length self.old.items) < self.old.capacity) }
        ensures err { OnErr result (self.new ≡ self.old) }
    {
        let room = least.max(self.len());
        if self.capacity() <= room {
            return Ok(());
        }
        let made = Self::with_room_metered(alloc, self.as_slice(), room, meter)?;
        if made.capacity() < self.capacity() {
            *self = made;
        }
        Ok(())
    }
}
