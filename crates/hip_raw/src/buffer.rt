//! A list of bytes in a block of its own.
ghost use Rattle.std.specs.Prelude.{◌≡◌, ◌+◌, ◌-◌, ◌*◌, ◌^◌, ◌<◌, ◌≤◌, ◌++◌, [], Some, length, replicate, take, IfOk, refl};
ghost use Rattle.std.specs.Borrow.{sem};
ghost use Rattle.hip_raw.specs.Appended.{OnDone, OnMemory, OnRefused, OnShared};
ghost use Rattle.hip_raw.specs.Meter.{RisesAtLeast, RisesAtMost, RisesBy, append_copies, pot};

use crate::appended::Appended;
use crate::meter::{Meter, fill_at, fill_counted};
use crate::room::Room;
use cells::{Base, Cells, Deed, allocate, deallocate};
use std::alloc::{AllocError, Global};
use std::marker::Model;

mod cells;

/// A list of bytes in a block of its own, which is freed when the buffer is dropped. The places past the list are never read.
pub struct Buffer {
    base: Base<u8>,
    size: usize,
    len: usize,
    cells: Cells<u8>,
    deed: Deed<u8, Global>,
    alloc: Global,
}

impl Model for Buffer {
    ghost use Rattle.hip_raw.specs.Buffer.{IsBuffer};
    ghost use Rattle.hip_raw.specs.Held.{Held};
    ghost use Rattle.hip_raw.specs.Places.{front};

    ghost Value = { Held };

    ghost view = { λ b. record { items = front b.len b.cells.slots; capacity = b.size } };

    ghost invariant = { λ b. IsBuffer b };
}

// Sets `count` places from `from` on to zero. Where `count` is a constant that is a single store, or a few.
#[inline(always)]
fn fill_zeros(cells: &mut Cells<u8>, base: Base<u8>, from: usize, count: usize)
    requires base { base.ptr ≡ cells.old.at }
    requires within { from + count ≤ length cells.old.slots }
    requires small { length cells.old.slots < 2 ^ 63 }
    ensures at { cells.new.at ≡ cells.old.at }
    ensures places { length cells.new.slots ≡ length cells.old.slots }
    ensures filled { take (from + count) cells.new.slots
        ≡ take from cells.old.slots ++ replicate count (Some 0) }
{
    for i in 0..count {
        cells.write(base, from + i, 0);
    }
}

// Like [`fill_zeros`], by two stores of `width` places, which may overlap.
#[inline(always)]
#[tactic(auto, using(crate::proofs::Fronts::zeros_joined))]
fn fill_ends(cells: &mut Cells<u8>, base: Base<u8>, from: usize, count: usize, width: usize)
    requires base { base.ptr ≡ cells.old.at }
    requires within { from + count ≤ length cells.old.slots }
    requires small { length cells.old.slots < 2 ^ 63 }
    requires reach { (width ≤ count) × (count ≤ 2 * width) }
    ensures at { cells.new.at ≡ cells.old.at }
    ensures places { length cells.new.slots ≡ length cells.old.slots }
    ensures filled { take (from + count) cells.new.slots
        ≡ take from cells.old.slots ++ replicate count (Some 0) }
{
    fill_zeros(cells, base, from, width);
    fill_zeros(cells, base, from + (count - width), width);
}

// Like [`fill_zeros`], but sets fewer than 32 places by one or two stores, which cost less than a call of the C library.
#[inline(always)]
fn fill_range(cells: &mut Cells<u8>, base: Base<u8>, from: usize, count: usize)
    requires base { base.ptr ≡ cells.old.at }
    requires within { from + count ≤ length cells.old.slots }
    requires small { length cells.old.slots < 2 ^ 63 }
    ensures at { cells.new.at ≡ cells.old.at }
    ensures places { length cells.new.slots ≡ length cells.old.slots }
    ensures filled { take (from + count) cells.new.slots
        ≡ take from cells.old.slots ++ replicate count (Some 0) }
{
    match count {
        0 => (),
        1 => fill_zeros(cells, base, from, 1),
        2..=3 => fill_ends(cells, base, from, count, 2),
        4..=7 => fill_ends(cells, base, from, count, 4),
        8..=15 => fill_ends(cells, base, from, count, 8),
        16..=31 => fill_ends(cells, base, from, count, 16),
        _ => fill_zeros(cells, base, from, count),
    }
}

impl Buffer {
    ghost use Rattle.hip_raw.specs.BufferLends.{LendsBuffer};

    /// No bytes, with room for `capacity`.
    #[inline]
    pub(crate) fn with_capacity(alloc: Global, capacity: usize) -> Result<Self, AllocError>
        ensures items { IfOk result (λ made. made.items ≡ []) }
        ensures capacity { IfOk result (λ made. made.capacity ≡ capacity) }
    {
        if capacity > 0x7fff_ffff_ffff_ffff {
            return Err(AllocError);
        }
        let (base, cells, deed) = allocate(&alloc, capacity)?;
        Ok(Buffer {
            base,
            size: capacity,
            len: 0,
            cells,
            deed,
            alloc,
        })
    }

    /// `len` zeros, and no more room.
    #[inline]
    pub(crate) fn zeroed(alloc: Global, len: usize) -> Result<Self, AllocError>
        ensures items { IfOk result (λ made. made.items ≡ replicate len 0) }
        ensures capacity { IfOk result (λ made. made.capacity ≡ len) }
        ensures small { IfOk result (λ made. made.capacity < 2 ^ 63) }
    {
        let mut buffer = Buffer::with_capacity(alloc, len)?;
        // The call tells the proof the buffer's bound.
        let _small = buffer.capacity();
        buffer.add_zeros(0, len);
        Ok(buffer)
    }

    /// The number of bytes that it can hold without allocating.
    #[inline]
    pub(crate) fn capacity(&self) -> usize
        ensures capacity { result ≡ self.now.capacity }
        ensures fits { length self.now.items ≤ self.now.capacity }
        ensures small { result < 2 ^ 63 }
    {
        self.size
    }

    /// The bytes.
    #[inline]
    #[tactic(auto, using(crate::proofs::Fronts::fronts))]
    pub(crate) fn as_slice(&self) -> &[u8]
        ensures items { result.now ≡ self.now.items }
        ensures fits { length self.now.items ≤ self.now.capacity }
        ensures small { self.now.capacity < 2 ^ 63 }
    {
        self.cells.slice(self.base, 0, self.len)
    }

    /// The bytes, for writing.
    #[inline]
    #[tactic(auto, using(crate::proofs::Fronts::fronts))]
    pub(crate) fn as_mut_slice(&mut self) -> &mut [u8]
        ensures* writes_back { sem 𝓛 (LendsBuffer self.entry result) }
        ensures items { result.now ≡ self.old.items }
    {
        let base = self.base;
        let len = self.len;
        let cells = &mut self.cells;
        cells.slice_mut(base, 0, len)
    }

    /// Keeps the first `len` bytes, or all where there are fewer.
    #[inline]
    pub(crate) fn truncate(&mut self, len: usize)
        ensures items { self.new.items ≡ take len self.old.items }
        ensures capacity { self.new.capacity ≡ self.old.capacity }
    {
        if len < self.len {
            self.len = len;
        }
    }

    // Cuts to `keep` bytes and adds `count` zeros.
    #[inline(always)]
    #[tactic(auto, using(crate::proofs::Fronts::fronts))]
    fn add_zeros(&mut self, keep: usize, count: usize)
        requires there { keep ≤ length self.old.items }
        requires fits { keep + count ≤ self.old.capacity }
        ensures items { self.new.items ≡ take keep self.old.items ++ replicate count 0 }
        ensures capacity { self.new.capacity ≡ self.old.capacity }
    {
        let base = self.base;
        let cells = &mut self.cells;
        fill_range(cells, base, keep, count);
        self.len = keep + count;
    }

    // Cuts to `keep` bytes and puts the addition behind them, for which there is room. The places that it takes are set to zero first.
    #[inline(always)]
    pub(crate) fn put(&mut self, keep: usize, addition: &[u8], meter: &mut Meter)
        requires there { keep ≤ length self.old.items }
        requires fits { keep + length addition.now ≤ self.old.capacity }
        ensures items { self.new.items ≡ take keep self.old.items ++ addition.now }
        ensures capacity { self.new.capacity ≡ self.old.capacity }
        ensures counted { RisesAtMost meter.old meter.new (length addition.now) }
        ensures copied { RisesAtLeast meter.old meter.new (length addition.now) }
    {
        self.add_zeros(keep, addition.len());
        fill_at(self.as_mut_slice(), keep, addition, meter);
    }

    /// Puts these bytes, for which there is room, in place of all. Only places past the list are set to zero first.
    #[inline]
    pub(crate) fn rewrite(&mut self, bytes: &[u8], meter: &mut Meter)
        requires { length bytes.now ≤ self.old.capacity }
        ensures items { self.new.items ≡ bytes.now }
        ensures capacity { self.new.capacity ≡ self.old.capacity }
        ensures counted { RisesAtMost meter.old meter.new (length bytes.now) }
        ensures copied { RisesAtLeast meter.old meter.new (length bytes.now) }
    {
        let len = self.len;
        if len < bytes.len() {
            self.add_zeros(len, bytes.len() - len);
        } else {
            self.truncate(bytes.len());
        }
        fill_counted(self.as_mut_slice(), bytes, meter);
    }

    /// Cuts to `keep` bytes and puts the addition behind them. Room is reserved before anything changes.
    #[inline(always)]
    pub(crate) fn append(
        &mut self,
        alloc: Global,
        keep: usize,
        addition: &[u8],
        meter: &mut Meter,
    ) -> Appended
        requires { keep ≤ length self.old.items }
        ensures items { OnDone result (self.new.items ≡ take keep self.old.items ++ addition.now) }
        ensures capacity { self.old.capacity ≤ self.new.capacity }
        ensures fits { length self.new.items ≤ self.new.capacity }
        ensures small { self.new.capacity < 2 ^ 63 }
        ensures counted { RisesAtMost meter.old meter.new (length addition.now + keep) }
        ensures exact { OnDone result
            (RisesBy meter.old meter.new (append_copies self.old.capacity keep (length addition.now))) }
        ensures potential { OnDone result (meter.new + pot (length self.new.items) self.new.capacity
            ≤ meter.old + pot keep self.old.capacity + 3 * length addition.now) }
        ensures unshared { OnShared result ⊥ }
        ensures memory { OnMemory result (self.old.capacity < keep + length addition.now) }
        ensures refused { OnRefused result (self.new ≡ self.old) }
        ensures refused_copies_nothing { OnRefused result (meter.new ≡ meter.old) }
    {
        if addition.len() <= self.capacity() - keep {
            self.put(keep, addition, meter);
            return Appended::Done;
        }
        let mut apart = Meter::new();
        let answer = self.append_grown(alloc, keep, addition, &mut apart);
        meter.add(&apart);
        answer
    }

    // Like [`Buffer::append`], where memory has to be allocated: room for twice the bytes that it then holds.
    #[cold]
    #[inline(never)]
    fn append_grown(
        &mut self,
        alloc: Global,
        keep: usize,
        addition: &[u8],
        meter: &mut Meter,
    ) -> Appended
        requires there { keep ≤ length self.old.items }
        requires full { self.old.capacity < keep + length addition.now }
        ensures items { OnDone result (self.new.items ≡ take keep self.old.items ++ addition.now) }
        ensures potential { OnDone result (meter.new + pot (length self.new.items) self.new.capacity
            ≤ meter.old + pot keep self.old.capacity + 3 * length addition.now) }
        ensures capacity { OnDone result (self.new.capacity ≡ 2 * (keep + length addition.now)) }
        ensures small { self.new.capacity < 2 ^ 63 }
        ensures counted { RisesAtMost meter.old meter.new (length addition.now + keep) }
        ensures exact { OnDone result (RisesBy meter.old meter.new (keep + length addition.now)) }
        ensures unshared { OnShared result ⊥ }
        ensures refused { OnRefused result (self.new ≡ self.old) }
        ensures refused_copies_nothing { OnRefused result (meter.new ≡ meter.old) }
    {
        let _small = self.capacity();
        let Some(len) = keep.checked_add(addition.len()) else {
            return Appended::Memory;
        };
        let Some(capacity) = len.checked_mul(2) else {
            return Appended::Memory;
        };
        let Ok(mut made) = Buffer::with_capacity(alloc, capacity) else {
            return Appended::Memory;
        };
        made.put(0, &self.as_slice()[..keep], meter);
        made.put(keep, addition, meter);
        *self = made;
        Appended::Done
    }
}

impl Room for Buffer {
    ghost use Rattle.std.proofs.Common.{rules};
    ghost use Rattle.std.proofs.lemmas.Grind.{common_steps};
    ghost use Rattle.hip_raw.specs.BufferLends.{written_over};

    ghost items = { λ buffer. buffer.items };

    ghost capacity = { λ buffer. buffer.capacity };

    ghost with_items = { λ buffer bytes. written_over buffer bytes };

    ghost written = { λ room bytes same. Prim.grind (rules, common_steps) };

    ghost keeps_length = { λ room bytes. Prim.grind (rules, common_steps) };

    ghost keeps_capacity = { λ room bytes. refl };

    #[inline]
    fn as_mut_slice(&mut self) -> &mut [u8] {
        self.as_mut_slice()
    }

    #[inline]
    fn truncate(&mut self, len: usize) {
        self.truncate(len);
    }
}

impl Drop for Buffer {
    #[inline]
    fn drop(self) {
        let Buffer {
            base,
            size,
            len: _,
            cells,
            deed,
            alloc,
        } = self;
        deallocate(&alloc, base, size, cells, deed);
    }
}
