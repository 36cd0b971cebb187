//! Bytes that gather in a vector.
ghost use Rattle.std.specs.Prelude.{◌≡◌, ◌+◌, ◌^◌, ◌<◌, ◌≤◌, ◌++◌, [], length, take, vec_len, vec_capacity, IfOk, OnOk, OnErr};
ghost use Rattle.hip_raw.specs.Meter.{RisesAtLeast, RisesAtMost, count_from};

use crate::meter::{Meter, fill_at, fill_counted};
use std::alloc::{AllocError, Global};
use std::marker::Model;
use std::mem;

/// The number of bytes that a long addition copies at a time.
const STRIDE: usize = 4096;

/// The number of bytes that are made ready beyond what a short part needs. It is small, so that short parts find them in the
/// first cache.
const AHEAD: usize = 1024;

/// A vector that is filled from its front. Room is made of zeros, a stretch at a time, so that many small parts cost one copy each
/// and the zeros are still at hand when they are filled.
#[derive(Drop)]
pub struct Filling {
    vec: Vec<u8>,
    len: usize,
}

impl Model for Filling {
    ghost use Rattle.std.specs.Prelude.{◌≤◌, take, vec_len, vec_capacity};
    ghost use Rattle.hip_raw.specs.Held.{Held};

    ghost Value = { Held };

    ghost view = { λ f. record { items = take f.len f.vec.items; capacity = vec_capacity f.vec } };

    ghost invariant = { λ f. f.len ≤ vec_len f.vec };
}

impl Filling {
    /// No bytes, and no room yet.
    #[inline]
    pub fn new(alloc: Global) -> Self
        ensures { result.items ≡ [] }
    {
        Filling {
            vec: Vec::new(alloc),
            len: 0,
        }
    }

    /// No bytes, with room for `capacity`.
    #[inline]
    pub fn with_capacity(alloc: Global, capacity: usize) -> Result<Self, AllocError>
        ensures items { IfOk result (λ made. made.items ≡ []) }
        ensures capacity { IfOk result (λ made. capacity ≤ made.capacity) }
    {
        Ok(Filling {
            vec: Vec::with_capacity(alloc, capacity)?,
            len: 0,
        })
    }

    /// The number of bytes.
    #[inline]
    pub fn len(&self) -> usize
        ensures len { result ≡ length self.now.items }
        ensures fits { length self.now.items ≤ self.now.capacity }
    {
        self.len
    }

    /// The number of bytes that it can hold without allocating.
    #[inline]
    pub fn capacity(&self) -> usize
        ensures capacity { result ≡ self.now.capacity }
        ensures fits { length self.now.items ≤ self.now.capacity }
    {
        self.vec.capacity()
    }

    /// Adds a gap and bytes behind it, for both of which there is room.
    #[inline(always)]
    pub fn push_behind_within(&mut self, gap: &[u8], bytes: &[u8], meter: &mut Meter)
        requires { length self.old.items + length gap.now + length bytes.now ≤ self.old.capacity }
        ensures items { self.new.items ≡ (self.old.items ++ gap.now) ++ bytes.now }
        ensures capacity { self.old.capacity ≤ self.new.capacity }
        ensures counted { RisesAtMost meter.old meter.new (length gap.now + length bytes.now) }
        ensures copied { RisesAtLeast meter.old meter.new (length gap.now + length bytes.now) }
    {
        let end = self.len + gap.len() + bytes.len();
        if self.vec.len() < end {
            open(&mut self.vec, end);
        }
        let room = self.vec.as_mut_slice();
        let middle = fill_at(room, self.len, gap, meter);
        self.len = fill_at(room, middle, bytes, meter);
    }

    /// Adds a gap and bytes behind it. A refused call changes nothing.
    #[inline(always)]
    pub fn push_behind(
        &mut self,
        gap: &[u8],
        bytes: &[u8],
        meter: &mut Meter,
    ) -> Result<(), AllocError>
        requires { length gap.now + length bytes.now < 2 ^ 64 }
        ensures items { OnOk result (self.new.items ≡ (self.old.items ++ gap.now) ++ bytes.now) }
        ensures capacity { self.old.capacity ≤ self.new.capacity }
        ensures counted { RisesAtMost meter.old meter.new (length gap.now + length bytes.now) }
        ensures copied { OnOk result
            (RisesAtLeast meter.old meter.new (length gap.now + length bytes.now)) }
        ensures memory { OnErr result
            (self.old.capacity < length self.old.items + length gap.now + length bytes.now) }
        ensures err { OnErr result (self.new ≡ self.old) }
        ensures refused_copies_nothing { OnErr result (meter.new ≡ meter.old) }
    {
        let additional = gap.len() + bytes.len();
        if self.vec.capacity() - self.len < additional {
            reserve(&mut self.vec, self.len, additional)?;
        }
        self.push_behind_within(gap, bytes, meter);
        Ok(())
    }

    /// Adds bytes, for which there is room.
    #[inline(always)]
    pub fn push_slice_within(&mut self, addition: &[u8], meter: &mut Meter)
        requires { length self.old.items + length addition.now ≤ self.old.capacity }
        ensures items { self.new.items ≡ self.old.items ++ addition.now }
        ensures capacity { self.old.capacity ≤ self.new.capacity }
        ensures counted { RisesAtMost meter.old meter.new (length addition.now) }
        ensures copied { RisesAtLeast meter.old meter.new (length addition.now) }
    {
        self.push_behind_within(&[], addition, meter);
    }

    /// Adds bytes, a stretch at a time, so that the zeros of new room are still at hand when they are filled. A refused call changes
    /// nothing.
    pub fn push_slice(&mut self, addition: &[u8], meter: &mut Meter) -> Result<(), AllocError>
        ensures items { OnOk result (self.new.items ≡ self.old.items ++ addition.now) }
        ensures capacity { self.old.capacity ≤ self.new.capacity }
        ensures counted { RisesAtMost meter.old meter.new (length addition.now) }
        ensures memory { OnErr result
            (self.old.capacity < length self.old.items + length addition.now) }
        ensures err { OnErr result (self.new ≡ self.old) }
        ensures refused_copies_nothing { OnErr result (meter.new ≡ meter.old) }
    {
        if self.vec.capacity() - self.len < addition.len() {
            reserve(&mut self.vec, self.len, addition.len())?;
        }
        let mut done = 0;
        while done < addition.len() {
            let end = addition.len().min(done.saturating_add(STRIDE));
            self.push_slice_within(&addition[done..end], meter);
            done = end;
        }
        Ok(())
    }

    /// Adds the first `count` bytes again, for which there is room.
    #[inline]
    pub fn push_front_within(&mut self, count: usize, meter: &mut Meter)
        requires there { count ≤ length self.old.items }
        requires fits { length self.old.items + count ≤ self.old.capacity }
        ensures items { self.new.items ≡ self.old.items ++ take count self.old.items }
        ensures capacity { self.old.capacity ≤ self.new.capacity }
        ensures counted { RisesAtMost meter.old meter.new count }
        ensures copied { RisesAtLeast meter.old meter.new count }
    {
        let start = self.len;
        let end = start + count;
        if self.vec.len() < end {
            open(&mut self.vec, end);
        }
        repeat_front(self.vec.as_mut_slice(), start, count, meter);
        self.len = end;
    }

    /// The bytes in a vector.
    #[inline]
    pub fn into_vec(self) -> Vec<u8>
        ensures { result.items ≡ self.items }
    {
        let Filling { mut vec, len } = self;
        vec.truncate(len);
        vec
    }
}

// Copies the first `count` bytes once more, behind the first `start`.
#[inline(always)]
fn repeat_front(room: &mut [u8], start: usize, count: usize, meter: &mut Meter)
    requires there { count ≤ start }
    requires fits { start + count ≤ length room.old }
    ensures items { take (start + count) room.new ≡ take start room.old ++ take count room.old }
    ensures len { length room.new ≡ length room.old }
    ensures counted { RisesAtMost meter.old meter.new count }
    ensures exact { meter.new ≡ count_from meter.old count }
{
    let (front, back) = room.split_at_mut(start);
    fill_counted(&mut back[..count], &front[..count], meter);
}

// Makes room ready up to `end`. The vector goes to the call by value, since what is lent to one that isn't inlined lies in memory.
#[inline(always)]
fn open(vec: &mut Vec<u8>, end: usize)
    requires grows { vec_len vec.old < end }
    requires fits { end ≤ vec_capacity vec.old }
    ensures kept { take (vec_len vec.old) vec.new.items ≡ vec.old.items }
    ensures ready { end ≤ vec_len vec.new }
    ensures capacity { vec_capacity vec.old ≤ vec_capacity vec.new }
{
    let empty = Vec::new(*vec.allocator());
    *vec = opened(mem::replace(vec, empty), end);
}

// Makes room up to `end`, and `AHEAD` on, or a stretch where a longer part asks for it, as far as the vector's room goes.
#[cold]
#[inline(never)]
fn opened(mut vec: Vec<u8>, end: usize) -> Vec<u8>
    requires grows { vec_len vec < end }
    requires fits { end ≤ vec_capacity vec }
    ensures kept { take (vec_len vec) result.items ≡ vec.items }
    ensures ready { end ≤ vec_len result }
    ensures capacity { vec_capacity vec ≤ vec_capacity result }
{
    let ahead = if end - vec.len() <= AHEAD {
        AHEAD
    } else {
        STRIDE
    };
    let most = end.saturating_add(ahead).min(vec.capacity());
    vec.resize(most, 0).unwrap();
    vec
}

// Reserves room for `additional` bytes behind the first `len`. The bytes that stood there are dropped.
#[cold]
#[inline(never)]
fn reserve(vec: &mut Vec<u8>, len: usize, additional: usize) -> Result<(), AllocError>
    requires { len ≤ vec_len vec.old }
    ensures items { vec.new.items ≡ take len vec.old.items }
    ensures room { OnOk result (len + additional ≤ vec_capacity vec.new) }
    ensures capacity { vec_capacity vec.old ≤ vec_capacity vec.new }
    ensures err { OnErr result (vec_capacity vec.new ≡ vec_capacity vec.old) }
    ensures memory { OnErr result (vec_capacity vec.old < len + additional) }
{
    vec.truncate(len);
    vec.try_reserve(additional)
}
