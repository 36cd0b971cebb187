//! Bytes that gather in an owner.
ghost use Rattle.std.specs.Prelude.{◌≡◌, ◌+◌, ◌^◌, ◌<◌, ◌≤◌, ◌++◌, false, [], length, take, IfOk, OnErr};
ghost use Rattle.hip_raw.specs.Meter.{RisesAtLeast, RisesAtMost, unless_shared};

use crate::allocated::Allocated;
use crate::backend::Backend;
use crate::meter::{Meter, fill_at};
use crate::room::Room;
use std::alloc::{AllocError, Global};
use std::marker::Model;

/// An owner that is filled from its front, where owners can't be shared. Like a [`Filling`](crate::Filling), but its bytes lie where they
/// stay: their number is known before, and that many zeros are made at once.
#[derive(Drop)]
pub struct OwnerFilling<B: Backend> {
    owner: B,
    len: usize,
}

impl<B: Backend> Model for OwnerFilling<B> {
    ghost use Rattle.std.specs.Prelude.{length, take};
    ghost use Rattle.hip_raw.specs.Allocated.{IsFilled};
    ghost use Rattle.hip_raw.specs.Held.{Held};

    ghost Value = { Held };

    ghost view = { λ f. record { items = take f.len (B.items f.owner); capacity = length (B.items f.owner) } };

    ghost invariant = { λ f. IsFilled B.SHARES (B.items f.owner) (B.capacity f.owner) f.len };
}

// Puts a gap and bytes behind the first `start` of a room.
#[inline(always)]
fn fill_room<S: Room>(
    sole: &mut S,
    start: usize,
    gap: &[u8],
    bytes: &[u8],
    meter: &mut Meter,
) -> usize
    requires fits { start + length gap.now + length bytes.now ≤ length (S.items sole.old) }
    requires bound { length (S.items sole.old) < 2 ^ 64 }
    ensures end { result ≡ start + length gap.now + length bytes.now }
    ensures items { take result (S.items sole.new)
        ≡ (take start (S.items sole.old) ++ gap.now) ++ bytes.now }
    ensures len { length (S.items sole.new) ≡ length (S.items sole.old) }
    ensures capacity { S.capacity sole.new ≡ S.capacity sole.old }
    ensures counted { RisesAtMost meter.old meter.new (length gap.now + length bytes.now) }
    ensures copied { RisesAtLeast meter.old meter.new (length gap.now + length bytes.now) }
{
    let room = sole.as_mut_slice();
    let middle = fill_at(room, start, gap, meter);
    fill_at(room, middle, bytes, meter)
}

impl<B: Backend> OwnerFilling<B> {
    /// No bytes, with room for `len`. It counts what the owner copies of a vector, for which [`Unique`](crate::Unique) needs none.
    #[inline]
    pub fn with_len(alloc: Global, len: usize, meter: &mut Meter) -> Result<Self, AllocError>
        requires { B.SHARES ≡ false }
        ensures items { IfOk result (λ made. made.items ≡ []) }
        ensures capacity { IfOk result (λ made. made.capacity ≡ len) }
        ensures counted { RisesAtMost meter.old meter.new len }
        ensures refused_copies_nothing { OnErr result (meter.new ≡ meter.old) }
    {
        let owner = B::zeroed(alloc, len, meter)?;
        Ok(OwnerFilling { owner, len: 0 })
    }

    /// Adds a gap and bytes behind it, for both of which there is room.
    #[inline(always)]
    pub fn push_behind_within(&mut self, gap: &[u8], bytes: &[u8], meter: &mut Meter)
        requires { length self.old.items + length gap.now + length bytes.now ≤ self.old.capacity }
        ensures items { self.new.items ≡ (self.old.items ++ gap.now) ++ bytes.now }
        ensures capacity { self.new.capacity ≡ self.old.capacity }
        ensures counted { RisesAtMost meter.old meter.new (length gap.now + length bytes.now) }
        ensures copied { RisesAtLeast meter.old meter.new (length gap.now + length bytes.now) }
    {
        let start = self.len;
        match self.owner.writable() {
            Some(sole) => self.len = fill_room(sole, start, gap, bytes, meter),
            None => unreachable!(),
        }
    }

    /// The bytes, which fill the owner.
    #[inline]
    pub fn into_allocated(self) -> Allocated<B>
        requires { length self.items ≡ self.capacity }
        ensures items { result.items ≡ self.items }
        ensures fits { length result.items ≤ result.capacity }
    {
        let OwnerFilling { owner, len } = self;
        Allocated::from_parts(owner, 0, len)
    }
}
