//! A list of bytes that is being made of others.
ghost use Rattle.std.specs.Prelude.{◌≡◌, ◌≤◌, ◌<◌, ◌+◌, ◌^◌, ◌&&◌, true, false, [], ◌++◌, nat_le, length, take, IfOk, OnOk, OnErr};
ghost use Rattle.hip_raw.specs.Meter.{RisesAtLeast, RisesAtMost, unless_shared};
ghost use Rattle.hip_bytes.specs.Kinds.{by_length, HasCapacity};
ghost use Rattle.hip_bytes.specs.Change.{PushAnswers};
ghost use Rattle.hip_bytes.specs.Cost.{push_cost};
ghost use Rattle.hip_bytes.specs.Gathering.{spill_cost};
ghost use Rattle.hip_bytes.specs.declared.kind.TheConstants.{INLINE_CAPACITY};

use crate::grow_fault::GrowFault;
use crate::hip_byt::HipByt;
use crate::kind::INLINE_CAPACITY;
use hip_raw::{Backend, Filling, Inline, Meter};
use std::alloc::{AllocError, Global};
use std::marker::Model;
use std::mem;

/// Where the bytes lie so far.
#[derive(Drop)]
enum Place {
    /// Where a handle would have them in itself.
    Handle(Inline<INLINE_CAPACITY, u8>),
    /// In a vector.
    Vector(Filling),
}

/// Bytes that become a handle by length: in the handle itself as long as they fit it.
#[derive(Drop)]
pub(crate) struct Gathering {
    place: Place,
}

impl Model for Gathering {
    ghost use Rattle.hip_bytes.specs.Gathering.{Gathered};

    ghost Value = { Gathered };

    ghost use Rattle.hip_bytes.specs.Gathering.{gathered_in};

    ghost view = { λ g. gathered_in g.place };
}

impl Gathering {
    /// No bytes.
    #[inline]
    pub(crate) fn new() -> Self
        ensures items { result.items ≡ [] }
        ensures room { result.room ≡ INLINE_CAPACITY }
        ensures place { result.in_handle ≡ true }
    {
        Gathering {
            place: Place::Handle(Inline::empty()),
        }
    }

    /// Bytes that fit the handle itself.
    #[inline]
    pub(crate) fn in_handle(inline: Inline<INLINE_CAPACITY, u8>) -> Self
        ensures items { result.items ≡ inline }
        ensures place { result.in_handle ≡ true }
    {
        Gathering {
            place: Place::Handle(inline),
        }
    }

    /// Bytes in a vector.
    #[inline]
    pub(crate) fn in_vector(filling: Filling) -> Self
        ensures items { result.items ≡ filling.items }
        ensures place { result.in_handle ≡ false }
    {
        Gathering {
            place: Place::Vector(filling),
        }
    }

    /// No bytes, with room for `len`.
    #[inline]
    pub(crate) fn with_room(alloc: Global, len: usize) -> Result<Self, AllocError>
        ensures items { IfOk result (λ made. made.items ≡ []) }
        ensures room { IfOk result (λ made. len ≤ made.room) }
        ensures place { IfOk result (λ made. made.in_handle ≡ nat_le len INLINE_CAPACITY) }
        ensures memory { OnErr result (INLINE_CAPACITY < len) }
    {
        if len <= INLINE_CAPACITY {
            return Ok(Self::new());
        }
        Ok(Gathering {
            place: Place::Vector(Filling::with_capacity(alloc, len)?),
        })
    }

    /// Adds a gap and bytes at the end. A refused call changes nothing.
    #[inline(always)]
    pub(crate) fn add_behind(
        &mut self,
        alloc: Global,
        gap: &[u8],
        bytes: &[u8],
        meter: &mut Meter,
    ) -> Result<(), GrowFault>
        ensures items { OnOk result (self.new.items ≡ (self.old.items ++ gap.now) ++ bytes.now) }
        ensures place { OnOk result
            (self.new.in_handle
            ≡ (self.old.in_handle && nat_le (length self.new.items) INLINE_CAPACITY)) }
        ensures too_long { result ≡ Err GrowFault.TooLong
            → 2 ^ 64 ≤ length self.old.items + length gap.now + length bytes.now }
        ensures memory { result ≡ Err GrowFault.Memory → self.old.in_handle ≡ true
            → INLINE_CAPACITY < length self.old.items + length gap.now + length bytes.now }
        ensures counted { OnOk result
            (RisesAtMost meter.old meter.new
            (length gap.now + length bytes.now
            + spill_cost self.old.in_handle self.new.in_handle)) }
        ensures copied { OnOk result
            (RisesAtLeast meter.old meter.new (length gap.now + length bytes.now)) }
        ensures refused_copies_nothing { OnErr result (meter.new ≡ meter.old) }
        ensures err { OnErr result (self.new ≡ self.old) }
    {
        let Some(more) = gap.len().checked_add(bytes.len()) else {
            return Err(GrowFault::TooLong);
        };
        match &mut self.place {
            Place::Handle(inline) if more <= INLINE_CAPACITY - inline.len() => {
                inline.push_slice_unchecked_metered(gap, meter);
                inline.push_slice_unchecked_metered(bytes, meter);
            }
            Place::Handle(inline) => {
                // A call that isn't inlined keeps in memory what it is lent, so it gets a meter of its own, and a list that is moved here.
                let mut apart = Meter::new();
                let front = mem::replace(inline, Inline::empty());
                match spilled(alloc, &front, gap, bytes, &mut apart) {
                    Ok(filling) => {
                        meter.add(&apart);
                        self.place = Place::Vector(filling);
                    }
                    Err(fault) => {
                        *inline = front;
                        return Err(fault);
                    }
                }
            }
            Place::Vector(filling) => {
                if filling.len().checked_add(more).is_none() {
                    return Err(GrowFault::TooLong);
                }
                filling.push_behind(gap, bytes, meter)?;
            }
        }
        Ok(())
    }

    /// Adds bytes at the end, for which there is room.
    #[inline]
    pub(crate) fn add_within(&mut self, bytes: &[u8], meter: &mut Meter)
        requires { length self.old.items + length bytes.now ≤ self.old.room }
        ensures items { self.new.items ≡ self.old.items ++ bytes.now }
        ensures room { self.old.room ≤ self.new.room }
        ensures place { self.new.in_handle ≡ self.old.in_handle }
        ensures counted { RisesAtMost meter.old meter.new (length bytes.now) }
        ensures copied { RisesAtLeast meter.old meter.new (length bytes.now) }
    {
        match &mut self.place {
            Place::Handle(inline) => inline.push_slice_unchecked_metered(bytes, meter),
            Place::Vector(filling) => filling.push_slice_within(bytes, meter),
        }
    }

    /// Adds the first `count` bytes again, for which there is room.
    #[inline]
    pub(crate) fn add_front_within(&mut self, count: usize, meter: &mut Meter)
        requires there { count ≤ length self.old.items }
        requires fits { length self.old.items + count ≤ self.old.room }
        ensures items { self.new.items ≡ self.old.items ++ take count self.old.items }
        ensures room { self.old.room ≤ self.new.room }
        ensures place { self.new.in_handle ≡ self.old.in_handle }
        ensures counted { RisesAtMost meter.old meter.new count }
        ensures copied { RisesAtLeast meter.old meter.new count }
    {
        match &mut self.place {
            Place::Handle(inline) => inline.push_front_unchecked_metered(count, meter),
            Place::Vector(filling) => filling.push_front_within(count, meter),
        }
    }

    /// Adds all bytes at the end of a handle.
    #[inline]
    pub(crate) fn push_on<'b, B: Backend>(
        self,
        handle: &mut HipByt<'b, B>,
        alloc: Global,
        meter: &mut Meter,
    ) -> Result<(), AllocError>
        ensures push { PushAnswers B.SHARES handle.old self.items result handle.new }
        ensures counted { RisesAtMost meter.old meter.new
            (push_cost B.SHARES (length handle.old.items) (length self.items)) }
        ensures copied { OnOk result (RisesAtLeast meter.old meter.new (length self.items)) }
    {
        match self.place {
            Place::Handle(inline) => handle.push_slice_metered(alloc, inline.as_slice(), meter),
            Place::Vector(filling) => {
                handle.push_slice_metered(alloc, filling.into_vec().as_slice(), meter)
            }
        }
    }

    /// The handle of all bytes.
    #[inline]
    pub(crate) fn finish<'b, B: Backend>(
        self,
        alloc: Global,
        meter: &mut Meter,
    ) -> Result<HipByt<'b, B>, AllocError>
        requires { self.in_handle ≡ nat_le (length self.items) INLINE_CAPACITY }
        ensures items { IfOk result (λ handle. handle.items ≡ self.items) }
        ensures kind { IfOk result (λ handle. handle.kind ≡ by_length (length self.items)) }
        ensures capacity { IfOk result
            (λ handle. HasCapacity handle.kind (length self.items) handle.capacity) }
        ensures memory { OnErr result (INLINE_CAPACITY < length self.items) }
        ensures counted { RisesAtMost meter.old meter.new
            (unless_shared B.SHARES (length self.items)) }
    {
        match self.place {
            Place::Handle(inline) => Ok(HipByt::from_inline(inline)),
            Place::Vector(filling) => match HipByt::from_vec_metered(
                alloc,
                filling.into_vec(),
                meter,
            ) {
                Ok(handle) => Ok(handle),
                Err(_) => Err(AllocError),
            },
        }
    }
}

// A vector of the bytes of a handle, a gap and the bytes behind it.
#[cold]
#[inline(never)]
fn spilled(
    alloc: Global,
    inline: &Inline<INLINE_CAPACITY, u8>,
    gap: &[u8],
    bytes: &[u8],
    meter: &mut Meter,
) -> Result<Filling, GrowFault>
    requires { length gap.now + length bytes.now < 2 ^ 64 }
    ensures items { IfOk result (λ filling. filling.items ≡ (inline.now ++ gap.now) ++ bytes.now) }
    ensures too_long { result ≡ Err GrowFault.TooLong
        → 2 ^ 64 ≤ length inline.now + length gap.now + length bytes.now }
    ensures counted { OnOk result
        (RisesAtMost meter.old meter.new (length inline.now + length gap.now + length bytes.now)) }
    ensures copied { OnOk result
        (RisesAtLeast meter.old meter.new (length gap.now + length bytes.now)) }
    ensures refused_copies_nothing { OnErr result (meter.new ≡ meter.old) }
{
    let more = gap.len() + bytes.len();
    let Some(len) = inline.len().checked_add(more) else {
        return Err(GrowFault::TooLong);
    };
    let mut filling = Filling::with_capacity(alloc, len)?;
    filling.push_slice_within(inline.as_slice(), meter);
    filling.push_behind_within(gap, bytes, meter);
    Ok(filling)
}
