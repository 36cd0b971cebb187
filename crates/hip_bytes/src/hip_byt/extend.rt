//! Bytes and characters that an iterator gives.
ghost use Rattle.std.specs.Prelude.{◌≡◌, ◌≤◌, ◌<◌, ◌+◌, ◌-◌, ◌^◌, [], IsUtf8, nat_le, length, IfOk, OnErr, OnOk};
ghost use Rattle.std.specs.Char.{encode_utf8};
ghost use Rattle.std.specs.Iterator.{IsFinite};
ghost use Rattle.std.specs.List.{join_by};
ghost use Rattle.hip_raw.specs.Meter.{RisesAtLeast, RisesAtMost};
ghost use Rattle.hip_bytes.specs.Join.{one_byte, GivesAll, GivesFirst};
ghost use Rattle.hip_bytes.specs.Made.{ExtendAnswers, ExtendCosts, GatherAnswers, GatherCosts};
ghost use Rattle.hip_bytes.specs.declared.kind.TheConstants.{INLINE_CAPACITY};

use super::HipByt;
use crate::gathering::Gathering;
use crate::grow_fault::GrowFault;
use hip_raw::{Backend, Meter};
use std::alloc::Global;

impl<'b, B: Backend> HipByt<'b, B> {
    /// The bytes that an iterator gives. They have to come to an end.
    pub fn from_bytes<I: IntoIterator<Item = u8>>(
        alloc: Global,
        bytes: I,
    ) -> Result<Self, GrowFault>
        requires { (it : I.IntoIter) → I.into_iter_gives bytes it
            → I.IntoIter.can_next it × IsFinite (I.IntoIter.remaining it) }
        ensures made { GatherAnswers one_byte I.into_iter_gives I.IntoIter.next_gives
            bytes [] result }
    {
        Self::from_bytes_metered(alloc, bytes, &mut Meter::new())
    }

    /// [`HipByt::from_bytes`], counted.
    pub fn from_bytes_metered<I: IntoIterator<Item = u8>>(
        alloc: Global,
        bytes: I,
        meter: &mut Meter,
    ) -> Result<Self, GrowFault>
        requires { (it : I.IntoIter) → I.into_iter_gives bytes it
            → I.IntoIter.can_next it × IsFinite (I.IntoIter.remaining it) }
        ensures made { GatherAnswers one_byte I.into_iter_gives I.IntoIter.next_gives
            bytes [] result }
        ensures counted { GatherCosts B.SHARES one_byte I.into_iter_gives I.IntoIter.next_gives
            bytes [] result meter.old meter.new }
    {
        Self::join_pieces_metered(alloc, bytes, &[], meter)
    }

    /// Adds the bytes that an iterator gives at the end. A refused call changes nothing.
    pub fn extend_bytes<I: IntoIterator<Item = u8>>(
        &mut self,
        alloc: Global,
        bytes: I,
    ) -> Result<(), GrowFault>
        requires { (it : I.IntoIter) → I.into_iter_gives bytes it
            → I.IntoIter.can_next it × IsFinite (I.IntoIter.remaining it) }
        ensures extended { ExtendAnswers B.SHARES one_byte I.into_iter_gives
            I.IntoIter.next_gives bytes self.old result self.new }
    {
        self.extend_bytes_metered(alloc, bytes, &mut Meter::new())
    }

    /// [`HipByt::extend_bytes`], counted.
    #[tactic(auto, using(crate::proofs::Extends::extends))]
    pub fn extend_bytes_metered<I: IntoIterator<Item = u8>>(
        &mut self,
        alloc: Global,
        bytes: I,
        meter: &mut Meter,
    ) -> Result<(), GrowFault>
        requires { (it : I.IntoIter) → I.into_iter_gives bytes it
            → I.IntoIter.can_next it × IsFinite (I.IntoIter.remaining it) }
        ensures extended { ExtendAnswers B.SHARES one_byte I.into_iter_gives
            I.IntoIter.next_gives bytes self.old result self.new }
        ensures counted { ExtendCosts B.SHARES one_byte I.into_iter_gives
            I.IntoIter.next_gives bytes self.old meter.old meter.new }
        ensures copied { OnOk result (RisesAtLeast meter.old meter.new
            (length self.new.items - length self.old.items)) }
    {
        let addition = Self::from_bytes_metered(alloc, bytes, meter)?;
        Ok(self.push_slice_metered(alloc, addition.as_slice(), meter)?)
    }

    /// The UTF-8 of the characters that an iterator gives, counted. They have to come to an end.
    pub fn from_chars_metered<I: IntoIterator<Item = char>>(
        alloc: Global,
        chars: I,
        meter: &mut Meter,
    ) -> Result<Self, GrowFault>
        requires { (it : I.IntoIter) → I.into_iter_gives chars it
            → I.IntoIter.can_next it × IsFinite (I.IntoIter.remaining it) }
        ensures made { GatherAnswers encode_utf8 I.into_iter_gives I.IntoIter.next_gives
            chars [] result }
        ensures utf8 { IfOk result (λ made. IsUtf8 made.items) }
        ensures counted { GatherCosts B.SHARES encode_utf8 I.into_iter_gives
            I.IntoIter.next_gives chars [] result meter.old meter.new }
    {
        let mut apart = Meter::new();
        let made = spelled(alloc, chars, &mut apart);
        meter.add(&apart);
        Ok(made?.finish(alloc, meter)?)
    }
}

/// The UTF-8 of the characters, gathered.
fn spelled<I: IntoIterator<Item = char>>(
    alloc: Global,
    chars: I,
    meter: &mut Meter,
) -> Result<Gathering, GrowFault>
    requires { (it : I.IntoIter) → I.into_iter_gives chars it
        → I.IntoIter.can_next it × IsFinite (I.IntoIter.remaining it) }
    ensures items { IfOk result
        (λ made. GivesAll I.into_iter_gives I.IntoIter.next_gives chars
        (λ cs. made.items ≡ join_by encode_utf8 [] cs)) }
    ensures utf8 { IfOk result (λ made. IsUtf8 made.items) }
    ensures place { IfOk result
        (λ made. made.in_handle ≡ nat_le (length made.items) INLINE_CAPACITY) }
    ensures too_long { result ≡ Err GrowFault.TooLong
        → GivesFirst I.into_iter_gives I.IntoIter.next_gives chars
        (λ cs. 2 ^ 64 ≤ length (join_by encode_utf8 [] cs)) }
    ensures memory { result ≡ Err GrowFault.Memory
        → GivesFirst I.into_iter_gives I.IntoIter.next_gives chars
        (λ cs. INLINE_CAPACITY < length (join_by encode_utf8 [] cs)) }
    ensures counted { IfOk result
        (λ made. RisesAtMost meter.old meter.new (length made.items + INLINE_CAPACITY)) }
    ensures copied { IfOk result (λ made. RisesAtLeast meter.old meter.new (length made.items)) }
    ensures refused_counts { OnErr result
        (GivesFirst I.into_iter_gives I.IntoIter.next_gives chars
        (λ cs. RisesAtMost meter.old meter.new
        (length (join_by encode_utf8 [] cs) + INLINE_CAPACITY))) }
{
    let mut made = Gathering::new();
    for c in chars {
        let mut room = [0; 4];
        let spelling = c.encode_utf8(&mut room).as_bytes();
        if let Err(fault) = made.add_behind(alloc, &[], spelling, meter) {
            return Err(fault);
        }
    }
    Ok(made)
}
