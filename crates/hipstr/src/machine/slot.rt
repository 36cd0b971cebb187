//! Calls on one slot, bytes or a text.
ghost use Rattle.std.specs.Prelude.{◌≡◌, ◌+◌, ◌++◌, ◌⊎◌, Err, None, true, false, if◌then◌else◌, length, map, max, slice_set};
ghost use Rattle.std.specs.Prelude.{IfErr, IfOk, OnOk, OnErr, is_none};
ghost use Rattle.std.specs.Char.{to_ascii_lowercase, to_ascii_uppercase};
ghost use Rattle.hip_bytes.specs.Change.{IsPushed, IsRewritten, IsShortened, ShrinkAnswers, WriteAnswers};
ghost use Rattle.hip_bytes.specs.Cost.{OwnNeedsMemory, PushIsPaid, PushNeedsMemory, WriteNeedsMemory};
ghost use Rattle.hip_bytes.specs.Cost.{lent_count, owned_cost, push_cost, shortened_cost, shrink_cost, write_cost};
ghost use Rattle.hip_bytes.specs.Made.{IsOwned};
ghost use Rattle.hip_bytes.specs.Meter.{RisesAtLeast, RisesAtMost};
ghost use Rattle.hipstr.specs.Slot.{state_of};
ghost use Rattle.hipstr.specs.Step.{SlotAnswers, SlotPops, addition_fault, end_fault, not_text_fault};
ghost use Rattle.hipstr.specs.Step.{SlotMutates, mutate_cost, set_fault, text_fault, unless};

use crate::command::{Answer, Reason};
use crate::pool::Slot;
use crate::text::text_of;
use hip_bytes::{Backend, Meter, RefMut, Source};
use hip_text::{HipStr, TextSource};
use std::alloc::{AllocError, Global};
use std::mem;

impl<'b, B: Backend> Slot<'b, B> {
    pub(super) fn push(
        &mut self,
        alloc: Global,
        addition: &[u8],
        meter: &mut Meter,
    ) -> Result<Answer, Reason>
        ensures push { let old = state_of self.old in
            SlotAnswers (addition_fault old addition.now)
            (PushNeedsMemory B.SHARES old.handle.kind old.handle.capacity
            (length old.handle.items) (length addition.now))
            old.is_text (λ new. IsPushed B.SHARES old.handle new addition.now)
            old result (state_of self.new) }
        ensures counted { RisesAtMost meter.old meter.new
            (unless (addition_fault (state_of self.old) addition.now)
            (push_cost B.SHARES (length (state_of self.old).handle.items) (length addition.now))) }
        ensures copied { OnOk result (RisesAtLeast meter.old meter.new (length addition.now)) }
        ensures paid { PushIsPaid B.SHARES (state_of self.old).handle (state_of self.new).handle
            (length addition.now) meter.old meter.new }
    {
        match self {
            Slot::Bytes(bytes) => bytes.push_slice_metered(alloc, addition, meter)?,
            Slot::Text(text) => {
                let addition = text_of(addition).ok_or(Reason::NotUtf8)?;
                text.push_str_metered(alloc, addition, meter)?;
            }
        }
        Ok(Answer::Done)
    }

    pub(super) fn pop(&mut self, meter: &mut Meter) -> Answer
        ensures pop { SlotPops (state_of self.old) result (state_of self.new) }
        ensures counted { RisesAtMost meter.old meter.new
            (shortened_cost (state_of self.old).handle.kind) }
    {
        let popped = match self {
            Slot::Bytes(bytes) => bytes.pop_metered(meter).map(Answer::Byte),
            Slot::Text(text) => text.pop_metered(meter).map(Answer::Char),
        };
        popped.unwrap_or(Answer::Nothing)
    }

    pub(super) fn truncate(&mut self, n: usize, meter: &mut Meter) -> Result<Answer, Reason>
        ensures shortened { let old = state_of self.old in
            SlotAnswers (end_fault old n) ⊥
            old.is_text (λ new. IsShortened old.handle new n)
            old result (state_of self.new) }
        ensures counted { RisesAtMost meter.old meter.new
            (unless (end_fault (state_of self.old) n)
            (shortened_cost (state_of self.old).handle.kind)) }
    {
        match self {
            Slot::Bytes(bytes) => bytes.truncate_metered(n, meter),
            Slot::Text(text) => {
                if n <= text.len() && !text.as_str().is_char_boundary(n) {
                    return Err(Reason::EndNotACharBoundary);
                }
                text.truncate_metered(n, meter);
            }
        }
        Ok(Answer::Done)
    }

    pub(super) fn clear(&mut self, meter: &mut Meter)
        ensures flag { (state_of self.new).is_text ≡ (state_of self.old).is_text }
        ensures shortened { IsShortened (state_of self.old).handle (state_of self.new).handle 0 }
        ensures counted { RisesAtMost meter.old meter.new
            (shortened_cost (state_of self.old).handle.kind) }
    {
        match self {
            Slot::Bytes(bytes) => bytes.clear_metered(meter),
            Slot::Text(text) => text.clear_metered(meter),
        }
    }

    pub(super) fn shrink(
        &mut self,
        alloc: Global,
        least: usize,
        meter: &mut Meter,
    ) -> Result<(), AllocError>
        ensures flag { (state_of self.new).is_text ≡ (state_of self.old).is_text }
        ensures shrink { ShrinkAnswers (state_of self.old).handle
            (max least (length (state_of self.old).handle.items)) result
            (state_of self.new).handle }
        ensures counted { RisesAtMost meter.old meter.new
            (shrink_cost B.SHARES (state_of self.old).handle.kind
            (length (state_of self.old).handle.items)) }
    {
        match self {
            Slot::Bytes(bytes) => bytes.shrink_to_metered(alloc, least, meter),
            Slot::Text(text) => text.shrink_to_metered(alloc, least, meter),
        }
    }

    pub(super) fn make_upper(&mut self, alloc: Global, meter: &mut Meter) -> Result<(), AllocError>
        ensures write { WriteAnswers B.SHARES (state_of self.old).handle
            (map to_ascii_uppercase (state_of self.old).handle.items) result
            (state_of self.new).handle }
        ensures flag { (state_of self.new).is_text ≡ (state_of self.old).is_text }
        ensures counted { RisesAtMost meter.old meter.new
            (write_cost B.SHARES (state_of self.old).handle.kind
            (length (state_of self.old).handle.items)) }
        ensures copied { OnOk result (RisesAtLeast meter.old meter.new
            (lent_count (state_of self.old).handle.kind
            (length (state_of self.old).handle.items))) }
    {
        match self {
            Slot::Bytes(bytes) => bytes.make_ascii_uppercase_metered(alloc, meter),
            Slot::Text(text) => text.make_ascii_uppercase_metered(alloc, meter),
        }
    }

    pub(super) fn make_lower(&mut self, alloc: Global, meter: &mut Meter) -> Result<(), AllocError>
        ensures write { WriteAnswers B.SHARES (state_of self.old).handle
            (map to_ascii_lowercase (state_of self.old).handle.items) result
            (state_of self.new).handle }
        ensures flag { (state_of self.new).is_text ≡ (state_of self.old).is_text }
        ensures counted { RisesAtMost meter.old meter.new
            (write_cost B.SHARES (state_of self.old).handle.kind
            (length (state_of self.old).handle.items)) }
        ensures copied { OnOk result (RisesAtLeast meter.old meter.new
            (lent_count (state_of self.old).handle.kind
            (length (state_of self.old).handle.items))) }
    {
        match self {
            Slot::Bytes(bytes) => bytes.make_ascii_lowercase_metered(alloc, meter),
            Slot::Text(text) => text.make_ascii_lowercase_metered(alloc, meter),
        }
    }

    pub(super) fn set(
        &mut self,
        alloc: Global,
        i: usize,
        byte: u8,
        meter: &mut Meter,
    ) -> Result<Answer, Reason>
        ensures set { let old = state_of self.old in
            SlotAnswers (set_fault old i)
            (WriteNeedsMemory B.SHARES old.handle.kind (length old.handle.items))
            false (λ new. IsRewritten B.SHARES old.handle new (slice_set old.handle.items i byte))
            old result (state_of self.new) }
        ensures counted { RisesAtMost meter.old meter.new
            (unless (set_fault (state_of self.old) i)
            (write_cost B.SHARES (state_of self.old).handle.kind
            (length (state_of self.old).handle.items))) }
        ensures copied { OnOk result (RisesAtLeast meter.old meter.new
            (lent_count (state_of self.old).handle.kind
            (length (state_of self.old).handle.items))) }
    {
        let Slot::Bytes(bytes) = self else {
            return Err(Reason::NotBytes);
        };
        if i >= bytes.len() {
            return Err(Reason::OutOfRange);
        }
        bytes.with_to_mut_slice_metered(alloc, |items| items[i] = byte, meter)?;
        Ok(Answer::Done)
    }

    pub(super) fn make_owned(&mut self, alloc: Global, meter: &mut Meter) -> Result<Answer, Reason>
        ensures owned { let old = state_of self.old in
            SlotAnswers None (OwnNeedsMemory old.handle.kind (length old.handle.items))
            old.is_text (IsOwned old.handle)
            old result (state_of self.new) }
        ensures counted { RisesAtMost meter.old meter.new
            (owned_cost B.SHARES (state_of self.old).handle.kind
            (length (state_of self.old).handle.items)) }
        ensures copied { OnOk result (RisesAtLeast meter.old meter.new
            (lent_count (state_of self.old).handle.kind
            (length (state_of self.old).handle.items))) }
    {
        let (slot, answer) = mem::replace(self, Slot::empty()).into_owned(alloc, meter);
        *self = slot;
        answer
    }

    /// The slot with bytes of its own, or as it was where memory is refused.
    #[inline]
    fn into_owned(self, alloc: Global, meter: &mut Meter) -> (Self, Result<Answer, Reason>)
        ensures owned { let old = state_of self.entry in
            SlotAnswers None (OwnNeedsMemory old.handle.kind (length old.handle.items))
            old.is_text (IsOwned old.handle)
            old result.1 (state_of result.0) }
        ensures counted { RisesAtMost meter.old meter.new
            (owned_cost B.SHARES (state_of self.entry).handle.kind
            (length (state_of self.entry).handle.items)) }
        ensures copied { OnOk result.1 (RisesAtLeast meter.old meter.new
            (lent_count (state_of self.entry).handle.kind
            (length (state_of self.entry).handle.items))) }
    {
        match self {
            Slot::Bytes(bytes) => match bytes.into_owned_metered(alloc, meter) {
                Ok(owned) => (Slot::Bytes(owned), Ok(Answer::Done)),
                Err(back) => (Slot::Bytes(back), Err(Reason::Memory)),
            },
            Slot::Text(text) => match text.into_owned_metered(alloc, meter) {
                Ok(owned) => (Slot::Text(owned), Ok(Answer::Done)),
                Err(back) => (Slot::Text(back), Err(Reason::Memory)),
            },
        }
    }

    #[tactic(auto, using(crate::proofs::Places::in_place))]
    pub(super) fn make_text(&mut self) -> Result<Answer, Reason>
        ensures text { let old = state_of self.old in
            SlotAnswers (text_fault old) ⊥
            true (λ new. new ≡ old.handle)
            old result (state_of self.new) }
    {
        match mem::replace(self, Slot::empty()) {
            Slot::Bytes(bytes) => match HipStr::from_utf8(bytes) {
                Ok(text) => {
                    *self = Slot::Text(text);
                    Ok(Answer::Done)
                }
                Err(error) => {
                    *self = Slot::Bytes(error.into_bytes());
                    Err(Reason::NotUtf8)
                }
            },
            text => {
                *self = text;
                Err(Reason::NotBytes)
            }
        }
    }

    pub(super) fn make_bytes(&mut self) -> Result<Answer, Reason>
        ensures bytes { let old = state_of self.old in
            SlotAnswers (not_text_fault old) ⊥
            false (λ new. new ≡ old.handle)
            old result (state_of self.new) }
    {
        let (slot, answer) = mem::replace(self, Slot::empty()).into_bytes();
        *self = slot;
        answer
    }

    /// The slot as bytes, or as it was where it is no text.
    #[inline]
    fn into_bytes(self) -> (Self, Result<Answer, Reason>)
        ensures bytes { let old = state_of self.entry in
            SlotAnswers (not_text_fault old) ⊥
            false (λ new. new ≡ old.handle)
            old result.1 (state_of result.0) }
    {
        match self {
            Slot::Text(text) => (Slot::Bytes(text.into_bytes()), Ok(Answer::Done)),
            bytes => (bytes, Err(Reason::NotText)),
        }
    }

    pub(super) fn mutate(
        &mut self,
        alloc: Global,
        addition: &[u8],
        meter: &mut Meter,
    ) -> Result<Answer, Reason>
        ensures mutate { SlotMutates addition.now (state_of self.old) result (state_of self.new) }
        ensures counted { RisesAtMost meter.old meter.new
            (unless (addition_fault (state_of self.old) addition.now)
            (mutate_cost B.SHARES (length (state_of self.old).handle.items) (length addition.now))) }
    {
        match self {
            Slot::Bytes(bytes) => extend_lent(bytes, alloc, addition, meter)?,
            Slot::Text(text) => {
                let addition = text_of(addition).ok_or(Reason::NotUtf8)?;
                extend_lent_text(text, alloc, addition, meter)?;
            }
        }
        Ok(Answer::Done)
    }
}

/// Adds bytes to a value by a guard: through the vector that it lends.
fn extend_lent<S: Source>(
    source: &mut S,
    alloc: Global,
    addition: &[u8],
    meter: &mut Meter,
) -> Result<(), AllocError>
    ensures put { OnOk result (S.has_put source.new (S.items source.old ++ addition.now)) }
    ensures err { OnErr result
        ((source.new ≡ source.old)
        ⊎ (S.has_put source.new (S.items source.old) ⊎ S.is_emptied source.new)) }
    ensures counted { RisesAtMost meter.old meter.new
        (length (S.items source.old)
        + max (S.put_cost (length (S.items source.old)))
        (S.put_cost (length (S.items source.old) + length addition.now))) }
{
    let (vec, block) = source.lend_vec_metered(alloc, meter)?;
    let mut guard = RefMut::new(source, vec, block);
    let added = guard.as_mut_vec().extend_from_slice(addition);
    let written = guard.finish_metered(alloc, meter);
    added?;
    written.or(Err(AllocError))
}

/// Adds a text to a value by a guard: through the `String` that it lends.
fn extend_lent_text<S: TextSource>(
    source: &mut S,
    alloc: Global,
    addition: &str,
    meter: &mut Meter,
) -> Result<(), AllocError>
    ensures put { OnOk result (S.has_put source.new (S.items source.old ++ addition.now)) }
    ensures err { OnErr result
        ((source.new ≡ source.old)
        ⊎ (S.has_put source.new (S.items source.old) ⊎ S.is_emptied source.new)) }
    ensures counted { RisesAtMost meter.old meter.new
        (length (S.items source.old)
        + max (S.put_cost (length (S.items source.old)))
        (S.put_cost (length (S.items source.old) + length addition.now))) }
{
    let (string, block) = source.lend_string_metered(alloc, meter)?;
    let mut guard = hip_text::RefMut::new(source, string, block);
    let added = guard.as_mut_string().push_str(addition);
    let written = guard.finish_metered(alloc, meter);
    added?;
    written.or(Err(AllocError))
}
