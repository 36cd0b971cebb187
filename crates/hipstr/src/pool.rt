ghost use Rattle.std.specs.Prelude.{◌≡◌, ◌+◌, ◌^◌, ◌≤◌, ◌<◌, ◌==◌, ◌↔◌, replicate, length, map, slice_set};
ghost use Rattle.std.specs.Prelude.{Err, None, Some, IfOk, OnErr, OnOk, IfSome, IsSome};
ghost use Rattle.hipstr.specs.declared.command.Reason.{Reason};
ghost use Rattle.hipstr.specs.Slot.{state_of, state_at, empty_slot};
ghost use Rattle.hipstr.specs.Step.{not_text_fault, slot_fault, slots_fault};

use crate::command::Reason;
use hip_text::{Backend, HipByt, HipStr, Kind};
use std::alloc::{AllocError, Global};
use std::marker::Model;

/// The greatest number of slots in a pool.
pub const MAX_SLOTS: usize = 4096;

/// A place for one handle.
#[derive(Drop)]
pub enum Slot<'b, B: Backend> {
    /// A handle of bytes.
    Bytes(HipByt<'b, B>),
    /// A handle of a text.
    Text(HipStr<'b, B>),
}

impl<'b, B: Backend> Slot<'b, B> {
    /// An empty slot of bytes.
    #[tactic(auto, using(crate::proofs::Places::empty_handle))]
    pub(crate) fn empty() -> Self
        ensures { state_of result ≡ empty_slot }
    {
        Slot::Bytes(HipByt::new())
    }

    /// Whether it is a text.
    #[inline]
    pub fn is_text(&self) -> bool
        ensures text { result ≡ (state_of self.now).is_text }
    {
        match self {
            Slot::Bytes(_) => false,
            Slot::Text(_) => true,
        }
    }

    /// The slot's bytes.
    #[inline]
    pub fn as_bytes(&self) -> &[u8]
        ensures items { result.now ≡ (state_of self.now).handle.items }
    {
        match self {
            Slot::Bytes(bytes) => bytes.as_slice(),
            Slot::Text(text) => text.as_bytes(),
        }
    }

    /// Where the slot's bytes lie.
    #[inline]
    pub fn kind(&self) -> Kind
        ensures kind { result ≡ (state_of self.now).handle.kind }
    {
        match self {
            Slot::Bytes(bytes) => bytes.kind(),
            Slot::Text(text) => text.kind(),
        }
    }

    /// The slot's text, if it is one.
    #[inline]
    pub(crate) fn text(&self) -> Result<&HipStr<'b, B>, Reason>
        ensures text { IfOk result (λ text. text.now ≡ (state_of self.now).handle) }
        ensures found { OnOk result (not_text_fault (state_of self.now) ≡ None) }
        ensures not_text { OnErr result
            (not_text_fault (state_of self.now) ≡ Some Reason.NotText) }
        ensures reason { OnErr result (result ≡ Err Reason.NotText) }
    {
        match self {
            Slot::Bytes(_) => Err(Reason::NotText),
            Slot::Text(text) => Ok(text),
        }
    }

    /// The number of bytes that the slot can hold where they lie.
    #[inline]
    pub fn capacity(&self) -> usize
        ensures capacity { result ≡ (state_of self.now).handle.capacity }
    {
        match self {
            Slot::Bytes(bytes) => bytes.capacity(),
            Slot::Text(text) => text.capacity(),
        }
    }
}

/// Handles under numbers from 0, which [`run`](crate::run) works on.
#[derive(Drop)]
pub struct Pool<'b, B: Backend> {
    pub(crate) slots: Vec<Slot<'b, B>>,
    // As many spare slots, in which pieces are made before they go to their own. Between two commands all are empty.
    pub(crate) spare: Vec<Slot<'b, B>>,
}

impl<'b, B: Backend> Model for Pool<'b, B> {
    ghost use Rattle.std.specs.Prelude.{◌≡◌, List, length, map, replicate};
    ghost use Rattle.hipstr.specs.Slot.{SlotState, state_of, empty_slot};

    ghost Value = { List SlotState };

    ghost view = { λ p. map state_of p.slots.items };

    ghost invariant = { λ p. map state_of p.spare.items ≡ replicate (length p.slots.items) empty_slot };
}

impl<'b, B: Backend> Pool<'b, B> {
    /// A pool of empty slots.
    pub fn new(alloc: Global, count: usize) -> Result<Self, AllocError>
        requires { count ≤ MAX_SLOTS }
        ensures slots { IfOk result (λ pool. pool ≡ replicate count empty_slot) }
    {
        Ok(Pool {
            slots: empty_slots(alloc, count)?,
            spare: empty_slots(alloc, count)?,
        })
    }

    /// The number of slots.
    #[inline]
    pub fn len(&self) -> usize
        ensures { result ≡ length self.now }
    {
        self.slots.len()
    }

    /// Whether there are none.
    #[inline]
    pub fn is_empty(&self) -> bool
        ensures { result ≡ (length self.now == 0) }
    {
        self.slots.is_empty()
    }

    /// The slot at a position.
    #[inline]
    #[tactic(auto, using(crate::proofs::Places::in_place))]
    pub fn slot(&self, i: usize) -> Option<&Slot<'b, B>>
        ensures found { IsSome result ↔ (i < length self.now) }
        ensures slot { IfSome result (λ slot. state_of slot.now ≡ state_at self.now i) }
    {
        self.slots.get(i)
    }

    /// The slot at a position, or that there is none.
    #[inline]
    pub(crate) fn find(&self, i: usize) -> Result<&Slot<'b, B>, Reason>
        ensures slot { IfOk result (λ slot. state_of slot.now ≡ state_at self.now i) }
        ensures within { OnOk result (i < length self.now) }
        ensures found { OnOk result (slot_fault self.now i ≡ None) }
        ensures missing { OnErr result (slot_fault self.now i ≡ Some Reason.NoSlot) }
        ensures reason { OnErr result (result ≡ Err Reason.NoSlot) }
    {
        self.slot(i).ok_or(Reason::NoSlot)
    }

    /// Finds `count` slots from `first` on, or that they aren't all there.
    pub(crate) fn find_all(&self, first: usize, count: usize) -> Result<(), Reason>
        ensures within { OnOk result (first + count ≤ length self.now) }
        ensures fits { OnOk result (first + count < 2 ^ 64) }
        ensures found { OnOk result (slots_fault self.now first count ≡ None) }
        ensures missing { OnErr result (slots_fault self.now first count ≡ Some Reason.NoSlot) }
        ensures reason { OnErr result (result ≡ Err Reason.NoSlot) }
    {
        if first <= self.len() && count <= self.len() - first {
            Ok(())
        } else {
            Err(Reason::NoSlot)
        }
    }

    /// The slot at a position that is there.
    #[inline]
    pub(crate) fn at(&self, i: usize) -> &Slot<'b, B>
        requires { i < length self.now }
        ensures { state_of result.now ≡ state_at self.now i }
    {
        &self.slots[i]
    }

    /// Puts a slot in the place of the one at a position, which is dropped.
    #[inline]
    #[tactic(auto, using(crate::proofs::Places::in_place))]
    pub(crate) fn put(&mut self, i: usize, slot: Slot<'b, B>)
        requires { i < length self.old }
        ensures { self.new ≡ slice_set self.old i (state_of slot.entry) }
    {
        self.slots[i] = slot;
    }
}

// Empty slots, `count` of them.
fn empty_slots<'b, B: Backend>(alloc: Global, count: usize) -> Result<Vec<Slot<'b, B>>, AllocError>
    requires { count ≤ MAX_SLOTS }
    ensures empty { IfOk result (λ slots. map state_of slots.items ≡ replicate count empty_slot) }
    ensures count { IfOk result (λ slots. length slots.items ≡ count) }
{
    let mut slots = Vec::with_capacity(alloc, count)?;
    for _ in 0..count {
        slots.push(Slot::empty())?;
    }
    Ok(slots)
}
