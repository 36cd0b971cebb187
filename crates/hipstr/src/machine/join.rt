//! The command that joins slots.
ghost use Rattle.std.specs.Prelude.{◌≡◌, ◌↔◌, ◌≤◌, ◌<◌, ◌+◌, ◌^◌, nat_le, length, take, drop, map, IfOk, OnOk};
ghost use Rattle.std.specs.Option.{SomeIff};
ghost use Rattle.hip_bytes.specs.Join.{gap_at, join_cost};
ghost use Rattle.hip_bytes.specs.Kinds.{HoldsByLength};
ghost use Rattle.hip_bytes.specs.Meter.{RisesAtLeast, RisesAtMost};
ghost use Rattle.hipstr.specs.declared.command.Command.{Command};
ghost use Rattle.hipstr.specs.Reason.{answer_of};
ghost use Rattle.hipstr.specs.Step.{Step, cost_of, counts_of, items_of, joined_slots};

use crate::command::{Answer, Reason};
use crate::pool::{Pool, Slot};
use hip_bytes::{Backend, GrowFault, HipByt, Meter};
use std::alloc::{AllocError, Global};

impl<'b, B: Backend> Pool<'b, B> {
    pub(super) fn make_join(
        &mut self,
        alloc: Global,
        first: usize,
        count: usize,
        sep: &'b [u8],
        t: usize,
        meter: &mut Meter,
    ) -> Result<Answer, Reason>
        ensures step { Step B.SHARES self.old (Command.Join first count sep.entry t)
            (answer_of result) self.new }
        ensures counted { RisesAtMost meter.old meter.new
            (cost_of B.SHARES self.old (Command.Join first count sep.entry t)) }
        ensures copied { RisesAtLeast meter.old meter.new
            (counts_of B.SHARES self.old (Command.Join first count sep.entry t) (answer_of result) self.new) }
    {
        self.find_all(first, count)?;
        self.find(t)?;
        let handle = self.joined(alloc, first, count, sep, meter)?;
        self.put(t, Slot::Bytes(handle));
        Ok(Answer::Done)
    }

    /// The items of the slots, with the separator between each two. The length is tested before anything is allocated.
    fn joined(
        &self,
        alloc: Global,
        first: usize,
        count: usize,
        sep: &[u8],
        meter: &mut Meter,
    ) -> Result<HipByt<'b, B>, GrowFault>
        requires within { first + count ≤ length self.now }
        requires fits { first + count < 2 ^ 64 }
        ensures holds { IfOk result
            (λ handle. HoldsByLength handle (joined_slots self.now first count sep.now)) }
        ensures too_long { (result ≡ Err GrowFault.TooLong)
            ↔ (2 ^ 64 ≤ length (joined_slots self.now first count sep.now)) }
        ensures counted { RisesAtMost meter.old meter.new
            (join_cost B.SHARES (length (joined_slots self.now first count sep.now))) }
        ensures copied { OnOk result (RisesAtLeast meter.old meter.new
            (length (joined_slots self.now first count sep.now))) }
        ensures refused_counts_none { result ≡ Err GrowFault.TooLong → meter.new ≡ meter.old }
    {
        if self.joined_len(first, count, sep).is_none() {
            return Err(GrowFault::TooLong);
        }
        let pieces = self.pieces(alloc, first, count)?;
        HipByt::join_slices_metered(alloc, &pieces, sep, meter)
    }

    /// The length of a join of the slots, if it is a `usize`.
    fn joined_len(&self, first: usize, count: usize, sep: &[u8]) -> Option<usize>
        requires within { first + count ≤ length self.now }
        requires fits { first + count < 2 ^ 64 }
        ensures { SomeIff result (length (joined_slots self.now first count sep.now) < 2 ^ 64)
            (length (joined_slots self.now first count sep.now)) }
    {
        let mut len = 0usize;
        for i in 0..count {
            len = len
                .checked_add(gap_len(i, sep))?
                .checked_add(self.at(first + i).as_bytes().len())?;
        }
        Some(len)
    }

    /// The slots' bytes.
    fn pieces(&self, alloc: Global, first: usize, count: usize) -> Result<Vec<&[u8]>, AllocError>
        requires within { first + count ≤ length self.now }
        requires fits { first + count < 2 ^ 64 }
        ensures { IfOk result
            (λ pieces. map (λ piece. piece.now) pieces.items
            ≡ map items_of (take count (drop first self.now))) }
    {
        let mut pieces = Vec::with_capacity(alloc, count)?;
        for i in 0..count {
            pieces.push(self.at(first + i).as_bytes())?;
        }
        Ok(pieces)
    }
}

/// The length of the gap before the item at a position.
fn gap_len(i: usize, sep: &[u8]) -> usize
    ensures { result ≡ length (gap_at i sep.now) }
{
    if i == 0 { 0 } else { sep.len() }
}
