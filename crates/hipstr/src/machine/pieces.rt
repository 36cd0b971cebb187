//! The command that takes a text apart.
ghost use Rattle.std.specs.Prelude.{◌≡◌, ◌≤◌, ◌<◌, ◌+◌, ◌&&◌, ◌++◌, length, map, replicate, take, drop, nat_le, nat_lt, Err, is_ok, IfOk, OnErr};
ghost use Rattle.hip_bytes.specs.Meter.{RisesAtLeast, RisesAtMost};
ghost use Rattle.hip_match.specs.declared.draw.End.{End};
ghost use Rattle.hipstr.specs.declared.command.Command.{Command};
ghost use Rattle.hipstr.specs.declared.command.Reason.{Reason};
ghost use Rattle.hipstr.specs.Cut.{has_back, has_one_end, is_text};
ghost use Rattle.hipstr.specs.Parts.{put_all};
ghost use Rattle.hipstr.specs.Reason.{answer_of};
ghost use Rattle.hipstr.specs.Slot.{state_of, slot_at, text_at, empty_slot};
ghost use Rattle.hipstr.specs.Step.{Step, cost_of, counts_of};

use super::parts::{empty_all, make_parts};
use crate::command::{Answer, How, Pat, Reason};
use crate::pool::{Pool, Slot};
use hip_bytes::{Backend, Meter};
use hip_match::draw::End;
use hip_text::HipStr;
use std::alloc::Global;

impl<'b, B: Backend> Pool<'b, B> {
    pub(super) fn make_pieces(
        &mut self,
        alloc: Global,
        s: usize,
        how: How<'b>,
        script: &'b [End],
        first: usize,
        meter: &mut Meter,
    ) -> Result<Answer, Reason>
        ensures step { Step B.SHARES self.old (Command.Pieces s how.entry script.entry first)
            (answer_of result) self.new }
        ensures counted { RisesAtMost meter.old meter.new
            (cost_of B.SHARES self.old (Command.Pieces s how.entry script.entry first)) }
        ensures copied { RisesAtLeast meter.old meter.new
            (counts_of B.SHARES self.old (Command.Pieces s how.entry script.entry first)
            (answer_of result) self.new) }
    {
        self.find(s)?;
        self.find_all(first, script.len())?;
        if is_among(s, first, script.len()) {
            return Err(Reason::Overlap);
        }
        let text = self.slots[s].text()?;
        if lacks_back(how, script) {
            return Err(Reason::OneEnd);
        }
        let spare: &mut [Slot<'b, B>] = &mut self.spare;
        let count = make_parts(alloc, text, how, script, spare, meter)?;
        put_parts(spare, &mut self.slots, first, count);
        Ok(Answer::Number(count))
    }
}

/// Whether a slot is one of so many from `first` on.
fn is_among(s: usize, first: usize, count: usize) -> bool
    ensures { result ≡ (nat_le first s && nat_lt s (first + count)) }
{
    first <= s && s - first < count
}

/// Whether a script draws from the back what comes from the front alone.
fn lacks_back(how: How<'_>, script: &[End]) -> bool
    ensures { result ≡ (has_one_end how.entry && has_back script.now) }
{
    has_one_end(how) && has_back(script)
}

/// Whether a script draws from the back.
fn has_back(script: &[End]) -> bool
    ensures { result ≡ has_back script.now }
{
    for end in script {
        if *end == End::Back {
            return true;
        }
    }
    false
}

/// Whether the pieces come from the front alone.
fn has_one_end(how: How<'_>) -> bool
    ensures { result ≡ has_one_end how.entry }
{
    match how {
        How::Split(pattern) => is_text(pattern),
        How::Inclusive(pattern) => is_text(pattern),
        How::Terminator(pattern) => is_text(pattern),
        How::Matches(pattern) => is_text(pattern),
        How::RSplit(pattern) => is_text(pattern),
        How::RTerminator(pattern) => is_text(pattern),
        How::RMatches(pattern) => is_text(pattern),
        How::SplitN(_, _) | How::RSplitN(_, _) => true,
        How::Lines | How::Words | How::AsciiWords => false,
    }
}

fn is_text(pattern: Pat<'_>) -> bool
    ensures { result ≡ is_text pattern.entry }
{
    match pattern {
        Pat::Text(_) => true,
        Pat::Char(_) | Pat::Set(_) => false,
    }
}

/// Moves so many of the spare slots into those from `first` on, and leaves empty ones.
fn put_parts<'b, B: Backend>(
    spare: &mut [Slot<'b, B>],
    slots: &mut [Slot<'b, B>],
    first: usize,
    count: usize,
)
    requires made { count ≤ length spare.old }
    requires room { first + count ≤ length slots.old }
    ensures put { map state_of slots.new
        ≡ put_all (map state_of slots.old) first (take count (map state_of spare.old)) }
    ensures emptied { map state_of spare.new
        ≡ replicate count empty_slot ++ drop count (map state_of spare.old) }
{
    slots[first..first + count].swap_with_slice(&mut spare[..count]);
    empty_all(&mut spare[..count]);
}
