//! Commands that cut a text once, or in two.
ghost use Rattle.std.specs.Prelude.{◌≡◌, ◌<◌, ℕ, false, length, None, Some, IfErr, IfOk, OnOk};
ghost use Rattle.std.specs.Option.{option_or};
ghost use Rattle.hip_bytes.specs.Meter.{RisesAtLeast, RisesAtMost};
ghost use Rattle.hip_cuts.specs.Cut.{OnceCounts, StripCounts, TrimCounts};
ghost use Rattle.hip_cuts.specs.Cut.{TrimAnswers, TrimCosts, StripAnswers, StripCosts, OnceAnswers, OnceCosts, space_ends};
ghost use Rattle.hipstr.specs.declared.command.Command.{Command};
ghost use Rattle.hipstr.specs.Cut.{Leaves, occurrences, stripped, parted, trims_one_end};
ghost use Rattle.hipstr.specs.Reason.{answer_of};
ghost use Rattle.hipstr.specs.Slot.{slot_at, state_at};
ghost use Rattle.hipstr.specs.Step.{Step, Costs, cost_of, counts_of, not_text_fault, slot_fault};

use crate::command::{Answer, Pat, Reason, Side};
use crate::pool::{Pool, Slot};
use hip_bytes::{Backend, Meter};
use hip_cuts::TextCuts;
use hip_match::draw::End;
use hip_match::pattern::{DoubleEndedPattern, ReversePattern};
use hip_text::HipStr;
use std::alloc::{AllocError, Global};

impl<'b, B: Backend> Pool<'b, B> {
    /// The text of a source, where the target is there too.
    #[inline]
    fn text_for(&self, s: usize, t: usize) -> Result<&HipStr<'b, B>, Reason>
        ensures text { IfOk result (λ text. text.now ≡ slot_at self.now s) }
        ensures within { OnOk result (t < length self.now) }
        ensures found { OnOk result (option_or (slot_fault self.now s)
            (option_or (slot_fault self.now t) (not_text_fault (state_at self.now s))) ≡ None) }
        ensures fault { IfErr result (λ reason. option_or (slot_fault self.now s)
            (option_or (slot_fault self.now t) (not_text_fault (state_at self.now s)))
            ≡ Some reason) }
    {
        let source = self.find(s)?;
        self.find(t)?;
        source.text()
    }

    pub(super) fn trim(
        &mut self,
        alloc: Global,
        s: usize,
        t: usize,
        side: Side,
        meter: &mut Meter,
    ) -> Result<Answer, Reason>
        ensures step { Step B.SHARES self.old (Command.Trim s t side) (answer_of result) self.new }
        ensures counted { (cost : ℕ) × Costs B.SHARES self.old (Command.Trim s t side) cost
            × RisesAtMost meter.old meter.new cost }
        ensures copied { RisesAtLeast meter.old meter.new
            (counts_of B.SHARES self.old (Command.Trim s t side)
            (answer_of result) self.new) }
    {
        let text = self.text_for(s, t)?;
        let left = trimmed(alloc, text, side, meter)?;
        self.put(t, Slot::Text(left));
        Ok(Answer::Done)
    }

    pub(super) fn trim_matches(
        &mut self,
        alloc: Global,
        s: usize,
        t: usize,
        side: Side,
        pattern: Pat<'b>,
        meter: &mut Meter,
    ) -> Result<Answer, Reason>
        ensures step { Step B.SHARES self.old (Command.TrimMatches s t side pattern.entry)
            (answer_of result) self.new }
        ensures counted { (cost : ℕ)
            × Costs B.SHARES self.old (Command.TrimMatches s t side pattern.entry) cost
            × RisesAtMost meter.old meter.new cost }
        ensures copied { RisesAtLeast meter.old meter.new
            (counts_of B.SHARES self.old (Command.TrimMatches s t side pattern.entry)
            (answer_of result) self.new) }
    {
        let text = self.text_for(s, t)?;
        if trims_one_end(side, pattern) {
            return Err(Reason::OneEnd);
        }
        let left = trimmed_of(alloc, text, side, pattern, meter)?;
        self.put(t, Slot::Text(left));
        Ok(Answer::Done)
    }

    pub(super) fn strip(
        &mut self,
        alloc: Global,
        s: usize,
        t: usize,
        end: End,
        pattern: Pat<'b>,
        meter: &mut Meter,
    ) -> Result<Answer, Reason>
        ensures step { Step B.SHARES self.old (Command.Strip s t end pattern.entry)
            (answer_of result) self.new }
        ensures counted { RisesAtMost meter.old meter.new
            (cost_of B.SHARES self.old (Command.Strip s t end pattern.entry)) }
        ensures copied { RisesAtLeast meter.old meter.new
            (counts_of B.SHARES self.old (Command.Strip s t end pattern.entry)
            (answer_of result) self.new) }
    {
        let text = self.text_for(s, t)?;
        let Some(left) = stripped(alloc, text, end, pattern, meter)? else {
            return Ok(Answer::Nothing);
        };
        self.put(t, Slot::Text(left));
        Ok(Answer::Done)
    }

    pub(super) fn part_once(
        &mut self,
        alloc: Global,
        s: usize,
        t: usize,
        u: usize,
        end: End,
        pattern: Pat<'b>,
        meter: &mut Meter,
    ) -> Result<Answer, Reason>
        ensures step { Step B.SHARES self.old (Command.Once s t u end pattern.entry)
            (answer_of result) self.new }
        ensures counted { RisesAtMost meter.old meter.new
            (cost_of B.SHARES self.old (Command.Once s t u end pattern.entry)) }
        ensures copied { RisesAtLeast meter.old meter.new
            (counts_of B.SHARES self.old (Command.Once s t u end pattern.entry)
            (answer_of result) self.new) }
    {
        let source = self.find(s)?;
        self.find(t)?;
        self.find(u)?;
        if t == u {
            return Err(Reason::Overlap);
        }
        let text = source.text()?;
        let Some((front, back)) = parted(alloc, text, end, pattern, meter)? else {
            return Ok(Answer::Nothing);
        };
        self.put(t, Slot::Text(front));
        self.put(u, Slot::Text(back));
        Ok(Answer::Done)
    }
}

/// The text without white space at these ends.
fn trimmed<'b, B: Backend>(
    alloc: Global,
    text: &HipStr<'b, B>,
    side: Side,
    meter: &mut Meter,
) -> Result<HipStr<'b, B>, AllocError>
    ensures trimmed { TrimAnswers (λ part. part) (Leaves side) space_ends text.now result }
    ensures counted { TrimCosts B.SHARES (Leaves side) space_ends text.now meter.old meter.new }
    ensures copied { TrimCounts (λ part. part) B.SHARES text.now result meter.old meter.new }
{
    match side {
        Side::Start => text.trim_start_metered(alloc, meter),
        Side::End => text.trim_end_metered(alloc, meter),
        Side::Both => text.trim_metered(alloc, meter),
    }
}

/// Whether both ends are to be trimmed of what can be trimmed from one alone.
fn trims_one_end(side: Side, pattern: Pat<'_>) -> bool
    ensures { result ≡ trims_one_end side pattern.entry }
{
    match pattern {
        Pat::Text(_) => match side {
            Side::Start | Side::End => false,
            Side::Both => true,
        },
        Pat::Char(_) | Pat::Set(_) => false,
    }
}

/// The text without what occurs at these ends.
fn trimmed_of<'b, B: Backend>(
    alloc: Global,
    text: &HipStr<'b, B>,
    side: Side,
    pattern: Pat<'b>,
    meter: &mut Meter,
) -> Result<HipStr<'b, B>, AllocError>
    requires { trims_one_end side pattern ≡ false }
    ensures trimmed { TrimAnswers (λ part. part) (Leaves side)
        (occurrences pattern.entry) text.now result }
    ensures counted { TrimCosts B.SHARES (Leaves side)
        (occurrences pattern.entry) text.now meter.old meter.new }
    ensures copied { TrimCounts (λ part. part) B.SHARES text.now result meter.old meter.new }
{
    match pattern {
        Pat::Text(pattern) => match side {
            Side::Start => text.trim_start_matches_metered(alloc, pattern, meter),
            Side::End | Side::Both => text.trim_end_matches_metered(alloc, pattern, meter),
        },
        Pat::Char(c) => trimmed_matches(alloc, text, side, c, meter),
        Pat::Set(set) => trimmed_matches(alloc, text, side, set, meter),
    }
}

/// The text without the pattern's occurrences at these ends.
fn trimmed_matches<'b, B: Backend, P: DoubleEndedPattern>(
    alloc: Global,
    text: &HipStr<'b, B>,
    side: Side,
    pattern: P,
    meter: &mut Meter,
) -> Result<HipStr<'b, B>, AllocError>
    requires { P.can_search pattern }
    ensures trimmed { TrimAnswers (λ part. part) (Leaves side) (P.ends pattern) text.now result }
    ensures counted { TrimCosts B.SHARES (Leaves side)
        (P.ends pattern) text.now meter.old meter.new }
    ensures copied { TrimCounts (λ part. part) B.SHARES text.now result meter.old meter.new }
{
    match side {
        Side::Start => text.trim_start_matches_metered(alloc, pattern, meter),
        Side::End => text.trim_end_matches_metered(alloc, pattern, meter),
        Side::Both => text.trim_matches_metered(alloc, pattern, meter),
    }
}

/// The text without one occurrence at that end, if there is one.
fn stripped<'b, B: Backend>(
    alloc: Global,
    text: &HipStr<'b, B>,
    end: End,
    pattern: Pat<'b>,
    meter: &mut Meter,
) -> Result<Option<HipStr<'b, B>>, AllocError>
    ensures stripped { StripAnswers (λ part. part) (stripped end)
        (occurrences pattern.entry) text.now result }
    ensures counted { StripCosts B.SHARES (stripped end)
        (occurrences pattern.entry) text.now meter.old meter.new }
    ensures copied { StripCounts (λ part. part) B.SHARES text.now result meter.old meter.new }
{
    match pattern {
        Pat::Text(pattern) => text_without(alloc, text, end, pattern, meter),
        Pat::Char(c) => text_without(alloc, text, end, c, meter),
        Pat::Set(set) => text_without(alloc, text, end, set, meter),
    }
}

/// The text without one occurrence of the pattern at that end, if there is one.
fn text_without<'b, B: Backend, P: ReversePattern>(
    alloc: Global,
    text: &HipStr<'b, B>,
    end: End,
    pattern: P,
    meter: &mut Meter,
) -> Result<Option<HipStr<'b, B>>, AllocError>
    requires { P.can_search pattern }
    ensures stripped { StripAnswers (λ part. part) (stripped end) (P.ends pattern) text.now result }
    ensures counted { StripCosts B.SHARES (stripped end)
        (P.ends pattern) text.now meter.old meter.new }
    ensures copied { StripCounts (λ part. part) B.SHARES text.now result meter.old meter.new }
{
    match end {
        End::Front => text.strip_prefix_metered(alloc, pattern, meter),
        End::Back => text.strip_suffix_metered(alloc, pattern, meter),
    }
}

/// The texts before and behind the first occurrence from that end, if there is one.
fn parted<'b, B: Backend>(
    alloc: Global,
    text: &HipStr<'b, B>,
    end: End,
    pattern: Pat<'b>,
    meter: &mut Meter,
) -> Result<Option<(HipStr<'b, B>, HipStr<'b, B>)>, AllocError>
    ensures parts { OnceAnswers (λ part. part) (parted end)
        (occurrences pattern.entry) text.now result }
    ensures counted { OnceCosts B.SHARES (parted end)
        (occurrences pattern.entry) text.now meter.old meter.new }
    ensures copied { OnceCounts (λ part. part) B.SHARES text.now result meter.old meter.new }
{
    match pattern {
        Pat::Text(pattern) => two_parts(alloc, text, end, pattern, meter),
        Pat::Char(c) => two_parts(alloc, text, end, c, meter),
        Pat::Set(set) => two_parts(alloc, text, end, set, meter),
    }
}

/// The texts before and behind the pattern's first occurrence from that end, if there is one.
fn two_parts<'b, B: Backend, P: ReversePattern>(
    alloc: Global,
    text: &HipStr<'b, B>,
    end: End,
    pattern: P,
    meter: &mut Meter,
) -> Result<Option<(HipStr<'b, B>, HipStr<'b, B>)>, AllocError>
    requires { P.can_search pattern }
    ensures parts { OnceAnswers (λ part. part) (parted end) (P.ends pattern) text.now result }
    ensures counted { OnceCosts B.SHARES (parted end)
        (P.ends pattern) text.now meter.old meter.new }
    ensures copied { OnceCounts (λ part. part) B.SHARES text.now result meter.old meter.new }
{
    match end {
        End::Front => text.split_once_metered(alloc, pattern, meter),
        End::Back => text.rsplit_once_metered(alloc, pattern, meter),
    }
}
