//! Commands that write over a slot's items.
ghost use Rattle.hip_bytes.specs.Meter.{RisesAtLeast, RisesAtMost};
ghost use Rattle.hipstr.specs.declared.command.Command.{Command};
ghost use Rattle.hipstr.specs.Reason.{answer_of};
ghost use Rattle.hipstr.specs.Step.{Step, cost_of, counts_of};

use crate::command::{Answer, Reason};
use crate::pool::Pool;
use hip_bytes::{Backend, Meter};
use std::alloc::Global;

impl<'b, B: Backend> Pool<'b, B> {
    #[tactic(auto, using(crate::proofs::Places::in_place))]
    pub(super) fn make_upper(
        &mut self,
        alloc: Global,
        t: usize,
        meter: &mut Meter,
    ) -> Result<Answer, Reason>
        ensures step { Step B.SHARES self.old (Command.Upper t) (answer_of result) self.new }
        ensures counted { RisesAtMost meter.old meter.new
            (cost_of B.SHARES self.old (Command.Upper t)) }
        ensures copied { RisesAtLeast meter.old meter.new
            (counts_of B.SHARES self.old (Command.Upper t)
            (answer_of result) self.new) }
    {
        self.find(t)?;
        self.slots[t].make_upper(alloc, meter)?;
        Ok(Answer::Done)
    }

    #[tactic(auto, using(crate::proofs::Places::in_place))]
    pub(super) fn make_lower(
        &mut self,
        alloc: Global,
        t: usize,
        meter: &mut Meter,
    ) -> Result<Answer, Reason>
        ensures step { Step B.SHARES self.old (Command.Lower t) (answer_of result) self.new }
        ensures counted { RisesAtMost meter.old meter.new
            (cost_of B.SHARES self.old (Command.Lower t)) }
        ensures copied { RisesAtLeast meter.old meter.new
            (counts_of B.SHARES self.old (Command.Lower t)
            (answer_of result) self.new) }
    {
        self.find(t)?;
        self.slots[t].make_lower(alloc, meter)?;
        Ok(Answer::Done)
    }

    #[tactic(auto, using(crate::proofs::Places::in_place))]
    pub(super) fn set(
        &mut self,
        alloc: Global,
        t: usize,
        i: usize,
        byte: u8,
        meter: &mut Meter,
    ) -> Result<Answer, Reason>
        ensures step { Step B.SHARES self.old (Command.Set t i byte) (answer_of result) self.new }
        ensures counted { RisesAtMost meter.old meter.new
            (cost_of B.SHARES self.old (Command.Set t i byte)) }
        ensures copied { RisesAtLeast meter.old meter.new
            (counts_of B.SHARES self.old (Command.Set t i byte)
            (answer_of result) self.new) }
    {
        self.find(t)?;
        self.slots[t].set(alloc, i, byte, meter)
    }

    #[tactic(auto, using(crate::proofs::Places::in_place))]
    pub(super) fn make_owned(
        &mut self,
        alloc: Global,
        t: usize,
        meter: &mut Meter,
    ) -> Result<Answer, Reason>
        ensures step { Step B.SHARES self.old (Command.Owned t) (answer_of result) self.new }
        ensures counted { RisesAtMost meter.old meter.new
            (cost_of B.SHARES self.old (Command.Owned t)) }
        ensures copied { RisesAtLeast meter.old meter.new
            (counts_of B.SHARES self.old (Command.Owned t)
            (answer_of result) self.new) }
    {
        self.find(t)?;
        self.slots[t].make_owned(alloc, meter)
    }

    #[tactic(auto, using(crate::proofs::Places::in_place))]
    pub(super) fn mutate(
        &mut self,
        alloc: Global,
        t: usize,
        addition: &'b [u8],
        meter: &mut Meter,
    ) -> Result<Answer, Reason>
        ensures step { Step B.SHARES self.old (Command.Mutate t addition.entry)
            (answer_of result) self.new }
        ensures counted { RisesAtMost meter.old meter.new
            (cost_of B.SHARES self.old (Command.Mutate t addition.entry)) }
    {
        self.find(t)?;
        self.slots[t].mutate(alloc, addition, meter)
    }
}
