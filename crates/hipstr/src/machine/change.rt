//! Commands that change a slot's value at its end.
ghost use Rattle.hip_bytes.specs.Meter.{RisesAtLeast, RisesAtMost};
ghost use Rattle.hipstr.specs.Amortised.{PushesArePaid};
ghost use Rattle.hipstr.specs.declared.command.Command.{Command};
ghost use Rattle.hipstr.specs.Reason.{answer_of};
ghost use Rattle.hipstr.specs.Step.{Step, cost_of, counts_of};

use crate::command::{Answer, Reason};
use crate::pool::Pool;
use hip_bytes::{Backend, Meter};
use std::alloc::Global;

impl<'b, B: Backend> Pool<'b, B> {
    #[tactic(auto, using(crate::proofs::Places::in_place))]
    pub(super) fn push(
        &mut self,
        alloc: Global,
        t: usize,
        addition: &'b [u8],
        meter: &mut Meter,
    ) -> Result<Answer, Reason>
        ensures step { Step B.SHARES self.old (Command.Push t addition.entry)
            (answer_of result) self.new }
        ensures counted { RisesAtMost meter.old meter.new
            (cost_of B.SHARES self.old (Command.Push t addition.entry)) }
        ensures copied { RisesAtLeast meter.old meter.new
            (counts_of B.SHARES self.old (Command.Push t addition.entry) (answer_of result) self.new) }
        ensures paid { PushesArePaid B.SHARES self.old
            (Command.Push t addition.entry) self.new meter.old meter.new }
    {
        self.find(t)?;
        self.slots[t].push(alloc, addition, meter)
    }

    #[tactic(auto, using(crate::proofs::Places::in_place))]
    pub(super) fn pop(&mut self, t: usize, meter: &mut Meter) -> Result<Answer, Reason>
        ensures step { Step B.SHARES self.old (Command.Pop t) (answer_of result) self.new }
        ensures counted { RisesAtMost meter.old meter.new
            (cost_of B.SHARES self.old (Command.Pop t)) }
    {
        self.find(t)?;
        Ok(self.slots[t].pop(meter))
    }

    #[tactic(auto, using(crate::proofs::Places::in_place))]
    pub(super) fn truncate(
        &mut self,
        t: usize,
        n: usize,
        meter: &mut Meter,
    ) -> Result<Answer, Reason>
        ensures step { Step B.SHARES self.old (Command.Truncate t n) (answer_of result) self.new }
        ensures counted { RisesAtMost meter.old meter.new
            (cost_of B.SHARES self.old (Command.Truncate t n)) }
    {
        self.find(t)?;
        self.slots[t].truncate(n, meter)
    }

    #[tactic(auto, using(crate::proofs::Places::in_place))]
    pub(super) fn clear(&mut self, t: usize, meter: &mut Meter) -> Result<Answer, Reason>
        ensures step { Step B.SHARES self.old (Command.Clear t) (answer_of result) self.new }
        ensures counted { RisesAtMost meter.old meter.new
            (cost_of B.SHARES self.old (Command.Clear t)) }
    {
        self.find(t)?;
        self.slots[t].clear(meter);
        Ok(Answer::Done)
    }

    #[tactic(auto, using(crate::proofs::Places::in_place))]
    pub(super) fn shrink(
        &mut self,
        alloc: Global,
        t: usize,
        least: usize,
        meter: &mut Meter,
    ) -> Result<Answer, Reason>
        ensures step { Step B.SHARES self.old (Command.Shrink t least) (answer_of result) self.new }
        ensures counted { RisesAtMost meter.old meter.new
            (cost_of B.SHARES self.old (Command.Shrink t least)) }
    {
        self.find(t)?;
        self.slots[t].shrink(alloc, least, meter)?;
        Ok(Answer::Done)
    }
}
