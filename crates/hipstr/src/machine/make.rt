//! Commands that make a slot's value.
ghost use Rattle.hip_bytes.specs.Meter.{RisesAtLeast, RisesAtMost};
ghost use Rattle.hipstr.specs.declared.command.Command.{Command};
ghost use Rattle.hipstr.specs.Reason.{answer_of};
ghost use Rattle.hipstr.specs.Step.{Step, cost_of, counts_of};

use crate::command::{Answer, Reason};
use crate::pool::{Pool, Slot};
use hip_bytes::{Backend, HipByt, Meter};
use std::alloc::Global;
use std::ops::Bound;

impl<'b, B: Backend> Pool<'b, B> {
    pub(super) fn make_new(&mut self, t: usize) -> Result<Answer, Reason>
        ensures step { Step B.SHARES self.old (Command.New t) (answer_of result) self.new }
    {
        self.find(t)?;
        self.put(t, Slot::empty());
        Ok(Answer::Done)
    }

    pub(super) fn make_inline(
        &mut self,
        t: usize,
        bytes: &'b [u8],
        meter: &mut Meter,
    ) -> Result<Answer, Reason>
        ensures step { Step B.SHARES self.old (Command.Inline t bytes.entry)
            (answer_of result) self.new }
        ensures counted { RisesAtMost meter.old meter.new
            (cost_of B.SHARES self.old (Command.Inline t bytes.entry)) }
        ensures copied { RisesAtLeast meter.old meter.new
            (counts_of B.SHARES self.old (Command.Inline t bytes.entry) (answer_of result) self.new) }
    {
        self.find(t)?;
        let Some(handle) = HipByt::try_inline_metered(bytes, meter) else {
            return Err(Reason::TooLong);
        };
        self.put(t, Slot::Bytes(handle));
        Ok(Answer::Done)
    }

    pub(super) fn make_borrowed(&mut self, t: usize, bytes: &'b [u8]) -> Result<Answer, Reason>
        ensures step { Step B.SHARES self.old (Command.Borrow t bytes.entry)
            (answer_of result) self.new }
    {
        self.find(t)?;
        self.put(t, Slot::Bytes(HipByt::borrowed(bytes)));
        Ok(Answer::Done)
    }

    pub(super) fn make_copy(
        &mut self,
        alloc: Global,
        t: usize,
        bytes: &'b [u8],
        meter: &mut Meter,
    ) -> Result<Answer, Reason>
        ensures step { Step B.SHARES self.old (Command.Copy t bytes.entry)
            (answer_of result) self.new }
        ensures counted { RisesAtMost meter.old meter.new
            (cost_of B.SHARES self.old (Command.Copy t bytes.entry)) }
        ensures copied { RisesAtLeast meter.old meter.new
            (counts_of B.SHARES self.old (Command.Copy t bytes.entry) (answer_of result) self.new) }
    {
        self.find(t)?;
        let handle = HipByt::from_slice_metered(alloc, bytes, meter)?;
        self.put(t, Slot::Bytes(handle));
        Ok(Answer::Done)
    }

    pub(super) fn make_room(
        &mut self,
        alloc: Global,
        t: usize,
        capacity: usize,
    ) -> Result<Answer, Reason>
        ensures step { Step B.SHARES self.old (Command.Room t capacity)
            (answer_of result) self.new }
    {
        self.find(t)?;
        let handle = HipByt::with_capacity(alloc, capacity)?;
        self.put(t, Slot::Bytes(handle));
        Ok(Answer::Done)
    }

    pub(super) fn make_clone(
        &mut self,
        alloc: Global,
        s: usize,
        t: usize,
        meter: &mut Meter,
    ) -> Result<Answer, Reason>
        ensures step { Step B.SHARES self.old (Command.Clone s t) (answer_of result) self.new }
        ensures counted { RisesAtMost meter.old meter.new
            (cost_of B.SHARES self.old (Command.Clone s t)) }
        ensures copied { RisesAtLeast meter.old meter.new
            (counts_of B.SHARES self.old (Command.Clone s t)
            (answer_of result) self.new) }
    {
        let source = self.find(s)?;
        self.find(t)?;
        let made = match source {
            Slot::Bytes(bytes) => Slot::Bytes(bytes.clone_metered(alloc, meter)?),
            Slot::Text(text) => Slot::Text(text.clone_metered(alloc, meter)?),
        };
        self.put(t, made);
        Ok(Answer::Done)
    }

    pub(super) fn make_slice(
        &mut self,
        alloc: Global,
        s: usize,
        t: usize,
        low: Bound<usize>,
        high: Bound<usize>,
        meter: &mut Meter,
    ) -> Result<Answer, Reason>
        ensures step { Step B.SHARES self.old (Command.Slice s t low high)
            (answer_of result) self.new }
        ensures counted { RisesAtMost meter.old meter.new
            (cost_of B.SHARES self.old (Command.Slice s t low high)) }
        ensures copied { RisesAtLeast meter.old meter.new
            (counts_of B.SHARES self.old (Command.Slice s t low high)
            (answer_of result) self.new) }
    {
        let source = self.find(s)?;
        self.find(t)?;
        let made = match source {
            Slot::Bytes(bytes) => Slot::Bytes(bytes.try_slice_bounds_metered(
                alloc, low, high, meter,
            )?),
            Slot::Text(text) => Slot::Text(text.try_slice_bounds_metered(alloc, low, high, meter)?),
        };
        self.put(t, made);
        Ok(Answer::Done)
    }

    pub(super) fn make_repeat(
        &mut self,
        alloc: Global,
        s: usize,
        t: usize,
        n: usize,
        meter: &mut Meter,
    ) -> Result<Answer, Reason>
        ensures step { Step B.SHARES self.old (Command.Repeat s t n) (answer_of result) self.new }
        ensures counted { RisesAtMost meter.old meter.new
            (cost_of B.SHARES self.old (Command.Repeat s t n)) }
        ensures copied { RisesAtLeast meter.old meter.new
            (counts_of B.SHARES self.old (Command.Repeat s t n) (answer_of result) self.new) }
    {
        let source = self.find(s)?;
        self.find(t)?;
        let made = match source {
            Slot::Bytes(bytes) => Slot::Bytes(bytes.repeat_metered(alloc, n, meter)?),
            Slot::Text(text) => Slot::Text(text.repeat_metered(alloc, n, meter)?),
        };
        self.put(t, made);
        Ok(Answer::Done)
    }
}
