//! Commands that tell of a slot and change nothing.
ghost use Rattle.hipstr.specs.declared.command.Command.{Command};
ghost use Rattle.hipstr.specs.Reason.{answer_of};
ghost use Rattle.hipstr.specs.Step.{Step};

use crate::command::{Answer, Reason};
use crate::pool::Pool;
use hip_bytes::Backend;
use hip_names::path_cmp;

impl<'b, B: Backend> Pool<'b, B> {
    pub(super) fn tell_len(&self, t: usize) -> Result<Answer, Reason>
        ensures step { Step B.SHARES self.now (Command.Len t) (answer_of result) self.now }
    {
        Ok(Answer::Number(self.find(t)?.as_bytes().len()))
    }

    pub(super) fn tell_kind(&self, t: usize) -> Result<Answer, Reason>
        ensures step { Step B.SHARES self.now (Command.Kind t) (answer_of result) self.now }
    {
        Ok(Answer::Kind(self.find(t)?.kind()))
    }

    pub(super) fn tell_capacity(&self, t: usize) -> Result<Answer, Reason>
        ensures step { Step B.SHARES self.now (Command.Capacity t) (answer_of result) self.now }
    {
        Ok(Answer::Number(self.find(t)?.capacity()))
    }

    pub(super) fn compare(&self, s: usize, t: usize) -> Result<Answer, Reason>
        ensures step { Step B.SHARES self.now (Command.Compare s t) (answer_of result) self.now }
    {
        let (source, target) = (self.find(s)?, self.find(t)?);
        Ok(Answer::Order(source.as_bytes().cmp(target.as_bytes())))
    }

    pub(super) fn compare_path(&self, s: usize, t: usize) -> Result<Answer, Reason>
        ensures step { Step B.SHARES self.now (Command.ComparePath s t)
            (answer_of result) self.now }
    {
        let (source, target) = (self.find(s)?, self.find(t)?);
        Ok(Answer::Order(path_cmp(source.as_bytes(), target.as_bytes())))
    }
}
