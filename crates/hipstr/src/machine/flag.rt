//! Commands that make a slot a text, or bytes.
ghost use Rattle.hipstr.specs.declared.command.Command.{Command};
ghost use Rattle.hipstr.specs.Reason.{answer_of};
ghost use Rattle.hipstr.specs.Step.{Step};

use crate::command::{Answer, Reason};
use crate::pool::Pool;
use hip_bytes::Backend;

impl<'b, B: Backend> Pool<'b, B> {
    #[tactic(auto, using(crate::proofs::Places::in_place))]
    pub(super) fn make_text(&mut self, t: usize) -> Result<Answer, Reason>
        ensures step { Step B.SHARES self.old (Command.Text t) (answer_of result) self.new }
    {
        self.find(t)?;
        self.slots[t].make_text()
    }

    #[tactic(auto, using(crate::proofs::Places::in_place))]
    pub(super) fn make_bytes(&mut self, t: usize) -> Result<Answer, Reason>
        ensures step { Step B.SHARES self.old (Command.Bytes t) (answer_of result) self.new }
    {
        self.find(t)?;
        self.slots[t].make_bytes()
    }
}
