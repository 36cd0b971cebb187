ghost use Rattle.std.specs.Prelude.{◌≡◌, ℕ, ◌+◌, false, IfOk, OnErr};
ghost use Rattle.hip_bytes.specs.Meter.{RisesAtLeast, RisesAtMost};
ghost use Rattle.hipstr.specs.Amortised.{pots, PushesArePaid, RunAmortised};
ghost use Rattle.hipstr.specs.Reason.{answer_of};
ghost use Rattle.hipstr.specs.Step.{Step, Costs, counts_of};
ghost use Rattle.hipstr.specs.Run.{Run};

use crate::command::{Answer, Command, Reason};
use crate::pool::Pool;
use hip_bytes::{Backend, Meter};
use std::alloc::{AllocError, Global};

mod change;
mod cut;
mod flag;
mod join;
mod make;
mod parts;
mod pieces;
mod slot;
mod tell;
mod write;

impl<'b, B: Backend> Pool<'b, B> {
    /// Performs one command.
    fn perform(
        &mut self,
        alloc: Global,
        command: &Command<'b>,
        meter: &mut Meter,
    ) -> Result<Answer, Reason>
        ensures step { Step B.SHARES self.old command.now (answer_of result) self.new }
        ensures counted { (cost : ℕ) × Costs B.SHARES self.old command.now cost
            × RisesAtMost meter.old meter.new cost }
        ensures copied { RisesAtLeast meter.old meter.new
            (counts_of B.SHARES self.old command.now (answer_of result) self.new) }
        ensures paid { PushesArePaid B.SHARES self.old command.now self.new meter.old meter.new }
    {
        match *command {
            Command::New(t) => self.make_new(t),
            Command::Inline(t, bytes) => self.make_inline(t, bytes, meter),
            Command::Borrow(t, bytes) => self.make_borrowed(t, bytes),
            Command::Copy(t, bytes) => self.make_copy(alloc, t, bytes, meter),
            Command::Room(t, capacity) => self.make_room(alloc, t, capacity),
            Command::Clone(s, t) => self.make_clone(alloc, s, t, meter),
            Command::Slice(s, t, low, high) => self.make_slice(alloc, s, t, low, high, meter),
            Command::Push(t, addition) => self.push(alloc, t, addition, meter),
            Command::Pop(t) => self.pop(t, meter),
            Command::Truncate(t, n) => self.truncate(t, n, meter),
            Command::Clear(t) => self.clear(t, meter),
            Command::Shrink(t, least) => self.shrink(alloc, t, least, meter),
            Command::Upper(t) => self.make_upper(alloc, t, meter),
            Command::Lower(t) => self.make_lower(alloc, t, meter),
            Command::Set(t, i, byte) => self.set(alloc, t, i, byte, meter),
            Command::Repeat(s, t, n) => self.make_repeat(alloc, s, t, n, meter),
            Command::Join(first, count, sep, t) => {
                self.make_join(alloc, first, count, sep, t, meter)
            }
            Command::Mutate(t, addition) => self.mutate(alloc, t, addition, meter),
            Command::Owned(t) => self.make_owned(alloc, t, meter),
            Command::Text(t) => self.make_text(t),
            Command::Bytes(t) => self.make_bytes(t),
            Command::Trim(s, t, side) => self.trim(alloc, s, t, side, meter),
            Command::TrimMatches(s, t, side, pattern) => {
                self.trim_matches(alloc, s, t, side, pattern, meter)
            }
            Command::Strip(s, t, end, pattern) => self.strip(alloc, s, t, end, pattern, meter),
            Command::Pieces(s, how, script, first) => {
                self.make_pieces(alloc, s, how, script, first, meter)
            }
            Command::Once(s, t, u, end, pattern) => {
                self.part_once(alloc, s, t, u, end, pattern, meter)
            }
            Command::Compare(s, t) => self.compare(s, t),
            Command::ComparePath(s, t) => self.compare_path(s, t),
            Command::Len(t) => self.tell_len(t),
            Command::Kind(t) => self.tell_kind(t),
            Command::Capacity(t) => self.tell_capacity(t),
        }
    }
}

/// Performs the commands in their order, and gives the answer to each.
///
/// A refused command doesn't end the run. Room for all answers is reserved first: `Err` says that it was refused, and then pool and meter
/// are as they were.
pub fn run<'b, B: Backend>(
    alloc: Global,
    pool: &mut Pool<'b, B>,
    commands: &[Command<'b>],
    meter: &mut Meter,
) -> Result<Vec<Answer>, AllocError>
    ensures run { IfOk result
        (λ answers. (least most : ℕ) × Run B.SHARES pool.old commands.now answers.items pool.new least most
        × RisesAtLeast meter.old meter.new least × RisesAtMost meter.old meter.new most) }
    ensures amortised { B.SHARES ≡ false
        → IfOk result (λ answers. (total : ℕ)
        × RunAmortised B.SHARES pool.old commands.now answers.items pool.new total
        × RisesAtMost meter.old meter.new (pots pool.old + total)) }
    ensures err { OnErr result (pool.new ≡ pool.old) }
    ensures nothing_counted { OnErr result (meter.new ≡ meter.old) }
{
    let mut answers = Vec::with_capacity(alloc, commands.len())?;
    for command in commands {
        answers.push_reserved(Answer::from(pool.perform(alloc, command, meter)));
    }
    Ok(answers)
}
