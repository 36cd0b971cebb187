//! Queues of messages: what is published goes to each subscriber as a clone of one handle.
#![tactic(auto, using(crate::proofs::Published::queues))]

ghost use Rattle.std.specs.Prelude.{◌≡◌, ◌↔◌, ◌*◌, [], ◌∷◌, length, true, vec_len, All, Any, IfOk, IsErrOf, IsTrue, MatchBool, MatchOption, OnErr, OnOk};
ghost use Rattle.std.specs.Bool.{OnFalse};
ghost use Rattle.hipstr.specs.Cost.{clone_cost};
ghost use Rattle.hipstr.specs.Meter.{RisesAtMost};
ghost use Rattle.hip_uses.specs.Waiting.{HasRoom, IsFull, all_with, message_of, with_message};
ghost use Rattle.hip_uses.specs.declared.fault.PublishFault.TheVariants.{Full};

pub use crate::fault::PublishFault;
use hipstr::bytes::HipByt;
use hipstr::laws::one_part_copies_little;
use hipstr::{Backend, Meter};
use std::alloc::{AllocError, Global};
use std::collections::VecDeque;
use std::marker::Model;

/// The messages that one subscriber has still to receive: at most a number that is fixed, with room for all of them.
#[derive(Drop)]
pub struct Queue<'b, B: Backend> {
    messages: VecDeque<HipByt<'b, B>>,
    limit: usize,
}

impl<'b, B: Backend> Model for Queue<'b, B> {
    ghost use Rattle.std.specs.Prelude.{◌≤◌, length, map};
    ghost use Rattle.std.specs.VecDeque.{deque_capacity};
    ghost use Rattle.hip_uses.specs.Waiting.{Waiting, message_of};

    ghost Value = { Waiting };

    ghost view = { λ queue.
        record { messages = map message_of queue.messages.items; limit = queue.limit } };

    ghost invariant = { λ queue. (length queue.messages.items ≤ queue.limit)
        × (queue.limit ≤ deque_capacity queue.messages) };
}

impl<'b, B: Backend> Queue<'b, B> {
    /// A queue of at most `limit` messages.
    pub fn new(alloc: Global, limit: usize) -> Result<Self, AllocError>
        ensures { IfOk result (λ queue. queue ≡ record { messages = []; limit = limit }) }
    {
        let messages = VecDeque::with_capacity(alloc, limit)?;
        Ok(Queue { messages, limit })
    }

    pub fn is_full(&self) -> bool
        ensures { MatchBool result (IsFull self.now) (HasRoom self.now) }
    {
        self.messages.len() >= self.limit
    }

    /// Puts a message at the end.
    pub fn push(&mut self, message: HipByt<'b, B>)
        requires { HasRoom self.old }
        ensures { self.new ≡ with_message (message_of message.entry) self.old }
    {
        self.messages.push_back_reserved(message);
    }

    /// Takes the first message, if there is one.
    pub fn receive(&mut self) -> Option<HipByt<'b, B>>
        ensures first { MatchOption result (self.old.messages ≡ [])
            (λ message. self.old.messages ≡ message_of message ∷ self.new.messages) }
        ensures limit { self.new.limit ≡ self.old.limit }
    {
        self.messages.pop_front()
    }
}

fn any_full<B: Backend>(queues: &[Queue<'_, B>]) -> bool
    ensures full { IsTrue result ↔ Any IsFull queues.now }
    ensures room { OnFalse result (All HasRoom queues.now) }
{
    queues.iter().any(|queue| queue.is_full())
}

/// `count` clones of a message.
fn clones_of<'b, B: Backend>(
    alloc: Global,
    message: &HipByt<'b, B>,
    count: usize,
    meter: &mut Meter,
) -> Result<Vec<HipByt<'b, B>>, AllocError>
    ensures count { IfOk result (λ clones. vec_len clones ≡ count) }
    ensures equal { IfOk result (λ clones.
        All (λ clone. message_of clone ≡ message_of message.now) clones.items) }
    ensures counted { RisesAtMost meter.old meter.new
        (count * clone_cost B.SHARES message.now.kind (length message.now.items)) }
{
    let mut clones = Vec::with_capacity(alloc, count)?;
    while clones.len() < count {
        clones.push_reserved(message.clone_metered(alloc, meter)?);
    }
    Ok(clones)
}

/// Publishes a message to each subscriber, or to none: a clone to each, of the message's kind.
pub fn publish<'b, B: Backend>(
    alloc: Global,
    queues: &mut [Queue<'b, B>],
    message: &HipByt<'b, B>,
) -> Result<(), PublishFault>
    ensures published { OnOk result (queues.new ≡ all_with (message_of message.now) queues.old) }
    ensures refused { OnErr result (queues.new ≡ queues.old) }
    ensures full { IsErrOf result Full ↔ Any IsFull queues.old }
{
    publish_metered(alloc, queues, message, &mut Meter::new())
}

/// [`publish`], counted. Where owners are shared, each clone copies at most 23 bytes, and none of a borrowed message.
pub fn publish_metered<'b, B: Backend>(
    alloc: Global,
    queues: &mut [Queue<'b, B>],
    message: &HipByt<'b, B>,
    meter: &mut Meter,
) -> Result<(), PublishFault>
    ensures published { OnOk result (queues.new ≡ all_with (message_of message.now) queues.old) }
    ensures refused { OnErr result (queues.new ≡ queues.old) }
    ensures full { IsErrOf result Full ↔ Any IsFull queues.old }
    ensures counted { RisesAtMost meter.old meter.new
        (length queues.old * clone_cost B.SHARES message.now.kind (length message.now.items)) }
    ensures shared { B.SHARES ≡ true →
        RisesAtMost meter.old meter.new (23 * length queues.old) }
{
    one_part_copies_little::<B>();
    if any_full(queues) {
        return Err(PublishFault::Full);
    }
    let mut clones = clones_of(alloc, message, queues.len(), meter)?;
    for queue in queues.iter_mut() {
        let Some(clone) = clones.pop() else {
            unreachable!();
        };
        queue.push(clone);
    }
    Ok(())
}
