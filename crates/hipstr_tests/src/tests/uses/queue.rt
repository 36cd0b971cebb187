//! Two queues of two messages each: at `0` and `1` that subscriber receives, any other character is published.
use super::support::prints;
use hip_uses::queue::{PublishFault, Queue, publish};
use hipstr::bytes::HipByt;
use hipstr::{Backend, Rc, Unique};
use std::alloc::{AllocError, Global};

const ROWS: [(&str, &str); 5] = [
    ("", ""),
    ("0", "none\n"),
    ("ab010101", "published\npublished\na\na\nb\nb\nnone\nnone\n"),
    (
        "abc0c1d0",
        "published\npublished\na queue is full\na\na queue is full\na\npublished\nb\n",
    ),
    ("a0b1", "published\na\npublished\na\n"),
];

fn received<B: Backend>(alloc: Global, queue: &mut Queue<'_, B>) -> Result<String, AllocError> {
    let Some(message) = queue.receive() else {
        return String::from_str(alloc, "none");
    };
    let [byte] = message.as_slice() else {
        return String::from_str(alloc, "another message");
    };
    format!(in alloc; "{}", char::from(*byte))
}

fn told(alloc: Global, published: Result<(), PublishFault>) -> Result<String, AllocError> {
    match published {
        Ok(()) => String::from_str(alloc, "published"),
        Err(fault) => format!(in alloc; "{fault}"),
    }
}

fn message<B: Backend>(alloc: Global, byte: u8) -> Result<HipByt<'static, B>, AllocError> {
    HipByt::from_slice(alloc, &[byte])
}

fn step<B: Backend>(
    alloc: Global,
    queues: &mut [Queue<'static, B>],
    step: u8,
) -> Result<String, AllocError> {
    if let Some(queue) = queues.get_mut(usize::from(step.wrapping_sub(b'0'))) {
        return received(alloc, queue);
    }
    let message = message::<B>(alloc, step)?;
    told(alloc, publish(alloc, queues, &message))
}

fn shown<B: Backend>(alloc: Global, steps: &str) -> Result<String, AllocError> {
    let mut printed = String::new(alloc);
    let mut queues = [Queue::<B>::new(alloc, 2)?, Queue::new(alloc, 2)?];
    for byte in steps.as_bytes() {
        let line = step(alloc, &mut queues, *byte)?;
        writeln!(printed, "{line}")?;
    }
    Ok(printed)
}

#[test]
fn each_subscriber_receives_what_was_published(rt: HostRuntime) {
    let alloc = rt.alloc();
    for (steps, wanted) in ROWS {
        prints(&rt, steps, &shown::<Rc>(alloc, steps), wanted);
        prints(&rt, steps, &shown::<Unique>(alloc, steps), wanted);
    }
}
