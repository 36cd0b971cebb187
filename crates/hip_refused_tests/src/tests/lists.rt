//! Lists of commands. A refused one changes nothing, so that the others answer, and leave, what they do without it.
use super::commands::{
    Session, TEXTS, each_command, held_by, on_bytes, on_bytes_too, on_texts, three_pieces, ways,
};
use super::held::EACH_HELD;
use super::refusing::{each, equals, must, must_hold, must_meet, refuse, was_refused};
use hipstr::{Answer, Backend, Command, Kind, Meter, Pool, Rc, Reason, Slot, Unique, run};
use std::alloc::{AllocError, Global};
use std::process::Abort;

const SLOTS: usize = 8;

/// All of a list but the item at a position.
fn without<T: Copy + Drop>(rt: &impl Abort, alloc: Global, items: &[T], at: usize) -> Vec<T> {
    let mut rest = Vec::new(alloc);
    for (i, item) in items.iter().enumerate() {
        if i != at {
            must(rt, rest.push(*item));
        }
    }
    rest
}

/// The answers of commands where memory is ample.
fn answers_of<'b, B: Backend>(
    rt: &impl Abort,
    alloc: Global,
    pool: &mut Pool<'b, B>,
    commands: &[Command<'b>],
    meter: &mut Meter,
) -> Vec<Answer> {
    must(rt, run(alloc, pool, commands, meter))
}

/// The pool that a session begins with.
fn pool_of<B: Backend>(
    rt: &impl Abort,
    alloc: Global,
    session: Session<'_>,
    meter: &mut Meter,
) -> Pool<'static, B> {
    let mut pool = must(rt, Pool::<B>::new(alloc, SLOTS));
    answers_of(rt, alloc, &mut pool, session.before, meter);
    answers_of(rt, alloc, &mut pool, session.texts, meter);
    pool
}

/// Whether two slots hold the same, in the same way.
fn is_same<B: Backend>(slot: &Slot<'_, B>, other: &Slot<'_, B>) -> bool {
    slot.is_text() == other.is_text()
        && slot.as_bytes() == other.as_bytes()
        && slot.kind() == other.kind()
        && slot.capacity() == other.capacity()
}

/// The difference that two pools may have.
#[derive(Clone, Copy)]
enum Apart {
    Nothing,
    /// In this slot, the room that was taken, as by a `Mutate` that got along without what was refused.
    Room(usize),
    /// In this slot, how its bytes are held, or whether there are any, as after a refused `Mutate`.
    Bytes(usize),
}

/// Whether a slot holds the other's bytes, by length.
fn is_by_length<B: Backend>(slot: &Slot<'_, B>, bytes: &[u8]) -> bool {
    let is_short = bytes.len() <= 23;
    slot.as_bytes() == bytes
        && slot.kind()
            == if is_short {
                Kind::Inline
            } else {
                Kind::Allocated
            }
}

/// Whether two slots at a position hold the same, but for what may differ.
fn is_alike<B: Backend>(slot: &Slot<'_, B>, other: &Slot<'_, B>, at: usize, apart: Apart) -> bool {
    let is_like = match apart {
        Apart::Room(t) if t == at => is_by_length(slot, other.as_bytes()),
        Apart::Bytes(t) if t == at => {
            is_by_length(slot, other.as_bytes()) || is_by_length(slot, b"")
        }
        Apart::Nothing | Apart::Room(_) | Apart::Bytes(_) => false,
    };
    is_same(slot, other) || is_like && slot.is_text() == other.is_text()
}

/// Asserts that two pools hold the same, but for what may differ.
fn are_same<B: Backend>(rt: &impl Abort, pool: &Pool<'_, B>, other: &Pool<'_, B>, apart: Apart) {
    for i in 0..SLOTS {
        let slot = must(rt, pool.slot(i).ok_or("no slot"));
        let wanted = must(rt, other.slot(i).ok_or("no slot"));
        must_hold(rt, is_alike(slot, wanted, i, apart));
    }
}

/// The difference that a refused request may leave: in the slot of a `Mutate`, if there is one.
fn apart_by(commands: &[Command<'static>], refused_at: usize) -> Apart {
    for (i, command) in commands.iter().enumerate() {
        if let Command::Mutate(slot, _) = command {
            return if i == refused_at {
                Apart::Bytes(*slot)
            } else {
                Apart::Room(*slot)
            };
        }
    }
    Apart::Nothing
}

/// The answers, and the pool, are those of the list without the command that was refused, if one was.
fn is_list_without<B: Backend>(
    rt: &impl Abort,
    alloc: Global,
    session: Session<'_>,
    pool: &Pool<'_, B>,
    answers: &[Answer],
    refused: bool,
) {
    let refusal = answers
        .iter()
        .position(|answer| *answer == Answer::Refused(Reason::Memory));
    must_hold(rt, refused | refusal.is_none());
    let at = refusal.unwrap_or(usize::MAX);
    let rest = without(rt, alloc, session.commands, at);
    let mut meter = Meter::new();
    let mut other = pool_of::<B>(rt, alloc, session, &mut meter);
    let wanted = answers_of(rt, alloc, &mut other, rest.as_slice(), &mut meter);
    let given = without(rt, alloc, answers, at);
    equals(rt, &given.as_slice(), &wanted.as_slice());
    let apart = if refused {
        apart_by(session.commands, at)
    } else {
        Apart::Nothing
    };
    are_same(rt, pool, &other, apart);
}

fn is_run<B: Backend>(rt: &impl Abort, alloc: Global, session: Session<'_>, k: usize) -> bool {
    let mut meter = Meter::new();
    let mut pool = pool_of::<B>(rt, alloc, session, &mut meter);
    let before = meter.copied();
    refuse(alloc, k);
    let outcome = run(alloc, &mut pool, session.commands, &mut meter);
    let refused = was_refused(alloc);
    match outcome {
        Ok(answers) => is_list_without(rt, alloc, session, &pool, answers.as_slice(), refused),
        Err(AllocError) => {
            let other = pool_of::<B>(rt, alloc, session, &mut Meter::new());
            are_same(rt, &pool, &other, Apart::Nothing);
            equals(rt, &(refused, meter.copied()), &(true, before));
        }
    }
    refused
}

/// Runs a session on both backends, and says how many requests were refused.
fn on_both(rt: &impl Abort, alloc: Global, session: Session<'_>) -> usize {
    let on_rc = each(|k| is_run::<Rc>(rt, alloc, session, k));
    let on_unique = each(|k| is_run::<Unique>(rt, alloc, session, k));
    on_rc.saturating_add(on_unique)
}

/// Runs each command by itself.
fn by_themselves(
    rt: &impl Abort,
    alloc: Global,
    texts: &[Command<'static>],
    commands: &[Command<'static>],
) {
    for (i, command) in commands.iter().enumerate() {
        let alone = [*command];
        for held in EACH_HELD {
            let session = Session {
                before: held_by(*held),
                texts,
                commands: alone.as_slice(),
            };
            must_meet(rt, alloc, i, on_both(rt, alloc, session));
        }
    }
}

#[test]
fn commands_on_bytes(rt: HostRuntime) {
    by_themselves(&rt, rt.alloc(), &[], on_bytes());
    by_themselves(&rt, rt.alloc(), &[], on_bytes_too());
}

#[test]
fn commands_on_texts(rt: HostRuntime) {
    by_themselves(&rt, rt.alloc(), TEXTS, on_texts());
    by_themselves(&rt, rt.alloc(), TEXTS, ways());
}

#[test]
fn list_of_each_command(rt: HostRuntime) {
    on_both(&rt, rt.alloc(), each_command());
}

#[test]
fn pieces_of_93_bytes(rt: HostRuntime) {
    on_both(&rt, rt.alloc(), three_pieces());
}

/// A pool is refused just where a request was.
fn is_made<B: Backend>(rt: &impl Abort, alloc: Global, k: usize) -> bool {
    refuse(alloc, k);
    let pool = Pool::<B>::new(alloc, SLOTS);
    let refused = was_refused(alloc);
    equals(rt, &pool.is_err(), &refused);
    refused
}

#[test]
fn pools_made(rt: HostRuntime) {
    each(|k| is_made::<Rc>(&rt, rt.alloc(), k));
    each(|k| is_made::<Unique>(&rt, rt.alloc(), k));
}
