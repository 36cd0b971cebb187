//! Runs the lists of commands (`sessions`), the texts that are cut once (`cuts`) and those that are taken apart (`ways`).
use super::cuts::{Cut, parted, stripped, trimmed};
use super::sessions::{
    Row, Session, borrowed_pieces, cases, cuts, empty, four_pushes, many_bytes, pieces, pushed,
    pushed_slice, room_for_24, set_on_shared, shrunk, texts, writes,
};
use super::support::{equals, must, must_hold};
use super::ways::{Taken, Way, all};
use hipstr::{
    Answer, Backend, Command, End, Kind, LocalHipByt, Meter, Pool, Rc, Reason, Slot, Unique, run,
};
use std::alloc::Global;
use std::ops::Bound;
use std::process::Abort;

/// The answers of commands. It drops the contract of `run`: a function that knows it is dear to prove, and a test compares.
fn answers_to<'b, B: Backend>(
    rt: &impl Abort,
    alloc: Global,
    pool: &mut Pool<'b, B>,
    commands: &[Command<'b>],
    meter: &mut Meter,
) -> Vec<Answer> {
    must(rt, run(alloc, pool, commands, meter))
}

/// Runs the commands of the rows, and compares their answers.
fn answers<'b, B: Backend>(
    rt: &impl Abort,
    alloc: Global,
    pool: &mut Pool<'b, B>,
    rows: &[(Command<'b>, Answer)],
    meter: &mut Meter,
) {
    let mut commands = Vec::new(alloc);
    let mut wanted = Vec::new(alloc);
    for (command, answer) in rows {
        must(rt, commands.push(*command));
        must(rt, wanted.push(*answer));
    }
    let answers = answers_to(rt, alloc, pool, commands.as_slice(), meter);
    equals(rt, &answers.as_slice(), &wanted.as_slice());
}

fn plays<B: Backend>(rt: &impl Abort, alloc: Global, session: Session) {
    assert!(rt; session.slots <= 8);
    let mut pool = must(rt, Pool::<B>::new(alloc, session.slots));
    answers(rt, alloc, &mut pool, session.rows, &mut Meter::new());
    for (i, bytes, is_lent) in session.left {
        let slot = must(rt, pool.slot(*i).ok_or("no slot"));
        equals(
            rt,
            &(*i, slot.as_bytes(), slot.kind() == Kind::Borrowed),
            &(*i, *bytes, *is_lent),
        );
    }
}

/// A slice of 23 bytes copies them; one of 24, and a clone, copy none where owners are shared.
fn costs<B: Backend>(rt: &impl Abort, alloc: Global) {
    let mut pool = must(rt, Pool::<B>::new(alloc, 3));
    let mut meter = Meter::new();
    let rows: [Row; 4] = [
        (
            Command::Copy(0, b"abcdefghijklmnopqrstuvwxyz"),
            Answer::Done,
        ),
        (
            Command::Slice(0, 1, Bound::Unbounded, Bound::Excluded(23)),
            Answer::Done,
        ),
        (
            Command::Slice(0, 1, Bound::Unbounded, Bound::Excluded(24)),
            Answer::Done,
        ),
        (Command::Clone(0, 2), Answer::Done),
    ];
    answers(rt, alloc, &mut pool, &rows, &mut meter);
    equals(rt, &meter.copied(), &if B::SHARES { 49 } else { 99 });
}

/// While a clone lives, the two share one vector, which neither hands out.
fn shares_its_vector(rt: &impl Abort, alloc: Global) {
    let letters: &[u8] = b"abcdefghijklmnopqrstuvwxyz";
    let handle = must(rt, LocalHipByt::from_slice(alloc, letters));
    let clone = must(rt, handle.clone(alloc));
    let handle = must(rt, handle.into_vec(alloc).err().ok_or("a clone lives"));
    drop(clone);
    let vec = must(rt, handle.into_vec(alloc).or(Err("the only handle")));
    equals(rt, &vec.as_slice(), &letters);
}

fn capacity_of<B: Backend>(rt: &impl Abort, alloc: Global, pool: &mut Pool<B>) -> usize {
    let answers = answers_to(rt, alloc, pool, &[Command::Capacity(0)], &mut Meter::new());
    let [Answer::Number(capacity)] = answers.as_slice() else {
        panic!(rt; "no number");
    };
    *capacity
}

/// A sole owner is written in place, and gives its room back. One that never wrote in place would copy what stands there at the
/// second push and at the byte that is set.
fn in_place<B: Backend>(rt: &impl Abort, alloc: Global) {
    let mut pool = must(rt, Pool::<B>::new(alloc, 1));
    let mut meter = Meter::new();
    answers(rt, alloc, &mut pool, pushed(), &mut meter);
    equals(rt, &meter.copied(), &60);
    answers(rt, alloc, &mut pool, shrunk(), &mut meter);
    equals(rt, &(capacity_of(rt, alloc, &mut pool) < 200), &true);
}

/// A push past the room that is there moves the bytes that are kept once, to twice the room that is needed.
fn doubles(rt: &impl Abort, alloc: Global) {
    let many = must(rt, vec![in alloc; b'z'; 1000]);
    let mut pool = must(rt, Pool::<Unique>::new(alloc, 1));
    let mut meter = Meter::new();
    let rows = [
        (Command::Room(0, 64), Answer::Done),
        (Command::Push(0, &[b'x'; 30]), Answer::Done),
        (Command::Push(0, &[b'y'; 30]), Answer::Done),
    ];
    answers(rt, alloc, &mut pool, &rows, &mut meter);
    equals(rt, &meter.copied(), &60);
    let room = capacity_of(rt, alloc, &mut pool);
    let beyond = must(rt, many.get(..room.saturating_sub(59)).ok_or("more room"));
    let row = [(Command::Push(0, beyond), Answer::Done)];
    answers(rt, alloc, &mut pool, &row, &mut meter);
    let doubled = capacity_of(rt, alloc, &mut pool);
    equals(
        rt,
        &(meter.copied(), doubled / 2 > room),
        &(room as u128 + 61, true),
    );
}

/// A push of one byte after another copies each three times at most.
fn grows_one_by_one(rt: &impl Abort, alloc: Global) {
    let mut pool = must(rt, Pool::<Unique>::new(alloc, 1));
    let mut meter = Meter::new();
    answers(rt, alloc, &mut pool, room_for_24(), &mut meter);
    for _ in 0..2_500 {
        answers(rt, alloc, &mut pool, four_pushes(), &mut meter);
    }
    must_hold(rt, &meter.copied(), meter.copied() <= 30_000);
    answers(rt, alloc, &mut pool, many_bytes(), &mut meter);
}

fn pools<B: Backend>(rt: &impl Abort, alloc: Global) {
    let mut pool = must(rt, Pool::<B>::new(alloc, 3));
    equals(
        rt,
        &(pool.len(), pool.is_empty(), pool.slot(3).is_none()),
        &(3, false, true),
    );
    let answers = answers_to(rt, alloc, &mut pool, &[], &mut Meter::new());
    let none = must(rt, Pool::<B>::new(alloc, 0));
    equals(rt, &(answers.is_empty(), none.is_empty()), &(true, true));
}

/// Whether a slot holds this piece, borrowed as its text is, or nothing where there is none.
fn holds<B: Backend>(slot: Option<&Slot<'_, B>>, piece: Option<&str>) -> bool {
    match (slot, piece) {
        (Some(slot), Some(piece)) => {
            slot.as_bytes() == piece.as_bytes() && slot.kind() == Kind::Borrowed
        }
        (Some(slot), None) => slot.as_bytes().is_empty() && slot.kind() == Kind::Inline,
        (None, _) => false,
    }
}

/// Whether a text is cut as it should be, with nothing copied.
fn is_cut<B: Backend>(rt: &impl Abort, alloc: Global, cut: Cut) -> bool {
    let (text, command, first, second) = cut;
    let mut pool = must(rt, Pool::<B>::new(alloc, 3));
    let commands = [
        Command::Borrow(0, text.as_bytes()),
        Command::Text(0),
        command,
    ];
    let mut meter = Meter::new();
    let answers = answers_to(rt, alloc, &mut pool, &commands, &mut meter);
    let wanted = if first.is_some() {
        Answer::Done
    } else {
        Answer::Nothing
    };
    (answers.as_slice().last() == Some(&wanted))
        & holds(pool.slot(1), first)
        & holds(pool.slot(2), second)
        & (meter.copied() == 0)
}

fn are_cut<B: Backend>(rt: &impl Abort, alloc: Global, cuts: &[Cut]) {
    for (i, cut) in cuts.iter().enumerate() {
        must_hold(rt, &(i, cut.0), is_cut::<B>(rt, alloc, *cut));
    }
}

/// Cuts each of these texts.
fn cuts_all<B: Backend>(rt: &impl Abort, alloc: Global) {
    are_cut::<B>(rt, alloc, trimmed());
    are_cut::<B>(rt, alloc, stripped());
    are_cut::<B>(rt, alloc, parted());
}

/// Whether a text is taken apart by a script as it should be, with nothing copied.
fn takes_apart<'s, B: Backend>(
    rt: &impl Abort,
    alloc: Global,
    text: &'s str,
    way: Way,
    script: &'s [End],
) -> bool {
    let (how, has_both_ends, pieces) = way;
    let mut pool = must(rt, Pool::<B>::new(alloc, 7));
    let commands = [
        Command::Borrow(0, text.as_bytes()),
        Command::Text(0),
        Command::Pieces(0, how, script, 1),
    ];
    let mut meter = Meter::new();
    let answers = answers_to(rt, alloc, &mut pool, &commands, &mut meter);
    let is_refused = !has_both_ends && script.contains(&End::Back);
    let wanted = if is_refused {
        Answer::Refused(Reason::OneEnd)
    } else {
        Answer::Number(pieces.len().min(script.len()))
    };
    let mut is_so = answers.as_slice().last() == Some(&wanted) && meter.copied() == 0;
    let mut front = 0;
    let mut back = if is_refused { 0 } else { pieces.len() };
    for (i, end) in script.iter().enumerate() {
        let mut at = pieces.len();
        if front < back {
            match end {
                End::Front => {
                    at = front;
                    front += 1;
                }
                End::Back => {
                    back -= 1;
                    at = back;
                }
            }
        }
        is_so = is_so && holds(pool.slot(i + 1), pieces.get(at).copied());
    }
    is_so
}

/// Six ends, which are the digits of a number.
fn ends_of(number: u8) -> [End; 6] {
    let mut script = [End::Front; 6];
    let mut digits = number;
    for end in &mut script {
        if digits % 2 == 1 {
            *end = End::Back;
        }
        digits /= 2;
    }
    script
}

/// Takes a text apart in each of these ways, by each beginning of a script.
fn takes_each_apart<B: Backend>(rt: &impl Abort, alloc: Global, taken: Taken, script: &[End; 6]) {
    let (text, ways) = taken;
    for (i, way) in ways.iter().enumerate() {
        for count in 0..7 {
            let is_so = takes_apart::<B>(rt, alloc, text, *way, &script[..count]);
            must_hold(rt, &(text, i, &script[..count]), is_so);
        }
    }
}

/// Takes each text apart by every script of up to six ends: a script of six is the digits of a number, and the others are its beginnings.
fn takes_all_apart<B: Backend>(rt: &impl Abort, alloc: Global) {
    for number in 0..64 {
        for taken in all() {
            takes_each_apart::<B>(rt, alloc, *taken, &ends_of(number));
        }
    }
}

/// All tests of this module, on a backend.
pub(crate) fn on<B: Backend>(rt: &impl Abort, alloc: Global) {
    pools::<B>(rt, alloc);
    plays::<B>(rt, alloc, cuts());
    plays::<B>(rt, alloc, writes());
    plays::<B>(rt, alloc, texts());
    plays::<B>(rt, alloc, pieces());
    plays::<B>(rt, alloc, cases());
    plays::<B>(rt, alloc, empty());
    cuts_all::<B>(rt, alloc);
    takes_all_apart::<B>(rt, alloc);
    costs::<B>(rt, alloc);
    in_place::<B>(rt, alloc);
}

/// A machine that refuses whatever may be refused for memory is proved, and fails here.
#[test]
fn nothing_is_refused_where_there_is_memory(rt: HostRuntime) {
    plays::<Rc>(&rt, rt.alloc(), pushed_slice());
    plays::<Unique>(&rt, rt.alloc(), pushed_slice());
    plays::<Rc>(&rt, rt.alloc(), set_on_shared());
    plays::<Unique>(&rt, rt.alloc(), set_on_shared());
    plays::<Rc>(&rt, rt.alloc(), borrowed_pieces());
    plays::<Unique>(&rt, rt.alloc(), borrowed_pieces());
}

#[test]
fn lists_of_commands_answer_as_told(rt: HostRuntime) {
    on::<Rc>(&rt, rt.alloc());
    on::<Unique>(&rt, rt.alloc());
}

/// A body that copies past the counter, or keeps a vector for each handle, is proved, and fails here.
#[test]
fn a_shared_owner_is_not_copied(rt: HostRuntime) {
    costs::<Rc>(&rt, rt.alloc());
    costs::<Unique>(&rt, rt.alloc());
    shares_its_vector(&rt, rt.alloc());
}

/// A backend that never writes in place is proved: no contract counts owners.
#[test]
fn a_sole_owner_is_written_in_place(rt: HostRuntime) {
    in_place::<Rc>(&rt, rt.alloc());
    in_place::<Unique>(&rt, rt.alloc());
}

/// The bytes that an owner which no other shares copies as it grows.
#[test]
fn a_full_room_doubles(rt: HostRuntime) {
    doubles(&rt, rt.alloc());
    grows_one_by_one(&rt, rt.alloc());
}
