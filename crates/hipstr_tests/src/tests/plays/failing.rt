//! Failing and slow readers and writers, and the texts of faults.
use super::super::support::equals;
use super::support::{FIRST_ANSWERS, FIRST_RUN, WELL, ends, played_by};
use hip_script::PlayFault;
use hip_script::play::play;
use hipstr::{Backend, Rc, Unique};
use std::alloc::Global;
use std::io;
use std::io::{ErrorKind, Read};
use std::process::Abort;
use std::test::Fail;

/// Pieces of a borrowed text, from both ends.
const PIECES: &str =
    "borrow 0 \"a,b,c,d\"\ntext 0\npieces 0 split char \",\" FBBFF 1\nshow 2\nkind 2\n";

const PIECES_ANSWERS: &str = "done\ndone\n4\ntext \"d\"\nborrowed\n";

/// Plays a script from a reader that gives one byte a call, and fails at its `k`-th call alone: at any up to the one that finds the end
/// nothing is run, and nothing written.
fn is_read<B: Backend>(rt: &impl Abort, alloc: Global, script: &str, answers: &str, k: usize) {
    let played = played_by::<B>(alloc, script.as_bytes(), (1, k as u64), WELL);
    let wanted: (&[u8], Result<(), PlayFault>) = if 0 < k && k <= script.len() + 1 {
        (b"", Err(PlayFault::ReadFailed))
    } else {
        (answers.as_bytes(), Ok(()))
    };
    ends(rt, &k, &played, wanted);
}

/// Plays a script into a writer that takes one byte a call, and fails at its `k`-th call alone: nothing is written after a failure.
fn is_written<B: Backend>(rt: &impl Abort, alloc: Global, script: &str, answers: &str, k: usize) {
    let played = played_by::<B>(alloc, script.as_bytes(), WELL, (1, k as u64));
    let wanted = if 0 < k && k <= answers.len() {
        (&answers.as_bytes()[..k - 1], Err(PlayFault::WriteFailed))
    } else {
        (answers.as_bytes(), Ok(()))
    };
    ends(rt, &k, &played, wanted);
}

/// Failures at each call, and past the last.
fn fails_at_each<B: Backend>(rt: &impl Abort, alloc: Global) {
    for (script, answers) in [(FIRST_RUN, FIRST_ANSWERS), (PIECES, PIECES_ANSWERS)] {
        for k in 0..script.len() + 4 {
            is_read::<B>(rt, alloc, script, answers, k);
        }
        for k in 0..answers.len() + 3 {
            is_written::<B>(rt, alloc, script, answers, k);
        }
    }
}

#[test]
fn failing_calls(rt: HostRuntime) {
    fails_at_each::<Rc>(&rt, rt.alloc());
    fails_at_each::<Unique>(&rt, rt.alloc());
}

#[test]
fn failed_read_before_bad_line(rt: HostRuntime) {
    let played = played_by::<Rc>(rt.alloc(), b"bad\n", (100, 2), WELL);
    ends(&rt, &"bad", &played, (b"", Err(PlayFault::ReadFailed)));
}

/// A reader that finds no memory.
#[derive(Drop)]
struct Starved;

impl Read for Starved {
    fn read(&mut self, _buf: &mut [u8]) -> io::Result<usize> {
        Err(io::Error::from(ErrorKind::OutOfMemory))
    }
}

/// A refusal of memory is told as such, whoever asked for it.
#[test]
fn starved_reader(rt: HostRuntime) {
    let mut out = Vec::new(rt.alloc());
    let ended = play::<Rc, _, _>(rt.alloc(), Starved, &mut out);
    ends(
        &rt,
        &"nothing",
        &(out, ended),
        (b"", Err(PlayFault::Memory)),
    );
}

#[test]
fn writer_that_takes_nothing(rt: HostRuntime) {
    let played = played_by::<Rc>(rt.alloc(), FIRST_RUN.as_bytes(), WELL, (0, 0));
    ends(&rt, &FIRST_RUN, &played, (b"", Err(PlayFault::WriteFailed)));
}

/// More answers than the buffer holds, and then a failure: what was written stays.
#[test]
fn failure_in_mid_stream(rt: HostRuntime) -> Result<(), Fail> {
    let script = "new 0\n".repeat(rt.alloc(), 4000)?;
    let answers = "done\n".repeat(rt.alloc(), 4000)?;
    let (written, ended) = played_by::<Rc>(rt.alloc(), script.as_bytes(), WELL, (5000, 3));
    equals(
        &rt,
        &(
            ended,
            written.is_empty(),
            answers.as_bytes().starts_with(written.as_slice()),
        ),
        &(Err(PlayFault::WriteFailed), false, true),
    );
    Ok(())
}

/// A fault, its text, and the exit status.
fn faults() -> &'static [(PlayFault, &'static str, u8)] {
    &[
        (PlayFault::NotACommand(12), "line 12: not a command", 2),
        (PlayFault::ReadFailed, "read failed", 1),
        (PlayFault::WriteFailed, "write failed", 1),
        (PlayFault::Memory, "out of memory", 1),
    ]
}

#[test]
fn fault_lines(rt: HostRuntime) -> Result<(), Fail> {
    for (fault, line, status) in faults() {
        let text = format!(in rt.alloc(); "{fault}")?;
        equals(&rt, &(text.as_str(), fault.status()), &(*line, *status));
    }
    Ok(())
}
