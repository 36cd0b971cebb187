//! Scripts longer than what is run or written at once: numbers, literals and answers of each length on both sides of a limit, whose values
//! are put together here.
use super::super::support::equals;
use super::support::{WELL, ends, played, played_by};
use hip_script::PlayFault;
use hip_script::play::{play_script, play_to};
use hipstr::{Rc, Unique};
use std::alloc::Global;
use std::process::Abort;
use std::test::Fail;

/// Texts whose lengths have each count of digits up to six, on both sides of the next.
const LENGTHS: &[&str] = &[
    "0", "1", "9", "10", "99", "100", "999", "1000", "9999", "10000", "99999", "100000",
];

#[test]
fn lengths(rt: HostRuntime) -> Result<(), Fail> {
    for length in LENGTHS {
        let script = format!(in rt.alloc(); "copy 0 \"a\"\nrepeat 0 1 {length}\nlen 1\n")?;
        let answers = format!(in rt.alloc(); "done\ndone\n{length}\n")?;
        prints(&rt, rt.alloc(), script.as_str(), answers.as_str());
    }
    Ok(())
}

/// A byte and a character that is taken off, as the number that it is.
const TAKEN: &[(&str, &str)] = &[
    ("copy 0 \"\\x00\"\npop 0\n", "done\nbyte 0\n"),
    ("copy 0 \"\\x63\"\npop 0\n", "done\nbyte 99\n"),
    ("copy 0 \"\\xff\"\npop 0\n", "done\nbyte 255\n"),
    (
        "copy 0 \"\\xc2\\xa2\"\ntext 0\npop 0\n",
        "done\ndone\nchar 162\n",
    ),
    (
        "copy 0 \"\\xe2\\x82\\xac\"\ntext 0\npop 0\n",
        "done\ndone\nchar 8364\n",
    ),
    (
        "copy 0 \"\\xf4\\x8f\\xbf\\xbf\"\ntext 0\npop 0\n",
        "done\ndone\nchar 1114111\n",
    ),
];

#[test]
fn taken_off(rt: HostRuntime) {
    for (script, answers) in TAKEN {
        prints(&rt, rt.alloc(), script, answers);
    }
}

/// The bytes that follow some plain bytes of a literal, and how they are printed; nothing where the line is no command.
const BEHIND_PLAIN: &[(&str, &str)] = &[
    ("\"", "\""),
    ("\\\"\"", "\\\"\""),
    ("\\\\ and more\"", "\\\\ and more\""),
    ("\\x41b\\xFE\"", "Ab\\xfe\""),
    ("\\x4\"", ""),
    ("\\n\"", ""),
    ("\\", ""),
    ("", ""),
    ("\" ", ""),
    ("\"\"", ""),
];

/// Literals on both sides of sixteen bytes, and of twice as many.
#[test]
fn literals(rt: HostRuntime) -> Result<(), Fail> {
    for count in 0..36 {
        let plain = "x".repeat(rt.alloc(), count)?;
        for (behind, printed) in BEHIND_PLAIN {
            let script = format!(in rt.alloc(); "copy 0 \"{plain}{behind}\nshow 0\n")?;
            let answers = format!(in rt.alloc(); "done\nbytes \"{plain}{printed}\n")?;
            let wanted = if printed.is_empty() {
                (&b""[..], Err(PlayFault::NotACommand(1)))
            } else {
                (answers.as_bytes(), Ok(()))
            };
            ends(
                &rt,
                &script,
                &played::<Rc>(rt.alloc(), script.as_str()),
                wanted,
            );
        }
    }
    Ok(())
}

/// More commands than are run at once, and a line between that is none.
#[test]
fn many_commands(rt: HostRuntime) -> Result<(), Fail> {
    for count in [1, 255, 256, 257, 511, 512, 513] {
        let pushes = "push 0 \"ab\"\n".repeat(rt.alloc(), count)?;
        let done = "done\n".repeat(rt.alloc(), count)?;
        let bytes = "ab".repeat(rt.alloc(), count)?;
        let script = format!(in rt.alloc(); "{pushes}show 0\nclear 0\nlen 0\n")?;
        let answers = format!(in rt.alloc(); "{done}bytes \"{bytes}\"\ndone\n0\n")?;
        prints(&rt, rt.alloc(), script.as_str(), answers.as_str());
    }
    Ok(())
}

/// Numbers of several lengths around the end of the 8 KiB that are gathered, into a writer that takes one byte a call and fails at its
/// `k`-th call alone: what went out is all before that byte.
#[test]
fn failure_around_the_buffer(rt: HostRuntime) -> Result<(), Fail> {
    let numbers = "len 0\nlen 1\nlen 2\n".repeat(rt.alloc(), 800)?;
    let printed = "7\n54321\n100\n".repeat(rt.alloc(), 800)?;
    let first = "copy 0 \"abcdefg\"\ncopy 3 \"a\"\nrepeat 3 1 54321\nrepeat 3 2 100\n";
    let script = format!(in rt.alloc(); "{first}{numbers}")?;
    let answers = format!(in rt.alloc(); "done\ndone\ndone\ndone\n{printed}")?;
    for k in 8180..8204 {
        let played = played_by::<Rc>(rt.alloc(), script.as_bytes(), WELL, (1, k as u64));
        let front = &answers.as_bytes()[..k - 1];
        ends(&rt, &k, &played, (front, Err(PlayFault::WriteFailed)));
    }
    Ok(())
}

/// A script from a lent reader, and one in memory, to a lent writer, which has bytes already.
#[test]
fn lent(rt: HostRuntime) -> Result<(), Fail> {
    let mut reader = &b"new 0\nlen 0\n"[..];
    let mut written = Vec::from_slice(rt.alloc(), b"> ")?;
    let ended = play_to::<Unique, _, _>(rt.alloc(), &mut reader, &mut written);
    equals(
        &rt,
        &(written.as_slice(), ended, reader.len()),
        &(&b"> done\n0\n"[..], Ok(()), 0),
    );
    let ended = play_script::<Unique, _>(rt.alloc(), b"copy 0 \"ab\"\nlen 0\n", &mut written);
    ends(
        &rt,
        &"in memory",
        &(written, ended),
        (b"> done\n0\ndone\n2\n", Ok(())),
    );
    Ok(())
}

/// A script prints these answers on either backend.
fn prints(rt: &impl Abort, alloc: Global, script: &str, answers: &str) {
    let wanted = (answers.as_bytes(), Ok(()));
    ends(rt, &script, &played::<Rc>(alloc, script), wanted);
    ends(rt, &script, &played::<Unique>(alloc, script), wanted);
}
