//! The message for a line that is no command, and the exit status.
use super::support::{equals, must, must_refuse};
use hip_script::play::play;
use hipstr::Rc;
use std::alloc::Global;
use std::process::Abort;

/// A script, and the line that is told of it.
const TOLD: &[(&str, &str)] = &[
    ("copy 0 abc", "line 1: not a command"),
    ("copy 0 abc\n", "line 1: not a command"),
    ("copy 0 \"abc\"\ncopy 0 abc\n", "line 2: not a command"),
];

/// Nothing is printed, since nothing is run. The program plays on `Rc`; that either backend tells the line is tested with other bad lines.
fn is_told(rt: &impl Abort, alloc: Global, script: &str, line: &str) {
    let mut printed = Vec::new(alloc);
    let ended = play::<Rc, _, _>(alloc, script.as_bytes(), &mut printed);
    let fault = must_refuse(rt, ended);
    let told = must(rt, format!(in alloc; "{fault}"));
    equals(
        rt,
        &(told.as_str(), fault.status(), printed.is_empty()),
        &(line, 2, true),
    );
}

#[test]
fn a_line_that_is_no_command_is_told_by_its_number(rt: HostRuntime) {
    for (script, line) in TOLD {
        is_told(&rt, rt.alloc(), script, line);
    }
}
